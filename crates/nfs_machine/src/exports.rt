//! The exported directories, who may use each, and how.

ghost use Rattle.std.specs.Prelude.{◌≡◌, map, MatchResult, IfSome};

use crate::export_faults::check_list;
use bytes::Bytes;
use std::alloc::{AllocError, Global};
use std::marker::Model;
use std::sync::Arc;
use thiserror::Error;

/// One export.
#[derive(Debug, Drop)]
pub struct Export {
    pub path: Bytes,
    pub read_only: bool,
    /// Address texts, or `*` for every host.
    pub hosts: Vec<Bytes>,
}

/// An export as it was given.
#[derive(Drop)]
pub struct ExportText {
    /// `/`, or parts led by slashes; at most 1,024 bytes.
    pub path: Bytes,
    /// `rw` or `ro`.
    pub mode: Bytes,
    /// From 1 to 1,024 address texts, or `*` for every host.
    pub hosts: Vec<Bytes>,
}

/// Why a list of exports is refused; the numbers are exports', from 1.
#[derive(Debug, Drop, Error, PartialEq, Eq)]
pub enum ExportError {
    #[error("export {0}: bad path")]
    BadPath(u32),
    #[error("export {0}: bad mode")]
    BadMode(u32),
    #[error("export {0}: no host")]
    NoHost(u32),
    /// An earlier export has the path.
    #[error("export {0}: double path")]
    DoublePath(u32),
    #[error("out of memory")]
    Memory,
    #[error("too many exports")]
    TooMany,
}

/// The exports in the order given; they are numbered from 1. Copies share one list.
#[derive(Drop)]
pub struct Exports {
    list: Arc<Vec<Export>>,
}

impl Model for Exports {
    ghost use Rattle.std.specs.Prelude.{List, map};
    ghost use Rattle.std.specs.Arc.{arc_value};
    ghost use Rattle.nfs_machine.specs.ExportFaults.{AreFaultless};
    ghost use Rattle.nfs_machine.specs.Exports.{ExportValue, export_value};

    ghost Value = { List ExportValue };

    ghost view = { λ e. map export_value (arc_value e.list).items };

    ghost invariant = { λ e. AreFaultless (map export_value (arc_value e.list).items) };
}

impl Clone for Exports {
    ghost is_clone = { λ exports copy. copy ≡ exports };

    fn clone(&self) -> Result<Exports, AllocError> {
        Ok(Exports {
            list: Arc::try_clone(&self.list)?,
        })
    }
}

impl PartialEq for Export {
    ghost use Rattle.std.specs.Bool.{Decides};
    ghost use Rattle.std.specs.Cmp.{partial_equiv_from_equiv};
    ghost use Rattle.nfs_machine.specs.Exports.{export_value};
    ghost use Rattle.nfs_machine.specs.SameExports.{is_same_equivalence, is_same_export};

    ghost eq = { is_same_export };

    ghost laws = { partial_equiv_from_equiv is_same_equivalence };

    fn eq(&self, other: &Export) -> bool
        ensures test { result ≡ is_same_export self.now other.now }
        ensures same { Decides result (export_value self.now ≡ export_value other.now) }
    {
        self.path == other.path && self.read_only == other.read_only && self.hosts == other.hosts
    }
}

impl Eq for Export {
    ghost use Rattle.nfs_machine.specs.SameExports.{is_same_equivalence};

    ghost laws = { is_same_equivalence };
}

impl PartialEq for Exports {
    ghost use Rattle.std.specs.Bool.{Decides};
    ghost use Rattle.std.specs.Cmp.{decided, partial_equiv_from_equiv};
    ghost use Rattle.nfs_machine.specs.SameExports.{exports_decide, same_exports};

    ghost eq = { same_exports };

    ghost laws = { partial_equiv_from_equiv (decided same_exports exports_decide) };

    fn eq(&self, other: &Exports) -> bool
        ensures test { result ≡ same_exports self.now other.now }
        ensures same { Decides result (self.now ≡ other.now) }
    {
        self.list == other.list
    }
}

impl Eq for Exports {
    ghost use Rattle.std.specs.Cmp.{decided};
    ghost use Rattle.nfs_machine.specs.SameExports.{exports_decide, same_exports};

    ghost laws = { decided same_exports exports_decide };
}

impl Export {
    ghost use Rattle.nfs_machine.specs.Exports.{admits, export_value};

    /// Whether this host may use the export: it is listed, or `*` is. It takes no memory.
    pub fn admits(&self, host: &Bytes) -> bool
        ensures { result ≡ admits (export_value self.now) host.now }
    {
        self.hosts.iter().any(|listed| *listed == *host || listed.as_slice() == b"*".as_slice())
    }
}

impl Exports {
    ghost use Rattle.nfs_machine.specs.Exports.{export_value};
    ghost use Rattle.nfs_machine.specs.ExportFaults.{AreFaultless, export_fault, export_of};

    /// The exports of these texts.
    ///
    /// # Errors
    ///
    /// `TooMany` above 64; else what is wrong with the first export at fault, where of several faults of one export the
    /// first of `BadPath`, `BadMode`, `NoHost`, `DoublePath` is told. `Memory` where nothing is wrong and the list's
    /// memory was refused.
    pub fn new(alloc: Global, list: Vec<ExportText>) -> Result<Exports, ExportError>
        ensures at_fault { IfSome (export_fault list.items) (λ fault. result ≡ Err fault) }
        ensures faultless { export_fault list.items ≡ None → MatchResult result
            (λ exports. exports ≡ map export_of list.items)
            (λ e. e ≡ ExportError.Memory) }
    {
        check_list(&list)?;
        let mut exports = Vec::with_capacity(alloc, list.len()).map_err(|_| ExportError::Memory)?;
        for ExportText { path, mode, hosts } in list {
            exports
                .push(Export {
                    path,
                    read_only: mode.as_slice() == b"ro".as_slice(),
                    hosts,
                })
                .map_err(|_| ExportError::Memory)?;
        }
        match Arc::new(alloc, exports) {
            Ok(list) => Ok(Exports { list }),
            Err(_) => Err(ExportError::Memory),
        }
    }

    /// The exports in order.
    pub fn list(&self) -> &[Export]
        ensures list { map export_value result.now ≡ self.now }
        ensures faultless { AreFaultless self.now }
    {
        &self.list
    }
}
