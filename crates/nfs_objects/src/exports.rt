//! The exports that live.

ghost use Rattle.std.specs.Prelude.{◌≡◌, ◌≤◌, ◌<◌, ◌+◌, ◌^◌, [], ◌∷◌, false, None, IfOk, length, option_copied};
ghost use Rattle.std.specs.List.{list_any};
ghost use Rattle.nfs_machine.specs.Bytes.{same_bytes};
ghost use Rattle.nfs_machine.specs.Exports.{every_host, export_value};
ghost use Rattle.nfs_machine.specs.Replacing.{export_with_path, is_exhausted, new_count, renumbered};
ghost use Rattle.nfs_objects.specs.ExportTables.{table_in};
ghost use Rattle.nfs_objects.specs.Roots.{root_choice};

use crate::view::Reserved;
use bytes::Bytes;
use nfs_machine::{Export, Exports};
use std::alloc::{AllocError, Global};
use std::marker::Model;
use std::sync::Arc;

/// An export that lives. A clause sees it as the machine does: its number, its root's, and the export as it is given.
#[derive(Drop)]
pub struct LivingExport {
    number: u32,
    root: u64,
    export: Export,
}

impl Model for LivingExport {
    ghost use Rattle.nfs_machine.specs.Exports.{LivingExport as Living, export_value};

    ghost Value = { Living };

    ghost view = { λ e. record { number = e.number; root = e.root; value = export_value e.export } };
}

impl LivingExport {
    ghost use Rattle.nfs_machine.specs.Exports.{admits};

    /// Its number, from 1. No other export ever has it.
    pub fn number(&self) -> u32
        ensures { result ≡ self.now.number }
    {
        self.number
    }

    /// The number of its root, a directory.
    pub fn root(&self) -> u64
        ensures { result ≡ self.now.root }
    {
        self.root
    }

    /// Its path, as it was given.
    pub fn path(&self) -> &Bytes
        ensures { result.now ≡ self.now.path }
    {
        &self.export.path
    }

    /// Whether nothing in it may be changed.
    pub fn is_read_only(&self) -> bool
        ensures { result ≡ self.now.read_only }
    {
        self.export.read_only
    }

    /// The hosts that may use it, as they were given: address texts, or `*` for every host.
    pub fn hosts(&self) -> &[Bytes]
        ensures { result.now ≡ self.now.hosts }
    {
        &self.export.hosts
    }

    /// Whether every host may use it: `*` is listed. It takes no memory.
    pub fn admits_all(&self) -> bool
        ensures { result ≡ list_any (λ host. same_bytes host every_host) self.now.hosts }
    {
        self.hosts()
            .iter()
            .any(|host| host.as_slice() == b"*".as_slice())
    }

    /// Whether this host may use it: it is listed, or `*` is. It takes no memory.
    pub fn admits(&self, host: &Bytes) -> bool
        ensures { result ≡ admits self.now.value host.now }
    {
        self.export.admits(host)
    }
}

impl PartialEq for LivingExport {
    ghost use Rattle.std.specs.Bool.{Decides};
    ghost use Rattle.std.specs.Cmp.{decided, partial_equiv_from_equiv};
    ghost use Rattle.nfs_objects.specs.Same.{same_living};
    ghost use Rattle.nfs_objects.specs.SameLaws.{living_decides};

    ghost eq = { same_living };

    ghost laws = { partial_equiv_from_equiv (decided same_living living_decides) };

    fn eq(&self, other: &LivingExport) -> bool
        ensures test { result ≡ same_living self.now other.now }
        ensures same { Decides result (self.now ≡ other.now) }
    {
        self.number == other.number
            && self.root == other.root
            && self.export.path == other.export.path
            && self.export.read_only == other.export.read_only
            && self.export.hosts == other.export.hosts
    }
}

impl Eq for LivingExport {
    ghost use Rattle.std.specs.Cmp.{decided};
    ghost use Rattle.nfs_objects.specs.Same.{same_living};
    ghost use Rattle.nfs_objects.specs.SameLaws.{living_decides};

    ghost laws = { decided same_living living_decides };
}

/// The living exports in the order given, and the greatest number that an export ever had. Copies share one list. A
/// list of exports that replaces another gives each path that stays the number and the root that it has, and each new
/// path a number above the greatest, so that no handle ever names an object of another export.
#[derive(Drop)]
pub struct ExportTable {
    list: Arc<Vec<LivingExport>>,
    last: u32,
}

impl Model for ExportTable {
    ghost use Rattle.std.specs.Arc.{arc_value};
    ghost use Rattle.nfs_objects.specs.ExportTables.{ExportTableValue, IsExportTable};

    ghost Value = { ExportTableValue };

    ghost view = { λ t. record { exports = (arc_value t.list).items; last = t.last } };

    ghost invariant = { λ t. IsExportTable (record { exports = (arc_value t.list).items; last = t.last }) };
}

impl Clone for ExportTable {
    ghost is_clone = { λ table copy. copy ≡ table };

    fn clone(&self) -> Result<ExportTable, AllocError> {
        Ok(ExportTable {
            list: Arc::try_clone(&self.list)?,
            last: self.last,
        })
    }
}

impl PartialEq for ExportTable {
    ghost use Rattle.std.specs.Bool.{Decides};
    ghost use Rattle.std.specs.Cmp.{decided, partial_equiv_from_equiv};
    ghost use Rattle.nfs_objects.specs.Same.{same_exports};
    ghost use Rattle.nfs_objects.specs.SameLaws.{exports_decide};

    ghost eq = { same_exports };

    ghost laws = { partial_equiv_from_equiv (decided same_exports exports_decide) };

    fn eq(&self, other: &ExportTable) -> bool
        ensures test { result ≡ same_exports self.now other.now }
        ensures same { Decides result (self.now ≡ other.now) }
    {
        self.last == other.last && self.list == other.list
    }
}

impl Eq for ExportTable {
    ghost use Rattle.std.specs.Cmp.{decided};
    ghost use Rattle.nfs_objects.specs.Same.{same_exports};
    ghost use Rattle.nfs_objects.specs.SameLaws.{exports_decide};

    ghost laws = { decided same_exports exports_decide };
}

impl ExportTable {
    ghost use Rattle.nfs_machine.specs.Exports.{opening_exports};
    ghost use Rattle.nfs_objects.specs.ExportTables.{IsExportTable};

    /// The table that a server opens with: the exports are numbered from 1 in the order given, and their roots have the
    /// same numbers.
    ///
    /// # Errors
    ///
    /// `AllocError` where the memory for the table was refused.
    pub fn opening(alloc: Global, exports: &Exports) -> Result<ExportTable, AllocError>
        ensures exports { IfOk result (λ t. t.exports ≡ opening_exports exports.now) }
        ensures last { IfOk result (λ t. t.last ≡ length exports.now) }
    {
        let given = exports.list();
        let mut list = Vec::with_capacity(alloc, given.len())?;
        for (index, export) in given.iter().enumerate() {
            let number = index as u32 + 1;
            list.push(LivingExport {
                number,
                root: number as u64,
                export: copy_export(export)?,
            })?;
        }
        Ok(ExportTable {
            list: Arc::new(alloc, list)?,
            last: given.len() as u32,
        })
    }

    /// A copy of the table that stands somewhere; an absent one is empty.
    ///
    /// # Errors
    ///
    /// `AllocError` where the memory for one more owner, or for an empty table, was refused.
    pub fn copied(alloc: Global, table: Option<&ExportTable>) -> Result<ExportTable, AllocError>
        ensures { IfOk result (λ t. t ≡ table_in (option_copied table.entry)) }
    {
        match table {
            Some(table) => table.clone(),
            None => Ok(ExportTable {
                list: Arc::new(alloc, Vec::new(alloc))?,
                last: 0,
            }),
        }
    }

    /// The table of the exports that replace these, in the order given: a path that was exported keeps its number and
    /// its root, and each new path has the next number above the last, and the next of these numbers for its root.
    ///
    /// # Errors
    ///
    /// `AllocError` where the memory for the table was refused.
    pub fn replaced(
        &self,
        alloc: Global,
        exports: &Exports,
        roots: &[Reserved],
    ) -> Result<ExportTable, AllocError>
        requires room { is_exhausted self.now.exports self.now.last exports.now ≡ false }
        requires roots { new_count self.now.exports exports.now ≤ length roots.now }
        ensures exports { IfOk result (λ t. t.exports ≡ renumbered self.now.exports
            (λ number. (root_choice roots.now self.now.last number).number) self.now.last exports.now) }
        ensures last { IfOk result (λ t. t.last ≡ self.now.last + new_count self.now.exports exports.now) }
    {
        let given = exports.list();
        let mut list = Vec::with_capacity(alloc, given.len())?;
        let mut last = self.last();
        for export in given {
            let living = self.kept_or_new(export, last, roots)?;
            last = last.max(living.number());
            list.push(living)?;
        }
        Ok(ExportTable {
            list: Arc::new(alloc, list)?,
            last,
        })
    }

    /// An export with the number and the root of its path; a new one with those that follow, where the last number so
    /// far is this one.
    fn kept_or_new(
        &self,
        export: &Export,
        last: u32,
        roots: &[Reserved],
    ) -> Result<LivingExport, AllocError>
        requires above { self.now.last ≤ last }
        requires room { export_with_path self.now.exports export.now.path ≡ None → last + 1 < 2 ^ 32 }
        requires roots { export_with_path self.now.exports export.now.path ≡ None →
            last + 1 ≤ self.now.last + length roots.now }
        ensures { IfOk result (λ living. living ∷ [] ≡ renumbered self.now.exports
            (λ number. (root_choice roots.now self.now.last number).number) last (export_value export.now ∷ [])) }
    {
        match self.with_path(&export.path) {
            Some(was) => Ok(LivingExport {
                number: was.number(),
                root: was.root(),
                export: copy_export(export)?,
            }),
            None => Ok(LivingExport {
                number: last + 1,
                root: roots[(last - self.last()) as usize].number,
                export: copy_export(export)?,
            }),
        }
    }

    /// How many of these exports have a path that is not exported.
    pub fn new_count(&self, exports: &Exports) -> u32
        ensures count { result ≡ new_count self.now.exports exports.now }
        ensures few { result ≤ 64 }
    {
        let mut count = 0;
        for export in exports.list() {
            if self.with_path(&export.path).is_none() {
                count += 1;
            }
        }
        count
    }

    /// Whether the numbers of the new ones among these exports would not fit 32 bits.
    pub fn is_exhausted(&self, exports: &Exports) -> bool
        ensures { result ≡ is_exhausted self.now.exports self.now.last exports.now }
    {
        self.last().checked_add(self.new_count(exports)).is_none()
    }

    /// The living export with a path.
    pub fn with_path(&self, path: &Bytes) -> Option<&LivingExport>
        ensures { option_copied result ≡ export_with_path self.now.exports path.now }
    {
        self.list().iter().find(|export| *export.path() == *path)
    }

    /// The greatest number that an export ever had; 0 where there was none.
    pub fn last(&self) -> u32
        ensures last { result ≡ self.now.last }
        ensures table { IsExportTable self.now }
    {
        self.last
    }

    /// The exports that live, in the order given.
    pub fn list(&self) -> &[LivingExport]
        ensures list { result.now ≡ self.now.exports }
        ensures table { IsExportTable self.now }
    {
        &self.list
    }
}

/// A copy of an export, which shares the texts.
fn copy_export(export: &Export) -> Result<Export, AllocError>
    ensures { IfOk result (λ copy. export_value copy ≡ export_value export.now) }
{
    Ok(Export {
        path: export.path.clone()?,
        read_only: export.read_only,
        hosts: export.hosts.clone()?,
    })
}
