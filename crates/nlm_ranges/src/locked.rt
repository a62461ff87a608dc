//! Files with what they have of locks.

ghost use Rattle.std.specs.Prelude.{◌≡◌, IfOk};

use crate::file::OneFile;
use std::alloc::{AllocError, Global};
use std::marker::Model;
use std::sync::Arc;

/// A file by its number, with the number of its export and what it has. Copies share what it has.
#[derive(Drop)]
pub struct LockedFile {
    number: u64,
    export: u32,
    file: Arc<OneFile>,
}

impl Model for LockedFile {
    ghost use Rattle.std.specs.Arc.{arc_value};
    ghost use Rattle.nlm_ranges.specs.Buckets.{LockedValue};

    ghost Value = { LockedValue };

    ghost view = { λ f. record { number = f.number; export = f.export; file = arc_value f.file } };
}

impl LockedFile {
    /// The file with this number, of the export with that number, has this.
    ///
    /// # Errors
    ///
    /// `AllocError` where the memory for it was refused.
    pub fn new(
        alloc: Global,
        number: u64,
        export: u32,
        file: OneFile,
    ) -> Result<LockedFile, AllocError>
        ensures { IfOk result (λ locked. locked ≡ record { number = number; export = export; file = file }) }
    {
        Ok(LockedFile {
            number,
            export,
            file: Arc::new(alloc, file)?,
        })
    }

    /// Its number.
    pub fn number(&self) -> u64
        ensures { result ≡ self.now.number }
    {
        self.number
    }

    /// The number of its export.
    pub fn export(&self) -> u32
        ensures { result ≡ self.now.export }
    {
        self.export
    }

    /// What it has.
    pub fn file(&self) -> &OneFile
        ensures { result.now ≡ self.now.file }
    {
        &self.file
    }
}

impl Clone for LockedFile {
    ghost is_clone = { λ file copy. copy ≡ file };

    fn clone(&self) -> Result<LockedFile, AllocError> {
        Ok(LockedFile {
            number: self.number,
            export: self.export,
            file: Arc::try_clone(&self.file)?,
        })
    }
}

impl PartialEq for LockedFile {
    ghost use Rattle.std.specs.Bool.{Decides};
    ghost use Rattle.std.specs.Cmp.{decided, partial_equiv_from_equiv};
    ghost use Rattle.nlm_ranges.specs.Same.{same_locked};
    ghost use Rattle.nlm_ranges.specs.SameLaws.{locked_decides};

    ghost eq = { same_locked };

    ghost laws = { partial_equiv_from_equiv (decided same_locked locked_decides) };

    fn eq(&self, other: &LockedFile) -> bool
        ensures test { result ≡ same_locked self.now other.now }
        ensures same { Decides result (self.now ≡ other.now) }
    {
        self.number == other.number && self.export == other.export && self.file == other.file
    }
}

impl Eq for LockedFile {
    ghost use Rattle.std.specs.Cmp.{decided};
    ghost use Rattle.nlm_ranges.specs.Same.{same_locked};
    ghost use Rattle.nlm_ranges.specs.SameLaws.{locked_decides};

    ghost laws = { decided same_locked locked_decides };
}
