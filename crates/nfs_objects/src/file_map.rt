//! What a file's inode tells of its bytes, which stand in blocks of their own.

ghost use Rattle.std.specs.Prelude.{◌≡◌, ◌<◌, ◌^◌, ◌&&◌, IfOk, IsOk, MatchOption, false, true, ℕ};
ghost use Rattle.nfs_objects.specs.Bits.{has, no_bits};
ghost use Rattle.nfs_objects.specs.FileMaps.{counts};

use crate::bits::Bits;
use std::alloc::AllocError;
use std::marker::Model;

/// How many bytes a file has, less than 2^63, which of its map pages are there, and whose blocks are remains: these
/// count as zeros, whatever stands there.
#[derive(Drop)]
pub struct FileMap {
    size: u64,
    pages: Bits,
    remains: Bits,
}

impl Model for FileMap {
    ghost use Rattle.std.specs.Prelude.{◌<◌, ◌^◌};
    ghost use Rattle.nfs_objects.specs.FileMaps.{FileMapValue};

    ghost Value = { FileMapValue };

    ghost view = { λ m. record { size = m.size; pages = m.pages; remains = m.remains } };

    ghost invariant = { λ m. m.size < 2 ^ 63 };
}

impl FileMap {
    /// A file of so many bytes, with these map pages and no remains.
    ///
    /// # Errors
    ///
    /// `AllocError` for 2^63 bytes or more: no memory has as many.
    pub fn new(size: u64, pages: Bits) -> Result<FileMap, AllocError>
        ensures value { IfOk result (λ map. map ≡ record { size = size; pages = pages; remains = no_bits }) }
        ensures ok { size < 2 ^ 63 → IsOk result }
    {
        if size > i64::MAX as u64 {
            return Err(AllocError);
        }
        Ok(FileMap {
            size,
            pages,
            remains: Bits::none(),
        })
    }

    /// The same file, where the blocks of these map pages are remains.
    pub fn with_remains(self, remains: Bits) -> FileMap
        ensures { result ≡ record self { remains = remains } }
    {
        FileMap {
            size: self.size,
            pages: self.pages,
            remains,
        }
    }

    /// In bytes.
    pub fn size(&self) -> u64
        ensures value { result ≡ self.now.size }
        ensures small { result < 2 ^ 63 }
    {
        self.size
    }

    /// Which map pages are there.
    pub fn pages(&self) -> Bits
        ensures { result ≡ self.now.pages }
    {
        self.pages
    }

    /// The map pages whose blocks are remains, there or not.
    pub fn remains(&self) -> Bits
        ensures { result ≡ self.now.remains }
    {
        self.remains
    }

    /// Whether a map page is there, and its blocks are no remains.
    pub fn counts(&self, page: u64) -> bool
        ensures { result ≡ counts self.now page }
    {
        self.pages.has(page) && !self.remains.has(page)
    }

    /// The last map page that is there and whose blocks are remains.
    pub fn last_remains(&self) -> Option<u64>
        ensures { MatchOption result
            ((page : ℕ) → (has self.now.pages page && has self.now.remains page) ≡ false)
            (λ page. (has self.now.pages page && has self.now.remains page) ≡ true) }
    {
        let end = self.pages.both(self.remains).end();
        if end == 0 {
            return None;
        }
        Some(end - 1)
    }

    /// The same.
    pub fn copy(&self) -> FileMap
        ensures { result ≡ self.now }
    {
        FileMap {
            size: self.size,
            pages: self.pages,
            remains: self.remains,
        }
    }
}

impl PartialEq for FileMap {
    ghost use Rattle.std.specs.Bool.{Decides};
    ghost use Rattle.std.specs.Cmp.{decided, partial_equiv_from_equiv};
    ghost use Rattle.nfs_objects.specs.Same.{same_file_map};
    ghost use Rattle.nfs_objects.specs.SameLaws.{file_map_decides};

    ghost eq = { same_file_map };

    ghost laws = { partial_equiv_from_equiv (decided same_file_map file_map_decides) };

    fn eq(&self, other: &FileMap) -> bool
        ensures test { result ≡ same_file_map self.now other.now }
        ensures same { Decides result (self.now ≡ other.now) }
    {
        self.size == other.size && self.pages == other.pages && self.remains == other.remains
    }
}

impl Eq for FileMap {
    ghost use Rattle.std.specs.Cmp.{decided};
    ghost use Rattle.nfs_objects.specs.Same.{same_file_map};
    ghost use Rattle.nfs_objects.specs.SameLaws.{file_map_decides};

    ghost laws = { decided same_file_map file_map_decides };
}
