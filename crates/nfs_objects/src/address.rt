//! Where objects stand in the store.

ghost use Rattle.std.specs.Prelude.{◌≡◌};
ghost use Rattle.nfs_objects.specs.Values.{is_addr};

/// Where an object stands.
#[derive(Clone, Copy, Debug, PartialEq, Eq, Hash)]
pub enum Addr {
    /// The table of exports.
    Exports,
    /// The object with this number, its fileid.
    Inode(u64),
    /// Which blocks of a file are there, of `MAP_BLOCKS` that follow each other.
    Map {
        /// The number of the file.
        file: u64,
        /// From 0.
        page: u64,
    },
    /// The bytes of a block of a file.
    Block {
        /// The number of the file.
        file: u64,
        /// From 0.
        index: u64,
    },
    /// A page of a directory: its entries with `PAGE_COOKIES` cookies that follow each other.
    Page {
        /// The number of the directory.
        directory: u64,
        /// From 0.
        page: u64,
    },
    /// A part of the names of a directory.
    Part {
        /// The number of the directory.
        directory: u64,
        /// Below `BUCKETS`.
        bucket: u8,
        /// Of its bucket, from 0.
        part: u32,
    },
    /// The table of mounts.
    Mounts,
    /// What a group of objects uses.
    Usage {
        /// The number of their export, from 1.
        export: u32,
        /// Below `GROUPS`.
        group: u8,
    },
    /// What the files whose number has this remainder modulo `LOCK_BUCKETS` have of locks, shares, requests and grants.
    Locks(u8),
}

/// Whether two addresses are one.
pub fn is_same(a: Addr, b: Addr) -> bool
    ensures { result ≡ is_addr a b }
{
    a == b
}
