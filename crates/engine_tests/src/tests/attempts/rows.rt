//! Which calls are counted: how many attempts each makes at most, and how many addresses it reads.
//!
//! An address more than a call has to know or to change is one too many. A call reads the exports, and what its handles
//! name. One that looks a name up, takes it away or adds it reads its part of the directory; one that takes it away or
//! adds it also its page, and where the bucket gets a part less or more, two other parts. What an object is counted in
//! is read where it comes or goes, or gets another size, and what a file has of locks where it goes.

use super::procedures::{
    ACCESS, CANCEL, CANCEL_MSG, CANCEL_RES, COMMIT, CREATE, DUMP, EXPORT, FREE_ALL, FSINFO, FSSTAT,
    GETATTR, GRANTED, GRANTED_MSG, GRANTED_RES, LINK, LOCK, LOCK_MSG, LOCK_RES, LOOKUP, MKDIR,
    MKNOD, MNT, MOUNT_NULL, NFS_NULL, NLM_NULL, NM_LOCK, PATHCONF, Procedure, READ, READDIR,
    READDIRPLUS, READLINK, REMOVE, RENAME, RMDIR, SETATTR, SHARE, SYMLINK, TEST, TEST_MSG,
    TEST_RES, UMNT, UMNTALL, UNLOCK, UNLOCK_MSG, UNLOCK_RES, UNSHARE, WRITE,
};

/// What stands in the arguments of a call.
#[derive(Clone, Copy)]
pub(super) enum Word {
    Is(u32),
    /// So many zeros.
    Zeros(u8),
    /// The handle of the root.
    Root,
    /// That of what was made last.
    Made,
    /// The name of this number.
    Name(u32),
    /// That of the last file of the root.
    Last,
    /// A name that is not there.
    Absent,
    /// The path of the deepest directory.
    Path,
    /// A host's name, or an owner's bytes.
    Owner,
    /// A whole lock of what was made last (RFC 1813, 6.1.3: nlm4_lock).
    Lock,
    /// The same of another owner.
    OtherLock,
    /// The cookie of what was granted last, if something was.
    Grant,
    /// The bytes of so many blocks.
    Blocks(u8),
}

/// A procedure with its arguments, how many attempts it makes at most, and how many addresses it reads at most, the
/// number of what it makes among them.
pub(super) type Row<'a> = (Procedure, &'a [Word], usize, usize);

/// Calls on a name of the root that is not there.
pub(super) const ON_NEW_NAMES: &[Row<'static>] = &[
    (LOOKUP, &[Word::Root, Word::Absent], 1, 3),
    (CREATE, &[Word::Root, Word::Absent, Word::Zeros(7)], 1, 8),
    (
        MKDIR,
        &[
            Word::Root,
            Word::Absent,
            Word::Is(1),
            Word::Is(0o777),
            Word::Zeros(5),
        ],
        1,
        8,
    ),
    (
        SYMLINK,
        &[Word::Root, Word::Absent, Word::Zeros(6), Word::Owner],
        1,
        8,
    ),
    (
        MKNOD,
        &[Word::Root, Word::Absent, Word::Is(7), Word::Zeros(6)],
        1,
        8,
    ),
    (REMOVE, &[Word::Root, Word::Absent], 1, 3),
    (
        RENAME,
        &[Word::Root, Word::Absent, Word::Root, Word::Name(0)],
        1,
        4,
    ),
];

/// Calls on names of files in the root.
pub(super) const ON_NAMES: &[Row<'static>] = &[
    (LOOKUP, &[Word::Root, Word::Last], 1, 4),
    (CREATE, &[Word::Root, Word::Last, Word::Zeros(7)], 1, 4),
    (REMOVE, &[Word::Root, Word::Last], 1, 9),
    (RMDIR, &[Word::Root, Word::Last], 1, 4),
    (
        RENAME,
        &[Word::Root, Word::Name(0), Word::Root, Word::Absent],
        1,
        11,
    ),
    (
        RENAME,
        &[Word::Root, Word::Name(0), Word::Root, Word::Last],
        1,
        14,
    ),
];

/// Calls on the root and what it has. FSSTAT reads what the 64 groups of its export use. An entry of READDIRPLUS takes
/// 156 bytes at least and an empty page 104 (RFC 1813, 3.3.17), so 419 fit, of which two are the dots.
pub(super) const ON_THE_ROOT: &[Row<'static>] = &[
    (NFS_NULL, &[], 1, 0),
    (GETATTR, &[Word::Root], 1, 2),
    (
        SETATTR,
        &[Word::Root, Word::Is(1), Word::Is(0o700), Word::Zeros(6)],
        1,
        2,
    ),
    (ACCESS, &[Word::Root, Word::Is(63)], 1, 2),
    (READLINK, &[Word::Root], 1, 2),
    (READDIR, &[Word::Root, Word::Zeros(4), Word::Is(1024)], 1, 3),
    (
        READDIR,
        &[Word::Root, Word::Zeros(4), Word::Is(65_536)],
        1,
        18,
    ),
    (
        READDIRPLUS,
        &[
            Word::Root,
            Word::Zeros(4),
            Word::Is(65_536),
            Word::Is(65_536),
        ],
        1,
        2 + 7 + 417,
    ),
    (FSSTAT, &[Word::Root], 1, 66),
    (FSINFO, &[Word::Root], 1, 2),
    (PATHCONF, &[Word::Root], 1, 2),
];

/// Listings of ten thin pages.
pub(super) const OF_THIN_PAGES: &[Row<'static>] = &[
    (READDIR, &[Word::Root, Word::Zeros(4), Word::Is(128)], 1, 6),
    (
        READDIR,
        &[Word::Root, Word::Zeros(4), Word::Is(1024)],
        1,
        12,
    ),
    (
        READDIR,
        &[Word::Root, Word::Zeros(4), Word::Is(65_536)],
        1,
        12,
    ),
];

/// RENAME of a directory of the root into the deepest one, which is 128 below the root at most, goes up from that, and
/// MNT goes down to it, by a part and an object for each name.
pub(super) const IN_THE_DEEPEST: &[Row<'static>] = &[
    (
        RENAME,
        &[Word::Root, Word::Name(0), Word::Made, Word::Name(0)],
        1,
        8 + 127,
    ),
    (MOUNT_NULL, &[], 1, 0),
    (MNT, &[Word::Path], 1, 3 + 2 * 128),
    (UMNT, &[Word::Path], 1, 2),
    (DUMP, &[], 1, 2),
    (UMNTALL, &[], 1, 2),
    (EXPORT, &[], 1, 1),
];

/// A call on a link, and one that takes its name away.
pub(super) const ON_A_LINK: &[Row<'static>] = &[
    (READLINK, &[Word::Made], 1, 2),
    (REMOVE, &[Word::Root, Word::Name(0)], 1, 6),
];

/// RENAME of a file of the root over one of another directory, which goes with its map and its blocks.
pub(super) const INTO_ANOTHER: &[Row<'static>] = &[(
    RENAME,
    &[Word::Root, Word::Name(0), Word::Made, Word::Name(0)],
    1,
    11 + 1 + 16,
)];

/// Calls on a file. WRITE goes to the blocks, and then to the map pages, at most two, of those that are absent. SETATTR
/// goes to what its export uses and to the map page in which the file ends then, and then to the blocks behind its end.
/// What has more than one map page goes without them.
pub(super) const ON_A_FILE: &[Row<'static>] = &[
    (READ, &[Word::Made, Word::Zeros(2), Word::Is(4096)], 1, 3),
    (READ, &[Word::Made, Word::Zeros(2), Word::Is(65_536)], 1, 18),
    (
        WRITE,
        &[
            Word::Made,
            Word::Zeros(2),
            Word::Is(4096),
            Word::Is(2),
            Word::Blocks(1),
        ],
        1,
        5,
    ),
    (
        WRITE,
        &[
            Word::Made,
            Word::Zeros(2),
            Word::Is(65_536),
            Word::Is(2),
            Word::Blocks(16),
        ],
        1,
        20,
    ),
    (
        WRITE,
        &[
            Word::Made,
            Word::Zeros(1),
            Word::Is(0x001f_8000),
            Word::Is(65_536),
            Word::Is(2),
            Word::Blocks(16),
        ],
        1,
        21,
    ),
    (
        SETATTR,
        &[Word::Made, Word::Zeros(3), Word::Is(1), Word::Zeros(5)],
        1,
        3 + 1 + 16,
    ),
    (
        SETATTR,
        &[
            Word::Made,
            Word::Zeros(3),
            Word::Is(1),
            Word::Zeros(1),
            Word::Is(5000),
            Word::Zeros(3),
        ],
        1,
        3 + 1 + 15,
    ),
    (COMMIT, &[Word::Made, Word::Zeros(3)], 1, 2),
    (LINK, &[Word::Made, Word::Root, Word::Absent], 1, 5),
    (REMOVE, &[Word::Root, Word::Name(0)], 1, 7 + 1 + 16),
];

/// WRITE into the first map page, and into the first two, where they are remains: these go first, with a block of each.
pub(super) const INTO_REMAINS: &[Row<'static>] = &[
    (
        WRITE,
        &[
            Word::Made,
            Word::Zeros(2),
            Word::Is(4096),
            Word::Is(2),
            Word::Blocks(1),
        ],
        1,
        5,
    ),
    (
        WRITE,
        &[
            Word::Made,
            Word::Zeros(1),
            Word::Is(0x001f_8000),
            Word::Is(65_536),
            Word::Is(2),
            Word::Blocks(16),
        ],
        1,
        22,
    ),
];

/// Calls of NLM on a file, by its host or by messages: they read what the file has. FREE_ALL reads what all files have,
/// in 64 buckets.
pub(super) const ON_ITS_LOCKS: &[Row<'static>] = &[
    (NLM_NULL, &[], 1, 0),
    (TEST, &[Word::Zeros(1), Word::Is(1), Word::Lock], 1, 3),
    (TEST_MSG, &[Word::Zeros(1), Word::Is(1), Word::Lock], 1, 3),
    (
        LOCK,
        &[Word::Zeros(2), Word::Is(1), Word::Lock, Word::Zeros(2)],
        1,
        3,
    ),
    (
        LOCK,
        &[
            Word::Zeros(1),
            Word::Is(1),
            Word::Is(1),
            Word::Lock,
            Word::Zeros(2),
        ],
        1,
        3,
    ),
    (
        LOCK_MSG,
        &[
            Word::Zeros(1),
            Word::Is(1),
            Word::Is(1),
            Word::Lock,
            Word::Zeros(2),
        ],
        1,
        3,
    ),
    (
        NM_LOCK,
        &[Word::Zeros(2), Word::Is(1), Word::Lock, Word::Zeros(2)],
        1,
        3,
    ),
    (CANCEL, &[Word::Zeros(2), Word::Is(1), Word::Lock], 1, 3),
    (
        CANCEL,
        &[Word::Zeros(1), Word::Is(1), Word::Is(1), Word::OtherLock],
        1,
        3,
    ),
    (CANCEL_MSG, &[Word::Zeros(2), Word::Is(1), Word::Lock], 1, 3),
    (UNLOCK, &[Word::Zeros(1), Word::Lock], 1, 3),
    (UNLOCK, &[Word::Zeros(1), Word::OtherLock], 1, 3),
    (UNLOCK_MSG, &[Word::Zeros(1), Word::Lock], 1, 3),
    (
        SHARE,
        &[
            Word::Zeros(1),
            Word::Owner,
            Word::Made,
            Word::Owner,
            Word::Zeros(3),
        ],
        1,
        3,
    ),
    (
        UNSHARE,
        &[
            Word::Zeros(1),
            Word::Owner,
            Word::Made,
            Word::Owner,
            Word::Zeros(3),
        ],
        1,
        3,
    ),
    (FREE_ALL, &[Word::Owner, Word::Zeros(1)], 1, 65),
];

/// GRANTED, which the server denies, and what hosts answer to its own calls: what answers a grant reads what its file
/// has.
pub(super) const OF_HOSTS: &[Row<'static>] = &[
    (GRANTED, &[Word::Zeros(1), Word::Is(1), Word::Lock], 1, 1),
    (
        GRANTED_MSG,
        &[Word::Zeros(1), Word::Is(1), Word::Lock],
        1,
        1,
    ),
    (TEST_RES, &[Word::Zeros(2)], 1, 1),
    (LOCK_RES, &[Word::Zeros(2)], 1, 1),
    (CANCEL_RES, &[Word::Zeros(2)], 1, 1),
    (UNLOCK_RES, &[Word::Zeros(2)], 1, 1),
    (GRANTED_RES, &[Word::Zeros(2)], 1, 1),
    (GRANTED_RES, &[Word::Grant, Word::Is(0)], 1, 2),
    (GRANTED_RES, &[Word::Grant, Word::Is(1)], 1, 2),
];
