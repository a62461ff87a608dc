//! The procedures that are called (RFC 1813, sections 3.3, 5.2 and 6.2).

/// A procedure: its program, the program's version, and its number.
pub(super) type Procedure = (u32, u32, u32);

pub(super) const NFS_NULL: Procedure = (100_003, 3, 0);

pub(super) const GETATTR: Procedure = (100_003, 3, 1);

pub(super) const SETATTR: Procedure = (100_003, 3, 2);

pub(super) const LOOKUP: Procedure = (100_003, 3, 3);

pub(super) const ACCESS: Procedure = (100_003, 3, 4);

pub(super) const READLINK: Procedure = (100_003, 3, 5);

pub(super) const READ: Procedure = (100_003, 3, 6);

pub(super) const WRITE: Procedure = (100_003, 3, 7);

pub(super) const CREATE: Procedure = (100_003, 3, 8);

pub(super) const MKDIR: Procedure = (100_003, 3, 9);

pub(super) const SYMLINK: Procedure = (100_003, 3, 10);

pub(super) const MKNOD: Procedure = (100_003, 3, 11);

pub(super) const REMOVE: Procedure = (100_003, 3, 12);

pub(super) const RMDIR: Procedure = (100_003, 3, 13);

pub(super) const RENAME: Procedure = (100_003, 3, 14);

pub(super) const LINK: Procedure = (100_003, 3, 15);

pub(super) const READDIR: Procedure = (100_003, 3, 16);

pub(super) const READDIRPLUS: Procedure = (100_003, 3, 17);

pub(super) const FSSTAT: Procedure = (100_003, 3, 18);

pub(super) const FSINFO: Procedure = (100_003, 3, 19);

pub(super) const PATHCONF: Procedure = (100_003, 3, 20);

pub(super) const COMMIT: Procedure = (100_003, 3, 21);

pub(super) const MOUNT_NULL: Procedure = (100_005, 3, 0);

pub(super) const MNT: Procedure = (100_005, 3, 1);

pub(super) const DUMP: Procedure = (100_005, 3, 2);

pub(super) const UMNT: Procedure = (100_005, 3, 3);

pub(super) const UMNTALL: Procedure = (100_005, 3, 4);

pub(super) const EXPORT: Procedure = (100_005, 3, 5);

pub(super) const NLM_NULL: Procedure = (100_021, 4, 0);

pub(super) const TEST: Procedure = (100_021, 4, 1);

pub(super) const LOCK: Procedure = (100_021, 4, 2);

pub(super) const CANCEL: Procedure = (100_021, 4, 3);

pub(super) const UNLOCK: Procedure = (100_021, 4, 4);

pub(super) const GRANTED: Procedure = (100_021, 4, 5);

pub(super) const TEST_MSG: Procedure = (100_021, 4, 6);

pub(super) const LOCK_MSG: Procedure = (100_021, 4, 7);

pub(super) const CANCEL_MSG: Procedure = (100_021, 4, 8);

pub(super) const UNLOCK_MSG: Procedure = (100_021, 4, 9);

pub(super) const GRANTED_MSG: Procedure = (100_021, 4, 10);

pub(super) const TEST_RES: Procedure = (100_021, 4, 11);

pub(super) const LOCK_RES: Procedure = (100_021, 4, 12);

pub(super) const CANCEL_RES: Procedure = (100_021, 4, 13);

pub(super) const UNLOCK_RES: Procedure = (100_021, 4, 14);

pub(super) const GRANTED_RES: Procedure = (100_021, 4, 15);

pub(super) const SHARE: Procedure = (100_021, 4, 20);

pub(super) const UNSHARE: Procedure = (100_021, 4, 21);

pub(super) const NM_LOCK: Procedure = (100_021, 4, 22);

pub(super) const FREE_ALL: Procedure = (100_021, 4, 23);
