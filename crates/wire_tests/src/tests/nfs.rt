//! Arguments and results of NFS version 3 (RFC 1813, section 3).

mod calls;
mod forms;
mod replies;

use nfs_wire::{Attributes, DeviceNumber, FileType, Time};

/// The handle `abcd` as arguments and results have it.
const HANDLE: [u32; 2] = [4, 0x6162_6364];

/// The name `file` in the directory `abcd`, as words.
const PLACE: [u32; 4] = [4, 0x6162_6364, 4, 0x6669_6c65];

const TIME: Time = Time {
    seconds: 1000,
    nanoseconds: 0,
};

/// The attributes of a directory that was just made.
const SHOWN: Attributes = Attributes {
    kind: FileType::Directory,
    mode: 0o777,
    links: 2,
    uid: 0,
    gid: 0,
    size: 4096,
    used: 4096,
    device: DeviceNumber { major: 0, minor: 0 },
    fsid: 1,
    fileid: 1,
    accessed: TIME,
    modified: TIME,
    changed: TIME,
};

/// The words of these attributes.
const DIRECTORY: [u32; 21] = [
    2, 0x1ff, 2, 0, 0, 0, 0x1000, 0, 0x1000, 0, 0, 0, 1, 0, 1, 0x3e8, 0, 0x3e8, 0, 0x3e8, 0,
];
