//! The lists that DUMP and EXPORT answer (RFC 1813, 5.2.2 and 5.2.5).

use bytes::Bytes;
use nfs_xdr::XdrList;

/// What a host has mounted (`mountbody`).
#[derive(Drop, PartialEq, Eq)]
pub struct MountBody {
    /// At most 255 bytes.
    pub hostname: Bytes,
    /// The path that was mounted, of at most 1024 bytes.
    pub directory: Bytes,
}

/// What hosts have mounted (`mountlist`).
pub type MountList = XdrList<MountBody>;

/// The names of hosts that may mount an export, each of at most 255 bytes (`groups`).
pub type Groups = XdrList<Bytes>;

/// An exported directory (`exportnode`).
#[derive(Drop, PartialEq, Eq)]
pub struct ExportNode {
    /// Its path, of at most 1024 bytes.
    pub directory: Bytes,
    /// The hosts that may mount it; none where any may.
    pub groups: Groups,
}

/// The exported directories (`exports`).
pub type ExportList = XdrList<ExportNode>;
