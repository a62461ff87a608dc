//! The entries of a page of a directory (RFC 1813, 3.3.16 and 3.3.17).

use crate::attributes::Attributes;
use bytes::Bytes;
use nfs_xdr::XdrList;

/// A name in a directory (`entry3`).
#[derive(Drop, PartialEq, Eq)]
pub struct PageEntry {
    pub fileid: u64,
    pub name: Bytes,
    /// Where a page goes on behind the entry.
    pub cookie: u64,
}

/// A name in a directory, and what it names (`entryplus3`).
#[derive(Drop, PartialEq, Eq)]
pub struct FullEntry {
    pub entry: PageEntry,
    pub attributes: Option<Attributes>,
    /// The object's handle.
    pub object: Option<Bytes>,
}

/// The entries of a page of READDIR.
pub type Names = XdrList<PageEntry>;

/// The entries of a page of READDIRPLUS.
pub type FullNames = XdrList<FullEntry>;
