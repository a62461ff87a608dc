//! Calls of user 0 on names of one letter in the root, as words with their marks (RFC 1813, 3.3) (helpers).

use crate::tests::clients::{next_record, send};
use std::alloc::Global;
use std::io;
use std::net::TcpStream;

/// Statuses (RFC 1813, 2.6).
pub(super) const OK: u32 = 0;

pub(super) const NOENT: u32 = 2;

/// Procedures that take a name.
pub(super) const LOOKUP: u32 = 3;

pub(super) const REMOVE: u32 = 12;

pub(super) const RMDIR: u32 = 13;

/// How a client's change was answered.
const STATUS_AT: usize = 24;

/// MKDIR of a name, with no attributes given.
pub(super) fn mkdir(xid: u32, name: u32) -> [u32; 33] {
    [
        0x80000080, xid, 0, 2, 100003, 3, 9, 1, 20, 0, 0, 0, 0, 0, 0, 0, 32, 0x4e464433, 1, 0, 7,
        0, 1, 0, 1, 1, name, 0, 0, 0, 0, 0, 0,
    ]
}

/// A procedure that takes a name.
pub(super) fn on_name(xid: u32, procedure: u32, name: u32) -> [u32; 27] {
    [
        0x80000068, xid, 0, 2, 100003, 3, procedure, 1, 20, 0, 0, 0, 0, 0, 0, 0, 32, 0x4e464433, 1,
        0, 7, 0, 1, 0, 1, 1, name,
    ]
}

/// RENAME of a name to another.
pub(super) fn rename(xid: u32, from: u32, to: u32) -> [u32; 38] {
    [
        0x80000094, xid, 0, 2, 100003, 3, 14, 1, 20, 0, 0, 0, 0, 0, 0, 0, 32, 0x4e464433, 1, 0, 7,
        0, 1, 0, 1, 1, from, 32, 0x4e464433, 1, 0, 7, 0, 1, 0, 1, 1, to,
    ]
}

/// Whether a call of NFS that has the second word as transaction id has an answer with this status.
pub(super) fn is_told(
    alloc: Global,
    stream: &TcpStream,
    call: &[u32],
    status: u32,
) -> io::Result<bool> {
    send(alloc, stream, call)?;
    let told = next_record(alloc, stream)?;
    Ok(is_answer(&told, call, status))
}

/// Whether a record answers this call with this status.
pub(super) fn is_answer(record: &[u8], call: &[u32], status: u32) -> bool {
    let status = status.to_be_bytes();
    let Some(xid) = call.get(1) else {
        return false;
    };
    let xid = xid.to_be_bytes();
    record.get(..4) == Some(xid.as_slice())
        && record.get(STATUS_AT..STATUS_AT + 4) == Some(status.as_slice())
}
