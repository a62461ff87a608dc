//! Records that come in, from one host at one moment.

use bytes::Bytes;
use nfs_engine::{Arrival, Host};
use nfs_machine::Moment;
use std::alloc::{AllocError, Global};

/// NULL of NFS with xid 1 and no credential (RFC 1813, 3.3.0).
pub(super) const NULL: [u32; 10] = [1, 0, 2, 100003, 3, 0, 0, 0, 0, 0];

/// GETATTR of the root with xid 3: export 1, start 7, fileid 1, generation 1.
pub(super) const GETATTR: [u32; 19] = [
    3, 0, 2, 100003, 3, 1, 0, 0, 0, 0, 32, 0x4e464433, 1, 0, 7, 0, 1, 0, 1,
];

pub(super) fn moment() -> Moment {
    Moment {
        seconds: 1000,
        nanoseconds: 0,
    }
}

fn host() -> Host {
    let Some(host) = Host::new(Bytes::from_static(b"10.0.0.1")) else {
        unreachable!()
    };
    host
}

/// Words as bytes.
fn spelled_at_once(alloc: Global, words: &[u32]) -> Result<Vec<u8>, AllocError> {
    let mut bytes = Vec::new(alloc);
    for word in words {
        bytes.extend_from_slice(&word.to_be_bytes())?;
    }
    Ok(bytes)
}

/// The same, if need be by a second try.
pub(super) fn spelled(alloc: Global, words: &[u32]) -> Result<Vec<u8>, AllocError> {
    match spelled_at_once(alloc, words) {
        Ok(bytes) => Ok(bytes),
        Err(AllocError) => spelled_at_once(alloc, words),
    }
}

/// The record of these bytes came in.
pub(super) fn read(alloc: Global, bytes: &[u8]) -> Result<Arrival, AllocError> {
    let record = Bytes::copy_from_slice(alloc, bytes)?;
    Arrival::read(alloc, host(), record, moment())
}

/// That of these words.
fn read_at_once(alloc: Global, words: &[u32]) -> Result<Arrival, AllocError> {
    let bytes = spelled_at_once(alloc, words)?;
    read(alloc, &bytes)
}

/// The same, if need be by a second try.
pub(super) fn arrival(alloc: Global, words: &[u32]) -> Result<Arrival, AllocError> {
    match read_at_once(alloc, words) {
        Ok(arrival) => Ok(arrival),
        Err(AllocError) => read_at_once(alloc, words),
    }
}
