//! What one file has of locks, shares and requests, by the callers c1 (A), c2 (B), c3 (C) and c4 (D). The values are
//! worked out by hand from RFC 1813, appendix II.
//!
//! A script is a list of steps, which one function follows; what owns memory is lent to the functions that have the
//! `?`s, and dropped by a call of `drop`.

mod buckets;
mod files;
mod locks;
mod shares;

use bytes::Bytes;
use nlm_ranges::{
    Going, HeldLock, LockBucket, LockRange, LockRequest, LockTable, LockedFile, OneFile,
    RequestList, Settled, ShareTable, bucket_index,
};
use side_wire::message::NlmLock;
use side_wire::nlm::{NlmShare, ShareAccess, ShareMode};
use std::alloc::{AllocError, Global};
use std::sync::Arc;

/// Who calls.
#[derive(Clone, Copy)]
enum Who {
    A,
    B,
    C,
    D,
}

fn caller_name(who: Who) -> Bytes {
    match who {
        Who::A => Bytes::from_static(b"c1"),
        Who::B => Bytes::from_static(b"c2"),
        Who::C => Bytes::from_static(b"c3"),
        Who::D => Bytes::from_static(b"c4"),
    }
}

fn owner(who: Who) -> Bytes {
    match who {
        Who::A => Bytes::from_static(b"\x01"),
        Who::B => Bytes::from_static(b"\x02"),
        Who::C => Bytes::from_static(b"\x03"),
        Who::D => Bytes::from_static(b"\x04"),
    }
}

fn process(who: Who) -> i32 {
    match who {
        Who::A => 1,
        Who::B => 2,
        Who::C => 3,
        Who::D => 4,
    }
}

/// The lock that a call names; a length of 0 runs to the end.
fn lock(who: Who, offset: u64, length: u64) -> NlmLock {
    NlmLock {
        caller_name: caller_name(who),
        file: Bytes::from_static(b"file"),
        owner: owner(who),
        process: process(who),
        offset,
        length,
    }
}
