//! What commits compare by value.

use super::callers::{Caller, OK};
use super::calls::Ask;
use super::ends::End;
use super::pools::{Course, Part, Runs, in_pool};
use super::rows::{Row, Want, X, follow};
use nfs_pool::Naming;
use std::alloc::AllocError;
use std::sync::ledger::Ledger;

const Y: u32 = 0x79797979;

/// Where the bytes of a READ are in its reply, in bytes from the mark of its fragment on.
const DATA: usize = 132;

/// Where the status of a LOCK is in its reply, behind its cookie of no bytes.
const GRANTED: usize = 32;

/// Calls that read and write blocks, pages and parts of a directory, mounts and locks; each reads the exports.
const ROWS: [Row; 14] = [
    (1, Ask::Create(X), Want::Makes),
    (2, Ask::Lookup(X), Want::Finds),
    (3, Ask::Write(7), Want::Is(OK)),
    (4, Ask::Read, Want::Shows(DATA, 7)),
    (5, Ask::Write(8), Want::Is(OK)),
    (6, Ask::Read, Want::Shows(DATA, 8)),
    (7, Ask::Rename(X, Y), Want::Is(OK)),
    (8, Ask::Lookup(Y), Want::Finds),
    (9, Ask::Mount, Want::Is(OK)),
    (10, Ask::Mount, Want::Is(OK)),
    (11, Ask::Lock, Want::Shows(GRANTED, 0)),
    (12, Ask::Lock, Want::Shows(GRANTED, 0)),
    (13, Ask::Remove(Y), Want::Is(OK)),
    (14, Ask::Create(X), Want::Makes),
];

/// Makes these calls. Where the pool compared a large object by value none counts.
#[derive(Drop)]
struct Knows;

impl Part for Knows {
    fn acts<L: Ledger + Naming, R: Runs>(&self, caller: &mut Caller<L, R>, _number: u32) -> u64 {
        let executed = follow(caller, &ROWS, 0);
        let compared = caller.pool.compared(caller.rt);
        assert!(caller.rt; compared == 0, "{compared} objects were compared");
        executed
    }
}

/// Where one calls alone all large objects are known by their stamps.
#[test]
fn one_who_calls_alone_has_nothing_compared(rt: HostRuntime) -> Result<(), AllocError> {
    let course = Course {
        seats: 1,
        era_records: 65_536,
        calls: 14,
        end: End::Finished,
    };
    in_pool(&rt, course, &Knows)
}
