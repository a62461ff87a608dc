//! A call that reads many addresses is carried out.

use super::callers::{Caller, MADE, OK};
use super::calls::{Ask, ROOT};
use super::ends::End;
use super::pools::{Course, Part, Runs, in_pool};
use super::rows::{NOENT, X, Y};
use nfs_pool::Naming;
use std::alloc::AllocError;
use std::sync::ledger::Ledger;

/// How many directories stand one in the other.
const DEPTH: u32 = 800;

/// The first caller makes directories one in the other, and another one in the root, which it moves into the deepest.
#[derive(Drop)]
struct Deep;

impl Part for Deep {
    fn acts<L: Ledger + Naming, R: Runs>(&self, caller: &mut Caller<L, R>, number: u32) -> u64 {
        if number != 0 {
            return 0;
        }
        for depth in 0..DEPTH {
            assert!(caller.rt; goes_deeper(caller, depth), "MKDIR at depth {depth}");
        }
        caller.file = caller.directory;
        caller.directory = ROOT;
        u64::from(DEPTH).wrapping_add(moves(caller))
    }
}

/// Makes a directory in the caller's, in which its names stand from then on.
fn goes_deeper<L: Ledger + Naming, R: Runs>(caller: &mut Caller<L, R>, xid: u32) -> bool {
    if caller.call(xid, Ask::Mkdir(X)) != OK {
        return false;
    }
    match caller.handle(MADE) {
        Some(handle) => {
            caller.directory = handle;
            true
        }
        None => false,
    }
}

/// Makes a directory in the root, moves it into the deepest, and looks for it in both. How many calls that are.
fn moves<L: Ledger + Naming, R: Runs>(caller: &mut Caller<L, R>) -> u64 {
    assert!(caller.rt; caller.call(DEPTH, Ask::Mkdir(Y)) == OK, "MKDIR");
    assert!(caller.rt;
        caller.call(DEPTH + 1, Ask::RenameInto(Y, Y)) == OK,
        "RENAME"
    );
    assert!(caller.rt;
        caller.call(DEPTH + 2, Ask::Lookup(Y)) == NOENT,
        "LOOKUP in the root"
    );
    caller.directory = caller.file;
    assert!(caller.rt;
        caller.call(DEPTH + 3, Ask::Lookup(Y)) == OK,
        "LOOKUP in the deepest"
    );
    4
}

/// RENAME of a directory reads each directory above the place that it goes to: it must not be one of them.
#[test]
fn a_directory_is_moved_into_a_deep_one(rt: HostRuntime) -> Result<(), AllocError> {
    let course = Course {
        seats: 2,
        era_records: 65_536,
        calls: u64::from(DEPTH) + 4,
        end: End::Finished,
    };
    in_pool(&rt, course, &Deep)
}
