//! Calls of one caller, one after the other.

use super::callers::{Caller, MADE, OK, Told};
use super::calls::{Ask, Handle};
use super::ends::End;
use super::pools::{Course, Part, Runs, in_pool};
use nfs_pool::Naming;
use std::alloc::AllocError;
use std::sync::ledger::Ledger;

pub(super) const X: u32 = 0x78787878;

pub(super) const Y: u32 = 0x79797979;

pub(super) const NOENT: Told = Told::Executed(Some(2));

const EXIST: Told = Told::Executed(Some(17));

pub(super) const STALE: Told = Told::Executed(Some(70));

const BADHANDLE: Told = Told::Executed(Some(10001));

/// Where the handle of what a LOOKUP found is in its reply, in bytes from the mark of its fragment on.
pub(super) const FOUND: usize = 36;

/// Where the links of a file are in the reply to GETATTR.
pub(super) const LINKS: usize = 40;

/// Where they are in the reply to LINK.
pub(super) const LINKED: usize = 44;

/// What a call has to come to.
#[derive(Clone, Copy)]
pub(super) enum Want {
    /// This is told.
    Is(Told),
    /// It makes a file, on which the caller's calls are from then on.
    Makes,
    /// It makes the caller's file.
    MakesSame,
    /// It makes another file than the caller's.
    MakesOther,
    /// It finds the caller's file.
    Finds,
    /// It succeeds, and this word of its reply is that.
    Shows(usize, u32),
}

/// A transaction id, the call under it, and what it has to come to.
pub(super) type Row = (u32, Ask, Want);

/// Whether the last call came to this; it was told so.
pub(super) fn is_met<L: Ledger + Naming, R: Runs>(
    caller: &mut Caller<L, R>,
    told: Told,
    want: Want,
) -> bool {
    match want {
        Want::Is(wanted) => told == wanted,
        Want::Makes => told == OK && caller.takes_file(),
        Want::MakesSame => told == OK && caller.handle(MADE) == Some(caller.file),
        Want::MakesOther => told == OK && is_other(caller.handle(MADE), caller.file),
        Want::Finds => told == OK && caller.handle(FOUND) == Some(caller.file),
        Want::Shows(place, word) => told == OK && caller.word(place) == Some(word),
    }
}

/// Whether this is a handle, and not that one.
fn is_other(handle: Option<Handle>, file: Handle) -> bool {
    match handle {
        Some(handle) => handle != file,
        None => false,
    }
}

/// The calls come to what they have to, and their records have the numbers behind this one. How many were executed.
pub(super) fn follow<L: Ledger + Naming, R: Runs>(
    caller: &mut Caller<L, R>,
    rows: &[Row],
    before: u64,
) -> u64 {
    let mut executed: u64 = 0;
    for (xid, ask, want) in rows {
        let told = caller.call(*xid, *ask);
        if matches!(told, Told::Executed(_)) {
            executed = executed.wrapping_add(1);
            let number = before.wrapping_add(executed);
            assert!(caller.rt; caller.number() == Some(number), "the number of {xid}");
        }
        assert!(caller.rt; is_met(caller, told, *want), "{xid}");
    }
    executed
}

/// Rows that the caller with this number follows.
#[derive(Drop)]
pub(super) struct Rows<'a> {
    pub(super) caller: u32,
    pub(super) rows: &'a [Row],
}

impl<'a> Part for Rows<'a> {
    fn acts<L: Ledger + Naming, R: Runs>(&self, caller: &mut Caller<L, R>, number: u32) -> u64 {
        if number == self.caller {
            follow(caller, self.rows, 0)
        } else {
            0
        }
    }
}

/// The second of two callers of a new pool follows these rows, of which so many are executed, and the pool ends so.
pub(super) fn alone<R: Runs + Sync>(
    rt: &R,
    end: End,
    calls: u64,
    rows: &[Row],
) -> Result<(), AllocError> {
    let course = Course {
        seats: 2,
        era_records: 65_536,
        calls,
        end,
    };
    in_pool(rt, course, &Rows { caller: 1, rows })
}

/// A file that is made exclusively is made once for each verifier, and no more after its times are set.
#[test]
fn a_file_is_made_once_for_each_verifier(rt: HostRuntime) -> Result<(), AllocError> {
    alone(
        &rt,
        End::Finished,
        5,
        &[
            (1, Ask::CreateOnce(X, 1), Want::Makes),
            (2, Ask::CreateOnce(X, 1), Want::MakesSame),
            (3, Ask::CreateOnce(X, 2), Want::Is(EXIST)),
            (4, Ask::SetMode(0o600), Want::Is(OK)),
            (5, Ask::CreateOnce(X, 1), Want::Is(EXIST)),
        ],
    )
}

/// The handle of a file that is gone is never given again.
#[test]
fn a_handle_that_is_gone_is_not_given_again(rt: HostRuntime) -> Result<(), AllocError> {
    alone(
        &rt,
        End::Finished,
        6,
        &[
            (1, Ask::Create(X), Want::Makes),
            (2, Ask::Remove(X), Want::Is(OK)),
            (3, Ask::Getattr, Want::Is(STALE)),
            (4, Ask::Create(Y), Want::MakesOther),
            (5, Ask::Getattr, Want::Is(STALE)),
            (6, Ask::GetattrCut, Want::Is(BADHANDLE)),
        ],
    )
}

/// A repeat gets the reply that is kept, and no record; the same under another transaction id is executed.
#[test]
fn a_repeat_gets_the_reply_that_is_kept(rt: HostRuntime) -> Result<(), AllocError> {
    alone(
        &rt,
        End::Finished,
        3,
        &[
            (1, Ask::Create(X), Want::Makes),
            (2, Ask::Remove(X), Want::Is(OK)),
            (2, Ask::Remove(X), Want::Is(Told::Repeated)),
            (3, Ask::Remove(X), Want::Is(NOENT)),
        ],
    )
}

/// A file that has a second name loses the first. The pool does not end without the seat that has these receipts.
#[test]
fn a_file_with_two_names_loses_one(rt: HostRuntime) -> Result<(), AllocError> {
    alone(
        &rt,
        End::SeatLeftOut,
        5,
        &[
            (1, Ask::Create(X), Want::Makes),
            (2, Ask::Link(Y), Want::Shows(LINKED, 2)),
            (3, Ask::Remove(X), Want::Is(OK)),
            (4, Ask::Lookup(Y), Want::Finds),
            (5, Ask::Getattr, Want::Shows(LINKS, 1)),
        ],
    )
}

/// A file that lost its only name gets no other.
#[test]
fn a_file_without_a_name_gets_none(rt: HostRuntime) -> Result<(), AllocError> {
    alone(
        &rt,
        End::Finished,
        3,
        &[
            (1, Ask::Create(X), Want::Makes),
            (2, Ask::Remove(X), Want::Is(OK)),
            (3, Ask::Link(Y), Want::Is(STALE)),
        ],
    )
}
