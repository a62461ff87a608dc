//! A large file whose only name goes. What it leaves goes at the ends of eras, some of it at each, and nothing of it
//! while a call holds the file.

use super::callers::{Caller, OK};
use super::calls::Ask;
use super::ends::{End, room_for};
use super::holds::{hold, let_go};
use super::pools::{Course, Part, Runs, in_pool, opened};
use super::rows::{STALE, X};
use nfs_engine::Release;
use nfs_objects::{Addr, Mode};
use nfs_pool::{Ended, EraRoom, Naming, Pool, Seat};
use std::alloc::AllocError;
use std::sync::ledger::Ledger;

/// How many map pages the file has, with a block each: more than go at one end.
const PAGES: u32 = 100;

/// The first number that a shard gives: the first caller's first file has it.
const FILE: u64 = 16;

/// The first caller makes the file, writes it and removes it.
#[derive(Drop)]
struct Buries;

impl Part for Buries {
    fn acts<L: Ledger + Naming, R: Runs>(&self, caller: &mut Caller<L, R>, number: u32) -> u64 {
        if number != 0 || !caller.makes(1, X) {
            return 0;
        }
        assert_eq!(caller.rt; u64::from(caller.file[5]), FILE);
        let mut calls: u64 = 1;
        for page in 0..PAGES {
            assert!(caller.rt;
                caller.call(page + 2, Ask::WriteFar(page)) == OK,
                "page {page}"
            );
            calls = calls.wrapping_add(1);
        }
        assert!(caller.rt; caller.call(PAGES + 2, Ask::Remove(X)) == OK, "REMOVE");
        assert!(caller.rt; caller.call(PAGES + 3, Ask::Getattr) == STALE, "GETATTR");
        calls.wrapping_add(2)
    }
}

/// Whether all that the file left goes at the ends of eras: then there are as many objects as at the start.
pub(super) fn sweeps<L: Ledger + Naming, R: Runs>(
    rt: &R,
    pool: Pool<L>,
    seats: Vec<Seat<L>>,
) -> bool {
    let mut pool = pool;
    let goes = goes(rt, &mut pool, seats);
    let book = pool.end();
    let left = book.objects();
    drop(book);
    goes && at_start(rt) == Some(left)
}

/// How many objects there are at the start.
fn at_start<R: Runs>(rt: &R) -> Option<u64> {
    let engine = match opened(rt.alloc(), 1) {
        Ok(engine) => engine,
        Err(AllocError) => opened(rt.alloc(), 1).ok()?,
    };
    let objects = engine.objects();
    drop(engine);
    Some(objects)
}

/// Whether all of it goes, and nothing while a call holds the file.
fn goes<L: Ledger + Naming, R: Runs>(rt: &R, pool: &mut Pool<L>, seats: Vec<Seat<L>>) -> bool {
    let Ok(room) = room_for(rt, seats.len()) else {
        drop(seats);
        return false;
    };
    match stays(rt, pool, seats, room) {
        Some((seats, room)) => goes_in(rt, pool, seats, room),
        None => false,
    }
}

/// The seats and the room, where an end of an era leaves the file as it was, since a call holds it.
fn stays<L: Ledger + Naming, R: Runs>(
    rt: &R,
    pool: &mut Pool<L>,
    seats: Vec<Seat<L>>,
    room: EraRoom,
) -> Option<(Vec<Seat<L>>, EraRoom)> {
    let mut seats = seats;
    let held = hold_file(rt, pool, seats.first_mut());
    let ended = end(rt, pool, seats, room);
    let is_left = held.is_some() && pool.has_dead(rt);
    if let Some(release) = held {
        let_go(rt, pool, release);
    }
    let (is_swept, seats, room) = ended?;
    if is_left && !is_swept {
        return Some((seats, room));
    }
    drop(seats);
    drop(room);
    None
}

/// Whether some of it goes at the end of an era, and all of it at no more ends than it has pages.
fn goes_in<L: Ledger + Naming, R: Runs>(
    rt: &R,
    pool: &mut Pool<L>,
    seats: Vec<Seat<L>>,
    room: EraRoom,
) -> bool {
    let mut left = end(rt, pool, seats, room);
    let is_left = pool.has_dead(rt);
    for _ in 1..PAGES {
        left = match left {
            Some((_, seats, room)) => end(rt, pool, seats, room),
            None => None,
        };
    }
    let goes = left.is_some() && is_left && !pool.has_dead(rt);
    drop(left);
    goes
}

/// Ends an era: whether something was swept, and seats and room for the next one.
fn end<L: Ledger + Naming, R: Runs>(
    rt: &R,
    pool: &mut Pool<L>,
    seats: Vec<Seat<L>>,
    room: EraRoom,
) -> Option<(bool, Vec<Seat<L>>, EraRoom)> {
    match pool.next_era(rt.alloc(), seats, room) {
        Ok((ended, seats)) => {
            let is_swept = ended.has_swept();
            let room = compared(ended);
            Some((is_swept, seats, room))
        }
        Err(back) => {
            drop(back);
            None
        }
    }
}

/// The room of an era that is over.
fn compared(ended: Ended) -> EraRoom {
    match ended.compare() {
        Ok((era, room)) | Err((era, room)) => {
            drop(era);
            room
        }
    }
}

/// A call that holds the file, and what lets it go.
fn hold_file<L: Ledger + Naming, R: Runs>(
    rt: &R,
    pool: &Pool<L>,
    seat: Option<&mut Seat<L>>,
) -> Option<Release> {
    let caller = Caller::new(rt, pool, seat?);
    let (got, release) = hold(&caller, Addr::Inode(FILE), Mode::Shared)?;
    drop(got);
    Some(release)
}

/// What a file of 100 map pages left goes at the ends of eras, and not at one while a call holds the file.
#[test]
fn what_a_large_file_left_goes_at_the_ends_of_eras(rt: HostRuntime) -> Result<(), AllocError> {
    let course = Course {
        seats: 2,
        era_records: 65_536,
        calls: u64::from(PAGES) + 3,
        end: End::Swept,
    };
    in_pool(&rt, course, &Buries)
}
