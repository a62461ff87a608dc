//! The end of an era, and of a pool.

use super::buried::sweeps;
use super::callers::{Caller, OK, Told};
use super::calls::Ask;
use super::pools::{Course, Runs, in_pool};
use super::rows::{Row, Rows, Want, X, alone, follow};
use nfs_engine::{Book, Era};
use nfs_pool::{Ended, EraRoom, FinishError, Naming, Pool, Seat};
use std::alloc::AllocError;
use std::sync::ledger::Ledger;

/// How a pool comes to its end.
#[derive(Clone, Copy)]
pub(super) enum End {
    /// With all its seats.
    Finished,
    /// Not without its last seat, which has receipts. All is handed back, and it ends with that seat.
    SeatLeftOut,
    /// Behind a second era: numbers go on, and so do replies that are kept.
    EraTurned,
    /// Behind a second era, in the room that the first one left. In a room for no seat the first one does not end.
    RoomLeft,
    /// Its receipts are not asked for.
    Stopped,
    /// Behind as many eras as what a large file left wants to go.
    Swept,
}

/// Whether the pool ends so, behind so many records.
pub(super) fn ends_so<L: Ledger + Naming, R: Runs>(
    rt: &R,
    pool: Pool<L>,
    seats: Vec<Seat<L>>,
    end: End,
    records: u64,
) -> bool {
    match end {
        End::Finished => finishes(rt, pool, seats, 0, records),
        End::SeatLeftOut => finishes_with_all(rt, pool, seats, records),
        End::EraTurned => turns_era(rt, pool, seats, records),
        End::RoomLeft => leaves_room(rt, pool, seats, records),
        End::Stopped => stops(rt, pool, seats, records),
        End::Swept => sweeps(rt, pool, seats),
    }
}

/// Whether the pool ends with the records behind this one, so many, each of which has its receipt; no call is in
/// progress then.
fn finishes<L: Ledger + Naming, R: Runs>(
    rt: &R,
    pool: Pool<L>,
    seats: Vec<Seat<L>>,
    before: u64,
    records: u64,
) -> bool {
    match finish(rt, pool, seats) {
        Ok((era, book)) => {
            let over = has_records(&era, before, records) && is_at_rest(&book, 0);
            drop(era);
            drop(book);
            over
        }
        Err(back) => {
            drop(back);
            false
        }
    }
}

/// Ends the pool, if need be by a second try.
fn finish<L: Ledger + Naming, R: Runs>(
    rt: &R,
    pool: Pool<L>,
    seats: Vec<Seat<L>>,
) -> Result<(Era, Book), (FinishError, Pool<L>, Vec<Seat<L>>)> {
    match pool.finish(rt.alloc(), seats) {
        Ok(ended) => Ok(ended),
        Err((_, pool, seats)) => pool.finish(rt.alloc(), seats),
    }
}

/// Whether the era has so many records behind this one.
fn has_records(era: &Era, before: u64, records: u64) -> bool {
    era.before == before && era.records.len() as u64 == records
}

/// Whether the book has so many records, and no call is in progress.
fn is_at_rest(book: &Book, records: u64) -> bool {
    book.living() == 0 && book.executed().len() as u64 == records
}

/// Whether the pool is stopped with so many records. It has no message: no call of these tests brings one.
fn stops<L: Ledger + Naming, R: Runs>(
    rt: &R,
    pool: Pool<L>,
    seats: Vec<Seat<L>>,
    records: u64,
) -> bool {
    drop(seats);
    let silent = is_silent(rt, &pool);
    let book = pool.end();
    let stopped = is_at_rest(&book, records);
    drop(book);
    silent && stopped
}

fn is_silent<L: Ledger + Naming, R: Runs>(rt: &R, pool: &Pool<L>) -> bool {
    let posted = pool.message(rt);
    let silent = posted.is_none();
    drop(posted);
    silent
}

/// Whether the pool ends with its last seat, and not without.
fn finishes_with_all<L: Ledger + Naming, R: Runs>(
    rt: &R,
    pool: Pool<L>,
    seats: Vec<Seat<L>>,
    records: u64,
) -> bool {
    let mut seats = seats;
    let left_out = seats.pop();
    match missing(pool.finish(rt.alloc(), seats)) {
        Some((pool, seats)) => finishes(rt, pool, with_seat(seats, left_out), 0, records),
        None => {
            drop(left_out);
            false
        }
    }
}

/// What is handed back where a seat is missing; none where it ended, or did not for another reason.
fn missing<L: Ledger + Naming>(
    ended: Result<(Era, Book), (FinishError, Pool<L>, Vec<Seat<L>>)>,
) -> Option<(Pool<L>, Vec<Seat<L>>)> {
    match ended {
        Ok(ended) => {
            drop(ended);
            None
        }
        Err((FinishError::Missing, pool, seats)) => Some((pool, seats)),
        Err(back) => {
            drop(back);
            None
        }
    }
}

/// The seats, and this one.
fn with_seat<L: Ledger + Naming>(seats: Vec<Seat<L>>, seat: Option<Seat<L>>) -> Vec<Seat<L>> {
    let mut seats = seats;
    if let Some(seat) = seat {
        drop(seats.push(seat));
    }
    seats
}

/// Whether the full era ends, and the pool behind the next one.
fn turns_era<L: Ledger + Naming, R: Runs>(
    rt: &R,
    pool: Pool<L>,
    seats: Vec<Seat<L>>,
    records: u64,
) -> bool {
    let mut pool = pool;
    match turn_era(rt, &mut pool, seats) {
        Ok((era, seats)) => {
            let turned = has_records(&era, 0, records);
            drop(era);
            let over = goes_on(rt, pool, seats, records);
            turned && over
        }
        Err(back) => {
            drop(back);
            drop(pool);
            false
        }
    }
}

/// Ends the era, if need be by a second try.
fn turn_era<L: Ledger + Naming, R: Runs>(
    rt: &R,
    pool: &mut Pool<L>,
    seats: Vec<Seat<L>>,
) -> Result<(Era, Vec<Seat<L>>), (FinishError, Vec<Seat<L>>)> {
    match pool.turn_era(rt.alloc(), seats) {
        Ok(turned) => Ok(turned),
        Err((_, seats)) => pool.turn_era(rt.alloc(), seats),
    }
}

/// Whether the second era goes as it has to, behind so many records, the last of which comes again.
fn goes_on<L: Ledger + Naming, R: Runs>(
    rt: &R,
    pool: Pool<L>,
    seats: Vec<Seat<L>>,
    before: u64,
) -> bool {
    let mut seats = seats;
    let executed = match seats.first_mut() {
        Some(seat) => follow(&mut Caller::new(rt, &pool, seat), SECOND_ERA, before),
        None => 0,
    };
    finishes(rt, pool, seats, before, executed)
}

/// Whether the era and the next one end in one room, and the pool behind them.
fn leaves_room<L: Ledger + Naming, R: Runs>(
    rt: &R,
    pool: Pool<L>,
    seats: Vec<Seat<L>>,
    records: u64,
) -> bool {
    let mut pool = pool;
    let ended = end_in_one_room(rt, &mut pool, seats, records);
    let book = pool.end();
    let over = is_at_rest(&book, 0);
    drop(book);
    ended && over
}

/// Whether the era and the next one end in one room, and the first one not without it.
fn end_in_one_room<L: Ledger + Naming, R: Runs>(
    rt: &R,
    pool: &mut Pool<L>,
    seats: Vec<Seat<L>>,
    records: u64,
) -> bool {
    let count = seats.len();
    let Some(seats) = stays_without_room(rt, pool, seats) else {
        return false;
    };
    let Some((seats, room)) = ends_in(rt, pool, seats, room_for(rt, count), 0, records) else {
        return false;
    };
    let mut seats = seats;
    let executed = match seats.first_mut() {
        Some(seat) => follow(&mut Caller::new(rt, pool, seat), SECOND_ERA, records),
        None => 0,
    };
    let left = ends_in(rt, pool, seats, Ok(room), records, executed);
    let ended = left.is_some();
    drop(left);
    ended && executed == 1
}

/// Room for so many seats, if need be by a second try.
pub(super) fn room_for<R: Runs>(rt: &R, count: usize) -> Result<EraRoom, AllocError> {
    match EraRoom::new(rt.alloc(), count) {
        Ok(room) => Ok(room),
        Err(AllocError) => EraRoom::new(rt.alloc(), count),
    }
}

/// The seats, where the era does not end in a room for none.
fn stays_without_room<L: Ledger + Naming, R: Runs>(
    rt: &R,
    pool: &mut Pool<L>,
    seats: Vec<Seat<L>>,
) -> Option<Vec<Seat<L>>> {
    match room_for(rt, 0) {
        Ok(none) => match pool.next_era(rt.alloc(), seats, none) {
            Ok((ended, seats)) => {
                drop(ended.compare());
                drop(seats);
                None
            }
            Err((seats, none)) => {
                drop(none);
                Some(seats)
            }
        },
        Err(_) => {
            drop(seats);
            None
        }
    }
}

/// The next seats and the room, where the era ends in it with so many records behind this one.
fn ends_in<L: Ledger + Naming, R: Runs>(
    rt: &R,
    pool: &mut Pool<L>,
    seats: Vec<Seat<L>>,
    room: Result<EraRoom, AllocError>,
    before: u64,
    records: u64,
) -> Option<(Vec<Seat<L>>, EraRoom)> {
    match room {
        Ok(room) => match pool.next_era(rt.alloc(), seats, room) {
            Ok((ended, seats)) => match compared(ended, before, records) {
                Some(room) => Some((seats, room)),
                None => {
                    drop(seats);
                    None
                }
            },
            Err(back) => {
                drop(back);
                None
            }
        },
        Err(_) => {
            drop(seats);
            None
        }
    }
}

/// The room of an era that is over, where its receipts tell so many records behind this one.
fn compared(ended: Ended, before: u64, records: u64) -> Option<EraRoom> {
    match ended.compare() {
        Ok((era, room)) => {
            let told = has_records(&era, before, records);
            drop(era);
            if told {
                return Some(room);
            }
            drop(room);
            None
        }
        Err(back) => {
            drop(back);
            None
        }
    }
}

const FIRST_ERA: &[Row] = &[
    (1, Ask::Create(X), Want::Makes),
    (2, Ask::Remove(X), Want::Is(OK)),
    (3, Ask::Getattr, Want::Is(Told::EraFull)),
];

const SECOND_ERA: &[Row] = &[
    (3, Ask::Getattr, Want::Is(OK)),
    (2, Ask::Remove(X), Want::Is(Told::Kept)),
];

/// The third call of an era of two finds it full. In the next one it is the third record, and the second call, which
/// comes again, is answered as before.
#[test]
fn a_full_era_is_followed_by_another(rt: HostRuntime) -> Result<(), AllocError> {
    let course = Course {
        seats: 2,
        era_records: 2,
        calls: 2,
        end: End::EraTurned,
    };
    let part = Rows {
        caller: 0,
        rows: FIRST_ERA,
    };
    in_pool(&rt, course, &part)
}

/// The next era ends in the room that the first one left.
#[test]
fn an_era_ends_in_the_room_of_the_one_before_it(rt: HostRuntime) -> Result<(), AllocError> {
    let course = Course {
        seats: 2,
        era_records: 2,
        calls: 2,
        end: End::RoomLeft,
    };
    let part = Rows {
        caller: 0,
        rows: FIRST_ERA,
    };
    in_pool(&rt, course, &part)
}

/// The records of a pool that is stopped are in its book.
#[test]
fn a_pool_is_stopped_with_its_records(rt: HostRuntime) -> Result<(), AllocError> {
    alone(&rt, End::Stopped, 1, &[(1, Ask::Getattr, Want::Is(OK))])
}
