//! The end of an era, and of a pool.

ghost use Rattle.std.specs.Prelude.{IfErr, IfOk, OnErr, ◌≡◌, ◌≤◌, length};
ghost use Rattle.nfs_engine.specs.Book.{IsRun};
ghost use Rattle.nfs_pool.specs.Eras.{AreNew, EndsEra, EndsIn, EndsSome, IfMissing, LeaveOut, LeavesEra, TellAll};
ghost use Rattle.nfs_pool.specs.Eras.{told_by};

use crate::comparing::{begin_so, told_in_order};
use crate::counting::Count;
use crate::desk::Desk;
use crate::ended::Ended;
use crate::pool::Pool;
use crate::room::EraRoom;
use crate::seat::{Seat, leave_all, new_seats};
use crate::sent::FinishError;
use nfs_engine::{Book, Era};
use nfs_stamps::Naming;
use std::alloc::Global;
use std::sync::Mutex;
use std::sync::ledger::Ledger;

impl<L: Ledger + Naming> Pool<L> {
    /// Ends the pool, where the receipts of these seats are the records of the era. The records are handed out, and the
    /// book without them.
    ///
    /// # Errors
    ///
    /// As `turn_era`. All is handed back as it was.
    pub fn finish(
        self,
        alloc: Global,
        seats: Vec<Seat<L>>,
    ) -> Result<(Era, Book), (FinishError, Pool<L>, Vec<Seat<L>>)>
        ensures era { IfOk result (λ r. EndsIn r.1 (told_by seats.items) r.0) }
        ensures missing { IfErr result (λ e. IfMissing e.0
            (length seats.items ≡ L.parts → LeaveOut (told_by seats.items))) }
        ensures back { IfErr result (λ e. e.2.items ≡ seats.items) }
    {
        let Pool {
            desk,
            places,
            count,
            log,
            key,
        } = self;
        let mut desk = desk.into_inner();
        match close_era(alloc, &mut desk, &count, seats) {
            Ok((era, _)) => Ok((era, desk.into_book())),
            Err((error, seats)) => {
                let desk = Mutex::new(desk);
                Err((
                    error,
                    Pool {
                        desk,
                        places,
                        count,
                        log,
                        key,
                    },
                    seats,
                ))
            }
        }
    }

    /// Ends the era, where the receipts of these seats are its records, and begins the next, with as many new seats.
    ///
    /// # Errors
    ///
    /// A seat of the pool is not given, or a record has no equal receipt in those that are (`Missing`); or there is no
    /// memory to compare them, or for the new seats. The pool is as it was, and the seats are handed back.
    pub fn turn_era(
        &mut self,
        alloc: Global,
        seats: Vec<Seat<L>>,
    ) -> Result<(Era, Vec<Seat<L>>), (FinishError, Vec<Seat<L>>)>
        ensures era { IfOk result (λ r. EndsSome (told_by seats.items) r.0) }
        ensures seats { IfOk result (λ r. AreNew r.1.items (length seats.items)) }
        ensures missing { IfErr result (λ e. IfMissing e.0
            (length seats.items ≡ L.parts → LeaveOut (told_by seats.items))) }
        ensures back { IfErr result (λ e. e.1.items ≡ seats.items) }
    {
        close_era(alloc, self.desk.get_mut(), &self.count, seats)
    }

    /// Ends the era, and begins the next, with as many new seats. That the receipts of these seats are its records is
    /// left to be compared, so that callers need not wait for it. What they leave stands in this room, which the era
    /// that is over gives back. Of dead files a few pages are swept, where there is memory for that: what stood there
    /// goes with the era. Its time goes by the number of seats and of these pages, and for no want of memory it fails.
    ///
    /// # Errors
    ///
    /// A seat of the pool is not given, or the room is for fewer seats. The pool is as it was, and seats and room are
    /// handed back.
    pub fn next_era(
        &mut self,
        alloc: Global,
        seats: Vec<Seat<L>>,
        room: EraRoom,
    ) -> Result<(Ended, Vec<Seat<L>>), (Vec<Seat<L>>, EraRoom)>
        ensures ended { IfOk result (λ r. r.0.receipts ≡ told_by seats.items) }
        ensures room { IfOk result (λ r. r.0.room ≡ room) }
        ensures seats { IfOk result (λ r. AreNew r.1.items (length seats.items)) }
        ensures missing { IfErr result (λ _. length seats.items ≡ L.parts → length seats.items ≤ room → ⊥) }
        ensures back { IfErr result (λ e. (e.0.items ≡ seats.items) × (e.1 ≡ room)) }
    {
        let desk = self.desk.get_mut();
        let (mut ended, seats) = leave_era(alloc, desk, &self.count, seats, room)?;
        ended.sweep(alloc, self);
        Ok((ended, seats))
    }

    /// Ends the pool: its book is handed out. It takes no memory.
    pub fn end(self) -> Book {
        let Pool {
            desk,
            places,
            count: _,
            log,
            key: _,
        } = self;
        drop(places);
        drop(log);
        desk.into_inner().into_book()
    }
}

/// Ends the era, where the receipts of these seats are its records, and begins the next, with as many new seats.
///
/// # Errors
///
/// They are not all seats, or not all its records; or there is no memory. Nothing is changed.
fn close_era<L: Ledger + Naming>(
    alloc: Global,
    desk: &mut Desk<L>,
    count: &Count<L>,
    seats: Vec<Seat<L>>,
) -> Result<(Era, Vec<Seat<L>>), (FinishError, Vec<Seat<L>>)>
    ensures era { IfOk result (λ r. EndsEra desk.old.book desk.new.book (told_by seats.items) r.0) }
    ensures seats { IfOk result (λ r. AreNew r.1.items (length seats.items)) }
    ensures missing { IfErr result (λ e. IfMissing e.0 (length seats.items ≡ L.parts →
        TellAll desk.old.book.before desk.old.book.records (told_by seats.items) → ⊥)) }
    ensures back { IfErr result (λ e. e.1.items ≡ seats.items) }
    ensures run { IsRun desk.old.book }
    ensures same { OnErr result (desk.new.book ≡ desk.old.book) }
{
    // It brings that the records are a run.
    desk.book.show_run();
    let Ok(tells) = told_in_order(alloc, &seats) else {
        return Err((FinishError::Memory, seats));
    };
    if !begin_so(desk.book.before(), desk.book.executed(), &tells) {
        return Err((FinishError::Missing, seats));
    }
    let Ok(room) = EraRoom::new(alloc, seats.len()) else {
        return Err((FinishError::Memory, seats));
    };
    match leave_era(alloc, desk, count, seats, room) {
        Ok((ended, seats)) => {
            let (era, room) = ended.into_parts();
            drop(room);
            Ok((era, seats))
        }
        Err((seats, room)) => {
            drop(room);
            Err((FinishError::Missing, seats))
        }
    }
}

/// Ends the era, and begins the next, with as many new seats. It takes no memory: what the seats leave stands in this
/// room, and the new ones where they stood.
///
/// # Errors
///
/// They are not all seats, or the room is for fewer. Nothing is changed.
fn leave_era<L: Ledger + Naming>(
    alloc: Global,
    desk: &mut Desk<L>,
    count: &Count<L>,
    seats: Vec<Seat<L>>,
    room: EraRoom,
) -> Result<(Ended, Vec<Seat<L>>), (Vec<Seat<L>>, EraRoom)>
    ensures ended { IfOk result (λ r. r.0.receipts ≡ told_by seats.items) }
    ensures room { IfOk result (λ r. r.0.room ≡ room) }
    ensures leaves { IfOk result (λ r.
        LeavesEra desk.old.book desk.new.book (length r.0.receipts) r.0.era) }
    ensures seats { IfOk result (λ r. AreNew r.1.items (length seats.items)) }
    ensures missing { IfErr result (λ _. length seats.items ≡ L.parts → length seats.items ≤ room → ⊥) }
    ensures back { IfErr result (λ e. (e.0.items ≡ seats.items) × (e.1 ≡ room)) }
    ensures same { OnErr result (desk.new.book ≡ desk.old.book) }
{
    let number = seats.len();
    if !count.is(number) || !room.is_for(number) {
        return Err((seats, room));
    }
    let mut all = desk.no_share();
    let (places, gone) = room.into_parts();
    let (lists, emptied) = leave_all(seats, places, &mut all);
    let era = desk.new_era(alloc, &mut all);
    let seats = new_seats(alloc, emptied, all, number);
    Ok((Ended::new(era, lists, gone), seats))
}
