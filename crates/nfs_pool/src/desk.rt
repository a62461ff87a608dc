//! What lies under the book's lock.

ghost use Rattle.std.specs.Prelude.{◌≡◌, ◌+◌, ◌*◌, ◌^◌, ◌<◌, ◌≤◌, ℕ, [], IfErr, IfOk, IfSome, OnErr, OnOk, length};
ghost use Rattle.std.specs.Prelude.{option_copied, slice_get};
ghost use Rattle.std.specs.Bool.{Decides};
ghost use Rattle.nfs_engine.specs.Book.{Commits, GivesUp, MayCommit, TakesMessage, store_in};
ghost use Rattle.nfs_engine.specs.Commits.{Leaves};
ghost use Rattle.nfs_engine.specs.Standing.{HasObjects};
ghost use Rattle.nfs_engine.specs.Sweeps.{MaySweep, Sweeps};
ghost use Rattle.nfs_engine.specs.Tables.{Stands};
ghost use Rattle.nfs_engine.specs.declared.release.Then.TheVariants as then;
ghost use Rattle.nfs_stamps.specs.Marking.{AreMarks, AreNotes};
ghost use Rattle.nfs_pool.specs.Eras.{LeavesEra};
ghost use Rattle.nfs_pool.specs.Seats.{Counts};
ghost use Rattle.nfs_pool.specs.Steps.{AdmitsUnlessFull, IsMadeAbove};

use crate::marking::mark_written;
use crate::sent::{Reason, Unadmitted, Uncommitted};
use crate::sweeping::unmark;
use nfs_engine::{
    Admission, Arrival, Book, Candidate, Committed, Dead, Era, Finished, Pending, Posted, Refused,
    Sweep,
};
use nfs_stamps::{Marks, Naming, Notes, Stamp, is_large};
use std::alloc::{AllocError, Global};
use std::sync::atomic::{AtomicU64, Ordering};
use std::sync::ledger;
use std::sync::ledger::{Ledger, Share};

/// The book, and a ledger of its records: each counts for the seat that has its receipt. The type of `Book` keeps that
/// the records are a run of the machine to its store; so it is whenever the lock is free. What is counted is never
/// taken back, and tells the records of the era from those of eras that are over: so no book without them has its place
/// here. Beside the store stands by which commits its large objects were put.
#[derive(Drop)]
pub struct Desk<L: Ledger + Naming> {
    pub(crate) book: Book,
    marks: Marks<L>,
    /// The files that may be dead and not yet swept.
    dead: Dead,
    /// How many large objects were compared by value.
    compared: AtomicU64,
    /// How many records of eras that are over are counted.
    past: u64,
    counted: ledger::Book<L>,
    /// A share of nothing, to begin others from.
    nothing: Share<L>,
    ghost counts: { counted.total ≡ 2 ^ 64 * (past + length book.records) + past },
    ghost over: { past ≤ book.before },
    ghost empty: { nothing.parts ≡ 0 },
    ghost none: { nothing.amount ≡ 0 },
    ghost marked: { AreMarks marks (store_in book).at },
}

impl<L: Ledger + Naming> Desk<L> {
    /// The book of an engine without records, with these marks.
    pub(crate) fn new(
        alloc: Global,
        book: Book,
        counted: ledger::Book<L>,
        nothing: Share<L>,
        marks: Marks<L>,
    ) -> Desk<L>
        requires total { counted.total ≡ 0 }
        requires records { book.records ≡ [] }
        requires nothing { (nothing.parts ≡ 0) × (nothing.amount ≡ 0) }
        requires marked { AreMarks marks (store_in book).at }
        ensures { result.book ≡ book }
    {
        Desk {
            book,
            marks,
            dead: Dead::new(alloc),
            compared: AtomicU64::new(0),
            past: 0,
            counted,
            nothing,
        }
    }

    /// Admits a record that came in, unless the era is full.
    ///
    /// # Errors
    ///
    /// The era is full; or there is no memory, or no number. Nothing is changed.
    pub fn admit(&mut self, alloc: Global, arrival: Arrival) -> Result<Admission, Unadmitted>
        ensures { AdmitsUnlessFull self.old.book self.new.book arrival result }
    {
        if self.book.era_is_full() {
            return Err(Unadmitted::EraFull(arrival));
        }
        match self.book.admit(alloc, arrival) {
            Ok(admission) => Ok(admission),
            Err((error, arrival)) => {
                drop(error);
                Err(Unadmitted::Refused(arrival))
            }
        }
    }

    /// Admits a record that asks a call, for which all is made, unless the era is full.
    ///
    /// # Errors
    ///
    /// As `admit`.
    pub fn admit_call(
        &mut self,
        alloc: Global,
        candidate: Candidate,
    ) -> Result<Admission, Unadmitted>
        ensures { AdmitsUnlessFull self.old.book self.new.book candidate result }
    {
        let full = self.book.era_is_full();
        if full {
            return Err(Unadmitted::EraFull(candidate.into_arrival()));
        }
        match self.book.admit_call(alloc, candidate) {
            Ok(admission) => Ok(admission),
            Err((error, arrival)) => {
                drop(error);
                Err(Unadmitted::Refused(arrival))
            }
        }
    }

    /// Gives a call up.
    pub fn give_up(&mut self, pending: Pending) -> Refused
        ensures { GivesUp self.old.book self.new.book pending result }
    {
        self.book.give_up(pending)
    }

    /// Takes the oldest message that was not yet taken.
    pub fn take_message(&mut self) -> Option<Posted>
        ensures { TakesMessage self.old.book self.new.book result }
    {
        self.book.take_message()
    }

    /// Commits a call whose view fits the present store, under a number above this one; it counts for the caller. Notes
    /// tell by which commits what it has read was put; what it puts gets this stamp, if there is one.
    ///
    /// # Errors
    ///
    /// The book is as it was, and the call is handed back.
    pub fn commit(
        &mut self,
        alloc: Global,
        mine: &mut Share<L>,
        last: u64,
        finished: Finished,
        notes: &Notes<L>,
        stamp: Option<&Stamp<L>>,
    ) -> Result<Committed, Uncommitted>
        requires parts { 0 < mine.old.parts }
        requires notes { AreNotes notes.now finished.done.view.entries }
        requires stamp { IfSome (option_copied stamp) (λ s. s ≡ finished.done.change.writes) }
        ensures parts { mine.new.parts ≡ mine.old.parts }
        ensures counted { OnOk result (mine.new.amount ≡ mine.old.amount + 2 ^ 64) }
        ensures uncounted { OnErr result (mine.new.amount ≡ mine.old.amount) }
        ensures commits { OnOk result (Commits self.old.book self.new.book finished) }
        ensures receipt { IfOk result (λ c. IsMadeAbove last finished c.receipt) }
        ensures leaves { IfOk result (Leaves finished) }
        ensures over { IfOk result (λ c. c.release.after ≡ then.Ended) }
        ensures back { IfErr result (λ u. u.finished ≡ finished) }
        ensures same { OnErr result (self.new.book ≡ self.old.book) }
    {
        // It brings that the call is what its record asks.
        finished.show_finished();
        let Some(number) = self.book.next_number() else {
            return Err(handed_back(finished, Reason::Memory));
        };
        if number <= last || !self.fits(&finished, notes) {
            return Err(handed_back(finished, Reason::Stale));
        }
        if self.dead.make_room(finished.writes()).is_err() {
            return Err(handed_back(finished, Reason::Memory));
        }
        let Desk {
            book,
            marks,
            dead,
            compared: _,
            past: _,
            counted,
            nothing: _,
        } = self;
        match book.commit(alloc, finished) {
            Ok(committed) => {
                mark_written(marks, None, &committed.writes, stamp);
                dead.note(&committed.writes);
                counted.add(mine, u64::MAX);
                counted.add(mine, 1);
                Ok(committed)
            }
            Err(finished) => Err(handed_back(finished, Reason::Memory)),
        }
    }

    /// Whether a call may be committed, as `Book::fits`. It compares by value only what it does not know by its stamp.
    fn fits(&self, finished: &Finished, notes: &Notes<L>) -> bool
        requires { AreNotes notes.now finished.now.done.view.entries }
        ensures { Decides result (MayCommit self.now.book finished.now) }
    {
        for place in 0..finished.view().len() {
            if !self.shows(finished, notes, place) {
                return false;
            }
        }
        self.book.fits_shown(finished)
    }

    /// Whether what a call has read at this place stands in the present store, if its view has such a place.
    fn shows(&self, finished: &Finished, notes: &Notes<L>, place: usize) -> bool
        requires { AreNotes notes.now finished.now.done.view.entries }
        ensures { Decides result
            (IfSome (slice_get finished.now.done.view.entries place) (Stands (store_in self.now.book))) }
    {
        let Some((address, entry)) = finished.view().entry(place) else {
            return true;
        };
        if notes.tell(&self.marks, place, address) {
            return true;
        }
        if is_large(address) && entry.object.is_some() {
            self.compared.fetch_add(1, Ordering::Relaxed);
        }
        self.book.shows(finished, place)
    }

    /// How many large objects were compared by value.
    pub(crate) fn compared(&self) -> u64 {
        self.compared.load(Ordering::Relaxed)
    }

    /// At how many addresses something stands.
    pub(crate) fn objects(&self) -> u64
        ensures { HasObjects (store_in self.now.book) result }
    {
        self.book.objects()
    }

    /// A share of nothing.
    pub(crate) fn no_share(&mut self) -> Share<L>
        ensures share { (result.parts ≡ 0) × (result.amount ≡ 0) }
        ensures book { self.new.book ≡ self.old.book }
    {
        self.nothing.empty()
    }

    /// Ends the era, and begins the next. The share that has every part counts each record of the era, and then none:
    /// they are of an era that is over.
    pub(crate) fn new_era(&mut self, alloc: Global, all: &mut Share<L>) -> Era
        requires parts { all.old.parts ≡ L.parts }
        ensures parts { all.new.parts ≡ all.old.parts }
        ensures none { Counts 0 all.new.amount }
        ensures leaves { (receipts : ℕ) → Counts receipts all.old.amount →
            LeavesEra self.old.book self.new.book receipts result }
    {
        self.book.show_run();
        // It brings that there are fewer records than 2^64.
        self.book.before();
        let count = self.book.executed().len() as u64;
        let Desk {
            book,
            marks: _,
            dead: _,
            compared: _,
            past,
            counted,
            nothing: _,
        } = self;
        counted.audit(all);
        // Without a record there may be no part to count for.
        if count > 0 {
            counted.add(all, count);
            *past += count;
        }
        book.new_era(alloc)
    }

    /// Whether there are files that may be dead and not yet swept.
    pub(crate) fn has_dead(&self) -> bool {
        !self.dead.is_empty()
    }

    /// The number of the one that is to be swept next.
    pub(crate) fn next_dead(&self) -> Option<u64> {
        self.dead.next()
    }

    /// Goes on behind that one, of which nothing is left to be swept.
    pub(crate) fn go_on(&mut self)
        ensures { self.new.book ≡ self.old.book }
    {
        self.dead.go_on();
    }

    /// What the next sweep of the file at a number takes away, if it is dead.
    ///
    /// # Errors
    ///
    /// There is no memory for what is left of its inode.
    pub(crate) fn sweep_of(&self, alloc: Global, number: u64) -> Result<Option<Sweep>, AllocError>
        ensures { IfOk result (λ s. IfSome s (MaySweep (store_in self.now.book))) }
    {
        self.book.sweep_of(alloc, number)
    }

    /// Sweeps a page of the file that is to be swept next.
    pub(crate) fn sweep(&mut self, sweep: Sweep)
        requires { MaySweep (store_in self.old.book) sweep }
        ensures sweeps { Sweeps (store_in self.old.book) (store_in self.new.book) sweep }
        ensures rest { self.new.book ≡ record self.old.book { objects = self.new.book.objects } }
    {
        let Desk {
            book,
            marks,
            dead,
            compared: _,
            past: _,
            counted: _,
            nothing: _,
        } = self;
        unmark(marks, &sweep);
        dead.swept(sweep.is_last());
        book.sweep(sweep);
    }

    /// The book alone.
    pub(crate) fn into_book(self) -> Book
        ensures { result ≡ self.book }
    {
        self.book
    }
}

/// A call that was not committed.
fn handed_back(finished: Finished, reason: Reason) -> Uncommitted
    ensures { result ≡ record { finished = finished; reason = reason } }
{
    Uncommitted { finished, reason }
}
