//! The seventeen locks, and each step of a call under those that it needs.

ghost use Rattle.std.specs.Prelude.{◌≡◌, [], IfErr, IfOk};
ghost use Rattle.nfs_pool.specs.Eras.{AreNew};
ghost use Rattle.nfs_pool.specs.Seats.{Tells};

use crate::carrying::run_call;
use crate::committing::{CommitTerms, written_shards};
use crate::counting::Count;
use crate::desk::Desk;
use crate::gate::Gate;
use crate::locking::{LockedShard, lock_spinning};
use crate::noted::NotedTxn;
use crate::opening::{lock_all, mark_opening, stamp_for};
use crate::seat::{Seat, new_seats};
use crate::sent::{PoolError, Sent, Unadmitted, Uncommitted};
use crate::steps::Steps;
use nfs_engine::{
    Admission, Arrival, Committed, Engine, Finished, Got, Next, Pending, Posted, Prepared, Receipt,
    Refused, Release, ReserveError, SHARDS, shard_index,
};
use nfs_objects::{Addr, Mode};
use nfs_replies::RecordKey;
use nfs_stamps::{Log, Naming, Notes, Opened};
use std::alloc::{AllocError, Global};
use std::sync::ledger::{Blank, Ledger, Share};
use std::sync::{Mutex, Wait};

/// The book and the shards, each under a lock of its own.
#[derive(Drop)]
pub struct Pool<L: Ledger + Naming> {
    pub(crate) desk: Mutex<Desk<L>>,
    pub(crate) places: [LockedShard<L>; SHARDS],
    pub(crate) count: Count<L>,
    /// The stamps of commits.
    pub(crate) log: Log<L>,
    /// Under which the book hashes records, so that they are hashed with no lock held.
    pub(crate) key: RecordKey,
}

impl<L: Ledger + Naming> Pool<L> {
    /// The pool of an engine without records, and a seat for each part of the ledger.
    ///
    /// # Errors
    ///
    /// There is no memory for the seats. Ledger and engine are handed back.
    pub fn new(
        alloc: Global,
        blank: Blank,
        opened: Opened,
        engine: Engine,
        count: usize,
    ) -> Result<(Pool<L>, Vec<Seat<L>>), (Blank, Engine)>
        requires name { blank.name ≡ L.name }
        requires parts { blank.parts ≡ L.parts }
        requires count { blank.parts ≡ count }
        requires log { opened.seen.book ≡ L.book }
        requires records { engine.book.records ≡ [] }
        ensures seats { IfOk result (λ r. AreNew r.1.items count) }
        ensures back { IfErr result (λ r. (r.0 ≡ blank) × (r.1 ≡ engine)) }
    {
        let Ok(room) = Vec::with_capacity(alloc, count) else {
            return Err((blank, engine));
        };
        let (counted, mut all) = blank.open::<L>();
        let nothing = all.empty();
        let log = opened.named::<L>();
        // It brings that the shards together are the book's store.
        engine.show_tie();
        let (book, shards) = engine.into_parts();
        let (marks, first) = mark_opening(alloc, &log, &book, &shards[0]);
        let (key, placing) = (book.record_key(), book.placing());
        let pool = Pool {
            desk: Mutex::new(Desk::new(alloc, book, counted, nothing, marks)),
            places: lock_all(alloc, placing, shards, first),
            count: Count::new(count),
            log,
            key,
        };
        Ok((pool, new_seats(alloc, room, all, count)))
    }

    /// Brings what came in to its answer on this thread, with one hold of locks for each step. The gate is
    /// called before each step, with no lock held, and in the hold of each acquire.
    ///
    /// # Errors
    ///
    /// There is no memory for one more receipt in the seat, or the era is full. Nothing is executed.
    pub fn submit<R: Wait, G: Gate>(
        &self,
        rt: &R,
        alloc: Global,
        gate: &G,
        seat: &mut Seat<L>,
        arrival: Arrival,
    ) -> Result<Sent, PoolError>
        ensures { Tells arrival seat.old seat.new result }
    {
        run_call(rt, alloc, self, gate, seat, arrival)
    }

    /// How many large objects commits have compared by value so far, since they were not known by their stamps.
    pub fn compared<R: Wait>(&self, rt: &R) -> u64 {
        let guard = lock_spinning(rt, &self.desk);
        guard.compared()
    }

    /// At how many addresses something stands: those of the store that the book had while this held its lock. It takes
    /// no memory.
    pub fn objects<R: Wait>(&self, rt: &R) -> u64 {
        let guard = lock_spinning(rt, &self.desk);
        guard.objects()
    }

    /// Takes the oldest message that was not yet taken. It takes no memory.
    pub fn message<R: Wait>(&self, rt: &R) -> Option<Posted> {
        let mut guard = lock_spinning(rt, &self.desk);
        let desk = &mut *guard;
        desk.take_message()
    }
}

impl<L: Ledger + Naming> Steps<L> for Pool<L> {
    fn admit<R: Wait>(
        &self,
        rt: &R,
        alloc: Global,
        arrival: Arrival,
    ) -> Result<Admission, Unadmitted> {
        match arrival.prepare(self.key) {
            Ok(Prepared::Call(candidate)) => {
                let mut guard = lock_spinning(rt, &self.desk);
                let desk = &mut *guard;
                desk.admit_call(alloc, candidate)
            }
            Ok(Prepared::Early(faulted)) => Ok(Admission::Early(faulted)),
            Err(arrival) => {
                let mut guard = lock_spinning(rt, &self.desk);
                let desk = &mut *guard;
                desk.admit(alloc, arrival)
            }
        }
    }

    fn acquire<R: Wait, G: Gate>(
        &self,
        rt: &R,
        alloc: Global,
        gate: &G,
        txn: &mut NotedTxn<L>,
        address: Addr,
        mode: Mode,
    ) -> Result<Got, AllocError> {
        txn.make_room();
        let index = shard_index(address);
        let mut guard = lock_spinning(rt, &self.places[index].placed);
        gate.inside(index);
        txn.acquire_in(alloc, &mut *guard, address, mode)
    }

    fn wait_for<R: Wait>(&self, rt: &R, address: Addr, mode: Mode) {
        let place = &self.places[shard_index(address)];
        let guard = lock_spinning(rt, &place.placed);
        let free = place
            .released
            .wait_while(rt, guard, |placed| place.is_taken(placed, address, mode));
        drop(free);
    }

    fn give_way<R: Wait>(&self, rt: &R, address: Addr) {
        self.places[shard_index(address)]
            .awaited
            .give_way(rt, address);
    }

    fn withdraw(&self, address: Addr) {
        self.places[shard_index(address)].awaited.forget(address);
    }

    fn reserve<R: Wait>(
        &self,
        rt: &R,
        txn: &mut NotedTxn<L>,
        shard: usize,
    ) -> Result<bool, ReserveError> {
        txn.make_room();
        let mut guard = lock_spinning(rt, &self.places[shard].placed);
        txn.reserve_in(&mut *guard)
    }

    fn commit<R: Wait>(
        &self,
        rt: &R,
        alloc: Global,
        mine: &mut Share<L>,
        last: u64,
        finished: Finished,
        notes: &Notes<L>,
    ) -> Result<(Receipt, Release), Uncommitted> {
        let written = written_shards(finished.writes());
        let stamp = stamp_for(&self.log, finished.writes());
        let terms = CommitTerms {
            last,
            notes,
            stamp: stamp.as_ref(),
            written: &written,
        };
        match self.commit_from(rt, alloc, mine, &terms, finished, 0) {
            Ok(committed) => {
                let Committed {
                    receipt,
                    release,
                    writes,
                    spent,
                } = committed;
                drop(writes);
                drop(spent);
                Ok((receipt, release))
            }
            Err(uncommitted) => Err(uncommitted),
        }
    }

    fn release<R: Wait>(&self, rt: &R, release: Release) -> Next {
        let Some(index) = release.next_shard() else {
            return release.next();
        };
        let left = {
            let mut guard = lock_spinning(rt, &self.places[index].placed);
            let placed = &mut *guard;
            placed.let_go(release)
        };
        self.places[index].released.notify_all();
        // Where nothing is held any more what the call has read is dropped here, with no lock held.
        left.next()
    }

    fn give_up<R: Wait>(&self, rt: &R, pending: Pending) -> Refused {
        let mut guard = lock_spinning(rt, &self.desk);
        let desk = &mut *guard;
        desk.give_up(pending)
    }
}
