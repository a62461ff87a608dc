//! Who may execute calls: seats that wait to be taken, and the end of eras.
//!
//! A seat travels with its pool. Whoever executes calls takes a permit, and gives it back behind them. So when all
//! permits are gathered nobody else has the pool, and its era can be ended: no thread has to be joined for that.

ghost use Rattle.std.specs.Prelude.{◌<◌};

use crate::exit::Exit;
use crate::network::counters::{CountedEvent, Counters, Gauge};
use crate::network::drain::Drain;
use crate::network::tally::Tally;
use crossbeam_channel::{Receiver, RecvTimeoutError, Sender};
use nfs_machine::NameKey;
use nfs_pool::{Ended, EraRoom, Naming, Pool, Seat};
use std::alloc::{AllocError, Global};
use std::rt::Clock;
use std::sync::atomic::{AtomicBool, Ordering};
use std::sync::ledger::Ledger;
use std::sync::{Arc, Wait};
use std::time::Duration;

/// So often the era thread looks whether dead files are left, in milliseconds.
const LOOK: u64 = 1000;

/// So soon behind the end of an era it ends the next one while some are left, in milliseconds: an end takes a part of
/// that, in which nobody is served.
const HURRY: u64 = 20;

/// A seat with its pool: the leave to execute calls.
#[derive(Drop)]
pub(crate) struct Permit<L: Ledger + Naming> {
    pub(crate) pool: Arc<Pool<L>>,
    pub(crate) seat: Seat<L>,
    /// How many eras had ended when it was handed out.
    pub(crate) turns: u64,
    /// Whether the end before it swept something of dead files, or left something: then memory comes with the next end.
    pub(crate) is_sweeping: bool,
    /// Whether nobody calls any more: when it is handed in the last era ends.
    pub(crate) is_last: bool,
}

/// Whether the era thread gathers all permits: what is given back comes to it then.
#[derive(Drop)]
pub(crate) struct Gathering {
    is_on: AtomicBool,
}

impl Gathering {
    /// It does not.
    pub(crate) fn new() -> Gathering {
        Gathering {
            is_on: AtomicBool::new(false),
        }
    }

    fn begin(&self) {
        self.is_on.store(true, Ordering::SeqCst);
    }

    fn end(&self) {
        self.is_on.store(false, Ordering::SeqCst);
    }

    fn is_on(&self) -> bool {
        self.is_on.load(Ordering::SeqCst)
    }
}

/// The permits that nobody has.
#[derive(Drop)]
pub(crate) struct Permits<L: Ledger + Naming> {
    free: Receiver<Permit<L>>,
    back: Sender<Permit<L>>,
    full: Sender<Permit<L>>,
    gathering: Arc<Gathering>,
    drain: Arc<Drain>,
}

impl<L: Ledger + Naming> Permits<L> {
    /// Permits come from `free`, whose other end is `back`, and go to `back`, or where the era is to be ended to
    /// `full`. The program ends in order by the drain.
    pub(crate) fn new(
        free: Receiver<Permit<L>>,
        back: Sender<Permit<L>>,
        full: Sender<Permit<L>>,
        gathering: Arc<Gathering>,
        drain: Arc<Drain>,
    ) -> Permits<L> {
        Permits {
            free,
            back,
            full,
            gathering,
            drain,
        }
    }

    /// One more owner of the permits.
    ///
    /// # Errors
    ///
    /// There is no memory for one more owner.
    pub(crate) fn share(&self) -> Result<Permits<L>, AllocError> {
        Ok(Permits {
            free: self.free.clone()?,
            back: self.back.clone()?,
            full: self.full.clone()?,
            gathering: Arc::try_clone(&self.gathering)?,
            drain: Arc::try_clone(&self.drain)?,
        })
    }

    /// A permit, once there is one.
    pub(crate) fn take<R: Wait>(&self, rt: &R) -> Permit<L> {
        // The other end stays, as it is here too: a receive does not fail.
        for _ in rt.forever() {
            if let Ok(permit) = self.free.recv(rt) {
                return permit;
            }
        }
        unreachable!()
    }

    /// Gives a permit back: to the era thread, while that gathers all permits, and else to whoever takes it.
    pub(crate) fn give<R: Wait>(&self, rt: &R, permit: Permit<L>) {
        if self.gathering.is_on() {
            drop(self.full.send(rt, permit));
            return;
        }
        drop(self.back.send(rt, permit));
        // The era thread may have begun to gather them in between, and have found none free.
        if self.gathering.is_on() {
            if let Ok(permit) = self.free.try_recv(rt) {
                drop(self.full.send(rt, permit));
            }
        }
    }

    /// Has the era ended, so that what was recorded is let go where memory is wanting.
    pub(crate) fn relieve<R: Wait>(&self, rt: &R) {
        let permit = self.take(rt);
        self.give(rt, self.turn(rt, permit));
    }

    /// Has the last era ended: nobody calls any more.
    pub(crate) fn finish<R: Wait>(&self, rt: &R) {
        let mut permit = self.take(rt);
        permit.is_last = true;
        drop(self.full.send(rt, permit));
    }

    /// Has the program end in order: nobody is let in or begins to answer any more, those who answer are waited for,
    /// and then the last era ends.
    pub(crate) fn end<R: Wait + Clock>(&self, rt: &R) {
        self.drain.begin(rt);
        self.finish(rt);
    }

    /// Where those who answer are counted, so that the program ends behind their answers.
    pub(crate) fn drain(&self) -> &Drain {
        &self.drain
    }

    /// Hands a permit in, so that the era is ended, and takes one that was handed out after that. One that it takes
    /// before is handed in too.
    pub(crate) fn turn<R: Wait>(&self, rt: &R, permit: Permit<L>) -> Permit<L>
        ensures { permit.turns < result.turns }
    {
        let before = permit.turns;
        let mut permit = permit;
        for _ in rt.forever() {
            drop(self.full.send(rt, permit));
            permit = self.take(rt);
            if permit.turns > before {
                return permit;
            }
        }
        unreachable!()
    }
}

/// What is left of an era that was ended.
#[derive(Drop)]
struct EraRest<L: Ledger> {
    /// The room of the seats.
    seats: Vec<Seat<L>>,
    /// That of the era.
    room: EraRoom,
    /// Whether it was the last one, behind which no permit is handed out.
    is_last: bool,
    /// Whether dead files are left to be swept.
    has_dead: bool,
}

/// What ends eras.
#[derive(Drop)]
pub(crate) struct EraThread<L: Ledger + Naming> {
    pub(crate) free: Receiver<Permit<L>>,
    pub(crate) back: Sender<Permit<L>>,
    /// Permits whose era is to be ended.
    pub(crate) full: Receiver<Permit<L>>,
    /// How many permits there are.
    pub(crate) count: usize,
    pub(crate) gathering: Arc<Gathering>,
    /// For how many seconds the next permit is waited for.
    pub(crate) patience: u64,
    pub(crate) counters: Arc<Counters>,
    /// None where nobody is told of the replies that are kept.
    pub(crate) kept: Option<KeptReplies>,
}

/// What the replies that are kept are counted by.
#[derive(Clone, Copy)]
pub(crate) struct KeptReplies {
    /// How many are kept of each host.
    pub(crate) capacity: usize,
    /// The server's own bytes, by which hosts are placed.
    pub(crate) key: NameKey,
}

impl<L: Ledger + Naming> EraThread<L> {
    /// Ends eras, until nobody calls any more. What was recorded in them is compared and let go by this thread, which
    /// serves nobody. There is room for all seats, and to end an era in: each era takes the room of the one before it.
    ///
    /// # Errors
    ///
    /// A record has no receipt, or a permit was lost (`Receipts`).
    pub(crate) fn work<R: Wait + Clock>(
        &self,
        rt: &R,
        alloc: Global,
        seats: Vec<Seat<L>>,
        room: EraRoom,
    ) -> Result<(), Exit> {
        let mut tally = match &self.kept {
            Some(kept) => Tally::new(alloc, kept.capacity, &kept.key),
            None => Tally::new(alloc, 0, &[0; 16]),
        };
        let ended = self.end_eras(rt, alloc, seats, room, &mut tally);
        drop(tally);
        ended
    }

    /// The same, with what counts the replies that are kept.
    fn end_eras<R: Wait + Clock>(
        &self,
        rt: &R,
        alloc: Global,
        seats: Vec<Seat<L>>,
        room: EraRoom,
        tally: &mut Tally,
    ) -> Result<(), Exit> {
        let mut seats = seats;
        let mut room = room;
        let mut has_dead = false;
        for _ in rt.forever() {
            let Some(first) = self.first(rt, has_dead) else {
                return Ok(());
            };
            let Some(left) = self.end_era(rt, alloc, first, seats, room, tally) else {
                return Err(Exit::Receipts);
            };
            if left.is_last {
                return Ok(());
            }
            seats = left.seats;
            room = left.room;
            has_dead = left.has_dead;
        }
        unreachable!()
    }

    /// The first permit of those whose era is to be ended, once one is handed in. While dead files are left a free one
    /// is taken after a while. None where nobody has a permit any more.
    fn first<R: Wait + Clock>(&self, rt: &R, has_dead: bool) -> Option<Permit<L>> {
        let pause = Duration::from_millis(if has_dead { HURRY } else { LOOK });
        for _ in rt.forever() {
            match self.full.recv_timeout(rt, pause) {
                Ok(permit) => return Some(permit),
                Err(RecvTimeoutError::Disconnected) => return None,
                Err(RecvTimeoutError::Timeout) => {
                    if let Some(permit) = self.unswept(rt) {
                        return Some(permit);
                    }
                }
            }
        }
        unreachable!()
    }

    /// A free permit of a pool in which dead files are left.
    fn unswept<R: Wait>(&self, rt: &R) -> Option<Permit<L>> {
        let permit = self.free.try_recv(rt).ok()?;
        self.counters.set(Gauge::Objects, permit.pool.objects(rt));
        if permit.pool.has_dead(rt) {
            return Some(permit);
        }
        drop(self.back.send(rt, permit));
        None
    }

    /// Ends the era, hands out the permits of the next one, and compares what is over. None where a seat is missing, or
    /// a record has no receipt.
    fn end_era<R: Wait + Clock>(
        &self,
        rt: &R,
        alloc: Global,
        first: Permit<L>,
        seats: Vec<Seat<L>>,
        room: EraRoom,
        tally: &mut Tally,
    ) -> Option<EraRest<L>> {
        self.gathering.begin();
        let turns = first.turns.saturating_add(1);
        let mut seats = seats;
        let (pool, is_last) = self.gather(rt, first, &mut seats)?;
        let mut pool = pool;
        let (ended, seats) = next_era(alloc, &mut pool, seats, room)?;
        let has_dead = pool.has_dead(rt);
        let is_sweeping = has_dead || ended.has_swept();
        self.counters.happened(CountedEvent::Era);
        self.counters.set(Gauge::Objects, pool.objects(rt));
        let seats = if is_last {
            drop(pool);
            seats
        } else {
            self.hand_out(rt, pool, seats, turns, is_sweeping)
        };
        self.count_kept(alloc, &ended, tally);
        let (era, room) = ended.compare().ok()?;
        drop(era);
        Some(EraRest {
            seats,
            room,
            is_last,
            has_dead,
        })
    }

    /// Counts what is kept behind an era, where somebody is told of it.
    fn count_kept(&self, alloc: Global, ended: &Ended, tally: &mut Tally) {
        if self.kept.is_some() {
            tally.add_era(alloc, ended.receipts());
            tally.tell(&self.counters);
        }
    }

    /// All seats, and the pool, which nobody else has then; and whether nobody calls any more. It takes no memory. None
    /// where a permit was lost.
    fn gather<R: Wait + Clock>(
        &self,
        rt: &R,
        first: Permit<L>,
        seats: &mut Vec<Seat<L>>,
    ) -> Option<(Arc<Pool<L>>, bool)> {
        let mut permit = first;
        let mut is_last = permit.is_last;
        for _ in 1..self.count {
            let next = self.next(rt)?;
            is_last = is_last || next.is_last;
            seats.push(permit.seat).ok()?;
            drop(permit.pool);
            permit = next;
        }
        seats.push(permit.seat).ok()?;
        Some((permit.pool, is_last))
    }

    /// The next permit that comes, handed in or free. None where none comes.
    fn next<R: Wait + Clock>(&self, rt: &R) -> Option<Permit<L>> {
        for _ in 0..self.patience {
            if let Ok(permit) = self.free.try_recv(rt) {
                return Some(permit);
            }
            if let Ok(permit) = self.full.recv_timeout(rt, Duration::from_secs(1)) {
                return Some(permit);
            }
        }
        None
    }

    /// Hands all permits out. Nobody has one before, and so none is given to the era thread any more.
    fn hand_out<R: Wait>(
        &self,
        rt: &R,
        pool: Arc<Pool<L>>,
        seats: Vec<Seat<L>>,
        turns: u64,
        is_sweeping: bool,
    ) -> Vec<Seat<L>> {
        self.gathering.end();
        hand_out(rt, &self.back, pool, seats, turns, is_sweeping)
    }
}

/// Ends the era of a pool that nobody else has, and begins the next: what is left of it, and the next seats. It fails
/// for no want of memory. None where somebody else has the pool, or a seat is missing.
fn next_era<L: Ledger + Naming>(
    alloc: Global,
    pool: &mut Arc<Pool<L>>,
    seats: Vec<Seat<L>>,
    room: EraRoom,
) -> Option<(Ended, Vec<Seat<L>>)> {
    let pool = Arc::get_mut(pool)?;
    pool.next_era(alloc, seats, room).ok()
}

/// Makes a permit of each seat, and hands it out. The room of the seats is left.
pub(crate) fn hand_out<R: Wait, L: Ledger + Naming>(
    rt: &R,
    back: &Sender<Permit<L>>,
    pool: Arc<Pool<L>>,
    seats: Vec<Seat<L>>,
    turns: u64,
    is_sweeping: bool,
) -> Vec<Seat<L>> {
    let mut seats = seats;
    for _ in 0..seats.len() {
        if let (Some(seat), Ok(pool)) = (seats.pop(), Arc::try_clone(&pool)) {
            let permit = Permit {
                pool,
                seat,
                turns,
                is_sweeping,
                is_last: false,
            };
            drop(back.send(rt, permit));
        }
    }
    seats
}
