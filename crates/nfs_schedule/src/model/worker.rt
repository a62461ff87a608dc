//! A worker, which executes one call after the other: it thinks with no engine, and each turn is a step of the engine.

ghost use Rattle.std.specs.Prelude.{◌≡◌, ◌<◌, None, Some};
ghost use Rattle.nfs_objects.specs.Attempt.{first_wanted};
ghost use Rattle.nfs_objects.specs.Promise.{IsPromised};
ghost use Rattle.nfs_objects.specs.Values.{change_value, done_value};
ghost use Rattle.nfs_engine.specs.Calls.{txn_of};
ghost use Rattle.nfs_engine.specs.Engine.{IsLeaving, Lives, Waits};
ghost use Rattle.nfs_schedule.specs.Answers.{IsUnanswered};
ghost use Rattle.nfs_schedule.specs.Grown.{HasGrown};
ghost use Rattle.nfs_schedule.specs.Turns.{Admits, IsTurnOf, KeepsQueue, TakesArrival, after_all};
ghost use Rattle.nfs_schedule.specs.Workers.{Comes, MayThink, Thinks, WorkerLives};

use crate::answer::{Answer, refuse, refuse_arrival};
use crate::course::attempt_on;
use nfs_engine::{Admission, Arrival, Engine, Finished, Got, Next, Pending, Release, SHARDS, Txn};
use nfs_objects::{Change, Outcome, Wish};
use std::alloc::Global;
use std::collections::VecDeque;
use std::mem;
use std::vec::IntoIter;

/// What comes when a call that was given up for this time has let go what it held.
#[derive(Clone, Copy)]
pub enum Afterwards {
    /// It begins anew.
    Again,
    /// It is given up.
    GiveUp,
}

/// What a worker is at. It has to be spent.
pub enum Worker {
    /// It has no call.
    Idle,
    /// It has to think about its call.
    Trying(Txn),
    /// It wants these addresses, the first one first.
    Wanting(Txn, IntoIter<Wish>),
    /// It wants so many new numbers.
    WantingNumbers(Txn, u32),
    /// Its call is done, and is to be committed.
    Ready(Finished),
    /// It was told that an address is taken.
    Blocked(Txn),
    /// There was no memory, or no number.
    Failing(Txn),
    /// It lets go what its call held, shard by shard.
    Leaving(Release, Afterwards),
    /// Its call begins anew.
    PutOff(Pending),
    /// Its call is given up.
    Refusing(Pending),
}

impl Worker {
    /// Thinks about the call, where there is something to think about. It needs no engine; want of memory is kept.
    pub fn think(&mut self, alloc: Global)
        requires { MayThink self.old }
        ensures { Thinks self.old self.new }
    {
        let worker = mem::replace(self, Worker::Idle);
        fill(self, thought(alloc, worker));
    }

    /// Makes the one step of the engine that the worker's state names. A new number is of this shard. An idle worker
    /// takes the oldest arrival. Want of memory is kept in the worker, or answered.
    pub fn turn(
        &mut self,
        alloc: Global,
        engine: &mut Engine,
        queue: &mut VecDeque<Arrival>,
        shard: usize,
    ) -> Option<Answer>
        requires lives { WorkerLives engine.old self.old }
        requires shard { shard < SHARDS }
        ensures step { IsTurnOf engine.old engine.new shard self.old self.new result }
        ensures queue { KeepsQueue engine.old engine.new queue.old.items queue.new.items self.old self.new result }
    {
        let worker = mem::replace(self, Worker::Idle);
        let (next, answer) = step(alloc, engine, queue, shard, worker);
        fill(self, next);
        answer
    }
}

/// Puts a worker where it is idle.
fn fill(place: &mut Worker, worker: Worker)
    requires { place.old ≡ Worker.Idle }
    ensures { place.new ≡ worker }
{
    match mem::replace(place, worker) {
        Worker::Idle => {}
        _ => unreachable!(),
    }
}

/// The worker after thinking.
fn thought(alloc: Global, worker: Worker) -> Worker
    requires { MayThink worker }
    ensures { Thinks worker result }
{
    match worker {
        Worker::Trying(txn) => consider(alloc, txn),
        worker => worker,
    }
}

/// Tries the call on what it has read.
fn consider(alloc: Global, txn: Txn) -> Worker
    requires { HasGrown txn }
    ensures { Comes txn result }
{
    match attempt_on(alloc, &txn) {
        Ok(Outcome::Need(wanted)) => Worker::Wanting(txn, wanted.into_iter()),
        Ok(Outcome::Fresh(count)) => Worker::WantingNumbers(txn, count),
        Ok(Outcome::Done(change)) => finish(alloc, txn, change),
        Err(_) => Worker::Failing(txn),
    }
}

/// Makes the worker's step.
fn step(
    alloc: Global,
    engine: &mut Engine,
    queue: &mut VecDeque<Arrival>,
    shard: usize,
    worker: Worker,
) -> (Worker, Option<Answer>)
    requires lives { WorkerLives engine.old worker }
    requires shard { shard < SHARDS }
    ensures step { IsTurnOf engine.old engine.new shard worker result.0 result.1 }
    ensures queue { KeepsQueue engine.old engine.new queue.old.items queue.new.items worker result.0 result.1 }
{
    match worker {
        Worker::Idle => begin(alloc, engine, queue),
        Worker::Trying(txn) => (Worker::Trying(txn), None),
        Worker::Wanting(txn, wanted) => (acquire(alloc, engine, txn, wanted), None),
        Worker::WantingNumbers(txn, left) => (reserve(alloc, engine, shard, txn, left), None),
        Worker::Ready(finished) => commit(alloc, engine, finished),
        Worker::Blocked(txn) => (Worker::Leaving(engine.abort(txn), Afterwards::Again), None),
        Worker::Failing(txn) => (Worker::Leaving(engine.abort(txn), Afterwards::GiveUp), None),
        Worker::Leaving(release, afterwards) => (let_go(engine, release, afterwards), None),
        Worker::PutOff(pending) => (Worker::Trying(engine.again(alloc, pending)), None),
        Worker::Refusing(pending) => (Worker::Idle, Some(give_up(alloc, engine, pending))),
    }
}

/// Makes the end that an attempt came to the end of the call.
fn finish(alloc: Global, txn: Txn, change: Change) -> Worker
    requires promised { IsPromised (done_value txn.call txn.ctx txn.view (change_value change)) }
    requires read { first_wanted txn.call txn.view ≡ None }
    ensures { Comes txn result }
{
    match txn.done(alloc, change) {
        Ok(finished) => Worker::Ready(finished),
        Err(txn) => Worker::Failing(txn),
    }
}

/// Admits the oldest arrival.
fn begin(
    alloc: Global,
    engine: &mut Engine,
    queue: &mut VecDeque<Arrival>,
) -> (Worker, Option<Answer>)
    ensures step { IsTurnOf engine.old engine.new 0 Worker.Idle result.0 result.1 }
    ensures queue { TakesArrival engine.old engine.new queue.old.items queue.new.items result.0 result.1 }
{
    let Some(arrival) = queue.pop_front() else {
        return (Worker::Idle, None);
    };
    admit(alloc, engine, arrival)
}

/// Admits an arrival.
fn admit(alloc: Global, engine: &mut Engine, arrival: Arrival) -> (Worker, Option<Answer>)
    ensures step { IsTurnOf engine.old engine.new 0 Worker.Idle result.0 result.1 }
    ensures admits { Admits engine.old engine.new arrival result.0 result.1 }
{
    match engine.admit(alloc, arrival) {
        Ok(Admission::Begin(txn)) => (Worker::Trying(txn), None),
        Ok(Admission::Repeat(kept)) => (Worker::Idle, Some(Answer::Repeated(kept))),
        Ok(Admission::Running(arrival)) => (Worker::Idle, Some(leave(arrival))),
        Ok(Admission::Early(faulted)) => (Worker::Idle, Some(Answer::Early(faulted))),
        Err((error, arrival)) => {
            drop(error);
            (Worker::Idle, Some(refuse_arrival(alloc, arrival)))
        }
    }
}

/// What came in while a call that came with the same is in progress: it has no reply.
fn leave(arrival: Arrival) -> Answer
    ensures { IsUnanswered arrival.received result }
{
    let (received, reading) = arrival.into_parts();
    drop(reading);
    Answer::Unanswered(received)
}

/// Asks for the first of these addresses.
fn acquire(alloc: Global, engine: &mut Engine, txn: Txn, wanted: IntoIter<Wish>) -> Worker
    requires { WorkerLives engine.old (Worker.Wanting txn wanted) }
    ensures { IsTurnOf engine.old engine.new 0 (Worker.Wanting txn wanted) result None }
{
    let mut txn = txn;
    let mut wanted = wanted;
    let Some((address, mode)) = wanted.next() else {
        return Worker::Trying(txn);
    };
    match engine.acquire(alloc, &mut txn, address, mode) {
        Ok(Got::Yes) if wanted.len() == 0 => Worker::Trying(txn),
        Ok(Got::Yes) => Worker::Wanting(txn, wanted),
        Ok(Got::Taken(_)) => Worker::Blocked(txn),
        Err(_) => Worker::Failing(txn),
    }
}

/// Asks for one of so many new numbers, of this shard.
fn reserve(alloc: Global, engine: &mut Engine, shard: usize, txn: Txn, left: u32) -> Worker
    requires lives { WorkerLives engine.old (Worker.WantingNumbers txn left) }
    requires shard { shard < SHARDS }
    ensures { IsTurnOf engine.old engine.new shard (Worker.WantingNumbers txn left) result None }
{
    let mut txn = txn;
    match engine.reserve(alloc, &mut txn, shard) {
        Ok(()) if left > 1 => Worker::WantingNumbers(txn, left - 1),
        Ok(()) => Worker::Trying(txn),
        Err(_) => Worker::Failing(txn),
    }
}

/// Makes what is done the state.
fn commit(alloc: Global, engine: &mut Engine, finished: Finished) -> (Worker, Option<Answer>)
    requires { Lives engine.old (txn_of finished) }
    ensures { IsTurnOf engine.old engine.new 0 (Worker.Ready finished) result.0 result.1 }
{
    // It brings that this is what came in asks.
    finished.show_finished();
    match engine.commit(alloc, finished) {
        Ok((receipt, release)) => (
            Worker::Leaving(release, Afterwards::Again),
            Some(Answer::Executed(receipt)),
        ),
        Err(finished) => (Worker::Failing(finished.into_txn()), None),
    }
}

/// Lets go what the call still holds in one shard.
fn let_go(engine: &mut Engine, release: Release, afterwards: Afterwards) -> Worker
    requires { IsLeaving engine.old release }
    ensures { IsTurnOf engine.old engine.new 0 (Worker.Leaving release afterwards) result None }
{
    match engine.release(release) {
        Next::More(release) => Worker::Leaving(release, afterwards),
        Next::Aborted(pending) => begin_again(pending, afterwards),
        Next::Ended => Worker::Idle,
    }
}

/// What comes of a call that holds nothing any more.
fn begin_again(pending: Pending, afterwards: Afterwards) -> Worker
    ensures { result ≡ after_all pending afterwards }
{
    match afterwards {
        Afterwards::Again => Worker::PutOff(pending),
        Afterwards::GiveUp => Worker::Refusing(pending),
    }
}

/// Gives the call up, and answers its refusal.
fn give_up(alloc: Global, engine: &mut Engine, pending: Pending) -> Answer
    requires { Waits engine.old pending }
    ensures { IsTurnOf engine.old engine.new 0 (Worker.Refusing pending) Worker.Idle (Some result) }
{
    let refused = engine.give_up(pending);
    refuse(alloc, refused.received, refused.asked)
}
