//! One call from its arrival to its answer, on an engine at rest: no worker, no turns.

ghost use Rattle.std.specs.Prelude.{◌≡◌, [], None, IfOk, OnErr, OnOk};
ghost use Rattle.nfs_objects.specs.Asks.{EachOnce};
ghost use Rattle.nfs_objects.specs.Bound.{held, view_after};
ghost use Rattle.nfs_objects.specs.Promise.{IsPromised};
ghost use Rattle.nfs_objects.specs.declared.view.Reserved.{Reserved};
ghost use Rattle.nfs_objects.specs.Values.{change_value, done_value, seen_at};
ghost use Rattle.nfs_engine.specs.Book.{store_in};
ghost use Rattle.nfs_engine.specs.Calls.{txn_of};
ghost use Rattle.nfs_engine.specs.Engine.{IsLeaving, Lives};
ghost use Rattle.nfs_schedule.specs.Courses.{HasReadFew, IsAt, IsMade, IsNextStep};
ghost use Rattle.nfs_schedule.specs.Executions.{Answers, EndsIn, Frees, GoesOn, HasNumber, HasTaken, HoldsAlone};
ghost use Rattle.nfs_schedule.specs.Executions.{IsAlone, shown_in};
ghost use Rattle.nfs_schedule.specs.Worlds.{IsAtRest};
ghost use Rattle.nfs_schedule.specs.declared.course.Course.{Course};

use crate::answer::{Answer, refuse, refuse_arrival};
use crate::course::{Considered, Course, NextStep, consider, next_step};
use nfs_engine::{Admission, Arrival, Engine, Finished, Got, Pending, Release, Txn};
use nfs_objects::{Addr, Change, Mode};
use std::alloc::Global;

/// The shard of new numbers: that of the first worker of a world, so that a call makes the same there and here.
const SHARD: usize = 1;

/// There was no memory, or no number.
struct OutOfMemory;

/// Brings what came in to its answer. No call is in progress in the engine, and none is afterwards.
pub fn execute(alloc: Global, engine: &mut Engine, arrival: Arrival) -> Answer
    requires rest { IsAtRest engine.old }
    ensures rest { IsAtRest engine.new }
    ensures answers { Answers engine.old engine.new arrival result }
{
    match engine.admit(alloc, arrival) {
        Ok(Admission::Begin(txn)) => carry_out(alloc, engine, txn),
        Ok(Admission::Repeat(kept)) => Answer::Repeated(kept),
        Ok(Admission::Running(arrival)) => {
            drop(arrival);
            // No other call is in progress.
            unreachable!()
        }
        Ok(Admission::Early(faulted)) => Answer::Early(faulted),
        Err((error, arrival)) => {
            drop(error);
            refuse_arrival(alloc, arrival)
        }
    }
}

/// Brings a call that began to its answer.
fn carry_out(alloc: Global, engine: &mut Engine, txn: Txn) -> Answer
    requires lives { Lives engine.old txn }
    requires alone { IsAlone engine.old txn.id txn.key }
    requires unread { txn.view ≡ view_after [] }
    ensures rest { IsAtRest engine.new }
    ensures ends { EndsIn engine.old engine.new txn result }
{
    let mut txn = txn;
    match run(alloc, engine, &mut txn) {
        Ok(change) => finish(alloc, engine, txn, change),
        Err(OutOfMemory) => decline(alloc, engine, txn),
    }
}

/// Makes the steps of a call on its course, until it is done.
fn run(alloc: Global, engine: &mut Engine, txn: &mut Txn) -> Result<Change, OutOfMemory>
    requires lives { Lives engine.old txn.old }
    requires alone { IsAlone engine.old txn.old.id txn.old.key }
    requires unread { txn.old.view ≡ view_after [] }
    ensures goes_on { GoesOn engine.old engine.new txn.old txn.new }
    ensures course { (course : Course) × IsAt course txn.new }
    ensures promised { IfOk result
        (λ change. IsPromised (done_value txn.new.call txn.new.ctx txn.new.view (change_value change))) }
    ensures few { OnOk result (HasReadFew txn.new) }
{
    let mut course = Course::Begun;
    'steps: loop {
        // Each step adds to the view, which is shorter than 2^64: so they come to an end.
        let _known = txn.view().len();
        match next_step(alloc, txn, course) {
            Some(step) => course = make(alloc, engine, txn, step)?,
            None => match consider(alloc, txn) {
                Considered::Reads(step) => course = make(alloc, engine, txn, step)?,
                Considered::Done(change) => return Ok(change),
                Considered::Fails => return Err(OutOfMemory),
            },
        }
    }
}

/// Makes this step of a call, which is there then. An error leaves the call as it was.
#[inline(always)]
fn make(
    alloc: Global,
    engine: &mut Engine,
    txn: &mut Txn,
    step: NextStep,
) -> Result<Course, OutOfMemory>
    requires lives { Lives engine.old txn.old }
    requires alone { IsAlone engine.old txn.old.id txn.old.key }
    requires next { IsNextStep txn.old step }
    ensures goes_on { GoesOn engine.old engine.new txn.old txn.new }
    ensures made { IfOk result (IsMade txn.old txn.new) }
    ensures once { OnOk result (EachOnce (held txn.old.view.entries) → EachOnce (held txn.new.view.entries)) }
    ensures kept { OnErr result (txn.new ≡ txn.old) }
{
    match step {
        NextStep::Acquire(address, mode, after) => {
            acquire(alloc, engine, txn, address, mode)?;
            Ok(after)
        }
        NextStep::Reserve(after) => {
            reserve(alloc, engine, txn)?;
            Ok(after)
        }
    }
}

/// Reads an address. It is not taken, since no other call is in progress. An error leaves the call as it was.
fn acquire(
    alloc: Global,
    engine: &mut Engine,
    txn: &mut Txn,
    address: Addr,
    mode: Mode,
) -> Result<(), OutOfMemory>
    requires lives { Lives engine.old txn.old }
    requires alone { IsAlone engine.old txn.old.id txn.old.key }
    requires unseen { seen_at txn.old.view.entries address ≡ None }
    ensures goes_on { GoesOn engine.old engine.new txn.old txn.new }
    ensures taken { OnOk result (HasTaken txn.old txn.new (shown_in (store_in engine.old.book) (address, mode))) }
    ensures kept { OnErr result (txn.new ≡ txn.old) }
{
    match engine.acquire(alloc, txn, address, mode) {
        Ok(Got::Yes) => Ok(()),
        Ok(Got::Taken(_)) => unreachable!(),
        Err(_) => Err(OutOfMemory),
    }
}

/// Gets a new number. An error leaves the call as it was.
fn reserve(alloc: Global, engine: &mut Engine, txn: &mut Txn) -> Result<(), OutOfMemory>
    requires lives { Lives engine.old txn.old }
    requires alone { IsAlone engine.old txn.old.id txn.old.key }
    ensures goes_on { GoesOn engine.old engine.new txn.old txn.new }
    ensures reserved { OnOk result ((r : Reserved) × HasNumber txn.old txn.new r) }
    ensures kept { OnErr result (txn.new ≡ txn.old) }
{
    match engine.reserve(alloc, txn, SHARD) {
        Ok(()) => Ok(()),
        Err(_) => Err(OutOfMemory),
    }
}

/// Makes what the call came to the state; or there is no memory for that.
fn finish(alloc: Global, engine: &mut Engine, txn: Txn, change: Change) -> Answer
    requires lives { Lives engine.old txn }
    requires alone { IsAlone engine.old txn.id txn.key }
    requires promised { IsPromised (done_value txn.call txn.ctx txn.view (change_value change)) }
    requires few { HasReadFew txn }
    ensures rest { IsAtRest engine.new }
    ensures ends { EndsIn engine.old engine.new txn result }
{
    match txn.done(alloc, change) {
        Ok(finished) => commit(alloc, engine, finished),
        Err(txn) => decline(alloc, engine, txn),
    }
}

/// Makes what is done the state, and lets go what the call holds; or there is no memory for that.
fn commit(alloc: Global, engine: &mut Engine, finished: Finished) -> Answer
    requires lives { Lives engine.old (txn_of finished) }
    requires alone { IsAlone engine.old finished.id finished.key }
    requires few { HasReadFew (txn_of finished) }
    ensures rest { IsAtRest engine.new }
    ensures ends { EndsIn engine.old engine.new (txn_of finished) result }
{
    match engine.commit(alloc, finished) {
        Ok((receipt, release)) => match release_all(engine, release) {
            None => Answer::Executed(receipt),
            Some(_) => unreachable!(),
        },
        Err(finished) => decline(alloc, engine, finished.into_txn()),
    }
}

/// Gives the call up: it lets go what it holds, and is answered by its refusal.
fn decline(alloc: Global, engine: &mut Engine, txn: Txn) -> Answer
    requires lives { Lives engine.old txn }
    requires alone { IsAlone engine.old txn.id txn.key }
    ensures rest { IsAtRest engine.new }
    ensures ends { EndsIn engine.old engine.new txn result }
{
    let release = engine.abort(txn);
    match release_all(engine, release) {
        Some(pending) => {
            let refused = engine.give_up(pending);
            refuse(alloc, refused.received, refused.asked)
        }
        None => unreachable!(),
    }
}

/// Lets go all that a call that left still holds, which is all that is held. It is the call, where that is in progress.
fn release_all(engine: &mut Engine, release: Release) -> Option<Pending>
    requires leaving { IsLeaving engine.old release }
    requires alone { HoldsAlone engine.old release.id }
    ensures { Frees engine.old engine.new release result }
{
    engine.release_all(release)
}
