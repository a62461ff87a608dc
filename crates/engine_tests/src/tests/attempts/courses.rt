//! A call from its beginning to its end, with its attempts and what it reads counted.

ghost use Rattle.std.specs.Prelude.{◌≡◌, [], IfOk, None, OnOk};
ghost use Rattle.nfs_objects.specs.Bound.{view_after};
ghost use Rattle.nfs_objects.specs.Rooms.{with_number};
ghost use Rattle.nfs_objects.specs.Values.{seen_at};
ghost use Rattle.nfs_objects.specs.declared.view.Reserved.{Reserved};
ghost use Rattle.nfs_engine.specs.Book.{store_in};
ghost use Rattle.nfs_engine.specs.Engine.{Lives};
ghost use Rattle.nfs_schedule.specs.Courses.{IsMade, IsNextStep};
ghost use Rattle.nfs_schedule.specs.Executions.{HasTaken, shown_in};

use super::super::records::read;
use nfs_engine::{Admission, Engine, Got, Txn};
use nfs_objects::{Addr, Mode};
use nfs_schedule::{Considered, Course, NextStep, consider, next_step};
use std::alloc::{AllocError, Global};
use std::process::Abort;

/// Reads an address that no other call holds.
fn acquire(
    alloc: Global,
    engine: &mut Engine,
    txn: &mut Txn,
    address: Addr,
    mode: Mode,
) -> Result<(), AllocError>
    requires lives { Lives engine.old txn.old }
    requires unseen { seen_at txn.old.view.entries address ≡ None }
    ensures lives { Lives engine.new txn.new }
    ensures taken { OnOk result (HasTaken txn.old txn.new (shown_in (store_in engine.old.book) (address, mode))) }
{
    match engine.acquire(alloc, txn, address, mode) {
        Ok(Got::Yes) => Ok(()),
        Ok(Got::Taken(_)) | Err(_) => Err(AllocError),
    }
}

/// Gets a new number.
fn reserve(alloc: Global, engine: &mut Engine, txn: &mut Txn) -> Result<(), AllocError>
    requires { Lives engine.old txn.old }
    ensures lives { Lives engine.new txn.new }
    ensures reserved { OnOk result
        ((r : Reserved) × (txn.new ≡ record txn.old { view = with_number txn.old.view r })) }
{
    match engine.reserve(alloc, txn, 1) {
        Ok(()) => Ok(()),
        Err(_) => Err(AllocError),
    }
}

/// Makes this step of a call, which is there then.
fn make(
    alloc: Global,
    engine: &mut Engine,
    txn: &mut Txn,
    step: NextStep,
) -> Result<Course, AllocError>
    requires lives { Lives engine.old txn.old }
    requires next { IsNextStep txn.old step }
    ensures lives { Lives engine.new txn.new }
    ensures made { IfOk result (IsMade txn.old txn.new) }
{
    match step {
        NextStep::Acquire(address, mode, after) => {
            acquire(alloc, engine, txn, address, mode)?;
            Ok(after)
        }
        NextStep::Reserve(after) => {
            reserve(alloc, engine, txn)?;
            Ok(after)
        }
    }
}

/// What a call takes until it is done.
#[derive(Clone, Copy)]
pub(super) struct Cost {
    /// How often it is attempted.
    pub(super) attempts: usize,
    /// How many addresses it reads, the numbers that it gets among them.
    pub(super) addresses: usize,
}

/// A call is made until it is done.
fn play(alloc: Global, engine: &mut Engine, txn: &mut Txn) -> Result<Cost, AllocError>
    requires lives { Lives engine.old txn.old }
    requires unread { txn.old.view ≡ view_after [] }
    ensures { Lives engine.new txn.new }
{
    let mut course = Course::Begun;
    let mut attempts: usize = 0;
    'steps: loop {
        // Each step adds to the view, which is shorter than 2^64: so they come to an end.
        let _known = txn.view().len();
        match next_step(alloc, txn, course) {
            Some(step) => course = make(alloc, engine, txn, step)?,
            None => {
                attempts = attempts.saturating_add(1);
                match consider(alloc, txn) {
                    Considered::Reads(step) => course = make(alloc, engine, txn, step)?,
                    Considered::Done(change) => {
                        drop(change);
                        return Ok(Cost {
                            attempts,
                            addresses: txn.view().len(),
                        });
                    }
                    Considered::Fails => return Err(AllocError),
                }
            }
        }
    }
}

/// The call of a message begins.
fn begin(
    rt: &(impl Abort + AllocGlobal),
    engine: &mut Engine,
    message: &[u8],
) -> Result<Txn, AllocError>
    ensures lives { IfOk result (Lives engine.new) }
    ensures unread { IfOk result (λ txn. txn.view ≡ view_after []) }
{
    let arrival = read(rt.alloc(), message)?;
    match engine.admit(rt.alloc(), arrival) {
        Ok(Admission::Begin(txn)) => Ok(txn),
        Ok(Admission::Repeat(kept)) => {
            drop(kept);
            panic!(rt; "it comes once")
        }
        Ok(Admission::Running(arrival)) => {
            drop(arrival);
            panic!(rt; "no other call is in progress")
        }
        Ok(Admission::Early(faulted)) => {
            drop(faulted);
            panic!(rt; "it has no fault")
        }
        Err((error, arrival)) => {
            drop(error);
            drop(arrival);
            Err(AllocError)
        }
    }
}

/// A call is given up.
fn give_up(rt: &impl Abort, engine: &mut Engine, txn: Txn)
    requires { Lives engine.old txn }
{
    let release = engine.abort(txn);
    match engine.release_all(release) {
        Some(pending) => drop(engine.give_up(pending)),
        None => panic!(rt; "it was given up"),
    }
}

/// What the call of a message takes. It is given up then, so the store stays.
pub(super) fn cost_of(
    rt: &(impl Abort + AllocGlobal),
    engine: &mut Engine,
    message: &[u8],
) -> Result<Cost, AllocError> {
    let mut txn = begin(rt, engine, message)?;
    let cost = play(rt.alloc(), engine, &mut txn);
    give_up(rt, engine, txn);
    cost
}
