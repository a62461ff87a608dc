//! The course of a call: which step comes next, until it is done or there is no memory. It touches no engine: whoever
//! has the call makes the step that is named, each in its own way.

ghost use Rattle.std.specs.Prelude.{◌≡◌, [], IfOk};
ghost use Rattle.std.specs.Vec.Iter.{into_iter_items};
ghost use Rattle.nfs_objects.specs.Attempt.{AsksFirst, Attempts};
ghost use Rattle.nfs_objects.specs.Bound.{view_after};
ghost use Rattle.nfs_schedule.specs.Courses.{IsAfterNumber, IsAt, IsConsidered, IsFirstOf, IsNext};
ghost use Rattle.nfs_schedule.specs.Grown.{HasGrown};

use crate::attempts::attempt;
use crate::foreseen::foreseen;
use crate::planning::{Plan, behind_first, first_plan, next_want};
use nfs_engine::Txn;
use nfs_inodes::wishes::Want;
use nfs_machine::Call;
use nfs_objects::{Addr, Change, Mode, Outcome, Wish};
use nfs_wire::NfsCall;
use std::alloc::{AllocError, Global};
use std::vec::IntoIter;

/// How many bytes of memory a call that may add to the state leaves, so that in a full memory one that takes away finds
/// what it needs.
const SPARE: usize = 32_768;

/// Where a call is between two of its steps.
#[derive(Drop)]
pub enum Course {
    /// It has read nothing.
    Begun,
    /// It took the exports ahead of its first attempt, and wants this address next.
    FirstHandle(Addr, Mode),
    /// It wants these addresses of those that were asked for, the first one first, and goes on by its plan then.
    Acquiring(IntoIter<Wish>, Plan),
    /// It goes on by its plan, ahead of its next attempt.
    Planned(Plan),
    /// It wants so many new numbers, and goes on by its plan then.
    Reserving(u32, Plan),
}

/// The next step of a call that reads more. Once it is made the call is at what is told with it.
#[derive(Drop)]
pub enum NextStep {
    /// It takes this address in this mode, with whatever stands there.
    Acquire(Addr, Mode, Course),
    /// It gets a new number.
    Reserve(Course),
}

/// What a call comes to that is attempted on what it has read.
#[derive(Drop)]
pub enum Considered {
    /// It reads more, by this step first.
    Reads(NextStep),
    /// It is done: this is what it comes to.
    Done(Change),
    /// There was no memory to attempt it.
    Fails,
}

/// What a call that is there on its course reads next. None where it is to be considered.
#[inline(always)]
pub fn next_step(alloc: Global, txn: &Txn, course: Course) -> Option<NextStep>
    requires { IsAt course txn.now }
    ensures { IsNext txn.now result }
{
    match course {
        Course::Begun => begin(alloc, txn),
        Course::FirstHandle(address, mode) => {
            Some(NextStep::Acquire(address, mode, Course::Planned(behind_first(txn.call()))))
        }
        Course::Planned(plan) => go_on(alloc, txn, plan),
        Course::Acquiring(wanted, plan) => match first_of(wanted, plan) {
            Some(next) => Some(next),
            None => go_on(alloc, txn, plan),
        },
        Course::Reserving(left, plan) => Some(NextStep::Reserve(after_number(left, plan))),
    }
}

/// The first step of a call: what an attempt asks for first is taken ahead of it, where it is foreseen.
fn begin(alloc: Global, txn: &Txn) -> Option<NextStep>
    requires { txn.now.view ≡ view_after [] }
    ensures { IsNext txn.now result }
{
    match foreseen(txn.call()) {
        Some((address, mode)) => {
            Some(NextStep::Acquire(
                Addr::Exports,
                Mode::Shared,
                Course::FirstHandle(address, mode),
            ))
        }
        None => go_on(alloc, txn, first_plan(txn.call())),
    }
}

/// The next step of a call that goes by its plan: to what that wants, which is there then. None where it wants nothing
/// more.
fn go_on(alloc: Global, txn: &Txn, plan: Plan) -> Option<NextStep>
    requires { HasGrown txn.now }
    ensures { IsNext txn.now result }
{
    let (want, after) = next_want(alloc, txn, plan)?;
    match want {
        Want::Address((address, mode)) => {
            Some(NextStep::Acquire(address, mode, Course::Planned(after)))
        }
        Want::Addresses(asked) => first_of(asked.into_iter(), after),
        Want::Numbers(count) => Some(NextStep::Reserve(after_number(count, after))),
    }
}

/// What comes of a call that is attempted on what it has read.
#[inline(always)]
pub fn consider(alloc: Global, txn: &Txn) -> Considered
    requires { HasGrown txn.now }
    ensures { IsConsidered txn.now result }
{
    match attempt_on(alloc, txn) {
        Ok(Outcome::Need(asked)) => match first_of(asked.into_iter(), Plan::Over) {
            Some(next) => Considered::Reads(next),
            None => unreachable!(),
        },
        Ok(Outcome::Fresh(count)) => {
            Considered::Reads(NextStep::Reserve(after_number(count, Plan::Over)))
        }
        Ok(Outcome::Done(change)) => commit(alloc, txn, change),
        Err(_) => Considered::Fails,
    }
}

/// The commit of what a call came to, where it leaves as much memory as it has to.
#[inline(always)]
fn commit(alloc: Global, txn: &Txn, change: Change) -> Considered
    requires { IsConsidered txn.now (Considered.Done change) }
    ensures { IsConsidered txn.now result }
{
    if may_add(txn.call()) && !has_spare(alloc) {
        drop(change);
        return Considered::Fails;
    }
    Considered::Done(change)
}

/// Whether a call may add objects, names or bytes to the state.
fn may_add(call: &Call) -> bool {
    match call {
        Call::Nfs(call) => matches!(
            call,
            NfsCall::Create(_)
                | NfsCall::Mkdir(_)
                | NfsCall::Symlink(_)
                | NfsCall::Mknod(_)
                | NfsCall::Link(_)
                | NfsCall::Write(_)
        ),
        _ => false,
    }
}

/// Whether there is as much memory as is left to calls that take away. It is let go at once.
fn has_spare(alloc: Global) -> bool {
    let spare: Result<Vec<u8>, AllocError> = Vec::with_capacity(alloc, SPARE);
    let is_there = spare.is_ok();
    drop(spare);
    is_there
}

/// What a call comes to on what it has read.
///
/// # Errors
///
/// There is no memory for it.
pub(crate) fn attempt_on(alloc: Global, txn: &Txn) -> Result<Outcome, AllocError>
    requires { HasGrown txn.now }
    ensures attempts { IfOk result (Attempts txn.now.call txn.now.ctx txn.now.view) }
    ensures first { IfOk result (AsksFirst txn.now.call txn.now.view) }
{
    // It brings that this is what came in asks, so that its procedure is built.
    txn.show_called();
    attempt(alloc, txn.call(), txn.ctx(), txn.view())
}

/// The step to the first of these addresses, and the others behind it. None where there is no address.
fn first_of(wanted: IntoIter<Wish>, plan: Plan) -> Option<NextStep>
    ensures { IsFirstOf (into_iter_items wanted) plan result }
{
    let mut wanted = wanted;
    let Some((address, mode)) = wanted.next() else {
        return None;
    };
    Some(NextStep::Acquire(address, mode, Course::Acquiring(wanted, plan)))
}

/// Where a call is that wanted so many new numbers and got one, and goes on by its plan once it has them all.
fn after_number(left: u32, plan: Plan) -> Course
    ensures { IsAfterNumber left plan result }
{
    if left > 1 {
        Course::Reserving(left - 1, plan)
    } else {
        Course::Planned(plan)
    }
}
