//! The procedures of NLM version 4 (RFC 1813, appendix II), each as straight code over a draft.
//!
//! A procedure asks what its handle names, makes its checks, reads what the file has of locks, shares, requests and
//! grants, and puts what it has then; where its locks changed, what waits is tried, and each grant puts a message to
//! the host that asked. A MSG call does the same, and puts its result in a message to its caller's host. An attempt is
//! a function of its arguments; its contract is the promise of a call's end (`IsPromised`), and what may be asked for.
//! It stands on `nlm_ranges` for what one file has, on `nfs_inodes` for handles and for what stands in buckets, and on
//! `nfs_machine` for the steps.
#![tactic(auto)]

ghost use Rattle.std.specs.Prelude.{◌≡◌, IfOk, false, true};
ghost use Rattle.side_wire.specs.Changing.{changes_locks};
ghost use Rattle.nfs_objects.specs.Attempt.{AsksFirst, Attempts, EndsCall, EndsFirst};
ghost use Rattle.nfs_objects.specs.Modes.{Suits, modes_of};
ghost use Rattle.nfs_objects.specs.Begins.{Begins};
ghost use Rattle.nfs_objects.specs.Only.{AnswersAtOnce, AsksFirstOnly, EndsAtOnce, EndsFirstOnly};
ghost use Rattle.nlm_daemon.specs.Answering.{answers_at_once, reads_exports};

mod answering;
mod checking;
mod filing;
mod freeing;
mod granting;
mod locking;
mod passing;
pub mod plan;
mod sharing;
mod testing;
mod unlocking;

use crate::answering::Procedure;
use nfs_machine::{Call, Ctx};
use nfs_objects::{Change, Draft, LOCKING, Missing, Outcome, READING, View, outcome};
use side_wire::NlmCall;
use std::alloc::{AllocError, Global};

/// Tries a call on a view, which holds what it has as the call wants.
///
/// # Errors
///
/// `AllocError` where the memory for what the call comes to was refused. NULL takes none, and neither do TEST_RES,
/// LOCK_RES, CANCEL_RES and UNLOCK_RES once the view has the exports.
pub fn attempt(alloc: Global, call: &NlmCall, ctx: &Ctx, view: &View) -> Result<Outcome, AllocError>
    requires { Suits (modes_of (Call.Nlm call.now)) view.now }
    ensures attempts { IfOk result (Attempts (Call.Nlm call.now) ctx.now view.now) }
    ensures first { IfOk result (AsksFirst (Call.Nlm call.now) view.now) }
    ensures only { reads_exports call.now ≡ true → IfOk result (AsksFirstOnly (Call.Nlm call.now) view.now) }
    ensures at_once { answers_at_once call.now ≡ true → AnswersAtOnce (Call.Nlm call.now) view.now result }
{
    outcome(ended(alloc, call, ctx, view))
}

fn ended<'a>(
    alloc: Global,
    call: &'a NlmCall,
    ctx: &'a Ctx,
    view: &'a View,
) -> Result<Change, Missing>
    requires { Suits (modes_of (Call.Nlm call.now)) view.now }
    ensures ends { EndsCall (Call.Nlm call.now) ctx.now view.now result }
    ensures first { EndsFirst (Call.Nlm call.now) view.now result }
    ensures only { reads_exports call.now ≡ true → EndsFirstOnly (Call.Nlm call.now) view.now result }
    ensures at_once { answers_at_once call.now ≡ true → EndsAtOnce (Call.Nlm call.now) view.now result }
{
    if call.changes_locks() {
        changed(Draft::new(alloc, ctx, view, LOCKING), call)
    } else {
        read(Draft::new(alloc, ctx, view, READING), call)
    }
}

/// A call that changes nothing of locks.
fn read(draft: Draft<'_>, call: &NlmCall) -> Result<Change, Missing>
    requires reads { changes_locks call.now ≡ false }
    requires begins { Begins (Call.Nlm call.now) draft }
    ensures ends { EndsCall (Call.Nlm call.now) draft.entry.ctx draft.entry.view result }
    ensures first { EndsFirst (Call.Nlm call.now) draft.entry.view result }
    ensures only { reads_exports call.now ≡ true → EndsFirstOnly (Call.Nlm call.now) draft.entry.view result }
    ensures at_once { answers_at_once call.now ≡ true → EndsAtOnce (Call.Nlm call.now) draft.entry.view result }
{
    match call {
        NlmCall::Null => passing::null(draft),
        NlmCall::Test(arguments) => testing::attempt(draft, arguments),
        NlmCall::TestMsg(arguments) => testing::attempt_by_message(draft, arguments),
        NlmCall::Granted(arguments) => granting::attempt(draft, Procedure::Granted, arguments),
        NlmCall::GrantedMsg(arguments) => {
            granting::attempt(draft, Procedure::GrantedMsg, arguments)
        }
        NlmCall::TestRes(_) => passing::pass(draft, call),
        NlmCall::LockRes(_) => passing::pass(draft, call),
        NlmCall::CancelRes(_) => passing::pass(draft, call),
        NlmCall::UnlockRes(_) => passing::pass(draft, call),
        _ => unreachable!(),
    }
}

/// A call that may change what files have of locks.
fn changed(draft: Draft<'_>, call: &NlmCall) -> Result<Change, Missing>
    requires changes { changes_locks call.now ≡ true }
    requires begins { Begins (Call.Nlm call.now) draft }
    ensures ends { EndsCall (Call.Nlm call.now) draft.entry.ctx draft.entry.view result }
    ensures first { EndsFirst (Call.Nlm call.now) draft.entry.view result }
{
    match call {
        NlmCall::Lock(arguments) => locking::attempt(draft, Procedure::Lock, arguments),
        NlmCall::NmLock(arguments) => locking::attempt(draft, Procedure::NmLock, arguments),
        NlmCall::LockMsg(arguments) => locking::attempt(draft, Procedure::LockMsg, arguments),
        NlmCall::Cancel(arguments) => unlocking::cancel(draft, Procedure::Cancel, arguments),
        NlmCall::CancelMsg(arguments) => unlocking::cancel(draft, Procedure::CancelMsg, arguments),
        NlmCall::Unlock(arguments) => unlocking::unlock(draft, Procedure::Unlock, arguments),
        NlmCall::UnlockMsg(arguments) => unlocking::unlock(draft, Procedure::UnlockMsg, arguments),
        NlmCall::GrantedRes(answer) => granting::attempt_res(draft, answer),
        NlmCall::Share(arguments) => sharing::share(draft, arguments),
        NlmCall::Unshare(arguments) => sharing::unshare(draft, arguments),
        NlmCall::FreeAll(arguments) => freeing::attempt(draft, arguments),
        _ => unreachable!(),
    }
}
