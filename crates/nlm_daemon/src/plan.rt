//! What a call of NLM reads ahead of its attempt (RFC 1813, appendix II): its plan, as far as its view tells.
//!
//! Behind the exports a call that names a file goes to what its handle names and, where its checks pass, to what the
//! file has of locks. GRANTED_RES goes to what the file of its grant has, and FREE_ALL to what all files have.

ghost use Rattle.std.specs.Prelude.{◌≡◌, [], IfSome};
ghost use Rattle.nfs_objects.specs.Calls.{named_by, new_numbers};
ghost use Rattle.nfs_objects.specs.Modes.{Suits, modes_of};
ghost use Rattle.nfs_inodes.specs.Wants.{IsWanted};
ghost use Rattle.nlm_daemon.specs.Plans.{MayGoOn, file_named};

use crate::checking::{file_of, file_range};
use crate::freeing::ask_buckets;
use crate::granting::number_in;
use crate::sharing::is_writing;
use bytes::Bytes;
use nfs_inodes::wishes::{NextWant, Want};
use nfs_machine::{Call, Ctx, Handle};
use nfs_objects::{Addr, Draft, Missing, Modes, View};
use nlm_ranges::bucket_index;
use side_wire::{FreeAllArguments, NlmCall, NlmLock, NlmResult};
use std::alloc::Global;

/// How far a call is in its plan: what it wants next, if it lacks that.
#[derive(Clone, Copy)]
pub enum Plan {
    /// The exports.
    Exports,
    /// What its handle names, or where it names no file what it reads of locks.
    File,
    /// What the file that its handle names has of locks.
    Locks,
    /// Nothing.
    Over,
}

/// What a call that is there in its plan wants next.
pub fn next(alloc: Global, call: &Call, ctx: &Ctx, view: &View, plan: Plan) -> NextWant<Plan>
    requires { Suits (modes_of call.now) view.now }
    ensures { IfSome result (λ next. IsWanted (modes_of call.now) (named_by call.now view.now)
        (new_numbers call.now view.now) view.now next.0) }
{
    let Call::Nlm(nlm) = call else {
        return None;
    };
    let draft = Draft::new(alloc, ctx, view, Modes::of(call));
    go_on(&draft, nlm, plan)
}

/// The same of its draft.
fn go_on(draft: &Draft<'_>, call: &NlmCall, plan: Plan) -> NextWant<Plan>
    requires { draft.now.writes ≡ [] }
    ensures { MayGoOn call.now draft.now result }
{
    match plan {
        Plan::Exports => first(draft, call),
        Plan::File => file(draft, call),
        Plan::Locks => locks(draft, call),
        Plan::Over => None,
    }
}

/// The exports, which all but NULL read first.
fn first(draft: &Draft<'_>, call: &NlmCall) -> NextWant<Plan>
    ensures { MayGoOn call.now draft.now result }
{
    if let NlmCall::Null = call {
        return None;
    }
    let wish = draft.missing(Addr::Exports)?;
    Some((Want::Address(wish), Plan::File))
}

/// What the handle of a call names, or what it reads of locks where it names no file.
fn file(draft: &Draft<'_>, call: &NlmCall) -> NextWant<Plan>
    ensures { MayGoOn call.now draft.now result }
{
    match call {
        NlmCall::FreeAll(_) => buckets(draft),
        NlmCall::GrantedRes(answer) => granted(draft, answer),
        _ => named(draft, call),
    }
}

/// What all files have, which FREE_ALL reads.
fn buckets(draft: &Draft<'_>) -> NextWant<Plan>
    ensures { (call : FreeAllArguments) → MayGoOn (NlmCall.FreeAll call) draft.now result }
{
    match ask_buckets(draft) {
        Err(Missing::Need(asked)) => Some((Want::Addresses(asked), Plan::Over)),
        _ => None,
    }
}

/// What the file of the grant that a host answers has.
fn granted(draft: &Draft<'_>, answer: &NlmResult) -> NextWant<Plan>
    ensures { MayGoOn (NlmCall.GrantedRes answer.now) draft.now result }
{
    let number = number_in(&answer.cookie)?;
    let wish = draft.missing(Addr::Locks(bucket_index(number)))?;
    Some((Want::Address(wish), Plan::Over))
}

/// What the handle of a call names.
fn named(draft: &Draft<'_>, call: &NlmCall) -> NextWant<Plan>
    ensures { MayGoOn call.now draft.now result }
{
    let number = file_named(call)?;
    let wish = draft.missing(Addr::Inode(number))?;
    Some((Want::Address(wish), Plan::Locks))
}

/// What the file that the handle of a call names has, where the checks of the call pass.
fn locks(draft: &Draft<'_>, call: &NlmCall) -> NextWant<Plan>
    requires { draft.now.writes ≡ [] }
    ensures { MayGoOn call.now draft.now result }
{
    if !passes(draft, call) {
        return None;
    }
    let number = file_named(call)?;
    let wish = draft.missing(Addr::Locks(bucket_index(number)))?;
    Some((Want::Address(wish), Plan::Over))
}

/// Whether the checks of a call that names a file pass.
fn passes(draft: &Draft<'_>, call: &NlmCall) -> bool
    requires { draft.now.writes ≡ [] }
{
    match call {
        NlmCall::Test(arguments) | NlmCall::TestMsg(arguments) => {
            has_place(draft, &arguments.lock, false)
        }
        NlmCall::Lock(arguments) | NlmCall::NmLock(arguments) | NlmCall::LockMsg(arguments) => {
            has_place(draft, &arguments.lock, arguments.exclusive)
        }
        NlmCall::Cancel(arguments) | NlmCall::CancelMsg(arguments) => {
            has_place(draft, &arguments.lock, false)
        }
        NlmCall::Unlock(arguments) | NlmCall::UnlockMsg(arguments) => {
            has_place(draft, &arguments.lock, false)
        }
        NlmCall::Share(arguments) => {
            let share = &arguments.share;
            has_file(draft, &share.file, is_writing(share.access))
        }
        NlmCall::Unshare(arguments) => has_file(draft, &arguments.share.file, false),
        _ => false,
    }
}

/// Whether the checks of a call pass that names this lock.
fn has_place(draft: &Draft<'_>, lock: &NlmLock, writes: bool) -> bool
    requires { draft.now.writes ≡ [] }
{
    matches!(file_range(draft, lock, writes), Ok(Ok(_)))
}

/// Whether those of a call pass that names the file of a share.
fn has_file(draft: &Draft<'_>, handle: &Bytes, writes: bool) -> bool
    requires { draft.now.writes ≡ [] }
{
    matches!(file_of(draft, handle, writes), Ok(Ok(_)))
}

/// The number of the file that the handle of a call names, if it has one.
fn file_named(call: &NlmCall) -> Option<u64>
    ensures { result ≡ file_named call.now }
{
    let handle = Handle::read(call.handle()?.as_slice())?;
    Some(handle.fileid)
}
