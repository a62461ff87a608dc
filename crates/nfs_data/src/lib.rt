//! The procedures of NFS version 3 on attributes and data (RFC 1813, section 3.3), each as straight code over a draft.
//!
//! A procedure asks what a handle names, makes its checks, reads and writes by the readers and makers of `nfs_inodes`,
//! and answers; what it lacks it halts with. The procedures are NULL, GETATTR, SETATTR, ACCESS, READLINK, READ,
//! WRITE, FSSTAT, FSINFO, PATHCONF and COMMIT.
#![tactic(auto)]

ghost use Rattle.std.specs.Prelude.{◌≡◌, true, IfOk};
ghost use Rattle.nfs_machine.specs.declared.calls.Call.TheVariants as calls;
ghost use Rattle.nfs_objects.specs.Attempt.{AsksFirst, Attempts, EndsCall, EndsFirst};
ghost use Rattle.nfs_objects.specs.Begins.{Begins};
ghost use Rattle.nfs_objects.specs.Modes.{Suits, modes_of};
ghost use Rattle.nfs_objects.specs.Only.{AnswersAtOnce, AsksFirstOnly, EndsAtOnce, EndsFirstOnly};
ghost use Rattle.nfs_data.specs.Calls.{answers_at_once, is_data_call, reads_attributes};

mod access;
mod commit;
mod file_systems;
mod fsstat;
mod getattr;
pub mod plan;
mod read;
mod readlink;
mod setattr;
mod write;

use nfs_machine::{Ctx, Reply};
use nfs_objects::{CHANGING, Change, Draft, Missing, Outcome, READING, View, outcome};
use nfs_wire::{NfsCall, NfsReply};
use std::alloc::{AllocError, Global};

/// Tries a call of one of this crate's procedures on a view, which holds all that it has as the call wants.
///
/// # Errors
///
/// `AllocError` where the memory for what the call comes to was refused. NULL takes none, and neither do GETATTR,
/// ACCESS, FSINFO, PATHCONF and COMMIT once the view has the exports and what their handle names.
pub fn attempt(alloc: Global, call: &NfsCall, ctx: &Ctx, view: &View) -> Result<Outcome, AllocError>
    requires data { is_data_call call.now ≡ true }
    requires suits { Suits (modes_of (calls.Nfs call.now)) view.now }
    ensures attempts { IfOk result (Attempts (calls.Nfs call.now) ctx.now view.now) }
    ensures first { IfOk result (AsksFirst (calls.Nfs call.now) view.now) }
    ensures only { reads_attributes call.now ≡ true → IfOk result (AsksFirstOnly (calls.Nfs call.now) view.now) }
    ensures at_once { answers_at_once call.now ≡ true → AnswersAtOnce (calls.Nfs call.now) view.now result }
{
    outcome(ended(alloc, call, ctx, view))
}

fn ended<'a>(
    alloc: Global,
    call: &'a NfsCall,
    ctx: &'a Ctx,
    view: &'a View,
) -> Result<Change, Missing>
    requires data { is_data_call call.now ≡ true }
    requires suits { Suits (modes_of (calls.Nfs call.now)) view.now }
    ensures ends { EndsCall (calls.Nfs call.now) ctx.now view.now result }
    ensures first { EndsFirst (calls.Nfs call.now) view.now result }
    ensures only { reads_attributes call.now ≡ true → EndsFirstOnly (calls.Nfs call.now) view.now result }
    ensures at_once { answers_at_once call.now ≡ true → EndsAtOnce (calls.Nfs call.now) view.now result }
{
    match call {
        NfsCall::Null => null(Draft::new(alloc, ctx, view, READING)),
        NfsCall::Getattr(object) => {
            getattr::attempt(Draft::new(alloc, ctx, view, READING), object)
        }
        NfsCall::Setattr(arguments) => {
            setattr::attempt(Draft::new(alloc, ctx, view, CHANGING), arguments)
        }
        NfsCall::Access(arguments) => {
            access::attempt(Draft::new(alloc, ctx, view, READING), arguments)
        }
        NfsCall::Readlink(object) => {
            readlink::attempt(Draft::new(alloc, ctx, view, READING), object)
        }
        NfsCall::Read(arguments) => {
            read::attempt(Draft::new(alloc, ctx, view, READING), arguments)
        }
        NfsCall::Write(arguments) => {
            write::attempt(Draft::new(alloc, ctx, view, CHANGING), arguments)
        }
        NfsCall::Fsinfo(object) => {
            file_systems::fsinfo(Draft::new(alloc, ctx, view, READING), object)
        }
        NfsCall::Pathconf(object) => {
            file_systems::pathconf(Draft::new(alloc, ctx, view, READING), object)
        }
        NfsCall::Commit(arguments) => {
            commit::attempt(Draft::new(alloc, ctx, view, READING), arguments)
        }
        NfsCall::Fsstat(object) => {
            fsstat::attempt(Draft::new(alloc, ctx, view, READING), object)
        }
        _ => unreachable!(),
    }
}

/// NULL does nothing (RFC 1813, 3.3.0).
fn null(draft: Draft<'_>) -> Result<Change, Missing>
    requires { Begins (calls.Nfs NfsCall.Null) draft }
    ensures ends { EndsCall (calls.Nfs NfsCall.Null) draft.entry.ctx draft.entry.view result }
    ensures first { EndsFirst (calls.Nfs NfsCall.Null) draft.entry.view result }
    ensures only { EndsFirstOnly (calls.Nfs NfsCall.Null) draft.entry.view result }
    ensures at_once { EndsAtOnce (calls.Nfs NfsCall.Null) draft.entry.view result }
{
    Ok(draft.answer(Reply::Nfs(NfsReply::Null)))
}
