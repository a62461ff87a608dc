//! The procedures of MOUNT version 3 (RFC 1813, appendix I), and the call that replaces the exports, each as straight
//! code over a draft.
//!
//! An attempt is a function of its arguments: it reads the view and nothing else, and comes to the addresses that it
//! still needs, or to a change. Its contract is the promise of a call's end (`IsPromised`), which is that the answer is
//! a step of the machine in every sound store that the view fits, and what may be asked for. All six procedures are
//! here. It stands on `nfs_inodes` for objects, directories and new roots, on `nfs_objects` for drafts and the tables
//! of exports and mounts, and on `nfs_machine` for the steps.
#![tactic(auto)]

ghost use Rattle.std.specs.Prelude.{IfOk};
ghost use Rattle.nfs_objects.specs.Attempt.{AsksFirst, Attempts, EndsCall, EndsFirst};
ghost use Rattle.nfs_objects.specs.Begins.{Begins};
ghost use Rattle.nfs_objects.specs.Bound.{HasNumbers};
ghost use Rattle.nfs_objects.specs.Modes.{Suits, modes_of};

mod choice;
mod lists;
mod mount;
mod paths;
pub mod plan;
mod replace;
mod unmount;

use nfs_machine::{Call, Ctx, Exports, Reply};
use nfs_objects::{Change, Draft, MOUNTING, Missing, Outcome, READING, REPLACING, View, outcome};
use side_wire::{MountCall, MountReply};
use std::alloc::{AllocError, Global};

/// Tries a call on a view, which holds what it has as the call wants.
///
/// # Errors
///
/// `AllocError` where the memory for what the call comes to was refused.
pub fn attempt(
    alloc: Global,
    call: &MountCall,
    ctx: &Ctx,
    view: &View,
) -> Result<Outcome, AllocError>
    requires { Suits (modes_of (Call.Mount call.now)) view.now }
    ensures attempts { IfOk result (Attempts (Call.Mount call.now) ctx.now view.now) }
    ensures first { IfOk result (AsksFirst (Call.Mount call.now) view.now) }
{
    outcome(ended(alloc, call, ctx, view))
}

/// Tries the call that replaces the exports on a view, which holds what it has as the call wants, and has none of the
/// call's new numbers or all.
///
/// # Errors
///
/// `AllocError` where the memory for what the call comes to was refused.
pub fn attempt_replace(
    alloc: Global,
    exports: &Exports,
    ctx: &Ctx,
    view: &View,
) -> Result<Outcome, AllocError>
    requires suits { Suits (modes_of (Call.Replace exports.now)) view.now }
    requires numbers { HasNumbers (Call.Replace exports.now) view.now }
    ensures attempts { IfOk result (Attempts (Call.Replace exports.now) ctx.now view.now) }
    ensures first { IfOk result (AsksFirst (Call.Replace exports.now) view.now) }
{
    outcome(replaced(alloc, exports, ctx, view))
}

fn replaced<'a>(
    alloc: Global,
    exports: &'a Exports,
    ctx: &'a Ctx,
    view: &'a View,
) -> Result<Change, Missing>
    requires suits { Suits (modes_of (Call.Replace exports.now)) view.now }
    requires numbers { HasNumbers (Call.Replace exports.now) view.now }
    ensures ends { EndsCall (Call.Replace exports.now) ctx.now view.now result }
    ensures first { EndsFirst (Call.Replace exports.now) view.now result }
{
    replace::attempt(Draft::new(alloc, ctx, view, REPLACING), exports)
}

fn ended<'a>(
    alloc: Global,
    call: &'a MountCall,
    ctx: &'a Ctx,
    view: &'a View,
) -> Result<Change, Missing>
    requires { Suits (modes_of (Call.Mount call.now)) view.now }
    ensures ends { EndsCall (Call.Mount call.now) ctx.now view.now result }
    ensures first { EndsFirst (Call.Mount call.now) view.now result }
{
    match call {
        MountCall::Null => null(Draft::new(alloc, ctx, view, READING)),
        MountCall::Mnt(path) => mount::attempt(Draft::new(alloc, ctx, view, MOUNTING), path),
        MountCall::Dump => lists::attempt_dump(Draft::new(alloc, ctx, view, READING)),
        MountCall::Unmount(path) => {
            unmount::attempt_path(Draft::new(alloc, ctx, view, MOUNTING), path)
        }
        MountCall::UnmountAll => unmount::attempt_all(Draft::new(alloc, ctx, view, MOUNTING)),
        MountCall::Export => lists::attempt_export(Draft::new(alloc, ctx, view, READING)),
    }
}

/// NULL does nothing (RFC 1813, 5.2.0).
fn null(draft: Draft<'_>) -> Result<Change, Missing>
    requires { Begins (Call.Mount MountCall.Null) draft }
    ensures ends { EndsCall (Call.Mount MountCall.Null) draft.entry.ctx draft.entry.view result }
    ensures first { EndsFirst (Call.Mount MountCall.Null) draft.entry.view result }
{
    Ok(draft.answer(Reply::Mount(MountReply::Null)))
}
