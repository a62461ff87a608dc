//! The procedures of NFS version 3 on names (RFC 1813, section 3.3), each as straight code over a draft.
//!
//! A procedure asks what a handle names, makes its checks, reads and changes directories by the readers and makers of
//! `nfs_inodes`, and answers; what it lacks it halts with. The procedures are LOOKUP, CREATE, MKDIR, SYMLINK,
//! MKNOD, REMOVE, RMDIR, RENAME, LINK, READDIR and READDIRPLUS.
#![tactic(auto)]

ghost use Rattle.std.specs.Prelude.{◌≡◌, true, IfOk};
ghost use Rattle.nfs_machine.specs.declared.calls.Call.TheVariants as calls;
ghost use Rattle.nfs_objects.specs.Attempt.{AsksFirst, Attempts, EndsCall, EndsFirst};
ghost use Rattle.nfs_objects.specs.Modes.{Suits, modes_of};
ghost use Rattle.nfs_names.specs.Calls.{is_name_call};

mod checking;
mod create;
mod link;
mod lookup;
mod make;
mod mkdir;
mod mknod;
mod over;
mod page;
pub mod plan;
mod readdir;
mod readdirplus;
mod remove;
mod rename;
mod symlink;

use crate::remove::Taking;
use nfs_machine::Ctx;
use nfs_objects::{CHANGING, Change, Draft, Missing, Modes, Outcome, READING, View, outcome};
use nfs_wire::NfsCall;
use std::alloc::{AllocError, Global};

/// Tries a call on names on a view, which holds all that it has as the call wants.
///
/// # Errors
///
/// `AllocError` where the memory for what the call comes to was refused.
pub fn attempt(alloc: Global, call: &NfsCall, ctx: &Ctx, view: &View) -> Result<Outcome, AllocError>
    requires names { is_name_call call.now ≡ true }
    requires suits { Suits (modes_of (calls.Nfs call.now)) view.now }
    ensures attempts { IfOk result (Attempts (calls.Nfs call.now) ctx.now view.now) }
    ensures first { IfOk result (AsksFirst (calls.Nfs call.now) view.now) }
{
    outcome(ended(alloc, call, ctx, view))
}

/// Whether the call is one that this crate attempts.
pub fn is_name_call(call: &NfsCall) -> bool
    ensures { result ≡ is_name_call call.now }
{
    matches!(
        call,
        NfsCall::Lookup(_)
            | NfsCall::Create(_)
            | NfsCall::Mkdir(_)
            | NfsCall::Symlink(_)
            | NfsCall::Mknod(_)
            | NfsCall::Remove(_)
            | NfsCall::Rmdir(_)
            | NfsCall::Rename(_)
            | NfsCall::Link(_)
            | NfsCall::Readdir(_)
            | NfsCall::Readdirplus(_)
    )
}

fn ended<'a>(
    alloc: Global,
    call: &'a NfsCall,
    ctx: &'a Ctx,
    view: &'a View,
) -> Result<Change, Missing>
    requires names { is_name_call call.now ≡ true }
    requires suits { Suits (modes_of (calls.Nfs call.now)) view.now }
    ensures ends { EndsCall (calls.Nfs call.now) ctx.now view.now result }
    ensures first { EndsFirst (calls.Nfs call.now) view.now result }
{
    match call {
        NfsCall::Lookup(place) => lookup::attempt(Draft::new(alloc, ctx, view, READING), place),
        NfsCall::Create(arguments) => {
            create::attempt(Draft::new(alloc, ctx, view, CHANGING), arguments)
        }
        NfsCall::Mkdir(arguments) => {
            mkdir::attempt(Draft::new(alloc, ctx, view, CHANGING), arguments)
        }
        NfsCall::Symlink(arguments) => {
            symlink::attempt(Draft::new(alloc, ctx, view, CHANGING), arguments)
        }
        NfsCall::Mknod(arguments) => {
            mknod::attempt(Draft::new(alloc, ctx, view, CHANGING), arguments)
        }
        NfsCall::Rename(arguments) => {
            let draft = Draft::new(alloc, ctx, view, Modes::renaming(arguments));
            rename::attempt(draft, view.len(), arguments)
        }
        NfsCall::Remove(place) => {
            remove::attempt(
                Draft::new(alloc, ctx, view, CHANGING),
                Taking::Remove,
                place,
            )
        }
        NfsCall::Rmdir(place) => {
            remove::attempt(Draft::new(alloc, ctx, view, CHANGING), Taking::Rmdir, place)
        }
        NfsCall::Link(arguments) => {
            link::attempt(Draft::new(alloc, ctx, view, CHANGING), arguments)
        }
        NfsCall::Readdir(arguments) => {
            readdir::attempt(Draft::new(alloc, ctx, view, READING), arguments)
        }
        NfsCall::Readdirplus(arguments) => {
            readdirplus::attempt(Draft::new(alloc, ctx, view, READING), arguments)
        }
        _ => unreachable!(),
    }
}
