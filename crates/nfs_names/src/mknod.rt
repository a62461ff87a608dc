//! MKNOD: a new device, socket or FIFO under a name (RFC 1813, 3.3.11).

ghost use Rattle.std.specs.Prelude.{IfErr};
ghost use Rattle.nfs_machine.specs.declared.calls.Call.TheVariants as calls;
ghost use Rattle.nfs_objects.specs.Attempt.{EndsCall, EndsFirst};
ghost use Rattle.nfs_objects.specs.Begins.{Begins};
ghost use Rattle.nfs_names.specs.Plans.{MayHalt};

use crate::make::{self, There, make};
use nfs_inodes::special_wanted;
use nfs_machine::Reply;
use nfs_objects::{Change, Draft, Missing};
use nfs_wire::{MknodArguments, NfsCall, NfsReply};

/// Tries MKNOD.
pub(crate) fn attempt(mut draft: Draft<'_>, arguments: &MknodArguments) -> Result<Change, Missing>
    requires { Begins (calls.Nfs (NfsCall.Mknod arguments.now)) draft }
    ensures ends { EndsCall (calls.Nfs (NfsCall.Mknod arguments.now)) draft.entry.ctx draft.entry.view result }
    ensures first { EndsFirst (calls.Nfs (NfsCall.Mknod arguments.now)) draft.entry.view result }
{
    let asked = special_wanted(&arguments.what);
    let reply = make(&mut draft, &arguments.place, asked, There::Refused)?;
    Ok(draft.answer(Reply::Nfs(NfsReply::Mknod(reply))))
}

/// Asks for all that MKNOD has to hold before it changes anything, where nothing has the name.
///
/// # Errors
///
/// `Fresh` where no number is reserved, `Need` of all else, and `Memory`.
pub(crate) fn ask(draft: &Draft<'_>, arguments: &MknodArguments) -> Result<(), Missing>
    requires { Begins (calls.Nfs (NfsCall.Mknod arguments.now)) draft.now }
    ensures { IfErr result (MayHalt (calls.Nfs (NfsCall.Mknod arguments.now)) draft.now) }
{
    make::ask(draft, &arguments.place, special_wanted(&arguments.what))
}
