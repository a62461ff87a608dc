//! CREATE: a new file under a name (RFC 1813, 3.3.8).

ghost use Rattle.std.specs.Prelude.{IfErr};
ghost use Rattle.nfs_machine.specs.declared.calls.Call.TheVariants as calls;
ghost use Rattle.nfs_objects.specs.Attempt.{EndsCall, EndsFirst};
ghost use Rattle.nfs_objects.specs.Begins.{Begins};
ghost use Rattle.nfs_names.specs.Plans.{MayHalt};

use crate::make::{self, There, make};
use nfs_inodes::file_wanted;
use nfs_machine::Reply;
use nfs_objects::{Change, Draft, Missing};
use nfs_wire::{CreateArguments, NfsCall, NfsReply};

/// Tries CREATE.
pub(crate) fn attempt(mut draft: Draft<'_>, arguments: &CreateArguments) -> Result<Change, Missing>
    requires { Begins (calls.Nfs (NfsCall.Create arguments.now)) draft }
    ensures ends { EndsCall (calls.Nfs (NfsCall.Create arguments.now)) draft.entry.ctx draft.entry.view result }
    ensures first { EndsFirst (calls.Nfs (NfsCall.Create arguments.now)) draft.entry.view result }
{
    let how = &arguments.how;
    let wanted = file_wanted(how);
    let reply = make(
        &mut draft,
        &arguments.place,
        Ok(wanted),
        There::Created(how),
    )?;
    Ok(draft.answer(Reply::Nfs(NfsReply::Create(reply))))
}

/// Asks for all that CREATE has to hold before it changes anything, where nothing has the name.
///
/// # Errors
///
/// `Fresh` where no number is reserved, `Need` of all else, and `Memory`.
pub(crate) fn ask(draft: &Draft<'_>, arguments: &CreateArguments) -> Result<(), Missing>
    requires { Begins (calls.Nfs (NfsCall.Create arguments.now)) draft.now }
    ensures { IfErr result (MayHalt (calls.Nfs (NfsCall.Create arguments.now)) draft.now) }
{
    make::ask(draft, &arguments.place, Ok(file_wanted(&arguments.how)))
}
