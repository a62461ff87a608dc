//! MKDIR: a new directory under a name (RFC 1813, 3.3.9).

ghost use Rattle.std.specs.Prelude.{IfErr};
ghost use Rattle.nfs_machine.specs.declared.calls.Call.TheVariants as calls;
ghost use Rattle.nfs_objects.specs.Attempt.{EndsCall, EndsFirst};
ghost use Rattle.nfs_objects.specs.Begins.{Begins};
ghost use Rattle.nfs_names.specs.Plans.{MayHalt};

use crate::make::{self, There, make};
use nfs_inodes::directory_wanted;
use nfs_machine::Reply;
use nfs_objects::{Change, Draft, Missing};
use nfs_wire::{MkdirArguments, NfsCall, NfsReply};

/// Tries MKDIR.
pub(crate) fn attempt(mut draft: Draft<'_>, arguments: &MkdirArguments) -> Result<Change, Missing>
    requires { Begins (calls.Nfs (NfsCall.Mkdir arguments.now)) draft }
    ensures ends { EndsCall (calls.Nfs (NfsCall.Mkdir arguments.now)) draft.entry.ctx draft.entry.view result }
    ensures first { EndsFirst (calls.Nfs (NfsCall.Mkdir arguments.now)) draft.entry.view result }
{
    let wanted = directory_wanted(&arguments.attributes);
    let reply = make(&mut draft, &arguments.place, Ok(wanted), There::Refused)?;
    Ok(draft.answer(Reply::Nfs(NfsReply::Mkdir(reply))))
}

/// Asks for all that MKDIR has to hold before it changes anything, where nothing has the name.
///
/// # Errors
///
/// `Fresh` where no number is reserved, `Need` of all else, and `Memory`.
pub(crate) fn ask(draft: &Draft<'_>, arguments: &MkdirArguments) -> Result<(), Missing>
    requires { Begins (calls.Nfs (NfsCall.Mkdir arguments.now)) draft.now }
    ensures { IfErr result (MayHalt (calls.Nfs (NfsCall.Mkdir arguments.now)) draft.now) }
{
    make::ask(
        draft,
        &arguments.place,
        Ok(directory_wanted(&arguments.attributes)),
    )
}
