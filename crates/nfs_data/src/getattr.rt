//! GETATTR: the attributes of an object (RFC 1813, 3.3.1).

ghost use Rattle.std.specs.Prelude.{◌≡◌, Err, Ok};
ghost use Rattle.nfs_machine.specs.declared.calls.Call.TheVariants as calls;
ghost use Rattle.nfs_objects.specs.Attempt.{EndsCall, EndsFirst};
ghost use Rattle.nfs_objects.specs.Begins.{Begins};
ghost use Rattle.nfs_objects.specs.Only.{EndsAtOnce, EndsFirstOnly};

use bytes::Bytes;
use nfs_inodes::{Known, named};
use nfs_machine::Reply;
use nfs_objects::{Change, Draft, Missing};
use nfs_wire::{Attributes, NfsCall, NfsReply, NfsStatus};

/// Tries GETATTR of this handle.
pub(crate) fn attempt(draft: Draft<'_>, object: &Bytes) -> Result<Change, Missing>
    requires { Begins (calls.Nfs (NfsCall.Getattr object.now)) draft }
    ensures ends { EndsCall (calls.Nfs (NfsCall.Getattr object.now)) draft.entry.ctx draft.entry.view result }
    ensures first { EndsFirst (calls.Nfs (NfsCall.Getattr object.now)) draft.entry.view result }
    ensures only { EndsFirstOnly (calls.Nfs (NfsCall.Getattr object.now)) draft.entry.view result }
    ensures at_once { EndsAtOnce (calls.Nfs (NfsCall.Getattr object.now)) draft.entry.view result }
{
    let found = named(&draft, object.as_slice())?;
    let attributes = attributes_in(found);
    Ok(draft.answer(Reply::Nfs(NfsReply::Getattr(attributes))))
}

/// What GETATTR tells of what a handle names.
fn attributes_in(found: Result<Known, NfsStatus>) -> Result<Attributes, NfsStatus>
    ensures { result ≡ elim found [ Ok known ↦ Ok known.attributes | Err e ↦ Err e ] }
{
    found.map(|known| known.attributes)
}
