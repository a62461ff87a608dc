//! READLINK: the text of a link (RFC 1813, 3.3.5).

ghost use Rattle.nfs_machine.specs.declared.calls.Call.TheVariants as calls;
ghost use Rattle.nfs_objects.specs.Attempt.{EndsCall, EndsFirst};
ghost use Rattle.nfs_objects.specs.Begins.{Begins};

use bytes::Bytes;
use nfs_inodes::{named, text};
use nfs_machine::Reply;
use nfs_objects::{Change, Draft, Missing};
use nfs_wire::{NfsCall, NfsReply, ReadlinkReply};

/// Tries READLINK of this handle.
pub(crate) fn attempt(draft: Draft<'_>, object: &Bytes) -> Result<Change, Missing>
    requires { Begins (calls.Nfs (NfsCall.Readlink object.now)) draft }
    ensures ends { EndsCall (calls.Nfs (NfsCall.Readlink object.now)) draft.entry.ctx draft.entry.view result }
    ensures first { EndsFirst (calls.Nfs (NfsCall.Readlink object.now)) draft.entry.view result }
{
    let reply = match named(&draft, object.as_slice())? {
        Ok(known) => {
            let text = text(&draft, &known)?;
            ReadlinkReply {
                attributes: Some(known.attributes),
                result: text,
            }
        }
        Err(status) => ReadlinkReply {
            attributes: None,
            result: Err(status),
        },
    };
    Ok(draft.answer(Reply::Nfs(NfsReply::Readlink(reply))))
}
