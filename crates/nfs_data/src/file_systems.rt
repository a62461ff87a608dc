//! FSINFO and PATHCONF: what a file system and its names are like (RFC 1813, 3.3.19 and 3.3.20).

ghost use Rattle.std.specs.Prelude.{◌≡◌, Some, None};
ghost use Rattle.nfs_machine.specs.FileSystemSteps.{file_system, path_limits};
ghost use Rattle.nfs_machine.specs.declared.calls.Call.TheVariants as calls;
ghost use Rattle.nfs_objects.specs.Attempt.{EndsCall, EndsFirst};
ghost use Rattle.nfs_objects.specs.Begins.{Begins};
ghost use Rattle.nfs_objects.specs.Only.{EndsAtOnce, EndsFirstOnly};

use bytes::Bytes;
use nfs_inodes::{BLOCK, LINK_LIMIT, SIZE_LIMIT, TRANSFER_LIMIT, named};
use nfs_machine::Reply;
use nfs_machine::paths::MAX_NAME;
use nfs_objects::{Change, Draft, Missing};
use nfs_wire::{FileSystem, FsinfoReply, NfsCall, NfsReply, PathLimits, PathconfReply, Time};

/// There are links (1) and symbolic links (2), PATHCONF is the same everywhere (8), and times can be set (16).
const PROPERTIES: u32 = 1 + 2 + 8 + 16;

/// Tries FSINFO of this handle.
pub(crate) fn fsinfo(draft: Draft<'_>, object: &Bytes) -> Result<Change, Missing>
    requires { Begins (calls.Nfs (NfsCall.Fsinfo object.now)) draft }
    ensures ends { EndsCall (calls.Nfs (NfsCall.Fsinfo object.now)) draft.entry.ctx draft.entry.view result }
    ensures first { EndsFirst (calls.Nfs (NfsCall.Fsinfo object.now)) draft.entry.view result }
    ensures only { EndsFirstOnly (calls.Nfs (NfsCall.Fsinfo object.now)) draft.entry.view result }
    ensures at_once { EndsAtOnce (calls.Nfs (NfsCall.Fsinfo object.now)) draft.entry.view result }
{
    let reply = match named(&draft, object.as_slice())? {
        Ok(known) => FsinfoReply {
            attributes: Some(known.attributes),
            result: Ok(file_system()),
        },
        Err(status) => FsinfoReply {
            attributes: None,
            result: Err(status),
        },
    };
    Ok(draft.answer(Reply::Nfs(NfsReply::Fsinfo(reply))))
}

fn file_system() -> FileSystem
    ensures { result ≡ file_system }
{
    FileSystem {
        read_most: TRANSFER_LIMIT,
        read_preferred: TRANSFER_LIMIT,
        read_multiple: BLOCK as u32,
        write_most: TRANSFER_LIMIT,
        write_preferred: TRANSFER_LIMIT,
        write_multiple: BLOCK as u32,
        directory_preferred: 32_768,
        largest_file: SIZE_LIMIT,
        time_step: Time {
            seconds: 0,
            nanoseconds: 1,
        },
        properties: PROPERTIES,
    }
}

/// Tries PATHCONF of this handle.
pub(crate) fn pathconf(draft: Draft<'_>, object: &Bytes) -> Result<Change, Missing>
    requires { Begins (calls.Nfs (NfsCall.Pathconf object.now)) draft }
    ensures ends { EndsCall (calls.Nfs (NfsCall.Pathconf object.now)) draft.entry.ctx draft.entry.view result }
    ensures first { EndsFirst (calls.Nfs (NfsCall.Pathconf object.now)) draft.entry.view result }
    ensures only { EndsFirstOnly (calls.Nfs (NfsCall.Pathconf object.now)) draft.entry.view result }
    ensures at_once { EndsAtOnce (calls.Nfs (NfsCall.Pathconf object.now)) draft.entry.view result }
{
    let reply = match named(&draft, object.as_slice())? {
        Ok(known) => PathconfReply {
            attributes: Some(known.attributes),
            result: Ok(path_limits()),
        },
        Err(status) => PathconfReply {
            attributes: None,
            result: Err(status),
        },
    };
    Ok(draft.answer(Reply::Nfs(NfsReply::Pathconf(reply))))
}

/// An object has at most 32,000 links; a name that is too long is refused.
fn path_limits() -> PathLimits
    ensures { result ≡ path_limits }
{
    PathLimits {
        most_links: LINK_LIMIT,
        longest_name: MAX_NAME as u32,
        no_truncation: true,
        chown_restricted: true,
        case_insensitive: false,
        case_preserving: true,
    }
}
