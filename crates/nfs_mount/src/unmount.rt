//! UMNT and UMNTALL (RFC 1813, appendix I, 5.2.3 and 5.2.4).

ghost use Rattle.std.specs.Prelude.{◌≡◌, [], MatchResult};
ghost use Rattle.nfs_objects.specs.Attempt.{EndsCall, EndsFirst, HaltsFirst, unless_seen};
ghost use Rattle.nfs_objects.specs.Begins.{Begins};
ghost use Rattle.nfs_inodes.specs.Stops.{StopsAt};
ghost use Rattle.nfs_mount.specs.Changes.{TakesMounts};
ghost use Rattle.nfs_mount.specs.Targets.{tables};

use bytes::Bytes;
use nfs_inodes::exports;
use nfs_machine::{Call, Reply};
use nfs_objects::{Addr, Change, Draft, Leaving, Missing, Mode};
use side_wire::{MountCall, MountReply};

/// Tries UMNT of a path: the caller's host has it mounted no more.
///
/// # Errors
///
/// `Need` of the exports or of the mounts, and `Memory`.
pub fn attempt_path(draft: Draft<'_>, path: &Bytes) -> Result<Change, Missing>
    requires { Begins (Call.Mount (MountCall.Unmount path.now)) draft }
    ensures ends { EndsCall (Call.Mount (MountCall.Unmount path.now)) draft.entry.ctx draft.entry.view result }
    ensures first { EndsFirst (Call.Mount (MountCall.Unmount path.now)) draft.entry.view result }
{
    let mut draft = draft;
    let host = draft.ctx().host.as_slice();
    let path = path.as_slice();
    take_mounts(&mut draft, Leaving::Path { host, path })?;
    Ok(draft.answer(Reply::Mount(MountReply::Unmount)))
}

/// Tries UMNTALL: the caller's host has nothing mounted any more.
///
/// # Errors
///
/// `Need` of the exports or of the mounts, and `Memory`.
pub fn attempt_all(draft: Draft<'_>) -> Result<Change, Missing>
    requires { Begins (Call.Mount MountCall.UnmountAll) draft }
    ensures ends { EndsCall (Call.Mount MountCall.UnmountAll) draft.entry.ctx draft.entry.view result }
    ensures first { EndsFirst (Call.Mount MountCall.UnmountAll) draft.entry.view result }
{
    let mut draft = draft;
    let host = draft.ctx().host.as_slice();
    take_mounts(&mut draft, Leaving::Host(host))?;
    Ok(draft.answer(Reply::Mount(MountReply::UnmountAll)))
}

/// Takes the mounts that leave from the table, which is written only if there are any. The exports are read first.
///
/// # Errors
///
/// `Need` of the exports or of the table, and `Memory`.
fn take_mounts(draft: &mut Draft<'_>, leaving: Leaving<'_>) -> Result<(), Missing>
    requires none { draft.old.writes ≡ [] }
    requires alone { draft.old.modes.mounts ≡ Mode.Exclusive }
    ensures takes { MatchResult result (λ _. TakesMounts draft.old draft.new leaving.entry)
        (StopsAt draft.old tables) }
    ensures first { HaltsFirst draft.old.modes draft.old.view (unless_seen draft.old.view Addr.Exports) result }
{
    exports(draft)?;
    let Some(table) = draft.mounts()? else {
        return Ok(());
    };
    if !table.has(leaving) {
        return Ok(());
    }
    let rest = table.without(draft.alloc(), leaving)?;
    draft.put_mounts(rest)?;
    Ok(())
}
