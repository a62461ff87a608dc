//! MNT (RFC 1813, appendix I, 5.2.1).

ghost use Rattle.std.specs.Prelude.{◌≡◌, [], MatchResult};
ghost use Rattle.std.specs.FinMap.{get};
ghost use Rattle.nfs_machine.specs.MountSteps.{walk};
ghost use Rattle.nfs_objects.specs.Asks.{IsThere};
ghost use Rattle.nfs_objects.specs.Attempt.{EndsCall, EndsFirst, HaltsFirst, unless_seen};
ghost use Rattle.nfs_objects.specs.Begins.{Begins};
ghost use Rattle.nfs_inodes.specs.Stops.{StopsAt};
ghost use Rattle.nfs_mount.specs.Changes.{AddsMount};
ghost use Rattle.nfs_mount.specs.Targets.{Finds, IsTarget, tables, walk_end};

use crate::choice::choose;
use crate::paths::{PathNames, path_fault};
use bytes::Bytes;
use nfs_inodes::{Known, directory, entry, exports, handle, object};
use nfs_machine::{Call, Reply};
use nfs_objects::{Addr, Change, Draft, Missing, Mode, MountTable};
use side_wire::{MountCall, MountReply, MountStatus};

/// Tries MNT of a path: the handle of the directory that it names, and the path is listed for the caller's host.
///
/// # Errors
///
/// `Need` of the exports, of a directory that the path leads through or of the mounts, and `Memory`.
pub fn attempt(draft: Draft<'_>, path: &Bytes) -> Result<Change, Missing>
    requires { Begins (Call.Mount (MountCall.Mnt path.now)) draft }
    ensures ends { EndsCall (Call.Mount (MountCall.Mnt path.now)) draft.entry.ctx draft.entry.view result }
    ensures first { EndsFirst (Call.Mount (MountCall.Mnt path.now)) draft.entry.view result }
{
    let mut draft = draft;
    let directory = match target(&draft, path)? {
        Ok(directory) => directory,
        Err(status) => return Ok(draft.answer(Reply::Mount(MountReply::Mnt(Err(status))))),
    };
    add_mount(&mut draft, path)?;
    let handle = handle(draft.alloc(), draft.ctx(), &directory)?;
    Ok(draft.answer(Reply::Mount(MountReply::Mnt(Ok(handle)))))
}

/// The directory that a path names for the caller, or the status of MNT for it. The exports are read first.
///
/// # Errors
///
/// `Need` of the exports or of a directory that the path leads through, and `Memory`.
fn target(draft: &Draft<'_>, path: &Bytes) -> Result<Result<Known, MountStatus>, Missing>
    requires { draft.now.writes ≡ [] }
    ensures found { Finds draft.now (λ found. IsTarget draft.now.ctx path.now found) result }
    ensures first { HaltsFirst draft.now.modes draft.now.view (unless_seen draft.now.view Addr.Exports) result }
{
    let exports = exports(draft)?;
    if let Some(fault) = path_fault(path) {
        return Ok(Err(fault));
    }
    match choose(exports, &draft.ctx().host, path) {
        Some(choice) => walk(draft, choice.root, choice.rest),
        None => Ok(Err(MountStatus::Access)),
    }
}

/// The directory that names lead to from a number, or why there is none. No link is followed.
///
/// # Errors
///
/// `Need` of a directory that the names lead through, and `Memory`.
fn walk(
    draft: &Draft<'_>,
    root: u64,
    mut names: PathNames<'_>,
) -> Result<Result<Known, MountStatus>, Missing>
    requires none { draft.now.writes ≡ [] }
    requires lives { IsThere draft.now.view (Addr.Inode root) }
    ensures { Finds draft.now (λ found m. walk (get m.objects) root names.entry ≡ walk_end m found) result }
{
    let mut number = root;
    'names: loop {
        let Some(object) = object(draft, number)? else {
            return Ok(Err(MountStatus::NoEntry));
        };
        let Ok(directory) = directory(&object) else {
            return Ok(Err(MountStatus::NotDirectory));
        };
        let Some(name) = names.next() else {
            return Ok(Ok(object));
        };
        let Some(next) = entry(draft, &directory, name)? else {
            return Ok(Err(MountStatus::NoEntry));
        };
        number = next;
    }
}

/// Lists the path last for the caller's host, unless it is listed.
///
/// # Errors
///
/// `Need` of the table of mounts, and `Memory`.
fn add_mount(draft: &mut Draft<'_>, path: &Bytes) -> Result<(), Missing>
    requires { draft.old.modes.mounts ≡ Mode.Exclusive }
    ensures { MatchResult result (λ _. AddsMount draft.old draft.new path.now) (StopsAt draft.old tables) }
{
    let host = draft.ctx().host.as_slice();
    let path = path.as_slice();
    let alloc = draft.alloc();
    let table = match draft.mounts()? {
        Some(table) if table.is_listed(host, path) => return Ok(()),
        Some(table) => table.with_mount(alloc, host, path)?,
        None => MountTable::new(alloc).with_mount(alloc, host, path)?,
    };
    draft.put_mounts(table)?;
    Ok(())
}
