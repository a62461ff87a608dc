//! SHARE and UNSHARE (RFC 1813, appendix II, 6.2: procedures 20 and 21).

ghost use Rattle.std.specs.Prelude.{◌≡◌, ◌∷◌, [], MatchResult};
ghost use Rattle.nfs_machine.specs.Locks.{denies};
ghost use Rattle.nfs_machine.specs.LockSteps.{ShareEnds, UnshareEnds};
ghost use Rattle.nfs_machine.specs.declared.calls.Call.TheVariants as calls;
ghost use Rattle.nfs_objects.specs.Attempt.{EndsCall, EndsFirst, HaltsFirst, first_wanted_with};
ghost use Rattle.nfs_objects.specs.Begins.{Begins};
ghost use Rattle.nfs_inodes.specs.Stops.{StopsAt};
ghost use Rattle.nlm_daemon.specs.Comes.{ComesTo, lock_places};

use crate::answering::{Procedure, answer};
use crate::checking::file_of;
use crate::filing::{all_locks_of, put};
use nfs_inodes::locks_of;
use nfs_objects::{Change, Draft, Missing, Mode};
use side_wire::{NlmCall, NlmStatus, ShareAccess, ShareArguments, ShareMode};

/// Tries SHARE: a share that conflicts is denied, and any other takes the place of the sharer's own of the file.
///
/// # Errors
///
/// `Need` of the exports, of what the handle names or of what the file has, and `Memory`.
pub(crate) fn share(mut draft: Draft<'_>, arguments: &ShareArguments) -> Result<Change, Missing>
    requires { Begins (calls.Nlm (NlmCall.Share arguments.now)) draft }
    ensures ends { EndsCall (calls.Nlm (NlmCall.Share arguments.now)) draft.entry.ctx draft.entry.view result }
    ensures first { EndsFirst (calls.Nlm (NlmCall.Share arguments.now)) draft.entry.view result }
{
    let status = shared(&mut draft, arguments)?;
    answer(draft, Procedure::Share, &arguments.cookie, status)
}

/// What SHARE comes to.
fn shared(draft: &mut Draft<'_>, arguments: &ShareArguments) -> Result<NlmStatus, Missing>
    requires none { draft.old.writes ≡ [] }
    requires alone { draft.old.modes.locks ≡ Mode.Exclusive }
    ensures ends { MatchResult result
        (ComesTo draft.old draft.new (λ m. ShareEnds m draft.old.ctx arguments.now))
        (StopsAt draft.old (lock_places draft.old.view arguments.now.share.file)) }
    ensures first { HaltsFirst draft.old.modes draft.old.view
        (first_wanted_with draft.old.view (arguments.now.share.file ∷ [])) result }
{
    let share = &arguments.share;
    let file = match file_of(draft, &share.file, is_writing(share.access))? {
        Ok(file) => file,
        Err(fault) => return Ok(fault.status()),
    };
    let locks = all_locks_of(draft, &file)?;
    if locks.is_denied(share) {
        return Ok(NlmStatus::Denied);
    }
    let more = locks.share(draft.alloc(), share)?;
    put(draft, file.known.number, file.known.export, more)?;
    Ok(NlmStatus::Granted)
}

/// Whether the access is to write, among other things perhaps.
pub(crate) fn is_writing(access: ShareAccess) -> bool
    ensures { result ≡ denies ShareMode.DenyWrite access }
{
    matches!(access, ShareAccess::Write | ShareAccess::ReadWrite)
}

/// Tries UNSHARE: the sharer has no share of the file any more.
///
/// # Errors
///
/// `Need` of the exports, of what the handle names or of what the file has, and `Memory`.
pub(crate) fn unshare(mut draft: Draft<'_>, arguments: &ShareArguments) -> Result<Change, Missing>
    requires { Begins (calls.Nlm (NlmCall.Unshare arguments.now)) draft }
    ensures ends { EndsCall (calls.Nlm (NlmCall.Unshare arguments.now)) draft.entry.ctx draft.entry.view result }
    ensures first { EndsFirst (calls.Nlm (NlmCall.Unshare arguments.now)) draft.entry.view result }
{
    let status = unshared(&mut draft, arguments)?;
    answer(draft, Procedure::Unshare, &arguments.cookie, status)
}

/// What UNSHARE comes to.
fn unshared(draft: &mut Draft<'_>, arguments: &ShareArguments) -> Result<NlmStatus, Missing>
    requires none { draft.old.writes ≡ [] }
    requires alone { draft.old.modes.locks ≡ Mode.Exclusive }
    ensures ends { MatchResult result
        (ComesTo draft.old draft.new (λ m. UnshareEnds m draft.old.ctx arguments.now))
        (StopsAt draft.old (lock_places draft.old.view arguments.now.share.file)) }
    ensures first { HaltsFirst draft.old.modes draft.old.view
        (first_wanted_with draft.old.view (arguments.now.share.file ∷ [])) result }
{
    let share = &arguments.share;
    let file = match file_of(draft, &share.file, false)? {
        Ok(file) => file,
        Err(fault) => return Ok(fault.status()),
    };
    let Some(locks) = locks_of(draft, file.known.number)? else {
        return Ok(NlmStatus::Granted);
    };
    let less = locks.unshare(draft.alloc(), share)?;
    put(draft, file.known.number, file.known.export, less)?;
    Ok(NlmStatus::Granted)
}
