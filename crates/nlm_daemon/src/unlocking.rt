//! CANCEL and UNLOCK, and their MSG calls (RFC 1813, appendix II, 6.2: procedures 3, 4, 8 and 9).

ghost use Rattle.std.specs.Prelude.{◌≡◌, ◌∷◌, [], MatchResult, true};
ghost use Rattle.nfs_machine.specs.LockSteps.{CancelEnds, UnlockEnds};
ghost use Rattle.nfs_objects.specs.Attempt.{EndsCall, EndsFirst, HaltsFirst, first_wanted_with};
ghost use Rattle.nfs_objects.specs.Begins.{Begins};
ghost use Rattle.nfs_inodes.specs.Stops.{StopsAt};
ghost use Rattle.nlm_daemon.specs.Answering.{canceling_call, is_canceling, is_unlocking, unlocking_call};
ghost use Rattle.nlm_daemon.specs.Comes.{ComesTo, lock_places};

use crate::answering::{Procedure, answer};
use crate::checking::file_range;
use crate::filing::put;
use crate::granting::put_settled;
use nfs_inodes::locks_of;
use nfs_objects::{Change, Draft, Missing, Mode};
use side_wire::{CancelArguments, NlmStatus, UnlockArguments};

/// Tries CANCEL or CANCEL_MSG: an equal request, if one waits, waits no more.
///
/// # Errors
///
/// `Need` of the exports, of what the handle names or of what the file has, and `Memory`.
pub(crate) fn cancel(
    mut draft: Draft<'_>,
    procedure: Procedure,
    arguments: &CancelArguments,
) -> Result<Change, Missing>
    requires cancels { is_canceling procedure ≡ true }
    requires begins { Begins (canceling_call procedure arguments.now) draft }
    ensures ends { EndsCall (canceling_call procedure arguments.now) draft.entry.ctx draft.entry.view result }
    ensures first { EndsFirst (canceling_call procedure arguments.now) draft.entry.view result }
{
    let status = canceled(&mut draft, arguments)?;
    answer(draft, procedure, &arguments.cookie, status)
}

/// What CANCEL comes to.
fn canceled(draft: &mut Draft<'_>, arguments: &CancelArguments) -> Result<NlmStatus, Missing>
    requires none { draft.old.writes ≡ [] }
    requires alone { draft.old.modes.locks ≡ Mode.Exclusive }
    ensures ends { MatchResult result
        (ComesTo draft.old draft.new (λ m. CancelEnds m draft.old.ctx arguments.now))
        (StopsAt draft.old (lock_places draft.old.view arguments.now.lock.file)) }
    ensures first { HaltsFirst draft.old.modes draft.old.view
        (first_wanted_with draft.old.view (arguments.now.lock.file ∷ [])) result }
{
    let place = match file_range(draft, &arguments.lock, false)? {
        Ok(place) => place,
        Err(fault) => return Ok(fault.status()),
    };
    let file = &place.file.known;
    let (exclusive, lock) = (arguments.exclusive, &arguments.lock);
    let Some(locks) = locks_of(draft, file.number)? else {
        return Ok(NlmStatus::Denied);
    };
    if !locks.is_waiting(exclusive, lock) {
        return Ok(NlmStatus::Denied);
    }
    let left = locks.without_waiting(draft.alloc(), exclusive, lock)?;
    put(draft, file.number, file.export, left)?;
    Ok(NlmStatus::Granted)
}

/// Tries UNLOCK or UNLOCK_MSG: the owner has the range no more, whether it had it or not.
///
/// # Errors
///
/// `Need` of the exports, of what the handle names or of what the file has, and `Memory`.
pub(crate) fn unlock(
    mut draft: Draft<'_>,
    procedure: Procedure,
    arguments: &UnlockArguments,
) -> Result<Change, Missing>
    requires unlocks { is_unlocking procedure ≡ true }
    requires begins { Begins (unlocking_call procedure arguments.now) draft }
    ensures ends { EndsCall (unlocking_call procedure arguments.now) draft.entry.ctx draft.entry.view result }
    ensures first { EndsFirst (unlocking_call procedure arguments.now) draft.entry.view result }
{
    let status = unlocked(&mut draft, arguments)?;
    answer(draft, procedure, &arguments.cookie, status)
}

/// What UNLOCK comes to.
fn unlocked(draft: &mut Draft<'_>, arguments: &UnlockArguments) -> Result<NlmStatus, Missing>
    requires none { draft.old.writes ≡ [] }
    requires alone { draft.old.modes.locks ≡ Mode.Exclusive }
    ensures ends { MatchResult result
        (ComesTo draft.old draft.new (λ m. UnlockEnds m draft.old.ctx arguments.now))
        (StopsAt draft.old (lock_places draft.old.view arguments.now.lock.file)) }
    ensures first { HaltsFirst draft.old.modes draft.old.view
        (first_wanted_with draft.old.view (arguments.now.lock.file ∷ [])) result }
{
    let place = match file_range(draft, &arguments.lock, false)? {
        Ok(place) => place,
        Err(fault) => return Ok(fault.status()),
    };
    let file = &place.file.known;
    let Some(locks) = locks_of(draft, file.number)? else {
        return Ok(NlmStatus::Granted);
    };
    let left = locks.without_pending_within(draft.alloc(), &place.range)?;
    let settled = left.clear(draft.alloc(), &place.range)?;
    put_settled(draft, file.number, file.export, settled)?;
    Ok(NlmStatus::Granted)
}
