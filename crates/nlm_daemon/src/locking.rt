//! LOCK, NM_LOCK and LOCK_MSG (RFC 1813, appendix II, 6.2: procedures 2, 22 and 7).

ghost use Rattle.std.specs.Prelude.{◌≡◌, ◌∷◌, [], MatchResult, true};
ghost use Rattle.std.specs.List.{list_any};
ghost use Rattle.nfs_machine.specs.FileLists.{of_file};
ghost use Rattle.nfs_machine.specs.LockSteps.{HeldUp, LockEnds, is_request};
ghost use Rattle.nfs_objects.specs.Attempt.{EndsCall, EndsFirst, HaltsFirst, first_wanted_with};
ghost use Rattle.nfs_objects.specs.Begins.{Begins};
ghost use Rattle.nfs_objects.specs.Calls.{locks_at};
ghost use Rattle.nfs_objects.specs.Knows.{Knows};
ghost use Rattle.nfs_inodes.specs.Locks.{HasLocks};
ghost use Rattle.nfs_inodes.specs.Stops.{StopsAt};
ghost use Rattle.nlm_daemon.specs.Answering.{is_locking, locking_call};
ghost use Rattle.nlm_daemon.specs.Checks.{IsPlaceOf};
ghost use Rattle.nlm_daemon.specs.Comes.{ComesTo, lock_places};

use crate::answering::{Procedure, answer};
use crate::checking::{FileRange, file_range};
use crate::filing::all_locks_of;
use crate::granting::put_settled;
use nfs_inodes::{next_number, set_locks_spending};
use nfs_objects::{Change, Draft, Missing, Mode};
use nlm_ranges::{LockRequest, LockedFile, OneFile};
use side_wire::{LockArguments, NlmStatus};

/// Tries LOCK, NM_LOCK or LOCK_MSG.
///
/// # Errors
///
/// `Need` of the exports, of what the handle names or of what the file has, and `Memory`.
pub(crate) fn attempt(
    mut draft: Draft<'_>,
    procedure: Procedure,
    arguments: &LockArguments,
) -> Result<Change, Missing>
    requires locks { is_locking procedure ≡ true }
    requires begins { Begins (locking_call procedure arguments.now) draft }
    ensures ends { EndsCall (locking_call procedure arguments.now) draft.entry.ctx draft.entry.view result }
    ensures first { EndsFirst (locking_call procedure arguments.now) draft.entry.view result }
{
    let status = lock(&mut draft, arguments, procedure.is_message())?;
    answer(draft, procedure, &arguments.cookie, status)
}

/// What LOCK comes to, asked for in a call that is answered or by a message.
fn lock(
    draft: &mut Draft<'_>,
    arguments: &LockArguments,
    by_message: bool,
) -> Result<NlmStatus, Missing>
    requires none { draft.old.writes ≡ [] }
    requires alone { draft.old.modes.locks ≡ Mode.Exclusive }
    ensures ends { MatchResult result
        (ComesTo draft.old draft.new (λ m. LockEnds m draft.old.ctx arguments.now by_message))
        (StopsAt draft.old (lock_places draft.old.view arguments.now.lock.file)) }
    ensures first { HaltsFirst draft.old.modes draft.old.view
        (first_wanted_with draft.old.view (arguments.now.lock.file ∷ [])) result }
{
    let place = match file_range(draft, &arguments.lock, arguments.exclusive)? {
        Ok(place) => place,
        Err(fault) => return Ok(fault.status()),
    };
    let locks = all_locks_of(draft, &place.file)?;
    if let Some(_held) = locks.test(&place.range, arguments.exclusive) {
        let status = held_up(draft, &place, &locks, arguments, by_message)?;
        return Ok(status);
    }
    let left = locks.without_pending_within(draft.alloc(), &place.range)?;
    let settled = left.set(draft.alloc(), &place.range, arguments.exclusive)?;
    put_settled(
        draft,
        place.file.known.number,
        place.file.known.export,
        settled,
    )?;
    Ok(NlmStatus::Granted)
}

/// What LOCK comes to that conflicts with what is held: it waits, if it would, unless it waits already.
fn held_up(
    draft: &mut Draft<'_>,
    place: &FileRange<'_>,
    locks: &OneFile,
    arguments: &LockArguments,
    by_message: bool,
) -> Result<NlmStatus, Missing>
    requires alone { draft.old.modes.locks ≡ Mode.Exclusive }
    requires place { IsPlaceOf draft.old arguments.now.lock place.now }
    requires knows { Knows draft.old (λ k. HasLocks k.state place.now.file.known.number locks.now) }
    ensures { MatchResult result
        (ComesTo draft.old draft.new (λ m. HeldUp m draft.old.ctx arguments.now by_message
        place.now.file.known.number arguments.now.block
        (list_any (is_request arguments.now.exclusive arguments.now.lock)
        (of_file m.waiting place.now.file.known.number))))
        (StopsAt draft.old (locks_at place.now.file.known.number)) }
{
    if !arguments.block {
        return Ok(NlmStatus::Denied);
    }
    if locks.is_waiting(arguments.exclusive, &arguments.lock) {
        return Ok(NlmStatus::Blocked);
    }
    let file = &place.file.known;
    let Some(number) = next_number(draft, file.number)? else {
        return Ok(NlmStatus::DeniedNoLocks);
    };
    let alloc = draft.alloc();
    let request = LockRequest::new(
        alloc,
        number,
        &draft.ctx().host,
        arguments.exclusive,
        &arguments.lock,
        by_message,
    )?;
    let longer = locks.with_waiting(alloc, request)?;
    let waiting = LockedFile::new(alloc, file.number, file.export, longer)?;
    set_locks_spending(draft, waiting, number)?;
    Ok(NlmStatus::Blocked)
}
