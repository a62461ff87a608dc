//! TEST and TEST_MSG (RFC 1813, appendix II, 6.2: procedures 1 and 6).

ghost use Rattle.std.specs.Prelude.{◌≡◌, ◌≤◌, ◌∷◌, [], IfOk, MatchResult};
ghost use Rattle.nfs_machine.specs.LockSteps.{TestEnds, length_shown};
ghost use Rattle.nfs_machine.specs.declared.calls.Call.TheVariants as calls;
ghost use Rattle.nfs_objects.specs.Attempt.{EndsCall, EndsFirst, HaltsFirst, first_wanted_with};
ghost use Rattle.nfs_objects.specs.Begins.{Begins};
ghost use Rattle.nfs_inodes.specs.Stops.{StopsAt};
ghost use Rattle.nlm_daemon.specs.Comes.{KnowsEnd, lock_places};
ghost use Rattle.nlm_daemon.specs.Holders.{holder_of};

use crate::answering::post;
use crate::checking::file_range;
use bytes::Bytes;
use nfs_inodes::locks_of;
use nfs_machine::Reply;
use nfs_objects::{Change, Draft, Missing};
use nlm_ranges::HeldLock;
use side_wire::{Callback, LockHolder, NlmCall, NlmReply, TestArguments, TestResult, TestStatus};
use std::alloc::AllocError;

/// Tries TEST: whether a lock could be had.
///
/// # Errors
///
/// `Need` of the exports, of what the handle names or of what the file has, and `Memory`.
pub(crate) fn attempt(draft: Draft<'_>, arguments: &TestArguments) -> Result<Change, Missing>
    requires { Begins (calls.Nlm (NlmCall.Test arguments.now)) draft }
    ensures ends { EndsCall (calls.Nlm (NlmCall.Test arguments.now)) draft.entry.ctx draft.entry.view result }
    ensures first { EndsFirst (calls.Nlm (NlmCall.Test arguments.now)) draft.entry.view result }
{
    let status = tested(&draft, arguments)?;
    let reply = NlmReply::Test(TestResult {
        cookie: arguments.cookie.clone()?,
        status,
    });
    Ok(draft.answer(Reply::Nlm(reply)))
}

/// Tries TEST_MSG: the same, with the result in a message.
///
/// # Errors
///
/// As `attempt`.
pub(crate) fn attempt_by_message(
    mut draft: Draft<'_>,
    arguments: &TestArguments,
) -> Result<Change, Missing>
    requires { Begins (calls.Nlm (NlmCall.TestMsg arguments.now)) draft }
    ensures ends { EndsCall (calls.Nlm (NlmCall.TestMsg arguments.now)) draft.entry.ctx draft.entry.view result }
    ensures first { EndsFirst (calls.Nlm (NlmCall.TestMsg arguments.now)) draft.entry.view result }
{
    let status = tested(&draft, arguments)?;
    let cookie = Bytes::copy_from_slice(draft.alloc(), arguments.cookie.as_slice())?;
    post(&mut draft, Callback::TestRes(TestResult { cookie, status }))?;
    Ok(draft.answer(Reply::Nlm(NlmReply::TestMsg)))
}

/// What TEST comes to. Where the lock could not be had, one is shown that stands in its way.
fn tested(draft: &Draft<'_>, arguments: &TestArguments) -> Result<TestStatus, Missing>
    requires { draft.now.writes ≡ [] }
    ensures ends { MatchResult result
        (KnowsEnd draft.now (λ m. TestEnds m draft.now.ctx arguments.now))
        (StopsAt draft.now (lock_places draft.now.view arguments.now.lock.file)) }
    ensures first { HaltsFirst draft.now.modes draft.now.view
        (first_wanted_with draft.now.view (arguments.now.lock.file ∷ [])) result }
{
    let place = match file_range(draft, &arguments.lock, false)? {
        Ok(place) => place,
        Err(fault) => return Ok(fault.test_status()),
    };
    let Some(locks) = locks_of(draft, place.file.known.number)? else {
        return Ok(TestStatus::Granted);
    };
    let Some(held) = locks.test(&place.range, arguments.exclusive) else {
        return Ok(TestStatus::Granted);
    };
    Ok(TestStatus::Denied(holder(held)?))
}

/// Who holds a lock, as it is shown to others.
fn holder(held: &HeldLock) -> Result<LockHolder, AllocError>
    requires { held.now.first ≤ held.now.last }
    ensures { IfOk result (λ holder. holder ≡ holder_of held.now) }
{
    Ok(LockHolder {
        exclusive: held.is_exclusive(),
        process: held.owner().process(),
        owner: held.owner().owner().clone()?,
        offset: held.first(),
        length: length_shown(held.first(), held.last()),
    })
}

/// The length of a range as it is shown: 0 where it runs to the last offset of all.
fn length_shown(first: u64, last: u64) -> u64
    requires { first ≤ last }
    ensures { result ≡ length_shown first last }
{
    if last == u64::MAX {
        return 0;
    }
    last - first + 1
}
