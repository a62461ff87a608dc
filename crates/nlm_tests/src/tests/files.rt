//! What waits for a file, what is granted, and what is answered.

use super::*;

/// A call, and how it must be answered.
#[derive(Clone, Copy)]
enum Call {
    /// LOCK, exclusive or shared, which is granted.
    Lock(bool),
    /// LOCK with `block`, which conflicts and waits under a number.
    Wait(bool, u64),
    /// LOCK with `block`, for which an equal request waits already.
    WaitStill(bool),
    /// CANCEL of an exclusive request, or of a shared one, which waits.
    Cancel(bool),
    /// CANCEL of a request that does not wait.
    CancelNone(bool),
    Unlock,
    /// GRANTED_RES of the grant under a number, which takes the lock.
    Take(u64),
    /// GRANTED_RES of the grant under a number, which gives the lock back.
    Deny(u64),
    /// GRANTED_RES with a number under which no grant is pending.
    AnswerNone(u64),
    Free,
}

/// The numbers of the requests that are granted, in order: at most three.
type Grants = (Option<u64>, Option<u64>, Option<u64>);

/// A call by a caller, and what it grants.
#[derive(Clone, Copy)]
struct Step {
    who: Who,
    call: Call,
    offset: u64,
    length: u64,
    grants: Grants,
}

const fn calls(who: Who, call: Call, offset: u64, length: u64) -> Step {
    Step {
        who,
        call,
        offset,
        length,
        grants: (None, None, None),
    }
}

impl Step {
    const fn granting(mut self, first: u64) -> Step {
        self.grants = (Some(first), None, None);
        self
    }

    const fn granting_both(mut self, first: u64, second: u64) -> Step {
        self.grants = (Some(first), Some(second), None);
        self
    }

    const fn granting_all(mut self, first: u64, second: u64, third: u64) -> Step {
        self.grants = (Some(first), Some(second), Some(third));
        self
    }
}

fn number_at(granted: &[Arc<LockRequest>], place: usize) -> Option<u64> {
    let request = granted.get(place)?;
    Some(request.number())
}

/// The file that settled, where these were granted; None where others were.
fn settled_by(settled: Settled, grants: Grants) -> Option<OneFile> {
    let Settled { file, granted } = settled;
    let is_so = granted.len() < 4
        && number_at(&granted, 0) == grants.0
        && number_at(&granted, 1) == grants.1
        && number_at(&granted, 2) == grants.2;
    drop(granted);
    if is_so {
        return Some(file);
    }
    drop(file);
    None
}

fn locked(
    alloc: Global,
    file: &OneFile,
    lock: &NlmLock,
    exclusive: bool,
) -> Result<Option<Settled>, AllocError> {
    let Some(range) = LockRange::of(lock) else {
        return Ok(None);
    };
    if file.test(&range, exclusive).is_some() {
        return Ok(None);
    }
    let left = file.without_pending_within(alloc, &range)?;
    let settled = left.set(alloc, &range, exclusive);
    drop(left);
    Ok(Some(settled?))
}

fn unlocked(alloc: Global, file: &OneFile, lock: &NlmLock) -> Result<Option<Settled>, AllocError> {
    let Some(range) = LockRange::of(lock) else {
        return Ok(None);
    };
    let left = file.without_pending_within(alloc, &range)?;
    let settled = left.clear(alloc, &range);
    drop(left);
    Ok(Some(settled?))
}

/// Whether the lock conflicts with one that is held, and whether an equal request waits for it as told.
fn is_held_up(file: &OneFile, lock: &NlmLock, exclusive: bool, waits: bool) -> bool {
    let Some(range) = LockRange::of(lock) else {
        return false;
    };
    file.test(&range, exclusive).is_some() && file.is_waiting(exclusive, lock) == waits
}

fn waiting(
    alloc: Global,
    file: &OneFile,
    lock: &NlmLock,
    exclusive: bool,
    number: u64,
) -> Result<Option<OneFile>, AllocError> {
    if LockRange::of(lock).is_none() || !is_held_up(file, lock, exclusive, false) {
        return Ok(None);
    }
    let host = Bytes::from_static(b"10.0.0.1");
    let request = LockRequest::new(alloc, number, &host, exclusive, lock, false)?;
    Ok(Some(file.with_waiting(alloc, request)?))
}

fn cancelled(
    alloc: Global,
    file: &OneFile,
    lock: &NlmLock,
    exclusive: bool,
) -> Result<Option<OneFile>, AllocError> {
    if !file.is_waiting(exclusive, lock) {
        return Ok(None);
    }
    Ok(Some(file.without_waiting(alloc, exclusive, lock)?))
}

fn taken(alloc: Global, file: &OneFile, number: u64) -> Result<Option<OneFile>, AllocError> {
    if file.pending().find(Going::Under(number)).is_none() {
        return Ok(None);
    }
    Ok(Some(file.without_pending(alloc, number)?))
}

/// The file where the grant under a number was given back.
fn denied(alloc: Global, file: &OneFile, number: u64) -> Result<Option<Settled>, AllocError> {
    let Some(request) = file.pending().find(Going::Under(number)) else {
        return Ok(None);
    };
    let without = file.without_pending(alloc, number)?;
    let settled = without.clear(alloc, &request.range());
    drop(without);
    Ok(Some(settled?))
}

fn freed(alloc: Global, file: &OneFile, lock: &NlmLock) -> Result<Option<Settled>, AllocError> {
    let freed = file.free(alloc, lock.caller_name.as_slice())?;
    let settled = freed.settle(alloc);
    drop(freed);
    Ok(Some(settled?))
}

/// The file after a call that grants nothing; None where it is not answered as it must be.
fn quietly(
    alloc: Global,
    file: &OneFile,
    lock: &NlmLock,
    call: Call,
) -> Result<Option<OneFile>, AllocError> {
    match call {
        Call::Wait(exclusive, number) => waiting(alloc, file, lock, exclusive, number),
        Call::WaitStill(exclusive) if is_held_up(file, lock, exclusive, true) => Ok(Some(
            file.clone()?,
        )),
        Call::Cancel(exclusive) => cancelled(alloc, file, lock, exclusive),
        Call::CancelNone(exclusive) if !file.is_waiting(exclusive, lock) => Ok(Some(file.clone()?)),
        Call::Take(number) => taken(alloc, file, number),
        Call::AnswerNone(number) if !file.pending().has(Going::Under(number)) => Ok(Some(
            file.clone()?,
        )),
        _ => Ok(None),
    }
}

/// The file after a call behind which what waits is tried.
fn trying(
    alloc: Global,
    file: &OneFile,
    lock: &NlmLock,
    call: Call,
) -> Result<Option<Settled>, AllocError> {
    match call {
        Call::Lock(exclusive) => locked(alloc, file, lock, exclusive),
        Call::Unlock => unlocked(alloc, file, lock),
        Call::Deny(number) => denied(alloc, file, number),
        Call::Free => freed(alloc, file, lock),
        _ => Ok(None),
    }
}

/// The file after a step; None where it is not answered, or does not grant, what it must.
fn stepped(
    alloc: Global,
    file: &OneFile,
    lock: &NlmLock,
    step: Step,
) -> Result<Option<OneFile>, AllocError> {
    match trying(alloc, file, lock, step.call)? {
        Some(settled) => Ok(settled_by(settled, step.grants)),
        None => quietly(alloc, file, lock, step.call),
    }
}

fn after_step(alloc: Global, file: &OneFile, step: Step) -> Result<Option<OneFile>, AllocError> {
    let asked = lock(step.who, step.offset, step.length);
    let after = stepped(alloc, file, &asked, step);
    drop(asked);
    after
}

/// Whether there are so many requests.
fn has_count(requests: &RequestList, count: usize) -> bool {
    let mut left = requests.iter();
    for _ in 0..count {
        if left.next().is_none() {
            return false;
        }
    }
    left.next().is_none()
}

/// Whether each of these calls is answered and grants as it must, and how many requests wait in the end and how many
/// grants are not answered.
fn end_with(
    alloc: Global,
    steps: &[Step],
    waiting: usize,
    pending: usize,
) -> Result<bool, AllocError> {
    let mut file = OneFile::new(alloc)?;
    let mut all = true;
    for step in steps {
        match after_step(alloc, &file, *step)? {
            Some(next) => file = next,
            None => all = false,
        }
    }
    let is_so = has_count(file.waiting(), waiting) && has_count(file.pending(), pending);
    drop(file);
    Ok(all && is_so)
}

#[test]
fn shared_requests_wait_and_are_granted(rt: HostRuntime) -> Result<(), AllocError> {
    assert!(rt;
        end_with(
            rt.alloc(),
            &[
                calls(Who::A, Call::Lock(true), 0, 0),
                calls(Who::B, Call::Wait(false, 64), 0, 0),
                calls(Who::C, Call::Wait(false, 128), 0, 0),
                calls(Who::D, Call::Wait(false, 192), 0, 0),
                calls(Who::C, Call::Cancel(false), 0, 0),
                calls(Who::C, Call::CancelNone(false), 0, 0),
                calls(Who::A, Call::Free, 0, 0).granting_both(64, 192),
                calls(Who::B, Call::Take(64), 0, 0),
            ],
            0,
            1,
        )?
    );
    Ok(())
}

#[test]
fn exclusive_requests_are_granted_one_by_one(rt: HostRuntime) -> Result<(), AllocError> {
    assert!(rt;
        end_with(
            rt.alloc(),
            &[
                calls(Who::A, Call::Lock(true), 0, 0),
                calls(Who::B, Call::Wait(true, 64), 0, 0),
                calls(Who::C, Call::Wait(true, 128), 0, 0),
                calls(Who::D, Call::Wait(true, 192), 0, 0),
                calls(Who::C, Call::CancelNone(false), 0, 0),
                calls(Who::C, Call::Cancel(true), 0, 0),
                calls(Who::A, Call::Free, 0, 0).granting(64),
                calls(Who::B, Call::Deny(64), 0, 0).granting(192),
                calls(Who::B, Call::AnswerNone(64), 0, 0),
            ],
            0,
            1,
        )?
    );
    Ok(())
}

#[test]
fn a_grant_makes_room_for_an_earlier_request(rt: HostRuntime) -> Result<(), AllocError> {
    assert!(rt;
        end_with(
            rt.alloc(),
            &[
                calls(Who::A, Call::Lock(true), 0, 10),
                calls(Who::C, Call::Lock(true), 10, 10),
                calls(Who::B, Call::Wait(false, 64), 0, 20),
                calls(Who::A, Call::Wait(false, 128), 0, 20),
                calls(Who::C, Call::Unlock, 10, 10).granting_both(128, 64),
            ],
            0,
            2,
        )?
    );
    Ok(())
}

#[test]
fn grants_make_room_from_the_last_request_to_the_first(rt: HostRuntime) -> Result<(), AllocError> {
    assert!(rt;
        end_with(
            rt.alloc(),
            &[
                calls(Who::A, Call::Lock(true), 0, 10),
                calls(Who::C, Call::Lock(true), 10, 10),
                calls(Who::D, Call::Lock(true), 20, 10),
                calls(Who::B, Call::Wait(false, 64), 0, 10),
                calls(Who::A, Call::Wait(false, 128), 0, 20),
                calls(Who::C, Call::Wait(false, 192), 10, 20),
                calls(Who::D, Call::Unlock, 20, 10).granting_all(192, 128, 64),
            ],
            0,
            3,
        )?
    );
    Ok(())
}

#[test]
fn requests_are_granted_in_order_of_arrival(rt: HostRuntime) -> Result<(), AllocError> {
    assert!(rt;
        end_with(
            rt.alloc(),
            &[
                calls(Who::A, Call::Lock(true), 0, 0),
                calls(Who::D, Call::Wait(false, 64), 0, 0),
                calls(Who::B, Call::Wait(true, 128), 5, 1),
                calls(Who::C, Call::Wait(false, 192), 0, 10),
                calls(Who::D, Call::Wait(false, 256), 0, 5),
                calls(Who::A, Call::Free, 0, 0).granting_all(64, 192, 256),
                calls(Who::C, Call::Unlock, 0, 0),
                calls(Who::D, Call::Unlock, 5, 1).granting(128),
            ],
            0,
            3,
        )?
    );
    Ok(())
}

#[test]
fn a_downgrade_grants_what_waits(rt: HostRuntime) -> Result<(), AllocError> {
    assert!(rt;
        end_with(
            rt.alloc(),
            &[
                calls(Who::A, Call::Lock(true), 0, 10),
                calls(Who::B, Call::Wait(false, 64), 0, 10),
                calls(Who::C, Call::Wait(true, 128), 0, 10),
                calls(Who::B, Call::WaitStill(false), 0, 10),
                calls(Who::A, Call::Lock(false), 0, 10).granting(64),
                calls(Who::A, Call::Unlock, 0, 10),
                calls(Who::B, Call::Unlock, 0, 5),
                calls(Who::B, Call::Unlock, 5, 5).granting(128),
            ],
            0,
            2,
        )?
    );
    Ok(())
}

#[test]
fn a_grant_ends_where_its_owner_locks_or_unlocks(rt: HostRuntime) -> Result<(), AllocError> {
    assert!(rt;
        end_with(
            rt.alloc(),
            &[
                calls(Who::A, Call::Lock(true), 0, 30),
                calls(Who::B, Call::Wait(true, 64), 0, 10),
                calls(Who::C, Call::Wait(true, 128), 10, 10),
                calls(Who::A, Call::Unlock, 0, 30).granting_both(64, 128),
                calls(Who::B, Call::Lock(true), 1, 9),
                calls(Who::C, Call::Unlock, 0, 10),
                calls(Who::B, Call::Lock(false), 0, 10),
                calls(Who::B, Call::AnswerNone(64), 0, 10),
                calls(Who::C, Call::Unlock, 10, 10),
                calls(Who::C, Call::AnswerNone(128), 10, 10),
            ],
            0,
            0,
        )?
    );
    Ok(())
}

#[test]
fn a_part_given_back_grants_no_more_than_fits(rt: HostRuntime) -> Result<(), AllocError> {
    assert!(rt;
        end_with(
            rt.alloc(),
            &[
                calls(Who::A, Call::Lock(true), 0, 100),
                calls(Who::B, Call::Wait(true, 64), 0, 100),
                calls(Who::C, Call::Wait(true, 128), 40, 10),
                calls(Who::A, Call::Unlock, 40, 20).granting(128),
                calls(Who::A, Call::Unlock, 0, 0),
                calls(Who::D, Call::Wait(false, 192), 45, 1),
                calls(Who::C, Call::Unlock, 40, 10).granting(64),
            ],
            1,
            1,
        )?
    );
    Ok(())
}

#[test]
fn a_caller_that_is_freed_waits_no_more(rt: HostRuntime) -> Result<(), AllocError> {
    assert!(rt;
        end_with(
            rt.alloc(),
            &[
                calls(Who::A, Call::Lock(true), 0, 0),
                calls(Who::B, Call::Wait(true, 64), 0, 0),
                calls(Who::C, Call::Wait(true, 128), 0, 0),
                calls(Who::D, Call::Wait(true, 192), 0, 0),
                calls(Who::B, Call::Free, 0, 0),
                calls(Who::A, Call::Unlock, 0, 0).granting(128),
                calls(Who::C, Call::Free, 0, 0).granting(192),
                calls(Who::C, Call::AnswerNone(128), 0, 0),
                calls(Who::D, Call::Take(192), 0, 0),
            ],
            0,
            0,
        )?
    );
    Ok(())
}

/// Whether a lock of these offsets can be asked for.
fn fits(offset: u64, length: u64) -> bool {
    let asked = lock(Who::A, offset, length);
    let fits = LockRange::of(&asked).is_some();
    drop(asked);
    fits
}

#[test]
fn ranges_end_at_the_last_offset(rt: HostRuntime) -> Result<(), AllocError> {
    assert!(rt; fits(u64::MAX, 1));
    assert!(rt; fits(u64::MAX, 0));
    assert!(rt; !fits(u64::MAX, 2));
    Ok(())
}

/// The file with a share, if it is not denied.
fn sharing(alloc: Global, file: &OneFile, share: &NlmShare) -> Result<Option<OneFile>, AllocError> {
    if file.is_denied(share) {
        return Ok(None);
    }
    Ok(Some(file.share(alloc, share)?))
}

/// Whether a share of a file without any is granted, denies the other, and is gone once it is given back or its caller
/// is freed.
fn is_shared_alone(
    alloc: Global,
    share: &NlmShare,
    other: &NlmShare,
    none: &OneFile,
) -> Result<bool, AllocError> {
    let Some(file) = sharing(alloc, none, share)? else {
        return Ok(false);
    };
    let is_held = !file.is_empty() && file.is_denied(other) && !file.is_denied(share);
    let unshared = file.unshare(alloc, share);
    let freed = file.free(alloc, share.caller_name.as_slice());
    drop(file);
    let is_unshared = is_nothing(unshared)?;
    Ok(is_held && is_unshared && is_nothing(freed)?)
}

fn is_nothing(file: Result<OneFile, AllocError>) -> Result<bool, AllocError> {
    let file = file?;
    let is_nothing = file.is_empty();
    drop(file);
    Ok(is_nothing)
}

fn are_shared_alone(alloc: Global) -> Result<bool, AllocError> {
    let none = OneFile::new(alloc)?;
    let reading = shares::share(Who::A, ShareMode::DenyWrite, ShareAccess::Read);
    let writing = shares::share(Who::B, ShareMode::DenyNone, ShareAccess::Write);
    let is_so = is_shared_alone(alloc, &reading, &writing, &none);
    let is_back = is_shared_alone(alloc, &writing, &reading, &none);
    drop(reading);
    drop(writing);
    drop(none);
    Ok(is_so? && is_back?)
}

#[test]
fn a_share_is_gone_once_it_is_given_back(rt: HostRuntime) -> Result<(), AllocError> {
    assert!(rt; are_shared_alone(rt.alloc())?);
    Ok(())
}

/// The file after a step. Where memory for it is refused, the file is the same as another, and the step is made again.
fn after_at_last(
    alloc: Global,
    file: &OneFile,
    same: &OneFile,
    step: Step,
) -> Result<Option<OneFile>, AllocError> {
    match after_step(alloc, file, step) {
        Ok(after) => Ok(after),
        Err(_) if file == same => after_step(alloc, file, step),
        Err(error) => Err(error),
    }
}

/// Two files after this step of two that are the same, the first of which is tried again where memory was refused; None
/// where they are not the same.
fn twice(
    alloc: Global,
    file: &OneFile,
    same: &OneFile,
    step: Step,
) -> Result<Option<(OneFile, OneFile)>, AllocError> {
    let Some(after) = after_at_last(alloc, file, same, step)? else {
        return Ok(None);
    };
    let Some(other) = after_at_last(alloc, same, file, step)? else {
        return Ok(None);
    };
    if after == other {
        return Ok(Some((after, other)));
    }
    Ok(None)
}

/// A file of which nothing was asked, asked for again where memory for it was refused.
fn new_at_last(alloc: Global) -> Result<OneFile, AllocError> {
    match OneFile::new(alloc) {
        Ok(file) => Ok(file),
        Err(_) => OneFile::new(alloc),
    }
}

/// Whether these steps are answered as they must be, each made again where memory for it was refused.
fn are_made_at_last(alloc: Global, steps: &[Step]) -> Result<bool, AllocError> {
    let mut file = new_at_last(alloc)?;
    let mut same = new_at_last(alloc)?;
    let mut all = true;
    for step in steps {
        match twice(alloc, &file, &same, *step)? {
            Some(next) => {
                file = next.0;
                same = next.1;
            }
            None => all = false,
        }
    }
    let is_so = has_count(file.pending(), 1);
    drop(file);
    drop(same);
    Ok(all && is_so)
}

#[test]
fn a_refused_call_leaves_the_file(rt: HostRuntime) -> Result<(), AllocError> {
    assert!(rt;
        are_made_at_last(
            rt.alloc(),
            &[
                calls(Who::A, Call::Lock(true), 0, 10),
                calls(Who::C, Call::Lock(true), 10, 10),
                calls(Who::B, Call::Wait(false, 64), 0, 20),
                calls(Who::A, Call::Wait(false, 128), 0, 20),
                calls(Who::D, Call::Wait(false, 192), 0, 20),
                calls(Who::D, Call::Cancel(false), 0, 20),
                calls(Who::C, Call::Unlock, 10, 10).granting_both(128, 64),
                calls(Who::A, Call::Take(128), 0, 20),
            ],
        )?
    );
    Ok(())
}
