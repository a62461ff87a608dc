//! Arguments.

use super::super::{COOKIE, HOLDER, LOCK, cookie, lock, result, test_result};
use crate::tests::arguments::{Format, fronts_are_garbage};
use crate::tests::{BEHIND, joined, record};
use bytes::Bytes;
use nfs_xdr::SharedReader;
use side_wire::{
    CancelArguments, FreeAllArguments, LockArguments, NlmCall, NlmResult, NlmShare, NlmStatus,
    ShareAccess, ShareArguments, ShareMode, TestArguments, UnlockArguments, nlm,
};
use std::alloc::Global;
use std::process::Abort;
use std::test::Fail;

/// What arguments are read as. But for a result it is the lock or the share of these tests, where the procedure has
/// one.
#[derive(Clone, Copy)]
enum Arguments {
    Nothing,
    Lock,
    /// The result of a call.
    Result(NlmStatus),
    /// The result of a TEST, by the number of its status.
    Test(u32),
    /// The result of LOCK_MSG behind a cookie of 1024 bytes.
    LongCookie(NlmStatus),
    Share(ShareMode, ShareAccess),
    FreeAll,
}

/// The words of a procedure's arguments in three parts, and what they are read as.
struct Reading(
    u32,
    &'static [u32],
    &'static [u32],
    &'static [u32],
    Arguments,
);

fn tested() -> TestArguments {
    TestArguments {
        cookie: cookie(),
        exclusive: true,
        lock: lock(),
    }
}

fn locked() -> LockArguments {
    LockArguments {
        cookie: cookie(),
        block: true,
        exclusive: false,
        lock: lock(),
        reclaim: true,
        state: -3,
    }
}

fn cancelled() -> CancelArguments {
    CancelArguments {
        cookie: cookie(),
        block: true,
        exclusive: false,
        lock: lock(),
    }
}

fn unlocked() -> UnlockArguments {
    UnlockArguments {
        cookie: cookie(),
        lock: lock(),
    }
}

fn shared(mode: ShareMode, access: ShareAccess) -> ShareArguments {
    ShareArguments {
        cookie: cookie(),
        share: NlmShare {
            caller_name: Bytes::from_static(b"host"),
            file: Bytes::from_static(b"abc"),
            owner: Bytes::from_static(b"o"),
            mode,
            access,
        },
        reclaim: true,
    }
}

fn on_a_lock(procedure: u32) -> NlmCall {
    match procedure {
        1 => NlmCall::Test(tested()),
        2 => NlmCall::Lock(locked()),
        3 => NlmCall::Cancel(cancelled()),
        4 => NlmCall::Unlock(unlocked()),
        5 => NlmCall::Granted(tested()),
        6 => NlmCall::TestMsg(tested()),
        7 => NlmCall::LockMsg(locked()),
        8 => NlmCall::CancelMsg(cancelled()),
        9 => NlmCall::UnlockMsg(unlocked()),
        10 => NlmCall::GrantedMsg(tested()),
        _ => NlmCall::NmLock(locked()),
    }
}

fn result_of(procedure: u32, status: NlmStatus) -> NlmCall {
    match procedure {
        12 => NlmCall::LockRes(result(status)),
        13 => NlmCall::CancelRes(result(status)),
        14 => NlmCall::UnlockRes(result(status)),
        _ => NlmCall::GrantedRes(result(status)),
    }
}

fn long_cookie(status: NlmStatus) -> NlmCall {
    NlmCall::LockRes(NlmResult {
        cookie: Bytes::from_static(&[7; 1024]),
        status,
    })
}

fn on_a_share(procedure: u32, mode: ShareMode, access: ShareAccess) -> NlmCall {
    match procedure {
        20 => NlmCall::Share(shared(mode, access)),
        _ => NlmCall::Unshare(shared(mode, access)),
    }
}

fn free_all() -> NlmCall {
    NlmCall::FreeAll(FreeAllArguments {
        name: Bytes::from_static(b"hostn"),
        state: 9,
    })
}

/// The call of the procedure with these arguments.
fn call_of(procedure: u32, arguments: Arguments) -> NlmCall {
    match arguments {
        Arguments::Nothing => NlmCall::Null,
        Arguments::Lock => on_a_lock(procedure),
        Arguments::Result(status) => result_of(procedure, status),
        Arguments::Test(number) => NlmCall::TestRes(test_result(number)),
        Arguments::LongCookie(status) => long_cookie(status),
        Arguments::Share(mode, access) => on_a_share(procedure, mode, access),
        Arguments::FreeAll => free_all(),
    }
}

/// Whether the bytes are read as the call.
fn is_call(alloc: Global, procedure: u32, bytes: &[u8], call: &NlmCall) -> Result<bool, Fail> {
    let record = record(alloc, bytes)?;
    let read = nlm::read_args(procedure, SharedReader::new(&record));
    let is_call = matches!(&read, Ok(read) if read == call);
    drop(read);
    Ok(is_call)
}

/// Whether the words are read as that call, with nothing and with bytes behind them, and every shorter front is
/// garbage.
fn is_read(alloc: Global, reading: &Reading) -> Result<bool, Fail> {
    let call = call_of(reading.0, reading.4);
    let is_read = is_read_as(alloc, reading, &call);
    drop(call);
    is_read
}

/// The same of a call that is lent.
fn is_read_as(alloc: Global, reading: &Reading, call: &NlmCall) -> Result<bool, Fail> {
    let Reading(procedure, front, middle, back, _) = reading;
    let mut bytes = joined(alloc, front, middle, back)?;
    if !fronts_are_garbage(alloc, Format::Nlm(*procedure), bytes.as_slice())?
        || !is_call(alloc, *procedure, bytes.as_slice(), call)?
    {
        return Ok(false);
    }
    bytes.extend_from_slice(&BEHIND)?;
    is_call(alloc, *procedure, bytes.as_slice(), call)
}

/// The words are read as those calls.
fn are_read(rt: &(impl Abort + AllocGlobal), readings: &[Reading]) -> Result<(), Fail> {
    for reading in readings {
        assert!(rt;
            is_read(rt.alloc(), reading)?,
            "{} {:?}",
            reading.0,
            reading.3
        );
    }
    Ok(())
}

#[test]
fn a_call_of_no_arguments_is_read(rt: HostRuntime) -> Result<(), Fail> {
    nlm::one_call_is_spelled();
    are_read(&rt, &[Reading(0, &[], &[], &[], Arguments::Nothing)])
}

#[test]
fn calls_on_a_lock_are_read(rt: HostRuntime) -> Result<(), Fail> {
    /// The words of the cookie, block and not exclusive.
    const BLOCKING: [u32; 4] = [2, 0x6162_0000, 1, 0];
    /// The words of reclaim and state.
    const STATE: [u32; 2] = [1, 0xffff_fffd];
    are_read(
        &rt,
        &[
            Reading(1, &COOKIE, &[1], &LOCK, Arguments::Lock),
            Reading(2, &BLOCKING, &LOCK, &STATE, Arguments::Lock),
            Reading(3, &BLOCKING, &LOCK, &[], Arguments::Lock),
            Reading(4, &COOKIE, &LOCK, &[], Arguments::Lock),
            Reading(5, &COOKIE, &[1], &LOCK, Arguments::Lock),
            Reading(6, &COOKIE, &[1], &LOCK, Arguments::Lock),
            Reading(7, &BLOCKING, &LOCK, &STATE, Arguments::Lock),
            Reading(8, &BLOCKING, &LOCK, &[], Arguments::Lock),
            Reading(9, &COOKIE, &LOCK, &[], Arguments::Lock),
            Reading(10, &COOKIE, &[1], &LOCK, Arguments::Lock),
            Reading(22, &BLOCKING, &LOCK, &STATE, Arguments::Lock),
        ],
    )
}

/// A cookie's padding is any bytes, and it has up to 1024 bytes.
#[test]
fn results_are_read(rt: HostRuntime) -> Result<(), Fail> {
    const DENIED: Arguments = Arguments::Result(NlmStatus::Denied);
    are_read(
        &rt,
        &[
            Reading(12, &COOKIE, &[1], &[], DENIED),
            Reading(13, &COOKIE, &[1], &[], DENIED),
            Reading(14, &COOKIE, &[1], &[], DENIED),
            Reading(15, &COOKIE, &[1], &[], DENIED),
            Reading(12, &[2, 0x6162_01ff], &[1], &[], DENIED),
            Reading(
                12,
                &[1024],
                &[0x0707_0707; 256],
                &[9],
                Arguments::LongCookie(NlmStatus::Failed),
            ),
        ],
    )
}

#[test]
fn statuses_have_their_numbers(rt: HostRuntime) -> Result<(), Fail> {
    are_read(
        &rt,
        &[
            Reading(
                12,
                &COOKIE,
                &[0],
                &[],
                Arguments::Result(NlmStatus::Granted),
            ),
            Reading(
                12,
                &COOKIE,
                &[2],
                &[],
                Arguments::Result(NlmStatus::DeniedNoLocks),
            ),
            Reading(
                12,
                &COOKIE,
                &[3],
                &[],
                Arguments::Result(NlmStatus::Blocked),
            ),
            Reading(
                12,
                &COOKIE,
                &[4],
                &[],
                Arguments::Result(NlmStatus::DeniedGracePeriod),
            ),
            Reading(
                12,
                &COOKIE,
                &[5],
                &[],
                Arguments::Result(NlmStatus::Deadlock),
            ),
            Reading(
                12,
                &COOKIE,
                &[6],
                &[],
                Arguments::Result(NlmStatus::ReadOnly),
            ),
            Reading(
                12,
                &COOKIE,
                &[7],
                &[],
                Arguments::Result(NlmStatus::StaleHandle),
            ),
            Reading(
                12,
                &COOKIE,
                &[8],
                &[],
                Arguments::Result(NlmStatus::FileTooBig),
            ),
            Reading(12, &COOKIE, &[9], &[], Arguments::Result(NlmStatus::Failed)),
        ],
    )
}

/// A TEST that is denied has a holder.
#[test]
fn statuses_of_a_test_have_their_numbers(rt: HostRuntime) -> Result<(), Fail> {
    are_read(
        &rt,
        &[
            Reading(11, &COOKIE, &[0], &[], Arguments::Test(0)),
            Reading(11, &COOKIE, &[1], &HOLDER, Arguments::Test(1)),
            Reading(11, &COOKIE, &[2], &[], Arguments::Test(2)),
            Reading(11, &COOKIE, &[3], &[], Arguments::Test(3)),
            Reading(11, &COOKIE, &[4], &[], Arguments::Test(4)),
            Reading(11, &COOKIE, &[5], &[], Arguments::Test(5)),
            Reading(11, &COOKIE, &[6], &[], Arguments::Test(6)),
            Reading(11, &COOKIE, &[7], &[], Arguments::Test(7)),
            Reading(11, &COOKIE, &[8], &[], Arguments::Test(8)),
            Reading(11, &COOKIE, &[9], &[], Arguments::Test(9)),
        ],
    )
}

/// The words of a share of the lock's caller, file and owner, but for its mode and access.
pub(super) const SHARED: [u32; 6] = [4, 0x686f_7374, 3, 0x6162_6300, 1, 0x6f00_0000];

#[test]
fn modes_and_accesses_have_their_numbers(rt: HostRuntime) -> Result<(), Fail> {
    use ShareAccess::*;
    use ShareMode::*;
    are_read(
        &rt,
        &[
            Reading(
                20,
                &COOKIE,
                &SHARED,
                &[2, 1, 1],
                Arguments::Share(DenyWrite, Read),
            ),
            Reading(
                21,
                &COOKIE,
                &SHARED,
                &[0, 2, 1],
                Arguments::Share(DenyNone, Write),
            ),
            Reading(
                20,
                &COOKIE,
                &SHARED,
                &[0, 0, 1],
                Arguments::Share(DenyNone, Neither),
            ),
            Reading(
                20,
                &COOKIE,
                &SHARED,
                &[1, 0, 1],
                Arguments::Share(DenyRead, Neither),
            ),
            Reading(
                20,
                &COOKIE,
                &SHARED,
                &[2, 0, 1],
                Arguments::Share(DenyWrite, Neither),
            ),
            Reading(
                20,
                &COOKIE,
                &SHARED,
                &[3, 0, 1],
                Arguments::Share(DenyReadWrite, Neither),
            ),
            Reading(
                20,
                &COOKIE,
                &SHARED,
                &[0, 1, 1],
                Arguments::Share(DenyNone, Read),
            ),
            Reading(
                20,
                &COOKIE,
                &SHARED,
                &[0, 2, 1],
                Arguments::Share(DenyNone, Write),
            ),
            Reading(
                20,
                &COOKIE,
                &SHARED,
                &[0, 3, 1],
                Arguments::Share(DenyNone, ReadWrite),
            ),
        ],
    )
}

/// Also with any padding.
#[test]
fn free_all_has_a_name_and_a_state(rt: HostRuntime) -> Result<(), Fail> {
    const NAME: [u32; 3] = [5, 0x686f_7374, 0x6e01_ff80];
    are_read(&rt, &[Reading(23, &NAME, &[9], &[], Arguments::FreeAll)])
}
