//! MOUNT version 3 and NLM version 4 (RFC 1813, appendices I and II), and the calls that the server makes.

ghost use Rattle.side_wire.specs.Messages.{HasLockForm};
ghost use Rattle.side_wire.specs.Nlm.{HasResultForm, HasTestResultForm, HasTestStatusForm, IsNetobj};

mod messages;
mod mount;
mod nlm;

use bytes::Bytes;
use side_wire::{LockHolder, NlmLock, NlmResult, NlmStatus, TestResult, TestStatus};

/// What a result tells.
#[derive(Clone, Copy)]
enum Told {
    Nothing,
    Status(NlmStatus),
    /// The status of a TEST, by its number.
    Test(u32),
}

fn cookie() -> Bytes
    ensures { IsNetobj result }
{
    Bytes::from_static(b"ab")
}

/// The words of this cookie.
const COOKIE: [u32; 2] = [2, 0x6162_0000];

fn lock() -> NlmLock
    ensures { HasLockForm result }
{
    NlmLock {
        caller_name: Bytes::from_static(b"host"),
        file: Bytes::from_static(b"abc"),
        owner: Bytes::from_static(b"o"),
        process: -2,
        offset: 0x1_0000_0002,
        length: 10,
    }
}

/// The words of this lock.
const LOCK: [u32; 11] = [
    4,
    0x686f_7374,
    3,
    0x6162_6300,
    1,
    0x6f00_0000,
    0xffff_fffe,
    1,
    2,
    0,
    10,
];

fn holder() -> LockHolder
    ensures { IsNetobj result.owner }
{
    LockHolder {
        exclusive: true,
        process: 7,
        owner: Bytes::from_static(b"o"),
        offset: 0x3_0000_0004,
        length: 5,
    }
}

/// The words of this holder.
const HOLDER: [u32; 8] = [1, 7, 1, 0x6f00_0000, 3, 4, 0, 5];

/// The result of a call with that cookie.
fn result(status: NlmStatus) -> NlmResult
    ensures { HasResultForm result }
{
    NlmResult {
        cookie: cookie(),
        status,
    }
}

/// The result of a TEST with that cookie, and that holder where it is denied.
fn test_result(number: u32) -> TestResult
    ensures { HasTestResultForm result }
{
    TestResult {
        cookie: cookie(),
        status: test_status(number),
    }
}

fn test_status(number: u32) -> TestStatus
    ensures { HasTestStatusForm result }
{
    match number {
        0 => TestStatus::Granted,
        1 => TestStatus::Denied(holder()),
        2 => TestStatus::DeniedNoLocks,
        3 => TestStatus::Blocked,
        4 => TestStatus::DeniedGracePeriod,
        5 => TestStatus::Deadlock,
        6 => TestStatus::ReadOnly,
        7 => TestStatus::StaleHandle,
        8 => TestStatus::FileTooBig,
        _ => TestStatus::Failed,
    }
}
