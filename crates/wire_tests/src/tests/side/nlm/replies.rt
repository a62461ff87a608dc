//! Results.

ghost use Rattle.side_wire.specs.Nlm.{HasNlmForm};

use super::super::{COOKIE, HOLDER, Told, result, test_result};
use crate::tests::{behind_a_byte, has_written, joined};
use side_wire::{NlmReply, NlmStatus, nlm};
use std::alloc::Global;
use std::process::Abort;
use std::test::Fail;

/// The reply to a procedure that has no result.
fn void(procedure: u32) -> NlmReply
    ensures { HasNlmForm result }
{
    match procedure {
        0 => NlmReply::Null,
        6 => NlmReply::TestMsg,
        7 => NlmReply::LockMsg,
        8 => NlmReply::CancelMsg,
        9 => NlmReply::UnlockMsg,
        10 => NlmReply::GrantedMsg,
        11 => NlmReply::TestRes,
        12 => NlmReply::LockRes,
        13 => NlmReply::CancelRes,
        14 => NlmReply::UnlockRes,
        15 => NlmReply::GrantedRes,
        _ => NlmReply::FreeAll,
    }
}

fn result_of(procedure: u32, status: NlmStatus) -> NlmReply
    ensures { HasNlmForm result }
{
    match procedure {
        2 => NlmReply::Lock(result(status)),
        3 => NlmReply::Cancel(result(status)),
        4 => NlmReply::Unlock(result(status)),
        5 => NlmReply::Granted(result(status)),
        20 => NlmReply::Share(result(status)),
        21 => NlmReply::Unshare(result(status)),
        _ => NlmReply::NmLock(result(status)),
    }
}

/// The reply to a procedure.
fn reply_of(procedure: u32, told: Told) -> NlmReply
    ensures { HasNlmForm result }
{
    match told {
        Told::Nothing => void(procedure),
        Told::Status(status) => result_of(procedure, status),
        Told::Test(number) => NlmReply::Test(test_result(number)),
    }
}

/// A procedure, the words of its result in two parts, and what it tells.
struct Writing(u32, &'static [u32], &'static [u32], Told);

/// Whether the words are written of the reply.
fn is_written(alloc: Global, writing: &Writing) -> Result<bool, Fail> {
    let reply = reply_of(writing.0, writing.3);
    let is_written = is_result(alloc, writing, &reply);
    drop(reply);
    is_written
}

/// The same of a reply that is lent.
fn is_result(alloc: Global, writing: &Writing, reply: &NlmReply) -> Result<bool, Fail>
    requires { HasNlmForm reply.now }
{
    let expected = joined(alloc, writing.1, writing.2, &[])?;
    let mut writer = behind_a_byte(alloc)?;
    nlm::write_result(&mut writer, reply)?;
    Ok(has_written(writer, expected.as_slice()))
}

/// The words are written of those replies.
fn are_written(rt: &(impl Abort + AllocGlobal), writings: &[Writing]) -> Result<(), Fail> {
    for writing in writings {
        assert!(rt;
            is_written(rt.alloc(), writing)?,
            "{} {:?}",
            writing.0,
            writing.2
        );
    }
    Ok(())
}

/// NULL and FREE_ALL, messages, and results of messages.
#[test]
fn twelve_procedures_have_no_result(rt: HostRuntime) -> Result<(), Fail> {
    are_written(
        &rt,
        &[
            Writing(0, &[], &[], Told::Nothing),
            Writing(6, &[], &[], Told::Nothing),
            Writing(7, &[], &[], Told::Nothing),
            Writing(8, &[], &[], Told::Nothing),
            Writing(9, &[], &[], Told::Nothing),
            Writing(10, &[], &[], Told::Nothing),
            Writing(11, &[], &[], Told::Nothing),
            Writing(12, &[], &[], Told::Nothing),
            Writing(13, &[], &[], Told::Nothing),
            Writing(14, &[], &[], Told::Nothing),
            Writing(15, &[], &[], Told::Nothing),
            Writing(23, &[], &[], Told::Nothing),
        ],
    )
}

#[test]
fn statuses_have_their_numbers(rt: HostRuntime) -> Result<(), Fail> {
    are_written(
        &rt,
        &[
            Writing(2, &COOKIE, &[0], Told::Status(NlmStatus::Granted)),
            Writing(2, &COOKIE, &[1], Told::Status(NlmStatus::Denied)),
            Writing(2, &COOKIE, &[2], Told::Status(NlmStatus::DeniedNoLocks)),
            Writing(2, &COOKIE, &[3], Told::Status(NlmStatus::Blocked)),
            Writing(2, &COOKIE, &[4], Told::Status(NlmStatus::DeniedGracePeriod)),
            Writing(2, &COOKIE, &[5], Told::Status(NlmStatus::Deadlock)),
            Writing(2, &COOKIE, &[6], Told::Status(NlmStatus::ReadOnly)),
            Writing(2, &COOKIE, &[7], Told::Status(NlmStatus::StaleHandle)),
            Writing(2, &COOKIE, &[8], Told::Status(NlmStatus::FileTooBig)),
            Writing(2, &COOKIE, &[9], Told::Status(NlmStatus::Failed)),
        ],
    )
}

/// Those of a share have a sequence too.
#[test]
fn results_are_written(rt: HostRuntime) -> Result<(), Fail> {
    are_written(
        &rt,
        &[
            Writing(3, &COOKIE, &[1], Told::Status(NlmStatus::Denied)),
            Writing(4, &COOKIE, &[0], Told::Status(NlmStatus::Granted)),
            Writing(5, &COOKIE, &[1], Told::Status(NlmStatus::Denied)),
            Writing(22, &COOKIE, &[3], Told::Status(NlmStatus::Blocked)),
            Writing(20, &COOKIE, &[0, 0], Told::Status(NlmStatus::Granted)),
            Writing(21, &COOKIE, &[7, 0], Told::Status(NlmStatus::StaleHandle)),
        ],
    )
}

/// A TEST that is denied has a holder.
#[test]
fn statuses_of_a_test_have_their_numbers(rt: HostRuntime) -> Result<(), Fail> {
    are_written(
        &rt,
        &[
            Writing(1, &COOKIE, &[0], Told::Test(0)),
            Writing(1, &[2, 0x6162_0000, 1], &HOLDER, Told::Test(1)),
            Writing(1, &COOKIE, &[2], Told::Test(2)),
            Writing(1, &COOKIE, &[3], Told::Test(3)),
            Writing(1, &COOKIE, &[4], Told::Test(4)),
            Writing(1, &COOKIE, &[5], Told::Test(5)),
            Writing(1, &COOKIE, &[6], Told::Test(6)),
            Writing(1, &COOKIE, &[7], Told::Test(7)),
            Writing(1, &COOKIE, &[8], Told::Test(8)),
            Writing(1, &COOKIE, &[9], Told::Test(9)),
        ],
    )
}
