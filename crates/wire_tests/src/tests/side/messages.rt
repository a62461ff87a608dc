//! Calls that the server makes, and what they are answered.

ghost use Rattle.side_wire.specs.Messages.{HasCallbackForm, HasTestArgumentsForm};

use super::{COOKIE, HOLDER, LOCK, Told, lock, result, test_result};
use crate::tests::arguments::{Format, Garbage, all_are_garbage, fronts_are_garbage};
use crate::tests::{BEHIND, behind_a_byte, has_written, joined, record};
use bytes::Bytes;
use nfs_xdr::SharedReader;
use side_wire::{
    Callback, Message, NlmStatus, TestArguments, callbacks_are_calls, read_granted_result,
    write_message,
};
use std::alloc::Global;
use std::process::Abort;
use std::test::Fail;

fn arguments() -> TestArguments
    ensures { HasTestArgumentsForm result }
{
    TestArguments {
        cookie: Bytes::from_static(b"\0\0\0\x01\0\0\0\x02"),
        exclusive: true,
        lock: lock(),
    }
}

/// The callback of this procedure.
fn callback(procedure: u32, told: Told) -> Callback
    ensures { HasCallbackForm result }
{
    match told {
        Told::Nothing => granted(procedure),
        Told::Status(status) => result_of(procedure, status),
        Told::Test(number) => Callback::TestRes(test_result(number)),
    }
}

fn granted(procedure: u32) -> Callback
    ensures { HasCallbackForm result }
{
    match procedure {
        5 => Callback::Granted(arguments()),
        _ => Callback::GrantedMsg(arguments()),
    }
}

fn result_of(procedure: u32, status: NlmStatus) -> Callback
    ensures { HasCallbackForm result }
{
    match procedure {
        12 => Callback::LockRes(result(status)),
        13 => Callback::CancelRes(result(status)),
        14 => Callback::UnlockRes(result(status)),
        _ => Callback::GrantedRes(result(status)),
    }
}

/// The callback as a message to a host.
fn message(procedure: u32, told: Told) -> Message
    ensures { HasCallbackForm result.call }
{
    Message {
        host: Bytes::from_static(b"host"),
        call: callback(procedure, told),
    }
}

/// The procedure of a callback, the words of its arguments in two parts, and what it tells.
struct Sending(u32, &'static [u32], &'static [u32], Told);

/// Whether the callback is written as a call of the procedure with the words as arguments.
fn is_written(alloc: Global, sending: &Sending) -> Result<bool, Fail> {
    let message = message(sending.0, sending.3);
    let is_written = is_message(alloc, sending, &message);
    drop(message);
    is_written
}

/// The same of a message that is lent.
fn is_message(alloc: Global, sending: &Sending, message: &Message) -> Result<bool, Fail>
    requires { HasCallbackForm message.now.call }
{
    let header = [0x1234_5678, 0, 2, 100021, 4, sending.0, 0, 0, 0, 0];
    let expected = joined(alloc, &header, sending.1, sending.2)?;
    let mut writer = behind_a_byte(alloc)?;
    write_message(&mut writer, 0x1234_5678, message)?;
    Ok(has_written(writer, expected.as_slice()))
}

/// The callbacks are written so.
fn are_written(rt: &(impl Abort + AllocGlobal), sendings: &[Sending]) -> Result<(), Fail> {
    for sending in sendings {
        assert!(rt;
            is_written(rt.alloc(), sending)?,
            "{} {:?}",
            sending.0,
            sending.2
        );
    }
    Ok(())
}

#[test]
fn callbacks_are_written(rt: HostRuntime) -> Result<(), Fail> {
    callbacks_are_calls();
    are_written(
        &rt,
        &[
            Sending(5, &[8, 1, 2, 1], &LOCK, Told::Nothing),
            Sending(10, &[8, 1, 2, 1], &LOCK, Told::Nothing),
            Sending(11, &[2, 0x6162_0000, 1], &HOLDER, Told::Test(1)),
            Sending(11, &COOKIE, &[0], Told::Test(0)),
            Sending(12, &COOKIE, &[3], Told::Status(NlmStatus::Blocked)),
            Sending(13, &COOKIE, &[1], Told::Status(NlmStatus::Denied)),
            Sending(14, &COOKIE, &[0], Told::Status(NlmStatus::Granted)),
            Sending(15, &COOKIE, &[1], Told::Status(NlmStatus::Denied)),
        ],
    )
}

/// An answer as words in two parts, its cookie and its status.
struct Answer(&'static [u32], &'static [u32], &'static [u8], NlmStatus);

/// Whether the bytes are read as this answer.
fn is_answer(alloc: Global, bytes: &[u8], answer: &Answer) -> Result<bool, Fail> {
    let record = record(alloc, bytes)?;
    Ok(match read_granted_result(SharedReader::new(&record)) {
        Ok(read) => read.cookie.as_slice() == answer.2 && read.status == answer.3,
        Err(_) => false,
    })
}

/// Whether the words are read as the answer, with nothing and with bytes behind them, and every shorter front is
/// garbage.
fn is_read(alloc: Global, answer: &Answer) -> Result<bool, Fail> {
    let mut bytes = joined(alloc, answer.0, answer.1, &[])?;
    if !fronts_are_garbage(alloc, Format::Granted, bytes.as_slice())?
        || !is_answer(alloc, bytes.as_slice(), answer)?
    {
        return Ok(false);
    }
    bytes.extend_from_slice(&BEHIND)?;
    is_answer(alloc, bytes.as_slice(), answer)
}

/// The words are read as those answers.
fn are_read(rt: &(impl Abort + AllocGlobal), answers: &[Answer]) -> Result<(), Fail> {
    for answer in answers {
        assert!(rt; is_read(rt.alloc(), answer)?, "{:?}", answer.1);
    }
    Ok(())
}

/// A cookie has at most 1024 bytes.
#[test]
fn an_answer_is_read(rt: HostRuntime) -> Result<(), Fail> {
    are_read(
        &rt,
        &[
            Answer(&COOKIE, &[0], b"ab", NlmStatus::Granted),
            Answer(&COOKIE, &[1], b"ab", NlmStatus::Denied),
            Answer(&COOKIE, &[9], b"ab", NlmStatus::Failed),
            Answer(&[1024], &[0; 257], &[0; 1024], NlmStatus::Granted),
        ],
    )
}

#[test]
fn other_answers_are_garbage(rt: HostRuntime) -> Result<(), Fail> {
    all_are_garbage(
        &rt,
        &[
            Garbage(Format::Granted, &COOKIE, &[10], &[]),
            Garbage(Format::Granted, &[1025], &[0; 258], &[]),
        ],
    )
}

/// Whether the message can be copied.
fn is_copied(message: Message) -> bool {
    message.clone().is_ok()
}

#[test]
fn a_message_is_copied(rt: HostRuntime) {
    assert!(rt; is_copied(message(5, Told::Nothing)));
}
