//! How many bytes messages are sent in (RFC 5531, 9; RFC 1813, appendix II, 6.1.4), and how many exports have.

ghost use Rattle.std.specs.Prelude.{◌≡◌, ◌-◌, ◌^◌, length, map, min, sum_by};
ghost use Rattle.nfs_xdr.specs.Writing.{write};
ghost use Rattle.side_wire.specs.Messages.{HasCallbackForm, HasLockForm, HasTestArgumentsForm};
ghost use Rattle.side_wire.specs.Messages.{callback_arguments, message_bytes};
ghost use Rattle.side_wire.specs.Nlm.{HasResultForm, HasTestResultForm, IsNetobj};
ghost use Rattle.side_wire.specs.NlmTypes.{lock_value, netobj, nlm4_lock, nlm4_res, nlm4_testargs, nlm4_testres};
ghost use Rattle.side_wire.specs.NlmTypes.{result_value, test_result_value, test_value};
ghost use Rattle.nfs_machine.specs.Exports.{export_value};
ghost use Rattle.nfs_engine.specs.Commits.{export_bytes};
ghost use Rattle.nfs_engine.specs.Posting.{HaveForms, posted_bytes};

use bytes::Bytes;
use nfs_machine::Export;
use side_wire::{Callback, Message, NlmLock, NlmResult, TestArguments, TestResult, TestStatus};

/// The header of a call with AUTH_NONE (RFC 5531, 9): ten words.
const HEADER: u64 = 40;

/// A word, and so a boolean or a status.
const WORD: u64 = 4;

/// An offset or a length.
const HYPER: u64 = 8;

/// How many bytes the paths and the hosts of exports have; 2^64 - 1 where there are more.
pub(crate) fn exports_size(exports: &[Export]) -> u64
    ensures { result ≡ min (sum_by export_bytes (map export_value exports.now)) (2 ^ 64 - 1) }
{
    let mut size = 0u64;
    for export in exports {
        size = size.saturating_add(export_size(export));
    }
    size
}

/// The same of one export.
fn export_size(export: &Export) -> u64
    ensures { result ≡ min (export_bytes (export_value export.now)) (2 ^ 64 - 1) }
{
    (export.path.len() as u64).saturating_add(texts_size(&export.hosts))
}

/// How many bytes texts have together; 2^64 - 1 where there are more.
fn texts_size(texts: &[Bytes]) -> u64
    ensures { result ≡ min (sum_by length texts.now) (2 ^ 64 - 1) }
{
    let mut size = 0u64;
    for text in texts {
        size = size.saturating_add(text.len() as u64);
    }
    size
}

/// How many bytes the messages have together; 2^64 - 1 where there are more.
pub(crate) fn messages_size(messages: &[Message]) -> u64
    ensures { HaveForms messages.now → result ≡ min (posted_bytes messages.now) (2 ^ 64 - 1) }
{
    let mut size = 0u64;
    for message in messages {
        size = size.saturating_add(message_size(message));
    }
    size
}

/// How many bytes the call of a message has, whatever its transaction id.
fn message_size(message: &Message) -> u64
    ensures { HasCallbackForm message.now.call → result ≡ length (message_bytes 0 message.now) }
{
    HEADER.saturating_add(arguments_size(&message.call))
}

fn arguments_size(call: &Callback) -> u64
    ensures { HasCallbackForm call.now →
        result ≡ length (write (callback_arguments call.now).0 (callback_arguments call.now).1) }
{
    match call {
        Callback::Granted(arguments) | Callback::GrantedMsg(arguments) => granted_size(arguments),
        Callback::TestRes(tested) => tested_size(tested),
        Callback::LockRes(answer)
        | Callback::CancelRes(answer)
        | Callback::UnlockRes(answer)
        | Callback::GrantedRes(answer) => answer_size(answer),
    }
}

/// Of the arguments of GRANTED (`nlm4_testargs`).
fn granted_size(arguments: &TestArguments) -> u64
    ensures { HasTestArgumentsForm arguments.now →
        result ≡ length (write nlm4_testargs (test_value arguments.now)) }
{
    opaque_size(&arguments.cookie)
        .saturating_add(WORD)
        .saturating_add(lock_size(&arguments.lock))
}

/// Of a lock (`nlm4_lock`).
fn lock_size(lock: &NlmLock) -> u64
    ensures { HasLockForm lock.now → result ≡ length (write nlm4_lock (lock_value lock.now)) }
{
    opaque_size(&lock.caller_name)
        .saturating_add(opaque_size(&lock.file))
        .saturating_add(opaque_size(&lock.owner))
        .saturating_add(WORD + HYPER + HYPER)
}

/// Of the result of TEST (`nlm4_testres`).
fn tested_size(tested: &TestResult) -> u64
    ensures { HasTestResultForm tested.now →
        result ≡ length (write nlm4_testres (test_result_value tested.now)) }
{
    let size = opaque_size(&tested.cookie).saturating_add(WORD);
    match &tested.status {
        TestStatus::Denied(holder) => size
            .saturating_add(opaque_size(&holder.owner))
            .saturating_add(WORD + WORD + HYPER + HYPER),
        _ => size,
    }
}

/// Of any other result (`nlm4_res`).
fn answer_size(answer: &NlmResult) -> u64
    ensures { HasResultForm answer.now → result ≡ length (write nlm4_res (result_value answer.now)) }
{
    opaque_size(&answer.cookie).saturating_add(WORD)
}

/// Of bytes behind their length, filled up to whole words (RFC 4506, 4.10).
fn opaque_size(bytes: &Bytes) -> u64
    ensures { IsNetobj bytes.now → result ≡ length (write netobj bytes.now) }
{
    let words = (bytes.len() as u64).div_ceil(WORD);
    words.saturating_mul(WORD).saturating_add(WORD)
}
