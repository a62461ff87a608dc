//! What the server sends to a host of its own accord (RFC 1813, appendix II), and what it is answered.

ghost use Rattle.std.specs.Prelude.{◌≡◌, ◌++◌, IfOk, IfErr, IsErrOf, OnOk};
ghost use Rattle.nfs_xdr.specs.Laws.{IsItsSpelling};
ghost use Rattle.nfs_xdr.specs.Types.{HasSpelling};
ghost use Rattle.nfs_xdr.specs.Writing.{WritesFront};
ghost use Rattle.nfs_xdr.specs.declared.XdrError.TheVariants.{Memory};
ghost use Rattle.side_wire.specs.Messages.{call_of, call_header, header_value, callback_arguments, message_of};
ghost use Rattle.side_wire.specs.Messages.{message_bytes, CallbacksAreCalls, HasLockForm, HasTestArgumentsForm};
ghost use Rattle.side_wire.specs.Messages.{HasCallbackForm, SpellsResult, IsNoResult, ResultHoldsBytes};
ghost use Rattle.side_wire.specs.Nlm.{nlm_procedure_of};
ghost use Rattle.side_wire.specs.NlmTypes.{nlm4_lock, lock_value, nlm4_testargs, test_value};
ghost use Rattle.nfs_xdr.specs.Programs.{IsFrontedBy};
ghost use Rattle.nfs_xdr.specs.Writing.{WritesResult};

use crate::nlm::items::{read_plain_result, write_plain_result, write_test_result};
use crate::nlm::{NlmResult, TestArguments, TestResult};
use bytes::Bytes;
use nfs_xdr::{ArgumentsError, SharedReader, Writer, XdrError, are_bytes};

/// That the message is a call (`CALL`, RFC 5531, 9).
const CALL: u32 = 0;

/// The version of RPC (RFC 5531, 9).
const RPC_VERSION: u32 = 2;

/// The program NLM (RFC 1813, 6.1).
const NLM_PROGRAM: u32 = 100021;

/// Its version (RFC 1813, 6.1).
const NLM_VERSION: u32 = 4;

/// The flavor of a credential that says nothing (RFC 5531, 10.1).
const AUTH_NONE: u32 = 0;

/// A lock as a caller names it (`nlm4_lock`).
#[derive(Clone, Drop, PartialEq, Eq)]
pub struct NlmLock {
    pub caller_name: Bytes,
    pub file: Bytes,
    /// The owner within the caller (`oh`).
    pub owner: Bytes,
    /// The process within the caller (`svid`).
    pub process: i32,
    /// In bytes.
    pub offset: u64,
    /// In bytes; 0 runs to the end.
    pub length: u64,
}

/// A call of NLM that the server makes.
#[derive(Drop, PartialEq, Eq)]
pub enum Callback {
    /// A waiting request is held now. Procedure 5, GRANTED.
    Granted(TestArguments),
    /// The same of a request that came by LOCK_MSG. Procedure 10, GRANTED_MSG.
    GrantedMsg(TestArguments),
    /// The result of TEST_MSG. Procedure 11, TEST_RES.
    TestRes(TestResult),
    /// The result of LOCK_MSG. Procedure 12, LOCK_RES.
    LockRes(NlmResult),
    /// The result of CANCEL_MSG. Procedure 13, CANCEL_RES.
    CancelRes(NlmResult),
    /// The result of UNLOCK_MSG. Procedure 14, UNLOCK_RES.
    UnlockRes(NlmResult),
    /// The result of GRANTED_MSG. Procedure 15, GRANTED_RES.
    GrantedRes(NlmResult),
}

/// A call that the server makes, and the host to which it goes.
#[derive(Clone, Drop, PartialEq, Eq)]
pub struct Message {
    pub host: Bytes,
    pub call: Callback,
}

/// Writes a message's call at the end: header and arguments (RFC 5531, 9), with no record mark. Its credential and
/// its verifier are AUTH_NONE. An error is want of memory; what the writer then holds of the call is not said.
pub fn write_message(writer: &mut Writer, xid: u32, message: &Message) -> Result<(), XdrError>
    requires { HasCallbackForm message.now.call }
    ensures written { OnOk result (writer.new ≡ writer.old ++ message_bytes xid message.now) }
    // Those bytes are the one spelling of header and arguments with zeros as padding.
    ensures spelled { OnOk result (IsItsSpelling
        (message_of xid message.now.call).0 (message_of xid message.now.call).1 (message_bytes xid message.now)) }
    ensures err { IfErr result (λ e. e ≡ Memory) }
{
    append_call(writer, xid, &message.call)
}

/// The arguments of a message are spelled as those of a call of NLM of its procedure, so a reader of such calls
/// finds it.
pub fn callbacks_are_calls()
    ensures { CallbacksAreCalls }
{}

/// What a host answered to GRANTED (`nlm4_res`). Bytes after the result are ignored.
///
/// Its byte string is shared when all of it was read, so `Memory` says that there is one.
pub fn read_granted_result(mut result_bytes: SharedReader<'_>) -> Result<NlmResult, ArgumentsError>
    // A front of the bytes spells the result that is read.
    ensures found { IfOk result (λ answer. IsFrontedBy SpellsResult answer result_bytes.entry) }
    // Garbage is what no front spells.
    ensures garbage { IsErrOf result ArgumentsError.Garbage → IsNoResult result_bytes.entry }
    // There is no memory only for a result that a front spells, and that holds bytes.
    ensures memory { IsErrOf result ArgumentsError.Memory → ResultHoldsBytes result_bytes.entry }
{
    are_bytes(result_bytes.as_slice());
    Ok(read_plain_result(&mut result_bytes)?)
}

/// Writes header and arguments of a callback.
#[tactic(auto, unfolding(nfs_xdr::specs::Writing::appended))]
fn append_call(writer: &mut Writer, xid: u32, call: &Callback) -> Result<(), XdrError>
    requires { HasCallbackForm call.now }
    ensures { WritesResult (message_of xid call.now) writer.old writer.new result }
{
    write_header(writer, xid, procedure(call))?;
    write_arguments(writer, call)
}

/// The number of a callback's procedure.
fn procedure(call: &Callback) -> u32
    ensures { result ≡ nlm_procedure_of (call_of call.now) }
{
    match call {
        Callback::Granted(_) => 5,
        Callback::GrantedMsg(_) => 10,
        Callback::TestRes(_) => 11,
        Callback::LockRes(_) => 12,
        Callback::CancelRes(_) => 13,
        Callback::UnlockRes(_) => 14,
        Callback::GrantedRes(_) => 15,
    }
}

/// Writes the header of a call of NLM (RFC 5531, 9).
#[tactic(auto, unfolding(nfs_xdr::specs::Writing::appended))]
fn write_header(writer: &mut Writer, xid: u32, procedure: u32) -> Result<(), XdrError>
    ensures written { WritesFront call_header (header_value xid procedure) writer.old writer.new result }
    ensures form { HasSpelling call_header (header_value xid procedure) }
{
    writer.u32(xid)?;
    writer.u32(CALL)?;
    writer.u32(RPC_VERSION)?;
    writer.u32(NLM_PROGRAM)?;
    writer.u32(NLM_VERSION)?;
    writer.u32(procedure)?;
    writer.u32(AUTH_NONE)?;
    writer.opaque(&[])?;
    writer.u32(AUTH_NONE)?;
    writer.opaque(&[])
}

/// Writes the arguments of a callback.
#[tactic(auto, unfolding(nfs_xdr::specs::Writing::appended))]
fn write_arguments(writer: &mut Writer, call: &Callback) -> Result<(), XdrError>
    requires { HasCallbackForm call.now }
    ensures { WritesResult (callback_arguments call.now) writer.old writer.new result }
{
    match call {
        Callback::Granted(arguments) | Callback::GrantedMsg(arguments) => {
            write_test_arguments(writer, arguments)
        }
        Callback::TestRes(tested) => write_test_result(writer, tested),
        Callback::LockRes(answer)
        | Callback::CancelRes(answer)
        | Callback::UnlockRes(answer)
        | Callback::GrantedRes(answer) => write_plain_result(writer, answer),
    }
}

/// Writes the arguments of GRANTED (`nlm4_testargs`).
#[tactic(auto, unfolding(nfs_xdr::specs::Writing::appended))]
fn write_test_arguments(writer: &mut Writer, arguments: &TestArguments) -> Result<(), XdrError>
    requires { HasTestArgumentsForm arguments.now }
    ensures { WritesResult (nlm4_testargs, test_value arguments.now) writer.old writer.new result }
{
    writer.opaque(arguments.cookie.as_slice())?;
    writer.bool(arguments.exclusive)?;
    write_lock(writer, &arguments.lock)
}

/// Writes a lock (`nlm4_lock`).
#[tactic(auto, unfolding(nfs_xdr::specs::Writing::appended))]
fn write_lock(writer: &mut Writer, lock: &NlmLock) -> Result<(), XdrError>
    requires { HasLockForm lock.now }
    ensures { WritesResult (nlm4_lock, lock_value lock.now) writer.old writer.new result }
{
    writer.opaque(lock.caller_name.as_slice())?;
    writer.opaque(lock.file.as_slice())?;
    writer.opaque(lock.owner.as_slice())?;
    writer.i32(lock.process)?;
    writer.u64(lock.offset)?;
    writer.u64(lock.length)
}
