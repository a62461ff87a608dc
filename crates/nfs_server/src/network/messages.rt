//! Messages as they are sent, and what becomes of what hosts answer to GRANTED (RFC 1813, appendix II).

ghost use Rattle.std.specs.Prelude.{◌≡◌, IfErr, IfOk, IsErrOf, true};
ghost use Rattle.std.specs.Bool.{Decides};
ghost use Rattle.nfs_rpc.specs.Records.{fragment};
ghost use Rattle.nfs_xdr.specs.Programs.{IsFrontedBy};
ghost use Rattle.nfs_xdr.specs.Reading.{ReadsFront};
ghost use Rattle.nfs_xdr.specs.declared.XdrError.TheVariants.{Memory};
ghost use Rattle.side_wire.specs.Messages.{HasCallbackForm, message_bytes};
ghost use Rattle.side_wire.specs.Nlm.{HasResultForm};
ghost use Rattle.side_wire.specs.declared.message.Callback.TheVariants.{GrantedRes};
ghost use Rattle.nfs_server.specs.CalledBack.{ComesIn, IsAddressed, IsGranted, IsNoAnswer, SpellsAnswer};
ghost use Rattle.nfs_server.specs.CalledBack.{reply_header, xid_of};
ghost use Rattle.nfs_server.specs.Callbacks.{callback_of};

use crate::callbacks::{CallbackAddress, Callbacks};
use bytes::Bytes;
use nfs_engine::Posted;
use nfs_rpc::{Record, finish_record, start_record};
use nfs_xdr::{ArgumentsError, Part, SharedReader, Writer, XdrError};
use side_wire::{Callback, Message, NlmResult, read_granted_result, write_message};
use std::alloc::{AllocError, Global};

/// Room for most messages.
const CAPACITY: usize = 256;

/// That a message is a reply, that it is accepted, and that the call was carried out (RFC 5531, 9).
const REPLY: u32 = 1;

const ACCEPTED: u32 = 0;

const SUCCESS: u32 = 0;

/// The most bytes of a verifier (RFC 5531, 8.2).
const MAX_VERIFIER: usize = 400;

/// What a reply that is accepted has before its results.
#[derive(Drop)]
struct ReplyHeader<'a> {
    xid: u32,
    kind: u32,
    state: u32,
    flavor: u32,
    verifier: Part<'a>,
    end: u32,
}

/// A message as it is sent, and where.
#[derive(Drop)]
pub(crate) struct Letter<'a> {
    /// Where its host is called back.
    pub(crate) callback: &'a CallbackAddress,
    /// The message as one fragment.
    pub(crate) bytes: Vec<u8>,
}

/// A message for where its host is called back; None where the host is not.
///
/// # Errors
///
/// There is no memory to spell it.
pub(crate) fn addressed<'a>(
    alloc: Global,
    callbacks: &'a Callbacks,
    posted: &Posted,
) -> Result<Option<Letter<'a>>, XdrError>
    ensures { IfOk result (IsAddressed (callback_of callbacks.now.list.items posted.now.message.host)
        posted.now.number posted.now.message) }
{
    match callbacks.of_host(&posted.message.host) {
        Some(callback) => {
            let bytes = spelled(alloc, posted)?;
            Ok(Some(Letter { callback, bytes }))
        }
        None => Ok(None),
    }
}

/// A message as one fragment.
///
/// # Errors
///
/// There is no memory for it.
fn spelled(alloc: Global, posted: &Posted) -> Result<Vec<u8>, XdrError>
    ensures ok { IfOk result (λ bytes.
        bytes.items ≡ fragment true (message_bytes (xid_of posted.now.number) posted.now.message)) }
    ensures err { IfErr result (λ e. e ≡ Memory) }
{
    let mut writer = start_record(alloc, CAPACITY)?;
    write_message(&mut writer, xid_of(posted.number), &posted.message)?;
    Ok(finish_record(writer))
}

/// The transaction id of the message with this number: its low 32 bits.
fn xid_of(number: u64) -> u32
    ensures { result ≡ xid_of number }
{
    (number % (1 << 32)) as u32
}

/// Whether a host replies to a message: to GRANTED alone. A result of a MSG call and GRANTED_MSG go one way.
pub(crate) fn has_reply(message: &Message) -> bool
    ensures { Decides result (IsGranted message.now.call) }
{
    matches!(&message.call, Callback::Granted(_))
}

/// The call as which a host's answer to a message comes in: GRANTED_RES with the result that the host answers to
/// GRANTED. None where the message is another, or the answer none that is accepted and done.
///
/// # Errors
///
/// There is no memory for it.
pub(crate) fn call_of_answer(
    alloc: Global,
    posted: &Posted,
    answer: &Record,
) -> Result<Option<Record>, AllocError>
    ensures { IfOk result (ComesIn posted.now.number posted.now.message answer.now) }
{
    let Callback::Granted(_) = &posted.message.call else {
        return Ok(None);
    };
    let xid = xid_of(posted.number);
    match granted_result(answer, xid) {
        Ok(granted) => {
            let host = posted.message.host.clone()?;
            Ok(Some(granted_call(alloc, xid, host, granted)?))
        }
        Err(ArgumentsError::Garbage) => Ok(None),
        Err(ArgumentsError::Memory) => Err(AllocError),
    }
}

/// The result that a reply to GRANTED with this transaction id tells, which is accepted and done.
///
/// # Errors
///
/// `Garbage` where the answer is no such reply; `Memory` where there is none to share the result's bytes.
fn granted_result(answer: &Record, xid: u32) -> Result<NlmResult, ArgumentsError>
    ensures found { IfOk result (λ granted. IsFrontedBy (SpellsAnswer xid) granted answer.now) }
    ensures form { IfOk result HasResultForm }
    ensures garbage { IsErrOf result ArgumentsError.Garbage → IsNoAnswer xid answer.now }
{
    let mut reader = SharedReader::new(answer);
    let header = read_header(&mut reader)?;
    if !is_done(&header, xid) {
        return Err(ArgumentsError::Garbage);
    }
    read_granted_result(reader)
}

/// Whether the reply to the call with this transaction id begins so, which is accepted and done.
fn is_done(header: &ReplyHeader<'_>, xid: u32) -> bool
    ensures { Decides result ((header.now.xid ≡ xid) × (header.now.kind ≡ REPLY) × (header.now.state ≡ ACCEPTED)
        × (header.now.end ≡ SUCCESS)) }
{
    header.xid == xid && header.kind == REPLY && header.state == ACCEPTED && header.end == SUCCESS
}

#[tactic(auto, unfolding(nfs_xdr::specs::Reading::read))]
fn read_header<'a>(reader: &mut SharedReader<'a>) -> Result<ReplyHeader<'a>, XdrError>
    ensures { ReadsFront reply_header
        (λ h. (h.xid, (h.kind, (h.state, ((h.flavor, h.verifier), h.end)))))
        reader.entry.now reader.exit.now result }
{
    Ok(ReplyHeader {
        xid: reader.u32()?,
        kind: reader.u32()?,
        state: reader.u32()?,
        flavor: reader.u32()?,
        verifier: reader.opaque(MAX_VERIFIER)?,
        end: reader.u32()?,
    })
}

/// The call GRANTED_RES of a host, with this transaction id and this result.
fn granted_call(
    alloc: Global,
    xid: u32,
    host: Bytes,
    granted: NlmResult,
) -> Result<Record, AllocError>
    requires { HasResultForm granted }
    ensures { IfOk result (λ call.
        call ≡ message_bytes xid (record { host = host; call = GrantedRes granted })) }
{
    let message = Message {
        host,
        call: Callback::GrantedRes(granted),
    };
    let call = written(alloc, xid, &message);
    drop(message);
    match call {
        Ok(writer) => Ok(Bytes::from_vec(writer.into_vec())?),
        Err(_) => Err(AllocError),
    }
}

/// A message's call, without a mark.
fn written(alloc: Global, xid: u32, message: &Message) -> Result<Writer, XdrError>
    requires { HasCallbackForm message.now.call }
    ensures { IfOk result (λ writer. writer ≡ message_bytes xid message.now) }
{
    let mut writer = Writer::new(alloc);
    write_message(&mut writer, xid, message)?;
    Ok(writer)
}
