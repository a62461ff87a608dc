//! Replies, and records that go out.

ghost use Rattle.std.specs.Prelude.{◌≡◌, ◌+◌, ◌^◌, ◌<◌, ◌≤◌, true, [], ◌∷◌, ◌++◌};
ghost use Rattle.std.specs.Prelude.{length, drop, OnOk, IfOk, IfErr};
ghost use Rattle.std.specs.Int.{w32, to_be_bytes};
ghost use Rattle.nfs_xdr.specs.declared.XdrError.TheVariants.{Memory};
ghost use Rattle.nfs_rpc.specs.Messages.{words, fault_body, reply_of};
ghost use Rattle.nfs_rpc.specs.Records.{fragment};

use crate::marking::LAST_FRAGMENT;
use crate::numbers::{
    AUTH_BADCRED, AUTH_ERROR, AUTH_NONE, GARBAGE_ARGS, MSG_ACCEPTED, MSG_DENIED, NO_BYTES,
    PROC_UNAVAIL, PROG_MISMATCH, PROG_UNAVAIL, REPLY, RPC_MISMATCH, RPC_VERSION, SUCCESS,
    SYSTEM_ERR,
};
use crate::{Fault, ReplyHead};
use byteorder::{BigEndian, ByteOrder};
use nfs_xdr::{Writer, XdrError};
use std::alloc::Global;

/// How many bytes a record's one header takes.
const HEADER: usize = 4;

/// Writes a reply's header at the end. The results of a call that was carried out follow it. Where there is no memory
/// the writer stays as it was.
pub fn write_reply(writer: &mut Writer, xid: u32, answer: ReplyHead) -> Result<(), XdrError>
    ensures ok { OnOk result (writer.new ≡ writer.old ++ reply_of xid answer) }
    ensures err { IfErr result (λ e. (e ≡ Memory) × (writer.new ≡ writer.old)) }
{
    match answer {
        ReplyHead::Success => write_accepted(writer, xid, SUCCESS),
        ReplyHead::Failure(fault) => write_fault(writer, xid, fault),
    }
}

/// Writes the reply to a call that is not carried out.
fn write_fault(writer: &mut Writer, xid: u32, fault: Fault) -> Result<(), XdrError>
    ensures ok { OnOk result (writer.new ≡ writer.old ++ words (xid ∷ 1 ∷ fault_body fault)) }
    ensures err { IfErr result (λ e. (e ≡ Memory) × (writer.new ≡ writer.old)) }
{
    match fault {
        Fault::ProgramUnavailable => write_accepted(writer, xid, PROG_UNAVAIL),
        Fault::ProgramMismatch { low, high } => write_words(
            writer,
            &[
                xid,
                REPLY,
                MSG_ACCEPTED,
                AUTH_NONE,
                NO_BYTES,
                PROG_MISMATCH,
                low,
                high,
            ],
        ),
        Fault::ProcedureUnavailable => write_accepted(writer, xid, PROC_UNAVAIL),
        Fault::GarbageArguments => write_accepted(writer, xid, GARBAGE_ARGS),
        Fault::SystemError => write_accepted(writer, xid, SYSTEM_ERR),
        Fault::RpcMismatch => write_words(
            writer,
            &[
                xid,
                REPLY,
                MSG_DENIED,
                RPC_MISMATCH,
                RPC_VERSION,
                RPC_VERSION,
            ],
        ),
        Fault::BadCredential => write_words(
            writer,
            &[xid, REPLY, MSG_DENIED, AUTH_ERROR, AUTH_BADCRED],
        ),
    }
}

/// Writes the header of a reply that was accepted, with this status.
fn write_accepted(writer: &mut Writer, xid: u32, status: u32) -> Result<(), XdrError>
    ensures ok { OnOk result (writer.new ≡ writer.old ++ words (xid ∷ 1 ∷ 0 ∷ 0 ∷ 0 ∷ status ∷ [])) }
    ensures err { IfErr result (λ e. (e ≡ Memory) × (writer.new ≡ writer.old)) }
{
    write_words(
        writer,
        &[xid, REPLY, MSG_ACCEPTED, AUTH_NONE, NO_BYTES, status],
    )
}

/// Writes words, all of them or none.
#[tactic(auto, unfolding(nfs_xdr::specs::Writing::appended, nfs_xdr::specs::Writing::with_word))]
fn write_words(writer: &mut Writer, numbers: &[u32]) -> Result<(), XdrError>
    ensures ok { OnOk result (writer.new ≡ writer.old ++ words numbers.now) }
    ensures err { IfErr result (λ e. (e ≡ Memory) × (writer.new ≡ writer.old)) }
{
    let start = writer.len();
    for number in numbers {
        if let Err(refused) = writer.u32(*number) {
            writer.truncate(start);
            return Err(refused);
        }
    }
    Ok(())
}

/// A writer with room for a record's header and so many bytes, which stands behind the header.
#[tactic(auto, unfolding(nfs_xdr::specs::Writing::appended, nfs_xdr::specs::Writing::with_word))]
pub fn start_record(alloc: Global, capacity: usize) -> Result<Writer, XdrError>
    ensures ok { IfOk result (λ writer. writer ≡ to_be_bytes w32 0) }
    ensures err { IfErr result (λ e. e ≡ Memory) }
{
    let mut writer = Writer::with_capacity(alloc, capacity.saturating_add(HEADER))?;
    writer.u32(0)?;
    Ok(writer)
}

/// The record that was written behind the header's room, as one fragment. It takes no memory and copies nothing.
pub fn finish_record(writer: Writer) -> Vec<u8>
    requires room { 4 ≤ length writer }
    requires size { length writer < 2 ^ 31 + 4 }
    ensures { result.items ≡ fragment true (drop 4 writer) }
{
    let mut record = writer.into_vec();
    let size = (record.len() - HEADER) as u32;
    BigEndian::write_u32(&mut record, LAST_FRAGMENT + size);
    record
}
