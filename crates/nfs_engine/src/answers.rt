//! The bytes of answers, each one fragment.

ghost use Rattle.std.specs.Prelude.{◌≡◌, ◌≢◌, ◌++◌, IfOk, IfSome, OnErr, OnOk, true};
ghost use Rattle.nfs_rpc.specs.Messages.{reply_of};
ghost use Rattle.nfs_rpc.specs.Records.{fragment};
ghost use Rattle.nfs_engine.specs.Forms.{HasForm, RefusalHasForm};
ghost use Rattle.nfs_engine.specs.Answers.{answer_of, fault_answer};
ghost use Rattle.nfs_wire.specs.Replies.{HasNfsForm};
ghost use Rattle.side_wire.specs.Mount.{HasMountForm};
ghost use Rattle.side_wire.specs.Nlm.{HasNlmForm};
ghost use Rattle.nfs_machine.specs.declared.calls.Reply.TheVariants as replies;
ghost use Rattle.nfs_machine.specs.RpcReplies.{failure_message, refusal_message, results_of, success_message};

use crate::forms::{is_formed, mount_is_formed, nlm_is_formed};
use nfs_machine::{Refusal, Reply};
use nfs_rpc::{Early, Fault, ReplyHead, finish_record, start_record, write_reply};
use nfs_wire::NfsReply;
use nfs_xdr::{Writer, XdrError};
use side_wire::{MountReply, NlmReply, mount, nlm};
use std::alloc::{AllocError, Global};

/// Room for most answers.
const CAPACITY: usize = 256;

/// Room for a reply with no result (RFC 5531, section 9): its header.
const NOTHING: usize = 24;

/// Room for a reply with a status and attributes (RFC 1813, 2.6).
const ATTRIBUTES: usize = NOTHING + 4 + 84;

/// The most bytes of a reply that are spelled before its call is committed.
const MAX_LENGTH: usize = 1 << 30;

/// The bytes of the reply to a call that was executed: its results; none where nobody is answered.
///
/// # Errors
///
/// There is no memory for them.
pub fn success(alloc: Global, xid: u32, reply: &Reply) -> Result<Vec<u8>, AllocError>
    requires { HasForm reply.now }
    ensures { IfOk result (λ bytes. bytes.items ≡ success_message xid reply.now) }
{
    match reply {
        Reply::Nfs(_) | Reply::Mount(_) | Reply::Nlm(_) => {
            write_success(alloc, xid, reply).map_err(|_| AllocError)
        }
        Reply::Replaced => Ok(Vec::new(alloc)),
    }
}

/// A reply with SUCCESS, and the results behind it.
fn write_success(alloc: Global, xid: u32, reply: &Reply) -> Result<Vec<u8>, XdrError>
    requires { HasForm reply.now }
    ensures { IfOk result (λ bytes. bytes.items ≡ fragment true (reply_of xid ReplyHead.Success ++ results_of
        reply.now)) }
{
    let mut writer = start_record(alloc, CAPACITY)?;
    write_reply(&mut writer, xid, ReplyHead::Success)?;
    write_results(&mut writer, reply)?;
    Ok(finish_record(writer))
}

/// The bytes of the reply to a call, where its form is seen in the reply alone: its parts are within their bounds, or
/// none is sent. None for any other, and where one fragment does not hold them (RFC 5531, section 11).
///
/// # Errors
///
/// There is no memory for them.
pub(crate) fn spell(alloc: Global, xid: u32, reply: &Reply) -> Result<Option<Vec<u8>>, AllocError>
    ensures { IfOk result (λ answer. IfSome answer (λ bytes. bytes.items ≡ success_message xid reply.now)) }
{
    match reply {
        Reply::Nfs(nfs) => {
            if !is_formed(nfs) {
                return Ok(None);
            }
            spell_nfs(alloc, xid, nfs).map_err(|_| AllocError)
        }
        Reply::Mount(mount) => {
            if !mount_is_formed(mount) {
                return Ok(None);
            }
            spell_mount(alloc, xid, mount).map_err(|_| AllocError)
        }
        Reply::Replaced => Ok(Some(Vec::new(alloc))),
        Reply::Nlm(nlm) => {
            if !nlm_is_formed(nlm) {
                return Ok(None);
            }
            spell_nlm(alloc, xid, nlm).map_err(|_| AllocError)
        }
    }
}

/// The bytes of a reply of MOUNT.
fn spell_mount(alloc: Global, xid: u32, reply: &MountReply) -> Result<Option<Vec<u8>>, XdrError>
    requires { HasMountForm reply.now }
    ensures { IfOk result
        (λ answer. IfSome answer (λ bytes. bytes.items ≡ success_message xid (replies.Mount reply.now))) }
{
    let mut writer = start_record(alloc, CAPACITY)?;
    write_reply(&mut writer, xid, ReplyHead::Success)?;
    mount::write_result(&mut writer, reply)?;
    if writer.len() > MAX_LENGTH {
        return Ok(None);
    }
    Ok(Some(finish_record(writer)))
}

/// The bytes of a reply of NLM.
fn spell_nlm(alloc: Global, xid: u32, reply: &NlmReply) -> Result<Option<Vec<u8>>, XdrError>
    requires { HasNlmForm reply.now }
    ensures { IfOk result
        (λ answer. IfSome answer (λ bytes. bytes.items ≡ success_message xid (replies.Nlm reply.now))) }
{
    let mut writer = start_record(alloc, CAPACITY)?;
    write_reply(&mut writer, xid, ReplyHead::Success)?;
    nlm::write_result(&mut writer, reply)?;
    if writer.len() > MAX_LENGTH {
        return Ok(None);
    }
    Ok(Some(finish_record(writer)))
}

/// The bytes of a reply of NFS.
fn spell_nfs(alloc: Global, xid: u32, reply: &NfsReply) -> Result<Option<Vec<u8>>, XdrError>
    requires { HasNfsForm reply.now }
    ensures { IfOk result
        (λ answer. IfSome answer (λ bytes. bytes.items ≡ success_message xid (replies.Nfs reply.now))) }
{
    let mut writer = start_record(alloc, room_for(reply))?;
    write_reply(&mut writer, xid, ReplyHead::Success)?;
    nfs_wire::write_result(&mut writer, reply)?;
    if writer.len() > MAX_LENGTH {
        return Ok(None);
    }
    Ok(Some(finish_record(writer)))
}

/// Room for a reply of NFS, so that most are written without growth and few keep more than they have.
fn room_for(reply: &NfsReply) -> usize {
    match reply {
        NfsReply::Null => NOTHING,
        NfsReply::Getattr(_) => ATTRIBUTES,
        NfsReply::Read(read) => match &read.result {
            Ok(read) => read.data.len().saturating_add(CAPACITY),
            Err(_) => CAPACITY,
        },
        _ => CAPACITY,
    }
}

/// The bytes of the reply that tells this fault.
///
/// # Errors
///
/// There is no memory for them.
pub fn failure(alloc: Global, xid: u32, fault: Fault) -> Result<Vec<u8>, AllocError>
    ensures { IfOk result (λ bytes. bytes.items ≡ failure_message xid fault) }
{
    let mut writer = start_record(alloc, CAPACITY).map_err(|_| AllocError)?;
    write_reply(&mut writer, xid, ReplyHead::Failure(fault)).map_err(|_| AllocError)?;
    Ok(finish_record(writer))
}

/// The bytes of the answer to a record with a fault; None where it is dropped.
///
/// # Errors
///
/// There is no memory for them. What is dropped wants none.
pub fn early(alloc: Global, early: Early) -> Result<Option<Vec<u8>>, AllocError>
    ensures answer { IfOk result (λ answer. answer_of answer ≡ fault_answer early) }
    ensures refused { OnErr result (early ≢ Early.Drop) }
{
    match early {
        Early::Drop => Ok(None),
        Early::Answer { xid, fault } => Ok(Some(failure(alloc, xid, fault)?)),
    }
}

/// The bytes of the reply to a call that was refused, for want of memory or of a number.
///
/// # Errors
///
/// There is no memory for them.
pub fn refuse(alloc: Global, xid: u32, refusal: &Refusal) -> Result<Vec<u8>, AllocError>
    requires { RefusalHasForm refusal.now }
    ensures { IfOk result (λ bytes. bytes.items ≡ refusal_message xid refusal.now) }
{
    match refusal {
        Refusal::Reply(reply) => success(alloc, xid, reply),
        Refusal::SystemError => failure(alloc, xid, Fault::SystemError),
        Refusal::Silent => Ok(Vec::new(alloc)),
    }
}

/// Writes the results of a reply at the end.
fn write_results(writer: &mut Writer, reply: &Reply) -> Result<(), XdrError>
    requires { HasForm reply.now }
    ensures { OnOk result (writer.new ≡ writer.old ++ results_of reply.now) }
{
    match reply {
        Reply::Nfs(reply) => nfs_wire::write_result(writer, reply),
        Reply::Mount(reply) => mount::write_result(writer, reply),
        Reply::Nlm(reply) => nlm::write_result(writer, reply),
        Reply::Replaced => Ok(()),
    }
}
