//! Results of the procedures on attributes and data.

ghost use Rattle.nfs_xdr.specs.Types.{HasSpelling};
ghost use Rattle.nfs_xdr.specs.Writing.{WritesFront};
ghost use Rattle.nfs_wire.specs.Arguments.{stable_how, stability_number};
ghost use Rattle.nfs_wire.specs.Replies.{HasReadlinkForm, HasReadForm};
ghost use Rattle.nfs_xdr.specs.Writing.{WritesResult};
ghost use Rattle.nfs_wire.specs.Results.{getattr_result, setattr_result, access_result, readlink_result, read_result};
ghost use Rattle.nfs_wire.specs.Results.{written_result, commit_result};

use super::items::write_verifier;
use crate::attributes::{Attributes, write_attributes, write_optional_attributes, write_wcc};
use crate::calls::Stability;
use crate::replies::{
    AccessReply, CommitReply, ReadReply, ReadlinkReply, SetattrReply, WriteReply,
};
use crate::status::{NfsStatus, write_done, write_status};
use nfs_xdr::{Writer, XdrError};

/// GETATTR3res (RFC 1813, 3.3.1).
#[tactic(auto, using(crate::proofs::ResultLaws::outcomes))]
pub(super) fn write_getattr(
    writer: &mut Writer,
    reply: &Result<Attributes, NfsStatus>,
) -> Result<(), XdrError>
    ensures { WritesResult (getattr_result reply.now) writer.old writer.new result }
{
    match reply {
        Ok(attributes) => {
            write_done(writer)?;
            write_attributes(writer, *attributes)
        }
        Err(status) => write_status(writer, *status),
    }
}

/// SETATTR3res (RFC 1813, 3.3.2).
#[tactic(auto, using(crate::proofs::ResultLaws::outcomes, crate::proofs::ResultLaws::items))]
pub(super) fn write_setattr(writer: &mut Writer, reply: &SetattrReply) -> Result<(), XdrError>
    ensures { WritesResult (setattr_result reply.now) writer.old writer.new result }
{
    match &reply.result {
        Ok(()) => {
            write_done(writer)?;
            write_wcc(writer, reply.wcc)
        }
        Err(status) => {
            write_status(writer, *status)?;
            write_wcc(writer, reply.wcc)
        }
    }
}

/// ACCESS3res (RFC 1813, 3.3.4).
#[tactic(auto, using(crate::proofs::ResultLaws::outcomes, crate::proofs::ResultLaws::items))]
pub(super) fn write_access(writer: &mut Writer, reply: &AccessReply) -> Result<(), XdrError>
    ensures { WritesResult (access_result reply.now) writer.old writer.new result }
{
    match &reply.result {
        Ok(rights) => {
            write_done(writer)?;
            write_optional_attributes(writer, reply.attributes)?;
            writer.u32(*rights)
        }
        Err(status) => {
            write_status(writer, *status)?;
            write_optional_attributes(writer, reply.attributes)
        }
    }
}

/// READLINK3res (RFC 1813, 3.3.5).
#[tactic(auto, using(crate::proofs::ResultLaws::outcomes, crate::proofs::ResultLaws::items))]
pub(super) fn write_readlink(writer: &mut Writer, reply: &ReadlinkReply) -> Result<(), XdrError>
    requires { HasReadlinkForm reply.now }
    ensures { WritesResult (readlink_result reply.now) writer.old writer.new result }
{
    match &reply.result {
        Ok(text) => {
            write_done(writer)?;
            write_optional_attributes(writer, reply.attributes)?;
            writer.opaque(text.as_slice())
        }
        Err(status) => {
            write_status(writer, *status)?;
            write_optional_attributes(writer, reply.attributes)
        }
    }
}

/// READ3res (RFC 1813, 3.3.6).
#[tactic(auto, using(crate::proofs::ResultLaws::outcomes, crate::proofs::ResultLaws::items))]
pub(super) fn write_read(writer: &mut Writer, reply: &ReadReply) -> Result<(), XdrError>
    requires { HasReadForm reply.now }
    ensures { WritesResult (read_result reply.now) writer.old writer.new result }
{
    match &reply.result {
        Ok(read) => {
            write_done(writer)?;
            write_optional_attributes(writer, reply.attributes)?;
            writer.u32(read.count)?;
            writer.bool(read.eof)?;
            writer.opaque_pieces(&read.data)
        }
        Err(status) => {
            write_status(writer, *status)?;
            write_optional_attributes(writer, reply.attributes)
        }
    }
}

/// WRITE3res (RFC 1813, 3.3.7).
#[tactic(auto, using(crate::proofs::ResultLaws::outcomes, crate::proofs::ResultLaws::items))]
pub(super) fn write_write(writer: &mut Writer, reply: &WriteReply) -> Result<(), XdrError>
    ensures { WritesResult (written_result reply.now) writer.old writer.new result }
{
    match &reply.result {
        Ok(written) => {
            write_done(writer)?;
            write_wcc(writer, reply.wcc)?;
            writer.u32(written.count)?;
            write_stability(writer, written.committed)?;
            write_verifier(writer, written.verifier)
        }
        Err(status) => {
            write_status(writer, *status)?;
            write_wcc(writer, reply.wcc)
        }
    }
}

/// COMMIT3res (RFC 1813, 3.3.21).
#[tactic(auto, using(crate::proofs::ResultLaws::outcomes, crate::proofs::ResultLaws::items))]
pub(super) fn write_commit(writer: &mut Writer, reply: &CommitReply) -> Result<(), XdrError>
    ensures { WritesResult (commit_result reply.now) writer.old writer.new result }
{
    match &reply.result {
        Ok(verifier) => {
            write_done(writer)?;
            write_wcc(writer, reply.wcc)?;
            write_verifier(writer, *verifier)
        }
        Err(status) => {
            write_status(writer, *status)?;
            write_wcc(writer, reply.wcc)
        }
    }
}

/// Writes how a WRITE was committed (`stable_how`, RFC 1813, 3.3.7).
#[tactic(auto, unfolding(nfs_xdr::specs::Writing::appended))]
fn write_stability(writer: &mut Writer, stability: Stability) -> Result<(), XdrError>
    ensures written { WritesFront stable_how (stability_number stability) writer.old writer.new result }
    ensures form { HasSpelling stable_how (stability_number stability) }
{
    writer.u32(match stability {
        Stability::Unstable => 0,
        Stability::DataSync => 1,
        Stability::FileSync => 2,
    })
}
