//! Results of the procedures on names in directories.

ghost use Rattle.nfs_wire.specs.Replies.{HasLookupForm, HasMadeForm};
ghost use Rattle.nfs_xdr.specs.Writing.{WritesResult};
ghost use Rattle.nfs_wire.specs.Results.{lookup_result, made_result, removed_result, renamed_result, linked_result};

use super::items::write_optional_handle;
use crate::attributes::{write_optional_attributes, write_wcc};
use crate::replies::{LinkedReply, LookupReply, MadeReply, RemovedReply, RenamedReply};
use crate::status::{write_done, write_status};
use nfs_xdr::{Writer, XdrError};

/// LOOKUP3res (RFC 1813, 3.3.3).
#[tactic(auto, using(crate::proofs::ResultLaws::outcomes, crate::proofs::ResultLaws::items))]
pub(super) fn write_lookup(writer: &mut Writer, reply: &LookupReply) -> Result<(), XdrError>
    requires { HasLookupForm reply.now }
    ensures { WritesResult (lookup_result reply.now) writer.old writer.new result }
{
    match &reply.result {
        Ok(found) => {
            write_done(writer)?;
            writer.opaque(found.object.as_slice())?;
            write_optional_attributes(writer, found.attributes)?;
            write_optional_attributes(writer, reply.directory)
        }
        Err(status) => {
            write_status(writer, *status)?;
            write_optional_attributes(writer, reply.directory)
        }
    }
}

/// CREATE3res, MKDIR3res, SYMLINK3res and MKNOD3res (RFC 1813, 3.3.8 to 3.3.11).
#[tactic(auto, using(crate::proofs::ResultLaws::outcomes, crate::proofs::ResultLaws::items))]
pub(super) fn write_made(writer: &mut Writer, reply: &MadeReply) -> Result<(), XdrError>
    requires { HasMadeForm reply.now }
    ensures { WritesResult (made_result reply.now) writer.old writer.new result }
{
    match &reply.result {
        Ok(made) => {
            write_done(writer)?;
            write_optional_handle(writer, &made.object)?;
            write_optional_attributes(writer, made.attributes)?;
            write_wcc(writer, reply.directory)
        }
        Err(status) => {
            write_status(writer, *status)?;
            write_wcc(writer, reply.directory)
        }
    }
}

/// REMOVE3res and RMDIR3res (RFC 1813, 3.3.12 and 3.3.13).
#[tactic(auto, using(crate::proofs::ResultLaws::outcomes, crate::proofs::ResultLaws::items))]
pub(super) fn write_removed(writer: &mut Writer, reply: &RemovedReply) -> Result<(), XdrError>
    ensures { WritesResult (removed_result reply.now) writer.old writer.new result }
{
    match &reply.result {
        Ok(()) => {
            write_done(writer)?;
            write_wcc(writer, reply.directory)
        }
        Err(status) => {
            write_status(writer, *status)?;
            write_wcc(writer, reply.directory)
        }
    }
}

/// RENAME3res (RFC 1813, 3.3.14).
#[tactic(auto, using(crate::proofs::ResultLaws::outcomes, crate::proofs::ResultLaws::items))]
pub(super) fn write_renamed(writer: &mut Writer, reply: &RenamedReply) -> Result<(), XdrError>
    ensures { WritesResult (renamed_result reply.now) writer.old writer.new result }
{
    match &reply.result {
        Ok(()) => {
            write_done(writer)?;
            write_wcc(writer, reply.from)?;
            write_wcc(writer, reply.to)
        }
        Err(status) => {
            write_status(writer, *status)?;
            write_wcc(writer, reply.from)?;
            write_wcc(writer, reply.to)
        }
    }
}

/// LINK3res (RFC 1813, 3.3.15).
#[tactic(auto, using(crate::proofs::ResultLaws::outcomes, crate::proofs::ResultLaws::items))]
pub(super) fn write_linked(writer: &mut Writer, reply: &LinkedReply) -> Result<(), XdrError>
    ensures { WritesResult (linked_result reply.now) writer.old writer.new result }
{
    match &reply.result {
        Ok(()) => {
            write_done(writer)?;
            write_optional_attributes(writer, reply.attributes)?;
            write_wcc(writer, reply.directory)
        }
        Err(status) => {
            write_status(writer, *status)?;
            write_optional_attributes(writer, reply.attributes)?;
            write_wcc(writer, reply.directory)
        }
    }
}
