//! Results of the procedures on pages of directories and on the file system.

ghost use Rattle.std.specs.Prelude.{map};
ghost use Rattle.std.specs.List.{All};
ghost use Rattle.nfs_xdr.specs.Types.{Entries, HasSpelling};
ghost use Rattle.nfs_xdr.specs.Writing.{WritesFront};
ghost use Rattle.nfs_wire.specs.Replies.{HasEntryForm, HasFullEntryForm, HasReaddirForm, HasReaddirplusForm};
ghost use Rattle.nfs_xdr.specs.Writing.{WritesResult};
ghost use Rattle.nfs_wire.specs.Results.{entry3, entry_value, entryplus3, full_entry_value, space3, space_value};
ghost use Rattle.nfs_wire.specs.Results.{file_system3, file_system_value, path_limits3, path_limits_value};
ghost use Rattle.nfs_wire.specs.Results.{readdir_result, readdirplus_result, fsstat_result, fsinfo_result};
ghost use Rattle.nfs_wire.specs.Results.{pathconf_result};

use super::items::{write_optional_handle, write_verifier};
use crate::attributes::{write_optional_attributes, write_time};
use crate::entries::{FullEntry, PageEntry};
use crate::replies::{
    FileSystem, FsinfoReply, FsstatReply, PathLimits, PathconfReply, ReaddirReply,
    ReaddirplusReply, Space,
};
use crate::status::{write_done, write_status};
use nfs_xdr::{Writer, XdrError};

/// READDIR3res (RFC 1813, 3.3.16).
#[tactic(auto, using(crate::proofs::ResultLaws::outcomes, crate::proofs::ResultLaws::items))]
pub(super) fn write_readdir(writer: &mut Writer, reply: &ReaddirReply) -> Result<(), XdrError>
    requires { HasReaddirForm reply.now }
    ensures { WritesResult (readdir_result reply.now) writer.old writer.new result }
{
    match &reply.result {
        Ok(page) => {
            write_done(writer)?;
            write_optional_attributes(writer, reply.attributes)?;
            write_verifier(writer, page.verifier)?;
            write_entries(writer, page.entries.as_slice())?;
            writer.bool(page.eof)
        }
        Err(status) => {
            write_status(writer, *status)?;
            write_optional_attributes(writer, reply.attributes)
        }
    }
}

/// READDIRPLUS3res (RFC 1813, 3.3.17).
#[tactic(auto, using(crate::proofs::ResultLaws::outcomes, crate::proofs::ResultLaws::items))]
pub(super) fn write_readdirplus(
    writer: &mut Writer,
    reply: &ReaddirplusReply,
) -> Result<(), XdrError>
    requires { HasReaddirplusForm reply.now }
    ensures { WritesResult (readdirplus_result reply.now) writer.old writer.new result }
{
    match &reply.result {
        Ok(page) => {
            write_done(writer)?;
            write_optional_attributes(writer, reply.attributes)?;
            write_verifier(writer, page.verifier)?;
            write_full_entries(writer, page.entries.as_slice())?;
            writer.bool(page.eof)
        }
        Err(status) => {
            write_status(writer, *status)?;
            write_optional_attributes(writer, reply.attributes)
        }
    }
}

/// FSSTAT3res (RFC 1813, 3.3.18).
#[tactic(auto, using(crate::proofs::ResultLaws::outcomes, crate::proofs::ResultLaws::items))]
pub(super) fn write_fsstat(writer: &mut Writer, reply: &FsstatReply) -> Result<(), XdrError>
    ensures { WritesResult (fsstat_result reply.now) writer.old writer.new result }
{
    match &reply.result {
        Ok(space) => {
            write_done(writer)?;
            write_optional_attributes(writer, reply.attributes)?;
            write_space(writer, *space)
        }
        Err(status) => {
            write_status(writer, *status)?;
            write_optional_attributes(writer, reply.attributes)
        }
    }
}

/// FSINFO3res (RFC 1813, 3.3.19).
#[tactic(auto, using(crate::proofs::ResultLaws::outcomes, crate::proofs::ResultLaws::items))]
pub(super) fn write_fsinfo(writer: &mut Writer, reply: &FsinfoReply) -> Result<(), XdrError>
    ensures { WritesResult (fsinfo_result reply.now) writer.old writer.new result }
{
    match &reply.result {
        Ok(system) => {
            write_done(writer)?;
            write_optional_attributes(writer, reply.attributes)?;
            write_file_system(writer, *system)
        }
        Err(status) => {
            write_status(writer, *status)?;
            write_optional_attributes(writer, reply.attributes)
        }
    }
}

/// PATHCONF3res (RFC 1813, 3.3.20).
#[tactic(auto, using(crate::proofs::ResultLaws::outcomes, crate::proofs::ResultLaws::items))]
pub(super) fn write_pathconf(writer: &mut Writer, reply: &PathconfReply) -> Result<(), XdrError>
    ensures { WritesResult (pathconf_result reply.now) writer.old writer.new result }
{
    match &reply.result {
        Ok(limits) => {
            write_done(writer)?;
            write_optional_attributes(writer, reply.attributes)?;
            write_path_limits(writer, *limits)
        }
        Err(status) => {
            write_status(writer, *status)?;
            write_optional_attributes(writer, reply.attributes)
        }
    }
}

/// Writes the entries of a page (`dirlist3`, RFC 1813, 3.3.16), each behind a TRUE, and a FALSE at the end.
#[tactic(auto, unfolding(nfs_xdr::specs::Writing::appended))]
fn write_entries(writer: &mut Writer, entries: &[PageEntry]) -> Result<(), XdrError>
    requires { All HasEntryForm entries.now }
    ensures { WritesResult (Entries entry3, map entry_value entries.now) writer.old writer.new result }
{
    for entry in entries {
        writer.bool(true)?;
        write_entry(writer, entry)?;
    }
    writer.bool(false)
}

/// Writes one entry (`entry3`, RFC 1813, 3.3.16).
#[tactic(auto, unfolding(nfs_xdr::specs::Writing::appended))]
fn write_entry(writer: &mut Writer, entry: &PageEntry) -> Result<(), XdrError>
    requires { HasEntryForm entry.now }
    ensures { WritesResult (entry3, entry_value entry.now) writer.old writer.new result }
{
    writer.u64(entry.fileid)?;
    writer.opaque(entry.name.as_slice())?;
    writer.u64(entry.cookie)
}

/// Writes the entries of a page with attributes and handles (`dirlistplus3`, RFC 1813, 3.3.17), each behind a TRUE,
/// and a FALSE at the end.
#[tactic(auto, unfolding(nfs_xdr::specs::Writing::appended))]
fn write_full_entries(writer: &mut Writer, entries: &[FullEntry]) -> Result<(), XdrError>
    requires { All HasFullEntryForm entries.now }
    ensures { WritesResult (Entries entryplus3, map full_entry_value entries.now) writer.old writer.new result }
{
    for full in entries {
        writer.bool(true)?;
        write_full_entry(writer, full)?;
    }
    writer.bool(false)
}

/// Writes one entry with its attributes and handle (`entryplus3`, RFC 1813, 3.3.17).
#[tactic(auto, unfolding(nfs_xdr::specs::Writing::appended))]
fn write_full_entry(writer: &mut Writer, full: &FullEntry) -> Result<(), XdrError>
    requires { HasFullEntryForm full.now }
    ensures { WritesResult (entryplus3, full_entry_value full.now) writer.old writer.new result }
{
    writer.u64(full.entry.fileid)?;
    writer.opaque(full.entry.name.as_slice())?;
    writer.u64(full.entry.cookie)?;
    write_optional_attributes(writer, full.attributes)?;
    write_optional_handle(writer, &full.object)
}

/// Writes the room of a file system (RFC 1813, 3.3.18).
#[tactic(auto, unfolding(nfs_xdr::specs::Writing::appended))]
fn write_space(writer: &mut Writer, space: Space) -> Result<(), XdrError>
    ensures written { WritesFront space3 (space_value space) writer.old writer.new result }
    ensures form { HasSpelling space3 (space_value space) }
{
    writer.u64(space.total_bytes)?;
    writer.u64(space.free_bytes)?;
    writer.u64(space.available_bytes)?;
    writer.u64(space.total_files)?;
    writer.u64(space.free_files)?;
    writer.u64(space.available_files)?;
    writer.u32(space.unchanged_for)
}

/// Writes what a file system can do (RFC 1813, 3.3.19).
#[tactic(auto, unfolding(nfs_xdr::specs::Writing::appended))]
fn write_file_system(writer: &mut Writer, system: FileSystem) -> Result<(), XdrError>
    ensures written { WritesFront file_system3 (file_system_value system) writer.old writer.new result }
    ensures form { HasSpelling file_system3 (file_system_value system) }
{
    writer.u32(system.read_most)?;
    writer.u32(system.read_preferred)?;
    writer.u32(system.read_multiple)?;
    writer.u32(system.write_most)?;
    writer.u32(system.write_preferred)?;
    writer.u32(system.write_multiple)?;
    writer.u32(system.directory_preferred)?;
    writer.u64(system.largest_file)?;
    write_time(writer, system.time_step)?;
    writer.u32(system.properties)
}

/// Writes what names and links may be (RFC 1813, 3.3.20).
#[tactic(auto, unfolding(nfs_xdr::specs::Writing::appended))]
fn write_path_limits(writer: &mut Writer, limits: PathLimits) -> Result<(), XdrError>
    ensures written { WritesFront path_limits3 (path_limits_value limits) writer.old writer.new result }
    ensures form { HasSpelling path_limits3 (path_limits_value limits) }
{
    writer.u32(limits.most_links)?;
    writer.u32(limits.longest_name)?;
    writer.bool(limits.no_truncation)?;
    writer.bool(limits.chown_restricted)?;
    writer.bool(limits.case_insensitive)?;
    writer.bool(limits.case_preserving)
}
