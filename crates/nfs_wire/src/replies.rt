//! The results of NFS version 3.

ghost use Rattle.std.specs.Prelude.{◌≡◌, ◌++◌, OnOk, IfErr};
ghost use Rattle.nfs_xdr.specs.Laws.{IsItsSpelling};
ghost use Rattle.nfs_xdr.specs.declared.XdrError.TheVariants.{Memory};
ghost use Rattle.nfs_wire.specs.Replies.{result_of, result_bytes, HasNfsForm};
ghost use Rattle.nfs_xdr.specs.Writing.{WritesResult};

mod data;
mod items;
mod names;
mod pages;

use crate::attributes::{Attributes, Time, Wcc};
use crate::calls::{Stability, Verifier};
use crate::entries::{FullNames, Names};
use crate::status::NfsStatus;
use bytes::Bytes;
use nfs_xdr::{Pieces, Writer, XdrError};

/// The result of SETATTR (RFC 1813, 3.3.2).
#[derive(Clone, Copy, PartialEq, Eq)]
pub struct SetattrReply {
    pub wcc: Wcc,
    pub result: Result<(), NfsStatus>,
}

/// What LOOKUP found.
#[derive(Drop, PartialEq, Eq)]
pub struct Found {
    /// The object's handle.
    pub object: Bytes,
    /// The object's attributes.
    pub attributes: Option<Attributes>,
}

/// The result of LOOKUP (RFC 1813, 3.3.3).
#[derive(Drop, PartialEq, Eq)]
pub struct LookupReply {
    /// The directory's attributes.
    pub directory: Option<Attributes>,
    pub result: Result<Found, NfsStatus>,
}

/// The result of ACCESS (RFC 1813, 3.3.4).
#[derive(Clone, Copy, PartialEq, Eq)]
pub struct AccessReply {
    pub attributes: Option<Attributes>,
    /// A bit for each right that is granted.
    pub result: Result<u32, NfsStatus>,
}

/// The result of READLINK (RFC 1813, 3.3.5).
#[derive(Drop, PartialEq, Eq)]
pub struct ReadlinkReply {
    pub attributes: Option<Attributes>,
    /// What the link says.
    pub result: Result<Bytes, NfsStatus>,
}

/// What READ read.
#[derive(Drop, PartialEq, Eq)]
pub struct ReadData {
    /// In bytes.
    pub count: u32,
    /// Whether the file ends behind the data.
    pub eof: bool,
    pub data: Pieces,
}

/// The result of READ (RFC 1813, 3.3.6).
#[derive(Drop, PartialEq, Eq)]
pub struct ReadReply {
    pub attributes: Option<Attributes>,
    pub result: Result<ReadData, NfsStatus>,
}

/// What WRITE wrote.
#[derive(Clone, Copy, PartialEq, Eq)]
pub struct Written {
    /// In bytes.
    pub count: u32,
    pub committed: Stability,
    pub verifier: Verifier,
}

/// The result of WRITE (RFC 1813, 3.3.7).
#[derive(Clone, Copy, PartialEq, Eq)]
pub struct WriteReply {
    pub wcc: Wcc,
    pub result: Result<Written, NfsStatus>,
}

/// What CREATE, MKDIR, SYMLINK or MKNOD made.
#[derive(Drop, PartialEq, Eq)]
pub struct Made {
    /// The new object's handle.
    pub object: Option<Bytes>,
    /// The new object's attributes.
    pub attributes: Option<Attributes>,
}

/// The result of CREATE, MKDIR, SYMLINK or MKNOD (RFC 1813, 3.3.8 to 3.3.11).
#[derive(Drop, PartialEq, Eq)]
pub struct MadeReply {
    pub directory: Wcc,
    pub result: Result<Made, NfsStatus>,
}

/// The result of REMOVE or RMDIR (RFC 1813, 3.3.12 and 3.3.13).
#[derive(Clone, Copy, PartialEq, Eq)]
pub struct RemovedReply {
    pub directory: Wcc,
    pub result: Result<(), NfsStatus>,
}

/// The result of RENAME (RFC 1813, 3.3.14).
#[derive(Clone, Copy, PartialEq, Eq)]
pub struct RenamedReply {
    /// The directory of the old name.
    pub from: Wcc,
    /// The directory of the new name.
    pub to: Wcc,
    pub result: Result<(), NfsStatus>,
}

/// The result of LINK (RFC 1813, 3.3.15).
#[derive(Clone, Copy, PartialEq, Eq)]
pub struct LinkedReply {
    /// The file's attributes.
    pub attributes: Option<Attributes>,
    pub directory: Wcc,
    pub result: Result<(), NfsStatus>,
}

/// A page of a directory.
#[derive(Drop, PartialEq, Eq)]
pub struct Page {
    pub verifier: Verifier,
    pub entries: Names,
    /// Whether no entry stands behind the page.
    pub eof: bool,
}

/// The result of READDIR (RFC 1813, 3.3.16).
#[derive(Drop, PartialEq, Eq)]
pub struct ReaddirReply {
    /// The directory's attributes.
    pub attributes: Option<Attributes>,
    pub result: Result<Page, NfsStatus>,
}

/// A page of a directory with attributes and handles.
#[derive(Drop, PartialEq, Eq)]
pub struct PagePlus {
    pub verifier: Verifier,
    pub entries: FullNames,
    /// Whether no entry stands behind the page.
    pub eof: bool,
}

/// The result of READDIRPLUS (RFC 1813, 3.3.17).
#[derive(Drop, PartialEq, Eq)]
pub struct ReaddirplusReply {
    /// The directory's attributes.
    pub attributes: Option<Attributes>,
    pub result: Result<PagePlus, NfsStatus>,
}

/// The room of a file system.
#[derive(Clone, Copy, PartialEq, Eq)]
pub struct Space {
    pub total_bytes: u64,
    pub free_bytes: u64,
    /// What the caller may use.
    pub available_bytes: u64,
    pub total_files: u64,
    pub free_files: u64,
    /// What the caller may use.
    pub available_files: u64,
    /// For so many seconds the file system is not expected to change.
    pub unchanged_for: u32,
}

/// The result of FSSTAT (RFC 1813, 3.3.18).
#[derive(Clone, Copy, PartialEq, Eq)]
pub struct FsstatReply {
    pub attributes: Option<Attributes>,
    pub result: Result<Space, NfsStatus>,
}

/// What a file system can do. Sizes are in bytes.
#[derive(Clone, Copy, PartialEq, Eq)]
pub struct FileSystem {
    pub read_most: u32,
    pub read_preferred: u32,
    pub read_multiple: u32,
    pub write_most: u32,
    pub write_preferred: u32,
    pub write_multiple: u32,
    pub directory_preferred: u32,
    pub largest_file: u64,
    /// How exactly times can be set.
    pub time_step: Time,
    /// A bit for each property.
    pub properties: u32,
}

/// The result of FSINFO (RFC 1813, 3.3.19).
#[derive(Clone, Copy, PartialEq, Eq)]
pub struct FsinfoReply {
    pub attributes: Option<Attributes>,
    pub result: Result<FileSystem, NfsStatus>,
}

/// What names and links of an object may be.
#[derive(Clone, Copy, PartialEq, Eq)]
pub struct PathLimits {
    pub most_links: u32,
    /// In bytes.
    pub longest_name: u32,
    /// Whether a name that is too long is refused and not cut.
    pub no_truncation: bool,
    /// Whether only the superuser may change an owner.
    pub chown_restricted: bool,
    pub case_insensitive: bool,
    pub case_preserving: bool,
}

/// The result of PATHCONF (RFC 1813, 3.3.20).
#[derive(Clone, Copy, PartialEq, Eq)]
pub struct PathconfReply {
    pub attributes: Option<Attributes>,
    pub result: Result<PathLimits, NfsStatus>,
}

/// The result of COMMIT (RFC 1813, 3.3.21).
#[derive(Clone, Copy, PartialEq, Eq)]
pub struct CommitReply {
    pub wcc: Wcc,
    pub result: Result<Verifier, NfsStatus>,
}

/// The results of a call of NFS version 3. What is shown both when a call was done and when it was refused stands
/// beside the result.
#[derive(Drop, PartialEq, Eq)]
pub enum NfsReply {
    /// Procedure 0 (RFC 1813, 3.3.0).
    Null,
    /// Procedure 1 (RFC 1813, 3.3.1).
    Getattr(Result<Attributes, NfsStatus>),
    /// Procedure 2 (RFC 1813, 3.3.2).
    Setattr(SetattrReply),
    /// Procedure 3 (RFC 1813, 3.3.3).
    Lookup(LookupReply),
    /// Procedure 4 (RFC 1813, 3.3.4).
    Access(AccessReply),
    /// Procedure 5 (RFC 1813, 3.3.5).
    Readlink(ReadlinkReply),
    /// Procedure 6 (RFC 1813, 3.3.6).
    Read(ReadReply),
    /// Procedure 7 (RFC 1813, 3.3.7).
    Write(WriteReply),
    /// Procedure 8 (RFC 1813, 3.3.8).
    Create(MadeReply),
    /// Procedure 9 (RFC 1813, 3.3.9).
    Mkdir(MadeReply),
    /// Procedure 10 (RFC 1813, 3.3.10).
    Symlink(MadeReply),
    /// Procedure 11 (RFC 1813, 3.3.11).
    Mknod(MadeReply),
    /// Procedure 12 (RFC 1813, 3.3.12).
    Remove(RemovedReply),
    /// Procedure 13 (RFC 1813, 3.3.13).
    Rmdir(RemovedReply),
    /// Procedure 14 (RFC 1813, 3.3.14).
    Rename(RenamedReply),
    /// Procedure 15 (RFC 1813, 3.3.15).
    Link(LinkedReply),
    /// Procedure 16 (RFC 1813, 3.3.16).
    Readdir(ReaddirReply),
    /// Procedure 17 (RFC 1813, 3.3.17).
    Readdirplus(ReaddirplusReply),
    /// Procedure 18 (RFC 1813, 3.3.18).
    Fsstat(FsstatReply),
    /// Procedure 19 (RFC 1813, 3.3.19).
    Fsinfo(FsinfoReply),
    /// Procedure 20 (RFC 1813, 3.3.20).
    Pathconf(PathconfReply),
    /// Procedure 21 (RFC 1813, 3.3.21).
    Commit(CommitReply),
}

/// Writes the result of a reply at the end. An error is want of memory; what the writer then holds of
/// the result is not said.
pub fn write_result(writer: &mut Writer, reply: &NfsReply) -> Result<(), XdrError>
    requires { HasNfsForm reply.now }
    ensures written { OnOk result (writer.new ≡ writer.old ++ result_bytes reply.now) }
    // Those bytes are the one spelling of the result with zeros as padding.
    ensures spelled { OnOk result
        (IsItsSpelling (result_of reply.now).0 (result_of reply.now).1 (result_bytes reply.now)) }
    ensures err { IfErr result (λ e. e ≡ Memory) }
{
    append_result(writer, reply)
}

/// Writes the result of a reply at the end, procedure by procedure.
#[tactic(auto, unfolding(nfs_xdr::specs::Writing::appended))]
fn append_result(writer: &mut Writer, reply: &NfsReply) -> Result<(), XdrError>
    requires { HasNfsForm reply.now }
    ensures { WritesResult (result_of reply.now) writer.old writer.new result }
{
    match reply {
        NfsReply::Null => Ok(()),
        NfsReply::Getattr(result) => data::write_getattr(writer, result),
        NfsReply::Setattr(reply) => data::write_setattr(writer, reply),
        NfsReply::Lookup(reply) => names::write_lookup(writer, reply),
        NfsReply::Access(reply) => data::write_access(writer, reply),
        NfsReply::Readlink(reply) => data::write_readlink(writer, reply),
        NfsReply::Read(reply) => data::write_read(writer, reply),
        NfsReply::Write(reply) => data::write_write(writer, reply),
        NfsReply::Create(reply)
        | NfsReply::Mkdir(reply)
        | NfsReply::Symlink(reply)
        | NfsReply::Mknod(reply) => names::write_made(writer, reply),
        NfsReply::Remove(reply) | NfsReply::Rmdir(reply) => names::write_removed(writer, reply),
        NfsReply::Rename(reply) => names::write_renamed(writer, reply),
        NfsReply::Link(reply) => names::write_linked(writer, reply),
        NfsReply::Readdir(reply) => pages::write_readdir(writer, reply),
        NfsReply::Readdirplus(reply) => pages::write_readdirplus(writer, reply),
        NfsReply::Fsstat(reply) => pages::write_fsstat(writer, reply),
        NfsReply::Fsinfo(reply) => pages::write_fsinfo(writer, reply),
        NfsReply::Pathconf(reply) => pages::write_pathconf(writer, reply),
        NfsReply::Commit(reply) => data::write_commit(writer, reply),
    }
}
