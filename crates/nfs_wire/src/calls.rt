//! The calls of NFS version 3, with their arguments.

ghost use Rattle.std.specs.Prelude.{◌≡◌, IfOk, IsErrOf, option_copied, slice_get};
ghost use Rattle.nfs_wire.specs.Calls.{procedure_of, IsFrontedBy, IsGarbage, CallHoldsBytes, ReadsCall};
ghost use Rattle.nfs_wire.specs.Calls.{SpellsOneCall};
ghost use Rattle.nfs_wire.specs.Changing.{is_changing_nfs};
ghost use Rattle.nfs_wire.specs.Handles.{nfs_handles};

mod data;
mod items;
mod names;
mod pages;

use crate::attributes::{DeviceNumber, SetAttributes, Time};
use bytes::Bytes;
use nfs_xdr::{ArgumentsError, SharedReader, XdrError, are_bytes};

/// A name in a directory (`diropargs3`).
#[derive(Drop, PartialEq, Eq)]
pub struct DirOp {
    /// The handle of the directory.
    pub directory: Bytes,
    pub name: Bytes,
}

/// 8 bytes that nobody but their maker reads (`createverf3`, `cookieverf3` and `writeverf3`).
#[derive(Clone, Copy, Debug, PartialEq, Eq)]
pub struct Verifier {
    pub bytes: [u8; 8],
}

/// The arguments of SETATTR (RFC 1813, 3.3.2).
#[derive(Drop, PartialEq, Eq)]
pub struct SetattrArguments {
    /// The object's handle.
    pub object: Bytes,
    pub attributes: SetAttributes,
    /// When given, the object's time of change must be this.
    pub guard: Option<Time>,
}

/// The arguments of ACCESS (RFC 1813, 3.3.4).
#[derive(Drop, PartialEq, Eq)]
pub struct AccessArguments {
    /// The object's handle.
    pub object: Bytes,
    /// A bit for each right that is asked about.
    pub rights: u32,
}

/// The arguments of READ (RFC 1813, 3.3.6).
#[derive(Drop, PartialEq, Eq)]
pub struct ReadArguments {
    /// The file's handle.
    pub file: Bytes,
    /// In bytes.
    pub offset: u64,
    /// In bytes.
    pub count: u32,
}

/// How a WRITE is to be committed (`stable_how`, RFC 1813, 3.3.7).
#[derive(Clone, Copy, Debug, PartialEq, Eq)]
pub enum Stability {
    Unstable,
    DataSync,
    FileSync,
}

/// The arguments of WRITE (RFC 1813, 3.3.7).
#[derive(Drop, PartialEq, Eq)]
pub struct WriteArguments {
    /// The file's handle.
    pub file: Bytes,
    /// In bytes.
    pub offset: u64,
    /// In bytes. The caller gives it beside the data, and the two may differ.
    pub count: u32,
    pub stable: Stability,
    pub data: Bytes,
}

/// How CREATE makes a file (`createhow3`, RFC 1813, 3.3.8).
#[derive(Clone, Copy, PartialEq, Eq)]
pub enum CreateHow {
    Unchecked(SetAttributes),
    Guarded(SetAttributes),
    Exclusive(Verifier),
}

/// The arguments of CREATE (RFC 1813, 3.3.8).
#[derive(Drop, PartialEq, Eq)]
pub struct CreateArguments {
    pub place: DirOp,
    pub how: CreateHow,
}

/// The arguments of MKDIR (RFC 1813, 3.3.9).
#[derive(Drop, PartialEq, Eq)]
pub struct MkdirArguments {
    pub place: DirOp,
    pub attributes: SetAttributes,
}

/// The arguments of SYMLINK (RFC 1813, 3.3.10).
#[derive(Drop, PartialEq, Eq)]
pub struct SymlinkArguments {
    pub place: DirOp,
    pub attributes: SetAttributes,
    /// What the link says.
    pub text: Bytes,
}

/// A type of file that MKNOD does not make.
#[derive(Clone, Copy, PartialEq, Eq)]
pub enum Ordinary {
    Regular,
    Directory,
    Link,
}

/// What MKNOD makes (`mknoddata3`, RFC 1813, 3.3.11).
#[derive(Clone, Copy, PartialEq, Eq)]
pub enum Special {
    BlockDevice(SetAttributes, DeviceNumber),
    CharacterDevice(SetAttributes, DeviceNumber),
    Socket(SetAttributes),
    Fifo(SetAttributes),
    /// A type whose arm is void.
    Other(Ordinary),
}

/// The arguments of MKNOD (RFC 1813, 3.3.11).
#[derive(Drop, PartialEq, Eq)]
pub struct MknodArguments {
    pub place: DirOp,
    pub what: Special,
}

/// The arguments of RENAME (RFC 1813, 3.3.14).
#[derive(Drop, PartialEq, Eq)]
pub struct RenameArguments {
    pub from: DirOp,
    pub to: DirOp,
}

/// The arguments of LINK (RFC 1813, 3.3.15).
#[derive(Drop, PartialEq, Eq)]
pub struct LinkArguments {
    /// The file's handle.
    pub file: Bytes,
    /// Where the new name stands.
    pub place: DirOp,
}

/// The arguments of READDIR (RFC 1813, 3.3.16).
#[derive(Drop, PartialEq, Eq)]
pub struct ReaddirArguments {
    /// The directory's handle.
    pub directory: Bytes,
    /// The entry behind which the page begins; 0 at the start.
    pub cookie: u64,
    pub verifier: Verifier,
    /// The most bytes of READDIR3resok, which is the result without its status (4 bytes).
    pub count: u32,
}

/// The arguments of READDIRPLUS (RFC 1813, 3.3.17).
#[derive(Drop, PartialEq, Eq)]
pub struct ReaddirplusArguments {
    /// The directory's handle.
    pub directory: Bytes,
    /// The entry behind which the page begins; 0 at the start.
    pub cookie: u64,
    pub verifier: Verifier,
    /// The most bytes of numbers, names and cookies.
    pub directory_count: u32,
    /// The most bytes of READDIRPLUS3resok, which is the result without its status (4 bytes).
    pub most: u32,
}

/// The arguments of COMMIT (RFC 1813, 3.3.21).
#[derive(Drop, PartialEq, Eq)]
pub struct CommitArguments {
    /// The file's handle.
    pub file: Bytes,
    /// In bytes.
    pub offset: u64,
    /// In bytes.
    pub count: u32,
}

/// A call of NFS version 3.
#[derive(Drop, PartialEq, Eq)]
pub enum NfsCall {
    /// Procedure 0 (RFC 1813, 3.3.0).
    Null,
    /// Procedure 1 (RFC 1813, 3.3.1), with the object's handle.
    Getattr(Bytes),
    /// Procedure 2 (RFC 1813, 3.3.2).
    Setattr(SetattrArguments),
    /// Procedure 3 (RFC 1813, 3.3.3).
    Lookup(DirOp),
    /// Procedure 4 (RFC 1813, 3.3.4).
    Access(AccessArguments),
    /// Procedure 5 (RFC 1813, 3.3.5), with the link's handle.
    Readlink(Bytes),
    /// Procedure 6 (RFC 1813, 3.3.6).
    Read(ReadArguments),
    /// Procedure 7 (RFC 1813, 3.3.7).
    Write(WriteArguments),
    /// Procedure 8 (RFC 1813, 3.3.8).
    Create(CreateArguments),
    /// Procedure 9 (RFC 1813, 3.3.9).
    Mkdir(MkdirArguments),
    /// Procedure 10 (RFC 1813, 3.3.10).
    Symlink(SymlinkArguments),
    /// Procedure 11 (RFC 1813, 3.3.11).
    Mknod(MknodArguments),
    /// Procedure 12 (RFC 1813, 3.3.12).
    Remove(DirOp),
    /// Procedure 13 (RFC 1813, 3.3.13).
    Rmdir(DirOp),
    /// Procedure 14 (RFC 1813, 3.3.14).
    Rename(RenameArguments),
    /// Procedure 15 (RFC 1813, 3.3.15).
    Link(LinkArguments),
    /// Procedure 16 (RFC 1813, 3.3.16).
    Readdir(ReaddirArguments),
    /// Procedure 17 (RFC 1813, 3.3.17).
    Readdirplus(ReaddirplusArguments),
    /// Procedure 18 (RFC 1813, 3.3.18), with the handle of an object of the file system.
    Fsstat(Bytes),
    /// Procedure 19 (RFC 1813, 3.3.19), with the handle of an object of the file system.
    Fsinfo(Bytes),
    /// Procedure 20 (RFC 1813, 3.3.20), with the object's handle.
    Pathconf(Bytes),
    /// Procedure 21 (RFC 1813, 3.3.21).
    Commit(CommitArguments),
}

impl NfsCall {
    /// Whether a call may change something, so that it is not executed again where its record comes once more.
    pub fn is_changing(&self) -> bool
        ensures { result ≡ is_changing_nfs self.now }
    {
        match self {
            NfsCall::Setattr(_) => true,
            NfsCall::Write(_) => true,
            NfsCall::Create(_) => true,
            NfsCall::Mkdir(_) => true,
            NfsCall::Symlink(_) => true,
            NfsCall::Mknod(_) => true,
            NfsCall::Remove(_) => true,
            NfsCall::Rmdir(_) => true,
            NfsCall::Rename(_) => true,
            NfsCall::Link(_) => true,
            _ => false,
        }
    }

    /// The handle that a call names first, if it names one (RFC 1813, 3.3).
    pub fn first_handle(&self) -> Option<&Bytes>
        ensures { option_copied result ≡ slice_get (nfs_handles self.now) 0 }
    {
        match self {
            NfsCall::Null => None,
            NfsCall::Getattr(object) => Some(object),
            NfsCall::Setattr(arguments) => Some(&arguments.object),
            NfsCall::Lookup(place) => Some(&place.directory),
            NfsCall::Access(arguments) => Some(&arguments.object),
            NfsCall::Readlink(link) => Some(link),
            NfsCall::Read(arguments) => Some(&arguments.file),
            NfsCall::Write(arguments) => Some(&arguments.file),
            NfsCall::Create(arguments) => Some(&arguments.place.directory),
            NfsCall::Mkdir(arguments) => Some(&arguments.place.directory),
            NfsCall::Symlink(arguments) => Some(&arguments.place.directory),
            NfsCall::Mknod(arguments) => Some(&arguments.place.directory),
            NfsCall::Remove(place) => Some(&place.directory),
            NfsCall::Rmdir(place) => Some(&place.directory),
            NfsCall::Rename(arguments) => Some(&arguments.from.directory),
            NfsCall::Link(arguments) => Some(&arguments.file),
            NfsCall::Readdir(arguments) => Some(&arguments.directory),
            NfsCall::Readdirplus(arguments) => Some(&arguments.directory),
            NfsCall::Fsstat(object) => Some(object),
            NfsCall::Fsinfo(object) => Some(object),
            NfsCall::Pathconf(object) => Some(object),
            NfsCall::Commit(arguments) => Some(&arguments.file),
        }
    }

    /// The handle that a call names second, if it names two.
    pub fn second_handle(&self) -> Option<&Bytes>
        ensures { option_copied result ≡ slice_get (nfs_handles self.now) 1 }
    {
        match self {
            NfsCall::Rename(arguments) => Some(&arguments.to.directory),
            NfsCall::Link(arguments) => Some(&arguments.place.directory),
            _ => None,
        }
    }
}

/// The call of the procedure of this number that the bytes hold. Bytes after its arguments are ignored.
///
/// The byte strings of a call are shared when all of it was read, so `Memory` says that it is one.
pub fn read_args(procedure: u32, mut arguments: SharedReader<'_>) -> Result<NfsCall, ArgumentsError>
    // A call that is read is of that procedure, and a front of the bytes spells its arguments.
    ensures procedure { IfOk result (λ call. procedure_of call ≡ procedure) }
    ensures found { IfOk result (λ call. IsFrontedBy call arguments.entry) }
    // Garbage is what no front spells, as arguments of that procedure.
    ensures garbage { IsErrOf result ArgumentsError.Garbage → IsGarbage procedure arguments.entry }
    // There is no memory only for a call that a front spells, and that holds bytes.
    ensures memory { IsErrOf result ArgumentsError.Memory → CallHoldsBytes procedure arguments.entry }
{
    are_bytes(arguments.as_slice());
    Ok(read_call(procedure, &mut arguments)?)
}

/// One list of bytes holds at its front the arguments of at most one call of a procedure.
pub fn one_call_is_spelled()
    ensures { SpellsOneCall }
{}

/// The arguments of a call, of the procedure of this number. Bytes after them are ignored.
#[tactic(auto, unfolding(nfs_xdr::specs::Reading::read))]
fn read_call(procedure: u32, arguments: &mut SharedReader<'_>) -> Result<NfsCall, XdrError>
    ensures { ReadsCall procedure arguments.old arguments.new result }
{
    match procedure {
        0 => Ok(NfsCall::Null),
        1 => data::read_getattr(arguments),
        2 => data::read_setattr(arguments),
        3 => names::read_lookup(arguments),
        4 => data::read_access(arguments),
        5 => data::read_readlink(arguments),
        6 => data::read_read(arguments),
        7 => data::read_write(arguments),
        8 => names::read_create(arguments),
        9 => names::read_mkdir(arguments),
        10 => names::read_symlink(arguments),
        11 => names::read_mknod(arguments),
        12 => names::read_remove(arguments),
        13 => names::read_rmdir(arguments),
        14 => names::read_rename(arguments),
        15 => names::read_link(arguments),
        16 => pages::read_readdir(arguments),
        17 => pages::read_readdirplus(arguments),
        18 => pages::read_fsstat(arguments),
        19 => pages::read_fsinfo(arguments),
        20 => pages::read_pathconf(arguments),
        21 => data::read_commit(arguments),
        _ => Err(XdrError::BadValue),
    }
}
