//! MOUNT version 3 (RFC 1813, appendix I).

ghost use Rattle.std.specs.Prelude.{◌≡◌, ◌++◌, IfOk, IfErr, IsErrOf, OnOk};
ghost use Rattle.nfs_xdr.specs.Laws.{IsItsSpelling};
ghost use Rattle.nfs_xdr.specs.Reading.{ReadsFront};
ghost use Rattle.nfs_xdr.specs.declared.XdrError.TheVariants.{Memory};
ghost use Rattle.nfs_xdr.specs.Programs.{CallHoldsBytes, IsFrontedBy, IsGarbage, SpellsOneCall};
ghost use Rattle.nfs_xdr.specs.Writing.{WritesResult};
ghost use Rattle.side_wire.specs.Changing.{is_changing_mount};
ghost use Rattle.side_wire.specs.Mount.{mount_procedure_of, SpellsMountArguments, dirpath, mount_result_of};
ghost use Rattle.side_wire.specs.Mount.{mount_arguments, mount_result_bytes, HasMountForm, ReadsMountCall};

mod lists;
mod results;

use bytes::Bytes;
pub use lists::{ExportList, ExportNode, Groups, MountBody, MountList};
use nfs_xdr::{ArgumentsError, Part, SharedReader, Writer, XdrError, are_bytes};

/// A status other than MNT3_OK (`mountstat3`).
#[derive(Clone, Copy, Debug, PartialEq, Eq)]
pub enum MountStatus {
    Permission,
    NoEntry,
    Io,
    Access,
    NotDirectory,
    Invalid,
    NameTooLong,
    NotSupported,
    ServerFault,
}

/// A call of MOUNT version 3.
#[derive(Drop, PartialEq, Eq)]
pub enum MountCall {
    /// Procedure 0 (RFC 1813, 5.2.0).
    Null,
    /// Procedure 1 (RFC 1813, 5.2.1), with the path.
    Mnt(Bytes),
    /// Procedure 2 (RFC 1813, 5.2.2).
    Dump,
    /// Procedure 3, UMNT (RFC 1813, 5.2.3), with the path.
    Unmount(Bytes),
    /// Procedure 4, UMNTALL (RFC 1813, 5.2.4).
    UnmountAll,
    /// Procedure 5 (RFC 1813, 5.2.5).
    Export,
}

impl MountCall {
    /// Whether a call may change the mounts, so that it is not executed again where its record comes once more.
    pub fn is_changing(&self) -> bool
        ensures { result ≡ is_changing_mount self.now }
    {
        match self {
            MountCall::Mnt(_) | MountCall::Unmount(_) | MountCall::UnmountAll => true,
            MountCall::Null | MountCall::Dump | MountCall::Export => false,
        }
    }
}

/// The results of a call of MOUNT version 3.
#[derive(Drop, PartialEq, Eq)]
pub enum MountReply {
    /// Procedure 0 (RFC 1813, 5.2.0).
    Null,
    /// Procedure 1 (RFC 1813, 5.2.1): the handle of what the path names, of at most 64 bytes. The
    /// flavors that may be used on it are AUTH_SYS alone.
    Mnt(Result<Bytes, MountStatus>),
    /// Procedure 2 (RFC 1813, 5.2.2).
    Dump(MountList),
    /// Procedure 3, UMNT (RFC 1813, 5.2.3).
    Unmount,
    /// Procedure 4, UMNTALL (RFC 1813, 5.2.4).
    UnmountAll,
    /// Procedure 5 (RFC 1813, 5.2.5).
    Export(ExportList),
}

/// One list of bytes holds at its front the arguments of at most one call of a procedure.
pub fn one_call_is_spelled()
    ensures { SpellsOneCall mount_procedure_of SpellsMountArguments }
{}

/// The call of the procedure of this number that the bytes hold. Bytes after its arguments are ignored.
///
/// The byte strings of a call are shared when all of it was read, so `Memory` says that it is one.
pub fn read_args(
    procedure: u32,
    mut arguments: SharedReader<'_>,
) -> Result<MountCall, ArgumentsError>
    // A call that is read is of that procedure, and a front of the bytes spells its arguments.
    ensures procedure { IfOk result (λ call. mount_procedure_of call ≡ procedure) }
    ensures found { IfOk result (λ call. IsFrontedBy SpellsMountArguments call arguments.entry) }
    // Garbage is what no front spells, as arguments of that procedure.
    ensures garbage { IsErrOf result ArgumentsError.Garbage →
        IsGarbage mount_procedure_of SpellsMountArguments procedure arguments.entry }
    // There is no memory only for a call that a front spells, and that holds bytes.
    ensures memory { IsErrOf result ArgumentsError.Memory →
        CallHoldsBytes mount_arguments procedure arguments.entry }
{
    are_bytes(arguments.as_slice());
    Ok(read_call(procedure, &mut arguments)?)
}

/// Writes the result of a reply at the end. An error is want of memory; what the writer then holds of
/// the result is not said.
pub fn write_result(writer: &mut Writer, reply: &MountReply) -> Result<(), XdrError>
    requires { HasMountForm reply.now }
    ensures written { OnOk result (writer.new ≡ writer.old ++ mount_result_bytes reply.now) }
    // Those bytes are the one spelling of the result with zeros as padding.
    ensures spelled { OnOk result
        (IsItsSpelling (mount_result_of reply.now).0 (mount_result_of reply.now).1 (mount_result_bytes reply.now)) }
    ensures err { IfErr result (λ e. e ≡ Memory) }
{
    append_result(writer, reply)
}

/// The arguments of a call, of the procedure of this number. Bytes after them are ignored.
#[tactic(auto, unfolding(nfs_xdr::specs::Reading::read))]
fn read_call(procedure: u32, arguments: &mut SharedReader<'_>) -> Result<MountCall, XdrError>
    ensures { ReadsMountCall procedure arguments.old arguments.new result }
{
    match procedure {
        0 => Ok(MountCall::Null),
        1 => read_mnt(arguments),
        2 => Ok(MountCall::Dump),
        3 => read_unmount(arguments),
        4 => Ok(MountCall::UnmountAll),
        5 => Ok(MountCall::Export),
        _ => Err(XdrError::BadValue),
    }
}

/// The arguments of MNT (RFC 1813, 5.2.1).
fn read_mnt(arguments: &mut SharedReader<'_>) -> Result<MountCall, XdrError>
    ensures { ReadsMountCall 1 arguments.old arguments.new result }
{
    Ok(MountCall::Mnt(read_path(arguments)?.share()?))
}

/// The arguments of UMNT (RFC 1813, 5.2.3).
fn read_unmount(arguments: &mut SharedReader<'_>) -> Result<MountCall, XdrError>
    ensures { ReadsMountCall 3 arguments.old arguments.new result }
{
    Ok(MountCall::Unmount(read_path(arguments)?.share()?))
}

/// A path (`dirpath`, RFC 1813, 5.1.5).
fn read_path<'a>(reader: &mut SharedReader<'a>) -> Result<Part<'a>, XdrError>
    ensures { ReadsFront dirpath (λ path. path) reader.entry.now reader.exit.now result }
{
    reader.opaque(1024)
}

/// Writes the result of a reply at the end, procedure by procedure.
#[tactic(auto, unfolding(nfs_xdr::specs::Writing::appended))]
fn append_result(writer: &mut Writer, reply: &MountReply) -> Result<(), XdrError>
    requires { HasMountForm reply.now }
    ensures { WritesResult (mount_result_of reply.now) writer.old writer.new result }
{
    match reply {
        MountReply::Null | MountReply::Unmount | MountReply::UnmountAll => Ok(()),
        MountReply::Mnt(mounted) => results::write_mnt(writer, mounted),
        MountReply::Dump(mounts) => results::write_dump(writer, mounts.as_slice()),
        MountReply::Export(exports) => results::write_export(writer, exports.as_slice()),
    }
}
