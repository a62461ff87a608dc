//! Why a call was refused (RFC 1813, section 2.6).

ghost use Rattle.std.specs.Prelude.{◌≡◌};
ghost use Rattle.nfs_xdr.specs.Types.{HasSpelling};
ghost use Rattle.nfs_xdr.specs.Writing.{WritesFront};
ghost use Rattle.nfs_wire.specs.Status.{nfsstat3, status_number};

use nfs_xdr::{Writer, XdrError};

/// A status other than NFS3_OK (`nfsstat3`).
#[derive(Clone, Copy, Debug, PartialEq, Eq)]
pub enum NfsStatus {
    Permission,
    NoEntry,
    Io,
    NoDevice,
    Access,
    Exists,
    CrossDevice,
    UnsupportedDevice,
    NotDirectory,
    IsDirectory,
    Invalid,
    FileTooBig,
    NoSpace,
    ReadOnly,
    TooManyLinks,
    NameTooLong,
    NotEmpty,
    Quota,
    Stale,
    Remote,
    BadHandle,
    NotSynchronized,
    BadCookie,
    NotSupported,
    TooSmall,
    ServerFault,
    BadType,
    Jukebox,
}

/// Writes the status NFS3_OK, before the arm of a call that was done.
#[tactic(auto, unfolding(nfs_xdr::specs::Writing::appended))]
pub(crate) fn write_done(writer: &mut Writer) -> Result<(), XdrError>
    ensures { WritesFront nfsstat3 0 writer.old writer.new result }
{
    writer.u32(0)
}

/// Writes a status, before the arm of a call that was refused.
#[tactic(auto, using(crate::proofs::ResultLaws::status_form), unfolding(nfs_xdr::specs::Writing::appended))]
pub(crate) fn write_status(writer: &mut Writer, status: NfsStatus) -> Result<(), XdrError>
    ensures written { WritesFront nfsstat3 (status_number status) writer.old writer.new result }
    ensures form { HasSpelling nfsstat3 (status_number status) }
{
    writer.u32(number(status))
}

/// The number of a status (`nfsstat3`).
fn number(status: NfsStatus) -> u32
    ensures { result ≡ status_number status }
{
    match status {
        NfsStatus::Permission => 1,
        NfsStatus::NoEntry => 2,
        NfsStatus::Io => 5,
        NfsStatus::NoDevice => 6,
        NfsStatus::Access => 13,
        NfsStatus::Exists => 17,
        NfsStatus::CrossDevice => 18,
        NfsStatus::UnsupportedDevice => 19,
        NfsStatus::NotDirectory => 20,
        NfsStatus::IsDirectory => 21,
        NfsStatus::Invalid => 22,
        NfsStatus::FileTooBig => 27,
        NfsStatus::NoSpace => 28,
        NfsStatus::ReadOnly => 30,
        NfsStatus::TooManyLinks => 31,
        NfsStatus::NameTooLong => 63,
        NfsStatus::NotEmpty => 66,
        NfsStatus::Quota => 69,
        NfsStatus::Stale => 70,
        NfsStatus::Remote => 71,
        NfsStatus::BadHandle => 10001,
        NfsStatus::NotSynchronized => 10002,
        NfsStatus::BadCookie => 10003,
        NfsStatus::NotSupported => 10004,
        NfsStatus::TooSmall => 10005,
        NfsStatus::ServerFault => 10006,
        NfsStatus::BadType => 10007,
        NfsStatus::Jukebox => 10008,
    }
}
