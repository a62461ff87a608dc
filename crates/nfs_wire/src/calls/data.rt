//! Arguments of the procedures on attributes and data.

ghost use Rattle.nfs_xdr.specs.Reading.{ReadsFront};
ghost use Rattle.nfs_wire.specs.Arguments.{sattrguard3, guard_value, stable_how, stability_number};
ghost use Rattle.nfs_wire.specs.Calls.{ReadsCall};

use super::items::{UNBOUNDED, read_handle};
use crate::attributes::{Time, read_set_attributes, read_time};
use crate::calls::{
    AccessArguments, CommitArguments, NfsCall, ReadArguments, SetattrArguments, Stability,
    WriteArguments,
};
use nfs_xdr::{SharedReader, XdrError};

/// GETATTR3args (RFC 1813, 3.3.1).
pub(super) fn read_getattr(arguments: &mut SharedReader<'_>) -> Result<NfsCall, XdrError>
    ensures { ReadsCall 1 arguments.old arguments.new result }
{
    Ok(NfsCall::Getattr(read_handle(arguments)?.share()?))
}

/// SETATTR3args (RFC 1813, 3.3.2).
#[tactic(auto, unfolding(nfs_xdr::specs::Reading::read))]
pub(super) fn read_setattr(arguments: &mut SharedReader<'_>) -> Result<NfsCall, XdrError>
    ensures { ReadsCall 2 arguments.old arguments.new result }
{
    let object = read_handle(arguments)?;
    let attributes = read_set_attributes(arguments)?;
    let guard = read_guard(arguments)?;
    Ok(NfsCall::Setattr(SetattrArguments {
        object: object.share()?,
        attributes,
        guard,
    }))
}

/// ACCESS3args (RFC 1813, 3.3.4).
#[tactic(auto, unfolding(nfs_xdr::specs::Reading::read))]
pub(super) fn read_access(arguments: &mut SharedReader<'_>) -> Result<NfsCall, XdrError>
    ensures { ReadsCall 4 arguments.old arguments.new result }
{
    let object = read_handle(arguments)?;
    let rights = arguments.u32()?;
    Ok(NfsCall::Access(AccessArguments {
        object: object.share()?,
        rights,
    }))
}

/// READLINK3args (RFC 1813, 3.3.5).
pub(super) fn read_readlink(arguments: &mut SharedReader<'_>) -> Result<NfsCall, XdrError>
    ensures { ReadsCall 5 arguments.old arguments.new result }
{
    Ok(NfsCall::Readlink(read_handle(arguments)?.share()?))
}

/// READ3args (RFC 1813, 3.3.6).
#[tactic(auto, unfolding(nfs_xdr::specs::Reading::read))]
pub(super) fn read_read(arguments: &mut SharedReader<'_>) -> Result<NfsCall, XdrError>
    ensures { ReadsCall 6 arguments.old arguments.new result }
{
    let file = read_handle(arguments)?;
    let offset = arguments.u64()?;
    let count = arguments.u32()?;
    Ok(NfsCall::Read(ReadArguments {
        file: file.share()?,
        offset,
        count,
    }))
}

/// WRITE3args (RFC 1813, 3.3.7). The data is a part of the record.
#[tactic(auto, unfolding(nfs_xdr::specs::Reading::read))]
pub(super) fn read_write(arguments: &mut SharedReader<'_>) -> Result<NfsCall, XdrError>
    ensures { ReadsCall 7 arguments.old arguments.new result }
{
    let file = read_handle(arguments)?;
    let offset = arguments.u64()?;
    let count = arguments.u32()?;
    let stable = read_stability(arguments)?;
    let data = arguments.opaque(UNBOUNDED)?;
    Ok(NfsCall::Write(WriteArguments {
        file: file.share()?,
        offset,
        count,
        stable,
        data: data.share()?,
    }))
}

/// COMMIT3args (RFC 1813, 3.3.21).
#[tactic(auto, unfolding(nfs_xdr::specs::Reading::read))]
pub(super) fn read_commit(arguments: &mut SharedReader<'_>) -> Result<NfsCall, XdrError>
    ensures { ReadsCall 21 arguments.old arguments.new result }
{
    let file = read_handle(arguments)?;
    let offset = arguments.u64()?;
    let count = arguments.u32()?;
    Ok(NfsCall::Commit(CommitArguments {
        file: file.share()?,
        offset,
        count,
    }))
}

/// A time that the object's time of change must be (`sattrguard3`, RFC 1813, 3.3.2).
#[tactic(auto, unfolding(nfs_xdr::specs::Reading::read))]
fn read_guard(reader: &mut SharedReader<'_>) -> Result<Option<Time>, XdrError>
    ensures { ReadsFront sattrguard3 guard_value reader.old reader.new result }
{
    if reader.bool()? {
        Ok(Some(read_time(reader)?))
    } else {
        Ok(None)
    }
}

/// How a WRITE is to be committed (`stable_how`, RFC 1813, 3.3.7).
#[tactic(auto, unfolding(nfs_xdr::specs::Reading::read))]
fn read_stability(reader: &mut SharedReader<'_>) -> Result<Stability, XdrError>
    ensures { ReadsFront stable_how stability_number reader.old reader.new result }
{
    match reader.u32()? {
        0 => Ok(Stability::Unstable),
        1 => Ok(Stability::DataSync),
        2 => Ok(Stability::FileSync),
        _ => Err(XdrError::BadValue),
    }
}
