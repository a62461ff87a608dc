//! Arguments of the procedures on names in directories.

ghost use Rattle.nfs_xdr.specs.Reading.{ReadsFront};
ghost use Rattle.nfs_wire.specs.Arguments.{createhow3, create_how_value, mknoddata3, special_value};
ghost use Rattle.nfs_wire.specs.Calls.{ReadsCall};

use super::items::{UNBOUNDED, read_handle, read_place, read_verifier};
use crate::attributes::{read_device, read_set_attributes};
use crate::calls::{
    CreateArguments, CreateHow, LinkArguments, MkdirArguments, MknodArguments, NfsCall, Ordinary,
    RenameArguments, Special, SymlinkArguments,
};
use nfs_xdr::{SharedReader, XdrError};

/// LOOKUP3args (RFC 1813, 3.3.3).
pub(super) fn read_lookup(arguments: &mut SharedReader<'_>) -> Result<NfsCall, XdrError>
    ensures { ReadsCall 3 arguments.old arguments.new result }
{
    Ok(NfsCall::Lookup(read_place(arguments)?.share()?))
}

/// CREATE3args (RFC 1813, 3.3.8).
#[tactic(auto, unfolding(nfs_xdr::specs::Reading::read))]
pub(super) fn read_create(arguments: &mut SharedReader<'_>) -> Result<NfsCall, XdrError>
    ensures { ReadsCall 8 arguments.old arguments.new result }
{
    let place = read_place(arguments)?;
    let how = read_create_how(arguments)?;
    Ok(NfsCall::Create(CreateArguments {
        place: place.share()?,
        how,
    }))
}

/// MKDIR3args (RFC 1813, 3.3.9).
#[tactic(auto, unfolding(nfs_xdr::specs::Reading::read))]
pub(super) fn read_mkdir(arguments: &mut SharedReader<'_>) -> Result<NfsCall, XdrError>
    ensures { ReadsCall 9 arguments.old arguments.new result }
{
    let place = read_place(arguments)?;
    let attributes = read_set_attributes(arguments)?;
    Ok(NfsCall::Mkdir(MkdirArguments {
        place: place.share()?,
        attributes,
    }))
}

/// SYMLINK3args (RFC 1813, 3.3.10).
#[tactic(auto, unfolding(nfs_xdr::specs::Reading::read))]
pub(super) fn read_symlink(arguments: &mut SharedReader<'_>) -> Result<NfsCall, XdrError>
    ensures { ReadsCall 10 arguments.old arguments.new result }
{
    let place = read_place(arguments)?;
    let attributes = read_set_attributes(arguments)?;
    let text = arguments.opaque(UNBOUNDED)?;
    Ok(NfsCall::Symlink(SymlinkArguments {
        place: place.share()?,
        attributes,
        text: text.share()?,
    }))
}

/// MKNOD3args (RFC 1813, 3.3.11).
#[tactic(auto, unfolding(nfs_xdr::specs::Reading::read))]
pub(super) fn read_mknod(arguments: &mut SharedReader<'_>) -> Result<NfsCall, XdrError>
    ensures { ReadsCall 11 arguments.old arguments.new result }
{
    let place = read_place(arguments)?;
    let what = read_special(arguments)?;
    Ok(NfsCall::Mknod(MknodArguments {
        place: place.share()?,
        what,
    }))
}

/// REMOVE3args (RFC 1813, 3.3.12).
pub(super) fn read_remove(arguments: &mut SharedReader<'_>) -> Result<NfsCall, XdrError>
    ensures { ReadsCall 12 arguments.old arguments.new result }
{
    Ok(NfsCall::Remove(read_place(arguments)?.share()?))
}

/// RMDIR3args (RFC 1813, 3.3.13).
pub(super) fn read_rmdir(arguments: &mut SharedReader<'_>) -> Result<NfsCall, XdrError>
    ensures { ReadsCall 13 arguments.old arguments.new result }
{
    Ok(NfsCall::Rmdir(read_place(arguments)?.share()?))
}

/// RENAME3args (RFC 1813, 3.3.14).
#[tactic(auto, unfolding(nfs_xdr::specs::Reading::read))]
pub(super) fn read_rename(arguments: &mut SharedReader<'_>) -> Result<NfsCall, XdrError>
    ensures { ReadsCall 14 arguments.old arguments.new result }
{
    let from = read_place(arguments)?;
    let to = read_place(arguments)?;
    Ok(NfsCall::Rename(RenameArguments {
        from: from.share()?,
        to: to.share()?,
    }))
}

/// LINK3args (RFC 1813, 3.3.15).
#[tactic(auto, unfolding(nfs_xdr::specs::Reading::read))]
pub(super) fn read_link(arguments: &mut SharedReader<'_>) -> Result<NfsCall, XdrError>
    ensures { ReadsCall 15 arguments.old arguments.new result }
{
    let file = read_handle(arguments)?;
    let place = read_place(arguments)?;
    Ok(NfsCall::Link(LinkArguments {
        file: file.share()?,
        place: place.share()?,
    }))
}

/// How CREATE makes a file (`createhow3`, RFC 1813, 3.3.8).
#[tactic(auto, using(nfs_xdr::proofs::UnionArmLemmas::unions), unfolding(nfs_xdr::specs::Reading::read))]
fn read_create_how(reader: &mut SharedReader<'_>) -> Result<CreateHow, XdrError>
    ensures { ReadsFront createhow3 create_how_value reader.old reader.new result }
{
    match reader.u32()? {
        0 => Ok(CreateHow::Unchecked(read_set_attributes(reader)?)),
        1 => Ok(CreateHow::Guarded(read_set_attributes(reader)?)),
        2 => Ok(CreateHow::Exclusive(read_verifier(reader)?)),
        _ => Err(XdrError::BadValue),
    }
}

/// What MKNOD makes (`mknoddata3`, RFC 1813, 3.3.11).
#[tactic(auto, using(nfs_xdr::proofs::UnionArmLemmas::unions), unfolding(nfs_xdr::specs::Reading::read))]
fn read_special(reader: &mut SharedReader<'_>) -> Result<Special, XdrError>
    ensures { ReadsFront mknoddata3 special_value reader.old reader.new result }
{
    match reader.u32()? {
        1 => Ok(Special::Other(Ordinary::Regular)),
        2 => Ok(Special::Other(Ordinary::Directory)),
        3 => Ok(Special::BlockDevice(read_set_attributes(reader)?, read_device(reader)?)),
        4 => Ok(Special::CharacterDevice(read_set_attributes(reader)?, read_device(reader)?)),
        5 => Ok(Special::Other(Ordinary::Link)),
        6 => Ok(Special::Socket(read_set_attributes(reader)?)),
        7 => Ok(Special::Fifo(read_set_attributes(reader)?)),
        _ => Err(XdrError::BadValue),
    }
}
