//! The checks that procedures share; each tells the status of a call that fails it (RFC 1813, 2.6).

ghost use Rattle.std.specs.Prelude.{◌≡◌, IfOk, not};
ghost use Rattle.nfs_machine.specs.Checks.{changeable, holding, is_writable, permitted};
ghost use Rattle.nfs_machine.specs.State.{Content, Socket};
ghost use Rattle.nfs_machine.specs.Attributes.{is_directory, type_of};
ghost use Rattle.nfs_inodes.specs.Known.{ChecksDirectory, ChecksRegular, shell};
ghost use Rattle.nfs_inodes.specs.Rights.{right_of};

use crate::found::{Known, export_at};
use crate::kinds::{KnownDirectory, KnownFile};
use crate::permission::{Right, may};
use nfs_machine::Ctx;
use nfs_objects::LivingExport;
use nfs_wire::{FileType, NfsStatus};

/// The object is a directory.
///
/// # Errors
///
/// `NotDirectory` where it is none.
pub fn directory(known: &Known) -> Result<KnownDirectory, NfsStatus>
    ensures known { IfOk result (λ directory. directory.known ≡ known.now) }
    ensures checks { ChecksDirectory known.now result }
{
    match known.attributes.kind {
        FileType::Directory => Ok(KnownDirectory { known: *known }),
        _ => Err(NfsStatus::NotDirectory),
    }
}

/// The object is a regular file.
///
/// # Errors
///
/// `Invalid` where it is none.
pub fn regular(known: &Known) -> Result<KnownFile, NfsStatus>
    ensures known { IfOk result (λ file. file.known ≡ known.now) }
    ensures checks { ChecksRegular known.now result }
{
    match known.attributes.kind {
        FileType::Regular => Ok(KnownFile { known: *known }),
        _ => Err(NfsStatus::Invalid),
    }
}

/// Whether the object may be changed: its export is there and not read only.
pub fn is_writable(exports: &[LivingExport], known: &Known) -> bool
    ensures { result ≡ is_writable exports.now (shell known.now Socket) }
{
    match export_at(exports, known.export) {
        Some(export) => !export.is_read_only(),
        None => false,
    }
}

/// The object is anything but a directory.
///
/// # Errors
///
/// `status` where it is one.
pub fn no_directory(status: NfsStatus, known: &Known) -> Result<(), NfsStatus>
    ensures { (content : Content) → type_of content ≡ known.now.attributes.kind →
        holding (not (is_directory content)) status ≡ result }
{
    match known.attributes.kind {
        FileType::Directory => Err(status),
        _ => Ok(()),
    }
}

/// The object may be changed: its export is there and not read only.
///
/// # Errors
///
/// `ReadOnly` where it may not.
pub fn changeable(exports: &[LivingExport], known: &Known) -> Result<(), NfsStatus>
    ensures { result ≡ changeable exports.now (shell known.now Socket) }
{
    if is_writable(exports, known) {
        Ok(())
    } else {
        Err(NfsStatus::ReadOnly)
    }
}

/// Asks for a right.
///
/// # Errors
///
/// `Access` where the caller has it not.
pub fn permitted(ctx: &Ctx, known: &Known, right: Right) -> Result<(), NfsStatus>
    ensures { result ≡ permitted ctx.now (shell known.now Socket) (right_of right) }
{
    if may(&ctx.ids, known, right) {
        Ok(())
    } else {
        Err(NfsStatus::Access)
    }
}
