//! Results of MOUNT (RFC 1813, 5.2).

ghost use Rattle.std.specs.Prelude.{◌≡◌, ◌≤◌, length, IfOk, Ok};
ghost use Rattle.std.specs.List.{All};
ghost use Rattle.nfs_xdr.specs.Writing.{WritesResult};
ghost use Rattle.side_wire.specs.Mount.{mount_status_number, mnt_result, dump_result, export_result, groups};
ghost use Rattle.side_wire.specs.Mount.{mountbody, mountbody_value, exportnode, exportnode_value, IsHostName};
ghost use Rattle.side_wire.specs.Mount.{HasMountBodyForm, HasExportNodeForm};

use super::{ExportNode, MountBody, MountStatus};
use bytes::Bytes;
use nfs_xdr::{Writer, XdrError};

/// The flavor of credentials that may be used on what is mounted (RFC 5531, 8.2).
const AUTH_SYS: i32 = 1;

/// The result of MNT (`mountres3`, RFC 1813, 5.2.1).
#[tactic(auto, using(crate::proofs::MountLaws::refusals), unfolding(nfs_xdr::specs::Writing::appended))]
pub(super) fn write_mnt(
    writer: &mut Writer,
    mounted: &Result<Bytes, MountStatus>,
) -> Result<(), XdrError>
    requires { IfOk mounted.now (λ handle. length handle ≤ 64) }
    ensures { WritesResult (mnt_result mounted.now) writer.old writer.new result }
{
    match mounted {
        Ok(handle) => write_mounted(writer, handle.as_slice()),
        Err(status) => writer.u32(number(*status)),
    }
}

/// The result of DUMP (`mountlist`, RFC 1813, 5.2.2): each mount behind a TRUE, and a FALSE at the end.
#[tactic(auto, unfolding(nfs_xdr::specs::Writing::appended))]
pub(super) fn write_dump(writer: &mut Writer, mounts: &[MountBody]) -> Result<(), XdrError>
    requires { All HasMountBodyForm mounts.now }
    ensures { WritesResult (dump_result mounts.now) writer.old writer.new result }
{
    for mount in mounts {
        writer.bool(true)?;
        write_mount_body(writer, mount)?;
    }
    writer.bool(false)
}

/// The result of EXPORT (`exports`, RFC 1813, 5.2.5): each export behind a TRUE, and a FALSE at the end.
#[tactic(auto, unfolding(nfs_xdr::specs::Writing::appended))]
pub(super) fn write_export(writer: &mut Writer, exports: &[ExportNode]) -> Result<(), XdrError>
    requires { All HasExportNodeForm exports.now }
    ensures { WritesResult (export_result exports.now) writer.old writer.new result }
{
    for export in exports {
        writer.bool(true)?;
        write_export_node(writer, export)?;
    }
    writer.bool(false)
}

/// MNT3_OK with its arm (`mountres3_ok`, RFC 1813, 5.2.1): the handle, and an array of one flavor.
#[tactic(auto, unfolding(nfs_xdr::specs::Writing::appended, nfs_xdr::specs::Writing::with_arm))]
fn write_mounted(writer: &mut Writer, handle: &[u8]) -> Result<(), XdrError>
    requires { length handle.now ≤ 64 }
    ensures { WritesResult (mnt_result (Ok handle.now)) writer.old writer.new result }
{
    writer.u32(0)?;
    writer.opaque(handle)?;
    writer.u32(1)?;
    writer.i32(AUTH_SYS)
}

/// One mount (`mountbody`, RFC 1813, 5.2.2).
#[tactic(auto, unfolding(nfs_xdr::specs::Writing::appended))]
fn write_mount_body(writer: &mut Writer, mount: &MountBody) -> Result<(), XdrError>
    requires { HasMountBodyForm mount.now }
    ensures { WritesResult (mountbody, mountbody_value mount.now) writer.old writer.new result }
{
    writer.opaque(mount.hostname.as_slice())?;
    writer.opaque(mount.directory.as_slice())
}

/// One export (`exportnode`, RFC 1813, 5.2.5).
#[tactic(auto, unfolding(nfs_xdr::specs::Writing::appended))]
fn write_export_node(writer: &mut Writer, export: &ExportNode) -> Result<(), XdrError>
    requires { HasExportNodeForm export.now }
    ensures { WritesResult (exportnode, exportnode_value export.now) writer.old writer.new result }
{
    writer.opaque(export.directory.as_slice())?;
    write_groups(writer, export.groups.as_slice())
}

/// The hosts that may mount an export (`groups`, RFC 1813, 5.2.5): each behind a TRUE, and a FALSE at the end.
#[tactic(auto, unfolding(nfs_xdr::specs::Writing::appended))]
fn write_groups(writer: &mut Writer, hosts: &[Bytes]) -> Result<(), XdrError>
    requires { All IsHostName hosts.now }
    ensures { WritesResult (groups, hosts.now) writer.old writer.new result }
{
    for host in hosts {
        writer.bool(true)?;
        writer.opaque(host.as_slice())?;
    }
    writer.bool(false)
}

/// The number of a status (`mountstat3`).
fn number(status: MountStatus) -> u32
    ensures { result ≡ mount_status_number status }
{
    match status {
        MountStatus::Permission => 1,
        MountStatus::NoEntry => 2,
        MountStatus::Io => 5,
        MountStatus::Access => 13,
        MountStatus::NotDirectory => 20,
        MountStatus::Invalid => 22,
        MountStatus::NameTooLong => 63,
        MountStatus::NotSupported => 10004,
        MountStatus::ServerFault => 10006,
    }
}
