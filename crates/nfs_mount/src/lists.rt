//! DUMP and EXPORT (RFC 1813, appendix I, 5.2.2 and 5.2.5).

ghost use Rattle.std.specs.Prelude.{◌≡◌, [], ◌∷◌, IfOk, option_copied};
ghost use Rattle.nfs_machine.specs.MountSteps.{listed_exports};
ghost use Rattle.nfs_objects.specs.Attempt.{EndsCall, EndsFirst};
ghost use Rattle.nfs_objects.specs.Begins.{Begins};
ghost use Rattle.nfs_objects.specs.Stands.{mounts_in};

use nfs_inodes::exports;
use nfs_machine::{Call, Reply};
use nfs_objects::{Change, Draft, LivingExport, Missing, MountTable};
use side_wire::{ExportList, ExportNode, Groups, MountBody, MountCall, MountList, MountReply};
use std::alloc::{AllocError, Global};

/// Tries DUMP: all that is mounted, in the order of mounting.
///
/// # Errors
///
/// `Need` of the exports or of the mounts, and `Memory`.
pub fn attempt_dump(draft: Draft<'_>) -> Result<Change, Missing>
    requires { Begins (Call.Mount MountCall.Dump) draft }
    ensures ends { EndsCall (Call.Mount MountCall.Dump) draft.entry.ctx draft.entry.view result }
    ensures first { EndsFirst (Call.Mount MountCall.Dump) draft.entry.view result }
{
    exports(&draft)?;
    let table = draft.mounts()?;
    let list = mount_list(draft.alloc(), table)?;
    Ok(draft.answer(Reply::Mount(MountReply::Dump(list))))
}

/// Tries EXPORT: the exports in the order given, each with the hosts that may use it.
///
/// # Errors
///
/// `Need` of the exports, and `Memory`.
pub fn attempt_export(draft: Draft<'_>) -> Result<Change, Missing>
    requires { Begins (Call.Mount MountCall.Export) draft }
    ensures ends { EndsCall (Call.Mount MountCall.Export) draft.entry.ctx draft.entry.view result }
    ensures first { EndsFirst (Call.Mount MountCall.Export) draft.entry.view result }
{
    let exports = exports(&draft)?;
    let list = export_list(draft.alloc(), exports)?;
    Ok(draft.answer(Reply::Mount(MountReply::Export(list))))
}

/// The mounts of a table as a reply has them. Hosts and paths are shared with the table.
fn mount_list(alloc: Global, kept: Option<&MountTable>) -> Result<MountList, AllocError>
    ensures { IfOk result (λ list. list ≡ mounts_in (option_copied kept.entry)) }
{
    let Some(table) = kept else {
        return Ok(MountList::from_vec(Vec::new(alloc)));
    };
    let mut mounts = Vec::with_capacity(alloc, table.len())?;
    for mount in table.iter() {
        mounts.push(MountBody {
            hostname: mount.host().clone()?,
            directory: mount.path().clone()?,
        })?;
    }
    Ok(MountList::from_vec(mounts))
}

/// The exports as a reply has them. Paths and hosts are shared with them.
fn export_list(alloc: Global, exports: &[LivingExport]) -> Result<ExportList, AllocError>
    ensures { IfOk result (λ list. list ≡ listed_exports exports.now) }
{
    let mut nodes = Vec::with_capacity(alloc, exports.len())?;
    for export in exports {
        nodes.push(export_node(alloc, export)?)?;
    }
    Ok(ExportList::from_vec(nodes))
}

/// An export as a reply has it: with no host where every host may use it.
fn export_node(alloc: Global, export: &LivingExport) -> Result<ExportNode, AllocError>
    ensures { IfOk result (λ node. node ∷ [] ≡ listed_exports (export.now ∷ [])) }
{
    let hosts = if export.admits_all() {
        Vec::new(alloc)
    } else {
        export.hosts().to_vec(alloc)?
    };
    Ok(ExportNode {
        directory: export.path().clone()?,
        groups: Groups::from_vec(hosts),
    })
}
