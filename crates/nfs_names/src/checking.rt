//! Checks that calls on names share.

ghost use Rattle.std.specs.Prelude.{◌≡◌, IfOk};
ghost use Rattle.nfs_names.specs.Checking.{ComesTo, names_checked};

use nfs_inodes::{
    Known, KnownDirectory, Right, changeable, directory, permitted, plain_name_checked,
};
use nfs_machine::Ctx;
use nfs_objects::LivingExport;
use nfs_wire::NfsStatus;

/// The checks of a directory in which a name is to change, `own` and `above` being the statuses for `.` and `..`: where
/// they pass, the rest decides.
pub(crate) fn changed_directory(
    own: NfsStatus,
    above: NfsStatus,
    ctx: &Ctx,
    exports: &[LivingExport],
    known: &Known,
    name: &[u8],
) -> Result<KnownDirectory, NfsStatus>
    ensures known { IfOk result (λ directory. directory.known ≡ known.now) }
    ensures checks { ComesTo (names_checked own above exports.now ctx.now name.now) known.now result }
{
    let directory = directory(known)?;
    plain_name_checked(own, above, name)?;
    changeable(exports, known)?;
    permitted(ctx, known, Right::ToChange)?;
    Ok(directory)
}
