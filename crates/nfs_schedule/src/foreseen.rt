//! What a call will ask for first.

ghost use Rattle.std.specs.Prelude.{◌≡◌};
ghost use Rattle.nfs_schedule.specs.Foreseen.{foreseen};

use nfs_machine::{Call, Handle};
use nfs_objects::{Addr, Modes, Wish};

/// What a call of NFS reads before all else but the exports, with its mode: what its first handle names. None of
/// another call, and where that is no handle.
pub(crate) fn foreseen(call: &Call) -> Option<Wish>
    ensures { result ≡ foreseen call.now }
{
    let Call::Nfs(nfs) = call else {
        return None;
    };
    let handle = Handle::read(nfs.first_handle()?.as_slice())?;
    Some((Addr::Inode(handle.fileid), Modes::of(call).inodes))
}
