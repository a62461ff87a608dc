//! The tree of directories: each but a root is named in its parent.

ghost use Rattle.std.specs.Prelude.{◌≡◌, ◌≤◌, ◌↔◌, [], true, length, IfSome, MatchResult};
ghost use Rattle.nfs_machine.specs.RenameSteps.{IsWithin};
ghost use Rattle.nfs_machine.specs.WellFormed.{WellFormed};
ghost use Rattle.nfs_objects.specs.Knows.{Knows};
ghost use Rattle.nfs_inodes.specs.Gathers.{MayWish, wish_above};
ghost use Rattle.nfs_inodes.specs.Known.{IsKnown};
ghost use Rattle.nfs_inodes.specs.Stops.{StopsAt};

use crate::content::entries::parent;
use crate::found::inode;
use crate::kinds::KnownDirectory;
use nfs_objects::{Addr, Draft, Missing, Wish};

/// Whether a directory is the one at the upper number, or below it. It reads each directory on the way up to the root,
/// where no more addresses than these were read so far.
///
/// # Errors
///
/// `Need` of the exports or a directory on the way, and `Memory`.
pub fn is_within(
    draft: &Draft<'_>,
    reads: usize,
    upper: u64,
    directory: &KnownDirectory,
) -> Result<bool, Missing>
    requires reads { length draft.now.view.entries ≤ reads }
    requires none { draft.now.writes ≡ [] }
    requires known { Knows draft.now (λ k. IsKnown k.state directory.now.known) }
    ensures { MatchResult result
        (λ within. Knows draft.now (λ k. WellFormed k.state →
        (within ≡ true) ↔ IsWithin k.state upper directory.now.known.number))
        (StopsAt draft.now []) }
{
    let mut number = directory.known.number;
    // no directory stands twice on the way up, and each was read
    for _level in 0..=reads {
        if number == upper {
            return Ok(true);
        }
        let above = parent(draft, number)?;
        if above == number {
            return Ok(false);
        }
        number = above;
    }
    Ok(false)
}

/// What a walk up from a directory reads next: the one that it is named in, where the draft knows the directory and not
/// that. Something stands there in every store that the view fits.
pub fn above(draft: &Draft<'_>, number: u64) -> Option<Wish>
    requires { draft.now.writes ≡ [] }
    ensures next { result ≡ wish_above draft.now number }
    ensures may { IfSome result (MayWish draft.now) }
{
    let Ok(Some(inode)) = inode(draft, number) else {
        return None;
    };
    draft.missing(Addr::Inode(inode.directory()?.parent))
}
