//! Large files that go: their inodes stay for a while, of no export, and so do their maps and blocks.
//!
//! What belongs to no export that lives stands for nothing. So a large file is gone with one write, which does not grow
//! with it, and its number is not given again while its inode is there. What is left of it can be taken away later.

ghost use Rattle.std.specs.Prelude.{◌≡◌, ◌∷◌, [], IfSome, MatchResult, false};
ghost use Rattle.std.specs.Bool.{Decides};
ghost use Rattle.nfs_objects.specs.Calls.{addresses_of};
ghost use Rattle.nfs_objects.specs.Knows.{Shows};
ghost use Rattle.nfs_objects.specs.Stands.{lives_in};
ghost use Rattle.nfs_objects.specs.declared.address.Addr.TheVariants as Addr;
ghost use Rattle.nfs_inodes.specs.Burying.{HasTwo, IsBuried, IsLarge};
ghost use Rattle.nfs_inodes.specs.Stops.{StopsAt};

use crate::found::inode;
use nfs_objects::{Bits, Content, Draft, Inode, Missing};

/// The number of no export, which stands in the inode of a file that is buried.
const NO_EXPORT: u32 = 0;

/// The inode that a large file leaves where it goes, with all that stands beside it; None where no large file lives at
/// the number.
///
/// # Errors
///
/// `Need` of the exports or the number's address, and `Memory`.
pub(crate) fn buried(draft: &Draft<'_>, number: u64) -> Result<Option<Inode>, Missing>
    ensures { MatchResult result
        (λ buried. IfSome buried (IsBuried draft.now number))
        (StopsAt draft.now (addresses_of draft.now.view number)) }
{
    let Some(inode) = inode(draft, number)? else {
        return Ok(None);
    };
    if !is_large(&inode.content) {
        return Ok(None);
    }
    let export = no_export(draft)?;
    let mut left = inode.clone()?;
    left.export = export;
    Ok(Some(left))
}

/// The number of no export: they are numbered from 1.
///
/// # Errors
///
/// `Need` of the exports, and `Memory`.
fn no_export(draft: &Draft<'_>) -> Result<u32, Missing>
    ensures { MatchResult result
        (λ export. (export ≡ 0) × Shows draft.now (λ k. lives_in k.state.exports export ≡ false))
        (StopsAt draft.now (Addr.Exports ∷ [])) }
{
    // It brings how exports are numbered.
    draft.export_table()?;
    Ok(NO_EXPORT)
}

/// Whether this is a file with more than one map page.
pub(crate) fn is_large(content: &Content) -> bool
    ensures { Decides result (IsLarge content.now) }
{
    match content {
        Content::Regular(map) => has_two(map.pages()),
        _ => false,
    }
}

/// Whether there are two numbers in a set, or more.
pub(crate) fn has_two(bits: Bits) -> bool
    ensures { Decides result (HasTwo bits) }
{
    let last = bits.end().saturating_sub(1);
    bits.below(last).end() > 0
}
