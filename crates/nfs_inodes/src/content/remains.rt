//! Map pages of a file whose blocks are remains: they count as zeros, and go before anything is written there.

ghost use Rattle.std.specs.Prelude.{◌≡◌, ◌-◌, ◌/◌, MatchResult};
ghost use Rattle.nfs_objects.specs.Calls.{addresses_of};
ghost use Rattle.nfs_objects.specs.Modes.{changing};
ghost use Rattle.nfs_inodes.specs.Blocks.{end_of, first_of};
ghost use Rattle.nfs_inodes.specs.Kinds.{IsShown};
ghost use Rattle.nfs_inodes.specs.Remains.{Clears, ClearsPage};
ghost use Rattle.nfs_inodes.specs.Stops.{StillStands, StopsAt};

use crate::content::blocks::Range;
use crate::content::cut::cut_one;
use crate::content::file_at;
use crate::kinds::KnownFile;
use nfs_objects::{Content, Draft, FileMap, Missing};

/// Takes away the remains in the map pages of a range of a file, so that what is written there counts.
///
/// # Errors
///
/// `Need` of what has to be held for it, and `Memory`. The draft is of no use then.
pub(crate) fn clear_range(
    draft: &mut Draft<'_>,
    file: &KnownFile,
    range: Range,
) -> Result<(), Missing>
    requires alone { draft.old.modes ≡ changing }
    requires shown { IsShown draft.old file.now.known }
    requires stands { StillStands draft.old }
    ensures { MatchResult result
        (λ _. Clears draft.old draft.new file.now.known.number (first_of range.offset / 512)
        ((end_of range.offset range.count - 1) / 512))
        (StopsAt draft.old (addresses_of draft.old.view file.now.known.number)) }
{
    clear_page(draft, file, range.first_page())?;
    clear_page(draft, file, range.last_page())
}

/// The same of one map page.
fn clear_page(draft: &mut Draft<'_>, file: &KnownFile, page: u64) -> Result<(), Missing>
    requires alone { draft.old.modes ≡ changing }
    requires shown { IsShown draft.old file.now.known }
    requires stands { StillStands draft.old }
    ensures { MatchResult result
        (λ _. ClearsPage draft.old draft.new file.now.known.number page)
        (StopsAt draft.old (addresses_of draft.old.view file.now.known.number)) }
{
    let number = file.known.number;
    let kept = file_at(draft, file)?;
    let remains = kept.map.remains();
    if !remains.has(page) {
        return Ok(());
    }
    let size = kept.map.size();
    let pages = kept.map.pages();
    let mut inode = kept.inode.clone()?;
    let pages = cut_one(draft, number, pages, page, 0)?;
    let map = FileMap::new(size, pages)?.with_remains(remains.without(page));
    inode.content = Content::Regular(map);
    Ok(draft.put(number, inode)?)
}
