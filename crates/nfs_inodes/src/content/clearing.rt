//! The pages and parts of a directory that goes.

ghost use Rattle.std.specs.Prelude.{◌≡◌, ◌⊎◌, [], ◌∷◌, IsSome, MatchResult};
ghost use Rattle.nfs_objects.specs.Asks.{IsThere};
ghost use Rattle.nfs_objects.specs.Calls.{addresses_of};
ghost use Rattle.nfs_objects.specs.Drafts.{MayChange};
ghost use Rattle.nfs_objects.specs.Values.{known_at};
ghost use Rattle.nfs_objects.specs.declared.address.Addr.TheVariants as Addr;
ghost use Rattle.nfs_inodes.specs.Entered.{EntriesStand, Frees, IsEmptied, is_entries_of};
ghost use Rattle.nfs_inodes.specs.Stops.{StopsAt};

use nfs_objects::object::living;
use nfs_objects::{Addr, Draft, Missing};

/// Frees all pages and parts of what stands at a number, which is to go; what is no directory has none, and neither has
/// a directory with no entry, as all that go in a call.
///
/// # Errors
///
/// `Need` of each of them in turn, and `Memory`. The draft is of no use then.
pub(crate) fn clear_entries(draft: &mut Draft<'_>, number: u64) -> Result<(), Missing>
    requires alone { MayChange draft.old (Addr.Inode number) }
    requires stands { EntriesStand draft.old number }
    ensures { MatchResult result (λ _. IsEmptied draft.old draft.new number)
        (StopsAt draft.old (addresses_of draft.old.view number)) }
{
    let Some(inode) = living(draft.find(Addr::Inode(number))?) else {
        return Ok(());
    };
    let Some(directory) = inode.directory() else {
        return Ok(());
    };
    let addresses = directory.entries.addresses(draft.alloc(), number)?;
    for address in &addresses {
        clear_at(draft, number, *address)?;
    }
    Ok(())
}

/// Frees what stands at an address, where that is a page or a part of the directory at a number.
fn clear_at(draft: &mut Draft<'_>, number: u64, address: Addr) -> Result<(), Missing>
    requires alone { MayChange draft.old (Addr.Inode number) }
    requires lives { IsSome (known_at draft.old address) ⊎ IsThere draft.old.view address }
    ensures { MatchResult result (λ _. Frees draft.old draft.new number (address ∷ [])) (StopsAt draft.old []) }
{
    // It brings that the address is held.
    draft.find(address)?;
    if is_entries_of(number, address) {
        draft.free_at(address)?;
    }
    Ok(())
}

/// Whether an address is that of a page or a part of the directory at a number.
fn is_entries_of(number: u64, address: Addr) -> bool
    ensures { result ≡ is_entries_of number address }
{
    match address {
        Addr::Page { directory, .. } => directory == number,
        Addr::Part { directory, .. } => directory == number,
        _ => false,
    }
}
