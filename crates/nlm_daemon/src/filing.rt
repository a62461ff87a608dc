//! What a file has of locks, shares, requests and grants, as it stands and is put.

ghost use Rattle.std.specs.Prelude.{◌≡◌, ◌∷◌, MatchResult};
ghost use Rattle.nfs_objects.specs.Calls.{locks_at};
ghost use Rattle.nfs_objects.specs.Knows.{Knows, TurnsWhere};
ghost use Rattle.nfs_inodes.specs.Locks.{HasLocks, MayHave, locks_set};
ghost use Rattle.nfs_inodes.specs.Stops.{StopsAt};

use nfs_inodes::{KnownFile, locks_of, set_locks};
use nfs_objects::{Addr, Draft, Missing, Mode};
use nlm_ranges::{LockedFile, OneFile};

/// What a file has, which may be nothing.
///
/// # Errors
///
/// `Need` of the exports or of what holds it, and `Memory`.
pub(crate) fn all_locks_of(draft: &Draft<'_>, file: &KnownFile) -> Result<OneFile, Missing>
    ensures { MatchResult result
        (λ locks. Knows draft.now (λ k. HasLocks k.state file.now.known.number locks))
        (StopsAt draft.now (Addr.Exports ∷ locks_at file.now.known.number)) }
{
    let Some(locks) = locks_of(draft, file.known.number)? else {
        let none = OneFile::new(draft.alloc())?;
        return Ok(none);
    };
    Ok(locks.clone()?)
}

/// Puts what a file has.
///
/// # Errors
///
/// `Need` of what has to be held for it, and `Memory`. The draft is of no use then.
pub(crate) fn put(
    draft: &mut Draft<'_>,
    number: u64,
    export: u32,
    locks: OneFile,
) -> Result<(), Missing>
    requires { draft.old.modes.locks ≡ Mode.Exclusive }
    ensures { MatchResult result
        (λ _. TurnsWhere (λ k. MayHave k.state (record { number = number; export = export; file = locks }))
        draft.old draft.new (locks_set number locks))
        (StopsAt draft.old (locks_at number)) }
{
    let file = LockedFile::new(draft.alloc(), number, export, locks)?;
    set_locks(draft, file)?;
    Ok(())
}
