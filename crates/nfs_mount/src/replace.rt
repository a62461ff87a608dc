//! The call that replaces the exports.

ghost use Rattle.std.specs.Prelude.{◌+◌, ◌<◌, ◌^◌, MatchResult, OnOk, length};
ghost use Rattle.std.specs.List.{AllByRecursion};
ghost use Rattle.nfs_machine.specs.Times.{time_of};
ghost use Rattle.nfs_objects.specs.Attempt.{EndsCall, EndsFirst, HaltsFirst, unless_seen};
ghost use Rattle.nfs_objects.specs.Begins.{Begins};
ghost use Rattle.nfs_objects.specs.Bound.{HasNumbers};
ghost use Rattle.nfs_objects.specs.Calls.{root_usages};
ghost use Rattle.nfs_objects.specs.Knows.{Turns};
ghost use Rattle.nfs_objects.specs.Roots.{root_choice};
ghost use Rattle.nfs_inodes.specs.Roots.{ReservedFits, roots_made};
ghost use Rattle.nfs_inodes.specs.Stops.{StopsAt};
ghost use Rattle.nfs_mount.specs.Replaces.{AwaitsRoots, ReplacesExports, StopsReplacing};

use nfs_inodes::{ask_roots, make_root, put_table};
use nfs_machine::{Call, Exports, Reply};
use nfs_objects::{Addr, Change, Draft, ExportTable, Missing, Reserved};

/// Tries to replace the exports by these. A path that was exported keeps its number, its root and what is below; a new
/// one gets a number that was never used, and a root. What belongs to a path that is not among these goes. Nothing
/// changes where a number would not fit 32 bits.
///
/// # Errors
///
/// `Need` of the exports, or of what the groups of all new roots use; `Fresh` of their numbers; and `Memory`.
pub fn attempt(draft: Draft<'_>, exports: &Exports) -> Result<Change, Missing>
    requires begins { Begins (Call.Replace exports.now) draft }
    requires numbers { HasNumbers (Call.Replace exports.now) draft.view }
    ensures ends { EndsCall (Call.Replace exports.now) draft.entry.ctx draft.entry.view result }
    ensures first { EndsFirst (Call.Replace exports.now) draft.entry.view result }
{
    let mut draft = draft;
    replace(&mut draft, exports)?;
    Ok(draft.answer(Reply::Replaced))
}

/// Replaces the exports, which are read first.
///
/// # Errors
///
/// `Need` of the exports, or of what the groups of all new roots use; `Fresh` of their numbers; and `Memory`. The draft
/// is of no use then.
fn replace(draft: &mut Draft<'_>, exports: &Exports) -> Result<(), Missing>
    requires begins { Begins (Call.Replace exports.now) draft.old }
    requires numbers { HasNumbers (Call.Replace exports.now) draft.old.view }
    ensures replaces { MatchResult result (λ _. ReplacesExports draft.old draft.new exports.now)
        (StopsReplacing draft.old exports.now) }
    ensures first { HaltsFirst draft.old.modes draft.old.view (unless_seen draft.old.view Addr.Exports) result }
{
    // The list brings that it is without fault.
    let _list = exports.list();
    let table = ExportTable::copied(draft.alloc(), draft.export_table()?)?;
    if table.is_exhausted(exports) {
        return Ok(());
    }
    let roots = draft.fresh_all(table.new_count(exports))?;
    let new = table.replaced(draft.alloc(), exports, roots)?;
    ask_roots(draft, table.last(), roots)?;
    put_table(draft, new)?;
    make_roots(draft, table.last(), roots)
}

/// Makes the roots of new exports that are numbered behind the last.
///
/// # Errors
///
/// `Need` of what the group of a root uses, and `Memory`. The draft is of no use then.
fn make_roots(draft: &mut Draft<'_>, last: u32, roots: &[Reserved]) -> Result<(), Missing>
    requires room { last + length roots.now < 2 ^ 32 }
    requires ready { AwaitsRoots draft.old last roots.now }
    ensures made { MatchResult result
        (λ _. Turns draft.old draft.new
        (roots_made (time_of draft.old.ctx.moment) (root_choice roots.now last) last (length roots.now)))
        (StopsAt draft.old (root_usages last roots.now)) }
    ensures fit { OnOk result (AllByRecursion ReservedFits roots.now) }
{
    let mut export = last;
    for root in roots {
        export += 1;
        make_root(draft, export, *root)?;
    }
    Ok(())
}
