//! The table of exports, and the roots of new ones, where exports are replaced.

ghost use Rattle.std.specs.Prelude.{◌≡◌, ◌+◌, ◌<◌, ◌^◌, ◌∷◌, [], IfErr, IfOk, IsSome, MatchResult, None, OnErr, OnOk};
ghost use Rattle.std.specs.Prelude.{Some, length};
ghost use Rattle.nfs_machine.specs.Times.{time_of};
ghost use Rattle.nfs_objects.specs.Calls.{root_usages};
ghost use Rattle.nfs_objects.specs.Knows.{Shows, ShowsExport, Turns};
ghost use Rattle.nfs_objects.specs.Modes.{replacing};
ghost use Rattle.nfs_objects.specs.Promise.{IsReserved};
ghost use Rattle.nfs_objects.specs.Replaced.{with_table};
ghost use Rattle.nfs_objects.specs.Roots.{choice_of};
ghost use Rattle.nfs_objects.specs.Sums.{group_of};
ghost use Rattle.nfs_objects.specs.Values.{known_at, with_written};
ghost use Rattle.nfs_inodes.specs.Kinds.{KeepsOthers};
ghost use Rattle.nfs_inodes.specs.Roots.{Follows, ReservedFits, inode_of_root, root_made};
ghost use Rattle.nfs_inodes.specs.Stops.{StopsAt};

use crate::content::asking::Asking;
use crate::times::now;
use crate::usage::{Share, recount};
use nfs_machine::NameKey;
use nfs_objects::usage::group_of;
use nfs_objects::{
    Addr, Content, DIRECTORY_SIZE, Directory, Draft, ExportTable, Inode, Missing, Mode, Object,
    Reserved, Usage,
};
use nfs_wire::Time;
use std::alloc::{AllocError, Global};

/// Puts a table of exports in the place of the one that was read. What belongs to an export that is not in it goes,
/// with its locks, shares, requests that wait and pending grants.
///
/// # Errors
///
/// `AllocError` where the memory was refused. It changes nothing.
pub fn put_table(draft: &mut Draft<'_>, table: ExportTable) -> Result<(), AllocError>
    requires alone { draft.old.modes.exports ≡ Mode.Exclusive }
    requires known { IsSome (known_at draft.old Addr.Exports) }
    requires follows { Shows draft.old (λ k. Follows k.state table) }
    ensures turns { OnOk result (Turns draft.old draft.new (λ k. with_table k table)) }
    ensures ok { OnOk result (draft.new ≡ with_written draft.old Addr.Exports (Some (Object.Exports table))) }
    ensures err { OnErr result (draft.new ≡ draft.old) }
{
    draft.put_exports(table)
}

/// Asks for what the groups of new roots use, of exports that are numbered behind the last.
///
/// # Errors
///
/// `Need` of all that was not read, and `Memory`.
pub fn ask_roots(draft: &Draft<'_>, last: u32, roots: &[Reserved]) -> Result<(), Missing>
    requires { last + length roots.now < 2 ^ 32 }
    ensures { IfErr result (StopsAt draft.now (root_usages last roots.now)) }
{
    let mut asking = Asking::new(draft.alloc());
    let mut export = last;
    for root in roots {
        export += 1;
        let group = group_of(root.number);
        asking.add(draft, Addr::Usage { export, group })?;
    }
    asking.ask()
}

/// Makes the root of a new export, with the number and generation that are reserved for it: an empty directory that all
/// may use, as those are that a server opens with. It is made at the call's time.
///
/// # Errors
///
/// `Need` of what its group uses, and `Memory`. The draft is of no use then.
pub fn make_root(draft: &mut Draft<'_>, export: u32, reserved: Reserved) -> Result<(), Missing>
    requires alone { draft.old.modes ≡ replacing }
    requires exported { ShowsExport draft.old export }
    requires vacant { known_at draft.old (Addr.Inode reserved.number) ≡ Some None }
    requires given { IsReserved draft.old.view reserved.number reserved.generation }
    ensures turns { MatchResult result
        (λ _. Turns draft.old draft.new (root_made (time_of draft.old.ctx.moment) export (choice_of (Some reserved))))
        (StopsAt draft.old (Addr.Usage export (group_of reserved.number) ∷ [])) }
    ensures others { OnOk result (KeepsOthers draft.old draft.new reserved.number) }
    ensures table { OnOk result (known_at draft.new Addr.Exports ≡ known_at draft.old Addr.Exports) }
    ensures fits { ReservedFits reserved }
{
    let ctx = draft.ctx();
    let time = now(ctx);
    let key = ctx.limits.name_key;
    let root = root_of(draft.alloc(), export, reserved, time, key)?;
    let nothing = Share {
        export,
        usage: Usage::none(),
    };
    recount(
        draft,
        reserved.number,
        nothing,
        Usage::of_one(DIRECTORY_SIZE),
    )?;
    Ok(draft.put(reserved.number, root)?)
}

/// A root: mode 0777, and no name but `.` and `..`, which both lead to itself. Its names are placed by this key.
fn root_of(
    alloc: Global,
    export: u32,
    reserved: Reserved,
    time: Time,
    key: NameKey,
) -> Result<Inode, AllocError>
    ensures { IfOk result (λ root. root ≡ inode_of_root export reserved time key) }
{
    Ok(Inode {
        export,
        generation: reserved.generation,
        content: Content::Directory(Directory::empty(alloc, reserved.number, key)?),
        mode: 0o777,
        uid: 0,
        gid: 0,
        links: 2,
        accessed: time,
        modified: time,
        changed: time,
        verifier: None,
    })
}
