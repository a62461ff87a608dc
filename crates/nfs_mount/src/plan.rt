//! What a call of MOUNT reads ahead of its attempt (RFC 1813, appendix I): its plan, as far as its view tells.
//!
//! Behind the exports MNT goes along its path: from the root of the export that it is under, by the part of each name
//! and what that leads to. All but EXPORT come to the mounts then.

ghost use Rattle.std.specs.Prelude.{◌≡◌, [], IfSome};
ghost use Rattle.nfs_objects.specs.Calls.{named_by, new_numbers};
ghost use Rattle.nfs_objects.specs.Modes.{Suits, modes_of};
ghost use Rattle.nfs_inodes.specs.Wants.{IsWanted};
ghost use Rattle.nfs_mount.specs.Plans.{MayGoOn};

use crate::choice::choose;
use crate::paths::{PathNames, path_fault};
use bytes::Bytes;
use nfs_inodes::exports;
use nfs_inodes::wishes::{NextWant, Want, leaf_shown, part_wish, wish_there};
use nfs_machine::{Call, Ctx};
use nfs_objects::{Addr, Draft, Modes, View};
use side_wire::MountCall;
use std::alloc::Global;

/// How far a call is in its plan: what it wants next, if it lacks that.
#[derive(Clone, Copy)]
pub enum Plan {
    /// The exports.
    Exports,
    /// What is behind the exports: the root of the export that the path of MNT is under, or the mounts.
    Behind,
    /// The part of the next name of the path, in the directory at a number.
    Part {
        /// The number.
        number: u64,
        /// How many bytes of the path are left.
        left: usize,
    },
    /// What the next name of the path leads to.
    Object {
        /// The number of the directory.
        number: u64,
        /// How many bytes of the path are left.
        left: usize,
    },
    /// The mounts.
    Mounts,
    /// Nothing.
    Over,
}

/// What a call that is there in its plan wants next.
pub fn next(alloc: Global, call: &Call, ctx: &Ctx, view: &View, plan: Plan) -> NextWant<Plan>
    requires { Suits (modes_of call.now) view.now }
    ensures { IfSome result (λ next. IsWanted (modes_of call.now) (named_by call.now view.now)
        (new_numbers call.now view.now) view.now next.0) }
{
    let Call::Mount(mount) = call else {
        return None;
    };
    let draft = Draft::new(alloc, ctx, view, Modes::of(call));
    go_on(&draft, mount, plan)
}

/// The same of its draft.
fn go_on(draft: &Draft<'_>, call: &MountCall, plan: Plan) -> NextWant<Plan>
    requires { draft.now.writes ≡ [] }
    ensures { MayGoOn draft.now result }
{
    match plan {
        Plan::Exports => first(draft, call),
        Plan::Behind => behind(draft, call),
        Plan::Part { number, left } => part(draft, path_of(call)?.as_slice(), number, left),
        Plan::Object { number, left } => object(draft, path_of(call)?.as_slice(), number, left),
        Plan::Mounts => mounts(draft),
        Plan::Over => None,
    }
}

/// The exports, which all but NULL read first.
fn first(draft: &Draft<'_>, call: &MountCall) -> NextWant<Plan>
    ensures { MayGoOn draft.now result }
{
    if let MountCall::Null = call {
        return None;
    }
    let wish = draft.missing(Addr::Exports)?;
    Some((Want::Address(wish), Plan::Behind))
}

/// What is behind the exports.
fn behind(draft: &Draft<'_>, call: &MountCall) -> NextWant<Plan>
    requires { draft.now.writes ≡ [] }
    ensures { MayGoOn draft.now result }
{
    match call {
        MountCall::Mnt(path) => root(draft, path.as_slice()),
        MountCall::Dump | MountCall::Unmount(_) | MountCall::UnmountAll => mounts(draft),
        MountCall::Null | MountCall::Export => None,
    }
}

/// The path of MNT.
fn path_of(call: &MountCall) -> Option<&Bytes> {
    match call {
        MountCall::Mnt(path) => Some(path),
        _ => None,
    }
}

/// The root of the export that a path is under, and what is behind that.
fn root(draft: &Draft<'_>, path: &[u8]) -> NextWant<Plan>
    requires { draft.now.writes ≡ [] }
    ensures { MayGoOn draft.now result }
{
    let Ok(exports) = exports(draft) else {
        return None;
    };
    if let Some(_fault) = path_fault(path) {
        return None;
    }
    let choice = choose(exports, &draft.ctx().host, path)?;
    let left = choice.rest.left();
    match wish_there(draft, Addr::Inode(choice.root)) {
        Some(wish) => Some((
            Want::Address(wish),
            Plan::Part {
                number: choice.root,
                left,
            },
        )),
        None => part(draft, path, choice.root, left),
    }
}

/// The part of the next name of a path of which so many bytes are left, and what is behind that.
fn part(draft: &Draft<'_>, path: &[u8], number: u64, left: usize) -> NextWant<Plan>
    requires { draft.now.writes ≡ [] }
    ensures { MayGoOn draft.now result }
{
    let Some(name) = names_left(path, left).next() else {
        return mounts(draft);
    };
    match part_wish(draft, number, name) {
        Some(wish) => Some((Want::Address(wish), Plan::Object { number, left })),
        None => object(draft, path, number, left),
    }
}

/// What the next name of a path leads to.
fn object(draft: &Draft<'_>, path: &[u8], number: u64, left: usize) -> NextWant<Plan>
    requires { draft.now.writes ≡ [] }
    ensures { MayGoOn draft.now result }
{
    let mut names = names_left(path, left);
    let name = names.next()?;
    let leaf = leaf_shown(draft, number, name)?;
    let wish = wish_there(draft, Addr::Inode(leaf.number))?;
    Some((
        Want::Address(wish),
        Plan::Part {
            number: leaf.number,
            left: names.left(),
        },
    ))
}

/// The names of a path of which so many bytes are left.
fn names_left(path: &[u8], left: usize) -> PathNames<'_> {
    let (_passed, rest) = path.split_at(path.len().saturating_sub(left));
    PathNames::of(rest)
}

/// The mounts.
fn mounts(draft: &Draft<'_>) -> NextWant<Plan>
    ensures { MayGoOn draft.now result }
{
    let wish = draft.missing(Addr::Mounts)?;
    Some((Want::Address(wish), Plan::Over))
}
