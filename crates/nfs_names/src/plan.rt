//! What a call on names reads ahead of its attempt (RFC 1813, section 3.3): its plan, as far as its view tells.
//!
//! A call on names has a name that is there, which it looks up or takes away, its old name; or one that it adds, its
//! new name; or both. Behind its first directory the plan goes to the second one, to the parts of its names and to what
//! these lead to. Where RENAME moves a directory it goes up from its target (3.3.14: a directory may not move into
//! itself or below). Where the checks of a call pass, all comes last that it has to hold to change its directories. A
//! call that lists a directory goes through its pages, and READDIRPLUS then to the objects of the entries that it lists.

ghost use Rattle.std.specs.Prelude.{◌≡◌, [], IfErr, IfSome};
ghost use Rattle.nfs_machine.specs.declared.calls.Call.TheVariants as calls;
ghost use Rattle.nfs_objects.specs.Asks.{IsThere};
ghost use Rattle.nfs_objects.specs.Begins.{Begins};
ghost use Rattle.nfs_objects.specs.Calls.{named_by, new_numbers};
ghost use Rattle.nfs_objects.specs.Modes.{Suits, modes_of};
ghost use Rattle.nfs_objects.specs.declared.address.Addr.TheVariants as addresses;
ghost use Rattle.nfs_inodes.specs.Gathers.{MayWish};
ghost use Rattle.nfs_inodes.specs.Wants.{IsWanted};
ghost use Rattle.nfs_names.specs.Plans.{MayGoOn, MayHalt, MayWant, second_number};

use crate::page::{PageAsked, listable};
use crate::remove::Taking;
use crate::{create, link, mkdir, mknod, readdir, readdirplus, remove, rename, symlink};
use bytes::Bytes;
use nfs_inodes::names::{is_above, is_self};
use nfs_inodes::wishes::{
    NextWant, PagesLeft, Want, data_wish, leaf_shown, pages_left, pages_wish, part_wish,
    shows_directory, wish_there,
};
use nfs_inodes::{above, named};
use nfs_machine::{Call, Ctx, Handle};
use nfs_objects::{Addr, Draft, Leaf, Missing, Modes, View, Wish};
use nfs_wire::{DirOp, NfsCall};
use std::alloc::Global;

/// How far a call is in its plan: what it wants next, if it lacks that.
#[derive(Clone, Copy)]
pub enum Plan {
    /// What its second handle names.
    Second,
    /// The part that its old name is in.
    OldPart,
    /// The part that its new name is in.
    NewPart,
    /// What its old name leads to, or the new one of CREATE.
    Object,
    /// What RENAME replaces, where it moves the object at this number.
    Replaced(u64),
    /// What is above a directory on the way up.
    Above {
        /// The number of the object that moves.
        moved: u64,
        /// That of the directory.
        number: u64,
    },
    /// The first pages of a directory that is listed.
    Listing,
    /// Its next pages.
    Pages(PagesLeft),
    /// What else it has to hold before it changes anything.
    Rest,
    /// The data of a file that goes with its last name.
    Data,
    /// Nothing.
    Over,
}

/// The plan of a call that takes what its first handle names.
pub fn behind_first(call: &NfsCall) -> Plan {
    match call {
        NfsCall::Readdir(_) | NfsCall::Readdirplus(_) => Plan::Listing,
        _ => Plan::Second,
    }
}

/// What a call that is there in its plan wants next.
pub fn next(alloc: Global, call: &Call, ctx: &Ctx, view: &View, plan: Plan) -> NextWant<Plan>
    requires { Suits (modes_of call.now) view.now }
    ensures { IfSome result (λ next. IsWanted (modes_of call.now) (named_by call.now view.now)
        (new_numbers call.now view.now) view.now next.0) }
{
    let Call::Nfs(names) = call else {
        return None;
    };
    let draft = Draft::new(alloc, ctx, view, Modes::of(call));
    go_on(&draft, names, plan)
}

/// The same of its draft.
fn go_on(draft: &Draft<'_>, call: &NfsCall, plan: Plan) -> NextWant<Plan>
    requires { Begins (calls.Nfs call.now) draft.now }
    ensures { MayGoOn call.now draft.now result }
{
    match plan {
        Plan::Second => second(draft, call),
        Plan::OldPart => old_part(draft, call),
        Plan::NewPart => new_part(draft, call),
        Plan::Object => object(draft, call),
        Plan::Replaced(moved) => replaced(draft, call, moved),
        Plan::Above { moved, number } => way_up(draft, call, moved, number),
        Plan::Listing => listing(draft, call),
        Plan::Pages(left) => next_pages(draft, call, left),
        Plan::Rest => rest(draft, call, true),
        Plan::Data => data(draft, call),
        Plan::Over => None,
    }
}

/// What the second handle names, and what is behind that.
fn second(draft: &Draft<'_>, call: &NfsCall) -> NextWant<Plan>
    requires { Begins (calls.Nfs call.now) draft.now }
    ensures { MayGoOn call.now draft.now result }
{
    match second_wish(draft, call) {
        Some(wish) => Some((Want::Address(wish), Plan::OldPart)),
        None => old_part(draft, call),
    }
}

/// What the second handle of a call names, if it has one.
fn second_wish(draft: &Draft<'_>, call: &NfsCall) -> Option<Wish>
    ensures { IfSome result (MayWant call.now draft.now) }
{
    let number = second_number(call)?;
    draft.missing(Addr::Inode(number))
}

/// The number that the second handle of a call names, if it has one.
fn second_number(call: &NfsCall) -> Option<u64>
    ensures { result ≡ second_number call.now }
{
    let handle = Handle::read(call.second_handle()?.as_slice())?;
    Some(handle.fileid)
}

/// The part of the old name, and what is behind that.
fn old_part(draft: &Draft<'_>, call: &NfsCall) -> NextWant<Plan>
    requires { Begins (calls.Nfs call.now) draft.now }
    ensures { MayGoOn call.now draft.now result }
{
    match part_of(draft, old_name(call)) {
        Some(wish) => Some((Want::Address(wish), Plan::NewPart)),
        None => new_part(draft, call),
    }
}

/// The part of the new name, and what is behind that.
fn new_part(draft: &Draft<'_>, call: &NfsCall) -> NextWant<Plan>
    requires { Begins (calls.Nfs call.now) draft.now }
    ensures { MayGoOn call.now draft.now result }
{
    match part_of(draft, new_name(call)) {
        Some(wish) => Some((Want::Address(wish), Plan::Object)),
        None => object(draft, call),
    }
}

/// What a name leads to, and what is behind that.
fn object(draft: &Draft<'_>, call: &NfsCall) -> NextWant<Plan>
    requires { Begins (calls.Nfs call.now) draft.now }
    ensures { MayGoOn call.now draft.now result }
{
    match old_name(call) {
        Some(place) => old_object(draft, call, place),
        None => new_object(draft, call),
    }
}

/// What the old name leads to, and what is behind that.
fn old_object(draft: &Draft<'_>, call: &NfsCall, place: &DirOp) -> NextWant<Plan>
    requires { Begins (calls.Nfs call.now) draft.now }
    ensures { MayGoOn call.now draft.now result }
{
    if is_above(place.name.as_slice()) {
        return parent(draft, call);
    }
    let leaf = leaf_at(draft, place)?;
    match wish_there(draft, Addr::Inode(leaf.number)) {
        Some(wish) => Some((Want::Address(wish), Plan::Replaced(leaf.number))),
        None => replaced(draft, call, leaf.number),
    }
}

/// The parent of a directory, where LOOKUP asks for it.
fn parent(draft: &Draft<'_>, call: &NfsCall) -> NextWant<Plan>
    requires { Begins (calls.Nfs call.now) draft.now }
    ensures { MayGoOn call.now draft.now result }
{
    let NfsCall::Lookup(place) = call else {
        return None;
    };
    let wish = above(draft, number_of(&place.directory)?)?;
    Some((Want::Address(wish), Plan::Over))
}

/// What the new name leads to, where CREATE may answer it, and what is behind that.
fn new_object(draft: &Draft<'_>, call: &NfsCall) -> NextWant<Plan>
    requires { Begins (calls.Nfs call.now) draft.now }
    ensures { MayGoOn call.now draft.now result }
{
    let NfsCall::Create(arguments) = call else {
        return rest(draft, call, false);
    };
    match object_at(draft, &arguments.place) {
        Some(wish) => Some((Want::Address(wish), Plan::Over)),
        None => rest(draft, call, false),
    }
}

/// What RENAME replaces, and what is behind that: the way up from its target; and the rest of other calls.
fn replaced(draft: &Draft<'_>, call: &NfsCall, moved: u64) -> NextWant<Plan>
    requires { Begins (calls.Nfs call.now) draft.now }
    ensures { MayGoOn call.now draft.now result }
{
    let NfsCall::Rename(arguments) = call else {
        return rest(draft, call, false);
    };
    let number = number_of(&arguments.to.directory)?;
    match object_at(draft, &arguments.to) {
        Some(wish) => Some((Want::Address(wish), Plan::Above { moved, number })),
        None => way_up(draft, call, moved, number),
    }
}

/// What is above a directory, where RENAME moves a directory that is another, and what is behind that.
fn way_up(draft: &Draft<'_>, call: &NfsCall, moved: u64, number: u64) -> NextWant<Plan>
    requires { Begins (calls.Nfs call.now) draft.now }
    ensures { MayGoOn call.now draft.now result }
{
    if moved == number || !shows_directory(draft, moved) {
        return rest(draft, call, false);
    }
    let Some(wish) = above(draft, number) else {
        return rest(draft, call, false);
    };
    match wish.0 {
        Addr::Inode(number) => Some((Want::Address(wish), Plan::Above { moved, number })),
        _ => None,
    }
}

/// What else a call has to hold before it changes anything, where its checks pass; and what is behind that, if some of
/// it was taken already.
fn rest(draft: &Draft<'_>, call: &NfsCall, begun: bool) -> NextWant<Plan>
    requires { Begins (calls.Nfs call.now) draft.now }
    ensures { MayGoOn call.now draft.now result }
{
    match ask(draft, call) {
        Err(Missing::Need(asked)) => Some((Want::Addresses(asked), behind_rest(call))),
        Err(Missing::Fresh(count)) => Some((Want::Numbers(count), Plan::Rest)),
        Ok(()) if begun => data(draft, call),
        _ => None,
    }
}

/// Where the plan is once a call has what it lacked: RENAME asks bit by bit, and others once.
fn behind_rest(call: &NfsCall) -> Plan {
    match call {
        NfsCall::Rename(_) => Plan::Rest,
        NfsCall::Remove(_) => Plan::Data,
        _ => Plan::Over,
    }
}

/// The data of a file that goes with its last name.
fn data(draft: &Draft<'_>, call: &NfsCall) -> NextWant<Plan>
    requires { Begins (calls.Nfs call.now) draft.now }
    ensures { MayGoOn call.now draft.now result }
{
    let leaf = leaf_at(draft, lost_name(call)?)?;
    let asked = data_wish(draft, leaf.number)?;
    Some((Want::Addresses(asked), Plan::Data))
}

/// Asks for what else a call has to hold before it changes anything, where its checks pass.
fn ask(draft: &Draft<'_>, call: &NfsCall) -> Result<(), Missing>
    requires { Begins (calls.Nfs call.now) draft.now }
    ensures { IfErr result (MayHalt (calls.Nfs call.now) draft.now) }
{
    match call {
        NfsCall::Create(arguments) => create::ask(draft, arguments),
        NfsCall::Mkdir(arguments) => mkdir::ask(draft, arguments),
        NfsCall::Symlink(arguments) => symlink::ask(draft, arguments),
        NfsCall::Mknod(arguments) => mknod::ask(draft, arguments),
        NfsCall::Link(arguments) => link::ask(draft, arguments),
        NfsCall::Remove(place) => remove::ask(draft, Taking::Remove, place),
        NfsCall::Rmdir(place) => remove::ask(draft, Taking::Rmdir, place),
        NfsCall::Rename(arguments) => rename::ask(draft, arguments),
        NfsCall::Readdirplus(arguments) => readdirplus::ask(draft, arguments),
        _ => Ok(()),
    }
}

/// The first pages that a call lists, where its checks pass.
fn listing(draft: &Draft<'_>, call: &NfsCall) -> NextWant<Plan>
    requires { Begins (calls.Nfs call.now) draft.now }
    ensures { MayGoOn call.now draft.now result }
{
    let (handle, asked) = listed(call)?;
    let Ok(Ok(known)) = named(draft, handle.as_slice()) else {
        return None;
    };
    if listable(draft.ctx(), &known, &asked).is_err() {
        return None;
    }
    let left = pages_left(asked.cookie, asked.budget.too_many());
    next_pages(draft, call, left)
}

/// The next pages that a call lists, and what is behind them.
fn next_pages(draft: &Draft<'_>, call: &NfsCall, left: PagesLeft) -> NextWant<Plan>
    requires { Begins (calls.Nfs call.now) draft.now }
    ensures { MayGoOn call.now draft.now result }
{
    let (handle, _) = listed(call)?;
    match pages_wish(draft, number_of(handle)?, left) {
        Some((asked, left)) => Some((Want::Addresses(asked), Plan::Pages(left))),
        None => rest(draft, call, false),
    }
}

/// The directory that a call lists, and what it asks for there.
fn listed(call: &NfsCall) -> Option<(&Bytes, PageAsked)> {
    match call {
        NfsCall::Readdir(arguments) => { Some((&arguments.directory, readdir::asked(arguments))) }
        NfsCall::Readdirplus(arguments) => {
            Some((&arguments.directory, readdirplus::asked(arguments)))
        }
        _ => None,
    }
}

/// The part that a name is in, if it is there.
fn part_of(draft: &Draft<'_>, place: Option<&DirOp>) -> Option<Wish>
    requires { draft.now.writes ≡ [] }
    ensures { IfSome result (MayWish draft.now) }
{
    let place = place?;
    let name = place.name.as_slice();
    if is_self(name) || is_above(name) {
        return None;
    }
    part_wish(draft, number_of(&place.directory)?, name)
}

/// What a name leads to, as far as the draft shows it.
fn leaf_at(draft: &Draft<'_>, place: &DirOp) -> Option<Leaf>
    requires { draft.now.writes ≡ [] }
    ensures { IfSome result (λ leaf. IsThere draft.now.view (addresses.Inode leaf.number)) }
{
    leaf_shown(draft, number_of(&place.directory)?, place.name.as_slice())
}

/// What stands where a name leads to, as far as the draft shows that.
fn object_at(draft: &Draft<'_>, place: &DirOp) -> Option<Wish>
    requires { draft.now.writes ≡ [] }
    ensures { IfSome result (MayWish draft.now) }
{
    let leaf = leaf_at(draft, place)?;
    wish_there(draft, Addr::Inode(leaf.number))
}

/// The number that a handle names.
fn number_of(handle: &Bytes) -> Option<u64> {
    let handle = Handle::read(handle.as_slice())?;
    Some(handle.fileid)
}

/// The name that a call looks up or takes away.
fn old_name(call: &NfsCall) -> Option<&DirOp> {
    match call {
        NfsCall::Lookup(place) | NfsCall::Remove(place) | NfsCall::Rmdir(place) => Some(place),
        NfsCall::Rename(arguments) => Some(&arguments.from),
        _ => None,
    }
}

/// The name that a call adds.
fn new_name(call: &NfsCall) -> Option<&DirOp> {
    match call {
        NfsCall::Create(arguments) => Some(&arguments.place),
        NfsCall::Mkdir(arguments) => Some(&arguments.place),
        NfsCall::Symlink(arguments) => Some(&arguments.place),
        NfsCall::Mknod(arguments) => Some(&arguments.place),
        NfsCall::Link(arguments) => Some(&arguments.place),
        NfsCall::Rename(arguments) => Some(&arguments.to),
        _ => None,
    }
}

/// The name that a call takes from a file.
fn lost_name(call: &NfsCall) -> Option<&DirOp> {
    match call {
        NfsCall::Remove(place) => Some(place),
        NfsCall::Rename(arguments) => Some(&arguments.to),
        _ => None,
    }
}
