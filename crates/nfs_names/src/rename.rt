//! RENAME: a name that moves (RFC 1813, 3.3.14).

ghost use Rattle.std.specs.Prelude.{◌≡◌, ◌≤◌, ◌==◌, ◌||◌, ◌++◌, ◌↔◌, [], true, false};
ghost use Rattle.std.specs.Prelude.{length, not};
ghost use Rattle.std.specs.Prelude.{IfErr, IfOk, IfSome, MatchResult, Some, is_some, nat_lt};
ghost use Rattle.std.specs.Option.{option_map_or};
ghost use Rattle.nfs_machine.specs.Checks.{link_limit};
ghost use Rattle.nfs_machine.specs.RenameSteps.{IsWithin, is_compatible};
ghost use Rattle.nfs_machine.specs.Times.{time_of};
ghost use Rattle.nfs_machine.specs.WellFormed.{WellFormed};
ghost use Rattle.nfs_machine.specs.declared.calls.Call.TheVariants as calls;
ghost use Rattle.nfs_objects.specs.Asks.{IsThere};
ghost use Rattle.nfs_objects.specs.Attempt.{EndsCall, EndsFirst};
ghost use Rattle.nfs_objects.specs.Begins.{Begins};
ghost use Rattle.nfs_objects.specs.Calls.{added_at, named_by};
ghost use Rattle.nfs_objects.specs.Drafts.{MayChange};
ghost use Rattle.nfs_objects.specs.Knows.{Does, Knows, Turns};
ghost use Rattle.nfs_objects.specs.Modes.{led_at};
ghost use Rattle.nfs_objects.specs.declared.address.Addr.TheVariants as addresses;
ghost use Rattle.nfs_inodes.specs.Entered.{IsNextCookie};
ghost use Rattle.nfs_inodes.specs.Kinds.{IsShown};
ghost use Rattle.nfs_inodes.specs.Known.{HasNumber, IsKnown, Names, content_at};
ghost use Rattle.nfs_inodes.specs.Removes.{is_directory_type};
ghost use Rattle.nfs_inodes.specs.Stops.{StopsAt, UsageLives};
ghost use Rattle.nfs_names.specs.Plans.{MayHalt};
ghost use Rattle.nfs_names.specs.Renames.{BothShown, ComesToBoth, IsRenameEnd, IsRenaming, IsUnder, MayRename};
ghost use Rattle.nfs_names.specs.Renames.{brings_directory};
ghost use Rattle.nfs_names.specs.Renames.{entry_moved, is_one_directory, links_given, links_left, locks_replaced};
ghost use Rattle.nfs_names.specs.Renames.{names_counted, rename_checked, renamed, replaced_lost, replaces_directory};

use nfs_inodes::{
    Known, KnownDirectory, LINK_LIMIT, Right, ask_given, ask_left, ask_lost, changeable, directory,
    entry, exports, give_name, is_empty, is_within, leave, lose_link, named, new_cookie,
    nothing_shown, object, permitted, plain_name_checked, rehome, wcc,
};
use nfs_machine::{Ctx, Reply};
use nfs_objects::{Change, Draft, LivingExport, Missing, Mode};
use nfs_wire::{FileType, NfsCall, NfsReply, NfsStatus, RenameArguments, RenamedReply, Wcc};

/// The directories of the two names.
#[derive(Clone, Copy)]
struct Places {
    from: KnownDirectory,
    to: KnownDirectory,
}

/// The directories of the two names, the object that the old one leads to, and the one that has the new name before.
#[derive(Clone, Copy)]
struct Renaming {
    from: KnownDirectory,
    to: KnownDirectory,
    moved: Known,
    replaced: Option<Known>,
}

/// Tries RENAME, on a view that has read so many addresses at most.
pub(crate) fn attempt(
    draft: Draft<'_>,
    reads: usize,
    arguments: &RenameArguments,
) -> Result<Change, Missing>
    requires begins { Begins (calls.Nfs (NfsCall.Rename arguments.now)) draft }
    requires reads { length draft.view.entries ≤ reads }
    ensures ends { EndsCall (calls.Nfs (NfsCall.Rename arguments.now)) draft.entry.ctx draft.entry.view result }
    ensures first { EndsFirst (calls.Nfs (NfsCall.Rename arguments.now)) draft.entry.view result }
{
    match named(&draft, arguments.from.directory.as_slice())? {
        Ok(from) => attempt_from(draft, reads, &from, arguments),
        Err(status) => Ok(draft.answer(reply(nothing_shown(), nothing_shown(), Err(status)))),
    }
}

/// RENAME where the first handle names this.
fn attempt_from(
    mut draft: Draft<'_>,
    reads: usize,
    from: &Known,
    arguments: &RenameArguments,
) -> Result<Change, Missing>
    requires reads { length draft.view.entries ≤ reads }
    requires begins { Begins (calls.Nfs (NfsCall.Rename arguments.now)) draft }
    requires names { Knows draft (λ k. Names draft.ctx arguments.now.from.directory k from.now) }
    requires number { HasNumber arguments.now.from.directory from.now.number }
    requires shown { IsShown draft from.now }
    ensures { EndsCall (calls.Nfs (NfsCall.Rename arguments.now)) draft.entry.ctx draft.entry.view result }
{
    match named(&draft, arguments.to.directory.as_slice())? {
        Ok(to) => {
            let result = rename(&mut draft, reads, from, &to, arguments)?;
            let from_shown = wcc(&draft, from)?;
            let to_shown = wcc(&draft, &to)?;
            Ok(draft.answer(reply(from_shown, to_shown, result)))
        }
        Err(status) => {
            let from_shown = wcc(&draft, from)?;
            Ok(draft.answer(reply(from_shown, nothing_shown(), Err(status))))
        }
    }
}

/// What RENAME answers, and the store after it.
fn rename(
    draft: &mut Draft<'_>,
    reads: usize,
    from: &Known,
    to: &Known,
    arguments: &RenameArguments,
) -> Result<Result<(), NfsStatus>, Missing>
    requires reads { length draft.old.view.entries ≤ reads }
    requires begins { Begins (calls.Nfs (NfsCall.Rename arguments.now)) draft.old }
    requires from { Knows draft.old (λ k. Names draft.old.ctx arguments.now.from.directory k from.now) }
    requires to { Knows draft.old (λ k. Names draft.old.ctx arguments.now.to.directory k to.now) }
    requires source { HasNumber arguments.now.from.directory from.now.number }
    requires target { HasNumber arguments.now.to.directory to.now.number }
    requires shown { BothShown draft.old from.now to.now }
    ensures { MatchResult result
        (Does draft.old draft.new (IsRenameEnd draft.old.ctx arguments.now))
        (StopsAt draft.old (named_by (calls.Nfs (NfsCall.Rename arguments.now)) draft.old.view)) }
{
    let places = match movable(draft.ctx(), exports(draft)?, from, to, arguments) {
        Ok(places) => places,
        Err(status) => return Ok(Err(status)),
    };
    let Some(moved) = object_under(draft, &places.from, arguments.from.name.as_slice())? else {
        return Ok(Err(NfsStatus::NoEntry));
    };
    let replaced = object_under(draft, &places.to, arguments.to.name.as_slice())?;
    let renaming = Renaming {
        from: places.from,
        to: places.to,
        moved,
        replaced,
    };
    rename_found(draft, reads, &renaming, arguments)
}

/// The checks of the directories and of the names: where they pass, the rest decides.
fn movable(
    ctx: &Ctx,
    exports: &[LivingExport],
    from: &Known,
    to: &Known,
    arguments: &RenameArguments,
) -> Result<Places, NfsStatus>
    ensures from { IfOk result (λ places. places.from.known ≡ from.now) }
    ensures to { IfOk result (λ places. places.to.known ≡ to.now) }
    ensures one { IfOk result (λ places. from.now.export ≡ to.now.export) }
    ensures checks { ComesToBoth (rename_checked exports.now ctx.now arguments.now) from.now to.now result }
{
    if from.export != to.export {
        return Err(NfsStatus::CrossDevice);
    }
    let places = Places {
        from: directory(from)?,
        to: directory(to)?,
    };
    plain_name_checked(
        NfsStatus::Invalid,
        NfsStatus::Invalid,
        arguments.from.name.as_slice(),
    )?;
    plain_name_checked(
        NfsStatus::Invalid,
        NfsStatus::Invalid,
        arguments.to.name.as_slice(),
    )?;
    changeable(exports, from)?;
    permitted(ctx, from, Right::ToChange)?;
    permitted(ctx, to, Right::ToChange)?;
    Ok(places)
}

/// The object that a name leads to in a directory, if any.
fn object_under(
    draft: &Draft<'_>,
    directory: &KnownDirectory,
    name: &[u8],
) -> Result<Option<Known>, Missing>
    requires none { draft.now.writes ≡ [] }
    requires known { Knows draft.now (λ k. IsKnown k.state directory.now.known) }
    ensures finds { MatchResult result
        (λ found. Knows draft.now (λ k. IsUnder k.state directory.now.known name.now found))
        (StopsAt draft.now []) }
    ensures led { IfOk result (λ found. IfSome found (λ x.
        led_at draft.now.view directory.now.known.number name.now ≡ Some x.number)) }
{
    match entry(draft, directory, name)? {
        Some(number) => object(draft, number),
        None => Ok(None),
    }
}

/// RENAME where the old name leads to an object.
fn rename_found(
    draft: &mut Draft<'_>,
    reads: usize,
    renaming: &Renaming,
    arguments: &RenameArguments,
) -> Result<Result<(), NfsStatus>, Missing>
    requires reads { length draft.old.view.entries ≤ reads }
    requires none { draft.old.writes ≡ [] }
    requires alone { MayRename draft.old renaming.now }
    requires shown { BothShown draft.old renaming.now.from.known renaming.now.to.known }
    requires finds { Knows draft.old (λ k. IsRenaming k draft.old.ctx arguments.now renaming.now) }
    requires target { HasNumber arguments.now.to.directory renaming.now.to.known.number }
    ensures { MatchResult result
        (Does draft.old draft.new (IsRenameEnd draft.old.ctx arguments.now))
        (StopsAt draft.old (added_at draft.old.view arguments.now.to ++ locks_replaced renaming.now)) }
{
    if is_one_object(renaming) {
        return Ok(Ok(()));
    }
    if !is_replaceable(draft, renaming)? {
        return Ok(Err(NfsStatus::Exists));
    }
    if goes_into_itself(draft, reads, renaming)? {
        return Ok(Err(NfsStatus::Invalid));
    }
    if !has_room(renaming) {
        return Ok(Err(NfsStatus::TooManyLinks));
    }
    let Some(cookie) = new_cookie(draft, &renaming.to)? else {
        return Ok(Err(NfsStatus::NoSpace));
    };
    move_name(draft, renaming, arguments, cookie)?;
    Ok(Ok(()))
}

/// Asks for what RENAME has to hold before it changes anything: a bit of it, until it lacks nothing.
///
/// # Errors
///
/// `Need` of that, and `Memory`.
pub(crate) fn ask(draft: &Draft<'_>, arguments: &RenameArguments) -> Result<(), Missing>
    requires { Begins (calls.Nfs (NfsCall.Rename arguments.now)) draft.now }
    ensures { IfErr result (MayHalt (calls.Nfs (NfsCall.Rename arguments.now)) draft.now) }
{
    let Ok(from) = named(draft, arguments.from.directory.as_slice())? else {
        return Ok(());
    };
    let Ok(to) = named(draft, arguments.to.directory.as_slice())? else {
        return Ok(());
    };
    ask_renamed(draft, &from, &to, arguments)
}

/// The same of what the handles name.
fn ask_renamed(
    draft: &Draft<'_>,
    from: &Known,
    to: &Known,
    arguments: &RenameArguments,
) -> Result<(), Missing>
    requires none { draft.now.writes ≡ [] }
    requires from { Knows draft.now (λ k. Names draft.now.ctx arguments.now.from.directory k from.now) }
    requires to { Knows draft.now (λ k. Names draft.now.ctx arguments.now.to.directory k to.now) }
    requires target { HasNumber arguments.now.to.directory to.now.number }
    requires shown { BothShown draft.now from.now to.now }
    ensures { IfErr result (StopsAt draft.now (named_by (calls.Nfs (NfsCall.Rename arguments.now)) draft.now.view)) }
{
    let Ok(places) = movable(draft.ctx(), exports(draft)?, from, to, arguments) else {
        return Ok(());
    };
    let Some(moved) = object_under(draft, &places.from, arguments.from.name.as_slice())? else {
        return Ok(());
    };
    let replaced = object_under(draft, &places.to, arguments.to.name.as_slice())?;
    let renaming = Renaming {
        from: places.from,
        to: places.to,
        moved,
        replaced,
    };
    ask_found(draft, &renaming, arguments)
}

/// The same where the old name leads to an object.
fn ask_found(
    draft: &Draft<'_>,
    renaming: &Renaming,
    arguments: &RenameArguments,
) -> Result<(), Missing>
    requires none { draft.now.writes ≡ [] }
    requires shown { BothShown draft.now renaming.now.from.known renaming.now.to.known }
    requires finds { Knows draft.now (λ k. IsRenaming k draft.now.ctx arguments.now renaming.now) }
    requires target { HasNumber arguments.now.to.directory renaming.now.to.known.number }
    ensures { IfErr result
        (StopsAt draft.now (added_at draft.now.view arguments.now.to ++ locks_replaced renaming.now)) }
{
    if is_one_object(renaming) || !has_room(renaming) || !is_replaceable(draft, renaming)? {
        return Ok(());
    }
    match new_cookie(draft, &renaming.to)? {
        Some(cookie) => ask_moved(draft, renaming, arguments, cookie),
        None => Ok(()),
    }
}

/// Asks for what both directories have to hold, and for what goes with an object that is replaced.
fn ask_moved(
    draft: &Draft<'_>,
    renaming: &Renaming,
    arguments: &RenameArguments,
    cookie: u64,
) -> Result<(), Missing>
    requires none { draft.now.writes ≡ [] }
    requires shown { BothShown draft.now renaming.now.from.known renaming.now.to.known }
    requires from { IsThere draft.now.view (addresses.Inode renaming.now.from.known.number) }
    requires to { IsThere draft.now.view (addresses.Inode renaming.now.to.known.number) }
    requires lives { IfSome renaming.now.replaced (λ o. IsThere draft.now.view (addresses.Inode o.number)) }
    requires target { HasNumber arguments.now.to.directory renaming.now.to.known.number }
    requires next { IsNextCookie draft.now renaming.now.to.known.number cookie }
    ensures { IfErr result
        (StopsAt draft.now (added_at draft.now.view arguments.now.to ++ locks_replaced renaming.now)) }
{
    let name = arguments.to.name.as_slice();
    ask_left(draft, &renaming.from, arguments.from.name.as_slice())?;
    if let Some(replaced) = &renaming.replaced {
        ask_lost(draft, &renaming.to, name, replaced)?;
    }
    ask_given(draft, &renaming.to, name, cookie)
}

/// Whether both names lead to one object.
fn is_one_object(renaming: &Renaming) -> bool
    ensures { result ≡ option_map_or (λ o. o.number == renaming.now.moved.number) renaming.now.replaced false }
{
    match &renaming.replaced {
        Some(replaced) => replaced.number == renaming.moved.number,
        None => false,
    }
}

fn is_directory(known: &Known) -> bool
    ensures { result ≡ is_directory_type known.now.attributes.kind }
{
    matches!(known.attributes.kind, FileType::Directory)
}

/// Whether what has the new name may be replaced: a directory with no entry by a directory, and anything else by what
/// is no directory.
fn is_replaceable(draft: &Draft<'_>, renaming: &Renaming) -> Result<bool, Missing>
    requires none { draft.now.writes ≡ [] }
    requires moved { Knows draft.now (λ k. IsKnown k.state renaming.now.moved) }
    requires replaced { Knows draft.now (λ k. IfSome renaming.now.replaced (IsKnown k.state)) }
    ensures { MatchResult result
        (λ replaceable. Knows draft.now (λ k. option_map_or
        (λ o. is_compatible (content_at k.state renaming.now.moved.number) (content_at k.state o.number))
        renaming.now.replaced true ≡ replaceable))
        (StopsAt draft.now []) }
{
    let Some(replaced) = &renaming.replaced else {
        return Ok(true);
    };
    if !is_directory(&renaming.moved) {
        return Ok(!is_directory(replaced));
    }
    match directory(replaced) {
        Ok(directory) => is_empty(draft, &directory),
        Err(_) => Ok(false),
    }
}

/// Whether a directory would go into itself, or below.
fn goes_into_itself(draft: &Draft<'_>, reads: usize, renaming: &Renaming) -> Result<bool, Missing>
    requires reads { length draft.now.view.entries ≤ reads }
    requires none { draft.now.writes ≡ [] }
    requires moved { Knows draft.now (λ k. IsKnown k.state renaming.now.moved) }
    requires to { Knows draft.now (λ k. IsKnown k.state renaming.now.to.known) }
    ensures { MatchResult result
        (λ within. Knows draft.now (λ k. WellFormed k.state →
        (within ≡ true) ↔ IsWithin k.state renaming.now.moved.number renaming.now.to.known.number))
        (StopsAt draft.now []) }
{
    if is_directory(&renaming.moved) {
        is_within(draft, reads, renaming.moved.number, &renaming.to)
    } else {
        Ok(false)
    }
}

/// Whether the new parent of a directory may have one link more, if it gets one.
fn has_room(renaming: &Renaming) -> bool
    ensures { result ≡ (not (is_directory_type renaming.now.moved.attributes.kind)
        || is_one_directory renaming.now
        || is_some renaming.now.replaced || nat_lt renaming.now.to.known.attributes.links link_limit) }
{
    !is_directory(&renaming.moved)
        || is_one_directory(renaming)
        || renaming.replaced.is_some()
        || renaming.to.known.attributes.links < LINK_LIMIT
}

/// Moves the name, with this cookie, and takes it from what had it.
fn move_name(
    draft: &mut Draft<'_>,
    renaming: &Renaming,
    arguments: &RenameArguments,
    cookie: u64,
) -> Result<(), Missing>
    requires none { draft.old.writes ≡ [] }
    requires alone { MayRename draft.old renaming.now }
    requires shown { BothShown draft.old renaming.now.from.known renaming.now.to.known }
    requires finds { Knows draft.old (λ k. IsRenaming k draft.old.ctx arguments.now renaming.now) }
    requires target { HasNumber arguments.now.to.directory renaming.now.to.known.number }
    requires next { IsNextCookie draft.old renaming.now.to.known.number cookie }
    ensures { MatchResult result
        (λ _. Turns draft.old draft.new
        (renamed (time_of draft.old.ctx.moment) arguments.now renaming.now cookie))
        (StopsAt draft.old (added_at draft.old.view arguments.now.to ++ locks_replaced renaming.now)) }
{
    move_entry(draft, renaming, arguments, cookie)?;
    rehome(draft, renaming.moved.number, renaming.to.known.number)?;
    lose_replaced(draft, renaming)
}

/// Changes both directories, or the one of both names once.
fn move_entry(
    draft: &mut Draft<'_>,
    renaming: &Renaming,
    arguments: &RenameArguments,
    cookie: u64,
) -> Result<(), Missing>
    requires none { draft.old.writes ≡ [] }
    requires alone { MayRename draft.old renaming.now }
    requires shown { BothShown draft.old renaming.now.from.known renaming.now.to.known }
    requires from { IsThere draft.old.view (addresses.Inode renaming.now.from.known.number) }
    requires to { IsThere draft.old.view (addresses.Inode renaming.now.to.known.number) }
    requires target { HasNumber arguments.now.to.directory renaming.now.to.known.number }
    requires next { IsNextCookie draft.old renaming.now.to.known.number cookie }
    ensures { MatchResult result
        (λ _. Turns draft.old draft.new
        (entry_moved (time_of draft.old.ctx.moment) arguments.now renaming.now cookie))
        (StopsAt draft.old (added_at draft.old.view arguments.now.to)) }
{
    let old_name = arguments.from.name.as_slice();
    let new_name = arguments.to.name.as_slice();
    let number = renaming.moved.number;
    let links = links_given(renaming);
    if is_one_directory(renaming) {
        return give_name(
            draft,
            &renaming.to,
            Some(old_name),
            new_name,
            number,
            cookie,
            links,
        );
    }
    leave(draft, &renaming.from, old_name, links_left(renaming))?;
    give_name(draft, &renaming.to, None, new_name, number, cookie, links)
}

/// Takes the new name from what had it.
fn lose_replaced(draft: &mut Draft<'_>, renaming: &Renaming) -> Result<(), Missing>
    requires alone { IfSome renaming.now.replaced (λ o. MayChange draft.old (addresses.Inode o.number)) }
    requires locks { draft.old.modes.locks ≡ Mode.Exclusive }
    requires lives { IfSome renaming.now.replaced (λ o. IsThere draft.old.view (addresses.Inode o.number)) }
    requires counts { IfSome renaming.now.replaced (λ o. UsageLives draft.old o.number) }
    ensures { MatchResult result
        (λ _. Turns draft.old draft.new (replaced_lost (time_of draft.old.ctx.moment) renaming.now))
        (StopsAt draft.old (locks_replaced renaming.now)) }
{
    match &renaming.replaced {
        Some(replaced) => lose_link(draft, replaced.number, names_counted(replaced)),
        None => Ok(()),
    }
}

/// Whether both names are in one directory.
fn is_one_directory(renaming: &Renaming) -> bool
    ensures { result ≡ is_one_directory renaming.now }
{
    renaming.to.known.number == renaming.from.known.number
}

/// Whether a directory gets a new parent.
fn brings_directory(renaming: &Renaming) -> bool
    ensures { result ≡ brings_directory renaming.now }
{
    is_directory(&renaming.moved) && !is_one_directory(renaming)
}

/// Whether a directory has the new name before.
fn replaces_directory(renaming: &Renaming) -> bool
    ensures { result ≡ replaces_directory renaming.now }
{
    match &renaming.replaced {
        Some(replaced) => is_directory(replaced),
        None => false,
    }
}

/// The links of the old name's directory, where that is another, once the name left it.
fn links_left(renaming: &Renaming) -> u32
    ensures { result ≡ links_left renaming.now }
{
    let links = renaming.from.known.attributes.links;
    if is_directory(&renaming.moved) {
        links.saturating_sub(1)
    } else {
        links
    }
}

/// The links of the new name's directory after it: one more for a directory that comes, one less for one that is
/// replaced.
fn links_given(renaming: &Renaming) -> u32
    ensures { result ≡ links_given renaming.now }
{
    let links = renaming.to.known.attributes.links;
    match (brings_directory(renaming), replaces_directory(renaming)) {
        (true, false) => links.saturating_add(1),
        (false, true) => links.saturating_sub(1),
        _ => links,
    }
}

/// How many names an object has.
fn names_counted(known: &Known) -> u32
    ensures { result ≡ names_counted known.now }
{
    if is_directory(known) {
        1
    } else {
        known.attributes.links
    }
}

fn reply(from: Wcc, to: Wcc, renamed: Result<(), NfsStatus>) -> Reply
    ensures { result ≡ Reply.Nfs (NfsReply.Rename (record { from = from; to = to; result = renamed })) }
{
    Reply::Nfs(NfsReply::Rename(RenamedReply {
        from,
        to,
        result: renamed,
    }))
}
