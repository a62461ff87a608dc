//! How a call makes a new object under a name (RFC 1813, 3.3.8 to 3.3.11): CREATE, MKDIR, SYMLINK and MKNOD.

ghost use Rattle.std.specs.Prelude.{◌≡◌, ◌∷◌, ◌++◌, [], IfErr, IfOk, IsSome, MatchResult, None, Ok};
ghost use Rattle.std.specs.Prelude.{option_map};
ghost use Rattle.nfs_machine.specs.Attributes.{entries_of};
ghost use Rattle.nfs_machine.specs.Checks.{entry_of};
ghost use Rattle.nfs_objects.specs.Asks.{IsThere};
ghost use Rattle.nfs_objects.specs.Attempt.{HaltsFirst, first_wanted_with};
ghost use Rattle.nfs_objects.specs.Calls.{added_at, addresses_of, next_places, usages_of};
ghost use Rattle.nfs_objects.specs.Knows.{Does, Knows, ShowsExport};
ghost use Rattle.nfs_objects.specs.Modes.{changing};
ghost use Rattle.nfs_objects.specs.Values.{known_at};
ghost use Rattle.nfs_objects.specs.declared.address.Addr.TheVariants as addresses;
ghost use Rattle.nfs_inodes.specs.Asked.{asked_as, wanted_as};
ghost use Rattle.nfs_inodes.specs.Kinds.{IsShown};
ghost use Rattle.nfs_inodes.specs.Known.{HasNumber, IsKnown, Names, content_at};
ghost use Rattle.nfs_inodes.specs.Stops.{IsOfExport, StopsAt, StopsMaking, brought_by};
ghost use Rattle.nfs_names.specs.Checking.{ComesTo};
ghost use Rattle.nfs_names.specs.Making.{IsMakeEnd, IsNewEnd, IsThereEnd, MakesReply, add_checked, made_at};
ghost use Rattle.nfs_names.specs.Making.{judged, there_as};

use crate::over::create_over;
use nfs_inodes::{
    Known, KnownDirectory, Right, Wanted, ask_made, changeable, directory, entry, exports,
    given_attributes, handle, kind_checked, make_object, named, new_cookie, nothing_shown, object,
    permitted, plain_name_checked, wcc,
};
use nfs_machine::Ctx;
use nfs_objects::{Draft, LivingExport, Missing};
use nfs_wire::{CreateHow, DirOp, Made, MadeReply, NfsStatus};

/// What a call makes of a name that is there.
#[derive(Clone, Copy)]
pub(crate) enum There<'a> {
    /// It is refused.
    Refused,
    /// CREATE may answer what it leads to.
    Created(&'a CreateHow),
}

/// Makes what is asked for, and answers it.
///
/// # Errors
///
/// `Need`, `Fresh` and `Memory`. The draft is of no use then.
pub(crate) fn make(
    draft: &mut Draft<'_>,
    place: &DirOp,
    asked: Result<Wanted<'_>, NfsStatus>,
    there: There<'_>,
) -> Result<MadeReply, Missing>
    requires none { draft.old.writes ≡ [] }
    requires alone { draft.old.modes ≡ changing }
    ensures answers { MatchResult result
        (MakesReply draft.old draft.new place.now (asked_as asked.entry) (there_as there.entry draft.old.ctx))
        (StopsMaking draft.old (brought_by draft.old.view place.now.directory ++ added_at draft.old.view place.now)) }
    ensures first { HaltsFirst draft.old.modes draft.old.view
        (first_wanted_with draft.old.view (place.now.directory ∷ [])) result }
{
    match named(draft, place.directory.as_slice())? {
        Ok(known) => {
            let result = make_in(draft, &known, place, asked, there)?;
            let directory = wcc(draft, &known)?;
            Ok(MadeReply { directory, result })
        }
        Err(status) => Ok(MadeReply {
            directory: nothing_shown(),
            result: Err(status),
        }),
    }
}

/// The same in the directory that the handle names.
fn make_in(
    draft: &mut Draft<'_>,
    known: &Known,
    place: &DirOp,
    asked: Result<Wanted<'_>, NfsStatus>,
    there: There<'_>,
) -> Result<Result<Made, NfsStatus>, Missing>
    requires none { draft.old.writes ≡ [] }
    requires alone { draft.old.modes ≡ changing }
    requires names { Knows draft.old (λ k. Names draft.old.ctx place.now.directory k known.now) }
    requires exported { ShowsExport draft.old known.now.export }
    requires shown { IsShown draft.old known.now }
    requires usage { IsOfExport place.now.directory known.now.export }
    requires number { HasNumber place.now.directory known.now.number }
    ensures { MatchResult result
        (Does draft.old draft.new (IsMakeEnd draft.old.ctx place.now (asked_as asked.entry)
        (there_as there.entry draft.old.ctx)))
        (StopsMaking draft.old (brought_by draft.old.view place.now.directory ++ added_at draft.old.view place.now)) }
{
    let name = place.name.as_slice();
    let accepted = match addable(draft.ctx(), exports(draft)?, known, name, asked) {
        Ok(accepted) => accepted,
        Err(status) => return Ok(Err(status)),
    };
    match entry(draft, &accepted.directory, name)? {
        Some(number) => make_there(draft, number, there),
        None => make_new(draft, &accepted.directory, name, &accepted.wanted),
    }
}

/// A directory that may get a new name, and what is asked for under it.
#[derive(Clone, Copy)]
struct Accepted<'a> {
    directory: KnownDirectory,
    wanted: Wanted<'a>,
}

/// The checks of a directory that may get a new name: where they pass, the rest decides.
fn addable<'a>(
    ctx: &Ctx,
    exports: &[LivingExport],
    known: &Known,
    name: &[u8],
    asked: Result<Wanted<'a>, NfsStatus>,
) -> Result<Accepted<'a>, NfsStatus>
    ensures known { IfOk result (λ accepted. accepted.directory.known ≡ known.now) }
    ensures wanted { IfOk result (λ accepted. asked_as asked.entry ≡ Ok (wanted_as accepted.wanted)) }
    ensures checks { ComesTo (add_checked exports.now ctx.now name.now (asked_as asked.entry)) known.now result }
{
    let directory = directory(known)?;
    plain_name_checked(NfsStatus::Exists, NfsStatus::Exists, name)?;
    let wanted = asked?;
    changeable(exports, known)?;
    permitted(ctx, known, Right::ToChange)?;
    Ok(Accepted { directory, wanted })
}

/// What is made of a name that leads to this number.
fn make_there(
    draft: &mut Draft<'_>,
    number: u64,
    there: There<'_>,
) -> Result<Result<Made, NfsStatus>, Missing>
    requires none { draft.old.writes ≡ [] }
    requires alone { draft.old.modes ≡ changing }
    requires lives { IsThere draft.old.view (addresses.Inode number) }
    ensures { MatchResult result
        (Does draft.old draft.new (IsThereEnd (there_as there.entry draft.old.ctx) number))
        (StopsAt draft.old []) }
{
    match there {
        There::Refused => Ok(Err(NfsStatus::Exists)),
        There::Created(how) => create_over(draft, number, how),
    }
}

/// A new object where nothing has the name.
fn make_new(
    draft: &mut Draft<'_>,
    directory: &KnownDirectory,
    name: &[u8],
    wanted: &Wanted<'_>,
) -> Result<Result<Made, NfsStatus>, Missing>
    requires none { draft.old.writes ≡ [] }
    requires alone { draft.old.modes ≡ changing }
    requires known { Knows draft.old (λ k. IsKnown k.state directory.now.known) }
    requires exported { ShowsExport draft.old directory.now.known.export }
    requires shown { IsShown draft.old directory.now.known }
    requires lives { IsThere draft.old.view (addresses.Inode directory.now.known.number) }
    requires absent { Knows draft.old (λ k. option_map (λ e. e.number)
        (entry_of (entries_of (content_at k.state directory.now.known.number)) name.now) ≡ None) }
    ensures { MatchResult result
        (Does draft.old draft.new (IsNewEnd draft.old.ctx (wanted_as wanted.now) directory.now.known name.now))
        (StopsMaking draft.old (usages_of directory.now.known.export 64
        ++ next_places draft.old.view directory.now.known.number name.now)) }
{
    if let Err(status) = judged(draft.ctx(), directory, wanted) {
        return Ok(Err(status));
    }
    let Some(cookie) = new_cookie(draft, directory)? else {
        return Ok(Err(NfsStatus::NoSpace));
    };
    let reserved = make_object(draft, directory, name, cookie, wanted)?;
    Ok(Ok(made(draft, reserved.number)?))
}

/// Asks for all that making has to hold before it changes anything, where nothing has the name.
///
/// # Errors
///
/// `Fresh` where no number is reserved, `Need` of all else, and `Memory`.
pub(crate) fn ask(
    draft: &Draft<'_>,
    place: &DirOp,
    asked: Result<Wanted<'_>, NfsStatus>,
) -> Result<(), Missing>
    requires { draft.now.writes ≡ [] }
    ensures { IfErr result (StopsMaking draft.now
        (brought_by draft.now.view place.now.directory ++ added_at draft.now.view place.now)) }
{
    match named(draft, place.directory.as_slice())? {
        Ok(known) => ask_in(draft, &known, place, asked),
        Err(_) => Ok(()),
    }
}

/// The same in the directory that the handle names.
fn ask_in(
    draft: &Draft<'_>,
    known: &Known,
    place: &DirOp,
    asked: Result<Wanted<'_>, NfsStatus>,
) -> Result<(), Missing>
    requires none { draft.now.writes ≡ [] }
    requires names { Knows draft.now (λ k. Names draft.now.ctx place.now.directory k known.now) }
    requires shown { IsShown draft.now known.now }
    requires usage { IsOfExport place.now.directory known.now.export }
    requires number { HasNumber place.now.directory known.now.number }
    ensures { IfErr result (StopsMaking draft.now
        (brought_by draft.now.view place.now.directory ++ added_at draft.now.view place.now)) }
{
    let name = place.name.as_slice();
    let Ok(accepted) = addable(draft.ctx(), exports(draft)?, known, name, asked) else {
        return Ok(());
    };
    if entry(draft, &accepted.directory, name)?.is_some() {
        return Ok(());
    }
    ask_new(draft, &accepted.directory, name, &accepted.wanted)
}

/// The same where nothing has the name.
fn ask_new(
    draft: &Draft<'_>,
    directory: &KnownDirectory,
    name: &[u8],
    wanted: &Wanted<'_>,
) -> Result<(), Missing>
    requires none { draft.now.writes ≡ [] }
    requires shown { IsShown draft.now directory.now.known }
    requires lives { IsThere draft.now.view (addresses.Inode directory.now.known.number) }
    ensures { IfErr result (StopsMaking draft.now (usages_of directory.now.known.export 64
        ++ next_places draft.now.view directory.now.known.number name.now)) }
{
    if judged(draft.ctx(), directory, wanted).is_err() {
        return Ok(());
    }
    match new_cookie(draft, directory)? {
        Some(cookie) => ask_made(draft, directory, name, cookie),
        None => Ok(()),
    }
}

/// The checks of what is asked for.
fn judged(ctx: &Ctx, directory: &KnownDirectory, wanted: &Wanted<'_>) -> Result<(), NfsStatus>
    ensures { result ≡ judged ctx.now directory.now.known.attributes.links (wanted_as wanted.now) }
{
    kind_checked(ctx, directory.known.attributes.links, &wanted.content)?;
    given_attributes(ctx, &wanted.attributes)
}

/// What is told of what lives at a number: its handle and its attributes (RFC 1813, 3.3.8: post_op_fh3).
pub(crate) fn made(draft: &Draft<'_>, number: u64) -> Result<Made, Missing>
    ensures made { MatchResult result
        (λ made. Knows draft.now (λ k. made ≡ made_at k.state draft.now.ctx number))
        (StopsAt draft.now (addresses_of draft.now.view number)) }
    ensures known { IsSome (known_at draft.now (addresses.Inode number)) →
        IfErr result (StopsAt draft.now []) }
{
    match object(draft, number)? {
        Some(known) => Ok(Made {
            object: Some(handle(draft.alloc(), draft.ctx(), &known)?),
            attributes: Some(known.attributes),
        }),
        None => Ok(Made {
            object: None,
            attributes: None,
        }),
    }
}
