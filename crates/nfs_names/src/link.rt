//! LINK: one more name for an object that is no directory (RFC 1813, 3.3.15).

ghost use Rattle.std.specs.Prelude.{◌≡◌, ◌∷◌, [], IfErr, IfOk, MatchResult};
ghost use Rattle.nfs_machine.specs.declared.calls.Call.TheVariants as calls;
ghost use Rattle.nfs_objects.specs.Attempt.{EndsCall, EndsFirst};
ghost use Rattle.nfs_objects.specs.Begins.{Begins};
ghost use Rattle.nfs_objects.specs.Calls.{added_at};
ghost use Rattle.nfs_objects.specs.Knows.{Does, Knows};
ghost use Rattle.nfs_objects.specs.Modes.{changing};
ghost use Rattle.nfs_inodes.specs.Kinds.{IsShown};
ghost use Rattle.nfs_inodes.specs.Known.{HasNumber, Names};
ghost use Rattle.nfs_inodes.specs.Stops.{StopsAt};
ghost use Rattle.nfs_names.specs.Links.{IsLinkEnd, LinkComesTo};
ghost use Rattle.nfs_names.specs.Plans.{MayHalt};

use crate::checking::changed_directory;
use nfs_inodes::{
    Known, KnownDirectory, LINK_LIMIT, add_link, ask_given, entry, exports, named, new_cookie,
    no_directory, nothing_shown, shown, wcc,
};
use nfs_machine::{Ctx, Reply};
use nfs_objects::{Addr, Change, Draft, LivingExport, Missing};
use nfs_wire::{Attributes, LinkArguments, LinkedReply, NfsCall, NfsReply, NfsStatus, Wcc};

/// Tries LINK.
pub(crate) fn attempt(draft: Draft<'_>, arguments: &LinkArguments) -> Result<Change, Missing>
    requires { Begins (calls.Nfs (NfsCall.Link arguments.now)) draft }
    ensures ends { EndsCall (calls.Nfs (NfsCall.Link arguments.now)) draft.entry.ctx draft.entry.view result }
    ensures first { EndsFirst (calls.Nfs (NfsCall.Link arguments.now)) draft.entry.view result }
{
    match named(&draft, arguments.file.as_slice())? {
        Ok(file) => attempt_of(draft, &file, arguments),
        Err(status) => Ok(draft.answer(reply(None, nothing_shown(), Err(status)))),
    }
}

/// The same once the file is known.
fn attempt_of(
    mut draft: Draft<'_>,
    file: &Known,
    arguments: &LinkArguments,
) -> Result<Change, Missing>
    requires begins { Begins (calls.Nfs (NfsCall.Link arguments.now)) draft }
    requires file { Knows draft (λ k. Names draft.ctx arguments.now.file k file.now) }
    ensures { EndsCall (calls.Nfs (NfsCall.Link arguments.now)) draft.entry.ctx draft.entry.view result }
{
    match named(&draft, arguments.place.directory.as_slice())? {
        Ok(directory) => {
            let result = link(&mut draft, file, &directory, arguments)?;
            let attributes = shown(&draft, file.number)?;
            let wcc = wcc(&draft, &directory)?;
            Ok(draft.answer(reply(attributes, wcc, result)))
        }
        Err(status) => {
            let attributes = Some(file.attributes);
            Ok(draft.answer(reply(attributes, nothing_shown(), Err(status))))
        }
    }
}

/// What LINK answers, and the store after it.
fn link(
    draft: &mut Draft<'_>,
    file: &Known,
    known: &Known,
    arguments: &LinkArguments,
) -> Result<Result<(), NfsStatus>, Missing>
    requires none { draft.old.writes ≡ [] }
    requires alone { draft.old.modes ≡ changing }
    requires file { Knows draft.old (λ k. Names draft.old.ctx arguments.now.file k file.now) }
    requires directory { Knows draft.old (λ k. Names draft.old.ctx arguments.now.place.directory k known.now) }
    requires shown { IsShown draft.old known.now }
    requires target { HasNumber arguments.now.place.directory known.now.number }
    ensures { MatchResult result
        (Does draft.old draft.new (IsLinkEnd draft.old.ctx arguments.now))
        (StopsAt draft.old (Addr.Exports ∷ added_at draft.old.view arguments.now.place)) }
{
    let name = arguments.place.name.as_slice();
    let directory = match linkable(draft.ctx(), exports(draft)?, file, known, name) {
        Ok(directory) => directory,
        Err(status) => return Ok(Err(status)),
    };
    if entry(draft, &directory, name)?.is_some() {
        return Ok(Err(NfsStatus::Exists));
    }
    if file.attributes.links >= LINK_LIMIT {
        return Ok(Err(NfsStatus::TooManyLinks));
    }
    let Some(cookie) = new_cookie(draft, &directory)? else {
        return Ok(Err(NfsStatus::NoSpace));
    };
    let links = file.attributes.links + 1;
    add_link(draft, &directory, name, cookie, file.number, links)?;
    Ok(Ok(()))
}

/// Asks for all that LINK has to hold before it changes anything.
///
/// # Errors
///
/// `Need` of that, and `Memory`.
pub(crate) fn ask(draft: &Draft<'_>, arguments: &LinkArguments) -> Result<(), Missing>
    requires { Begins (calls.Nfs (NfsCall.Link arguments.now)) draft.now }
    ensures { IfErr result (MayHalt (calls.Nfs (NfsCall.Link arguments.now)) draft.now) }
{
    let Ok(file) = named(draft, arguments.file.as_slice())? else {
        return Ok(());
    };
    let Ok(directory) = named(draft, arguments.place.directory.as_slice())? else {
        return Ok(());
    };
    ask_linked(draft, &file, &directory, arguments)
}

/// The same of what the handles name.
fn ask_linked(
    draft: &Draft<'_>,
    file: &Known,
    known: &Known,
    arguments: &LinkArguments,
) -> Result<(), Missing>
    requires none { draft.now.writes ≡ [] }
    requires directory { Knows draft.now (λ k. Names draft.now.ctx arguments.now.place.directory k known.now) }
    requires shown { IsShown draft.now known.now }
    requires target { HasNumber arguments.now.place.directory known.now.number }
    ensures { IfErr result (StopsAt draft.now (Addr.Exports ∷ added_at draft.now.view arguments.now.place)) }
{
    let name = arguments.place.name.as_slice();
    let Ok(directory) = linkable(draft.ctx(), exports(draft)?, file, known, name) else {
        return Ok(());
    };
    if file.attributes.links >= LINK_LIMIT || entry(draft, &directory, name)?.is_some() {
        return Ok(());
    }
    match new_cookie(draft, &directory)? {
        Some(cookie) => ask_given(draft, &directory, name, cookie),
        None => Ok(()),
    }
}

/// The checks of the file, its new directory and its new name: where they pass, the rest decides.
fn linkable(
    ctx: &Ctx,
    exports: &[LivingExport],
    file: &Known,
    known: &Known,
    name: &[u8],
) -> Result<KnownDirectory, NfsStatus>
    ensures known { IfOk result (λ directory. directory.known ≡ known.now) }
    ensures checks { LinkComesTo exports.now ctx.now name.now file.now known.now result }
{
    if file.export != known.export {
        return Err(NfsStatus::CrossDevice);
    }
    no_directory(NfsStatus::Invalid, file)?;
    let plain = NfsStatus::Invalid;
    changed_directory(plain, plain, ctx, exports, known, name)
}

fn reply(attributes: Option<Attributes>, directory: Wcc, linked: Result<(), NfsStatus>) -> Reply
    ensures { result ≡ Reply.Nfs (NfsReply.Link
        (record { attributes = attributes; directory = directory; result = linked })) }
{
    Reply::Nfs(NfsReply::Link(LinkedReply {
        attributes,
        directory,
        result: linked,
    }))
}
