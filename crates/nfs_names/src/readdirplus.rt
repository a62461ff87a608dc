//! READDIRPLUS: the names of a directory with what they name, page by page (RFC 1813, 3.3.17).

ghost use Rattle.std.specs.Prelude.{◌≡◌, [], IfErr, map, MatchResult};
ghost use Rattle.nfs_machine.specs.PageSteps.{full_entry};
ghost use Rattle.nfs_machine.specs.declared.calls.Call.TheVariants as calls;
ghost use Rattle.nfs_objects.specs.Asks.{IsThere};
ghost use Rattle.nfs_objects.specs.Attempt.{EndsCall, EndsFirst};
ghost use Rattle.nfs_objects.specs.Begins.{Begins};
ghost use Rattle.nfs_objects.specs.Knows.{Knows};
ghost use Rattle.nfs_inodes.specs.Gathers.{EachLives};
ghost use Rattle.nfs_inodes.specs.Known.{IsKnown};
ghost use Rattle.nfs_inodes.specs.Listing.{listed_entry};
ghost use Rattle.nfs_names.specs.Pages.{Lists, full_asked, full_page};
ghost use Rattle.nfs_names.specs.Plans.{MayHalt};
ghost use Rattle.nfs_inodes.specs.Stops.{StopsAt};

use crate::page::{Budget, PageAsked, page_in};
use crate::readdir::page_entry;
use nfs_inodes::{Known, ListedEntry, handle, named, object, read_objects, verifier};
use nfs_machine::Reply;
use nfs_objects::{Addr, Change, Draft, Missing};
use nfs_wire::{
    Attributes, FullEntry, FullNames, NfsCall, NfsReply, NfsStatus, PagePlus, ReaddirplusArguments,
    ReaddirplusReply,
};

/// Tries READDIRPLUS.
pub(crate) fn attempt(draft: Draft<'_>, arguments: &ReaddirplusArguments) -> Result<Change, Missing>
    requires { Begins (calls.Nfs (NfsCall.Readdirplus arguments.now)) draft }
    ensures ends { EndsCall (calls.Nfs (NfsCall.Readdirplus arguments.now)) draft.entry.ctx draft.entry.view result }
    ensures first { EndsFirst (calls.Nfs (NfsCall.Readdirplus arguments.now)) draft.entry.view result }
{
    match named(&draft, arguments.directory.as_slice())? {
        Ok(directory) => {
            let page = listed(&draft, &directory, &asked(arguments))?;
            Ok(draft.answer(reply(Some(directory.attributes), page)))
        }
        Err(status) => Ok(draft.answer(reply(None, Err(status)))),
    }
}

/// Asks at once for the objects of the entries that are listed, where the checks pass and the pages are known.
///
/// # Errors
///
/// `Need` of what it lacks, and `Memory`.
pub(crate) fn ask(draft: &Draft<'_>, arguments: &ReaddirplusArguments) -> Result<(), Missing>
    requires { Begins (calls.Nfs (NfsCall.Readdirplus arguments.now)) draft.now }
    ensures { IfErr result (MayHalt (calls.Nfs (NfsCall.Readdirplus arguments.now)) draft.now) }
{
    let Ok(directory) = named(draft, arguments.directory.as_slice())? else {
        return Ok(());
    };
    let Ok(front) = page_in(draft, &directory, &asked(arguments))? else {
        return Ok(());
    };
    read_objects(draft, &front.entries)
}

pub(crate) fn asked(arguments: &ReaddirplusArguments) -> PageAsked
    ensures { result ≡ full_asked arguments.now }
{
    PageAsked {
        cookie: arguments.cookie,
        verifier: arguments.verifier,
        budget: Budget::Full(arguments.directory_count, arguments.most),
    }
}

/// The entries that are asked for in a directory, or why none are listed. Their objects are read at once.
fn listed(
    draft: &Draft<'_>,
    known: &Known,
    asked: &PageAsked,
) -> Result<Result<PagePlus, NfsStatus>, Missing>
    requires none { draft.now.writes ≡ [] }
    requires known { Knows draft.now (λ k. IsKnown k.state known.now) }
    ensures { MatchResult result
        (Lists draft.now known.now asked.now (λ m. full_page m draft.now.ctx))
        (StopsAt draft.now []) }
{
    match page_in(draft, known, asked)? {
        Ok(front) => {
            read_objects(draft, &front.entries)?;
            Ok(Ok(PagePlus {
                verifier: verifier(draft.ctx()),
                entries: entries(draft, &front.entries)?,
                eof: front.eof,
            }))
        }
        Err(status) => Ok(Err(status)),
    }
}

/// The entries of a page, as READDIRPLUS lists them.
fn entries(draft: &Draft<'_>, list: &[ListedEntry<'_>]) -> Result<FullNames, Missing>
    requires none { draft.now.writes ≡ [] }
    requires lives { EachLives draft.now.view (map listed_entry list.now) }
    ensures { MatchResult result
        (λ entries. Knows draft.now (λ k.
        map (full_entry k.state draft.now.ctx) (map listed_entry list.now) ≡ entries))
        (StopsAt draft.now []) }
{
    let mut entries = Vec::with_capacity(draft.alloc(), list.len())?;
    for entry in list {
        entries.push(full_entry(draft, entry)?)?;
    }
    Ok(FullNames::from_vec(entries))
}

/// An entry as READDIRPLUS lists it.
fn full_entry(draft: &Draft<'_>, entry: &ListedEntry<'_>) -> Result<FullEntry, Missing>
    requires { IsThere draft.now.view (Addr.Inode entry.now.number) }
    ensures { MatchResult result
        (λ shown. Knows draft.now (λ k. full_entry k.state draft.now.ctx (listed_entry entry.now) ≡ shown))
        (StopsAt draft.now []) }
{
    let named = page_entry(entry)?;
    match object(draft, entry.number)? {
        Some(known) => Ok(FullEntry {
            entry: named,
            attributes: Some(known.attributes),
            object: Some(handle(draft.alloc(), draft.ctx(), &known)?),
        }),
        None => Ok(FullEntry {
            entry: named,
            attributes: None,
            object: None,
        }),
    }
}

fn reply(attributes: Option<Attributes>, page: Result<PagePlus, NfsStatus>) -> Reply
    ensures { result ≡ Reply.Nfs (NfsReply.Readdirplus (record { attributes = attributes; result = page })) }
{
    Reply::Nfs(NfsReply::Readdirplus(ReaddirplusReply {
        attributes,
        result: page,
    }))
}
