//! READDIR: the names of a directory, page by page (RFC 1813, 3.3.16).

ghost use Rattle.std.specs.Prelude.{◌≡◌, [], map, IfOk, MatchResult};
ghost use Rattle.nfs_machine.specs.PageSteps.{page_entry};
ghost use Rattle.nfs_machine.specs.declared.calls.Call.TheVariants as calls;
ghost use Rattle.nfs_objects.specs.Attempt.{EndsCall, EndsFirst};
ghost use Rattle.nfs_objects.specs.Begins.{Begins};
ghost use Rattle.nfs_objects.specs.Knows.{Knows};
ghost use Rattle.nfs_inodes.specs.Known.{IsKnown};
ghost use Rattle.nfs_inodes.specs.Listing.{listed_entry};
ghost use Rattle.nfs_names.specs.Pages.{Lists, names_asked, names_page};
ghost use Rattle.nfs_inodes.specs.Stops.{StopsAt};

use crate::page::{Budget, PageAsked, page_in};
use nfs_inodes::{Known, ListedEntry, named, verifier};
use nfs_machine::Reply;
use nfs_objects::{Change, Draft, Missing};
use nfs_wire::{
    Attributes, Names, NfsCall, NfsReply, NfsStatus, Page, PageEntry, ReaddirArguments,
    ReaddirReply,
};
use std::alloc::{AllocError, Global};

/// Tries READDIR.
pub(crate) fn attempt(draft: Draft<'_>, arguments: &ReaddirArguments) -> Result<Change, Missing>
    requires { Begins (calls.Nfs (NfsCall.Readdir arguments.now)) draft }
    ensures ends { EndsCall (calls.Nfs (NfsCall.Readdir arguments.now)) draft.entry.ctx draft.entry.view result }
    ensures first { EndsFirst (calls.Nfs (NfsCall.Readdir arguments.now)) draft.entry.view result }
{
    match named(&draft, arguments.directory.as_slice())? {
        Ok(directory) => {
            let page = listed(&draft, &directory, &asked(arguments))?;
            Ok(draft.answer(reply(Some(directory.attributes), page)))
        }
        Err(status) => Ok(draft.answer(reply(None, Err(status)))),
    }
}

pub(crate) fn asked(arguments: &ReaddirArguments) -> PageAsked
    ensures { result ≡ names_asked arguments.now }
{
    PageAsked {
        cookie: arguments.cookie,
        verifier: arguments.verifier,
        budget: Budget::Names(arguments.count),
    }
}

/// The names that are asked for in a directory, or why none are listed.
fn listed(
    draft: &Draft<'_>,
    known: &Known,
    asked: &PageAsked,
) -> Result<Result<Page, NfsStatus>, Missing>
    requires none { draft.now.writes ≡ [] }
    requires known { Knows draft.now (λ k. IsKnown k.state known.now) }
    ensures { MatchResult result
        (Lists draft.now known.now asked.now (λ _. names_page draft.now.ctx))
        (StopsAt draft.now []) }
{
    match page_in(draft, known, asked)? {
        Ok(front) => Ok(Ok(Page {
            verifier: verifier(draft.ctx()),
            entries: names(draft.alloc(), &front.entries)?,
            eof: front.eof,
        })),
        Err(status) => Ok(Err(status)),
    }
}

/// The entries of a page, as READDIR lists them.
fn names(alloc: Global, entries: &[ListedEntry<'_>]) -> Result<Names, AllocError>
    ensures { IfOk result (λ names. names ≡ map page_entry (map listed_entry entries.now)) }
{
    let mut names = Vec::with_capacity(alloc, entries.len())?;
    for entry in entries {
        names.push(page_entry(entry)?)?;
    }
    Ok(Names::from_vec(names))
}

/// An entry as READDIR lists it.
pub(crate) fn page_entry(entry: &ListedEntry<'_>) -> Result<PageEntry, AllocError>
    ensures { IfOk result (λ shown. shown ≡ page_entry (listed_entry entry.now)) }
{
    Ok(PageEntry {
        fileid: entry.number,
        name: entry.share_name()?,
        cookie: entry.cookie,
    })
}

fn reply(attributes: Option<Attributes>, page: Result<Page, NfsStatus>) -> Reply
    ensures { result ≡ Reply.Nfs (NfsReply.Readdir (record { attributes = attributes; result = page })) }
{
    Reply::Nfs(NfsReply::Readdir(ReaddirReply {
        attributes,
        result: page,
    }))
}
