//! REMOVE and RMDIR: a name is taken away (RFC 1813, 3.3.12 and 3.3.13).

ghost use Rattle.std.specs.Prelude.{◌≡◌, ◌∷◌, [], IfErr, IfOk, MatchResult, Some};
ghost use Rattle.nfs_machine.specs.RemoveSteps.{empty_directory};
ghost use Rattle.nfs_objects.specs.Attempt.{EndsCall, EndsFirst};
ghost use Rattle.nfs_objects.specs.Begins.{Begins};
ghost use Rattle.nfs_objects.specs.Calls.{addresses_of, locks_under};
ghost use Rattle.nfs_objects.specs.Knows.{Does, Knows};
ghost use Rattle.nfs_objects.specs.Modes.{changing, led_at};
ghost use Rattle.nfs_inodes.specs.Kinds.{IsShown};
ghost use Rattle.nfs_inodes.specs.Known.{HasNumber, IsKnown, Names, content_at};
ghost use Rattle.nfs_inodes.specs.Stops.{StopsAt};
ghost use Rattle.nfs_names.specs.Plans.{MayHalt};
ghost use Rattle.nfs_names.specs.Removes.{IsTakable, IsTakenEnd, above, call_of, judged, reply_of};

use crate::checking::changed_directory;
use nfs_inodes::{
    Known, KnownDirectory, ask_lost, directory, entry, exports, is_empty, named, no_directory,
    nothing_shown, object, take_name, wcc,
};
use nfs_machine::Reply;
use nfs_objects::{Addr, Change, Draft, Missing};
use nfs_wire::{DirOp, NfsReply, NfsStatus, RemovedReply, Wcc};

/// How a name is taken away.
#[derive(Clone, Copy)]
pub(crate) enum Taking {
    /// From anything but a directory.
    Remove,
    /// From a directory that has no entry.
    Rmdir,
}

/// Tries REMOVE or RMDIR.
pub(crate) fn attempt(
    mut draft: Draft<'_>,
    taking: Taking,
    place: &DirOp,
) -> Result<Change, Missing>
    requires { Begins (call_of taking place.now) draft }
    ensures ends { EndsCall (call_of taking place.now) draft.entry.ctx draft.entry.view result }
    ensures first { EndsFirst (call_of taking place.now) draft.entry.view result }
{
    match named(&draft, place.directory.as_slice())? {
        Ok(directory) => {
            let result = take(&mut draft, taking, &directory, place)?;
            let shown = wcc(&draft, &directory)?;
            Ok(draft.answer(reply(taking, shown, result)))
        }
        Err(status) => Ok(draft.answer(reply(taking, nothing_shown(), Err(status)))),
    }
}

/// What REMOVE or RMDIR answers, and the store after it.
fn take(
    draft: &mut Draft<'_>,
    taking: Taking,
    known: &Known,
    place: &DirOp,
) -> Result<Result<(), NfsStatus>, Missing>
    requires none { draft.old.writes ≡ [] }
    requires alone { draft.old.modes ≡ changing }
    requires names { Knows draft.old (λ k. Names draft.old.ctx place.now.directory k known.now) }
    requires number { HasNumber place.now.directory known.now.number }
    requires shown { IsShown draft.old known.now }
    ensures { MatchResult result
        (Does draft.old draft.new (IsTakenEnd taking draft.old.ctx place.now))
        (StopsAt draft.old (Addr.Exports ∷ locks_under draft.old.view place.now)) }
{
    let name = place.name.as_slice();
    let own = NfsStatus::Invalid;
    let directory = match changed_directory(
        own,
        above(taking),
        draft.ctx(),
        exports(draft)?,
        known,
        name,
    ) {
        Ok(directory) => directory,
        Err(status) => return Ok(Err(status)),
    };
    let object = match takable(draft, taking, &directory, name)? {
        Ok(object) => object,
        Err(status) => return Ok(Err(status)),
    };
    take_name(draft, &directory, name, &object)?;
    Ok(Ok(()))
}

/// Asks for all that REMOVE or RMDIR has to hold before it changes anything.
///
/// # Errors
///
/// `Need` of that, and `Memory`.
pub(crate) fn ask(draft: &Draft<'_>, taking: Taking, place: &DirOp) -> Result<(), Missing>
    requires { Begins (call_of taking place.now) draft.now }
    ensures { IfErr result (MayHalt (call_of taking place.now) draft.now) }
{
    let Ok(directory) = named(draft, place.directory.as_slice())? else {
        return Ok(());
    };
    ask_taken(draft, taking, &directory, place)
}

/// The same in the directory that the handle names.
fn ask_taken(draft: &Draft<'_>, taking: Taking, known: &Known, place: &DirOp) -> Result<(), Missing>
    requires none { draft.now.writes ≡ [] }
    requires names { Knows draft.now (λ k. Names draft.now.ctx place.now.directory k known.now) }
    requires number { HasNumber place.now.directory known.now.number }
    requires shown { IsShown draft.now known.now }
    ensures { IfErr result (StopsAt draft.now (Addr.Exports ∷ locks_under draft.now.view place.now)) }
{
    let name = place.name.as_slice();
    let own = NfsStatus::Invalid;
    let exports = exports(draft)?;
    let Ok(directory) = changed_directory(own, above(taking), draft.ctx(), exports, known, name)
    else {
        return Ok(());
    };
    let Ok(object) = takable(draft, taking, &directory, name)? else {
        return Ok(());
    };
    ask_lost(draft, &directory, name, &object)
}

/// The status of a call that would take `..` away.
fn above(taking: Taking) -> NfsStatus
    ensures { result ≡ above taking }
{
    match taking {
        Taking::Remove => NfsStatus::Invalid,
        Taking::Rmdir => NfsStatus::Exists,
    }
}

/// The object that the name leads to, where it may be taken away.
fn takable(
    draft: &Draft<'_>,
    taking: Taking,
    directory: &KnownDirectory,
    name: &[u8],
) -> Result<Result<Known, NfsStatus>, Missing>
    requires none { draft.now.writes ≡ [] }
    requires known { Knows draft.now (λ k. IsKnown k.state directory.now.known) }
    ensures found { MatchResult result
        (λ found. Knows draft.now (λ k. IsTakable taking k.state directory.now.known.number name.now found))
        (StopsAt draft.now []) }
    ensures led { IfOk result (λ found. IfOk found (λ x.
        led_at draft.now.view directory.now.known.number name.now ≡ Some x.number)) }
{
    let Some(number) = entry(draft, directory, name)? else {
        return Ok(Err(NfsStatus::NoEntry));
    };
    let Some(object) = object(draft, number)? else {
        return Ok(Err(NfsStatus::NoEntry));
    };
    let verdict = judged(draft, taking, &object)?;
    match verdict {
        Ok(()) => Ok(Ok(object)),
        Err(status) => Ok(Err(status)),
    }
}

/// Whether an object may be taken away.
fn judged(
    draft: &Draft<'_>,
    taking: Taking,
    object: &Known,
) -> Result<Result<(), NfsStatus>, Missing>
    requires known { Knows draft.now (λ k. IsKnown k.state object.now) }
    ensures { MatchResult result
        (λ verdict. Knows draft.now (λ k. judged taking (content_at k.state object.now.number) ≡ verdict))
        (StopsAt draft.now (addresses_of draft.now.view object.now.number)) }
{
    match taking {
        Taking::Remove => Ok(no_directory(NfsStatus::IsDirectory, object)),
        Taking::Rmdir => empty_directory(draft, object),
    }
}

/// Whether an object is a directory that has no entry.
fn empty_directory(draft: &Draft<'_>, object: &Known) -> Result<Result<(), NfsStatus>, Missing>
    requires known { Knows draft.now (λ k. IsKnown k.state object.now) }
    ensures { MatchResult result
        (λ verdict. Knows draft.now (λ k. empty_directory (content_at k.state object.now.number) ≡ verdict))
        (StopsAt draft.now (addresses_of draft.now.view object.now.number)) }
{
    let directory = match directory(object) {
        Ok(directory) => directory,
        Err(status) => return Ok(Err(status)),
    };
    let empty = is_empty(draft, &directory)?;
    if empty {
        Ok(Ok(()))
    } else {
        Ok(Err(NfsStatus::NotEmpty))
    }
}

fn reply(taking: Taking, directory: Wcc, taken: Result<(), NfsStatus>) -> Reply
    ensures { result ≡ Reply.Nfs (reply_of taking (record { directory = directory; result = taken })) }
{
    let removed = RemovedReply {
        directory,
        result: taken,
    };
    Reply::Nfs(match taking {
        Taking::Remove => NfsReply::Remove(removed),
        Taking::Rmdir => NfsReply::Rmdir(removed),
    })
}
