//! WRITE: bytes into a file (RFC 1813, 3.3.7).

ghost use Rattle.std.specs.Prelude.{◌≡◌, ◌+◌, ◌==◌, ◌||◌, IfErr, IfOk, MatchResult, nat_le};
ghost use Rattle.nfs_machine.specs.Attributes.{type_of};
ghost use Rattle.nfs_machine.specs.Data.{size_limit};
ghost use Rattle.nfs_machine.specs.DataSteps.{write_count, write_object};
ghost use Rattle.nfs_machine.specs.State.{Content};
ghost use Rattle.nfs_machine.specs.declared.calls.Call.TheVariants as calls;
ghost use Rattle.nfs_objects.specs.Attempt.{EndsCall, EndsFirst};
ghost use Rattle.nfs_objects.specs.Begins.{Begins};
ghost use Rattle.nfs_objects.specs.Calls.{named_by};
ghost use Rattle.nfs_objects.specs.Knows.{Does, Knows};
ghost use Rattle.nfs_inodes.specs.Kinds.{IsShown};
ghost use Rattle.nfs_inodes.specs.Known.{HasNumber, Names, shell};
ghost use Rattle.nfs_inodes.specs.Stops.{StopsAt};
ghost use Rattle.nfs_data.specs.Plans.{MayHalt};
ghost use Rattle.nfs_data.specs.Writes.{HasRoom, IsWriteEnd, answer_to, write_found};

use nfs_inodes::{
    Known, KnownFile, Right, SIZE_LIMIT, TRANSFER_LIMIT, changeable, exports, named, nothing_shown,
    permitted, regular, verifier, wcc, write,
};
use nfs_machine::{Ctx, Handle, Reply};
use nfs_objects::{Change, Draft, LivingExport, Missing};
use nfs_wire::{NfsCall, NfsReply, NfsStatus, WriteArguments, WriteReply, Written};

/// Tries WRITE.
pub(crate) fn attempt(mut draft: Draft<'_>, arguments: &WriteArguments) -> Result<Change, Missing>
    requires { Begins (calls.Nfs (NfsCall.Write arguments.now)) draft }
    ensures ends { EndsCall (calls.Nfs (NfsCall.Write arguments.now)) draft.entry.ctx draft.entry.view result }
    ensures first { EndsFirst (calls.Nfs (NfsCall.Write arguments.now)) draft.entry.view result }
{
    let (wcc, result) = match named(&draft, arguments.file.as_slice())? {
        Ok(known) => {
            let result = store(&mut draft, &known, arguments)?;
            (wcc(&draft, &known)?, result)
        }
        Err(status) => (nothing_shown(), Err(status)),
    };
    let reply = WriteReply { wcc, result };
    Ok(draft.answer(Reply::Nfs(NfsReply::Write(reply))))
}

/// Asks for what WRITE has to hold, where its checks pass.
///
/// # Errors
///
/// `Need` of what it lacks, and `Memory`. The draft is of no use then.
pub(crate) fn ask(draft: &mut Draft<'_>, arguments: &WriteArguments) -> Result<(), Missing>
    requires { Begins (calls.Nfs (NfsCall.Write arguments.now)) draft.old }
    ensures { IfErr result (MayHalt (NfsCall.Write arguments.now) draft.old) }
{
    if let Ok(known) = named(draft, arguments.file.as_slice())? {
        let _written = store(draft, &known, arguments)?;
    }
    Ok(())
}

/// Whether the draft shows remains where WRITE writes, which go first.
pub(crate) fn has_remains(draft: &Draft<'_>, arguments: &WriteArguments) -> bool {
    let Some(handle) = Handle::read(arguments.file.as_slice()) else {
        return false;
    };
    let count = count_of(arguments);
    count > 0 && nfs_inodes::has_remains(draft, handle.fileid, arguments.offset, count as usize)
}

/// Asks for the map pages of blocks that WRITE adds, where its checks pass, once it has what is known of its blocks.
///
/// # Errors
///
/// `Need` of those that it lacks, and `Memory`.
pub(crate) fn ask_holes(draft: &Draft<'_>, arguments: &WriteArguments) -> Result<(), Missing>
    requires { Begins (calls.Nfs (NfsCall.Write arguments.now)) draft.now }
    ensures { IfErr result (MayHalt (NfsCall.Write arguments.now) draft.now) }
{
    if let Ok(known) = named(draft, arguments.file.as_slice())? {
        ask_holes_in(draft, &known, arguments)?;
    }
    Ok(())
}

/// The same in the object that its handle names.
fn ask_holes_in(draft: &Draft<'_>, known: &Known, arguments: &WriteArguments) -> Result<(), Missing>
    requires begins { Begins (calls.Nfs (NfsCall.Write arguments.now)) draft.now }
    requires names { Knows draft.now (λ k. Names draft.now.ctx arguments.now.file k known.now) }
    requires number { HasNumber arguments.now.file known.now.number }
    ensures { IfErr result (StopsAt draft.now (named_by (calls.Nfs (NfsCall.Write arguments.now)) draft.now.view)) }
{
    let Ok(file) = writable(draft.ctx(), exports(draft)?, known, arguments) else {
        return Ok(());
    };
    let count = count_of(arguments);
    if count > 0 {
        nfs_inodes::ask_holes(draft, &file, arguments.offset, count as usize)?;
    }
    Ok(())
}

/// What WRITE answers, and the file after it.
fn store(
    draft: &mut Draft<'_>,
    known: &Known,
    arguments: &WriteArguments,
) -> Result<Result<Written, NfsStatus>, Missing>
    requires begins { Begins (calls.Nfs (NfsCall.Write arguments.now)) draft.old }
    requires names { Knows draft.old (λ k. Names draft.old.ctx arguments.now.file k known.now) }
    requires number { HasNumber arguments.now.file known.now.number }
    requires shown { IsShown draft.old known.now }
    ensures { MatchResult result
        (Does draft.old draft.new (IsWriteEnd draft.old.ctx arguments.now))
        (StopsAt draft.old (named_by (calls.Nfs (NfsCall.Write arguments.now)) draft.old.view)) }
{
    let file = match writable(draft.ctx(), exports(draft)?, known, arguments) {
        Ok(file) => file,
        Err(status) => return Ok(Err(status)),
    };
    let answer = answer_to(draft.ctx(), arguments);
    if answer.count > 0 {
        let bytes = &arguments.data.as_slice()[..answer.count as usize];
        write(draft, &file, arguments.offset, bytes)?;
    }
    Ok(Ok(answer))
}

/// The checks of WRITE.
fn writable(
    ctx: &Ctx,
    exports: &[LivingExport],
    known: &Known,
    arguments: &WriteArguments,
) -> Result<KnownFile, NfsStatus>
    ensures known { IfOk result (λ file. file.known ≡ known.now) }
    ensures checks { (content : Content) → type_of content ≡ known.now.attributes.kind →
        write_object exports.now ctx.now (shell known.now content) arguments.now
        ≡ write_found ctx.now arguments.now known.now content result }
    ensures room { IfOk result (λ _. HasRoom arguments.now) }
{
    let file = regular(known)?;
    if arguments.count as usize != arguments.data.len() {
        return Err(NfsStatus::Invalid);
    }
    changeable(exports, known)?;
    permitted(ctx, known, Right::ToWrite)?;
    if !ends_within(arguments) {
        return Err(NfsStatus::FileTooBig);
    }
    Ok(file)
}

/// Whether what is written ends within the largest file.
fn ends_within(arguments: &WriteArguments) -> bool
    ensures { result ≡ ((write_count arguments.now == 0)
        || nat_le (arguments.now.offset + write_count arguments.now) size_limit) }
{
    let count = count_of(arguments);
    let offset = arguments.offset;
    count == 0 || (offset <= SIZE_LIMIT && offset + u64::from(count) <= SIZE_LIMIT)
}

/// How many bytes are written.
fn count_of(arguments: &WriteArguments) -> u32
    ensures { result ≡ write_count arguments.now }
{
    arguments.count.min(TRANSFER_LIMIT)
}

/// What a WRITE answers that passed its checks.
fn answer_to(ctx: &Ctx, arguments: &WriteArguments) -> Written
    ensures { result ≡ answer_to ctx.now arguments.now }
{
    Written {
        count: count_of(arguments),
        committed: arguments.stable,
        verifier: verifier(ctx),
    }
}
