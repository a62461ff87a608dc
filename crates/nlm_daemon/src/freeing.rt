//! FREE_ALL: a caller has nothing more of any file (RFC 1813, appendix II, 6.2: procedure 23).

ghost use Rattle.std.specs.Prelude.{◌≡◌, ◌<◌, ℕ, ◌∷◌, [], IfErr, IfOk, IsSome, MatchResult, OnOk};
ghost use Rattle.nfs_machine.specs.LockSteps.{Frees};
ghost use Rattle.nfs_machine.specs.WellFormed.{WellFormed};
ghost use Rattle.nfs_machine.specs.declared.calls.Call.TheVariants as calls;
ghost use Rattle.nfs_objects.specs.Attempt.{EndsCall, EndsFirst, HaltsFirst, unless_seen};
ghost use Rattle.nfs_objects.specs.Begins.{Begins};
ghost use Rattle.nfs_objects.specs.Calls.{buckets_below};
ghost use Rattle.nfs_objects.specs.Knows.{Knows, TurnsWhere};
ghost use Rattle.nlm_ranges.specs.Buckets.{bucket_count};
ghost use Rattle.nfs_objects.specs.Values.{known_at};
ghost use Rattle.nfs_inodes.specs.Locks.{MayAllHave, all_set};
ghost use Rattle.nfs_inodes.specs.Stops.{StopsAt};
ghost use Rattle.nlm_daemon.specs.Comes.{ComesTo};
ghost use Rattle.nlm_daemon.specs.Freeing.{AddsBucket, AddsFreed, AddsOne, AreFreed, IsFreedOne, SettlesAll, of_bucket};

use crate::granting::send_grants;
use nfs_inodes::{Asking, exports, lives, set_bucket};
use nfs_machine::Reply;
use nfs_objects::{Addr, Change, Draft, LivingExport, Missing, Mode};
use nlm_ranges::{LOCK_BUCKETS, LockedFile, LockedFiles, bucket_index};
use side_wire::{FreeAllArguments, NlmCall, NlmReply};
use std::alloc::{AllocError, Global};

/// Tries FREE_ALL.
///
/// # Errors
///
/// `Need` of the exports, of all buckets at once, and `Memory`.
pub(crate) fn attempt(mut draft: Draft<'_>, arguments: &FreeAllArguments) -> Result<Change, Missing>
    requires { Begins (calls.Nlm (NlmCall.FreeAll arguments.now)) draft }
    ensures ends { EndsCall (calls.Nlm (NlmCall.FreeAll arguments.now)) draft.entry.ctx draft.entry.view result }
    ensures first { EndsFirst (calls.Nlm (NlmCall.FreeAll arguments.now)) draft.entry.view result }
{
    free_all(&mut draft, arguments.name.as_slice())?;
    Ok(draft.answer(Reply::Nlm(NlmReply::FreeAll)))
}

/// Frees all that a caller has, of all files; then what waits for these is tried, file by file in order of their
/// numbers.
///
/// # Errors
///
/// `Need` of the exports, of all buckets at once, and `Memory`. The draft is of no use then.
fn free_all(draft: &mut Draft<'_>, caller_name: &[u8]) -> Result<(), Missing>
    requires none { draft.old.writes ≡ [] }
    requires alone { draft.old.modes.locks ≡ Mode.Exclusive }
    ensures frees { MatchResult result
        (ComesTo draft.old draft.new (λ m _. Frees m caller_name.now))
        (StopsAt draft.old (Addr.Exports ∷ buckets_below bucket_count)) }
    ensures first { HaltsFirst draft.old.modes draft.old.view (unless_seen draft.old.view Addr.Exports) result }
{
    exports(draft)?;
    ask_buckets(draft)?;
    let freed = all_freed(draft, caller_name)?;
    let files = settle_all(draft, &freed)?;
    for index in 0..LOCK_BUCKETS {
        put_bucket(draft, index, &files)?;
    }
    Ok(())
}

/// The files where what waits was tried, one after the other, with a message for each request that is granted.
fn settle_all(draft: &mut Draft<'_>, freed: &[LockedFile]) -> Result<Vec<LockedFile>, AllocError>
    ensures { IfOk result (λ files. SettlesAll draft.old draft.new freed.now files.items) }
{
    let alloc = draft.alloc();
    let mut files = Vec::with_capacity(alloc, freed.len())?;
    for file in freed {
        let settled = file.file().settle(alloc)?;
        send_grants(draft, &settled.granted)?;
        let tried = LockedFile::new(alloc, file.number(), file.export(), settled.file)?;
        files.push(tried)?;
    }
    Ok(files)
}

/// Puts those of these files that are in the bucket with this index.
fn put_bucket(draft: &mut Draft<'_>, index: u8, files: &[LockedFile]) -> Result<(), Missing>
    requires { draft.old.modes.locks ≡ Mode.Exclusive }
    ensures { MatchResult result
        (λ _. TurnsWhere (λ k. MayAllHave k.state (of_bucket index files.now)) draft.old draft.new
        (all_set (of_bucket index files.now)))
        (StopsAt draft.old (Addr.Locks index ∷ [])) }
{
    let own = of_bucket(draft.alloc(), index, files)?;
    set_bucket(draft, index, &own)?;
    Ok(())
}

/// Those of these files that are in the bucket with this index.
fn of_bucket(alloc: Global, index: u8, files: &[LockedFile]) -> Result<Vec<LockedFile>, AllocError>
    ensures { IfOk result (λ own. own.items ≡ of_bucket index files.now) }
{
    let mut own = Vec::new(alloc);
    for file in files {
        if bucket_index(file.number()) == index {
            own.push(file.clone()?)?;
        }
    }
    Ok(own)
}

/// Asks for all buckets that the draft lacks, at once.
pub(crate) fn ask_buckets(draft: &Draft<'_>) -> Result<(), Missing>
    ensures { MatchResult result
        (λ _. (index : ℕ) → index < bucket_count → IsSome (known_at draft.now (Addr.Locks index)))
        (StopsAt draft.now (buckets_below bucket_count)) }
{
    let mut asking = Asking::new(draft.alloc());
    for index in 0..LOCK_BUCKETS {
        asking.add(draft, Addr::Locks(index))?;
    }
    asking.ask()
}

/// The files of which a caller has anything, without that, by their numbers.
fn all_freed(draft: &Draft<'_>, caller_name: &[u8]) -> Result<Vec<LockedFile>, Missing>
    ensures freed { IfOk result (λ freed. Knows draft.now (λ k. WellFormed k.state →
        AreFreed k.state caller_name.now freed.items)) }
    ensures stops { IfErr result (StopsAt draft.now (Addr.Exports ∷ buckets_below bucket_count)) }
{
    let exports = exports(draft)?;
    let mut freed = Vec::new(draft.alloc());
    for index in 0..LOCK_BUCKETS {
        add_bucket(draft, exports, index, caller_name, &mut freed)?;
    }
    freed.sort_unstable_by_key(|file| file.number());
    Ok(freed)
}

/// Adds the files of a bucket of which a caller has anything, without that.
fn add_bucket(
    draft: &Draft<'_>,
    exports: &[LivingExport],
    index: u8,
    caller_name: &[u8],
    freed: &mut Vec<LockedFile>,
) -> Result<(), Missing>
    requires { index < bucket_count }
    ensures { MatchResult result
        (λ _. AddsBucket draft.now exports.now caller_name.now index freed.old.items freed.new.items)
        (StopsAt draft.now (Addr.Exports ∷ buckets_below bucket_count)) }
{
    let Some(bucket) = draft.locks(index)? else {
        return Ok(());
    };
    add_freed(draft.alloc(), exports, bucket.files(), caller_name, freed)?;
    Ok(())
}

/// Adds those of these files of which a caller has anything, without that. Files whose export does not live are passed
/// over.
fn add_freed(
    alloc: Global,
    exports: &[LivingExport],
    mut files: LockedFiles<'_>,
    caller_name: &[u8],
    freed: &mut Vec<LockedFile>,
) -> Result<(), AllocError>
    ensures { OnOk result (AddsFreed exports.now caller_name.now files.entry freed.old.items freed.new.items) }
{
    while let Some(file) = files.next() {
        add_file(alloc, exports, file, caller_name, freed)?;
    }
    Ok(())
}

/// Adds one of them.
fn add_file(
    alloc: Global,
    exports: &[LivingExport],
    file: &LockedFile,
    caller_name: &[u8],
    freed: &mut Vec<LockedFile>,
) -> Result<(), AllocError>
    ensures { OnOk result (AddsOne exports.now caller_name.now file.now freed.old.items freed.new.items) }
{
    let Some(left) = freed_of(alloc, exports, file, caller_name)? else {
        return Ok(());
    };
    freed.push(left)?;
    Ok(())
}

/// A file without what a caller has of it; None where it lives not, or the caller has nothing of it.
fn freed_of(
    alloc: Global,
    exports: &[LivingExport],
    file: &LockedFile,
    caller_name: &[u8],
) -> Result<Option<LockedFile>, AllocError>
    ensures { IfOk result (IsFreedOne exports.now caller_name.now file.now) }
{
    if !lives(exports, file.export()) {
        return Ok(None);
    }
    let locks = file.file().free(alloc, caller_name)?;
    if locks == *file.file() {
        return Ok(None);
    }
    let left = LockedFile::new(alloc, file.number(), file.export(), locks)?;
    Ok(Some(left))
}
