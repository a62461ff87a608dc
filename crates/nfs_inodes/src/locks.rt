//! What files have of locks, shares, requests and grants: read, put, and gone with a file's last name (RFC 1813,
//! appendix II).

ghost use Rattle.std.specs.Prelude.{◌≡◌, ◌∷◌, ◌++◌, [], IfOk, MatchOption, MatchResult, None, OnErr, OnOk};
ghost use Rattle.std.specs.Prelude.{is_some};
ghost use Rattle.std.specs.Prelude.{option_copied};
ghost use Rattle.nfs_machine.specs.Exports.{export_at};
ghost use Rattle.nfs_objects.specs.Calls.{IsAmong, addresses_of, locks_at};
ghost use Rattle.nfs_objects.specs.Knows.{Knows, Turns, TurnsWhere};
ghost use Rattle.nfs_objects.specs.Stands.{map_in};
ghost use Rattle.nfs_objects.specs.declared.address.Addr.TheVariants as addresses;
ghost use Rattle.nfs_inodes.specs.Asking.{AsksFor};
ghost use Rattle.nfs_inodes.specs.Counts.{KeepsInodes};
ghost use Rattle.nfs_inodes.specs.Locks.{AreInserted, AreOf, HasLocks, HasNone, IsBucketWith, IsNextNumber, MayAllHave};
ghost use Rattle.nfs_inodes.specs.Locks.{MayHave, NoNumberIsLeft, ShowsNext, all_set, file_known, locks_freed};
ghost use Rattle.nfs_inodes.specs.Locks.{locks_set, number_spent};
ghost use Rattle.nfs_inodes.specs.Stops.{StopsAt};

use crate::content::asking::Asking;
use crate::found::{export_at, exports};
use nfs_objects::object::living;
use nfs_objects::{Addr, Content, Draft, Inode, LivingExport, Missing, Mode};
use nlm_ranges::{LockBucket, LockedFile, OneFile, bucket_index};
use std::alloc::{AllocError, Global};

/// Whether the export with this number lives.
pub fn lives(exports: &[LivingExport], number: u32) -> bool
    ensures { result ≡ is_some (export_at exports.now number) }
{
    export_at(exports, number).is_some()
}

/// What the file at a number has; None where it has nothing. What belongs to no export that lives stands for nothing.
///
/// # Errors
///
/// `Need` of the exports or of what holds it, and `Memory`.
pub fn locks_of<'d>(draft: &'d Draft<'_>, number: u64) -> Result<Option<&'d OneFile>, Missing>
    ensures { MatchResult result
        (λ file. Knows draft.now (λ k. HasLocks k.state number (file_known file)))
        (StopsAt draft.now (addresses.Exports ∷ locks_at number)) }
{
    let exports = exports(draft)?;
    let Some(bucket) = draft.locks(bucket_index(number))? else {
        return Ok(None);
    };
    let Some(file) = bucket.find(number) else {
        return Ok(None);
    };
    if lives(exports, file.export()) {
        Ok(Some(file.file()))
    } else {
        Ok(None)
    }
}

/// Puts what a file has in the place of what it had.
///
/// # Errors
///
/// `Need` of what has to be held for it, and `Memory`. The draft is of no use then.
pub fn set_locks(draft: &mut Draft<'_>, file: LockedFile) -> Result<(), Missing>
    requires { draft.old.modes.locks ≡ Mode.Exclusive }
    ensures { MatchResult result
        (λ _. TurnsWhere (λ k. MayHave k.state file) draft.old draft.new (locks_set file.number file.file))
        (StopsAt draft.old (locks_at file.number)) }
{
    let index = bucket_index(file.number());
    let bucket = bucket_with(draft, index, file)?;
    Ok(draft.put_locks(index, bucket)?)
}

/// Puts what a file has in the place of what it had, and gives the number of its next grant, which is never given
/// again.
///
/// # Errors
///
/// `Need` of what has to be held for it, and `Memory`. The draft is of no use then.
pub fn set_locks_spending(
    draft: &mut Draft<'_>,
    file: LockedFile,
    number: u64,
) -> Result<(), Missing>
    requires alone { draft.old.modes.locks ≡ Mode.Exclusive }
    requires next { ShowsNext draft.old file.number number }
    ensures { MatchResult result
        (λ _. TurnsWhere (λ k. MayHave k.state file) draft.old draft.new
        (λ k. locks_set file.number file.file (number_spent number k)))
        (StopsAt draft.old (locks_at file.number)) }
{
    let index = bucket_index(file.number());
    let bucket = bucket_with(draft, index, file)?;
    let bucket = bucket.with_number(draft.alloc())?;
    Ok(draft.put_locks(index, bucket)?)
}

/// Puts what each of these files has in the place of what it had, all at once. They are those of the bucket with this
/// index.
///
/// # Errors
///
/// `Need` of what has to be held for it, and `Memory`. The draft is of no use then.
pub fn set_bucket(draft: &mut Draft<'_>, index: u8, files: &[LockedFile]) -> Result<(), Missing>
    requires alone { draft.old.modes.locks ≡ Mode.Exclusive }
    requires own { AreOf index files.now }
    ensures { MatchResult result
        (λ _. TurnsWhere (λ k. MayAllHave k.state files.now) draft.old draft.new (all_set files.now))
        (StopsAt draft.old (addresses.Locks index ∷ [])) }
{
    let Some((first, others)) = files.split_first() else {
        return Ok(());
    };
    let bucket = bucket_with(draft, index, first.clone()?)?;
    let bucket = with_files(draft.alloc(), bucket, others)?;
    Ok(draft.put_locks(index, bucket)?)
}

/// The bucket with this index where a file has this.
///
/// # Errors
///
/// `Need` of the bucket, and `Memory`.
fn bucket_with(draft: &Draft<'_>, index: u8, file: LockedFile) -> Result<LockBucket, Missing>
    ensures { MatchResult result
        (IsBucketWith draft.now index file)
        (StopsAt draft.now (addresses.Locks index ∷ [])) }
{
    let alloc = draft.alloc();
    let bucket = match draft.locks(index)? {
        Some(old) => old.with_file(alloc, file)?,
        None => LockBucket::new(alloc).with_file(alloc, file)?,
    };
    // The files bring what is true of every bucket.
    let _files = bucket.files();
    Ok(bucket)
}

/// The bucket where each of these files has this.
///
/// # Errors
///
/// `AllocError` where the memory was refused.
fn with_files(
    alloc: Global,
    mut bucket: LockBucket,
    files: &[LockedFile],
) -> Result<LockBucket, AllocError>
    ensures { IfOk result (AreInserted bucket files.now) }
{
    for file in files {
        bucket = bucket.with_file(alloc, file.clone()?)?;
        // The files bring what is true of every bucket.
        let _files = bucket.files();
    }
    Ok(bucket)
}

/// The number of the next grant on a file; None where all were given.
///
/// # Errors
///
/// `Need` of what holds it, and `Memory`.
pub fn next_number(draft: &Draft<'_>, file: u64) -> Result<Option<u64>, Missing>
    ensures { MatchResult result
        (λ number. MatchOption number (Knows draft.now (λ k. NoNumberIsLeft k.state file))
        (λ number. ShowsNext draft.now file number × Knows draft.now (λ k. IsNextNumber k.state file number)))
        (StopsAt draft.now (locks_at file)) }
{
    let index = bucket_index(file);
    match draft.locks(index)? {
        Some(bucket) => Ok(bucket.next_number(index)),
        None => Ok(LockBucket::new(draft.alloc()).next_number(index)),
    }
}

/// Asks besides for what holds the locks of the file at a number.
///
/// # Errors
///
/// `AllocError` where the memory was refused. It changes nothing.
pub(crate) fn ask_locks(
    draft: &Draft<'_>,
    number: u64,
    asking: &mut Asking,
) -> Result<(), AllocError>
    ensures ok { OnOk result (AsksFor draft.now (IsAmong (locks_at number)) (IsAmong (locks_at number))
        asking.old.asked.items asking.new.asked.items) }
    ensures err { OnErr result (asking.new.asked.items ≡ asking.old.asked.items) }
{
    asking.add(draft, Addr::Locks(bucket_index(number)))
}

/// Takes away what the file at a number has, which is to go; what is no file has nothing.
///
/// # Errors
///
/// `Need` of what has to be held for it, and `Memory`. The draft is of no use then.
pub(crate) fn forget_locks(draft: &mut Draft<'_>, number: u64) -> Result<(), Missing>
    requires { draft.old.modes.locks ≡ Mode.Exclusive }
    ensures turns { MatchResult result
        (λ _. Turns draft.old draft.new (locks_freed number))
        (StopsAt draft.old (addresses_of draft.old.view number ++ locks_at number)) }
    ensures none { OnOk result (HasNone draft.new number) }
    ensures keeps { OnOk result (KeepsInodes draft.old draft.new) }
{
    if is_file(living(draft.find(Addr::Inode(number))?)) {
        forget(draft, number)
    } else {
        Ok(())
    }
}

/// Whether an inode is that of a file, if there is one.
fn is_file(inode: Option<&Inode>) -> bool
    ensures { result ≡ is_some (elim (option_copied inode.entry) [ None ↦ None | Some i ↦ map_in i.content ]) }
{
    let Some(inode) = inode else {
        return false;
    };
    match inode.content {
        Content::Regular(_) => true,
        _ => false,
    }
}

/// The same of a file.
fn forget(draft: &mut Draft<'_>, number: u64) -> Result<(), Missing>
    requires { draft.old.modes.locks ≡ Mode.Exclusive }
    ensures turns { MatchResult result
        (λ _. Turns draft.old draft.new (locks_freed number))
        (StopsAt draft.old (locks_at number)) }
    ensures none { OnOk result (HasNone draft.new number) }
    ensures keeps { OnOk result (KeepsInodes draft.old draft.new) }
{
    let index = bucket_index(number);
    let alloc = draft.alloc();
    let Some(old) = draft.locks(index)? else {
        return Ok(());
    };
    let Some(_file) = old.find(number) else {
        return Ok(());
    };
    let rest = old.without_file(alloc, number)?;
    Ok(draft.put_locks(index, rest)?)
}
