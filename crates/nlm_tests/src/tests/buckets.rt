//! Buckets of files.

use super::*;

/// A file of which a caller has the whole exclusively; no lock where the caller is None.
fn file_of(alloc: Global, number: u64, who: Option<Who>) -> Result<LockedFile, AllocError> {
    let none = OneFile::new(alloc)?;
    let Some(who) = who else {
        return LockedFile::new(alloc, number, 1, none);
    };
    let asked = lock(who, 0, 0);
    let file = locked_whole(alloc, &none, &asked);
    drop(asked);
    drop(none);
    LockedFile::new(alloc, number, 1, file?)
}

fn locked_whole(alloc: Global, file: &OneFile, lock: &NlmLock) -> Result<OneFile, AllocError> {
    let Some(range) = LockRange::of(lock) else {
        return Err(AllocError);
    };
    if file.test(&range, true).is_some() {
        return Err(AllocError);
    }
    let Settled { file, granted } = file.set(alloc, &range, true)?;
    drop(granted);
    Ok(file)
}

fn conflicts_in(bucket: &LockBucket, number: u64, lock: &NlmLock) -> bool {
    let Some(range) = LockRange::of(lock) else {
        return false;
    };
    match bucket.find(number) {
        Some(locked) => locked.file().test(&range, false).is_some(),
        None => false,
    }
}

/// Whether a caller is shown a lock of a file in a bucket.
fn is_locked(bucket: &LockBucket, number: u64, who: Who) -> bool {
    let asked = lock(who, 7, 1);
    let is_locked = conflicts_in(bucket, number, &asked);
    drop(asked);
    is_locked
}

/// The bucket after a file has this.
fn with(
    alloc: Global,
    bucket: &LockBucket,
    number: u64,
    who: Option<Who>,
) -> Result<LockBucket, AllocError> {
    bucket.with_file(alloc, file_of(alloc, number, who)?)
}

/// Whether a bucket has so many files.
fn has_count(bucket: &LockBucket, count: usize) -> bool {
    let mut files = bucket.files();
    for _ in 0..count {
        if files.next().is_none() {
            return false;
        }
    }
    files.next().is_none()
}

fn files_come_and_go(alloc: Global) -> Result<bool, AllocError> {
    let mut bucket = LockBucket::new(alloc);
    let mut all = bucket.is_empty();
    for (number, who) in [
        (5, Some(Who::A)),
        (69, Some(Who::B)),
        (5, Some(Who::C)),
        (133, None),
    ] {
        let next = with(alloc, &bucket, number, who)?;
        bucket = next;
    }
    all = all
        && has_count(&bucket, 2)
        && is_locked(&bucket, 5, Who::A)
        && !is_locked(&bucket, 5, Who::C)
        && !is_locked(&bucket, 69, Who::B)
        && bucket.find(133).is_none();
    for number in [5, 6, 69] {
        let next = bucket.without_file(alloc, number)?;
        bucket = next;
    }
    all = all && bucket.is_empty();
    drop(bucket);
    Ok(all)
}

#[test]
fn each_file_stands_once(rt: HostRuntime) -> Result<(), AllocError> {
    assert!(rt; files_come_and_go(rt.alloc())?);
    Ok(())
}

/// Whether a bucket has these files of caller A, and no others.
fn has_files(bucket: &LockBucket, numbers: &[u64]) -> bool {
    has_count(bucket, numbers.len())
        && numbers
            .iter()
            .all(|number| is_locked(bucket, *number, Who::B))
}

/// Files of three parts come; the only one of a part and one of two go, and one comes back.
fn parts_come_and_go(alloc: Global) -> Result<bool, AllocError> {
    let mut bucket = LockBucket::new(alloc);
    for number in [5, 69, 4_101, 133, 4_165] {
        let next = with(alloc, &bucket, number, Some(Who::A))?;
        bucket = next;
    }
    let mut all = has_files(&bucket, &[5, 69, 133, 4_101, 4_165]);
    for number in [5, 133, 4_229] {
        let next = bucket.without_file(alloc, number)?;
        bucket = next;
    }
    all = all
        && has_files(&bucket, &[69, 4_101, 4_165])
        && bucket.find(5).is_none()
        && bucket.find(133).is_none();
    let next = with(alloc, &bucket, 5, Some(Who::A))?;
    bucket = next;
    all = all && has_files(&bucket, &[5, 69, 4_101, 4_165]);
    drop(bucket);
    Ok(all)
}

#[test]
fn files_of_other_parts_stay(rt: HostRuntime) -> Result<(), AllocError> {
    assert!(rt; parts_come_and_go(rt.alloc())?);
    Ok(())
}

fn numbers_are_given_once(alloc: Global) -> Result<bool, AllocError> {
    let none = LockBucket::new(alloc);
    let first = none.next_number(5);
    let one = none.with_number(alloc);
    drop(none);
    let one = one?;
    let second = one.next_number(5);
    let is_empty = one.is_empty();
    drop(one);
    Ok(first == Some(5) && second == Some(69) && !is_empty)
}

#[test]
fn a_bucket_gives_its_own_numbers(rt: HostRuntime) -> Result<(), AllocError> {
    assert!(rt; numbers_are_given_once(rt.alloc())?);
    assert!(rt; bucket_index(69) == 5);
    assert!(rt; bucket_index(4_101) == 5);
    Ok(())
}
