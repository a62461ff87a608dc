//! The checks that procedures share: what their handles name, and whether the range fits (RFC 1813, appendix II, 6.1.4
//! and 6.3).

ghost use Rattle.std.specs.Prelude.{◌≡◌, ◌∷◌, [], IfOk, MatchResult, true};
ghost use Rattle.nfs_machine.specs.Attributes.{type_of};
ghost use Rattle.nfs_machine.specs.LockSteps.{file_checked, lock_checked};
ghost use Rattle.nfs_machine.specs.Locks.{fits_offsets, range_of};
ghost use Rattle.nfs_machine.specs.State.{Content};
ghost use Rattle.nfs_objects.specs.Attempt.{HaltsFirst, first_wanted_with};
ghost use Rattle.nfs_objects.specs.Knows.{Knows};
ghost use Rattle.nfs_inodes.specs.Known.{HasNumber, shell};
ghost use Rattle.nfs_inodes.specs.Stops.{StopsAt, brought_by};
ghost use Rattle.nlm_daemon.specs.Checks.{IsLiving, IsPlaceOf, file_found, judged, may_write, place_found};

use bytes::Bytes;
use nfs_inodes::{Known, KnownFile, exports, is_writable, named, regular};
use nfs_objects::{Draft, LivingExport, Missing};
use nfs_wire::FileType;
use nlm_ranges::LockRange;
use side_wire::{NlmLock, NlmStatus, TestStatus};

/// Why a call is refused before any conflict is looked for.
#[derive(Clone, Copy, Debug, PartialEq, Eq)]
pub(crate) enum LockFault {
    /// The handle names nothing.
    StaleHandle,
    /// It names what is no regular file.
    NotRegular,
    /// An offset of the range needs more than 64 bits.
    RangeTooBig,
    /// The export is read only, and the call asks to write.
    ReadOnly,
}

impl LockFault {
    ghost use Rattle.nfs_machine.specs.LockSteps.{nlm_status_of, test_status_of};
    ghost use Rattle.nlm_daemon.specs.Checks.{fault_value};

    /// As TEST answers it.
    pub(crate) fn test_status(self) -> TestStatus
        ensures { result ≡ test_status_of (fault_value self) }
    {
        match self {
            LockFault::StaleHandle => TestStatus::StaleHandle,
            LockFault::NotRegular => TestStatus::Failed,
            LockFault::RangeTooBig => TestStatus::FileTooBig,
            LockFault::ReadOnly => TestStatus::ReadOnly,
        }
    }

    /// As all other procedures do.
    pub(crate) fn status(self) -> NlmStatus
        ensures { result ≡ nlm_status_of (fault_value self) }
    {
        match self {
            LockFault::StaleHandle => NlmStatus::StaleHandle,
            LockFault::NotRegular => NlmStatus::Failed,
            LockFault::RangeTooBig => NlmStatus::FileTooBig,
            LockFault::ReadOnly => NlmStatus::ReadOnly,
        }
    }
}

/// A range of a file.
#[derive(Drop)]
pub(crate) struct FileRange<'a> {
    pub file: KnownFile,
    pub range: LockRange<'a>,
}

/// The range of the file that a call's lock names, or why the call is refused; the export may not be read only where
/// the call asks to write.
///
/// # Errors
///
/// `Need` of the exports, or of what the handle names; and `Memory`.
pub(crate) fn file_range<'a>(
    draft: &Draft<'_>,
    lock: &'a NlmLock,
    writes: bool,
) -> Result<Result<FileRange<'a>, LockFault>, Missing>
    requires { draft.now.writes ≡ [] }
    ensures checked { MatchResult result
        (λ found. Knows draft.now (λ k.
        lock_checked k.state draft.now.ctx writes lock.now ≡ place_found found))
        (StopsAt draft.now (brought_by draft.now.view lock.now.file)) }
    ensures place { IfOk result (λ found. IfOk found (IsPlaceOf draft.now lock.now)) }
    ensures first { HaltsFirst draft.now.modes draft.now.view
        (first_wanted_with draft.now.view (lock.now.file ∷ [])) result }
{
    let known = match named(draft, lock.file.as_slice())? {
        Ok(known) => known,
        Err(_) => return Ok(Err(LockFault::StaleHandle)),
    };
    Ok(judged_range(exports(draft)?, &known, lock, writes))
}

/// The checks of an object that a call's lock names.
fn judged_range<'a>(
    exports: &[LivingExport],
    known: &Known,
    lock: &'a NlmLock,
    writes: bool,
) -> Result<FileRange<'a>, LockFault>
    ensures place { IfOk result (λ place. (place.file.known ≡ known.now) × (place.range ≡ range_of lock.now)) }
    ensures fits { IfOk result (λ place. fits_offsets lock.now ≡ true) }
    ensures regular { IfOk result (λ place. known.now.attributes.kind ≡ FileType.Regular) }
    ensures checks { (content : Content) → type_of content ≡ known.now.attributes.kind →
        judged exports.now (shell known.now content) known.now.number (fits_offsets lock.now) writes
        ≡ place_found result }
{
    let Ok(file) = regular(known) else {
        return Err(LockFault::NotRegular);
    };
    let Some(range) = LockRange::of(lock) else {
        return Err(LockFault::RangeTooBig);
    };
    if !may_write(exports, known, writes) {
        return Err(LockFault::ReadOnly);
    }
    Ok(FileRange { file, range })
}

/// The file that a handle names, or why the call is refused; its export may not be read only where the call asks to
/// write.
///
/// # Errors
///
/// `Need` of the exports, or of what the handle names; and `Memory`.
pub(crate) fn file_of(
    draft: &Draft<'_>,
    handle: &Bytes,
    writes: bool,
) -> Result<Result<KnownFile, LockFault>, Missing>
    requires { draft.now.writes ≡ [] }
    ensures checked { MatchResult result
        (λ found. Knows draft.now (λ k.
        file_checked k.state draft.now.ctx handle.now true writes ≡ file_found found))
        (StopsAt draft.now (brought_by draft.now.view handle.now)) }
    ensures lives { IfOk result (λ found. IfOk found (IsLiving draft.now)) }
    ensures number { IfOk result (λ found. IfOk found (λ file. HasNumber handle.now file.known.number)) }
    ensures first { HaltsFirst draft.now.modes draft.now.view
        (first_wanted_with draft.now.view (handle.now ∷ [])) result }
{
    let known = match named(draft, handle.as_slice())? {
        Ok(known) => known,
        Err(_) => return Ok(Err(LockFault::StaleHandle)),
    };
    Ok(judged_file(exports(draft)?, &known, writes))
}

/// The checks of an object that a call's share names.
fn judged_file(
    exports: &[LivingExport],
    known: &Known,
    writes: bool,
) -> Result<KnownFile, LockFault>
    ensures file { IfOk result (λ file. file.known ≡ known.now) }
    ensures regular { IfOk result (λ file. known.now.attributes.kind ≡ FileType.Regular) }
    ensures checks { (content : Content) → type_of content ≡ known.now.attributes.kind →
        judged exports.now (shell known.now content) known.now.number true writes ≡ file_found result }
{
    let Ok(file) = regular(known) else {
        return Err(LockFault::NotRegular);
    };
    if !may_write(exports, known, writes) {
        return Err(LockFault::ReadOnly);
    }
    Ok(file)
}

/// Whether the object's export lets the call go on: it is not read only, or the call does not ask to write.
fn may_write(exports: &[LivingExport], known: &Known, writes: bool) -> bool
    ensures { result ≡ may_write exports.now known.now writes }
{
    !writes || is_writable(exports, known)
}
