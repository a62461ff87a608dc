//! Worked values of the definitions, proved by computing them.

ghost use Rattle.machine_examples.specs.Worked.{WorkedExports, WorkedHandles, WorkedPaths, WorkedRights, WorkedWalks};
ghost use Rattle.machine_examples.specs.WorkedChanging.{WorkedChanging, WorkedLockChanging, WorkedMountChanging};
ghost use Rattle.machine_examples.specs.WorkedEnding.{WorkedEnding};
ghost use Rattle.machine_examples.specs.WorkedExports.{WorkedExporting};
ghost use Rattle.machine_examples.specs.WorkedFiles.{WorkedContent, WorkedNames, WorkedTimes};
ghost use Rattle.machine_examples.specs.WorkedCreate.{WorkedAttributes, WorkedExisting, WorkedNewFile};
ghost use Rattle.machine_examples.specs.WorkedLocking.{WorkedChecks, WorkedLocking};
ghost use Rattle.machine_examples.specs.WorkedLocks.{WorkedGrants, WorkedMounts, WorkedNewest, WorkedRanges};
ghost use Rattle.machine_examples.specs.WorkedLocks.{WorkedShares, WorkedTests};
ghost use Rattle.machine_examples.specs.WorkedPages.{WorkedFullPages, WorkedPages, WorkedSizes};
ghost use Rattle.machine_examples.specs.WorkedPosting.{WorkedPosting};
ghost use Rattle.machine_examples.specs.WorkedReplacing.{WorkedNumberings, WorkedReplacings};
ghost use Rattle.machine_examples.specs.WorkedReplies.{WorkedFileReplies, WorkedRootReplies};
ghost use Rattle.machine_examples.specs.WorkedRun.{WorkedLeaving, WorkedLinkings, WorkedRenamings, WorkedRun};
ghost use Rattle.machine_examples.specs.WorkedRun.{WorkedSteps, WorkedTurns};
ghost use Rattle.machine_examples.specs.WorkedSetting.{WorkedAccess, WorkedGuard, WorkedKinds, WorkedLimits};
ghost use Rattle.machine_examples.specs.WorkedSetting.{WorkedSetting, WorkedSpace};
ghost use Rattle.machine_examples.specs.WorkedSettling.{WorkedFreed, WorkedSettling};
ghost use Rattle.machine_examples.specs.WorkedWaiting.{WorkedWaiting};
ghost use Rattle.machine_examples.specs.WorkedWrites.{WorkedWrites};
ghost use Rattle.machine_examples.specs.WorkedMaking.{WorkedMaking, WorkedTaking};
ghost use Rattle.machine_examples.specs.WorkedNames.{WorkedLinks, WorkedMakes, WorkedRemovals, WorkedRenames};
ghost use Rattle.machine_examples.specs.WorkedNames.{WorkedSpecialNames};

/// Which paths are at fault, and which parts a path has.
pub fn worked_paths()
    ensures { WorkedPaths }
{}

/// What owner, group and others may do.
pub fn worked_rights()
    ensures { WorkedRights }
{}

/// The bytes of a handle, and what handles name.
pub fn worked_handles()
    ensures { WorkedHandles }
{}

/// Where paths lead, below one export and between two.
pub fn worked_walks()
    ensures { WorkedWalks }
{}

/// Which exports a server may be started with, and whom they admit.
pub fn worked_exports()
    ensures { WorkedExports }
{}

/// Exports whose numbers are not their places, and whose roots have other numbers than they.
pub fn worked_exporting()
    ensures { WorkedExporting }
{}

/// Exports that are replaced: what stays, what is new, what goes and comes back, and numbers that are used up.
pub fn worked_replacing()
    ensures numbers { WorkedNumberings }
    ensures steps { WorkedReplacings }
{}

/// Which calls change something.
pub fn worked_changing()
    ensures nfs { WorkedChanging }
    ensures mount { WorkedMountChanging }
    ensures locks { WorkedLockChanging }
{}

/// The times of changes.
pub fn worked_times()
    ensures { WorkedTimes }
{}

/// Which names a directory can hold.
pub fn worked_names()
    ensures { WorkedNames }
{}

/// What is read of a file, and what writing makes of it.
pub fn worked_content()
    ensures { WorkedContent }
{}

/// What WRITE makes of a file, and what it refuses.
pub fn worked_writes()
    ensures { WorkedWrites }
{}

/// What a new object may be given.
pub fn worked_attributes()
    ensures { WorkedAttributes }
{}

/// A new file, and its directory with the new name.
pub fn worked_new_file()
    ensures { WorkedNewFile }
{}

/// What CREATE makes of an object that has the name already.
pub fn worked_existing()
    ensures { WorkedExisting }
{}

/// What the guard of SETATTR refuses, and what SETATTR makes of an object.
pub fn worked_guard()
    ensures { WorkedGuard }
{}

/// Who may set what.
pub fn worked_setting()
    ensures { WorkedSetting }
{}

/// Which rights ACCESS grants.
pub fn worked_access()
    ensures { WorkedAccess }
{}

/// Which kinds of object have a text or bytes.
pub fn worked_kinds()
    ensures { WorkedKinds }
{}

/// The room that FSSTAT tells.
pub fn worked_space()
    ensures { WorkedSpace }
{}

/// What FSINFO and PATHCONF tell.
pub fn worked_limits()
    ensures { WorkedLimits }
{}

/// Pages of READDIR, and where there is none.
pub fn worked_pages()
    ensures { WorkedPages }
{}

/// Pages of READDIRPLUS.
pub fn worked_full_pages()
    ensures { WorkedFullPages }
{}

/// What entries take of a page.
pub fn worked_sizes()
    ensures { WorkedSizes }
{}

/// Whole replies about a file.
pub fn worked_file_replies()
    ensures { WorkedFileReplies }
{}

/// Whole replies about the root of a fresh export, and which cookies go on.
pub fn worked_root_replies()
    ensures { WorkedRootReplies }
{}

/// How ".", ".." and names that are too long are judged where a name is made, taken away or moved.
pub fn worked_special_names()
    ensures { WorkedSpecialNames }
{}

/// What MKDIR, SYMLINK and MKNOD make, and what they refuse.
pub fn worked_makes()
    ensures { WorkedMakes }
{}

/// What REMOVE and RMDIR take away, and what becomes of an object that loses a name.
pub fn worked_removals()
    ensures { WorkedRemovals }
{}

/// What MKDIR, SYMLINK, MKNOD and CREATE make in a root, and why they don't.
pub fn worked_making()
    ensures { WorkedMaking }
{}

/// What REMOVE and RMDIR don't take away.
pub fn worked_taking()
    ensures { WorkedTaking }
{}

/// How many links an object may have, and which names are free.
pub fn worked_links()
    ensures { WorkedLinks }
{}

/// What RENAME comes to.
pub fn worked_renames()
    ensures { WorkedRenames }
{}

/// Ranges of locks, and the modes that calls leave on them.
pub fn worked_ranges()
    ensures { WorkedRanges }
{}

/// What TEST answers beside the locks of another owner.
pub fn worked_tests()
    ensures { WorkedTests }
{}

/// Which shares can be had together.
pub fn worked_shares()
    ensures { WorkedShares }
{}

/// Numbers of grants, and their cookies.
pub fn worked_grants()
    ensures { WorkedGrants }
{}

/// What DUMP and EXPORT list, what UMNT and UMNTALL take away, and a path under which MNT finds nothing.
pub fn worked_mounts()
    ensures { WorkedMounts }
{}

/// How many mounts are kept.
pub fn worked_newest()
    ensures { WorkedNewest }
{}

/// Which requests that wait are granted, and in which order, when a lock is given back.
pub fn worked_settling()
    ensures { WorkedSettling }
{}

/// What FREE_ALL grants, and what becomes of a grant that is answered.
pub fn worked_freed()
    ensures { WorkedFreed }
{}

/// A LOCK that is granted, and an UNLOCK, end the pending grants of their owner within their range, so that a late
/// answer to GRANTED changes nothing. Another owner's stay, and one of which the range has only a part.
pub fn worked_ending()
    ensures { WorkedEnding }
{}

/// A run of two records: a file is made, and written.
pub fn worked_run()
    ensures { WorkedRun }
{}

/// Where the run ends, a directory is listed and a file removed; and a WRITE that is refused.
pub fn worked_steps()
    ensures { WorkedSteps }
{}

/// The checks of RENAME in their order, a move, and two names of one file.
pub fn worked_renamings()
    ensures { WorkedRenamings }
{}

/// A REMOVE of the first of two names of a file: the other keeps its cookie.
pub fn worked_leaving()
    ensures { WorkedLeaving }
{}

/// What LINK comes to where a file has almost all names that it can have, and all of them.
pub fn worked_linkings()
    ensures { WorkedLinkings }
{}

/// A reading of a directory in two pages, with a WRITE between them.
pub fn worked_turns()
    ensures { WorkedTurns }
{}

/// Which file and range a call of NLM names, and which status each check has.
pub fn worked_checks()
    ensures { WorkedChecks }
{}

/// A LOCK, an UNLOCK of a part of it, a LOCK that waits, once, and is cancelled, a TEST and an NM_LOCK that are
/// denied, LOCK_MSG, shares; MNT, and one that is refused.
pub fn worked_locking()
    ensures { WorkedLocking }
{}

/// TEST_MSG, CANCEL_MSG and UNLOCK_MSG, one of them where a request waits; GRANTED and GRANTED_MSG, and results that
/// the server never asked for.
pub fn worked_posting()
    ensures { WorkedPosting }
{}

/// FREE_ALL over two files, a LOCK for which no number is left, and a REMOVE of a file that is waited for.
pub fn worked_waiting()
    ensures { WorkedWaiting }
{}
