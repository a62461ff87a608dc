//! The laws of the machine. The functions that comments name as examples (`worked_run`) stand in `machine_examples`.

ghost use Rattle.nfs_machine.specs.Chains.{RunsAreChains};
ghost use Rattle.nfs_machine.specs.HandleLaws.{MntHandlesResolve, NfsHandlesResolve};
ghost use Rattle.nfs_machine.specs.Laws.{ArrivalsAskOnce, HandlesAreRead, HandlesAreWritten, NeverGivenAgain};
ghost use Rattle.nfs_machine.specs.Laws.{OpeningIsFormed, OpeningNumbersFit, RefusalsAreShort, RefusalsChangeNothing};
ghost use Rattle.nfs_machine.specs.Laws.{RepliesAreShort, RunsGoOn, RunsJoin, ChainsKeepForm, ChainsKeepNumbers};
ghost use Rattle.nfs_machine.specs.Laws.{StepsGiveOnce, StepsKeepCookies, StepsKeepExports, StepsKeepForm};
ghost use Rattle.nfs_machine.specs.Laws.{StepsKeepNumbers, WithinIsTold};
ghost use Rattle.nfs_machine.specs.Laws.{StepsNumberOnce, ChainsNumberOnce, GoneIsStale, StepsKeepWithin};
ghost use Rattle.nfs_machine.specs.LockLaws.{ListedLocksTell, OpeningIsApart, OpeningWaitsForNone, ChainsKeepApart};
ghost use Rattle.nfs_machine.specs.LockLaws.{ChainsKeepWaiting, LocksEndGrants, StepsKeepApart, StepsKeepWaiting};
ghost use Rattle.nfs_machine.specs.LockLaws.{UnlockedFilesKeepNothing, UnlocksEndGrants};
ghost use Rattle.nfs_machine.specs.MountLaws.{MountRepliesAreBounded};
ghost use Rattle.nfs_machine.specs.Paging.{FullPagesFit, PagesAreOne, PagesExist, PagesFit};
ghost use Rattle.nfs_machine.specs.Readings.{ReadingsAreWhole};
ghost use Rattle.nfs_machine.specs.SideLaws.{LocksStayFit, MountRefusalsChangeNothing, MountRepliesHaveForm};
ghost use Rattle.nfs_machine.specs.SideLaws.{MountsStayFit, NlmMessagesHaveForm, NlmRefusalsChangeNothing};
ghost use Rattle.nfs_machine.specs.SideLaws.{NlmRepliesHaveForm, OpeningFits, PostedRefusalsChangeNothing};
ghost use Rattle.nfs_machine.specs.SideLaws.{ChainsStayFit, SpelledCallsFit};
ghost use Rattle.nfs_machine.specs.StatusLaws.{MountNeverAnswers, NfsNeverAnswers};
ghost use Rattle.nfs_machine.specs.TimeLaws.{ChainsNeverFall, StepsShowChanges, StepsTouchOnce, TimesNeverFall};
ghost use Rattle.nfs_machine.specs.TimeLaws.{TimesRise};

use side_wire::{mount, nlm};

/// A run goes on by one step from the state that it left.
///
/// Such a run is `worked_run`.
pub fn runs_go_on()
    ensures { RunsGoOn }
{}

/// The steps of a run are a chain of steps, of the calls that its arrivals ask: what is true of each chain is true of
/// each run.
///
/// Such a run is `worked_run`.
pub fn runs_are_chains()
    ensures { RunsAreChains }
{}

/// Two runs of which the second begins where the first ended are one run.
///
/// Such runs are the two records of `worked_run`.
pub fn runs_join()
    ensures { RunsJoin }
{}

/// A handle and its bytes determine each other.
///
/// Such a handle and such bytes are in `worked_handles`.
pub fn handles_go_both_ways()
    ensures read { HandlesAreRead }
    ensures written { HandlesAreWritten }
{}

/// An arrival asks at most one call, under one context: its record has one header, and the header's arguments spell
/// at their front at most one call of the procedure.
///
/// Such arrivals are in `worked_run`.
pub fn arrivals_ask_once()
    ensures { ArrivalsAskOnce }
{
    nfs_wire::one_call_is_spelled();
    mount::one_call_is_spelled();
    nlm::one_call_is_spelled();
}

/// A reply of NFS in a well-formed state has a spelling, which is shorter than a record may be; so has a refusal.
///
/// Such steps are in `worked_run` and `worked_steps`.
pub fn replies_are_short()
    ensures replies { RepliesAreShort }
    ensures refusals { RefusalsAreShort }
{}

/// What a page is determines it: of the same entries there is one page, or there is none.
///
/// Such pages, and entries without one, are in `worked_pages` and `worked_full_pages`.
pub fn pages_are_one()
    ensures one { PagesAreOne }
    ensures exist { PagesExist }
{}

/// A page of READDIR or READDIRPLUS has no more bytes behind its status than the caller allows.
///
/// Such pages are in `worked_steps`.
pub fn pages_fit()
    ensures names { PagesFit }
    ensures full { FullPagesFit }
{}

/// The time of a change is never before that of the change before it, and is later but at the greatest time. A step
/// leaves an object as it is, or changes its time of change so, once; in a well-formed state it changes it so with each
/// change of the attributes that are shown, the links among them. Along a chain of steps of any calls that of what
/// lives under a handle never falls.
///
/// Times are worked through in `worked_times`. In `worked_run` the root lives under its handle to the end, and was
/// changed.
pub fn times_of_changes_rise()
    ensures never_fall { TimesNeverFall }
    ensures rise { TimesRise }
    ensures steps { StepsTouchOnce }
    ensures shown { StepsShowChanges }
    ensures chains { ChainsNeverFall }
{}

/// An entry keeps its cookie: where a name of a directory leads to the same object before a step and after it, it is
/// the same entry (RFC 1813, 3.3.16).
///
/// Such a step is `worked_leaving`.
pub fn entries_keep_cookies()
    ensures { StepsKeepCookies }
{}

/// A directory that is read page by page, by READDIR or READDIRPLUS, from cookie 0 to its end, among steps of any
/// calls, shows no cookie twice, each entry that stayed once, "." and ".." among them, and once each name that led to
/// the same object all the time; the state before is well-formed.
///
/// Such a reading is `worked_turns`.
pub fn readings_are_whole()
    ensures { ReadingsAreWhole }
{}

/// A call of NFS that is refused changes nothing and puts no message.
///
/// Such a call is in `worked_steps`.
pub fn refusals_change_nothing()
    ensures { RefusalsChangeNothing }
{}

/// A handle is given once. What a step leaves alive lived before it under the same handle, or has one that was never
/// given before and is given from now on; and after a chain of steps of any calls nothing new lives under
/// a handle that was given before it.
///
/// Such a run is `worked_run`, in which a handle is given and the root keeps its own.
pub fn handles_are_given_once()
    ensures steps { StepsGiveOnce }
    ensures chains { NeverGivenAgain }
{}

/// The number and the generation of what lives fit the bytes of its handle, as `handles_go_both_ways` asks of them.
/// That the export and the start number fit too is no part of this law.
///
/// Such a run is `worked_run`.
pub fn numbers_fit()
    ensures opening { OpeningNumbersFit }
    ensures steps { StepsKeepNumbers }
    ensures chains { ChainsKeepNumbers }
{}

/// No call of a host changes the exports.
///
/// Such a step is in `worked_steps`.
pub fn steps_keep_exports()
    ensures { StepsKeepExports }
{}

/// A number of an export is given once. Where the exports are replaced, or not, what lives under a number that was used
/// lived under it before, at the same path and with the same root; so after each step, and after a chain of steps of
/// any calls. So a handle of an export that went is stale from then on, whoever brings it. The exports stay within the
/// bounds of MOUNT.
///
/// Such steps are in `worked_replacing`.
pub fn exports_are_numbered_once()
    ensures steps { StepsNumberOnce }
    ensures chains { ChainsNumberOnce }
    ensures gone { GoneIsStale }
    ensures within { StepsKeepWithin }
{}

/// What is true of the state that a server starts with stays true, also where its exports are replaced: each export has
/// its number and a root of its own, names lead to living objects of their export and none to a root, the directories
/// of an export form one tree, cookies rise, the texts of links are within their bound, and what is mounted stands once
/// and within its bound.
/// Locks, shares, waiting requests and pending grants are of living regular files, conflict with nothing, or with what
/// is held where they wait, and have numbers of their own that were given. What is locked, waited for or pending is a
/// range of 64-bit offsets; a sharer has one share of a file, and equal requests wait once. The exports that it starts
/// with are faultless, as those of `Exports::new` are, and so are those that replace them (`ReplaceStep`).
///
/// Such a run is `worked_run`. Locks are held and waited for in `worked_locking`.
pub fn states_stay_well_formed()
    ensures opening { OpeningIsFormed }
    ensures steps { StepsKeepForm }
    ensures chains { ChainsKeepForm }
{}

/// No two owners ever have locks that conflict at an offset, or shares that conflict.
///
/// Such a run is `worked_run`. Locks are held and given back in `worked_locking`.
pub fn owners_never_conflict()
    ensures opening { OpeningIsApart }
    ensures steps { StepsKeepApart }
    ensures chains { ChainsKeepApart }
{}

/// A request waits only while it conflicts with what is held of its file.
///
/// Such a run is `worked_run`. A request waits in `worked_locking`, and requests are granted in `worked_settling`.
pub fn waiting_requests_conflict()
    ensures opening { OpeningWaitsForNone }
    ensures steps { StepsKeepWaiting }
    ensures chains { ChainsKeepWaiting }
{}

/// After a LOCK that is granted, and after an UNLOCK past its checks, no grant to its owner on that file that lies
/// within its range waits for its answer, but those that the call itself put a GRANTED for. So a late answer to an
/// earlier one changes nothing.
///
/// Such calls are in `worked_ending`.
pub fn answered_owners_have_no_grants()
    ensures locks { LocksEndGrants }
    ensures unlocks { UnlocksEndGrants }
{}

/// A reply of MOUNT or NLM has a spelling, and so has each message, where the byte strings of the call and of what is
/// exported, mounted, held and waited for are within the bounds of the two programs.
///
/// Such steps are in `worked_locking`, from a state that `bounds_are_kept` speaks of.
pub fn side_replies_have_forms()
    ensures mount { MountRepliesHaveForm }
    ensures nlm { NlmRepliesHaveForm }
    ensures messages { NlmMessagesHaveForm }
{}

/// A reply of MOUNT has at most 48 bytes where it answers MNT, 1,292 for each mount and 4 where it answers DUMP, and
/// 1,036 for each export, 264 for each of its hosts, and 4 where it answers EXPORT; the others have none. What is
/// mounted and exported is within the bounds of the program, as `bounds_are_kept` says of what is mounted.
///
/// Such steps are in `worked_locking`.
pub fn mount_replies_are_bounded()
    ensures { MountRepliesAreBounded }
{}

/// What is mounted, held and waited for is always within those bounds: a server starts so, each call of any program
/// leaves it so, as does one that replaces the exports, and so does a chain of such calls. The byte strings of a call
/// are within them, since it is spelled; that the name of a host that calls is, has to be given.
///
/// Such a run is `worked_run`, and such steps are in `worked_locking`.
pub fn bounds_are_kept()
    ensures opening { OpeningFits }
    ensures calls { SpelledCallsFit }
    ensures mounts { MountsStayFit }
    ensures locks { LocksStayFit }
    ensures chains { ChainsStayFit }
{}

/// A call of MOUNT or NLM that is refused in its reply changes nothing and puts no message; one of NLM that is
/// refused in a message, as the MSG calls are, changes nothing and puts no other.
///
/// Such calls are in `worked_locking`.
pub fn side_refusals_change_nothing()
    ensures mount { MountRefusalsChangeNothing }
    ensures nlm { NlmRefusalsChangeNothing }
    ensures posted { PostedRefusalsChangeNothing }
{}

/// In a well-formed state a test tells which directories are one another or below one another, as a step of RENAME
/// does: whether a directory would go below itself is told of each.
///
/// Such states are in `worked_run`.
pub fn within_is_told()
    ensures { WithinIsTold }
{}

/// A lock conflicts with nothing where no listed lock stands in its way.
///
/// Such locks and ranges are in `worked_tests`.
pub fn listed_locks_tell()
    ensures { ListedLocksTell }
{}

/// In a well-formed state a file of which no owner has an offset keeps no list of locks, as one that was never locked.
///
/// Such a file is in `worked_freed`.
pub fn unlocked_files_keep_nothing()
    ensures { UnlockedFilesKeepNothing }
{}

/// No call of NFS is answered with NFS3ERR_JUKEBOX, NFS3ERR_SERVERFAULT, NFS3ERR_IO, NFS3ERR_NXIO, NFS3ERR_NODEV,
/// NFS3ERR_DQUOT, NFS3ERR_REMOTE or NFS3ERR_NOTSUPP, in any state, and no call of MOUNT with MNT3ERR_SERVERFAULT,
/// MNT3ERR_PERM, MNT3ERR_IO or MNT3ERR_NOTSUPP. So what want of memory answers is no step.
///
/// Calls that are refused with other statuses are in `worked_steps`.
pub fn statuses_never_answered()
    ensures nfs { NfsNeverAnswers }
    ensures mount { MountNeverAnswers }
{}

/// Each handle that LOOKUP, CREATE, MKDIR, SYMLINK, MKNOD or READDIRPLUS answers names, in the state after the call and
/// for the host that called, the object whose attributes stand beside it; the handle that MNT answers names a living
/// directory. The state before is well-formed, and its numbers fit the bytes of a handle, as `numbers_fit` says; so
/// does the start number.
///
/// Such handles are in `worked_run` (CREATE), `worked_steps` (READDIRPLUS) and `worked_locking` (MNT).
pub fn handles_resolve()
    ensures nfs { NfsHandlesResolve }
    ensures mount { MntHandlesResolve }
{
    handles_go_both_ways();
}
