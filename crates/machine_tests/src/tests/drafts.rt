//! Drafts: what they ask for, and what becomes of halts.

ghost use Rattle.std.specs.Prelude.{◌≡◌, [], ◌∷◌, IfOk, IsSome, None};
ghost use Rattle.nfs_objects.specs.Modes.{Suits, changing, reading};
ghost use Rattle.nfs_objects.specs.Values.{known_at};

use super::*;
use nfs_inodes::exports;
use nfs_machine::Reply;
use nfs_objects::{Change, Draft, Modes, MountTable, Outcome, outcome};
use nfs_wire::NfsReply;
use side_wire::{Callback, Message, NlmResult, NlmStatus};

/// Whether a draft with this view asks for an address in this mode.
fn asks_for(draft: Draft<'_>, address: Addr, mode: Mode) -> bool {
    let asks = asks(draft.find(address), address, mode);
    drop(draft);
    asks
}

/// Whether a draft that has read nothing wants an address in this mode, and asks for it.
fn is_wanted(alloc: Global, modes: Modes<'_>, address: Addr, mode: Mode) -> bool {
    let ctx = ctx(1);
    let view = View::new(alloc);
    let wanted = modes.at(&view, address);
    let asks = asks_for(Draft::new(alloc, &ctx, &view, modes), address, mode);
    drop(view);
    drop(ctx);
    wanted == mode && asks
}

/// The first row in which what was not read is not asked for so: what may be changed alone.
fn first_not_asked_for(alloc: Global) -> Option<usize> {
    let rows = [
        (READING, Addr::Exports, Mode::Shared),
        (READING, Addr::Inode(1), Mode::Shared),
        (READING, Addr::Inode(9), Mode::Shared),
        (CHANGING, Addr::Exports, Mode::Shared),
        (CHANGING, Addr::Inode(1), Mode::Exclusive),
        (CHANGING, Addr::Inode(9), Mode::Exclusive),
        (CHANGING, Addr::Mounts, Mode::Shared),
        (MOUNTING, Addr::Exports, Mode::Shared),
        (MOUNTING, Addr::Inode(9), Mode::Shared),
        (MOUNTING, Addr::Mounts, Mode::Exclusive),
    ];
    for (row, (modes, address, mode)) in rows.iter().enumerate() {
        if !is_wanted(alloc, *modes, *address, *mode) {
            return Some(row);
        }
    }
    None
}

/// Whether a draft asks for both tables, for that of mounts in this mode.
fn needs_tables(draft: Draft<'_>, mode: Mode) -> bool {
    let listed = asks(exports(&draft), Addr::Exports, Mode::Shared);
    let mounts = asks(draft.mounts(), Addr::Mounts, mode);
    drop(draft);
    listed && mounts
}

fn asks_for_tables(alloc: Global, modes: Modes<'_>, mode: Mode) -> bool {
    let ctx = ctx(1);
    let view = View::new(alloc);
    let asks = needs_tables(Draft::new(alloc, &ctx, &view, modes), mode);
    drop(view);
    drop(ctx);
    asks
}

#[test]
fn a_draft_asks_for_what_was_not_read(rt: HostRuntime) {
    assert_eq!(rt; first_not_asked_for(rt.alloc()), None);
    assert!(rt; asks_for_tables(rt.alloc(), READING, Mode::Shared));
    assert!(rt; asks_for_tables(rt.alloc(), MOUNTING, Mode::Exclusive));
}

/// How many exports it knows.
fn export_count(draft: &Draft<'_>) -> Option<usize> {
    match exports(draft) {
        Ok(list) => Some(list.len()),
        Err(halt) => {
            drop(halt);
            None
        }
    }
}

/// The same of a draft with this view.
fn exports_known(alloc: Global, view: View) -> Option<usize>
    requires { Suits reading view }
{
    let ctx = ctx(1);
    let draft = Draft::new(alloc, &ctx, &view, READING);
    let count = export_count(&draft);
    drop(draft);
    drop(view);
    drop(ctx);
    count
}

/// Whether it has a table of mounts, where it knows.
fn has_mounts(draft: &Draft<'_>) -> Option<bool> {
    match draft.mounts() {
        Ok(table) => Some(table.is_some()),
        Err(halt) => {
            drop(halt);
            None
        }
    }
}

/// Puts a table of mounts, and tells whether there was none, and is one then.
fn put_mounts(alloc: Global, draft: &mut Draft<'_>) -> Result<bool, AllocError>
    requires alone { draft.old.modes.mounts ≡ Mode.Exclusive }
    requires known { IsSome (known_at draft.old Addr.Mounts) }
{
    let before = has_mounts(draft);
    draft.put_mounts(MountTable::new(alloc))?;
    Ok(before == Some(false) && has_mounts(draft) == Some(true))
}

/// A view of no table of mounts, which is held alone.
fn without_mounts(alloc: Global) -> Result<View, AllocError>
    ensures { IfOk result (λ view. view ≡ record {
      entries = record { address = Addr.Mounts; mode = Mode.Exclusive; object = None } ∷ [];
      reserved = [];
    }) }
{
    let mut view = View::new(alloc);
    match view.add(Addr::Mounts, Mode::Exclusive, None) {
        Ok(()) => Ok(view),
        Err(AllocError) => {
            drop(view);
            Err(AllocError)
        }
    }
}

fn puts_mounts(alloc: Global) -> Result<bool, AllocError> {
    let view = without_mounts(alloc)?;
    let ctx = ctx(1);
    let mut draft = Draft::new(alloc, &ctx, &view, MOUNTING);
    let puts = put_mounts(alloc, &mut draft);
    drop(draft);
    drop(view);
    drop(ctx);
    puts
}

/// A view of one number to give.
fn numbered(alloc: Global) -> Result<View, AllocError>
    ensures { IfOk result (Suits changing) }
{
    let mut view = View::new(alloc);
    match view.add_reserved(RESERVED) {
        Ok(()) => Ok(view),
        Err(AllocError) => {
            drop(view);
            Err(AllocError)
        }
    }
}

/// The number that a draft with this view gives.
fn fresh(alloc: Global, view: View) -> Result<Reserved, Missing>
    requires { Suits changing view }
{
    let ctx = ctx(1);
    let draft = Draft::new(alloc, &ctx, &view, CHANGING);
    let fresh = draft.fresh();
    drop(draft);
    drop(view);
    drop(ctx);
    fresh
}

fn is_reserved(fresh: Result<Reserved, Missing>) -> bool {
    match fresh {
        Ok(reserved) => reserved == RESERVED,
        Err(halt) => {
            drop(halt);
            false
        }
    }
}

/// What was read is not asked for again, and what was put is there.
#[test]
fn a_draft_knows_what_was_read(rt: HostRuntime) -> Result<(), AllocError> {
    assert!(rt; exports_known(rt.alloc(), exported(rt.alloc())?) == Some(1));
    assert!(rt; puts_mounts(rt.alloc())?);
    assert!(rt; is_reserved(fresh(rt.alloc(), numbered(rt.alloc())?)));
    assert!(rt; wants_a_number(fresh(rt.alloc(), View::new(rt.alloc()))));
    Ok(())
}

/// Sends the result of LOCK_MSG to a host (RFC 1813, 6.3).
fn send(draft: &mut Draft<'_>) -> Result<(), AllocError> {
    draft.send(Message {
        host: Bytes::from_static(b"10.0.0.1"),
        call: Callback::LockRes(NlmResult {
            cookie: Bytes::from_static(b"cookie"),
            status: NlmStatus::Granted,
        }),
    })
}

/// Whether it is one message and an answer, and nothing is written.
fn is_sent(change: Change) -> bool {
    let is_null = matches!(&change.reply, Reply::Nfs(NfsReply::Null));
    let is_alone = change.writes.is_empty() && change.messages.len() == 1;
    drop(change);
    is_null && is_alone
}

/// Whether a message goes with the answer.
fn message_goes(alloc: Global) -> Result<bool, AllocError> {
    let ctx = ctx(1);
    let view = View::new(alloc);
    let mut draft = Draft::new(alloc, &ctx, &view, READING);
    let sent = send(&mut draft);
    let change = draft.answer(Reply::Nfs(NfsReply::Null));
    drop(view);
    drop(ctx);
    let is_sent = is_sent(change);
    sent?;
    Ok(is_sent)
}

/// How many numbers are wanted, where that is the outcome of a call that ended so; None for want of memory.
fn wanted(ended: Result<Change, Missing>) -> Option<u32> {
    match outcome(ended) {
        Ok(outcome) => {
            let count = fresh_count(&outcome);
            drop(outcome);
            Some(count)
        }
        Err(AllocError) => None,
    }
}

fn fresh_count(outcome: &Outcome) -> u32 {
    match outcome {
        Outcome::Fresh(count) => *count,
        _ => 0,
    }
}

/// Whether a halt is an outcome, but for want of memory.
fn halts_are_outcomes() -> bool {
    wanted(Err(Missing::Fresh(1))) == Some(1) && wanted(Err(Missing::from(AllocError))).is_none()
}

#[test]
fn a_draft_ends_in_an_answer_or_a_halt(rt: HostRuntime) -> Result<(), AllocError> {
    assert!(rt; message_goes(rt.alloc())?);
    assert!(rt; halts_are_outcomes());
    Ok(())
}
