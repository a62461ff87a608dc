//! Locks of a file in an export that is read only, which no call of such an export can make (RFC 1813, appendix II,
//! 6.1.4: NLM4_ROFS).

ghost use Rattle.std.specs.Prelude.{◌≡◌, [], IfOk, OnOk, true};
ghost use Rattle.nfs_machine.specs.declared.calls.Call.TheVariants as calls;
ghost use Rattle.side_wire.specs.Changing.{changes_locks};
ghost use Rattle.nfs_objects.specs.Modes.{Suits, locking, modes_of};

use super::*;
use nfs_machine::Reply;
use nfs_objects::Outcome;
use nlm_daemon::attempt;
use side_wire::{LockArguments, NlmCall, NlmLock, NlmReply, NlmStatus};
use std::process::Abort;
use std::test::Fail;

/// `/data` for every host, which may not be written.
const READ_ONLY: Given = Given {
    path: b"/data",
    mode: b"ro",
    hosts: &[b"*"],
};

/// LOCK of byte 0 of file 9.
fn lock(exclusive: bool) -> NlmCall
    ensures { changes_locks result ≡ true }
{
    NlmCall::Lock(LockArguments {
        cookie: Bytes::from_static(b"cookie"),
        block: false,
        exclusive,
        lock: NlmLock {
            caller_name: Bytes::from_static(b"c1"),
            file: Bytes::from_static(super::HANDLE),
            owner: Bytes::from_static(b"\x01"),
            process: 1,
            offset: 0,
            length: 1,
        },
        reclaim: false,
        state: 0,
    })
}

/// Adds the export, file 9 and that no file of its bucket has locks to a view that has read nothing.
fn fill(view: &mut View, alloc: Global) -> Result<(), AllocError>
    requires { view.old ≡ record { entries = []; reserved = [] } }
    ensures { OnOk result (Suits locking view.new) }
{
    let exports = Object::Exports(table(alloc, &[READ_ONLY])?);
    add(view, alloc, Addr::Exports, Mode::Shared, exports)?;
    let file = Object::Inode(hello(1)?);
    add(view, alloc, Addr::Inode(9), Mode::Exclusive, file)?;
    view.add(LOCKS, Mode::Exclusive, None)?;
    Ok(())
}

/// A view of these.
fn shown(alloc: Global) -> Result<View, AllocError>
    ensures { IfOk result (Suits locking) }
{
    let mut view = View::new(alloc);
    match fill(&mut view, alloc) {
        Ok(()) => Ok(view),
        Err(AllocError) => {
            drop(view);
            Err(AllocError)
        }
    }
}

/// What LOCK comes to on this view, and how many writes it has.
fn status(alloc: Global, call: &NlmCall, view: &View) -> Option<(NlmStatus, usize)>
    requires { Suits (modes_of (calls.Nlm call.now)) view.now }
{
    let ctx = ctx(0);
    let outcome = attempt(alloc, call, &ctx, view);
    drop(ctx);
    match outcome {
        Ok(Outcome::Done(change)) => {
            let count = change.writes.len();
            let status = match &change.reply {
                Reply::Nlm(NlmReply::Lock(answer)) => Some((answer.status, count)),
                _ => None,
            };
            drop(change);
            status
        }
        other => {
            drop(other);
            None
        }
    }
}

/// The same of an exclusive lock, or of a shared one.
fn locked(alloc: Global, exclusive: bool) -> Result<Option<(NlmStatus, usize)>, AllocError> {
    let view = shown(alloc)?;
    let call = lock(exclusive);
    let status = status(alloc, &call, &view);
    drop(call);
    drop(view);
    Ok(status)
}

#[test]
fn an_export_that_is_read_only_has_shared_locks(rt: HostRuntime) -> Result<(), Fail> {
    let alloc = rt.alloc();
    assert_eq!(rt; locked(alloc, true)?, Some((NlmStatus::ReadOnly, 0)));
    assert_eq!(rt; locked(alloc, false)?, Some((NlmStatus::Granted, 1)));
    Ok(())
}
