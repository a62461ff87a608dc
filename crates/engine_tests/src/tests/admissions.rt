//! What a call that begins is.

ghost use Rattle.std.specs.Prelude.{◌≡◌, IfSome};
ghost use Rattle.nfs_engine.specs.Engine.{AdmitsLiving, Lives};
ghost use Rattle.nfs_engine.specs.declared.admission.Admission.TheVariants.{Begin};

use super::alone::Alone;
use super::openings::{close, opened};
use super::records::{GETATTR, arrival, moment};
use nfs_engine::{Admission, Arrival, Engine, Txn};
use nfs_machine::Call;
use nfs_wire::NfsCall;
use std::alloc::AllocError;
use std::process::Abort;
use std::test::Fail;

/// The call that began, if one did.
fn begun(admission: Admission) -> Option<Txn>
    ensures { IfSome result (λ txn. admission ≡ Begin txn) }
{
    match admission {
        Admission::Begin(txn) => Some(txn),
        Admission::Repeat(kept) => {
            drop(kept);
            None
        }
        Admission::Running(arrival) => {
            drop(arrival);
            None
        }
        Admission::Early(faulted) => {
            drop(faulted);
            None
        }
    }
}

/// The record of these words came in.
fn came_in(rt: &(impl Abort + AllocGlobal), words: &[u32]) -> Arrival {
    match arrival(rt.alloc(), words) {
        Ok(arrival) => arrival,
        Err(AllocError) => panic!(rt; "no memory for a second try"),
    }
}

/// What admitting the record of these words comes to, if need be by a second try.
fn admission(rt: &(impl Abort + AllocGlobal), engine: &mut Engine, words: &[u32]) -> Admission
    ensures { AdmitsLiving engine.old engine.new result }
{
    match engine.admit(rt.alloc(), came_in(rt, words)) {
        Ok(admission) => admission,
        Err((_, arrival)) => match engine.admit(rt.alloc(), arrival) {
            Ok(admission) => admission,
            Err(_) => panic!(rt; "no memory for a second try"),
        },
    }
}

/// The call of the record of these words, in progress.
pub(super) fn admitted(rt: &(impl Abort + AllocGlobal), engine: &mut Engine, words: &[u32]) -> Txn
    ensures { Lives engine.new result }
{
    match begun(admission(rt, engine, words)) {
        Some(txn) => txn,
        None => panic!(rt; "it asks a call that begins"),
    }
}

/// The handle in GETATTR.
const ROOT: &[u8] = b"NFD3\0\0\0\x01\0\0\0\0\0\0\0\x07\0\0\0\0\0\0\0\x01\0\0\0\0\0\0\0\x01";

/// Whether the call is GETATTR of the root, under who sent it and when, and has read nothing.
fn shows_getattr(alone: &Alone) -> bool {
    let ctx = alone.ctx();
    let handle = match alone.call() {
        Call::Nfs(NfsCall::Getattr(handle)) => handle.as_slice(),
        _ => &[],
    };
    handle == ROOT
        && ctx.host.as_slice() == b"10.0.0.1".as_slice()
        && (ctx.ids.uid, ctx.ids.gid) == (65534, 65534)
        && ctx.moment == moment()
        && ctx.start == 7
        && alone.view().is_empty()
}

#[test]
fn a_call_that_begins_shows_what_it_is(rt: HostRuntime) -> Result<(), Fail> {
    let engine = opened(rt.alloc())?;
    assert_eq!(rt; engine.living(), 0);
    let alone = Alone::begun(&rt, engine, &GETATTR);
    assert!(rt; shows_getattr(&alone));
    assert_eq!(rt; alone.counts(), (1, 0));
    close(&rt, alone.end(&rt));
    Ok(())
}
