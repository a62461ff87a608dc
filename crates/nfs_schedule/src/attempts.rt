//! The attempt of a call, by its program.

ghost use Rattle.std.specs.Prelude.{IfOk};
ghost use Rattle.nfs_objects.specs.Attempt.{AsksFirst, Attempts};
ghost use Rattle.nfs_objects.specs.Bound.{HasNumbers};
ghost use Rattle.nfs_objects.specs.Modes.{Suits, modes_of};
ghost use Rattle.nfs_engine.specs.Built.{IsBuilt};

use nfs_machine::{Call, Ctx};
use nfs_objects::{Outcome, View};
use nfs_wire::NfsCall;
use std::alloc::{AllocError, Global};

/// What the call comes to on what was read. It asks for the exports first, and then for what its first handle names.
///
/// # Errors
///
/// There is no memory for it.
pub fn attempt(alloc: Global, call: &Call, ctx: &Ctx, view: &View) -> Result<Outcome, AllocError>
    requires built { IsBuilt call.now }
    requires suits { Suits (modes_of call.now) view.now }
    requires numbers { HasNumbers call.now view.now }
    ensures attempts { IfOk result (Attempts call.now ctx.now view.now) }
    ensures first { IfOk result (AsksFirst call.now view.now) }
{
    match call {
        Call::Nfs(call) => attempt_nfs(alloc, call, ctx, view),
        Call::Mount(call) => nfs_mount::attempt(alloc, call, ctx, view),
        Call::Nlm(call) => nlm_daemon::attempt(alloc, call, ctx, view),
        Call::Replace(exports) => nfs_mount::attempt_replace(alloc, exports, ctx, view),
    }
}

/// The same for NFS: on names, or on attributes and data.
fn attempt_nfs(alloc: Global, call: &NfsCall, ctx: &Ctx, view: &View) -> Result<Outcome, AllocError>
    requires built { IsBuilt (Call.Nfs call.now) }
    requires suits { Suits (modes_of (Call.Nfs call.now)) view.now }
    ensures attempts { IfOk result (Attempts (Call.Nfs call.now) ctx.now view.now) }
    ensures first { IfOk result (AsksFirst (Call.Nfs call.now) view.now) }
{
    if nfs_names::is_name_call(call) {
        nfs_names::attempt(alloc, call, ctx, view)
    } else {
        nfs_data::attempt(alloc, call, ctx, view)
    }
}
