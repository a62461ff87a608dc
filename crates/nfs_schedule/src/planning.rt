//! What a call reads behind what is foreseen of it, ahead of its first attempt, by its program.

ghost use Rattle.std.specs.Prelude.{IfSome};
ghost use Rattle.nfs_objects.specs.Calls.{named_by, new_numbers};
ghost use Rattle.nfs_objects.specs.Modes.{modes_of};
ghost use Rattle.nfs_inodes.specs.Wants.{IsWanted};
ghost use Rattle.nfs_schedule.specs.Grown.{HasGrown};

use nfs_data::plan as data;
use nfs_engine::Txn;
use nfs_inodes::wishes::NextWant;
use nfs_machine::Call;
use nfs_mount::plan as mount;
use nfs_names::{is_name_call, plan as names};
use nlm_daemon::plan as nlm;
use std::alloc::Global;

/// How far a call is in its plan.
#[derive(Clone, Copy)]
pub enum Plan {
    /// That of a call of NFS on names.
    Names(names::Plan),
    /// That of a call of NFS on data.
    Data(data::Plan),
    /// That of a call of MOUNT.
    Mount(mount::Plan),
    /// That of a call of NLM.
    Nlm(nlm::Plan),
    /// Nothing is planned.
    Over,
}

/// The plan of a call of which nothing is foreseen, from its start.
pub(crate) fn first_plan(call: &Call) -> Plan {
    match call {
        Call::Mount(_) => Plan::Mount(mount::Plan::Exports),
        Call::Nlm(_) => Plan::Nlm(nlm::Plan::Exports),
        _ => Plan::Over,
    }
}

/// The plan of a call that takes what its first handle names.
pub(crate) fn behind_first(call: &Call) -> Plan {
    match call {
        Call::Nfs(call) if is_name_call(call) => Plan::Names(names::behind_first(call)),
        Call::Nfs(call) => Plan::Data(data::behind_first(call)),
        _ => Plan::Over,
    }
}

/// What a call that is there in its plan wants next, and where it is once it has that. None where its plan is over, as
/// far as its view tells.
pub(crate) fn next_want(alloc: Global, txn: &Txn, at: Plan) -> NextWant<Plan>
    requires { HasGrown txn.now }
    ensures { IfSome result (λ next. IsWanted (modes_of txn.now.call) (named_by txn.now.call txn.now.view)
        (new_numbers txn.now.call txn.now.view) txn.now.view next.0) }
{
    match at {
        Plan::Names(at) => {
            let (want, after) = names::next(alloc, txn.call(), txn.ctx(), txn.view(), at)?;
            Some((want, Plan::Names(after)))
        }
        Plan::Data(at) => {
            let (want, after) = data::next(alloc, txn.call(), txn.ctx(), txn.view(), at)?;
            Some((want, Plan::Data(after)))
        }
        Plan::Mount(at) => {
            let (want, after) = mount::next(alloc, txn.call(), txn.ctx(), txn.view(), at)?;
            Some((want, Plan::Mount(after)))
        }
        Plan::Nlm(at) => {
            let (want, after) = nlm::next(alloc, txn.call(), txn.ctx(), txn.view(), at)?;
            Some((want, Plan::Nlm(after)))
        }
        Plan::Over => None,
    }
}
