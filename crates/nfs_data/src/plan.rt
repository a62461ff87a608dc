//! What READ, WRITE, FSSTAT and a SETATTR of a size read ahead of their attempts (RFC 1813, 3.3.2, 3.3.6, 3.3.7 and
//! 3.3.18): their plan, as far as the view tells.
//!
//! Behind what its handle names, where its checks pass, READ goes to the blocks of its range, and WRITE to these and to
//! what it changes with them, and then to the map pages of those that are absent. Where remains lie there it goes to
//! these first, map page by map page. SETATTR goes to what its file is counted in and to the map pages that are cut
//! off, and then to the blocks that these tell of. FSSTAT goes to what all groups of its export use.

ghost use Rattle.std.specs.Prelude.{IfErr, IfSome};
ghost use Rattle.nfs_machine.specs.declared.calls.Call.TheVariants as calls;
ghost use Rattle.nfs_objects.specs.Begins.{Begins};
ghost use Rattle.nfs_objects.specs.Calls.{named_by, new_numbers};
ghost use Rattle.nfs_objects.specs.Modes.{Suits, modes_of};
ghost use Rattle.nfs_inodes.specs.Wants.{IsWanted};
ghost use Rattle.nfs_data.specs.Plans.{MayGoOn, MayHalt};

use crate::{fsstat, read, setattr, write};
use nfs_inodes::wishes::{NextWant, Want};
use nfs_machine::{Call, Ctx};
use nfs_objects::{Draft, Missing, Modes, View};
use nfs_wire::{NfsCall, WriteArguments};
use std::alloc::Global;

/// How far a call is in its plan: what it wants next, if it lacks that.
#[derive(Clone, Copy)]
pub enum Plan {
    /// What tells where its data is.
    Maps,
    /// What its data is in.
    Data,
    /// The map pages of blocks that it adds.
    Holes,
    /// Nothing.
    Over,
}

/// The plan of a call that takes what its handle names.
pub fn behind_first(call: &NfsCall) -> Plan {
    match call {
        NfsCall::Read(_) | NfsCall::Write(_) | NfsCall::Fsstat(_) => Plan::Data,
        NfsCall::Setattr(arguments) if arguments.attributes.size.is_some() => Plan::Maps,
        _ => Plan::Over,
    }
}

/// Where the plan is once a call that is there has what it lacked; None where it is over. WRITE asks bit by bit for
/// remains.
fn behind(draft: &Draft<'_>, call: &NfsCall, plan: Plan) -> Option<Plan> {
    match plan {
        Plan::Maps => Some(Plan::Data),
        Plan::Data => match call {
            NfsCall::Write(arguments) if write::has_remains(draft, arguments) => Some(Plan::Data),
            NfsCall::Write(_) => Some(Plan::Holes),
            _ => Some(Plan::Over),
        },
        Plan::Holes => Some(Plan::Over),
        Plan::Over => None,
    }
}

/// What a call that is there in its plan wants next.
pub fn next(alloc: Global, call: &Call, ctx: &Ctx, view: &View, plan: Plan) -> NextWant<Plan>
    requires { Suits (modes_of call.now) view.now }
    ensures { IfSome result (λ next. IsWanted (modes_of call.now) (named_by call.now view.now)
        (new_numbers call.now view.now) view.now next.0) }
{
    let Call::Nfs(nfs) = call else {
        return None;
    };
    let mut draft = Draft::new(alloc, ctx, view, Modes::of(call));
    let after = behind(&draft, nfs, plan)?;
    go_on(&mut draft, nfs, plan, after)
}

/// The same of its draft, which is of no use then; and where the plan is once it is taken.
fn go_on(draft: &mut Draft<'_>, call: &NfsCall, plan: Plan, after: Plan) -> NextWant<Plan>
    requires { Begins (calls.Nfs call.now) draft.old }
    ensures { MayGoOn call.now draft.old result }
{
    match ask(draft, call, plan) {
        Err(Missing::Need(asked)) => Some((Want::Addresses(asked), after)),
        _ => None,
    }
}

/// Asks for what a call that is there in its plan wants, where its checks pass.
///
/// # Errors
///
/// `Need` of what it lacks, and `Memory`. The draft is of no use then.
fn ask(draft: &mut Draft<'_>, call: &NfsCall, plan: Plan) -> Result<(), Missing>
    requires { Begins (calls.Nfs call.now) draft.old }
    ensures { IfErr result (MayHalt call.now draft.old) }
{
    match call {
        NfsCall::Setattr(arguments) => setattr::ask(draft, arguments),
        NfsCall::Read(arguments) => read::ask(draft, arguments),
        NfsCall::Write(arguments) => ask_write(draft, arguments, plan),
        NfsCall::Fsstat(object) => fsstat::ask(draft, object),
        _ => Ok(()),
    }
}

/// The same of WRITE.
fn ask_write(draft: &mut Draft<'_>, arguments: &WriteArguments, plan: Plan) -> Result<(), Missing>
    requires { Begins (calls.Nfs (NfsCall.Write arguments.now)) draft.old }
    ensures { IfErr result (MayHalt (NfsCall.Write arguments.now) draft.old) }
{
    match plan {
        Plan::Holes => write::ask_holes(draft, arguments),
        _ => write::ask(draft, arguments),
    }
}
