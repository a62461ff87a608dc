//! What ends an attempt, as an outcome.

ghost use Rattle.std.specs.Prelude.{IfOk};
ghost use Rattle.nfs_machine.specs.declared.calls.Call.{Call};
ghost use Rattle.nfs_machine.specs.declared.context.Ctx.{Ctx};
ghost use Rattle.nfs_objects.specs.Attempt.{AsksFirst, Attempts, EndsCall, EndsFirst};
ghost use Rattle.nfs_objects.specs.Only.{AnswersAtOnce, AsksFirstOnly, EndsAtOnce, EndsFirstOnly};
ghost use Rattle.nfs_objects.specs.Values.{ViewValue};

use crate::change::{Change, Missing, Outcome};
use std::alloc::AllocError;

/// What an attempt comes to that ended so.
///
/// # Errors
///
/// There was no memory for it.
pub fn outcome(ended: Result<Change, Missing>) -> Result<Outcome, AllocError>
    ensures attempts { (call : Call) (ctx : Ctx) (view : ViewValue) → EndsCall call ctx view ended →
        IfOk result (Attempts call ctx view) }
    ensures first { (call : Call) (view : ViewValue) → EndsFirst call view ended →
        IfOk result (AsksFirst call view) }
    ensures only { (call : Call) (view : ViewValue) → EndsFirstOnly call view ended →
        IfOk result (AsksFirstOnly call view) }
    ensures at_once { (call : Call) (view : ViewValue) → EndsAtOnce call view ended →
        AnswersAtOnce call view result }
{
    match ended {
        Ok(change) => Ok(Outcome::Done(change)),
        Err(Missing::Need(asked)) => Ok(Outcome::Need(asked)),
        Err(Missing::Fresh(count)) => Ok(Outcome::Fresh(count)),
        Err(Missing::Memory) => Err(AllocError),
    }
}
