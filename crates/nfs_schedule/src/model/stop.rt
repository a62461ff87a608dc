//! Stopping a worker: what it has is given up within the step, and has no reply.

ghost use Rattle.nfs_engine.specs.Engine.{Lives, Waits};
ghost use Rattle.nfs_schedule.specs.Answers.{IsUnanswered};
ghost use Rattle.nfs_schedule.specs.Stops.{IsGone, IsStop};
ghost use Rattle.nfs_schedule.specs.Workers.{WorkerLives};

use crate::answer::Answer;
use crate::model::worker::Worker;
use nfs_engine::{Engine, Pending, Txn};

/// Ends what a worker has: its call is given up, or, where it was executed, what it still holds is let go. It takes no
/// memory.
pub(crate) fn stop(engine: &mut Engine, worker: Worker) -> Option<Answer>
    requires { WorkerLives engine.old worker }
    ensures { IsStop engine.old engine.new worker result }
{
    match worker {
        Worker::Idle => None,
        Worker::Trying(txn) => Some(stop_call(engine, txn)),
        Worker::Wanting(txn, wanted) => {
            drop(wanted);
            Some(stop_call(engine, txn))
        }
        Worker::WantingNumbers(txn, _left) => Some(stop_call(engine, txn)),
        Worker::Ready(finished) => Some(stop_call(engine, finished.into_txn())),
        Worker::Blocked(txn) => Some(stop_call(engine, txn)),
        Worker::Failing(txn) => Some(stop_call(engine, txn)),
        Worker::Leaving(release, _) => {
            let pending = engine.release_all(release)?;
            Some(leave_unanswered(engine, pending))
        }
        Worker::PutOff(pending) => Some(leave_unanswered(engine, pending)),
        Worker::Refusing(pending) => Some(leave_unanswered(engine, pending)),
    }
}

/// Gives a call up that is being executed.
fn stop_call(engine: &mut Engine, txn: Txn) -> Answer
    requires { Lives engine.old txn }
    ensures gone { IsGone engine.old engine.new txn.key txn.id }
    ensures answer { IsUnanswered txn.received result }
{
    let release = engine.abort(txn);
    match engine.release_all(release) {
        Some(pending) => leave_unanswered(engine, pending),
        None => unreachable!(),
    }
}

/// Gives a call up that holds nothing, with no reply.
fn leave_unanswered(engine: &mut Engine, pending: Pending) -> Answer
    requires { Waits engine.old pending }
    ensures gone { IsGone engine.old engine.new pending.key pending.id }
    ensures answer { IsUnanswered pending.received result }
{
    let refused = engine.give_up(pending);
    drop(refused.asked);
    Answer::Unanswered(refused.received)
}
