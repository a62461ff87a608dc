//! How what came in was answered.

ghost use Rattle.std.specs.Prelude.{◌≡◌, IfSome};
ghost use Rattle.nfs_engine.specs.Arrivals.{incoming_value};
ghost use Rattle.nfs_engine.specs.Answers.{answer_bytes};
ghost use Rattle.nfs_engine.specs.Asked.{IsAskedBy};
ghost use Rattle.nfs_engine.specs.Forms.{RefusalHasForm};
ghost use Rattle.nfs_machine.specs.Refusal.{refusal_of};
ghost use Rattle.nfs_machine.specs.RpcReplies.{refusal_message};
ghost use Rattle.nfs_engine.specs.declared.arrival.Reading.TheVariants as readings;
ghost use Rattle.nfs_engine.specs.declared.asking.Asked.{Asked};
ghost use Rattle.nfs_schedule.specs.Answers.{IsDeclined, IsRefused, answered, reply_bytes};
ghost use Rattle.nfs_schedule.specs.Turns.{AsksCall};

use nfs_engine::{Arrival, Asked, Faulted, Incoming, Kept, Reading, Receipt, answers};
use std::alloc::Global;

/// A call that was not executed, for want of memory or of a number.
#[derive(Drop)]
pub struct RefusalReply {
    pub received: Incoming,
    /// Its refusal; None where there was no memory for that.
    pub answer: Option<Vec<u8>>,
}

/// How what came in was answered.
#[derive(Drop)]
pub enum Answer {
    /// Its call was executed.
    Executed(Receipt),
    /// It came before, and gets the reply that is kept; its call is not executed again.
    Repeated(Kept),
    /// Its call was refused, and changed nothing.
    Refused(RefusalReply),
    /// It has a fault.
    Early(Faulted),
    /// It is not executed, and has no reply: its worker was stopped, or a call that came with the same is in progress.
    Unanswered(Incoming),
}

impl Answer {
    /// What came in.
    pub fn received(&self) -> &Incoming
        ensures { incoming_value result.now ≡ answered self.now }
    {
        match self {
            Answer::Executed(receipt) => &receipt.executed.received,
            Answer::Repeated(kept) => kept.received(),
            Answer::Refused(declined) => &declined.received,
            Answer::Early(faulted) => &faulted.received,
            Answer::Unanswered(received) => received,
        }
    }

    /// The bytes of the reply; none where there is no reply.
    pub fn bytes(&self) -> &[u8]
        ensures { result.now ≡ reply_bytes self.now }
    {
        match self {
            Answer::Executed(receipt) => &receipt.answer,
            Answer::Repeated(kept) => kept.reply(),
            Answer::Refused(declined) => bytes_of(&declined.answer),
            Answer::Early(faulted) => bytes_of(&faulted.answer),
            Answer::Unanswered(_) => &[],
        }
    }
}

/// The bytes, if there are any.
fn bytes_of(answer: &Option<Vec<u8>>) -> &[u8]
    ensures { result.now ≡ answer_bytes answer.now }
{
    match answer {
        Some(bytes) => bytes,
        None => &[],
    }
}

/// The refusal of a call that is not executed.
pub fn decline(alloc: Global, received: Incoming, asked: Asked) -> RefusalReply
    requires { IsAskedBy (incoming_value received) asked }
    ensures refused { IsRefused (incoming_value received) asked (Answer.Refused result) }
    ensures declined { IsDeclined (incoming_value received) result }
{
    let answer = refusal(alloc, &asked);
    drop(asked);
    RefusalReply { received, answer }
}

/// The answer of a call that is not executed.
pub(crate) fn refuse(alloc: Global, received: Incoming, asked: Asked) -> Answer
    requires { IsAskedBy (incoming_value received) asked }
    ensures { IsRefused (incoming_value received) asked result }
{
    Answer::Refused(decline(alloc, received, asked))
}

/// The answer to an arrival that was not admitted.
pub(crate) fn refuse_arrival(alloc: Global, arrival: Arrival) -> Answer
    requires { AsksCall arrival }
    ensures { (asked : Asked) → arrival.reading ≡ readings.Asks asked → IsRefused arrival.received asked result }
{
    let (received, reading) = arrival.into_parts();
    match reading {
        Reading::Asks(asked) => refuse(alloc, received, asked),
        Reading::Faulted(_) => unreachable!(),
    }
}

/// The bytes of a call's refusal; None where there is no memory for them.
fn refusal(alloc: Global, asked: &Asked) -> Option<Vec<u8>>
    requires { RefusalHasForm (refusal_of asked.now.call) }
    ensures { IfSome result
        (λ bytes. bytes.items ≡ refusal_message asked.now.xid (refusal_of asked.now.call)) }
{
    let Ok(refusal) = asked.call.refusal() else {
        return None;
    };
    let answer = answers::refuse(alloc, asked.xid, &refusal);
    drop(refusal);
    answer.ok()
}
