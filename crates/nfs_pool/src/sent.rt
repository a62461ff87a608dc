//! What callers are told.

use nfs_engine::{Arrival, Faulted, Finished, Incoming, Kept};
use nfs_objects::{Addr, Mode};
use nfs_schedule::RefusalReply;

/// How what came in was answered.
#[derive(Drop)]
pub enum Sent {
    /// Its call was executed: the seat's last receipt is of it, and has the bytes of the reply.
    Executed,
    /// It came before, and gets the reply that is kept; its call is not executed again.
    Repeated(Kept),
    /// Its call was refused, for want of memory or of a number, and changed nothing.
    Refused(RefusalReply),
    /// It has a fault.
    Early(Faulted),
    /// It has no reply: a call that came with the same is in progress.
    Unanswered(Incoming),
}

/// Why what came in was not taken in. Nothing is executed, and it is handed back.
#[derive(Drop)]
pub enum PoolError {
    /// There is no memory for one more receipt in the seat.
    Memory(Arrival),
    /// The era is full.
    EraFull(Arrival),
}

/// Why an era was not ended. Nothing is changed.
#[derive(Clone, Copy, Debug, PartialEq, Eq)]
pub enum FinishError {
    /// A seat of the pool is not given, or a record has no equal receipt in those that are.
    Missing,
    /// There is no memory.
    Memory,
}

/// Why what came in was not admitted. It is handed back.
#[derive(Drop)]
pub enum Unadmitted {
    /// The era is full.
    EraFull(Arrival),
    /// There is no memory, or no number.
    Refused(Arrival),
}

/// Why a call comes to no end as it stands.
#[derive(Clone, Copy, PartialEq, Eq)]
pub enum Reason {
    /// There is no memory, or no number.
    Memory,
    /// What it has read does not stand any more: it begins anew. Nothing that the pool does leads to that.
    Stale,
    /// Another call holds an address in a mode that excludes this one: it begins anew when none does.
    Taken(Addr, Mode),
}

/// A call that was not committed. It has to be spent.
pub struct Uncommitted {
    /// The call.
    pub finished: Finished,
    /// Why.
    pub reason: Reason,
}
