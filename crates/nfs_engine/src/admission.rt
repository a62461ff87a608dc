//! What admitting what came in comes to.

use crate::arrival::{Arrival, Incoming};
use crate::asking::Asked;
use crate::calls::Txn;
use crate::kept::Kept;

/// A record with a fault, and its answer.
#[derive(Drop)]
pub struct Faulted {
    pub received: Incoming,
    /// None where the record is dropped.
    pub answer: Option<Vec<u8>>,
}

/// What admitting what came in comes to.
pub enum Admission {
    /// Its call is in progress.
    Begin(Txn),
    /// It came before and changed something; this is the reply that it got.
    Repeat(Kept),
    /// It changes something, and a call that came with the same is in progress.
    Running(Arrival),
    /// It has a fault.
    Early(Faulted),
}

/// A call that was given up: it is not executed.
#[derive(Drop)]
pub struct Refused {
    pub received: Incoming,
    pub asked: Asked,
}
