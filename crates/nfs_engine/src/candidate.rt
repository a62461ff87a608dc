//! What the admission of a call wants, made before it.

ghost use Rattle.std.specs.Prelude.{◌≡◌, IfOk, IfErr};
ghost use Rattle.nfs_machine.specs.Run.{FromHost};
ghost use Rattle.nfs_engine.specs.Arrivals.{incoming_value, received_value};
ghost use Rattle.nfs_engine.specs.Book.{Prepares};
ghost use Rattle.nfs_engine.specs.Candidates.{IsAskedSo, candidate_value};
ghost use Rattle.nfs_engine.specs.Repeats.{origin_of};

use crate::admission::Faulted;
use crate::arrival::{Arrival, Incoming, Received};
use crate::request::Request;
use nfs_machine::Call;
use nfs_replies::{Origin, RecordKey};
use std::alloc::AllocError;
use std::marker::Model;

/// What came in and asks a call, with all that the call's admission wants. A clause sees it as the arrival.
#[derive(Drop)]
pub struct Candidate {
    pub(crate) request: Box<Request>,
    /// What a repeat of it would come with, if it changes something.
    pub(crate) origin: Option<Origin>,
}

impl Model for Candidate {
    ghost use Rattle.nfs_engine.specs.Arrivals.{ArrivalValue};
    ghost use Rattle.nfs_engine.specs.Candidates.{IsCandidate, candidate_value};

    ghost Value = { ArrivalValue };

    ghost view = { λ c. candidate_value c.request.value };

    ghost invariant = { λ c. IsCandidate c.request.value c.origin };
}

/// What came in, as its admission takes it.
#[derive(Drop)]
pub enum Prepared {
    /// It asks a call.
    Call(Candidate),
    /// It is a record with a fault.
    Early(Faulted),
}

impl Arrival {
    /// Makes what the admission wants memory for, so that an admission under a lock wants little. A record that changes
    /// something is hashed under this key, which should be the book's: where it is another, the book hashes it again.
    ///
    /// # Errors
    ///
    /// It asks a call that changes something, and there is no memory for one more owner: the arrival is handed back.
    #[inline(always)]
    pub fn prepare(self, key: RecordKey) -> Result<Prepared, Arrival>
        ensures { Prepares self result }
    {
        match self.into_came() {
            Ok(request) => Ok(Prepared::Call(Candidate::new(key, request)?)),
            Err(faulted) => Ok(Prepared::Early(faulted)),
        }
    }
}

impl Candidate {
    /// The candidate of the call that has this place.
    ///
    /// # Errors
    ///
    /// The arrival, where there is no memory for what a repeat of it would come with.
    #[inline(always)]
    fn new(key: RecordKey, request: Box<Request>) -> Result<Candidate, Arrival>
        requires { IsAskedSo request.value }
        ensures made { IfOk result (λ candidate. candidate ≡ candidate_value request.value) }
        ensures back { IfErr result (λ arrival. arrival ≡ candidate_value request.value) }
    {
        match origin_of(key, &request.received, &request.call) {
            Ok(origin) => Ok(Candidate { request, origin }),
            Err(AllocError) => Err(Arrival::asking(request)),
        }
    }

    /// The arrival.
    pub fn into_arrival(self) -> Arrival
        ensures { result ≡ self }
    {
        let Candidate { request, origin } = self;
        drop(origin);
        Arrival::asking(request)
    }

    /// What came in.
    pub(crate) fn into_received(self) -> Incoming
        ensures { incoming_value result ≡ self.received }
    {
        let Candidate { request, origin } = self;
        drop(origin);
        let (received, asked) = Box::into_inner(request).into_parts();
        drop(asked);
        received
    }
}

/// What a call came with, if it changes something.
fn origin_of(key: RecordKey, received: &Incoming, call: &Call) -> Result<Option<Origin>, AllocError>
    ensures { IfOk result (λ origin. origin ≡ origin_of (incoming_value received.now) call.now) }
{
    match received {
        Incoming::Record(received) => origin_of_record(key, received, call),
        Incoming::Exports(..) => Ok(None),
    }
}

/// The same of a call that a record asks.
fn origin_of_record(
    key: RecordKey,
    received: &Received,
    call: &Call,
) -> Result<Option<Origin>, AllocError>
    ensures { IfOk result (λ origin. origin ≡ origin_of (FromHost (received_value received.now)) call.now) }
{
    if !call.is_changing() {
        return Ok(None);
    }
    Ok(Some(received.origin(key)?))
}
