//! Which calls are in progress.

ghost use Rattle.std.specs.Prelude.{◌≡◌, ◌-◌, ◌^◌, [], true, IfSome, MatchOption, OnErr, OnOk, Some};
ghost use Rattle.std.specs.Prelude.{option_copied};
ghost use Rattle.std.specs.Bool.{Decides};
ghost use Rattle.nfs_replies.specs.Origins.{Adds, Removes, is_among};
ghost use Rattle.nfs_machine.specs.Run.{FromHost};
ghost use Rattle.nfs_engine.specs.Arrivals.{incoming_value, received_value};
ghost use Rattle.nfs_engine.specs.Repeats.{origin_of};
ghost use Rattle.nfs_engine.specs.Running.{IsBegun, IsInProgress, living_count, origin_at, running_at};
ghost use Rattle.nfs_engine.specs.Running.{without_call};

use crate::arrival::{Incoming, Received};
use bytes::Bytes;
use nfs_machine::Call;
use nfs_replies::{HashedRef, Origin, Origins, RecordKey};
use slab::Slab;
use std::alloc::{AllocError, Global};
use std::marker::Model;
use thiserror::Error;

/// Why a call was not admitted.
#[derive(Debug, Drop, Error, PartialEq, Eq)]
pub enum AdmitError {
    #[error("out of memory")]
    Memory,
    /// 2^64 - 1 calls were admitted before.
    #[error("no number is left")]
    Spent,
}

/// A call that was admitted, and neither committed nor given up.
#[derive(Drop)]
pub struct Running {
    /// No other call ever has it.
    pub id: u64,
    /// What it came with, if it changes something.
    pub origin: Option<Origin>,
}

/// Where a call in progress stands.
#[derive(Clone, Copy)]
pub(crate) struct CallSlot {
    pub id: u64,
    pub key: usize,
}

/// The calls in progress, by their places. Their numbers rise. Those that change something are found by what they came
/// with.
#[derive(Drop)]
pub(crate) struct Calls {
    living: Slab<Running>,
    origins: Origins,
    next_id: u64,
}

impl Model for Calls {
    ghost use Rattle.nfs_engine.specs.Running.{AreOrigins, CallsValue};

    ghost Value = { CallsValue };

    ghost view = { λ c. record { living = c.living.slots; next_id = c.next_id } };

    ghost invariant = { λ c. AreOrigins c.origins c.living.slots };
}

impl Calls {
    /// No call, and the key under which records are hashed.
    pub(crate) fn new(alloc: Global, key: RecordKey) -> Calls
        ensures { result ≡ record { living = []; next_id = 0 } }
    {
        Calls {
            living: Slab::new(alloc),
            origins: Origins::new(alloc, key),
            next_id: 0,
        }
    }

    /// How many there are.
    pub(crate) fn len(&self) -> usize
        ensures { result ≡ living_count self.now.living }
    {
        self.living.len()
    }

    /// Whether one of them changes something, and came from this host as this record.
    pub(crate) fn has(&self, host: &Bytes, sought: HashedRef<'_>) -> bool
        ensures { Decides result
            (IsInProgress self.now.living (record { host = host.now; bytes = sought.entry.bytes.now })) }
    {
        self.origins.has(host, sought)
    }

    /// Whether a call with this number is in progress at this place, and came so.
    pub(crate) fn came_so(&self, key: usize, id: u64, received: &Incoming, call: &Call) -> bool
        ensures { Decides result (running_at self.now.living key ≡
            Some (record { id = id; origin = origin_of (incoming_value received.now) call.now })) }
    {
        match self.living.get(key) {
            Some(running) => running.id == id && is_origin(&running.origin, received, call),
            None => false,
        }
    }

    /// What a call came with, if it is in progress and changes something.
    pub(crate) fn origin(&self, key: usize, id: u64) -> Option<&Origin>
        ensures { option_copied result ≡ origin_at self.now.living key id }
    {
        let running = self.living.get(key)?;
        if running.id != id {
            return None;
        }
        running.origin.as_ref()
    }

    /// Whether no number is left for one more.
    pub(crate) fn is_spent(&self) -> bool
        ensures { Decides result (self.now.next_id ≡ 2 ^ 64 - 1) }
    {
        self.next_id == u64::MAX
    }

    /// One call more, with what it came with, if it changes something. An error changes nothing.
    pub(crate) fn begin(&mut self, origin: Option<Origin>) -> Result<CallSlot, AdmitError>
        requires { IfSome origin (λ o. IsInProgress self.old.living o → ⊥) }
        ensures { IsBegun self.old self.new origin result }
    {
        let id = self.next_id;
        let Some(next_id) = id.checked_add(1) else {
            return Err(AdmitError::Spent);
        };
        let Ok(()) = self.living.reserve(1) else {
            return Err(AdmitError::Memory);
        };
        let Ok(()) = note(&mut self.origins, &origin) else {
            return Err(AdmitError::Memory);
        };
        let key = self.living.insert_reserved(Running { id, origin });
        self.next_id = next_id;
        Ok(CallSlot { id, key })
    }

    /// This call is no longer in progress.
    pub(crate) fn end(&mut self, key: usize, id: u64)
        ensures ended { self.new ≡ record self.old { living = without_call self.old.living key id } }
        ensures gone { IfSome (origin_at self.old.living key id) (λ o. IsInProgress self.new.living o → ⊥) }
    {
        let Some(running) = self.living.get(key) else {
            return;
        };
        if running.id != id {
            return;
        }
        let Some(Running { id: _, origin }) = self.living.try_remove(key) else {
            return;
        };
        forget(&mut self.origins, origin);
    }
}

/// Whether this is what a call came with, if it changes something.
fn is_origin(origin: &Option<Origin>, received: &Incoming, call: &Call) -> bool
    ensures { Decides result (origin.now ≡ origin_of (incoming_value received.now) call.now) }
{
    match received {
        Incoming::Record(received) => is_origin_of_record(origin, received, call),
        Incoming::Exports(..) => origin.is_none(),
    }
}

/// The same of a call that a record asks.
fn is_origin_of_record(origin: &Option<Origin>, received: &Received, call: &Call) -> bool
    ensures { Decides result (origin.now ≡ origin_of (FromHost (received_value received.now)) call.now) }
{
    match origin {
        Some(origin) => {
            call.is_changing()
                && origin.host == *received.host.text()
                && *origin.bytes.bytes() == received.message
        }
        None => !call.is_changing(),
    }
}

/// Notes what a call came with, if it changes something. An error changes nothing.
fn note(origins: &mut Origins, origin: &Option<Origin>) -> Result<(), AllocError>
    ensures noted { OnOk result (MatchOption origin.now (origins.new ≡ origins.old)
        (λ o. Adds o origins.old origins.new)) }
    ensures err { OnErr result (origins.new ≡ origins.old) }
{
    match origin {
        Some(origin) => origins.add(origin.share()?),
        None => Ok(()),
    }
}

/// Takes out what a call came with that is over.
fn forget(origins: &mut Origins, origin: Option<Origin>)
    requires { IfSome origin (λ o. is_among origins.old o ≡ true) }
    ensures { MatchOption origin (origins.new ≡ origins.old) (λ o. Removes o origins.old origins.new) }
{
    if let Some(origin) = origin {
        origins.take_out(&origin);
    }
}
