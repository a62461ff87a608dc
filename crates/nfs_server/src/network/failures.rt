//! Addresses that are passed over, since a connection to them failed.

ghost use Rattle.std.specs.Prelude.{◌≡◌, MatchBool};
ghost use Rattle.std.specs.Bool.{Decides};
ghost use Rattle.std.specs.List.{All};
ghost use Rattle.std.specs.Time.{instant_nanos};
ghost use Rattle.nfs_server.specs.PassedOver.{IsCalled, IsPassedOver, Stops, rest_end};

use std::alloc::{AllocError, Global};
use std::net::SocketAddr;
use std::time::{Duration, Instant};

/// How long an address is passed over, in seconds.
const REST: u64 = 10;

/// An address to which a connection failed, and until when it is passed over.
#[derive(Clone, Copy)]
pub(crate) struct Failure {
    pub(crate) address: SocketAddr,
    pub(crate) until: Instant,
}

/// The last failure at each address, but for those that were long ago.
#[derive(Drop)]
pub(crate) struct Failures {
    pub(crate) list: Vec<Failure>,
}

impl Failure {
    /// Whether it has an address passed over at this moment.
    fn stops(&self, address: SocketAddr, now: Instant) -> bool
        ensures { Decides result (Stops address now self.now) }
    {
        self.address == address && self.until.checked_duration_since(now).is_some()
    }
}

impl Failures {
    /// No failure, and room for those of so many addresses.
    ///
    /// # Errors
    ///
    /// There is no memory for that.
    pub(crate) fn new(alloc: Global, most: usize) -> Result<Failures, AllocError> {
        Ok(Failures {
            list: Vec::with_capacity(alloc, most)?,
        })
    }

    /// Whether an address is passed over at this moment.
    pub(crate) fn has(&self, address: SocketAddr, now: Instant) -> bool
        ensures { MatchBool result (IsPassedOver self.now.list.items address now)
            (IsCalled self.now.list.items address now) }
    {
        self.list.iter().any(|failure| failure.stops(address, now))
    }

    /// Has an address passed over from this moment on. Where there is no memory for one more it is not.
    pub(crate) fn add(&mut self, address: SocketAddr, now: Instant)
        ensures { All (λ failure. failure.address ≡ address → instant_nanos failure.until ≡ rest_end now)
            self.new.list.items }
    {
        self.list.retain(|failure| failure.address != address && now <= failure.until);
        if let Some(until) = now.checked_add(Duration::from_secs(REST)) {
            let _ = self.list.push(Failure { address, until });
        }
    }
}
