//! Answers that may be of any size: those of DUMP and EXPORT (RFC 1813, 5.2.2 and 5.2.5), which list what is mounted
//! and exported. Of every other one there is a bound, of some 64 KiB.

ghost use Rattle.std.specs.Prelude.{◌≡◌, ◌-◌};

use crate::network::account::{Budget, Charge};
use crate::network::counters::called;
use nfs_rpc::{Program, Record};
use std::rt::Clock;
use std::sync::Wait;

/// So many bytes of answers may wait for the peer of each connection: what it gathers, and one answer behind that.
const OWN_ROOM: u64 = 393_216;

/// So many bytes of answers above that may wait, over all connections.
const SHARED_ROOM: u64 = 67_108_864;

/// The procedures DUMP and EXPORT of MOUNT.
const DUMP: u32 = 2;

const EXPORT: u32 = 5;

/// What is listed.
#[derive(Clone, Copy)]
pub(crate) enum Listing {
    /// What is mounted.
    Mounts,
    /// What is exported.
    Exports,
}

impl Listing {
    /// What a record asks to have listed, if it does.
    pub(crate) fn of(record: &Record) -> Option<Listing> {
        match called(record)? {
            (Program::Mount, DUMP) => Some(Listing::Mounts),
            (Program::Mount, EXPORT) => Some(Listing::Exports),
            _ => None,
        }
    }
}

/// Who may have an answer of any size made, and how many bytes of such answers may wait to be taken. Of each kind one
/// is made at a time, so that those which are not counted yet are few.
#[derive(Drop)]
pub(crate) struct Listings {
    mounts: Budget,
    exports: Budget,
    bytes: Budget,
}

impl Listings {
    /// None is made, and none waits.
    pub(crate) fn new() -> Listings {
        Listings {
            mounts: Budget::new(1),
            exports: Budget::new(1),
            bytes: Budget::new(SHARED_ROOM),
        }
    }

    /// The turn to have one made, once nobody else has it; None where it does not come within so many seconds.
    pub(crate) fn begin<R: Wait + Clock>(
        &self,
        rt: &R,
        listing: Listing,
        seconds: u64,
    ) -> Option<Charge> {
        self.turns(listing).take(rt, 1, seconds)
    }

    /// Gives a turn back.
    pub(crate) fn end<R: Wait>(&self, rt: &R, listing: Listing, turn: Charge) {
        self.turns(listing).give(rt, turn);
    }

    /// Room for so many bytes to wait in; None where there is none within so many seconds.
    pub(crate) fn hold<R: Wait + Clock>(
        &self,
        rt: &R,
        size: usize,
        seconds: u64,
    ) -> Option<Charge> {
        self.bytes.take(rt, above_own_room(size), seconds)
    }

    /// Gives room back: nothing waits in it any more.
    pub(crate) fn free<R: Wait>(&self, rt: &R, room: Charge) {
        self.bytes.give(rt, room);
    }

    fn turns(&self, listing: Listing) -> &Budget {
        match listing {
            Listing::Mounts => &self.mounts,
            Listing::Exports => &self.exports,
        }
    }
}

/// How many of so many bytes have no room of their connection's own.
fn above_own_room(size: usize) -> u64
    ensures { result ≡ size - OWN_ROOM }
{
    (size as u64).saturating_sub(OWN_ROOM)
}
