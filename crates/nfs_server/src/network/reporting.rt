//! The thread that says how the server is: in lines on standard error.

use crate::network::counters::{CountedEvent, Counters, Gauge};
use std::alloc::Global;
use std::rt::Clock;
use std::sync::{Arc, Wait};
use std::thread;
use std::time::Duration;

/// How many seconds lie between two lines on one kind of trouble, at least.
const REST: u64 = 10;

/// A kind of trouble that whoever operates the server has to know of.
struct Trouble {
    event: CountedEvent,
    /// What happened so often.
    text: &'static str,
}

/// How many kinds there are.
const KINDS: usize = 8;

/// The kinds of trouble.
const TROUBLES: [Trouble; KINDS] = [
    Trouble {
        event: CountedEvent::TurnedAway,
        text: "connections above --connections",
    },
    Trouble {
        event: CountedEvent::NoDescriptor,
        text: "times no descriptor was left to take a connection",
    },
    Trouble {
        event: CountedEvent::NoThread,
        text: "connections closed as no thread could be started",
    },
    Trouble {
        event: CountedEvent::Refused,
        text: "calls refused, for want of memory or of a number",
    },
    Trouble {
        event: CountedEvent::Starved,
        text: "connections closed for want of memory",
    },
    Trouble {
        event: CountedEvent::DatagramDropped,
        text: "datagrams dropped for want of memory",
    },
    Trouble {
        event: CountedEvent::CallbackFailed,
        text: "callbacks that failed",
    },
    Trouble {
        event: CountedEvent::Dropped,
        text: "messages dropped",
    },
];

/// What says how the server is.
#[derive(Drop)]
pub(crate) struct Reporter {
    pub(crate) counters: Arc<Counters>,
    /// Every how many seconds the counts are told; 0: never.
    pub(crate) stats: u64,
}

impl Reporter {
    /// Says what is to be said, for ever.
    pub(crate) fn work<R: Wait + Clock + Eprint>(&self, rt: &R, alloc: Global) {
        let mut told = [0u64; KINDS];
        let mut seconds: u64 = 0;
        for _ in rt.forever() {
            thread::sleep(rt, Duration::from_secs(1));
            seconds = seconds.saturating_add(1);
            if seconds % REST == 0 {
                self.tell_troubles(rt, &mut told);
            }
            if self.stats > 0 && seconds % self.stats == 0 {
                tell(rt, alloc, &self.counters);
            }
        }
        unreachable!()
    }

    /// Says which trouble there was since it was said last.
    fn tell_troubles<R: Eprint>(&self, rt: &R, told: &mut [u64; KINDS]) {
        for (trouble, before) in TROUBLES.iter().zip(told.iter_mut()) {
            let now = self.counters.of(trouble.event);
            let count = now.saturating_sub(*before);
            if count > 0 {
                self.tell_trouble(rt, trouble, count);
            }
            *before = now;
        }
    }

    /// Says that there was this trouble so often.
    fn tell_trouble<R: Eprint>(&self, rt: &R, trouble: &Trouble, count: u64) {
        let text = trouble.text;
        let _ = if let CountedEvent::TurnedAway = trouble.event {
            let places = self.counters.level(Gauge::Places);
            eprintln!(rt; "nfsd: {text} {places}, closed at once: {count}")
        } else {
            eprintln!(rt; "nfsd: {text}: {count}")
        };
    }
}

/// Says all counts, in one line.
pub(crate) fn tell<R: Eprint>(rt: &R, alloc: Global, counters: &Counters) {
    if let Ok(words) = counters.words(alloc) {
        let _ = eprintln!(rt; "nfsd: stats{words}");
    }
}
