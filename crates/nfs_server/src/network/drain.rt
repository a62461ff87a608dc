//! The program's end in order: those who answer send their answers first.

use std::rt::Clock;
use std::sync::Wait;
use std::sync::atomic::{AtomicBool, AtomicU64, Ordering};
use std::thread;
use std::time::Duration;

/// How long it is waited for before it is looked again who answers, in milliseconds.
const PAUSE: u64 = 10;

/// How long the system has at the end to send what it took, in milliseconds: what it has not sent to a peer that sends
/// on is lost with the program.
const SETTLE: u64 = 1_000;

/// How many threads are answering, and whether the program is to end.
#[derive(Drop)]
pub(crate) struct Drain {
    answering: AtomicU64,
    has_begun: AtomicBool,
}

impl Drain {
    /// Nobody answers, and the program goes on.
    pub(crate) fn new() -> Drain {
        Drain {
            answering: AtomicU64::new(0),
            has_begun: AtomicBool::new(false),
        }
    }

    /// Somebody begins to answer. Where the program is to end it stays here.
    pub(crate) fn enter<R: Wait + Clock>(&self, rt: &R) {
        self.answering.fetch_add(1, Ordering::SeqCst);
        if !self.has_begun() {
            return;
        }
        self.leave();
        for _ in rt.forever() {
            thread::sleep(rt, Duration::from_millis(PAUSE));
        }
        unreachable!()
    }

    /// Who began to answer has sent its answers, or can't send them.
    pub(crate) fn leave(&self) {
        self.answering.fetch_sub(1, Ordering::SeqCst);
    }

    /// Whether the program is to end.
    pub(crate) fn has_begun(&self) -> bool {
        self.has_begun.load(Ordering::SeqCst)
    }

    /// The program is to end: nobody begins to answer any more. It waits for those who do, and until the system has
    /// sent what it took.
    pub(crate) fn begin<R: Wait + Clock>(&self, rt: &R) {
        self.has_begun.store(true, Ordering::SeqCst);
        for _ in rt.forever() {
            if self.answering.load(Ordering::SeqCst) == 0 {
                thread::sleep(rt, Duration::from_millis(SETTLE));
                return;
            }
            thread::sleep(rt, Duration::from_millis(PAUSE));
        }
        unreachable!()
    }
}
