//! Who waits for an address gets it when it is released, also where nobody changes anything.

use super::callers::{Caller, OK, Told};
use super::calls::Ask;
use super::ends::End;
use super::gates::{ALONE, FREE, HELD, HeldUp, Place, Way, comes, count};
use super::pools::{Course, Part, Runs, in_pool};
use nfs_pool::Naming;
use std::alloc::AllocError;
use std::sync::atomic::{AtomicU64, Ordering};
use std::sync::ledger::Ledger;
use std::thread;
use std::time::Duration;

/// How many milliseconds are left to a call, once it is to wait, to begin with that.
const PAUSE: u64 = 50;

/// A call that shares the root and changes nothing is held up before its commit, until another waits for the root
/// alone. Nobody else calls before that one is answered.
#[derive(Drop)]
struct Wakes {
    held: HeldUp,
    /// 1 once the call that waits is answered.
    is_answered: AtomicU64,
    /// 1 where it was not answered in time.
    is_asleep: AtomicU64,
}

impl Wakes {
    /// Lets the first call go once the other one waits, and looks whether that is answered. Else a change of the root
    /// wakes it, so that the test ends.
    fn watch<L: Ledger + Naming, R: Runs>(&self, caller: &mut Caller<L, R>) {
        let meeting = &self.held.meeting;
        if comes(caller.rt, &meeting.waits) {
            thread::sleep(caller.rt, Duration::from_millis(PAUSE));
        }
        meeting.answered.store(1, Ordering::SeqCst);
        if !comes(caller.rt, &self.is_answered) {
            self.is_asleep.store(1, Ordering::SeqCst);
            caller.call(12, Ask::SetMode(0o777));
        }
    }

    /// Makes the call that waits.
    fn wait<L: Ledger + Naming, R: Runs>(&self, caller: &mut Caller<L, R>) -> Told {
        let told = self.held.call_alone(caller);
        self.is_answered.store(1, Ordering::SeqCst);
        told
    }
}

impl Part for Wakes {
    fn acts<L: Ledger + Naming, R: Runs>(&self, caller: &mut Caller<L, R>, number: u32) -> u64 {
        if number == FREE {
            self.watch(caller);
            return 0;
        }
        let told = if number == HELD {
            self.held.call_held(caller)
        } else if number == ALONE {
            self.wait(caller)
        } else {
            return 0;
        };
        u64::from(told == OK)
    }
}

/// Who waits for an address is woken by who releases it, and not before: it waits once, since nobody else has the root.
#[test]
fn a_release_wakes_who_waits(rt: HostRuntime) -> Result<(), AllocError> {
    let wakes = Wakes {
        held: HeldUp::new(Way::Submitted, Place::BeforeCommit, Ask::Getattr),
        is_answered: AtomicU64::new(0),
        is_asleep: AtomicU64::new(0),
    };
    let course = Course {
        seats: 5,
        era_records: 65_536,
        calls: 2,
        end: End::Finished,
    };
    in_pool(&rt, course, &wakes)?;
    assert_eq!(rt; count(&wakes.held.meeting.waits), 1);
    assert_eq!(rt; count(&wakes.is_asleep), 0);
    Ok(())
}
