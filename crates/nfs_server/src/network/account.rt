//! What there is a bounded amount of, and is taken and given back: bytes of answers, and turns.

ghost use Rattle.std.specs.Prelude.{◌≡◌, ◌+◌, ◌-◌, ◌<◌, ◌≤◌, min, nat_le, IfNone, IfSome};

use std::rt::Clock;
use std::sync::{Condvar, Mutex, Wait};
use std::time::Duration;

/// How much of something is taken, and how much may be.
#[derive(Drop)]
pub(crate) struct Account {
    pub(crate) most: u64,
    pub(crate) taken: u64,
    ghost bounded: { taken ≤ most },
}

/// An amount that was taken of an account. It has to be given back.
pub(crate) struct Charge {
    pub(crate) amount: u64,
}

impl Account {
    /// Nothing is taken of so much.
    pub(crate) fn new(most: u64) -> Account
        ensures most { result.most ≡ most }
        ensures none { result.taken ≡ 0 }
    {
        Account { most, taken: 0 }
    }

    /// Whether so much is there; of more than there is in all, all.
    fn has(&self, wanted: u64) -> bool
        ensures { result ≡ nat_le (self.now.taken + min wanted self.now.most) self.now.most }
    {
        wanted.min(self.most) <= self.most - self.taken
    }

    /// Takes so much; of more than there is in all, all. None where that is not there.
    pub(crate) fn take(&mut self, wanted: u64) -> Option<Charge>
        ensures amount { IfSome result (λ charge. charge.amount ≡ min wanted self.old.most) }
        ensures taken { IfSome result (λ charge. self.new.taken ≡ self.old.taken + charge.amount) }
        ensures wanting { IfNone result (self.old.most < self.old.taken + min wanted self.old.most) }
        ensures kept { IfNone result (self.new.taken ≡ self.old.taken) }
        ensures most { self.new.most ≡ self.old.most }
    {
        if !self.has(wanted) {
            return None;
        }
        let amount = wanted.min(self.most);
        self.taken += amount;
        Some(Charge { amount })
    }

    /// Takes back what was taken.
    pub(crate) fn give(&mut self, charge: Charge)
        ensures taken { self.new.taken ≡ self.old.taken - charge.amount }
        ensures most { self.new.most ≡ self.old.most }
    {
        let Charge { amount } = charge;
        self.taken = self.taken.saturating_sub(amount);
    }
}

/// An account that threads share.
#[derive(Drop)]
pub(crate) struct Budget {
    account: Mutex<Account>,
    /// Notified when something was given back.
    given: Condvar,
}

impl Budget {
    /// Nothing is taken of so much.
    pub(crate) fn new(most: u64) -> Budget {
        Budget {
            account: Mutex::new(Account::new(most)),
            given: Condvar::new(),
        }
    }

    /// Takes so much as `Account::take` does, once it is there; None where it is not within so many seconds.
    pub(crate) fn take<R: Wait + Clock>(
        &self,
        rt: &R,
        wanted: u64,
        seconds: u64,
    ) -> Option<Charge> {
        let guard = self.account.lock(rt);
        let limit = Duration::from_secs(seconds);
        let (mut guard, _ended) = self
            .given
            .wait_timeout_while(rt, guard, limit, |account| !account.has(wanted));
        let account = &mut *guard;
        account.take(wanted)
    }

    /// Gives back what was taken.
    pub(crate) fn give<R: Wait>(&self, rt: &R, charge: Charge) {
        let mut guard = self.account.lock(rt);
        let account = &mut *guard;
        account.give(charge);
        drop(guard);
        self.given.notify_all();
    }
}
