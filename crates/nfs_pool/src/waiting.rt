//! Who waits for an address alone, so that others give way there.

use nfs_objects::Addr;
use std::sync::Wait;
use std::sync::atomic::{AtomicU64, Ordering};
use std::time::Duration;

/// How long one gives way at most, in milliseconds.
const PATIENCE: u64 = 1;

/// In a word: somebody sleeps until it changes.
const ASLEEP: u64 = 1;

/// Which address of a shard somebody waits for alone, by its mark, or 0; and whether others sleep meanwhile. Of several
/// addresses that are waited for at once it tells one.
#[derive(Drop)]
pub(crate) struct Awaited {
    word: AtomicU64,
}

impl Awaited {
    /// Nobody waits.
    pub(crate) fn new() -> Awaited {
        Awaited {
            word: AtomicU64::new(0),
        }
    }

    /// Somebody waits for this address alone. Nothing changes where another is told.
    pub(crate) fn note(&self, address: Addr) {
        let _ = self
            .word
            .compare_exchange(0, mark_of(address), Ordering::SeqCst, Ordering::SeqCst);
    }

    /// This address is told no more, and who sleeps meanwhile is woken.
    pub(crate) fn forget(&self, address: Addr) {
        if self.is(address) && self.word.swap(0, Ordering::SeqCst) & ASLEEP != 0 {
            self.word.wake_all();
        }
    }

    /// Sleeps while this address is told, but not for long.
    pub(crate) fn give_way<R: Wait>(&self, rt: &R, address: Addr) {
        if !self.is(address) {
            return;
        }
        let asleep = mark_of(address) | ASLEEP;
        let _ = self.word.compare_exchange(
            mark_of(address),
            asleep,
            Ordering::SeqCst,
            Ordering::SeqCst,
        );
        // It returns at once where the word's lower half is another by now.
        let lower = (asleep % (1 << 32)) as u32;
        self.word
            .park_timeout(rt, lower, Duration::from_millis(PATIENCE));
    }

    /// Whether this address is told.
    fn is(&self, address: Addr) -> bool {
        let word = self.word.load(Ordering::SeqCst);
        word != 0 && word & !ASLEEP == mark_of(address)
    }
}

/// What stands for an address in a word: an even number. 0 for an address that no call wants before all others: nobody
/// gives way there.
fn mark_of(address: Addr) -> u64 {
    match address {
        Addr::Exports => 4,
        Addr::Inode(number) => number.wrapping_mul(4) | 2,
        _ => 0,
    }
}
