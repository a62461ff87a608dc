//! An open connection, as its own thread and who lets others in see it.

use std::io;
use std::io::ErrorKind;
use std::net::{Shutdown, TcpStream};
use std::sync::atomic::{AtomicU64, Ordering};
use std::time::Instant;

/// What came over it is answered now.
const BUSY: u64 = u64::MAX;

/// Another connection has its place.
const GAVE_WAY: u64 = u64::MAX - 1;

/// A connection's stream, and since when nothing came over it.
#[derive(Drop)]
pub(crate) struct Presence {
    pub(crate) stream: TcpStream,
    /// Milliseconds are counted from then on.
    origin: Instant,
    /// Since which millisecond nothing came, or one of the words above.
    state: AtomicU64,
}

impl Presence {
    /// A connection that begins now.
    pub(crate) fn new(stream: TcpStream, origin: Instant, now: Instant) -> Presence {
        Presence {
            stream,
            origin,
            state: AtomicU64::new(millis(origin, now)),
        }
    }

    /// Nothing has come since then: another connection may have its place.
    ///
    /// # Errors
    ///
    /// Another one has its place.
    pub(crate) fn rest(&self, since: Instant) -> io::Result<()> {
        closing(
            self.state
                .swap(millis(self.origin, since), Ordering::SeqCst),
        )
    }

    /// Something has come, and is answered now.
    ///
    /// # Errors
    ///
    /// As `rest`.
    pub(crate) fn wake(&self) -> io::Result<()> {
        closing(self.state.swap(BUSY, Ordering::SeqCst))
    }

    /// Since which millisecond nothing came; None where what came is answered now.
    pub(crate) fn since(&self) -> Option<u64> {
        let state = self.state.load(Ordering::SeqCst);
        if state < GAVE_WAY { Some(state) } else { None }
    }

    /// Closes it for another one, where nothing came since that millisecond. Its thread ends then.
    pub(crate) fn give_way(&self, since: u64) -> bool {
        let closed = self
            .state
            .compare_exchange(since, GAVE_WAY, Ordering::SeqCst, Ordering::SeqCst)
            .is_ok();
        if closed {
            let _ = self.stream.shutdown(Shutdown::Both);
        }
        closed
    }
}

/// Whether a connection that was in this state goes on.
fn closing(state: u64) -> io::Result<()> {
    if state == GAVE_WAY {
        Err(io::Error::from(ErrorKind::ConnectionAborted))
    } else {
        Ok(())
    }
}

/// How many milliseconds lie between.
pub(crate) fn millis(origin: Instant, now: Instant) -> u64 {
    let passed = now.duration_since(origin);
    passed
        .as_secs()
        .saturating_mul(1000)
        .saturating_add(u64::from(passed.subsec_millis()))
        .min(GAVE_WAY - 1)
}
