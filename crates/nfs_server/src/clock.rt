//! The clocks of the server: one that stands still, and the machine's.

ghost use Rattle.std.specs.Prelude.{◌≡◌, ◌+◌, ◌*◌, ◌^◌, ◌<◌, ◌↔◌, IsSome, IfOk, IfSome};
ghost use Rattle.nfs_machine.specs.declared.moment.Moment.{Moment};
ghost use Rattle.std.specs.Duration.{as_nanos};
ghost use Rattle.std.specs.Time.{system_time_nanos};
ghost use Rattle.nfs_server.specs.Clocks.{GoesOn, IsMomentAfter, IsNotBefore, number_after, number_of, word_of};

use nfs_machine::{Moment, Moments};
use std::alloc::AllocError;
use std::rt::Clock;
use std::sync::Arc;
use std::sync::atomic::{AtomicU64, Ordering};
use std::time::{Duration, SystemTime, UNIX_EPOCH};

/// A clock that stands still: every moment is the beginning of one second.
#[derive(Clone, Copy, Debug, PartialEq, Eq)]
pub struct FixedClock {
    /// Seconds since 1970.
    pub seconds: u32,
}

impl Moments for FixedClock {
    ghost use Rattle.nfs_server.specs.Clocks.{StandsStill};

    ghost gives = { StandsStill };

    fn moment(&mut self) -> Moment {
        Moment {
            seconds: self.seconds,
            nanoseconds: 0,
        }
    }
}

/// The latest moment that the clocks of a server gave, which none of them goes behind.
#[derive(Drop)]
pub struct Latest {
    /// Its seconds, and behind them its nanoseconds in 32 bits.
    word: AtomicU64,
}

impl Latest {
    /// This moment was given.
    pub fn new(moment: Moment) -> Latest {
        Latest {
            word: AtomicU64::new(word_of(moment)),
        }
    }

    /// A moment, or the latest one that was given, where that is later. It is the latest one then.
    pub fn reached(&self, moment: Moment) -> Moment
        ensures { IsNotBefore moment result }
    {
        let before = self.word.fetch_max(word_of(moment), Ordering::SeqCst);
        later(moment, before)
    }
}

/// The machine's clock. Where it can't be read, or its time is no moment, or one before the last moment given, it gives
/// that again.
#[derive(Drop)]
pub struct MachineClock<C> {
    clock: C,
    /// The last moment given.
    pub last: Moment,
    /// The latest moment given by the clocks of the same server, where there are others.
    latest: Option<Arc<Latest>>,
}

impl<C> MachineClock<C> {
    /// A clock that has given no moment yet: as its last one stands the first of 1970.
    pub fn new(clock: C) -> MachineClock<C>
        ensures { (result.last.seconds ≡ 0) × (result.last.nanoseconds ≡ 0) }
    {
        MachineClock {
            clock,
            last: Moment {
                seconds: 0,
                nanoseconds: 0,
            },
            latest: None,
        }
    }

    // The next moment, so long after 1970 began as the machine says: the last one again where that is not known, or is
    // no moment. It is never before the last one.
    fn goes_on(&mut self, since_1970: Option<Duration>) -> Moment
        ensures moment { GoesOn since_1970 self.old.last result }
        ensures last { self.new.last ≡ result }
        ensures clock { self.new.clock ≡ self.old.clock }
    {
        let told = moment_after(since_1970, self.last);
        let moment = later(told, word_of(self.last));
        self.last = reached(&self.latest, moment);
        self.last
    }
}

impl<C: Clock> Moments for MachineClock<C> {
    ghost use Rattle.nfs_server.specs.Clocks.{RemembersLast};

    ghost gives = { RemembersLast };

    fn moment(&mut self) -> Moment {
        let since_1970 = since_1970(&self.clock);
        self.goes_on(since_1970)
    }
}

/// The server's clock: one that stands still, or the machine's.
#[derive(Drop)]
pub enum ServerClock<C> {
    /// The one that stands still.
    Fixed(FixedClock),
    /// The machine's.
    Machine(MachineClock<C>),
}

impl<C> ServerClock<C> {
    ghost use Rattle.nfs_server.specs.Clocks.{IsClockOf};

    /// A clock that stands still at this second, or where none is given the machine's clock.
    pub fn new(clock: C, seconds: Option<u32>) -> ServerClock<C>
    where
        C: Drop,
        ensures { IsClockOf seconds result }
    {
        match seconds {
            Some(seconds) => ServerClock::Fixed(FixedClock { seconds }),
            None => ServerClock::Machine(MachineClock::new(clock)),
        }
    }

    /// The same, where the moments of the machine's clock go behind none that a clock of the same server gave.
    ///
    /// # Errors
    ///
    /// The latest moment has too many owners.
    pub fn beside(
        clock: C,
        seconds: Option<u32>,
        latest: &Arc<Latest>,
    ) -> Result<ServerClock<C>, AllocError>
    where
        C: Drop,
        ensures { IfOk result (IsClockOf seconds) }
    {
        let mut clock = ServerClock::new(clock, seconds);
        if let ServerClock::Machine(machine) = &mut clock {
            machine.latest = Some(Arc::try_clone(latest)?);
        }
        Ok(clock)
    }
}

impl<C: Clock> Moments for ServerClock<C> {
    ghost use Rattle.nfs_server.specs.Clocks.{Gives};

    ghost gives = { Gives };

    fn moment(&mut self) -> Moment {
        match self {
            ServerClock::Fixed(clock) => clock.moment(),
            ServerClock::Machine(clock) => clock.moment(),
        }
    }
}

/// A start number for handles: the nanoseconds of the machine's clock, 0 where they can't be read as a u64.
pub fn start_number(clock: &impl Clock) -> u64 {
    number_after(since_1970(clock))
}

fn since_1970(clock: &impl Clock) -> Option<Duration> {
    let now = SystemTime::now(clock).ok()?;
    Some(time_since_1970(now))
}

// How long after 1970 began the system's time is, which is never before it.
fn time_since_1970(now: SystemTime) -> Duration
    ensures { as_nanos result ≡ system_time_nanos now }
{
    let Ok(since) = now.duration_since(UNIX_EPOCH) else {
        unreachable!()
    };
    since
}

// A moment as a word: that of a later one is greater.
fn word_of(moment: Moment) -> u64
    ensures { result ≡ word_of moment }
{
    u64::from(moment.seconds) * (1 << 32) + u64::from(moment.nanoseconds)
}

// A moment, or that which is this word, where that is later.
fn later(moment: Moment, word: u64) -> Moment
    ensures own { IsNotBefore moment result }
    ensures other { (last : Moment) → word ≡ word_of last → IsNotBefore last result }
{
    if word <= word_of(moment) {
        return moment;
    }
    let (seconds, nanoseconds) = (word / (1 << 32), word % (1 << 32));
    Moment::new(seconds as u32, nanoseconds as u32).unwrap_or(moment)
}

// A moment, or the latest one that was given, where that is later.
fn reached(latest: &Option<Arc<Latest>>, moment: Moment) -> Moment
    ensures { IsNotBefore moment result }
{
    match latest {
        Some(latest) => latest.reached(moment),
        None => moment,
    }
}

// The moment that is so long after 1970 began; the last one again where that is not known, or no moment.
fn moment_after(since_1970: Option<Duration>, last: Moment) -> Moment
    ensures { IsMomentAfter since_1970 last result }
{
    match since_1970 {
        Some(since) => moment_at(since).unwrap_or(last),
        None => last,
    }
}

// The moment that is so long after 1970 began; None where its seconds are no u32.
fn moment_at(since_1970: Duration) -> Option<Moment>
    ensures in_range { IsSome result ↔ (as_nanos since_1970 < 2 ^ 32 * 1_000_000_000) }
    ensures value { IfSome result (λ moment.
        moment.seconds * 1_000_000_000 + moment.nanoseconds ≡ as_nanos since_1970) }
{
    let seconds = u32::try_from(since_1970.as_secs()).ok()?;
    Some(Moment {
        seconds,
        nanoseconds: since_1970.subsec_nanos(),
    })
}

// The nanoseconds since 1970; 0 where these are not known, or no u64.
fn number_after(since_1970: Option<Duration>) -> u64
    ensures { result ≡ number_after since_1970 }
{
    match since_1970 {
        Some(since) => number_at(since),
        None => 0,
    }
}

fn number_at(since_1970: Duration) -> u64
    ensures { result ≡ number_of (as_nanos since_1970) }
{
    u64::try_from(since_1970.as_nanos()).unwrap_or(0)
}
