//! What the server's clock makes of the machine's, which a contract cannot speak of.

use nfs_machine::{Moment, Moments};
use nfs_server::{Latest, ServerClock, start_number};
use std::alloc::AllocError;
use std::cell::Cell;
use std::io;
use std::rt::Clock;
use std::sync::Arc;
use std::time::Duration;

/// A clock that gives the time that was set, or none.
#[derive(Drop)]
struct SetClock {
    time: Cell<Option<Duration>>,
}

impl Clock for SetClock {
    fn monotonic(&self) -> io::Result<Duration> {
        Ok(Duration::ZERO)
    }

    fn since_1970(&self) -> io::Result<Duration> {
        match self.time.get() {
            Some(time) => Ok(time),
            None => Err(io::Error::from(io::ErrorKind::Other)),
        }
    }
}

fn set(time: Option<Duration>) -> SetClock {
    SetClock {
        time: Cell::new(time),
    }
}

#[test]
fn the_machine_s_clock_falls_back_on_the_last_moment(rt: HostRuntime) {
    let times = set(None);
    let mut clock = ServerClock::new(&times, None);
    let given = [
        (None, (0, 0)),
        (Some(Duration::from_secs(7)), (7, 0)),
        (Some(Duration::from_secs(4_294_967_296)), (7, 0)),
        (Some(Duration::from_secs(u64::MAX)), (7, 0)),
        (Some(Duration::new(1000, 5)), (1000, 5)),
        (None, (1000, 5)),
        (Some(Duration::new(1000, 4)), (1000, 5)),
        (
            Some(Duration::new(4_294_967_295, 999_999_999)),
            (4_294_967_295, 999_999_999),
        ),
    ];
    for (time, (seconds, nanoseconds)) in given {
        times.time.set(time);
        let moment = clock.moment();
        assert_eq!(rt;
            (moment.seconds, moment.nanoseconds),
            (seconds, nanoseconds),
            "at {time:?}"
        );
    }
}

/// The first moment of a clock beside this latest moment, at this time.
fn moment_beside(latest: &Arc<Latest>, time: Duration) -> Result<(u32, u32), AllocError> {
    let time = set(Some(time));
    let mut clock = ServerClock::beside(&time, None, latest)?;
    let moment = clock.moment();
    Ok((moment.seconds, moment.nanoseconds))
}

/// A clock gives no moment before one that another clock of its server gave.
#[test]
fn clocks_of_a_server_go_behind_none_of_theirs(rt: HostRuntime) -> Result<(), AllocError> {
    let begin = Moment {
        seconds: 0,
        nanoseconds: 0,
    };
    let latest = Arc::new(rt.alloc(), Latest::new(begin))?;
    let given = [
        (Duration::new(1000, 5), (1000, 5)),
        (Duration::from_secs(999), (1000, 5)),
        (Duration::from_secs(1001), (1001, 0)),
    ];
    for (time, moment) in given {
        assert_eq!(rt; moment_beside(&latest, time)?, moment, "at {time:?}");
    }
    Ok(())
}

#[test]
fn a_start_number_is_nanoseconds(rt: HostRuntime) {
    let numbers = [
        (None, 0),
        (Some(Duration::new(5, 6)), 5_000_000_006),
        (Some(Duration::from_nanos(u64::MAX)), u64::MAX),
        (Some(Duration::new(18_446_744_073, 709_551_616)), 0),
    ];
    for (time, number) in numbers {
        assert_eq!(rt; start_number(&set(time)), number, "at {time:?}");
    }
}
