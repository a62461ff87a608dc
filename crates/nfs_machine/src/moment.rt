//! Moments, and clocks that give them.

ghost use Rattle.std.specs.Prelude.{◌≡◌, ◌↔◌, ◌<◌, IsSome, IfSome};

use nfs_wire::Time;

/// How many nanoseconds a second has.
const NANOSECONDS: u32 = 1_000_000_000;

/// A time since 1970: seconds, and nanoseconds below 1,000,000,000.
#[derive(Clone, Copy, PartialEq, Eq)]
pub struct Moment {
    pub seconds: u32,
    pub nanoseconds: u32,
    pub ghost in_range: { nanoseconds < 1000000000 },
}

impl Moment {
    ghost use Rattle.nfs_machine.specs.Times.{time_of};

    /// The moment of this second and nanosecond; None where there are 1,000,000,000 nanoseconds or more.
    pub fn new(seconds: u32, nanoseconds: u32) -> Option<Moment>
        ensures in_range { IsSome result ↔ (nanoseconds < 1000000000) }
        ensures value { IfSome result
            (λ moment. (moment.seconds ≡ seconds) × (moment.nanoseconds ≡ nanoseconds)) }
    {
        if nanoseconds < NANOSECONDS {
            Some(Moment {
                seconds,
                nanoseconds,
            })
        } else {
            None
        }
    }

    /// As NFS shows it (RFC 1813, 2.5: nfstime3).
    pub fn time(self) -> Time
        ensures { result ≡ time_of self }
    {
        Time {
            seconds: self.seconds,
            nanoseconds: self.nanoseconds,
        }
    }
}

/// A clock.
pub trait Moments {
    ghost use Rattle.nfs_machine.specs.declared.moment.Moment.{Moment};

    /// Which moments it may give, from one state to the next.
    ghost gives: { Self → Moment → Self → Type 0 } = { λ _ _ _. Unit {0} };

    /// The present moment.
    fn moment(&mut self) -> Moment
        ensures { gives self.old result self.new };
}
