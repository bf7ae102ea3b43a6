// How fast a pass reads.
ghost use Rattle.std.specs.Prelude.{◌≡◌, ◌+◌, ◌-◌, ◌*◌, ◌/◌, ◌<◌, ◌≤◌, ◌^◌};
ghost use Rattle.silt_care.specs.Scrubs.{least_micros};

use std::thread;
use std::time::{Clock, Duration, Instant};

/// How fast a pass reads: at most this many megabytes (of 1,000,000 bytes) in a second.
#[derive(Clone, Copy, Debug, PartialEq, Eq)]
pub struct Pace {
    rate: u32,
    ghost some: { 0 < rate },
}

impl Pace {
    /// A pace of this many megabytes a second, at least 1.
    pub fn new(rate: u32) -> Pace
        ensures { 0 < rate → result.rate ≡ rate }
    {
        Pace { rate: rate.max(1) }
    }

    /// How many microseconds it takes at least to read so many bytes: a byte in each at 1 megabyte a second.
    pub fn micros(self, bytes: u64) -> u64
        requires { bytes < 2 ^ 63 }
        ensures { result ≡ least_micros self.rate bytes }
    {
        let rate = u64::from(self.rate);
        (bytes + (rate - 1)) / rate
    }

    // Waits until so many bytes may have been read since this moment. Without a clock it waits for all of that time.
    pub(crate) fn wait<R: Clock>(self, rt: &R, began: Option<Instant>, bytes: u64)
        requires { bytes < 2 ^ 63 }
    {
        let due = Duration::from_micros(self.micros(bytes));
        let spent = match (began, Instant::now(rt)) {
            (Some(began), Ok(now)) => now.saturating_duration_since(began),
            _ => Duration::ZERO,
        };
        thread::sleep(rt, due.saturating_sub(spent));
    }
}
