// How long single calls took.
ghost use Rattle.std.specs.Prelude.{◌≡◌, ◌<◌, max};

use std::io;
use std::time::{Clock, Instant};

/// The number of bins.
const BINS: usize = 4096;

/// How many calls took how long, and the nanoseconds of the longest one.
#[derive(Drop)]
pub struct Pauses {
    counts: [u32; BINS],
    longest: u64,
}

// The bin of a call of this many microseconds. A bin has one microsecond up to 1,024, 32 of them up to 32,768, and then
// 1,024. The last bin has all longer calls.
fn bin_of(micros: u64) -> usize
    ensures { result < BINS }
{
    if micros < 1024 {
        micros as usize
    } else if micros < 32 * 1024 {
        1024 + (micros / 32) as usize
    } else {
        2048 + (micros / 1024).min(2047) as usize
    }
}

// The least number of microseconds of a bin.
fn micros_of(bin: usize) -> u64
    requires { bin < BINS }
{
    let bin = bin as u64;
    if bin < 1024 {
        bin
    } else if bin < 2048 {
        (bin - 1024) * 32
    } else {
        (bin - 2048) * 1024
    }
}

impl Pauses {
    /// No calls yet.
    pub fn new() -> Pauses {
        Pauses {
            counts: [0; BINS],
            longest: 0,
        }
    }

    /// Records one more call.
    pub fn note(&mut self, nanos: u64)
        ensures { self.new.longest ≡ max self.old.longest nanos }
    {
        let bin = bin_of(nanos / 1000);
        self.counts[bin] = self.counts[bin].saturating_add(1);
        self.longest = self.longest.max(nanos);
    }

    /// The nanoseconds of the longest call.
    pub fn longest(&self) -> u64
        ensures { result ≡ self.now.longest }
    {
        self.longest
    }

    /// The microseconds that at most `rest` of each thousand calls exceeded.
    pub fn all_but(&self, rest: u64) -> u64 {
        let mut calls = 0u64;
        for count in self.counts.iter() {
            calls = calls.wrapping_add(u64::from(*count));
        }
        self.passed_by(calls.saturating_mul(rest) / 1000)
    }

    // The microseconds that at most `most` calls exceeded.
    fn passed_by(&self, most: u64) -> u64 {
        let mut longer = 0u64;
        for bin in (0..BINS).rev() {
            longer = longer.saturating_add(u64::from(self.counts[bin]));
            if longer > most {
                return micros_of(bin);
            }
        }
        0
    }
}

/// A clock that returns the time since it was last read.
#[derive(Drop)]
pub struct Lap {
    last: Instant,
}

impl Lap {
    /// A clock that starts now.
    pub fn new<R: Clock>(rt: &R) -> io::Result<Lap> {
        Ok(Lap {
            last: Instant::now(rt)?,
        })
    }

    /// The nanoseconds since it was last read.
    pub fn turn<R: Clock>(&mut self, rt: &R) -> io::Result<u64> {
        let now = Instant::now(rt)?;
        let passed = now.saturating_duration_since(self.last).as_nanos();
        self.last = now;
        Ok(u64::try_from(passed).unwrap_or(u64::MAX))
    }
}
