// When a scrub is due.
ghost use Rattle.std.specs.Prelude.{◌≡◌, false};

use crate::finds::Finds;
use std::sync::Wait;
use std::thread;
use std::time::{Clock, Duration, Instant};

/// How many milliseconds pass before it is asked again whether to go on.
const STEP: u64 = 200;

/// How many seconds after the beginning the first scrub is due.
const FIRST: u64 = 10;

/// When the next scrub is due: the first after 10 seconds, and then so many hours after the last one was due, or at once, if that has
/// passed. None is ever due without hours, or without a clock.
#[derive(Drop)]
pub struct Schedule {
    hours: Option<u32>,
    since: Option<Instant>,
    wait: Duration,
}

// For how long to sleep: not past what is due, and no longer than a step.
fn step_of(left: Option<Duration>) -> Duration {
    let step = Duration::from_millis(STEP);
    match left {
        Some(left) => left.min(step),
        None => step,
    }
}

impl Schedule {
    /// A schedule that begins now.
    pub fn new<R: Clock>(rt: &R, hours: Option<u32>) -> Schedule {
        Schedule {
            hours,
            since: Instant::now(rt).ok(),
            wait: Duration::from_secs(FIRST),
        }
    }

    // How long it is until a scrub is due. None if none ever is.
    fn left<R: Clock>(&self, rt: &R) -> Option<Duration> {
        self.hours?;
        let spent = Instant::now(rt)
            .ok()?
            .saturating_duration_since(self.since?);
        Some(self.wait.saturating_sub(spent))
    }

    // Has the next scrub be due so many hours from now.
    fn begin<R: Clock>(&mut self, rt: &R) {
        self.since = Instant::now(rt).ok();
        self.wait = Duration::from_secs(u64::from(self.hours.unwrap_or(0)) * 3_600);
    }

    /// Waits until a scrub is due, and returns true; or false, if it is not to go on.
    pub fn comes<F: Finds, R: Wait + Clock>(&mut self, rt: &R, finds: &F) -> bool
        ensures { result ≡ false → F.has_stopped finds.now }
    {
        for _ in rt.forever() {
            if !finds.goes_on() {
                return false;
            }
            let left = self.left(rt);
            if left == Some(Duration::ZERO) {
                self.begin(rt);
                return true;
            }
            thread::sleep(rt, step_of(left));
        }
        unreachable!()
    }
}
