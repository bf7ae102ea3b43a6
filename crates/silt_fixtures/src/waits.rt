// A wait for another thread that ends in any case.

use std::sync::atomic::{AtomicU64, Ordering};
use std::thread;
use std::time::{Clock, Duration};

/// Waits until the word has at least this value, for at most a million turns. Returns whether it
/// has.
pub fn reaches<R: Clock>(rt: &R, word: &AtomicU64, least: u64) -> bool {
    for _ in 0..1_000_000u32 {
        if word.load(Ordering::SeqCst) >= least {
            return true;
        }
        thread::sleep(rt, Duration::from_micros(10));
    }
    false
}
