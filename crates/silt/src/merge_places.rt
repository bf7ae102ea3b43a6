// How many shards of a set are merged at a time.

use std::sync::{Condvar, Mutex, Wait};

/// Places for mergers. Each one works only while it has a place.
#[derive(Drop)]
pub struct MergePlaces {
    free: Mutex<u32>,
    changed: Condvar,
}

impl MergePlaces {
    /// So many places, all of them free.
    pub fn new(places: u32) -> MergePlaces {
        MergePlaces {
            free: Mutex::new(places),
            changed: Condvar::new(),
        }
    }

    /// Waits until a place is free, and takes it.
    pub fn take<R: Wait>(&self, rt: &R) {
        let free = self.free.lock(rt);
        let mut free = self.changed.wait_while(rt, free, |free| *free == 0);
        *free = free.saturating_sub(1);
    }

    /// Frees a place that was taken.
    pub fn leave<R: Wait>(&self, rt: &R) {
        let mut free = self.free.lock(rt);
        *free = free.saturating_add(1);
        self.changed.notify_one();
    }
}
