// How a backup keeps mergers from freeing what it copies.

use std::sync::atomic::{AtomicBool, Ordering};

/// The most shards of a set.
const MOST: usize = 64;

/// What the merger of one store may do while a backup is made.
#[derive(Clone, Copy, Debug, PartialEq, Eq)]
pub enum Hold {
    /// All that there is to do.
    Free,
    /// No step: the hash stores are copied, and a step might free them.
    Steps,
    /// Steps up to the end of the merge in progress: the sorted store is copied, and the next merge would write over it.
    Merges,
}

/// What the merger of each store of a server may do. Nothing is proved of it: the digests of a copy show whether it was kept.
#[derive(Drop)]
pub struct MergeHolds {
    steps: [AtomicBool; MOST],
    merges: [AtomicBool; MOST],
}

impl MergeHolds {
    /// Every merger is free.
    pub fn new() -> MergeHolds {
        MergeHolds {
            steps: std::array::from_fn(|_| AtomicBool::new(false)),
            merges: std::array::from_fn(|_| AtomicBool::new(false)),
        }
    }

    /// From now on the merger of this store may do that.
    pub fn set(&self, store: usize, hold: Hold) {
        if store < MOST {
            self.merges[store].store(hold == Hold::Merges, Ordering::SeqCst);
            self.steps[store].store(hold == Hold::Steps, Ordering::SeqCst);
        }
    }

    /// What the merger of this store may do.
    pub fn of(&self, store: usize) -> Hold {
        if store >= MOST {
            Hold::Free
        } else if self.steps[store].load(Ordering::SeqCst) {
            Hold::Steps
        } else if self.merges[store].load(Ordering::SeqCst) {
            Hold::Merges
        } else {
            Hold::Free
        }
    }
}
