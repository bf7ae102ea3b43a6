// Syncs what a merge has written before its last step does.

use std::fs::File;
use std::sync::atomic::{AtomicU64, Ordering};

/// How many bytes a merge writes at most between two early syncs.
const BYTES: u64 = 8 << 20;

/// A second handle of a store's file, by which the merger syncs what its steps wrote, with no lock held. So the sync of its last step,
/// under the store's lock, has little to write.
///
/// Such a sync promises nothing, and no contract speaks of it. What it writes could have been on the medium before in any case. If it
/// fails, the store's own next sync fails too: the system reports the loss of written bytes once to each handle of a file.
#[derive(Drop)]
pub struct EarlySync {
    file: Option<File>,
    steps: AtomicU64,
    // After how many steps it syncs. 0 is taken for 1.
    each: u64,
}

impl EarlySync {
    /// Early syncs by this handle, if there is one, of a file to which a merge writes so many bytes a step at most.
    pub fn of(file: Option<File>, step_len: usize) -> EarlySync {
        EarlySync {
            file,
            steps: AtomicU64::new(0),
            each: BYTES / (step_len as u64).max(1),
        }
    }

    /// Counts a step of the merger, and syncs if it is time.
    pub fn step(&self) {
        let before = self.steps.fetch_add(1, Ordering::Relaxed);
        if before.wrapping_add(1) % self.each.max(1) == 0 {
            self.sync();
        }
    }

    /// Syncs now.
    pub fn sync(&self) {
        if let Some(file) = &self.file {
            let _ = file.sync_data(); // a loss of bytes is reported to the store's own handle too
        }
    }
}
