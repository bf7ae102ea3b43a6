// The calls of a disk that failed.
ghost use Rattle.std.specs.Prelude.{◌≡◌};
ghost use Rattle.silt_jobs.specs.Ended.{HasFailed, none_failed};

use crate::people::{Failure, Watched};

/// The calls of a disk that failed: its first failed read, and its last failed write or sync.
#[derive(Clone, Copy, Debug)]
pub struct Failures {
    pub read: Option<Failure>,
    pub last: Option<Failure>,
    /// Of which shard of a set the disk is, if it is of one.
    pub shard: Option<u32>,
}

impl Failures {
    /// No call failed.
    pub fn none() -> Self
        ensures { result ≡ none_failed }
    {
        Failures {
            read: None,
            last: None,
            shard: None,
        }
    }

    /// The calls of this disk that failed.
    pub fn of<D: Watched>(disk: &D) -> Self
        ensures { HasFailed D.kept_read D.last_failure disk.now result }
    {
        Failures {
            read: disk.failed_read(),
            last: disk.last_failure(),
            shard: None,
        }
    }
}
