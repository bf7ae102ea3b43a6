// Disks that keep which of their calls failed.
ghost use Rattle.std.specs.Prelude.{◌≡◌, Option};
ghost use Rattle.silt_jobs.specs.declared.people.failure.Failure.{Failure as FailureOf};

use silt_disk::CallAt;
use silt_view::Viewed;
use std::{fmt, io};

/// A failed call of a disk, and the system's error.
#[derive(Clone, Copy, Debug)]
pub struct Failure {
    pub call: CallAt,
    pub error: io::Error,
}

// What failed, and the system's words for it.
impl fmt::Display for Failure {
    fn fmt<W: fmt::Write>(&self, f: &mut fmt::Formatter<W>) -> fmt::Result {
        let Failure { call, error } = *self;
        write!(f, "{call}: {error}")
    }
}

/// A disk that keeps its first failed read, and its last failed write or sync. Its stores can be viewed.
pub trait Watched: Viewed {
    /// The last write or sync that failed, if one did.
    ghost last_failure: { Self → Option FailureOf };

    /// The disk reported this read as the first failed one, or that none failed.
    ghost kept_read: { Self → Option FailureOf → Type 0 };

    /// The last write or sync that failed, if one did.
    fn last_failure(&self) -> Option<Failure>
        ensures { result ≡ last_failure self.now };

    /// The first failed read, if there is one.
    fn failed_read(&self) -> Option<Failure>
        ensures { kept_read self.now result };

    /// From now on the first failed write or sync is reported at once.
    fn report_at_once(&mut self, shard: Option<u32>)
        ensures disk { Self.content self.new ≡ Self.content self.old }
        ensures last { last_failure self.new ≡ last_failure self.old };
}
