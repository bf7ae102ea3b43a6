// How many calls a disk was asked for.
ghost use Rattle.std.specs.Prelude.{◌≡◌, ◌+◌, ◌%◌, ◌^◌};
ghost use Rattle.silt_device.specs.Calls.{no_calls};

/// How many writes and syncs a disk was asked for, and how many of these failed, each modulo 2^64.
#[derive(Clone, Copy, Debug, PartialEq, Eq)]
pub(crate) struct Calls {
    writes: u64,
    syncs: u64,
    failures: u64,
}

impl Calls {
    // No call.
    pub(crate) fn none() -> Self
        ensures { result ≡ no_calls }
    {
        Calls {
            writes: 0,
            syncs: 0,
            failures: 0,
        }
    }

    // Counts a write, whether it fails or not.
    pub(crate) fn count_write(&mut self)
        ensures { self.new ≡ record self.old { writes = (self.old.writes + 1) % 2 ^ 64 } }
    {
        self.writes = self.writes.wrapping_add(1);
    }

    // Counts a sync, whether it fails or not.
    pub(crate) fn count_sync(&mut self)
        ensures { self.new ≡ record self.old { syncs = (self.old.syncs + 1) % 2 ^ 64 } }
    {
        self.syncs = self.syncs.wrapping_add(1);
    }

    // Counts one that failed.
    pub(crate) fn count_failure(&mut self)
        ensures { self.new ≡ record self.old { failures = (self.old.failures + 1) % 2 ^ 64 } }
    {
        self.failures = self.failures.wrapping_add(1);
    }

    // How many have failed.
    pub(crate) fn failures(&self) -> u64
        ensures { result ≡ self.now.failures }
    {
        self.failures
    }
}
