// A disk that counts how often it is read.
ghost use Rattle.std.specs.Prelude.{◌≡◌};

use silt_device::Disk;
use std::sync::atomic::{AtomicU64, Ordering};

/// A disk, and the counter of its reads. Contracts see only the disk: a read takes it by `&`, so the counter is an
/// atomic, and no clause can name its value.
#[derive(Drop)]
pub struct CountingDisk<'a, D: Disk> {
    disk: D,
    reads: &'a AtomicU64,
}

impl<'a, D: Disk> CountingDisk<'a, D> {
    /// Its reads are counted there.
    pub fn new(disk: D, reads: &'a AtomicU64) -> CountingDisk<'a, D>
        ensures { result.disk ≡ disk }
    {
        CountingDisk { disk, reads }
    }
}

impl<D: Disk> Disk for CountingDisk<'_, D> {
    type Fault = D::Fault;

    ghost content = { λ c. D.content c.disk };

    ghost failures = { λ c. D.failures c.disk };

    ghost writes = { λ c. D.writes c.disk };

    ghost syncs = { λ c. D.syncs c.disk };

    ghost gave = { λ c fault call at count. D.gave c.disk fault call at count };

    fn len(&self) -> u64 {
        self.disk.len()
    }

    fn read(&self, at: u64, buf: &mut [u8]) -> Result<(), D::Fault> {
        self.reads.fetch_add(1, Ordering::SeqCst);
        self.disk.read(at, buf)
    }

    fn write(&mut self, at: u64, buf: &[u8]) -> Result<(), D::Fault> {
        self.disk.write(at, buf)
    }

    fn sync(&mut self) -> Result<(), D::Fault> {
        self.disk.sync()
    }
}
