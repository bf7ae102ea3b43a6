// A disk in memory on which one chosen call fails. It then goes on working.
ghost use Rattle.std.specs.Prelude.{◌≡◌, ◌+◌, ◌≤◌, ◌↔◌, IsTrue, length};

use crate::memory::{MemDisk, MemFault};
use silt_disk::{Call, Disk};
use std::sync::atomic::{AtomicU64, Ordering};

/// A disk in memory on which one call fails, given by its kind and its number among the calls of that kind, counted from 1.
/// A write that fails so shows nothing new. All other calls are those of the disk in memory. Each write and sync counts as one
/// call of the disk's life, also the one that fails.
///
/// No contract says which read fails. A read takes the disk by `&`, so the count of reads is an atomic, and no clause can name
/// its value.
#[derive(Drop)]
pub struct FaultDisk {
    disk: MemDisk,
    call: Call,
    // The number of writes or syncs up to and including the one that fails: 0 once it has failed.
    left: u64,
    number: u64,
    reads: AtomicU64,
}

impl FaultDisk {
    ghost use Rattle.silt_device.specs.Memory.{memory_content};
    ghost use Rattle.silt_device.specs.Fault.{fault_content, IsNamed, left_after};

    /// Wraps a disk so that the `number`-th call of this kind fails, counted from 1. With 0 no call fails.
    pub fn new(disk: MemDisk, call: Call, number: u64) -> Self
        ensures content { fault_content result ≡ memory_content disk }
        ensures calls { result.disk.calls ≡ disk.calls }
        ensures lives { result.disk.lives ≡ disk.lives }
        ensures named { (result.call ≡ call) × (result.left ≡ number) × (result.number ≡ number) }
    {
        FaultDisk {
            disk,
            call,
            left: number,
            number,
            reads: AtomicU64::new(0),
        }
    }

    /// The disk in memory, as it is now: for tests that restart it after the fault.
    pub fn into_disk(self) -> MemDisk
        ensures { result ≡ self.disk }
    {
        self.disk
    }

    // Counts a write or sync, and returns whether it is the one that fails.
    fn is_named(&mut self, call: Call) -> bool
        ensures disk { self.new.disk ≡ self.old.disk }
        ensures call { self.new.call ≡ self.old.call }
        ensures counted { self.new.left ≡ left_after call self.old }
        ensures named { IsTrue result ↔ IsNamed call self.old }
    {
        if self.call != call {
            return false;
        }
        let named = self.left == 1;
        self.left = self.left.saturating_sub(1);
        named
    }
}

impl Disk for FaultDisk {
    ghost use Rattle.std.specs.Prelude.{OnOk, IsErr, IfErr, slice_range, ◌≢◌};
    ghost use Rattle.silt_disk.specs.declared.disk.Call.TheVariants.{Read, Write, Sync};
    ghost use Rattle.silt_disk.specs.Disk.{splice};
    ghost use Rattle.silt_device.specs.DiskCalls.{SyncsAll, WritesBytes};
    ghost use Rattle.silt_device.specs.Lives.{is_stopped, plan_after_call};
    ghost use Rattle.silt_device.specs.Fault.{fault_content, fault_disk, fault_failures, fault_gave, fault_syncs, fault_writes, IsNamed, left_after};

    type Fault = MemFault;

    ghost content = { fault_content };

    ghost failures = { fault_failures };

    ghost writes = { fault_writes };

    ghost syncs = { fault_syncs };

    ghost gave = { fault_gave };

    fn len(&self) -> u64 {
        self.disk.len()
    }

    fn read(&self, at: u64, buf: &mut [u8]) -> Result<(), MemFault>
        requires { at + length buf.old ≤ length self.now.disk.shown.items }
        ensures bytes { OnOk result (buf.new ≡ slice_range self.now.disk.shown.items at (at + length buf.old)) }
        ensures others { self.now.call ≢ Read → (IsErr result ↔ IsTrue (is_stopped self.now.disk.lives.life)) }
        ensures fault { IfErr result (λ fault. fault_gave self.now fault Read at (length buf.old)) }
    {
        if self.call == Call::Read
            && self.reads.fetch_add(1, Ordering::SeqCst).wrapping_add(1) == self.number
        {
            return Err(self.disk.fault(Call::Read, at, buf.len()));
        }
        self.disk.read(at, buf)
    }

    fn write(&mut self, at: u64, buf: &[u8]) -> Result<(), MemFault>
        requires { at + length buf.now ≤ length self.old.disk.shown.items }
        ensures writes { WritesBytes fault_disk at buf.now self.old self.new result }
        ensures written { OnOk result (self.new.disk.shown.items ≡ splice at buf.now self.old.disk.shown.items) }
        ensures named { IsNamed Write self.old → IsErr result }
        ensures others { ¬ IsNamed Write self.old → (IsErr result ↔ IsTrue (is_stopped self.new.disk.lives.life)) }
        ensures shows_nothing { IsNamed Write self.old → self.new.disk.shown.items ≡ self.old.disk.shown.items }
        ensures counted { self.new.left ≡ left_after Write self.old }
        ensures lives { self.new.disk.lives ≡ plan_after_call self.old.disk.lives }
        ensures call { self.new.call ≡ self.old.call }
    {
        if self.is_named(Call::Write) {
            return Err(self.disk.refuse_write(at, buf.len()));
        }
        self.disk.write(at, buf)
    }

    fn sync(&mut self) -> Result<(), MemFault>
        ensures syncs { SyncsAll fault_disk self.old self.new result }
        ensures named { IsNamed Sync self.old → IsErr result }
        ensures others { ¬ IsNamed Sync self.old → (IsErr result ↔ IsTrue (is_stopped self.new.disk.lives.life)) }
        ensures counted { self.new.left ≡ left_after Sync self.old }
        ensures lives { self.new.disk.lives ≡ plan_after_call self.old.disk.lives }
        ensures call { self.new.call ≡ self.old.call }
    {
        if self.is_named(Call::Sync) {
            return Err(self.disk.refuse_sync());
        }
        self.disk.sync()
    }
}
