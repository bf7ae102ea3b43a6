// A disk in memory that can crash at a chosen write or sync, and then has a possible crash image.
ghost use Rattle.std.specs.Prelude.{◌≡◌, ◌+◌, ◌≤◌, ◌%◌, ◌^◌, ◌||◌, ℕ, true, false, length, get_or, slice_range};
ghost use Rattle.silt_disk.specs.Disk.{Makes, splice, within};
ghost use Rattle.silt_device.specs.Lives.{filled};

use crate::calls::Calls;
use crate::life::{Fill, Lives, Stop, filled_byte};
use crate::marks::Marks;
use silt_disk::{Call, CallAt, Disk, Stoppable};
use std::alloc::{AllocError, Global};
use std::error::Error;
use std::fmt;

/// The fault of one device call: the call, its range, and how many calls had failed then. Only a disk makes a fault, and nothing
/// copies one.
#[derive(Debug, Drop)]
pub struct MemFault {
    call: Call,
    at: u64,
    count: u64,
    failures: u64,
}

// The call that failed.
impl fmt::Display for MemFault {
    fn fmt<W: fmt::Write>(&self, f: &mut fmt::Formatter<W>) -> fmt::Result {
        let call = CallAt {
            call: self.call,
            at: self.at,
        };
        write!(f, "{call}")
    }
}

impl Error for MemFault {}

/// A disk in memory. The K-th write or sync of a life can be made to fail, which is a stop (a crash). A restart then gives the
/// disk a possible crash image.
#[derive(Drop)]
pub struct MemDisk {
    shown: Vec<u8>,
    settled: Vec<u8>,
    pending: Marks,
    calls: Calls,
    lives: Lives,
    ghost sizes: { length shown.items ≡ length settled.items },
    ghost pending_size: { length pending ≡ length shown.items },
    ghost agrees: { (place : ℕ) → get_or pending place false ≡ false
        → get_or shown.items place 0 ≡ get_or settled.items place 0 },
}

// Writes bytes, and marks their range as pending.
fn overwrite(shown: &mut [u8], pending: &mut Marks, at: usize, bytes: &[u8])
    requires fits { at + length bytes.now ≤ length shown.old }
    requires sizes { length pending.old ≡ length shown.old }
    ensures bytes { shown.new ≡ splice at bytes.now shown.old }
    ensures marks { (place : ℕ) → get_or pending.new place false
        ≡ (get_or pending.old place false || within at (length bytes.now) place) }
    ensures size { length pending.new ≡ length pending.old }
{
    pending.mark(at, bytes.len());
    shown[at..at + bytes.len()].copy_from_slice(bytes);
}

// Settles the bytes of a range.
fn settle_range(settled: &mut [u8], shown: &[u8], from: usize, to: usize)
    requires sizes { length settled.old ≡ length shown.now }
    requires order { from ≤ to }
    requires fits { to ≤ length shown.now }
    ensures { settled.new ≡ splice from (slice_range shown.now from to) settled.old }
{
    settled[from..to].copy_from_slice(&shown[from..to]);
}

// Fills the pending places.
fn fill_pending(shown: &mut [u8], settled: &[u8], pending: &[bool], fill: Fill)
    requires settled { length settled.now ≡ length shown.old }
    requires pending { length pending.now ≡ length shown.old }
    ensures kept { (place : ℕ) → get_or pending.now place false ≡ false
        → get_or shown.new place 0 ≡ get_or shown.old place 0 }
    ensures filled { (place : ℕ) → get_or pending.now place false ≡ true
        → get_or shown.new place 0 ≡ filled fill place (get_or shown.old place 0) (get_or settled.now place 0) }
{
    for i in 0..shown.len() {
        if pending[i] {
            shown[i] = filled_byte(fill, i, shown[i], settled[i]);
        }
    }
}

impl MemDisk {
    ghost use Rattle.std.specs.Prelude.{IfOk, replicate};
    ghost use Rattle.silt_disk.specs.Disk.{Stays, Restarts, Settles, Tears};
    ghost use Rattle.silt_device.specs.Memory.{memory_content, memory_failures, memory_gave, memory_syncs, memory_writes, IsFresh, IsFilled};
    ghost use Rattle.silt_device.specs.Lives.{next_life, plan_after_call};

    /// A disk of zeros, of this length in bytes, on which no call fails.
    pub fn new(alloc: Global, len: usize) -> Result<Self, AllocError>
        ensures { IfOk result (IsFresh (replicate len 0)) }
    {
        Ok(MemDisk {
            shown: vec![in alloc; 0u8; len]?,
            settled: vec![in alloc; 0u8; len]?,
            pending: Marks::new(alloc, len)?,
            calls: Calls::none(),
            lives: Lives::endless(alloc),
        })
    }

    /// A disk that shows these bytes, with nothing pending, on which no call fails: for tests with images made byte by byte.
    pub fn with_bytes(alloc: Global, bytes: &[u8]) -> Result<Self, AllocError>
        ensures { IfOk result (IsFresh bytes.now) }
    {
        let mut disk = MemDisk::new(alloc, bytes.len())?;
        disk.shown.copy_from_slice(bytes);
        disk.settled.copy_from_slice(bytes);
        Ok(disk)
    }

    /// All bytes that reads give. It is no device call: it counts for no stop, and it does not fail.
    pub fn shown(&self) -> &[u8]
        ensures { result.now ≡ (memory_content self.now).shown }
    {
        &self.shown
    }

    /// Begins a life now, with the first of these stops. Each restart begins the next one. After the last stop no call fails, and the
    /// fill is `Old`.
    pub fn arm(mut self, stops: Vec<Stop>) -> Self
        ensures content { Stays (memory_content self) (memory_content result) }
        ensures lives { result.lives ≡ next_life stops.items }
        ensures calls { result.calls ≡ self.calls }
    {
        self.lives = Lives::new(stops);
        self
    }

    // The fault of a call of the disk in its present state.
    pub(crate) fn fault(&self, call: Call, at: u64, count: usize) -> MemFault
        ensures { memory_gave self.now result call at count }
    {
        MemFault {
            call,
            at,
            count: count as u64,
            failures: self.calls.failures(),
        }
    }

    // Counts a failed write or sync, modulo 2^64, and makes its fault.
    fn fail(&mut self, call: Call, at: u64, count: usize) -> MemFault
        ensures counted { self.new ≡ record self.old { calls = record self.old.calls { failures = (self.old.calls.failures + 1) % 2 ^ 64 } } }
        ensures gave { memory_gave self.new result call at count }
    {
        self.calls.count_failure();
        self.fault(call, at, count)
    }

    // Refuses a write: it shows nothing new, and counts as a write and as one call of the life.
    pub(crate) fn refuse_write(&mut self, at: u64, count: usize) -> MemFault
        requires { at + count ≤ length self.old.shown.items }
        ensures shown { self.new.shown.items ≡ self.old.shown.items }
        ensures torn { Tears at count (memory_content self.old) (memory_content self.new) }
        ensures lives { self.new.lives ≡ plan_after_call self.old.lives }
        ensures made { Makes memory_writes memory_syncs 1 0 self.old self.new }
        ensures failures { memory_failures self.new ≡ (memory_failures self.old + 1) % 2 ^ 64 }
        ensures gave { memory_gave self.new result Call.Write at count }
    {
        self.calls.count_write();
        self.pending.mark(at as usize, count);
        self.lives.count_call();
        self.fail(Call::Write, at, count)
    }

    // Refuses a sync: it settles nothing, and counts as a sync and as one call of the life.
    pub(crate) fn refuse_sync(&mut self) -> MemFault
        ensures content { Stays (memory_content self.old) (memory_content self.new) }
        ensures lives { self.new.lives ≡ plan_after_call self.old.lives }
        ensures made { Makes memory_writes memory_syncs 0 1 self.old self.new }
        ensures failures { memory_failures self.new ≡ (memory_failures self.old + 1) % 2 ^ 64 }
        ensures gave { memory_gave self.new result Call.Sync 0 (length self.new.shown.items) }
    {
        self.calls.count_sync();
        self.lives.count_call();
        let count = self.shown.len();
        self.fail(Call::Sync, 0, count)
    }

    // Settles all that is shown.
    fn settle(&mut self)
        ensures content { Settles (memory_content self.old) (memory_content self.new) }
        ensures lives { self.new.lives ≡ self.old.lives }
        ensures calls { self.new.calls ≡ self.old.calls }
    {
        let (from, to) = self.pending.range();
        settle_range(&mut self.settled, &self.shown, from, to);
        self.pending.clear();
    }

    // Crashes: fills the pending places as the stop says.
    fn stop(&mut self)
        ensures content { Restarts (memory_content self.old) (memory_content self.new) }
        ensures filled { IsFilled self.old self.new.shown.items }
        ensures lives { self.new.lives ≡ self.old.lives }
        ensures calls { self.new.calls ≡ self.old.calls }
    {
        fill_pending(
            &mut self.shown,
            &self.settled,
            self.pending.as_slice(),
            self.lives.fill(),
        );
        self.settle()
    }
}

impl Disk for MemDisk {
    ghost use Rattle.std.specs.Prelude.{OnOk, IfErr, IsErr, IsTrue, slice_range, ◌↔◌};
    ghost use Rattle.silt_disk.specs.declared.disk.Call.TheVariants.{Read};
    ghost use Rattle.silt_device.specs.DiskCalls.{SyncsAll, WritesBytes};
    ghost use Rattle.silt_device.specs.Lives.{is_stopped, plan_after_call};
    ghost use Rattle.silt_device.specs.Memory.{memory_content, memory_disk, memory_failures, memory_gave, memory_syncs, memory_writes};

    type Fault = MemFault;

    ghost content = { memory_content };

    ghost failures = { memory_failures };

    ghost writes = { memory_writes };

    ghost syncs = { memory_syncs };

    ghost gave = { memory_gave };

    fn len(&self) -> u64 {
        self.shown.len() as u64
    }

    fn read(&self, at: u64, buf: &mut [u8]) -> Result<(), MemFault>
        requires { at + length buf.old ≤ length self.now.shown.items }
        ensures bytes { OnOk result (buf.new ≡ slice_range self.now.shown.items at (at + length buf.old)) }
        ensures fails { IsErr result ↔ IsTrue (is_stopped self.now.lives.life) }
        ensures fault { IfErr result (λ fault. memory_gave self.now fault Read at (length buf.old)) }
    {
        if self.lives.is_stopped() {
            return Err(self.fault(Call::Read, at, buf.len()));
        }
        let start = at as usize;
        buf.copy_from_slice(&self.shown[start..start + buf.len()]);
        Ok(())
    }

    // A write that fails shows its bytes too.
    fn write(&mut self, at: u64, buf: &[u8]) -> Result<(), MemFault>
        requires { at + length buf.now ≤ length self.old.shown.items }
        ensures writes { WritesBytes memory_disk at buf.now self.old self.new result }
        ensures written { self.new.shown.items ≡ splice at buf.now self.old.shown.items }
        ensures lives { self.new.lives ≡ plan_after_call self.old.lives }
        ensures fails { IsErr result ↔ IsTrue (is_stopped self.new.lives.life) }
    {
        overwrite(&mut self.shown, &mut self.pending, at as usize, buf);
        self.calls.count_write();
        if self.lives.count_call() {
            return Err(self.fail(Call::Write, at, buf.len()));
        }
        Ok(())
    }

    fn sync(&mut self) -> Result<(), MemFault>
        ensures syncs { SyncsAll memory_disk self.old self.new result }
        ensures lives { self.new.lives ≡ plan_after_call self.old.lives }
        ensures fails { IsErr result ↔ IsTrue (is_stopped self.new.lives.life) }
    {
        self.calls.count_sync();
        if self.lives.count_call() {
            let count = self.shown.len();
            return Err(self.fail(Call::Sync, 0, count));
        }
        self.settle();
        Ok(())
    }
}

impl Stoppable for MemDisk {
    ghost use Rattle.silt_disk.specs.Disk.{Restarts};
    ghost use Rattle.silt_device.specs.Lives.{next_life};
    ghost use Rattle.silt_device.specs.Memory.{memory_content, memory_failures, memory_syncs, memory_writes, IsFilled};

    fn restart(mut self) -> Self
        ensures content { Restarts (memory_content self) (memory_content result) }
        ensures filled { IsFilled self result.shown.items }
        ensures lives { result.lives ≡ next_life self.lives.to_come }
        ensures failures { memory_failures result ≡ memory_failures self }
        ensures made { Makes memory_writes memory_syncs 0 0 self result }
    {
        self.stop();
        self.lives.begin_next();
        self
    }
}
