// A disk that buffers adjacent writes for another disk.
ghost use Rattle.std.specs.Prelude.{◌≡◌, ◌+◌, ◌≤◌, ◌%◌, ◌^◌, ◌==◌, IfOk, OnOk, IfErr, MatchResult, IsTrue, length, []};
ghost use Rattle.silt_disk.specs.Disk.{GaveAny, size};
ghost use Rattle.silt_device.specs.Buffered.{SavesWritesLaw, buffer_room, no_bytes};
ghost use Rattle.silt_device.specs.Calls.{no_calls};

use crate::calls::Calls;
use crate::write_buffers::{BUFFERS, WriteBuffers};
use silt_disk::{Call, Disk, Stoppable};
use std::alloc::{AllocError, Global};
use std::error::Error;
use std::fmt;
use std::marker::Model;

// The default size of each of a disk's buffers, in bytes.
const ROOM: usize = 65_536;

/// The fault of a disk that buffers: the call, its range, how many calls had failed then, and the fault of the inner disk. The
/// inner call may have been a write of bytes that were buffered before. Only a disk makes a fault, and nothing copies one.
#[derive(Debug, Drop)]
pub struct BufferFault<F> {
    call: Call,
    at: u64,
    count: u64,
    failures: u64,
    inner: F,
}

impl<F> BufferFault<F> {
    /// The fault of the inner disk.
    pub fn inner(&self) -> &F
        ensures { result.now ≡ self.now.inner }
    {
        &self.inner
    }
}

// Counts a failed write or sync, modulo 2^64, and wraps the fault of the inner disk.
fn count_fault<F>(calls: &mut Calls, call: Call, at: u64, count: u64, inner: F) -> BufferFault<F>
    ensures counted { calls.new ≡ record calls.old { failures = (calls.old.failures + 1) % 2 ^ 64 } }
    ensures fault { result ≡ record { call = call; at = at; count = count; failures = calls.new.failures; inner = inner } }
{
    calls.count_failure();
    BufferFault {
        call,
        at,
        count,
        failures: calls.failures(),
        inner,
    }
}

// What failed on the inner disk.
impl<F: fmt::Display> fmt::Display for BufferFault<F> {
    fn fmt<W: fmt::Write>(&self, f: &mut fmt::Formatter<W>) -> fmt::Result {
        self.inner.fmt(f)
    }
}

impl<F: Error> Error for BufferFault<F> {}

/// A disk that buffers adjacent writes, and passes them to another disk as one write.
///
/// It has three buffers, since a store writes at three places in turn: its active log, the region of a conversion, and that of a
/// merge. A write is buffered if it continues the bytes of a buffer and there is room, or if a buffer is empty. Else the buffer that
/// was not used for longest goes to the inner disk, and takes the bytes. Before a sync, and before a write that is longer than a
/// buffer, all buffers go there. A read lays the buffered bytes over those of the inner disk. It does not read the inner disk if a
/// buffer has the whole range. If buffered bytes cannot be written, they stay buffered, so what is shown stays, and the call returns
/// the fault. The bytes of a write that fails so go to the inner disk all the same, so that their range is pending there.
///
/// A write that a buffer takes costs no call of the inner disk. Over any calls the inner disk is asked for no more writes than this
/// one, but for one more for each call that fails. A sync that returns Ok is one sync of the inner disk, behind one write for each
/// buffer that has bytes.
///
/// It is proved that this is a disk as good as the inner one. What is shown, the possible crash images and the counts follow from
/// the inner disk's contract alone, whether that disk obeys the crash model or not.
#[derive(Drop)]
pub struct BufferedDisk<D: Disk> {
    inner: D,
    buffers: WriteBuffers,
    calls: Calls,
}

impl<D: Disk> Model for BufferedDisk<D> {
    ghost use Rattle.silt_device.specs.Buffered.{BufferedState, HasPlaces};

    ghost Value = { BufferedState D };

    ghost view = { λ a. record { inner = a.inner; buffers = a.buffers; calls = a.calls } };

    ghost invariant = { λ a. HasPlaces D.content a.inner a.buffers };
}

impl<D: Disk> BufferedDisk<D> {
    /// Buffers writes for this disk, up to 65,536 bytes in each of three buffers.
    ///
    /// # Errors
    ///
    /// Out of memory: a buffer could not be allocated.
    pub fn new(alloc: Global, inner: D) -> Result<Self, AllocError>
        ensures { IfOk result (λ disk. disk ≡ record { inner = inner; buffers = no_bytes buffer_room; calls = no_calls }) }
    {
        BufferedDisk::with_room(alloc, inner, ROOM)
    }

    /// Buffers writes for this disk, up to this many bytes in each of three buffers. With a room of 0 each write goes to the disk by
    /// itself.
    ///
    /// # Errors
    ///
    /// Out of memory: a buffer could not be allocated.
    pub fn with_room(alloc: Global, inner: D, room: usize) -> Result<Self, AllocError>
        ensures { IfOk result (λ disk. disk ≡ record { inner = inner; buffers = no_bytes room; calls = no_calls }) }
    {
        Ok(BufferedDisk {
            inner,
            buffers: WriteBuffers::new(alloc, room)?,
            calls: Calls::none(),
        })
    }

    /// The inner disk, as it is now. Bytes that are still buffered are lost.
    pub fn into_inner(self) -> D
        ensures { result ≡ self.inner }
    {
        self.inner
    }
}

impl<D: Disk> Disk for BufferedDisk<D> {
    ghost use Rattle.std.specs.Prelude.{◌⊎◌};
    ghost use Rattle.silt_device.specs.DiskCalls.{SyncsAll, WritesBytes};
    ghost use Rattle.silt_device.specs.Buffered.{buffered_content, buffered_disk, buffered_gave, buffered_syncs, buffered_writes, SavesWrites, PassesOn, WritesOut};

    type Fault = BufferFault<D::Fault>;

    ghost content = { buffered_content D.content };

    ghost failures = { λ disk. disk.calls.failures };

    ghost writes = { buffered_writes };

    ghost syncs = { buffered_syncs };

    ghost gave = { buffered_gave D.gave };

    #[tactic(auto, using(crate::proofs::Waiting::size_over_all))]
    fn len(&self) -> u64 {
        self.inner.len()
    }

    #[tactic(auto, using(crate::proofs::Freeing::all_laid))]
    fn read(&self, at: u64, buf: &mut [u8]) -> Result<(), BufferFault<D::Fault>> {
        let _known = self.inner.len(); // so no place within it passes a word
        if self.buffers.holds(at, buf.len()) {
            self.buffers.lay_over(at, buf);
            return Ok(());
        }
        let count = buf.len() as u64;
        match self.inner.read(at, buf) {
            Ok(()) => {
                self.buffers.lay_over(at, buf);
                Ok(())
            }
            Err(inner) => Err(BufferFault {
                call: Call::Read,
                at,
                count,
                failures: self.calls.failures(),
                inner,
            }),
        }
    }

    #[tactic(auto)]
    fn write(&mut self, at: u64, buf: &[u8]) -> Result<(), BufferFault<D::Fault>>
        requires { at + length buf.now ≤ size (buffered_content D.content self.old) }
        ensures writes { WritesBytes (buffered_disk D.Disk) at buf.now self.old self.new result }
        ensures passes { OnOk result (PassesOn D.writes D.syncs at buf.now self.old self.new) }
        ensures gathers { MatchResult result (λ _. SavesWrites D.writes D.syncs 1 0 self.old self.new) (λ _. SavesWrites D.writes D.syncs 2 0 self.old self.new) }
    {
        let _known = self.inner.len(); // so no place within it passes a word
        let count = buf.len() as u64;
        self.calls.count_write();
        for _turn in 0..self.buffers.make_way(at, buf.len()) {
            if !self.buffers.is_last_empty() {
                if let Err(inner) = self
                    .inner
                    .write(self.buffers.last_at(), self.buffers.last_bytes())
                {
                    // The bytes go to the inner disk all the same, so that their range is pending there.
                    let _ = self.inner.write(at, buf);
                    return Err(count_fault(&mut self.calls, Call::Write, at, count, inner));
                }
            }
            self.buffers.free();
        }
        if self.buffers.takes(at, buf.len()) {
            self.buffers.append(at, buf);
            return Ok(());
        }
        match self.inner.write(at, buf) {
            Ok(()) => Ok(()),
            Err(inner) => Err(count_fault(&mut self.calls, Call::Write, at, count, inner)),
        }
    }

    #[tactic(auto, using(crate::proofs::Waiting::size_over_all))]
    fn sync(&mut self) -> Result<(), BufferFault<D::Fault>>
        ensures syncs { SyncsAll (buffered_disk D.Disk) self.old self.new result }
        ensures gathers { MatchResult result (λ _. WritesOut D.writes D.syncs self.old self.new)
            (λ _. SavesWrites D.writes D.syncs 1 0 self.old self.new ⊎ SavesWrites D.writes D.syncs 0 1 self.old self.new) }
    {
        let size = self.inner.len();
        self.calls.count_sync();
        for _turn in 0..BUFFERS {
            if !self.buffers.is_last_empty() {
                if let Err(inner) = self
                    .inner
                    .write(self.buffers.last_at(), self.buffers.last_bytes())
                {
                    return Err(count_fault(&mut self.calls, Call::Sync, 0, size, inner));
                }
            }
            self.buffers.free();
        }
        match self.inner.sync() {
            Ok(()) => Ok(()),
            Err(inner) => Err(count_fault(&mut self.calls, Call::Sync, 0, size, inner)),
        }
    }
}

impl<D: Stoppable> Stoppable for BufferedDisk<D> {
    ghost use Rattle.silt_disk.specs.Disk.{Makes, Restarts};
    ghost use Rattle.silt_device.specs.Buffered.{buffered_content, buffered_syncs, buffered_writes, cleared, SavesWrites};

    #[tactic(auto, using(crate::proofs::Waiting::size_over_all))]
    fn restart(mut self) -> Self
        ensures size { size (buffered_content D.Disk.content result) ≡ size (buffered_content D.Disk.content self) }
        ensures content { Restarts (buffered_content D.Disk.content self) (buffered_content D.Disk.content result) }
        ensures failures { result.calls.failures ≡ self.calls.failures }
        ensures made { Makes buffered_writes buffered_syncs 0 0 self result }
        ensures none { result.buffers ≡ cleared self.buffers }
        ensures gathers { SavesWrites D.Disk.writes D.Disk.syncs 0 0 self result }
    {
        self.buffers.clear();
        BufferedDisk {
            inner: self.inner.restart(),
            buffers: self.buffers,
            calls: self.calls,
        }
    }
}

/// What a buffering disk saves adds up, from one call to the next. The call of this law does nothing.
pub fn saves_writes_law<D: Disk>()
    ensures { SavesWritesLaw D.Disk.writes D.Disk.syncs }
{}
