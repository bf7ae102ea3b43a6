// A buffer of adjacent bytes that wait to be written.
ghost use Rattle.std.specs.Prelude.{◌≡◌, ◌≤◌, ◌<◌, ◌+◌, ◌^◌, ◌==◌, ℕ, List, [], length, slice_range, IsTrue, IfOk};
ghost use Rattle.silt_disk.specs.Disk.{splice};
ghost use Rattle.silt_device.specs.Buffered.{takes, grown, emptied, holds, lie_apart, LaidOver};

use std::alloc::{AllocError, Global};
use std::marker::Model;

/// Adjacent bytes that wait to be written, and where they begin. The room of the buffer never changes.
#[derive(Drop)]
pub(crate) struct WriteBuffer {
    at: u64,
    count: usize,
    bytes: Vec<u8>,
}

impl Model for WriteBuffer {
    ghost use Rattle.std.specs.Prelude.{◌≤◌, ◌<◌, ◌+◌, ◌^◌, length, take};
    ghost use Rattle.silt_device.specs.Buffered.{BufferedBytes};

    ghost Value = { BufferedBytes };

    ghost view = { λ g. record { at = g.at; bytes = take g.count g.bytes.items; room = length g.bytes.items } };

    ghost invariant = { λ g. (g.count ≤ length g.bytes.items) × (g.at + g.count < 2 ^ 64) };
}

// Copies a part into bytes, from this place on.
fn put(bytes: &mut [u8], from: usize, part: &[u8])
    requires { from + length part.now ≤ length bytes.old }
    ensures { bytes.new ≡ splice from part.now bytes.old }
{
    bytes[from..from + part.len()].copy_from_slice(part);
}

impl WriteBuffer {
    // An empty buffer, with room for this many bytes.
    pub(crate) fn new(alloc: Global, room: usize) -> Result<Self, AllocError>
        ensures { IfOk result (λ buffer. buffer ≡ record { at = 0; bytes = []; room = room }) }
    {
        Ok(WriteBuffer {
            at: 0,
            count: 0,
            bytes: vec![in alloc; 0u8; room]?,
        })
    }

    // Where the bytes begin.
    pub(crate) fn at(&self) -> u64
        ensures { result ≡ self.now.at }
    {
        self.at
    }

    // The bytes that wait.
    pub(crate) fn bytes(&self) -> &[u8]
        ensures { result.now ≡ self.now.bytes }
    {
        &self.bytes[..self.count]
    }

    // Whether no bytes wait.
    pub(crate) fn is_empty(&self) -> bool
        ensures { result ≡ (length self.now.bytes == 0) }
    {
        self.count == 0
    }

    // Whether this many bytes from this place on continue the waiting ones, and there is room.
    pub(crate) fn takes(&self, at: u64, count: usize) -> bool
        ensures { result ≡ takes self.now at count }
    {
        (self.count == 0 || at == self.at + self.count as u64)
            && count <= self.bytes.len() - self.count
    }

    // Whether no place has waiting bytes of both.
    pub(crate) fn lies_apart(&self, other: &WriteBuffer) -> bool
        ensures { result ≡ lie_apart self.now other.now }
    {
        self.count == 0
            || other.count == 0
            || self.at + self.count as u64 <= other.at
            || other.at + other.count as u64 <= self.at
    }

    // The room of the buffer, in bytes.
    pub(crate) fn room(&self) -> usize
        ensures { result ≡ self.now.room }
    {
        self.bytes.len()
    }

    // Appends bytes.
    pub(crate) fn append(&mut self, at: u64, bytes: &[u8])
        requires takes { IsTrue (takes self.old at (length bytes.now)) }
        requires end { at + length bytes.now < 2 ^ 64 }
        ensures { self.new ≡ grown self.old at bytes.now }
    {
        let end = self.count + bytes.len();
        put(&mut self.bytes, self.count, bytes);
        self.at = at - self.count as u64;
        self.count = end;
    }

    // Drops all bytes.
    pub(crate) fn empty(&mut self)
        ensures { self.new ≡ emptied self.old }
    {
        self.count = 0;
    }

    // Whether the buffer has all of this many bytes from this place on.
    pub(crate) fn holds(&self, at: u64, count: usize) -> bool
        requires { at + count < 2 ^ 64 }
        ensures { result ≡ holds self.now at count }
    {
        self.at <= at && at + count as u64 <= self.at + self.count as u64
    }

    // Copies the waiting bytes over bytes from this place on.
    #[tactic(auto, using(crate::proofs::Waiting::laid_nowhere, crate::proofs::Waiting::laid_there))]
    pub(crate) fn lay_over(&self, at: u64, out: &mut [u8])
        requires { at + length out.old < 2 ^ 64 }
        ensures { LaidOver self.now at out.old out.new }
    {
        let start = self.at.max(at);
        let end = (self.at + self.count as u64).min(at + out.len() as u64);
        if start < end {
            let part = &self.bytes()[(start - self.at) as usize..(end - self.at) as usize];
            put(out, (start - at) as usize, part);
        }
    }
}
