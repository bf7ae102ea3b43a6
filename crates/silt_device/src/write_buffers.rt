// The buffers of a disk that writes at several places in turn.
ghost use Rattle.std.specs.Prelude.{◌≡◌, ◌<◌, ◌+◌, ◌^◌, ◌==◌, length, IsTrue, IfOk};
ghost use Rattle.silt_device.specs.Buffered.{appended, brought, cleared, freed, has_all, no_bytes, takes, to_free, turned, LaidOverAll};

use crate::write_buffer::WriteBuffer;
use std::alloc::{AllocError, Global};
use std::marker::Model;
use std::mem;

/// How many buffers there are. A store writes at three places in turn: its active log, the region of a conversion, and that of a
/// merge.
pub(crate) const BUFFERS: u32 = 3;

/// Three buffers of one room, the one that was used last in front. Where bytes of two of them overlap, those of the one in front
/// are newer.
#[derive(Drop)]
pub(crate) struct WriteBuffers {
    first: WriteBuffer,
    second: WriteBuffer,
    third: WriteBuffer,
}

impl Model for WriteBuffers {
    ghost use Rattle.silt_device.specs.Buffered.{Buffers};

    ghost Value = { Buffers };

    ghost view = { λ b. record { first = b.first; second = b.second; third = b.third } };
}

impl WriteBuffers {
    // Empty buffers, each with room for this many bytes.
    pub(crate) fn new(alloc: Global, room: usize) -> Result<Self, AllocError>
        ensures { IfOk result (λ buffers. buffers ≡ no_bytes room) }
    {
        Ok(WriteBuffers {
            first: WriteBuffer::new(alloc, room)?,
            second: WriteBuffer::new(alloc, room)?,
            third: WriteBuffer::new(alloc, room)?,
        })
    }

    // Puts the buffer in front that takes this many bytes from this place on, if there is one and it overlaps none before it.
    // Returns how many buffers have to be freed before the one in front takes them, or, if they fit none, before all are empty.
    pub(crate) fn make_way(&mut self, at: u64, count: usize) -> u32
        ensures order { self.new ≡ brought self.old at count }
        ensures frees { result ≡ to_free self.new at count }
    {
        self.bring(at, count);
        if self.first.takes(at, count) {
            0
        } else if count <= self.third.room() {
            1
        } else {
            BUFFERS
        }
    }

    // Puts the buffer in front that takes this many bytes from this place on, if there is one and it overlaps none before it.
    fn bring(&mut self, at: u64, count: usize)
        ensures { self.new ≡ brought self.old at count }
    {
        if self.first.takes(at, count) {
            return;
        }
        if self.second.takes(at, count) && self.second.lies_apart(&self.first) {
            mem::swap(&mut self.first, &mut self.second);
            return;
        }
        if self.third.takes(at, count)
            && self.third.lies_apart(&self.first)
            && self.third.lies_apart(&self.second)
        {
            self.turn();
        }
    }

    // Whether the buffer in front takes this many bytes from this place on.
    pub(crate) fn takes(&self, at: u64, count: usize) -> bool
        ensures { result ≡ takes self.now.first at count }
    {
        self.first.takes(at, count)
    }

    // Puts the last buffer in front.
    fn turn(&mut self)
        ensures { self.new ≡ turned self.old }
    {
        mem::swap(&mut self.second, &mut self.third);
        mem::swap(&mut self.first, &mut self.second);
    }

    // Appends bytes to the front buffer.
    pub(crate) fn append(&mut self, at: u64, bytes: &[u8])
        requires takes { IsTrue (takes self.old.first at (length bytes.now)) }
        requires end { at + length bytes.now < 2 ^ 64 }
        ensures { self.new ≡ appended self.old at bytes.now }
    {
        self.first.append(at, bytes);
    }

    // Whether no bytes wait in the last buffer.
    pub(crate) fn is_last_empty(&self) -> bool
        ensures { result ≡ (length self.now.third.bytes == 0) }
    {
        self.third.is_empty()
    }

    // Where the bytes of the last buffer begin.
    pub(crate) fn last_at(&self) -> u64
        ensures { result ≡ self.now.third.at }
    {
        self.third.at()
    }

    // The bytes of the last buffer.
    pub(crate) fn last_bytes(&self) -> &[u8]
        ensures { result.now ≡ self.now.third.bytes }
    {
        self.third.bytes()
    }

    // Drops the bytes of the last buffer, and puts it in front.
    pub(crate) fn free(&mut self)
        ensures { self.new ≡ freed self.old }
    {
        self.third.empty();
        self.turn();
    }

    // Drops all bytes.
    pub(crate) fn clear(&mut self)
        ensures { self.new ≡ cleared self.old }
    {
        self.first.empty();
        self.second.empty();
        self.third.empty();
    }

    // Whether one of the buffers has all of this many bytes from this place on.
    pub(crate) fn holds(&self, at: u64, count: usize) -> bool
        requires { at + count < 2 ^ 64 }
        ensures { result ≡ has_all self.now at count }
    {
        self.first.holds(at, count) || self.second.holds(at, count) || self.third.holds(at, count)
    }

    // Copies the waiting bytes over bytes from this place on.
    pub(crate) fn lay_over(&self, at: u64, out: &mut [u8])
        requires { at + length out.old < 2 ^ 64 }
        ensures { LaidOverAll self.now at out.old out.new }
    {
        self.third.lay_over(at, out);
        self.second.lay_over(at, out);
        self.first.lay_over(at, out);
    }
}
