// A disk as the store sees it: what a read gives, and the possible crash images.
ghost use Rattle.std.specs.Prelude.{◌≡◌, ◌+◌, ◌%◌, ◌^◌, ◌≤◌, ℕ, length, slice_range, IfErr, OnOk, OnErr, MatchResult, IsTrue};
ghost use Rattle.silt_disk.specs.declared.disk.Call.{Call};
ghost use Rattle.silt_disk.specs.declared.disk.Call.TheVariants.{Read, Write, Sync};
ghost use Rattle.silt_disk.specs.Disk.{Content, Tears, Writes, Settles, Stays, Restarts, Makes, size};

use std::fmt;

/// The calls of a disk that can fail.
#[derive(Clone, Copy, Debug, PartialEq, Eq)]
pub enum Call {
    /// A read of a range.
    Read,
    /// A write of a range.
    Write,
    /// A sync of all writes before it.
    Sync,
}

/// A call of a disk and where its range begins, as text.
#[derive(Clone, Copy, Debug, PartialEq, Eq)]
pub struct CallAt {
    pub call: Call,
    pub at: u64,
}

impl fmt::Display for CallAt {
    fn fmt<W: fmt::Write>(&self, f: &mut fmt::Formatter<W>) -> fmt::Result {
        let at = self.at;
        match self.call {
            Call::Read => write!(f, "a read at {at}"),
            Call::Write => write!(f, "a write at {at}"),
            Call::Sync => write!(f, "a sync"),
        }
    }
}

/// A disk of a fixed length in bytes. The caller makes sure that each range that it reads or writes lies within the disk.
pub trait Disk: Send + Sync + Drop {
    /// The error of a failed call. Code that is generic over disks can neither make nor copy one.
    type Fault: Send + Drop;

    /// Whether the disk is honest (obeys the crash model), what reads give, and what a crash may leave.
    ghost content: { Self → Content };

    /// How many writes and syncs have failed, modulo 2^64.
    ghost failures: { Self → ℕ };

    /// How many writes it was asked for, modulo 2^64, whether each returned Ok or not.
    ghost writes: { Self → ℕ };

    /// The same of syncs.
    ghost syncs: { Self → ℕ };

    /// The disk, in its present state, gave this fault for this call on this range (offset and length).
    ghost gave: { Self → Self.Fault → Call → ℕ → ℕ → Type 0 };

    /// The length in bytes.
    fn len(&self) -> u64
        ensures { result ≡ size (content self.now) };

    /// Reads the shown bytes from `at` on. After a fault the buffer may hold any bytes.
    fn read(&self, at: u64, buf: &mut [u8]) -> Result<(), Self::Fault>
        requires { at + length buf.old ≤ size (content self.now) }
        ensures bytes { IsTrue (content self.now).honest →
            OnOk result (buf.new ≡ slice_range (content self.now).shown at (at + length buf.old)) }
        ensures fault { IfErr result (λ fault. gave self.now fault Read at (length buf.old)) };

    /// Writes bytes from `at` on, and makes their range pending. After a fault that range may show any bytes.
    fn write(&mut self, at: u64, buf: &[u8]) -> Result<(), Self::Fault>
        requires { at + length buf.now ≤ size (content self.old) }
        ensures size { size (content self.new) ≡ size (content self.old) }
        ensures made { Makes writes syncs 1 0 self.old self.new }
        ensures torn { Tears at (length buf.now) (content self.old) (content self.new) }
        ensures written { OnOk result (Writes at buf.now (content self.old) (content self.new)) }
        ensures failures { MatchResult result (λ _. failures self.new ≡ failures self.old)
            (λ fault. (failures self.new ≡ (failures self.old + 1) % 2 ^ 64)
            × gave self.new fault Write at (length buf.now)) };

    /// Settles all that is shown. After a fault nothing has changed.
    fn sync(&mut self) -> Result<(), Self::Fault>
        ensures size { size (content self.new) ≡ size (content self.old) }
        ensures made { Makes writes syncs 0 1 self.old self.new }
        ensures settled { OnOk result (Settles (content self.old) (content self.new)) }
        ensures unchanged { OnErr result (Stays (content self.old) (content self.new)) }
        ensures failures { MatchResult result (λ _. failures self.new ≡ failures self.old)
            (λ fault. (failures self.new ≡ (failures self.old + 1) % 2 ^ 64)
            × gave self.new fault Sync 0 (size (content self.new))) };
}

/// A disk that can crash at any moment, and then be opened again.
pub trait Stoppable: Disk {
    /// The disk after a stop (a crash): it shows one of the possible crash images, and nothing is pending.
    fn restart(self) -> Self
        ensures size { size (Self.content result) ≡ size (Self.content self) }
        ensures content { Restarts (Self.content self) (Self.content result) }
        ensures failures { Self.failures result ≡ Self.failures self }
        ensures made { Makes Self.writes Self.syncs 0 0 self result };
}
