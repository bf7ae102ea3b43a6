//! A writer of bits.
ghost use Rattle.std.specs.Prelude.{◌≡◌, ℕ, ◌+◌, ◌-◌, ◌*◌, ◌/◌, ◌^◌, ◌<◌, ◌≤◌, List, [], ◌++◌, length, take, drop, replicate, IfOk, OnOk, OnErr};
ghost use Rattle.silt_gamma.specs.Bits.{low_bits, high_bits, first_bits, HoldsBits, IsFilledTo};
ghost use Rattle.silt_gamma.specs.Gamma.{gamma_code};

use super::reader::BitReader;
use std::alloc::{AllocError, Global};
use std::marker::Model;

/// Bits in memory, in the order of appending. They fill bytes from the highest bit of the first byte
/// on. In contracts it is the list of its bits.
pub struct BitWriter {
    bytes: Vec<u8>,
    len: usize,
}

impl Model for BitWriter {
    ghost Value = { List ℕ };

    ghost view = { λ w. first_bits w.len w.bytes.items };

    ghost invariant = { λ w. IsFilledTo w.len w.bytes.items };
}

impl Drop for BitWriter {
    // An array that is large gets a mapping of its own from the C library. When that is freed as it is, the library takes
    // arrays of up to this size from its heaps from then on, and these keep what is freed. So it is made small first.
    fn drop(self) {
        let Self { mut bytes, len: _ } = self;
        bytes.clear();
        bytes.shrink_to(1);
    }
}

impl BitWriter {
    /// No bits.
    pub fn new(alloc: Global) -> BitWriter
        ensures { result ≡ [] }
    {
        BitWriter {
            bytes: Vec::new(alloc),
            len: 0,
        }
    }

    /// The number of bits.
    pub fn len(&self) -> usize
        ensures { result ≡ length self.now }
    {
        self.len
    }

    /// The bytes that hold the bits. Zeros fill up the last one.
    pub fn as_bytes(&self) -> &[u8]
        ensures { HoldsBits result.now self.now }
    {
        self.bytes.as_slice()
    }

    /// A reader of the `count` bits from place `start` on.
    pub fn reader(&self, start: usize, count: usize) -> BitReader<'_>
        requires { start + count ≤ length self.now }
        ensures { result ≡ take count (drop start self.now) }
    {
        let _known = self.len; // the bytes hold so many bits
        BitReader::new(&self.bytes, start, count)
    }

    /// Keeps the first `len` bits.
    pub fn truncate(&mut self, len: usize)
        requires { len ≤ length self.old }
        ensures { self.new ≡ take len self.old }
    {
        self.bytes.truncate(len.div_ceil(8));
        let used = len % 8;
        if used > 0 {
            let spare = 8 - used;
            self.bytes[len / 8] = self.bytes[len / 8] >> spare << spare;
        }
        self.len = len;
    }

    /// Frees the memory that the bits do not need.
    pub fn shrink_to_fit(&mut self)
        ensures { self.new ≡ self.old }
    {
        self.bytes.shrink_to_fit();
    }

    /// Appends the gamma code of `n`. If a `usize` cannot count the bits, that is out of memory too.
    pub fn write_gamma(&mut self, n: u32) -> Result<(), AllocError>
        requires { 1 ≤ n }
        ensures ok { OnOk result (self.new ≡ self.old ++ gamma_code n) }
        ensures err { OnErr result (self.new ≡ self.old) }
    {
        let zeros = n.ilog2() as usize;
        self.write_bits(u64::from(n), 2 * zeros + 1)
    }

    /// Appends the lowest `width` bits of `value`. Its other bits are 0.
    fn write_bits(&mut self, value: u64, width: usize) -> Result<(), AllocError>
        requires some { 1 ≤ width }
        requires word { width ≤ 64 }
        requires small { value < 2 ^ width }
        ensures ok { OnOk result (self.new ≡ self.old ++ low_bits width value) }
        ensures err { OnErr result (self.new ≡ self.old) }
    {
        let len = self.len.checked_add(width).ok_or(AllocError)?;
        append(&mut self.bytes, self.len, value << (64 - width), width)?;
        self.len = len;
        Ok(())
    }
}

/// Appends the highest `width` bits of `word` to the `len` bits in `bytes`. The other bits of `word` are 0.
fn append(bytes: &mut Vec<u8>, len: usize, word: u64, width: usize) -> Result<(), AllocError>
    requires some { 1 ≤ width }
    requires word { width ≤ 64 }
    requires alone { low_bits 64 word ≡ high_bits width word ++ replicate (64 - width) 0 }
    requires filled { IsFilledTo len bytes.old.items }
    ensures ok { OnOk result
        (HoldsBits bytes.new.items (first_bits len bytes.old.items ++ high_bits width word)) }
    ensures err { OnErr result (bytes.new.items ≡ bytes.old.items) }
{
    let used = len % 8;
    if used == 0 {
        let more = word.to_be_bytes();
        bytes.extend_from_slice(&more[..width.div_ceil(8)])?;
        return Ok(());
    }
    let more = (word << (8 - used)).to_be_bytes();
    bytes.extend_from_slice(&more[..(used + width - 1) / 8])?;
    bytes[len / 8] |= (word >> (56 + used)) as u8;
    Ok(())
}
