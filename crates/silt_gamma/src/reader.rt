//! A reader of bits.
ghost use Rattle.std.specs.Prelude.{◌≡◌, ℕ, ◌+◌, ◌-◌, ◌*◌, ◌^◌, ◌<◌, ◌≤◌, ◌⊎◌, List, length, take, drop, IfSome, IfNone, Some};
ghost use Rattle.std.specs.Int.Count.{count_leading_zeros};
ghost use Rattle.silt_gamma.specs.Bits.{IsWindow, bits_of};
ghost use Rattle.silt_gamma.specs.Gamma.{BeginsWithCode};

use super::window::window_at;
use std::marker::Model;

/// The bits of some bytes from one place up to another, read from the front. In contracts it is
/// the list of the bits that are left.
///
/// The highest `ready` bits of `window` are the next ones. So most codes are read without access
/// to the bytes.
#[derive(Drop)]
pub struct BitReader<'a> {
    bytes: &'a [u8],
    at: usize,
    end: usize,
    window: u64,
    ready: usize,
}

impl<'a> Model for BitReader<'a> {
    ghost Value = { List ℕ };

    ghost view = { λ r. take (r.end - r.at) (drop r.at (bits_of r.bytes.now)) };

    ghost invariant = { λ r. IsWindow r.bytes.now r.at r.end r.window r.ready };
}

impl<'a> BitReader<'a> {
    /// Reads `count` bits from place `start` on; place 0 is the highest bit of the first byte.
    pub fn new(bytes: &'a [u8], start: usize, count: usize) -> BitReader<'a>
        requires within { start + count ≤ 8 * length bytes.now }
        requires counted { start + count < 2 ^ 64 }
        ensures { result ≡ take count (drop start (bits_of bytes.now)) }
    {
        BitReader {
            bytes,
            at: start,
            end: start + count,
            window: 0,
            ready: 0,
        }
    }

    /// The number of bits that are left.
    pub fn len(&self) -> usize
        ensures { result ≡ length self.now }
    {
        self.end - self.at
    }

    /// Takes the gamma code at the front, and returns its number. If no whole code is there, or 32
    /// zeros come first, it takes nothing.
    pub fn read_gamma(&mut self) -> Option<u32>
        ensures read { (n : ℕ) (rest : List ℕ) → BeginsWithCode self.old n rest
            → (result ≡ Some n) × (self.new ≡ rest) }
        ensures found { IfSome result (λ n. BeginsWithCode self.old n self.new) }
        ensures none { IfNone result (self.new ≡ self.old) }
    {
        let (window, ready) = wide_window(self.bytes, self.at, self.window, self.ready);
        let width = code_width(window);
        if width > ready || self.end - self.at < width {
            return None;
        }
        self.window = window << width;
        self.ready = ready - width;
        self.at += width;
        Some((window >> (64 - width)) as u32)
    }

    /// Takes this many bits off the front.
    pub fn skip(&mut self, count: usize)
        requires { count ≤ length self.old }
        ensures { self.new ≡ drop count self.old }
    {
        self.at += count;
        self.window = 0;
        self.ready = 0;
    }
}

/// The window, if it has all of the code at its front, and else one that is read again.
fn wide_window(bytes: &[u8], at: usize, window: u64, ready: usize) -> (u64, usize)
    requires { at ≤ 8 * length bytes.now }
    ensures same { (end : ℕ) → IsWindow bytes.now at end window ready
        → IsWindow bytes.now at end result.0 result.1 }
    ensures wide { (result.1 ≡ 64) ⊎ (2 * count_leading_zeros 64 result.0 + 1 ≤ result.1) }
{
    if code_width(window) <= ready {
        return (window, ready);
    }
    (window_at(bytes, at), 64)
}

/// The number of bits of the code at the front of a word. More than 64 means that no code is there.
fn code_width(window: u64) -> usize
    ensures { result ≡ 2 * count_leading_zeros 64 window + 1 }
{
    2 * window.leading_zeros() as usize + 1
}
