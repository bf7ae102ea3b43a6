//! The place of a key, read from code.
ghost use Rattle.std.specs.Prelude.{◌≡◌, ℕ, ◌+◌, ◌^◌, ◌<◌, ◌≤◌, List};
ghost use Rattle.silt_gamma.specs.Gamma.{BeginsWithCode};
ghost use Rattle.silt_trie.specs.Coded.{ArePast, IsPlaceIn};
ghost use Rattle.silt_trie.specs.Marks.{IsPlaceBySkips};

use super::key::{KEY_BITS, key_bit};
use super::skips::{divide_skips, pass_code};
use silt_frame::Key;
use silt_gamma::BitReader;

/// The greatest number of codes that can be pending while a code is skipped: one at each depth but
/// the last, which may have two.
const MOST_PENDING: usize = 161;

/// The only possible place of the key among the `count` keys whose code the bits begin with. The
/// keys agree in their first `depth` bits. With other bits it is some place below `count`.
pub fn locate_in(mut bits: BitReader<'_>, count: usize, depth: usize, key: &Key) -> usize
    requires some { 0 < count }
    requires counted { count < 2 ^ 32 }
    ensures below { result < count }
    ensures place { IsPlaceIn bits.entry count depth key.now.0 result }
{
    locate_from(&mut bits, count as u32, depth, key, &[]) as usize
}

/// The same. It takes codes off the front of the bits, and skips code on the left with the help of
/// the skips.
pub(crate) fn locate_from(
    bits: &mut BitReader<'_>,
    count: u32,
    depth: usize,
    key: &Key,
    skips: &[u16],
) -> u32
    requires { 0 < count }
    ensures below { result < count }
    ensures place { IsPlaceBySkips bits.old count depth skips.now key.now.0 result }
{
    if count < 2 || depth >= KEY_BITS {
        return 0;
    }
    let left = read_left(bits, count);
    let (skip, lefts, rights) = divide_skips(skips);
    if key_bit(key, depth) == 0 {
        if left == 0 {
            return 0;
        }
        return locate_from(bits, left, depth + 1, key, lefts);
    }
    if left == count {
        return 0;
    }
    pass_code(bits, left, depth + 1, skip);
    left + locate_from(bits, count - left, depth + 1, key, rights)
}

/// Takes the code of `count` keys off the front, in one pass. The numbers of keys whose codes are
/// still to come are pending, the next one last. Each has at least two keys, so each turn of the
/// loop takes one code.
pub(crate) fn skip_code(bits: &mut BitReader<'_>, count: u32, depth: usize)
    ensures { ArePast bits.old count depth bits.new }
{
    if count < 2 {
        return;
    }
    let mut pending = [0; MOST_PENDING];
    pending[0] = count;
    let mut top = 1;
    while top > 0 && top <= KEY_BITS {
        top -= 1;
        let count = pending[top];
        let Some(next) = bits.read_gamma() else {
            return;
        };
        let left = (next - 1).min(count);
        let right = count - left;
        pending[top] = right;
        top += usize::from(right >= 2);
        pending[top] = left;
        top += usize::from(left >= 2);
    }
}

/// Takes a number of keys on the left, at most `count`, off the front.
fn read_left(bits: &mut BitReader<'_>, count: u32) -> u32
    ensures within { result ≤ count }
    ensures read { (n : ℕ) (rest : List ℕ) → BeginsWithCode bits.old (n + 1) rest → n ≤ count
        → (result ≡ n) × (bits.new ≡ rest) }
{
    match bits.read_gamma() {
        Some(next) => (next - 1).min(count),
        None => 0,
    }
}
