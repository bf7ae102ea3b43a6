//! Keys that can be coded.
ghost use Rattle.std.specs.Prelude.{◌≢◌, ◌<◌, ◌≤◌, ◌↔◌, IsTrue};
ghost use Rattle.silt_trie.specs.Code.{AgreeIn, Follows, bit_of};

use super::key::{KEY_BITS, key_bit};
use silt_frame::Key;

/// Whether the second key is greater than the first, and they agree in their first `depth` bits.
pub fn follows(a: &Key, b: &Key, depth: usize) -> bool
    ensures { IsTrue result ↔ Follows depth a.now.0 b.now.0 }
{
    let common = common_bits(a, b);
    if common >= KEY_BITS || common < depth {
        return false;
    }
    key_bit(a, common) < key_bit(b, common)
}

/// The number of bits before the first one in which two keys differ.
fn common_bits(a: &Key, b: &Key) -> usize
    ensures within { result ≤ 160 }
    ensures alike { AgreeIn result a.now.0 b.now.0 }
    ensures differ { result < 160 → bit_of result a.now.0 ≢ bit_of result b.now.0 }
{
    for at in 0..KEY_BITS {
        if key_bit(a, at) != key_bit(b, at) {
            return at;
        }
    }
    KEY_BITS
}
