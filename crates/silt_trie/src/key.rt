//! The bits of a key.
ghost use Rattle.std.specs.Prelude.{◌≡◌, ◌<◌, length};
ghost use Rattle.silt_trie.specs.Code.{bit_of};
ghost use Rattle.silt_frame.specs.Frame.{key_len};

use silt_frame::Key;

/// The length of a key, in bits.
pub(crate) const KEY_BITS: usize = 160;

/// Bit `depth` of a key; bit 0 is the highest bit of the first byte.
pub(crate) fn key_bit(key: &Key, depth: usize) -> u8
    requires { depth < 160 }
    ensures bit { result ≡ bit_of depth key.now.0 }
    ensures sized { length key.now.0 ≡ key_len }
{
    key.0[depth / 8] >> (7 - depth % 8) & 1
}
