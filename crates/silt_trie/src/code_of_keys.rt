//! The code of keys.
ghost use Rattle.std.specs.Prelude.{◌≡◌, ◌+◌, ◌^◌, ◌<◌, ◌++◌, length, OnOk, OnErr};
ghost use Rattle.silt_trie.specs.Code.{IsCodable, trie_code, with_bit};
ghost use Rattle.silt_trie.specs.Coded.{Grows, bytes_of};

use super::key::{KEY_BITS, key_bit};
use silt_frame::Key;
use silt_gamma::BitWriter;
use std::alloc::AllocError;

/// Appends the code of keys that rise strictly and agree in their first `depth` bits. The codes of
/// many tries may follow one another. After an error part of the code may have been appended.
pub fn write_code(bits: &mut BitWriter, keys: &[Key], depth: usize) -> Result<(), AllocError>
    requires { IsCodable (bytes_of keys.now) depth }
    ensures ok { OnOk result (bits.new ≡ bits.old ++ trie_code (bytes_of keys.now) depth) }
    ensures err { OnErr result (Grows bits.old bits.new) }
{
    if keys.len() < 2 || depth >= KEY_BITS {
        return Ok(());
    }
    let left = count_left(keys, depth);
    bits.write_gamma(left as u32 + 1)?;
    let (lefts, rights) = keys.split_at(left);
    write_code(bits, lefts, depth + 1)?;
    write_code(bits, rights, depth + 1)
}

/// How many of the keys have bit 0 at `depth`. They come first.
pub(crate) fn count_left(keys: &[Key], depth: usize) -> usize
    requires within { depth < 160 }
    requires codable { IsCodable (bytes_of keys.now) depth }
    ensures { result ≡ length (with_bit 0 depth (bytes_of keys.now)) }
{
    let mut low = 0;
    let mut high = keys.len();
    while low < high {
        let middle = low + (high - low) / 2;
        if key_bit(&keys[middle], depth) == 0 {
            low = middle + 1;
        } else {
            high = middle;
        }
    }
    low
}
