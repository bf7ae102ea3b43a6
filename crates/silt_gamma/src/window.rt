//! Words of 64 bits, read from any place of some bytes.
ghost use Rattle.std.specs.Prelude.{◌≡◌, ◌*◌, ◌<◌, ◌≤◌, ◌++◌, length, take, drop, replicate};
ghost use Rattle.silt_gamma.specs.Bits.{low_bits, bits_of};

/// The 64 bits from place `at` on, with zeros after the last byte.
pub(crate) fn window_at(bytes: &[u8], at: usize) -> u64
    requires { at ≤ 8 * length bytes.now }
    ensures { low_bits 64 result ≡ take 64 (drop at (bits_of bytes.now ++ replicate 72 0)) }
{
    let (_, rest) = bytes.split_at(at / 8);
    if rest.len() >= 9 {
        return front_window(rest, at % 8);
    }
    let mut padded = [0u8; 9];
    padded[..rest.len()].copy_from_slice(rest);
    front_window(&padded, at % 8)
}

/// The 64 bits after the first `skipped` ones.
fn front_window(bytes: &[u8], skipped: usize) -> u64
    requires enough { 9 ≤ length bytes.now }
    requires within { skipped < 8 }
    ensures { low_bits 64 result ≡ take 64 (drop skipped (bits_of bytes.now)) }
{
    let word = u64::from_be_bytes([
        bytes[0], bytes[1], bytes[2], bytes[3], bytes[4], bytes[5], bytes[6], bytes[7],
    ]);
    (word << skipped) | (u64::from(bytes[8]) >> (8 - skipped))
}
