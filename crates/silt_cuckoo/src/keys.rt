//! The two buckets of a key.

ghost use Rattle.std.specs.Prelude.{◌≡◌, ◌≤◌, ◌<◌, length};
ghost use Rattle.silt_cuckoo.specs.Keys.{first_bucket, second_bucket};

use byteorder::{BigEndian, ByteOrder};

/// The two buckets of a key in a table of this many buckets. They are its bytes 0 and 1, and its bytes 2 and 3, as big-endian
/// numbers modulo the number of buckets.
pub fn key_buckets(key: &[u8], buckets: u32) -> (u32, u32)
    requires four_bytes { 4 ≤ length key.now }
    requires some { 0 < buckets }
    ensures first { result.0 ≡ first_bucket buckets key.now }
    ensures second { result.1 ≡ second_bucket buckets key.now }
    ensures first_below { result.0 < buckets }
    ensures second_below { result.1 < buckets }
{
    let first = BigEndian::read_u16(&key[0..2]) as u32;
    let second = BigEndian::read_u16(&key[2..4]) as u32;
    // Each table has a power of two of buckets. A mask is then some ten times as fast as a division.
    if buckets.is_power_of_two() {
        let mask = buckets - 1;
        return (first & mask, second & mask);
    }
    (first % buckets, second % buckets)
}
