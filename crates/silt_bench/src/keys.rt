// The keys of the bench. They are spread as digests are, and each is made from a number. The
// benches of other stores use the same keys.
ghost use Rattle.std.specs.Prelude.{◌≡◌, ◌<◌, ◌%◌};

use silt_frame::Key;
use silt_shards::{LEAST_SHARDS, shard_of};

// Spreads the bits of a number.
fn mix(number: u64) -> u64 {
    let mut x = number.wrapping_add(0x9E37_79B9_7F4A_7C15);
    x = (x ^ (x >> 30)).wrapping_mul(0xBF58_476D_1CE4_E5B9);
    x = (x ^ (x >> 27)).wrapping_mul(0x94D0_49BB_1331_11EB);
    x ^ (x >> 31)
}

/// The key of a number.
pub fn key_of(number: u64) -> Key {
    let mut bytes = [0; 20];
    let first = mix(number).to_le_bytes();
    let second = mix(number ^ 0xAB_CDEF).to_le_bytes();
    let third = mix(number.wrapping_add(0x5555)).to_le_bytes();
    bytes[0..8].copy_from_slice(&first);
    bytes[8..16].copy_from_slice(&second);
    bytes[16..20].copy_from_slice(&third[0..4]);
    Key(bytes)
}

/// The number of the store that has a key, of so many stores: its shard in a set, or the only store.
pub fn store_of(key: &Key, stores: u32) -> usize
    ensures { 0 < stores → result < stores }
{
    if stores < LEAST_SHARDS {
        return 0;
    }
    shard_of(stores, key) as usize
}

/// The byte that the value of a number is made of.
pub fn byte_of(number: u64) -> u8
    ensures { result ≡ number % 251 }
{
    (number % 251) as u8
}

/// A number below `count`, which differs from one turn of a thread to the next. 0 if `count` is 0.
pub fn pick(turn: u64, thread: u64, count: u64) -> u64
    ensures { 0 < count → result < count }
{
    if count == 0 {
        return 0;
    }
    mix(turn.wrapping_mul(64).wrapping_add(thread)) % count
}
