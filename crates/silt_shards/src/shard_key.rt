// Which shard of a set a key belongs to.
ghost use Rattle.std.specs.Prelude.{◌≡◌, ◌<◌};
ghost use Rattle.silt_shards.specs.Routing.{only_shard, shard_of};

use byteorder::{BigEndian, ByteOrder};
use silt_event::Event;
use silt_frame::Key;

/// The fewest shards of a set.
pub const LEAST_SHARDS: u32 = 2;

/// The most shards of a set.
pub const MOST_SHARDS: u32 = 64;

/// The shard of a key in a set of this many shards: bytes 4 to 7 of the key as a big-endian number, modulo the number of
/// shards. So keys are spread over the shards if these bytes are, as in a digest.
pub fn shard_of(count: u32, key: &Key) -> u32
    requires { 0 < count }
    ensures shard { result ≡ shard_of count key.now }
    ensures within { result < count }
{
    BigEndian::read_u32(&key.0[4..8]) % count
}

// The shard that alone does an event: that of its key, if it has one.
pub fn only_shard(count: u32, event: &Event) -> Option<u32>
    requires { 0 < count }
    ensures { result ≡ only_shard count event.now }
{
    match event {
        Event::Put(key, _) => Some(shard_of(count, key)),
        Event::Delete(key) => Some(shard_of(count, key)),
        Event::Swap(key, _, _) => Some(shard_of(count, key)),
        Event::Get(key) => Some(shard_of(count, key)),
        Event::Flush | Event::Convert | Event::Merge => None,
    }
}
