// The manifest record of a slot: its body, which follows the commit byte.
ghost use Rattle.std.specs.Prelude.{◌≡◌, ◌+◌, ◌*◌, ◌<◌, ◌≤◌, ◌++◌, ◌⊎◌, true, false, length, replicate, take, IfSome, IfNone};
ghost use Rattle.silt_disk.specs.Layout.{most_hashes};
ghost use Rattle.silt_manifest.specs.Numbers.{ids_bytes};
ghost use Rattle.silt_manifest.specs.Body.{FitsSlot, all_below, body_bytes, body_of, first_body, has_sound_hashes, has_sound_logs, is_distinct, is_well_formed};
ghost use Rattle.silt_manifest.specs.Digests.{is_long};
ghost use Rattle.byteorder.specs.Endian.{big_bytes};

use crate::ids::Ids;
use byteorder::{BigEndian, ByteOrder};
use silt_disk::Geometry;

/// The length of a body, in bytes.
pub(crate) const BODY_LEN: usize = 120;

/// The length of a slot's meaningful bytes: the commit byte, the body, and the digests after it.
pub(crate) const SLOT_LEN: usize = 461;

// The highest bit of a generation's field: if set, digests follow the body.
const LONG_BIT: u64 = 1 << 63;

// The room for frozen logs: one less than the greatest number of log regions.
const FROZEN_ROOM: usize = 7;

// The room for hash stores.
const HASHED_ROOM: usize = 16;

/// The regions that make up the store.
#[derive(Clone, Copy, Debug, PartialEq, Eq)]
pub struct Body {
    /// If both slots are open, the body of greater generation is current. Even generations lie in slot 0, odd ones in slot 1.
    pub generation: u64,
    /// The region of the log that takes writes.
    pub active: u32,
    /// The regions of the full logs, from the newest.
    pub frozen: Ids,
    /// The hash regions in use, from the newest.
    pub hashed: Ids,
    /// The sorted region in use, 0 or 1.
    pub sorted: u32,
    /// The number of its entries.
    pub sorted_count: u32,
}

// Whether each of these regions exists, if there are this many.
fn are_below(ids: &[u32], count: u32) -> bool
    ensures { result ≡ all_below count ids.now }
{
    ids.iter().all(|id| *id < count)
}

// Whether no number occurs twice.
fn are_distinct(ids: &[u32]) -> bool
    ensures { result ≡ is_distinct ids.now }
{
    match ids {
        [] => true,
        [first, rest @ ..] => !rest.contains(first) && are_distinct(rest),
    }
}

// Writes a number of four bytes.
fn put_number(bytes: &mut [u8], at: usize, number: u32)
    requires { at + 4 ≤ length bytes.old }
    ensures { take (at + 4) bytes.new ≡ take at bytes.old ++ big_bytes 4 number }
{
    BigEndian::write_u32(&mut bytes[at..at + 4], number);
}

// Writes a number of eight bytes.
fn put_long(bytes: &mut [u8], at: usize, number: u64)
    requires { at + 8 ≤ length bytes.old }
    ensures { take (at + 8) bytes.new ≡ take at bytes.old ++ big_bytes 8 number }
{
    BigEndian::write_u64(&mut bytes[at..at + 8], number);
}

// Writes this many zeros.
fn put_zeros(bytes: &mut [u8], at: usize, count: usize)
    requires there { at + count ≤ length bytes.old }
    requires short { length bytes.old < 4096 }
    ensures { take (at + count) bytes.new ≡ take at bytes.old ++ replicate count 0 }
{
    bytes[at..at + count].fill(0);
}

// Writes the number of ids and then the ids, with zeros in the room that is left.
fn put_ids(bytes: &mut [u8], at: usize, room: usize, ids: &[u32])
    requires fits { length ids.now ≤ room }
    requires small { room ≤ most_hashes }
    requires there { at + (4 + 4 * room) ≤ length bytes.old }
    requires short { length bytes.old < 4096 }
    ensures { take (at + (4 + 4 * room)) bytes.new ≡ take at bytes.old ++ ids_bytes room ids.now }
{
    put_number(bytes, at, ids.len() as u32);
    for k in 0..ids.len() {
        put_number(bytes, at + 4 + 4 * k, ids[k]);
    }
    put_zeros(bytes, at + 4 + 4 * ids.len(), 4 * (room - ids.len()));
}

// Whether digests follow the body of a slot. The slot begins with its commit byte.
pub(crate) fn is_long(slot: &[u8; SLOT_LEN]) -> bool
    ensures { result ≡ is_long slot.now }
{
    LONG_BIT <= BigEndian::read_u64(&slot[1..9])
}

impl Body {
    /// The body of a newly formatted store: generation 0, and all else 0 or none.
    pub fn first() -> Self
        ensures { result ≡ first_body }
    {
        Body {
            generation: 0,
            active: 0,
            frozen: Ids::new(),
            hashed: Ids::new(),
            sorted: 0,
            sorted_count: 0,
        }
    }

    // Whether the logs exist and are distinct.
    fn has_sound_logs(&self, logs: u32) -> bool
        ensures { result ≡ has_sound_logs logs self.now }
    {
        let frozen = self.frozen.as_slice();
        frozen.len() < logs as usize
            && self.active < logs
            && are_below(frozen, logs)
            && !frozen.contains(&self.active)
            && are_distinct(frozen)
    }

    // Whether the hash stores exist and are distinct.
    fn has_sound_hashes(&self, hashes: u32) -> bool
        ensures { result ≡ has_sound_hashes hashes self.now }
    {
        let hashed = self.hashed.as_slice();
        hashed.len() <= hashes as usize && are_below(hashed, hashes) && are_distinct(hashed)
    }

    /// Whether the body may lie in this slot. The generation is at most 2^63 - 1, and its remainder by 2 is the slot's number. The
    /// active log and the frozen ones exist and are distinct, and so are the hash stores. The sorted region is 0 or 1, and its count
    /// is within its capacity.
    pub fn is_well_formed(&self, geometry: &Geometry, slot: u32) -> bool
        ensures { result ≡ is_well_formed geometry.now slot self.now }
    {
        self.generation < 1 << 63
            && self.generation % 2 == u64::from(slot)
            && self.has_sound_logs(geometry.logs())
            && self.has_sound_hashes(geometry.hashes())
            && self.sorted < 2
            && self.sorted_count <= geometry.sorted_capacity()
    }

    // The bytes right after the commit byte.
    pub(crate) fn to_bytes(&self) -> [u8; BODY_LEN]
        requires { FitsSlot self.now }
        ensures { result ≡ body_bytes self.now }
    {
        let mut bytes = [0; BODY_LEN];
        put_long(&mut bytes, 0, self.generation + LONG_BIT);
        put_number(&mut bytes, 8, self.active);
        put_ids(&mut bytes, 12, FROZEN_ROOM, self.frozen.as_slice());
        put_ids(&mut bytes, 44, HASHED_ROOM, self.hashed.as_slice());
        put_number(&mut bytes, 112, self.sorted);
        put_number(&mut bytes, 116, self.sorted_count);
        bytes
    }

    // Decodes the body of a slot, which begins with its commit byte. `None` if it counts more ids than a store of this geometry has.
    fn decode(slot: &[u8; SLOT_LEN], geometry: &Geometry) -> Option<Self>
        ensures read { IfSome result (λ body. body ≡ body_of slot.now) }
        ensures too_many { IfNone result ((geometry.now.logs ≤ length (body_of slot.now).frozen) ⊎ (geometry.now.hashes < length (body_of slot.now).hashed)) }
    {
        Some(Body {
            generation: BigEndian::read_u64(&slot[1..9]) % LONG_BIT,
            active: BigEndian::read_u32(&slot[9..13]),
            frozen: Ids::read(slot, 13, geometry.logs() as usize - 1)?,
            hashed: Ids::read(slot, 45, geometry.hashes() as usize)?,
            sorted: BigEndian::read_u32(&slot[113..117]),
            sorted_count: BigEndian::read_u32(&slot[117..121]),
        })
    }

    // Decodes the body of a slot, which begins with its commit byte, if the body is well formed.
    #[tactic(auto, using(crate::proofs::SoundBodies::too_many_ids))]
    pub(crate) fn from_slot(bytes: &[u8; SLOT_LEN], geometry: &Geometry, slot: u32) -> Option<Self>
        ensures sound { IfSome result (λ body. (body ≡ body_of bytes.now) × (is_well_formed geometry.now slot body ≡ true)) }
        ensures unsound { IfNone result (is_well_formed geometry.now slot (body_of bytes.now) ≡ false) }
    {
        let body = Self::decode(bytes, geometry)?;
        if body.is_well_formed(geometry, slot) {
            Some(body)
        } else {
            None
        }
    }
}
