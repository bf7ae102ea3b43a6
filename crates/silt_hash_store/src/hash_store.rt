// A hash store and its look-ups.
ghost use Rattle.std.specs.Prelude.{◌≡◌, ◌+◌, ◌*◌, ◌<◌, ◌≤◌, ℕ, None, drop, length, IsTrue, IfOk, IfErr, IfSome, OnOk};
ghost use Rattle.silt_disk.specs.Disk.{GaveAny, size};
ghost use Rattle.silt_disk.specs.Layout.{device_size, row_len};
ghost use Rattle.silt_hash_store.specs.Slots.{HoldsSlots, hash_rows};
ghost use Rattle.silt_log.specs.Found.{put_place};

use crate::lookup::{Sought, find_in};
use crate::rebuild::{Rebuilt, rebuild_region};
use crate::region::{HashRegion, Head};
use crate::tags::Tags;
use silt_cuckoo::key_buckets;
use silt_disk::{Disk, Geometry};
use silt_frame::{Digest, HEAD_LEN, Key, Kind, Row};
use silt_log::{Found, ScanError};
use std::alloc::Global;
use std::marker::Model;

/// The greatest length of a row, in bytes, that is read whole for its value.
const WHOLE_LEN: usize = 512;

/// A hash region with the tag of each of its slots, the number of its puts and the digest of its slots.
///
/// An honest disk is one that obeys the crash model. On another disk the calls are safe and end, but promise nothing about rows.
/// Only `rebuild` allocates memory.
#[derive(Drop)]
pub struct HashStore {
    pub(crate) region: HashRegion,
    pub(crate) tags: Tags,
    pub(crate) puts: u32,
    pub(crate) digest: Digest,
}

impl Model for HashStore {
    ghost use Rattle.silt_hash_store.specs.State.{HashState, IsHeldHash};

    ghost Value = { HashState };

    ghost view = { λ s. record { shape = s.region.geometry; region = s.region.number; tags = s.tags; puts = s.puts; digest = s.digest.0 } };

    ghost invariant = { λ s. IsHeldHash (record { shape = s.region.geometry; region = s.region.number; tags = s.tags; puts = s.puts; digest = s.digest.0 }) };
}

impl HashStore {
    ghost use Rattle.silt_hash_store.specs.State.{HashState, IsHeldHash, IsHashStore, IsTagged};
    ghost use Rattle.silt_hash_store.specs.Lookup.{FindsRow, IsRowAt};
    ghost use Rattle.silt_hash_store.specs.Rebuild.{IsFirstUnsound, IsRebuiltHash};
    ghost use Rattle.silt_log.specs.Scans.{IsScanRefused};
    ghost use Rattle.silt_hash_store.specs.Slots.{has_tag_of, rows_before, slot_row};
    ghost use Rattle.silt_frame.specs.Frame.{head_len};

    /// The store of a region whose slots have these tags and this digest, and whose rows have this many puts.
    pub fn new(region: HashRegion, tags: Tags, puts: u32, digest: Digest) -> Self
        requires held { IsHeldHash (record { shape = region.geometry; region = region.number; tags = tags; puts = puts; digest = digest.0 }) }
        ensures { result ≡ record { shape = region.geometry; region = region.number; tags = tags; puts = puts; digest = digest.0 } }
    {
        HashStore {
            region,
            tags,
            puts,
            digest,
        }
    }

    /// The geometry of the store.
    pub fn geometry(&self) -> Geometry
        ensures value { result ≡ self.now.shape }
        ensures held { IsHeldHash self.now }
    {
        self.region.geometry
    }

    /// The number of the region.
    pub fn region(&self) -> u32
        ensures value { result ≡ self.now.region }
        ensures held { IsHeldHash self.now }
    {
        self.region.number
    }

    /// The number of puts among its rows.
    pub fn puts(&self) -> u32
        ensures value { result ≡ self.now.puts }
        ensures held { IsHeldHash self.now }
    {
        self.puts
    }

    /// The SHA-1 digest of the bytes of its slots.
    pub fn digest(&self) -> &Digest
        ensures { result.now.0 ≡ self.now.digest }
    {
        &self.digest
    }

    // Whether a slot of the key's buckets has the tag that the key has there. If none has, no row has the key. It asks both buckets
    // before the first branch, so that the processor loads the tags of both at the same time.
    fn has_tag_of(&self, key: &Key) -> bool
        ensures { result ≡ has_tag_of self.now.tags self.now.shape.buckets key.now.0 }
    {
        let (first, second) = key_buckets(&key.0, self.region.geometry.buckets());
        self.tags.has(first, second) | self.tags.has(second, first)
    }

    // The row of a key among the slots that have tags: first those of its first bucket, then, if it is another, of its second. Of each
    // slot whose tag matches it reads the front, as many bytes as `front` is long. If `front` has room for a whole row, it then holds
    // the value of the row with the key.
    pub(crate) fn look_up<D: Disk>(
        &self,
        disk: &D,
        key: &Key,
        front: &mut [u8],
    ) -> Result<Option<Found>, D::Fault>
        requires least { head_len ≤ length front.old }
        requires most { length front.old ≤ row_len self.now.shape }
        requires size { device_size self.now.shape ≤ size (D.content disk.now) }
        ensures finds { IsTrue (D.content disk.now).honest → (count : ℕ) → IsTagged self.now (D.content disk.now).shown count
            → IfOk result (FindsRow (rows_before self.now.shape self.now.region (D.content disk.now).shown count) key.now.0) }
        ensures place { IfOk result (λ found. IfSome found (λ row. row.place < 4 * self.now.shape.buckets)) }
        ensures value { IsTrue (D.content disk.now).honest → length front.old ≡ row_len self.now.shape
            → IfOk result (λ found. IfSome found (λ row. drop head_len front.new ≡ (slot_row self.now.shape self.now.region (D.content disk.now).shown row.place).value)) }
        ensures fault { IfErr result (GaveAny D.gave disk.now) }
    {
        let (first, second) = key_buckets(&key.0, self.region.geometry.buckets());
        let sought = Sought {
            key: *key,
            tag: second,
        };
        if let Some(found) = find_in(&self.region, &self.tags, disk, first, sought, front)? {
            return Ok(Some(found));
        }
        if first == second {
            return Ok(None);
        }
        let sought = Sought {
            key: *key,
            tag: first,
        };
        find_in(&self.region, &self.tags, disk, second, sought, front)
    }

    // Like `look_up` with the head of each slot. If no slot has a tag of the key, it needs no bytes for heads.
    pub(crate) fn look_up_heads<D: Disk>(
        &self,
        disk: &D,
        key: &Key,
    ) -> Result<Option<Found>, D::Fault>
        requires size { device_size self.now.shape ≤ size (D.content disk.now) }
        ensures finds { IsTrue (D.content disk.now).honest → (count : ℕ) → IsTagged self.now (D.content disk.now).shown count
            → IfOk result (FindsRow (rows_before self.now.shape self.now.region (D.content disk.now).shown count) key.now.0) }
        ensures place { IfOk result (λ found. IfSome found (λ row. row.place < 4 * self.now.shape.buckets)) }
        ensures fault { IfErr result (GaveAny D.gave disk.now) }
    {
        if !self.has_tag_of(key) {
            return Ok(None);
        }
        let mut head = [0; HEAD_LEN];
        self.look_up(disk, key, &mut head)
    }

    /// The row of a key: its kind and its slot. It reads the head of each slot of the key's buckets whose tag matches: at most eight
    /// heads of 21 bytes. It allocates no memory.
    ///
    /// # Errors
    ///
    /// The fault of a read.
    pub fn find<D: Disk>(&self, disk: &D, key: &Key) -> Result<Option<Found>, D::Fault>
        requires size { device_size self.now.shape ≤ size (D.content disk.now) }
        ensures finds { IsTrue (D.content disk.now).honest → IsHashStore (D.content disk.now) self.now
            → IfOk result (FindsRow (hash_rows self.now.shape self.now.region (D.content disk.now).shown) key.now.0) }
        ensures place { IfOk result (λ found. IfSome found (λ row. row.place < 4 * self.now.shape.buckets)) }
        ensures fault { IfErr result (GaveAny D.gave disk.now) }
    {
        let _known = &self.region; // so each slot has a tag
        self.look_up_heads(disk, key)
    }

    /// The row of a key, as `find` returns it, and its value in `out` if the row is a put. If there is no put, `out` does not change.
    /// A row of at most 512 bytes is read whole, so each slot whose tag matches takes at most one read. Of a longer row it reads the
    /// head, and then the value of the put that it found. It allocates no memory.
    ///
    /// # Errors
    ///
    /// The fault of a read. `out` may then hold any bytes.
    pub fn get<D: Disk>(
        &self,
        disk: &D,
        key: &Key,
        out: &mut [u8],
    ) -> Result<Option<Found>, D::Fault>
        requires out { length out.old ≡ self.now.shape.value_len }
        requires size { device_size self.now.shape ≤ size (D.content disk.now) }
        ensures finds { IsTrue (D.content disk.now).honest → IsHashStore (D.content disk.now) self.now
            → IfOk result (FindsRow (hash_rows self.now.shape self.now.region (D.content disk.now).shown) key.now.0) }
        ensures place { IfOk result (λ found. IfSome found (λ row. row.place < 4 * self.now.shape.buckets)) }
        ensures value { IsTrue (D.content disk.now).honest
            → IfOk result (λ found. IfSome (put_place found) (λ place. out.new ≡ (slot_row self.now.shape self.now.region (D.content disk.now).shown place).value)) }
        ensures kept { IfOk result (λ found. put_place found ≡ None → out.new ≡ out.old) }
        ensures fault { IfErr result (GaveAny D.gave disk.now) }
    {
        let _known = &self.region; // so each slot has a tag
        if !self.has_tag_of(key) {
            return Ok(None);
        }
        let len = self.region.geometry.row_len();
        if len <= WHOLE_LEN {
            let mut row = [0; WHOLE_LEN];
            self.get_whole(disk, key, &mut row[..len], out)
        } else {
            self.get_by_parts(disk, key, out)
        }
    }

    // Like `get`, with reads of whole rows into a buffer of their length.
    fn get_whole<D: Disk>(
        &self,
        disk: &D,
        key: &Key,
        row: &mut [u8],
        out: &mut [u8],
    ) -> Result<Option<Found>, D::Fault>
        requires row { length row.old ≡ row_len self.now.shape }
        requires out { length out.old ≡ self.now.shape.value_len }
        requires size { device_size self.now.shape ≤ size (D.content disk.now) }
        ensures finds { IsTrue (D.content disk.now).honest → IsHashStore (D.content disk.now) self.now
            → IfOk result (FindsRow (hash_rows self.now.shape self.now.region (D.content disk.now).shown) key.now.0) }
        ensures place { IfOk result (λ found. IfSome found (λ row. row.place < 4 * self.now.shape.buckets)) }
        ensures value { IsTrue (D.content disk.now).honest
            → IfOk result (λ found. IfSome (put_place found) (λ place. out.new ≡ (slot_row self.now.shape self.now.region (D.content disk.now).shown place).value)) }
        ensures kept { IfOk result (λ found. put_place found ≡ None → out.new ≡ out.old) }
        ensures fault { IfErr result (GaveAny D.gave disk.now) }
    {
        let _known = &self.region; // so each slot has a tag
        let Some(found) = self.look_up(disk, key, row)? else {
            return Ok(None);
        };
        match found.kind {
            Kind::Put => {
                out.copy_from_slice(&row[HEAD_LEN..]);
                Ok(Some(found))
            }
            Kind::Delete => Ok(Some(found)),
        }
    }

    // Like `get`, with reads of heads and one read of the value.
    fn get_by_parts<D: Disk>(
        &self,
        disk: &D,
        key: &Key,
        out: &mut [u8],
    ) -> Result<Option<Found>, D::Fault>
        requires out { length out.old ≡ self.now.shape.value_len }
        requires size { device_size self.now.shape ≤ size (D.content disk.now) }
        ensures finds { IsTrue (D.content disk.now).honest → IsHashStore (D.content disk.now) self.now
            → IfOk result (FindsRow (hash_rows self.now.shape self.now.region (D.content disk.now).shown) key.now.0) }
        ensures place { IfOk result (λ found. IfSome found (λ row. row.place < 4 * self.now.shape.buckets)) }
        ensures value { IsTrue (D.content disk.now).honest
            → IfOk result (λ found. IfSome (put_place found) (λ place. out.new ≡ (slot_row self.now.shape self.now.region (D.content disk.now).shown place).value)) }
        ensures kept { IfOk result (λ found. put_place found ≡ None → out.new ≡ out.old) }
        ensures fault { IfErr result (GaveAny D.gave disk.now) }
    {
        let Some(found) = self.find(disk, key)? else {
            return Ok(None);
        };
        match found.kind {
            Kind::Put => {
                self.read_value(disk, found.place, out)?;
                Ok(Some(found))
            }
            Kind::Delete => Ok(Some(found)),
        }
    }

    /// Reads the value of the row in a slot.
    ///
    /// # Errors
    ///
    /// The fault of the read. `out` may then hold any bytes.
    pub fn read_value<D: Disk>(&self, disk: &D, slot: u32, out: &mut [u8]) -> Result<(), D::Fault>
        requires slot { slot < 4 * self.now.shape.buckets }
        requires out { length out.old ≡ self.now.shape.value_len }
        requires size { device_size self.now.shape ≤ size (D.content disk.now) }
        ensures value { IsTrue (D.content disk.now).honest → OnOk result (out.new ≡ (slot_row self.now.shape self.now.region (D.content disk.now).shown slot).value) }
        ensures fault { IfErr result (GaveAny D.gave disk.now) }
    {
        self.region.read_value(disk, slot, out)
    }

    /// Reads the bytes of this many slots from a slot on, in one read.
    ///
    /// # Errors
    ///
    /// The fault of the read. `out` may then hold any bytes.
    pub fn read_slots<D: Disk>(
        &self,
        disk: &D,
        slot: u32,
        count: u32,
        out: &mut [u8],
    ) -> Result<(), D::Fault>
        requires some { 0 < count }
        requires within { slot + count ≤ 4 * self.now.shape.buckets }
        requires out { length out.old ≡ count * row_len self.now.shape }
        requires size { device_size self.now.shape ≤ size (D.content disk.now) }
        ensures slots { IsTrue (D.content disk.now).honest → OnOk result (HoldsSlots self.now.shape self.now.region (D.content disk.now).shown slot count out.new) }
        ensures fault { IfErr result (GaveAny D.gave disk.now) }
    {
        self.region.read_slots(disk, slot, count, out)
    }

    /// The kind and the key of the row in a slot. `None` if the slot is empty or its kind is unknown. It reads the head, and allocates
    /// no memory.
    ///
    /// # Errors
    ///
    /// The fault of the read.
    pub fn row_at<D: Disk>(&self, disk: &D, slot: u32) -> Result<Option<Row>, D::Fault>
        requires slot { slot < 4 * self.now.shape.buckets }
        requires size { device_size self.now.shape ≤ size (D.content disk.now) }
        ensures row { IsTrue (D.content disk.now).honest → IfOk result (IsRowAt (slot_row self.now.shape self.now.region (D.content disk.now).shown slot) slot) }
        ensures fault { IfErr result (GaveAny D.gave disk.now) }
    {
        match self.region.read_head(disk, slot)? {
            Head::Row(kind, key) => Ok(Some(Row {
                kind,
                key,
                place: slot,
            })),
            Head::Empty | Head::Unknown => Ok(None),
        }
    }

    /// Rebuilds a store from the device, in one pass over the slots. It reads them once, in reads of at most 64 KiB. For each row it
    /// also reads the heads of the earlier slots of the row's buckets whose tags match, at most eight. It takes two bytes a slot, and,
    /// while it runs, the bytes of one read.
    ///
    /// # Errors
    ///
    /// `Damaged` with the first slot that has an unknown kind, a row that belongs in other buckets, or a row of a key that an earlier
    /// slot has. `Device` with the fault of a read, and `NoMemory`.
    pub fn rebuild<D: Disk>(
        alloc: Global,
        disk: &D,
        geometry: Geometry,
        region: u32,
    ) -> Result<Rebuilt, ScanError<D::Fault>>
        requires region { region < geometry.hashes }
        requires size { device_size geometry ≤ size (D.content disk.now) }
        ensures region { IfOk result (λ rebuilt. (rebuilt.store.shape ≡ geometry) × (rebuilt.store.region ≡ region)) }
        ensures rebuilt { IsTrue (D.content disk.now).honest → IfOk result (IsRebuiltHash (D.content disk.now)) }
        ensures most { IfOk result (λ rebuilt. (rebuilt.store.puts ≤ rebuilt.rows) × (rebuilt.rows ≤ 4 * geometry.buckets)) }
        ensures err { IfErr result (IsScanRefused (λ slot. IsTrue (D.content disk.now).honest → IsFirstUnsound (D.content disk.now) geometry region slot) (GaveAny D.gave disk.now)) }
    {
        rebuild_region(
            alloc,
            disk,
            HashRegion {
                geometry,
                number: region,
            },
        )
    }
}
