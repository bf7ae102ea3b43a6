// A hash store rebuilt from the device.
ghost use Rattle.std.specs.Prelude.{◌≡◌, ◌+◌, ◌*◌, ◌<◌, ◌≤◌, ◌^◌, false, IsTrue, IfOk, IfErr, IfSome, OnOk, length};
ghost use Rattle.sha1.specs.Sha1.{sha1};
ghost use Rattle.silt_disk.specs.Disk.{GaveAny, size};
ghost use Rattle.silt_disk.specs.Layout.{device_size, row_len};
ghost use Rattle.silt_frame.specs.Rows.{rows_bytes};
ghost use Rattle.silt_hash_store.specs.declared.region.Head.TheVariants as head;
ghost use Rattle.silt_hash_store.specs.Rebuild.{AddsSound, HasHead, IsFed, IsFirstUnsound, IsGrown, IsRebuiltHash, TagsKey, TakesAdded};
ghost use Rattle.silt_log.specs.Scans.{IsScanRefused};
ghost use Rattle.silt_hash_store.specs.Slots.{HeadSays, HoldsSlots, is_sound_slot, rows_before, slot_row};
ghost use Rattle.silt_hash_store.specs.State.{IsHeldHash, IsTagged};

use crate::hash_store::HashStore;
use crate::region::{HashRegion, Head, head_in};
use crate::tags::Tags;
use sha1::Sha1;
use silt_cuckoo::key_buckets;
use silt_disk::Disk;
use silt_frame::{Digest, Key, Kind};
use silt_log::ScanError;
use std::alloc::Global;

/// The greatest length of one read of a rebuild, in bytes.
const READ_LEN: usize = 65_536;

/// A hash store that was rebuilt, and how many rows of known kinds it has.
#[derive(Drop)]
pub struct Rebuilt {
    pub store: HashStore,
    pub rows: u32,
}

// The tag of a key in a slot. `None` if the slot lies in neither of the key's buckets.
fn tag_for(region: &HashRegion, slot: u32, key: &Key) -> Option<u32>
    ensures tag { TagsKey region.now.geometry slot key.now.0 result }
    ensures below { IfSome result (λ tag. tag < region.now.geometry.buckets) }
    ensures most { region.now.geometry.buckets ≤ 2 ^ 15 }
{
    let bucket = slot / 4;
    let (first, second) = key_buckets(&key.0, region.geometry.buckets());
    if bucket == first {
        return Some(second);
    }
    if bucket == second {
        return Some(first);
    }
    None
}

impl HashStore {
    // What a slot with this row adds to a store of the slots before it.
    fn examine_row<D: Disk>(
        &self,
        disk: &D,
        slot: u32,
        kind: Kind,
        key: &Key,
    ) -> Result<Option<(Kind, u32)>, ScanError<D::Fault>>
        requires slot { slot < 4 * self.now.shape.buckets }
        requires size { device_size self.now.shape ≤ size (D.content disk.now) }
        ensures ok { IsTrue (D.content disk.now).honest → HeadSays (slot_row self.now.shape self.now.region (D.content disk.now).shown slot).kind
            (slot_row self.now.shape self.now.region (D.content disk.now).shown slot).key (head.Row kind key.now)
            → IsTagged self.now (D.content disk.now).shown slot → IfOk result (AddsSound self.now (D.content disk.now).shown slot) }
        ensures below { IfOk result (λ added. IfSome added (λ a. a.1 < 2 ^ 15)) }
        ensures err { IfErr result (IsScanRefused (λ at. (at ≡ slot) × (IsTrue (D.content disk.now).honest
            → HeadSays (slot_row self.now.shape self.now.region (D.content disk.now).shown slot).kind
            (slot_row self.now.shape self.now.region (D.content disk.now).shown slot).key (head.Row kind key.now)
            → IsTagged self.now (D.content disk.now).shown slot → is_sound_slot self.now.shape self.now.region (D.content disk.now).shown slot ≡ false)) (GaveAny D.gave disk.now)) }
    {
        let Some(tag) = tag_for(&self.region, slot, key) else {
            return Err(ScanError::Damaged(slot));
        };
        match self.look_up_heads(disk, key) {
            Ok(None) => Ok(Some((kind, tag))),
            Ok(Some(_)) => Err(ScanError::Damaged(slot)),
            Err(fault) => Err(ScanError::Device(fault)),
        }
    }

    // What a slot with this head adds to a store of the slots before it: nothing if it is empty, else the kind and the tag of its row.
    fn examine<D: Disk>(
        &self,
        disk: &D,
        slot: u32,
        head: Head,
    ) -> Result<Option<(Kind, u32)>, ScanError<D::Fault>>
        requires slot { slot < 4 * self.now.shape.buckets }
        requires size { device_size self.now.shape ≤ size (D.content disk.now) }
        ensures ok { IsTrue (D.content disk.now).honest → HasHead self.now (D.content disk.now).shown slot head
            → IsTagged self.now (D.content disk.now).shown slot → IfOk result (AddsSound self.now (D.content disk.now).shown slot) }
        ensures below { IfOk result (λ added. IfSome added (λ a. a.1 < 2 ^ 15)) }
        ensures err { IfErr result (IsScanRefused (λ at. (at ≡ slot) × (IsTrue (D.content disk.now).honest → HasHead self.now (D.content disk.now).shown slot head
            → IsTagged self.now (D.content disk.now).shown slot
            → is_sound_slot self.now.shape self.now.region (D.content disk.now).shown slot ≡ false)) (GaveAny D.gave disk.now)) }
        ensures held { IsHeldHash self.now }
    {
        let _known = &self.region; // so that what the store holds is known
        match head {
            Head::Empty => Ok(None),
            Head::Unknown => Err(ScanError::Damaged(slot)),
            Head::Row(kind, key) => self.examine_row(disk, slot, kind, &key),
        }
    }
}

impl Rebuilt {
    // Adds what a slot adds.
    fn take(&mut self, slot: u32, added: Option<(Kind, u32)>)
        requires slot { slot < 4 * self.old.store.shape.buckets }
        requires tag { IfSome added (λ a. a.1 < 2 ^ 15) }
        requires small { slot < 2 ^ 17 }
        requires counts { (self.old.store.puts ≤ self.old.rows) × (self.old.rows ≤ slot) }
        ensures { TakesAdded slot added self.old self.new }
    {
        if let Some((kind, tag)) = added {
            self.store.tags.set(slot, tag);
            self.store.puts += kind.puts();
            self.rows += 1;
        }
    }

    // Adds the next slot, which has this head.
    fn add_slot<D: Disk>(
        &mut self,
        disk: &D,
        slot: u32,
        head: Head,
    ) -> Result<(), ScanError<D::Fault>>
        requires slot { slot < 4 * self.old.store.shape.buckets }
        requires small { slot < 2 ^ 17 }
        requires counts { (self.old.store.puts ≤ self.old.rows) × (self.old.rows ≤ slot) }
        requires size { device_size self.old.store.shape ≤ size (D.content disk.now) }
        ensures region { (self.new.store.shape ≡ self.old.store.shape) × (self.new.store.region ≡ self.old.store.region) }
        ensures counts { (self.new.store.puts ≤ self.new.rows) × (self.new.rows ≤ slot + 1) }
        ensures ok { IsTrue (D.content disk.now).honest → HasHead self.old.store (D.content disk.now).shown slot head
            → IsGrown self.old (D.content disk.now).shown slot → OnOk result (IsGrown self.new (D.content disk.now).shown (slot + 1)) }
        ensures err { IfErr result (IsScanRefused (λ at. (at ≡ slot) × (IsTrue (D.content disk.now).honest → HasHead self.old.store (D.content disk.now).shown slot head
            → IsGrown self.old (D.content disk.now).shown slot
            → is_sound_slot self.old.store.shape self.old.store.region (D.content disk.now).shown slot ≡ false)) (GaveAny D.gave disk.now)) }
    {
        let added = self.store.examine(disk, slot, head)?;
        self.take(slot, added);
        Ok(())
    }

    // Adds this many slots from a slot on, from their bytes, `len` bytes each.
    fn add_slots<D: Disk>(
        &mut self,
        disk: &D,
        first: u32,
        count: u32,
        len: usize,
        bytes: &[u8],
    ) -> Result<(), ScanError<D::Fault>>
        requires within { (first + count ≤ 4 * self.old.store.shape.buckets) × (first + count ≤ 2 ^ 17) }
        requires len { len ≡ row_len self.old.store.shape }
        requires bytes { length bytes.now ≡ count * len }
        requires counts { (self.old.store.puts ≤ self.old.rows) × (self.old.rows ≤ first) }
        requires size { device_size self.old.store.shape ≤ size (D.content disk.now) }
        ensures region { (self.new.store.shape ≡ self.old.store.shape) × (self.new.store.region ≡ self.old.store.region) }
        ensures counts { (self.new.store.puts ≤ self.new.rows) × (self.new.rows ≤ first + count) }
        ensures ok { IsTrue (D.content disk.now).honest → HoldsSlots self.old.store.shape self.old.store.region (D.content disk.now).shown first count bytes.now
            → IsGrown self.old (D.content disk.now).shown first → OnOk result (IsGrown self.new (D.content disk.now).shown (first + count)) }
        ensures err { IfErr result (IsScanRefused (λ at. IsTrue (D.content disk.now).honest
            → HoldsSlots self.old.store.shape self.old.store.region (D.content disk.now).shown first count bytes.now → IsGrown self.old (D.content disk.now).shown first
            → IsFirstUnsound (D.content disk.now) self.old.store.shape self.old.store.region at) (GaveAny D.gave disk.now)) }
    {
        for i in 0..count {
            let at = i as usize * len;
            let head = head_in(&bytes[at..at + len]);
            self.add_slot(disk, first + i, head)?;
        }
        Ok(())
    }

    // Reads this many slots from a slot on into a buffer of exactly their length. Feeds the bytes to the hasher, and adds the slots.
    fn add_read<D: Disk>(
        &mut self,
        disk: &D,
        first: u32,
        count: u32,
        buffer: &mut [u8],
        hasher: &mut Sha1,
    ) -> Result<(), ScanError<D::Fault>>
        requires within { (0 < count) × (first + count ≤ 4 * self.old.store.shape.buckets) × (first + count ≤ 2 ^ 17) }
        requires buffer { length buffer.old ≡ count * row_len self.old.store.shape }
        requires counts { (self.old.store.puts ≤ self.old.rows) × (self.old.rows ≤ first) }
        requires size { device_size self.old.store.shape ≤ size (D.content disk.now) }
        ensures region { (self.new.store.shape ≡ self.old.store.shape) × (self.new.store.region ≡ self.old.store.region) }
        ensures counts { (self.new.store.puts ≤ self.new.rows) × (self.new.rows ≤ first + count) }
        ensures ok { IsTrue (D.content disk.now).honest → IsGrown self.old (D.content disk.now).shown first → OnOk result (IsGrown self.new (D.content disk.now).shown (first + count)) }
        ensures fed { IsTrue (D.content disk.now).honest → IsFed hasher.old self.old.store (D.content disk.now).shown first
            → OnOk result (IsFed hasher.new self.old.store (D.content disk.now).shown (first + count)) }
        ensures err { IfErr result (IsScanRefused (λ at. IsTrue (D.content disk.now).honest → IsGrown self.old (D.content disk.now).shown first
            → IsFirstUnsound (D.content disk.now) self.old.store.shape self.old.store.region at) (GaveAny D.gave disk.now)) }
    {
        if let Err(fault) = self.store.read_slots(disk, first, count, buffer) {
            return Err(ScanError::Device(fault));
        }
        hasher.update(buffer);
        let len = self.store.geometry().row_len();
        self.add_slots(disk, first, count, len, buffer)
    }

    // Adds all slots, read into a buffer with room for `most` of them, `len` bytes each. Returns the digest of all of them.
    fn add_all<D: Disk>(
        &mut self,
        disk: &D,
        count: u32,
        len: usize,
        buffer: &mut [u8],
        most: u32,
    ) -> Result<Digest, ScanError<D::Fault>>
        requires all { (count ≡ 4 * self.old.store.shape.buckets) × (count ≤ 2 ^ 17) }
        requires buffer { (0 < most) × (len ≡ row_len self.old.store.shape) × (most * len ≤ length buffer.old) }
        requires counts { (self.old.store.puts ≡ 0) × (self.old.rows ≡ 0) }
        requires size { device_size self.old.store.shape ≤ size (D.content disk.now) }
        ensures region { (self.new.store.shape ≡ self.old.store.shape) × (self.new.store.region ≡ self.old.store.region) }
        ensures counts { (self.new.store.puts ≤ self.new.rows) × (self.new.rows ≤ count) }
        ensures ok { IsTrue (D.content disk.now).honest → IsGrown self.old (D.content disk.now).shown 0 → OnOk result (IsGrown self.new (D.content disk.now).shown count) }
        ensures digest { IsTrue (D.content disk.now).honest
            → IfOk result (λ digest. digest.0 ≡ sha1 (rows_bytes (rows_before self.old.store.shape self.old.store.region (D.content disk.now).shown count))) }
        ensures err { IfErr result (IsScanRefused (λ at. IsTrue (D.content disk.now).honest → IsGrown self.old (D.content disk.now).shown 0
            → IsFirstUnsound (D.content disk.now) self.old.store.shape self.old.store.region at) (GaveAny D.gave disk.now)) }
    {
        let mut hasher = Sha1::new();
        let mut slot = 0;
        while slot < count {
            let next = most.min(count - slot);
            self.add_read(
                disk,
                slot,
                next,
                &mut buffer[..next as usize * len],
                &mut hasher,
            )?;
            slot += next;
        }
        Ok(Digest(hasher.finalize()))
    }
}

/// A store of what a hash region shows.
pub fn rebuild_region<D: Disk>(
    alloc: Global,
    disk: &D,
    region: HashRegion,
) -> Result<Rebuilt, ScanError<D::Fault>>
    requires size { device_size region.geometry ≤ size (D.content disk.now) }
    ensures region { IfOk result (λ rebuilt. (rebuilt.store.shape ≡ region.geometry) × (rebuilt.store.region ≡ region.number)) }
    ensures rebuilt { IsTrue (D.content disk.now).honest → IfOk result (IsRebuiltHash (D.content disk.now)) }
    ensures most { IfOk result (λ rebuilt. (rebuilt.store.puts ≤ rebuilt.rows) × (rebuilt.rows ≤ 4 * region.geometry.buckets)) }
    ensures err { IfErr result (IsScanRefused (λ slot. IsTrue (D.content disk.now).honest → IsFirstUnsound (D.content disk.now) region.geometry region.number slot) (GaveAny D.gave disk.now)) }
{
    let count = region.slot_count();
    let tags = match Tags::new(alloc, count) {
        Ok(tags) => tags,
        Err(_) => return Err(ScanError::NoMemory),
    };
    let mut rebuilt = Rebuilt {
        store: HashStore {
            region,
            tags,
            puts: 0,
            digest: Digest([0; 20]),
        },
        rows: 0,
    };
    let len = region.geometry.row_len();
    let most = count.min((READ_LEN / len) as u32);
    let Ok(mut buffer) = vec![in alloc; 0u8; most as usize * len] else {
        return Err(ScanError::NoMemory);
    };
    let digest = rebuilt.add_all(disk, count, len, &mut buffer, most)?;
    rebuilt.store.digest = digest;
    Ok(rebuilt)
}
