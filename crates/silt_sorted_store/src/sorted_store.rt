// The sorted store: entries on a device, and in memory the index that finds their places and the digest of their bytes.
ghost use Rattle.std.specs.Prelude.{◌≡◌, ◌==◌, ◌<◌, ◌≤◌, [], true, false, Ok, IsTrue, IfSome, IfOk, IfErr, OnOk, List, length};
ghost use Rattle.silt_disk.specs.Disk.{GaveAny, size};
ghost use Rattle.silt_disk.specs.Layout.{device_size};
ghost use Rattle.silt_sorted_store.specs.Findings.{sorted_findings};
ghost use Rattle.silt_sorted_store.specs.State.{sorted_rows};
ghost use Rattle.silt_frame.specs.Rows.{StoredRow};

use crate::rebuild::index_entries;
use crate::sorted_entries::SortedEntries;
use sha1::Sha1;
use silt_disk::{Disk, Geometry};
use silt_frame::{Digest, Key};
use silt_log::ScanError;
use silt_trie::MarkedTrie;
use std::alloc::Global;
use std::marker::Model;

/// The sorted store of a device: entries of a sorted region whose keys rise strictly, the index of their keys, and the digest of
/// their bytes.
///
/// Its calls are safe and end even if the disk is not honest (does not obey the crash model), the entries do not rise, or the index
/// is not theirs.
#[derive(Drop)]
pub struct SortedStore {
    entries: SortedEntries,
    index: MarkedTrie,
    digest: Digest,
}

impl Model for SortedStore {
    ghost use Rattle.silt_sorted_store.specs.Index.{IndexedState};

    ghost Value = { IndexedState };

    ghost view = { λ a. record { sorted = a.entries; index = a.index; digest = a.digest.0 } };
}

impl SortedStore {
    ghost use Rattle.silt_sorted_store.specs.State.{HasDigest, IsHeldSorted, entries_of};
    ghost use Rattle.silt_sorted_store.specs.Index.{IsIndexOf, HasIndex, IsPlaceOfKey};
    ghost use Rattle.silt_sorted_store.specs.OnlyRow.{FindsEntry, HasNoEntry, HasOnlyValue, HasValue};
    ghost use Rattle.silt_sorted_store.specs.Rebuild.{IsFirstOutOfOrder};
    ghost use Rattle.silt_log.specs.Scans.{IsScanRefused};

    /// The store of these entries with this index and this digest. It does not read the device.
    pub fn new(entries: SortedEntries, index: MarkedTrie, digest: Digest) -> Self
        ensures store { result.sorted ≡ entries }
        ensures index { result.index ≡ index }
        ensures digest { result.digest ≡ digest.0 }
    {
        SortedStore {
            entries,
            index,
            digest,
        }
    }

    /// The entries.
    pub fn entries(&self) -> &SortedEntries
        ensures { result.now ≡ self.now.sorted }
    {
        &self.entries
    }

    /// The digest of the entries' bytes.
    pub fn digest(&self) -> &Digest
        ensures { result.now.0 ≡ self.now.digest }
    {
        &self.digest
    }

    /// The geometry of the device.
    pub fn geometry(&self) -> Geometry
        ensures { result ≡ self.now.sorted.shape }
    {
        self.entries.geometry()
    }

    /// The number of the region, 0 or 1.
    pub fn region(&self) -> u32
        ensures value { result ≡ self.now.sorted.region }
        ensures held { IsHeldSorted self.now.sorted }
    {
        self.entries.region()
    }

    /// The number of entries.
    pub fn len(&self) -> u32
        ensures value { result ≡ self.now.sorted.count }
        ensures held { IsHeldSorted self.now.sorted }
    {
        self.entries.len()
    }

    /// Whether there are no entries.
    pub fn is_empty(&self) -> bool
        ensures { result ≡ (self.now.sorted.count == 0) }
    {
        self.entries.is_empty()
    }

    // The only place at which an entry can have this key, by the index.
    fn locate(&self, key: &Key) -> Option<u32>
        ensures below { IfSome result (λ place. place < self.now.sorted.count) }
        ensures place { (rows : List StoredRow) → length rows ≡ self.now.sorted.count → IsIndexOf rows self.now.index → IsPlaceOfKey rows key.now.0 result }
        ensures held { IsHeldSorted self.now.sorted }
    {
        let count = self.entries.len();
        let place = u32::try_from(self.index.locate_marked(key)?).ok()?;
        if place < count { Some(place) } else { None }
    }

    /// The place of the entry with this key. `None` if no entry has it. It reads one key, or none if the index has no place.
    ///
    /// # Errors
    ///
    /// The fault of the read.
    pub fn find<D: Disk>(&self, disk: &D, key: &Key) -> Result<Option<u32>, D::Fault>
        requires size { device_size self.now.sorted.shape ≤ size (D.content disk.now) }
        ensures entry { IsTrue (D.content disk.now).honest → sorted_findings (entries_of (D.content disk.now) self.now.sorted) ≡ []
            → IsIndexOf (entries_of (D.content disk.now) self.now.sorted) self.now.index
            → IfOk result (FindsEntry (entries_of (D.content disk.now) self.now.sorted) key.now.0) }
        ensures place { IfOk result (λ found. IfSome found (λ place. place < self.now.sorted.count)) }
        ensures held { IsHeldSorted self.now.sorted }
        ensures fault { IfErr result (GaveAny D.gave disk.now) }
    {
        let Some(place) = self.locate(key) else {
            return Ok(None);
        };
        let standing = self.entries.read_key(disk, place)?;
        if standing != *key {
            return Ok(None);
        }
        Ok(Some(place))
    }

    /// Reads the value of the entry with this key into `out`. If no entry has the key, `out` does not change. Returns whether one has
    /// it. It makes one read for an entry of at most 512 bytes, else two, and none if the index has no place.
    ///
    /// # Errors
    ///
    /// The fault of a read. `out` may then hold any bytes.
    pub fn get<D: Disk>(&self, disk: &D, key: &Key, out: &mut [u8]) -> Result<bool, D::Fault>
        requires out { length out.old ≡ self.now.sorted.shape.value_len }
        requires size { device_size self.now.sorted.shape ≤ size (D.content disk.now) }
        ensures found { IsTrue (D.content disk.now).honest → sorted_findings (entries_of (D.content disk.now) self.now.sorted) ≡ []
            → IsIndexOf (entries_of (D.content disk.now) self.now.sorted) self.now.index
            → result ≡ Ok true → HasOnlyValue (entries_of (D.content disk.now) self.now.sorted) key.now.0 out.new }
        ensures none { IsTrue (D.content disk.now).honest → sorted_findings (entries_of (D.content disk.now) self.now.sorted) ≡ []
            → IsIndexOf (entries_of (D.content disk.now) self.now.sorted) self.now.index
            → result ≡ Ok false → HasNoEntry (entries_of (D.content disk.now) self.now.sorted) key.now.0 }
        ensures absent { result ≡ Ok false → out.new ≡ out.old }
        ensures held { IsHeldSorted self.now.sorted }
        ensures fault { IfErr result (GaveAny D.gave disk.now) }
    {
        let Some(place) = self.locate(key) else {
            return Ok(false);
        };
        self.entries.value_of(disk, place, key, out)
    }

    /// Reads the value of the entry at a place.
    ///
    /// # Errors
    ///
    /// The fault of the read. `out` may then hold any bytes.
    pub fn read_value<D: Disk>(&self, disk: &D, place: u32, out: &mut [u8]) -> Result<(), D::Fault>
        requires place { place < self.now.sorted.count }
        requires out { length out.old ≡ self.now.sorted.shape.value_len }
        requires size { device_size self.now.sorted.shape ≤ size (D.content disk.now) }
        ensures value { IsTrue (D.content disk.now).honest → OnOk result (HasValue (entries_of (D.content disk.now) self.now.sorted) place out.new) }
        ensures fault { IfErr result (GaveAny D.gave disk.now) }
    {
        self.entries.read_value(disk, place, out)
    }

    /// The first `count` entries of this region with their index and their digest, if they rise strictly. It reads the entries once, in
    /// reads of at most 64 KiB, up to the first one that is not greater than the one before it.
    ///
    /// # Errors
    ///
    /// `Damaged` with the place of that entry, `Device` with the fault of a read, `NoMemory` if the index or the read buffer could not
    /// be allocated.
    pub fn rebuild<D: Disk>(
        alloc: Global,
        disk: &D,
        geometry: Geometry,
        region: u32,
        count: u32,
    ) -> Result<Self, ScanError<D::Fault>>
        requires region { region < 2 }
        requires count { count ≤ geometry.sorted_capacity }
        requires size { device_size geometry ≤ size (D.content disk.now) }
        ensures store { IfOk result (λ store. store.sorted ≡ record { shape = geometry; region = region; count = count }) }
        ensures indexed { IfOk result (λ store. HasIndex (D.content disk.now) store.sorted store.index) }
        ensures digested { IfOk result (λ store. HasDigest (D.content disk.now) store.sorted store.digest) }
        ensures rising { IsTrue (D.content disk.now).honest → OnOk result (sorted_findings (sorted_rows geometry region count (D.content disk.now).shown) ≡ []) }
        ensures err { IfErr result (IsScanRefused
            (λ place. (place < count) × (IsTrue (D.content disk.now).honest → IsFirstOutOfOrder (sorted_rows geometry region count (D.content disk.now).shown) place))
            (GaveAny D.gave disk.now)) }
    {
        let entries = SortedEntries::new(geometry, region, count);
        let mut hasher = Sha1::new();
        let index = index_entries(alloc, disk, &entries, &mut hasher)?;
        let digest = Digest(hasher.finalize());
        Ok(SortedStore::new(entries, index, digest))
    }
}
