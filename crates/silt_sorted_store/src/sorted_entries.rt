// The entries of a sorted region, and the calls that read them.
ghost use Rattle.std.specs.Prelude.{◌≡◌, ◌≢◌, ◌==◌, ◌+◌, ◌*◌, ◌<◌, ◌≤◌, ◌^◌, [], true, false, Ok, IsTrue, IfOk, IfErr, OnOk, get_or, length, take};
ghost use Rattle.silt_disk.specs.Disk.{GaveAny, size};
ghost use Rattle.silt_disk.specs.Layout.{device_size, entry_len};
ghost use Rattle.silt_frame.specs.Rows.{keys_of};

use crate::region::SortedRegion;
use silt_disk::{Disk, Geometry};
use silt_frame::{KEY_LEN, Key, entry_of};
use std::marker::Model;

/// The greatest length of an entry, in bytes, that is read whole for its value.
const WHOLE_LEN: usize = 512;

/// The entries of a sorted region: their number, and keys that rise strictly.
///
/// Its calls are safe and end even if the disk is not honest (does not obey the crash model) or the entries do not rise.
#[derive(Drop)]
pub struct SortedEntries {
    region: SortedRegion,
    count: u32,
}

impl Model for SortedEntries {
    ghost use Rattle.silt_sorted_store.specs.State.{SortedState, IsHeldSorted};

    ghost Value = { SortedState };

    ghost view = { λ a. record { shape = a.region.geometry; region = a.region.number; count = a.count } };

    ghost invariant = { λ a. IsHeldSorted (record { shape = a.region.geometry; region = a.region.number; count = a.count }) };
}

impl SortedEntries {
    ghost use Rattle.silt_sorted_store.specs.State.{SortedState, IsHeldSorted, sorted_entry_at, entries_of};
    ghost use Rattle.silt_sorted_store.specs.OnlyRow.{HasEntry, HasKeyAndValue, HasValue};
    ghost use Rattle.silt_sorted_store.specs.Indexing.{HoldsEntries, HoldsKeys};
    ghost use Rattle.silt_frame.specs.Frame.{key_len};

    /// The first `count` entries of this region. It does not read the device.
    pub fn new(geometry: Geometry, region: u32, count: u32) -> Self
        requires region { region < 2 }
        requires count { count ≤ geometry.sorted_capacity }
        ensures { result ≡ record { shape = geometry; region = region; count = count } }
    {
        SortedEntries {
            region: SortedRegion {
                geometry,
                number: region,
            },
            count,
        }
    }

    /// The geometry of the device.
    pub fn geometry(&self) -> Geometry
        ensures { result ≡ self.now.shape }
    {
        self.region.geometry
    }

    /// The number of the region, 0 or 1.
    pub fn region(&self) -> u32
        ensures value { result ≡ self.now.region }
        ensures held { IsHeldSorted self.now }
    {
        self.region.number
    }

    /// The number of entries.
    pub fn len(&self) -> u32
        ensures value { result ≡ self.now.count }
        ensures held { IsHeldSorted self.now }
    {
        self.count
    }

    /// Whether there are no entries.
    pub fn is_empty(&self) -> bool
        ensures { result ≡ (self.now.count == 0) }
    {
        self.count == 0
    }

    // Where the entry at a place begins.
    fn entry_at(&self, place: u32) -> u64
        requires { place < self.now.count }
        ensures value { result ≡ sorted_entry_at self.now.shape self.now.region place }
        ensures fits { result + entry_len self.now.shape ≤ device_size self.now.shape }
        ensures most { device_size self.now.shape ≤ 2 ^ 39 }
    {
        self.region.entry_at(place)
    }

    // Reads the key of the entry at a place.
    pub(crate) fn read_key<D: Disk>(&self, disk: &D, place: u32) -> Result<Key, D::Fault>
        requires place { place < self.now.count }
        requires size { device_size self.now.shape ≤ size (D.content disk.now) }
        ensures key { IsTrue (D.content disk.now).honest → IfOk result (λ key. get_or (keys_of (entries_of (D.content disk.now) self.now)) place [] ≡ key.0) }
        ensures fault { IfErr result (GaveAny D.gave disk.now) }
    {
        let mut key = [0; KEY_LEN];
        disk.read(self.entry_at(place), &mut key)?;
        Ok(Key(key))
    }

    /// Reads the value of the entry at a place.
    ///
    /// # Errors
    ///
    /// The fault of the read. `out` may then hold any bytes.
    pub fn read_value<D: Disk>(&self, disk: &D, place: u32, out: &mut [u8]) -> Result<(), D::Fault>
        requires place { place < self.now.count }
        requires out { length out.old ≡ self.now.shape.value_len }
        requires size { device_size self.now.shape ≤ size (D.content disk.now) }
        ensures value { IsTrue (D.content disk.now).honest → OnOk result (HasValue (entries_of (D.content disk.now) self.now) place out.new) }
        ensures fault { IfErr result (GaveAny D.gave disk.now) }
    {
        disk.read(self.entry_at(place) + KEY_LEN as u64, out)?;
        Ok(())
    }

    /// Reads the entry at a place in one read. Returns its key, and puts the bytes of key and value into `out`.
    ///
    /// # Errors
    ///
    /// The fault of the read. `out` may then hold any bytes.
    pub fn entry<D: Disk>(&self, disk: &D, place: u32, out: &mut [u8]) -> Result<Key, D::Fault>
        requires place { place < self.now.count }
        requires out { length out.old ≡ entry_len self.now.shape }
        requires size { device_size self.now.shape ≤ size (D.content disk.now) }
        ensures entry { IsTrue (D.content disk.now).honest → OnOk result (HasEntry (entries_of (D.content disk.now) self.now) place out.new) }
        ensures key { IfOk result (λ key. key.0 ≡ take key_len out.new) }
        ensures fault { IfErr result (GaveAny D.gave disk.now) }
    {
        disk.read(self.entry_at(place), out)?;
        let mut key = [0; KEY_LEN];
        key.copy_from_slice(&out[..KEY_LEN]);
        Ok(Key(key))
    }

    /// Reads this many entries from a place on, in one read.
    ///
    /// # Errors
    ///
    /// The fault of the read. `out` may then hold any bytes.
    pub fn read_entries<D: Disk>(
        &self,
        disk: &D,
        place: u32,
        count: u32,
        out: &mut [u8],
    ) -> Result<(), D::Fault>
        requires some { 0 < count }
        requires within { place + count ≤ self.now.count }
        requires out { length out.old ≡ count * entry_len self.now.shape }
        requires size { device_size self.now.shape ≤ size (D.content disk.now) }
        ensures keys { IsTrue (D.content disk.now).honest → OnOk result (HoldsKeys (entries_of (D.content disk.now) self.now) place count (entry_len self.now.shape) out.new) }
        ensures entries { IsTrue (D.content disk.now).honest → OnOk result (HoldsEntries (entries_of (D.content disk.now) self.now) place count (entry_len self.now.shape) out.new) }
        ensures fault { IfErr result (GaveAny D.gave disk.now) }
    {
        let _known = self.len(); // so the entries lie within the region
        disk.read(self.entry_at(place), out)?;
        Ok(())
    }

    // Reads the value of the entry at a place into `out` if the entry has this key, and else does not change `out`. Returns whether it
    // has the key. It makes one read for an entry of at most 512 bytes, and else one of the key and one of the value.
    pub(crate) fn value_of<D: Disk>(
        &self,
        disk: &D,
        place: u32,
        key: &Key,
        out: &mut [u8],
    ) -> Result<bool, D::Fault>
        requires place { place < self.now.count }
        requires out { length out.old ≡ self.now.shape.value_len }
        requires size { device_size self.now.shape ≤ size (D.content disk.now) }
        ensures found { IsTrue (D.content disk.now).honest → result ≡ Ok true → HasKeyAndValue (entries_of (D.content disk.now) self.now) place key.now.0 out.new }
        ensures other { IsTrue (D.content disk.now).honest → result ≡ Ok false → get_or (keys_of (entries_of (D.content disk.now) self.now)) place [] ≢ key.now.0 }
        ensures absent { result ≡ Ok false → out.new ≡ out.old }
        ensures fault { IfErr result (GaveAny D.gave disk.now) }
    {
        let len = self.region.geometry.entry_len();
        if len <= WHOLE_LEN {
            let mut entry = [0; WHOLE_LEN];
            self.value_by_entry(disk, place, key, &mut entry[..len], out)
        } else {
            self.value_by_parts(disk, place, key, out)
        }
    }

    // Like `value_of`, with one read of the entry into a buffer of its length.
    fn value_by_entry<D: Disk>(
        &self,
        disk: &D,
        place: u32,
        key: &Key,
        entry: &mut [u8],
        out: &mut [u8],
    ) -> Result<bool, D::Fault>
        requires place { place < self.now.count }
        requires entry { length entry.old ≡ entry_len self.now.shape }
        requires out { length out.old ≡ self.now.shape.value_len }
        requires size { device_size self.now.shape ≤ size (D.content disk.now) }
        ensures found { IsTrue (D.content disk.now).honest → result ≡ Ok true → HasKeyAndValue (entries_of (D.content disk.now) self.now) place key.now.0 out.new }
        ensures other { IsTrue (D.content disk.now).honest → result ≡ Ok false → get_or (keys_of (entries_of (D.content disk.now) self.now)) place [] ≢ key.now.0 }
        ensures absent { result ≡ Ok false → out.new ≡ out.old }
        ensures fault { IfErr result (GaveAny D.gave disk.now) }
    {
        let standing = self.entry(disk, place, entry)?;
        if standing != *key {
            return Ok(false);
        }
        out.copy_from_slice(&entry[KEY_LEN..]);
        Ok(true)
    }

    // Like `value_of`, with a read of the key and one of the value.
    fn value_by_parts<D: Disk>(
        &self,
        disk: &D,
        place: u32,
        key: &Key,
        out: &mut [u8],
    ) -> Result<bool, D::Fault>
        requires place { place < self.now.count }
        requires out { length out.old ≡ self.now.shape.value_len }
        requires size { device_size self.now.shape ≤ size (D.content disk.now) }
        ensures found { IsTrue (D.content disk.now).honest → result ≡ Ok true → HasKeyAndValue (entries_of (D.content disk.now) self.now) place key.now.0 out.new }
        ensures other { IsTrue (D.content disk.now).honest → result ≡ Ok false → get_or (keys_of (entries_of (D.content disk.now) self.now)) place [] ≢ key.now.0 }
        ensures absent { result ≡ Ok false → out.new ≡ out.old }
        ensures fault { IfErr result (GaveAny D.gave disk.now) }
    {
        let standing = self.read_key(disk, place)?;
        if standing != *key {
            return Ok(false);
        }
        self.read_value(disk, place, out)?;
        Ok(true)
    }
}
