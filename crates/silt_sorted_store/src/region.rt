// A sorted region on a device: the offsets of its entries, and how to write one.
ghost use Rattle.std.specs.Prelude.{◌≡◌, ◌+◌, ◌*◌, ◌<◌, ◌≤◌, ◌^◌, ◌++◌, cond, length, take, IsTrue, IfOk};
ghost use Rattle.silt_disk.specs.Disk.{ChangesWithin, size};
ghost use Rattle.silt_disk.specs.Layout.{device_size, entry_len, sorted_at};
ghost use Rattle.silt_disk.specs.Wrote.{Wrote};
ghost use Rattle.silt_sorted_store.specs.State.{sorted_rows, sorted_entry_at};
ghost use Rattle.silt_sorted_store.specs.Region.{due_rows, is_written};

use silt_disk::{Disk, Geometry};

/// A sorted region, by the geometry of its store and its number.
#[derive(Clone, Copy)]
pub struct SortedRegion {
    pub geometry: Geometry,
    pub number: u32,
    ghost there: { number < 2 },
}

impl SortedRegion {
    /// Where the entry at a place begins.
    pub(crate) fn entry_at(&self, place: u32) -> u64
        requires { place < self.now.geometry.sorted_capacity }
        ensures value { result ≡ sorted_entry_at self.now.geometry self.now.number place }
        ensures fits { result + entry_len self.now.geometry ≤ device_size self.now.geometry }
        ensures most { device_size self.now.geometry ≤ 2 ^ 39 }
    {
        self.geometry.sorted_at(self.number) + u64::from(place) * self.geometry.entry_len() as u64
    }

    /// Writes the bytes of an entry at a place, if there are any to write and the region has the place. Returns the new number of entries.
    /// Costs one write for an entry that is written, and else none.
    ///
    /// # Errors
    ///
    /// The fault of the write. The entry at the place may then show any bytes.
    pub fn write_due<D: Disk>(
        &self,
        disk: &mut D,
        place: u32,
        is_due: bool,
        entry: &[u8],
    ) -> Result<u32, D::Fault>
        requires place { place ≤ self.now.geometry.sorted_capacity }
        requires entry { length entry.now ≡ entry_len self.now.geometry }
        requires size { device_size self.now.geometry ≤ size (D.content disk.old) }
        ensures wrote { Wrote D.Disk (sorted_entry_at self.now.geometry self.now.number place) (entry_len self.now.geometry)
            (cond (is_written is_due place self.now.geometry.sorted_capacity) 1 0) 0 disk.old disk.new result }
        ensures region { ChangesWithin (sorted_at self.now.geometry self.now.number) (self.now.geometry.sorted_capacity * entry_len self.now.geometry) (D.content disk.old) (D.content disk.new) }
        ensures kept { IsTrue (D.content disk.old).honest
            → sorted_rows self.now.geometry self.now.number place (D.content disk.new).shown ≡ sorted_rows self.now.geometry self.now.number place (D.content disk.old).shown }
        ensures written { IsTrue (D.content disk.old).honest → IfOk result (λ count. sorted_rows self.now.geometry self.now.number count (D.content disk.new).shown
            ≡ take self.now.geometry.sorted_capacity (sorted_rows self.now.geometry self.now.number place (D.content disk.old).shown ++ due_rows is_due entry.now)) }
        ensures most { IfOk result (λ count. count ≤ self.now.geometry.sorted_capacity) }
        ensures count { IfOk result (λ count. count ≡ place + cond (is_written is_due place self.now.geometry.sorted_capacity) 1 0) }
    {
        if !is_due {
            return Ok(place);
        }
        if place == self.geometry.sorted_capacity() {
            return Ok(place);
        }
        disk.write(self.entry_at(place), entry)?;
        Ok(place + 1)
    }
}
