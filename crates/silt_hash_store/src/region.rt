// A hash region on a device: the offsets of its slots, and how to read or write one.
ghost use Rattle.std.specs.Prelude.{◌≡◌, ◌+◌, ◌*◌, ◌<◌, ◌≤◌, ◌^◌, length, drop, slice_index, IsTrue, IfOk, IfErr, OnOk};
ghost use Rattle.silt_disk.specs.Disk.{GaveAny, size};
ghost use Rattle.silt_disk.specs.Layout.{device_size, row_len};
ghost use Rattle.silt_disk.specs.Wrote.{Wrote};
ghost use Rattle.silt_hash_store.specs.Lookup.{IsRowAt};
ghost use Rattle.silt_hash_store.specs.Slots.{HeadSays, HoldsSlots, hash_slot_at, slot_row};
ghost use Rattle.silt_frame.specs.Rows.{row_of};
ghost use Rattle.silt_frame.specs.Frame.{head_len};

use silt_disk::{Disk, Geometry};
use silt_frame::{HEAD_LEN, Key, Kind, Row, head_of};

/// The content of a slot's head.
#[derive(Clone, Copy)]
pub enum Head {
    /// The slot is empty: its kind byte is 0.
    Empty,
    /// The kind byte is another than 0, 1 and 2.
    Unknown,
    /// A row of this kind and this key.
    Row(Kind, Key),
}

/// A hash region, by the geometry of its store and its number.
#[derive(Clone, Copy)]
pub struct HashRegion {
    pub geometry: Geometry,
    pub number: u32,
    ghost there: { number < geometry.hashes },
}

// Decodes the bytes of a head.
fn head_said(bytes: &[u8; HEAD_LEN]) -> Head
    ensures { HeadSays (slice_index bytes.now 0) (drop 1 bytes.now) result }
{
    if bytes[0] == 0 {
        return Head::Empty;
    }
    match head_of(bytes) {
        Some((kind, key)) => Head::Row(kind, key),
        None => Head::Unknown,
    }
}

/// Decodes the head of a slot from the slot's bytes.
pub fn head_in(bytes: &[u8]) -> Head
    requires { head_len ≤ length bytes.now }
    ensures { HeadSays (row_of bytes.now).kind (row_of bytes.now).key result }
{
    let mut head = [0; HEAD_LEN];
    head.copy_from_slice(&bytes[..HEAD_LEN]);
    head_said(&head)
}

/// The kind and the key of the row in the bytes of the slot of this number. `None` if the slot is empty or its kind is unknown.
pub fn row_in(bytes: &[u8], slot: u32) -> Option<Row>
    requires { head_len ≤ length bytes.now }
    ensures { IsRowAt (row_of bytes.now) slot result }
{
    match head_in(bytes) {
        Head::Row(kind, key) => Some(Row {
            kind,
            key,
            place: slot,
        }),
        Head::Empty | Head::Unknown => None,
    }
}

impl HashRegion {
    /// The number of slots.
    pub fn slot_count(&self) -> u32
        ensures count { result ≡ 4 * self.now.geometry.buckets }
        ensures most { result ≤ 2 ^ 17 }
    {
        4 * self.geometry.buckets()
    }

    // Where a slot begins.
    fn slot_at(&self, slot: u32) -> u64
        requires { slot < 4 * self.now.geometry.buckets }
        ensures value { result ≡ hash_slot_at self.now.geometry self.now.number slot }
        ensures fits { result + row_len self.now.geometry ≤ device_size self.now.geometry }
        ensures most { device_size self.now.geometry ≤ 2 ^ 39 }
    {
        self.geometry.hash_at(self.number) + u64::from(slot) * self.geometry.row_len() as u64
    }

    /// Reads the head of a slot.
    ///
    /// # Errors
    ///
    /// The fault of the read.
    pub fn read_head<D: Disk>(&self, disk: &D, slot: u32) -> Result<Head, D::Fault>
        requires slot { slot < 4 * self.now.geometry.buckets }
        requires size { device_size self.now.geometry ≤ size (D.content disk.now) }
        ensures head { IsTrue (D.content disk.now).honest → IfOk result (HeadSays
            (slot_row self.now.geometry self.now.number (D.content disk.now).shown slot).kind
            (slot_row self.now.geometry self.now.number (D.content disk.now).shown slot).key) }
        ensures fault { IfErr result (GaveAny D.gave disk.now) }
    {
        let mut head = [0; HEAD_LEN];
        disk.read(self.slot_at(slot), &mut head)?;
        Ok(head_said(&head))
    }

    /// Reads the first bytes of a slot, as many as `out` is long, and decodes the head. If `out` has room for a whole row, the value of
    /// the row follows the head.
    ///
    /// # Errors
    ///
    /// The fault of the read. `out` may then hold any bytes.
    pub fn read_front<D: Disk>(&self, disk: &D, slot: u32, out: &mut [u8]) -> Result<Head, D::Fault>
        requires slot { slot < 4 * self.now.geometry.buckets }
        requires least { head_len ≤ length out.old }
        requires most { length out.old ≤ row_len self.now.geometry }
        requires size { device_size self.now.geometry ≤ size (D.content disk.now) }
        ensures head { IsTrue (D.content disk.now).honest → IfOk result (HeadSays
            (slot_row self.now.geometry self.now.number (D.content disk.now).shown slot).kind
            (slot_row self.now.geometry self.now.number (D.content disk.now).shown slot).key) }
        ensures value { IsTrue (D.content disk.now).honest → length out.old ≡ row_len self.now.geometry
            → OnOk result (drop head_len out.new ≡ (slot_row self.now.geometry self.now.number (D.content disk.now).shown slot).value) }
        ensures fault { IfErr result (GaveAny D.gave disk.now) }
    {
        disk.read(self.slot_at(slot), out)?;
        let mut head = [0; HEAD_LEN];
        head.copy_from_slice(&out[..HEAD_LEN]);
        Ok(head_said(&head))
    }

    /// Reads the value of the row in a slot.
    ///
    /// # Errors
    ///
    /// The fault of the read. `out` may then hold any bytes.
    pub fn read_value<D: Disk>(&self, disk: &D, slot: u32, out: &mut [u8]) -> Result<(), D::Fault>
        requires slot { slot < 4 * self.now.geometry.buckets }
        requires out { length out.old ≡ self.now.geometry.value_len }
        requires size { device_size self.now.geometry ≤ size (D.content disk.now) }
        ensures value { IsTrue (D.content disk.now).honest → OnOk result (out.new ≡ (slot_row self.now.geometry self.now.number (D.content disk.now).shown slot).value) }
        ensures fault { IfErr result (GaveAny D.gave disk.now) }
    {
        disk.read(self.slot_at(slot) + HEAD_LEN as u64, out)?;
        Ok(())
    }

    /// Reads the bytes of this many slots from a slot on, in one read.
    ///
    /// # Errors
    ///
    /// The fault of the read. `rows` may then hold any bytes.
    pub fn read_slots<D: Disk>(
        &self,
        disk: &D,
        slot: u32,
        count: u32,
        rows: &mut [u8],
    ) -> Result<(), D::Fault>
        requires some { 0 < count }
        requires within { slot + count ≤ 4 * self.now.geometry.buckets }
        requires rows { length rows.old ≡ count * row_len self.now.geometry }
        requires size { device_size self.now.geometry ≤ size (D.content disk.now) }
        ensures slots { IsTrue (D.content disk.now).honest → OnOk result (HoldsSlots self.now.geometry self.now.number (D.content disk.now).shown slot count rows.new) }
        ensures fault { IfErr result (GaveAny D.gave disk.now) }
    {
        disk.read(self.slot_at(slot), rows)?;
        Ok(())
    }

    /// Writes the bytes of a row into a slot, in one write.
    ///
    /// # Errors
    ///
    /// The fault of the write. The slot may then show any bytes.
    pub fn write_slot<D: Disk>(&self, disk: &mut D, slot: u32, row: &[u8]) -> Result<(), D::Fault>
        requires slot { slot < 4 * self.now.geometry.buckets }
        requires row { length row.now ≡ row_len self.now.geometry }
        requires size { device_size self.now.geometry ≤ size (D.content disk.old) }
        ensures wrote { Wrote D.Disk (hash_slot_at self.now.geometry self.now.number slot) (row_len self.now.geometry) 1 0 disk.old disk.new result }
        ensures written { IsTrue (D.content disk.old).honest → OnOk result (slot_row self.now.geometry self.now.number (D.content disk.new).shown slot ≡ row_of row.now) }
    {
        disk.write(self.slot_at(slot), row)?;
        Ok(())
    }
}
