// A piece of a hash region or of a sorted region, read together and taken part by part.
ghost use Rattle.std.specs.Prelude.{◌≡◌, ◌+◌, ◌*◌, ◌<◌, ◌≤◌, ℕ, [], true, false, List, get_or, length, take, IsTrue, IfOk, IfErr, OnOk, OnErr};
ghost use Rattle.silt_disk.specs.Disk.{GaveAny, size};
ghost use Rattle.silt_disk.specs.Layout.{device_size, entry_len, row_len};
ghost use Rattle.silt_frame.specs.Frame.{head_len, key_len};
ghost use Rattle.silt_frame.specs.Rows.{StoredRow, row_of};
ghost use Rattle.silt_hash_store.specs.Lookup.{IsRowAt};
ghost use Rattle.silt_hash_store.specs.Slots.{HoldsSlots};
ghost use Rattle.silt_sorted_store.specs.Indexing.{HoldsEntries};
ghost use Rattle.silt_sorted_store.specs.OnlyRow.{HasEntry};
ghost use Rattle.silt_sorted_store.specs.State.{entries_of};
ghost use Rattle.silt_merge.specs.Pieces.{AreEntries, AreSlots, parts_after, read_len};

use silt_disk::Disk;
use silt_frame::{Key, Row, entry_of};
use silt_hash_store::{HashStore, row_in};
use silt_sorted_store::SortedEntries;
use std::alloc::{AllocError, Global};
use std::marker::Model;

/// The greatest length of one read, in bytes.
const READ_LEN: usize = 65_536;

/// Slots or entries from one read of at most 64 KiB, without the skipped ones.
#[derive(Drop)]
pub struct Piece {
    bytes: Vec<u8>,
    len: usize,
    most: u32,
    at: u32,
    left: u32,
}

impl Model for Piece {
    ghost use Rattle.std.specs.Prelude.{◌+◌, ◌*◌, ◌<◌, ◌≤◌, vec_len};
    ghost use Rattle.silt_frame.specs.Frame.{key_len};
    ghost use Rattle.silt_merge.specs.Pieces.{PieceState, parts_from};

    ghost Value = { PieceState };

    ghost view = { λ a. record { len = a.len; parts = parts_from a.bytes.items a.len a.at a.left } };

    ghost invariant = { λ a. (key_len ≤ a.len) × (0 < a.most) × (a.most * a.len ≤ vec_len a.bytes) × (a.at + a.left ≤ a.most) };
}

// Reads this many entries from a place on into the front of a buffer.
fn entries_into<D: Disk>(
    entries: &SortedEntries,
    disk: &D,
    place: u32,
    count: u32,
    buffer: &mut [u8],
) -> Result<(), D::Fault>
    requires some { 0 < count }
    requires within { place + count ≤ entries.now.count }
    requires buffer { count * entry_len entries.now.shape ≤ length buffer.old }
    requires size { device_size entries.now.shape ≤ size (D.content disk.now) }
    ensures entries { IsTrue (D.content disk.now).honest → OnOk result (HoldsEntries (entries_of (D.content disk.now) entries.now) place count (entry_len entries.now.shape) buffer.new) }
    ensures len { length buffer.new ≡ length buffer.old }
    ensures fault { IfErr result (GaveAny D.gave disk.now) }
{
    let len = entries.geometry().entry_len();
    entries.read_entries(disk, place, count, &mut buffer[..count as usize * len])?;
    Ok(())
}

// Reads this many slots from a slot on into the front of a buffer.
fn slots_into<D: Disk>(
    store: &HashStore,
    disk: &D,
    slot: u32,
    count: u32,
    buffer: &mut [u8],
) -> Result<(), D::Fault>
    requires some { 0 < count }
    requires within { slot + count ≤ 4 * store.now.shape.buckets }
    requires buffer { count * row_len store.now.shape ≤ length buffer.old }
    requires size { device_size store.now.shape ≤ size (D.content disk.now) }
    ensures slots { IsTrue (D.content disk.now).honest → OnOk result (HoldsSlots store.now.shape store.now.region (D.content disk.now).shown slot count buffer.new) }
    ensures len { length buffer.new ≡ length buffer.old }
    ensures fault { IfErr result (GaveAny D.gave disk.now) }
{
    let len = store.geometry().row_len();
    store.read_slots(disk, slot, count, &mut buffer[..count as usize * len])?;
    Ok(())
}

impl Piece {
    ghost use Rattle.silt_merge.specs.Pieces.{PieceState};

    /// An empty piece, with room for this many parts of this many bytes each, or for as many as fit into 64 KiB if that is less.
    ///
    /// # Errors
    ///
    /// Out of memory: the room could not be allocated.
    pub fn new(alloc: Global, len: usize, count: u32) -> Result<Self, AllocError>
        requires least { key_len ≤ len }
        requires most { len ≤ read_len }
        ensures { IfOk result (λ piece. piece ≡ record { len = len; parts = [] }) }
    {
        let most = count.min((READ_LEN / len) as u32).max(1);
        Ok(Piece {
            bytes: vec![in alloc; 0u8; most as usize * len]?,
            len,
            most,
            at: 0,
            left: 0,
        })
    }

    /// Whether all parts are skipped.
    pub fn is_empty(&self) -> bool
        ensures none { result ≡ true → self.now.parts ≡ [] }
        ensures some { result ≡ false → 0 < length self.now.parts }
    {
        self.left == 0
    }

    /// Replaces the parts: reads the entries from a place on, as many as there is room for.
    ///
    /// # Errors
    ///
    /// The fault of the read. The piece is then empty.
    pub fn read_entries<D: Disk>(
        &mut self,
        entries: &SortedEntries,
        disk: &D,
        place: u32,
    ) -> Result<(), D::Fault>
        requires place { place < entries.now.count }
        requires len { self.old.len ≡ entry_len entries.now.shape }
        requires size { device_size entries.now.shape ≤ size (D.content disk.now) }
        ensures entries { IsTrue (D.content disk.now).honest → OnOk result (AreEntries (entries_of (D.content disk.now) entries.now) place self.new.parts) }
        ensures some { OnOk result (0 < length self.new.parts) }
        ensures err { OnErr result (self.new.parts ≡ []) }
        ensures len { self.new.len ≡ self.old.len }
        ensures fault { IfErr result (GaveAny D.gave disk.now) }
    {
        let count = self.most.min(entries.len() - place);
        self.left = 0;
        entries_into(entries, disk, place, count, &mut self.bytes)?;
        self.at = 0;
        self.left = count;
        Ok(())
    }

    /// Replaces the parts: reads the slots of a store from a slot on, as many as there is room for.
    ///
    /// # Errors
    ///
    /// The fault of the read. The piece is then empty.
    pub fn read_slots<D: Disk>(
        &mut self,
        store: &HashStore,
        disk: &D,
        slot: u32,
    ) -> Result<(), D::Fault>
        requires slot { slot < 4 * store.now.shape.buckets }
        requires len { self.old.len ≡ row_len store.now.shape }
        requires size { device_size store.now.shape ≤ size (D.content disk.now) }
        ensures slots { IsTrue (D.content disk.now).honest → OnOk result (AreSlots store.now.shape store.now.region (D.content disk.now).shown slot self.new.parts) }
        ensures some { OnOk result (0 < length self.new.parts) }
        ensures err { OnErr result (self.new.parts ≡ []) }
        ensures len { self.new.len ≡ self.old.len }
        ensures fault { IfErr result (GaveAny D.gave disk.now) }
    {
        let slots = 4 * store.geometry().buckets();
        let count = self.most.min(slots - slot);
        self.left = 0;
        slots_into(store, disk, slot, count, &mut self.bytes)?;
        self.at = 0;
        self.left = count;
        Ok(())
    }

    /// The bytes of the first part. Empty if all parts are skipped.
    pub fn first(&self) -> &[u8]
        ensures part { result.now ≡ get_or self.now.parts 0 [] }
        ensures len { 0 < length self.now.parts → length result.now ≡ self.now.len }
        ensures least { key_len ≤ self.now.len }
    {
        if self.left == 0 {
            return &self.bytes[..0];
        }
        let at = self.at as usize * self.len;
        &self.bytes[at..at + self.len]
    }

    /// Puts the bytes of the first part, which is an entry, into a buffer of their length. Returns its key.
    pub fn first_entry(&self, out: &mut [u8]) -> Key
        requires some { 0 < length self.now.parts }
        requires out { length out.old ≡ self.now.len }
        ensures entry { (rows : List StoredRow) (place : ℕ) → AreEntries rows place self.now.parts → HasEntry rows place out.new }
        ensures key { result.0 ≡ take key_len out.new }
        ensures len { length out.new ≡ length out.old }
    {
        out.copy_from_slice(self.first());
        let (key, _value) = entry_of(out);
        key
    }

    /// The row of the first part, which is the slot of this number. `None` if the slot is empty or its kind is unknown.
    pub fn first_row(&self, slot: u32) -> Option<Row>
        requires some { 0 < length self.now.parts }
        requires len { head_len ≤ self.now.len }
        ensures { IsRowAt (row_of (get_or self.now.parts 0 [])) slot result }
    {
        row_in(self.first(), slot)
    }

    /// Skips the first part, if asked to.
    pub fn pass(&mut self, passes: bool)
        ensures { self.new ≡ record self.old { parts = parts_after passes self.old.parts } }
    {
        if !passes {
            return;
        }
        if self.left == 0 {
            return;
        }
        self.at += 1;
        self.left -= 1;
    }

    /// Forgets all parts.
    pub fn clear(&mut self)
        ensures { self.new ≡ record self.old { parts = [] } }
    {
        self.left = 0;
    }
}
