// Entries of the sorted store that were read ahead, in one read.
ghost use Rattle.std.specs.Prelude.{◌≡◌, ◌<◌, ◌≤◌, ◌+◌, ◌-◌, ◌*◌, None, Ok, length, IsTrue, IfSome, IfOk, IfErr, OnOk};
ghost use Rattle.silt_disk.specs.Disk.{GaveAny, size};
ghost use Rattle.silt_disk.specs.Layout.{device_size, entry_len};
ghost use Rattle.silt_sorted_store.specs.Indexing.{HoldsEntries};
ghost use Rattle.silt_sorted_store.specs.State.{entries_of};
ghost use Rattle.silt_dump.specs.Order.{IsAbove};
ghost use Rattle.silt_dump.specs.Pieces.{CanGoOn, EndsEarly, HoldsPiece, IsAtPlace, IsPieceOf, bytes_at, key_at};

use crate::order::is_above;
use silt_disk::Disk;
use silt_event::Place;
use silt_frame::{Key, entry_of};
use silt_recovery::OpenError;
use silt_sorted_store::SortedEntries;
use std::alloc::{AllocError, Global};

/// The greatest length of one read of entries, in bytes.
const READ_LEN: usize = 65_536;

/// Some entries that lie one after the other.
#[derive(Drop)]
pub struct Piece {
    /// How many entries the bytes have room for.
    pub most: u32,
    /// The place of the first entry that was read.
    pub first: u32,
    /// How many entries were read.
    pub count: u32,
    pub bytes: Vec<u8>,
}

// Reads this many entries from a place on into the front of a buffer.
fn entries_into<D: Disk>(
    entries: &SortedEntries,
    disk: &D,
    place: u32,
    count: u32,
    buffer: &mut [u8],
) -> Result<(), D::Fault>
    requires some { 0 < count }
    requires within { place + count ≤ entries.now.count }
    requires buffer { count * entry_len entries.now.shape ≤ length buffer.old }
    requires size { device_size entries.now.shape ≤ size (D.content disk.now) }
    ensures entries { IsTrue (D.content disk.now).honest → OnOk result (HoldsEntries (entries_of (D.content disk.now) entries.now) place count (entry_len entries.now.shape) buffer.new) }
    ensures len { length buffer.new ≡ length buffer.old }
    ensures fault { IfErr result (GaveAny D.gave disk.now) }
{
    let len = entries.geometry().entry_len();
    entries.read_entries(disk, place, count, &mut buffer[..count as usize * len])?;
    Ok(())
}

impl Piece {
    // No entry, and room for those of one read.
    pub fn new(alloc: Global, entries: &SortedEntries) -> Result<Self, AllocError>
        ensures piece { IfOk result (IsPieceOf entries.now) }
        ensures empty { IfOk result (λ piece. (piece.first ≡ 0) × (piece.count ≡ 0)) }
    {
        let len = entries.geometry().entry_len();
        let most = entries.len().min((READ_LEN / len) as u32);
        let bytes = vec![in alloc; 0u8; most as usize * len]?;
        Ok(Piece {
            most,
            first: 0,
            count: 0,
            bytes,
        })
    }

    // Reads as many entries as there is room for, from a place on.
    fn read<D: Disk>(
        &mut self,
        disk: &D,
        entries: &SortedEntries,
        place: u32,
    ) -> Result<(), D::Fault>
        requires piece { IsPieceOf entries.now self.old }
        requires place { place < entries.now.count }
        requires size { device_size entries.now.shape ≤ size (D.content disk.now) }
        ensures piece { OnOk result (IsPieceOf entries.now self.new) }
        ensures there { OnOk result ((self.new.first ≡ place) × (0 < self.new.count)) }
        ensures holds { IsTrue (D.content disk.now).honest → OnOk result (HoldsPiece (D.content disk.now) entries.now self.new) }
        ensures fault { IfErr result (GaveAny D.gave disk.now) }
    {
        let count = self.most.min(entries.len() - place);
        entries_into(entries, disk, place, count, &mut self.bytes)?;
        self.first = place;
        self.count = count;
        Ok(())
    }

    // Reads the entries from a place on, if the piece ends before it.
    fn fill<D: Disk>(
        &mut self,
        disk: &D,
        entries: &SortedEntries,
        place: u32,
    ) -> Result<(), D::Fault>
        requires at { IsAtPlace entries.now self.old place }
        requires place { place < entries.now.count }
        requires size { device_size entries.now.shape ≤ size (D.content disk.now) }
        ensures at { OnOk result (IsAtPlace entries.now self.new place) }
        ensures there { OnOk result (place < self.new.first + self.new.count) }
        ensures holds { IsTrue (D.content disk.now).honest → HoldsPiece (D.content disk.now) entries.now self.old → OnOk result (HoldsPiece (D.content disk.now) entries.now self.new) }
        ensures fault { IfErr result (GaveAny D.gave disk.now) }
    {
        if place - self.first < self.count {
            return Ok(());
        }
        self.read(disk, entries, place)
    }

    // The key of the entry at a place. `None` behind the last entry. The keys of a device's entries rise: if this one is not above the last
    // key, they have changed since they were examined.
    pub fn next_key<D: Disk>(
        &mut self,
        disk: &D,
        entries: &SortedEntries,
        place: u32,
        last: &Option<Key>,
    ) -> Result<Option<Key>, OpenError<D::Fault>>
        requires at { IsAtPlace entries.now self.old place }
        requires size { device_size entries.now.shape ≤ size (D.content disk.now) }
        ensures at { OnOk result (IsAtPlace entries.now self.new place) }
        ensures none { result ≡ Ok None → place ≡ entries.now.count }
        ensures there { IfOk result (λ next. IfSome next (λ key. (place < self.new.first + self.new.count) × IsAbove last.now key)) }
        ensures holds { IsTrue (D.content disk.now).honest → HoldsPiece (D.content disk.now) entries.now self.old → OnOk result (HoldsPiece (D.content disk.now) entries.now self.new) }
        ensures key { IsTrue (D.content disk.now).honest → HoldsPiece (D.content disk.now) entries.now self.old
            → IfOk result (λ next. IfSome next (λ key. key ≡ key_at (entries_of (D.content disk.now) entries.now) place)) }
        ensures cause { IfErr result (EndsEarly (CanGoOn (D.content disk.now) entries.now self.old place last.now) (GaveAny D.gave disk.now)) }
    {
        if place == entries.len() {
            return Ok(None);
        }
        if let Err(fault) = self.fill(disk, entries, place) {
            return Err(OpenError::Device(fault));
        }
        let (key, _value) = entry_of(self.entry(entries, place));
        if is_above(&key, last) {
            Ok(Some(key))
        } else {
            Err(OpenError::Damaged(Place::Sorted(place)))
        }
    }

    // The bytes of the entry at a place.
    pub fn entry(&self, entries: &SortedEntries, place: u32) -> &[u8]
        requires at { IsAtPlace entries.now self.now place }
        requires there { place < self.now.first + self.now.count }
        ensures { result.now ≡ bytes_at (entry_len entries.now.shape) self.now place }
    {
        let len = entries.geometry().entry_len();
        let at = (place - self.first) as usize * len;
        &self.bytes[at..at + len]
    }
}
