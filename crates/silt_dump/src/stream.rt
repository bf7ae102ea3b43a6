// The entries of a store, in the order of their keys.
ghost use Rattle.std.specs.Prelude.{◌≡◌, ◌<◌, ◌≤◌, ◌+◌, cond, None, Some, Ok, true, false, length, drop, vec_len, IsTrue, IfSome, IfOk, IfErr, OnOk};
ghost use Rattle.silt_disk.specs.Disk.{GaveAny};
ghost use Rattle.silt_disk.specs.Layout.{entry_len, row_len};
ghost use Rattle.silt_frame.specs.Frame.{key_len};
ghost use Rattle.silt_image.specs.Meaning.{IsGood, image_map};
ghost use Rattle.silt_recovery.specs.Opening.{Holds};
ghost use Rattle.silt_recovery.specs.Refusals.{IsFound, IsRefusedLook};
ghost use Rattle.silt_dump.specs.Order.{HasNext, IsNextEntry};
ghost use Rattle.silt_dump.specs.Pieces.{EndsEarly, IsAtPlace, IsPieceOf, bytes_at};
ghost use Rattle.silt_dump.specs.Spots.{IsSpotOf, spot_value};
ghost use Rattle.silt_dump.specs.Stream.{GoesTo, PassesNext, PassesTo, Streams, stores_of, value_len_of};

use crate::gather::gather;
use crate::order::{has_key, take_lowest};
use crate::piece::Piece;
use crate::spot::{Spot, read_spot};
use silt_disk::Disk;
use silt_engine::EntriesError;
use silt_frame::{KEY_LEN, Key};
use silt_recovery::{Holding, OpenError, examine};
use std::alloc::{AllocError, Global};
use std::collections::BTreeMap;

/// The entries of a store, in the order of their keys. It keeps the keys of the logs and the hash stores that were not passed yet, each
/// with its spot, and the entries of one read.
#[derive(Drop)]
pub struct EntryStream {
    pub held: Holding,
    /// Where the newest row of each key of the logs and the hash stores lies, of those that were not passed.
    pub spots: BTreeMap<Key, Spot>,
    pub piece: Piece,
    /// The place of the next entry of the sorted store.
    pub place: u32,
    /// Room for one row of a log.
    pub row: Vec<u8>,
    /// The key that was passed last.
    pub last: Option<Key>,
}

// Room for the entries of one read, and for one row of a log.
fn room_for(alloc: Global, held: &Holding) -> Result<(Piece, Vec<u8>), AllocError>
    ensures piece { IfOk result (λ room. IsPieceOf held.now.sorted.sorted room.0) }
    ensures empty { IfOk result (λ room. (room.0.first ≡ 0) × (room.0.count ≡ 0)) }
    ensures row { IfOk result (λ room. vec_len room.1 ≡ row_len held.now.manifest.shape) }
{
    let piece = Piece::new(alloc, held.sorted.entries())?;
    let row = vec![in alloc; 0u8; held.manifest.geometry().row_len()]?;
    Ok((piece, row))
}

impl EntryStream {
    /// The entries of the store on a device. It looks at the device as `check` does. Then it reads each row of a log, and the head of
    /// each slot of a hash store.
    ///
    /// # Errors
    ///
    /// Those of `check`.
    pub fn open<D: Disk>(alloc: Global, disk: &D) -> Result<Self, OpenError<D::Fault>>
        ensures streams { IfOk result (Streams (D.content disk.now)) }
        ensures first { IfOk result (λ stream. stream.last ≡ None) }
        ensures good { IsTrue (D.content disk.now).honest → OnOk result (IsGood (D.content disk.now).shown) }
        ensures cause { IfErr result (IsRefusedLook
            (λ finding. IsTrue (D.content disk.now).honest → IsFound (D.content disk.now).shown finding)
            (GaveAny D.gave disk.now)) }
    {
        let held = examine(alloc, disk)?;
        let Ok((piece, row)) = room_for(alloc, &held) else {
            return Err(OpenError::NoMemory);
        };
        match gather(alloc, disk, &held) {
            Ok(spots) => Ok(EntryStream {
                held,
                spots,
                piece,
                place: 0,
                row,
                last: None,
            }),
            Err(EntriesError::Device(fault)) => Err(OpenError::Device(fault)),
            Err(EntriesError::NoMemory) => Err(OpenError::NoMemory),
        }
    }

    /// The length of each value, in bytes.
    pub fn value_len(&self) -> usize
        ensures { result ≡ value_len_of self.now }
    {
        self.held.manifest.geometry().value_len() as usize
    }

    // Passes a key that has a spot: puts its value into `value` if it has one, and also passes the next entry if it has this key.
    fn pass_row<D: Disk>(
        &mut self,
        disk: &D,
        spot: Spot,
        key: Key,
        is_entry: bool,
        value: &mut [u8],
    ) -> Result<bool, D::Fault>
        requires holds { Holds (D.content disk.now) (stores_of self.old) }
        requires spot { IsSpotOf (stores_of self.old) spot }
        requires row { vec_len self.old.row ≡ row_len self.old.held.manifest.shape }
        requires value { length value.old ≡ value_len_of self.old }
        requires place { self.old.place + cond is_entry 1 0 ≤ self.old.held.sorted.sorted.count }
        ensures goes { OnOk result (GoesTo self.old self.new (self.old.place + cond is_entry 1 0) key) }
        ensures found { IsTrue (D.content disk.now).honest → result ≡ Ok true → spot_value (D.content disk.now) (stores_of self.old) spot ≡ Some value.new }
        ensures none { IsTrue (D.content disk.now).honest → result ≡ Ok false → spot_value (D.content disk.now) (stores_of self.old) spot ≡ None }
        ensures fault { IfErr result (GaveAny D.gave disk.now) }
    {
        let _known = self.held.sorted.len(); // so a word holds each place
        let found = read_spot(disk, &self.held, spot, &mut self.row, value)?;
        self.place += u32::from(is_entry);
        self.last = Some(key);
        Ok(found)
    }

    // Passes the next entry, which has this key: puts its value into `value`.
    fn pass_entry(&mut self, key: Key, value: &mut [u8])
        requires at { IsAtPlace self.old.held.sorted.sorted self.old.piece self.old.place }
        requires there { self.old.place < self.old.piece.first + self.old.piece.count }
        requires value { length value.old ≡ self.old.held.sorted.sorted.shape.value_len }
        ensures goes { GoesTo self.old self.new (self.old.place + 1) key }
        ensures value { value.new ≡ drop key_len (bytes_at (entry_len self.old.held.sorted.sorted.shape) self.old.piece self.old.place) }
    {
        let _known = self.held.sorted.len(); // so a word holds each place
        let entry = self.piece.entry(self.held.sorted.entries(), self.place);
        value.copy_from_slice(&entry[KEY_LEN..]);
        self.place += 1;
        self.last = Some(key);
    }

    // Passes the lowest key that was not passed yet. Returns it, and whether it has a value, which is put into `value`.
    fn pass<D: Disk>(
        &mut self,
        disk: &D,
        value: &mut [u8],
    ) -> Result<Option<(Key, bool)>, OpenError<D::Fault>>
        requires streams { Streams (D.content disk.now) self.old }
        requires value { length value.old ≡ value_len_of self.old }
        ensures passes { IfOk result (PassesNext (D.content disk.now) self.old self.new) }
        ensures next { IsTrue (D.content disk.now).honest → IfOk result (λ passed. HasNext (image_map (D.content disk.now).shown) self.old.last passed value.new) }
        ensures cause { IfErr result (EndsEarly (IsTrue (D.content disk.now).honest) (GaveAny D.gave disk.now)) }
    {
        let entries = self.held.sorted.entries();
        let entry = self.piece.next_key(disk, entries, self.place, &self.last)?;
        match (take_lowest(&mut self.spots, &entry), entry) {
            (Some((key, spot)), _) => {
                let is_entry = has_key(&entry, &key);
                match self.pass_row(disk, spot, key, is_entry, value) {
                    Ok(found) => Ok(Some((key, found))),
                    Err(fault) => Err(OpenError::Device(fault)),
                }
            }
            (None, Some(key)) => {
                self.pass_entry(key, value);
                Ok(Some((key, true)))
            }
            (None, None) => Ok(None),
        }
    }

    /// The entry with the lowest key above that of the entry before: returns its key, and puts its value into `value`. `None` behind
    /// the last entry.
    ///
    /// # Errors
    ///
    /// `Device` with the fault of a read. `Damaged` if the entries of the sorted store have changed since they were examined, and do not
    /// rise any more.
    pub fn next<D: Disk>(
        &mut self,
        disk: &D,
        value: &mut [u8],
    ) -> Result<Option<Key>, OpenError<D::Fault>>
        requires streams { Streams (D.content disk.now) self.old }
        requires value { length value.old ≡ value_len_of self.old }
        ensures passes { IfOk result (λ next. IfSome next (PassesTo (D.content disk.now) self.old self.new)) }
        ensures entry { IsTrue (D.content disk.now).honest → IfOk result (λ next. IsNextEntry (image_map (D.content disk.now).shown) self.old.last next value.new) }
        ensures cause { IfErr result (EndsEarly (IsTrue (D.content disk.now).honest) (GaveAny D.gave disk.now)) }
    {
        while let Some((key, found)) = self.pass(disk, value)? {
            if found {
                return Ok(Some(key));
            }
        }
        Ok(None)
    }
}
