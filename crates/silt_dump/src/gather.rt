// Notes where the newest row of each key of the logs and the hash stores lies.
ghost use Rattle.std.specs.Prelude.{◌≡◌, ◌==◌, ◌<◌, ◌≤◌, ◌*◌, [], ◌∷◌, cond, length, filter, IsTrue, IfOk, IfErr, OnOk};
ghost use Rattle.silt_disk.specs.Disk.{GaveAny};
ghost use Rattle.silt_disk.specs.Layout.{row_len};
ghost use Rattle.silt_event.specs.Rows.{map_of_rows};
ghost use Rattle.silt_frame.specs.Frame.{head_len};
ghost use Rattle.silt_frame.specs.Rows.{has_known_kind, row_of};
ghost use Rattle.silt_hash_store.specs.Slots.{slot_row};
ghost use Rattle.silt_log.specs.State.{all_rows};
ghost use Rattle.silt_sorted_store.specs.State.{entries_of};
ghost use Rattle.silt_engine.specs.Entries.{hashed_rows};
ghost use Rattle.silt_engine.specs.Lookup.{EntriesErrorCause, hash_rows_of, hash_store_at};
ghost use Rattle.silt_standing.specs.Standing.{current_map};
ghost use Rattle.silt_recovery.specs.Opening.{Holds, held_stores};
ghost use Rattle.silt_dump.specs.Spots.{AreSpotsOf, NotesRows, Overlays, log_at, logged_rows};
ghost use Rattle.silt_dump.specs.declared.spot.Spot.TheVariants.{Deleted};

use crate::spot::{Spot, log_of};
use silt_disk::Disk;
use silt_engine::EntriesError;
use silt_frame::{HEAD_LEN, KEY_LEN, Key, Kind};
use silt_recovery::Holding;
use std::alloc::Global;
use std::collections::BTreeMap;

// The kind byte of a put.
const PUT: u8 = 1;

// The key of the row in these bytes, and its spot: this one if the row is a put.
fn spot_in(row: &[u8], spot: Spot) -> (Key, Spot)
    requires { head_len ≤ length row.now }
    ensures key { result.0.0 ≡ (row_of row.now).key }
    ensures spot { result.1 ≡ cond ((row_of row.now).kind == 1) spot Deleted }
{
    let mut key = [0; KEY_LEN];
    key.copy_from_slice(&row[1..HEAD_LEN]);
    let spot = if row[0] == PUT { spot } else { Spot::Deleted };
    (Key(key), spot)
}

// Notes the rows of the log of this number, the oldest first. Each is read once, into these bytes.
fn note_rows<D: Disk>(
    disk: &D,
    held: &Holding,
    number: u8,
    row: &mut [u8],
    spots: &mut BTreeMap<Key, Spot>,
) -> Result<(), EntriesError<D::Fault>>
    requires holds { Holds (D.content disk.now) (held_stores held.now) }
    requires number { number ≤ length held.now.frozen.items }
    requires row { length row.old ≡ row_len held.now.manifest.shape }
    ensures notes { OnOk result (NotesRows (D.content disk.now) (held_stores held.now) (all_rows (D.content disk.now) (log_at (held_stores held.now) number).log) spots.old spots.new) }
    ensures cause { IfErr result (EntriesErrorCause (GaveAny D.gave disk.now)) }
{
    let log = log_of(held, number);
    for place in 0..log.len() {
        if let Err(fault) = log.read_row(disk, place, row) {
            return Err(EntriesError::Device(fault));
        }
        let (key, spot) = spot_in(row, Spot::Logged(number, place));
        let Ok(_older) = spots.insert(key, spot) else {
            return Err(EntriesError::NoMemory);
        };
    }
    Ok(())
}

// Notes the rows of all logs, the oldest log first.
fn note_logs<D: Disk>(
    disk: &D,
    held: &Holding,
    row: &mut [u8],
    spots: &mut BTreeMap<Key, Spot>,
) -> Result<(), EntriesError<D::Fault>>
    requires holds { Holds (D.content disk.now) (held_stores held.now) }
    requires row { length row.old ≡ row_len held.now.manifest.shape }
    ensures notes { OnOk result (NotesRows (D.content disk.now) (held_stores held.now) (logged_rows (D.content disk.now) (held_stores held.now)) spots.old spots.new) }
    ensures cause { IfErr result (EntriesErrorCause (GaveAny D.gave disk.now)) }
{
    let _known = held.manifest.current().frozen.len(); // so a byte holds each number
    for number in (0..held.frozen.len() + 1).rev() {
        note_rows(disk, held, number as u8, row, spots)?;
    }
    Ok(())
}

// Notes the row in a slot of the hash store of this number, if it has one of a known kind.
fn note_slot<D: Disk>(
    disk: &D,
    held: &Holding,
    number: u8,
    slot: u32,
    spots: &mut BTreeMap<Key, Spot>,
) -> Result<(), EntriesError<D::Fault>>
    requires holds { Holds (D.content disk.now) (held_stores held.now) }
    requires number { number < length held.now.hashes.items }
    requires slot { slot < 4 * held.now.manifest.shape.buckets }
    ensures notes { OnOk result (NotesRows (D.content disk.now) (held_stores held.now)
        (filter has_known_kind (slot_row (hash_store_at (held_stores held.now) number).shape (hash_store_at (held_stores held.now) number).region
        (D.content disk.now).shown slot ∷ [])) spots.old spots.new) }
    ensures cause { IfErr result (EntriesErrorCause (GaveAny D.gave disk.now)) }
{
    let row = match held.hashes[number as usize].row_at(disk, slot) {
        Ok(Some(row)) => row,
        Ok(None) => return Ok(()),
        Err(fault) => return Err(EntriesError::Device(fault)),
    };
    let spot = match row.kind {
        Kind::Put => Spot::Hashed(number, slot),
        Kind::Delete => Spot::Deleted,
    };
    let Ok(_older) = spots.insert(row.key, spot) else {
        return Err(EntriesError::NoMemory);
    };
    Ok(())
}

// Notes the rows of the hash store of this number, slot by slot.
fn note_slots<D: Disk>(
    disk: &D,
    held: &Holding,
    number: u8,
    spots: &mut BTreeMap<Key, Spot>,
) -> Result<(), EntriesError<D::Fault>>
    requires holds { Holds (D.content disk.now) (held_stores held.now) }
    requires number { number < length held.now.hashes.items }
    ensures notes { OnOk result (NotesRows (D.content disk.now) (held_stores held.now)
        (filter has_known_kind (hash_rows_of (D.content disk.now) (hash_store_at (held_stores held.now) number))) spots.old spots.new) }
    ensures cause { IfErr result (EntriesErrorCause (GaveAny D.gave disk.now)) }
{
    for slot in 0..4 * held.manifest.geometry().buckets() {
        note_slot(disk, held, number, slot, spots)?;
    }
    Ok(())
}

// Notes the rows of all hash stores, the oldest store first.
fn note_hashes<D: Disk>(
    disk: &D,
    held: &Holding,
    spots: &mut BTreeMap<Key, Spot>,
) -> Result<(), EntriesError<D::Fault>>
    requires holds { Holds (D.content disk.now) (held_stores held.now) }
    ensures notes { OnOk result (NotesRows (D.content disk.now) (held_stores held.now) (hashed_rows (D.content disk.now) (held_stores held.now)) spots.old spots.new) }
    ensures cause { IfErr result (EntriesErrorCause (GaveAny D.gave disk.now)) }
{
    let _known = held.manifest.current().hashed.len(); // so a byte holds each number
    for number in (0..held.hashes.len()).rev() {
        note_slots(disk, held, number as u8, spots)?;
    }
    Ok(())
}

// Where the newest row of each key of the logs and the hash stores lies. It reads the head of each slot, and each row of a log.
pub fn gather<D: Disk>(
    alloc: Global,
    disk: &D,
    held: &Holding,
) -> Result<BTreeMap<Key, Spot>, EntriesError<D::Fault>>
    requires holds { Holds (D.content disk.now) (held_stores held.now) }
    ensures spots { IfOk result (AreSpotsOf (held_stores held.now)) }
    ensures notes { IsTrue (D.content disk.now).honest → IfOk result (Overlays (D.content disk.now) (held_stores held.now)
        (current_map (D.content disk.now) (held_stores held.now)) (map_of_rows (entries_of (D.content disk.now) held.now.sorted.sorted))) }
    ensures cause { IfErr result (EntriesErrorCause (GaveAny D.gave disk.now)) }
{
    let Ok(mut row) = vec![in alloc; 0u8; held.manifest.geometry().row_len()] else {
        return Err(EntriesError::NoMemory);
    };
    let mut spots = BTreeMap::new(alloc);
    note_hashes(disk, held, &mut spots)?;
    note_logs(disk, held, &mut row, &mut spots)?;
    Ok(spots)
}
