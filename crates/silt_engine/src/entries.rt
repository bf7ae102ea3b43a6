// All keys with their values, from the entries of the sorted store and the rows of the hash stores and of the logs.
ghost use Rattle.std.specs.Prelude.{◌≡◌, ◌<◌, ◌≤◌, ◌*◌, [], ◌∷◌, length, filter, IsTrue, IfErr, IfOk, OnOk};
ghost use Rattle.silt_disk.specs.Disk.{GaveAny, size};
ghost use Rattle.silt_disk.specs.Layout.{device_size, entry_len, row_len};
ghost use Rattle.silt_hash_store.specs.Slots.{slot_row, hash_rows};
ghost use Rattle.silt_frame.specs.Frame.{head_len};
ghost use Rattle.silt_frame.specs.Rows.{has_known_kind, row_of, stored_row};
ghost use Rattle.silt_frame.specs.declared.key.Kind.TheVariants.{Put};
ghost use Rattle.silt_log.specs.State.{all_rows};
ghost use Rattle.silt_sorted_store.specs.State.{entries_of};
ghost use Rattle.silt_engine.specs.Entries.{DoesRows, IsPutOf, hashed_rows};
ghost use Rattle.silt_engine.specs.Lookup.{EntriesErrorCause};

use crate::engine::Engine;
use silt_disk::Disk;
use silt_frame::{HEAD_LEN, KEY_LEN, Key, Kind, Value};
use silt_hash_store::HashStore;
use silt_log_store::LogStore;
use silt_sorted_store::SortedEntries;
use std::alloc::{AllocError, Global};
use std::collections::BTreeMap;

// The kind byte of a put.
const PUT: u8 = 1;

/// Why the entries were not read.
#[derive(Debug, Drop)]
pub enum EntriesError<F> {
    /// A read failed.
    Device(F),
    /// Out of memory for the entries.
    NoMemory,
}

// Does a put: its key has its value.
fn put_value(
    alloc: Global,
    key: Key,
    value: &[u8],
    entries: &mut BTreeMap<Key, Value>,
) -> Result<(), AllocError>
    ensures { OnOk result (DoesRows (stored_row Put key value.now ∷ []) entries.old entries.new) }
{
    let value = value.to_vec(alloc)?;
    let _older = entries.insert(key, Value::new(value))?;
    Ok(())
}

// Does the row in these bytes: a put sets its key's value, and a delete takes it away.
fn do_row(alloc: Global, bytes: &[u8], entries: &mut BTreeMap<Key, Value>) -> Result<(), AllocError>
    requires { head_len ≤ length bytes.now }
    ensures { OnOk result (DoesRows (row_of bytes.now ∷ []) entries.old entries.new) }
{
    let mut key = [0; KEY_LEN];
    key.copy_from_slice(&bytes[1..HEAD_LEN]);
    let key = Key(key);
    if bytes[0] == PUT {
        put_value(alloc, key, &bytes[HEAD_LEN..], entries)?;
    } else {
        let _older = entries.remove(&key);
    }
    Ok(())
}

// Does all rows of a log, the oldest first. Each is read once, into these bytes.
fn do_rows<D: Disk>(
    alloc: Global,
    disk: &D,
    store: &LogStore,
    bytes: &mut [u8],
    entries: &mut BTreeMap<Key, Value>,
) -> Result<(), EntriesError<D::Fault>>
    requires size { device_size store.now.log.shape ≤ size (D.content disk.now) }
    requires bytes { length bytes.old ≡ row_len store.now.log.shape }
    ensures ok { IsTrue (D.content disk.now).honest → OnOk result (DoesRows (all_rows (D.content disk.now) store.now.log) entries.old entries.new) }
    ensures cause { IfErr result (EntriesErrorCause (GaveAny D.gave disk.now)) }
{
    for place in 0..store.len() {
        if let Err(fault) = store.read_row(disk, place, bytes) {
            return Err(EntriesError::Device(fault));
        }
        let Ok(()) = do_row(alloc, bytes, entries) else {
            return Err(EntriesError::NoMemory);
        };
    }
    Ok(())
}

// Does all rows of a log, the oldest first.
pub fn do_log<D: Disk>(
    alloc: Global,
    disk: &D,
    store: &LogStore,
    entries: &mut BTreeMap<Key, Value>,
) -> Result<(), EntriesError<D::Fault>>
    requires { device_size store.now.log.shape ≤ size (D.content disk.now) }
    ensures ok { IsTrue (D.content disk.now).honest → OnOk result (DoesRows (all_rows (D.content disk.now) store.now.log) entries.old entries.new) }
    ensures cause { IfErr result (EntriesErrorCause (GaveAny D.gave disk.now)) }
{
    let Ok(mut bytes) = vec![in alloc; 0u8; store.geometry().row_len()] else {
        return Err(EntriesError::NoMemory);
    };
    do_rows(alloc, disk, store, &mut bytes, entries)
}

// Does the put in a slot of a hash store: its key has its value.
fn put_slot<D: Disk>(
    alloc: Global,
    disk: &D,
    store: &HashStore,
    slot: u32,
    key: Key,
    entries: &mut BTreeMap<Key, Value>,
) -> Result<(), EntriesError<D::Fault>>
    requires slot { slot < 4 * store.now.shape.buckets }
    requires size { device_size store.now.shape ≤ size (D.content disk.now) }
    ensures ok { IsTrue (D.content disk.now).honest → IsPutOf (slot_row store.now.shape store.now.region (D.content disk.now).shown slot) key.0
        → OnOk result (DoesRows (slot_row store.now.shape store.now.region (D.content disk.now).shown slot ∷ []) entries.old entries.new) }
    ensures cause { IfErr result (EntriesErrorCause (GaveAny D.gave disk.now)) }
{
    let Ok(mut value) = vec![in alloc; 0u8; store.geometry().value_len() as usize] else {
        return Err(EntriesError::NoMemory);
    };
    if let Err(fault) = store.read_value(disk, slot, &mut value) {
        return Err(EntriesError::Device(fault));
    }
    let Ok(_older) = entries.insert(key, Value::new(value)) else {
        return Err(EntriesError::NoMemory);
    };
    Ok(())
}

// Does the row in a slot of a hash store, if it has one of a known kind.
fn do_slot<D: Disk>(
    alloc: Global,
    disk: &D,
    store: &HashStore,
    slot: u32,
    entries: &mut BTreeMap<Key, Value>,
) -> Result<(), EntriesError<D::Fault>>
    requires slot { slot < 4 * store.now.shape.buckets }
    requires size { device_size store.now.shape ≤ size (D.content disk.now) }
    ensures ok { IsTrue (D.content disk.now).honest
        → OnOk result (DoesRows (filter has_known_kind (slot_row store.now.shape store.now.region (D.content disk.now).shown slot ∷ [])) entries.old entries.new) }
    ensures cause { IfErr result (EntriesErrorCause (GaveAny D.gave disk.now)) }
{
    let row = match store.row_at(disk, slot) {
        Ok(Some(row)) => row,
        Ok(None) => return Ok(()),
        Err(fault) => return Err(EntriesError::Device(fault)),
    };
    match row.kind {
        Kind::Put => put_slot(alloc, disk, store, slot, row.key, entries),
        Kind::Delete => {
            let _older = entries.remove(&row.key);
            Ok(())
        }
    }
}

// Does all rows of a hash store, slot by slot.
pub fn do_hash_store<D: Disk>(
    alloc: Global,
    disk: &D,
    store: &HashStore,
    entries: &mut BTreeMap<Key, Value>,
) -> Result<(), EntriesError<D::Fault>>
    requires { device_size store.now.shape ≤ size (D.content disk.now) }
    ensures ok { IsTrue (D.content disk.now).honest → OnOk result (DoesRows (filter has_known_kind (hash_rows store.now.shape store.now.region (D.content disk.now).shown)) entries.old entries.new) }
    ensures cause { IfErr result (EntriesErrorCause (GaveAny D.gave disk.now)) }
{
    for slot in 0..4 * store.geometry().buckets() {
        do_slot(alloc, disk, store, slot, entries)?;
    }
    Ok(())
}

// Does the entries of a sorted store as puts, from the first on. Each is read once, into these bytes.
fn do_entries<D: Disk>(
    alloc: Global,
    disk: &D,
    store: &SortedEntries,
    bytes: &mut [u8],
    entries: &mut BTreeMap<Key, Value>,
) -> Result<(), EntriesError<D::Fault>>
    requires size { device_size store.now.shape ≤ size (D.content disk.now) }
    requires bytes { length bytes.old ≡ entry_len store.now.shape }
    ensures ok { IsTrue (D.content disk.now).honest → OnOk result (DoesRows (entries_of (D.content disk.now) store.now) entries.old entries.new) }
    ensures cause { IfErr result (EntriesErrorCause (GaveAny D.gave disk.now)) }
{
    for place in 0..store.len() {
        let key = match store.entry(disk, place, bytes) {
            Ok(key) => key,
            Err(fault) => return Err(EntriesError::Device(fault)),
        };
        let Ok(()) = put_value(alloc, key, &bytes[KEY_LEN..], entries) else {
            return Err(EntriesError::NoMemory);
        };
    }
    Ok(())
}

// Does the entries of a sorted store as puts, from the first on.
pub fn do_sorted_store<D: Disk>(
    alloc: Global,
    disk: &D,
    store: &SortedEntries,
    entries: &mut BTreeMap<Key, Value>,
) -> Result<(), EntriesError<D::Fault>>
    requires { device_size store.now.shape ≤ size (D.content disk.now) }
    ensures ok { IsTrue (D.content disk.now).honest → OnOk result (DoesRows (entries_of (D.content disk.now) store.now) entries.old entries.new) }
    ensures cause { IfErr result (EntriesErrorCause (GaveAny D.gave disk.now)) }
{
    let Ok(mut bytes) = vec![in alloc; 0u8; store.geometry().entry_len()] else {
        return Err(EntriesError::NoMemory);
    };
    do_entries(alloc, disk, store, &mut bytes, entries)
}

impl Engine {
    ghost use Rattle.silt_engine.specs.Lookup.{AreEntriesOf};
    ghost use Rattle.silt_standing.specs.Standing.{ShowsStores, current_map};

    // Does all rows of the hash stores, the oldest store first.
    fn do_hash_stores<D: Disk>(
        &self,
        alloc: Global,
        disk: &D,
        entries: &mut BTreeMap<Key, Value>,
    ) -> Result<(), EntriesError<D::Fault>>
        requires size { device_size self.now.manifest.shape ≤ size (D.content disk.now) }
        ensures ok { IsTrue (D.content disk.now).honest → OnOk result (DoesRows (hashed_rows (D.content disk.now) self.now) entries.old entries.new) }
        ensures cause { IfErr result (EntriesErrorCause (GaveAny D.gave disk.now)) }
    {
        for index in (0..self.hashes.len()).rev() {
            do_hash_store(alloc, disk, &self.hashes[index], entries)?;
        }
        Ok(())
    }

    /// All keys with their values: the entries of the sorted store and then the rows are done one after the other from the oldest,
    /// each read once.
    ///
    /// # Errors
    ///
    /// `Device` with the fault of a read, and `NoMemory`.
    pub fn entries<D: Disk>(
        &self,
        alloc: Global,
        disk: &D,
    ) -> Result<BTreeMap<Key, Value>, EntriesError<D::Fault>>
        requires size { device_size self.now.manifest.shape ≤ size (D.content disk.now) }
        ensures entries { ShowsStores (D.content disk.now) self.now → IsTrue (D.content disk.now).honest → IfOk result (AreEntriesOf (current_map (D.content disk.now) self.now)) }
        ensures cause { IfErr result (EntriesErrorCause (GaveAny D.gave disk.now)) }
    {
        let mut entries = BTreeMap::new(alloc);
        do_sorted_store(alloc, disk, self.sorted.entries(), &mut entries)?;
        self.do_hash_stores(alloc, disk, &mut entries)?;
        for index in (0..self.frozen.len()).rev() {
            do_log(alloc, disk, &self.frozen[index], &mut entries)?;
        }
        do_log(alloc, disk, &self.active, &mut entries)?;
        Ok(entries)
    }
}
