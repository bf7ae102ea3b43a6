// A rebuild of a sorted store's index and digest. It reads the entries in large reads, and takes each key if it rises.
ghost use Rattle.std.specs.Prelude.{◌≡◌, ◌+◌, ◌*◌, ◌<◌, ◌≤◌, ◌^◌, [], None, Ok, List, length, IsTrue, IfSome, IfOk, IfErr, OnOk};
ghost use Rattle.silt_disk.specs.Disk.{GaveAny, size};
ghost use Rattle.silt_disk.specs.Layout.{device_size, entry_len};
ghost use Rattle.silt_frame.specs.Rows.{StoredRow, entries_bytes};
ghost use Rattle.silt_sorted_store.specs.Findings.{sorted_findings};
ghost use Rattle.silt_sorted_store.specs.State.{entries_of};
ghost use Rattle.silt_sorted_store.specs.Index.{IsIndexOf};
ghost use Rattle.silt_sorted_store.specs.Indexing.{HoldsKeys, IsEmptyBuilding, IsIndexing, TakesKeys};
ghost use Rattle.silt_sorted_store.specs.Rebuild.{IsFirstOutOfOrder};
ghost use Rattle.silt_log.specs.Scans.{IsScanRefused};
ghost use Rattle.silt_frame.specs.Frame.{key_len};
ghost use Rattle.sha1.specs.Sha1.{Holds};

use crate::sorted_entries::SortedEntries;
use sha1::Sha1;
use silt_disk::Disk;
use silt_frame::entry_of;
use silt_log::ScanError;
use silt_trie::{MarkedTrie, MarkedTrieBuilder};
use std::alloc::{AllocError, Global};

/// The greatest length of one read of a rebuild, in bytes.
const READ_LEN: usize = 65_536;

// Gives a builder the keys of some entries, from a place on, each entry `len` bytes long. Returns the place of the first key that
// is not greater than the one before it. The builder has taken those before it.
fn take_keys(
    builder: &mut MarkedTrieBuilder,
    bytes: &[u8],
    len: usize,
    count: u32,
    first: u32,
) -> Result<Option<u32>, AllocError>
    requires len { key_len ≤ len }
    requires bytes { length bytes.now ≡ count * len }
    requires counted { builder.old.building.count ≡ first }
    requires few { first + count ≤ 2 ^ 24 }
    ensures counted { result ≡ Ok None → builder.new.building.count ≡ first + count }
    ensures place { IfOk result (λ found. IfSome found (λ place. place < first + count)) }
    ensures taken { (rows : List StoredRow) → first + count ≤ length rows → HoldsKeys rows first count len bytes.now
        → IsIndexing rows first builder.old.building → IfOk result (TakesKeys rows (first + count) builder.new.building) }
{
    for i in 0..count {
        let at = i as usize * len;
        let (key, _value) = entry_of(&bytes[at..at + len]);
        if !builder.push(key)? {
            return Ok(Some(first + i));
        }
    }
    Ok(None)
}

// Gives a builder the keys of all entries, and a hasher their bytes. It reads into a buffer with room for `most` entries.
fn take_entries<D: Disk>(
    builder: &mut MarkedTrieBuilder,
    hasher: &mut Sha1,
    disk: &D,
    entries: &SortedEntries,
    buffer: &mut [u8],
    most: u32,
) -> Result<(), ScanError<D::Fault>>
    requires some { 0 < entries.now.count → 0 < most }
    requires buffer { most * entry_len entries.now.shape ≤ length buffer.old }
    requires empty { IsEmptyBuilding builder.old.building }
    requires fresh { Holds hasher.old [] }
    requires size { device_size entries.now.shape ≤ size (D.content disk.now) }
    ensures hashed { IsTrue (D.content disk.now).honest → OnOk result (Holds hasher.new (entries_bytes (entries_of (D.content disk.now) entries.now))) }
    ensures taken { IsTrue (D.content disk.now).honest → OnOk result (IsIndexing (entries_of (D.content disk.now) entries.now) entries.now.count builder.new.building) }
    ensures err { IfErr result (IsScanRefused
        (λ place. (place < entries.now.count) × (IsTrue (D.content disk.now).honest → IsFirstOutOfOrder (entries_of (D.content disk.now) entries.now) place))
        (GaveAny D.gave disk.now)) }
{
    let len = entries.geometry().entry_len();
    let count = entries.len();
    let mut place = 0;
    while place < count {
        let next = most.min(count - place);
        let chunk = &mut buffer[..next as usize * len];
        if let Err(fault) = entries.read_entries(disk, place, next, chunk) {
            return Err(ScanError::Device(fault));
        }
        hasher.update(chunk);
        match take_keys(builder, chunk, len, next, place) {
            Ok(None) => place += next,
            Ok(Some(damaged)) => return Err(ScanError::Damaged(damaged)),
            Err(_) => return Err(ScanError::NoMemory),
        }
    }
    Ok(())
}

// The index of entries, if they rise strictly. Gives a hasher their bytes.
pub fn index_entries<D: Disk>(
    alloc: Global,
    disk: &D,
    entries: &SortedEntries,
    hasher: &mut Sha1,
) -> Result<MarkedTrie, ScanError<D::Fault>>
    requires fresh { Holds hasher.old [] }
    requires size { device_size entries.now.shape ≤ size (D.content disk.now) }
    ensures hashed { IsTrue (D.content disk.now).honest → OnOk result (Holds hasher.new (entries_bytes (entries_of (D.content disk.now) entries.now))) }
    ensures index { IsTrue (D.content disk.now).honest → IfOk result (IsIndexOf (entries_of (D.content disk.now) entries.now)) }
    ensures rising { IsTrue (D.content disk.now).honest → OnOk result (sorted_findings (entries_of (D.content disk.now) entries.now) ≡ []) }
    ensures err { IfErr result (IsScanRefused
        (λ place. (place < entries.now.count) × (IsTrue (D.content disk.now).honest → IsFirstOutOfOrder (entries_of (D.content disk.now) entries.now) place))
        (GaveAny D.gave disk.now)) }
{
    let len = entries.geometry().entry_len();
    let most = entries.len().min((READ_LEN / len) as u32);
    let Ok(mut buffer) = vec![in alloc; 0u8; most as usize * len] else {
        return Err(ScanError::NoMemory);
    };
    let mut builder = MarkedTrieBuilder::new(alloc, entries.len() as usize);
    take_entries(&mut builder, hasher, disk, entries, &mut buffer, most)?;
    match builder.finish() {
        Ok(index) => Ok(index),
        Err(_) => Err(ScanError::NoMemory),
    }
}
