// The values of entries: read by their places, and by their keys.
ghost use Rattle.std.specs.Prelude.{◌≡◌, ◌+◌, ◌≤◌, ◌<◌, length};
ghost use Rattle.silt_disk.specs.Disk.{size};
ghost use Rattle.silt_disk.specs.Layout.{device_size};
ghost use Rattle.silt_device.specs.Fault.{fault_content};
ghost use Rattle.silt_device.specs.Memory.{memory_content};

use crate::regions::sorted_store::{filled, key};
use crate::regions::{blank_of, done, four_rows, put, same, same_in, with_fault};
use silt_device::{Call, Disk, FaultDisk, Geometry, MemDisk};
use silt_frame::{Digest, Key};
use silt_sorted_store::{SortedEntries, SortedStore};
use silt_trie::{MarkedTrie, MarkedTrieBuilder};
use std::alloc::Global;
use std::process::Abort;

// The value and the whole bytes of the entry at a place of region 1.
fn read_both(rt: &impl Abort, disk: &MemDisk, place: u32) -> ([u8; 2], [u8; 22])
    requires place { place < 8 }
    requires size { 45056 ≤ size (memory_content disk.now) }
{
    let store = SortedEntries::new(four_rows(rt), 1, 8);
    let mut value = [0; 2];
    done(rt, store.read_value(disk, place, &mut value));
    let mut entry = [0; 22];
    let _key = done(rt, store.entry(disk, place, &mut entry));
    (value, entry)
}

// The bytes of the fourth entry.
const ENTRY: [u8; 22] =
    *b"\x28\x00\x00\x00\x00\x00\x00\x00\x00\x00\x00\x00\x00\x00\x00\x00\x00\x00\x00\x00\x07\x03";

#[test]
fn reads_values_and_entries(rt: HostRuntime) {
    let disk = filled(&rt, rt.alloc(), 8);
    let both = read_both(&rt, &disk, 3);
    drop(disk);
    same(&rt, &both, &([7, 3], ENTRY));
}

// A get of the key that begins with these two bytes, among eight entries, finds this or not. This is
// in its buffer afterwards.
fn gets(rt: &impl Abort, alloc: Global, disk: &MemDisk, first: (u8, u8), expected: (bool, [u8; 2]))
    requires { 45056 ≤ size (memory_content disk.now) }
{
    let store = done(rt, SortedStore::rebuild(alloc, disk, four_rows(rt), 1, 8));
    let mut value = [9; 2];
    let found = done(rt, store.get(disk, &key(first.0, first.1), &mut value));
    drop(store);
    same_in(rt, &(found, value), &expected, &first);
}

// A get of the key of each place returns its value, and a get of its neighbours finds none.
fn gets_each(rt: &impl Abort, alloc: Global, disk: &MemDisk)
    requires { 45056 ≤ size (memory_content disk.now) }
{
    for place in 0..8u8 {
        let first = 10 + 10 * place;
        gets(rt, alloc, disk, (first, 0), (true, [7, place]));
        gets(rt, alloc, disk, (first, 1), (false, [9, 9]));
        gets(rt, alloc, disk, (first + 1, 0), (false, [9, 9]));
    }
}

// A get of an absent key does not change the buffer, whether the index names a place or none.
#[test]
fn gets_the_value_of_each_key(rt: HostRuntime) {
    let disk = filled(&rt, rt.alloc(), 8);
    gets_each(&rt, rt.alloc(), &disk);
    drop(disk);
}

// What a store says of itself: its region, its length, whether it is empty, how many entries it looks
// in, and its digest.
type Said = (u32, u32, bool, u32, Digest);

// The index of one key.
fn index_of(rt: &impl Abort, alloc: Global, key: Key) -> MarkedTrie {
    let mut builder = MarkedTrieBuilder::new(alloc, 1);
    let is_taken = done(rt, builder.push(key));
    assert!(rt; is_taken);
    done(rt, builder.finish())
}

// That of a store with one key.
fn said(rt: &impl Abort, alloc: Global, geometry: Geometry) -> (Said, bool)
    requires { 1 ≤ geometry.sorted_capacity }
{
    let entries = SortedEntries::new(geometry, 1, 1);
    let store = SortedStore::new(entries, index_of(rt, alloc, key(10, 0)), Digest([7; 20]));
    let said = (
        store.region(),
        store.len(),
        store.is_empty(),
        store.entries().len(),
        *store.digest(),
    );
    (said, store.geometry() == geometry)
}

// A store of an index looks for its keys in the entries that it is given.
#[test]
fn says_what_it_is_made_of(rt: HostRuntime) {
    let due = ((1, 1, false, 1, Digest([7; 20])), true);
    same(&rt, &said(&rt, rt.alloc(), four_rows(&rt)), &due);
}

// One sorted entry, with a value of this length.
fn single(rt: &impl Abort, value_len: u32) -> Geometry
    ensures { result ≡ record { value_len = value_len; buckets = 2; log_capacity = 4; logs = 2; hashes = 1; sorted_capacity = 1 } }
{
    done(rt, Geometry::new(value_len, 2, 4, 2, 1, 1))
}

// A disk with that entry in region 1, whose read of this number fails.
fn failing(
    rt: &impl Abort,
    alloc: Global,
    geometry: Geometry,
    value: &[u8],
    number: u64,
) -> FaultDisk
    requires single { geometry.sorted_capacity ≡ 1 }
    requires value { length value.now ≡ geometry.value_len }
    ensures { size (fault_content result) ≡ device_size geometry }
{
    let mut disk = blank_of(rt, alloc, geometry);
    let at = geometry.sorted_at(1);
    put(rt, &mut disk, at, &key(3, 4).0);
    put(rt, &mut disk, at + 20, value);
    with_fault(disk, Call::Read, number)
}

// Whether a get among the only entry of region 1 finds the key, and fills in this value. None if a read fails.
fn gets_single<D: Disk>(
    alloc: Global,
    disk: &D,
    geometry: Geometry,
    value: &[u8],
    out: &mut [u8],
) -> Option<bool>
    requires count { 1 ≤ geometry.sorted_capacity }
    requires out { length out.old ≡ geometry.value_len }
    requires size { device_size geometry ≤ size (D.content disk.now) }
{
    let Ok(store) = SortedStore::rebuild(alloc, disk, geometry, 1, 1) else {
        return None;
    };
    let found = store.get(disk, &key(3, 4), out).ok()?;
    Some(found && *out == *value)
}

// As `gets_single`, on a disk of its own whose read of this number fails.
fn gets_long(rt: &impl Abort, alloc: Global, value_len: u32, number: u64) -> Option<bool> {
    let geometry = single(rt, value_len);
    let value = done(rt, vec![in alloc; 6u8; value_len as usize]);
    let mut out = done(rt, vec![in alloc; 0u8; value_len as usize]);
    let disk = failing(rt, alloc, geometry, &value, number);
    gets_single(alloc, &disk, geometry, &value, &mut out)
}

// A get of an entry with a value of this length returns this if the read of this number fails.
fn gets_at(rt: &impl Abort, alloc: Global, value_len: u32, number: u64, expected: Option<bool>) {
    let found = gets_long(rt, alloc, value_len, number);
    same_in(rt, &found, &expected, &(value_len, number));
}

// After the one read of the rebuild a get of an entry of 512 bytes makes one read, and one of 513
// bytes makes two.
#[test]
fn a_failed_read_of_a_get_is_reported(rt: HostRuntime) {
    let alloc = rt.alloc();
    gets_at(&rt, alloc, 492, 2, None);
    gets_at(&rt, alloc, 492, 3, Some(true));
    gets_at(&rt, alloc, 493, 2, None);
    gets_at(&rt, alloc, 493, 3, None);
    gets_at(&rt, alloc, 493, 4, Some(true));
    gets_at(&rt, alloc, 4096, 3, None);
    gets_at(&rt, alloc, 4096, 4, Some(true));
}
