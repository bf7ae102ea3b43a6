// A merge of some hundred keys. The finished store finds each of them by one read.
ghost use Rattle.std.specs.Prelude.{◌≡◌, ◌+◌, ◌≤◌, ◌<◌};
ghost use Rattle.silt_disk.specs.Disk.{size};
ghost use Rattle.silt_disk.specs.Layout.{device_size};
ghost use Rattle.silt_device.specs.Memory.{memory_content};

use crate::regions::merge::merge_stores;
use crate::regions::{blank_of, done, put, row, same, same_in, with_fault};
use silt_device::{Call, Disk, Geometry, MemDisk};
use silt_frame::Key;
use silt_sorted_store::SortedStore;
use std::alloc::Global;
use std::process::Abort;

/// How many keys the stores have rows of.
const KEYS: u16 = 300;

// Values of two bytes, 128 buckets and 400 entries. The hash regions begin at 28,672 and 40,960, the sorted regions at 53,248 and 65,536.
fn wide(rt: &impl Abort) -> Geometry
    ensures { result ≡ record { value_len = 2; buckets = 128; log_capacity = 4; logs = 2; hashes = 2; sorted_capacity = 400 } }
{
    done(rt, Geometry::new(2, 128, 4, 2, 2, 400))
}

// The key of this number. The keys rise, and slot `number` is in one of the key's buckets. The last
// byte makes keys that no store has.
fn numbered(number: u16, last: u8) -> Key
    requires { number < 300 }
{
    let mut bytes = [0; 20];
    bytes[..2].copy_from_slice(&(200 * number).to_be_bytes());
    bytes[2..4].copy_from_slice(&(number / 4).to_be_bytes());
    bytes[19] = last;
    Key(bytes)
}

// The kind of a key's row in the newest store: 1 is a put, 2 a delete, 0 no row.
fn newest_kind(number: u16) -> u8 {
    if number % 3 == 0 {
        return 1;
    }
    if number % 7 == 1 { 2 } else { 0 }
}

// The kind of a key's row in the older store.
fn older_kind(number: u16) -> u8 {
    if number % 2 == 0 { 1 } else { 0 }
}

// The value of a key after the merge: 1 from the newest store, 2 from the older one, 3 from the old
// entries. Each fifth key has an old entry.
fn merged_value(number: u16) -> Option<u8> {
    match (newest_kind(number), older_kind(number)) {
        (1, _) => Some(1),
        (2, _) => None,
        (_, 1) => Some(2),
        _ => { if number % 5 == 0 { Some(3) } else { None } }
    }
}

// Writes the rows of a key into its slot of both hash regions.
fn fill_rows(rt: &impl Abort, disk: &mut MemDisk, number: u16)
    requires number { number < 300 }
    requires size { 77824 ≤ size (memory_content disk.old) }
    ensures { size (memory_content disk.new) ≡ size (memory_content disk.old) }
{
    let key = numbered(number, 0);
    let at = 28_672 + u64::from(number) * 23;
    put(rt, disk, at, &row(newest_kind(number), &key, 1));
    put(rt, disk, at + 12_288, &row(older_kind(number), &key, 2));
}

// Writes the entry at a place of sorted region 0. Each fifth key has one.
fn fill_fifth(rt: &impl Abort, disk: &mut MemDisk, place: u16)
    requires place { place < 60 }
    requires size { 77824 ≤ size (memory_content disk.old) }
    ensures { size (memory_content disk.new) ≡ size (memory_content disk.old) }
{
    let at = 53_248 + u64::from(place) * 22;
    put(rt, disk, at, &numbered(5 * place, 0).0);
    put(rt, disk, at + 20, &[0, 3]);
}

// Writes all rows and entries.
fn fill_all(rt: &impl Abort, disk: &mut MemDisk)
    requires { 77824 ≤ size (memory_content disk.old) }
    ensures { size (memory_content disk.new) ≡ size (memory_content disk.old) }
{
    for number in 0..KEYS {
        fill_rows(rt, disk, number);
    }
    for place in 0..KEYS / 5 {
        fill_fifth(rt, disk, place);
    }
}

// The last byte of the value that a store on this disk finds for a key, or none if it finds no
// value.
fn found_value<D: Disk>(store: &SortedStore, disk: &D, key: &Key) -> Option<Option<u8>> {
    let geometry = store.geometry();
    if geometry.value_len() != 2 || geometry.size() > disk.len() {
        return None;
    }
    let Some(place) = store.find(disk, key).ok()? else {
        return Some(None);
    };
    let mut value = [0; 2];
    store.entries().read_value(disk, place, &mut value).ok()?;
    Some(Some(value[1]))
}

// The number of the first key for which the store finds another value than the merge should give,
// or finds a neighbour that no store has.
fn first_wrong<D: Disk>(store: &SortedStore, disk: &D) -> Option<u16> {
    for number in 0..KEYS {
        if found_value(store, disk, &numbered(number, 0)) != Some(merged_value(number)) {
            return Some(number);
        }
        if found_value(store, disk, &numbered(number, 1)) != Some(None) {
            return Some(number);
        }
    }
    None
}

// The number of the first key that the store has and does not find.
fn first_missed<D: Disk>(store: &SortedStore, disk: &D) -> Option<u16> {
    if store.geometry().size() > disk.len() {
        return Some(KEYS);
    }
    for number in 0..KEYS {
        if merged_value(number).is_none() {
            continue;
        }
        match store.find(disk, &numbered(number, 0)) {
            Ok(Some(_)) => {}
            _ => return Some(number),
        }
    }
    None
}

// How many keys have a value after the merge.
fn count_merged() -> u64 {
    let mut count = 0u64;
    for number in 0..KEYS {
        if merged_value(number).is_some() {
            count = count.saturating_add(1);
        }
    }
    count
}

// A disk with all rows and entries, merged, and the merged store. The merge takes at most 1,500
// steps: one for each of the 1,024 slots and one for each key.
fn merged(rt: &impl Abort, alloc: Global) -> (MemDisk, SortedStore) {
    let geometry = wide(rt);
    let mut disk = blank_of(rt, alloc, geometry);
    fill_all(rt, &mut disk);
    let (_outcome, store) = merge_stores(rt, alloc, &mut disk, geometry, 60, 1500);
    (disk, store)
}

// How many keys the store has after a merge, and the first one that it finds wrong.
fn look_up_all(rt: &impl Abort, alloc: Global) -> (u64, Option<u16>) {
    let (disk, store) = merged(rt, alloc);
    (u64::from(store.len()), first_wrong(&store, &disk))
}

#[test]
fn finds_each_key_of_a_merge(rt: HostRuntime) {
    same(&rt, &look_up_all(&rt, rt.alloc()), &(count_merged(), None));
}

// This is the first key that is missed after a merge if the read of this number fails.
fn misses(rt: &impl Abort, alloc: Global, number: u64, expected: Option<u16>) {
    let (disk, store) = merged(rt, alloc);
    let disk = with_fault(disk, Call::Read, number);
    let missed = first_missed(&store, &disk);
    same_in(rt, &missed, &expected, &number);
}

// As many reads as there are keys find them all. The last read finds the last key, 298.
#[test]
fn each_look_up_after_a_merge_makes_one_read(rt: HostRuntime) {
    let count = count_merged();
    misses(&rt, rt.alloc(), count, Some(298));
    misses(&rt, rt.alloc(), count.saturating_add(1), None);
}
