// Sorted regions: worked entries, and how many reads a call makes.
ghost use Rattle.std.specs.Prelude.{◌≡◌, ◌≤◌, ◌<◌};
ghost use Rattle.silt_disk.specs.Disk.{size};
ghost use Rattle.silt_disk.specs.Layout.{device_size};
ghost use Rattle.silt_device.specs.Memory.{memory_content};

use crate::regions::{LEN, Refusal, blank, four_rows, put, refused, same, same_in};
use silt_device::{Disk, Geometry, MemDisk};
use silt_frame::{Key, write_entry};
use silt_sorted_store::{SortedEntries, SortedStore};
use std::alloc::Global;
use std::process::Abort;

mod faults;
mod many;
mod values;

// The key that begins with these two bytes, followed by zeros.
fn key(first: u8, second: u8) -> Key {
    let mut bytes = [0; 20];
    bytes[0] = first;
    bytes[1] = second;
    Key(bytes)
}

// Writes an entry of 22 bytes into sorted region 1.
fn put_entry(rt: &impl Abort, disk: &mut MemDisk, place: u8, key: &Key, value: [u8; 2])
    requires place { place < 8 }
    requires size { 45056 ≤ size (memory_content disk.old) }
    ensures { size (memory_content disk.new) ≡ size (memory_content disk.old) }
{
    let mut entry = [0; 22];
    write_entry(key, &value, &mut entry);
    put(rt, disk, 40_960 + u64::from(place) * 22, &entry);
}

// Writes this many entries into sorted region 1: their keys begin with 10, 20 and so on, and each value ends with the
// place.
fn fill(rt: &impl Abort, disk: &mut MemDisk, count: u8)
    requires count { count ≤ 8 }
    requires size { 45056 ≤ size (memory_content disk.old) }
    ensures { size (memory_content disk.new) ≡ size (memory_content disk.old) }
{
    for place in 0..count {
        put_entry(rt, disk, place, &key(10 + 10 * place, 0), [7, place]);
    }
}

// The result of a rebuild: the number of entries, or why it is refused.
type Outcome = Result<u32, Refusal>;

// The result of a rebuild of this many entries of a region with this geometry.
fn rebuild_in<D: Disk>(
    alloc: Global,
    disk: &D,
    geometry: Geometry,
    region: u32,
    count: u32,
) -> Outcome
    requires region { region < 2 }
    requires count { count ≤ geometry.sorted_capacity }
    requires size { device_size geometry ≤ size (D.content disk.now) }
{
    match SortedStore::rebuild(alloc, disk, geometry, region, count) {
        Ok(store) => Ok(store.len()),
        Err(error) => Err(refused(&error)),
    }
}

// The result of a rebuild with four rows a log and eight sorted entries.
fn rebuild<D: Disk>(rt: &impl Abort, alloc: Global, disk: &D, region: u32, count: u32) -> Outcome
    requires region { region < 2 }
    requires count { count ≤ 8 }
    requires size { 45056 ≤ size (D.content disk.now) }
{
    rebuild_in(alloc, disk, four_rows(rt), region, count)
}

// Rebuilds the index of the first entries of region 1, and returns the place of a key by it. None
// if a read fails or memory runs out.
fn find_in<D: Disk>(
    alloc: Global,
    disk: &D,
    geometry: Geometry,
    count: u32,
    key: &Key,
) -> Option<Option<u32>>
    requires count { count ≤ geometry.sorted_capacity }
    requires size { device_size geometry ≤ size (D.content disk.now) }
{
    match SortedStore::rebuild(alloc, disk, geometry, 1, count) {
        Ok(store) => store.find(disk, key).ok(),
        Err(_) => None,
    }
}

// The place of a key with four rows a log and eight sorted entries.
fn find<D: Disk>(
    rt: &impl Abort,
    alloc: Global,
    disk: &D,
    count: u32,
    key: &Key,
) -> Option<Option<u32>>
    requires count { count ≤ 8 }
    requires size { 45056 ≤ size (D.content disk.now) }
{
    find_in(alloc, disk, four_rows(rt), count, key)
}

// A disk with this many entries in sorted region 1.
fn filled(rt: &impl Abort, alloc: Global, count: u8) -> MemDisk
    requires { count ≤ 8 }
    ensures { size (memory_content result) ≡ 45056 }
{
    let mut disk = blank(rt, alloc, LEN);
    fill(rt, &mut disk, count);
    disk
}

// The look-up of the key that begins with these two bytes returns this among so many entries.
fn finds(
    rt: &impl Abort,
    alloc: Global,
    disk: &MemDisk,
    count: u32,
    first: (u8, u8),
    expected: Option<u32>,
)
    requires count { count ≤ 8 }
    requires size { 45056 ≤ size (memory_content disk.now) }
{
    let found = find(rt, alloc, disk, count, &key(first.0, first.1));
    same_in(rt, &found, &Some(expected), &(count, first));
}

// The store finds the key of each place, and neither of its neighbours before and after it.
fn finds_each(rt: &impl Abort, alloc: Global, disk: &MemDisk)
    requires { 45056 ≤ size (memory_content disk.now) }
{
    for place in 0..8u8 {
        finds(
            rt,
            alloc,
            disk,
            8,
            (10 + 10 * place, 0),
            Some(u32::from(place)),
        );
        finds(rt, alloc, disk, 8, (5 + 10 * place, 0), None);
        finds(rt, alloc, disk, 8, (10 + 10 * place, 1), None);
    }
}

#[test]
fn finds_each_key_and_no_other(rt: HostRuntime) {
    let alloc = rt.alloc();
    let disk = filled(&rt, alloc, 8);
    let outcome = rebuild(&rt, alloc, &disk, 1, 8);
    finds_each(&rt, alloc, &disk);
    finds(&rt, alloc, &disk, 8, (85, 0), None);
    finds(&rt, alloc, &disk, 7, (80, 0), None);
    drop(disk);
    same(&rt, &outcome, &Ok(8));
}

// An index of no entries, of one or of two finds their keys and no other.
fn finds_among_two(rt: &impl Abort, alloc: Global, disk: &MemDisk)
    requires { 45056 ≤ size (memory_content disk.now) }
{
    finds(rt, alloc, disk, 0, (10, 0), None);
    finds(rt, alloc, disk, 1, (10, 0), Some(0));
    finds(rt, alloc, disk, 1, (20, 0), None);
    finds(rt, alloc, disk, 2, (10, 0), Some(0));
    finds(rt, alloc, disk, 2, (20, 0), Some(1));
    finds(rt, alloc, disk, 2, (15, 0), None);
}

#[test]
fn finds_among_few(rt: HostRuntime) {
    let disk = filled(&rt, rt.alloc(), 2);
    finds_among_two(&rt, rt.alloc(), &disk);
    drop(disk);
}

// Three keys that differ after the first byte: the result of a rebuild, and the places of one of them and of an absent
// one.
fn rising(rt: &impl Abort, alloc: Global) -> (Outcome, [Option<Option<u32>>; 2]) {
    let mut disk = blank(rt, alloc, LEN);
    put_entry(rt, &mut disk, 0, &key(0, 255), [0, 0]);
    put_entry(rt, &mut disk, 1, &key(1, 0), [0, 1]);
    put_entry(rt, &mut disk, 2, &key(1, 1), [0, 2]);
    let outcome = rebuild(rt, alloc, &disk, 1, 3);
    let second = find(rt, alloc, &disk, 3, &key(1, 0));
    (outcome, [second, find(rt, alloc, &disk, 3, &key(0, 254))])
}

// If the first bytes of two keys are alike, the next ones decide.
#[test]
fn keys_rise_by_their_bytes(rt: HostRuntime) {
    same(
        &rt,
        &rising(&rt, rt.alloc()),
        &(Ok(3), [Some(Some(1)), Some(None)]),
    );
}

// The results of three rebuilds: of six entries with the fifth below the fourth, of the first four,
// and of six with equal second and third keys.
fn falling(rt: &impl Abort, alloc: Global) -> [Outcome; 3] {
    let mut disk = filled(rt, alloc, 6);
    put_entry(rt, &mut disk, 4, &key(15, 0), [0, 0]);
    let fifth = rebuild(rt, alloc, &disk, 1, 6);
    let four = rebuild(rt, alloc, &disk, 1, 4);
    put_entry(rt, &mut disk, 2, &key(20, 0), [0, 0]);
    [fifth, four, rebuild(rt, alloc, &disk, 1, 6)]
}

// The first entry whose key is not above the key before it is damaged. An equal key is damage as a
// lower one is.
#[test]
fn the_first_entry_that_does_not_rise_decides(rt: HostRuntime) {
    let due = [Err(Refusal::Damaged(4)), Ok(4), Err(Refusal::Damaged(2))];
    same(&rt, &falling(&rt, rt.alloc()), &due);
}

// A rebuild of this many entries of region 0 returns this if only region 1 has entries, and the
// entries are none if the number is 0.
fn rebuilds_other(rt: &impl Abort, alloc: Global, count: u32, expected: Outcome)
    requires { count ≤ 8 }
{
    let disk = filled(rt, alloc, 8);
    let outcome = rebuild(rt, alloc, &disk, 0, count);
    drop(disk);
    let is_empty = SortedEntries::new(four_rows(rt), 0, count).is_empty();
    same_in(rt, &(outcome, is_empty), &(expected, count == 0), &count);
}

// A region of zeros has equal keys. Two of its entries are damage, one or none is not.
#[test]
fn a_blank_region_has_at_most_one_entry(rt: HostRuntime) {
    let alloc = rt.alloc();
    rebuilds_other(&rt, alloc, 2, Err(Refusal::Damaged(1)));
    rebuilds_other(&rt, alloc, 1, Ok(1));
    rebuilds_other(&rt, alloc, 0, Ok(0));
}
