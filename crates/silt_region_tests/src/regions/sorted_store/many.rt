// Look-ups among many entries, beside a plain search in memory.
ghost use Rattle.std.specs.Prelude.{◌≡◌, ◌<◌, ◌≤◌, IfOk, length};
ghost use Rattle.silt_disk.specs.Disk.{size};
ghost use Rattle.silt_disk.specs.Layout.{device_size};
ghost use Rattle.silt_device.specs.Memory.{memory_content};

use crate::regions::{blank, done, put, same, same_in, with_fault};
use silt_device::{Call, Disk, Geometry, MemDisk};
use silt_frame::Key;
use silt_sorted_store::SortedStore;
use std::alloc::{AllocError, Global};
use std::process::Abort;

// Values of two bytes and 2,000 sorted entries: sorted region 1 begins at 77,824.
fn wide(rt: &impl Abort) -> Geometry
    ensures { result ≡ record { value_len = 2; buckets = 2; log_capacity = 4; logs = 2; hashes = 1; sorted_capacity = 2000 } }
{
    done(rt, Geometry::new(2, 2, 4, 2, 1, 2000))
}

// Writes the keys of entries of 22 bytes into sorted region 1.
fn write_keys(rt: &impl Abort, disk: &mut MemDisk, keys: &[Key])
    requires count { length keys.now ≤ 2000 }
    requires size { 122880 ≤ size (memory_content disk.old) }
    ensures { size (memory_content disk.new) ≡ size (memory_content disk.old) }
{
    for place in 0..keys.len() {
        put(rt, disk, 77_824 + place as u64 * 22, &keys[place].0);
    }
}

// 256 keys, one for each first byte.
fn one_a_group(alloc: Global) -> Result<Vec<Key>, AllocError>
    ensures { IfOk result (λ keys. length keys.items ≡ 256) }
{
    let mut keys = vec![in alloc; Key([0; 20]); 256]?;
    for (first, key) in keys.iter_mut().enumerate() {
        *key = Key([first as u8; 20]);
    }
    Ok(keys)
}

// 2,000 keys that rise by pseudo-random gaps. They fill the lower half of all first bytes.
fn spread(alloc: Global) -> Result<Vec<Key>, AllocError>
    ensures { IfOk result (λ keys. length keys.items ≡ 2000) }
{
    let mut keys = vec![in alloc; Key([0; 20]); 2000]?;
    let mut state = 1u32;
    let mut head = 0u32;
    for key in keys.iter_mut() {
        state = state.wrapping_mul(1_664_525).wrapping_add(1_013_904_223);
        head = head.wrapping_add(1 + state % 2_140_000);
        let mut bytes = [(state % 256) as u8; 20];
        bytes[..4].copy_from_slice(&head.to_be_bytes());
        *key = Key(bytes);
    }
    Ok(keys)
}

// The first of all keys whose look-up does not return its place.
fn first_missed<D: Disk>(
    rt: &impl Abort,
    alloc: Global,
    disk: &D,
    geometry: Geometry,
    keys: &[Key],
) -> Option<usize>
    requires count { length keys.now ≤ geometry.sorted_capacity }
    requires size { device_size geometry ≤ size (D.content disk.now) }
{
    let store = done(
        rt,
        SortedStore::rebuild(alloc, disk, geometry, 1, keys.len() as u32),
    );
    for (place, key) in keys.iter().enumerate() {
        if store.find(disk, key).ok() != Some(Some(place as u32)) {
            return Some(place);
        }
    }
    None
}

// A disk with these keys.
fn written(rt: &impl Abort, alloc: Global, keys: &[Key]) -> MemDisk
    requires { length keys.now ≤ 2000 }
    ensures { size (memory_content result) ≡ 122880 }
{
    let mut disk = blank(rt, alloc, 122_880);
    write_keys(rt, &mut disk, keys);
    disk
}

// If the read of this number fails, this is the first of these keys whose look-up does not return its
// place.
fn misses(rt: &impl Abort, alloc: Global, keys: &[Key], number: u64, expected: Option<usize>)
    requires { length keys.now ≤ 2000 }
{
    let disk = with_fault(written(rt, alloc, keys), Call::Read, number);
    let missed = first_missed(rt, alloc, &disk, wide(rt), keys);
    drop(disk);
    same_in(rt, &missed, &expected, &number);
}

// With one key in each group the rebuild makes one read, and then each look-up makes one.
#[test]
fn each_look_up_makes_one_read(rt: HostRuntime) {
    let alloc = rt.alloc();
    let keys = done(&rt, one_a_group(alloc));
    misses(&rt, alloc, &keys, 2, Some(0));
    misses(&rt, alloc, &keys, 3, Some(1));
    misses(&rt, alloc, &keys, 130, Some(128));
    misses(&rt, alloc, &keys, 257, Some(255));
    misses(&rt, alloc, &keys, 258, None);
}

// Whether a look-up returns what a plain search among the keys does.
fn agrees<D: Disk>(disk: &D, store: &SortedStore, keys: &[Key], key: &Key) -> bool
    requires size { device_size store.now.sorted.shape ≤ size (D.content disk.now) }
{
    match store.find(disk, key) {
        Ok(found) => found.map(|place| place as usize) == keys.binary_search(key).ok(),
        Err(_) => false,
    }
}

// The key with the lowest bit of this byte turned over.
fn turned(key: &Key, at: usize) -> Key
    requires { at < 20 }
{
    let mut bytes = key.0;
    bytes[at] ^= 1;
    Key(bytes)
}

// For how many of these keys and their neighbours, five of each, a look-up returns what a plain
// search does.
fn count_agreeing(
    rt: &impl Abort,
    alloc: Global,
    disk: &MemDisk,
    geometry: Geometry,
    keys: &[Key],
) -> u64
    requires count { length keys.now ≤ geometry.sorted_capacity }
    requires size { device_size geometry ≤ size (memory_content disk.now) }
{
    let store = done(
        rt,
        SortedStore::rebuild(alloc, disk, geometry, 1, keys.len() as u32),
    );
    let mut count = 0u64;
    for key in keys.iter() {
        count = count.saturating_add(u64::from(agrees(disk, &store, keys, key)));
        for at in [0, 3, 4, 10, 19] {
            let near = turned(key, at);
            count = count.saturating_add(u64::from(agrees(disk, &store, keys, &near)));
        }
    }
    count
}

// Whether the 2,000 keys rise, and for how many of them and their neighbours a look-up returns what a
// plain search does.
fn search_spread(rt: &impl Abort, alloc: Global) -> (bool, u64) {
    let keys = done(rt, spread(alloc));
    let disk = written(rt, alloc, &keys);
    let agreeing = count_agreeing(rt, alloc, &disk, wide(rt), &keys);
    drop(disk);
    (keys.is_sorted(), agreeing)
}

// Tries 2,000 keys, and 10,000 others that differ from one of them in one bit.
#[test]
fn finds_what_a_plain_search_finds(rt: HostRuntime) {
    same(&rt, &search_spread(&rt, rt.alloc()), &(true, 12_000));
}
