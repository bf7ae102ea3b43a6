// Merges: a worked one, calls that allocate and succeed with enough memory, and how many reads and
// writes the steps make.
ghost use Rattle.std.specs.Prelude.{◌≡◌, ◌+◌, ◌*◌, ◌≤◌, ◌<◌, length};
ghost use Rattle.std.specs.List.{All};
ghost use Rattle.silt_disk.specs.Disk.{size};
ghost use Rattle.silt_disk.specs.Layout.{device_size};
ghost use Rattle.silt_device.specs.Memory.{memory_content};
ghost use Rattle.silt_hash_store.specs.State.{HashState};
ghost use Rattle.silt_merge.specs.Merging.{IsSameMerge};
ghost use Rattle.silt_merge.specs.State.{oldest_stores};

use crate::regions::{LEN, blank, done, put, row, same, same_in, shows, single, with_fault};
use sha1::Sha1;
use silt_device::{Call, Disk, Geometry, MemDisk};
use silt_frame::{Digest, Key};
use silt_hash_store::HashStore;
use silt_merge::{Merge, StepError};
use silt_sorted_store::{SortedEntries, SortedStore};
use std::alloc::Global;
use std::process::Abort;

mod many;
mod pieces;

// Values of two bytes, two buckets, eight rows a log, and at most this many entries. The hash
// regions begin at 28,672 and 32,768, the sorted regions at 36,864 and 40,960.
fn small(rt: &impl Abort, sorted_capacity: u32) -> Geometry
    requires { sorted_capacity ≤ 8 }
    ensures { result ≡ record { value_len = 2; buckets = 2; log_capacity = 8; logs = 2; hashes = 2; sorted_capacity = sorted_capacity } }
{
    done(rt, Geometry::new(2, 2, 8, 2, 2, sorted_capacity))
}

// Writes a row into a slot of the hash region that begins here. Its key begins with this byte, and
// both bytes of its value are this one.
fn fill_slot(rt: &impl Abort, disk: &mut MemDisk, at: u64, kind: u8, first: u8, value: u8)
    requires at { at + 23 ≤ 45056 }
    requires size { 45056 ≤ size (memory_content disk.old) }
    ensures { size (memory_content disk.new) ≡ size (memory_content disk.old) }
{
    put(rt, disk, at, &row(kind, &single(first), value));
}

// The bytes of an entry.
fn entry_of(first: u8, value: u8) -> [u8; 22] {
    let mut entry = [0; 22];
    entry[0] = first;
    entry[20] = value;
    entry[21] = value;
    entry
}

// Writes an entry into sorted region 0.
fn fill_entry(rt: &impl Abort, disk: &mut MemDisk, place: u8, first: u8, value: u8)
    requires place { place < 8 }
    requires size { 45056 ≤ size (memory_content disk.old) }
    ensures { size (memory_content disk.new) ≡ size (memory_content disk.old) }
{
    put(
        rt,
        disk,
        36_864 + u64::from(place) * 22,
        &entry_of(first, value),
    );
}

// The newest store has a put of key 10, a delete of key 20 and a put of key 30.
fn fill_newest(rt: &impl Abort, disk: &mut MemDisk)
    requires { 45056 ≤ size (memory_content disk.old) }
    ensures { size (memory_content disk.new) ≡ size (memory_content disk.old) }
{
    fill_slot(rt, disk, 28_672, 1, 30, 1);
    fill_slot(rt, disk, 28_695, 2, 20, 2);
    fill_slot(rt, disk, 28_741, 1, 10, 3);
}

// The older store has puts of the keys 20, 10 and 40 and a delete of key 50.
fn fill_older(rt: &impl Abort, disk: &mut MemDisk)
    requires { 45056 ≤ size (memory_content disk.old) }
    ensures { size (memory_content disk.new) ≡ size (memory_content disk.old) }
{
    fill_slot(rt, disk, 32_768, 1, 20, 4);
    fill_slot(rt, disk, 32_791, 1, 10, 5);
    fill_slot(rt, disk, 32_814, 1, 40, 6);
    fill_slot(rt, disk, 32_837, 2, 50, 7);
}

// The sorted store has the keys 15, 30, 50 and 60.
fn fill_sorted(rt: &impl Abort, disk: &mut MemDisk)
    requires { 45056 ≤ size (memory_content disk.old) }
    ensures { size (memory_content disk.new) ≡ size (memory_content disk.old) }
{
    fill_entry(rt, disk, 0, 15, 8);
    fill_entry(rt, disk, 1, 30, 9);
    fill_entry(rt, disk, 2, 50, 10);
    fill_entry(rt, disk, 3, 60, 11);
}

// A disk with all of these rows and entries.
fn filled(rt: &impl Abort, alloc: Global) -> MemDisk
    ensures { size (memory_content result) ≡ 45056 }
{
    let mut disk = blank(rt, alloc, LEN);
    fill_newest(rt, &mut disk);
    fill_older(rt, &mut disk);
    fill_sorted(rt, &mut disk);
    disk
}

// How many steps a merge took, and how many of their reads and writes failed.
type Outcome = (u32, u32, u32);

// Takes one step, if the merge is not done.
fn run_step<D: Disk>(
    merge: &mut Merge,
    stores: &[HashStore],
    sorted: &SortedEntries,
    digest: &Digest,
    disk: &mut D,
) -> Outcome
    requires count { merge.old.stores ≤ length stores.now }
    requires shapes { All (λ store. store.shape ≡ merge.old.shape) (oldest_stores merge.old.stores stores.now) }
    requires shape { sorted.now.shape ≡ merge.old.shape }
    requires size { device_size merge.old.shape ≤ size (D.content disk.old) }
    ensures same { IsSameMerge merge.old merge.new }
    ensures size { size (D.content disk.new) ≡ size (D.content disk.old) }
{
    if merge.is_done(sorted) {
        return (0, 0, 0);
    }
    match merge.step(stores, sorted, digest, disk) {
        Ok(()) => (1, 0, 0),
        Err(StepError::Read(_)) => (0, 1, 0),
        Err(StepError::Write(_)) => (0, 0, 1),
        Err(StepError::NoMemory | StepError::Damaged(_)) => (0, 0, 0),
    }
}

// Takes the steps of a merge, in this many tries.
fn run_steps<D: Disk>(
    merge: &mut Merge,
    stores: &[HashStore],
    sorted: &SortedEntries,
    digest: &Digest,
    disk: &mut D,
    tries: u32,
) -> Outcome
    requires count { merge.old.stores ≤ length stores.now }
    requires shapes { All (λ store. store.shape ≡ merge.old.shape) (oldest_stores merge.old.stores stores.now) }
    requires shape { sorted.now.shape ≡ merge.old.shape }
    requires size { device_size merge.old.shape ≤ size (D.content disk.old) }
    ensures same { IsSameMerge merge.old merge.new }
    ensures size { size (D.content disk.new) ≡ size (D.content disk.old) }
{
    let mut steps = 0u32;
    let mut reads = 0u32;
    let mut writes = 0u32;
    for _step in 0..tries {
        let one = run_step(merge, stores, sorted, digest, disk);
        steps = steps.saturating_add(one.0);
        reads = reads.saturating_add(one.1);
        writes = writes.saturating_add(one.2);
    }
    (steps, reads, writes)
}

// The hash stores of both regions, the newest one first.
fn both<D: Disk>(rt: &impl Abort, alloc: Global, disk: &D, geometry: Geometry) -> [HashStore; 2]
    requires hashes { geometry.hashes ≡ 2 }
    requires size { device_size geometry ≤ size (D.content disk.now) }
    ensures { All (λ (store : HashState). store.shape ≡ geometry) result }
{
    let newest = done(rt, HashStore::rebuild(alloc, disk, geometry, 0)).store;
    let older = done(rt, HashStore::rebuild(alloc, disk, geometry, 1)).store;
    [newest, older]
}

// The digest of the bytes of these entries. It reads them at once, if there are any.
fn digest_of<D: Disk>(rt: &impl Abort, alloc: Global, disk: &D, sorted: &SortedEntries) -> Digest
    requires { device_size sorted.now.shape ≤ size (D.content disk.now) }
{
    let mut hasher = Sha1::new();
    let len = sorted.len() as usize * sorted.geometry().entry_len();
    let mut bytes = done(rt, vec![in alloc; 0u8; len]);
    if !sorted.is_empty() {
        done(rt, sorted.read_entries(disk, 0, sorted.len(), &mut bytes));
    }
    hasher.update(&bytes);
    Digest(hasher.finalize())
}

// Merges hash region 0, the newest store, hash region 1, and this many entries of sorted region 0
// into sorted region 1, in this many tries, which are enough. Returns the outcome of the steps and the
// new store.
fn merge_stores<D: Disk>(
    rt: &impl Abort,
    alloc: Global,
    disk: &mut D,
    geometry: Geometry,
    entries: u32,
    tries: u32,
) -> (Outcome, SortedStore)
    requires hashes { geometry.hashes ≡ 2 }
    requires capacity { entries ≤ geometry.sorted_capacity }
    requires size { device_size geometry ≤ size (D.content disk.old) }
    ensures { size (D.content disk.new) ≡ size (D.content disk.old) }
{
    let stores = both(rt, alloc, disk, geometry);
    let sorted = SortedEntries::new(geometry, 0, entries);
    let mut merge = done(rt, Merge::start(alloc, &stores, &sorted, 1));
    let digest = digest_of(rt, alloc, disk, &sorted);
    let outcome = run_steps(&mut merge, &stores, &sorted, &digest, disk, tries);
    same(rt, &merge.is_done(&sorted), &true);
    (outcome, ended(rt, merge))
}

// The store that a merge becomes.
fn ended(rt: &impl Abort, mut merge: Merge) -> SortedStore {
    done(rt, merge.seal());
    let digest = merge.digest();
    merge.into_store(digest)
}

// Merges with four entries, in 30 tries: the outcome of the steps, and how many entries the new
// store has.
fn merge_all<D: Disk>(
    rt: &impl Abort,
    alloc: Global,
    disk: &mut D,
    geometry: Geometry,
) -> (Outcome, u32)
    requires hashes { geometry.hashes ≡ 2 }
    requires capacity { 4 ≤ geometry.sorted_capacity }
    requires size { device_size geometry ≤ size (D.content disk.old) }
    ensures { size (D.content disk.new) ≡ size (D.content disk.old) }
{
    let (outcome, store) = merge_stores(rt, alloc, disk, geometry, 4, 30);
    (outcome, store.len())
}

// Merges all of these rows and entries, with room for eight entries.
fn merge_small<D: Disk>(rt: &impl Abort, alloc: Global, disk: &mut D) -> (Outcome, u32)
    requires { 45056 ≤ size (D.content disk.old) }
    ensures { size (D.content disk.new) ≡ size (D.content disk.old) }
{
    merge_all(rt, alloc, disk, small(rt, 8))
}

// The first and the last byte of the key, and the last byte of the value of an entry of sorted
// region 1. None if the read fails.
fn entry<D: Disk>(rt: &impl Abort, disk: &D, place: u32) -> Option<(u8, u8, u8)>
    requires place { place < 8 }
    requires size { 45056 ≤ size (D.content disk.now) }
{
    let mut entry = [0; 22];
    match SortedEntries::new(small(rt, 8), 1, 8).entry(disk, place, &mut entry) {
        Ok(_) => Some((entry[0], entry[19], entry[21])),
        Err(_) => None,
    }
}

// The first six entries of sorted region 1.
fn six_entries(rt: &impl Abort, disk: &MemDisk) -> [Option<(u8, u8, u8)>; 6]
    requires { 45056 ≤ size (memory_content disk.now) }
{
    [
        entry(rt, disk, 0),
        entry(rt, disk, 1),
        entry(rt, disk, 2),
        entry(rt, disk, 3),
        entry(rt, disk, 4),
        entry(rt, disk, 5),
    ]
}

// The entries that a merge makes. A put replaces older rows and entries, and a key whose newest row
// is a delete is left out.
const MERGED: [Option<(u8, u8, u8)>; 6] = [
    Some((10, 0, 3)),
    Some((15, 0, 8)),
    Some((30, 0, 1)),
    Some((40, 0, 6)),
    Some((60, 0, 11)),
    Some((0, 0, 0)),
];

// The merge takes this many steps, none of which fails, and makes those entries.
fn makes_merged(rt: &impl Abort, alloc: Global, disk: &mut MemDisk, steps: u32)
    requires { 45056 ≤ size (memory_content disk.old) }
{
    same(rt, &merge_small(rt, alloc, disk), &((steps, 0, 0), 5));
    same(rt, &six_entries(rt, disk), &MERGED);
}

// The merge takes 23 steps: there are 16 slots and 7 keys.
#[test]
fn merges_two_hash_stores_and_a_sorted_store(rt: HostRuntime) {
    let mut disk = filled(&rt, rt.alloc());
    makes_merged(&rt, rt.alloc(), &mut disk, 23);
    drop(disk);
}

// A region of four has no place for the fifth entry. The merge still takes the step for its key.
#[test]
fn leaves_out_what_finds_no_place(rt: HostRuntime) {
    let mut disk = filled(&rt, rt.alloc());
    let merged = merge_all(&rt, rt.alloc(), &mut disk, small(&rt, 4));
    let is_shown = shows(&disk, 41_026, &[40, 0]) && shows(&disk, 41_048, &[0, 0]);
    drop(disk);
    same(&rt, &(merged, is_shown), &(((23, 0, 0), 4), true));
}

// The merge passes over an entry whose key is not above the last one that was decided. Here that is
// the third entry, with key 12 after key 30.
#[test]
fn passes_over_what_does_not_rise(rt: HostRuntime) {
    let mut disk = filled(&rt, rt.alloc());
    fill_entry(&rt, &mut disk, 2, 12, 10);
    makes_merged(&rt, rt.alloc(), &mut disk, 24);
    drop(disk);
}

// A key that waits in memory takes 20 bytes.
#[test]
fn a_key_takes_twenty_bytes(rt: HostRuntime) {
    same(&rt, &size_of::<Key>(), &20);
}

// Merges if a call of this kind and this number fails: this many reads and writes of the 23 steps
// fail, and the last entry is as without a fault.
fn goes_on(rt: &impl Abort, alloc: Global, call: Call, number: u64, (reads, writes): (u32, u32)) {
    let mut disk = with_fault(filled(rt, alloc), call, number);
    let (outcome, _count) = merge_small(rt, alloc, &mut disk);
    let last = entry(rt, &disk, 4);
    drop(disk);
    same_in(
        rt,
        &(outcome, last),
        &((23, reads, writes), Some((60, 0, 11))),
        &number,
    );
}

// A step after a failed one does the same work. The rebuilds make 11 reads, and the digest of the entries one. The steps read the 8
// slots of each store and the 4 entries by one read each, and the 3 values of the rows that they
// write. So read 18 is their last one. They write 5 entries. Read 19 is that of the last entry
// afterwards. The step that reads the entries also reads the first of the values. If that fails,
// read 17 is of the entries again.
#[test]
fn goes_on_after_a_failed_step(rt: HostRuntime) {
    let alloc = rt.alloc();
    goes_on(&rt, alloc, Call::Read, 13, (1, 0));
    goes_on(&rt, alloc, Call::Read, 14, (1, 0));
    goes_on(&rt, alloc, Call::Read, 15, (1, 0));
    goes_on(&rt, alloc, Call::Read, 16, (1, 0));
    goes_on(&rt, alloc, Call::Read, 18, (1, 0));
    goes_on(&rt, alloc, Call::Read, 20, (0, 0));
    goes_on(&rt, alloc, Call::Write, 1, (0, 1));
    goes_on(&rt, alloc, Call::Write, 5, (0, 1));
    goes_on(&rt, alloc, Call::Write, 6, (0, 0));
}
