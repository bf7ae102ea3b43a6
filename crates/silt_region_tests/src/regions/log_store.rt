// Logs with the table of their keys: the worked sets of keys, calls that allocate and succeed with
// enough memory, and how many reads a look-up makes.
ghost use Rattle.std.specs.Prelude.{◌≡◌, ◌+◌, ◌≤◌, ◌<◌, IfSome};
ghost use Rattle.silt_disk.specs.Disk.{size};
ghost use Rattle.silt_disk.specs.Layout.{device_size};
ghost use Rattle.silt_device.specs.Memory.{memory_content};
ghost use Rattle.silt_log.specs.Rows.{IsValueOf};
ghost use Rattle.silt_log_store.specs.State.{IsLogStore};

use crate::regions::{
    LEN, Outcome, Refusal, blank, blank_of, done, eight_rows, found, largest, log_row, paired, put,
    row, same, same_in, shows, single, with_fault,
};
use silt_device::{Call, Disk, Geometry, MemDisk};
use silt_frame::{Key, Kind};
use silt_log_store::{Found, LogStore, RebuildError};
use std::alloc::Global;
use std::process::Abort;

// Writes a row of this kind and key with an open commit byte into log 0.
fn write_row(rt: &impl Abort, disk: &mut MemDisk, place: u8, kind: u8, key: &Key)
    requires place { place < 8 }
    requires size { 45056 ≤ size (memory_content disk.old) }
    ensures { size (memory_content disk.new) ≡ size (memory_content disk.old) }
{
    log_row(rt, disk, place, &row(kind, key, 0));
}

// Writes this many open puts. Their keys begin with 1, 2 and so on, or share their buckets.
fn crowd(rt: &impl Abort, disk: &mut MemDisk, count: u8, pairs: bool)
    requires count { count ≤ 8 }
    requires size { 45056 ≤ size (memory_content disk.old) }
    ensures { size (memory_content disk.new) ≡ size (memory_content disk.old) }
{
    for place in 0..count {
        let key = if pairs {
            paired(place + 1)
        } else {
            single(place + 1)
        };
        write_row(rt, disk, place, 1, &key);
    }
}

fn refused<F>(error: &RebuildError<F>) -> Refusal {
    match error {
        RebuildError::Damaged(place) => Refusal::Damaged(*place),
        RebuildError::Crowded => Refusal::Crowded,
        RebuildError::Device(_) => Refusal::Failed,
        RebuildError::NoMemory => Refusal::NoMemory,
    }
}

// The result of a rebuild of log 0 with this geometry.
fn rebuild_in<D: Disk>(alloc: Global, disk: &D, geometry: Geometry) -> Outcome
    requires region { 0 < geometry.logs }
    requires size { device_size geometry ≤ size (D.content disk.now) }
{
    match LogStore::rebuild(alloc, disk, geometry, 0) {
        Ok(store) => Ok((store.len(), store.puts())),
        Err(error) => Err(refused(&error)),
    }
}

// The result of a rebuild of log 0 of eight rows.
fn rebuild<D: Disk>(rt: &impl Abort, alloc: Global, disk: &D) -> Outcome
    requires { 45056 ≤ size (D.content disk.now) }
{
    rebuild_in(alloc, disk, eight_rows(rt))
}

// The store of eight rows in log 0 of the disk.
fn rebuilt<D: Disk>(rt: &impl Abort, alloc: Global, disk: &D) -> Option<LogStore>
    requires { 45056 ≤ size (D.content disk.now) }
    ensures { IfSome result (λ store. device_size store.log.shape ≤ size (D.content disk.now)) }
{
    match LogStore::rebuild(alloc, disk, eight_rows(rt), 0) {
        Ok(store) => Some(store),
        Err(_) => None,
    }
}

// What the log on this disk has of a key.
fn find<D: Disk>(rt: &impl Abort, alloc: Global, disk: &D, key: &Key) -> Option<Option<Found>>
    requires { 45056 ≤ size (D.content disk.now) }
{
    match rebuilt(rt, alloc, disk) {
        Some(store) => store.find(disk, key).ok(),
        None => None,
    }
}

// A disk with this many open puts.
fn crowded(rt: &impl Abort, alloc: Global, count: u8, pairs: bool) -> MemDisk
    requires { count ≤ 8 }
    ensures { size (memory_content result) ≡ 45056 }
{
    let mut disk = blank(rt, alloc, LEN);
    crowd(rt, &mut disk, count, pairs);
    disk
}

// The result of a rebuild of this many open puts.
fn rebuild_crowd(rt: &impl Abort, alloc: Global, count: u8, pairs: bool) -> Outcome
    requires { count ≤ 8 }
{
    let disk = crowded(rt, alloc, count, pairs);
    rebuild(rt, alloc, &disk)
}

// Whether a log of this many open puts can take a key.
fn crowd_can_take(rt: &impl Abort, alloc: Global, count: u8, pairs: bool, key: &Key) -> bool
    requires { count ≤ 8 }
{
    let disk = crowded(rt, alloc, count, pairs);
    let store = rebuilt(rt, alloc, &disk).expect(rt, "a store");
    done(rt, store.can_take(&disk, key))
}

#[test]
fn five_keys_of_one_bucket_are_crowded(rt: HostRuntime) {
    let alloc = rt.alloc();
    same(&rt, &rebuild_crowd(&rt, alloc, 4, false), &Ok((4, 4)));
    same(
        &rt,
        &rebuild_crowd(&rt, alloc, 5, false),
        &Err(Refusal::Crowded),
    );
    same(
        &rt,
        &crowd_can_take(&rt, alloc, 4, false, &single(5)),
        &false,
    );
    same(
        &rt,
        &crowd_can_take(&rt, alloc, 4, false, &single(2)),
        &true,
    );
}

// What the log of eight open puts has of the last key, and of another one.
fn find_last(rt: &impl Abort, alloc: Global) -> [Option<Option<Found>>; 2] {
    let disk = crowded(rt, alloc, 8, true);
    [
        find(rt, alloc, &disk, &paired(8)),
        find(rt, alloc, &disk, &paired(9)),
    ]
}

#[test]
fn eight_keys_of_two_buckets_fit(rt: HostRuntime) {
    let alloc = rt.alloc();
    same(&rt, &rebuild_crowd(&rt, alloc, 8, true), &Ok((8, 8)));
    same(
        &rt,
        &crowd_can_take(&rt, alloc, 8, true, &paired(9)),
        &false,
    );
    same(
        &rt,
        &find_last(&rt, alloc),
        &[found(Kind::Put, 7), Some(None)],
    );
}

// The results of two rebuilds: of five keys of one bucket with a row of an unknown kind after them,
// and of these with an unknown kind among them.
fn two_wrong_rows(rt: &impl Abort, alloc: Global) -> (Outcome, Outcome) {
    let mut disk = crowded(rt, alloc, 5, false);
    write_row(rt, &mut disk, 5, 3, &paired(1));
    let crowded = rebuild(rt, alloc, &disk);
    write_row(rt, &mut disk, 3, 0, &single(4));
    (crowded, rebuild(rt, alloc, &disk))
}

// A rebuild reports the first row at which something is wrong.
#[test]
fn the_first_wrong_row_decides(rt: HostRuntime) {
    let due = (Err(Refusal::Crowded), Err(Refusal::Damaged(3)));
    same(&rt, &two_wrong_rows(&rt, rt.alloc()), &due);
}

// Whether the second of two keys that share their buckets is found if the read of this number fails.
fn finds_at(rt: &impl Abort, alloc: Global, number: u64, expected: bool) {
    let disk = with_fault(crowded(rt, alloc, 2, true), Call::Read, number);
    let found = find(rt, alloc, &disk, &paired(2));
    drop(disk);
    same_in(rt, &found.is_some(), &expected, &number);
}

// A rebuild of two rows makes three reads. A look-up makes one for each candidate, up to the one
// that has the key.
#[test]
fn a_failed_read_is_reported(rt: HostRuntime) {
    let alloc = rt.alloc();
    finds_at(&rt, alloc, 1, false);
    finds_at(&rt, alloc, 3, false);
    finds_at(&rt, alloc, 4, false);
    finds_at(&rt, alloc, 5, false);
    finds_at(&rt, alloc, 6, true);
}

// A rebuild of two rows returns this if the read of this number fails.
fn rebuilds_at(rt: &impl Abort, alloc: Global, number: u64, expected: Outcome) {
    let disk = with_fault(crowded(rt, alloc, 2, true), Call::Read, number);
    let outcome = rebuild(rt, alloc, &disk);
    drop(disk);
    same_in(rt, &outcome, &expected, &number);
}

// A rebuild of two rows makes three reads, and returns the fault of each.
#[test]
fn a_failed_read_of_a_rebuild_is_reported(rt: HostRuntime) {
    let alloc = rt.alloc();
    rebuilds_at(&rt, alloc, 1, Err(Refusal::Failed));
    rebuilds_at(&rt, alloc, 2, Err(Refusal::Failed));
    rebuilds_at(&rt, alloc, 3, Err(Refusal::Failed));
    rebuilds_at(&rt, alloc, 4, Ok((2, 2)));
}

// The result of a rebuild on a blank disk with the largest geometry.
fn rebuild_largest(rt: &impl Abort, alloc: Global) -> Outcome {
    let geometry = largest(rt);
    let disk = blank_of(rt, alloc, geometry);
    rebuild_in(alloc, &disk, geometry)
}

// The capacity and the number of rows of a new store with that geometry.
fn new_largest(rt: &impl Abort, alloc: Global) -> (u32, u32) {
    let store = done(rt, LogStore::new(alloc, largest(rt), 1));
    (store.geometry().log_capacity(), store.len())
}

// With enough memory even a store with the most rows and buckets is made and rebuilt.
#[test]
fn the_largest_store_is_made(rt: HostRuntime) {
    same(&rt, &rebuild_largest(&rt, rt.alloc()), &Ok((0, 0)));
    same(&rt, &new_largest(&rt, rt.alloc()), &(131_072, 0));
}

// Takes a row.
fn take(
    rt: &impl Abort,
    store: &mut LogStore,
    disk: &mut MemDisk,
    kind: Kind,
    key: Key,
    value: [u8; 2],
)
    requires value { store.old.log.shape.value_len ≡ 2 }
    requires zeros { IsValueOf kind value }
    requires size { device_size store.old.log.shape ≤ size (memory_content disk.old) }
    requires store { IsLogStore (memory_content disk.old) store.old }
    ensures size { size (memory_content disk.new) ≡ size (memory_content disk.old) }
    ensures shape { store.new.log.shape ≡ store.old.log.shape }
    ensures store { IsLogStore (memory_content disk.new) store.new }
{
    done(rt, store.take(disk, kind, &key, &value))
}

// Puts a key, deletes another one of the same buckets, puts the first one again, and opens the
// commit bytes.
fn put_three(rt: &impl Abort, store: &mut LogStore, disk: &mut MemDisk)
    requires value { store.old.log.shape.value_len ≡ 2 }
    requires size { device_size store.old.log.shape ≤ size (memory_content disk.old) }
    requires store { IsLogStore (memory_content disk.old) store.old }
    ensures size { size (memory_content disk.new) ≡ size (memory_content disk.old) }
    ensures shape { store.new.log.shape ≡ store.old.log.shape }
{
    take(rt, store, disk, Kind::Put, paired(1), [0, 1]);
    take(rt, store, disk, Kind::Delete, paired(2), [0, 0]);
    take(rt, store, disk, Kind::Put, paired(1), [0, 3]);
    assert!(rt; store.has_waiting());
    done(rt, store.open_commits(disk))
}

// The place at which the first key is found, and the value there.
fn find_first(rt: &impl Abort, store: &LogStore, disk: &MemDisk) -> (Option<Found>, [u8; 2])
    requires value { store.now.log.shape.value_len ≡ 2 }
    requires size { device_size store.now.log.shape ≤ size (memory_content disk.now) }
{
    let mut value = [0; 2];
    let found = done(rt, store.get(disk, &paired(1), &mut value));
    (found, value)
}

// What a store reports after three rows: its number of puts before and after, its number of rows,
// whether one waits, and what is found of the first key.
type Seen = (u32, u32, u32, bool, (Option<Found>, [u8; 2]));

// Prepares log 0 and puts three rows.
fn put_on(rt: &impl Abort, alloc: Global, disk: &mut MemDisk) -> Seen
    requires { 45056 ≤ size (memory_content disk.old) }
    ensures { size (memory_content disk.new) ≡ size (memory_content disk.old) }
{
    let mut store = done(rt, LogStore::new(alloc, eight_rows(rt), 0));
    done(rt, store.prepare(disk));
    let before = store.puts();
    put_three(rt, &mut store, disk);
    let found = find_first(rt, &store, disk);
    (
        before,
        store.puts(),
        store.len(),
        store.has_waiting(),
        found,
    )
}

// The row of the last put of the first key.
const LAST: Option<Found> = Some(Found {
    kind: Kind::Put,
    place: 2,
});

#[test]
fn finds_the_last_row_of_a_key(rt: HostRuntime) {
    let alloc = rt.alloc();
    let mut disk = blank(&rt, alloc, LEN);
    let printed = put_on(&rt, alloc, &mut disk);
    let second = find(&rt, alloc, &disk, &paired(2));
    let outcome = rebuild(&rt, alloc, &disk);
    drop(disk);
    same(&rt, &printed, &(0, 2, 3, false, (LAST, [0, 3])));
    same(
        &rt,
        &(second, outcome),
        &(found(Kind::Delete, 1), Ok((3, 2))),
    );
}

// Rebuilds log 0 after a sync and seals it. Returns whether the seal returned Ok.
fn seal<D: Disk>(rt: &impl Abort, alloc: Global, disk: &mut D) -> bool
    requires { 45056 ≤ size (D.content disk.old) }
{
    done(rt, disk.sync());
    let mut store = done(rt, LogStore::rebuild(alloc, disk, eight_rows(rt), 0));
    store.seal(disk).is_ok()
}

// Rebuilds and seals log 0 on a disk with two open puts and with this commit byte after closed ones. The
// first write fails, so that the seal does, or there is none.
fn seals_with_fault(rt: &impl Abort, alloc: Global, commit: u8, expected: bool) {
    let mut disk = crowded(rt, alloc, 2, true);
    put(rt, &mut disk, 12_293, &[commit]);
    let mut failing = with_fault(disk, Call::Write, 1);
    let ended = seal(rt, alloc, &mut failing);
    drop(failing);
    same_in(rt, &ended, &expected, &commit);
}

// Whether a log with stale commit bytes is sealed, and its commit bytes are then closed.
fn seal_stale(rt: &impl Abort, alloc: Global) -> (bool, bool) {
    let mut disk = crowded(rt, alloc, 2, true);
    write_row(rt, &mut disk, 5, 1, &paired(6));
    let ended = seal(rt, alloc, &mut disk);
    (ended, shows(&disk, 12_288, &[0xA7, 0xA7, 0, 0, 0, 0, 0, 0]))
}

// A log with stale commit bytes is sealed by a write. Any other log takes no write.
#[test]
fn seals_a_stale_log(rt: HostRuntime) {
    let alloc = rt.alloc();
    same(&rt, &seal_stale(&rt, alloc), &(true, true));
    seals_with_fault(&rt, alloc, 0xA7, false);
    seals_with_fault(&rt, alloc, 0x33, true);
    seals_with_fault(&rt, alloc, 0, true);
}
