// Hash regions: worked regions, calls that allocate and succeed with enough memory, and how many
// reads a look-up and a rebuild make.
ghost use Rattle.std.specs.Prelude.{◌≡◌, ◌+◌, ◌*◌, ◌≤◌, ◌<◌, IfSome};
ghost use Rattle.silt_disk.specs.Disk.{size};
ghost use Rattle.silt_disk.specs.Layout.{device_size};
ghost use Rattle.silt_device.specs.Memory.{memory_content};

use crate::regions::{
    LEN, Outcome, Refusal, blank, blank_of, done, eight_rows, found, largest, log_row, paired, put,
    refused, row, same, same_in, shows, single, with_fault,
};
use silt_conversion::{Conversion, StepError};
use silt_device::{Call, Disk, Geometry, MemDisk};
use silt_frame::{Digest, Key, Kind, Row};
use silt_hash_store::{Found, HashStore};
use silt_log_store::LogStore;
use std::alloc::Global;
use std::process::Abort;

// Writes a row into a slot of hash region 0.
fn fill_slot(rt: &impl Abort, disk: &mut MemDisk, slot: u8, kind: u8, key: &Key)
    requires slot { slot < 8 }
    requires size { 45056 ≤ size (memory_content disk.old) }
    ensures { size (memory_content disk.new) ≡ size (memory_content disk.old) }
{
    put(
        rt,
        disk,
        28_672 + u64::from(slot) * 23,
        &row(kind, key, slot),
    );
}

// The result of a rebuild of hash region 0 with this geometry.
fn rebuild_in<D: Disk>(alloc: Global, disk: &D, geometry: Geometry) -> Outcome
    requires region { 0 < geometry.hashes }
    requires size { device_size geometry ≤ size (D.content disk.now) }
{
    match HashStore::rebuild(alloc, disk, geometry, 0) {
        Ok(rebuilt) => Ok((rebuilt.rows, rebuilt.store.puts())),
        Err(error) => Err(refused(&error)),
    }
}

// The result of a rebuild of hash region 0 with eight rows a log.
fn rebuild<D: Disk>(rt: &impl Abort, alloc: Global, disk: &D) -> Outcome
    requires { 45056 ≤ size (D.content disk.now) }
{
    rebuild_in(alloc, disk, eight_rows(rt))
}

// The store on this disk.
fn rebuilt<D: Disk>(rt: &impl Abort, alloc: Global, disk: &D) -> Option<HashStore>
    requires { 45056 ≤ size (D.content disk.now) }
    ensures { IfSome result (λ store. store.shape ≡ record { value_len = 2; buckets = 2; log_capacity = 8; logs = 2; hashes = 2; sorted_capacity = 16 }) }
{
    match HashStore::rebuild(alloc, disk, eight_rows(rt), 0) {
        Ok(rebuilt) => Some(rebuilt.store),
        Err(_) => None,
    }
}

// The digest of a region of eight empty slots: the SHA-1 of 184 zeros.
const OF_ZEROS: Digest = Digest([
    66, 15, 7, 156, 79, 166, 43, 213, 100, 66, 203, 214, 135, 150, 75, 250, 27, 66, 58, 32,
]);

// The digest of the store on this disk.
fn digest(rt: &impl Abort, alloc: Global, disk: &MemDisk) -> Option<Digest>
    requires { 45056 ≤ size (memory_content disk.now) }
{
    match rebuilt(rt, alloc, disk) {
        Some(store) => Some(*store.digest()),
        None => None,
    }
}

#[test]
fn hashes_empty_slots(rt: HostRuntime) {
    let disk = blank(&rt, rt.alloc(), LEN);
    let digest = digest(&rt, rt.alloc(), &disk);
    drop(disk);
    same(&rt, &digest, &Some(OF_ZEROS));
}

// What the store on this disk has of a key.
fn find<D: Disk>(rt: &impl Abort, alloc: Global, disk: &D, key: &Key) -> Option<Option<Found>>
    requires { 45056 ≤ size (D.content disk.now) }
{
    match rebuilt(rt, alloc, disk) {
        Some(store) => store.find(disk, key).ok(),
        None => None,
    }
}

// Writes rows into three slots: one in a key's first bucket, the last one of a key's second bucket, and the last one of a bucket
// that is a key's first and second one.
fn fill_three(rt: &impl Abort, disk: &mut MemDisk)
    requires { 45056 ≤ size (memory_content disk.old) }
    ensures { size (memory_content disk.new) ≡ size (memory_content disk.old) }
{
    fill_slot(rt, disk, 2, 1, &paired(1));
    fill_slot(rt, disk, 7, 2, &paired(2));
    fill_slot(rt, disk, 3, 1, &single(3));
}

// The store has this of a key.
fn finds(rt: &impl Abort, alloc: Global, disk: &MemDisk, key: Key, expected: Option<Option<Found>>)
    requires { 45056 ≤ size (memory_content disk.now) }
{
    same_in(rt, &find(rt, alloc, disk, &key), &expected, &key);
}

// What the store has of the keys of these rows, and of two others.
fn finds_three(rt: &impl Abort, alloc: Global, disk: &MemDisk)
    requires { 45056 ≤ size (memory_content disk.now) }
{
    finds(rt, alloc, disk, paired(1), found(Kind::Put, 2));
    finds(rt, alloc, disk, paired(2), found(Kind::Delete, 7));
    finds(rt, alloc, disk, single(3), found(Kind::Put, 3));
    finds(rt, alloc, disk, paired(3), Some(None));
    finds(rt, alloc, disk, single(1), Some(None));
}

#[test]
fn finds_the_rows_of_a_region(rt: HostRuntime) {
    let alloc = rt.alloc();
    let mut disk = blank(&rt, alloc, LEN);
    let empty = rebuild(&rt, alloc, &disk);
    fill_three(&rt, &mut disk);
    let outcome = rebuild(&rt, alloc, &disk);
    finds_three(&rt, alloc, &disk);
    drop(disk);
    same(&rt, &(empty, outcome), &(Ok((0, 0)), Ok((3, 2))));
}

// The row of slot 5 of hash region 0, that of slot 4, and the value in slot 5.
fn read_slots(rt: &impl Abort, alloc: Global, disk: &MemDisk) -> (Option<Row>, Option<Row>, [u8; 2])
    requires { 45056 ≤ size (memory_content disk.now) }
{
    let store = rebuilt(rt, alloc, disk).expect(rt, "a store");
    let mut value = [0; 2];
    done(rt, store.read_value(disk, 5, &mut value));
    let full = done(rt, store.row_at(disk, 5));
    let empty = done(rt, store.row_at(disk, 4));
    (full, empty, value)
}

#[test]
fn reads_a_slot(rt: HostRuntime) {
    let alloc = rt.alloc();
    let mut disk = blank(&rt, alloc, LEN);
    fill_slot(&rt, &mut disk, 5, 2, &paired(2));
    let slots = read_slots(&rt, alloc, &disk);
    drop(disk);
    let row = Row {
        kind: Kind::Delete,
        key: paired(2),
        place: 5,
    };
    same(&rt, &slots, &(Some(row), None, [5, 5]));
}

// The results of three rebuilds. Slot 7 gets an unknown kind, then slot 6 a key that slot 1 has,
// then slot 4 a row in no bucket of its key.
fn three_wrong_slots(rt: &impl Abort, alloc: Global, disk: &mut MemDisk) -> [Outcome; 3]
    requires { 45056 ≤ size (memory_content disk.old) }
{
    fill_slot(rt, disk, 1, 1, &paired(1));
    fill_slot(rt, disk, 7, 3, &paired(7));
    let unknown = rebuild(rt, alloc, disk);
    fill_slot(rt, disk, 6, 1, &paired(1));
    let twice = rebuild(rt, alloc, disk);
    fill_slot(rt, disk, 4, 1, &single(4));
    [unknown, twice, rebuild(rt, alloc, disk)]
}

// A rebuild reports the first damaged slot: one with an unknown kind, with a row in no bucket of
// its key, or with the key of an earlier slot.
#[test]
fn the_first_wrong_slot_decides(rt: HostRuntime) {
    let mut disk = blank(&rt, rt.alloc(), LEN);
    let outcomes = three_wrong_slots(&rt, rt.alloc(), &mut disk);
    drop(disk);
    let due = [
        Err(Refusal::Damaged(7)),
        Err(Refusal::Damaged(6)),
        Err(Refusal::Damaged(4)),
    ];
    same(&rt, &outcomes, &due);
}

// A disk with two rows that share their buckets.
fn with_two(rt: &impl Abort, alloc: Global) -> MemDisk
    ensures { size (memory_content result) ≡ 45056 }
{
    let mut disk = blank(rt, alloc, LEN);
    fill_slot(rt, &mut disk, 0, 1, &paired(1));
    fill_slot(rt, &mut disk, 1, 1, &paired(2));
    disk
}

// The read of this number fails. That makes a rebuild of two rows return this, and a look-up of the
// second one succeed or not.
fn reports_read(rt: &impl Abort, alloc: Global, number: u64, outcome: Outcome, finds: bool) {
    let disk = with_fault(with_two(rt, alloc), Call::Read, number);
    let rebuilt = rebuild(rt, alloc, &disk);
    let found = find(rt, alloc, &disk, &paired(2)).is_some();
    drop(disk);
    same_in(rt, &(rebuilt, found), &(outcome, finds), &number);
}

// A rebuild makes two reads: of all eight slots, and of the head of the first of two rows that
// share their buckets. A look-up of the second row makes two.
#[test]
fn a_failed_read_is_reported(rt: HostRuntime) {
    let alloc = rt.alloc();
    reports_read(&rt, alloc, 1, Err(Refusal::Failed), true);
    reports_read(&rt, alloc, 2, Err(Refusal::Failed), true);
    reports_read(&rt, alloc, 3, Ok((2, 2)), false);
    reports_read(&rt, alloc, 4, Ok((2, 2)), false);
    reports_read(&rt, alloc, 6, Ok((2, 2)), false);
    reports_read(&rt, alloc, 7, Ok((2, 2)), true);
}

// Writes the next slot, if there is one. Returns how many reads and how many writes failed.
fn run_step<D: Disk>(conversion: &mut Conversion, log: &LogStore, disk: &mut D) -> (u32, u32)
    requires shape { conversion.old.shape ≡ log.now.log.shape }
    requires size { device_size conversion.old.shape ≤ size (D.content disk.old) }
    ensures shape { conversion.new.shape ≡ conversion.old.shape }
    ensures size { size (D.content disk.new) ≡ size (D.content disk.old) }
{
    if conversion.is_done() {
        return (0, 0);
    }
    match conversion.step(log, disk) {
        Ok(()) => (0, 0),
        Err(StepError::Read(_)) => (1, 0),
        Err(StepError::Write(_)) => (0, 1),
    }
}

// Runs this many steps. Returns how many reads and how many writes failed.
fn run_steps<D: Disk>(
    conversion: &mut Conversion,
    log: &LogStore,
    disk: &mut D,
    count: u32,
) -> (u32, u32)
    requires shape { conversion.old.shape ≡ log.now.log.shape }
    requires size { device_size conversion.old.shape ≤ size (D.content disk.old) }
    ensures shape { conversion.new.shape ≡ conversion.old.shape }
    ensures size { size (D.content disk.new) ≡ size (D.content disk.old) }
{
    let mut reads = 0u32;
    let mut writes = 0u32;
    for _step in 0..count {
        let failed = run_step(conversion, log, disk);
        reads = reads.saturating_add(failed.0);
        writes = writes.saturating_add(failed.1);
    }
    (reads, writes)
}

// The result of a conversion: how many reads and writes failed, how many puts it counted, and what
// the store then has of the keys 1 and 2.
type Converted = ((u32, u32), u32, [Option<Found>; 2]);

// What a store has of these keys.
fn find_two<D: Disk>(rt: &impl Abort, store: &HashStore, disk: &D) -> [Option<Found>; 2]
    requires { device_size store.now.shape ≤ size (D.content disk.now) }
{
    [
        done(rt, store.find(disk, &paired(1))),
        done(rt, store.find(disk, &paired(2))),
    ]
}

// Converts a log into hash region 0 in ten steps.
fn convert_log<D: Disk>(rt: &impl Abort, alloc: Global, disk: &mut D, log: &LogStore) -> Converted
    requires region { 0 < log.now.log.shape.hashes }
    requires size { device_size log.now.log.shape ≤ size (D.content disk.old) }
    ensures { size (D.content disk.new) ≡ size (D.content disk.old) }
{
    let mut conversion = done(rt, Conversion::start(alloc, log, 0));
    let failed = run_steps(&mut conversion, log, disk, 10);
    assert!(rt; conversion.is_done());
    let puts = conversion.puts();
    let store = conversion.into_store();
    (failed, puts, find_two(rt, &store, disk))
}

// The store of eight rows in log 0 of the disk.
fn rebuilt_log<D: Disk>(rt: &impl Abort, alloc: Global, disk: &D) -> LogStore
    requires { 45056 ≤ size (D.content disk.now) }
    ensures { result.log.shape ≡ record { value_len = 2; buckets = 2; log_capacity = 8; logs = 2; hashes = 2; sorted_capacity = 16 } }
{
    done(rt, LogStore::rebuild(alloc, disk, eight_rows(rt), 0))
}

// Converts log 0 into hash region 0.
fn convert<D: Disk>(rt: &impl Abort, alloc: Global, disk: &mut D) -> Converted
    requires { 45056 ≤ size (D.content disk.old) }
    ensures { size (D.content disk.new) ≡ size (D.content disk.old) }
{
    let log = rebuilt_log(rt, alloc, disk);
    convert_log(rt, alloc, disk, &log)
}

// Converts log 0 into hash region 0, after the kind of its last row has changed on the disk only.
fn convert_changed(rt: &impl Abort, alloc: Global, disk: &mut MemDisk) -> Converted
    requires { 45056 ≤ size (memory_content disk.old) }
    ensures { size (memory_content disk.new) ≡ size (memory_content disk.old) }
{
    let log = rebuilt_log(rt, alloc, disk);
    put(rt, disk, 16_430, &[3]);
    convert_log(rt, alloc, disk, &log)
}

// A disk with three rows of two keys in log 0, and rows of an unknown kind in all slots of hash region 0.
fn prepared(rt: &impl Abort, alloc: Global) -> MemDisk
    ensures { size (memory_content result) ≡ 45056 }
{
    let mut disk = blank(rt, alloc, LEN);
    log_row(rt, &mut disk, 0, &row(1, &paired(1), 7));
    log_row(rt, &mut disk, 1, &row(2, &paired(2), 0));
    log_row(rt, &mut disk, 2, &row(1, &paired(1), 9));
    put(rt, &mut disk, 28_672, &[0xFF; 184]);
    disk
}

// The row of a delete of key 2, at its place in the log.
const SECOND: Option<Found> = Some(Found {
    kind: Kind::Delete,
    place: 1,
});

// The row of a put of key 1.
const FIRST: Option<Found> = Some(Found {
    kind: Kind::Put,
    place: 0,
});

// Each key's last row goes to the slot that it has in the log's table. The other slots become
// empty.
#[test]
fn converts_a_log(rt: HostRuntime) {
    let alloc = rt.alloc();
    let mut disk = prepared(&rt, alloc);
    let before = rebuild(&rt, alloc, &disk);
    let converted = convert(&rt, alloc, &mut disk);
    let after = rebuild(&rt, alloc, &disk);
    let is_shown = shows(&disk, 28_693, &[9, 9]) && shows(&disk, 28_718, &[0; 138]);
    drop(disk);
    let rebuilds = (Err(Refusal::Damaged(0)), Ok((2, 1)));
    let due = (rebuilds, ((0, 0), 1, [FIRST, SECOND]), true);
    same(&rt, &((before, after), converted, is_shown), &due);
}

// A row that has an unknown kind when it is read is written as an empty slot, and does not count as
// a put.
#[test]
fn writes_no_row_of_an_unknown_kind(rt: HostRuntime) {
    let alloc = rt.alloc();
    let mut disk = prepared(&rt, alloc);
    let converted = convert_changed(&rt, alloc, &mut disk);
    let after = rebuild(&rt, alloc, &disk);
    let is_shown = shows(&disk, 28_672, &[0; 23]);
    drop(disk);
    let due = (((0, 0), 0, [None, SECOND]), Ok((1, 0)), true);
    same(&rt, &(converted, after, is_shown), &due);
}

// Converts log 0 if a call of this kind and this number fails: this many reads and writes of the
// steps fail. One put is counted, and both keys are found.
fn goes_on(rt: &impl Abort, alloc: Global, call: Call, number: u64, failed: (u32, u32)) {
    let mut disk = with_fault(prepared(rt, alloc), call, number);
    let converted = convert(rt, alloc, &mut disk);
    drop(disk);
    let [first, second] = converted.2;
    let found = (converted.0, converted.1, first.is_some(), second.is_some());
    same_in(rt, &found, &(failed, 1, true, true), &number);
}

// A step after a failed one does the same work, and counts its put once. The log's rebuild makes
// four reads. The steps read two rows and write eight slots.
#[test]
fn goes_on_after_a_failed_step(rt: HostRuntime) {
    let alloc = rt.alloc();
    goes_on(&rt, alloc, Call::Read, 5, (1, 0));
    goes_on(&rt, alloc, Call::Read, 6, (1, 0));
    goes_on(&rt, alloc, Call::Write, 1, (0, 1));
    goes_on(&rt, alloc, Call::Write, 8, (0, 1));
    goes_on(&rt, alloc, Call::Write, 9, (0, 0));
}

// The result of a rebuild on a blank disk with the largest geometry.
fn rebuild_largest(rt: &impl Abort, alloc: Global) -> Outcome {
    let geometry = largest(rt);
    let disk = blank_of(rt, alloc, geometry);
    rebuild_in(alloc, &disk, geometry)
}

// The region of a conversion that has begun with that geometry, and whether it is done.
fn begin_largest(rt: &impl Abort, alloc: Global) -> (u32, bool) {
    let log = done(rt, LogStore::new(alloc, largest(rt), 0));
    let conversion = done(rt, Conversion::start(alloc, &log, 0));
    (conversion.region(), conversion.is_done())
}

// With enough memory a conversion begins even for the geometry with the most rows and buckets.
#[test]
fn the_largest_conversion_begins(rt: HostRuntime) {
    same(&rt, &rebuild_largest(&rt, rt.alloc()), &Ok((0, 0)));
    same(&rt, &begin_largest(&rt, rt.alloc()), &(0, false));
}
