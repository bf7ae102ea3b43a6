// Logs: the worked bytes, how many device calls an operation makes, and calls that allocate and
// succeed with enough memory.
ghost use Rattle.std.specs.Prelude.{◌≡◌, ◌≤◌};
ghost use Rattle.silt_disk.specs.Disk.{size};
ghost use Rattle.silt_disk.specs.Layout.{device_size};
ghost use Rattle.silt_device.specs.Memory.{memory_content};

use crate::regions::{
    LEN, Refusal, blank, done, four_rows, largest, put, refused, same, same_in, shows,
};
use silt_device::{Disk, Fill, MemDisk, Stop};
use silt_frame::{Key, Kind, Row};
use silt_log::Log;
use std::alloc::{AllocError, Global};
use std::process::Abort;

// The digest of "abc".
const ABC: [u8; 20] = [
    0xa9, 0x99, 0x3e, 0x36, 0x47, 0x06, 0x81, 0x6a, 0xba, 0x3e, 0x25, 0x71, 0x78, 0x50, 0xc2, 0x6c,
    0x9c, 0xd0, 0xd8, 0x9d,
];

// A put of that key with the value 0102.
const BODY: [u8; 23] = [
    0x01, 0xa9, 0x99, 0x3e, 0x36, 0x47, 0x06, 0x81, 0x6a, 0xba, 0x3e, 0x25, 0x71, 0x78, 0x50, 0xc2,
    0x6c, 0x9c, 0xd0, 0xd8, 0x9d, 0x01, 0x02,
];

fn one_stop(alloc: Global, k: u32) -> Result<Vec<Stop>, AllocError> {
    let mut stops = Vec::new(alloc);
    stops.push(Stop { k, fill: Fill::Old })?;
    Ok(stops)
}

// The disk in a life whose K-th write or sync fails.
fn armed(rt: &impl Abort, alloc: Global, disk: MemDisk, k: u32) -> MemDisk
    ensures { size (memory_content result) ≡ size (memory_content disk) }
{
    disk.arm(done(rt, one_stop(alloc, k)))
}

// Prepares a log, appends a row and opens its commit byte. `done` counts the calls that returned Ok.
fn write_one<D: Disk>(log: &mut Log, disk: &mut D, done: &mut u32) -> Result<(), D::Fault>
    requires value { log.old.shape.value_len ≡ 2 }
    requires room { 1 ≤ log.old.shape.log_capacity }
    requires size { device_size log.old.shape ≤ size (D.content disk.old) }
{
    *done = 0;
    log.prepare(disk)?;
    *done = 1;
    log.append(disk, Kind::Put, &Key(ABC), &[1, 2])?;
    *done = 2;
    log.open_commits(disk)?;
    *done = 3;
    Ok(())
}

// Whether the disk shows the open commit byte and the row.
fn shows_row(disk: &MemDisk) -> bool {
    shows(disk, 12_288, &[0xA7, 0, 0, 0]) && shows(disk, 16_384, &BODY) && shows(disk, 16_407, &[0])
}

// A new log of four rows.
fn new_log(rt: &impl Abort, alloc: Global) -> Log
    ensures { result.shape ≡ record { value_len = 2; buckets = 2; log_capacity = 4; logs = 2; hashes = 2; sorted_capacity = 8 } }
{
    done(rt, Log::new(alloc, four_rows(rt), 0))
}

// Writes a row on a blank disk whose K-th write or sync fails. Returns how many calls returned Ok, whether all did, and
// whether the disk shows the open commit byte and the row.
fn written(rt: &impl Abort, alloc: Global, k: u32) -> (u32, bool, bool) {
    let mut log = new_log(rt, alloc);
    let mut disk = armed(rt, alloc, blank(rt, alloc, LEN), k);
    let mut count = 0;
    let ended = write_one(&mut log, &mut disk, &mut count).is_ok();
    (count, ended, shows_row(&disk))
}

#[test]
fn a_row_lies_on_the_device(rt: HostRuntime) {
    same(&rt, &written(&rt, rt.alloc(), 0), &(3, true, true));
}

// If the K-th write or sync fails, this many calls return Ok.
fn is_counted(rt: &impl Abort, alloc: Global, k: u32, count: u32) {
    let (done, ended, _shown) = written(rt, alloc, k);
    same_in(rt, &(done, ended), &(count, count == 3), &k);
}

// The K-th write or sync fails. The first two are made by `prepare`, the next two by `append`, and
// three by `open_commits`.
#[test]
fn calls_are_counted(rt: HostRuntime) {
    let alloc = rt.alloc();
    is_counted(&rt, alloc, 1, 0);
    is_counted(&rt, alloc, 2, 0);
    is_counted(&rt, alloc, 3, 1);
    is_counted(&rt, alloc, 4, 1);
    is_counted(&rt, alloc, 5, 2);
    is_counted(&rt, alloc, 6, 2);
    is_counted(&rt, alloc, 7, 2);
    is_counted(&rt, alloc, 8, 3);
}

// A disk with these first three commit bytes of log 0 and this body of its first row, and zeros elsewhere.
fn crafted(rt: &impl Abort, alloc: Global, commits: &[u8; 3], body: &[u8; 23]) -> MemDisk
    ensures { size (memory_content result) ≡ 45056 }
{
    let mut disk = blank(rt, alloc, LEN);
    put(rt, &mut disk, 12_288, commits);
    put(rt, &mut disk, 16_384, body);
    done(rt, disk.sync());
    disk
}

// Scans a log: its only row, or none if it has another number of rows, how many it has and how many
// are settled. Or why the scan is refused.
type Scanned = Result<(Option<Row>, u32, u32), Refusal>;

fn scanned(alloc: Global, log: &mut Log, disk: &MemDisk) -> Scanned
    requires { device_size log.old.shape ≤ size (memory_content disk.now) }
    ensures { log.new.shape ≡ log.old.shape }
{
    match log.scan(alloc, disk) {
        Ok(rows) => Ok((only(&rows), log.len(), log.settled())),
        Err(error) => Err(refused(&error)),
    }
}

fn only(rows: &[Row]) -> Option<Row> {
    match rows {
        [row] => Some(*row),
        _ => None,
    }
}

// The key and the value of the first row.
fn first_row(rt: &impl Abort, log: &Log, disk: &MemDisk) -> (Key, [u8; 2])
    requires value { log.now.shape.value_len ≡ 2 }
    requires room { 1 ≤ log.now.shape.log_capacity }
    requires size { device_size log.now.shape ≤ size (memory_content disk.now) }
{
    let mut value = [0; 2];
    done(rt, log.read_value(disk, 0, &mut value));
    (done(rt, log.read_key(disk, 0)), value)
}

// Scans a log whose second commit byte is closed, and reads its first row.
fn scanned_commits(rt: &impl Abort, alloc: Global) -> (Scanned, (Key, [u8; 2])) {
    let mut log = new_log(rt, alloc);
    let disk = crafted(rt, alloc, &[0xA7, 0x55, 0xA7], &BODY);
    let scanned = scanned(alloc, &mut log, &disk);
    (scanned, first_row(rt, &log, &disk))
}

#[test]
fn a_scan_ends_at_the_first_closed_commit_byte(rt: HostRuntime) {
    let row = Row {
        kind: Kind::Put,
        key: Key(ABC),
        place: 0,
    };
    let due = (Ok((Some(row), 1, 1)), (Key(ABC), [1, 2]));
    same(&rt, &scanned_commits(&rt, rt.alloc()), &due);
}

// The capacity and the region of a new log with the largest geometry.
fn new_largest(rt: &impl Abort, alloc: Global) -> (u32, u32) {
    let log = done(rt, Log::new(alloc, largest(rt), 1));
    (log.capacity(), log.region())
}

// With enough memory even a log with the most rows is made.
#[test]
fn the_longest_log_is_made(rt: HostRuntime) {
    same(&rt, &new_largest(&rt, rt.alloc()), &(131_072, 1));
}

// A scan of a log whose first row has an unknown kind.
fn scanned_unknown(rt: &impl Abort, alloc: Global) -> Scanned {
    let mut body = BODY;
    body[0] = 3;
    let mut log = new_log(rt, alloc);
    let disk = crafted(rt, alloc, &[0xA7, 0, 0], &body);
    scanned(alloc, &mut log, &disk)
}

#[test]
fn an_unknown_kind_is_damage(rt: HostRuntime) {
    let due: Scanned = Err(Refusal::Damaged(0));
    same(&rt, &scanned_unknown(&rt, rt.alloc()), &due);
}

// Scans after a sync and seals. Returns whether the seal returned Ok.
fn seal<D: Disk>(rt: &impl Abort, alloc: Global, log: &mut Log, disk: &mut D) -> bool
    requires { device_size log.old.shape ≤ size (D.content disk.old) }
{
    done(rt, disk.sync());
    drop(done(rt, log.scan(alloc, disk)));
    log.seal(disk).is_ok()
}

// Scans and seals a log on a disk with these commit bytes, whose K-th write or sync fails. The sync before
// the scan is the first. The disk then shows a commit byte of this byte as the third one, and the others as
// they were.
fn seals(rt: &impl Abort, alloc: Global, third: u8, left: u8, k: u32, expected: bool) {
    let mut log = new_log(rt, alloc);
    let disk = crafted(rt, alloc, &[0xA7, 0x55, third], &BODY);
    let mut disk = armed(rt, alloc, disk, k);
    let ended = seal(rt, alloc, &mut log, &mut disk);
    let is_shown = shows(&disk, 12_288, &[0xA7, 0x55, left, 0]);
    same_in(rt, &(ended, is_shown), &(expected, true), &(third, k));
}

// A seal makes one write and one sync, or no call. It never writes to the first closed commit byte.
#[test]
fn a_seal_leaves_the_first_closed_commit_byte(rt: HostRuntime) {
    let alloc = rt.alloc();
    seals(&rt, alloc, 0xA7, 0, 2, false);
    seals(&rt, alloc, 0xA7, 0, 3, false);
    seals(&rt, alloc, 0xA7, 0, 4, true);
    seals(&rt, alloc, 0x33, 0x33, 2, true);
}
