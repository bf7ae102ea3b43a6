// Tests of each kind of region. This module has what several of them need: comparisons, geometries,
// disks with rows on them, and keys whose buckets are known.
//
// Helpers take the runtime, and end the test where a call fails. So they have one exit each, and a
// disk or a store in them costs the proof little.
ghost use Rattle.std.specs.Prelude.{◌≡◌, ◌+◌, ◌≤◌, ◌<◌, length, Ok};
ghost use Rattle.silt_disk.specs.Disk.{size};
ghost use Rattle.silt_disk.specs.Layout.{device_size};
ghost use Rattle.silt_device.specs.Fault.{fault_content};
ghost use Rattle.silt_device.specs.Memory.{memory_content};

mod hash_store;
mod image;
mod log;
mod log_store;
mod manifest;
mod merge;
mod sorted_store;

use silt_device::{Call, Disk, FaultDisk, Geometry, MemDisk};
use silt_frame::{Key, Kind};
use silt_log::{Found, ScanError};
use std::alloc::Global;
use std::fmt::Debug;
use std::process::Abort;

// What was found is what is expected. A comparison is a call, so that its proof is made once.
fn same<T: PartialEq + Debug>(rt: &impl Abort, found: &T, expected: &T) {
    assert_eq!(rt; found, expected);
}

// What was found in this case is what is expected.
fn same_in<T: PartialEq + Debug, C: Debug>(rt: &impl Abort, found: &T, expected: &T, case: &C) {
    assert_eq!(rt; found, expected, "{case:?}");
}

// What a call returns that succeeds.
fn done<T, E: Drop>(rt: &impl Abort, answer: Result<T, E>) -> T
    ensures { answer ≡ Ok result }
{
    match answer {
        Ok(value) => value,
        Err(_) => rt.panic("a call failed"),
    }
}

// How many bytes a device with either of the first two geometries has.
const LEN: usize = 45_056;

// Values of two bytes, two buckets, four rows a log and eight sorted entries. Log 0 has its commit bytes at 12,288 and its
// bodies at 16,384, and the sorted regions begin at 36,864 and 40,960.
fn four_rows(rt: &impl Abort) -> Geometry
    ensures { result ≡ record { value_len = 2; buckets = 2; log_capacity = 4; logs = 2; hashes = 2; sorted_capacity = 8 } }
{
    done(rt, Geometry::new(2, 2, 4, 2, 2, 8))
}

// Values of two bytes, two buckets, eight rows a log and sixteen sorted entries. Log 0 has its commit bytes at 12,288 and its
// bodies at 16,384, and hash region 0 begins at 28,672.
fn eight_rows(rt: &impl Abort) -> Geometry
    ensures { result ≡ record { value_len = 2; buckets = 2; log_capacity = 8; logs = 2; hashes = 2; sorted_capacity = 16 } }
{
    done(rt, Geometry::new(2, 2, 8, 2, 2, 16))
}

// The geometry with the most rows and buckets.
fn largest(rt: &impl Abort) -> Geometry
    ensures { result ≡ record { value_len = 1; buckets = 32768; log_capacity = 131072; logs = 2; hashes = 1; sorted_capacity = 1 } }
{
    done(rt, Geometry::new(1, 32_768, 131_072, 2, 1, 1))
}

// A blank disk of this many bytes.
fn blank(rt: &impl Abort, alloc: Global, len: usize) -> MemDisk
    ensures { size (memory_content result) ≡ len }
{
    done(rt, MemDisk::new(alloc, len))
}

// A blank disk of a device with this geometry.
fn blank_of(rt: &impl Abort, alloc: Global, geometry: Geometry) -> MemDisk
    ensures { size (memory_content result) ≡ device_size geometry }
{
    blank(rt, alloc, geometry.size() as usize)
}

// Writes these bytes.
fn put<D: Disk>(rt: &impl Abort, disk: &mut D, at: u64, bytes: &[u8])
    requires { at + length bytes.now ≤ size (D.content disk.old) }
    ensures { size (D.content disk.new) ≡ size (D.content disk.old) }
{
    done(rt, disk.write(at, bytes))
}

// The bytes of a row. Both bytes of its value are this one.
fn row(kind: u8, key: &Key, value: u8) -> [u8; 23] {
    let mut row = [value; 23];
    row[0] = kind;
    row[1..21].copy_from_slice(&key.0);
    row
}

// Writes a row with an open commit byte into log 0.
fn log_row(rt: &impl Abort, disk: &mut MemDisk, place: u8, row: &[u8; 23])
    requires place { place < 8 }
    requires size { 45056 ≤ size (memory_content disk.old) }
    ensures { size (memory_content disk.new) ≡ size (memory_content disk.old) }
{
    put(rt, disk, 12_288 + u64::from(place), &[0xA7]);
    put(rt, disk, 16_384 + u64::from(place) * 23, row);
}

// A disk of which the call of this kind and this number fails.
fn with_fault(disk: MemDisk, call: Call, number: u64) -> FaultDisk
    ensures { size (fault_content result) ≡ size (memory_content disk) }
{
    FaultDisk::new(disk, call, number)
}

// Whether the disk shows these bytes from here on.
fn shows(disk: &MemDisk, at: usize, bytes: &[u8]) -> bool {
    disk.shown().get(at..at.saturating_add(bytes.len())) == Some(bytes)
}

// Why a rebuild is refused.
#[derive(Clone, Copy, Debug, PartialEq, Eq)]
enum Refusal {
    Crowded,
    Damaged(u32),
    Failed,
    NoMemory,
}

// The result of a rebuild: the numbers of rows and of puts, or why it is refused.
type Outcome = Result<(u32, u32), Refusal>;

fn refused<F>(error: &ScanError<F>) -> Refusal {
    match error {
        ScanError::Damaged(place) => Refusal::Damaged(*place),
        ScanError::Device(_) => Refusal::Failed,
        ScanError::NoMemory => Refusal::NoMemory,
    }
}

// A row of this kind that was found at a place.
fn found(kind: Kind, place: u32) -> Option<Option<Found>> {
    Some(Some(Found { kind, place }))
}

// The key that begins with this byte, followed by zeros: both its buckets are 0.
fn single(first: u8) -> Key {
    let mut bytes = [0; 20];
    bytes[0] = first;
    Key(bytes)
}

// The key 00000001, this byte and zeros: its buckets are 0 and 1.
fn paired(fifth: u8) -> Key {
    let mut bytes = [0; 20];
    bytes[3] = 1;
    bytes[4] = fifth;
    Key(bytes)
}
