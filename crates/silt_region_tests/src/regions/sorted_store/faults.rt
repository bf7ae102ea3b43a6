// How many reads a rebuild and a look-up make. The read of each number fails, and a call that makes
// it returns the fault.
ghost use Rattle.std.specs.Prelude.{◌≡◌, ◌<◌, ◌≤◌};
ghost use Rattle.silt_disk.specs.Disk.{size};
ghost use Rattle.silt_device.specs.Memory.{memory_content};

use crate::regions::sorted_store::{Outcome, filled, find, find_in, key, rebuild, rebuild_in};
use crate::regions::{Refusal, blank, done, put, same_in, with_fault};
use silt_device::{Call, Disk, Geometry, MemDisk};
use silt_frame::Key;
use std::alloc::Global;
use std::process::Abort;

// The place of the key that begins with these two bytes among eight entries, with one failing read.
// None if that is a read of the rebuild or of the look-up.
fn finds_at(
    rt: &impl Abort,
    alloc: Global,
    number: u64,
    first: (u8, u8),
    expected: Option<Option<u32>>,
) {
    let disk = with_fault(filled(rt, alloc, 8), Call::Read, number);
    let found = find(rt, alloc, &disk, 8, &key(first.0, first.1));
    drop(disk);
    same_in(rt, &found, &expected, &(number, first));
}

// A rebuild of this many of eight entries returns this if the read of this number fails.
fn rebuilds_at(rt: &impl Abort, alloc: Global, number: u64, count: u32, expected: Outcome)
    requires { count ≤ 8 }
{
    let disk = with_fault(filled(rt, alloc, 8), Call::Read, number);
    let outcome = rebuild(rt, alloc, &disk, 1, count);
    drop(disk);
    same_in(rt, &outcome, &expected, &(number, count));
}

// After the one read of the rebuild a look-up of a present key makes one read. So does that of an
// absent key with the first byte of a present one. If no key has its first byte, the look-up makes
// none.
#[test]
fn a_failed_read_of_a_look_up_is_reported(rt: HostRuntime) {
    let alloc = rt.alloc();
    finds_at(&rt, alloc, 1, (50, 0), None);
    finds_at(&rt, alloc, 2, (50, 0), None);
    finds_at(&rt, alloc, 3, (50, 0), Some(Some(4)));
    finds_at(&rt, alloc, 2, (50, 1), None);
    finds_at(&rt, alloc, 3, (50, 1), Some(None));
    finds_at(&rt, alloc, 2, (55, 0), Some(None));
}

// A rebuild of three short entries makes one read, and one of none makes none.
#[test]
fn a_failed_read_of_a_rebuild_is_reported(rt: HostRuntime) {
    let alloc = rt.alloc();
    rebuilds_at(&rt, alloc, 1, 3, Err(Refusal::Failed));
    rebuilds_at(&rt, alloc, 2, 3, Ok(3));
    rebuilds_at(&rt, alloc, 1, 0, Ok(0));
}

// The key that ends with this byte, after zeros.
fn last(byte: u8) -> Key {
    let mut bytes = [0; 20];
    bytes[19] = byte;
    Key(bytes)
}

// Values of 4,096 bytes and twenty sorted entries of 4,116 bytes: sorted region 1 begins at 184,320.
fn long(rt: &impl Abort) -> Geometry
    ensures { result ≡ record { value_len = 4096; buckets = 2; log_capacity = 4; logs = 2; hashes = 1; sorted_capacity = 20 } }
{
    done(rt, Geometry::new(4096, 2, 4, 2, 1, 20))
}

// Writes the key of an entry of 4,116 bytes into sorted region 1.
fn write_long_key(rt: &impl Abort, disk: &mut MemDisk, place: u8, key: &Key)
    requires place { place < 20 }
    requires size { 270336 ≤ size (memory_content disk.old) }
    ensures { size (memory_content disk.new) ≡ size (memory_content disk.old) }
{
    put(rt, disk, 184_320 + u64::from(place) * 4116, &key.0);
}

// Twenty long entries, whose keys differ in their last byte alone, and all lie in one group.
fn fill_long(rt: &impl Abort, disk: &mut MemDisk)
    requires size { 270336 ≤ size (memory_content disk.old) }
    ensures { size (memory_content disk.new) ≡ size (memory_content disk.old) }
{
    for place in 0..20u8 {
        write_long_key(rt, disk, place, &last(place + 1));
    }
}

// The result of a rebuild of this many long entries.
fn rebuild_long<D: Disk>(rt: &impl Abort, alloc: Global, disk: &D, count: u32) -> Outcome
    requires count { count ≤ 20 }
    requires size { 270336 ≤ size (D.content disk.now) }
{
    rebuild_in(alloc, disk, long(rt), 1, count)
}

// A disk with the twenty long entries.
fn filled_long(rt: &impl Abort, alloc: Global) -> MemDisk
    ensures { size (memory_content result) ≡ 270336 }
{
    let mut disk = blank(rt, alloc, 270_336);
    fill_long(rt, &mut disk);
    disk
}

// A rebuild of this many of them returns this if the read of this number fails.
fn rebuilds_long_at(rt: &impl Abort, alloc: Global, number: u64, count: u32, expected: Outcome)
    requires { count ≤ 20 }
{
    let disk = with_fault(filled_long(rt, alloc), Call::Read, number);
    let outcome = rebuild_long(rt, alloc, &disk, count);
    drop(disk);
    same_in(rt, &outcome, &expected, &(number, count));
}

// Fifteen entries of 4,116 bytes are one read of at most 65,536 bytes, so twenty are two reads.
#[test]
fn a_rebuild_reads_in_chunks(rt: HostRuntime) {
    let alloc = rt.alloc();
    rebuilds_long_at(&rt, alloc, 1, 20, Err(Refusal::Failed));
    rebuilds_long_at(&rt, alloc, 2, 20, Err(Refusal::Failed));
    rebuilds_long_at(&rt, alloc, 3, 20, Ok(20));
    rebuilds_long_at(&rt, alloc, 2, 16, Err(Refusal::Failed));
    rebuilds_long_at(&rt, alloc, 2, 15, Ok(15));
}

// If the entry at this place has the key that ends with this byte, a rebuild of all entries finds it
// damaged, and one of those before the place does not.
fn is_refused(rt: &impl Abort, alloc: Global, place: u8, byte: u8)
    requires { place < 20 }
{
    let mut disk = filled_long(rt, alloc);
    write_long_key(rt, &mut disk, place, &last(byte));
    let all = rebuild_long(rt, alloc, &disk, 20);
    let count = u32::from(place);
    let before = rebuild_long(rt, alloc, &disk, count);
    drop(disk);
    let due = (Err(Refusal::Damaged(count)), Ok(count));
    same_in(rt, &(all, before), &due, &(place, byte));
}

// The first equal or falling key is damage, at the ends of a read too: entry 14 is the last one of
// the first read.
#[test]
fn a_rebuild_refuses_at_the_borders_of_chunks(rt: HostRuntime) {
    let alloc = rt.alloc();
    is_refused(&rt, alloc, 1, 1);
    is_refused(&rt, alloc, 14, 14);
    is_refused(&rt, alloc, 14, 1);
    is_refused(&rt, alloc, 15, 15);
    is_refused(&rt, alloc, 15, 1);
    is_refused(&rt, alloc, 16, 16);
    is_refused(&rt, alloc, 19, 0);
}

// The look-up of the key that ends with this byte returns this among the twenty long entries.
fn finds_long(rt: &impl Abort, alloc: Global, disk: &MemDisk, byte: u8, expected: Option<u32>)
    requires { 270336 ≤ size (memory_content disk.now) }
{
    let found = find_in(alloc, disk, long(rt), 20, &last(byte));
    same_in(rt, &found, &Some(expected), &byte);
}

// The key of each of the twenty places is found there.
fn finds_each_long(rt: &impl Abort, alloc: Global, disk: &MemDisk)
    requires { 270336 ≤ size (memory_content disk.now) }
{
    for place in 0..20u8 {
        finds_long(rt, alloc, disk, place + 1, Some(u32::from(place)));
    }
}

// Look-ups find keys that differ only in their last bits, whichever read of the rebuild they are
// in.
#[test]
fn finds_keys_that_differ_in_the_last_bits(rt: HostRuntime) {
    let disk = filled_long(&rt, rt.alloc());
    finds_each_long(&rt, rt.alloc(), &disk);
    finds_long(&rt, rt.alloc(), &disk, 0, None);
    finds_long(&rt, rt.alloc(), &disk, 21, None);
    drop(disk);
}
