// How many reads the slots and entries take that are read together. One read takes at most 64 KiB.
ghost use Rattle.std.specs.Prelude.{◌≡◌, ◌≤◌};
ghost use Rattle.silt_disk.specs.Disk.{size};
ghost use Rattle.silt_disk.specs.Layout.{device_size};
ghost use Rattle.silt_device.specs.Fault.{fault_content};
ghost use Rattle.silt_device.specs.Memory.{memory_content};

use crate::regions::merge::{Outcome, merge_stores};
use crate::regions::{blank_of, done, put, same_in, single, with_fault};
use silt_device::{Call, Disk, FaultDisk, Geometry, MemDisk};
use std::alloc::Global;
use std::process::Abort;

mod lent;

// Values of 4,096 bytes, 16 slots of 4,117 bytes and twenty entries of 4,116 bytes.
fn long(rt: &impl Abort) -> Geometry
    ensures { result ≡ record { value_len = 4096; buckets = 4; log_capacity = 4; logs = 2; hashes = 2; sorted_capacity = 20 } }
{
    done(rt, Geometry::new(4096, 4, 4, 2, 2, 20))
}

// Writes the keys that begin with 1, 2 and so on up to 20 into sorted region 0.
fn fill_long(rt: &impl Abort, disk: &mut MemDisk, geometry: Geometry)
    requires value_len { geometry.value_len ≡ 4096 }
    requires capacity { geometry.sorted_capacity ≡ 20 }
    requires size { device_size geometry ≤ size (memory_content disk.old) }
    ensures { size (memory_content disk.new) ≡ size (memory_content disk.old) }
{
    for place in 0..20u8 {
        let at = geometry.sorted_at(0) + u64::from(place) * 4116;
        put(rt, disk, at, &single(place + 1).0);
    }
}

// A disk with these entries whose call of this kind and this number fails.
fn failing(rt: &impl Abort, alloc: Global, geometry: Geometry, call: Call, number: u64) -> FaultDisk
    requires value_len { geometry.value_len ≡ 4096 }
    requires capacity { geometry.sorted_capacity ≡ 20 }
    ensures { size (fault_content result) ≡ device_size geometry }
{
    let mut disk = blank_of(rt, alloc, geometry);
    fill_long(rt, &mut disk, geometry);
    with_fault(disk, call, number)
}

// Merges two hash regions and this many entries of sorted region 0 into sorted region 1, if a call of
// this kind and this number fails. Returns the outcome of the steps and the place of the last key in
// the new store, or none if the look-up fails.
fn merge_long(
    rt: &impl Abort,
    alloc: Global,
    count: u8,
    call: Call,
    number: u64,
) -> (Outcome, Option<Option<u32>>)
    requires { count ≤ 20 }
{
    let geometry = long(rt);
    let mut disk = failing(rt, alloc, geometry, call, number);
    let tries = 33 + u32::from(count);
    let (outcome, store) = merge_stores(rt, alloc, &mut disk, geometry, u32::from(count), tries);
    assert!(rt; store.geometry().size() <= disk.len());
    (outcome, store.find(&disk, &single(count)).ok())
}

// If a call of this kind and this number fails, this many reads and writes of the steps fail, and the
// last key is found.
fn goes_on(rt: &impl Abort, alloc: Global, call: Call, number: u64, count: u8, failed: (u32, u32))
    requires { count ≤ 20 }
{
    let merged = merge_long(rt, alloc, count, call, number);
    let outcome = (32 + u32::from(count), failed.0, failed.1);
    let place = u32::from(count).saturating_sub(1);
    same_in(rt, &merged, &(outcome, Some(Some(place))), &(number, count));
}

// One read takes at most 65,536 bytes, which are 15 slots or 15 entries. So the 16 slots of each
// region take two reads, in its rebuild and in the steps, and twenty entries take two. Then one
// read finds the last key. A failed read is made again. The digest of the entries takes one read before the steps.
#[test]
fn reads_slots_and_entries_in_pieces(rt: HostRuntime) {
    let alloc = rt.alloc();
    goes_on(&rt, alloc, Call::Read, 6, 20, (1, 0));
    goes_on(&rt, alloc, Call::Read, 9, 20, (1, 0));
    goes_on(&rt, alloc, Call::Read, 11, 20, (1, 0));
    goes_on(&rt, alloc, Call::Read, 13, 20, (0, 0));
    goes_on(&rt, alloc, Call::Read, 10, 15, (1, 0));
    goes_on(&rt, alloc, Call::Read, 12, 15, (0, 0));
    goes_on(&rt, alloc, Call::Write, 15, 20, (0, 1));
    goes_on(&rt, alloc, Call::Write, 16, 20, (0, 1));
}
