// Disks in memory: their geometries and versions, empty stores on them, crashes at chosen calls,
// and changed bytes.

use silt_device::{Disk, Fill, Geometry, MemDisk, Stop};
use silt_frame::is_open;
use silt_recovery::format;
use silt_store_set::Core;
use std::alloc::{AllocError, Global};
use std::test::Fail;

/// What a crash may leave in the pending places of a disk in memory.
pub const FILLS: [Fill; 5] = [Fill::Old, Fill::New, Fill::Zero, Fill::Ones, Fill::Mix];

/// The length of a device of the small geometry.
pub const SMALL_LEN: usize = 45_056;

/// A geometry of values of two bytes and two buckets.
pub fn of_regions(
    log_capacity: u32,
    logs: u32,
    hashes: u32,
    sorted_capacity: u32,
) -> Result<Geometry, Fail> {
    Ok(
        Geometry::new(2, 2, log_capacity, logs, hashes, sorted_capacity)
            .ok()
            .ok_or("in limits")?,
    )
}

/// The small geometry: values of two bytes, two buckets, four rows a log.
pub fn small() -> Result<Geometry, Fail> {
    of_regions(4, 2, 2, 8)
}

/// A disk of this geometry with an empty store.
pub fn formatted_with(alloc: Global, geometry: Geometry) -> Result<MemDisk, Fail> {
    let disk = MemDisk::new(alloc, geometry.size() as usize)?;
    Ok(format(alloc, disk, geometry).ok().ok_or("formats")?)
}

/// A disk of the small geometry with an empty store.
pub fn formatted(alloc: Global) -> Result<MemDisk, Fail> {
    formatted_with(alloc, small()?)
}

/// A disk with an empty store of the small geometry, but with values of this length.
pub fn of_values(alloc: Global, value_len: u32) -> Result<MemDisk, Fail> {
    let geometry = Geometry::new(value_len, 2, 4, 2, 2, 8)
        .ok()
        .ok_or("in limits")?;
    formatted_with(alloc, geometry)
}

/// The store on this disk.
pub fn opened_on<D: Disk>(alloc: Global, disk: D) -> Result<Core<D>, Fail> {
    Ok(Core::open(alloc, disk).ok().ok_or("opens")?)
}

/// An empty store of this geometry.
pub fn opened_with(alloc: Global, geometry: Geometry) -> Result<Core<MemDisk>, Fail> {
    opened_on(alloc, formatted_with(alloc, geometry)?)
}

/// An empty store of the small geometry.
pub fn opened(alloc: Global) -> Result<Core<MemDisk>, Fail> {
    opened_with(alloc, small()?)
}

/// The bytes of an empty store of this geometry.
pub fn blank(alloc: Global, geometry: Geometry) -> Result<Vec<u8>, Fail> {
    let disk = formatted_with(alloc, geometry)?;
    Ok(disk.shown().to_vec(alloc)?)
}

/// Stops at these calls with these fills.
pub fn stopping(alloc: Global, at: &[(u32, Fill)]) -> Result<Vec<Stop>, AllocError> {
    let mut stops = Vec::new(alloc);
    for (k, fill) in at {
        stops.push(Stop { k: *k, fill: *fill })?;
    }
    Ok(stops)
}

/// Puts these bytes at their places. A place outside is an error.
pub fn change(bytes: &mut [u8], changes: &[(usize, u8)]) -> Result<(), Fail> {
    for (place, byte) in changes {
        *bytes.get_mut(*place).ok_or("a place inside")? = *byte;
    }
    Ok(())
}

/// These bytes with some of them changed.
pub fn changed(alloc: Global, whole: &[u8], changes: &[(usize, u8)]) -> Result<Vec<u8>, Fail> {
    let mut bytes = whole.to_vec(alloc)?;
    change(&mut bytes, changes)?;
    Ok(bytes)
}

// Where a device has the number of its version, and where its manifest slots begin.
const VERSION_AT: usize = 12;

const SLOTS_AT: [usize; 2] = [4096, 8192];

// Where a slot has its digests.
const DIGESTS_AT: usize = 121;

// How many bytes of a slot count.
const SLOT_LEN: usize = 461;

// Takes the digests from a slot that is open: it clears the bit that says that they follow, and the
// digests.
fn drop_digests(bytes: &mut [u8], at: usize) -> Result<(), Fail> {
    let slot = bytes
        .get_mut(at..at.saturating_add(SLOT_LEN))
        .ok_or("a slot inside")?;
    if is_open(slot[0]) {
        slot[1] &= 0x7F;
        slot[DIGESTS_AT..].fill(0);
    }
    Ok(())
}

/// The bytes of this device changed into one of version 1, without digests.
pub fn as_version_1(alloc: Global, bytes: &[u8]) -> Result<Vec<u8>, Fail> {
    let mut old = changed(alloc, bytes, &[(VERSION_AT, 1)])?;
    for at in SLOTS_AT {
        drop_digests(&mut old, at)?;
    }
    Ok(old)
}

/// The bytes of an empty store of this geometry on a device of version 1.
pub fn blank_of_version_1(alloc: Global, geometry: Geometry) -> Result<Vec<u8>, Fail> {
    let whole = blank(alloc, geometry)?;
    as_version_1(alloc, &whole)
}
