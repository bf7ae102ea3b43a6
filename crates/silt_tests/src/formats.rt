// A crash at each call of a formatting, on a device of zeros and on one that holds a store, of
// either version.

use crate::kept::goes_on;
use crate::lines::{MERGED_TWICE, of_two_hash_stores};
use crate::read_counts::after_lines;
use crate::support::{entries_of, listed, same, same_in, stopping_first};
use silt_device::{Fill, Geometry, MemDisk, MemFault, Stop, Stoppable};
use silt_fixtures::{FILLS, SMALL_LEN, as_version_1, small};
use silt_recovery::{FormatError, FormatFault, format};
use silt_store_set::Core;
use std::alloc::Global;
use std::process::Abort;
use std::test::Fail;

// How many writes and syncs a formatting makes. The last but one opens the header's commit byte, at offset 0.
const FORMAT_CALLS: u32 = 15;

// Whether the header's commit byte is open for the new store after this crash.
fn is_opened(stop: Stop) -> bool {
    let is_shown = matches!(stop.fill, Fill::New | Fill::Mix);
    is_answered(stop) || FORMAT_CALLS - 1 <= stop.k && is_shown
}

// Whether the formatting ends before this crash.
fn is_answered(stop: Stop) -> bool {
    stop.k == 0 || stop.k > FORMAT_CALLS
}

// Whether the crash leaves the header's old commit byte open. Call 1 writes a zero over it, and call 2 is
// the sync.
fn is_old(stop: Stop) -> bool {
    0 < stop.k && stop.k < 3 && stop.fill == Fill::Old
}

// What an opening of a device that was zeros finds after this crash: an empty store, or the refusal
// NotFormatted.
fn left_on_zeros(stop: Stop) -> Result<[u16; 8], u32> {
    if is_opened(stop) { Ok([0; 8]) } else { Err(1) }
}

// Formats a disk as a small store, with this crash. Returns the disk after the crash, and whether
// the formatting succeeded. The next two lives end with crashes of the same fill.
fn formatted_until(alloc: Global, disk: MemDisk, stop: Stop) -> Result<(MemDisk, bool), Fail> {
    let geometry = small()?;
    let stops = stopping_first(alloc, stop)?;
    match format(alloc, disk.arm(stops), geometry) {
        Ok(disk) => Ok((disk.restart(), true)),
        Err(fault) => stopped_by(fault),
    }
}

// The disk after the crash that ended a formatting.
fn stopped_by(fault: FormatFault<MemDisk>) -> Result<(MemDisk, bool), Fail> {
    is_fault(&fault.error)?;
    Ok((fault.disk.restart(), false))
}

// The formatting ended with a fault of the device, else an error.
fn is_fault(error: &FormatError<MemFault>) -> Result<(), Fail> {
    match error {
        FormatError::Device(_) => Ok(()),
        _ => Err("no device fault".into()),
    }
}

// What an opening finds: the values of the keys 0 to 7, if there are no other keys, or the number of its refusal.
type Found = Result<[u16; 8], u32>;

// Joins a disk and what was found on it.
fn with_found(disk: MemDisk, values: Result<[u16; 8], Fail>) -> Result<(MemDisk, Found), Fail> {
    Ok((disk, Ok(values?)))
}

fn found_on(alloc: Global, disk: MemDisk) -> Result<(MemDisk, Found), Fail> {
    match Core::open(alloc, disk) {
        Ok(core) => {
            let values = listed(alloc, &core);
            with_found(core.close(), values)
        }
        Err(fault) => Ok((fault.disk, Err(fault.refusal.label().0))),
    }
}

// Formats a device of zeros with this crash: whether the formatting succeeded, and what an opening
// then finds.
fn left_of_zeros(alloc: Global, stop: Stop) -> Result<(bool, Found), Fail> {
    let disk = MemDisk::new(alloc, SMALL_LEN)?;
    let (disk, answered) = formatted_until(alloc, disk, stop)?;
    let (_, found) = found_on(alloc, disk)?;
    Ok((answered, found))
}

// Tries each fill of a crash at this call in a formatting of zeros.
fn formatting_stopped_at(rt: &impl Abort, alloc: Global, k: u32) -> Result<(), Fail> {
    for fill in FILLS {
        let stop = Stop { k, fill };
        let left = left_of_zeros(alloc, stop)?;
        same_in(rt, &left, &(is_answered(stop), left_on_zeros(stop)), &stop);
    }
    Ok(())
}

// A crash before the call that opens the header's commit byte leaves no store. A later one leaves an empty
// store, or none.
#[test]
fn formatting_stopped_anywhere(rt: HostRuntime) -> Result<(), Fail> {
    for k in 0..FORMAT_CALLS + 2 {
        formatting_stopped_at(&rt, rt.alloc(), k)?;
    }
    Ok(())
}

// The values in the old store: two hash stores were merged, and a put is in a log.
const OLD_VALUES: [u16; 8] = [0, 0, 0x0304, 0x0506, 0, 0, 0, 0];

// What an opening finds after this crash in a formatting over an old store. As long as the header's
// old commit byte is open, it finds the whole old store. Then it finds none, and at the end the new, empty
// one.
fn left_over(stop: Stop) -> Found {
    if is_opened(stop) {
        Ok([0; 8])
    } else if is_old(stop) {
        Ok(OLD_VALUES)
    } else {
        Err(1)
    }
}

// The geometry of the store that is found, old or new.
fn geometry_after(stop: Stop) -> Result<Geometry, Fail> {
    if is_opened(stop) {
        small()
    } else {
        of_two_hash_stores()
    }
}

// Formats an old store with this crash. Returns the disk, and what an opening then finds.
fn found_over(alloc: Global, old: &[u8], stop: Stop) -> Result<(MemDisk, Found), Fail> {
    let disk = MemDisk::with_bytes(alloc, old)?;
    let (disk, _answered) = formatted_until(alloc, disk, stop)?;
    found_on(alloc, disk)
}

// Formats an old store of another geometry with this crash. The next lives go on from what is
// found, without old rows.
fn formatted_over(rt: &impl Abort, alloc: Global, old: &[u8], stop: Stop) -> Result<(), Fail> {
    let geometry = geometry_after(stop)?;
    let (disk, found) = found_over(alloc, old, stop)?;
    same_in(rt, &found, &left_over(stop), &stop);
    match found {
        Ok(values) => goes_on(rt, alloc, disk, geometry, values),
        Err(_) => formatted_again(rt, alloc, disk, stop.fill),
    }
}

// Formats a device that holds no store, and the store goes on from there.
fn formatted_again(rt: &impl Abort, alloc: Global, disk: MemDisk, fill: Fill) -> Result<(), Fail> {
    let geometry = small()?;
    let (disk, answered) = formatted_until(alloc, disk, Stop { k: 0, fill })?;
    same(rt, &answered, &true);
    goes_on(rt, alloc, disk, geometry, [0; 8])
}

// A disk with the old store.
fn old_disk(alloc: Global) -> Result<MemDisk, Fail> {
    after_lines(alloc, of_two_hash_stores()?, &MERGED_TWICE)
}

// Tries each fill of a crash at this call in a formatting over these bytes.
fn each_fill_over(rt: &impl Abort, alloc: Global, old: &[u8], k: u32) -> Result<(), Fail> {
    for fill in FILLS {
        formatted_over(rt, alloc, old, Stop { k, fill })?;
    }
    Ok(())
}

// Tries each crash in a formatting over these bytes.
fn each_formatted_over(rt: &impl Abort, alloc: Global, old: &[u8]) -> Result<(), Fail> {
    same(rt, &old.len(), &SMALL_LEN);
    for k in 0..FORMAT_CALLS + 2 {
        each_fill_over(rt, alloc, old, k)?;
    }
    Ok(())
}

#[test]
fn formatting_over_a_store_stopped_anywhere(rt: HostRuntime) -> Result<(), Fail> {
    let (disk, left) = entries_of(rt.alloc(), old_disk(rt.alloc())?)?;
    same(&rt, &left, &OLD_VALUES);
    let formatted = each_formatted_over(&rt, rt.alloc(), disk.shown());
    drop(disk);
    formatted
}

// The bytes of the old store on a device of version 1.
fn old_bytes_of_version_1(alloc: Global) -> Result<Vec<u8>, Fail> {
    let disk = old_disk(alloc)?;
    let old = as_version_1(alloc, disk.shown());
    drop(disk);
    old
}

// The same if the old store is on a device of version 1, without digests.
#[test]
fn formatting_over_an_old_store_stopped_anywhere(rt: HostRuntime) -> Result<(), Fail> {
    let old = old_bytes_of_version_1(rt.alloc())?;
    each_formatted_over(&rt, rt.alloc(), &old)
}
