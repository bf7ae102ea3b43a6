// A crash at each device call of long lives, with each fill, on devices of version 1. test_sweeps.py
// does that on devices of version 2, which a script makes; here one fill is tried on these too.

use crate::kept::{goes_on, is_kept};
use crate::life_lines::Line;
use crate::lines::{
    CONVERTED, CONVERTED_MEANWHILE, MERGED_TWICE, SWAP_MEANWHILE, SWAP_MEANWHILE_FOR_NONE,
    SWAP_MERGED, SWAPS_CONVERTED, of_three_hash_stores, of_two_hash_stores,
};
use crate::script::{Printed, live, repeated, repeated_with};
use crate::support::{entries_of, same_in, stopping_first};
use silt_device::{Fill, Geometry, MemDisk, Stop, Stoppable};
use silt_fixtures::{FILLS, as_version_1, blank, small};
use std::alloc::Global;
use std::process::Abort;
use std::test::Fail;

// Lines that a store of this geometry is asked, and how many device calls they make with its opening.
#[derive(Drop)]
struct Life<'a> {
    geometry: Geometry,
    lines: &'a [Line],
    calls: u32,
}

// A long life and swaps after it, and how many calls the life and the swaps make.
#[derive(Drop)]
struct Swapped<'a> {
    geometry: Geometry,
    parts: &'a [(Line, u8)],
    calls: u32,
    swaps: &'a [Line],
    more: u32,
}

// Whether the opening or a line was refused with the device's fault.
fn was_stopped(printed: &[Printed]) -> bool {
    printed.iter().any(|reply| matches!(reply, Printed::Refused(5) | Printed::NotOpened(5)))
}

// Runs the life on a disk of these bytes, with this crash: the disk after it, and the replies. The
// next two lives end with crashes of the same fill.
fn lived(
    rt: &impl Abort,
    alloc: Global,
    new: &[u8],
    lines: &[Line],
    stop: Stop,
) -> (MemDisk, Vec<Printed>) {
    let stops = stopping_first(alloc, stop).expect(rt, "memory");
    let disk = MemDisk::with_bytes(alloc, new).expect(rt, "memory");
    let (disk, printed) = live(alloc, disk.arm(stops), lines).expect(rt, "memory");
    (disk.restart(), printed)
}

fn keeps(rt: &impl Abort, lines: &[Line], printed: &[Printed], found: [u16; 8], stop: Stop) {
    assert!(rt; is_kept(lines, printed, found), "{found:?} {stop:?}");
}

// The next opening finds what is kept, and the store goes on from there.
fn goes_on_after(
    rt: &impl Abort,
    alloc: Global,
    life: &Life,
    disk: MemDisk,
    printed: &[Printed],
    stop: Stop,
) -> Result<(), Fail> {
    let (disk, found) = entries_of(alloc, disk)?;
    keeps(rt, life.lines, printed, found, stop);
    goes_on(rt, alloc, disk, life.geometry, found)
}

// Runs the life with this crash, compares what the next life finds, and goes on from there. Returns
// whether the crash was within the life.
fn stopped_at(
    rt: &impl Abort,
    alloc: Global,
    life: &Life,
    new: &[u8],
    stop: Stop,
) -> Result<bool, Fail> {
    let (disk, printed) = lived(rt, alloc, new, life.lines, stop);
    goes_on_after(rt, alloc, life, disk, &printed, stop)?;
    Ok(was_stopped(&printed))
}

// Crashes the life at this call, with each of these fills.
fn sweep_call(
    rt: &impl Abort,
    alloc: Global,
    life: &Life,
    new: &[u8],
    k: u32,
    fills: &[Fill],
) -> Result<(), Fail> {
    for fill in fills {
        let stop = Stop { k, fill: *fill };
        let stopped = stopped_at(rt, alloc, life, new, stop)?;
        same_in(rt, &stopped, &(0 < k && k <= life.calls), &stop);
    }
    Ok(())
}

// Crashes the life at each of its calls and at its end, with each of these fills, on a disk of these
// bytes. It makes exactly its number of calls.
fn sweep(
    rt: &impl Abort,
    alloc: Global,
    life: &Life,
    new: &[u8],
    fills: &[Fill],
) -> Result<(), Fail> {
    for k in 0..life.calls.saturating_add(2) {
        sweep_call(rt, alloc, life, new, k, fills)?;
    }
    Ok(())
}

// The life without its swaps makes exactly its number of calls on a disk of these bytes.
fn makes_calls(rt: &impl Abort, alloc: Global, life: &Swapped, new: &[u8]) -> Result<(), Fail> {
    let lines = repeated(alloc, life.parts)?;
    let alone = Life {
        geometry: life.geometry,
        lines: &lines,
        calls: life.calls,
    };
    for k in [life.calls, life.calls.saturating_add(1)] {
        sweep_call(rt, alloc, &alone, new, k, &[Fill::New])?;
    }
    Ok(())
}

// Crashes the life with its swaps at each call, on a disk of these bytes.
fn sweep_swapped(
    rt: &impl Abort,
    alloc: Global,
    life: &Swapped,
    new: &[u8],
    fills: &[Fill],
) -> Result<(), Fail> {
    let lines = repeated_with(alloc, life.parts, life.swaps)?;
    let whole = Life {
        geometry: life.geometry,
        lines: &lines,
        calls: life.calls.saturating_add(life.more),
    };
    sweep(rt, alloc, &whole, new, fills)
}

// Sweeps a new disk of each version. The life makes as many calls on both.
fn sweep_both(rt: &impl Abort, alloc: Global, life: &Swapped) -> Result<(), Fail> {
    let new = blank(alloc, life.geometry)?;
    let old = as_version_1(alloc, &new)?;
    makes_calls(rt, alloc, life, &new)?;
    makes_calls(rt, alloc, life, &old)?;
    sweep_swapped(rt, alloc, life, &new, &[Fill::Mix])?;
    sweep_swapped(rt, alloc, life, &old, &FILLS)
}

#[test]
fn conversion_stopped_anywhere(rt: HostRuntime) -> Result<(), Fail> {
    let life = Swapped {
        geometry: small()?,
        parts: &CONVERTED,
        calls: 40,
        swaps: &SWAPS_CONVERTED,
        more: 6,
    };
    sweep_both(&rt, rt.alloc(), &life)
}

#[test]
fn two_merges_stopped_anywhere(rt: HostRuntime) -> Result<(), Fail> {
    let life = Swapped {
        geometry: of_two_hash_stores()?,
        parts: &MERGED_TWICE,
        calls: 106,
        swaps: &[SWAP_MERGED],
        more: 10,
    };
    sweep_both(&rt, rt.alloc(), &life)
}

#[test]
fn merge_beside_conversions_stopped_anywhere(rt: HostRuntime) -> Result<(), Fail> {
    let life = Swapped {
        geometry: of_three_hash_stores()?,
        parts: &CONVERTED_MEANWHILE,
        calls: 95,
        swaps: &[SWAP_MEANWHILE, SWAP_MEANWHILE_FOR_NONE],
        more: 26,
    };
    sweep_both(&rt, rt.alloc(), &life)
}
