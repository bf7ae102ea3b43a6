// How fast a pass reads, and how long it waits.

use crate::care::{Ear, Rotten, put_and_convert, same, view_of};
use silt_care::{Pace, Schedule, Scrub, Scrubbed};
use silt_device::MemDisk;
use silt_disk::Geometry;
use silt_fixtures::{formatted_with, opened_on};
use std::alloc::Global;
use std::test::Fail;
use std::time::{Clock, Duration, Instant};

#[test]
fn bytes_take_their_time(rt: HostRuntime) {
    same(&rt, &Pace::new(1).micros(65_536), &65_536);
    same(&rt, &Pace::new(16).micros(65_536), &4_096);
    same(&rt, &Pace::new(3).micros(10), &4);
    same(&rt, &Pace::new(0).micros(10), &10);
    same(&rt, &Pace::new(5).micros(0), &0);
}

// A view of a store with a hash store of 16,384 slots, whose device shows an empty store.
fn large_view(alloc: Global) -> Result<Rotten, Fail> {
    let geometry = Geometry::new(2, 4096, 4, 2, 1, 8).ok().ok_or("in limits")?;
    let disk = formatted_with(alloc, geometry)?;
    let bytes = disk.shown().to_vec(alloc)?;
    let mut core = opened_on(alloc, disk)?;
    put_and_convert(alloc, &mut core, &[1, 2, 3, 4, 5])?;
    view_of(alloc, core, &bytes, MemDisk::with_bytes(alloc, &bytes)?)
}

// A pass at 4 megabytes a second, and how long it took.
fn slow_pass<R: Clock>(rt: &R, alloc: Global, view: &Rotten) -> Result<(Scrubbed, Duration), Fail> {
    let mut ear = Ear::new(1_000);
    let scrub = Scrub {
        rt,
        view,
        pace: Pace::new(4),
    };
    let began = Instant::now(rt)?;
    let scrubbed = scrub.pass(alloc, &mut ear)?;
    let took = Instant::now(rt)?.saturating_duration_since(began);
    Ok((scrubbed, took))
}

#[test]
fn a_pass_reads_no_faster_than_its_pace(rt: HostRuntime) -> Result<(), Fail> {
    let alloc = rt.alloc();
    let view = large_view(alloc)?;
    let (scrubbed, took) = slow_pass(&rt, alloc, &view)?;
    // The slots have 23 bytes each, and are read in 6 pieces. The sorted store has no byte.
    same(&rt, &scrubbed.bytes, &376_832);
    same(&rt, &view.reads.get(), &6);
    same(&rt, &(took >= Duration::from_millis(94)), &true);
    // The device of the view has none of the rows.
    same(&rt, &scrubbed.findings, &1);
    Ok(())
}

#[test]
fn a_scrub_is_due_after_ten_seconds(rt: HostRuntime) -> Result<(), Fail> {
    let began = Instant::now(&rt)?;
    let ear = Ear::new(1_000);
    same(&rt, &Schedule::new(&rt, Some(1)).comes(&rt, &ear), &true);
    let took = Instant::now(&rt)?.saturating_duration_since(began);
    same(&rt, &(took >= Duration::from_secs(10)), &true);
    Ok(())
}

#[test]
fn a_wait_ends_when_it_is_told(rt: HostRuntime) {
    let (at_once, later) = (Ear::new(0), Ear::new(3));
    same(
        &rt,
        &Schedule::new(&rt, Some(1)).comes(&rt, &at_once),
        &false,
    );
    same(&rt, &Schedule::new(&rt, None).comes(&rt, &later), &false);
}
