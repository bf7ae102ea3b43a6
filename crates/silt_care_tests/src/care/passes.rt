// What a pass finds.

use crate::care::{Ear, Heard, Rotten, merge_all, put_and_convert, same, told_of, view_of};
use silt_care::{Finding, Pace, Scrub, Scrubbed};
use silt_device::MemDisk;
use silt_event::Place;
use silt_fixtures::{changed, formatted_with, of_regions, opened_on};
use silt_manifest::Body;
use std::alloc::Global;
use std::test::Fail;
use std::time::Clock;

// How many megabytes a second a test reads at most, if time does not matter.
const FAST: u32 = 1_000;

// The most that is asked whether to go on.
const ALWAYS: u32 = 1_000_000;

// The bytes of a store with a sorted store of 4 entries and two hash stores of 8 slots each.
fn filled(alloc: Global) -> Result<Vec<u8>, Fail> {
    let mut core = opened_on(alloc, formatted_with(alloc, of_regions(4, 3, 3, 16)?)?)?;
    put_and_convert(alloc, &mut core, &[1, 2, 3, 4, 5])?;
    merge_all(alloc, &mut core);
    put_and_convert(alloc, &mut core, &[6, 7, 8, 9])?;
    put_and_convert(alloc, &mut core, &[10, 11, 12, 13])?;
    core.flush().ok().ok_or("flushes")?;
    Ok(core.close().shown().to_vec(alloc)?)
}

// A view of this store whose device has these changes.
fn rotten(alloc: Global, bytes: &[u8], changes: &[(usize, u8)]) -> Result<Rotten, Fail> {
    let disk = MemDisk::with_bytes(alloc, &changed(alloc, bytes, changes)?)?;
    let core = opened_on(alloc, MemDisk::with_bytes(alloc, bytes)?)?;
    view_of(alloc, core, bytes, disk)
}

// The byte before the last of a region that begins here and has this many bytes, changed to a value that it has not.
fn change_near_end(bytes: &[u8], at: u64, len: u64) -> Result<(usize, u8), Fail> {
    let end = at.checked_add(len).ok_or("a place inside")?;
    let place = end.checked_sub(2).ok_or("a place inside")? as usize;
    let byte = *bytes.get(place).ok_or("a place inside")?;
    Ok((place, byte ^ 0x20))
}

// One pass, with what was heard.
fn pass<R: Clock>(
    rt: &R,
    alloc: Global,
    view: Rotten,
    most: u32,
) -> Result<(Scrubbed, Heard), Fail> {
    let mut ear = Ear::new(most);
    let scrub = Scrub {
        rt,
        view: &view,
        pace: Pace::new(FAST),
    };
    let scrubbed = scrub.pass(alloc, &mut ear)?;
    Ok((scrubbed, ear.heard))
}

// A pass over a view of these bytes whose device has these changes, and refuses the reads that begin here.
fn pass_over<R: Clock>(
    rt: &R,
    alloc: Global,
    bytes: &[u8],
    changes: &[(usize, u8)],
    refused_at: Option<u64>,
    most: u32,
) -> Result<(Scrubbed, Heard), Fail> {
    let mut view = rotten(alloc, bytes, changes)?;
    view.refused_at = refused_at;
    pass(rt, alloc, view, most)
}

// A pass, while a merge ends when the first hash store is read.
fn pass_while_merged<R: Clock>(
    rt: &R,
    alloc: Global,
    bytes: &[u8],
    changes: &[(usize, u8)],
) -> Result<(Scrubbed, Heard), Fail> {
    let mut view = rotten(alloc, bytes, changes)?;
    merge_all(alloc, &mut view.later);
    view.changes_at = 0;
    pass(rt, alloc, view, ALWAYS)
}

// The record of the store of these bytes.
fn named_in(alloc: Global, bytes: &[u8]) -> Result<Body, Fail> {
    let core = opened_on(alloc, MemDisk::with_bytes(alloc, bytes)?)?;
    Ok(core.named().0)
}

// What a pass did that read all of a filled store, and heard of these findings.
fn whole(findings: u64, first: Option<Finding>) -> Scrubbed {
    Scrubbed {
        stores: 3,
        bytes: 2 * 8 * 23 + 4 * 22,
        skipped: 0,
        findings,
        first,
        has_ended: false,
    }
}

#[test]
fn a_sound_store_has_no_finding(rt: HostRuntime) -> Result<(), Fail> {
    let alloc = rt.alloc();
    let bytes = filled(alloc)?;
    let body = named_in(alloc, &bytes)?;
    same(&rt, &body.hashed.len(), &2);
    same(&rt, &body.sorted_count, &4);
    let (scrubbed, told) = pass_over(&rt, alloc, &bytes, &[], None, ALWAYS)?;
    same(&rt, &scrubbed, &whole(0, None));
    same(&rt, &told, &told_of(0, None, None));
    Ok(())
}

// The first hash store of a filled store, and the changes of a byte in it and in the sorted store.
fn changes_in(alloc: Global, bytes: &[u8]) -> Result<(u32, (usize, u8), (usize, u8)), Fail> {
    let body = named_in(alloc, bytes)?;
    let geometry = of_regions(4, 3, 3, 16)?;
    let region = *body.hashed.as_slice().iter().min().ok_or("a hash store")?;
    if region >= geometry.hashes() || body.sorted >= 2 {
        return Err("regions of the device")?;
    }
    let in_hash = change_near_end(bytes, geometry.hash_at(region), 8 * 23)?;
    let in_sorted = change_near_end(bytes, geometry.sorted_at(body.sorted), 4 * 22)?;
    Ok((region, in_hash, in_sorted))
}

#[test]
fn changed_bytes_are_found_at_their_places(rt: HostRuntime) -> Result<(), Fail> {
    let alloc = rt.alloc();
    let bytes = filled(alloc)?;
    let (region, in_hash, in_sorted) = changes_in(alloc, &bytes)?;
    let hash = Some(Finding::Damaged(Place::HashDigest(region)));
    let sorted = Some(Finding::Damaged(Place::SortedDigest));
    let (scrubbed, told) = pass_over(&rt, alloc, &bytes, &[in_hash], None, ALWAYS)?;
    same(&rt, &scrubbed, &whole(1, hash));
    same(&rt, &told, &told_of(1, hash, None));
    let (scrubbed, told) = pass_over(&rt, alloc, &bytes, &[in_sorted], None, ALWAYS)?;
    same(&rt, &scrubbed, &whole(1, sorted));
    same(&rt, &told, &told_of(1, sorted, None));
    let (scrubbed, told) = pass_over(&rt, alloc, &bytes, &[in_hash, in_sorted], None, ALWAYS)?;
    same(&rt, &scrubbed, &whole(2, hash));
    same(&rt, &told, &told_of(2, hash, sorted));
    Ok(())
}

// Where the sorted store of these bytes begins.
fn sorted_at(alloc: Global, bytes: &[u8]) -> Result<u64, Fail> {
    let sorted = named_in(alloc, bytes)?.sorted;
    if sorted >= 2 {
        return Err("a region of the device")?;
    }
    Ok(of_regions(4, 3, 3, 16)?.sorted_at(sorted))
}

#[test]
fn a_refused_read_is_a_finding_of_its_own(rt: HostRuntime) -> Result<(), Fail> {
    let alloc = rt.alloc();
    let bytes = filled(alloc)?;
    let at = sorted_at(alloc, &bytes)?;
    let (scrubbed, told) = pass_over(&rt, alloc, &bytes, &[], Some(at), ALWAYS)?;
    same(&rt, &scrubbed.findings, &1);
    same(&rt, &scrubbed.stores, &2);
    let unread = Some(Finding::Unread(Place::SortedDigest));
    same(&rt, &told, &told_of(1, unread, None));
    Ok(())
}

#[test]
fn what_a_merge_frees_meanwhile_is_skipped(rt: HostRuntime) -> Result<(), Fail> {
    let alloc = rt.alloc();
    let bytes = filled(alloc)?;
    let (_, in_hash, _) = changes_in(alloc, &bytes)?;
    let (scrubbed, told) = pass_while_merged(&rt, alloc, &bytes, &[in_hash])?;
    same(&rt, &scrubbed.skipped, &1);
    // The second hash store is gone too. The device of the view has none of what the merge wrote.
    same(&rt, &scrubbed.stores, &1);
    let sorted = Some(Finding::Damaged(Place::SortedDigest));
    same(&rt, &told, &told_of(1, sorted, None));
    Ok(())
}

#[test]
fn a_pass_ends_when_it_is_told(rt: HostRuntime) -> Result<(), Fail> {
    let alloc = rt.alloc();
    let bytes = filled(alloc)?;
    let (scrubbed, told) = pass_over(&rt, alloc, &bytes, &[], None, 2)?;
    same(&rt, &scrubbed.stores, &2);
    same(&rt, &scrubbed.has_ended, &true);
    same(&rt, &told, &told_of(0, None, None));
    Ok(())
}
