// Each read, write and sync of a life fails, one at a time. The device works again after it.

use crate::faults::is_failed;
use crate::kept::{after, goes_on, is_kept};
use crate::life_lines::Line;
use crate::lines::{
    ASKED_BEHIND, CONVERTED, CONVERTED_MEANWHILE, CONVERTED_MEANWHILE_TOLD, CONVERTED_TOLD,
    SWAP_MEANWHILE, SWAPS_TOLD, of_three_hash_stores,
};
use crate::script::{Printed, ask, repeated_with, replies_of};
use crate::support::{entries_of, listed, same, same_in, values_of};
use silt_device::{Call, FaultDisk, Fill, Geometry, MemDisk, MemFault, Stoppable};
use silt_fixtures::{FILLS, formatted_with, opened_on, small, stopping};
use silt_store_set::{Core, OpenFault, Refusal};
use std::alloc::{AllocError, Global};
use std::process::Abort;
use std::test::Fail;

// A life on a new disk of this geometry, and the replies to its lines if no call fails.
#[derive(Drop)]
struct Life<'a> {
    geometry: Geometry,
    lines: &'a [Line],
    printed: &'a [Printed],
}

// Which calls of a life fail, one at a time: each read, or each write and each sync. The numbers
// are exact.
#[derive(Clone, Copy)]
enum Fails {
    Reads(u64),
    Changes(u64, u64),
}

fn each_fails(rt: &impl Abort, alloc: Global, life: &Life, fails: Fails) -> Result<(), Fail> {
    match fails {
        Fails::Reads(reads) => each_read_fails(rt, alloc, life, reads),
        Fails::Changes(writes, syncs) => each_change_fails(rt, alloc, life, writes, syncs),
    }
}

// The life of these lines and others after them on a new disk of this geometry, which gets these
// replies and others after them.
fn life_fails(
    rt: &impl Abort,
    alloc: Global,
    geometry: Geometry,
    (parts, others): (&[(Line, u8)], &[Line]),
    (replies, last): (&[(Printed, u8)], &[Printed]),
    fails: Fails,
) -> Result<(), Fail> {
    let lines = repeated_with(alloc, parts, others)?;
    let printed = repeated_with(alloc, replies, last)?;
    let life = Life {
        geometry,
        lines: &lines,
        printed: &printed,
    };
    each_fails(rt, alloc, &life, fails)
}

// The life is a conversion, followed by a get, a step and three swaps.
fn conversion_fails(rt: &impl Abort, alloc: Global, fails: Fails) -> Result<(), Fail> {
    life_fails(
        rt,
        alloc,
        small()?,
        (&CONVERTED, &ASKED_BEHIND),
        (&CONVERTED_TOLD, &SWAPS_TOLD),
        fails,
    )
}

// The life is a merge beside two conversions, followed by a swap that freezes a log.
fn merge_fails(rt: &impl Abort, alloc: Global, fails: Fails) -> Result<(), Fail> {
    life_fails(
        rt,
        alloc,
        of_three_hash_stores()?,
        (&CONVERTED_MEANWHILE, &[SWAP_MEANWHILE]),
        (&CONVERTED_MEANWHILE_TOLD, &[Printed::Accepted(5)]),
        fails,
    )
}

// The call was refused with a fault of the device.
fn is_fault(rt: &impl Abort, refusal: &Refusal<MemFault>) {
    assert!(rt; matches!(refusal, Refusal::Device(_)));
}

// Opens the disk of an opening that was refused with a fault.
fn opened_after(
    rt: &impl Abort,
    alloc: Global,
    fault: OpenFault<FaultDisk>,
) -> Result<Core<FaultDisk>, Fail> {
    is_fault(rt, &fault.refusal);
    opened_on(alloc, fault.disk)
}

// Opens the store on this disk. If the opening is refused with a fault, counts the fault and opens
// the disk again.
fn opened_again(
    rt: &impl Abort,
    alloc: Global,
    disk: FaultDisk,
    faults: &mut u32,
) -> Result<Core<FaultDisk>, Fail> {
    match Core::open(alloc, disk) {
        Ok(core) => Ok(core),
        Err(fault) => {
            *faults = faults.saturating_add(1);
            opened_after(rt, alloc, fault)
        }
    }
}

// The reply to a line, which is asked once more after a fault, and whether there was one.
fn asked_again(
    alloc: Global,
    core: &mut Core<FaultDisk>,
    line: Line,
) -> Result<(Printed, bool), Fail> {
    let printed = ask(alloc, core, line)?;
    if printed == Printed::Refused(5) {
        return Ok((ask(alloc, core, line)?, true));
    }
    Ok((printed, false))
}

// The values of the keys 0 to 7 in the list of the entries. A list that is refused with a fault is
// asked for once more. Returns whether that was so.
fn listed_again(
    rt: &impl Abort,
    alloc: Global,
    core: &Core<FaultDisk>,
) -> Result<([u16; 8], bool), Fail> {
    match core.entries(alloc) {
        Ok(entries) => Ok((values_of(&entries), false)),
        Err(refusal) => {
            is_fault(rt, &refusal);
            Ok((listed(alloc, core)?, true))
        }
    }
}

// Asks a line and compares the reply. Returns 1 if it was refused with a fault and asked again,
// else 0.
fn ask_one(
    rt: &impl Abort,
    alloc: Global,
    core: &mut Core<FaultDisk>,
    line: Line,
    expected: Printed,
) -> Result<u32, Fail> {
    let (printed, is_again) = asked_again(alloc, core, line)?;
    same(rt, &printed, &expected);
    Ok(is_again as u32)
}

// Asks all lines of the life and compares the replies. Returns how many lines were refused with a
// fault and asked again.
fn ask_all(
    rt: &impl Abort,
    alloc: Global,
    core: &mut Core<FaultDisk>,
    life: &Life,
) -> Result<u32, Fail> {
    let mut faults = 0u32;
    for (line, expected) in life.lines.iter().zip(life.printed.iter()) {
        let more = ask_one(rt, alloc, core, *line, *expected)?;
        faults = faults.saturating_add(more);
    }
    Ok(faults)
}

// Asks all lines of the life and then the list of the entries. Returns how many of them were
// refused with a fault and asked again.
fn ask_and_list(
    rt: &impl Abort,
    alloc: Global,
    core: &mut Core<FaultDisk>,
    life: &Life,
) -> Result<u32, Fail> {
    let faults = ask_all(rt, alloc, core, life)?;
    let (values, is_printed) = listed_again(rt, alloc, core)?;
    same(rt, &values, &after(life.lines, u64::MAX));
    Ok(faults.saturating_add(is_printed as u32))
}

// Fails this read of the life. The call that made it is refused with the fault, and a second try
// succeeds; all other calls succeed at once. Returns how many faults there were.
fn faults_of_read(rt: &impl Abort, alloc: Global, life: &Life, number: u64) -> Result<u32, Fail> {
    let mut faults = 0;
    let disk = FaultDisk::new(formatted_with(alloc, life.geometry)?, Call::Read, number);
    let mut core = opened_again(rt, alloc, disk, &mut faults)?;
    let more = ask_and_list(rt, alloc, &mut core, life);
    drop(core);
    Ok(more?.saturating_add(faults))
}

// Fails each read of the life in turn. The life makes exactly this many reads.
fn each_read_fails(rt: &impl Abort, alloc: Global, life: &Life, reads: u64) -> Result<(), Fail> {
    for number in 1..1000u64 {
        let faults = faults_of_read(rt, alloc, life, number)?;
        same_in(rt, &(faults < 2), &true, &number);
        if faults == 0 {
            same_in(rt, &number.saturating_sub(1), &reads, &"reads");
            return Ok(());
        }
    }
    Err("reads without end".into())
}

// An opening makes four reads. All keys have one bucket, so each of the first four puts reads the
// heads of all rows before its own. The fifth finds the log full. The conversion reads one row for
// each of the four slots that are not empty. The get reads a row of the active log and two slots.
// The first swap reads these too, and then the head of that row. Each other swap reads the last rows
// of the active log's two keys, and then their heads. The list reads all four rows, eight slots and
// four values.
#[test]
fn each_read_of_a_conversion_fails(rt: HostRuntime) -> Result<(), Fail> {
    conversion_fails(
        &rt,
        rt.alloc(),
        Fails::Reads(4 + 6 + 4 + 3 + 4 + 2 * 4 + 16),
    )
}

// Each log has one row, so no put reads. Each of three conversions reads one row. The merge reads
// all slots at once, and then one value. The gets read the active log's row, and then the newest
// hash store's. The swap reads these too; its log is full. The list reads the entry, sixteen slots
// and two values, and the rows of two logs.
#[test]
fn each_read_of_a_merge_fails(rt: HostRuntime) -> Result<(), Fail> {
    merge_fails(&rt, rt.alloc(), Fails::Reads(4 + 3 + 2 + 3 + 2 + 21))
}

// The write or sync that fails, and the fill of the crash after the life, if there is one.
#[derive(Clone, Copy)]
struct Failing {
    call: Call,
    number: u64,
    stop: Option<Fill>,
}

// Compares one reply, and returns whether the store has failed by then. Before the fault the
// replies are the life's own. After it all are refused Failed.
fn has_failed_with(
    rt: &impl Abort,
    has_failed: bool,
    printed: Printed,
    expected: Printed,
    number: u64,
) -> bool {
    if has_failed {
        same_in(rt, &printed, &Printed::Refused(9), &number);
        return true;
    }
    if printed == Printed::Refused(5) {
        return true;
    }
    same_in(rt, &printed, &expected, &number);
    false
}

// Compares all replies with those due around one fault. Returns whether there was a fault.
fn prints_once(rt: &impl Abort, life: &Life, printed: &[Printed], number: u64) -> bool {
    same(rt, &printed.len(), &life.printed.len());
    let mut has_failed = false;
    for (printed, expected) in printed.iter().zip(life.printed.iter()) {
        has_failed = has_failed_with(rt, has_failed, *printed, *expected, number);
    }
    has_failed
}

// Runs the life on a disk on which this write or sync fails: the disk, the replies, and whether the
// call was made.
fn lived(
    rt: &impl Abort,
    alloc: Global,
    life: &Life,
    disk: MemDisk,
    failing: Failing,
) -> Result<(MemDisk, Vec<Printed>, bool), Fail> {
    let disk = FaultDisk::new(disk, failing.call, failing.number);
    match Core::open(alloc, disk) {
        Ok(core) => answered(rt, alloc, life, core, failing.number),
        Err(fault) => {
            same_in(rt, &fault.refusal.label().0, &5, &failing.number);
            Ok((fault.disk.into_disk(), Vec::new(alloc), true))
        }
    }
}

// Runs the life in an opened store whose write or sync of this number fails: the disk, the replies,
// and whether the call was made.
fn answered(
    rt: &impl Abort,
    alloc: Global,
    life: &Life,
    mut core: Core<FaultDisk>,
    number: u64,
) -> Result<(MemDisk, Vec<Printed>, bool), Fail> {
    let answers = answers(rt, alloc, life, &mut core, number);
    with_disk(core.close().into_disk(), answers)
}

// Joins a disk and the replies of its store.
fn with_disk(
    disk: MemDisk,
    answers: Result<(Vec<Printed>, bool), AllocError>,
) -> Result<(MemDisk, Vec<Printed>, bool), Fail> {
    let (printed, is_made) = answers?;
    Ok((disk, printed, is_made))
}

fn answers(
    rt: &impl Abort,
    alloc: Global,
    life: &Life,
    core: &mut Core<FaultDisk>,
    number: u64,
) -> Result<(Vec<Printed>, bool), AllocError> {
    let printed = replies_of(alloc, core, life.lines)?;
    let is_made = prints_once(rt, life, &printed, number);
    has_failed(rt, alloc, core, is_made);
    Ok((printed, is_made))
}

// If the failing call was made, the store is failed.
fn has_failed(rt: &impl Abort, alloc: Global, core: &mut Core<FaultDisk>, is_made: bool) {
    if is_made {
        is_failed(rt, alloc, core);
    }
}

// The disk after a crash, if there is one.
fn stopped(disk: MemDisk, stop: Option<Fill>) -> MemDisk {
    match stop {
        Some(_) => disk.restart(),
        None => disk,
    }
}

fn keeps(rt: &impl Abort, life: &Life, printed: &[Printed], found: [u16; 8], number: u64) {
    assert!(rt;
        is_kept(life.lines, printed, found),
        "{found:?} call {number}"
    );
}

// Fails this write or sync of the life. From then on every call is refused. The next opening, with
// or without a crash before it, finds what is kept, and the store goes on from there. Returns
// whether the call was made.
fn change_fails(
    rt: &impl Abort,
    alloc: Global,
    life: &Life,
    failing: Failing,
) -> Result<bool, Fail> {
    let disk = armed(alloc, life.geometry, failing.stop.unwrap_or(Fill::Old))?;
    let (disk, printed, is_made) = lived(rt, alloc, life, disk, failing)?;
    let disk = stopped(disk, failing.stop);
    goes_on_after(rt, alloc, life, disk, &printed, failing.number)?;
    Ok(is_made)
}

// A new disk of this geometry. Its next three lives end with crashes of this fill.
fn armed(alloc: Global, geometry: Geometry, fill: Fill) -> Result<MemDisk, Fail> {
    let stops = stopping(alloc, &[(0, fill), (0, fill), (0, fill)])?;
    Ok(formatted_with(alloc, geometry)?.arm(stops))
}

// The next opening finds what is kept, and the store goes on from there.
fn goes_on_after(
    rt: &impl Abort,
    alloc: Global,
    life: &Life,
    disk: MemDisk,
    printed: &[Printed],
    number: u64,
) -> Result<(), Fail> {
    let (disk, found) = entries_of(alloc, disk)?;
    keeps(rt, life, printed, found, number);
    goes_on(rt, alloc, disk, life.geometry, found)
}

// Fails each call of a kind in turn. The life makes exactly this many, and ends with this crash.
fn each_of_a_kind_fails(
    rt: &impl Abort,
    alloc: Global,
    life: &Life,
    (call, calls): (Call, u64),
    stop: Option<Fill>,
) -> Result<(), Fail> {
    for number in 1..calls.saturating_add(2) {
        let failing = Failing { call, number, stop };
        let is_made = change_fails(rt, alloc, life, failing)?;
        same_in(rt, &is_made, &(number <= calls), &number);
    }
    Ok(())
}

// Fails each call of a kind in turn: without a crash after the life, and with each fill.
fn each_stopped_of_a_kind_fails(
    rt: &impl Abort,
    alloc: Global,
    life: &Life,
    kind: (Call, u64),
) -> Result<(), Fail> {
    each_of_a_kind_fails(rt, alloc, life, kind, None)?;
    for fill in FILLS {
        each_of_a_kind_fails(rt, alloc, life, kind, Some(fill))?;
    }
    Ok(())
}

// Fails each write and each sync in turn, of which there are exactly this many.
fn each_change_fails(
    rt: &impl Abort,
    alloc: Global,
    life: &Life,
    writes: u64,
    syncs: u64,
) -> Result<(), Fail> {
    each_stopped_of_a_kind_fails(rt, alloc, life, (Call::Write, writes))?;
    each_stopped_of_a_kind_fails(rt, alloc, life, (Call::Sync, syncs))
}

// The writes and syncs of the conversion, 46 in all. The opening makes a sync. Five puts and three
// swaps make sixteen writes. The flush before the freeze makes one write and two syncs, the clearing
// of the next log one of each, and the manifest three of each. The last flush makes one write and
// two syncs. The eight slots take a write each. The last step makes a sync, and writes the manifest
// again.
const OF_A_CONVERSION: (u64, u64) = (16 + 1 + 1 + 3 + 1 + 8 + 3, 1 + 2 + 1 + 3 + 2 + 1 + 3);

// The writes and syncs of the merge, 108 in all. The opening makes a sync. Four puts and the swap
// make ten writes. Each of four freezes makes five writes and six syncs, and each of three
// conversions eleven writes and four syncs. One key becomes an entry, by one write. The last step
// makes three writes and four syncs.
const OF_A_MERGE: (u64, u64) = (10 + 4 * 5 + 3 * 11 + 1 + 3, 1 + 4 * 6 + 3 * 4 + 4);

// The writes and syncs to fail, which are this many calls in all.
fn are_calls(rt: &impl Abort, (writes, syncs): (u64, u64), calls: u64) -> Fails {
    same(rt, &writes.saturating_add(syncs), &calls);
    Fails::Changes(writes, syncs)
}

#[test]
fn each_change_of_a_conversion_fails(rt: HostRuntime) -> Result<(), Fail> {
    let fails = are_calls(&rt, OF_A_CONVERSION, 46);
    conversion_fails(&rt, rt.alloc(), fails)
}

#[test]
fn each_change_of_a_merge_fails(rt: HostRuntime) -> Result<(), Fail> {
    let fails = are_calls(&rt, OF_A_MERGE, 108);
    merge_fails(&rt, rt.alloc(), fails)
}
