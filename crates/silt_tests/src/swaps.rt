// Compare and swap: how many reads it takes in which store, and failed reads.

use crate::life_lines::Line;
use crate::read_counts::{after_lines, openings_reads};
use crate::script::{Printed, ask};
use crate::support::{same, same_in};
use silt_device::{Call, FaultDisk, Geometry, MemDisk, MemFault};
use silt_fixtures::{formatted, of_regions, opened_on, small};
use silt_frame::Key;
use silt_store_set::{Core, Refusal};
use std::alloc::Global;
use std::process::Abort;
use std::test::Fail;

// The number of the accepted command, none if the value differs, or the number of the refusal.
fn swapped(answer: Result<Option<u64>, Refusal<MemFault>>) -> Result<Option<u64>, u32> {
    match answer {
        Ok(accepted) => Ok(accepted),
        Err(refusal) => Err(refusal.label().0),
    }
}

// Four keys are in the sorted store. The hash store has 5, 6, 7 and the delete of 4. The frozen log
// has 0 twice, 6 and the delete of 7. The active log has 1.
const SPREAD: [(Line, u8); 17] = [
    (Line::Put(1, 1), 1),
    (Line::Put(2, 2), 1),
    (Line::Put(3, 3), 1),
    (Line::Put(4, 4), 1),
    (Line::Put(5, 5), 1),
    (Line::Convert, 9),
    (Line::Merge, 13),
    (Line::Put(6, 6), 1),
    (Line::Put(7, 7), 1),
    (Line::Delete(4), 1),
    (Line::Put(0, 8), 1),
    (Line::Convert, 9),
    (Line::Put(6, 9), 1),
    (Line::Delete(7), 1),
    (Line::Put(0, 10), 1),
    (Line::Put(1, 11), 1),
    (Line::Flush, 1),
];

fn of_three_logs() -> Result<Geometry, Fail> {
    of_regions(4, 3, 2, 16)
}

// The device after those lines.
fn spread(alloc: Global) -> Result<MemDisk, Fail> {
    after_lines(alloc, of_three_logs()?, &SPREAD)
}

// A swap as the only line after an opening, its reply, and how many reads it makes.
type Read = (Line, Printed, u32);

// On that device all keys have one bucket. So each row of a store is a candidate, in the order of
// the slots. The active log has 1, the frozen one 0, 6, 7, and the hash store 5, 6, 7, 4. Each
// candidate takes one read, up to the key's own. The sorted store takes one if an entry begins with
// the key's first byte. An accepted swap reads one more head, since the row of 1 is a candidate for
// the place of the new row. A swap from no value, or to none, reads no more and no less.
const READS: [Read; 17] = [
    (Line::Swap(1, 11, 21), Printed::Accepted(1), 1 + 1),
    (Line::Swap(1, 1, 21), Printed::Differs, 1),
    (Line::Swap(0, 10, 20), Printed::Accepted(1), 1 + 1 + 1),
    (Line::Swap(0, 8, 20), Printed::Differs, 1 + 1),
    (Line::Swap(6, 9, 20), Printed::Accepted(1), 1 + 2 + 1),
    (Line::Swap(7, 7, 20), Printed::Differs, 1 + 3),
    (Line::Swap(5, 5, 20), Printed::Accepted(1), 1 + 3 + 1 + 1),
    (Line::Swap(4, 4, 20), Printed::Differs, 1 + 3 + 4),
    (
        Line::Swap(2, 2, 20),
        Printed::Accepted(1),
        1 + 3 + 4 + 1 + 1,
    ),
    (Line::Swap(2, 3, 20), Printed::Differs, 1 + 3 + 4 + 1),
    (Line::Swap(8, 8, 20), Printed::Differs, 1 + 3 + 4),
    (Line::Swap(8, 0, 20), Printed::Accepted(1), 1 + 3 + 4 + 1),
    (Line::Swap(4, 0, 20), Printed::Accepted(1), 1 + 3 + 4 + 1),
    (Line::Swap(0, 0, 20), Printed::Differs, 1 + 1),
    (Line::Swap(0, 10, 0), Printed::Accepted(1), 1 + 1 + 1),
    (Line::Swap(5, 5, 0), Printed::Accepted(1), 1 + 3 + 1 + 1),
    (Line::Swap(8, 8, 0), Printed::Differs, 1 + 3 + 4),
];

// A key alone in the active log takes one read of its row, and one of that row's head if the swap
// is accepted. An absent key reads that one candidate, for the comparison and for the place.
const ALONE: [(Line, u8); 2] = [(Line::Put(1, 1), 1), (Line::Flush, 1)];

const READS_ALONE: [Read; 5] = [
    (Line::Swap(1, 1, 2), Printed::Accepted(1), 2),
    (Line::Swap(1, 3, 2), Printed::Differs, 1),
    (Line::Swap(2, 3, 2), Printed::Differs, 1),
    (Line::Swap(1, 1, 0), Printed::Accepted(1), 2),
    (Line::Swap(2, 0, 2), Printed::Accepted(1), 2),
];

// An empty store has nothing to read.
const READS_OF_NOTHING: [Read; 2] = [
    (Line::Swap(1, 1, 2), Printed::Differs, 0),
    (Line::Swap(1, 0, 2), Printed::Accepted(1), 0),
];

// The replies to this line, which is asked twice, in a store on a disk of these bytes on which this
// read fails.
fn asked_twice(
    alloc: Global,
    bytes: &[u8],
    line: Line,
    number: u64,
) -> Result<(Printed, Printed), Fail> {
    let disk = FaultDisk::new(MemDisk::with_bytes(alloc, bytes)?, Call::Read, number);
    let mut core = opened_on(alloc, disk)?;
    let printed = ask_twice(alloc, &mut core, line);
    drop(core);
    printed
}

// The replies to this line, which is asked twice.
fn ask_twice(
    alloc: Global,
    core: &mut Core<FaultDisk>,
    line: Line,
) -> Result<(Printed, Printed), Fail> {
    let first = ask(alloc, core, line)?;
    let second = ask(alloc, core, line)?;
    Ok((first, second))
}

// Fails each read of the swap in turn. The swap is refused with the fault, and a second try gets
// its own reply. It makes no further read: if that one fails, the first reply is its own.
fn makes_reads(
    rt: &impl Abort,
    alloc: Global,
    bytes: &[u8],
    opening: u32,
    (line, reply, reads): Read,
) -> Result<(), Fail> {
    for number in 1..reads.saturating_add(1) {
        let printed = asked_twice(alloc, bytes, line, opening.saturating_add(number) as u64)?;
        same_in(rt, &printed, &(Printed::Refused(5), reply), &(line, number));
    }
    let behind = opening.saturating_add(reads).saturating_add(1) as u64;
    let (printed, _) = asked_twice(alloc, bytes, line, behind)?;
    same_in(rt, &printed, &reply, &line);
    Ok(())
}

// After an opening of this device each of these swaps makes exactly its number of reads.
fn each_makes_reads(
    rt: &impl Abort,
    alloc: Global,
    disk: MemDisk,
    all: &[Read],
) -> Result<(), Fail> {
    let made = all_make_reads(rt, alloc, disk.shown(), all);
    drop(disk);
    made
}

fn all_make_reads(rt: &impl Abort, alloc: Global, bytes: &[u8], all: &[Read]) -> Result<(), Fail> {
    let opening = openings_reads(alloc, bytes)?;
    for read in all {
        makes_reads(rt, alloc, bytes, opening, *read)?;
    }
    Ok(())
}

#[test]
fn each_read_of_a_swap_fails(rt: HostRuntime) -> Result<(), Fail> {
    read_spread(&rt, rt.alloc())?;
    read_alone(&rt, rt.alloc())?;
    each_makes_reads(&rt, rt.alloc(), formatted(rt.alloc())?, &READS_OF_NOTHING)
}

fn read_spread(rt: &impl Abort, alloc: Global) -> Result<(), Fail> {
    each_makes_reads(rt, alloc, spread(alloc)?, &READS)
}

fn read_alone(rt: &impl Abort, alloc: Global) -> Result<(), Fail> {
    each_makes_reads(
        rt,
        alloc,
        after_lines(alloc, small()?, &ALONE)?,
        &READS_ALONE,
    )
}

// An absent key, in another bucket than all keys there. The entry of key 2 begins with the same
// byte.
fn absent_key() -> Key {
    let mut bytes = [0; 20];
    bytes[0] = 2;
    bytes[1] = 1;
    Key(bytes)
}

// The result of a swap of that key on a disk of these bytes on which this read fails.
fn swap_absent(
    rt: &impl Abort,
    alloc: Global,
    bytes: &[u8],
    number: u32,
) -> Result<Result<Option<u64>, u32>, Fail> {
    let disk = FaultDisk::new(
        MemDisk::with_bytes(alloc, bytes)?,
        Call::Read,
        number as u64,
    );
    let mut core = opened_on(alloc, disk)?;
    let swapped = swapped_absent(rt, alloc, &mut core);
    drop(core);
    Ok(swapped)
}

fn swapped_absent(
    rt: &impl Abort,
    alloc: Global,
    core: &mut Core<FaultDisk>,
) -> Result<Option<u64>, u32> {
    assert!(rt; core.geometry().value_len() == 2);
    swapped(core.swap(alloc, &absent_key(), Some(&[0, 2]), Some(&[0, 3])))
}

// A swap of the absent key on a disk of these bytes makes one read.
fn reads_one_entry(rt: &impl Abort, alloc: Global, bytes: &[u8]) -> Result<(), Fail> {
    let opening = openings_reads(alloc, bytes)?;
    let first = swap_absent(rt, alloc, bytes, opening.saturating_add(1))?;
    let second = swap_absent(rt, alloc, bytes, opening.saturating_add(2))?;
    same(rt, &(first, second), &(Err(5), Ok(None)));
    Ok(())
}

// A swap of the absent key reads that one entry: no other store has a candidate.
#[test]
fn an_absent_key_reads_one_entry(rt: HostRuntime) -> Result<(), Fail> {
    let disk = spread(rt.alloc())?;
    let read = reads_one_entry(&rt, rt.alloc(), disk.shown());
    drop(disk);
    read
}
