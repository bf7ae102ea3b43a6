// How many device reads a put, a delete and the list of the entries make. Each read fails in turn,
// and the refusals are counted.

use crate::life_lines::Line;
use crate::script::{Printed, ask, live_parts};
use crate::support::same;
use silt_device::{Call, FaultDisk, Geometry, MemDisk};
use silt_fixtures::{formatted_with, of_regions};
use silt_store_set::{Core, Refusal};
use std::alloc::Global;
use std::process::Abort;
use std::test::Fail;

// What is asked of a store: a line, or the list of its entries.
#[derive(Clone, Copy)]
enum Asked {
    Line(Line),
    Entries,
}

// Which call makes the read that fails: the opening, the call after it, or none.
#[derive(Clone, Copy)]
enum Made {
    Opening,
    Call,
    Never,
}

// Whether the call is refused with a fault of the device.
fn is_refused(alloc: Global, core: &mut Core<FaultDisk>, asked: Asked) -> Result<bool, Fail> {
    match asked {
        Asked::Line(line) => Ok(ask(alloc, core, line)? == Printed::Refused(5)),
        Asked::Entries => match core.entries(alloc) {
            Ok(_) => Ok(false),
            Err(Refusal::Device(_)) => Ok(true),
            Err(_) => Err("another refusal".into()),
        },
    }
}

// Which call makes the read of this number: an opening of these bytes, this call after it, or none.
fn place_of_read(alloc: Global, bytes: &[u8], asked: Asked, number: u64) -> Result<Made, Fail> {
    let disk = FaultDisk::new(MemDisk::with_bytes(alloc, bytes)?, Call::Read, number);
    match Core::open(alloc, disk) {
        Ok(core) => made_in(alloc, core, asked),
        Err(fault) => {
            drop(fault);
            Ok(Made::Opening)
        }
    }
}

// Whether this call makes the read that fails, in an opened store, or none.
fn made_in(alloc: Global, mut core: Core<FaultDisk>, asked: Asked) -> Result<Made, Fail> {
    let refused = is_refused(alloc, &mut core, asked);
    drop(core);
    match refused? {
        true => Ok(Made::Call),
        false => Ok(Made::Never),
    }
}

// How many reads an opening of these bytes makes, and how many this call after it.
fn reads_of(alloc: Global, bytes: &[u8], asked: Asked) -> Result<(u32, u32), Fail> {
    let (mut opening, mut call) = (0u32, 0u32);
    for number in 1..200u64 {
        match place_of_read(alloc, bytes, asked, number)? {
            Made::Opening => opening = opening.saturating_add(1),
            Made::Call => call = call.saturating_add(1),
            Made::Never => return Ok((opening, call)),
        }
    }
    Err("reads without end".into())
}

/// How many reads an opening of these bytes makes.
pub(crate) fn openings_reads(alloc: Global, bytes: &[u8]) -> Result<u32, Fail> {
    Ok(reads_of(alloc, bytes, Asked::Line(Line::Flush))?.0)
}

/// A device of this geometry after these lines.
pub(crate) fn after_lines(
    alloc: Global,
    geometry: Geometry,
    lines: &[(Line, u8)],
) -> Result<MemDisk, Fail> {
    let disk = formatted_with(alloc, geometry)?;
    let (disk, _) = live_parts(alloc, disk, lines)?;
    Ok(disk)
}

// How many reads each of these lines makes as the only one after an opening.
fn reads_of_each<const N: usize>(
    alloc: Global,
    bytes: &[u8],
    asked: &[Line; N],
) -> Result<[u32; N], Fail> {
    let mut counts = [0; N];
    for (count, line) in counts.iter_mut().zip(asked.iter()) {
        *count = reads_of(alloc, bytes, Asked::Line(*line))?.1;
    }
    Ok(counts)
}

// Three keys of one bucket in the active log, in the slots 0 to 2. One of them has two rows.
const ACTIVE: [(Line, u8); 5] = [
    (Line::Put(1, 1), 1),
    (Line::Put(2, 2), 1),
    (Line::Delete(3), 1),
    (Line::Put(2, 9), 1),
    (Line::Flush, 1),
];

const PUTS: [Line; 4] = [
    Line::Put(1, 5),
    Line::Put(2, 5),
    Line::Put(3, 5),
    Line::Put(4, 5),
];

const DELETES: [Line; 4] = [
    Line::Delete(1),
    Line::Delete(2),
    Line::Delete(3),
    Line::Delete(4),
];

// A put or delete reads the heads of the rows whose slots have the key's tag, up to the key's own.
// It reads none if the key is alone in its buckets. It looks in no other store.
#[test]
fn a_put_reads_the_heads_of_its_candidates_once(rt: HostRuntime) -> Result<(), Fail> {
    let disk = after_lines(rt.alloc(), of_regions(8, 2, 2, 16)?, &ACTIVE)?;
    let read = read_heads(&rt, rt.alloc(), disk.shown());
    drop(disk);
    read
}

// Puts and deletes after those lines make these numbers of reads.
fn read_heads(rt: &impl Abort, alloc: Global, bytes: &[u8]) -> Result<(), Fail> {
    make_reads(rt, alloc, bytes, &PUTS, [1, 2, 3, 3])?;
    make_reads(rt, alloc, bytes, &DELETES, [1, 2, 3, 3])
}

// These lines make these numbers of reads, each as the only one after an opening.
fn make_reads<const N: usize>(
    rt: &impl Abort,
    alloc: Global,
    bytes: &[u8],
    asked: &[Line; N],
    expected: [u32; N],
) -> Result<(), Fail> {
    let counts = reads_of_each(alloc, bytes, asked)?;
    same(rt, &counts, &expected);
    Ok(())
}

// Four rows of a frozen log and one of the active log. A put of a frozen log's key reads only the
// active log's row.
const FROZEN: [(Line, u8); 6] = [
    (Line::Put(1, 1), 1),
    (Line::Put(2, 2), 1),
    (Line::Delete(3), 1),
    (Line::Put(4, 4), 1),
    (Line::Put(5, 5), 1),
    (Line::Flush, 1),
];

#[test]
fn a_put_reads_nothing_of_older_stores(rt: HostRuntime) -> Result<(), Fail> {
    let disk = after_lines(rt.alloc(), of_regions(4, 2, 2, 8)?, &FROZEN)?;
    let read = read_active_rows(&rt, rt.alloc(), disk.shown());
    drop(disk);
    read
}

fn read_active_rows(rt: &impl Abort, alloc: Global, bytes: &[u8]) -> Result<(), Fail> {
    let asked = [Line::Put(1, 5), Line::Delete(4), Line::Put(5, 6)];
    make_reads(rt, alloc, bytes, &asked, [1, 1, 1])
}

// The list reads each row once: four of a frozen log, one of which is a delete, and one of the
// active log.
#[test]
fn a_list_of_entries_reads_each_row_once(rt: HostRuntime) -> Result<(), Fail> {
    let disk = after_lines(rt.alloc(), of_regions(4, 2, 2, 8)?, &FROZEN)?;
    let counts = reads_of(rt.alloc(), disk.shown(), Asked::Entries);
    drop(disk);
    same(&rt, &counts?, &(10, 5));
    Ok(())
}
