// Reads fail, one at a time. Each gives the device's fault to the call that made it, and refuses no
// other call.

use crate::life_lines::Line;
use crate::script::{Printed, live_parts, replies_of};
use crate::support::{same, same_in, values_of};
use silt_device::{Call, FaultDisk, MemDisk, MemFault};
use silt_fixtures::formatted;
use silt_store_set::{Core, Progress, Refusal};
use std::alloc::Global;
use std::process::Abort;
use std::test::Fail;

// Five puts, the last of which freezes the full log, and its conversion. Then come three more rows,
// and a put that freezes the next log.
const THREE_PLACES: [(Line, u8); 12] = [
    (Line::Put(1, 1), 1),
    (Line::Put(2, 2), 1),
    (Line::Put(3, 3), 1),
    (Line::Put(4, 4), 1),
    (Line::Put(5, 5), 1),
    (Line::Convert, 9),
    (Line::Put(6, 6), 1),
    (Line::Put(7, 7), 1),
    (Line::Delete(1), 1),
    (Line::Put(2, 9), 1),
    (Line::Flush, 1),
    (Line::Get(2), 1),
];

// Gets of four keys: in the active log, in the frozen log, in the hash store, and deleted. Then the
// first step of a conversion.
const ASKED: [Line; 5] = [
    Line::Get(2),
    Line::Get(6),
    Line::Get(3),
    Line::Get(1),
    Line::Convert,
];

const ANSWERS: [Printed; 5] = [
    Printed::Value(0, 9),
    Printed::Value(0, 6),
    Printed::Value(0, 3),
    Printed::Absent,
    Printed::Progress(Progress::Moved),
];

// How often each call was refused with the device's fault: the opening, the five events, and the
// list of the entries.
type Refused = [u32; 7];

// Which of these replies, counted from 1, is the device's fault, if one is. All others are those
// that are due.
fn place_of_fault(rt: &impl Abort, printed: &[Printed], answers: &[Printed]) -> Option<usize> {
    same(rt, &printed.len(), &answers.len());
    let mut refused = None;
    for (place, (reply, answer)) in printed.iter().zip(answers.iter()).enumerate() {
        refused = place_after(rt, refused, place, *reply, *answer);
    }
    refused
}

// The place of the fault after one more reply.
fn place_after(
    rt: &impl Abort,
    refused: Option<usize>,
    place: usize,
    reply: Printed,
    answer: Printed,
) -> Option<usize> {
    if reply == Printed::Refused(5) {
        same(rt, &refused, &None);
        return Some(place.saturating_add(1));
    }
    same(rt, &reply, &answer);
    refused
}

// The values of the keys 0 to 7 in the list of the entries, or the number of its refusal.
fn listed(alloc: Global, core: &Core<FaultDisk>) -> Result<[u16; 8], u32> {
    match core.entries(alloc) {
        Ok(entries) => Ok(values_of(&entries)),
        Err(refusal) => Err(refusal.label().0),
    }
}

// Which call of an opened store is refused with the fault of a read, if one is.
fn place_of_call(
    rt: &impl Abort,
    alloc: Global,
    core: &mut Core<FaultDisk>,
) -> Result<Option<usize>, Fail> {
    let refused = place_of_event(rt, alloc, core)?;
    let values = listed(alloc, core);
    if values.is_ok() {
        same(rt, &values, &Ok([0, 0, 9, 3, 4, 5, 6, 7]));
        return Ok(refused);
    }
    same(rt, &(values, refused), &(Err(5), None));
    Ok(Some(6))
}

// Which event is refused with the fault of a read, if one is.
fn place_of_event(
    rt: &impl Abort,
    alloc: Global,
    core: &mut Core<FaultDisk>,
) -> Result<Option<usize>, Fail> {
    let printed = replies_of(alloc, core, &ASKED)?;
    Ok(place_of_fault(rt, &printed, &ANSWERS))
}

// Which call is refused with the fault of this read, or none if no call makes it.
fn place_of_read(
    rt: &impl Abort,
    alloc: Global,
    bytes: &[u8],
    number: u64,
) -> Result<Option<usize>, Fail> {
    let disk = FaultDisk::new(MemDisk::with_bytes(alloc, bytes)?, Call::Read, number);
    match Core::open(alloc, disk) {
        Ok(core) => place_in(rt, alloc, core),
        Err(fault) => {
            is_fault(rt, &fault.refusal, number);
            drop(fault);
            Ok(Some(0))
        }
    }
}

// Which call of this store is refused with the fault of a read, if one is. The store is closed.
fn place_in(
    rt: &impl Abort,
    alloc: Global,
    mut core: Core<FaultDisk>,
) -> Result<Option<usize>, Fail> {
    let place = place_of_call(rt, alloc, &mut core);
    drop(core);
    place
}

fn is_fault(rt: &impl Abort, refusal: &Refusal<MemFault>, number: u64) {
    same_in(rt, &refusal.label().0, &5, &number);
}

// How often each call was refused with a fault, over all reads up to the first that no call makes.
fn all_refused(rt: &impl Abort, alloc: Global, bytes: &[u8]) -> Result<Refused, Fail> {
    let mut counts = [0u32; 7];
    for number in 1..200u64 {
        let Some(place) = place_of_read(rt, alloc, bytes, number)? else {
            return Ok(counts);
        };
        assert!(rt; place < 7);
        counts[place] = counts[place].saturating_add(1);
    }
    Err("reads without end".into())
}

// An opening reads the header, two slots, the commit bytes of two logs and five heads. It reads all slots
// of the hash store at once. For three rows there it also reads the heads of the rows before them
// with the same bucket and tag: one, two and three.
// A get reads each candidate's row whole, up to the one that has the key. All keys here have only
// bucket 0, so all rows of a store are candidates, in the order of their slots. The active log has
// key 2; the frozen one 5, 6, 7 and the delete of 1; the hash store 1, 2, 3 and 4. So key 2 takes
// one read; key 6 one and two; key 3 one, four and three; key 1 one and four.
// The conversion reads one row for a slot. The list reads five rows of logs, eight slots, and the
// values in four of these.
// entries are read from five rows of logs and from eight slots, of which four have values.
#[test]
fn reports_each_failed_read_as_a_fault(rt: HostRuntime) -> Result<(), Fail> {
    let disk = with_three_places(&rt, rt.alloc())?;
    let refused = all_refused(&rt, rt.alloc(), disk.shown());
    drop(disk);
    are_refused(&rt, refused?);
    Ok(())
}

// The device after those lines, with their replies checked.
fn with_three_places(rt: &impl Abort, alloc: Global) -> Result<MemDisk, Fail> {
    let disk = formatted(alloc)?;
    let (disk, printed) = live_parts(alloc, disk, &THREE_PLACES)?;
    are_three_places(rt, &printed);
    Ok(disk)
}

fn are_three_places(rt: &impl Abort, printed: &[Printed]) {
    same(rt, &printed.len(), &21);
    same(rt, &printed.last(), &Some(&Printed::Value(0, 9)));
}

fn are_refused(rt: &impl Abort, refused: Refused) {
    let [opening, newest, frozen, hashed, deleted, converted, entries] = refused;
    same(rt, &(opening, entries), &(17, 17));
    same(rt, &(newest, frozen, hashed, deleted), &(1, 3, 8, 5));
    same(rt, &converted, &1);
}
