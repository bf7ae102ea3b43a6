// One sync of a flush fails, and the next opening comes without a crash in between. And a flush
// with no row waiting makes no device call.

use crate::life_lines::Line;
use crate::script::{Printed, replies_of};
use crate::support::same_lists;
use silt_device::{Call, FaultDisk};
use silt_fixtures::formatted;
use silt_store_set::{Core, Progress};
use std::alloc::{AllocError, Global};
use std::process::Abort;
use std::test::Fail;

// Joins a disk and the replies of its store.
fn with_disk(
    disk: FaultDisk,
    printed: Result<Vec<Printed>, AllocError>,
) -> Result<(FaultDisk, Vec<Printed>), Fail> {
    Ok((disk, printed?))
}

// Asks these lines of the store on this disk and closes it.
fn printed_on(
    alloc: Global,
    disk: FaultDisk,
    lines: &[Line],
) -> Result<(FaultDisk, Vec<Printed>), Fail> {
    match Core::open(alloc, disk) {
        Ok(mut core) => {
            let printed = replies_of(alloc, &mut core, lines);
            with_disk(core.close(), printed)
        }
        Err(_) => Err("opens".into()),
    }
}

// Asks these lines of an empty store on a disk on which this call fails. The calls are counted from
// the opening on.
fn printed_where(
    alloc: Global,
    call: Call,
    number: u64,
    lines: &[Line],
) -> Result<(FaultDisk, Vec<Printed>), Fail> {
    let disk = formatted(alloc)?;
    printed_on(alloc, FaultDisk::new(disk, call, number), lines)
}

// The replies to a put, a flush and a get if this sync fails, and to a get after the next opening.
// The opening makes sync 1, and the flush syncs 2 and 3.
fn flush_fails(alloc: Global, sync: u64) -> Result<(Vec<Printed>, Vec<Printed>), Fail> {
    let lines = [Line::Put(1, 0x0102), Line::Flush, Line::Get(1)];
    let (disk, printed) = printed_where(alloc, Call::Sync, sync, &lines)?;
    let (_, found) = printed_on(alloc, disk, &[Line::Get(1)])?;
    Ok((printed, found))
}

const FAILED: [Printed; 3] = [
    Printed::Accepted(1),
    Printed::Refused(5),
    Printed::Refused(9),
];

// The flush fails with this sync, and the next opening's get gets this reply.
fn is_found_after(
    rt: &impl Abort,
    alloc: Global,
    sync: u64,
    expected: Printed,
) -> Result<(), Fail> {
    let (printed, found) = flush_fails(alloc, sync)?;
    same_lists(rt, &printed, &FAILED);
    same_lists(rt, &found, &[expected]);
    Ok(())
}

#[test]
fn the_put_is_lost_where_the_first_sync_of_its_flush_fails(rt: HostRuntime) -> Result<(), Fail> {
    is_found_after(&rt, rt.alloc(), 2, Printed::Absent)
}

#[test]
fn the_put_is_there_where_the_second_sync_of_its_flush_fails(rt: HostRuntime) -> Result<(), Fail> {
    is_found_after(&rt, rt.alloc(), 3, Printed::Value(1, 2))
}

// A get, a flush and steps of an empty store make no sync and no write. The put and its flush after
// them do.
const IDLE: [Line; 6] = [
    Line::Get(1),
    Line::Flush,
    Line::Convert,
    Line::Merge,
    Line::Put(1, 1),
    Line::Flush,
];

const WITHOUT_A_SYNC: [Printed; 6] = [
    Printed::Absent,
    Printed::Acknowledged(0),
    Printed::Progress(Progress::Idle),
    Printed::Progress(Progress::Idle),
    Printed::Accepted(1),
    Printed::Refused(5),
];

const WITHOUT_A_WRITE: [Printed; 6] = [
    Printed::Absent,
    Printed::Acknowledged(0),
    Printed::Progress(Progress::Idle),
    Printed::Progress(Progress::Idle),
    Printed::Refused(5),
    Printed::Refused(9),
];

// The replies to those lines if this call fails.
fn printed_idle(alloc: Global, call: Call, number: u64) -> Result<Vec<Printed>, Fail> {
    let (_, printed) = printed_where(alloc, call, number, &IDLE)?;
    Ok(printed)
}

// Sync 2 is the first one after the opening. It fails in the flush of the put, so no call before
// that makes a sync.
#[test]
fn a_flush_with_nothing_waiting_makes_no_sync(rt: HostRuntime) -> Result<(), Fail> {
    let printed = printed_idle(rt.alloc(), Call::Sync, 2)?;
    same_lists(&rt, &printed, &WITHOUT_A_SYNC);
    Ok(())
}

// Write 1 fails in the put, so no call before it makes a write.
#[test]
fn a_flush_with_nothing_waiting_makes_no_write(rt: HostRuntime) -> Result<(), Fail> {
    let printed = printed_idle(rt.alloc(), Call::Write, 1)?;
    same_lists(&rt, &printed, &WITHOUT_A_WRITE);
    Ok(())
}
