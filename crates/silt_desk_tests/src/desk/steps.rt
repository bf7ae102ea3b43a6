// Workers take each step of the background work that there is, and record no other call.
ghost use Rattle.std.specs.Prelude.{◌≡◌};

use crate::desk::{Worker, put_five, seated, settled, works};
use crate::same;
use silt_desk::{DeskId, Kept, Seat, Shared, ShiftGate, Wake};
use silt_device::Disk;
use silt_fixtures::opened;
use silt_store_set::Core;
use std::alloc::Global;
use std::marker::Brand;
use std::sync::Wait;
use std::sync::ledger::Blank;
use std::test::Fail;
use std::time::Clock;

// The messages of the workers to each other.
type Messages = Option<[Option<Wake>; 5]>;

// A worker that had something to do wakes the other one.
const WAKES: Messages = Some([None, Some(Wake::Go), None, Some(Wake::Go), None]);

// Runs the merger before there is work, and then each worker twice, the converter first. A worker
// that rests has left its shift to the other one.
fn work_in_turn<D: Disk, N: DeskId, R: Wait + Clock>(
    rt: &R,
    alloc: Global,
    shared: &Shared<D, Kept, N>,
    seats: &mut Vec<Seat<N>>,
    gate: &ShiftGate<'_, R>,
) -> Messages {
    let before = works(rt, alloc, shared, seats, gate, Worker::Merger)?;
    put_five(rt, alloc, shared, seats.first_mut()?);
    Some([
        before,
        works(rt, alloc, shared, seats, gate, Worker::Converter)?,
        works(rt, alloc, shared, seats, gate, Worker::Converter)?,
        works(rt, alloc, shared, seats, gate, Worker::Merger)?,
        works(rt, alloc, shared, seats, gate, Worker::Merger)?,
    ])
}

// That, and what the desk reports.
type Found = Option<(Messages, Option<(u64, u64)>)>;

fn does_what_is_wanted<D: Disk, N: DeskId, R: Wait + Clock>(
    rt: &R,
    alloc: Global,
    core: Core<D>,
    calls: Blank,
    accepted: Blank,
) -> Found
    requires calls { (calls.name ≡ N.calls_name) × (calls.parts ≡ N.seats) }
    requires accepted { (accepted.name ≡ N.accepted_name) × (accepted.parts ≡ N.seats) }
    requires seats { N.seats ≡ 2 }
{
    let (shared, mut seats) = seated::<D, N>(alloc, core, 100, 2, calls, accepted)?;
    let messages = work_in_turn(rt, alloc, &shared, &mut seats, &ShiftGate::new(rt));
    let settled = settled(rt, &shared, seats);
    drop(shared);
    Some((messages, settled))
}

// Five puts freeze a log of four rows. Its conversion has eight slots and an end, and the merge
// eight slots, four keys and an end.
#[test]
fn workers_do_what_is_wanted(rt: HostRuntime) -> Result<(), Fail> {
    let core = opened(rt.alloc())?;
    let found = does_what_is_wanted::<_, Brand, _>(
        &rt,
        rt.alloc(),
        core,
        Blank::new(2),
        Blank::new(2),
    );
    same(&rt, &found, &Some((WAKES, Some((5 + 9 + 13, 5)))));
    Ok(())
}
