// A worker whose step fails waits, as a worker does that has nothing to do, and one whose gate is closed.
ghost use Rattle.std.specs.Prelude.{◌≡◌};

use crate::desk::{FAILED, Worker, get_alone, put_five, seated, settled, works};
use crate::same;
use silt_desk::{DeskId, Gate, Kept, Seat, Shared, Spot, Wake};
use silt_device::{Call, Disk, FaultDisk};
use silt_fixtures::{formatted, key, opened, opened_on};
use silt_store_set::Core;
use std::alloc::Global;
use std::marker::Brand;
use std::sync::Wait;
use std::sync::atomic::{AtomicU64, Ordering};
use std::sync::ledger::Blank;
use std::test::Fail;
use std::time::Clock;

/// A gate that may be closed. It counts how often it hears that the store has failed.
#[derive(Drop)]
struct Hearing {
    is_closed: bool,
    failed: AtomicU64,
}

impl Gate for Hearing {
    fn pass(&self, _spot: Spot) {}

    fn failed(&self, _spot: Spot) {
        self.failed.fetch_add(1, Ordering::SeqCst);
    }

    fn is_closed(&self) -> bool {
        self.is_closed
    }
}

// A gate that has heard nothing.
fn new_gate(is_closed: bool) -> Hearing {
    Hearing {
        is_closed,
        failed: AtomicU64::new(0),
    }
}

// The message of the worker to the other one, and what a get returns.
type Waits = Option<(Option<Wake>, Result<Option<[u8; 2]>, u32>)>;

// The worker sends no message of its own and stops at its first message. A failed store has no second step, and refuses the get.
const WAITS: Waits = Some((None, Err(FAILED)));

fn waits<D: Disk, N: DeskId, R: Wait + Clock>(
    rt: &R,
    alloc: Global,
    shared: &Shared<D, Kept, N>,
    seats: &mut Vec<Seat<N>>,
    gate: &Hearing,
) -> Waits {
    put_five(rt, alloc, shared, seats.first_mut()?);
    let _ = works(rt, alloc, shared, seats, gate, Worker::Converter)?;
    let message = works(rt, alloc, shared, seats, gate, Worker::Converter)?;
    let got = get_alone(rt, alloc, shared, seats.first_mut()?, &key(1));
    Some((message, got))
}

// That, and what the desk reports.
type Found = Option<(Waits, Option<(u64, u64)>)>;

// Five puts, and then the converter at this gate, twice.
fn puts_and_converter<D: Disk, N: DeskId, R: Wait + Clock>(
    rt: &R,
    alloc: Global,
    core: Core<D>,
    calls: Blank,
    accepted: Blank,
    gate: &Hearing,
) -> Found
    requires calls { (calls.name ≡ N.calls_name) × (calls.parts ≡ N.seats) }
    requires accepted { (accepted.name ≡ N.accepted_name) × (accepted.parts ≡ N.seats) }
    requires seats { N.seats ≡ 2 }
{
    let (shared, mut seats) = seated::<D, N>(alloc, core, 100, 2, calls, accepted)?;
    let found = waits(rt, alloc, &shared, &mut seats, gate);
    let settled = settled(rt, &shared, seats);
    drop(shared);
    Some((found, settled))
}

// Five puts make fifteen writes. Seven of these are made by the last put, which freezes the log. The
// next write fails.
fn failing(alloc: Global) -> Result<Core<FaultDisk>, Fail> {
    opened_on(alloc, FaultDisk::new(formatted(alloc)?, Call::Write, 16))
}

// The write of the first step of a conversion fails.
#[test]
fn a_failed_step_waits(rt: HostRuntime) -> Result<(), Fail> {
    let core = failing(rt.alloc())?;
    let (calls, accepted, gate) = (Blank::new(2), Blank::new(2), new_gate(false));
    let found = puts_and_converter::<_, Brand, _>(&rt, rt.alloc(), core, calls, accepted, &gate);
    same(&rt, &found, &Some((WAITS, Some((7, 5)))));
    same(&rt, &gate.failed.load(Ordering::SeqCst), &0);
    Ok(())
}

// The worker sends no message of its own and stops at its first message. It has done no step.
const STANDS_STILL: Waits = Some((None, Ok(Some([0, 1]))));

#[test]
fn a_worker_stands_still_at_a_closed_gate(rt: HostRuntime) -> Result<(), Fail> {
    let core = opened(rt.alloc())?;
    let (calls, accepted, gate) = (Blank::new(2), Blank::new(2), new_gate(true));
    let found = puts_and_converter::<_, Brand, _>(&rt, rt.alloc(), core, calls, accepted, &gate);
    same(&rt, &found, &Some((STANDS_STILL, Some((6, 5)))));
    same(&rt, &gate.failed.load(Ordering::SeqCst), &0);
    Ok(())
}
