// Commands get their replies while a worker is between two guards.
ghost use Rattle.std.specs.Prelude.{◌≡◌};

use crate::desk::{
    Channels, convert_alone, flush_alone, get_alone, new_channels, pop_two, put_alone, put_five,
    seated,
};
use crate::same;
use crossbeam_channel::Sender;
use silt_desk::{DeskId, Gate, Kept, Seat, Shared, Spot, Wake, WorkerEnds, converter, join_over};
use silt_device::{Disk, Geometry, MemDisk};
use silt_event::Progress;
use silt_fixtures::{key, opened_with, reaches};
use silt_store_set::Core;
use std::alloc::Global;
use std::marker::Brand;
use std::sync::Wait;
use std::sync::atomic::{AtomicU64, Ordering};
use std::sync::ledger::Blank;
use std::test::Fail;
use std::thread::Threads;
use std::time::Clock;

/// Holds a worker before its second guard until it is opened.
#[derive(Drop)]
struct Hold<'a, R: Clock> {
    rt: &'a R,
    passes: AtomicU64,
    opened: AtomicU64,
    missed: AtomicU64,
}

impl<'a, R: Clock> Hold<'a, R> {
    fn new(rt: &'a R) -> Hold<'a, R> {
        Hold {
            rt,
            passes: AtomicU64::new(0),
            opened: AtomicU64::new(0),
            missed: AtomicU64::new(0),
        }
    }
}

impl<R: Clock> Gate for Hold<'_, R> {
    fn pass(&self, _spot: Spot) {
        let before = self.passes.fetch_add(1, Ordering::SeqCst);
        if before == 1 && !reaches(self.rt, &self.opened, 1) {
            self.missed.store(1, Ordering::SeqCst);
        }
    }
}

/// Whether the worker was held, and what a put, a get, a flush and a step of another thread return
/// meanwhile.
type Seen = (
    bool,
    Result<u64, u32>,
    Result<Option<[u8; 2]>, u32>,
    Result<u64, u32>,
    Result<Progress, u32>,
);

const SEEN: Seen = (true, Ok(6), Ok(Some([0, 6])), Ok(6), Ok(Progress::Moved));

/// Calls while the worker is held.
fn call_held<D: Disk, N: DeskId, R: Wait + Clock>(
    rt: &R,
    alloc: Global,
    shared: &Shared<D, Kept, N>,
    seat: &mut Seat<N>,
    gate: &Hold<'_, R>,
) -> Seen {
    let held = reaches(rt, &gate.passes, 2);
    let put = put_alone(rt, alloc, shared, seat, &key(6), [0, 6]);
    let got = get_alone(rt, alloc, shared, seat, &key(6));
    let flushed = flush_alone(rt, alloc, shared, seat);
    let step = convert_alone(rt, alloc, shared, seat);
    (held, put, got, flushed, step)
}

/// Calls while the worker is held, then frees it and stops it.
fn call_beside<D: Disk, N: DeskId, R: Wait + Clock>(
    rt: &R,
    alloc: Global,
    shared: &Shared<D, Kept, N>,
    mut seat: Seat<N>,
    gate: &Hold<'_, R>,
    wake: Sender<Wake>,
) -> Seen {
    let seen = call_held(rt, alloc, shared, &mut seat, gate);
    gate.opened.store(1, Ordering::SeqCst);
    let _ = wake.send(rt, Wake::Stop);
    seen
}

/// Runs the worker and another thread, until both are done.
fn run_both<D: Disk, N: DeskId + Send + Sync, R: Threads + Wait + Clock + Sync>(
    rt: &R,
    alloc: Global,
    shared: &Shared<D, Kept, N>,
    (mine, theirs): (Seat<N>, Seat<N>),
    gate: &Hold<'_, R>,
    wake: Sender<Wake>,
    ends: WorkerEnds,
) -> (Seat<N>, Seen) {
    join_over(
        rt,
        shared,
        move |desk: &Shared<D, Kept, N>| converter(rt, alloc, desk, theirs, gate, ends),
        move |desk: &Shared<D, Kept, N>| call_beside(rt, alloc, desk, mine, gate, wake),
    )
}

/// The replies to another thread while the worker is held, whether the worker was freed in time,
/// and its message to the other worker.
type Found = Option<(Seen, bool, Option<Wake>)>;

fn beside_held<D: Disk, N: DeskId + Send + Sync, R: Threads + Wait + Clock + Sync>(
    rt: &R,
    alloc: Global,
    shared: &Shared<D, Kept, N>,
    seats: (Seat<N>, Seat<N>),
) -> Found {
    let Channels {
        wake,
        wakes,
        other,
        others,
    } = new_channels(alloc)?;
    let gate = Hold::new(rt);
    let (_seat, seen) = run_both(
        rt,
        alloc,
        shared,
        seats,
        &gate,
        wake,
        WorkerEnds { wakes, other },
    );
    let in_time = gate.missed.load(Ordering::SeqCst) == 0;
    Some((seen, in_time, others.try_recv(rt).ok()))
}

/// Puts five keys first.
fn beside_conversion<D: Disk, N: DeskId + Send + Sync, R: Threads + Wait + Clock + Sync>(
    rt: &R,
    alloc: Global,
    shared: &Shared<D, Kept, N>,
    seats: &mut Vec<Seat<N>>,
) -> Found {
    put_five(rt, alloc, shared, seats.first_mut()?);
    beside_held(rt, alloc, shared, pop_two(seats)?)
}

/// Another thread's calls get their replies while the worker is held before its second guard.
fn held_between_steps<D: Disk, N: DeskId + Send + Sync, R: Threads + Wait + Clock + Sync>(
    rt: &R,
    alloc: Global,
    core: Core<D>,
    calls: Blank,
    accepted: Blank,
) -> Found
    requires calls { (calls.name ≡ N.calls_name) × (calls.parts ≡ N.seats) }
    requires accepted { (accepted.name ≡ N.accepted_name) × (accepted.parts ≡ N.seats) }
    requires seats { N.seats ≡ 2 }
{
    let (shared, mut seats) = seated::<D, N>(alloc, core, 200, 2, calls, accepted)?;
    let found = beside_conversion(rt, alloc, &shared, &mut seats);
    drop(shared);
    found
}

/// A store whose conversions have 129 steps each, more than one guard has.
fn wide(alloc: Global) -> Result<Core<MemDisk>, Fail> {
    let geometry = Geometry::new(2, 32, 4, 2, 2, 8).ok().ok_or("in limits")?;
    opened_with(alloc, geometry)
}

#[test]
fn held_converter(rt: HostRuntime) -> Result<(), Fail> {
    let core = wide(rt.alloc())?;
    let found = held_between_steps::<_, Brand, _>(
        &rt,
        rt.alloc(),
        core,
        Blank::new(2),
        Blank::new(2),
    );
    same(&rt, &found, &Some((SEEN, true, Some(Wake::Go))));
    Ok(())
}
