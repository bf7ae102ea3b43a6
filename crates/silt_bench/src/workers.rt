// Fills a store while two workers do its background work.

use crate::background::{Background, Workers};
use crate::error::BenchError;
use crate::job::Plan;
use crate::turns::rows_before_freeze;
use crate::writer::{Filled, Writer, fill_all};
use silt_desk::{
    Count, DeskId, Gate, Seat, Shared, ShiftGate, Spot, Turn, Wake, Wakes, WorkerEnds, converter,
    join_over, merge_once,
};
use silt_device::Disk;
use std::alloc::{AllocError, Global};
use std::sync::Wait;
use std::thread::Threads;
use std::time::Clock;

/// The place of a worker: its seat, and its ends of the channels.
#[derive(Drop)]
struct Worker<N: DeskId> {
    seat: Seat<N>,
    ends: WorkerEnds,
}

/// The threads that fill a store: a writer and two workers.
#[derive(Drop)]
struct FillThreads<N: DeskId> {
    writer: Writer<N>,
    converter: Worker<N>,
    merger: Worker<N>,
}

/// Puts the plan's keys beside a converter and a merger, and ends when no work is left.
pub fn fill_beside<D: Disk, N: DeskId + Send + Sync, R: Threads + Wait + Clock + Sync>(
    rt: &R,
    alloc: Global,
    shared: &Shared<D, Count, N>,
    seats: (Seat<N>, Seat<N>, Seat<N>),
    plan: &Plan,
) -> Result<Filled, BenchError> {
    match threads_of(alloc, seats, plan) {
        Ok(threads) => run_threads(rt, alloc, shared, threads, plan.keys),
        Err(_) => Err(BenchError::NoMemory),
    }
}

// The places of those who have these seats.
fn threads_of<N: DeskId>(
    alloc: Global,
    seats: (Seat<N>, Seat<N>, Seat<N>),
    plan: &Plan,
) -> Result<FillThreads<N>, AllocError> {
    let (to_converter, converter_wakes) = crossbeam_channel::unbounded(alloc)?;
    let (to_merger, merger_wakes) = crossbeam_channel::unbounded(alloc)?;
    // The writer alone wakes the merger: the converter's messages to it arrive nowhere.
    let (to_nobody, _) = crossbeam_channel::unbounded(alloc)?;
    let converter = Worker {
        seat: seats.1,
        ends: WorkerEnds {
            wakes: converter_wakes,
            other: to_nobody,
        },
    };
    let merger = Worker {
        seat: seats.2,
        ends: WorkerEnds {
            wakes: merger_wakes,
            other: to_converter.clone()?,
        },
    };
    let wakes = Wakes {
        converter: to_converter,
        merger: to_merger,
    };
    let rows = plan
        .stores
        .saturating_mul(rows_before_freeze(&plan.geometry));
    let background = Background::Workers(Workers::new(wakes, rows));
    Ok(FillThreads {
        writer: Writer::new(alloc, seats.0, background, plan)?,
        converter,
        merger,
    })
}

// The two workers in threads of their own, and the writer in this one.
fn run_threads<D: Disk, N: DeskId + Send + Sync, R: Threads + Wait + Clock + Sync>(
    rt: &R,
    alloc: Global,
    shared: &Shared<D, Count, N>,
    threads: FillThreads<N>,
    keys: u64,
) -> Result<Filled, BenchError> {
    let FillThreads {
        writer,
        converter,
        merger,
    } = threads;
    let (_seats, filled) = join_over(
        rt,
        shared,
        move |desk: &Shared<D, Count, N>| both_workers(rt, alloc, desk, converter, merger),
        move |desk: &Shared<D, Count, N>| write(rt, alloc, desk, writer, keys),
    );
    filled
}

// Runs the two workers, each until it is stopped.
fn both_workers<D: Disk, N: DeskId + Send + Sync, R: Threads + Wait + Clock + Sync>(
    rt: &R,
    alloc: Global,
    shared: &Shared<D, Count, N>,
    first: Worker<N>,
    second: Worker<N>,
) -> (Seat<N>, Seat<N>) {
    let gate = &ShiftGate::new(rt);
    join_over(
        rt,
        shared,
        move |desk: &Shared<D, Count, N>| {
            converter(rt, alloc, desk, first.seat, gate, first.ends)
        },
        move |desk: &Shared<D, Count, N>| {
            merge_when_woken(rt, alloc, desk, second.seat, gate, second.ends)
        },
    )
}

// Does one merge for each message, until it is stopped, and wakes the converter after each. The desk's own merger begins
// the next merge without a message, as soon as there are enough hash stores. Gives its seat back.
fn merge_when_woken<D: Disk, N: DeskId, G: Gate, R: Wait>(
    rt: &R,
    alloc: Global,
    shared: &Shared<D, Count, N>,
    mut seat: Seat<N>,
    gate: &G,
    ends: WorkerEnds,
) -> Seat<N> {
    for _ in rt.forever() {
        if !matches!(ends.wakes.recv(rt), Ok(Wake::Go)) {
            return seat;
        }
        merge_to_end(rt, alloc, shared, &mut seat, gate);
        let _ = ends.other.send(rt, Wake::Go); // it may have ended
    }
    unreachable!()
}

// Does the steps of one merge, each under a guard of its own.
fn merge_to_end<D: Disk, N: DeskId, G: Gate, R: Wait>(
    rt: &R,
    alloc: Global,
    shared: &Shared<D, Count, N>,
    seat: &mut Seat<N>,
    gate: &G,
) {
    for _ in rt.forever() {
        gate.pass(Spot::Merger);
        if merge_once(&mut *shared.write(rt), alloc, seat, 1) != Turn::GoOn {
            gate.rest(Spot::Merger);
            return;
        }
    }
}

// Puts all keys, waits until no work is left, and stops the workers.
fn write<D: Disk, N: DeskId, R: Wait + Clock>(
    rt: &R,
    alloc: Global,
    shared: &Shared<D, Count, N>,
    mut writer: Writer<N>,
    keys: u64,
) -> Result<Filled, BenchError> {
    let filled = fill_all(rt, alloc, shared, &mut writer, keys);
    writer.background.stop(rt);
    filled
}
