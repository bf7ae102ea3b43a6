// Two workers work in shifts: one at a time, each has its shift, and nobody waits without need.

use crate::same;
use silt_desk::{Gate, ShiftGate, Spot, join_over};
use std::sync::Wait;
use std::sync::atomic::{AtomicU64, Ordering};
use std::thread;
use std::thread::Threads;
use std::time::{Clock, Duration};

/// How many steps each worker does.
const STEPS: u32 = 300;

/// How many steps a worker does at most until the other one has its shift.
const MANY_STEPS: u32 = 1_000_000;

/// A gate, and what its workers note.
#[derive(Drop)]
struct Work<'a, R: Wait> {
    gate: ShiftGate<'a, R>,
    /// How many workers do a step.
    working: AtomicU64,
    /// How often a worker began a step while the other one did one.
    overlaps: AtomicU64,
    /// Whether the merger had its shift.
    merged: AtomicU64,
}

impl<'a, R: Wait> Work<'a, R> {
    fn new(rt: &'a R) -> Work<'a, R> {
        Work {
            gate: ShiftGate::new(rt),
            working: AtomicU64::new(0),
            overlaps: AtomicU64::new(0),
            merged: AtomicU64::new(0),
        }
    }
}

// Does steps that take some time, and then rests.
fn do_steps<R: Wait + Clock>(rt: &R, work: &Work<'_, R>, worker: Spot) {
    for _ in 0..STEPS {
        work.gate.pass(worker);
        if work.working.swap(1, Ordering::SeqCst) == 1 {
            work.overlaps.store(1, Ordering::SeqCst);
        }
        thread::sleep(rt, Duration::from_micros(10));
        work.working.store(0, Ordering::SeqCst);
    }
    work.gate.rest(worker);
}

// Two workers with as much work. Returns how often one began a step while the other one did one.
fn work_beside<R: Threads + Wait + Clock + Sync>(rt: &R) -> u64 {
    let shared = Work::new(rt);
    join_over(
        rt,
        &shared,
        move |shared: &Work<'_, R>| do_steps(rt, shared, Spot::Converter),
        move |shared: &Work<'_, R>| do_steps(rt, shared, Spot::Merger),
    );
    shared.overlaps.load(Ordering::SeqCst)
}

#[test]
fn one_worker_at_a_time(rt: HostRuntime) {
    same(&rt, &work_beside(&rt), &0);
}

// Does steps until the merger has had its shift, and returns whether it had.
fn convert_until<R: Wait + Clock>(rt: &R, work: &Work<'_, R>) -> bool {
    for _ in 0..MANY_STEPS {
        work.gate.pass(Spot::Converter);
        if work.merged.load(Ordering::SeqCst) == 1 {
            return true;
        }
        thread::sleep(rt, Duration::from_micros(10));
    }
    false
}

// Does one step.
fn merge_one<R: Wait>(work: &Work<'_, R>) {
    work.gate.pass(Spot::Merger);
    work.merged.store(1, Ordering::SeqCst);
    work.gate.rest(Spot::Merger);
}

// A converter that never rests, and a merger. Returns whether the merger had its shift.
fn merge_beside<R: Threads + Wait + Clock + Sync>(rt: &R) -> bool {
    let shared = Work::new(rt);
    let ((), had_its_shift) = join_over(
        rt,
        &shared,
        move |shared: &Work<'_, R>| merge_one(shared),
        move |shared: &Work<'_, R>| convert_until(rt, shared),
    );
    had_its_shift
}

#[test]
fn a_worker_that_never_rests_leaves_shifts_to_the_other(rt: HostRuntime) {
    same(&rt, &merge_beside(&rt), &true);
}

// Passes, and counts it.
fn pass<R: Wait>(gate: &ShiftGate<'_, R>, spot: Spot, passes: &mut u32) {
    gate.pass(spot);
    *passes = passes.saturating_add(1);
}

// A worker that works and a writer, and then each worker after the other one rests. Returns how
// often one of them passed.
fn work_alone<R: Wait>(gate: &ShiftGate<'_, R>) -> u32 {
    let mut passes = 0;
    for _ in 0..STEPS {
        pass(gate, Spot::Converter, &mut passes);
        pass(gate, Spot::Writer, &mut passes);
    }
    gate.rest(Spot::Converter);
    pass(gate, Spot::Merger, &mut passes);
    gate.rest(Spot::Converter);
    pass(gate, Spot::Merger, &mut passes);
    passes
}

#[test]
fn nobody_waits_without_need(rt: HostRuntime) {
    same(&rt, &work_alone(&ShiftGate::new(&rt)), &602);
}
