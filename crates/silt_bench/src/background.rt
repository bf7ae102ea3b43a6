// The background work, as the writer sees it.

use crate::error::BenchError;
use crate::turns::Turns;
use silt_desk::{Count, DeskId, Due, Seat, Shared, Wakes};
use silt_device::Disk;
use std::alloc::Global;
use std::sync::Wait;
use std::thread;
use std::time::{Clock, Duration};

// Which background work the store has to do.
fn work_due<D: Disk, N: DeskId, R: Wait>(rt: &R, shared: &Shared<D, Count, N>) -> Due {
    shared.read(rt).due(1)
}

// Waits until the workers have left no background work to do.
fn finish_beside<D: Disk, N: DeskId, R: Wait + Clock>(
    rt: &R,
    shared: &Shared<D, Count, N>,
    wakes: &Wakes,
) {
    for _ in rt.forever() {
        let due = work_due(rt, shared);
        if !due.converts && !due.merges {
            break;
        }
        wakes.go(rt, due);
        thread::sleep(rt, Duration::from_millis(1));
    }
}

/// Two workers in threads of their own, and when the merger is woken: once for so many rows, so that each merge takes
/// several hash stores.
#[derive(Drop)]
pub struct Workers {
    wakes: Wakes,
    rows_a_merge: u64,
    // Rows since the merger was last woken.
    rows: u64,
}

impl Workers {
    /// Workers that were not woken yet.
    pub fn new(wakes: Wakes, rows_a_merge: u64) -> Workers {
        Workers {
            wakes,
            rows_a_merge,
            rows: 0,
        }
    }

    // Wakes the workers that have work, the merger only if its rows are there. A writer that waits for room calls this
    // again and again, and so wakes it too.
    fn go<R: Wait>(&mut self, rt: &R, due: Due, puts: u64) {
        self.rows = self.rows.saturating_add(puts);
        let merges = due.merges && self.rows >= self.rows_a_merge;
        if merges {
            self.rows = 0;
        }
        self.wakes.go(
            rt,
            Due {
                converts: due.converts,
                merges,
                begins: merges,
            },
        );
    }
}

/// How a store's background work is done.
#[derive(Drop)]
pub enum Background {
    /// The writer, between two groups of puts.
    Turns(Turns),
    /// Two workers in threads of their own.
    Workers(Workers),
}

impl Background {
    /// The writer takes the steps that this many puts owe, or wakes the workers that have work.
    pub fn go_on<D: Disk, N: DeskId, R: Wait>(
        &mut self,
        rt: &R,
        alloc: Global,
        shared: &Shared<D, Count, N>,
        seat: &mut Seat<N>,
        puts: u64,
    ) -> Result<(), BenchError> {
        match self {
            Background::Turns(turns) => turns.take(alloc, &mut *shared.write(rt), seat, puts),
            Background::Workers(workers) => {
                workers.go(rt, work_due(rt, shared), puts);
                Ok(())
            }
        }
    }

    /// Waits until all background work is done.
    pub fn finish<D: Disk, N: DeskId, R: Wait + Clock>(
        &mut self,
        rt: &R,
        alloc: Global,
        shared: &Shared<D, Count, N>,
        seat: &mut Seat<N>,
    ) -> Result<(), BenchError> {
        match self {
            Background::Turns(turns) => turns.finish(alloc, &mut *shared.write(rt), seat),
            Background::Workers(workers) => {
                finish_beside(rt, shared, &workers.wakes);
                Ok(())
            }
        }
    }

    /// Stops the workers.
    pub fn stop<R: Wait>(&self, rt: &R) {
        if let Background::Workers(workers) = self {
            workers.wakes.stop(rt);
        }
    }
}
