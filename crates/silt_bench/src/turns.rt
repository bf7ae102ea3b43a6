// The background work in turns, on the writer's thread.
ghost use Rattle.std.specs.Prelude.{◌≡◌, false, OnOk};
ghost use Rattle.silt_store_set.specs.CoreState.{wants_convert, wants_merge};

use crate::error::{BenchError, Call};
use silt_desk::{Count, Desk, DeskId, Seat};
use silt_device::{Disk, Geometry};
use silt_event::Progress;
use std::alloc::Global;

/// The background work of a store that is filled, paid as it goes. After each group of puts it takes as many steps as
/// the puts of the group owe: a conversion ends before the next log is full, and a merge before the next one is due.
#[derive(Clone, Copy)]
pub struct Turns {
    merge_at: u64,
    keys: u64,
    // Hash stores that no merge has taken.
    waiting: u64,
    // Whether a merge is in progress.
    merging: bool,
}

// The steps that this many puts owe, if this many steps are due in all before this many puts are done.
fn owed(puts: u64, steps: u64, before: u64) -> u64 {
    (puts.saturating_mul(steps) / before.max(1)).saturating_add(1)
}

/// The puts after which a log may be frozen: most freeze with nine tenths of their rows or more.
pub fn rows_before_freeze(geometry: &Geometry) -> u64 {
    u64::from(geometry.log_capacity()) * 7 / 8
}

impl Turns {
    /// A store for this many keys with no hash store yet. A merge begins at this many hash stores.
    pub fn new(merge_at: u64, keys: u64) -> Turns {
        Turns {
            merge_at,
            keys,
            waiting: 0,
            merging: false,
        }
    }

    /// Takes the steps that this many puts owe.
    pub fn take<D: Disk, N: DeskId>(
        &mut self,
        alloc: Global,
        desk: &mut Desk<D, Count, N>,
        seat: &mut Seat<N>,
        puts: u64,
    ) -> Result<(), BenchError> {
        let geometry = desk.geometry();
        let slots = 4 * u64::from(geometry.buckets());
        let rows = rows_before_freeze(&geometry);
        self.convert(alloc, desk, seat, owed(puts, slots + 1, rows))?;
        if !self.merging && self.waiting < self.merge_at {
            return Ok(());
        }
        let steps = self
            .merge_at
            .saturating_mul(slots)
            .saturating_add(self.keys);
        let before = self.merge_at.saturating_mul(rows);
        self.merge(alloc, desk, seat, owed(puts, steps, before))
    }

    /// Does all background work that is due, to its end.
    pub fn finish<D: Disk, N: DeskId>(
        &mut self,
        alloc: Global,
        desk: &mut Desk<D, Count, N>,
        seat: &mut Seat<N>,
    ) -> Result<(), BenchError>
        ensures { OnOk result ((wants_convert desk.new.core ≡ false) × (wants_merge desk.new.core ≡ false)) }
    {
        for _round in 0..u64::MAX {
            if !desk.wants_convert() && !desk.wants_merge() {
                return Ok(());
            }
            self.convert(alloc, desk, seat, u64::MAX)?;
            self.merge(alloc, desk, seat, u64::MAX)?;
        }
        Err(BenchError::Refused(Call::Merge))
    }

    // Takes this many steps of conversion, or fewer if there is no more to convert.
    fn convert<D: Disk, N: DeskId>(
        &mut self,
        alloc: Global,
        desk: &mut Desk<D, Count, N>,
        seat: &mut Seat<N>,
        steps: u64,
    ) -> Result<(), BenchError> {
        for _step in 0..steps {
            match desk.convert(alloc, seat) {
                Ok(Progress::Moved) => {}
                Ok(Progress::Finished) => self.waiting = self.waiting.saturating_add(1),
                Ok(Progress::Idle | Progress::Waiting) => break,
                Err(_) => return Err(BenchError::Refused(Call::Convert)),
            }
        }
        Ok(())
    }

    // Takes this many steps of merging, or fewer if a merge ends. A merge takes all hash stores that are there when it
    // begins.
    fn merge<D: Disk, N: DeskId>(
        &mut self,
        alloc: Global,
        desk: &mut Desk<D, Count, N>,
        seat: &mut Seat<N>,
        steps: u64,
    ) -> Result<(), BenchError> {
        if !self.merging {
            self.waiting = 0;
        }
        for _step in 0..steps {
            match desk.merge(alloc, seat) {
                Ok(Progress::Moved) => self.merging = true,
                Ok(_) => {
                    self.merging = false;
                    break;
                }
                Err(_) => return Err(BenchError::Refused(Call::Merge)),
            }
        }
        Ok(())
    }
}
