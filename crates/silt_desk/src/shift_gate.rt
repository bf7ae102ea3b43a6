// A gate that lets the two workers work in shifts.
ghost use Rattle.std.specs.Prelude.{◌≡◌, ◌≤◌, ◌↔◌, Some, false, true, IsTrue};
ghost use Rattle.silt_desk.specs.Shifts.{EndsShift, MayWork, other_worker};

use crate::worker::{Gate, STEPS_A_GUARD, Spot};
use std::sync::{Condvar, Mutex, Wait};

/// How often a worker passes before the other one has its shift, if it waits for it: for 256 steps at most.
const PASSES_A_SHIFT: u32 = 256 / STEPS_A_GUARD;

// Whose shift it is, how often it has passed, and whether the other worker waits for the next one.
#[derive(Clone, Copy, Debug, PartialEq, Eq)]
struct Shift {
    worker: Option<Spot>,
    passes: u32,
    is_awaited: bool,
}

impl Shift {
    // Begins or continues a shift of this worker, unless the other one has the shift. Returns whether it did.
    fn work(&mut self, worker: Spot) -> bool
        ensures works { result ≡ true → MayWork worker self.old × (self.new.worker ≡ Some worker) × (self.new.is_awaited ≡ self.old.is_awaited) }
        ensures waits { result ≡ false → (MayWork worker self.old → ⊥) × (self.new ≡ record self.old { is_awaited = true }) }
    {
        if self.worker.is_some() && self.worker != Some(worker) {
            self.is_awaited = true;
            return false;
        }
        self.worker = Some(worker);
        self.passes = self.passes.saturating_add(1);
        true
    }

    // Whether this worker has had its shift, and the other one waits.
    fn is_over(&self, worker: Spot) -> bool
        ensures { IsTrue result ↔ ((self.now.worker ≡ Some worker) × (self.now.is_awaited ≡ true) × (4 ≤ self.now.passes)) }
    {
        self.worker == Some(worker) && self.is_awaited && self.passes >= PASSES_A_SHIFT
    }

    // Ends the shift of this worker, if it has it. The other one has the next, if it waits.
    fn end(&mut self, worker: Spot)
        ensures own { self.old.worker ≡ Some worker → EndsShift worker self.old self.new }
        ensures other { (self.old.worker ≡ Some worker → ⊥) → self.new ≡ self.old }
    {
        if self.worker == Some(worker) {
            self.worker = if self.is_awaited {
                other_worker(worker)
            } else {
                None
            };
            self.passes = 0;
            self.is_awaited = false;
        }
    }
}

// The other one of the two workers that work in shifts.
fn other_worker(worker: Spot) -> Option<Spot>
    ensures { result ≡ other_worker worker }
{
    match worker {
        Spot::Converter => Some(Spot::Merger),
        Spot::Merger => Some(Spot::Converter),
        Spot::Writer => None,
    }
}

/// Lets the converter and the merger work in shifts of 256 steps if both have work, and never stops the writer. So only
/// one of them at a time wants the store's lock. If both did, each step of one would wake the other.
#[derive(Drop)]
pub struct ShiftGate<'a, R: Wait> {
    rt: &'a R,
    shift: Mutex<Shift>,
    changed: Condvar,
}

impl<'a, R: Wait> ShiftGate<'a, R> {
    /// A gate that no worker has passed.
    pub fn new(rt: &'a R) -> ShiftGate<'a, R> {
        ShiftGate {
            rt,
            shift: Mutex::new(Shift {
                worker: None,
                passes: 0,
                is_awaited: false,
            }),
            changed: Condvar::new(),
        }
    }
}

impl<R: Wait> Gate for ShiftGate<'_, R> {
    fn pass(&self, spot: Spot) {
        if spot == Spot::Writer {
            return;
        }
        let mut shift = self.shift.lock(self.rt);
        if shift.is_over(spot) {
            shift.end(spot);
            self.changed.notify_one();
        }
        let _shift = self
            .changed
            .wait_while(self.rt, shift, |shift| !shift.work(spot));
    }

    fn rest(&self, spot: Spot) {
        self.shift.lock(self.rt).end(spot);
        self.changed.notify_one();
    }
}
