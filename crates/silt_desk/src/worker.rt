// Workers that do a store's steps in the background, some under each guard.
ghost use Rattle.std.specs.Prelude.{◌≡◌, false, true, IfSome, Result, Some};
ghost use Rattle.silt_event.specs.declared.progress.Progress.{Progress as ProgressOf};
ghost use Rattle.silt_store_set.specs.CoreState.{may_merge, wants_convert};
ghost use Rattle.silt_store_set.specs.Replies.{progress_reply};
ghost use Rattle.silt_event.specs.declared.event.Event.TheVariants.{Convert, Merge};
ghost use Rattle.silt_event.specs.declared.refusal.Refusal.{Refusal as RefusalOf};
ghost use Rattle.silt_hasher.specs.Taking.{taken_after};
ghost use Rattle.silt_desk.specs.DeskState.{Serves};
ghost use Rattle.silt_desk.specs.Turns.{turn_of};
ghost use Rattle.silt_desk.specs.declared.worker.Turn.TheVariants as TurnOf;

use crate::desk::Desk;
use crate::seat::{DeskId, Seat};
use crate::shared::Shared;
use crate::trace::Trace;
use crate::wakes::wake;
use crossbeam_channel::{Receiver, Sender};
use silt_disk::Disk;
use silt_event::{Place, Progress, Refusal};
use silt_store_set::LentBytes;
use std::alloc::Global;
use std::sync::Wait;
use std::time::{Clock, Duration};

/// How many steps a worker does at most under one guard. With few, workers and writer wait for the lock more than they work.
pub const STEPS_A_GUARD: u32 = 64;

/// How many seconds a worker waits before it tries a refused step again.
const PAUSE: u64 = 1;

/// A message to a worker.
#[derive(Clone, Copy, Debug, PartialEq, Eq)]
pub enum Wake {
    /// There may be work.
    Go,
    /// The worker is to end.
    Stop,
}

/// Which background work a store has to do.
#[derive(Clone, Copy, Debug, PartialEq, Eq)]
pub struct Due {
    pub converts: bool,
    pub merges: bool,
    /// Whether the merger has a step to do now. Else it waits for more hash stores.
    pub begins: bool,
}

/// Where a worker passes a gate.
#[derive(Clone, Copy, Debug, PartialEq, Eq)]
pub enum Spot {
    Converter,
    Merger,
    Writer,
}

/// What a worker passes before each guard, with no lock held.
pub trait Gate {
    /// Returns when the next steps may be done: at most [`STEPS_A_GUARD`].
    fn pass(&self, spot: Spot);

    /// The worker has nothing to do, and waits for a message.
    fn rest(&self, spot: Spot) {
        let _ = spot;
    }

    /// The merger's next step ends a merge, if nothing refuses it.
    fn ends_merge(&self) {}

    /// The worker has finished a conversion or a merge, and goes on.
    fn finished(&self, spot: Spot) {
        let _ = spot;
    }

    /// The least number of hash stores with which the merger begins a merge, unless a conversion waits for a hash region.
    fn merges_at(&self) -> u32 {
        1
    }

    /// The worker's step is refused, because this part of the device is damaged. The sorted region in use is this one, if that is known.
    fn damaged(&self, spot: Spot, place: Place, sorted: Option<u32>) {
        let _ = (spot, place, sorted);
    }

    /// The worker's call is refused, because a write or a sync of the store failed.
    fn failed(&self, spot: Spot) {
        let _ = spot;
    }

    /// Whether no further step is to be begun: the worker waits until it is told to end.
    fn is_closed(&self) -> bool {
        false
    }
}

/// A gate that is always open: a worker that passes it waits only for the store.
#[derive(Drop)]
pub struct OpenGate;

impl Gate for OpenGate {
    fn pass(&self, _spot: Spot) {}
}

/// What a worker does after a turn.
#[derive(Clone, Copy, Debug, PartialEq, Eq)]
pub enum Turn {
    /// There may be more to do.
    GoOn,
    /// There may be more to do, and also for the other worker.
    WakeOther,
    /// There is nothing to do before a message.
    Wait,
    /// The step is refused for now, so it is tried again after a pause.
    Pause,
    /// There is nothing to do before a message, because this part of the device is damaged.
    Damaged(Place),
    /// There is nothing to do before a message, because a write or a sync of the store failed.
    Failed,
}

// What the result of a step asks of a worker. A failed store and a damaged part refuse each later step too.
fn turn_after<F: Drop>(answer: Result<Progress, Refusal<F>>) -> Turn
    ensures { result ≡ turn_of answer }
{
    match answer {
        Ok(Progress::Moved) => Turn::GoOn,
        Ok(Progress::Finished) => Turn::WakeOther,
        Ok(Progress::Idle | Progress::Waiting) => Turn::Wait,
        Err(Refusal::Damaged(place)) => Turn::Damaged(place),
        Err(Refusal::Failed) => Turn::Failed,
        Err(_) => Turn::Pause,
    }
}

/// Does one step of conversion if there is one to do, and else nothing.
pub fn convert_once<D: Disk, T: Trace, N: DeskId>(
    desk: &mut Desk<D, T, N>,
    alloc: Global,
    seat: &mut Seat<N>,
) -> Turn
    ensures waits { wants_convert desk.old.core ≡ false → (result ≡ TurnOf.Wait) × (desk.new ≡ desk.old) × (seat.new ≡ seat.old) }
    ensures steps { wants_convert desk.old.core ≡ true → (answer : Result ProgressOf (RefusalOf D.Fault)) × (result ≡ turn_of answer)
        × Serves D.Disk T.Trace desk.old desk.new seat.old seat.new Convert (progress_reply answer) }
{
    if !desk.wants_convert() {
        return Turn::Wait;
    }
    turn_after(desk.convert(alloc, seat))
}

/// Does one step of merging if there is one to do, and else nothing. It begins a merge only of at least this many hash
/// stores, or if a conversion waits for a hash region.
pub fn merge_once<D: Disk, T: Trace, N: DeskId>(
    desk: &mut Desk<D, T, N>,
    alloc: Global,
    seat: &mut Seat<N>,
    least: u32,
) -> Turn
    ensures waits { may_merge desk.old.core least ≡ false → (result ≡ TurnOf.Wait) × (desk.new ≡ desk.old) × (seat.new ≡ seat.old) }
    ensures steps { may_merge desk.old.core least ≡ true → (answer : Result ProgressOf (RefusalOf D.Fault)) × (result ≡ turn_of answer)
        × Serves D.Disk T.Trace desk.old desk.new seat.old seat.new Merge (progress_reply answer) }
{
    if !desk.may_merge(least) {
        return Turn::Wait;
    }
    turn_after(desk.merge(alloc, seat))
}

// Does steps of conversion, at most as many as a guard has, until one asks for something else than to go on.
fn convert_some<D: Disk, T: Trace, N: DeskId>(
    desk: &mut Desk<D, T, N>,
    alloc: Global,
    seat: &mut Seat<N>,
) -> Turn
    ensures waits { wants_convert desk.old.core ≡ false → (result ≡ TurnOf.Wait) × (desk.new ≡ desk.old) × (seat.new ≡ seat.old) }
    ensures caller { seat.new.caller ≡ seat.old.caller }
{
    let mut turn = convert_once(desk, alloc, seat);
    for _ in 1..STEPS_A_GUARD {
        if turn != Turn::GoOn {
            return turn;
        }
        turn = convert_once(desk, alloc, seat);
    }
    turn
}

// Does steps of merging, at most as many as a guard has, until one asks for something else than to go on, or the next one ends a
// merge.
fn merge_some<D: Disk, T: Trace, N: DeskId>(
    desk: &mut Desk<D, T, N>,
    alloc: Global,
    seat: &mut Seat<N>,
    least: u32,
) -> Turn
    ensures waits { may_merge desk.old.core least ≡ false → (result ≡ TurnOf.Wait) × (desk.new ≡ desk.old) × (seat.new ≡ seat.old) }
    ensures caller { seat.new.caller ≡ seat.old.caller }
{
    let mut turn = merge_once(desk, alloc, seat, least);
    for _ in 1..STEPS_A_GUARD {
        if turn != Turn::GoOn || desk.ends_merge() {
            return turn;
        }
        turn = merge_once(desk, alloc, seat, least);
    }
    turn
}

// Takes what was hashed of the lent bytes, does steps of merging, and lends what then waits to be hashed.
fn merge_ahead<D: Disk, T: Trace, N: DeskId>(
    desk: &mut Desk<D, T, N>,
    alloc: Global,
    seat: &mut Seat<N>,
    least: u32,
    lent: &mut Option<LentBytes>,
) -> Turn
    ensures waits { may_merge desk.old.core least ≡ false → (result ≡ TurnOf.Wait) × (desk.new ≡ desk.old) × (seat.new ≡ seat.old) }
    ensures caller { seat.new.caller ≡ seat.old.caller }
{
    let Some(lent) = lent else {
        return merge_some(desk, alloc, seat, least);
    };
    desk.take_hashed(lent);
    let turn = merge_some(desk, alloc, seat, least);
    desk.lend_unhashed(lent);
    turn
}

// Hashes the lent bytes.
fn hash_lent(lent: &mut Option<LentBytes>)
    ensures { IfSome lent.new (λ new. IfSome lent.old (λ old. new.after ≡ Some (taken_after old.before old.bytes))) }
{
    if let Some(lent) = lent {
        lent.hash();
    }
}

/// How a worker learns that there may be work.
pub trait Hears: Drop {
    /// The worker was told to end, or no thread is left that could wake it.
    ghost has_ended: { Self → Type 0 };

    /// Waits for a message, and returns whether there may be work. It returns false if the worker is to end.
    fn goes_on<R: Wait>(&self, rt: &R) -> bool
        ensures { result ≡ false → has_ended self.now };

    /// Waits for a message, but no longer than `PAUSE` seconds, and returns whether to try again. It returns false if the worker is
    /// to end.
    fn tries_again<R: Wait + Clock>(&self, rt: &R) -> bool
        ensures { result ≡ false → has_ended self.now };
}

impl Hears for Receiver<Wake> {
    ghost has_ended = { λ _. Unit {0} };

    fn goes_on<R: Wait>(&self, rt: &R) -> bool {
        matches!(self.recv(rt), Ok(Wake::Go))
    }

    fn tries_again<R: Wait + Clock>(&self, rt: &R) -> bool {
        match self.recv_timeout(rt, Duration::from_secs(PAUSE)) {
            Ok(message) => message == Wake::Go,
            Err(error) => error.is_timeout(),
        }
    }
}

/// A worker's ends of the channels: where it is woken, and how it wakes the other one.
#[derive(Drop)]
pub struct WorkerEnds<W: Drop = Receiver<Wake>> {
    pub wakes: W,
    pub other: Sender<Wake>,
}

// What a worker does between two steps, with no lock held: it wakes the other one, or waits for a message. It returns
// false if it is to end.
fn rest<G: Gate, W: Hears, R: Wait + Clock>(
    rt: &R,
    turn: Turn,
    spot: Spot,
    gate: &G,
    ends: &WorkerEnds<W>,
) -> bool
    ensures { result ≡ false → W.has_ended ends.now.wakes }
{
    match turn {
        Turn::GoOn => true,
        Turn::WakeOther => {
            wake(rt, &ends.other);
            gate.finished(spot);
            true
        }
        Turn::Wait => {
            gate.rest(spot);
            ends.wakes.goes_on(rt)
        }
        Turn::Pause => {
            gate.rest(spot);
            ends.wakes.tries_again(rt)
        }
        Turn::Damaged(place) => {
            gate.damaged(spot, place, None);
            gate.rest(spot);
            ends.wakes.goes_on(rt)
        }
        Turn::Failed => {
            gate.failed(spot);
            gate.rest(spot);
            ends.wakes.goes_on(rt)
        }
    }
}

/// Does steps of conversion, some under each guard, until it hears that it is to end. Gives its seat back.
pub fn converter<D: Disk, T: Trace, N: DeskId, G: Gate, W: Hears, R: Wait + Clock>(
    rt: &R,
    alloc: Global,
    shared: &Shared<D, T, N>,
    mut seat: Seat<N>,
    gate: &G,
    ends: WorkerEnds<W>,
) -> Seat<N>
    ensures caller { result.caller ≡ seat.caller }
    ensures ended { W.has_ended ends.wakes }
{
    for _ in rt.forever() {
        gate.pass(Spot::Converter);
        let turn = match gate.is_closed() {
            true => Turn::Wait,
            false => convert_some(&mut *shared.write(rt), alloc, &mut seat),
        };
        if !rest(rt, turn, Spot::Converter, gate, &ends) {
            return seat;
        }
    }
    unreachable!()
}

// Does steps of merging under one guard, unless the gate is closed. Returns also whether the next one ends a merge.
fn merge_turn<D: Disk, T: Trace, N: DeskId, G: Gate, R: Wait>(
    rt: &R,
    alloc: Global,
    shared: &Shared<D, T, N>,
    seat: &mut Seat<N>,
    gate: &G,
    lent: &mut Option<LentBytes>,
) -> (Turn, bool)
    ensures { seat.new.caller ≡ seat.old.caller }
{
    if gate.is_closed() {
        return (Turn::Wait, false);
    }
    let least = gate.merges_at();
    let mut desk = shared.write(rt);
    let turn = merge_ahead(&mut *desk, alloc, seat, least, lent);
    (turn, desk.ends_merge())
}

/// Does steps of merging, some under each guard, until it hears that it is to end. The step that ends a merge is the first one of its
/// guard. Gives its seat back. Between two guards it hashes what the merge has read. Without memory for that, the steps hash it.
pub fn merger<D: Disk, T: Trace, N: DeskId, G: Gate, W: Hears, R: Wait + Clock>(
    rt: &R,
    alloc: Global,
    shared: &Shared<D, T, N>,
    mut seat: Seat<N>,
    gate: &G,
    ends: WorkerEnds<W>,
) -> Seat<N>
    ensures caller { result.caller ≡ seat.caller }
    ensures ended { W.has_ended ends.wakes }
{
    let mut lent = LentBytes::new(alloc).ok();
    for _ in rt.forever() {
        gate.pass(Spot::Merger);
        let (turn, is_last) = merge_turn(rt, alloc, shared, &mut seat, gate, &mut lent);
        hash_lent(&mut lent);
        if is_last {
            gate.ends_merge();
        }
        if !rest(rt, turn, Spot::Merger, gate, &ends) {
            return seat;
        }
    }
    unreachable!()
}
