// How the writer waits for room that a worker makes.
ghost use Rattle.std.specs.Prelude.{◌≡◌, false};

use crossbeam_channel::{Receiver, Sender};
use silt_desk::{Gate, Spot, View, Wake, Wakes, wake};
use silt_event::Place;
use std::alloc::{AllocError, Global};
use std::sync::Wait;
use std::time::{Clock, Duration, Instant};

/// How many messages the writer's channel holds. The converter and the merger each send one at a time, so a send never
/// waits. The channel allocates its memory when it is made, so a send is never out of memory.
const MESSAGES: usize = 4;

/// A channel to the writer, for messages that there may be room.
///
/// # Errors
///
/// Out of memory for the channel.
pub fn room_channel(alloc: Global) -> Result<(Sender<Wake>, Receiver<Wake>), AllocError> {
    crossbeam_channel::bounded(alloc, MESSAGES)
}

/// How the writer hears that there may be room.
pub trait HearsRoom: Drop {
    /// The time is over, or no thread is left that could send a message.
    ghost has_ended: { Self → Type 0 };

    /// Waits for a message until this moment, or not at all if there is none. Returns whether one came.
    fn comes<R: Wait + Clock>(&self, rt: &R, until: Option<Instant>) -> bool
        ensures { result ≡ false → has_ended self.now };
}

impl HearsRoom for Receiver<Wake> {
    ghost has_ended = { λ _. Unit {0} };

    fn comes<R: Wait + Clock>(&self, rt: &R, until: Option<Instant>) -> bool {
        match until {
            Some(until) => self.recv_deadline(rt, until).is_ok(),
            None => false,
        }
    }
}

/// How the writer waits for room: it wakes the workers that have work, and tries again when one of them may have made
/// room, for so many seconds in all.
#[derive(Drop)]
pub struct RoomWait<H: HearsRoom> {
    pub wakes: Wakes,
    pub heard: H,
    pub seconds: u32,
}

impl<H: HearsRoom> RoomWait<H> {
    /// When a wait ends that begins now. None if the clock cannot say.
    pub(crate) fn deadline<R: Clock>(&self, rt: &R) -> Option<Instant> {
        let seconds = Duration::from_secs(u64::from(self.seconds));
        Instant::now(rt).ok()?.checked_add(seconds)
    }

    /// A second from now, or this moment if it comes before. None if there is none, or if the clock cannot say.
    pub(crate) fn soon<R: Clock>(&self, rt: &R, until: Option<Instant>) -> Option<Instant> {
        let second = Instant::now(rt).ok()?.checked_add(Duration::from_secs(1))?;
        Some(until?.min(second))
    }
}

/// A gate that also tells the writer when a worker may have made room: it has finished a conversion, or it rests. Each
/// message follows the guard under which the worker did its last step, so a try behind the message sees the step. If the
/// store has failed when a worker rests, the gate hears of it: a failed store has no step that could be refused.
#[derive(Drop)]
pub struct RoomGate<'a, V: View, G: Gate, R: Wait> {
    pub rt: &'a R,
    pub view: &'a V,
    pub gate: &'a G,
    pub room: Sender<Wake>,
}

impl<V: View, G: Gate, R: Wait> Gate for RoomGate<'_, V, G, R> {
    fn pass(&self, spot: Spot) {
        self.gate.pass(spot);
    }

    fn rest(&self, spot: Spot) {
        if self.view.facts().failed > 0 {
            self.gate.failed(spot);
        }
        self.gate.rest(spot);
        wake(self.rt, &self.room);
    }

    fn ends_merge(&self) {
        self.gate.ends_merge();
    }

    fn finished(&self, spot: Spot) {
        self.gate.finished(spot);
        if spot == Spot::Converter {
            wake(self.rt, &self.room);
        }
    }

    fn merges_at(&self) -> u32 {
        self.gate.merges_at()
    }

    // A damaged store keeps its record, so the sorted region is the one that was read.
    fn damaged(&self, spot: Spot, place: Place, _sorted: Option<u32>) {
        let (body, _) = self.view.named();
        self.gate.damaged(spot, place, Some(body.sorted));
    }

    fn failed(&self, spot: Spot) {
        self.gate.failed(spot);
    }

    fn is_closed(&self) -> bool {
        self.gate.is_closed()
    }
}
