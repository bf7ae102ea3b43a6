// What a session counts of its events and their replies.
ghost use Rattle.std.specs.Prelude.{◌≡◌};
ghost use Rattle.silt_session.specs.Requests.{is_failure};

use crate::board::Board;
use silt_event::{COUNTS, Counter, Event, Refusal, Reply};
use std::time::Clock;

/// Whether a call is refused because a read, a write or a sync of the device failed, now or before.
pub(crate) fn is_failure(refusal: &Refusal<()>) -> bool
    ensures { result ≡ is_failure refusal.now }
{
    matches!(refusal, Refusal::Device(_) | Refusal::Failed)
}

// What counts an event. Steps are not counted.
fn counter_of(event: &Event) -> Option<Counter> {
    match event {
        Event::Get(_) => Some(Counter::Gets),
        Event::Put(_, _) => Some(Counter::Puts),
        Event::Delete(_) => Some(Counter::Deletes),
        Event::Swap(_, _, _) => Some(Counter::Swaps),
        Event::Flush => Some(Counter::Flushes),
        Event::Convert | Event::Merge => None,
    }
}

/// What is counted of some events and their replies, before it is put on the board.
#[derive(Drop)]
pub(crate) struct Tally {
    numbers: [u64; COUNTS],
    has_failed: bool,
}

impl Tally {
    /// Nothing is counted yet.
    pub(crate) fn new() -> Tally {
        Tally {
            numbers: [0; COUNTS],
            has_failed: false,
        }
    }

    // Counts so many more.
    fn add(&mut self, counter: Counter, more: u64) {
        let place = counter.place();
        self.numbers[place] = self.numbers[place].wrapping_add(more);
    }

    /// Counts an event.
    pub(crate) fn event(&mut self, event: &Event) {
        if let Some(counter) = counter_of(event) {
            self.add(counter, 1);
        }
    }

    /// Counts events.
    pub(crate) fn events(&mut self, events: &[Event]) {
        for event in events {
            self.event(event);
        }
    }

    /// Counts so many replies like this one, if it is a refusal.
    pub(crate) fn reply(&mut self, reply: &Reply<()>, times: u64) {
        if let Reply::Refused(refusal) = reply {
            self.add(Counter::Refusals(refusal.label().0), times);
            self.has_failed |= is_failure(refusal);
        }
    }

    /// Counts replies.
    pub(crate) fn replies(&mut self, replies: &[Reply<()>]) {
        for reply in replies {
            self.reply(reply, 1);
        }
    }

    /// Puts what was counted on the board.
    pub(crate) fn post<R: Clock>(&self, rt: &R, board: &Board) {
        board.add(&self.numbers);
        if self.has_failed {
            board.note_failure(rt);
        }
    }
}
