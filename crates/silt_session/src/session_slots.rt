// The slots of the sessions.
ghost use Rattle.std.specs.Prelude.{◌≡◌, ◌<◌, true, false, not, length, Some, None, IfSome, IfOk, vec_len};

use crate::session_number::SessionNumber;
use silt_inbox::{Feeder, InboxId};
use std::alloc::{AllocError, Global};
use std::mem;
use std::net::TcpStream;
use std::sync::{Mutex, Wait};

/// A connection that was accepted, and its number: that of its session.
#[derive(Drop)]
pub struct Newcomer {
    pub stream: TcpStream,
    pub number: SessionNumber,
}

/// The slot of one session: its feeder, whether a session has it, and the connection that waits for its thread.
#[derive(Drop)]
pub struct SessionSlot<P: InboxId> {
    feeder: Feeder<P>,
    is_taken: bool,
    newcomer: Option<Newcomer>,
}

impl<P: InboxId> SessionSlot<P> {
    // Takes the slot, and returns whether it was free.
    fn take(&mut self) -> bool
        ensures taken { self.new.is_taken ≡ true }
        ensures free { result ≡ not self.old.is_taken }
        ensures others { (self.new.feeder ≡ self.old.feeder) × (self.new.newcomer ≡ self.old.newcomer) }
    {
        let was_free = !self.is_taken;
        self.is_taken = true;
        was_free
    }

    /// Gives a connection to the session that will have this slot.
    pub fn connect(&mut self, newcomer: Newcomer)
        ensures given { self.new.newcomer ≡ Some newcomer }
        ensures others { (self.new.feeder ≡ self.old.feeder) × (self.new.is_taken ≡ self.old.is_taken) }
    {
        self.newcomer = Some(newcomer);
    }

    /// The connection that was given.
    pub fn connection(&mut self) -> Option<Newcomer>
        ensures given { result ≡ self.old.newcomer }
        ensures none { self.new.newcomer ≡ None }
        ensures others { (self.new.feeder ≡ self.old.feeder) × (self.new.is_taken ≡ self.old.is_taken) }
    {
        mem::replace(&mut self.newcomer, None)
    }

    /// Gives the slot back, with its feeder. A connection that still waits is closed.
    pub fn leave(&mut self)
        ensures free { self.new.is_taken ≡ false }
        ensures none { self.new.newcomer ≡ None }
        ensures feeder { self.new.feeder ≡ self.old.feeder }
    {
        self.is_taken = false;
        self.newcomer = None;
    }

    /// The feeder with which the session puts its jobs.
    pub fn feeder(&mut self) -> &mut Feeder<P> {
        &mut self.feeder
    }
}

/// A free slot for each feeder.
///
/// # Errors
///
/// Out of memory for the list.
pub fn slots_of<P: InboxId>(
    alloc: Global,
    feeders: Vec<Feeder<P>>,
) -> Result<Vec<Mutex<SessionSlot<P>>>, AllocError>
    ensures { IfOk result (λ slots. vec_len slots ≡ vec_len feeders) }
{
    let mut slots = Vec::with_capacity(alloc, feeders.len())?;
    let mut feeders = feeders;
    while let Some(feeder) = feeders.pop() {
        slots.push(Mutex::new(SessionSlot {
            feeder,
            is_taken: false,
            newcomer: None,
        }))?;
    }
    Ok(slots)
}

/// The number of a slot that was free, and is now taken.
pub fn free_slot<P: InboxId, R: Wait>(rt: &R, slots: &[Mutex<SessionSlot<P>>]) -> Option<usize>
    ensures { IfSome result (λ number. number < length slots.now) }
{
    for number in 0..slots.len() {
        if slots[number].lock(rt).take() {
            return Some(number);
        }
    }
    None
}
