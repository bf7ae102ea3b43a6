// A session's ways to the store.
ghost use Rattle.std.specs.Prelude.{◌≡◌, IfOk, Some};
ghost use Rattle.silt_session.specs.Requests.{requests_of};

use crate::job::{Awaited, Job};
use crate::job_log::{JobLog, LogId};
use crate::session_number::SessionNumber;
use crate::session_slots::SessionSlot;
use crate::task::Task;
use crate::unanswered::Unanswered;
use silt_desk::{DeskId, Shared, Trace};
use silt_disk::Disk;
use silt_inbox::{Inbox, InboxId, NotPutReason};
use std::alloc::Global;
use std::sync::{Mutex, Wait};

/// The way to the writer: it puts tasks into the inbox with the feeder of the session's slot.
#[derive(Drop)]
pub struct WriterLink<'a, D: Disk, T: Trace, N: InboxId + LogId, R> {
    pub rt: &'a R,
    pub alloc: Global,
    pub inbox: &'a Inbox<Job<D, T, N>, N>,
    pub log: &'a JobLog<N>,
    pub slot: &'a Mutex<SessionSlot<N>>,
}

/// A session's ways to the store: it looks keys up at the desk, at the same time as other sessions, and has its changes done
/// by the writer.
#[derive(Drop)]
pub struct Session<'a, D: Disk, T: Trace, N: DeskId + InboxId + LogId, R> {
    pub rt: &'a R,
    pub alloc: Global,
    pub desk: &'a Shared<D, T, N>,
    pub writer: WriterLink<'a, D, T, N, R>,
    /// Its number, which no other session of the server has. Other crates cannot name it, so they get it from [`Session::new`] alone.
    pub(crate) number: u64,
    /// Whether a get waits for a flush if a crash may take away what it shows.
    pub settles_gets: bool,
}

impl<D: Disk, T: Trace, N: InboxId + LogId, R: Wait> WriterLink<'_, D, T, N, R> {
    // Hands tasks to the writer as one job, and returns where they will come back with their replies. If out of memory,
    // nothing is handed over.
    fn hand_over(&self, tasks: Vec<Task<D, T>>) -> Result<Awaited<D, T, N>, NotPutReason>
        ensures { IfOk result (λ awaited. awaited.ticket.asked ≡ Some (requests_of tasks.items)) }
    {
        let Some((job, awaited)) = Job::new(self.rt, self.alloc, self.log, tasks) else {
            return Err(NotPutReason::NoMemory);
        };
        let mut slot = self.slot.lock(self.rt);
        match self.inbox.put(self.rt, slot.feeder(), job) {
            Ok(()) => Ok(awaited),
            Err(refused) => Err(refused.reason),
        }
    }

    /// Hands tasks to the writer as one job, and returns where they will come back with their replies.
    ///
    /// # Errors
    ///
    /// The inbox is closed, or out of memory. Nothing is handed over.
    pub(crate) fn send(&self, tasks: Vec<Task<D, T>>) -> Result<Awaited<D, T, N>, Unanswered>
        ensures { IfOk result (λ awaited. awaited.ticket.asked ≡ Some (requests_of tasks.items)) }
    {
        match self.hand_over(tasks) {
            Ok(awaited) => Ok(awaited),
            Err(NotPutReason::NoMemory) => Err(Unanswered::NoMemory),
            Err(NotPutReason::Closed) => Err(Unanswered::Lost),
        }
    }

    /// Has tasks done together, and waits until they come back with their replies: those of the same requests, in order.
    ///
    /// # Errors
    ///
    /// They do not come back, or out of memory before any of them is done.
    pub fn commit(&self, tasks: Vec<Task<D, T>>) -> Result<Vec<Task<D, T>>, Unanswered>
        ensures { IfOk result (λ done. requests_of done.items ≡ requests_of tasks.items) }
    {
        let awaited = self.send(tasks)?;
        awaited.wait(self.rt).ok_or(Unanswered::Lost)
    }
}

impl<'a, D: Disk, T: Trace, N: DeskId + InboxId + LogId, R> Session<'a, D, T, N, R> {
    /// The session of this number, at this desk and with this way to the writer. With `settles_gets` a get waits for a flush if a crash may
    /// take away what it shows.
    pub fn new(
        desk: &'a Shared<D, T, N>,
        writer: WriterLink<'a, D, T, N, R>,
        number: &SessionNumber,
        settles_gets: bool,
    ) -> Session<'a, D, T, N, R>
        ensures { (result.number ≡ number.now) × (result.settles_gets ≡ settles_gets) }
    {
        Session {
            rt: writer.rt,
            alloc: writer.alloc,
            desk,
            writer,
            number: number.get(),
            settles_gets,
        }
    }
}
