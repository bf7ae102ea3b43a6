// What goes from the sessions to the writer.
ghost use Rattle.std.specs.Prelude.{◌≡◌, Some, IfSome, MatchResult};
ghost use Rattle.std.specs.Option.{option_copied};
ghost use Rattle.silt_session.specs.Requests.{IsNoRequest, asked_event, changed_key, requests_of};

use crate::job_log::{JobLog, LogId};
use crate::task::Task;
use crate::ticket::Ticket;
use crossbeam_channel::{Receiver, Sender};
use silt_desk::Trace;
use silt_disk::Disk;
use silt_event::Event;
use silt_frame::{Key, Value};
use std::alloc::Global;
use std::marker::Model;
use std::sync::Wait;

/// A request of a session to the writer.
#[derive(Drop)]
pub enum Request {
    Put(Key, Value),
    Delete(Key),
    /// The old value and the new one, if there are such.
    Swap(Key, Option<Value>, Option<Value>),
    Flush,
}

impl Request {
    /// The key that the request may change.
    pub(crate) fn key(&self) -> Option<&Key>
        ensures { option_copied result ≡ changed_key (asked_event self.now) }
    {
        match self {
            Request::Put(key, _) | Request::Delete(key) | Request::Swap(key, _, _) => Some(key),
            Request::Flush => None,
        }
    }

    /// The request of a command or of a flush. Any other event is handed back.
    ///
    /// # Errors
    ///
    /// The event, if it is not for the writer.
    pub fn of(event: Event) -> Result<Request, Event>
        ensures { MatchResult result (λ request. asked_event request ≡ event) (λ other. (other ≡ event) × IsNoRequest event) }
    {
        match event {
            Event::Put(key, value) => Ok(Request::Put(key, value)),
            Event::Delete(key) => Ok(Request::Delete(key)),
            Event::Swap(key, old, new) => Ok(Request::Swap(key, old, new)),
            Event::Flush => Ok(Request::Flush),
            Event::Get(_) | Event::Convert | Event::Merge => Err(event),
        }
    }
}

/// The tasks of a job, with its ticket. Its type says that the ticket was drawn for them.
#[derive(Drop)]
pub struct Tasks<D: Disk, T: Trace, N: LogId> {
    pub(crate) items: Vec<Task<D, T>>,
    ticket: Ticket<N>,
}

impl<D: Disk, T: Trace, N: LogId> Model for Tasks<D, T, N> {
    ghost use Rattle.std.specs.Prelude.{◌≡◌, Some};
    ghost use Rattle.silt_session.specs.JobLogs.{TasksState};
    ghost use Rattle.silt_session.specs.Requests.{requests_of};

    ghost Value = { TasksState };

    ghost view = { λ t. record { items = t.items.items; ticket = t.ticket } };

    ghost invariant = { λ t. t.ticket.asked ≡ Some (requests_of t.items.items) };
}

impl<D: Disk, T: Trace, N: LogId> Tasks<D, T, N> {
    /// The tasks, in order.
    pub fn into_items(self) -> Vec<Task<D, T>>
        ensures items { result.items ≡ self.items }
        ensures asked { self.ticket.asked ≡ Some (requests_of result.items) }
    {
        self.items
    }
}

/// The tasks that a session hands over at once, and where they go back with their replies.
#[derive(Drop)]
pub struct Job<D: Disk, T: Trace, N: LogId> {
    pub tasks: Tasks<D, T, N>,
    pub replies: Sender<Tasks<D, T, N>>,
}

/// Where the tasks of a job come back, and its ticket.
#[derive(Drop)]
pub struct Awaited<D: Disk, T: Trace, N: LogId> {
    pub ticket: Ticket<N>,
    pub back: Receiver<Tasks<D, T, N>>,
}

impl<D: Disk, T: Trace, N: LogId> Job<D, T, N> {
    /// A job of these tasks, and where they come back. It draws a ticket. None if out of memory for the channel.
    pub fn new<R: Wait>(
        rt: &R,
        alloc: Global,
        log: &JobLog<N>,
        tasks: Vec<Task<D, T>>,
    ) -> Option<(Job<D, T, N>, Awaited<D, T, N>)>
        ensures tasks { IfSome result (λ made. made.0.tasks.items ≡ tasks.items) }
        ensures asked { IfSome result (λ made. made.1.ticket.asked ≡ Some (requests_of tasks.items)) }
    {
        let (replies, back) = crossbeam_channel::bounded(alloc, 1).ok()?;
        let ticket = Ticket::draw(rt, log, &tasks)?;
        let mine = ticket.again();
        let tasks = Tasks {
            items: tasks,
            ticket,
        };
        Some((Job { tasks, replies }, Awaited { ticket: mine, back }))
    }

    /// Sends the tasks back with their replies. It takes no memory.
    pub(crate) fn send<R: Wait>(self, rt: &R) {
        let Job { tasks, replies } = self;
        let _ = replies.send(rt, tasks); // the session may have ended
    }
}

impl<D: Disk, T: Trace, N: LogId> Awaited<D, T, N> {
    /// Waits until the tasks come back. None if they do not, or if those of another job come.
    pub fn wait<R: Wait>(&self, rt: &R) -> Option<Vec<Task<D, T>>>
        ensures { IfSome result (λ tasks. self.now.ticket.asked ≡ Some (requests_of tasks.items)) }
    {
        let tasks = self.back.recv(rt).ok()?;
        if !tasks.ticket.is(&self.ticket) {
            return None;
        }
        Some(tasks.into_items())
    }
}
