// The tickets of jobs.
ghost use Rattle.std.specs.Prelude.{◌≡◌, Some, IfSome, MatchBool};
ghost use Rattle.silt_session.specs.Requests.{requests_of};

use crate::job_log::{JobLog, LogId, LogView};
use crate::task::Task;
use silt_desk::Trace;
use silt_disk::Disk;
use std::marker::Model;
use std::sync::Wait;

/// The most jobs of a log.
const MOST_JOBS: u64 = 1 << 62;

/// The number of a job, which no other job has. Contracts see what the job asked.
#[derive(Drop)]
pub struct Ticket<N: LogId> {
    number: u64,
    view: LogView<N>,
}

impl<N: LogId> Model for Ticket<N> {
    ghost use Rattle.std.specs.Prelude.{◌<◌, length, slice_get};
    ghost use Rattle.silt_session.specs.JobLogs.{TicketState};

    ghost Value = { TicketState };

    ghost view = { λ t. record { number = t.number; asked = slice_get t.view t.number } };

    ghost invariant = { λ t. t.number < length t.view };
}

impl<N: LogId> Ticket<N> {
    /// Draws a ticket for the job of these tasks. None if the log is full.
    pub(crate) fn draw<D: Disk, T: Trace, R: Wait>(
        rt: &R,
        log: &JobLog<N>,
        tasks: &Vec<Task<D, T>>,
    ) -> Option<Ticket<N>>
        ensures { IfSome result (λ ticket. ticket.asked ≡ Some (requests_of tasks.now.items)) }
    {
        let mut view = log.view();
        for _ in rt.forever() {
            let number = view.len();
            if number >= MOST_JOBS {
                return None;
            }
            if view.append(log, tasks) {
                return Some(Ticket { number, view });
            }
        }
        unreachable!()
    }

    /// A copy.
    pub(crate) fn again(&self) -> Ticket<N>
        ensures { result ≡ self.now }
    {
        Ticket {
            number: self.number,
            view: self.view.again(),
        }
    }

    /// Whether two tickets are of the same job.
    pub(crate) fn is(&self, other: &Ticket<N>) -> bool
        ensures { MatchBool result (self.now.asked ≡ other.now.asked) (Unit {0}) }
    {
        if self.number != other.number {
            return false;
        }
        let _known = self.view.longer(&other.view); // one of the two views is a beginning of the other
        true
    }
}
