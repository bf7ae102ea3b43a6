// The log of all jobs: it numbers them, and contracts see what each of them asked. Only its length is kept in memory.
ghost use Rattle.std.specs.Prelude.{◌≡◌, ◌+◌, ◌<◌, ◌≤◌, ◌^◌, ◌++◌, ◌∷◌, ◌⊎◌, [], length, MatchBool};
ghost use mathlib.Core.List.{IsPrefix};
ghost use Rattle.silt_desk.specs.CallLogs.{IsLonger, log_word};
ghost use Rattle.silt_session.specs.Requests.{requests_of};

use crate::job::Request;
use crate::task::Task;
use logbook::{Gain, Offer, Plain, Play, Rule, Seen, Start, Word};
use silt_desk::Trace;
use silt_disk::Disk;
use std::collections::LinkedList;
use std::marker::{Brand, Model, PhantomData};

/// What the log's word is: its length.
struct IsLength;

impl Rule<LinkedList<Request>, u64> for IsLength {
    ghost use Rattle.std.specs.Prelude.{[]};
    ghost use base.Fml.{ftrue};
    ghost use Rattle.silt_desk.specs.CallLogs.{CountsLog};

    ghost holds = { λ cells log. CountsLog cells log };

    ghost first = { [] };

    ghost hinted = { λ n log. Unit {0} };

    ghost shows = { λ log. [] };

    ghost keeps = { λ names log. ftrue };

    ghost moves = { λ ask before after answer. Unit {0} };
}

/// A step gives nothing back.
struct GivesNothing;

impl Gain<LinkedList<Request>, u64> for GivesNothing {
    ghost use base.Fml.{ftrue};

    ghost after = { λ names about answer. ftrue };
}

/// A step that appends a job.
struct Append;

impl Play<LinkedList<Request>, u64> for Append {
    ghost use Rattle.silt_desk.specs.CallLogs.{AddsEntry};

    ghost then = { AddsEntry };
}

impl<D: Disk, T: Trace> Plain<Vec<Task<D, T>>, LinkedList<Request>, u64> for Append {
    ghost use Rattle.std.specs.Prelude.{None};
    ghost use Rattle.silt_session.specs.Requests.{requests_of};

    ghost ask = { λ tasks. requests_of tasks.items };

    ghost state = { λ tasks. None };
}

/// Which log it is.
pub trait LogId {
    ghost use Rattle.logbook.specs.Pages.{Book};

    ghost log: { Book };
}

impl LogId for Brand {
    ghost log = { record { number = 0; log_name = 0; cells_name = 0 } };
}

/// A log of no jobs. Contracts see which one it is.
#[derive(Drop)]
pub struct LogStart {
    head: Word<LinkedList<Request>, u64, IsLength>,
    seen: Seen<LinkedList<Request>, u64, IsLength>,
}

impl Model for LogStart {
    ghost use Rattle.std.specs.Prelude.{◌≡◌, []};
    ghost use Rattle.logbook.specs.Pages.{Book};
    ghost use Rattle.silt_desk.specs.CallLogs.{log_word};

    ghost Value = { Book };

    ghost view = { λ s. s.seen.book };

    ghost invariant = { λ s. (s.seen.log ≡ []) × (s.head ≡ log_word s.seen.book) };
}

impl LogStart {
    /// A log of no jobs.
    pub fn new() -> LogStart {
        let (seen, mut first, _second) = Seen::open(Start::alone(), 0, 0);
        LogStart {
            head: Word::tracked(0, &mut first),
            seen,
        }
    }

    /// The log under its name.
    pub fn named<N: LogId>(self) -> JobLog<N>
        requires { self ≡ N.log }
        ensures { result.first ≡ [] }
    {
        let LogStart { head, seen } = self;
        JobLog {
            head,
            first: LogView {
                count: 0,
                seen,
                of: PhantomData,
            },
        }
    }
}

/// The log, which all threads share.
#[derive(Drop)]
pub struct JobLog<N: LogId> {
    head: Word<LinkedList<Request>, u64, IsLength>,
    first: LogView<N>,
    ghost head_is: { head ≡ log_word N.log },
}

impl<N: LogId> JobLog<N> {
    /// What every thread has seen of the log.
    pub fn view(&self) -> LogView<N>
        ensures { result ≡ self.now.first }
    {
        self.first.again()
    }
}

/// A beginning of the log that was seen. Contracts see what its jobs asked.
#[derive(Drop)]
pub struct LogView<N: LogId> {
    count: u64,
    seen: Seen<LinkedList<Request>, u64, IsLength>,
    of: PhantomData<N>,
}

impl<N: LogId> Model for LogView<N> {
    ghost use Rattle.std.specs.Prelude.{◌≡◌, List, length};
    ghost use Rattle.silt_session.specs.declared.job.Request.{Request};

    ghost Value = { List (List Request) };

    ghost view = { λ v. v.seen.log };

    ghost invariant = { λ v. (v.count ≡ length v.seen.log) × (v.seen.book ≡ N.log) };
}

impl<N: LogId> LogView<N> {
    /// How many jobs it has.
    pub(crate) fn len(&self) -> u64
        ensures { result ≡ length self.now }
    {
        self.count
    }

    /// A copy.
    pub(crate) fn again(&self) -> LogView<N>
        ensures { result ≡ self.now }
    {
        LogView {
            count: self.count,
            seen: self.seen.again(),
            of: PhantomData,
        }
    }

    /// The longer of two views, which the other begins.
    pub(crate) fn longer(&self, other: &LogView<N>) -> LogView<N>
        ensures one { (result ≡ self.now) ⊎ (result ≡ other.now) }
        ensures this { IsPrefix self.now result }
        ensures that { IsPrefix other.now result }
    {
        let mut both = self.seen.again();
        both.learn(&other.seen);
        if self.count < other.count {
            other.again()
        } else {
            self.again()
        }
    }

    /// Appends the job of these tasks to the log, if that has no more jobs than were seen. Returns whether it did.
    pub(crate) fn append<D: Disk, T: Trace>(
        &mut self,
        log: &JobLog<N>,
        tasks: &Vec<Task<D, T>>,
    ) -> bool
        requires { length self.old < 2 ^ 62 }
        ensures { MatchBool result (self.new ≡ self.old ++ requests_of tasks.now.items ∷ []) (IsLonger self.old self.new) }
    {
        let mut offer: Offer<LinkedList<Request>, u64, IsLength, GivesNothing> = self
            .seen
            .plain::<GivesNothing, Vec<Task<D, T>>, Append>(tasks);
        let mut pen = self.seen.no_pen();
        let count = self.count;
        let found = log
            .head
            .compare_exchange::<Append, GivesNothing>(
                count,
                count + 1,
                &mut self.seen,
                &mut offer,
                &mut pen,
            );
        self.count = if found == count { count + 1 } else { found };
        found == count
    }
}
