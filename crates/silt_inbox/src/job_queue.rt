// What lies under the lock of an inbox.
ghost use Rattle.std.specs.Prelude.{◌≡◌, ◌≢◌, ◌+◌, ◌%◌, ◌^◌, ◌++◌, ◌∷◌, [], length, vec_len, true, false, IfOk, IfSome, IsSomeAnd, MatchResult, MatchOption, MatchBool};
ghost use Rattle.silt_inbox.specs.Books.{counted, has_books, jobs_of};
ghost use Rattle.silt_inbox.specs.JobQueue.{JobQueueState, IsReason};

use crate::places::{Books, Feeder, InboxId, Taker, count_put, count_taken};
use crate::queue::Queue;
use std::marker::Model;

/// Why a job was not put.
#[derive(Clone, Copy, Debug, PartialEq, Eq)]
pub enum NotPutReason {
    /// The inbox was closed.
    Closed,
    /// Out of memory for the job.
    NoMemory,
}

/// A job that was not put.
#[derive(Drop)]
pub struct NotPut<J: Drop> {
    pub reason: NotPutReason,
    pub job: J,
}

/// The given feeders, if some are missing.
#[derive(Drop)]
pub struct MissingFeeders<P: InboxId> {
    pub feeders: Vec<Feeder<P>>,
    pub taker: Taker<P>,
}

/// The jobs that wait, with the books of those put and taken. Contracts see the jobs, and whether the inbox is closed.
#[derive(Drop)]
pub(crate) struct JobQueue<J: Drop, P: InboxId> {
    queue: Queue<J>,
    closed: bool,
    feeders: u64,
    put: u64,
    taken: u64,
    books: Option<Books<P>>,
}

impl<J: Drop, P: InboxId> Model for JobQueue<J, P> {
    ghost use Rattle.std.specs.Prelude.{◌≡◌, ◌+◌, ◌%◌, ◌^◌, length, MatchOption, false, true};
    ghost use Rattle.silt_inbox.specs.Books.{has_books};
    ghost use Rattle.silt_inbox.specs.JobQueue.{IsBooked, JobQueueState};

    ghost Value = { JobQueueState J };

    ghost view = { λ l. record { jobs = l.queue; closed = l.closed } };

    ghost invariant = { λ l. MatchOption l.books (has_books P.feeders ≡ false) (IsBooked P.feeders l.feeders l.queue l.put l.taken) };
}

impl<J: Drop, P: InboxId> JobQueue<J, P> {
    // No jobs yet. All feeders have their places.
    pub fn new(queue: Queue<J>, feeders: u64, books: Books<P>) -> JobQueue<J, P>
        requires none { queue ≡ [] }
        requires books { (books.put ≡ 0) × (books.taken ≡ 0) }
        requires feeders { feeders ≡ P.feeders }
        ensures { (result.jobs ≡ []) × (result.closed ≡ false) }
    {
        JobQueue {
            queue,
            closed: false,
            feeders,
            put: 0,
            taken: 0,
            books: Some(books),
        }
    }

    // No jobs yet, and no books.
    pub fn unbooked(queue: Queue<J>) -> JobQueue<J, P>
        requires none { queue ≡ [] }
        requires books { has_books P.feeders ≡ false }
        ensures { (result.jobs ≡ []) × (result.closed ≡ false) }
    {
        JobQueue {
            queue,
            closed: false,
            feeders: 0,
            put: 0,
            taken: 0,
            books: None,
        }
    }

    // Puts a job at the back, or hands it back.
    pub fn put(&mut self, feeder: &mut Feeder<P>, job: J) -> Result<(), NotPut<J>>
        ensures put { MatchResult result (λ _. (self.new.jobs ≡ self.old.jobs ++ job ∷ []) × (feeder.new ≡ counted 1 feeder.old)) (λ e. (e.job ≡ job) × (self.new.jobs ≡ self.old.jobs)
            × (feeder.new ≡ feeder.old)) }
        ensures reason { MatchResult result (λ _. self.old.closed ≡ false) (λ e. IsReason self.old.closed e.reason) }
        ensures closed { self.new.closed ≡ self.old.closed }
    {
        if self.closed {
            return Err(NotPut {
                reason: NotPutReason::Closed,
                job,
            });
        }
        match self.queue.push(job) {
            Ok(()) => {
                count_put(&mut self.books, feeder);
                self.put = self.put.wrapping_add(1);
                Ok(())
            }
            Err(refused) => Err(NotPut {
                reason: NotPutReason::NoMemory,
                job: refused.job,
            }),
        }
    }

    // Takes all jobs. `None` if there are none.
    pub fn take_all(&mut self, taker: &mut Taker<P>) -> Option<Vec<J>>
        ensures taken { MatchOption result ((self.old.jobs ≡ []) × (taker.new ≡ taker.old)) (λ v. (v.items ≡ self.old.jobs) × (taker.new ≡ counted (vec_len v) taker.old)) }
        ensures none { self.new.jobs ≡ [] }
        ensures closed { self.new.closed ≡ self.old.closed }
    {
        if self.queue.len() == 0 {
            return None;
        }
        let jobs = self.queue.drain();
        let count = jobs.len() as u64;
        count_taken(&mut self.books, taker, count);
        self.taken = self.taken.wrapping_add(count);
        Some(jobs)
    }

    // From now on no job is put.
    pub fn close(&mut self)
        ensures jobs { self.new.jobs ≡ self.old.jobs }
        ensures closed { self.new.closed ≡ true }
    {
        self.closed = true;
    }

    // Whether the taker has to wait.
    pub fn is_idle(&self) -> bool
        ensures { MatchBool result ((self.now.jobs ≡ []) × (self.now.closed ≡ false)) (self.now.jobs ≡ [] → self.now.closed ≡ true) }
    {
        self.queue.len() == 0 && !self.closed
    }

    // If all feeders are given, returns how many jobs were put, were taken and are left.
    pub fn tally(
        &mut self,
        feeders: Vec<Feeder<P>>,
        taker: Taker<P>,
    ) -> Result<(u64, u64, u64), MissingFeeders<P>>
        ensures same { self.new ≡ self.old }
        ensures put { IfOk result (λ r. r.0 ≡ jobs_of feeders.items % 2 ^ 64) }
        ensures taken { IfOk result (λ r. IfSome taker (λ taken. r.1 ≡ taken % 2 ^ 64)) }
        ensures left { IfOk result (λ r. (r.2 ≡ length self.old.jobs) × IsSomeAnd taker (λ taken. jobs_of feeders.items ≡ taken + r.2)) }
        ensures missing { MatchResult result (λ _. vec_len feeders ≡ P.feeders) (λ e. (e.feeders.items ≡ feeders.items) × (e.taker ≡ taker) × (vec_len feeders ≢ P.feeders)) }
    {
        let count = feeders.len() as u64;
        let Some(books) = &mut self.books else {
            return Err(MissingFeeders { feeders, taker });
        };
        if count != self.feeders {
            return Err(MissingFeeders { feeders, taker });
        }
        let mut taker = taker;
        books.settle(feeders, &mut taker);
        Ok((self.put, self.taken, self.queue.len() as u64))
    }
}
