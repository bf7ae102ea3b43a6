// A queue under a lock.
ghost use Rattle.std.specs.Prelude.{◌≡◌, ◌≢◌, ◌+◌, ◌%◌, ◌^◌, vec_len, All, false, IfOk, IfSome, IsSomeAnd, MatchResult, MatchOption, None, Some};
ghost use Rattle.silt_inbox.specs.Books.{counted, has_books, jobs_of};

use crate::job_queue::{JobQueue, MissingFeeders, NotPut};
use crate::places::{Books, Feeder, InboxId, PutOf, TakenOf, Taker};
use crate::queue::Queue;
use std::alloc::{AllocError, Global};
use std::sync::ledger::Blank;
use std::sync::{Condvar, Mutex, Wait};

/// Jobs that go from many threads to one.
#[derive(Drop)]
pub struct Inbox<J: Drop, P: InboxId> {
    job_queue: Mutex<JobQueue<J, P>>,
    arrived: Condvar,
}

impl<J: Drop, P: InboxId> Inbox<J, P> {
    /// An inbox with this many feeders, and its taker. The two blanks become its ledgers.
    ///
    /// # Errors
    ///
    /// Out of memory for the list of feeders.
    pub fn new(
        alloc: Global,
        feeders: u64,
        put: Blank,
        taken: Blank,
    ) -> Result<(Inbox<J, P>, Vec<Feeder<P>>, Taker<P>), AllocError>
        requires put { (put.name ≡ P.put_name) × (put.parts ≡ P.feeders) }
        requires taken { (taken.name ≡ P.taken_name) × (taken.parts ≡ 1) }
        requires feeders { feeders ≡ P.feeders }
        ensures { IfOk result (λ r. (vec_len r.1 ≡ feeders) × All (λ f. f ≡ Some 0) r.1.items × (r.2 ≡ Some 0)) }
    {
        let mut places = Vec::with_capacity(alloc, feeders as usize)?;
        let (put_book, mut rest) = put.open::<PutOf<P>>();
        let (taken_book, share) = taken.open::<TakenOf<P>>();
        for _number in 0..feeders {
            places.push_reserved(Feeder::split(&mut rest));
        }
        let books = Books::new(put_book, taken_book, rest);
        let job_queue = JobQueue::new(Queue::new(alloc), feeders, books);
        let inbox = Inbox {
            job_queue: Mutex::new(job_queue),
            arrived: Condvar::new(),
        };
        Ok((inbox, places, Taker::of(share)))
    }

    /// An inbox with this many feeders, and its taker. It keeps no books: it never says how many jobs were put, were taken and are left.
    /// So there may be a list of such inboxes, of one type.
    ///
    /// # Errors
    ///
    /// Out of memory for the list of feeders.
    pub fn unbooked(
        alloc: Global,
        feeders: u64,
    ) -> Result<(Inbox<J, P>, Vec<Feeder<P>>, Taker<P>), AllocError>
        requires { has_books P.feeders ≡ false }
        ensures { IfOk result (λ r. (vec_len r.1 ≡ feeders) × All (λ f. f ≡ None) r.1.items × (r.2 ≡ None)) }
    {
        let mut places = Vec::with_capacity(alloc, feeders as usize)?;
        for _number in 0..feeders {
            places.push_reserved(Feeder::unbooked());
        }
        let inbox = Inbox {
            job_queue: Mutex::new(JobQueue::unbooked(Queue::new(alloc))),
            arrived: Condvar::new(),
        };
        Ok((inbox, places, Taker::unbooked()))
    }

    /// Puts a job. If the inbox is closed or out of memory, the job is handed back.
    pub fn put<R: Wait>(&self, rt: &R, feeder: &mut Feeder<P>, job: J) -> Result<(), NotPut<J>>
        ensures { MatchResult result (λ _. feeder.new ≡ counted 1 feeder.old) (λ e. (e.job ≡ job) × (feeder.new ≡ feeder.old)) }
    {
        let done = self.job_queue.lock(rt).put(feeder, job);
        self.arrived.notify_one();
        done
    }

    /// Waits for jobs and takes all of them, in the order in which they were put. `None` if the inbox is closed and
    /// empty.
    pub fn take_all<R: Wait>(&self, rt: &R, taker: &mut Taker<P>) -> Option<Vec<J>>
        ensures { MatchOption result (taker.new ≡ taker.old) (λ v. taker.new ≡ counted (vec_len v) taker.old) }
    {
        let mut job_queue = self.arrived.wait_while(
            rt,
            self.job_queue.lock(rt),
            |job_queue| job_queue.is_idle(),
        );
        job_queue.take_all(taker)
    }

    /// From now on no job is put.
    pub fn close<R: Wait>(&self, rt: &R) {
        self.job_queue.lock(rt).close();
        self.arrived.notify_all();
    }

    /// If the inbox keeps books, and all feeders are given, returns how many jobs were put, were taken and are left, the first two modulo 2^64.
    ///
    /// # Errors
    ///
    /// A feeder is missing, as always if the inbox keeps no books. Then all are handed back.
    pub fn tally<R: Wait>(
        &self,
        rt: &R,
        feeders: Vec<Feeder<P>>,
        taker: Taker<P>,
    ) -> Result<(u64, u64, u64), MissingFeeders<P>>
        ensures put { IfOk result (λ r. r.0 ≡ jobs_of feeders.items % 2 ^ 64) }
        ensures taken { IfOk result (λ r. IfSome taker (λ taken. r.1 ≡ taken % 2 ^ 64)) }
        ensures left { IfOk result (λ r. IsSomeAnd taker (λ taken. jobs_of feeders.items ≡ taken + r.2)) }
        ensures missing { MatchResult result (λ _. vec_len feeders ≡ P.feeders) (λ e. (e.feeders.items ≡ feeders.items) × (e.taker ≡ taker) × (vec_len feeders ≢ P.feeders)) }
    {
        self.job_queue.lock(rt).tally(feeders, taker)
    }
}
