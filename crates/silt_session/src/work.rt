// The writer, a worker that does the requests of the sessions.
ghost use Rattle.std.specs.Prelude.{◌≡◌, List, MatchOption, vec_len};
ghost use Rattle.silt_inbox.specs.Books.{counted};
ghost use Rattle.silt_session.specs.Batches.{ServesBatches};
ghost use Rattle.silt_session.specs.declared.job.Job.{Job as JobOf};

use crate::batch::Workplace;
use crate::job::Job;
use crate::job_log::LogId;
use crate::replier::send_replies;
use crate::room::HearsRoom;
use crossbeam_channel::Sender;
use silt_desk::{DeskId, Gate, Seat, Trace};
use silt_disk::Disk;
use silt_event::Counter;
use silt_inbox::{Inbox, InboxId, Taker};
use std::sync::Wait;
use std::time::{Clock, Instant};

/// How many microseconds a batch takes at most that counts as one of the shortest.
const SHORTEST: u128 = 128;

// How often the shortest time has to be doubled to be longer than this.
fn power_of(micros: u128) -> u32 {
    u128::BITS - (micros / SHORTEST).leading_zeros()
}

/// The source of the writer's jobs.
pub trait Jobs<D: Disk, T: Trace, N: InboxId + LogId> {
    /// There are no more jobs.
    ghost has_ended: { Self → Type 0 };

    /// Waits for jobs and takes all of them, in order. None if there are no more.
    fn take_all<R: Wait>(&self, rt: &R, taker: &mut Taker<N>) -> Option<Vec<Job<D, T, N>>>
        ensures { MatchOption result (has_ended self.now × (taker.new ≡ taker.old)) (λ jobs. taker.new ≡ counted (vec_len jobs) taker.old) };
}

impl<D: Disk, T: Trace, N: InboxId + LogId> Jobs<D, T, N> for Inbox<Job<D, T, N>, N> {
    ghost has_ended = { λ inbox. Unit {0} };

    fn take_all<R: Wait>(&self, rt: &R, taker: &mut Taker<N>) -> Option<Vec<Job<D, T, N>>> {
        self.take_all(rt, taker)
    }
}

impl<
    D: Disk,
    T: Trace,
    N: DeskId + InboxId + LogId,
    G: Gate,
    H: HearsRoom,
    R: Wait + Clock,
> Workplace<'_, D, T, N, G, H, R> {
    // Counts a batch that began at this moment, and how long it took.
    fn count_batch(&self, began: Option<Instant>) {
        self.board.count(Counter::Batches, 1);
        if let (Some(began), Ok(now)) = (began, Instant::now(self.rt)) {
            let micros = now.saturating_duration_since(began).as_micros();
            self.board.count(Counter::BatchTimes(power_of(micros)), 1);
        }
    }

    /// Takes all jobs that wait, does their tasks, each call under a guard of its own, flushes once and then replies, until
    /// there are no more. It hands the replies of many jobs to the replier, so that it can go on with the next batch.
    /// After each batch it wakes the converter and the merger if they have work. A command that is refused for want of
    /// room waits for it, behind a flush and the replies of the jobs that are done. Gives its seat and its taker back.
    pub fn serve_all<I: Jobs<D, T, N>>(
        &self,
        mut seat: Seat<N>,
        inbox: &I,
        mut taker: Taker<N>,
        replier: Sender<Vec<Job<D, T, N>>>,
    ) -> (Seat<N>, Taker<N>)
        ensures number { result.0.caller.seat ≡ seat.caller.seat }
        ensures ended { I.has_ended inbox.now }
        ensures batches { (batches : List (List (JobOf D T N D.Fault))) × ServesBatches D.Disk T.Trace self.now.room.now.seconds
            (H.has_ended self.now.room.now.heard) seat taker batches result.0 result.1 }
    {
        for _ in self.rt.forever() {
            let Some(jobs) = inbox.take_all(self.rt, &mut taker) else {
                return (seat, taker);
            };
            let began = Instant::now(self.rt).ok();
            let (left, due) = self.serve_batch(&mut seat, jobs);
            self.count_batch(began);
            send_replies(self.rt, &replier, left);
            self.room.wakes.go(self.rt, due);
        }
        unreachable!()
    }
}
