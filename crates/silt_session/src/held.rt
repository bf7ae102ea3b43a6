// The jobs of a batch, and their replies after a flush.
ghost use Rattle.std.specs.Prelude.{◌≡◌, ◌+◌, ◌<◌, ◌++◌, ◌∷◌, [], List, MatchOption, vec_capacity, vec_len};
ghost use Rattle.std.specs.List.{AllZip};
ghost use Rattle.silt_session.specs.Batches.{IsBatch, KeepsLeft, RepliesTo, RepliesToAll, done_in, left_in};
ghost use Rattle.silt_desk.specs.CallLogs.{PlacesFlush};
ghost use Rattle.silt_session.specs.Origins.{WasFlushed};
ghost use Rattle.silt_session.specs.Requests.{acknowledged};
ghost use Rattle.silt_session.specs.declared.job.Job.{Job as JobOf};

use crate::job::{Job, Tasks};
use crate::job_log::LogId;
use crate::task::Task;
use silt_desk::{CallPlace, Trace};
use silt_disk::Disk;
use silt_event::Refusal;
use std::sync::Wait;

/// The jobs of a batch: first those that are left to do, and behind them those that are done and wait for a flush.
#[derive(Drop)]
pub(crate) struct Batch<D: Disk, T: Trace, N: LogId> {
    jobs: Vec<Job<D, T, N>>,
    left: usize,
}

impl<D: Disk, T: Trace, N: LogId> Batch<D, T, N> {
    /// A batch of jobs that are all left to do.
    pub(crate) fn new(jobs: Vec<Job<D, T, N>>) -> Batch<D, T, N>
        ensures jobs { result.jobs ≡ jobs }
        ensures left { result.left ≡ vec_len jobs }
    {
        let left = jobs.len();
        Batch { jobs, left }
    }

    /// Takes the next job that is left to do.
    pub(crate) fn next(&mut self) -> Option<Job<D, T, N>>
        requires { IsBatch self.old }
        ensures jobs { MatchOption result ((self.new ≡ self.old) × (self.old.left ≡ 0)) (λ job. left_in self.old ≡ job ∷ left_in self.new) }
        ensures count { MatchOption result (self.old.left ≡ 0) (λ job. (self.new.left + 1 ≡ self.old.left) × (vec_len self.new.jobs + 1 ≡ vec_len self.old.jobs)) }
        ensures done { done_in self.new ≡ done_in self.old }
        ensures within { IsBatch self.new }
        ensures room { vec_capacity self.new.jobs ≡ vec_capacity self.old.jobs }
    {
        if self.left == 0 {
            return None;
        }
        self.left -= 1;
        Some(self.jobs.remove(0))
    }

    /// Takes a job back that is done. It needs no memory.
    pub(crate) fn hold(&mut self, job: Job<D, T, N>)
        requires within { IsBatch self.old }
        requires room { vec_len self.old.jobs < vec_capacity self.old.jobs }
        ensures done { done_in self.new ≡ done_in self.old ++ job ∷ [] }
        ensures left { (left_in self.new ≡ left_in self.old) × (self.new.left ≡ self.old.left) }
        ensures within { IsBatch self.new }
        ensures count { vec_len self.new.jobs ≡ vec_len self.old.jobs + 1 }
        ensures room { vec_capacity self.new.jobs ≡ vec_capacity self.old.jobs }
    {
        self.jobs.push_reserved(job);
    }

    /// Sends the replies to the jobs that are done, by the result of the flush after them, at this place of the trace's log.
    pub(crate) fn send_done<R: Wait>(
        &mut self,
        rt: &R,
        flushed: &Result<u64, Refusal<()>>,
        flush: &Option<CallPlace>,
    )
        requires within { IsBatch self.old }
        requires flushed { WasFlushed D.Disk T.Trace flushed.now }
        requires flush { PlacesFlush T.log (acknowledged flushed.now) flush.now }
        ensures replies { (replied : List (JobOf D T N D.Fault)) × RepliesToAll flushed.now (done_in self.old) replied }
        ensures none { done_in self.new ≡ [] }
        ensures left { KeepsLeft self.old self.new }
    {
        while self.jobs.len() > self.left {
            let Some(mut done) = self.jobs.pop() else {
                return;
            };
            reply_to_job(&mut done.tasks, flushed, flush);
            done.send(rt);
        }
    }

    /// The jobs that are done, once none is left to do.
    pub(crate) fn into_jobs(self) -> Vec<Job<D, T, N>>
        ensures { result ≡ self.jobs }
    {
        let Batch { jobs, left: _ } = self;
        jobs
    }
}

// Gives each task its reply, by its own result and that of the flush.
fn reply_to_tasks<D: Disk, T: Trace>(
    tasks: &mut Vec<Task<D, T>>,
    flushed: &Result<u64, Refusal<()>>,
    flush: &Option<CallPlace>,
)
    requires flushed { WasFlushed D.Disk T.Trace flushed.now }
    requires flush { PlacesFlush T.log (acknowledged flushed.now) flush.now }
    ensures { AllZip (RepliesTo flushed.now) tasks.old.items tasks.new.items }
{
    for task in tasks.iter_mut() {
        task.reply(flushed, flush);
    }
}

// Gives each task of a job its reply.
fn reply_to_job<D: Disk, T: Trace, N: LogId>(
    tasks: &mut Tasks<D, T, N>,
    flushed: &Result<u64, Refusal<()>>,
    flush: &Option<CallPlace>,
)
    requires flushed { WasFlushed D.Disk T.Trace flushed.now }
    requires flush { PlacesFlush T.log (acknowledged flushed.now) flush.now }
    ensures replies { AllZip (RepliesTo flushed.now) tasks.old.items tasks.new.items }
    ensures ticket { tasks.new.ticket ≡ tasks.old.ticket }
{
    reply_to_tasks(&mut tasks.items, flushed, flush);
}

/// Gives the tasks of each job their replies.
pub(crate) fn reply_to_all<D: Disk, T: Trace, N: LogId>(
    jobs: &mut Vec<Job<D, T, N>>,
    flushed: &Result<u64, Refusal<()>>,
    flush: &Option<CallPlace>,
)
    requires flushed { WasFlushed D.Disk T.Trace flushed.now }
    requires flush { PlacesFlush T.log (acknowledged flushed.now) flush.now }
    ensures { RepliesToAll flushed.now jobs.old.items jobs.new.items }
{
    for job in jobs.iter_mut() {
        reply_to_job(&mut job.tasks, flushed, flush);
    }
}
