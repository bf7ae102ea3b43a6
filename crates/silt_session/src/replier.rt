// A thread that sends replies, so that the writer need not wake each session itself.
ghost use Rattle.std.specs.Prelude.{◌≡◌, ◌≤◌, Some, IfSome, vec_len};

use crate::job::Job;
use crate::job_log::LogId;
use crossbeam_channel::{Receiver, Sender};
use silt_desk::Trace;
use silt_disk::Disk;
use std::alloc::{AllocError, Global};
use std::sync::Wait;

/// The most jobs whose replies the writer sends itself: for so few it would not pay to wake the replier too.
const FEW_JOBS: usize = 8;

/// How many batches can wait for the replier. While one waits, the writer sends the replies of the next one itself.
const BATCHES: usize = 1;

/// A channel from the writer to the replier. It allocates its memory here, so no send is out of memory.
///
/// # Errors
///
/// Out of memory for the channel.
pub fn replier_channel<D: Disk, T: Trace, N: LogId>(
    alloc: Global,
) -> Result<(Sender<Vec<Job<D, T, N>>>, Receiver<Vec<Job<D, T, N>>>), AllocError> {
    crossbeam_channel::bounded(alloc, BATCHES)
}

// Sends the replies of each job.
fn send_all<D: Disk, T: Trace, N: LogId, R: Wait>(rt: &R, jobs: Vec<Job<D, T, N>>) {
    for job in jobs {
        job.send(rt);
    }
}

// Hands jobs to the replier. Gives them back if they are few, and if the replier is busy or has no thread.
fn hand_over<D: Disk, T: Trace, N: LogId, R: Wait>(
    rt: &R,
    replier: &Sender<Vec<Job<D, T, N>>>,
    jobs: Vec<Job<D, T, N>>,
) -> Option<Vec<Job<D, T, N>>>
    ensures few { vec_len jobs ≤ 8 → result ≡ Some jobs }
    ensures back { IfSome result (λ left. left ≡ jobs) }
{
    if jobs.len() <= FEW_JOBS {
        return Some(jobs);
    }
    match replier.try_send(rt, jobs) {
        Ok(()) => None,
        Err(error) => Some(error.into_inner()),
    }
}

/// Sends the replies of jobs, or hands many jobs to the replier, which sends them. It does not wait for the replier.
pub fn send_replies<D: Disk, T: Trace, N: LogId, R: Wait>(
    rt: &R,
    replier: &Sender<Vec<Job<D, T, N>>>,
    jobs: Vec<Job<D, T, N>>,
) {
    if let Some(jobs) = hand_over(rt, replier, jobs) {
        send_all(rt, jobs);
    }
}

/// What the replier does: sends the replies of the batches that come, until the writer has ended.
pub fn send_batches<D: Disk, T: Trace, N: LogId, R: Wait>(
    rt: &R,
    batches: Receiver<Vec<Job<D, T, N>>>,
) {
    for _ in rt.forever() {
        let Ok(jobs) = batches.recv(rt) else {
            return;
        };
        send_all(rt, jobs);
    }
}
