// A batch of jobs: the tasks of each are done, then all is flushed once, and then each task has its reply.
ghost use Rattle.std.specs.Prelude.{◌≡◌, ◌≢◌, ◌≤◌, [], true, false, length, IfSome, IsSomeAnd, List, vec_capacity, vec_len};
ghost use Rattle.silt_session.specs.Batches.{EndsRound, IsBatch, IsDueAt, KeepsLeft, MayMakeRoom, PerformsAll, PerformsRequest};
ghost use Rattle.silt_session.specs.Batches.{PerformsTask, ServesBatch, StepsThrough, TriesAgain, TriesOnce, done_in, left_in, writer_at};
ghost use Rattle.silt_session.specs.Origins.{Flushes, Performs};
ghost use Rattle.silt_session.specs.Requests.{acknowledged, compared};
ghost use Rattle.silt_session.specs.Tolds.{reply_place, answer_place};
ghost use Rattle.silt_session.specs.declared.job.Job.{Job as JobOf};

use crate::board::Board;
use crate::held::{Batch, reply_to_all};
use crate::job::{Job, Request, Tasks};
use crate::job_log::LogId;
use crate::room::{HearsRoom, RoomWait};
use crate::tally::is_failure;
use crate::task::{Answer, Task};
use silt_desk::{CallPlace, Desk, DeskId, Due, Gate, Seat, Shared, Spot, Trace, plain};
use silt_disk::Disk;
use silt_event::{Refusal, bytes_of};
use std::alloc::Global;
use std::sync::Wait;
use std::time::{Clock, Instant};

/// The most tries of a request that is refused for want of room, between its first and its last one. Each message to the
/// writer follows work that was finished or refused, so one or two do. With this limit a worker whose step is refused again
/// and again does not fill the record.
const TRIES_BETWEEN: u32 = 6;

/// Where the writer works: the desk, the gate before each call, how it waits for room, and the board on which it counts.
#[derive(Drop)]
pub struct Workplace<'a, D: Disk, T: Trace, N: DeskId, G: Gate, H: HearsRoom, R> {
    pub rt: &'a R,
    pub alloc: Global,
    pub shared: &'a Shared<D, T, N>,
    pub gate: &'a G,
    pub room: &'a RoomWait<H>,
    pub board: &'a Board,
}

// The result of a command that compares nothing.
fn compared(answer: Result<u64, Refusal<()>>) -> Answer
    ensures { result ≡ compared answer }
{
    match answer {
        Ok(count) => Ok(Some(count)),
        Err(refusal) => Err(refusal),
    }
}

// Where the last call from this seat stands, if it has this result and was recorded.
fn call_place<N: DeskId>(answer: &Option<Answer>, seat: &Seat<N>) -> Option<CallPlace>
    ensures { result ≡ answer_place answer.now seat.now.last }
{
    match answer {
        None | Some(Err(Refusal::NoMemory | Refusal::HistoryFull)) => None,
        Some(_) => seat.last(),
    }
}

// The same of a flush.
fn flush_place<N: DeskId>(flushed: &Result<u64, Refusal<()>>, seat: &Seat<N>) -> Option<CallPlace>
    ensures { result ≡ reply_place (acknowledged flushed.now) seat.now.last }
{
    match flushed {
        Err(Refusal::NoMemory | Refusal::HistoryFull) => None,
        _ => seat.last(),
    }
}

// Whether a value has this length, if there is one.
fn may_have_len(value: Option<&[u8]>, len: usize) -> bool
    ensures yes { result ≡ true → IfSome value.entry (λ bytes. length bytes.now ≡ len) }
    ensures no { result ≡ false → IsSomeAnd value.entry (λ bytes. length bytes.now ≢ len) }
{
    match value {
        Some(bytes) => bytes.len() == len,
        None => true,
    }
}

// Does a request at the desk, and returns the result. There is none for a flush, because the batch does one for all of
// them, and none for a put or a swap if a value of it has another length than the store's.
fn perform<D: Disk, T: Trace, N: DeskId>(
    desk: &mut Desk<D, T, N>,
    alloc: Global,
    seat: &mut Seat<N>,
    request: &Request,
) -> Option<Answer>
    ensures { Performs D.Disk T.Trace desk.old desk.new seat.old seat.new request.now result }
{
    let _known = desk.trace(); // it agrees with the store
    match request {
        Request::Put(key, value) => {
            let bytes = value.as_slice();
            if desk.geometry().value_len() as usize != bytes.len() {
                return None;
            }
            Some(compared(plain(&desk.put(alloc, seat, key, bytes))))
        }
        Request::Delete(key) => Some(compared(plain(&desk.delete(alloc, seat, key)))),
        Request::Swap(key, old, new) => {
            let (old, new) = (bytes_of(old), bytes_of(new));
            let len = desk.geometry().value_len() as usize;
            if !may_have_len(old, len) || !may_have_len(new, len) {
                return None;
            }
            Some(plain(&desk.swap(alloc, seat, key, old, new)))
        }
        Request::Flush => None,
    }
}

// Flushes. Returns the result, and which background work there is to do then, if a merge begins with at least this many
// hash stores.
fn flush<D: Disk, T: Trace, N: DeskId>(
    desk: &mut Desk<D, T, N>,
    alloc: Global,
    seat: &mut Seat<N>,
    least: u32,
) -> (Result<u64, Refusal<()>>, Due)
    ensures flushes { Flushes D.Disk T.Trace desk.old desk.new seat.old seat.new result.0 }
    ensures due { IsDueAt least desk.new result.1 }
{
    let _known = desk.trace(); // it agrees with the store
    let flushed = plain(&desk.flush(alloc, seat));
    (flushed, desk.due(least))
}

// The background work that may make room for a request with this result. None if the request is not refused for want of
// room, and if no worker has a step to do.
fn work_for_room<D: Disk, T: Trace, N: DeskId>(
    desk: &Desk<D, T, N>,
    answer: &Option<Answer>,
    least: u32,
) -> Option<Due>
    ensures { MayMakeRoom least desk.now answer.now result }
{
    match answer {
        Some(Err(Refusal::NoRoom)) => {
            let due = desk.due(least);
            if due.converts || due.merges {
                Some(due)
            } else {
                None
            }
        }
        _ => None,
    }
}

// Does a request at the desk. Returns the result, and the work that may make room if it is refused for want of it.
fn try_at<D: Disk, T: Trace, N: DeskId>(
    desk: &mut Desk<D, T, N>,
    alloc: Global,
    seat: &mut Seat<N>,
    request: &Request,
    least: u32,
) -> (Option<Answer>, Option<Due>)
    ensures { TriesOnce D.Disk T.Trace seat.old request.now result.0 result.1 seat.new }
{
    let answer = perform(desk, alloc, seat, request);
    let due = work_for_room(desk, &answer, least);
    (answer, due)
}

impl<D: Disk, T: Trace, N: DeskId + LogId, G: Gate, H: HearsRoom, R: Wait + Clock> Workplace<
    '_,
    D,
    T,
    N,
    G,
    H,
    R,
> {
    // Does a request under a guard of its own. Returns the result, and the work that may make room if it is refused for
    // want of it.
    fn try_request(&self, seat: &mut Seat<N>, request: &Request) -> (Option<Answer>, Option<Due>)
        ensures { TriesOnce D.Disk T.Trace seat.old request.now result.0 result.1 seat.new }
    {
        self.gate.pass(Spot::Writer);
        let least = self.gate.merges_at();
        try_at(
            &mut *self.shared.write(self.rt),
            self.alloc,
            seat,
            request,
            least,
        )
    }

    // Waits for a message that there may be room, until this moment. If the gate is closed it does not wait, as if one came.
    fn hears_room(&self, until: Option<Instant>) -> bool
        ensures { result ≡ false → H.has_ended self.now.room.now.heard }
    {
        for _second in 0..self.room.seconds {
            if self.gate.is_closed() {
                return true;
            }
            if self
                .room
                .heard
                .comes(self.rt, self.room.soon(self.rt, until))
            {
                return true;
            }
        }
        self.gate.is_closed() || self.room.heard.comes(self.rt, until)
    }

    // Does a request that was refused for want of room once more, as soon as a worker may have made room, and again if it
    // is still refused for that. Returns the last result.
    fn try_again(&self, seat: &mut Seat<N>, request: &Request) -> Option<Answer>
        ensures { TriesAgain D.Disk T.Trace (H.has_ended self.now.room.now.heard) seat.old request.now result seat.new }
    {
        let until = self.room.deadline(self.rt);
        for _tried in 0..TRIES_BETWEEN {
            self.gate.rest(Spot::Writer);
            let came = self.hears_room(until);
            let (answer, due) = self.try_request(seat, request);
            let Some(due) = due else {
                return answer;
            };
            if !came {
                return answer;
            }

            // A merger that can make no room speaks at once. Beside a conversion it would use up the tries.
            let begins = due.begins && !due.converts;
            self.room.wakes.go(self.rt, Due { begins, ..due });
        }
        let _ = self.hears_room(until);
        let (answer, _) = self.try_request(seat, request);
        answer
    }

    // Flushes, and sends the replies to the jobs that are done.
    fn end_round(&self, seat: &mut Seat<N>, batch: &mut Batch<D, T, N>)
        requires { IsBatch batch.old }
        ensures round { EndsRound D.Disk T.Trace (writer_at seat.old batch.old) seat.new }
        ensures none { done_in batch.new ≡ [] }
        ensures left { KeepsLeft batch.old batch.new }
    {
        self.gate.pass(Spot::Writer);
        let least = self.gate.merges_at();
        let (flushed, _) = flush(&mut *self.shared.write(self.rt), self.alloc, seat, least);
        batch.send_done(self.rt, &flushed, &flush_place(&flushed, seat));
    }

    // Does a request. If it is refused for want of room that a worker may make, it waits for room, and so that the jobs
    // that are done need not wait too, they get their replies first. Returns the last result.
    fn perform_request(
        &self,
        seat: &mut Seat<N>,
        batch: &mut Batch<D, T, N>,
        request: &Request,
    ) -> Option<Answer>
        requires { IsBatch batch.old }
        ensures does { PerformsRequest D.Disk T.Trace self.now.room.now.seconds (H.has_ended self.now.room.now.heard) (writer_at seat.old batch.old) request.now result (writer_at seat.new batch.new) }
        ensures left { KeepsLeft batch.old batch.new }
    {
        let (answer, due) = self.try_request(seat, request);
        let Some(due) = due else {
            return answer;
        };
        if self.room.seconds == 0 {
            return answer;
        }
        self.room.wakes.go(self.rt, due);
        self.end_round(seat, batch);
        self.try_again(seat, request)
    }

    // Does each task's request for its session, in order.
    fn perform_tasks(
        &self,
        seat: &mut Seat<N>,
        batch: &mut Batch<D, T, N>,
        tasks: &mut Vec<Task<D, T>>,
    )
        requires { IsBatch batch.old }
        ensures steps { StepsThrough (PerformsTask D.Disk T.Trace self.now.room.now.seconds (H.has_ended self.now.room.now.heard)) (writer_at seat.old batch.old)
            tasks.old.items tasks.new.items (writer_at seat.new batch.new) }
        ensures left { KeepsLeft batch.old batch.new }
    {
        for task in tasks.iter_mut() {
            seat.serve(task.session());
            let answer = self.perform_request(seat, batch, task.request());
            let call = call_place(&answer, seat);
            task.finish(answer, call);
        }
    }

    // Does the tasks of a job, in order.
    fn perform_job(
        &self,
        seat: &mut Seat<N>,
        batch: &mut Batch<D, T, N>,
        tasks: &mut Tasks<D, T, N>,
    )
        requires { IsBatch batch.old }
        ensures steps { StepsThrough (PerformsTask D.Disk T.Trace self.now.room.now.seconds (H.has_ended self.now.room.now.heard)) (writer_at seat.old batch.old)
            tasks.old.items tasks.new.items (writer_at seat.new batch.new) }
        ensures left { KeepsLeft batch.old batch.new }
        ensures ticket { tasks.new.ticket ≡ tasks.old.ticket }
    {
        self.perform_tasks(seat, batch, &mut tasks.items);
    }

    // Does the tasks of each job, in order.
    fn perform_all(&self, seat: &mut Seat<N>, batch: &mut Batch<D, T, N>)
        requires within { IsBatch batch.old }
        requires room { vec_len batch.old.jobs ≤ vec_capacity batch.old.jobs }
        ensures steps { (done : List (JobOf D T N D.Fault)) × PerformsAll D.Disk T.Trace self.now.room.now.seconds (H.has_ended self.now.room.now.heard)
            (writer_at seat.old batch.old) (left_in batch.old) done (writer_at seat.new batch.new) }
        ensures none { batch.new.left ≡ 0 }
    {
        while let Some(mut job) = batch.next() {
            self.perform_job(seat, batch, &mut job.tasks);
            batch.hold(job);
        }
    }

    // Tells people if a flush is refused because the store has failed.
    fn note_flush(&self, flushed: &Result<u64, Refusal<()>>) {
        if let Err(refusal) = flushed {
            if is_failure(refusal) {
                self.gate.failed(Spot::Writer);
            }
        }
    }

    /// Does the tasks of each job at the desk, in order, each call under a guard of its own. Then it flushes once and gives
    /// each task its reply; that of an accepted command depends on the flush. It allocates no memory of its own. Returns
    /// the jobs whose replies are not sent yet, and which background work there is to do after the flush.
    ///
    /// If a command is refused for want of room that a worker may make, it waits for room. Before that it flushes, and
    /// sends the replies to the jobs that are done.
    pub fn serve_batch(
        &self,
        seat: &mut Seat<N>,
        jobs: Vec<Job<D, T, N>>,
    ) -> (Vec<Job<D, T, N>>, Due)
        ensures number { seat.new.caller.seat ≡ seat.old.caller.seat }
        ensures batch { ServesBatch D.Disk T.Trace self.now.room.now.seconds (H.has_ended self.now.room.now.heard) seat.old jobs.items result.0.items seat.new result.1 }
    {
        let mut batch = Batch::new(jobs);
        self.perform_all(seat, &mut batch);
        self.gate.pass(Spot::Writer);
        let least = self.gate.merges_at();
        let (flushed, due) = flush(&mut *self.shared.write(self.rt), self.alloc, seat, least);
        let mut jobs = batch.into_jobs();
        reply_to_all(&mut jobs, &flushed, &flush_place(&flushed, seat));
        self.note_flush(&flushed);
        (jobs, due)
    }
}
