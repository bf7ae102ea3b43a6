// Inboxes: jobs and replies cross threads, and each call that takes memory succeeds if there is
// enough.
ghost use Rattle.std.specs.Prelude.{◌≡◌, IfSome, true};
ghost use Rattle.silt_inbox.specs.Answers.{is_allowed};
ghost use Rattle.silt_inbox.specs.declared.answered.EventKind.TheVariants as kind;

use crate::same;
use crossbeam_channel::{Receiver, Sender};
use silt_event::{Event, Reply};
use silt_frame::{Key, Value};
use silt_inbox::{
    Answered, EventKind, Feeder, Inbox, InboxId, MissingFeeders, NotPutReason, Queue, Taker,
};
use std::alloc::Global;
use std::marker::Brand;
use std::sync::Wait;
use std::sync::ledger::Blank;
use std::thread;
use std::thread::Threads;

/// A job, and the channel for its reply.
#[derive(Drop)]
struct Job {
    number: u64,
    replies: Sender<Answered>,
}

/// Pushes a job. If it is handed back because memory ran out, the queue is as it was, and the job
/// is pushed once more. Returns whether all is so.
fn push(queue: &mut Queue<u64>, job: u64) -> bool {
    let len = queue.len();
    match queue.push(job) {
        Ok(()) => true,
        Err(refused) => {
            refused.job == job && queue.len() == len && queue.push(refused.job).is_ok()
        }
    }
}

/// Pushes the jobs 0 to 99.
fn push_hundred(queue: &mut Queue<u64>) -> bool {
    for number in 0..100u64 {
        if !push(queue, number) {
            return false;
        }
    }
    true
}

/// Whether each job is its own number.
fn are_in_order(jobs: &[u64]) -> bool {
    for (number, job) in jobs.iter().enumerate() {
        if *job != number as u64 {
            return false;
        }
    }
    true
}

/// How many jobs the queue gives, and whether they are in order.
fn drained(queue: &mut Queue<u64>) -> (usize, bool) {
    let jobs = queue.drain();
    (jobs.len(), are_in_order(&jobs))
}

/// Whether the queue gives this job alone, after it was pushed.
fn gives_alone(queue: &mut Queue<u64>, job: u64) -> bool {
    push(queue, job) && queue.drain().as_slice() == [job].as_slice()
}

/// How many jobs wait after a hundred, how many are drained, and how many are left. None if
/// another job comes, or a push is refused twice.
fn in_order(queue: &mut Queue<u64>) -> Option<[usize; 3]> {
    if !push_hundred(queue) {
        return None;
    }
    let pushed = queue.len();
    let (count, is_ordered) = drained(queue);
    let counts = [pushed, count, queue.len()];
    (is_ordered && gives_alone(queue, 7)).then_some(counts)
}

fn in_order_of_new(alloc: Global) -> Option<[usize; 3]> {
    let mut queue = Queue::new(alloc);
    in_order(&mut queue)
}

// A queue returns its jobs in order. The test passes whichever one request for memory is refused,
// and also if none is.
#[test]
fn a_queue_keeps_the_order(rt: HostRuntime) {
    same(&rt, &in_order_of_new(rt.alloc()), &Some([100, 100, 0]));
}

/// Replies to this job with its number.
fn reply_to<R: Wait>(rt: &R, job: Job) {
    let answer = Answered::new(
        EventKind::of(&Event::Flush),
        Reply::Acknowledged(job.number),
    );
    let _ = job.replies.send(rt, answer);
}

fn reply_to_all<R: Wait>(rt: &R, jobs: Vec<Job>) {
    for job in jobs {
        reply_to(rt, job);
    }
}

/// Replies to all jobs until the inbox is closed and empty, in at most a hundred turns.
fn serve<P: InboxId, R: Wait>(rt: &R, inbox: &Inbox<Job, P>, mut taker: Taker<P>) -> Taker<P> {
    for _ in 0..100u32 {
        match inbox.take_all(rt, &mut taker) {
            Some(jobs) => reply_to_all(rt, jobs),
            None => break,
        }
    }
    taker
}

/// The number that the next reply to a flush acknowledges.
fn acknowledged<R: Wait>(rt: &R, replies: &Receiver<Answered>) -> Option<u64> {
    match flushed(rt, replies) {
        Some(Reply::Acknowledged(number)) => Some(number),
        _ => None,
    }
}

/// The next reply, if it is one to a flush.
fn flushed<R: Wait>(rt: &R, replies: &Receiver<Answered>) -> Option<Reply<()>>
    ensures { IfSome result (λ reply. is_allowed kind.Flush reply ≡ true) }
{
    let answered = replies.recv(rt).ok()?;
    if answered.kind() == EventKind::Flush {
        Some(answered.into_reply())
    } else {
        None
    }
}

/// Asks for one flush, and returns whether the reply has its own number.
fn ask<P: InboxId, R: Wait>(
    rt: &R,
    alloc: Global,
    inbox: &Inbox<Job, P>,
    feeder: &mut Feeder<P>,
    number: u64,
) -> bool {
    let Ok((to, from)) = crossbeam_channel::unbounded(alloc) else {
        return false;
    };
    let job = Job {
        number,
        replies: to,
    };
    inbox.put(rt, feeder, job).is_ok() && acknowledged(rt, &from) == Some(number)
}

/// Asks five times, and closes the inbox. Returns how often the right reply came.
fn ask_five<P: InboxId, R: Wait>(
    rt: &R,
    alloc: Global,
    inbox: &Inbox<Job, P>,
    mut feeder: Feeder<P>,
) -> (Feeder<P>, u64) {
    let mut answered = 0;
    for number in 0..5u64 {
        if ask(rt, alloc, inbox, &mut feeder, number) {
            answered += 1;
        }
    }
    inbox.close(rt);
    (feeder, answered)
}

fn run_both<P: InboxId + Send + Sync, R: Threads + Wait + Sync>(
    rt: &R,
    alloc: Global,
    inbox: &Inbox<Job, P>,
    taker: Taker<P>,
    feeder: Feeder<P>,
) -> (Taker<P>, (Feeder<P>, u64)) {
    thread::join(
        rt,
        move || serve(rt, inbox, taker),
        move || ask_five(rt, alloc, inbox, feeder),
    )
}

/// How many jobs were put, were taken and are left. None if a feeder is missing.
fn tally<J: Drop, P: InboxId, R: Wait>(
    rt: &R,
    inbox: &Inbox<J, P>,
    feeders: Vec<Feeder<P>>,
    taker: Taker<P>,
) -> Option<(u64, u64, u64)> {
    match inbox.tally(rt, feeders, taker) {
        Ok(tally) => Some(tally),
        Err(_) => None,
    }
}

/// The tally with the feeder that was missing.
fn tally_with<P: InboxId, R: Wait>(
    rt: &R,
    inbox: &Inbox<Job, P>,
    missing: MissingFeeders<P>,
    feeder: Feeder<P>,
) -> Option<(u64, u64, u64)> {
    let MissingFeeders { mut feeders, taker } = missing;
    match feeders.push(feeder) {
        Ok(()) => tally(rt, inbox, feeders, taker),
        Err(_) => None,
    }
}

/// Without the feeder the inbox cannot be tallied. Returns the tally with it.
fn tally_again<P: InboxId, R: Wait>(
    rt: &R,
    inbox: &Inbox<Job, P>,
    feeders: Vec<Feeder<P>>,
    feeder: Feeder<P>,
    taker: Taker<P>,
) -> Option<(u64, u64, u64)> {
    match inbox.tally(rt, feeders, taker) {
        Ok(_) => None,
        Err(missing) => tally_with(rt, inbox, missing, feeder),
    }
}

/// How often the right reply came, and the tally.
type Served = Option<(u64, Option<(u64, u64, u64)>)>;

/// Asks five times while another thread replies, and tallies the inbox.
fn serve_five<P: InboxId + Send + Sync, R: Threads + Wait + Sync>(
    rt: &R,
    alloc: Global,
    inbox: &Inbox<Job, P>,
    mut feeders: Vec<Feeder<P>>,
    taker: Taker<P>,
) -> Served {
    let feeder = feeders.pop()?;
    let (taker, (feeder, answered)) = run_both(rt, alloc, inbox, taker, feeder);
    Some((answered, tally_again(rt, inbox, feeders, feeder, taker)))
}

fn five_jobs<P: InboxId + Send + Sync, R: Threads + Wait + Sync>(
    rt: &R,
    alloc: Global,
    put: Blank,
    taken: Blank,
) -> Served
    requires put { (put.name ≡ P.put_name) × (put.parts ≡ P.feeders) }
    requires taken { (taken.name ≡ P.taken_name) × (taken.parts ≡ 1) }
    requires feeders { P.feeders ≡ 1 }
{
    match Inbox::<Job, P>::new(alloc, 1, put, taken) {
        Ok((inbox, feeders, taker)) => serve_five(rt, alloc, &inbox, feeders, taker),
        Err(_) => None,
    }
}

// Five jobs were put and taken, and each got its reply.
#[test]
fn answers_five_jobs(rt: HostRuntime) {
    let served = five_jobs::<Brand, _>(&rt, rt.alloc(), Blank::new(1), Blank::new(1));
    same(&rt, &served, &Some((5, Some((5, 5, 0)))));
}

/// Puts a job, and once more if it is handed back because memory ran out. Returns whether it is
/// put.
fn put_again<P: InboxId, R: Wait>(
    rt: &R,
    inbox: &Inbox<u64, P>,
    feeder: &mut Feeder<P>,
    job: u64,
) -> bool {
    match inbox.put(rt, feeder, job) {
        Ok(()) => true,
        Err(refused) => {
            refused.reason == NotPutReason::NoMemory
                && refused.job == job
                && inbox.put(rt, feeder, refused.job).is_ok()
        }
    }
}

/// Whether a new job is handed back since the inbox is closed.
fn is_refused<P: InboxId, R: Wait>(
    rt: &R,
    inbox: &Inbox<u64, P>,
    feeder: &mut Feeder<P>,
    job: u64,
) -> bool {
    match inbox.put(rt, feeder, job) {
        Ok(()) => false,
        Err(refused) => refused.reason == NotPutReason::Closed && refused.job == job,
    }
}

/// Whether this job alone waits.
fn takes_alone<P: InboxId, R: Wait>(
    rt: &R,
    inbox: &Inbox<u64, P>,
    taker: &mut Taker<P>,
    job: u64,
) -> bool {
    match inbox.take_all(rt, taker) {
        Some(jobs) => jobs.as_slice() == [job].as_slice(),
        None => false,
    }
}

/// A job is put, a closed inbox hands a new job back, the job that waits in it can still be taken,
/// and none is left. Returns which of these are so.
fn closes<P: InboxId, R: Wait>(
    rt: &R,
    inbox: &Inbox<u64, P>,
    feeder: &mut Feeder<P>,
    taker: &mut Taker<P>,
) -> [bool; 4] {
    let is_put = put_again(rt, inbox, feeder, 7);
    inbox.close(rt);
    [
        is_put,
        is_refused(rt, inbox, feeder, 8),
        takes_alone(rt, inbox, taker, 7),
        inbox.take_all(rt, taker).is_none(),
    ]
}

/// What is so of the closed inbox, and its tally.
type Closed = Option<([bool; 4], Option<(u64, u64, u64)>)>;

fn close_and_tally<P: InboxId, R: Wait>(
    rt: &R,
    inbox: &Inbox<u64, P>,
    mut feeders: Vec<Feeder<P>>,
    mut taker: Taker<P>,
) -> Closed {
    let closed = closes(rt, inbox, feeders.first_mut()?, &mut taker);
    Some((closed, tally(rt, inbox, feeders, taker)))
}

fn closed_inbox<P: InboxId, R: Wait>(rt: &R, alloc: Global, put: Blank, taken: Blank) -> Closed
    requires put { (put.name ≡ P.put_name) × (put.parts ≡ P.feeders) }
    requires taken { (taken.name ≡ P.taken_name) × (taken.parts ≡ 1) }
    requires feeders { P.feeders ≡ 1 }
{
    match Inbox::<u64, P>::new(alloc, 1, put, taken) {
        Ok((inbox, feeders, taker)) => close_and_tally(rt, &inbox, feeders, taker),
        Err(_) => None,
    }
}

#[test]
fn hands_back_when_closed(rt: HostRuntime) {
    let closed = closed_inbox::<Brand, _>(&rt, rt.alloc(), Blank::new(1), Blank::new(1));
    same(&rt, &closed, &Some(([true; 4], Some((1, 1, 0)))));
}

fn kind_of(event: Event) -> EventKind {
    EventKind::of(&event)
}

// The kinds of three events of this key.
fn kinds_of(key: Key) -> [EventKind; 3] {
    [
        kind_of(Event::Get(key)),
        kind_of(Event::Delete(key)),
        kind_of(Event::Merge),
    ]
}

#[test]
fn names_the_kinds(rt: HostRuntime) {
    let due = [EventKind::Get, EventKind::Delete, EventKind::Merge];
    same(&rt, &kinds_of(Key([1; 20])), &due);
}

fn empty(alloc: Global) -> Value {
    Value::new(Vec::new(alloc))
}

#[test]
fn names_the_kind_of_a_swap(rt: HostRuntime) {
    let event = Event::Swap(Key([1; 20]), Some(empty(rt.alloc())), None);
    same(&rt, &kind_of(event), &EventKind::Swap);
}
