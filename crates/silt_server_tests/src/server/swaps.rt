// Swaps in a batch. A swap that differs is no command: no flush settles it, and no refused flush
// makes it unsettled.
ghost use Rattle.std.specs.Prelude.{◌≡◌};

use crossbeam_channel::Receiver;
use silt_desk::{Count, Desk, DeskId, OpenGate, Seat, Shared, Wake, Wakes};
use silt_device::{Disk, Fill, MemDisk, Stop};
use silt_event::Reply;
use silt_fixtures::{formatted, key, opened_on};
use silt_frame::Value;
use silt_session::{
    Board, Job, JobLog, LogId, LogStart, Request, RoomWait, Task, Told, Workplace, room_channel,
};
use silt_store_set::Core;
use std::alloc::{AllocError, Global};
use std::marker::Brand;
use std::sync::ledger::Blank;
use std::sync::{RwLock, Wait};
use std::test::Fail;
use std::time::Clock;

fn value_of(alloc: Global, bytes: &[u8]) -> Result<Value, AllocError> {
    Ok(Value::new(bytes.to_vec(alloc)?))
}

// A put of the first key.
fn put_of(alloc: Global, value: &[u8]) -> Result<Request, AllocError> {
    Ok(Request::Put(key(1), value_of(alloc, value)?))
}

// The value of these bytes, none for no byte.
fn value_or_none(alloc: Global, bytes: &[u8]) -> Result<Option<Value>, AllocError> {
    if bytes.is_empty() {
        return Ok(None);
    }
    Ok(Some(value_of(alloc, bytes)?))
}

// A swap of the first key. No byte stands for no value.
fn swap_of(alloc: Global, old: &[u8], new: &[u8]) -> Result<Request, AllocError> {
    let old = value_or_none(alloc, old)?;
    let new = value_or_none(alloc, new)?;
    Ok(Request::Swap(key(1), old, new))
}

/// How many requests there are.
const REQUESTS: usize = 11;
/// The session that asks.
const SESSION: u64 = 1;

// A put, a swap that is accepted, one that differs, and two with a value of another length. Then one
// for no value and one from it, which are accepted, one from it that differs, and two with a value of
// another length. Last comes a flush.
fn request_of(alloc: Global, number: usize) -> Result<Request, AllocError> {
    match number {
        0 => put_of(alloc, b"\x00\x01"),
        1 => swap_of(alloc, b"\x00\x01", b"\x00\x02"),
        2 => swap_of(alloc, b"\x00\x01", b"\x00\x03"),
        3 => swap_of(alloc, b"\x02", b"\x00\x04"),
        4 => swap_of(alloc, b"\x00\x02", b"\x00\x04\x00"),
        5 => swap_of(alloc, b"\x00\x02", b""),
        6 => swap_of(alloc, b"", b"\x00\x05"),
        7 => swap_of(alloc, b"", b"\x00\x06"),
        8 => swap_of(alloc, b"", b"\x07"),
        9 => swap_of(alloc, b"\x05", b""),
        _ => Ok(Request::Flush),
    }
}

// The tasks of the requests from one number to another.
fn tasks_of<D: Disk>(
    alloc: Global,
    first: usize,
    last: usize,
) -> Result<Vec<Task<D, Count>>, AllocError> {
    let mut tasks = Vec::new(alloc);
    for number in first..last {
        tasks.push(Task::new(SESSION, request_of(alloc, number)?))?;
    }
    Ok(tasks)
}

// A job of these requests. Nobody receives its replies.
fn job_of<D: Disk, N: LogId, R: Wait>(
    rt: &R,
    alloc: Global,
    log: &JobLog<N>,
    first: usize,
    last: usize,
) -> Option<Job<D, Count, N>> {
    let tasks = tasks_of(alloc, first, last).ok()?;
    let (job, _) = Job::new(rt, alloc, log, tasks)?;
    Some(job)
}

// All requests in jobs of so many, and a job of none.
fn all_in_jobs<D: Disk, N: LogId, R: Wait>(
    rt: &R,
    alloc: Global,
    log: &JobLog<N>,
    most: usize,
) -> Option<Vec<Job<D, Count, N>>> {
    let step = if most == 0 { 1 } else { most };
    let mut jobs = Vec::new(alloc);
    for first in (0..REQUESTS + 1).step_by(step) {
        let last = REQUESTS.min(first.saturating_add(step));
        jobs.push(job_of(rt, alloc, log, first, last)?).ok()?;
    }
    Some(jobs)
}

/// The reply to a task.
#[derive(Clone, Copy, PartialEq)]
enum Got {
    Accepted(u64),
    Unsettled(u64),
    Acknowledged(u64),
    Differs,
    Refused(u32),
    Nothing,
    Other,
}

fn got_of(reply: Reply<()>) -> Got {
    match reply {
        Reply::Accepted(number) => Got::Accepted(number),
        Reply::Unsettled(number) => Got::Unsettled(number),
        Reply::Acknowledged(number) => Got::Acknowledged(number),
        Reply::Differs => Got::Differs,
        Reply::Refused(refusal) => Got::Refused(refusal.label().0),
        _ => Got::Other,
    }
}

// The reply to this task.
fn got_by<D: Disk>(task: Task<D, Count>) -> Got {
    match task.tell(&mut Told::of(&Count::new(), SESSION)) {
        Some(reply) => got_of(reply),
        None => Got::Nothing,
    }
}

// Appends the reply to each task of a job, in order.
fn push_got<D: Disk, N: LogId>(
    all: &mut Vec<Got>,
    job: Job<D, Count, N>,
) -> Result<(), AllocError> {
    let Job { tasks, replies: _ } = job;
    for task in tasks.into_items() {
        all.push(got_by(task))?;
    }
    Ok(())
}

// The replies to the tasks of all jobs, in order.
fn all_got<D: Disk, N: LogId>(
    alloc: Global,
    jobs: Vec<Job<D, Count, N>>,
) -> Result<Vec<Got>, AllocError> {
    let mut all = Vec::new(alloc);
    for job in jobs {
        push_got(&mut all, job)?;
    }
    Ok(all)
}

// A wait for room that ends at once.
fn no_wait(alloc: Global) -> Option<RoomWait<Receiver<Wake>>> {
    let (converter, heard) = room_channel(alloc).ok()?;
    let merger = converter.clone().ok()?;
    let wakes = Wakes { converter, merger };
    Some(RoomWait {
        wakes,
        heard,
        seconds: 0,
    })
}

// Serves these jobs as one batch at this desk, from its seat. Returns their replies.
fn serve_jobs<D: Disk, N: DeskId + LogId, R: Wait + Clock>(
    rt: &R,
    alloc: Global,
    desk: Desk<D, Count, N>,
    mut seats: Vec<Seat<N>>,
    jobs: Vec<Job<D, Count, N>>,
) -> Option<Vec<Got>> {
    let mut seat = seats.pop()?;
    let room = no_wait(alloc)?;
    let shared: Shared<D, Count, N> = RwLock::new(desk);
    let at = Workplace {
        rt,
        alloc,
        shared: &shared,
        gate: &OpenGate,
        room: &room,
        board: &Board::new(rt, false),
    };
    let (jobs, _) = at.serve_batch(&mut seat, jobs);
    all_got(alloc, jobs).ok()
}

// Serves all requests in jobs of so many, as one batch, at a desk of this store. Returns their replies. None if out of
// memory.
fn serve_at_desk<D: Disk, N: DeskId + LogId, R: Wait + Clock>(
    rt: &R,
    alloc: Global,
    core: Core<D>,
    most: usize,
    desk_blanks: (Blank, Blank),
    log: LogStart,
) -> Option<Vec<Got>>
    requires calls { (desk_blanks.0.name ≡ N.calls_name) × (desk_blanks.0.parts ≡ N.seats) }
    requires accepted { (desk_blanks.1.name ≡ N.accepted_name) × (desk_blanks.1.parts ≡ N.seats) }
    requires seats { N.seats ≡ 1 }
    requires log { log ≡ N.log }
{
    let jobs = all_in_jobs(rt, alloc, &log.named::<N>(), most)?;
    let (calls, accepted) = desk_blanks;
    match Desk::<D, Count, N>::new(alloc, core, Count::new(), 1, calls, accepted) {
        Ok((desk, seats)) => serve_jobs(rt, alloc, desk, seats, jobs),
        Err(_) => None,
    }
}

// The same at a desk of the store on this disk.
fn serve_on_disk<R: Wait + Clock>(
    rt: &R,
    alloc: Global,
    disk: MemDisk,
    most: usize,
) -> Result<Vec<Got>, Fail> {
    let core = opened_on(alloc, disk)?;
    let blanks = (Blank::new(1), Blank::new(1));
    let served = serve_at_desk::<_, Brand, _>(rt, alloc, core, most, blanks, LogStart::new());
    Ok(served.ok_or("a desk")?)
}

// Whether these are the replies to all requests in jobs of so many, served on this disk.
fn gets_in_jobs<R: Wait + Clock>(
    rt: &R,
    alloc: Global,
    disk: MemDisk,
    most: usize,
    due: &[Got],
) -> Result<bool, Fail> {
    let got = serve_on_disk(rt, alloc, disk, most)?;
    Ok(got.as_slice() == due)
}

// The replies, whether each request is a job or some or all are one.
const DUE: [Got; REQUESTS] = [
    Got::Accepted(1),
    Got::Accepted(2),
    Got::Differs,
    Got::Nothing,
    Got::Nothing,
    Got::Accepted(3),
    Got::Accepted(4),
    Got::Differs,
    Got::Nothing,
    Got::Nothing,
    Got::Acknowledged(4),
];

// Whether the replies to jobs of so many requests are those.
fn settles_in_jobs<R: Wait + Clock>(rt: &R, alloc: Global, most: usize) -> Result<bool, Fail> {
    gets_in_jobs(rt, alloc, formatted(alloc)?, most, DUE.as_slice())
}

#[test]
fn settles_a_swap(rt: HostRuntime) -> Result<(), Fail> {
    for most in [1, 4, 11, 12] {
        assert!(rt; settles_in_jobs(&rt, rt.alloc(), most)?);
    }
    Ok(())
}

// A disk whose eleventh write or sync fails, and all calls after it. The eleventh writes the gates in
// the first flush. Before it come the opening's sync, two writes for each of four rows, and the
// flush's first sync.
fn failing(alloc: Global) -> Result<MemDisk, Fail> {
    let mut stops = Vec::new(alloc);
    stops.push(Stop {
        k: 11,
        fill: Fill::Old,
    })?;
    Ok(formatted(alloc)?.arm(stops))
}

// The replies if the flush is refused.
const UNSETTLED: [Got; REQUESTS] = [
    Got::Unsettled(1),
    Got::Unsettled(2),
    Got::Differs,
    Got::Nothing,
    Got::Nothing,
    Got::Unsettled(3),
    Got::Unsettled(4),
    Got::Differs,
    Got::Nothing,
    Got::Nothing,
    Got::Refused(5),
];

#[test]
fn differs_where_the_flush_is_refused(rt: HostRuntime) -> Result<(), Fail> {
    let disk = failing(rt.alloc())?;
    assert!(rt; gets_in_jobs(&rt, rt.alloc(), disk, 4, UNSETTLED.as_slice())?);
    Ok(())
}
