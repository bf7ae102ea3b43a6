// The replies of jobs: who sends them, and that all arrive.
ghost use Rattle.std.specs.Prelude.{◌≡◌};

use crate::server::{Clients, connected, is_served, read_lines, roomy};
use crossbeam_channel::{Receiver, Sender};
use silt_desk::{Count, Gate, Spot};
use silt_device::MemDisk;
use silt_fixtures::reaches;
use silt_session::{Awaited, Job, JobLog, LogId, LogStart, Request, Task, send_replies};
use std::alloc::{AllocError, Global};
use std::io::{self, Write};
use std::marker::Brand;
use std::net::{Net, SocketAddr, TcpListener, TcpStream};
use std::sync::Wait;
use std::sync::atomic::{AtomicU64, Ordering};
use std::test::Fail;
use std::thread::{self, Threads};
use std::time::{Clock, Duration};

/// Jobs, and where the replies of each come.
#[derive(Drop)]
struct JobsAndWays<N: LogId> {
    jobs: Vec<Job<MemDisk, Count, N>>,
    ways: Vec<Awaited<MemDisk, Count, N>>,
}

/// Where jobs are made and sent: their log, and the writer's end of the replier's channel.
#[derive(Drop)]
struct Sending<N: LogId> {
    log: JobLog<N>,
    replier: Sender<Vec<Job<MemDisk, Count, N>>>,
}

// The tasks of so many flushes.
fn flushes(alloc: Global, count: usize) -> Result<Vec<Task<MemDisk, Count>>, AllocError> {
    let mut tasks = Vec::new(alloc);
    for _ in 0..count {
        tasks.push(Task::new(1, Request::Flush))?;
    }
    Ok(tasks)
}

impl<N: LogId> JobsAndWays<N> {
    // Adds a job of so many flushes.
    fn add<R: Wait>(&mut self, rt: &R, alloc: Global, log: &JobLog<N>, count: usize) -> Option<()> {
        let tasks = flushes(alloc, count).ok()?;
        let (job, way) = Job::new(rt, alloc, log, tasks)?;
        self.ways.push(way).ok()?;
        self.jobs.push(job).ok()
    }

    // Adds so many jobs. The first has no task, and each further one has one task more.
    fn add_all<R: Wait>(
        &mut self,
        rt: &R,
        alloc: Global,
        log: &JobLog<N>,
        count: usize,
    ) -> Option<()> {
        for number in 0..count {
            self.add(rt, alloc, log, number)?;
        }
        Some(())
    }
}

// Whether the replies of a job of so many tasks have come.
fn has_come<N: LogId, R: Wait>(rt: &R, way: &Awaited<MemDisk, Count, N>, count: usize) -> bool {
    match way.back.try_recv(rt) {
        Ok(tasks) => tasks.into_items().len() == count,
        Err(_) => false,
    }
}

// How many of the jobs have got their own replies.
fn arrived<N: LogId, R: Wait>(rt: &R, ways: &[Awaited<MemDisk, Count, N>]) -> usize {
    let mut count = 0usize;
    for number in 0..ways.len() {
        if has_come(rt, &ways[number], number) {
            count = count.saturating_add(1);
        }
    }
    count
}

// Sends the replies of these jobs, and returns how many arrive.
fn send_now<N: LogId, R: Wait>(rt: &R, sending: &Sending<N>, both: JobsAndWays<N>) -> usize {
    let JobsAndWays { jobs, ways } = both;
    send_replies(rt, &sending.replier, jobs);
    arrived(rt, ways.as_slice())
}

// How many of so many jobs get their replies from the writer.
fn sent_by_writer<N: LogId, R: Wait>(
    rt: &R,
    alloc: Global,
    sending: &Sending<N>,
    count: usize,
) -> Option<usize> {
    let mut both = JobsAndWays {
        jobs: Vec::new(alloc),
        ways: Vec::new(alloc),
    };
    match both.add_all(rt, alloc, &sending.log, count) {
        Some(()) => Some(send_now(rt, sending, both)),
        None => None,
    }
}

// How many jobs wait for the replier, which takes them now.
fn waiting<N: LogId, R: Wait>(rt: &R, batches: &Receiver<Vec<Job<MemDisk, Count, N>>>) -> usize {
    match batches.try_recv(rt) {
        Ok(jobs) => jobs.len(),
        Err(_) => 0,
    }
}

// How many of 0 jobs and of 8 get their replies from the writer, and whether none waits.
fn few_jobs<N: LogId, R: Wait>(
    rt: &R,
    alloc: Global,
    log: LogStart,
) -> Result<([Option<usize>; 2], bool), AllocError>
    requires { log ≡ N.log }
{
    let (replier, batches) = crossbeam_channel::bounded(alloc, 1)?;
    let sending = Sending {
        log: log.named::<N>(),
        replier,
    };
    let none = sent_by_writer(rt, alloc, &sending, 0);
    let eight = sent_by_writer(rt, alloc, &sending, 8);
    Ok(([none, eight], batches.is_empty()))
}

#[test]
fn the_writer_replies_to_few_jobs(rt: HostRuntime) -> Result<(), Fail> {
    let found = few_jobs::<Brand, _>(&rt, rt.alloc(), LogStart::new())?;
    assert!(rt; found == ([Some(0), Some(8)], true));
    Ok(())
}

/// How many jobs get their replies from the writer, how many from the replier, and so on in turn.
type InTurn = (Option<usize>, Option<usize>, usize, Option<usize>, usize);

// 9 jobs and 64 while the replier is busy, and then 10 jobs.
fn beside_a_busy_replier<N: LogId, R: Wait>(
    rt: &R,
    alloc: Global,
    log: LogStart,
) -> Result<InTurn, AllocError>
    requires { log ≡ N.log }
{
    let (replier, batches) = crossbeam_channel::bounded(alloc, 1)?;
    let sending = Sending {
        log: log.named::<N>(),
        replier,
    };
    let nine = sent_by_writer(rt, alloc, &sending, 9);
    let many = sent_by_writer(rt, alloc, &sending, 64);
    let waited = waiting(rt, &batches);
    let ten = sent_by_writer(rt, alloc, &sending, 10);
    Ok((nine, many, waited, ten, waiting(rt, &batches)))
}

// The replier gets the first nine jobs. It is busy then, so the writer replies to the next ones itself.
#[test]
fn the_writer_does_not_wait_for_a_busy_replier(rt: HostRuntime) -> Result<(), Fail> {
    let found = beside_a_busy_replier::<Brand, _>(&rt, rt.alloc(), LogStart::new())?;
    assert!(rt; found == (Some(0), Some(64), 9, Some(0), 10));
    Ok(())
}

// How many of 9 jobs and of 64 get their replies from the writer if there is no replier.
fn without_a_replier<N: LogId, R: Wait>(
    rt: &R,
    alloc: Global,
    log: LogStart,
) -> Result<[Option<usize>; 2], AllocError>
    requires { log ≡ N.log }
{
    let (replier, batches) = crossbeam_channel::bounded(alloc, 1)?;
    drop(batches);
    let sending = Sending {
        log: log.named::<N>(),
        replier,
    };
    let nine = sent_by_writer(rt, alloc, &sending, 9);
    let many = sent_by_writer(rt, alloc, &sending, 64);
    Ok([nine, many])
}

#[test]
fn the_writer_replies_if_there_is_no_replier(rt: HostRuntime) -> Result<(), Fail> {
    let found = without_a_replier::<Brand, _>(&rt, rt.alloc(), LogStart::new())?;
    assert!(rt; found == [Some(9), Some(64)]);
    Ok(())
}

/// How many commands the writer has begun, and whether it may go on.
#[derive(Drop)]
struct Passes {
    count: AtomicU64,
    opened: AtomicU64,
}

/// Holds the writer at its first command until it is opened.
#[derive(Drop)]
struct HoldsWriter<'a, R: Clock> {
    rt: &'a R,
    passes: &'a Passes,
}

impl<R: Clock> Gate for HoldsWriter<'_, R> {
    fn pass(&self, spot: Spot) {
        if spot == Spot::Writer && self.passes.count.fetch_add(1, Ordering::SeqCst) == 0 {
            let _ = reaches(self.rt, &self.passes.opened, 1);
        }
    }
}

/// How many clients ask at once.
const CLIENTS: u32 = 24;

// The line of a client: a put, or every second time a swap that differs.
fn line_of(number: u32) -> &'static [u8] {
    if number % 2 == 0 {
        b"put =a 0001\n"
    } else {
        b"swap =b 0001 0000\n"
    }
}

// The first words of the replies that are due.
const DUE: &[u8] = b"accepted\ndiffers\naccepted\ndiffers\naccepted\ndiffers\naccepted\ndiffers\n\
    accepted\ndiffers\naccepted\ndiffers\naccepted\ndiffers\naccepted\ndiffers\n\
    accepted\ndiffers\naccepted\ndiffers\naccepted\ndiffers\naccepted\ndiffers\n";

/// Twenty-four clients that ask at once.
#[derive(Drop)]
struct AskAtOnce<'a, R> {
    rt: &'a R,
    alloc: Global,
    passes: &'a Passes,
}

impl<R: Net<Stream = TcpStream> + Clock + Sync> Clients for AskAtOnce<'_, R> {
    fn ask(&self, addr: SocketAddr, got: &mut Vec<u8>) -> io::Result<()> {
        let mut streams = Vec::new(self.alloc);
        send_all(self.rt, addr, self.passes, &mut streams)?;
        read_words(self.alloc, &mut streams, got)
    }
}

// Lets the writer take the first command and holds it there, until all others have been sent.
fn send_all<R: Net<Stream = TcpStream> + Clock>(
    rt: &R,
    addr: SocketAddr,
    passes: &Passes,
    streams: &mut Vec<TcpStream>,
) -> io::Result<()> {
    send(rt, addr, line_of(0), streams)?;
    let _ = reaches(rt, &passes.count, 1);
    for number in 1..CLIENTS {
        send(rt, addr, line_of(number), streams)?;
    }
    thread::sleep(rt, Duration::from_millis(200)); // so that their sessions have handed them over
    passes.opened.store(1, Ordering::SeqCst);
    Ok(())
}

// Sends a line on a connection of its own.
fn send<R: Net<Stream = TcpStream>>(
    rt: &R,
    addr: SocketAddr,
    line: &[u8],
    streams: &mut Vec<TcpStream>,
) -> io::Result<()> {
    let mut stream = connected(rt, addr)?;
    stream.write_all(line)?;
    streams.push(stream)?;
    Ok(())
}

// Reads a reply from each connection, and appends its first word as a line.
fn read_words(alloc: Global, streams: &mut Vec<TcpStream>, got: &mut Vec<u8>) -> io::Result<()> {
    let mut line = Vec::new(alloc);
    for stream in streams.iter_mut() {
        line.clear();
        read_lines(stream, &mut line, 1)?;
        push_word(line.as_slice(), got)?;
    }
    Ok(())
}

// Appends the first word of a line as a line.
fn push_word(line: &[u8], got: &mut Vec<u8>) -> Result<(), AllocError> {
    for byte in line {
        if *byte == b' ' || *byte == b'\n' {
            break;
        }
        got.push(*byte)?;
    }
    got.push(b'\n')?;
    Ok(())
}

// Whether each client gets its own reply.
fn all_are_served<
    R: Net<Listener = TcpListener, Stream = TcpStream> + Clock + Threads + Wait + Sync,
>(rt: &R, alloc: Global) -> Result<bool, Fail> {
    let passes = Passes {
        count: AtomicU64::new(0),
        opened: AtomicU64::new(0),
    };
    let gate = HoldsWriter {
        rt,
        passes: &passes,
    };
    let clients = AskAtOnce {
        rt,
        alloc,
        passes: &passes,
    };
    is_served(rt, alloc, roomy(alloc)?, CLIENTS, &gate, &clients, DUE)
}

// The batch behind the first command has some twenty jobs, whose replies the replier sends.
#[test]
fn each_of_many_sessions_gets_its_own_reply(rt: HostRuntime) -> Result<(), Fail> {
    assert!(rt; all_are_served(&rt, rt.alloc())?);
    Ok(())
}
