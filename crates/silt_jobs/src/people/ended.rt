// How a job ended, as a value that one function prints for people.
ghost use Rattle.std.specs.Prelude.{◌≡◌, IfOk, None, Some, is_err};
ghost use Rattle.silt_jobs.specs.Common.{Appends};
ghost use Rattle.silt_jobs.specs.Ended.{EndsWhole, Refuses, exit_status, none_failed, why_line, why_status};

use crate::jobs::{HeldStore, Holding};
use crate::people::{Failures, KINDS, Refusals, Stream, StreamError, refuse, write_out};
use crate::plans::PlanCost;
use silt_shards::MarkFault;
use silt_store_set::Refusal;
use silt_wire::SessionEnd;
use silt_words::{Numbers, PlanRequest};
use std::alloc::Global;
use std::io::{self, Write};
use std::net::SocketAddr;

/// Why a job was refused, or broke off.
#[derive(Drop)]
pub enum Why<E, F> {
    /// The source gave no disk.
    NoDisk(E),
    /// The store refused. If a part of it is damaged, this is the offset, if that is known.
    Refused(Refusal<F>, Option<u64>),
    /// The disk has data that stays.
    Holds(Holding),
    /// The file is also this standard stream.
    IsStream(Stream),
    /// The store has this many hash regions, and a merge is to begin of more hash stores.
    FewRegions(u32),
    /// The values of the store have no room for the length of a Redis client's string.
    ShortValues,
    /// One of these numbers is out of its limits.
    OutOfLimits(Numbers),
    /// No store, or no set of so many shards, has room for what is planned.
    NoPlan(Option<u32>, PlanRequest),
    /// The listener on this socket failed.
    NotListening(SocketAddr, StreamError),
    /// The server at this socket cannot be reached, gave no reply that can be taken, or did not end.
    NoReply(SocketAddr, StreamError),
    /// A server was not asked. People were told why.
    NotAsked,
    /// The system gave no random bytes to name a set.
    NoRandom(StreamError),
    /// The file is not what is due: a shard of a set, or a store of its own.
    NotDue(MarkFault),
    /// The words name no job.
    NoJob,
}

/// A session that ended.
#[derive(Clone, Copy)]
pub struct Session {
    pub end: SessionEnd,
    /// The error of its reader or its writer, if that is why it broke off.
    pub error: Option<StreamError>,
    /// Which of its lines were refused, by the number of the refusal.
    pub refused: [Refusals; KINDS],
    /// The bytes of a value of its store.
    pub value_len: u32,
}

/// What a job found out.
#[derive(Drop)]
pub enum Found {
    /// What a checked store has.
    Store(HeldStore),
    /// What a planned store costs.
    Cost(PlanCost),
    /// How a session went.
    Session(Session),
    /// Because of which shard of a set the job was refused.
    Shard(u32),
}

/// How a job ended. `E` is the error of the source of disks, `F` the fault of its disks.
#[derive(Drop)]
pub struct Ended<E, F> {
    /// 0 if it was done, 1 if it was refused or broke off, 2 if the words name none, 3 if it was a strict run and a line was
    /// refused. Or the error of its reader or its writer, or out of memory for a text.
    pub status: io::Result<u8>,
    pub why: Option<Why<E, F>>,
    pub found: Option<Found>,
    /// The calls of its disk that failed.
    pub failures: Failures,
}

impl<E: Drop, F: Drop> Ended<E, F> {
    /// A job with this status, and nothing else to say.
    pub fn plain(status: io::Result<u8>) -> Self
        ensures { result ≡ record { status = status; why = None; found = None; failures = none_failed } }
    {
        Ended {
            status,
            why: None,
            found: None,
            failures: Failures::none(),
        }
    }

    /// Refuses a job for this reason, and writes the line that says so.
    pub fn refuse<W: Write>(alloc: Global, why: Why<E, F>, writer: &mut W) -> Self
        ensures { Refuses why result (W.contents writer.old) (W.contents writer.new) }
    {
        let status = write_why(alloc, &why, writer);
        Ended {
            why: Some(why),
            ..Ended::plain(status)
        }
    }

    /// The status that the program ends with: 1 if the job's reader or writer failed.
    pub fn exit_status(&self) -> u8
        ensures { result ≡ exit_status self.now }
    {
        self.status.unwrap_or(1)
    }

    /// Whether the job's reader or writer failed.
    pub fn is_broken(&self) -> bool
        ensures { result ≡ is_err self.now.status }
    {
        self.status.is_err()
    }
}

/// How a job on one file or on a set of files ended.
#[derive(Drop)]
pub struct Ends<E, F> {
    /// How it ended on each file of the set, in their order, if it has such an end for each.
    pub parts: Vec<Ended<E, F>>,
    /// How all of it ended.
    pub whole: Ended<E, F>,
}

impl<E: Drop, F: Drop> Ends<E, F> {
    /// A job that has no end for each file.
    pub fn of(alloc: Global, whole: Ended<E, F>) -> Self
        ensures { EndsWhole whole result }
    {
        Ends {
            parts: Vec::new(alloc),
            whole,
        }
    }
}

// Writes the line that says why a job was refused, and returns the status.
fn write_why<E, F: Drop, W: Write>(alloc: Global, why: &Why<E, F>, writer: &mut W) -> io::Result<u8>
    ensures { IfOk result (λ status. (status ≡ why_status why.now) × Appends (W.contents writer.old) (W.contents writer.new) (why_line why.now)) }
{
    match why {
        Why::Refused(refusal, _) => refuse(alloc, refusal, writer),
        Why::NoDisk(_) | Why::Holds(_) | Why::IsStream(_) | Why::NoRandom(_) => {
            write_line(b"refused 5 Device\n", 1, writer)
        }
        Why::FewRegions(_) | Why::ShortValues | Why::OutOfLimits(_) | Why::NotDue(_) => {
            write_line(b"refused 2 BadGeometry\n", 1, writer)
        }
        Why::NoPlan(..) => write_line(b"no plan\n", 1, writer),
        Why::NotListening(..) | Why::NoReply(..) | Why::NotAsked => {
            write_line(b"network fault\n", 1, writer)
        }
        Why::NoJob => write_line(b"usage\n", 2, writer),
    }
}

// Writes a line, and returns this status.
fn write_line<W: Write>(line: &[u8], status: u8, writer: &mut W) -> io::Result<u8>
    ensures { IfOk result (λ ended. (ended ≡ status) × Appends (W.contents writer.old) (W.contents writer.new) line.now) }
{
    write_out(line, writer)?;
    Ok(status)
}
