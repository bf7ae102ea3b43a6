// A server on one listener.
ghost use Rattle.std.specs.Prelude.{◌≡◌, ◌⊎◌, ◌++◌, ℕ, [], Ok, Some, IfErr, IfOk, IfSome, OnOk, codes};
ghost use Rattle.std.specs.Io.KnownBytes.{Appends};
ghost use Rattle.silt_disk.specs.Layout.{Shape};
ghost use Rattle.silt_store_set.specs.CoreInvariant.{LeavesBegun};
ghost use Rattle.silt_desk.specs.Seeing.{seen};
ghost use Rattle.silt_desk.specs.Servings.{LeavesCalls};
ghost use Rattle.silt_wire.specs.Statuses.{IsStatus};
ghost use Rattle.silt_server.specs.Serving.{BreaksServing, IsTraced, ServesAt, ServesCalls, ServesKept, PrintsCalls, PrintsNotServed};
ghost use Rattle.silt_server.specs.Serving.{PrintsServed, WritesHead, head_text, network_text, no_memory_text};

use crate::care::Cares;
use crate::common::{Served, Serving};
use crate::counting_listener::Listens;
use crate::limits::{Limits, MOST_SESSIONS};
use crate::workers::Workers;
use crate::written::{refuse, write_calls, write_listening, write_network_fault, write_opened};
use silt_desk::{
    Anchor, Anchored, CallLog, Count, Desk, DeskId, Gate, Kept, Seat, Shared, Trace, Viewed,
};
use silt_disk::Disk;
use silt_event::Refusal;
use silt_inbox::{Inbox, InboxId, Taker};
use silt_session::{Board, Job, JobLog, LogId, LogStart, SessionSlot, slots_of};
use silt_store_set::Core;
use std::alloc::{AllocError, Global};
use std::io::{self, Write};
use std::marker::Brand;
use std::sync::ledger::Blank;
use std::sync::{Mutex, RwLock, Wait};
use std::thread::Threads;
use std::time::Clock;

/// How many seats the workers have.
pub(crate) const WORKERS: u64 = 3;

/// A server of one store: where its connections come from, its limits, the gate that its workers pass, the board of its threads, and
/// the care beside the sessions.
#[derive(Drop)]
pub struct Server<'a, L, G, C, R> {
    pub rt: &'a R,
    pub alloc: Global,
    pub listener: &'a L,
    pub limits: Limits,
    pub gate: &'a G,
    pub board: &'a Board,
    pub care: &'a C,
}

impl<L: Listens + Sync, G: Gate + Sync, C: Cares, R: Threads + Wait + Clock + Sync> Server<
    '_,
    L,
    G,
    C,
    R,
> {
    /// Serves a store to the connections of the listener, within the limits, until the board says that the server is to end.
    ///
    /// Writes `opened` and `listening` with the listener's port. After the last session, the converter ends when it has no
    /// step to do, and then the merger. A log that waits for a hash region may stay frozen. Then it writes `calls` with the
    /// number of recorded calls.
    ///
    /// Gives the store's disk back, and the status: 0 after that, 1 if nothing is served or the network fails.
    ///
    /// # Errors
    ///
    /// The writer's, and out of memory for the text of a line.
    pub fn serve<D: Viewed, W: Write>(&self, core: Core<D>, out: &mut W) -> (D, io::Result<u8>)
        ensures served { result.1 ≡ Ok 0 → ServesAt (L.has_port self.now.listener.now) (D.content result.0) (W.contents out.old) (W.contents out.new) }
        ensures kept { result.1 ≡ Ok 0 → IfSome self.now.limits.audit (λ _. ServesKept D.Disk (L.has_port self.now.listener.now) result.0 (W.contents out.old) (W.contents out.new)) }
        ensures calls { result.1 ≡ Ok 0 → ServesCalls D.Disk (L.has_port self.now.listener.now) core result.0 (W.contents out.old) (W.contents out.new) }
        ensures led { LeavesCalls D.Disk core result.0 }
        ensures printed { IfOk result.1 (IsStatus (PrintsNotServed D.Disk (L.has_port self.now.listener.now) core result.0 (W.contents out.old) (W.contents out.new))) }
        ensures left { (shape : Shape) × LeavesBegun (D.content result.0) shape }
    {
        match self.limits.audit {
            Some(most) => self.serve_kept(core, most, out),
            None => {
                let (trace, blanks) = (Count::new(), Blanks::new());
                self.serve_traced::<D, Count, Brand, W>(core, trace, blanks, out)
            }
        }
    }

    // Serves a store, and records at most this many calls.
    fn serve_kept<D: Viewed, W: Write>(
        &self,
        core: Core<D>,
        most: u64,
        out: &mut W,
    ) -> (D, io::Result<u8>)
        ensures served { result.1 ≡ Ok 0 → ServesAt (L.has_port self.now.listener.now) (D.content result.0) (W.contents out.old) (W.contents out.new) }
        ensures kept { result.1 ≡ Ok 0 → ServesKept D.Disk (L.has_port self.now.listener.now) result.0 (W.contents out.old) (W.contents out.new) }
        ensures calls { result.1 ≡ Ok 0 → ServesCalls D.Disk (L.has_port self.now.listener.now) core result.0 (W.contents out.old) (W.contents out.new) }
        ensures led { LeavesCalls D.Disk core result.0 }
        ensures printed { IfOk result.1 (IsStatus (PrintsNotServed D.Disk (L.has_port self.now.listener.now) core result.0 (W.contents out.old) (W.contents out.new))) }
        ensures left { (shape : Shape) × LeavesBegun (D.content result.0) shape }
    {
        match Kept::new(self.alloc, &core, most) {
            Ok(trace) => {
                let blanks = Blanks::new();
                self.serve_traced::<D, Kept, Brand, W>(core, trace, blanks, out)
            }
            Err(refusal) => {
                let _known = core.standing(); // the possible crash images of the store as it is
                let status = refuse(self.alloc, &refusal, out);
                (core.close(), status)
            }
        }
    }

    // Serves a store with a trace of its calls.
    fn serve_traced<
        D: Viewed,
        T: Trace + Send + Sync,
        N: DeskId + InboxId + LogId + Anchor + Send + Sync,
        W: Write,
    >(&self, core: Core<D>, trace: T, blanks: Blanks, out: &mut W) -> (D, io::Result<u8>)
        requires calls { (blanks.calls.name ≡ N.calls_name) × (blanks.calls.parts ≡ N.seats) × (N.seats ≡ 3) }
        requires accepted { (blanks.accepted.name ≡ N.accepted_name) × (blanks.accepted.parts ≡ N.seats) }
        requires put { (blanks.put.name ≡ N.put_name) × (blanks.put.parts ≡ N.feeders) × (N.feeders ≡ 1024) }
        requires taken { (blanks.taken.name ≡ N.taken_name) × (blanks.taken.parts ≡ 1) }
        requires log { blanks.log ≡ N.log }
        requires history { (blanks.history.book ≡ N.calls blanks.history.shard) × (blanks.history.calls ≡ []) }
        requires trace { ((shard : ℕ) → N.first shard ≡ Some (seen D.Disk core)) × T.agrees trace (seen D.Disk core) × T.counts trace 0 0 }
        ensures traced { IsTraced D.Disk T.agrees T.counts (L.has_port self.now.listener.now) core result.0 result.1 (W.contents out.old) (W.contents out.new) }
        ensures printed { IfOk result.1 (IsStatus (BreaksServing (L.has_port self.now.listener.now) (W.contents out.old) (W.contents out.new))) }
        ensures left { (shape : Shape) × LeavesBegun (D.content result.0) shape }
    {
        let Blanks {
            calls,
            accepted,
            put,
            taken,
            log,
            history,
        } = blanks;
        let trace = Anchored::<T, N>::new(&core, trace, history);
        match Desk::<D, Anchored<T, N>, N>::new(self.alloc, core, trace, WORKERS, calls, accepted) {
            Ok((desk, seats)) => {
                let Some(state) = ServerState::new(self.alloc, seats, put, taken, log) else {
                    let status = refuse(self.alloc, &Refusal::<()>::NoMemory, out);
                    let _known = desk.trace(); // it agrees with the store
                    return (desk.close(), status);
                };
                let (desk, status) = self.serve_desk(desk, state, out);
                let _known = desk.trace(); // it agrees with the store
                (desk.close(), status)
            }
            Err(lack) => {
                let status = refuse(self.alloc, &Refusal::<()>::NoMemory, out);
                (lack.core.close(), status)
            }
        }
    }

    /// Serves the store of a desk to the connections of the listener, within the limits, and gives the desk back with the
    /// status: its trace has every call that a session made.
    pub fn serve_desk<
        D: Viewed,
        T: Trace + Send + Sync,
        N: DeskId + InboxId + LogId + Send + Sync,
        W: Write,
    >(
        &self,
        desk: Desk<D, T, N>,
        state: ServerState<D, T, N>,
        out: &mut W,
    ) -> (Desk<D, T, N>, io::Result<u8>)
        ensures served { result.1 ≡ Ok 0 → PrintsServed (L.has_port self.now.listener.now) T.counts result.0.trace (W.contents out.old) (W.contents out.new) }
        ensures printed { IfOk result.1 (IsStatus (BreaksServing (L.has_port self.now.listener.now) (W.contents out.old) (W.contents out.new))) }
    {
        match begin(self.alloc, self.listener, out) {
            Ok(()) => self.serve_begun(desk, state, out),
            Err(status) => {
                drop(state);
                (desk, status)
            }
        }
    }

    // Serves the store of a desk once the head is written, and writes the last lines.
    fn serve_begun<
        D: Viewed,
        T: Trace + Send + Sync,
        N: DeskId + InboxId + LogId + Send + Sync,
        W: Write,
    >(
        &self,
        desk: Desk<D, T, N>,
        state: ServerState<D, T, N>,
        out: &mut W,
    ) -> (Desk<D, T, N>, io::Result<u8>)
        ensures calls { result.1 ≡ Ok 0 → PrintsCalls T.counts result.0.trace (W.contents out.old) (W.contents out.new) }
        ensures printed { IfOk result.1 (IsStatus (Appends (W.contents out.old) (W.contents out.new) no_memory_text ⊎ Appends (W.contents out.old) (W.contents out.new) network_text)) }
    {
        let value_len = desk.geometry().value_len() as usize;
        let shared: Shared<D, T, N> = RwLock::new(desk);
        let served = self.run_threads(&shared, state, value_len);
        let mut desk = shared.into_inner();
        let status = end(self.alloc, &mut desk, served, out);
        (desk, status)
    }

    // Runs the workers, the replier and the care beside the sessions, until these have ended and all their requests are done.
    // Values have so many bytes. None if a worker, the writer or the care has no thread.
    fn run_threads<D: Viewed, T: Trace + Send + Sync, N: DeskId + InboxId + LogId + Send + Sync>(
        &self,
        desk: &Shared<D, T, N>,
        state: ServerState<D, T, N>,
        value_len: usize,
    ) -> Option<Served<N>> {
        let ServerState {
            workers,
            inbox,
            log,
            slots,
            taker,
        } = state;
        let serving = Serving {
            rt: self.rt,
            alloc: self.alloc,
            desk,
            inbox: &inbox,
            log: &log,
            slots: slots.as_slice(),
            value_len,
            limits: self.limits,
            gate: self.gate,
            board: self.board,
        };
        serving.run(self.listener, self.care, workers, taker)
    }
}

/// Writes that the network failed before the store could be served. Gives the store's disk back, and the status.
///
/// # Errors
///
/// The writer's.
pub fn refuse_network<D: Disk, W: Write>(core: Core<D>, out: &mut W) -> (D, io::Result<u8>)
    ensures printed { IfOk result.1 (λ status. (status ≡ 1) × Appends (W.contents out.old) (W.contents out.new) (codes "opened\n" ++ network_text)) }
    ensures led { LeavesCalls D.Disk core result.0 }
    ensures left { (shape : Shape) × LeavesBegun (D.content result.0) shape }
{
    let _known = core.standing(); // the possible crash images of the store as it is
    (core.close(), write_no_network(out))
}

/// Writes that the network failed before the stores of a set could be served, and returns the status.
///
/// # Errors
///
/// The writer's.
pub fn refuse_set_network<W: Write>(out: &mut W) -> io::Result<u8>
    ensures { IfOk result (λ status. (status ≡ 1) × Appends (W.contents out.old) (W.contents out.new) (codes "opened\n" ++ network_text)) }
{
    write_no_network(out)
}

// Writes that the store is opened and that the network failed, and returns the status.
fn write_no_network<W: Write>(out: &mut W) -> io::Result<u8>
    ensures { IfOk result (λ status. (status ≡ 1) × Appends (W.contents out.old) (W.contents out.new) (codes "opened\n" ++ network_text)) }
{
    write_opened(out)?;
    write_network_fault(out)
}

// The blanks that become the ledgers of a desk and of an inbox, the log of the jobs, and that of the calls.
#[derive(Drop)]
struct Blanks {
    calls: Blank,
    accepted: Blank,
    put: Blank,
    taken: Blank,
    log: LogStart,
    history: CallLog,
}

impl Blanks {
    fn new() -> Blanks
        ensures desk { (result.calls.parts ≡ 3) × (result.accepted.parts ≡ 3) }
        ensures inbox { (result.put.parts ≡ 1024) × (result.taken.parts ≡ 1) }
        ensures history { result.history.calls ≡ [] }
    {
        Blanks {
            calls: Blank::new(WORKERS),
            accepted: Blank::new(WORKERS),
            put: Blank::new(MOST_SESSIONS),
            taken: Blank::new(1),
            log: LogStart::new(),
            history: CallLog::new(0),
        }
    }
}

/// The state between the connections and the desk: the writer and the workers, the inbox of the sessions' jobs, their log, a
/// slot for each session, and the writer's end of the inbox.
#[derive(Drop)]
pub struct ServerState<D: Disk, T: Trace, N: DeskId + InboxId + LogId> {
    workers: Workers<D, T, N>,
    inbox: Inbox<Job<D, T, N>, N>,
    log: JobLog<N>,
    slots: Vec<Mutex<SessionSlot<N>>>,
    taker: Taker<N>,
}

impl<D: Disk, T: Trace, N: DeskId + InboxId + LogId> ServerState<D, T, N> {
    /// The writer and the workers on these seats, the inbox with ledgers of these blanks, and this log. None if out of memory.
    pub fn new(
        alloc: Global,
        seats: Vec<Seat<N>>,
        put: Blank,
        taken: Blank,
        log: LogStart,
    ) -> Option<ServerState<D, T, N>>
        requires put { (put.name ≡ N.put_name) × (put.parts ≡ N.feeders) × (N.feeders ≡ 1024) }
        requires taken { (taken.name ≡ N.taken_name) × (taken.parts ≡ 1) }
        requires log { log ≡ N.log }
    {
        let (inbox, feeders, taker) = Inbox::new(alloc, MOST_SESSIONS, put, taken).ok()?;
        let slots = slots_of(alloc, feeders).ok()?;
        let workers = Workers::new(alloc, seats)?;
        Some(ServerState {
            workers,
            inbox,
            log: log.named(),
            slots,
            taker,
        })
    }
}

/// Writes the head. If the listener has no port, or the writer fails, nothing is served, and this is the status.
pub(crate) fn begin<L: Listens, W: Write>(
    alloc: Global,
    listener: &L,
    out: &mut W,
) -> Result<(), io::Result<u8>>
    ensures head { OnOk result (WritesHead (L.has_port listener.now) (W.contents out.old) (W.contents out.new)) }
    ensures none { IfErr result (λ status. IfOk status (λ s. (s ≡ 1) × Appends (W.contents out.old) (W.contents out.new) (codes "opened\n" ++ network_text))) }
{
    let Ok(port) = listener.port() else {
        return Err(write_no_network(out));
    };
    match write_head(alloc, port, out) {
        Ok(()) => Ok(()),
        Err(error) => Err(Err(error)),
    }
}

// Writes that the store is opened, and on which port the server listens.
fn write_head<W: Write>(alloc: Global, port: u16, out: &mut W) -> io::Result<()>
    ensures { OnOk result (Appends (W.contents out.old) (W.contents out.new) (head_text port)) }
{
    write_opened(out)?;
    write_listening(alloc, port, out)
}

// Writes the last lines after the sessions have ended, and returns the status.
fn end<D: Disk, T: Trace, N: DeskId, W: Write>(
    alloc: Global,
    desk: &mut Desk<D, T, N>,
    served: Option<Served<N>>,
    out: &mut W,
) -> io::Result<u8>
    ensures same { desk.new ≡ desk.old }
    ensures calls { result ≡ Ok 0 → PrintsCalls T.counts desk.old.trace (W.contents out.old) (W.contents out.new) }
    ensures printed { IfOk result (IsStatus (Appends (W.contents out.old) (W.contents out.new) no_memory_text ⊎ Appends (W.contents out.old) (W.contents out.new) network_text)) }
{
    let Some(Served { seats, accepted }) = served else {
        return refuse(alloc, &Refusal::<()>::NoMemory, out);
    };
    match accepted {
        Ok(()) => write_settled(alloc, desk, seats, out),
        Err(_) => write_network_fault(out),
    }
}

// Writes how many calls are recorded, once all seats are given back.
fn write_settled<D: Disk, T: Trace, N: DeskId, W: Write>(
    alloc: Global,
    desk: &mut Desk<D, T, N>,
    seats: (Seat<N>, Seat<N>, Seat<N>),
    out: &mut W,
) -> io::Result<u8>
    ensures same { desk.new ≡ desk.old }
    ensures calls { result ≡ Ok 0 → PrintsCalls T.counts desk.old.trace (W.contents out.old) (W.contents out.new) }
    ensures printed { IfOk result (IsStatus (Appends (W.contents out.old) (W.contents out.new) no_memory_text)) }
{
    let all = all_of(alloc, seats)?;
    match desk.settle(all) {
        Ok((calls, _)) => write_calls(alloc, calls, out),
        Err(_) => refuse(alloc, &Refusal::<()>::NoMemory, out),
    }
}

// A list of three seats.
fn all_of<N: DeskId>(
    alloc: Global,
    seats: (Seat<N>, Seat<N>, Seat<N>),
) -> Result<Vec<Seat<N>>, AllocError> {
    let (first, second, third) = seats;
    Ok(vec![in alloc; first, second, third]?)
}
