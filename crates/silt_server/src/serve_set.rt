// A server of a set on one listener.
ghost use Rattle.std.specs.Prelude.{◌≡◌, ◌≤◌, ◌⊎◌, ◌%◌, ◌^◌, ℕ, [], All, IfOk, IfSome, IsSomeAnd, List, Ok, false, length, map, sum, vec_capacity, vec_len};
ghost use Rattle.std.specs.Io.KnownBytes.{Appends};
ghost use Rattle.std.specs.List.{AllZip};
ghost use Rattle.silt_disk.specs.Layout.{Shape};
ghost use Rattle.silt_store_set.specs.CoreInvariant.{LeavesBegun};
ghost use Rattle.silt_inbox.specs.Books.{has_books};
ghost use Rattle.silt_shards.specs.Routing.{IsShardCount};
ghost use Rattle.silt_wire.specs.Statuses.{IsStatus};
ghost use Rattle.silt_server.specs.Serving.{AreInPlace, AreNewLogs, BreaksServing, CountsEach, EachFrom, IsLedFrom, IsNamedFor, LeavesEach, PrintsAllCalls, PrintsAllServed};
ghost use Rattle.silt_server.specs.Serving.{ServesSetAt, network_text, no_memory_text};

use crate::care::Cares;
use crate::common::Serving;
use crate::counting_listener::Listens;
use crate::limits::{Limits, MOST_SESSIONS};
use crate::serve::{WORKERS, begin};
use crate::serving_set::{ServingSet, ShardPart};
use crate::workers::Workers;
use crate::written::{refuse, write_calls, write_network_fault};
use crossbeam_channel::{Receiver, Sender};
use silt_desk::{
    Anchor, Anchored, CallLog, Count, Desk, DeskId, Gate, Seat, Shared, Trace, Viewed,
};
use silt_disk::Disk;
use silt_event::Refusal;
use silt_inbox::{Inbox, InboxId, Taker};
use silt_session::{Board, Job, JobLog, LogId, LogStart, SessionSlot, slots_of};
use silt_store_set::Core;
use std::alloc::Global;
use std::io::{self, Write};
use std::marker::Brand;
use std::sync::{Mutex, RwLock, Wait};
use std::thread::Threads;
use std::time::Clock;

/// A server of the stores of a set: where its connections come from, its limits, the gates that the workers of each shard pass, the
/// board of its threads, and the care beside the sessions.
#[derive(Drop)]
pub struct SetServer<'a, L, G, C, R> {
    pub rt: &'a R,
    pub alloc: Global,
    pub listener: &'a L,
    pub limits: Limits,
    pub gates: &'a [G],
    pub board: &'a Board,
    pub care: &'a C,
}

/// One shard: its store under its lock, what lies between the connections and that, and the length of its values.
#[derive(Drop)]
struct Shard<D: Disk, T: Trace, N: DeskId + InboxId + LogId> {
    desk: Shared<D, T, N>,
    inbox: Inbox<Job<D, T, N>, N>,
    slots: Vec<Mutex<SessionSlot<N>>>,
    value_len: usize,
}

/// The workers of one shard, and its writer's end of the inbox.
#[derive(Drop)]
struct Crew<D: Disk, T: Trace, N: DeskId + InboxId + LogId> {
    workers: Workers<D, T, N>,
    taker: Taker<N>,
}

// What lies between the connections and the desk of one shard.
#[derive(Drop)]
struct Lane<D: Disk, T: Trace, N: DeskId + InboxId + LogId> {
    inbox: Inbox<Job<D, T, N>, N>,
    taker: Taker<N>,
    slots: Vec<Mutex<SessionSlot<N>>>,
}

impl<D: Disk, T: Trace, N: DeskId + InboxId + LogId> Lane<D, T, N> {
    // None if out of memory.
    fn new(alloc: Global) -> Option<Lane<D, T, N>>
        requires { has_books N.feeders ≡ false }
    {
        let (inbox, feeders, taker) = Inbox::unbooked(alloc, MOST_SESSIONS).ok()?;
        let slots = slots_of(alloc, feeders).ok()?;
        Some(Lane {
            inbox,
            taker,
            slots,
        })
    }
}

// The store of one shard, and the log of its calls.
#[derive(Drop)]
struct LoggedStore<D: Disk> {
    core: Core<D>,
    log: CallLog,
}

// These stores, in their order, each with a log of no calls. None if out of memory.
fn with_logs<D: Disk>(alloc: Global, cores: Vec<Core<D>>) -> Option<Vec<LoggedStore<D>>>
    ensures count { IfSome result (λ stores. vec_len stores ≡ vec_len cores) }
    ensures cores { IfSome result (λ stores. map (λ store. store.core) stores.items ≡ cores.items) }
    ensures logs { IfSome result (λ stores. AreNewLogs (map (λ store. store.log) stores.items)) }
{
    let mut stores = list_for(alloc, cores.len())?;
    for core in cores {
        let log = CallLog::new(stores.len() as u64);
        stores.push_reserved(LoggedStore { core, log });
    }
    Some(stores)
}

// The desk of one shard, and its workers.
#[derive(Drop)]
struct Staff<D: Disk, T: Trace, N: DeskId + LogId> {
    desk: Desk<D, T, N>,
    workers: Workers<D, T, N>,
}

impl<D: Disk, N: DeskId + LogId + Anchor> Staff<D, Anchored<Count, N>, N> {
    // Of this store. None if out of memory.
    fn new(alloc: Global, store: LoggedStore<D>) -> Option<Staff<D, Anchored<Count, N>, N>>
        requires books { has_books N.seats ≡ false }
        requires named { IsNamedFor D.Disk N.first N.calls store.core store.log }
    {
        let LoggedStore { core, log } = store;
        let trace = Anchored::<Count, N>::new(&core, Count::new(), log);
        match Desk::unbooked(alloc, core, trace, WORKERS) {
            Ok((desk, seats)) => Staff::seated(alloc, desk, seats),
            Err(_) => None,
        }
    }

    fn seated(
        alloc: Global,
        desk: Desk<D, Anchored<Count, N>, N>,
        seats: Vec<Seat<N>>,
    ) -> Option<Staff<D, Anchored<Count, N>, N>> {
        match Workers::new(alloc, seats) {
            Some(workers) => Some(Staff { desk, workers }),
            None => None,
        }
    }
}

impl<D: Disk, N: DeskId + InboxId + LogId + Anchor> Shard<D, Anchored<Count, N>, N> {
    // A shard with this store, and its crew. None if out of memory.
    fn new(
        alloc: Global,
        store: LoggedStore<D>,
    ) -> Option<
        (
            Shard<D, Anchored<Count, N>, N>,
            Crew<D, Anchored<Count, N>, N>,
        ),
    >
        requires desk { has_books N.seats ≡ false }
        requires inbox { has_books N.feeders ≡ false }
        requires named { IsNamedFor D.Disk N.first N.calls store.core store.log }
    {
        let value_len = store.core.geometry().value_len() as usize;
        match Staff::new(alloc, store) {
            Some(staff) => Shard::behind(Lane::new(alloc), staff, value_len),
            None => None,
        }
    }

    // A shard with this staff behind the lane, if there is one.
    fn behind(
        lane: Option<Lane<D, Anchored<Count, N>, N>>,
        staff: Staff<D, Anchored<Count, N>, N>,
        value_len: usize,
    ) -> Option<
        (
            Shard<D, Anchored<Count, N>, N>,
            Crew<D, Anchored<Count, N>, N>,
        ),
    > {
        let Some(
            Lane {
                inbox,
                taker,
                slots,
            },
        ) = lane
        else {
            return None;
        };
        let Staff { desk, workers } = staff;
        let shard = Shard {
            desk: RwLock::new(desk),
            inbox,
            slots,
            value_len,
        };
        Some((shard, Crew { workers, taker }))
    }
}

// An empty list with room for so many. None if out of memory.
fn list_for<X>(alloc: Global, count: usize) -> Option<Vec<X>>
    ensures len { IfSome result (λ list. vec_len list ≡ 0) }
    ensures room { IfSome result (λ list. count ≤ vec_capacity list) }
{
    match Vec::with_capacity(alloc, count) {
        Ok(list) => Some(list),
        Err(_) => None,
    }
}

// The shards of a set, in their order, with their crews.
#[derive(Drop)]
struct Shards<D: Disk, T: Trace, N: DeskId + InboxId + LogId> {
    shards: Vec<Shard<D, T, N>>,
    crews: Vec<Crew<D, T, N>>,
}

impl<D: Disk, N: DeskId + InboxId + LogId + Anchor> Shards<D, Anchored<Count, N>, N> {
    // A shard for each of these stores. None if out of memory.
    fn new(alloc: Global, stores: Vec<LoggedStore<D>>) -> Option<Shards<D, Anchored<Count, N>, N>>
        requires desk { has_books N.seats ≡ false }
        requires inbox { has_books N.feeders ≡ false }
        requires named { All (λ store. IsNamedFor D.Disk N.first N.calls store.core store.log) stores.items }
        ensures { IfSome result (λ made. vec_len made.shards ≡ vec_len stores) }
    {
        let mut shards = list_for(alloc, stores.len())?;
        let mut crews = list_for(alloc, stores.len())?;
        for store in stores {
            let (shard, crew) = Shard::new(alloc, store)?;
            shards.push_reserved(shard);
            crews.push_reserved(crew);
        }
        Some(Shards { shards, crews })
    }
}

impl<L: Listens + Sync, G: Gate + Sync, C: Cares, R: Threads + Wait + Clock + Sync> SetServer<
    '_,
    L,
    G,
    C,
    R,
> {
    /// Serves the stores of a set, in the order of their shards, to the connections of the listener, within the limits. A key's lines go
    /// to its own shard, and a flush to all shards. Each shard's workers pass the gate at its place.
    ///
    /// Writes what [`Server::serve`](crate::Server::serve) does, with the number of recorded calls of all shards. It keeps no record of
    /// the calls.
    ///
    /// Gives the disks of the shards back, in their order, and the status: 0 after the last session, 1 if nothing is served or the
    /// network fails. Each disk is left by calls that lead there from its store. Out of memory for the threads' state, it gives no disks.
    ///
    /// # Errors
    ///
    /// The writer's, and out of memory for the text of a line.
    pub fn serve<D: Viewed, W: Write>(
        &self,
        cores: Vec<Core<D>>,
        out: &mut W,
    ) -> (Vec<D>, io::Result<u8>)
        requires gates { vec_len cores ≤ length self.now.gates.now }
        requires shards { IsShardCount (vec_len cores) }
        ensures served { result.1 ≡ Ok 0 → ServesSetAt (L.has_port self.now.listener.now) D.Disk (vec_len cores) result.0.items (W.contents out.old) (W.contents out.new) }
        ensures count { (result.0.items ≡ []) ⊎ (vec_len result.0 ≡ vec_len cores) }
        ensures led { LeavesEach D.Disk cores.items result.0.items }
        ensures printed { IfOk result.1 (IsStatus (BreaksServing (L.has_port self.now.listener.now) (W.contents out.old) (W.contents out.new))) }
        ensures left { All (λ disk. (shape : Shape) × LeavesBegun (D.content disk) shape) result.0.items }
    {
        let log = LogStart::new();
        match with_logs(self.alloc, cores) {
            Some(stores) => self.serve_named::<D, Brand, W>(stores, log, out),
            None => (
                Vec::new(self.alloc),
                refuse(self.alloc, &Refusal::<()>::NoMemory, out),
            ),
        }
    }
}

// Memory for what is left of the shards in the end.
#[derive(Drop)]
struct EndRoom<D: Disk, T: Trace, N: DeskId> {
    desks: Vec<Desk<D, T, N>>,
    disks: Vec<D>,
}

impl<D: Disk, T: Trace, N: DeskId> EndRoom<D, T, N> {
    // For so many shards. None if out of memory.
    fn new(alloc: Global, shards: usize) -> Option<EndRoom<D, T, N>>
        ensures none { IfSome result (λ room. (room.desks.items ≡ []) × (room.disks.items ≡ [])) }
        ensures room { IfSome result (λ room. (shards ≤ vec_capacity room.desks) × (shards ≤ vec_capacity room.disks)) }
    {
        Some(EndRoom {
            desks: Vec::with_capacity(alloc, shards).ok()?,
            disks: Vec::with_capacity(alloc, shards).ok()?,
        })
    }
}

// The desks of these shards, in their order. None if one is that of another shard than that of its place: this never happens, and if it
// did, no disk would come back.
fn desks_of<D: Disk, T: Trace, N: DeskId + InboxId + LogId + Anchor>(
    shards: Vec<Shard<D, Anchored<T, N>, N>>,
    room: Vec<Desk<D, Anchored<T, N>, N>>,
) -> Option<Vec<Desk<D, Anchored<T, N>, N>>>
    requires { (room.items ≡ []) × (vec_len shards ≤ vec_capacity room) }
    ensures { IfSome result (λ desks. (vec_len desks ≡ vec_len shards) × AreInPlace (map (λ desk. desk.trace) desks.items)) }
{
    let mut desks = room;
    for shard in shards {
        let desk = shard.desk.into_inner();
        if desk.trace().shard() != desks.len() as u64 {
            return None;
        }
        desks.push_reserved(desk);
    }
    Some(desks)
}

// How many calls are recorded at these desks, modulo 2^64.
fn calls_at<D: Disk, T: Trace, N: DeskId>(desks: &[Desk<D, T, N>]) -> u64
    ensures { (calls : List ℕ) × CountsEach T.counts (map (λ desk. desk.trace) desks.now) calls × (result ≡ sum calls % 2 ^ 64) }
{
    let mut calls = 0_u64;
    for desk in desks {
        calls = calls.wrapping_add(desk.trace().numbers().0);
    }
    calls
}

// The disks of these desks, in their order.
fn disks_of<D: Disk, T: Trace, N: DeskId + Anchor>(
    desks: Vec<Desk<D, Anchored<T, N>, N>>,
    room: Vec<D>,
) -> Vec<D>
    requires { (room.items ≡ []) × (vec_len desks ≤ vec_capacity room) }
    ensures count { vec_len result ≡ vec_len desks }
    ensures led { AllZip (λ desk disk. IsLedFrom D.Disk N.first T.counts desk.core desk.trace disk) desks.items result.items }
    ensures left { All (λ disk. (shape : Shape) × LeavesBegun (D.content disk) shape) result.items }
{
    let mut disks = room;
    for desk in desks {
        let _known = desk.trace(); // it agrees with the store
        disks.push_reserved(desk.close());
    }
    disks
}

// Writes the last lines after the sessions have ended, with the number of calls at these desks, and returns the status.
fn end<D: Disk, T: Trace, N: DeskId, W: Write>(
    alloc: Global,
    ended: Option<io::Result<()>>,
    desks: &[Desk<D, T, N>],
    out: &mut W,
) -> io::Result<u8>
    ensures calls { result ≡ Ok 0 → PrintsAllCalls T.counts (map (λ desk. desk.trace) desks.now) (W.contents out.old) (W.contents out.new) }
    ensures printed { IfOk result (IsStatus (Appends (W.contents out.old) (W.contents out.new) no_memory_text ⊎ Appends (W.contents out.old) (W.contents out.new) network_text)) }
{
    match ended {
        Some(Ok(())) => write_calls(alloc, calls_at(desks), out),
        Some(Err(_)) => write_network_fault(out),
        None => refuse(alloc, &Refusal::<()>::NoMemory, out),
    }
}

// What each shard needs, by its crew. None if out of memory.
fn parts_of<D: Disk, T: Trace, N: DeskId + InboxId + LogId>(
    alloc: Global,
    crews: Vec<Crew<D, T, N>>,
    runs: &Sender<bool>,
) -> Option<Vec<ShardPart<D, T, N>>> {
    let mut parts = Vec::with_capacity(alloc, crews.len()).ok()?;
    let mut number = 0_usize;
    for crew in crews {
        let Crew { workers, taker } = crew;
        parts.push_reserved(ShardPart {
            number,
            workers,
            taker,
            runs: runs.clone().ok()?,
        });
        number = number.saturating_add(1);
    }
    Some(parts)
}

// The shards of these stores, and memory for what is left of them in the end. None if out of memory.
fn make<D: Disk, N: DeskId + InboxId + LogId + Anchor>(
    alloc: Global,
    stores: Vec<LoggedStore<D>>,
) -> Option<
    (
        Shards<D, Anchored<Count, N>, N>,
        EndRoom<D, Anchored<Count, N>, N>,
    ),
>
    requires desk { has_books N.seats ≡ false }
    requires inbox { has_books N.feeders ≡ false }
    requires named { All (λ store. IsNamedFor D.Disk N.first N.calls store.core store.log) stores.items }
    ensures count { IfSome result (λ all. vec_len all.0.shards ≡ vec_len stores) }
    ensures none { IfSome result (λ all. (all.1.desks.items ≡ []) × (all.1.disks.items ≡ [])) }
    ensures room { IfSome result (λ all. (vec_len stores ≤ vec_capacity all.1.desks) × (vec_len stores ≤ vec_capacity all.1.disks)) }
{
    let room = EndRoom::new(alloc, stores.len())?;
    let made = Shards::new(alloc, stores)?;
    Some((made, room))
}

impl<L: Listens + Sync, G: Gate + Sync, C: Cares, R: Threads + Wait + Clock + Sync> SetServer<
    '_,
    L,
    G,
    C,
    R,
> {
    // Serves the stores, with the names of their logs and of that of the jobs.
    fn serve_named<D: Viewed, N: DeskId + InboxId + LogId + Anchor + Send + Sync, W: Write>(
        &self,
        stores: Vec<LoggedStore<D>>,
        log: LogStart,
        out: &mut W,
    ) -> (Vec<D>, io::Result<u8>)
        requires books { (has_books N.seats ≡ false) × (has_books N.feeders ≡ false) }
        requires log { log ≡ N.log }
        requires named { All (λ store. IsNamedFor D.Disk N.first N.calls store.core store.log) stores.items }
        requires gates { vec_len stores ≤ length self.now.gates.now }
        requires shards { IsShardCount (vec_len stores) }
        ensures served { result.1 ≡ Ok 0 → ServesSetAt (L.has_port self.now.listener.now) D.Disk (vec_len stores) result.0.items (W.contents out.old) (W.contents out.new) }
        ensures count { (result.0.items ≡ []) ⊎ (vec_len result.0 ≡ vec_len stores) }
        ensures led { EachFrom D.Disk N.first result.0.items }
        ensures printed { IfOk result.1 (IsStatus (BreaksServing (L.has_port self.now.listener.now) (W.contents out.old) (W.contents out.new))) }
        ensures left { All (λ disk. (shape : Shape) × LeavesBegun (D.content disk) shape) result.0.items }
    {
        match make::<D, N>(self.alloc, stores) {
            Some((made, room)) => self.serve_made(made, room, log.named(), out),
            None => (
                Vec::new(self.alloc),
                refuse(self.alloc, &Refusal::<()>::NoMemory, out),
            ),
        }
    }

    // Serves the shards, and gives their disks back.
    fn serve_made<
        D: Viewed,
        T: Trace + Send + Sync,
        N: DeskId + InboxId + LogId + Anchor + Send + Sync,
        W: Write,
    >(
        &self,
        made: Shards<D, Anchored<T, N>, N>,
        room: EndRoom<D, Anchored<T, N>, N>,
        log: JobLog<N>,
        out: &mut W,
    ) -> (Vec<D>, io::Result<u8>)
        requires none { (room.desks.items ≡ []) × (room.disks.items ≡ []) }
        requires room { (vec_len made.shards ≤ vec_capacity room.desks) × (vec_len made.shards ≤ vec_capacity room.disks) }
        requires gates { vec_len made.shards ≤ length self.now.gates.now }
        requires shards { IsShardCount (vec_len made.shards) }
        ensures served { result.1 ≡ Ok 0 → ServesSetAt (L.has_port self.now.listener.now) D.Disk (vec_len made.shards) result.0.items (W.contents out.old) (W.contents out.new) }
        ensures count { (result.0.items ≡ []) ⊎ (vec_len result.0 ≡ vec_len made.shards) }
        ensures led { EachFrom D.Disk N.first result.0.items }
        ensures printed { IfOk result.1 (IsStatus (BreaksServing (L.has_port self.now.listener.now) (W.contents out.old) (W.contents out.new))) }
        ensures left { All (λ disk. (shape : Shape) × LeavesBegun (D.content disk) shape) result.0.items }
    {
        let EndRoom { desks, disks } = room;
        let (desks, status) = self.serve_shards(made, log, desks, out);
        match desks {
            Some(desks) => (disks_of(desks, disks), status),
            None => (disks, status),
        }
    }

    // Writes the head, serves the shards, and writes the last lines. Gives the desks of the shards back, in their order.
    fn serve_shards<
        D: Viewed,
        T: Trace + Send + Sync,
        N: DeskId + InboxId + LogId + Anchor + Send + Sync,
        W: Write,
    >(
        &self,
        made: Shards<D, Anchored<T, N>, N>,
        log: JobLog<N>,
        room: Vec<Desk<D, Anchored<T, N>, N>>,
        out: &mut W,
    ) -> (Option<Vec<Desk<D, Anchored<T, N>, N>>>, io::Result<u8>)
        requires room { (room.items ≡ []) × (vec_len made.shards ≤ vec_capacity room) }
        requires gates { vec_len made.shards ≤ length self.now.gates.now }
        requires shards { IsShardCount (vec_len made.shards) }
        ensures given { IfSome result.0 (λ desks. (vec_len desks ≡ vec_len made.shards) × AreInPlace (map (λ desk. desk.trace) desks.items)) }
        ensures served { result.1 ≡ Ok 0 → IsSomeAnd result.0 (λ desks. PrintsAllServed (L.has_port self.now.listener.now)
            (λ state. T.counts state.trace) (map (λ desk. desk.trace) desks.items) (W.contents out.old) (W.contents out.new)) }
        ensures printed { IfOk result.1 (IsStatus (BreaksServing (L.has_port self.now.listener.now) (W.contents out.old) (W.contents out.new))) }
    {
        let Shards { shards, crews } = made;
        match begin(self.alloc, self.listener, out) {
            Ok(()) => self.serve_begun(shards, crews, log, room, out),
            Err(status) => {
                drop(crews);
                (desks_of(shards, room), status)
            }
        }
    }

    // Serves the shards once the head is written, and writes the last lines. Gives the desks of the shards back, in their order.
    fn serve_begun<
        D: Viewed,
        T: Trace + Send + Sync,
        N: DeskId + InboxId + LogId + Anchor + Send + Sync,
        W: Write,
    >(
        &self,
        shards: Vec<Shard<D, Anchored<T, N>, N>>,
        crews: Vec<Crew<D, Anchored<T, N>, N>>,
        log: JobLog<N>,
        room: Vec<Desk<D, Anchored<T, N>, N>>,
        out: &mut W,
    ) -> (Option<Vec<Desk<D, Anchored<T, N>, N>>>, io::Result<u8>)
        requires room { (room.items ≡ []) × (vec_len shards ≤ vec_capacity room) }
        requires gates { vec_len shards ≤ length self.now.gates.now }
        requires shards { IsShardCount (vec_len shards) }
        ensures given { IfSome result.0 (λ desks. (vec_len desks ≡ vec_len shards) × AreInPlace (map (λ desk. desk.trace) desks.items)) }
        ensures calls { result.1 ≡ Ok 0 → IsSomeAnd result.0 (λ desks. PrintsAllCalls
            (λ state. T.counts state.trace) (map (λ desk. desk.trace) desks.items) (W.contents out.old) (W.contents out.new)) }
        ensures printed { IfOk result.1 (IsStatus (Appends (W.contents out.old) (W.contents out.new) no_memory_text ⊎ Appends (W.contents out.old) (W.contents out.new) network_text)) }
    {
        let ended = self.run(shards.as_slice(), crews, &log);
        let Some(desks) = desks_of(shards, room) else {
            return (None, refuse(self.alloc, &Refusal::<()>::NoMemory, out));
        };
        let status = end(self.alloc, ended, desks.as_slice(), out);
        (Some(desks), status)
    }

    // Runs the threads of the shards beside the sessions, until these have ended and all their requests are done. None if out of memory,
    // or if a worker or a writer has no thread.
    fn run<D: Viewed, T: Trace + Send + Sync, N: DeskId + InboxId + LogId + Send + Sync>(
        &self,
        shards: &[Shard<D, T, N>],
        crews: Vec<Crew<D, T, N>>,
        log: &JobLog<N>,
    ) -> Option<io::Result<()>>
        requires gates { length shards.now ≤ length self.now.gates.now }
        requires shards { IsShardCount (length shards.now) }
    {
        let (runs, heard) = crossbeam_channel::bounded(self.alloc, shards.len()).ok()?;
        let parts = parts_of(self.alloc, crews, &runs)?;
        let servings = self.servings_of(shards, log)?;
        self.run_set(servings.as_slice(), parts, heard)
    }

    // What the threads of each shard share, in the order of the shards. None if out of memory.
    fn servings_of<'b, D: Disk, T: Trace, N: DeskId + InboxId + LogId>(
        &'b self,
        shards: &'b [Shard<D, T, N>],
        log: &'b JobLog<N>,
    ) -> Option<Vec<Serving<'b, Shared<D, T, N>, Job<D, T, N>, N, G, R>>>
        ensures { IfSome result (λ servings. vec_len servings ≡ length shards.now) }
    {
        let mut servings = list_for(self.alloc, shards.len())?;
        for shard in shards {
            let gate = self.gates.get(servings.len())?;
            servings.push_reserved(Serving {
                rt: self.rt,
                alloc: self.alloc,
                desk: &shard.desk,
                inbox: &shard.inbox,
                log,
                slots: shard.slots.as_slice(),
                value_len: shard.value_len,
                limits: self.limits,
                gate,
                board: self.board,
            });
        }
        Some(servings)
    }

    // Runs the threads of shards that share this.
    fn run_set<D: Viewed, T: Trace + Send + Sync, N: DeskId + InboxId + LogId + Send + Sync>(
        &self,
        servings: &[Serving<'_, Shared<D, T, N>, Job<D, T, N>, N, G, R>],
        parts: Vec<ShardPart<D, T, N>>,
        heard: Receiver<bool>,
    ) -> Option<io::Result<()>>
        requires { IsShardCount (length servings.now) }
    {
        let set = ServingSet {
            alloc: self.alloc,
            board: self.board,
            shards: servings,
        };
        set.run(self.rt, self.listener, self.care, parts, heard)
    }
}
