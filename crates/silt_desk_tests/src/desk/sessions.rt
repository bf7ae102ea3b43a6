// Four threads and both workers call at once, and a plain map repeats the calls that were recorded.
ghost use Rattle.std.specs.Prelude.{◌≡◌};

mod swaps;

use crate::desk::{
    delete_alone, each_over, get_alone, pop_two, put_alone, seated, settled, two_or_none,
};
use crossbeam_channel::{Receiver, Sender};
use silt_desk::{
    Desk, DeskId, Kept, OpenGate, RecordedCall, Seat, Shared, Wake, Wakes, WorkerEnds, converter,
    merger,
};
use silt_device::{Disk, Geometry, MemDisk};
use silt_event::{Event, Reply};
use silt_fixtures::{are_those, opened_with, two_bytes};
use silt_frame::{Key, Value};
use silt_store_set::Core;
use std::alloc::Global;
use std::collections::BTreeMap;
use std::marker::Brand;
use std::sync::Wait;
use std::sync::atomic::{AtomicU64, Ordering};
use std::sync::ledger::Blank;
use std::test::Fail;
use std::thread::Threads;
use std::time::Clock;

/// The key of a thread with this number.
fn key_of(thread: u8, number: u8) -> Key {
    let mut bytes = [0; 20];
    bytes[1] = number;
    bytes[3] = thread;
    Key(bytes)
}

/// A put, a get and a delete, each under a guard of its own.
fn turn<D: Disk, N: DeskId, R: Wait>(
    rt: &R,
    alloc: Global,
    shared: &Shared<D, Kept, N>,
    seat: &mut Seat<N>,
    thread: u8,
    number: u8,
) {
    let key = key_of(thread, number);
    let _ = put_alone(rt, alloc, shared, seat, &key, [thread, number]);
    let _ = get_alone(rt, alloc, shared, seat, &key);
    let _ = delete_alone(rt, alloc, shared, seat, &key_of(thread, number ^ 1));
}

/// How many turns each session has, the ways to wake the workers, and how many sessions have not
/// ended.
#[derive(Drop)]
struct Busy {
    turns: u32,
    wakes: Wakes,
    left: AtomicU64,
}

impl Busy {
    /// Wakes the converter now and then.
    fn wake<R: Wait>(&self, rt: &R, number: u32) {
        if number % 32 == 0 {
            let _ = self.wakes.converter.send(rt, Wake::Go);
        }
    }

    /// Ends a session. The last one stops the workers.
    fn end<R: Wait>(&self, rt: &R) {
        if self.left.fetch_sub(1, Ordering::SeqCst) == 1 {
            self.wakes.stop(rt);
        }
    }
}

/// Runs the turns of one thread, whose number is that of its seat.
fn session<D: Disk, N: DeskId, R: Wait>(
    rt: &R,
    alloc: Global,
    shared: &Shared<D, Kept, N>,
    busy: &Busy,
    mut seat: Seat<N>,
) -> Seat<N> {
    let thread = (seat.number() % 64) as u8;
    for number in 0..busy.turns {
        turn(rt, alloc, shared, &mut seat, thread, (number % 64) as u8);
        busy.wake(rt, number);
    }
    busy.end(rt);
    seat
}

/// What a thread does at the desk: it is a session, or a worker until it is stopped.
#[derive(Drop)]
enum Job<N: DeskId> {
    Call(Seat<N>),
    Convert(Seat<N>, WorkerEnds),
    Merge(Seat<N>, WorkerEnds),
}

fn perform<D: Disk, N: DeskId, R: Wait + Clock>(
    rt: &R,
    alloc: Global,
    shared: &Shared<D, Kept, N>,
    busy: &Busy,
    job: Job<N>,
) -> Seat<N> {
    match job {
        Job::Call(seat) => session(rt, alloc, shared, busy, seat),
        Job::Convert(seat, ends) => { converter(rt, alloc, shared, seat, &OpenGate, ends) }
        Job::Merge(seat, ends) => { merger(rt, alloc, shared, seat, &OpenGate, ends) }
    }
}

/// Performs all jobs at once, and gives their seats back.
fn perform_all<D: Disk, N: DeskId + Send + Sync, R: Threads + Wait + Clock + Sync>(
    rt: &R,
    alloc: Global,
    shared: &Shared<D, Kept, N>,
    busy: &Busy,
    jobs: Vec<Job<N>>,
) -> Option<Vec<Seat<N>>> {
    each_over(
        rt,
        shared,
        jobs,
        &|desk: &Shared<D, Kept, N>, job: Job<N>| perform(rt, alloc, desk, busy, job),
    )
}

/// A channel, with one sender for the sessions and one for the other worker.
fn channel(alloc: Global) -> Option<(Receiver<Wake>, Sender<Wake>, Sender<Wake>)> {
    let (wakes, from) = crossbeam_channel::unbounded(alloc).ok()?;
    let other = wakes.clone().ok()?;
    Some((from, wakes, other))
}

/// The ways to wake both workers, and the ends of the converter and of the merger.
fn new_ends(alloc: Global) -> Option<(Wakes, WorkerEnds, WorkerEnds)> {
    let (to_convert, converter, by_merger) = channel(alloc)?;
    let (to_merge, merger, by_converter) = channel(alloc)?;
    let first = WorkerEnds {
        wakes: to_convert,
        other: by_converter,
    };
    let second = WorkerEnds {
        wakes: to_merge,
        other: by_merger,
    };
    Some((Wakes { converter, merger }, first, second))
}

/// The jobs of the workers.
fn of_workers<N: DeskId>(
    alloc: Global,
    (first, second): (Seat<N>, Seat<N>),
    (convert, merge): (WorkerEnds, WorkerEnds),
) -> Option<Vec<Job<N>>> {
    let mut jobs = Vec::new(alloc);
    jobs.push(Job::Convert(first, convert)).ok()?;
    jobs.push(Job::Merge(second, merge)).ok()?;
    Some(jobs)
}

/// Adds the jobs of the sessions. Returns whether there is memory.
fn add_sessions<N: DeskId>(jobs: &mut Vec<Job<N>>, seats: Vec<Seat<N>>) -> bool {
    for seat in seats {
        if jobs.push(Job::Call(seat)).is_err() {
            return false;
        }
    }
    true
}

/// The jobs of the workers, with the last two seats, and of the sessions.
fn jobs<N: DeskId>(
    alloc: Global,
    mut seats: Vec<Seat<N>>,
    ends: (WorkerEnds, WorkerEnds),
) -> Option<Vec<Job<N>>> {
    let mut jobs = of_workers(alloc, pop_two(&mut seats)?, ends)?;
    add_sessions(&mut jobs, seats).then_some(jobs)
}

/// Runs the sessions and the workers at once, and gives all seats back.
fn run_all<D: Disk, N: DeskId + Send + Sync, R: Threads + Wait + Clock + Sync>(
    rt: &R,
    alloc: Global,
    shared: &Shared<D, Kept, N>,
    seats: Vec<Seat<N>>,
    turns: u32,
) -> Option<Vec<Seat<N>>> {
    let (wakes, first, second) = new_ends(alloc)?;
    let jobs = jobs(alloc, seats, (first, second))?;
    let busy = Busy {
        turns,
        wakes,
        left: AtomicU64::new(4),
    };
    perform_all(rt, alloc, shared, &busy, jobs)
}

/// Puts a value into the map. Returns whether there is memory.
fn is_put(map: &mut BTreeMap<Key, [u8; 2]>, key: &Key, value: &Value) -> bool {
    map.insert(*key, two_bytes(value)).is_ok()
}

/// Begins the map with these entries. Returns whether there is memory.
fn begin(map: &mut BTreeMap<Key, [u8; 2]>, opening: &BTreeMap<Key, Value>) -> bool {
    for (key, value) in opening.iter() {
        if !is_put(map, key, value) {
            return false;
        }
    }
    true
}

fn is_accepted(reply: &Reply<()>) -> bool {
    matches!(reply, Reply::Accepted(_))
}

/// Repeats a put.
fn put_again(
    map: &mut BTreeMap<Key, [u8; 2]>,
    key: &Key,
    value: &Value,
    reply: &Reply<()>,
) -> bool {
    !is_accepted(reply) || is_put(map, key, value)
}

/// Repeats a delete.
fn deleted_again(map: &mut BTreeMap<Key, [u8; 2]>, key: &Key, reply: &Reply<()>) -> bool {
    if is_accepted(reply) {
        map.remove(key);
    }
    true
}

/// Gives a key this value in the map, or none. Returns whether there is memory.
fn is_set(map: &mut BTreeMap<Key, [u8; 2]>, key: &Key, value: &Option<Value>) -> bool {
    match value {
        Some(value) => is_put(map, key, value),
        None => {
            map.remove(key);
            true
        }
    }
}

/// Repeats a swap. Returns false if it has another reply.
fn swapped_again(
    map: &mut BTreeMap<Key, [u8; 2]>,
    key: &Key,
    (old, new): (&Option<Value>, &Option<Value>),
    reply: &Reply<()>,
) -> bool {
    let has_old = map.get(key).copied() == two_or_none(old);
    match reply {
        Reply::Accepted(_) => has_old && is_set(map, key, new),
        Reply::Differs => !has_old,
        _ => true,
    }
}

/// Repeats a get. Returns false if it finds another value.
fn got_again(map: &BTreeMap<Key, [u8; 2]>, key: &Key, reply: &Reply<()>) -> bool {
    match reply {
        Reply::Found(value) => map.get(key) == Some(&two_bytes(value)),
        Reply::Absent => map.get(key).is_none(),
        _ => true,
    }
}

/// Repeats one call. Returns false for a get that finds another value, and for a swap with another
/// reply.
fn done_again(map: &mut BTreeMap<Key, [u8; 2]>, call: &RecordedCall) -> bool {
    match &call.event {
        Event::Put(key, value) => put_again(map, key, value, &call.reply),
        Event::Delete(key) => deleted_again(map, key, &call.reply),
        Event::Swap(key, old, new) => swapped_again(map, key, (old, new), &call.reply),
        Event::Get(key) => got_again(map, key, &call.reply),
        _ => true,
    }
}

/// Repeats the calls, one after the other. Returns false if one of them does not get its reply.
fn all_again(map: &mut BTreeMap<Key, [u8; 2]>, calls: &[RecordedCall]) -> bool {
    for call in calls {
        if !done_again(map, call) {
            return false;
        }
    }
    true
}

/// The entries that the recorded calls make of those at the opening. None if a get or a swap had
/// another reply, or if there is no memory.
fn replayed(alloc: Global, kept: &Kept) -> Option<BTreeMap<Key, [u8; 2]>> {
    let mut map = BTreeMap::new(alloc);
    let is_replayed = begin(&mut map, kept.opening()) && all_again(&mut map, kept.calls());
    is_replayed.then_some(map)
}

/// Whether a store has these entries, and at least one.
fn has_entries<D: Disk>(alloc: Global, core: &Core<D>, map: &BTreeMap<Key, [u8; 2]>) -> bool {
    match core.entries(alloc) {
        Ok(entries) => entries.len() > 0 && are_those(&entries, map),
        Err(_) => false,
    }
}

/// Whether the store of a desk has these entries. Takes the desk apart.
fn ends_with<D: Disk, N: DeskId>(
    alloc: Global,
    desk: Desk<D, Kept, N>,
    map: &BTreeMap<Key, [u8; 2]>,
) -> bool {
    let core = desk.into_core();
    let is_so = has_entries(alloc, &core, map);
    drop(core);
    is_so
}

/// Whether the entries at the end are those of the replay.
fn ends_as_replayed<D: Disk, N: DeskId>(alloc: Global, desk: Desk<D, Kept, N>) -> bool {
    match replayed(alloc, desk.trace()) {
        Some(map) => ends_with(alloc, desk, &map),
        None => false,
    }
}

/// How many calls a desk settles and recorded, and whether the recorded calls turn the entries at
/// the opening into those at the end.
type Ended = Option<(u64, usize, bool)>;

/// That of a desk without its lock, which has settled so.
fn ended<D: Disk, N: DeskId>(
    alloc: Global,
    desk: Desk<D, Kept, N>,
    settled: Option<(u64, u64)>,
) -> Ended {
    let recorded = desk.trace().calls().len();
    let is_replayed = ends_as_replayed(alloc, desk);
    let (calls, _) = settled?;
    Some((calls, recorded, is_replayed))
}

/// Runs the sessions and the workers at once, and settles.
fn run_and_settle<D: Disk, N: DeskId + Send + Sync, R: Threads + Wait + Clock + Sync>(
    rt: &R,
    alloc: Global,
    shared: &Shared<D, Kept, N>,
    seats: Vec<Seat<N>>,
    turns: u32,
) -> Option<(u64, u64)> {
    match run_all(rt, alloc, shared, seats, turns) {
        Some(seats) => settled(rt, shared, seats),
        None => None,
    }
}

fn many_calls<D: Disk, N: DeskId + Send + Sync, R: Threads + Wait + Clock + Sync>(
    rt: &R,
    alloc: Global,
    core: Core<D>,
    turns: u32,
    calls: Blank,
    accepted: Blank,
) -> Ended
    requires calls { (calls.name ≡ N.calls_name) × (calls.parts ≡ N.seats) }
    requires accepted { (accepted.name ≡ N.accepted_name) × (accepted.parts ≡ N.seats) }
    requires seats { N.seats ≡ 6 }
{
    let (shared, seats) = seated::<D, N>(alloc, core, 1_000_000, 6, calls, accepted)?;
    let settled = run_and_settle(rt, alloc, &shared, seats, turns);
    ended(alloc, shared.into_inner(), settled)
}

/// A store with room for the calls of all threads.
fn roomy(alloc: Global) -> Result<Core<MemDisk>, Fail> {
    let geometry = Geometry::new(2, 16, 64, 8, 16, 4000)
        .ok()
        .ok_or("in limits")?;
    opened_with(alloc, geometry)
}

/// Whether a desk settles as many calls as it recorded, and at least this many.
fn is_ended(ended: Ended, least: u64) -> bool {
    match ended {
        Some((calls, recorded, is_replayed)) => {
            is_replayed && calls == recorded as u64 && calls >= least
        }
        None => false,
    }
}

#[test]
fn four_threads(rt: HostRuntime) -> Result<(), Fail> {
    let core = roomy(rt.alloc())?;
    let ended = many_calls::<_, Brand, _>(
        &rt,
        rt.alloc(),
        core,
        10_000,
        Blank::new(6),
        Blank::new(6),
    );
    assert!(rt; is_ended(ended, 120_000));
    Ok(())
}
