// Desks: calls that may succeed do succeed, one thread's calls come between the steps of another,
// and many threads call at once.
ghost use Rattle.std.specs.Prelude.{◌≡◌};

mod converter;
mod faults;
mod history;
mod looks;
mod memory;
mod refused_memory;
mod sessions;
mod shifts;
mod steps;
mod wakes;

use crossbeam_channel::{Receiver, Sender};
use silt_desk::{
    Desk, DeskId, Gate, Kept, Seat, Shared, Trace, Wake, WorkerEnds, converter, merger, settle,
};
use silt_device::Disk;
use silt_event::{Progress, Refusal};
use silt_fixtures::{key, two_bytes};
use silt_frame::{Key, Value};
use silt_store_set::Core;
use std::alloc::Global;
use std::sync::ledger::Blank;
use std::sync::{RwLock, Wait};
use std::thread;
use std::thread::Threads;
use std::time::Clock;

// The number of a refusal that lacks memory, of one by a failed store, and of one by a full history.
const NO_MEMORY: u32 = 6;

const FAILED: u32 = 9;

const HISTORY_FULL: u32 = 11;

// What stands for the number of a refusal if the values of the store have not two bytes.
const OTHER_LENGTH: u32 = 0;

// An answer with the number of its refusal.
fn plain<A, F: Drop>(answer: Result<A, Refusal<F>>) -> Result<A, u32> {
    match answer {
        Ok(found) => Ok(found),
        Err(refusal) => Err(refusal.label().0),
    }
}

// A put.
fn put<D: Disk, T: Trace, N: DeskId>(
    desk: &mut Desk<D, T, N>,
    alloc: Global,
    seat: &mut Seat<N>,
    key: &Key,
    value: [u8; 2],
) -> Result<u64, u32> {
    if desk.geometry().value_len() != 2 {
        return Err(OTHER_LENGTH);
    }
    plain(desk.put(alloc, seat, key, &value))
}

// The bytes of a value, if there is one.
fn two_or_none(value: &Option<Value>) -> Option<[u8; 2]> {
    match value {
        Some(value) => Some(two_bytes(value)),
        None => None,
    }
}

// A swap of the second value for the first one, `None` for no value.
fn swap<D: Disk, T: Trace, N: DeskId>(
    desk: &mut Desk<D, T, N>,
    alloc: Global,
    seat: &mut Seat<N>,
    key: &Key,
    old: Option<[u8; 2]>,
    new: Option<[u8; 2]>,
) -> Result<Option<u64>, u32> {
    if desk.geometry().value_len() != 2 {
        return Err(OTHER_LENGTH);
    }
    let old = match &old {
        Some(bytes) => Some(bytes.as_slice()),
        None => None,
    };
    let new = match &new {
        Some(bytes) => Some(bytes.as_slice()),
        None => None,
    };
    plain(desk.swap(alloc, seat, key, old, new))
}

// The value that a get finds.
fn get<D: Disk, T: Trace, N: DeskId>(
    desk: &mut Desk<D, T, N>,
    alloc: Global,
    seat: &mut Seat<N>,
    key: &Key,
) -> Result<Option<[u8; 2]>, u32> {
    if desk.geometry().value_len() != 2 {
        return Err(OTHER_LENGTH);
    }
    let mut out = [7; 2];
    match plain(desk.get(alloc, seat, key, &mut out)) {
        Ok(found) => Ok(found.then_some(out)),
        Err(number) => Err(number),
    }
}

// How many commands a look counts, and the value that it finds. None if it is refused.
type Look = Option<(u64, Option<[u8; 2]>)>;

fn look<D: Disk, T: Trace, N: DeskId>(desk: &Desk<D, T, N>, key: &Key) -> Look {
    if desk.geometry().value_len() != 2 {
        return None;
    }
    let mut out = [7; 2];
    match desk.look(key, &mut out) {
        Ok(look) => Some((look.count, look.found.then_some(out))),
        Err(_) => None,
    }
}

// Whether a crash keeps what a look at this key returns. None if the look is refused.
fn is_settled<D: Disk, T: Trace, N: DeskId>(desk: &Desk<D, T, N>, key: &Key) -> Option<bool> {
    if desk.geometry().value_len() != 2 {
        return None;
    }
    let mut out = [7; 2];
    match desk.look(key, &mut out) {
        Ok(look) => Some(look.is_settled),
        Err(_) => None,
    }
}

// A put of a key under a guard of its own.
fn put_alone<D: Disk, N: DeskId, R: Wait>(
    rt: &R,
    alloc: Global,
    shared: &Shared<D, Kept, N>,
    seat: &mut Seat<N>,
    key: &Key,
    value: [u8; 2],
) -> Result<u64, u32> {
    put(&mut *shared.write(rt), alloc, seat, key, value)
}

fn delete_alone<D: Disk, N: DeskId, R: Wait>(
    rt: &R,
    alloc: Global,
    shared: &Shared<D, Kept, N>,
    seat: &mut Seat<N>,
    key: &Key,
) -> Result<u64, u32> {
    plain(shared.write(rt).delete(alloc, seat, key))
}

fn get_alone<D: Disk, N: DeskId, R: Wait>(
    rt: &R,
    alloc: Global,
    shared: &Shared<D, Kept, N>,
    seat: &mut Seat<N>,
    key: &Key,
) -> Result<Option<[u8; 2]>, u32> {
    get(&mut *shared.write(rt), alloc, seat, key)
}

fn flush_alone<D: Disk, N: DeskId, R: Wait>(
    rt: &R,
    alloc: Global,
    shared: &Shared<D, Kept, N>,
    seat: &mut Seat<N>,
) -> Result<u64, u32> {
    plain(shared.write(rt).flush(alloc, seat))
}

fn convert_alone<D: Disk, N: DeskId, R: Wait>(
    rt: &R,
    alloc: Global,
    shared: &Shared<D, Kept, N>,
    seat: &mut Seat<N>,
) -> Result<Progress, u32> {
    plain(shared.write(rt).convert(alloc, seat))
}

// A look under a read guard.
fn look_beside<D: Disk, N: DeskId, R: Wait>(
    rt: &R,
    shared: &Shared<D, Kept, N>,
    key: &Key,
) -> Look {
    look(&*shared.read(rt), key)
}

// A desk under a lock that keeps at most this many calls, with this many seats.
fn seated<D: Disk, N: DeskId>(
    alloc: Global,
    core: Core<D>,
    most: u64,
    count: u64,
    calls: Blank,
    accepted: Blank,
) -> Option<(Shared<D, Kept, N>, Vec<Seat<N>>)>
    requires calls { (calls.name ≡ N.calls_name) × (calls.parts ≡ N.seats) }
    requires accepted { (accepted.name ≡ N.accepted_name) × (accepted.parts ≡ N.seats) }
    requires seats { N.seats ≡ count }
{
    let Ok(trace) = Kept::new(alloc, &core, most) else {
        return None;
    };
    match Desk::<D, Kept, N>::new(alloc, core, trace, count, calls, accepted) {
        Ok((desk, seats)) => Some((RwLock::new(desk), seats)),
        Err(_) => None,
    }
}

// The last two of these seats, in their order.
fn pop_two<N: DeskId>(seats: &mut Vec<Seat<N>>) -> Option<(Seat<N>, Seat<N>)> {
    let second = seats.pop()?;
    let first = seats.pop()?;
    Some((first, second))
}

// How many calls and accepted commands a desk reports. None if a seat is missing.
fn settled<D: Disk, N: DeskId, R: Wait>(
    rt: &R,
    shared: &Shared<D, Kept, N>,
    seats: Vec<Seat<N>>,
) -> Option<(u64, u64)> {
    settle(rt, shared, seats).ok()
}

// Puts the keys 1 to 5: the fifth put freezes the first log.
fn put_five<D: Disk, N: DeskId, R: Wait>(
    rt: &R,
    alloc: Global,
    shared: &Shared<D, Kept, N>,
    seat: &mut Seat<N>,
) {
    for first in 1..6u8 {
        let _ = put_alone(rt, alloc, shared, seat, &key(first), [0, first]);
    }
}

// The channel to a worker, and its channel to the other worker.
#[derive(Drop)]
struct Channels {
    wake: Sender<Wake>,
    wakes: Receiver<Wake>,
    other: Sender<Wake>,
    others: Receiver<Wake>,
}

fn new_channels(alloc: Global) -> Option<Channels> {
    let (wake, wakes) = crossbeam_channel::unbounded(alloc).ok()?;
    let (other, others) = crossbeam_channel::unbounded(alloc).ok()?;
    Some(Channels {
        wake,
        wakes,
        other,
        others,
    })
}

// One of the two workers.
#[derive(Clone, Copy)]
enum Worker {
    Converter,
    Merger,
}

// Runs a worker that stops at its first message. Returns its seat, and its message to the other one.
fn works_over<D: Disk, N: DeskId, G: Gate, R: Wait + Clock>(
    rt: &R,
    alloc: Global,
    shared: &Shared<D, Kept, N>,
    seat: Seat<N>,
    gate: &G,
    worker: Worker,
    channels: Channels,
) -> (Seat<N>, Option<Wake>) {
    let Channels {
        wake,
        wakes,
        other,
        others,
    } = channels;
    let _ = wake.send(rt, Wake::Stop);
    let ends = WorkerEnds { wakes, other };
    let seat = match worker {
        Worker::Converter => converter(rt, alloc, shared, seat, gate, ends),
        Worker::Merger => merger(rt, alloc, shared, seat, gate, ends),
    };
    (seat, others.try_recv(rt).ok())
}

// Runs a worker with the last of these seats until there is nothing for it to do. Returns its
// message to the other worker. None if there is no memory or no seat.
fn works<D: Disk, N: DeskId, G: Gate, R: Wait + Clock>(
    rt: &R,
    alloc: Global,
    shared: &Shared<D, Kept, N>,
    seats: &mut Vec<Seat<N>>,
    gate: &G,
    worker: Worker,
) -> Option<Option<Wake>> {
    let channels = new_channels(alloc)?;
    let seat = seats.pop()?;
    let (seat, message) = works_over(rt, alloc, shared, seat, gate, worker, channels);
    seats.push(seat).ok()?;
    Some(message)
}

// Does each of these jobs at what is shared, each in a thread of its own. None if there is no
// memory.
fn each_over<S: Sync, J: Send + Drop, X: Send + Drop, F: Fn(&S, J) -> X + Sync, R: Threads + Sync>(
    rt: &R,
    shared: &S,
    jobs: Vec<J>,
    f: &F,
) -> Option<Vec<X>>
    requires f { F.IsAlwaysCallable f.now }
{
    let done = thread::map_vec(
        rt,
        jobs,
        &|job: J| -> X
            requires { F.IsAlwaysCallable f.now }
        { f(shared, job) },
    );
    done.ok()
}
