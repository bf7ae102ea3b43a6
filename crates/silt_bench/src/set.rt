// Fills the shards of a set, each in a thread of its own, reads them, opens them again, and prints how long that took.
ghost use Rattle.std.specs.Prelude.{◌≡◌, false};
ghost use Rattle.silt_inbox.specs.Books.{has_books};

use crate::error::{BenchError, Call};
use crate::job::{Plan, Work};
use crate::looks::Stores;
use crate::measurement::{Seen, fill_planned, look, print_pauses, print_seen};
use crate::pauses::Lap;
use crate::store::{new_store, open_store, seated_in_set};
use crate::writer::Filled;
use silt_desk::{Count, DeskId, Seat, Shared};
use silt_device::Disk;
use silt_store_set::Core;
use std::alloc::Global;
use std::fs::Files;
use std::marker::Brand;
use std::sync::{RwLock, Wait};
use std::thread::{self, Threads};
use std::time::Clock;

/// The names of the numbers of a set, in their order.
pub const SET_NAMES: &str =
    "shards\tkeys\tvalue bytes\tputs/s\tgets/s 1 thread\tgets/s 4 threads\tabsent/s 1 thread\t\
    absent/s 4 threads\topen ms\trss KiB\tpeak KiB\tput p99.9 us\tput longest us\t\
    flush p50 us\tflush longest us";

/// Fills the shards on these disks as planned, each in a thread of its own, and reads them. Opens
/// them again, each in a thread of its own. Prints a line of names and a line of numbers.
pub fn measure_set<D: Disk, R: Threads + Wait + Clock + Print + Files + Sync>(
    rt: &R,
    alloc: Global,
    disks: Vec<D>,
    plan: &Plan,
    work: Work,
) -> Result<(), BenchError> {
    let cores = new_stores(alloc, disks, plan)?;
    let (disks, seen) = see_set::<_, Brand, _>(rt, alloc, cores, plan, work)?;
    let open = open_by_clock(rt, alloc, disks)?;
    print_set(rt, plan, &seen, open)
}

// Empty stores on these disks.
fn new_stores<D: Disk>(
    alloc: Global,
    disks: Vec<D>,
    plan: &Plan,
) -> Result<Vec<Core<D>>, BenchError> {
    let mut cores = Vec::new(alloc);
    for disk in disks {
        cores.push(new_store(alloc, disk, plan.geometry)?)?;
    }
    Ok(cores)
}

// Fills new stores as the shards of a set and measures looks at them. Returns their disks and the measures.
fn see_set<D: Disk, N: DeskId + Send + Sync, R: Threads + Wait + Clock + Files + Sync>(
    rt: &R,
    alloc: Global,
    cores: Vec<Core<D>>,
    plan: &Plan,
    work: Work,
) -> Result<(Vec<D>, Seen), BenchError>
    requires books { has_books N.seats ≡ false }
{
    let mut shards = shards_of::<D, N>(alloc, cores)?;
    let filled = fill_shards(rt, alloc, shards.as_mut_slice(), plan, work)?;
    let desks = desks_of(alloc, shards)?;
    let stores = Stores::Shards(desks.as_slice(), plan.part.shards);
    let seen = look(rt, alloc, &stores, plan, filled)?;
    Ok((disks_of(alloc, desks)?, seen))
}

/// A shard that is filled in a thread of its own.
#[derive(Drop)]
struct Shard<D: Disk, N: DeskId> {
    desk: Shared<D, Count, N>,
    // The seats of those who fill it, until they begin.
    seats: Option<Vec<Seat<N>>>,
    // The time that filling it took. An error until it is filled.
    filled: Result<Filled, BenchError>,
}

impl<D: Disk, N: DeskId + Send + Sync> Shard<D, N> {
    // Puts the keys of the shard's plan.
    fn fill<R: Threads + Wait + Clock + Sync>(
        &mut self,
        rt: &R,
        alloc: Global,
        plan: &Plan,
        work: Work,
    ) {
        if let Some(seats) = self.seats.take() {
            self.filled = fill_planned(rt, alloc, &self.desk, seats, plan, work);
        }
    }
}

// A shard for each of these stores.
fn shards_of<D: Disk, N: DeskId>(
    alloc: Global,
    cores: Vec<Core<D>>,
) -> Result<Vec<Shard<D, N>>, BenchError>
    requires books { has_books N.seats ≡ false }
{
    let mut shards = Vec::new(alloc);
    for core in cores {
        let (desk, seats) = seated_in_set::<D, N>(alloc, core)?;
        shards.push(Shard {
            desk: RwLock::new(desk),
            seats: Some(seats),
            filled: Err(BenchError::NoMemory),
        })?;
    }
    Ok(shards)
}

// Fills all shards side by side. Returns the time of all, and the longest single calls of any.
fn fill_shards<D: Disk, N: DeskId + Send + Sync, R: Threads + Wait + Clock + Sync>(
    rt: &R,
    alloc: Global,
    shards: &mut [Shard<D, N>],
    plan: &Plan,
    work: Work,
) -> Result<Filled, BenchError> {
    let fill = |number: usize, shard: &mut Shard<D, N>| {
        shard.fill(rt, alloc, &plan.of_shard(number), work)
    };
    let threads = shards.len().max(1);
    let mut lap = Lap::new(rt)?;
    thread::for_each_mut(rt, shards, threads, &fill);
    let mut all = Filled::none(lap.turn(rt)?);
    for shard in shards.iter() {
        all = all.with(&shard.filled?);
    }
    Ok(all)
}

// The desks of these shards.
fn desks_of<D: Disk, N: DeskId>(
    alloc: Global,
    shards: Vec<Shard<D, N>>,
) -> Result<Vec<Shared<D, Count, N>>, BenchError> {
    let mut desks = Vec::new(alloc);
    for shard in shards {
        desks.push(shard.desk)?;
    }
    Ok(desks)
}

// The disks of these desks.
fn disks_of<D: Disk, N: DeskId>(
    alloc: Global,
    desks: Vec<Shared<D, Count, N>>,
) -> Result<Vec<D>, BenchError> {
    let mut disks = Vec::new(alloc);
    for desk in desks {
        disks.push(desk.into_inner().close())?;
    }
    Ok(disks)
}

/// A disk that is to be opened, and the store on it once it is open.
#[derive(Drop)]
struct Opening<D: Disk> {
    disk: Option<D>,
    core: Option<Core<D>>,
}

impl<D: Disk> Opening<D> {
    // Opens the store. Leaves none if that is refused.
    fn open(&mut self, alloc: Global) {
        if let Some(disk) = self.disk.take() {
            self.core = open_store(alloc, disk).ok();
        }
    }
}

// How many nanoseconds it takes to open the stores on these disks, each in a thread of its own.
fn open_by_clock<D: Disk, R: Threads + Clock + Sync>(
    rt: &R,
    alloc: Global,
    disks: Vec<D>,
) -> Result<u64, BenchError> {
    let mut openings = openings_of(alloc, disks)?;
    let open = |_: usize, opening: &mut Opening<D>| opening.open(alloc);
    let threads = openings.len().max(1);
    let mut lap = Lap::new(rt)?;
    thread::for_each_mut(rt, openings.as_mut_slice(), threads, &open);
    let nanos = lap.turn(rt)?;
    if openings.iter().any(|opening| opening.core.is_none()) {
        return Err(BenchError::Refused(Call::Open));
    }
    Ok(nanos)
}

// These disks, which are to be opened.
fn openings_of<D: Disk>(alloc: Global, disks: Vec<D>) -> Result<Vec<Opening<D>>, BenchError> {
    let mut openings = Vec::new(alloc);
    for disk in disks {
        openings.push(Opening {
            disk: Some(disk),
            core: None,
        })?;
    }
    Ok(openings)
}

// Prints the numbers.
fn print_set<R: Print>(rt: &R, plan: &Plan, seen: &Seen, open: u64) -> Result<(), BenchError> {
    println!(rt; "{SET_NAMES}")?;
    print!(rt; "{}\t", plan.part.shards)?;
    print_seen(rt, plan, seen, open)?;
    print_pauses(rt, &seen.filled)
}
