// What a get costs while hash stores grow in number.
ghost use Rattle.std.specs.Prelude.{◌≡◌};

use crate::background::Background;
use crate::error::BenchError;
use crate::figures::Thousandths;
use crate::job::{Part, Plan};
use crate::looks::{Looks, Stores, count_reads, looks_by_four, looks_by_one};
use crate::read_counter::CountingDisk;
use crate::store::{Blanks, new_store, seated};
use crate::turns::Turns;
use crate::writer::{Writer, fill, fill_all};
use silt_desk::{Count, DeskId, Seat, Shared};
use silt_device::{Disk, Geometry, MemDisk};
use silt_store_set::Core;
use std::alloc::Global;
use std::marker::Brand;
use std::sync::atomic::AtomicU64;
use std::sync::{RwLock, Wait};
use std::thread::Threads;
use std::time::Clock;

/// What is printed of a store.
#[derive(Clone, Copy)]
pub enum Detail {
    /// How many reads a get makes.
    Reads,
    /// Also how many gets there are a second.
    Rates,
}

// What grows, and what is printed of it.
#[derive(Clone, Copy)]
struct Growth<'a> {
    plan: &'a Plan,
    detail: Detail,
}

/// Fills a store on a disk and merges all of it, and then prints what gets cost for each number of hash stores before
/// the sorted store.
pub fn grow<D: Disk, R: Threads + Wait + Clock + Print + Sync>(
    rt: &R,
    alloc: Global,
    disk: D,
    plan: &Plan,
    detail: Detail,
) -> Result<(), BenchError> {
    let reads = AtomicU64::new(0);
    let disk = CountingDisk::new(disk, &reads);
    match new_store(alloc, disk, plan.geometry) {
        Ok(core) => grow_new(rt, alloc, core, &reads, plan, detail),
        Err(error) => Err(error),
    }
}

// Grows a new store.
fn grow_new<D: Disk, R: Threads + Wait + Clock + Print + Sync>(
    rt: &R,
    alloc: Global,
    core: Core<D>,
    reads: &AtomicU64,
    plan: &Plan,
    detail: Detail,
) -> Result<(), BenchError> {
    let growth = Growth { plan, detail };
    grow_seated::<_, Brand, _>(rt, alloc, core, reads, growth, Blanks::new())
}

/// Does the same with a small store in memory, and prints no rates.
pub fn grow_small<R: Threads + Wait + Clock + Print + Sync>(
    rt: &R,
    alloc: Global,
) -> Result<(), BenchError> {
    let geometry = Geometry::new(8, 2048, 224, 2, 4, 4000)
        .ok()
        .ok_or(BenchError::Words)?;
    let plan = Plan {
        geometry,
        part: Part::ALL,
        keys: 2000,
        group: 100,
        gets: 400,
        stores: 4,
    };
    let disk = MemDisk::new(alloc, geometry.size() as usize)?;
    grow(rt, alloc, disk, &plan, Detail::Reads)
}

// Grows a new store and counts its reads.
fn grow_seated<D: Disk, N: DeskId + Send + Sync, R: Threads + Wait + Clock + Print + Sync>(
    rt: &R,
    alloc: Global,
    core: Core<D>,
    reads: &AtomicU64,
    growth: Growth<'_>,
    blanks: Blanks,
) -> Result<(), BenchError>
    requires calls { (blanks.calls.name ≡ N.calls_name) × (blanks.calls.parts ≡ N.seats) }
    requires accepted { (blanks.accepted.name ≡ N.accepted_name) × (blanks.accepted.parts ≡ N.seats) }
    requires seats { N.seats ≡ 3 }
{
    let (desk, mut seats) = seated::<D, N>(alloc, core, blanks)?;
    let shared = RwLock::new(desk);
    match seats.pop() {
        Some(seat) => grow_at(rt, alloc, &shared, seat, reads, growth),
        None => Err(BenchError::NoMemory),
    }
}

// Grows a store from a seat.
fn grow_at<D: Disk, N: DeskId + Send + Sync, R: Threads + Wait + Clock + Print + Sync>(
    rt: &R,
    alloc: Global,
    shared: &Shared<D, Count, N>,
    seat: Seat<N>,
    reads: &AtomicU64,
    growth: Growth<'_>,
) -> Result<(), BenchError> {
    let plan = growth.plan;
    let background = Background::Turns(Turns::new(plan.stores, plan.keys));
    let mut writer = Writer::new(alloc, seat, background, plan)?;
    fill_all(rt, alloc, shared, &mut writer, plan.keys)?;
    print_names(rt, growth.detail)?;
    let rows = u64::from(plan.geometry.log_capacity());
    let mut keys = plan.keys;
    for stores in 0..plan.stores {
        print_state(rt, shared, reads, growth, keys, stores)?;
        let end = keys.saturating_add(rows);
        fill(rt, alloc, shared, &mut writer, keys, end)?;
        keys = end;
    }
    Ok(())
}

// Prints the names of the numbers.
fn print_names<R: Print>(rt: &R, detail: Detail) -> Result<(), BenchError> {
    print!(rt; "hash stores\treads a get\treads an absent get")?;
    match detail {
        Detail::Reads => println!(rt; "")?,
        Detail::Rates => println!(rt; "\tgets/s 1 thread\tgets/s 4 threads")?,
    }
    Ok(())
}

// Prints what gets of this many keys cost for each number of hash stores.
fn print_state<D: Disk, N: DeskId + Send + Sync, R: Threads + Wait + Clock + Print + Sync>(
    rt: &R,
    shared: &Shared<D, Count, N>,
    reads: &AtomicU64,
    growth: Growth<'_>,
    keys: u64,
    stores: u64,
) -> Result<(), BenchError> {
    let gets = growth.plan.gets;
    let store = Stores::One(shared);
    let present = Looks::present(keys, gets);
    let made = count_reads(rt, &store, reads, present)?;
    let made_absent = count_reads(rt, &store, reads, Looks::absent(keys, gets))?;
    let each = Thousandths::of(made, gets);
    let each_absent = Thousandths::of(made_absent, gets);
    print!(rt; "{stores}\t{each}\t{each_absent}")?;
    match growth.detail {
        Detail::Reads => println!(rt; "")?,
        Detail::Rates => {
            let one = looks_by_one(rt, &store, present)?;
            let four = looks_by_four(rt, &store, present)?;
            println!(rt; "\t{one}\t{four}")?;
        }
    }
    Ok(())
}
