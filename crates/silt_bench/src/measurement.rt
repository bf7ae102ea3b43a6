// Fills a store, reads it, opens it again, and prints how long that took.
ghost use Rattle.std.specs.Prelude.{◌≡◌};

use crate::background::Background;
use crate::error::BenchError;
use crate::figures::{Memory, Thousandths, a_second, memory_of_process};
use crate::job::{Plan, Work};
use crate::looks::{Looks, Stores, count_reads, looks_by_four, looks_by_one};
use crate::pauses::Lap;
use crate::read_counter::CountingDisk;
use crate::store::{Blanks, new_store, open_store, seated};
use crate::turns::Turns;
use crate::workers::fill_beside;
use crate::writer::{Filled, Writer, fill_all};
use silt_desk::{Count, DeskId, Seat, Shared};
use silt_device::Disk;
use silt_store_set::Core;
use std::alloc::Global;
use std::fs::Files;
use std::marker::Brand;
use std::sync::atomic::{AtomicU64, Ordering};
use std::sync::{RwLock, Wait};
use std::thread::Threads;
use std::time::Clock;

/// The names of the numbers, in their order.
pub const NAMES: &str =
    "keys\tvalue bytes\tputs/s\tgets/s 1 thread\tgets/s 4 threads\tabsent/s 1 thread\t\
    absent/s 4 threads\topen ms\trss KiB\tpeak KiB\treads a get\treads an absent get\t\
    reads of opening\tput p99.9 us\tput longest us\tflush p50 us\tflush longest us";

/// The most looks that are counted.
const COUNTED: u64 = 100_000;

/// What was measured while threads shared the store, or the shards of a set.
#[derive(Clone, Copy)]
pub struct Seen {
    pub filled: Filled,
    gets_by_one: u64,
    gets_by_four: u64,
    absent_by_one: u64,
    absent_by_four: u64,
    memory: Memory,
}

/// The counted reads: those of an opening, and those of this many looks each at present and at
/// absent keys.
#[derive(Clone, Copy)]
struct Counted {
    opening: u64,
    looks: u64,
    gets: u64,
    absent: u64,
}

/// Fills a store on this disk as planned and reads it. Opens it again twice, once to measure the
/// time and once to count the reads. Prints a line of names and a line of numbers.
pub fn measure<D: Disk, R: Threads + Wait + Clock + Print + Files + Sync>(
    rt: &R,
    alloc: Global,
    disk: D,
    plan: &Plan,
    work: Work,
) -> Result<(), BenchError> {
    let core = new_store(alloc, disk, plan.geometry)?;
    let (disk, seen) = see::<_, Brand, _>(rt, alloc, core, plan, work, Blanks::new())?;
    let (disk, open) = open_by_clock(rt, alloc, disk)?;
    let counted = count_opened(rt, alloc, disk, plan)?;
    print_numbers(rt, plan, &seen, open, &counted)
}

// Fills a new store at a desk and measures looks at it. Returns its disk and the measures.
fn see<D: Disk, N: DeskId + Send + Sync, R: Threads + Wait + Clock + Files + Sync>(
    rt: &R,
    alloc: Global,
    core: Core<D>,
    plan: &Plan,
    work: Work,
    blanks: Blanks,
) -> Result<(D, Seen), BenchError>
    requires calls { (blanks.calls.name ≡ N.calls_name) × (blanks.calls.parts ≡ N.seats) }
    requires accepted { (blanks.accepted.name ≡ N.accepted_name) × (blanks.accepted.parts ≡ N.seats) }
    requires seats { N.seats ≡ 3 }
{
    let (desk, seats) = seated::<D, N>(alloc, core, blanks)?;
    let shared = RwLock::new(desk);
    match fill_and_look(rt, alloc, &shared, seats, plan, work) {
        Ok(seen) => Ok((shared.into_inner().close(), seen)),
        Err(error) => Err(error),
    }
}

// Fills a store as planned, and measures looks at it.
fn fill_and_look<D: Disk, N: DeskId + Send + Sync, R: Threads + Wait + Clock + Files + Sync>(
    rt: &R,
    alloc: Global,
    shared: &Shared<D, Count, N>,
    seats: Vec<Seat<N>>,
    plan: &Plan,
    work: Work,
) -> Result<Seen, BenchError> {
    let filled = fill_planned(rt, alloc, shared, seats, plan, work)?;
    look(rt, alloc, &Stores::One(shared), plan, filled)
}

/// Fills a store as planned, by those who have the seats of its desk.
pub fn fill_planned<D: Disk, N: DeskId + Send + Sync, R: Threads + Wait + Clock + Sync>(
    rt: &R,
    alloc: Global,
    shared: &Shared<D, Count, N>,
    seats: Vec<Seat<N>>,
    plan: &Plan,
    work: Work,
) -> Result<Filled, BenchError> {
    let seats = three_of(seats).ok_or(BenchError::NoMemory)?;
    match work {
        Work::Turns => fill_by_turns(rt, alloc, shared, seats, plan),
        Work::Workers => fill_beside(rt, alloc, shared, seats, plan),
    }
}

// The three seats of a desk.
fn three_of<N: DeskId>(seats: Vec<Seat<N>>) -> Option<(Seat<N>, Seat<N>, Seat<N>)> {
    let mut seats = seats;
    let third = seats.pop()?;
    let second = seats.pop()?;
    let first = seats.pop()?;
    Some((first, second, third))
}

// Fills a store on this thread, which also does the background work, between the groups.
fn fill_by_turns<D: Disk, N: DeskId, R: Wait + Clock>(
    rt: &R,
    alloc: Global,
    shared: &Shared<D, Count, N>,
    seats: (Seat<N>, Seat<N>, Seat<N>),
    plan: &Plan,
) -> Result<Filled, BenchError> {
    let (seat, _second, _third) = seats;
    let background = Background::Turns(Turns::new(plan.stores, plan.keys_of_part()));
    let mut writer = Writer::new(alloc, seat, background, plan)?;
    fill_all(rt, alloc, shared, &mut writer, plan.keys)
}

/// Measures looks at stores that are filled.
pub fn look<D: Disk, N: DeskId + Send + Sync, R: Threads + Wait + Clock + Files + Sync>(
    rt: &R,
    alloc: Global,
    stores: &Stores<'_, Shared<D, Count, N>>,
    plan: &Plan,
    filled: Filled,
) -> Result<Seen, BenchError> {
    let present = Looks::present(plan.keys, plan.gets);
    let absent = Looks::absent(plan.keys, plan.gets);
    Ok(Seen {
        filled,
        gets_by_one: looks_by_one(rt, stores, present)?,
        gets_by_four: looks_by_four(rt, stores, present)?,
        absent_by_one: looks_by_one(rt, stores, absent)?,
        absent_by_four: looks_by_four(rt, stores, absent)?,
        memory: memory_of_process(rt, alloc),
    })
}

// How many nanoseconds it takes to open the store on a disk. The disk is returned too.
fn open_by_clock<D: Disk, R: Clock>(
    rt: &R,
    alloc: Global,
    disk: D,
) -> Result<(D, u64), BenchError> {
    let mut lap = Lap::new(rt)?;
    let core = open_store(alloc, disk)?;
    match lap.turn(rt) {
        Ok(nanos) => Ok((core.close(), nanos)),
        Err(error) => Err(error.into()),
    }
}

// Opens the store on a disk and counts its reads: those of the opening and those of some looks.
fn count_opened<D: Disk, R: Wait>(
    rt: &R,
    alloc: Global,
    disk: D,
    plan: &Plan,
) -> Result<Counted, BenchError> {
    let reads = AtomicU64::new(0);
    let core = open_store(alloc, CountingDisk::new(disk, &reads))?;
    count_seated::<_, Brand, _>(rt, alloc, core, &reads, plan, Blanks::new())
}

// Counts the reads of looks at a store that was just opened.
fn count_seated<D: Disk, N: DeskId, R: Wait>(
    rt: &R,
    alloc: Global,
    core: Core<D>,
    reads: &AtomicU64,
    plan: &Plan,
    blanks: Blanks,
) -> Result<Counted, BenchError>
    requires calls { (blanks.calls.name ≡ N.calls_name) × (blanks.calls.parts ≡ N.seats) }
    requires accepted { (blanks.accepted.name ≡ N.accepted_name) × (blanks.accepted.parts ≡ N.seats) }
    requires seats { N.seats ≡ 3 }
{
    let opening = reads.load(Ordering::SeqCst);
    let (desk, _seats) = seated::<D, N>(alloc, core, blanks)?;
    let shared = RwLock::new(desk);
    count_looks(rt, &shared, reads, plan, opening)
}

// Counts the reads of looks for present and for absent keys.
fn count_looks<D: Disk, N: DeskId, R: Wait>(
    rt: &R,
    shared: &Shared<D, Count, N>,
    reads: &AtomicU64,
    plan: &Plan,
    opening: u64,
) -> Result<Counted, BenchError> {
    let looks = plan.gets.min(COUNTED);
    let store = Stores::One(shared);
    Ok(Counted {
        opening,
        looks,
        gets: count_reads(rt, &store, reads, Looks::present(plan.keys, looks))?,
        absent: count_reads(rt, &store, reads, Looks::absent(plan.keys, looks))?,
    })
}

// Prints the numbers.
fn print_numbers<R: Print>(
    rt: &R,
    plan: &Plan,
    seen: &Seen,
    open: u64,
    counted: &Counted,
) -> Result<(), BenchError> {
    let gets = Thousandths::of(counted.gets, counted.looks);
    let absent = Thousandths::of(counted.absent, counted.looks);
    println!(rt; "{NAMES}")?;
    print_seen(rt, plan, seen, open)?;
    print!(rt; "\t{gets}\t{absent}\t{}", counted.opening)?;
    print_pauses(rt, &seen.filled)
}

/// Prints the numbers from that of the keys to that of the peak.
pub fn print_seen<R: Print>(rt: &R, plan: &Plan, seen: &Seen, open: u64) -> Result<(), BenchError> {
    let keys = plan.keys;
    let value_len = plan.geometry.value_len();
    let puts = a_second(keys, seen.filled.nanos);
    let open = Thousandths(open / 1000);
    print!(rt; "{keys}\t{value_len}\t{puts}")?;
    print!(rt; "\t{}\t{}", seen.gets_by_one, seen.gets_by_four)?;
    print!(rt; "\t{}\t{}", seen.absent_by_one, seen.absent_by_four)?;
    print!(rt; "\t{open}\t{}\t{}", seen.memory.resident, seen.memory.most)?;
    Ok(())
}

/// Prints the numbers of single calls, which end the line.
pub fn print_pauses<R: Print>(rt: &R, filled: &Filled) -> Result<(), BenchError> {
    print!(rt; "\t{}\t{}", filled.put_late, filled.put_longest)?;
    println!(rt; "\t{}\t{}", filled.flush_middle, filled.flush_longest)?;
    Ok(())
}
