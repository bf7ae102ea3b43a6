//! The bench: it fills and reads a store, and prints how long that took.
//!
//! - `silt_bench store PATH WORK V B CAP NL NH S KEYS GROUP GETS STORES` makes a store in the file PATH and puts
//!   this many keys, with a flush after each group. It does all background work, looks for present and absent keys on one
//!   thread and on four, and opens the store again. WORK is `turns`, on one thread between the groups, or `workers`, on two
//!   threads beside the writer. By turns, a merge begins when there are STORES hash stores. It prints one line of names and
//!   one line of numbers.
//! - `silt_bench set PATH WORK V B CAP NL NH S KEYS GROUP GETS STORES SHARDS` does that with so many stores of this
//!   geometry, the shards of a set, in the files PATH.0, PATH.1 and so on. Each shard has threads of its own that fill
//!   it, and puts the keys that are routed to it. It counts no reads.
//! - `silt_bench growth PATH V B CAP NL NH S KEYS GROUP GETS` prints a line for each number of hash stores before a
//!   sorted store.
//! - `silt_bench index KEYS GETS` measures only the index of a sorted store.
//! - `silt_bench counts` prints counts and no times: each look at an index beside a search among the keys, and the growth of a small store.
//!
//! No times are proved. The contracts say that a counting disk behaves as the disk that it counts
//! for, and what the sums of a figure are.
#![tactic(auto)]

mod background;
mod error;
mod figures;
mod growth;
mod index;
mod job;
mod keys;
mod looks;
mod measurement;
mod pauses;
mod read_counter;
mod set;
mod store;
mod turns;
mod workers;
mod writer;

use error::BenchError;
use growth::{Detail, grow, grow_small};
use index::{index_agrees, measure_index};
use job::{Job, Plan, Work, job_of, path_of};
use measurement::measure;
use set::measure_set;
use silt_device::{FileDisk, FileSystem};
use std::alloc::Global;
use std::env::{self, Env};
use std::fs::{File, Files};
use std::process::ExitCode;
use std::sync::Wait;
use std::thread::Threads;
use std::time::Clock;

fn main(rt: HostRuntime) -> ExitCode {
    match run(&rt) {
        Ok(()) => ExitCode::from(0),
        Err(error) => {
            let _ = eprintln!(rt; "silt_bench: {error}"); // nobody may listen
            ExitCode::from(1)
        }
    }
}

// Does the job that the words name.
fn run<
    R: Threads + Wait + Clock + Print + FileSystem<File = File> + Files + Env + AllocGlobal + Sync,
>(rt: &R) -> Result<(), BenchError> {
    let alloc = rt.alloc();
    let words = env::args(rt)?.collect::<Vec<String>>(alloc)?;
    match (job_of(words.as_slice()), path_of(words.as_slice())) {
        (Some(Job::Store(work, plan)), Some(path)) => measure_file(rt, alloc, path, &plan, work),
        (Some(Job::Set(work, plan)), Some(path)) => measure_files(rt, alloc, path, &plan, work),
        (Some(Job::Growth(plan)), Some(path)) => grow_file(rt, alloc, path, &plan),
        (Some(Job::Index { keys, gets }), _) => measure_index(rt, alloc, keys, gets),
        (Some(Job::Counts), _) => print_counts(rt, alloc),
        _ => Err(BenchError::Words),
    }
}

// Measures a store in a file.
fn measure_file<
    R: Threads + Wait + Clock + Print + FileSystem<File = File> + Files + AllocGlobal + Sync,
>(rt: &R, alloc: Global, path: &str, plan: &Plan, work: Work) -> Result<(), BenchError> {
    let disk = FileDisk::create(rt, path, plan.geometry.size())?;
    measure(rt, alloc, disk, plan, work)
}

// Measures a set in files.
fn measure_files<
    R: Threads + Wait + Clock + Print + FileSystem<File = File> + Files + AllocGlobal + Sync,
>(rt: &R, alloc: Global, path: &str, plan: &Plan, work: Work) -> Result<(), BenchError> {
    let disks = set_files(rt, alloc, path, plan)?;
    measure_set(rt, alloc, disks, plan, work)
}

// The new files of a set's shards.
fn set_files<R: FileSystem<File = File> + AllocGlobal>(
    rt: &R,
    alloc: Global,
    path: &str,
    plan: &Plan,
) -> Result<Vec<FileDisk>, BenchError> {
    let mut disks = Vec::new(alloc);
    for shard in 0..plan.part.shards {
        let name = format!(in alloc; "{path}.{shard}")?;
        disks.push(FileDisk::create(rt, name.as_str(), plan.geometry.size())?)?;
    }
    Ok(disks)
}

// Prints what gets of a store in a file cost while hash stores grow in number.
fn grow_file<
    R: Threads + Wait + Clock + Print + FileSystem<File = File> + Files + AllocGlobal + Sync,
>(rt: &R, alloc: Global, path: &str, plan: &Plan) -> Result<(), BenchError> {
    let disk = FileDisk::create(rt, path, plan.geometry.size())?;
    grow(rt, alloc, disk, plan, Detail::Rates)
}

// Prints the counts, which are the same on each machine.
fn print_counts<R: Threads + Wait + Clock + Print + Sync>(
    rt: &R,
    alloc: Global,
) -> Result<(), BenchError> {
    index_agrees(rt, alloc, 100_000, 10_000)?;
    grow_small(rt, alloc)
}
