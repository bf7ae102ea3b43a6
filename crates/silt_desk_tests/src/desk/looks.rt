// Two looks are made at the same time. With a lock that lets in one at a time they are not, and the test sees it.
ghost use Rattle.std.specs.Prelude.{◌≡◌};

use crate::desk::{Look, each_over, look, look_beside, put_alone, seated};
use crate::same;
use silt_desk::{DeskId, Kept, Seat, Shared};
use silt_device::{Disk, MemDisk};
use silt_fixtures::{formatted, key, opened_on};
use silt_store_set::Core;
use std::alloc::Global;
use std::marker::Brand;
use std::sync::Wait;
use std::sync::atomic::{AtomicU64, Ordering};
use std::sync::ledger::Blank;
use std::test::Fail;
use std::thread;
use std::thread::Threads;

/// How many reads have begun since it was armed, and whether one waited in vain.
#[derive(Drop)]
struct Reads {
    armed: AtomicU64,
    begun: AtomicU64,
    missed: AtomicU64,
    turns: u64,
}

impl Reads {
    fn new(turns: u64) -> Reads {
        Reads {
            armed: AtomicU64::new(0),
            begun: AtomicU64::new(0),
            missed: AtomicU64::new(0),
            turns,
        }
    }

    /// Waits, once armed, until a second read has begun, for at most this many turns.
    fn meet(&self) {
        if self.armed.load(Ordering::SeqCst) == 0 {
            return;
        }
        self.begun.fetch_add(1, Ordering::SeqCst);
        for _ in 0..self.turns {
            if self.begun.load(Ordering::SeqCst) >= 2 {
                return;
            }
            thread::yield_now();
        }
        self.missed.store(1, Ordering::SeqCst);
    }
}

/// A disk whose reads meet.
#[derive(Drop)]
struct Meeting<'a, D: Disk> {
    disk: D,
    reads: &'a Reads,
}

impl<D: Disk> Disk for Meeting<'_, D> {
    type Fault = D::Fault;

    ghost content = { λ m. D.content m.disk };

    ghost failures = { λ m. D.failures m.disk };

    ghost writes = { λ m. D.writes m.disk };

    ghost syncs = { λ m. D.syncs m.disk };

    ghost gave = { λ m fault call at count. D.gave m.disk fault call at count };

    fn len(&self) -> u64 {
        self.disk.len()
    }

    fn read(&self, at: u64, buf: &mut [u8]) -> Result<(), D::Fault> {
        self.reads.meet();
        self.disk.read(at, buf)
    }

    fn write(&mut self, at: u64, buf: &[u8]) -> Result<(), D::Fault> {
        self.disk.write(at, buf)
    }

    fn sync(&mut self) -> Result<(), D::Fault> {
        self.disk.sync()
    }
}

/// A look under a read guard, or under a write guard.
fn look_once<D: Disk, N: DeskId, R: Wait>(
    rt: &R,
    shared: &Shared<D, Kept, N>,
    alone: bool,
) -> Look {
    if alone {
        look(&*shared.write(rt), &key(1))
    } else {
        look_beside(rt, shared, &key(1))
    }
}

/// Two looks by two threads.
fn both_look<D: Disk, N: DeskId + Send + Sync, R: Threads + Wait + Sync>(
    rt: &R,
    alloc: Global,
    shared: &Shared<D, Kept, N>,
    alone: bool,
) -> Option<Vec<Look>> {
    let jobs = [alone; 2].to_vec(alloc).ok()?;
    each_over(
        rt,
        shared,
        jobs,
        &|desk: &Shared<D, Kept, N>, alone: bool| look_once(rt, desk, alone),
    )
}

/// Whether both looks find the key.
fn both_find<D: Disk, N: DeskId + Send + Sync, R: Threads + Wait + Sync>(
    rt: &R,
    alloc: Global,
    shared: &Shared<D, Kept, N>,
    alone: bool,
) -> bool {
    match both_look(rt, alloc, shared, alone) {
        Some(looks) => looks.as_slice() == [Some((1, Some([1, 2]))); 2].as_slice(),
        None => false,
    }
}

/// What a put returns, whether two threads then find its key, and whether a read waited in vain for
/// a second one.
type Found = Option<(Result<u64, u32>, bool, bool)>;

fn find_both<D: Disk, N: DeskId + Send + Sync, R: Threads + Wait + Sync>(
    rt: &R,
    alloc: Global,
    shared: &Shared<D, Kept, N>,
    seats: &mut Vec<Seat<N>>,
    reads: &Reads,
    alone: bool,
) -> Found {
    let put = put_alone(rt, alloc, shared, seats.first_mut()?, &key(1), [1, 2]);
    reads.armed.store(1, Ordering::SeqCst);
    let is_found = both_find(rt, alloc, shared, alone);
    Some((put, is_found, reads.missed.load(Ordering::SeqCst) == 1))
}

/// The same at a desk of this store.
fn found_at<D: Disk, N: DeskId + Send + Sync, R: Threads + Wait + Sync>(
    rt: &R,
    alloc: Global,
    core: Core<D>,
    reads: &Reads,
    alone: bool,
    calls: Blank,
    accepted: Blank,
) -> Found
    requires calls { (calls.name ≡ N.calls_name) × (calls.parts ≡ N.seats) }
    requires accepted { (accepted.name ≡ N.accepted_name) × (accepted.parts ≡ N.seats) }
    requires seats { N.seats ≡ 2 }
{
    let (shared, mut seats) = seated::<D, N>(alloc, core, 3, 2, calls, accepted)?;
    let found = find_both(rt, alloc, &shared, &mut seats, reads, alone);
    drop(shared);
    found
}

/// An empty store on a disk with these reads.
fn opened_with_reads(alloc: Global, reads: &Reads) -> Result<Core<Meeting<'_, MemDisk>>, Fail> {
    let disk = Meeting {
        disk: formatted(alloc)?,
        reads,
    };
    opened_on(alloc, disk)
}

/// The same of an empty store on a disk whose reads wait for this many turns.
fn found_after<R: Threads + Wait + Sync>(
    rt: &R,
    alloc: Global,
    turns: u64,
    alone: bool,
) -> Result<Found, Fail> {
    let reads = Reads::new(turns);
    let core = opened_with_reads(alloc, &reads)?;
    let (calls, accepted) = (Blank::new(2), Blank::new(2));
    Ok(found_at::<_, Brand, _>(rt, alloc, core, &reads, alone, calls, accepted))
}

#[test]
fn two_looks(rt: HostRuntime) -> Result<(), Fail> {
    let found = found_after(&rt, rt.alloc(), 20_000_000, false)?;
    same(&rt, &found, &Some((Ok(1), true, false)));
    Ok(())
}

#[test]
fn two_looks_behind_one_lock(rt: HostRuntime) -> Result<(), Fail> {
    let found = found_after(&rt, rt.alloc(), 100_000, true)?;
    same(&rt, &found, &Some((Ok(1), true, true)));
    Ok(())
}
