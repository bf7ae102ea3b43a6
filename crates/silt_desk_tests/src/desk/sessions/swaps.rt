// Four threads count up one value by compare and swap, or by puts under a lock that swaps take and
// release. None of their steps is lost.
ghost use Rattle.std.specs.Prelude.{◌≡◌};

use crate::desk::sessions::{ends_as_replayed, roomy};
use crate::desk::{each_over, look_beside, put_alone, seated, settled, swap};
use crate::same;
use silt_desk::{DeskId, Kept, Seat, Shared};
use silt_device::Disk;
use silt_fixtures::key;
use silt_store_set::Core;
use std::alloc::Global;
use std::marker::Brand;
use std::sync::Wait;
use std::sync::ledger::Blank;
use std::test::Fail;
use std::thread::Threads;

// The next number, in two bytes.
fn next(number: [u8; 2]) -> [u8; 2] {
    u16::from_be_bytes(number).wrapping_add(1).to_be_bytes()
}

// The value of the key.
fn counted<D: Disk, N: DeskId, R: Wait>(rt: &R, shared: &Shared<D, Kept, N>) -> Option<[u8; 2]> {
    let (_, value) = look_beside(rt, shared, &key(1))?;
    value
}

// Swaps a value under a guard of its own. Returns whether the swap is accepted.
fn is_swapped<D: Disk, N: DeskId, R: Wait>(
    rt: &R,
    alloc: Global,
    shared: &Shared<D, Kept, N>,
    seat: &mut Seat<N>,
    first: u8,
    old: Option<[u8; 2]>,
    new: Option<[u8; 2]>,
) -> bool {
    let swapped = swap(&mut *shared.write(rt), alloc, seat, &key(first), old, new);
    matches!(swapped, Ok(Some(_)))
}

// Looks, and swaps in the next number, each under a guard of its own. Returns whether the swap is
// accepted.
fn swap_up<D: Disk, N: DeskId, R: Wait>(
    rt: &R,
    alloc: Global,
    shared: &Shared<D, Kept, N>,
    seat: &mut Seat<N>,
) -> bool {
    let Some(old) = counted(rt, shared) else {
        return false;
    };
    let new = next(old);
    is_swapped(rt, alloc, shared, seat, 1, Some(old), Some(new))
}

// Whether nobody has the lock, which is the key 2.
fn is_free<D: Disk, N: DeskId, R: Wait>(rt: &R, shared: &Shared<D, Kept, N>) -> bool {
    matches!(look_beside(rt, shared, &key(2)), Some((_, None)))
}

// Looks and puts the next number, each under a guard of its own. Returns whether the put is
// accepted.
fn put_up<D: Disk, N: DeskId, R: Wait>(
    rt: &R,
    alloc: Global,
    shared: &Shared<D, Kept, N>,
    seat: &mut Seat<N>,
) -> bool {
    let Some(old) = counted(rt, shared) else {
        return false;
    };
    put_alone(rt, alloc, shared, seat, &key(1), next(old)).is_ok()
}

// If the lock is free, takes it, puts the next number and releases the lock. Returns whether all of
// that is done.
fn lock_up<D: Disk, N: DeskId, R: Wait>(
    rt: &R,
    alloc: Global,
    shared: &Shared<D, Kept, N>,
    seat: &mut Seat<N>,
) -> bool {
    let mine = Some([1, (seat.number() % 64) as u8]);
    is_free(rt, shared)
        && is_swapped(rt, alloc, shared, seat, 2, None, mine)
        && put_up(rt, alloc, shared, seat)
        && is_swapped(rt, alloc, shared, seat, 2, mine, None)
}

// How the threads count, and how often each of them does.
#[derive(Clone, Copy)]
struct Way {
    is_locked: bool,
    each: u32,
}

// Counts up by one, if no other thread is in the way. Returns whether that is done.
fn step<D: Disk, N: DeskId, R: Wait>(
    rt: &R,
    alloc: Global,
    shared: &Shared<D, Kept, N>,
    seat: &mut Seat<N>,
    is_locked: bool,
) -> bool {
    if is_locked {
        lock_up(rt, alloc, shared, seat)
    } else {
        swap_up(rt, alloc, shared, seat)
    }
}

// Steps until so many steps are done, within a million turns.
fn count_up<D: Disk, N: DeskId, R: Wait>(
    rt: &R,
    alloc: Global,
    shared: &Shared<D, Kept, N>,
    mut seat: Seat<N>,
    way: Way,
) -> Seat<N> {
    let mut left = way.each;
    for _ in 0..1_000_000u32 {
        if left == 0 {
            break;
        }
        if step(rt, alloc, shared, &mut seat, way.is_locked) {
            left = left.saturating_sub(1);
        }
    }
    seat
}

// All count at once, and their seats come back.
fn all_count<D: Disk, N: DeskId + Send + Sync, R: Threads + Wait + Sync>(
    rt: &R,
    alloc: Global,
    shared: &Shared<D, Kept, N>,
    seats: Vec<Seat<N>>,
    way: Way,
) -> Option<Vec<Seat<N>>> {
    each_over(
        rt,
        shared,
        seats,
        &|desk: &Shared<D, Kept, N>, seat: Seat<N>| count_up(rt, alloc, desk, seat, way),
    )
}

// Puts the first value of the key. Then all count. Returns how many commands were accepted.
fn count_all<D: Disk, N: DeskId + Send + Sync, R: Threads + Wait + Sync>(
    rt: &R,
    alloc: Global,
    shared: &Shared<D, Kept, N>,
    mut seats: Vec<Seat<N>>,
    way: Way,
) -> Option<u64> {
    let _ = put_alone(rt, alloc, shared, seats.first_mut()?, &key(1), [0, 0]);
    let seats = all_count(rt, alloc, shared, seats, way)?;
    let (_, accepted) = settled(rt, shared, seats)?;
    Some(accepted)
}

// How many commands were accepted, the value at the end, and whether a plain map has the same
// entries after the recorded calls.
type Counted = Option<(Option<u64>, Option<[u8; 2]>, bool)>;

fn counts<D: Disk, N: DeskId + Send + Sync, R: Threads + Wait + Sync>(
    rt: &R,
    alloc: Global,
    core: Core<D>,
    way: Way,
    calls: Blank,
    accepted: Blank,
) -> Counted
    requires calls { (calls.name ≡ N.calls_name) × (calls.parts ≡ N.seats) }
    requires accepted { (accepted.name ≡ N.accepted_name) × (accepted.parts ≡ N.seats) }
    requires seats { N.seats ≡ 4 }
{
    let (shared, seats) = seated::<D, N>(alloc, core, 1_000_000, 4, calls, accepted)?;
    let accepted = count_all(rt, alloc, &shared, seats, way);
    let value = counted(rt, &shared);
    let is_replayed = ends_as_replayed(alloc, shared.into_inner());
    Some((accepted, value, is_replayed))
}

// What four threads count that way at a new desk.
fn counted_by<R: Threads + Wait + Sync>(rt: &R, alloc: Global, way: Way) -> Result<Counted, Fail> {
    let core = roomy(alloc)?;
    Ok(counts::<_, Brand, _>(rt, alloc, core, way, Blank::new(4), Blank::new(4)))
}

// At the end the value is four hundred, after one put and four hundred swaps.
#[test]
fn four_threads_count_up(rt: HostRuntime) -> Result<(), Fail> {
    let way = Way {
        is_locked: false,
        each: 100,
    };
    let counted = counted_by(&rt, rt.alloc(), way)?;
    same(&rt, &counted, &Some((Some(401), Some([0x01, 0x90]), true)));
    Ok(())
}

// At the end the value is a hundred and sixty, after as many puts under the lock, with two swaps
// each.
#[test]
fn four_threads_count_under_a_lock(rt: HostRuntime) -> Result<(), Fail> {
    let way = Way {
        is_locked: true,
        each: 40,
    };
    let counted = counted_by(&rt, rt.alloc(), way)?;
    same(&rt, &counted, &Some((Some(481), Some([0, 160]), true)));
    Ok(())
}
