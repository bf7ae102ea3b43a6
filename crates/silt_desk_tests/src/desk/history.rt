// A desk with two seats and a record of three calls.
ghost use Rattle.std.specs.Prelude.{◌≡◌};

use crate::desk::{
    HISTORY_FULL, Look, delete_alone, flush_alone, get_alone, is_settled, look_beside, put_alone,
    seated, settled,
};
use crate::same;
use silt_desk::{DeskId, Kept, MissingSeats, Seat, Shared, settle};
use silt_device::Disk;
use silt_fixtures::{key, opened};
use silt_store_set::Core;
use std::alloc::Global;
use std::marker::Brand;
use std::sync::Wait;
use std::sync::ledger::Blank;
use std::test::Fail;

// What a put, a flush, a get and a delete return, and what a look finds after all. Between the calls
// looks say whether a crash keeps their answer: after the put, and after the flush.
type Answers = (
    Result<u64, u32>,
    Result<u64, u32>,
    Result<Option<[u8; 2]>, u32>,
    Result<u64, u32>,
    Look,
    [Option<bool>; 2],
);

// Three calls are recorded, and a fourth is refused.
const THREE: Answers = (
    Ok(1),
    Ok(1),
    Ok(Some([1, 2])),
    Err(HISTORY_FULL),
    Some((1, Some([1, 2]))),
    [Some(false), Some(true)],
);

// A put and a get from the first seat, a flush and a delete from the second one.
fn four_calls<D: Disk, N: DeskId, R: Wait>(
    rt: &R,
    alloc: Global,
    shared: &Shared<D, Kept, N>,
    first: &mut Seat<N>,
    second: &mut Seat<N>,
) -> Answers {
    let put = put_alone(rt, alloc, shared, first, &key(1), [1, 2]);
    let waits = is_settled(&*shared.read(rt), &key(1));
    let flushed = flush_alone(rt, alloc, shared, second);
    let settled = is_settled(&*shared.read(rt), &key(1));
    let got = get_alone(rt, alloc, shared, first, &key(1));
    let deleted = delete_alone(rt, alloc, shared, second, &key(1));
    let looked = look_beside(rt, shared, &key(1));
    (put, flushed, got, deleted, looked, [waits, settled])
}

// What a desk reports with the seat that was missing.
fn settled_with<D: Disk, N: DeskId, R: Wait>(
    rt: &R,
    shared: &Shared<D, Kept, N>,
    missing: MissingSeats<N>,
    seat: Seat<N>,
) -> Option<(u64, u64)> {
    let MissingSeats { mut seats } = missing;
    match seats.push(seat) {
        Ok(()) => settled(rt, shared, seats),
        Err(_) => None,
    }
}

// With one seat the desk cannot settle. Returns what it reports with both.
fn settled_at_last<D: Disk, N: DeskId, R: Wait>(
    rt: &R,
    shared: &Shared<D, Kept, N>,
    first: Vec<Seat<N>>,
    second: Seat<N>,
) -> Option<(u64, u64)> {
    match settle(rt, shared, first) {
        Ok(_) => None,
        Err(missing) => settled_with(rt, shared, missing, second),
    }
}

// What the calls return, and what the desk reports.
type Found = Option<(Answers, Option<(u64, u64)>)>;

fn calls_and_settles<D: Disk, N: DeskId, R: Wait>(
    rt: &R,
    alloc: Global,
    shared: &Shared<D, Kept, N>,
    mut seats: Vec<Seat<N>>,
) -> Found {
    let mut second = seats.pop()?;
    let answers = four_calls(rt, alloc, shared, seats.first_mut()?, &mut second);
    Some((answers, settled_at_last(rt, shared, seats, second)))
}

// Makes the calls at a desk that records three.
fn three_calls<D: Disk, N: DeskId, R: Wait>(
    rt: &R,
    alloc: Global,
    core: Core<D>,
    calls: Blank,
    accepted: Blank,
) -> Found
    requires calls { (calls.name ≡ N.calls_name) × (calls.parts ≡ N.seats) }
    requires accepted { (accepted.name ≡ N.accepted_name) × (accepted.parts ≡ N.seats) }
    requires seats { N.seats ≡ 2 }
{
    let (shared, seats) = seated::<D, N>(alloc, core, 3, 2, calls, accepted)?;
    let found = calls_and_settles(rt, alloc, &shared, seats);
    drop(shared);
    found
}

// The desk reports three calls and one accepted command.
#[test]
fn refuses_the_fourth_call(rt: HostRuntime) -> Result<(), Fail> {
    let core = opened(rt.alloc())?;
    let found = three_calls::<_, Brand, _>(&rt, rt.alloc(), core, Blank::new(2), Blank::new(2));
    same(&rt, &found, &Some((THREE, Some((3, 1)))));
    Ok(())
}
