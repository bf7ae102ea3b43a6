// Calls at a desk that are refused a request for memory. A refused call does nothing and is not
// recorded, and a second try gets its own reply. The test passes whichever one request of the
// desk's calls is refused, and also if none is. docs/contributing.md says how to refuse each in
// turn.
ghost use Rattle.std.specs.Prelude.{◌≡◌, [], IfSome};
ghost use Rattle.silt_desk.specs.Seeing.{seen};
ghost use Rattle.silt_desk.specs.Traces.{IsHistory};

use crate::desk::{NO_MEMORY, get, look, plain, put, swap, two_or_none};
use crate::same;
use silt_desk::{Desk, DeskId, Kept, NotMade, RecordedCall, Seat};
use silt_device::Disk;
use silt_event::{Event, Progress, Refusal, Reply};
use silt_fixtures::{key, opened};
use silt_store_set::Core;
use std::alloc::Global;
use std::marker::Brand;
use std::sync::ledger::Blank;
use std::test::Fail;

// Whether an answer is this one. None if memory was refused.
fn is<A: PartialEq + Drop>(answer: Result<A, u32>, due: A) -> Option<bool> {
    match answer {
        Ok(found) => Some(found == due),
        Err(NO_MEMORY) => None,
        Err(_) => Some(false),
    }
}

// A put of a key whose number is in its value.
fn puts<D: Disk, N: DeskId>(
    desk: &mut Desk<D, Kept, N>,
    alloc: Global,
    seat: &mut Seat<N>,
    number: u8,
) -> Option<bool> {
    let answer = put(desk, alloc, seat, &key(number), [0, number]);
    is(answer, u64::from(number))
}

// A get of such a key.
fn gets<D: Disk, N: DeskId>(
    desk: &mut Desk<D, Kept, N>,
    alloc: Global,
    seat: &mut Seat<N>,
    number: u8,
) -> Option<bool> {
    let answer = get(desk, alloc, seat, &key(number));
    is(answer, Some([0, number]))
}

// A swap: the first byte of its key, the old value and the new one.
type Swap = (u8, Option<[u8; 2]>, Option<[u8; 2]>);

// Four swaps. The first two are of the first value of the fourth key, and the second of these
// differs. The others give a value to a key that has none, and take it away again.
const SWAPS: [Swap; 4] = [
    (4, Some([0, 4]), Some([1, 9])),
    (4, Some([0, 4]), Some([1, 8])),
    (6, None, Some([1, 7])),
    (6, Some([1, 7]), None),
];

fn swaps<D: Disk, N: DeskId>(
    desk: &mut Desk<D, Kept, N>,
    alloc: Global,
    seat: &mut Seat<N>,
    (first, old, new): Swap,
    due: Option<u64>,
) -> Option<bool> {
    let answer = swap(desk, alloc, seat, &key(first), old, new);
    is(answer, due)
}

fn converts<D: Disk, N: DeskId>(
    desk: &mut Desk<D, Kept, N>,
    alloc: Global,
    seat: &mut Seat<N>,
    due: Progress,
) -> Option<bool> {
    is(plain(desk.convert(alloc, seat)), due)
}

fn merges<D: Disk, N: DeskId>(
    desk: &mut Desk<D, Kept, N>,
    alloc: Global,
    seat: &mut Seat<N>,
    due: Progress,
) -> Option<bool> {
    is(plain(desk.merge(alloc, seat)), due)
}

// Whether the call of this turn gets its reply. None if it is out of memory. Five puts come first,
// the last of which freezes the full log, and a flush. Then come a conversion of nine steps, a merge
// of thirteen, and five gets. The four swaps come last.
fn ask<D: Disk, N: DeskId>(
    desk: &mut Desk<D, Kept, N>,
    alloc: Global,
    seat: &mut Seat<N>,
    turn: u8,
) -> Option<bool> {
    match turn {
        1..=5 => puts(desk, alloc, seat, turn),
        6 => is(plain(desk.flush(alloc, seat)), 5),
        7..=14 => converts(desk, alloc, seat, Progress::Moved),
        15 => converts(desk, alloc, seat, Progress::Finished),
        16..=27 => merges(desk, alloc, seat, Progress::Moved),
        28 => merges(desk, alloc, seat, Progress::Finished),
        29..=33 => gets(desk, alloc, seat, turn % 28),
        34 => swaps(desk, alloc, seat, SWAPS[0], Some(6)),
        35 => swaps(desk, alloc, seat, SWAPS[1], None),
        36 => swaps(desk, alloc, seat, SWAPS[2], Some(7)),
        _ => swaps(desk, alloc, seat, SWAPS[3], Some(8)),
    }
}

// Whether a look shows that the call of this turn did nothing. No earlier turn puts a key of this
// number, and after a refused swap its key has its old value.
fn did_nothing<D: Disk, N: DeskId>(desk: &Desk<D, Kept, N>, turn: u8) -> bool {
    let (number, found) = match turn {
        34 => (4, (5, Some([0, 4]))),
        35 => (4, (6, Some([1, 9]))),
        36 => (6, (6, None)),
        37 => (6, (7, Some([1, 7]))),
        _ => (turn, (u64::from(turn.saturating_sub(1).min(5)), None)),
    };
    look(desk, &key(number)) == Some(found)
}

// Whether the call of this turn gets its reply. If it is out of memory and did nothing, the call is
// made once more.
fn ask_again<D: Disk, N: DeskId>(
    desk: &mut Desk<D, Kept, N>,
    alloc: Global,
    seat: &mut Seat<N>,
    turn: u8,
) -> bool {
    match ask(desk, alloc, seat, turn) {
        Some(is_due) => is_due,
        None => did_nothing(desk, turn) && ask(desk, alloc, seat, turn) == Some(true),
    }
}

// Makes all calls, and returns the first turn whose call does not get its reply.
fn ask_all<D: Disk, N: DeskId>(
    desk: &mut Desk<D, Kept, N>,
    alloc: Global,
    seat: &mut Seat<N>,
) -> Option<u8> {
    for turn in 1..38u8 {
        if !ask_again(desk, alloc, seat, turn) {
            return Some(turn);
        }
    }
    None
}

// A trace with room for forty calls of this store.
fn kept_once<D: Disk>(alloc: Global, core: &Core<D>) -> Option<Kept>
    ensures history { IfSome result (λ kept. IsHistory kept (seen D.Disk core.now)) }
    ensures calls { IfSome result (λ kept. kept.calls ≡ []) }
{
    match Kept::new(alloc, core, 40) {
        Ok(trace) => Some(trace),
        Err(_) => None,
    }
}

// The same trace, with a second try if memory is refused.
fn kept_again<D: Disk>(alloc: Global, core: &Core<D>) -> Option<Kept>
    ensures history { IfSome result (λ kept. IsHistory kept (seen D.Disk core.now)) }
    ensures calls { IfSome result (λ kept. kept.calls ≡ []) }
{
    match Kept::new(alloc, core, 40) {
        Ok(trace) => Some(trace),
        Err(Refusal::NoMemory) => kept_once(alloc, core),
        Err(_) => None,
    }
}

// Whether a call is this swap.
fn is_swap(event: &Event, (first, from, to): Swap) -> bool {
    match event {
        Event::Swap(at, old, new) => {
            *at == key(first) && two_or_none(old) == from && two_or_none(new) == to
        }
        _ => false,
    }
}

// The number of an accepted call, 0 for one that differs.
fn number_of(call: &RecordedCall) -> Option<u64> {
    match call.reply {
        Reply::Accepted(number) => Some(number),
        Reply::Differs => Some(0),
        _ => None,
    }
}

// Whether this call is this swap, with this number.
fn is_call(call: Option<&RecordedCall>, swap: Swap, number: u64) -> bool {
    match call {
        Some(call) => is_swap(&call.event, swap) && number_of(call) == Some(number),
        None => false,
    }
}

// Whether the last four recorded calls are the swaps, each with both values.
fn has_swaps(trace: &Kept) -> bool {
    let calls = trace.calls();
    is_call(calls.get(33), SWAPS[0], 6)
        && is_call(calls.get(34), SWAPS[1], 0)
        && is_call(calls.get(35), SWAPS[2], 7)
        && is_call(calls.get(36), SWAPS[3], 8)
}

// What a desk reports. None if a seat is missing.
fn settled<D: Disk, N: DeskId>(
    desk: &mut Desk<D, Kept, N>,
    seats: Vec<Seat<N>>,
) -> Option<(u64, u64)> {
    desk.settle(seats).ok()
}

// Whether the trace has recorded nothing.
fn is_blank(trace: &Kept) -> bool {
    trace.count() == 0 && trace.opening().len() == 0 && trace.calls().len() == 0
}

// Whether the trace of a new desk has recorded nothing, the first turn whose call does not get its
// reply, what the desk reports, and whether it recorded the swaps with both values.
type Found = Option<(bool, Option<u8>, Option<(u64, u64)>, bool)>;

// The desk records each call that succeeded, once.
const RECORDED: Found = Some((true, None, Some((37, 8)), true));

fn records_each<D: Disk, N: DeskId>(
    alloc: Global,
    desk: &mut Desk<D, Kept, N>,
    mut seats: Vec<Seat<N>>,
) -> Found {
    let is_blank = is_blank(desk.trace());
    let wrong = ask_all(desk, alloc, seats.first_mut()?);
    let settled = settled(desk, seats);
    Some((is_blank, wrong, settled, has_swaps(desk.trace())))
}

// Makes the calls at this desk with its seat.
fn records_all<D: Disk, N: DeskId>(
    alloc: Global,
    mut desk: Desk<D, Kept, N>,
    seats: Vec<Seat<N>>,
) -> Found {
    let found = records_each(alloc, &mut desk, seats);
    drop(desk);
    found
}

// If no desk is made, the store has done nothing, and its trace has recorded nothing. Then all is as
// it has to be.
fn unused<D: Disk>(not_made: &NotMade<D, Kept>) -> Found {
    if not_made.core.count() == 0 && is_blank(&not_made.trace) {
        RECORDED
    } else {
        None
    }
}

// If no desk is made, the store is returned. Else the desk records all calls that succeeded.
fn records_what_is_done<D: Disk, N: DeskId>(
    alloc: Global,
    core: Core<D>,
    calls: Blank,
    accepted: Blank,
) -> Found
    requires calls { (calls.name ≡ N.calls_name) × (calls.parts ≡ N.seats) }
    requires accepted { (accepted.name ≡ N.accepted_name) × (accepted.parts ≡ N.seats) }
    requires seats { N.seats ≡ 1 }
{
    let Some(trace) = kept_again(alloc, &core) else {
        return None;
    };
    match Desk::<D, Kept, N>::new(alloc, core, trace, 1, calls, accepted) {
        Ok((desk, seats)) => records_all(alloc, desk, seats),
        Err(not_made) => unused(&not_made),
    }
}

#[test]
fn each_call_is_asked_again(rt: HostRuntime) -> Result<(), Fail> {
    let core = opened(rt.alloc())?;
    let found = records_what_is_done::<_, Brand>(rt.alloc(), core, Blank::new(1), Blank::new(1));
    same(&rt, &found, &RECORDED);
    Ok(())
}
