// Each call at a desk that is out of memory for its record.
ghost use Rattle.std.specs.Prelude.{◌≡◌};

use crate::desk::{Look, NO_MEMORY, get, look, plain, put, swap};
use crate::same;
use silt_desk::{
    CallView, Caller, Count, Desk, DeskId, Kept, NotPrepared, Note, Room, Seat, Trace,
};
use silt_device::Disk;
use silt_event::Refusal;
use silt_fixtures::{key, opened};
use silt_store_set::Core;
use std::alloc::Global;
use std::marker::Brand;
use std::sync::ledger::Blank;
use std::test::Fail;

/// A trace that never finds memory.
#[derive(Drop)]
struct Lacking<T: Trace> {
    trace: T,
}

impl<T: Trace> Trace for Lacking<T> {
    ghost log = { T.log };

    ghost logs = { λ l calls. T.logs l.trace calls };

    ghost agrees = { λ l s. T.agrees l.trace s };

    ghost counts = { λ l n m. T.counts l.trace n m };

    ghost extends = { λ a c b. T.extends a.trace c b.trace };

    ghost is_full = { λ l. T.is_full l.trace };

    ghost takes_memory = { λ l. Unit {0} };

    ghost fits = { λ capacity len. T.fits capacity len };

    ghost agrees_after = { λ a b c s t agrees extends step. T.agrees_after a.trace b.trace c s t agrees extends step };

    ghost counts_after = { λ a b c n m k l counts extends more accepted. T.counts_after a.trace b.trace c n m k l counts extends more accepted };

    ghost logs_after = { λ a b c calls extends logged. T.logs_after a.trace b.trace c calls extends logged };

    fn prepare(&self, _alloc: Global, _len: usize, _second: usize) -> Result<Room, NotPrepared> {
        Err(NotPrepared::NoMemory)
    }

    fn record(&mut self, caller: Caller, note: Note, value: &[u8], second: &[u8], room: Room) {
        self.trace.record(caller, note, value, second, room);
    }

    fn numbers(&self) -> (u64, u64) {
        self.trace.numbers()
    }

    fn view(&self) -> Option<CallView> {
        self.trace.view()
    }
}

// Whether a call is refused for lack of memory.
fn lacks<A: Drop>(answer: Result<A, u32>) -> bool {
    matches!(answer, Err(NO_MEMORY))
}

// Which of the nine calls are out of memory.
fn nine_calls<D: Disk, T: Trace, N: DeskId>(
    desk: &mut Desk<D, T, N>,
    alloc: Global,
    seat: &mut Seat<N>,
) -> [bool; 9] {
    [
        lacks(put(desk, alloc, seat, &key(1), [1, 2])),
        lacks(get(desk, alloc, seat, &key(1))),
        lacks(swap(desk, alloc, seat, &key(1), Some([1, 2]), Some([1, 3]))),
        lacks(swap(desk, alloc, seat, &key(1), None, Some([1, 3]))),
        lacks(swap(desk, alloc, seat, &key(1), Some([1, 2]), None)),
        lacks(plain(desk.delete(alloc, seat, &key(1)))),
        lacks(plain(desk.flush(alloc, seat))),
        lacks(plain(desk.convert(alloc, seat))),
        lacks(plain(desk.merge(alloc, seat))),
    ]
}

// Which of the nine calls are out of memory, what a look finds then, and what the desk reports.
type Found = Option<([bool; 9], Look, Option<(u64, u64)>)>;

// All nine calls are refused. A look shows that none of them did anything.
const REFUSED: Found = Some(([true; 9], Some((0, None)), Some((0, 0))));

fn calls_and_settles<D: Disk, T: Trace, N: DeskId>(
    alloc: Global,
    desk: &mut Desk<D, T, N>,
    mut seats: Vec<Seat<N>>,
) -> Found {
    let lacking = nine_calls(desk, alloc, seats.first_mut()?);
    let looked = look(desk, &key(1));
    Some((lacking, looked, desk.settle(seats).ok()))
}

// Makes the calls at a desk whose trace never finds memory.
fn refuses_all<D: Disk, N: DeskId>(
    alloc: Global,
    core: Core<D>,
    calls: Blank,
    accepted: Blank,
) -> Found
    requires calls { (calls.name ≡ N.calls_name) × (calls.parts ≡ N.seats) }
    requires accepted { (accepted.name ≡ N.accepted_name) × (accepted.parts ≡ N.seats) }
    requires seats { N.seats ≡ 1 }
{
    let trace = Lacking {
        trace: Count::new(),
    };
    let made = Desk::<D, Lacking<Count>, N>::new(alloc, core, trace, 1, calls, accepted);
    let (mut desk, seats) = made.ok()?;
    let found = calls_and_settles(alloc, &mut desk, seats);
    drop(desk);
    found
}

#[test]
fn each_call_lacks_memory(rt: HostRuntime) -> Result<(), Fail> {
    let core = opened(rt.alloc())?;
    let found = refuses_all::<_, Brand>(rt.alloc(), core, Blank::new(1), Blank::new(1));
    same(&rt, &found, &REFUSED);
    Ok(())
}

// Whether memory runs out for a trace with room for this many calls, and how many commands the
// store has accepted then.
fn lacks_room<D: Disk>(alloc: Global, core: &Core<D>, most: u64) -> (bool, u64) {
    let made = Kept::new(alloc, core, most);
    (matches!(made, Err(Refusal::NoMemory)), core.count())
}

// How many commands and calls a new trace with room for three calls reports.
fn new_trace<D: Disk>(alloc: Global, core: &Core<D>) -> Option<(u64, usize)> {
    match Kept::new(alloc, core, 3) {
        Ok(trace) => Some((trace.count(), trace.calls().len())),
        Err(_) => None,
    }
}

// What a delete returns, what lacks memory then, and what a trace with room for three calls reports.
type Lacks = (Result<u64, u32>, [(bool, u64); 3], Option<(u64, usize)>);

// If memory runs out for a trace, the trace is refused and the store does not change. Then a trace
// with room for three calls is made.
const LACKS: Lacks = (Ok(1), [(true, 1); 3], Some((1, 0)));

fn lacks_places<D: Disk>(alloc: Global, core: &mut Core<D>) -> Lacks {
    let deleted = plain(core.delete(alloc, &key(1)));
    let lacking = [
        lacks_room(alloc, core, u64::MAX),
        lacks_room(alloc, core, 1 << 62),
        lacks_room(alloc, core, 1 << 58),
    ];
    (deleted, lacking, new_trace(alloc, core))
}

// A trace that needs more memory than there can be is refused.
#[test]
fn a_trace_lacks_memory(rt: HostRuntime) -> Result<(), Fail> {
    let mut core = opened(rt.alloc())?;
    let lacks = lacks_places(rt.alloc(), &mut core);
    drop(core);
    same(&rt, &lacks, &LACKS);
    Ok(())
}
