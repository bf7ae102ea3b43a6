// Messages to the workers: each that has work gets one, and none gets a second one for the same work.

use crate::same;
use crossbeam_channel::Receiver;
use silt_desk::{Due, Wake, Wakes};
use std::alloc::Global;
use std::sync::Wait;

// The ways to wake both workers, and where the converter and the merger get their messages.
fn both(alloc: Global) -> Option<(Wakes, Receiver<Wake>, Receiver<Wake>)> {
    let (converter, to_convert) = crossbeam_channel::bounded(alloc, 2).ok()?;
    let (merger, to_merge) = crossbeam_channel::bounded(alloc, 2).ok()?;
    Some((Wakes { converter, merger }, to_convert, to_merge))
}

// How many messages wait for a worker, and whether the first one is `Go`.
fn heard<R: Wait>(rt: &R, worker: &Receiver<Wake>) -> (usize, bool) {
    let count = worker.len();
    (count, worker.try_recv(rt) == Ok(Wake::Go))
}

// What both workers hear after two wakes, and then after a stop.
fn heard_by_both<R: Wait>(
    rt: &R,
    wakes: &Wakes,
    to_convert: &Receiver<Wake>,
    to_merge: &Receiver<Wake>,
) -> [(usize, bool); 4] {
    let due = Due {
        converts: true,
        merges: true,
        begins: true,
    };
    wakes.go(rt, due);
    wakes.go(rt, due);
    let (first, second) = (heard(rt, to_convert), heard(rt, to_merge));
    wakes.stop(rt);
    [first, second, heard(rt, to_convert), heard(rt, to_merge)]
}

fn heard_by_new<R: Wait>(rt: &R, alloc: Global) -> Option<[(usize, bool); 4]> {
    let (wakes, to_convert, to_merge) = both(alloc)?;
    Some(heard_by_both(rt, &wakes, &to_convert, &to_merge))
}

#[test]
fn both_workers_are_woken_once(rt: HostRuntime) {
    let due = [(1, true), (1, true), (1, false), (1, false)];
    same(&rt, &heard_by_new(&rt, rt.alloc()), &Some(due));
}

// How many messages each worker gets if this work is due.
fn printed<R: Wait>(rt: &R, alloc: Global, due: Due) -> Option<[usize; 2]> {
    let (wakes, to_convert, to_merge) = both(alloc)?;
    wakes.go(rt, due);
    Some([to_convert.len(), to_merge.len()])
}

// Work of the converter, and of a merger that begins or waits for more hash stores.
fn due_of(converts: bool, merges: bool, begins: bool) -> Due {
    Due {
        converts,
        merges,
        begins,
    }
}

// The same for no work, work of the converter, work of the merger, and work for which the merger waits.
fn printed_each<R: Wait>(rt: &R, alloc: Global) -> [Option<[usize; 2]>; 4] {
    [
        printed(rt, alloc, due_of(false, false, false)),
        printed(rt, alloc, due_of(true, false, false)),
        printed(rt, alloc, due_of(false, true, true)),
        printed(rt, alloc, due_of(false, true, false)),
    ]
}

#[test]
fn a_worker_without_work_is_left_asleep(rt: HostRuntime) {
    let due = [Some([0, 0]), Some([1, 0]), Some([0, 1]), Some([0, 0])];
    same(&rt, &printed_each(&rt, rt.alloc()), &due);
}
