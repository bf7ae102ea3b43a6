// Calls that are refused a request for memory. Each returns NoMemory and changes nothing, and a
// second try succeeds. These tests pass whichever one of their requests is refused, and also if
// none is. docs/testing.md says how to refuse each in turn.
ghost use Rattle.std.specs.Prelude.{All, IfOk};
ghost use Rattle.silt_event.specs.Events.{HasValueOf};

use crate::kept::after;
use crate::life_lines::Line;
use crate::lines::{
    CONVERTED_MEANWHILE, CONVERTED_MEANWHILE_TOLD, SWAP_MEANWHILE, SWAP_MEANWHILE_FOR_NONE,
    of_three_hash_stores,
};
use crate::script::{
    Printed, all_events_twice, ask, events_twice, print_reply, repeated_with, run,
};
use crate::support::{self, are_zeros, same, same_in, values_of, with_values};
use silt_device::{Geometry, MemDisk, MemFault};
use silt_event::Report;
use silt_fixtures::{opened_on, small};
use silt_recovery::{FormatError, FormatFault, OpenError, check, format};
use silt_store_set::{Core, Event, LifeReply, OpenFault, Refusal, Reply, lives};
use std::alloc::{AllocError, Global};
use std::process::Abort;
use std::test::Fail;

// These lines or replies, each this many times, and others after them. A refused request is made
// once more.
fn repeated_twice<T: Copy>(
    alloc: Global,
    parts: &[(T, u8)],
    others: &[T],
) -> Result<Vec<T>, AllocError> {
    match repeated_with(alloc, parts, others) {
        Ok(lines) => Ok(lines),
        Err(_) => repeated_with(alloc, parts, others),
    }
}

// A disk of zeros. A refused request is made once more.
fn zeros(alloc: Global, geometry: Geometry) -> Result<MemDisk, Fail> {
    match MemDisk::new(alloc, geometry.size() as usize) {
        Ok(disk) => Ok(disk),
        Err(_) => Ok(MemDisk::new(alloc, geometry.size() as usize)?),
    }
}

// A formatted disk. If the formatting is out of memory, it has changed no byte, and is made once
// more.
fn formatted(rt: &impl Abort, alloc: Global, geometry: Geometry) -> Result<MemDisk, Fail> {
    match format(alloc, zeros(alloc, geometry)?, geometry) {
        Ok(disk) => Ok(disk),
        Err(fault) => formatted_after(rt, alloc, fault, geometry),
    }
}

// Formats the disk of a formatting that was out of memory.
fn formatted_after(
    rt: &impl Abort,
    alloc: Global,
    fault: FormatFault<MemDisk>,
    geometry: Geometry,
) -> Result<MemDisk, Fail> {
    lacked_to_format(rt, &fault.error);
    is_blank(rt, &fault.disk);
    format_once(alloc, fault.disk, geometry)
}

fn format_once(alloc: Global, disk: MemDisk, geometry: Geometry) -> Result<MemDisk, Fail> {
    Ok(format(alloc, disk, geometry).ok().ok_or("formats")?)
}

fn is_blank(rt: &impl Abort, disk: &MemDisk) {
    assert!(rt; are_zeros(disk.shown()));
}

// A formatting was out of memory.
fn lacked_to_format(rt: &impl Abort, error: &FormatError<MemFault>) {
    assert!(rt; matches!(error, FormatError::NoMemory));
}

// A call was out of memory.
fn lacked(rt: &impl Abort, refusal: &Refusal<MemFault>) {
    assert!(rt; matches!(refusal, Refusal::NoMemory));
}

// A check was out of memory.
fn lacked_to_check(rt: &impl Abort, error: &OpenError<MemFault>) {
    assert!(rt; matches!(error, OpenError::NoMemory));
}

// The store on this disk, which is opened once more if the opening is out of memory.
fn opened(rt: &impl Abort, alloc: Global, disk: MemDisk) -> Result<Core<MemDisk>, Fail> {
    match Core::open(alloc, disk) {
        Ok(core) => Ok(core),
        Err(fault) => opened_after(rt, alloc, fault),
    }
}

// Opens the disk of an opening that was out of memory.
fn opened_after(
    rt: &impl Abort,
    alloc: Global,
    fault: OpenFault<MemDisk>,
) -> Result<Core<MemDisk>, Fail> {
    lacked(rt, &fault.refusal);
    opened_on(alloc, fault.disk)
}

// The report of a check of this disk, which is made once more if it is out of memory.
fn checked(rt: &impl Abort, alloc: Global, disk: &MemDisk) -> Result<Report, Fail> {
    match check(alloc, disk) {
        Ok(report) => Ok(report),
        Err(error) => {
            lacked_to_check(rt, &error);
            check_once(alloc, disk)
        }
    }
}

fn check_once(alloc: Global, disk: &MemDisk) -> Result<Report, Fail> {
    Ok(check(alloc, disk).ok().ok_or("is whole")?)
}

// The values of the keys 0 to 7 in the list of the entries. A list that is out of memory is asked
// for once more.
fn listed(rt: &impl Abort, alloc: Global, core: &Core<MemDisk>) -> Result<[u16; 8], Fail> {
    match core.entries(alloc) {
        Ok(entries) => Ok(values_of(&entries)),
        Err(refusal) => {
            lacked(rt, &refusal);
            support::listed(alloc, core)
        }
    }
}

// The reply to a line in a store with these values. If the call is out of memory, the values are as
// before, and it is made once more.
fn asked(
    rt: &impl Abort,
    alloc: Global,
    core: &mut Core<MemDisk>,
    line: Line,
    values: [u16; 8],
) -> Result<Printed, Fail> {
    let count = core.count();
    let printed = ask(alloc, core, line)?;
    if printed != Printed::Refused(6) {
        return Ok(printed);
    }
    counts(rt, alloc, core, (count, values))?;
    Ok(ask(alloc, core, line)?)
}

// The store counts this many commands and has these values.
fn counts(
    rt: &impl Abort,
    alloc: Global,
    core: &Core<MemDisk>,
    expected: (u64, [u16; 8]),
) -> Result<(), Fail> {
    let found = listed(rt, alloc, core)?;
    same(rt, &(core.count(), found), &expected);
    Ok(())
}

// A store on a new disk of this geometry.
fn made(rt: &impl Abort, alloc: Global, geometry: Geometry) -> Result<Core<MemDisk>, Fail> {
    let disk = formatted(rt, alloc, geometry)?;
    opened(rt, alloc, disk)
}

// Each call succeeds at its first or second try: format, opening, check, the list of the entries,
// and the events of a life. In this life logs are frozen, converted and merged, and two swaps
// freeze one more each, the second for a delete's row.
#[test]
fn each_call_lacks_memory(rt: HostRuntime) -> Result<(), Fail> {
    let alloc = rt.alloc();
    let mut core = made(&rt, alloc, of_three_hash_stores()?)?;
    let values = all_done(&rt, alloc, &mut core);
    let (disk, values) = with_values(core.close(), values)?;
    is_found_again(&rt, alloc, disk, values)
}

// Asks all lines of that life, and returns the values that they leave.
fn all_done(rt: &impl Abort, alloc: Global, core: &mut Core<MemDisk>) -> Result<[u16; 8], Fail> {
    let values = all_lines_done(rt, alloc, core)?;
    has_flushed(rt, alloc, core, values)?;
    Ok(values)
}

fn all_lines_done(
    rt: &impl Abort,
    alloc: Global,
    core: &mut Core<MemDisk>,
) -> Result<[u16; 8], Fail> {
    let swaps = [SWAP_MEANWHILE, SWAP_MEANWHILE_FOR_NONE];
    let told = [Printed::Accepted(5), Printed::Accepted(6)];
    let lines = repeated_twice(alloc, &CONVERTED_MEANWHILE, &swaps)?;
    let replies = repeated_twice(alloc, &CONVERTED_MEANWHILE_TOLD, &told)?;
    all_asked(rt, alloc, core, &lines, &replies)?;
    Ok(after(&lines, u64::MAX))
}

// A flush acknowledges the six commands of that life, and the store has these values.
fn has_flushed(
    rt: &impl Abort,
    alloc: Global,
    core: &mut Core<MemDisk>,
    values: [u16; 8],
) -> Result<(), Fail> {
    same(rt, &core.flush().ok(), &Some(6));
    lists(rt, alloc, core, values)
}

// The list of the entries has these values.
fn lists(
    rt: &impl Abort,
    alloc: Global,
    core: &Core<MemDisk>,
    values: [u16; 8],
) -> Result<(), Fail> {
    let found = listed(rt, alloc, core)?;
    same(rt, &found, &values);
    Ok(())
}

// Asks all lines of a life and compares the replies.
fn all_asked(
    rt: &impl Abort,
    alloc: Global,
    core: &mut Core<MemDisk>,
    lines: &[Line],
    due: &[Printed],
) -> Result<(), Fail> {
    for (index, line) in lines.iter().enumerate() {
        let values = after(&lines[..lines.len().min(index)], u64::MAX);
        let printed = asked(rt, alloc, core, *line, values)?;
        same_in(rt, &Some(&printed), &due.get(index), &index);
    }
    Ok(())
}

// The disk has two hash stores and a sorted entry.
fn has_merged(rt: &impl Abort, alloc: Global, disk: &MemDisk) -> Result<(), Fail> {
    let report = checked(rt, alloc, disk)?;
    same(rt, &(report.hashes, report.entries), &(2, 1));
    Ok(())
}

// The disk has two hash stores and a sorted entry, and its store has these values.
fn is_found_again(
    rt: &impl Abort,
    alloc: Global,
    disk: MemDisk,
    values: [u16; 8],
) -> Result<(), Fail> {
    has_merged(rt, alloc, &disk)?;
    let core = opened(rt, alloc, disk)?;
    let listed = lists(rt, alloc, &core, values);
    drop(core);
    listed
}

// Three commands that freeze no log, and gets. Only a get may be out of memory in its place.
const PLAIN: [(Line, u8); 6] = [
    (Line::Put(1, 1), 1),
    (Line::Get(1), 2),
    (Line::Put(2, 2), 1),
    (Line::Delete(1), 1),
    (Line::Get(2), 2),
    (Line::Flush, 1),
];

const PLAIN_TOLD: [(Printed, u8); 6] = [
    (Printed::Accepted(1), 1),
    (Printed::Value(0, 1), 2),
    (Printed::Accepted(2), 1),
    (Printed::Accepted(3), 1),
    (Printed::Value(0, 2), 2),
    (Printed::Acknowledged(3), 1),
];

// The events of those puts and gets.
fn plain_events(alloc: Global) -> Result<Vec<Event>, Fail>
    ensures { IfOk result (λ events. All (HasValueOf 2) events.items) }
{
    let lines = repeated_twice(alloc, &PLAIN, &[])?;
    Ok(events_twice(alloc, &lines)?)
}

// Runs these events, and compares the replies and the values that they leave.
fn run_plain(rt: &impl Abort, alloc: Global, core: &mut Core<MemDisk>) -> Result<(), Fail> {
    answers_plain(rt, alloc, core)?;
    lists(rt, alloc, core, [0, 0, 2, 0, 0, 0, 0, 0])
}

fn answers_plain(rt: &impl Abort, alloc: Global, core: &mut Core<MemDisk>) -> Result<(), Fail> {
    let answers = ran_plain(rt, alloc, core)?;
    are_plain(rt, alloc, &answers)
}

fn ran_plain(
    rt: &impl Abort,
    alloc: Global,
    core: &mut Core<MemDisk>,
) -> Result<Vec<Reply<MemFault>>, Fail> {
    let events = plain_events(alloc)?;
    run_again(rt, alloc, core, &events)
}

// These are the replies, with at most one get out of memory.
fn are_plain(rt: &impl Abort, alloc: Global, answers: &[Reply<MemFault>]) -> Result<(), Fail> {
    let replies = repeated_twice(alloc, &PLAIN_TOLD, &[])?;
    same(rt, &answers.len(), &replies.len());
    assert!(rt; gets_lacking(rt, answers, &replies) < 2);
    Ok(())
}

// If memory is refused to a run of events, either the run does nothing, or one of its gets is
// refused.
#[test]
fn a_run_lacks_memory(rt: HostRuntime) -> Result<(), Fail> {
    let alloc = rt.alloc();
    let mut core = made(&rt, alloc, small()?)?;
    let ran = run_plain(&rt, alloc, &mut core);
    drop(core);
    ran
}

// The replies to these events. A run that is out of memory has done none of them, and is made once
// more.
fn run_again(
    rt: &impl Abort,
    alloc: Global,
    core: &mut Core<MemDisk>,
    events: &[Event],
) -> Result<Vec<Reply<MemFault>>, Fail>
    requires { All (HasValueOf 2) events.now }
{
    match run(alloc, core, 2, events) {
        Ok(answers) => Ok(answers),
        Err(_) => {
            counts(rt, alloc, core, (0, [0; 8]))?;
            Ok(run(alloc, core, 2, events)?)
        }
    }
}

// 1 if a get is out of memory, else 0 after a comparison of the reply with the one that is due.
fn lacks(rt: &impl Abort, printed: Printed, expected: Printed) -> u32 {
    if printed != Printed::Refused(6) {
        same(rt, &printed, &expected);
        return 0;
    }
    assert!(rt; matches!(expected, Printed::Value(..)));
    1
}

// How many gets are out of memory. All other replies are those that are due.
fn gets_lacking(rt: &impl Abort, answers: &[Reply<MemFault>], due: &[Printed]) -> u32 {
    let mut lacking = 0u32;
    for (answer, expected) in answers.iter().zip(due.iter()) {
        lacking = lacking.saturating_add(lacks(rt, print_reply(answer), *expected));
    }
    lacking
}

// How the tests write the last reply of a life, or of its opening.
fn printed_last<F: Drop>(life: &LifeReply<F>) -> Printed {
    match life {
        LifeReply::NotOpened(refusal) => Printed::NotOpened(refusal.label().0),
        LifeReply::Opened(replies) => match replies.last() {
            Some(reply) => print_reply(reply),
            None => Printed::Opened,
        },
    }
}

// The last reply to each of these two lives, or none if memory ran out before the first one.
fn printed_of_two(
    rt: &impl Abort,
    alloc: Global,
    disk: MemDisk,
    all: &[&[Line]],
) -> Result<Option<(Printed, Printed)>, Fail> {
    let all = all_events_twice(alloc, all)?;
    match lives(alloc, disk, 2, &all) {
        Ok(replies) => Ok(Some(last_of_two(rt, &replies))),
        Err(_) => Ok(None),
    }
}

fn last_of_two(rt: &impl Abort, replies: &[LifeReply<MemFault>]) -> (Printed, Printed) {
    assert!(rt; replies.len() == 2);
    (printed_last(&replies[0]), printed_last(&replies[1]))
}

// One of two lives, or the get of the second, may be out of memory. If it is the first life, the
// get finds nothing.
fn one_lacks(rt: &impl Abort, first: Printed, second: Printed) {
    if first == Printed::NotOpened(6) {
        same(rt, &second, &Printed::Absent);
        return;
    }
    same(rt, &first, &Printed::Acknowledged(1));
    let expected = [
        Printed::Value(0, 1),
        Printed::Refused(6),
        Printed::NotOpened(6),
    ];
    assert!(rt; expected.contains(&second), "{second:?}");
}

const PUT_AND_GET: [&[Line]; 2] = [&[Line::Put(1, 1), Line::Flush], &[Line::Get(1)]];

fn printed_of_put_and_get(
    rt: &impl Abort,
    alloc: Global,
) -> Result<Option<(Printed, Printed)>, Fail> {
    let disk = formatted(rt, alloc, small()?)?;
    printed_of_two(rt, alloc, disk, &PUT_AND_GET)
}

// The first of two lives puts and flushes, the second gets. If memory is refused, no life begins,
// or one of them is not opened, or the get is refused.
#[test]
fn a_life_lacks_memory(rt: HostRuntime) -> Result<(), Fail> {
    let printed = printed_of_put_and_get(&rt, rt.alloc())?;
    if let Some((first, second)) = printed {
        one_lacks(&rt, first, second);
    }
    Ok(())
}
