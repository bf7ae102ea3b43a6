// The lives that the tests write as lines, and how the tests write their replies.
ghost use Rattle.std.specs.Prelude.{All, IfOk};
ghost use Rattle.silt_event.specs.Events.{HasValueOf};

use crate::life_lines::{Line, event, events};
use crate::support::same_lists;
use silt_device::{Disk, FaultDisk, Geometry, MemDisk, MemFault};
use silt_fixtures::formatted_with;
use silt_store_set::{Core, Event, LifeReply, Progress, Reply, lives};
use std::alloc::{AllocError, Global};
use std::process::Abort;
use std::test::Fail;

/// How the tests write an opening or a reply. A refusal is written as its number.
#[derive(Clone, Copy, Debug, PartialEq, Eq)]
pub(crate) enum Printed {
    Opened,
    NotOpened(u32),
    Accepted(u64),
    Acknowledged(u64),
    Value(u8, u8),
    LongValue,
    Absent,
    Differs,
    Progress(Progress),
    Refused(u32),
    Other,
}

// Adds a line or a reply this many times.
fn add<T: Copy>(lines: &mut Vec<T>, line: T, count: u8) -> Result<(), AllocError> {
    for _ in 0..count {
        lines.push(line)?;
    }
    Ok(())
}

/// These lines or replies, each this many times.
pub(crate) fn repeated<T: Copy>(alloc: Global, parts: &[(T, u8)]) -> Result<Vec<T>, AllocError> {
    let mut lines = Vec::new(alloc);
    for (line, count) in parts {
        add(&mut lines, *line, *count)?;
    }
    Ok(lines)
}

/// These lines or replies, each this many times, and others after them.
pub(crate) fn repeated_with<T: Copy>(
    alloc: Global,
    parts: &[(T, u8)],
    others: &[T],
) -> Result<Vec<T>, AllocError> {
    let mut lines = repeated(alloc, parts)?;
    lines.extend_from_slice(others)?;
    Ok(lines)
}

// The event of a line, made once more if memory is refused.
fn event_twice(alloc: Global, line: Line) -> Result<Event, AllocError>
    ensures { IfOk result (HasValueOf 2) }
{
    match event(alloc, line) {
        Ok(made) => Ok(made),
        Err(_) => event(alloc, line),
    }
}

/// The events of a life, made once more if memory is refused.
pub(crate) fn events_twice(alloc: Global, lines: &[Line]) -> Result<Vec<Event>, AllocError>
    ensures { IfOk result (λ events. All (HasValueOf 2) events.items) }
{
    match events(alloc, lines) {
        Ok(made) => Ok(made),
        Err(_) => events(alloc, lines),
    }
}

/// The events of each life, made once more if memory is refused.
pub(crate) fn all_events_twice(
    alloc: Global,
    all: &[&[Line]],
) -> Result<Vec<Vec<Event>>, AllocError>
    ensures { IfOk result (λ lives. All (λ life. All (HasValueOf 2) life.items) lives.items) }
{
    match all_events(alloc, all) {
        Ok(made) => Ok(made),
        Err(_) => all_events(alloc, all),
    }
}

// The events of each life.
fn all_events(alloc: Global, all: &[&[Line]]) -> Result<Vec<Vec<Event>>, AllocError>
    ensures { IfOk result (λ lives. All (λ life. All (HasValueOf 2) life.items) lives.items) }
{
    let mut lives = Vec::new(alloc);
    for lines in all {
        let events = events(alloc, lines)?;
        lives.push(events)?;
    }
    Ok(lives)
}

fn printed_value(bytes: &[u8]) -> Printed {
    match bytes {
        [first, last] => Printed::Value(*first, *last),
        _ => Printed::LongValue,
    }
}

/// How the tests write a reply.
pub(crate) fn print_reply<F: Drop>(reply: &Reply<F>) -> Printed {
    match reply {
        Reply::Accepted(n) => Printed::Accepted(*n),
        Reply::Acknowledged(n) => Printed::Acknowledged(*n),
        Reply::Found(value) => printed_value(value.as_slice()),
        Reply::Absent => Printed::Absent,
        Reply::Differs => Printed::Differs,
        Reply::Progress(progress) => Printed::Progress(*progress),
        Reply::Refused(refusal) => Printed::Refused(refusal.label().0),
        Reply::Unsettled(_) | Reply::NotServed => Printed::Other,
    }
}

// Adds these replies to those before.
fn print<F: Drop>(
    printed_before: &mut Vec<Printed>,
    replies: &[Reply<F>],
) -> Result<(), AllocError> {
    for reply in replies {
        printed_before.push(print_reply(reply))?;
    }
    Ok(())
}

// Adds the replies of a life to those before.
fn print_life(printed: &mut Vec<Printed>, life: &LifeReply<MemFault>) -> Result<(), AllocError> {
    match life {
        LifeReply::NotOpened(refusal) => Ok(printed.push(Printed::NotOpened(refusal.label().0))?),
        LifeReply::Opened(replies) => {
            printed.push(Printed::Opened)?;
            print(printed, replies)
        }
    }
}

// The replies of all lives, one after the other.
fn print_lives(alloc: Global, lives: &[LifeReply<MemFault>]) -> Result<Vec<Printed>, AllocError> {
    let mut printed = Vec::new(alloc);
    for life in lives {
        print_life(&mut printed, life)?;
    }
    Ok(printed)
}

/// The replies to lives with values of two bytes, on this disk.
pub(crate) fn printed_lives(
    alloc: Global,
    disk: MemDisk,
    all: &[&[Line]],
) -> Result<Vec<Printed>, AllocError> {
    let all = all_events(alloc, all)?;
    let replies = lives(alloc, disk, 2, &all)?;
    print_lives(alloc, &replies)
}

/// The replies to these events, or no replies if the store has values of another length.
pub(crate) fn run<D: Disk>(
    alloc: Global,
    core: &mut Core<D>,
    value_len: u32,
    events: &[Event],
) -> Result<Vec<Reply<D::Fault>>, AllocError>
    requires { All (HasValueOf value_len) events.now }
{
    if core.geometry().value_len() != value_len {
        return Ok(Vec::new(alloc));
    }
    core.run(alloc, events)
}

// The reply to an event, if the store has values of this length.
fn printed_of<D: Disk>(alloc: Global, core: &mut Core<D>, value_len: u32, event: &Event) -> Printed
    requires { HasValueOf value_len event.now }
{
    if core.geometry().value_len() != value_len {
        return Printed::Other;
    }
    print_reply(&core.answer(alloc, event))
}

/// The reply to a line, in an opened store of values of two bytes. Its event is made once more if
/// memory is refused.
pub(crate) fn ask<D: Disk>(
    alloc: Global,
    core: &mut Core<D>,
    line: Line,
) -> Result<Printed, AllocError> {
    let event = event_twice(alloc, line)?;
    let printed = printed_of(alloc, core, 2, &event);
    drop(event);
    Ok(printed)
}

// The replies to the events of these lines, in an opened store of values of two bytes.
fn answers<D: Disk>(
    alloc: Global,
    core: &mut Core<D>,
    lines: &[Line],
) -> Result<Vec<Reply<D::Fault>>, AllocError> {
    let events = events(alloc, lines)?;
    run(alloc, core, 2, &events)
}

// Adds the replies to these lines, in an opened store of values of two bytes, to those before.
fn print_events<D: Disk>(
    alloc: Global,
    core: &mut Core<D>,
    lines: &[Line],
    printed_before: &mut Vec<Printed>,
) -> Result<(), AllocError> {
    let replies = answers(alloc, core, lines)?;
    print(printed_before, &replies)
}

/// The replies to these lines, in an opened store of values of two bytes on a disk on which one
/// call fails.
pub(crate) fn replies_of(
    alloc: Global,
    core: &mut Core<FaultDisk>,
    lines: &[Line],
) -> Result<Vec<Printed>, AllocError> {
    let mut printed = Vec::new(alloc);
    print_events(alloc, core, lines, &mut printed)?;
    Ok(printed)
}

// `Opened` and the replies to these lines.
fn printed_from<D: Disk>(
    alloc: Global,
    core: &mut Core<D>,
    lines: &[Line],
) -> Result<Vec<Printed>, AllocError> {
    let mut printed = Vec::new(alloc);
    printed.push(Printed::Opened)?;
    print_events(alloc, core, lines, &mut printed)?;
    Ok(printed)
}

// Joins a disk and the replies of its store.
fn with_disk(
    disk: MemDisk,
    printed: Result<Vec<Printed>, AllocError>,
) -> Result<(MemDisk, Vec<Printed>), AllocError> {
    Ok((disk, printed?))
}

/// Runs one life with values of two bytes on this disk: the disk as it is before any crash, and the
/// replies.
pub(crate) fn live(
    alloc: Global,
    disk: MemDisk,
    lines: &[Line],
) -> Result<(MemDisk, Vec<Printed>), AllocError> {
    match Core::open(alloc, disk) {
        Ok(mut core) => {
            let printed = printed_from(alloc, &mut core, lines);
            with_disk(core.close(), printed)
        }
        Err(fault) => {
            let printed = Printed::NotOpened(fault.refusal.label().0);
            with_disk(fault.disk, repeated(alloc, &[(printed, 1)]))
        }
    }
}

/// Runs a life of these lines, each this many times.
pub(crate) fn live_parts(
    alloc: Global,
    disk: MemDisk,
    parts: &[(Line, u8)],
) -> Result<(MemDisk, Vec<Printed>), AllocError> {
    let lines = repeated(alloc, parts)?;
    live(alloc, disk, &lines)
}

/// Runs that life, which gets these replies.
pub(crate) fn lived(
    rt: &impl Abort,
    alloc: Global,
    disk: MemDisk,
    lines: &[Line],
    expected: &[Printed],
) -> Result<MemDisk, AllocError> {
    let (disk, printed) = live(alloc, disk, lines)?;
    are_same(rt, &printed, expected);
    Ok(disk)
}

fn are_same(rt: &impl Abort, printed: &[Printed], expected: &[Printed]) {
    same_lists(rt, printed, expected);
}

/// The replies to one life of values of two bytes, on a new disk of this geometry.
pub(crate) fn printed_of_life(
    alloc: Global,
    geometry: Geometry,
    lines: &[Line],
) -> Result<Vec<Printed>, Fail> {
    let (_, printed) = live(alloc, formatted_with(alloc, geometry)?, lines)?;
    Ok(printed)
}

/// One life of values of two bytes, on a new disk of this geometry, gets these replies.
pub(crate) fn is_answered(
    rt: &impl Abort,
    alloc: Global,
    geometry: Geometry,
    lines: &[Line],
    expected: &[Printed],
) -> Result<(), Fail> {
    let printed = printed_of_life(alloc, geometry, lines)?;
    same_lists(rt, &printed, expected);
    Ok(())
}
