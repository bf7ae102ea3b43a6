// What a life may keep, and how the next lives go on from there.

use crate::life_lines::Line;
use crate::lines::IDLE;
use crate::script::{Printed, live, repeated};
use crate::support::{entries_of, same};
use silt_device::{Geometry, MemDisk, Stoppable};
use silt_recovery::check;
use std::alloc::{AllocError, Global};
use std::process::Abort;
use std::test::Fail;

// The key that a line changes, and its new value, 0 for none. A swap changes nothing if the key has
// another value than the old one.
fn change_by(line: Line, values: [u16; 8]) -> Option<(usize, u16)> {
    match line {
        Line::Put(first, last) => Some((first as usize, last)),
        Line::Delete(first) => Some((first as usize, 0)),
        Line::Swap(first, old, new) => {
            let is_old = values.get(first as usize) == Some(&old);
            is_old.then_some((first as usize, new))
        }
        _ => None,
    }
}

/// The values of the keys 0 to 7, 0 for none, after this many of the commands.
pub(crate) fn after(lines: &[Line], mut commands: u64) -> [u16; 8] {
    let mut values = [0; 8];
    for line in lines {
        let Some((place, last)) = change_by(*line, values) else {
            continue;
        };
        if commands == 0 {
            break;
        }
        commands -= 1;
        if let Some(value) = values.get_mut(place) {
            *value = last;
        }
    }
    values
}

// How many commands were accepted.
fn accepted(printed: &[Printed]) -> u64 {
    let mut count = 0;
    for reply in printed {
        if let Printed::Accepted(n) = reply {
            count = *n;
        }
    }
    count
}

// How many commands were acknowledged.
fn acknowledged(printed: &[Printed]) -> u64 {
    let mut count = 0;
    for reply in printed {
        if let Printed::Acknowledged(n) = reply {
            count = *n;
        }
    }
    count
}

/// Whether the entries are those after the first commands: all acknowledged ones, and perhaps some
/// that were only accepted.
pub(crate) fn is_kept(lines: &[Line], printed: &[Printed], found: [u16; 8]) -> bool {
    for commands in acknowledged(printed)..accepted(printed).saturating_add(1) {
        if after(lines, commands) == found {
            return true;
        }
    }
    false
}

// The reply that is due to a put at the beginning of a life on this disk. It is refused if the
// store is full, or if neither the active log nor another one has room.
fn printed_of_put(alloc: Global, disk: &MemDisk, geometry: Geometry) -> Result<Printed, Fail> {
    let report = check(alloc, disk).ok().ok_or("is whole")?;
    if report.charge >= geometry.sorted_capacity() {
        return Ok(Printed::Refused(7));
    }
    let in_active = report.active_rows < geometry.log_capacity();
    let in_another = report.frozen.saturating_add(1) < geometry.logs();
    if in_active | in_another {
        return Ok(Printed::Accepted(1));
    }
    Ok(Printed::Refused(8))
}

// A put of key 7 and a flush, and then this many steps of conversion and of merging in turn.
fn put_and_steps(alloc: Global, value: u16, steps: u32) -> Result<Vec<Line>, AllocError> {
    let mut lines = repeated(alloc, &[(Line::Put(7, value), 1), (Line::Flush, 1)])?;
    for _ in 0..steps {
        lines.extend_from_slice(&[Line::Convert, Line::Merge])?;
    }
    Ok(lines)
}

// Runs a life of these lines.
fn lived_with_put(
    alloc: Global,
    disk: MemDisk,
    value: u16,
    steps: u32,
) -> Result<(MemDisk, Vec<Printed>), AllocError> {
    let lines = put_and_steps(alloc, value, steps)?;
    live(alloc, disk, &lines)
}

// The values after this reply to a put of key 7, and how many commands the next flush acknowledges.
fn with_put(reply: Printed, value: u16, mut found: [u16; 8]) -> ([u16; 8], u64) {
    if reply == Printed::Accepted(1) {
        found[7] = value;
        return (found, 1);
    }
    (found, 0)
}

// The life got these replies. Its last step of each kind, if it has steps, found nothing to do.
fn has_grown(rt: &impl Abort, printed: &[Printed], expected: &[Printed], steps: u32) {
    assert!(rt; printed.starts_with(expected), "{printed:?}");
    assert!(rt;
        steps == 0 || printed.ends_with(&[IDLE, IDLE]),
        "{printed:?}"
    );
}

// Runs a life of a put of key 7, a flush and this many steps of both kinds. Returns the disk and
// the values that it should now have.
fn grown(
    rt: &impl Abort,
    alloc: Global,
    disk: MemDisk,
    geometry: Geometry,
    (value, steps): (u16, u32),
    found: [u16; 8],
) -> Result<(MemDisk, [u16; 8]), Fail> {
    let reply = printed_of_put(alloc, &disk, geometry)?;
    let (stands, kept) = with_put(reply, value, found);
    let expected = [Printed::Opened, reply, Printed::Acknowledged(kept)];
    let disk = grown_as(rt, alloc, disk, (value, steps), &expected)?;
    Ok((disk, stands))
}

// Runs that life, whose first replies are these.
fn grown_as(
    rt: &impl Abort,
    alloc: Global,
    disk: MemDisk,
    (value, steps): (u16, u32),
    expected: &[Printed],
) -> Result<MemDisk, AllocError> {
    let (disk, printed) = lived_with_put(alloc, disk, value, steps)?;
    has_grown(rt, &printed, expected, steps);
    Ok(disk)
}

/// Goes on from a store with these entries. One life puts, flushes and crashes. The next one puts,
/// flushes, does all background work and crashes. The values are compared after each, and before
/// the last crash too.
pub(crate) fn goes_on(
    rt: &impl Abort,
    alloc: Global,
    disk: MemDisk,
    geometry: Geometry,
    found: [u16; 8],
) -> Result<(), Fail> {
    let (disk, stands) = grown(rt, alloc, disk, geometry, (9, 0), found)?;
    let disk = has_still(rt, alloc, disk.restart(), stands)?;
    let (disk, stands) = grown(rt, alloc, disk, geometry, (10, 60), stands)?;
    stays(rt, alloc, disk, stands)
}

// The store on the disk has these values, and has them after a crash.
fn stays(rt: &impl Abort, alloc: Global, disk: MemDisk, stands: [u16; 8]) -> Result<(), Fail> {
    let disk = has_still(rt, alloc, disk, stands)?;
    drop(has_still(rt, alloc, disk.restart(), stands)?);
    Ok(())
}

// The store on the disk has these values.
fn has_still(
    rt: &impl Abort,
    alloc: Global,
    disk: MemDisk,
    stands: [u16; 8],
) -> Result<MemDisk, Fail> {
    let (disk, left) = entries_of(alloc, disk)?;
    same(rt, &left, &stands);
    Ok(disk)
}
