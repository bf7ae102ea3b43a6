// Whether a look says that a crash keeps its answer, for keys in each of the stores.

use crate::life_lines::Line;
use crate::script::{Printed, ask, live_parts, repeated, replies_of};
use crate::support::same;
use silt_device::{Call, Disk, FaultDisk, MemDisk};
use silt_fixtures::{formatted, key, of_regions, opened_on, opened_with};
use silt_store_set::Core;
use std::alloc::Global;
use std::process::Abort;
use std::test::Fail;

// What a look says of a key: the value, 0 for none, and whether a crash keeps the answer. A refusal
// is its number.
type Seen = Result<(u16, bool), u32>;

// What a look at this key says, in an opened store of values of two bytes.
fn look<D: Disk>(core: &Core<D>, first: u8) -> Seen {
    if core.geometry().value_len() != 2 {
        return Err(0);
    }
    let mut out = [0; 2];
    match core.look(&key(first), &mut out) {
        Ok(look) => Ok((u16::from_be_bytes(out), look.is_settled)),
        Err(refusal) => Err(refusal.label().0),
    }
}

// What looks at the keys 1 to 6 say.
fn looks<D: Disk>(core: &Core<D>) -> [Seen; 6] {
    [
        look(core, 1),
        look(core, 2),
        look(core, 3),
        look(core, 4),
        look(core, 5),
        look(core, 6),
    ]
}

// Asks these lines, each this many times. A refusal is an error.
fn ask_all<D: Disk>(alloc: Global, core: &mut Core<D>, parts: &[(Line, u8)]) -> Result<(), Fail> {
    let lines = repeated(alloc, parts)?;
    for line in &lines {
        if let Printed::Refused(_) = ask(alloc, core, *line)? {
            return Err("refused".into());
        }
    }
    Ok(())
}

// What looks say after these lines.
fn looks_after(
    alloc: Global,
    mut core: Core<MemDisk>,
    parts: &[(Line, u8)],
) -> Result<[Seen; 6], Fail> {
    let asked = ask_all(alloc, &mut core, parts);
    let seen = looks(&core);
    drop(core);
    asked?;
    Ok(seen)
}

// In a new store whose logs have room for this many rows, looks after these lines say this.
fn says(
    rt: &impl Abort,
    alloc: Global,
    log_capacity: u32,
    parts: &[(Line, u8)],
    expected: [Seen; 6],
) -> Result<(), Fail> {
    let core = opened_with(alloc, of_regions(log_capacity, 2, 2, 16)?)?;
    let seen = looks_after(alloc, core, parts)?;
    same(rt, &seen, &expected);
    Ok(())
}

// Three puts are flushed. Behind them wait a delete, a put that gives its key the value that it has,
// and a put of a new key. The last two keys have no row.
const WAITING: [(Line, u8); 7] = [
    (Line::Put(1, 0x0101), 1),
    (Line::Put(2, 0x0202), 1),
    (Line::Put(3, 0x0303), 1),
    (Line::Flush, 1),
    (Line::Delete(2), 1),
    (Line::Put(3, 0x0303), 1),
    (Line::Put(4, 0x0404), 1),
];

#[test]
fn a_row_waits_until_a_flush(rt: HostRuntime) -> Result<(), Fail> {
    let expected = [
        Ok((0x0101, true)),
        Ok((0, false)),
        Ok((0x0303, false)),
        Ok((0x0404, false)),
        Ok((0, true)),
        Ok((0, true)),
    ];
    says(&rt, rt.alloc(), 8, &WAITING, expected)
}

#[test]
fn a_flush_settles_each_row(rt: HostRuntime) -> Result<(), Fail> {
    let flushed = with_one_more(rt.alloc(), &WAITING, (Line::Flush, 1))?;
    let expected = [
        Ok((0x0101, true)),
        Ok((0, true)),
        Ok((0x0303, true)),
        Ok((0x0404, true)),
        Ok((0, true)),
        Ok((0, true)),
    ];
    says(&rt, rt.alloc(), 8, &flushed, expected)
}

// These lines, and another one this many times.
fn with_one_more(
    alloc: Global,
    parts: &[(Line, u8)],
    more: (Line, u8),
) -> Result<Vec<(Line, u8)>, Fail> {
    let mut all = parts.to_vec(alloc)?;
    all.push(more)?;
    Ok(all)
}

// Four puts fill a log, and nothing flushes them. The fifth freezes the log, which settles its rows,
// and waits alone.
const FREEZES: [(Line, u8); 5] = [
    (Line::Put(1, 1), 1),
    (Line::Put(2, 2), 1),
    (Line::Delete(3), 1),
    (Line::Put(4, 4), 1),
    (Line::Put(5, 5), 1),
];

#[test]
fn a_freeze_settles_the_rows_of_its_log(rt: HostRuntime) -> Result<(), Fail> {
    let expected = [
        Ok((1, true)),
        Ok((2, true)),
        Ok((0, true)),
        Ok((4, true)),
        Ok((5, false)),
        Ok((0, true)),
    ];
    says(&rt, rt.alloc(), 4, &FREEZES, expected)
}

// A log of four rows is frozen and converted. In the other log are a row that is settled, a delete
// that waits, and a put that waits.
const CONVERTED: [(Line, u8); 9] = [
    (Line::Put(1, 1), 1),
    (Line::Put(2, 2), 1),
    (Line::Put(3, 3), 1),
    (Line::Put(4, 4), 1),
    (Line::Put(5, 5), 1),
    (Line::Flush, 1),
    (Line::Convert, 9),
    (Line::Delete(1), 1),
    (Line::Put(2, 9), 1),
];

const BESIDE_OLDER: [Seen; 6] = [
    Ok((0, false)),
    Ok((9, false)),
    Ok((3, true)),
    Ok((4, true)),
    Ok((5, true)),
    Ok((0, true)),
];

#[test]
fn rows_of_a_hash_store_are_settled(rt: HostRuntime) -> Result<(), Fail> {
    says(&rt, rt.alloc(), 4, &CONVERTED, BESIDE_OLDER)
}

// The same, and a merge of the hash store: a step for each of eight slots and of four keys, and the
// last one.
#[test]
fn entries_of_the_sorted_store_are_settled(rt: HostRuntime) -> Result<(), Fail> {
    let merged = with_one_more(rt.alloc(), &CONVERTED, (Line::Merge, 13))?;
    says(&rt, rt.alloc(), 4, &merged, BESIDE_OLDER)
}

// A row that was not flushed is gone after the next opening. All that is there is settled.
#[test]
fn all_is_settled_after_an_opening(rt: HostRuntime) -> Result<(), Fail> {
    let (disk, _) = live_parts(rt.alloc(), formatted(rt.alloc())?, &LEFT)?;
    let core = opened_on(rt.alloc(), disk)?;
    let seen = looks_after(rt.alloc(), core, &[])?;
    let expected = [
        Ok((1, true)),
        Ok((0, true)),
        Ok((0, true)),
        Ok((0, true)),
        Ok((0, true)),
        Ok((0, true)),
    ];
    same(&rt, &seen, &expected);
    Ok(())
}

const LEFT: [(Line, u8); 3] = [(Line::Put(1, 1), 1), (Line::Flush, 1), (Line::Put(2, 2), 1)];

// The opening makes sync 1, and the first sync of the flush fails. The store is failed then, and
// each look is refused.
#[test]
fn a_failed_store_refuses_each_look(rt: HostRuntime) -> Result<(), Fail> {
    let disk = FaultDisk::new(formatted(rt.alloc())?, Call::Sync, 2);
    let mut core = opened_on(rt.alloc(), disk)?;
    let printed = replies_of(rt.alloc(), &mut core, &[Line::Put(1, 1), Line::Flush]);
    let seen = looks(&core);
    drop(core);
    let last = printed?.last().copied();
    same(&rt, &last, &Some(Printed::Refused(5)));
    same(&rt, &seen, &[Err(9); 6]);
    Ok(())
}
