// The store after a failed write of a row, and the list of its entries.

use crate::support::{same, same_in, values_of, values_on};
use silt_device::{Call, FaultDisk, MemDisk, MemFault};
use silt_fixtures::{formatted, key, of_regions, opened_on, opened_with};
use silt_store_set::{Core, Refusal};
use std::alloc::Global;
use std::process::Abort;
use std::test::Fail;

// A store of the small geometry on a disk on which one call fails. The calls of the opening count
// too.
fn faulty(alloc: Global, call: Call, number: u64) -> Result<Core<FaultDisk>, Fail> {
    opened_on(alloc, FaultDisk::new(formatted(alloc)?, call, number))
}

// A store of values of two bytes that may have this many sorted entries.
fn of_capacity(alloc: Global, sorted_capacity: u32) -> Result<Core<MemDisk>, Fail> {
    opened_with(alloc, of_regions(4, 2, 2, sorted_capacity)?)
}

// The count that a call returned, or the number of the refusal.
fn answer<T>(answered: Result<T, Refusal<MemFault>>) -> Result<T, u32> {
    match answered {
        Ok(count) => Ok(count),
        Err(refusal) => Err(refusal.label().0),
    }
}

// Puts a value of two bytes. The first byte is 0.
fn put(
    rt: &impl Abort,
    alloc: Global,
    core: &mut Core<MemDisk>,
    first: u8,
    last: u8,
) -> Result<u64, u32> {
    assert!(rt; core.geometry().value_len() == 2);
    answer(core.put(alloc, &key(first), &[0, last]))
}

// Deletes a key.
fn deleted(alloc: Global, core: &mut Core<MemDisk>, first: u8) -> Result<u64, u32> {
    answer(core.delete(alloc, &key(first)))
}

// The number of the refusal, 0 if there is none.
fn refused<T: Drop>(answered: Result<T, Refusal<MemFault>>) -> u32 {
    match answered {
        Ok(_) => 0,
        Err(refusal) => refusal.label().0,
    }
}

/// Every call of a failed store is refused with the number of Failed.
pub(crate) fn is_failed(rt: &impl Abort, alloc: Global, core: &mut Core<FaultDisk>) {
    assert!(rt; core.geometry().value_len() == 2);
    let mut out = [7; 2];
    let printed = [
        refused(core.get(&key(1), &mut out)),
        refused(core.put(alloc, &key(1), &[0, 2])),
        refused(core.delete(alloc, &key(1))),
        refused(core.swap(alloc, &key(1), Some(&[0, 5]), Some(&[0, 6]))),
        refused(core.swap(alloc, &key(1), Some(&[0, 9]), Some(&[0, 6]))),
        refused(core.swap(alloc, &key(1), None, Some(&[0, 6]))),
        refused(core.swap(alloc, &key(1), Some(&[0, 5]), None)),
    ];
    same(rt, &printed, &[9; 7]);
    does_no_work(rt, alloc, core);
}

// Every call of a failed store that takes no key is refused too.
fn does_no_work(rt: &impl Abort, alloc: Global, core: &mut Core<FaultDisk>) {
    let printed = [
        refused(core.flush()),
        refused(core.convert(alloc)),
        refused(core.merge(alloc)),
        refused(core.entries(alloc)),
    ];
    same(rt, &printed, &[9; 4]);
}

// The list has this many entries, and these are the values of the keys 0 to 7 in it.
fn lists(rt: &impl Abort, alloc: Global, core: &Core<MemDisk>, count: usize, values: [u16; 8]) {
    same(rt, &listed(alloc, core), &Some((count, values)));
}

// The number of entries in the list, and the values of the keys 0 to 7 in it, if it is not refused.
fn listed(alloc: Global, core: &Core<MemDisk>) -> Option<(usize, [u16; 8])> {
    match core.entries(alloc) {
        Ok(entries) => Some((entries.len(), values_of(&entries))),
        Err(_) => None,
    }
}

// A put is flushed. Then the next put or delete fails, and so does the store.
fn row_fails(rt: &impl Abort, alloc: Global, core: &mut Core<FaultDisk>, deletes: bool) {
    assert!(rt; core.geometry().value_len() == 2);
    same(rt, &answer(core.put(alloc, &key(1), &[0, 5])), &Ok(1));
    same(rt, &answer(core.flush()), &Ok(1));
    same(rt, &next_row(rt, alloc, core, deletes), &Err(5));
    is_failed(rt, alloc, core);
}

// The answer to a delete of that key, or to another put.
fn next_row(
    rt: &impl Abort,
    alloc: Global,
    core: &mut Core<FaultDisk>,
    deletes: bool,
) -> Result<u64, u32> {
    assert!(rt; core.geometry().value_len() == 2);
    match deletes {
        true => answer(core.delete(alloc, &key(1))),
        false => answer(core.put(alloc, &key(1), &[0, 6])),
    }
}

// The values on a disk after this write failed in a put or a delete.
fn left_by_failed_row(
    rt: &impl Abort,
    alloc: Global,
    number: u64,
    deletes: bool,
) -> Result<[u16; 8], Fail> {
    let mut core = faulty(alloc, Call::Write, number)?;
    row_fails(rt, alloc, &mut core, deletes);
    values_on(alloc, core.close().into_disk())
}

// Either write of a put or of a delete fails. The store does not accept the row and fails. The
// flushed value is kept.
#[test]
fn a_write_that_fails_fails_the_store(rt: HostRuntime) -> Result<(), Fail> {
    let alloc = rt.alloc();
    for (number, deletes) in [(4, false), (4, true), (5, false), (5, true)] {
        let found = left_by_failed_row(&rt, alloc, number, deletes)?;
        same_in(&rt, &found, &[0, 5, 0, 0, 0, 0, 0, 0], &number);
    }
    Ok(())
}

// Puts the keys 3, 1 and 2, and deletes 2.
fn takes_three_puts(rt: &impl Abort, alloc: Global, core: &mut Core<MemDisk>) {
    same(rt, &put(rt, alloc, core, 3, 3), &Ok(1));
    same(rt, &put(rt, alloc, core, 1, 1), &Ok(2));
    same(rt, &put(rt, alloc, core, 2, 2), &Ok(3));
    same(rt, &deleted(alloc, core, 2), &Ok(4));
}

// The list has exactly the keys that have a value, each with its last accepted value.
#[test]
fn lists_all_entries(rt: HostRuntime) -> Result<(), Fail> {
    let alloc = rt.alloc();
    let mut core = of_capacity(alloc, 8)?;
    takes_three_puts(&rt, alloc, &mut core);
    lists(&rt, alloc, &core, 2, [0, 1, 0, 3, 0, 0, 0, 0]);
    drop(core);
    Ok(())
}
