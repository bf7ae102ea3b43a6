// What several tests need: comparisons, and the values of a disk and of a store.
//
// A comparison is a call. So its proof is made once, not at each place that compares.

use silt_device::{Disk, MemDisk, Stop};
use silt_fixtures::{key, opened_on, stopping};
use silt_frame::{Key, Value};
use silt_store_set::Core;
use std::alloc::{AllocError, Global};
use std::collections::BTreeMap;
use std::fmt::Debug;
use std::process::Abort;
use std::test::Fail;

/// What was found is what is expected.
pub(crate) fn same<T: PartialEq + Debug>(rt: &impl Abort, found: &T, expected: &T) {
    assert_eq!(rt; found, expected);
}

/// What was found in this case is what is expected.
pub(crate) fn same_in<T: PartialEq + Debug, C: Debug>(
    rt: &impl Abort,
    found: &T,
    expected: &T,
    case: &C,
) {
    assert_eq!(rt; found, expected, "{case:?}");
}

/// The list that was found is the one that is expected.
pub(crate) fn same_lists<T: PartialEq + Debug>(rt: &impl Abort, found: &[T], expected: &[T]) {
    assert_eq!(rt; found, expected);
}

/// The values of the keys 0 to 7 in these entries, 0 for none.
pub(crate) fn values_of(entries: &BTreeMap<Key, Value>) -> [u16; 8] {
    let mut values = [0; 8];
    for first in 0..8usize {
        if let Some(value) = entries.get(&key(first as u8)) {
            values[first] = match value.as_slice() {
                [first, last] => u16::from_be_bytes([*first, *last]),
                _ => 0xFFFF,
            };
        }
    }
    values
}

// The values of the keys 0 to 7 in these entries, 0 for none. Another key is an error.
fn only_values_of(entries: &BTreeMap<Key, Value>) -> Result<[u16; 8], Fail> {
    let values = values_of(entries);
    if entries.len() != values.iter().filter(|value| **value != 0).count() {
        return Err("other keys".into());
    }
    Ok(values)
}

/// The values of the keys 0 to 7 in this store, 0 for none. Another key is an error.
pub(crate) fn listed<D: Disk>(alloc: Global, core: &Core<D>) -> Result<[u16; 8], Fail> {
    let entries = core.entries(alloc).ok().ok_or("has entries")?;
    only_values_of(&entries)
}

/// This crash, and a crash of the same fill at the end of each of the next two lives.
pub(crate) fn stopping_first(alloc: Global, stop: Stop) -> Result<Vec<Stop>, AllocError> {
    stopping(
        alloc,
        &[(stop.k, stop.fill), (0, stop.fill), (0, stop.fill)],
    )
}

/// Joins a disk and the values that were found on it.
pub(crate) fn with_values(
    disk: MemDisk,
    values: Result<[u16; 8], Fail>,
) -> Result<(MemDisk, [u16; 8]), Fail> {
    Ok((disk, values?))
}

/// The values of the keys 0 to 7 on this disk, 0 for none. Another key is an error. No crash
/// precedes the opening.
pub(crate) fn entries_of(alloc: Global, disk: MemDisk) -> Result<(MemDisk, [u16; 8]), Fail> {
    let core = opened_on(alloc, disk)?;
    let values = listed(alloc, &core);
    with_values(core.close(), values)
}

/// The values of the keys 0 to 7 on this disk, as `entries_of` finds them.
pub(crate) fn values_on(alloc: Global, disk: MemDisk) -> Result<[u16; 8], Fail> {
    let (_, values) = entries_of(alloc, disk)?;
    Ok(values)
}

/// Whether all these bytes are zeros.
pub(crate) fn are_zeros(bytes: &[u8]) -> bool {
    bytes.iter().all(|byte| *byte == 0)
}
