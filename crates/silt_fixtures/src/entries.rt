// Entries of a store whose values have two bytes, beside a plain map.

use silt_frame::{Key, Value};
use std::collections::BTreeMap;

/// The bytes of a value of two bytes.
pub fn two_bytes(value: &Value) -> [u8; 2] {
    match value.as_slice() {
        [first, last] => [*first, *last],
        _ => [0xFF, 0xFF],
    }
}

/// Whether the entries are those of the map.
pub fn are_those(entries: &BTreeMap<Key, Value>, map: &BTreeMap<Key, [u8; 2]>) -> bool {
    if entries.len() != map.len() {
        return false;
    }
    for (key, value) in entries.iter() {
        if map.get(key) != Some(&two_bytes(value)) {
            return false;
        }
    }
    true
}
