//! Tests of disks, and of what a check or an opening finds on them. They try crash images, disks in
//! files, buffered writes, and each call of a formatting and of an opening.
//!
//! They show what no contract says, through the public calls.
//!
//! `MemFile` is a file in memory that behaves, for disks in files: it meets each clause of
//! `RandomAccessFile`.
#![tactic(auto)]

#[cfg(test)]
mod device;
#[cfg(test)]
mod formats;
mod mem_file;

pub use mem_file::{MemFile, MemFolder};
#[cfg(test)]
use silt_device::Disk;
#[cfg(test)]
use silt_frame::Key;
#[cfg(test)]
use silt_store_set::Core;
#[cfg(test)]
use std::alloc::Global;

// The number that a put of a value of two bytes returns. None if it is refused.
#[cfg(test)]
fn put_count<D: Disk>(alloc: Global, core: &mut Core<D>, key: &Key, value: [u8; 2]) -> Option<u64> {
    if core.geometry().value_len() != 2 {
        return None;
    }
    match core.put(alloc, key, &value) {
        Ok(count) => Some(count),
        Err(_) => None,
    }
}

// Whether a get finds a value of two bytes, and what is then in a buffer that had these bytes.
// None if the get is refused.
#[cfg(test)]
fn got<D: Disk>(core: &Core<D>, key: &Key, mut out: [u8; 2]) -> Option<(bool, [u8; 2])> {
    if core.geometry().value_len() != 2 {
        return None;
    }
    match core.get(key, &mut out) {
        Ok(found) => Some((found, out)),
        Err(_) => None,
    }
}
