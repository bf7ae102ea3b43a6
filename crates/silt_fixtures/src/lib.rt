//! What tests of several crates need. There are geometries, keys, empty stores on disks in memory of
//! both versions, crashes, and changed bytes. Entries are compared with a plain map, and waits end.
//!
//! The contract of `key` is exact. The contracts of disks only say that a disk is made or is not:
//! tests compare what is on it.
#![tactic(auto)]

mod disks;
mod entries;
mod keys;
mod waits;

pub use disks::{
    FILLS, SMALL_LEN, as_version_1, blank, blank_of_version_1, change, changed, formatted,
    formatted_with, of_regions, of_values, opened, opened_on, opened_with, small, stopping,
};
pub use entries::{are_those, two_bytes};
pub use keys::key;
pub use waits::reaches;
