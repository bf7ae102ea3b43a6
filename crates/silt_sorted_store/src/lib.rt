//! The sorted store of a device: entries of a key and a value in a sorted region, whose keys rise strictly, and their index.
//!
//! [`SortedEntries`] are the entries on the device: a region and their number. A [`SortedStore`] adds an index in memory, the
//! coded tries of their keys. The index names the only place where a key can be. So a look-up reads one key, and a get reads one
//! entry. `rebuild` reads the entries once, in large reads, and refuses entries that do not rise.
//!
//! A store also has the SHA-1 digest of its entries' bytes. `rebuild` computes it from what it reads.
#![tactic(auto)]

mod laws;
mod rebuild;
mod region;
mod sorted_entries;
mod sorted_store;

pub use laws::{
    digest_elsewhere_law, entries_bytes_law, entries_elsewhere_law, entries_law,
    indexed_elsewhere_law, rising_law,
};
pub use region::SortedRegion;
pub use silt_log::ScanError;
pub use sorted_entries::SortedEntries;
pub use sorted_store::SortedStore;
