//! Rows in the order of a table of their keys. Two bytes of memory a slot are enough to find them.
//!
//! A hash region has four slots a bucket. A slot has the bytes of a row, or the kind 0 if it is empty. Each key has one row, its
//! last, in one of its two buckets. In memory a `HashStore` keeps the *tag* of each slot: the number of the key's other bucket. A
//! look-up reads the heads of the slots whose tags match, at most eight, and compares the keys. It trusts no tag. The store also
//! keeps the number of its puts, so that they are counted without a read, and the SHA-1 digest of the bytes of its slots.
//!
//! A store is rebuilt from the device, in one pass over the slots. A rebuild is refused with the first slot that is damaged.
#![tactic(auto)]

mod hash_store;
mod laws;
mod lookup;
mod rebuild;
mod region;
mod tags;

pub use hash_store::HashStore;
pub use laws::{hash_bytes_law, hash_elsewhere_law};
pub use rebuild::Rebuilt;
pub use region::{HashRegion, row_in};
pub use silt_log::{Found, ScanError};
pub use tags::Tags;
