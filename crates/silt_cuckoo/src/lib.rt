//! A partial-key cuckoo table: an index in memory that stores only the two buckets of each key.
//!
//! A table has buckets of four slots. An entry lies in one of the two buckets of its key, and its tag is the number of the
//! other. So it can move between the two without reading the key. Each entry has a place, which is the caller's name for the
//! key's row. A match of buckets is only a candidate: the caller compares the keys.
//!
//! A new entry goes in by two steps. [`Table::plan`] finds the path along which entries have to move to make room.
//! [`Table::apply`] moves them, from the free end backwards, and puts the new entry in. Only [`Table::new`] allocates memory.
#![tactic(auto)]

mod cuckoo;
mod displacement;
mod keys;
mod laws;
mod lookup;
mod slot;

pub use cuckoo::Table;
pub use displacement::Path;
pub use keys::key_buckets;
pub use laws::{find_law, index_law, pair_law, push_law, replace_law, table_law};
pub use lookup::{Candidate, Candidates};
