//! One log region of a flash store, with the table of its keys in memory.
//!
//! A `LogStore` is a log and a partial-key table. The table holds the place of the last row of each key under the key's two
//! buckets, and nothing else of the key. So a look-up reads the head of each candidate's row on the device and compares the keys:
//! at most one read of 21 bytes a candidate. The table is exactly what the placing rule makes of the log's keys, from the oldest
//! on. So a store that is rebuilt from the device has the same table as before. The store also counts the puts among its rows.
//!
//! A store takes a row if its log has room and the rule finds a place for the key. `take` does all of this: it reads the
//! candidates, plans where the key goes, writes the row and enters the key as planned. Its error says whether the store is full
//! for the key, a read failed, or a write did. After a crash the store's rows are those of its log: the rows before the first
//! closed commit byte.
#![tactic(auto)]

mod index;
mod laws;
mod log_store;
mod lookup;
mod placement;
mod rebuild;

pub use laws::{entry_law, log_sound_law};
pub use log_store::{LogStore, TakeError};
pub use rebuild::RebuildError;
pub use silt_log::Found;
