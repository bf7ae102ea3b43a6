//! Hash stores and a sorted store, merged into a new sorted store.
//!
//! A `Merge` goes by steps. First it gathers: it reads each slot of each hash store, from the newest store on, and keeps the place
//! of each key's newest row. Then it decides the keys one after the other, from the lowest on: each time the lower of the first
//! gathered key and the next entry's key. A gathered row overrides the entry of its key. A put is written as the next entry of the
//! region. A key whose newest row is a delete is left out. Slots and entries are read in pieces of at most 64 KiB.
//!
//! The last decided key stays in memory, and an entry whose key is not greater is skipped. So the written keys rise, on any disk.
//!
//! The merge codes the key of each entry that it writes into the index of the new store. So the new store finds each of its entries
//! by one read. A hasher gets each entry that is written, for the new store's digest.
//!
//! Another hasher gets each slot and each old entry that is taken. With the last one of a store, what was read must have the digest
//! that the store has in memory. Else the step is refused before it keeps or writes anything, and the next step compares again. So
//! a store that has changed on the disk does not get into the new store under a fresh digest. One way is left: the value of a row
//! is read a second time, when its key is decided. If a byte of it changes between the two reads, the merge writes the changed
//! byte, and the new store's digest covers it.
//!
//! It writes only entries of its own region. On a disk that is not honest (does not obey the crash model) it is safe and ends.
#![tactic(auto)]

mod choice;
mod laws;
mod merge;
mod piece;
mod source;

pub use laws::{
    key_count_law, merged_count_law, merged_elsewhere_law, merged_law, oldest_stores_law,
    sound_stores_law,
};
pub use merge::{Merge, StepError};
