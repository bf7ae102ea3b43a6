//! The stores of a device in memory: the manifest, the active log, the frozen logs behind it, the hash stores behind
//! these, the sorted store with the index of its entries, a conversion and a merge in progress, and the charge.
//!
//! A put or a delete is a row behind the rows of the **active log**. It waits there, behind a closed commit byte,
//! until a flush settles it. A log that cannot take a further row is **frozen**: its waiting rows are settled,
//! an empty log in a free region takes its place, and the next manifest record names that one first. So no row moves,
//! and no commit byte that counts is ever closed.
//!
//! The oldest frozen log is **converted** into a hash store, one slot a step, in a hash region that the manifest does
//! not name. The last step syncs the slots and then writes the next manifest record. It names the hash store in front
//! of the others, and the log no longer.
//!
//! All hash stores and the sorted store are **merged** into the sorted region that the manifest does not name, one slot
//! or one key a step. A merge compares: with the last slot of a hash store and with the last old entry, all that was
//! read of that store must have the digest that the store has in memory. Else the step is refused, before any manifest
//! is written, and nothing has changed. The last step finishes the index of the new entries in memory, syncs the
//! entries, and then writes the next manifest record. It names the new sorted store, and the merged hash stores no
//! longer; one that a conversion finished meanwhile stays in front. A crash loses background work in progress. It
//! begins anew, and no reply depends on it.
//!
//! A lookup goes through the active log, the frozen ones and the hash stores, each the newest first, and then the
//! sorted store, whose index names the one entry that is read. The first row of the key that it finds decides: a delete
//! ends it as well as a put.
//!
//! Each manifest that is written has the digests of the hash stores and of the sorted store that it names, as these are
//! in memory.
//!
//! Each call that writes says of each of its exits what every possible crash image represents: the map of the settled
//! rows, after a beginning of the waiting ones.
#![tactic(auto)]

mod conversion;
mod digests;
mod engine;
mod entries;
mod laws;
mod lookup;
mod merge;
mod next_log;
mod numbers;
mod row_write;

pub use crate::engine::Engine;
pub use conversion::ConvertError;
pub use entries::EntriesError;
pub use laws::{converts_law, merges_law, standing_law};
pub use lookup::Lookup;
pub use merge::MergeError;
pub use row_write::WriteError;
