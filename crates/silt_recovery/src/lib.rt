//! Formatting a device, opening a store on it, and checking one.
//!
//! `format` writes an empty store. The header's commit byte is closed first and opened last. So a device
//! whose formatting was interrupted by a crash holds no store, or the empty one.
//!
//! `open` and `check` examine a device in one order: the header, the manifest, the active log, the frozen logs from the
//! newest, the hash stores from the newest, the sorted entries, the number of puts. If the manifest has digests of its
//! stores, they are compared with those of what was read: that of a hash store after its slots, that of the sorted
//! store after its last entry. The first finding decides.
//!
//! `open` settles what is shown before it examines it. Then it closes the commit bytes of the active log past its first closed
//! one: a crash dropped the rows behind such commit bytes, and they must not come back. At each exit of an opening, each
//! possible crash image was possible before, or represents the map that was shown.
#![tactic(auto)]

mod digests;
mod empty_store;
mod entries;
mod examination;
mod fault;
mod hashes;
mod header;
mod logs;
mod recovery;
mod report;

pub use empty_store::format;
pub use examination::{Holding, examine};
pub use fault::{FormatError, FormatFault, OpenError, OpenFault};
pub use header::{Header, read_geometry};
pub use recovery::{Opened, open};
pub use report::check;
