//! A copy of a store that is served, written to a disk and examined.
//!
//! A [`Backup`] is made of a [`View`](silt_view::View) of a store and of a [`Moment`](silt_view::Moment) of it, which has the bytes of
//! its logs. [`Backup::begin`] copies these and the hash stores that the record of the moment names, and [`Backup::finish`] the sorted
//! store. Both read through the view, in pieces of 64 KiB, while commands go on. A named region is never written, but a merge may free
//! it meanwhile. So nothing rests on the copying: `finish` examines the disk as `check` does, and compares it with the moment: the six
//! numbers, the record, the digests of the stores, the bytes of the logs.
//!
//! The commit byte of the header is closed first and opened last.
#![tactic(auto)]

mod backup;
mod comparing;
mod copying;
mod fault;
mod laws;
mod ranges;
mod writing;

pub use backup::Backup;
pub use fault::BackupFault;
pub use laws::backup_law;
