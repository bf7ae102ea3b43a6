//! The contract of a disk as a store sees it, and the layout of a device.
//!
//! **The crash model.** A disk *shows* bytes: these are what a read gives. Some of them are *settled*: the last successful sync
//! made them durable. The other places are *pending*. A crash leaves an image of the same length. It has the settled byte at
//! each place that is not pending. At each pending place it has any byte at all: old, new or another, each place for itself. So
//! after a crash a write may be found done, partly done or not done.
//!
//! - A write that returns Ok shows its bytes, and makes their range pending.
//! - A write that fails makes its range pending too, and that range may then show any bytes.
//! - A sync that returns Ok settles all that is shown, and leaves nothing pending.
//! - A sync that fails changes nothing. A read changes nothing, whether it fails or not.
//! - After a crash the disk shows one of the possible crash images, and nothing is pending.
//!
//! **Faults.** Only a disk makes a fault. A failed call returns one, and its contract says that this disk, in its state after
//! the call, *gave* it for this call on this range. Each failed write or sync adds one to the disk's count of failures, modulo
//! 2^64, and nothing else changes that count. So a caller that returns a fault shows that a device call of its own failed.
//!
//! **Honesty.** An *honest* disk is one that obeys the crash model. Promises about bytes hold for honest disks, and a call leaves
//! a disk as honest as it was. `silt_device` has the disks themselves, and says which of them are honest.
//!
//! **What a call that writes does.** One record says it for all of them, `Wrote` (`specs/Wrote.antt`): the range that changed, how
//! many writes and syncs were made, and which failure was counted.
//!
//! `write_synced` is a write with the sync that settles it. Nearly all changes of a device use it. `Geometry` is the six numbers
//! of a store, with the offset of each of its parts on a device. The header of a device holds these numbers.
#![tactic(auto)]

mod disk;
mod geometry;
mod header;
mod synced;

pub use disk::{Call, CallAt, Disk, Stoppable};
pub use geometry::{BadGeometry, Geometry, REGIONS_AT, SECTOR, regions_law, slot_start};
pub use header::{HEADER_LEN, Version, geometry_of, header_bytes, is_formatted, version_of};
pub use synced::write_synced;
