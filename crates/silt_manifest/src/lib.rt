//! The manifest: which regions of a device make up the store.
//!
//! A device has two manifest slots. Each has a commit byte and then a body of 120 bytes that names regions. A commit byte is open
//! if and only if it is 0xA7. Of the open slots, the one of greater generation holds the current body.
//!
//! **Digests** may follow a body, 340 bytes: those of 16 hash stores, from the newest, and that of the sorted entries. The highest
//! bit of the generation's field says that they follow. The generation is that field modulo 2^63. Every write includes digests. A
//! device of version 1 may have a body without them, one of version 2 may not.
//!
//! **Damage** is an open slot whose body is not well formed, or whose digests are missing although the version requires them. A
//! reader does not skip such a slot.
//!
//! **A manifest write** changes only the slot that is not current, the *spare* slot. So the old body stays current until the commit byte
//! before the new one is written:
//!
//! 1. `prepare_next` closes the spare slot and syncs, then writes the new body and its digests and syncs. At each of its exits the
//!    old body is current in each possible crash image.
//! 2. `commit_next` opens the commit byte and syncs. At each of its exits the old body or the new one is current in each image, and after
//!    Ok the new one.
//!
//! **The first write of `prepare_next`** is the zero that closes the commit byte. If the commit byte is closed already, the zero goes to offset
//! 4,095 of the slot, which nothing reads. A write on the closed commit byte would make it pending before a body that nothing has checked,
//! and a crash could leave it open. `Manifest` knows which case it is, from `read_current` and its own writes.
//!
//! No call allocates memory.
#![tactic(auto)]

mod body;
mod digests;
mod ids;
mod manifest;
mod slot;

pub use body::Body;
pub use digests::Digests;
pub use ids::Ids;
pub use manifest::{
    Manifest, closed_slot_law, first_is_current_law, other_records_law, other_regions_law,
    read_current, write_first,
};
pub use slot::{Damage, ReadFault, SlotRecord};
