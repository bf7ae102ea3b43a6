//! Care of a store while it is served: its digests are compared again, at a rate and at times of one's own.
//!
//! [`Scrub::pass`] is one pass over a store. It reads the bytes of each store that the manifest record names, the hash stores by their
//! regions and then the sorted store, and compares their SHA-1 with the digest that the served store has in memory. It sees the store
//! through a [`View`], so each piece of 64 KiB is a look of its own, and commands go on. A named region is never written, but a merge
//! may free it while it is read. So if the digests differ, the pass asks once more what the record names: if that has changed, the
//! bytes say nothing, and the store is skipped.
//!
//! Whoever has a store scrubbed [hears](Finds) of each finding at once.
//!
//! On a device of version 1 the manifest has no digests. The digests in memory are then those of the bytes that the opening read, so
//! a pass finds what changed since.
#![tactic(auto)]

mod extent;
mod finds;
mod looks;
mod pace;
mod pass;
mod pieces;
mod schedule;

pub use extent::{Extent, Part};
pub use finds::{Finding, Finds};
pub use pace::Pace;
pub use pass::{Scrub, Scrubbed, Verdict};
pub use schedule::Schedule;
pub use silt_view::View;
