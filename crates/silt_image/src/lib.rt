//! The meaning of an image, which is the bytes of a whole device.
//!
//! An image is read in one order: the header, the manifest slots, then the stores that the current manifest body names: the active
//! log, the frozen logs, the hash stores and the sorted store. If the manifest has the digest of a store, it is compared after the
//! rows of this store. If nothing is wrong, the image *represents* a map from keys to values: apply all its rows, one after the
//! other, from the oldest on.
//!
//! The definitions are in `specs/`. The laws for the crates above are functions whose contracts they are: which bytes matter, what a
//! write in a region changes, when one more row is fine. The rows of one region and their findings are defined in that region's
//! crate. Here they are put together. The header's bytes are in silt_disk, beside the layout. Here are the findings in them.
#![tactic(auto)]

mod damage;
mod header;
mod laws;

pub use damage::finding_of;
pub use header::read_header;
pub use laws::{
    again_law, append_law, beginning_law, charge_found_law, charge_law, digests_law, empty_law,
    first_entry_law, first_finding_law, first_slot_law, formatted_law, frame_law, free_hash_law,
    free_sorted_law, freeze_law, frozen_law, header_law, limits_law, log_region_law, manifest_law,
    meaning_law, new_active_law, new_log_law, no_stores_law, own_rows_law, parts_law, rows_law,
    said_law, sound_law, stands_law, stores_law, taken_law, unnamed_law, verdict_law, whole_law,
};
