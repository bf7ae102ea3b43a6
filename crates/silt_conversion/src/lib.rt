//! A frozen log's rows, rewritten into a hash region in the order of the log's table.
//!
//! A `Conversion` writes the region slot by slot: the row of an entry goes into the slot that the entry has in the log's table. It
//! counts the puts that it writes and hashes the bytes. When it is finished, the hash store can replace the log: the map is the
//! same.
#![tactic(auto)]

mod conversion;
mod laws;

pub use conversion::{Conversion, StepError};
pub use laws::{
    converted_charge_law, converted_map_law, converted_sound_law, written_elsewhere_law,
};
