//! Laws of background work: it comes to an end, and then there is room.
//!
//! A store does its background work step by step. [`Core::convert`](silt_store_set::Core::convert) makes a hash store of the
//! oldest frozen log, and [`Core::merge`](silt_store_set::Core::merge) makes a sorted store of the hash stores. The laws count
//! the steps: of conversions exactly, of merges and of both how many there are at most. Each step that is done leaves one
//! fewer. A store with no step to do has nothing to convert and nothing to merge. A store with a free log region, or with
//! nothing to convert, refuses no call for lack of room. If it refuses one, there is a step to do.
//!
//! The laws follow from what each call promises (`Does` of silt_store_set), and from nothing else. What those of merges ask for
//! is a clause of [`Core::standing`](silt_store_set::Core::standing).
#![tactic(auto)]

mod laws;

pub use laws::{
    background_law, convert_all_law, convert_idle_law, convert_run_law, convert_step_law,
    frees_law, kept_law, merge_end_law, merge_idle_law, merge_length_law, merge_run_law,
    merge_step_law, merge_turn_law, no_room_law, opened_law, rest_law, room_law, wait_law,
    whole_merge_law,
};
