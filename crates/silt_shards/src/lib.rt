//! One store in several files, for one thread.
//!
//! Each file is a whole store, a *shard*; all of them are a *set*. [`shard_of`] says which shard has a key. A [`StoreSet`] replies to
//! events as a store does: a put, a delete, a swap or a get goes to the shard of its key, and a flush to each shard. It is made of any
//! [`Answerer`](silt_event::Answerer)s, as stores, or layers that do background work in front of stores. A set is one map. After a
//! crash each shard has a beginning of the commands that it accepted, with all acknowledged ones; so has each key.
//!
//! A file says by its [`Mark`] which shard of which set it is. [`write_mark`] writes it behind `format`, and [`close_mark`] takes it
//! away. A mark does not matter to the store in the file. [`open_shards`] opens the files of a set, and refuses files that are not all of
//! it in their order ([`compare_marks`]); [`open_shards_beside`] opens them side by side, in threads. Its [`SetFault`] says which file is wrong, and why. [`check_unmarked`] refuses a shard where a
//! store of its own is due.
//!
//! The laws are promises about all sets: [`shard_runs_law`] and [`set_lives_law`] say what each shard does and what a crash keeps of it,
//! [`has_map_law`] and [`set_map_law`] that a set is one map, and its replies are those of that map.
#![tactic(auto)]

mod attempt;
mod fault;
mod laws;
mod mark;
mod shard_files;
mod shard_key;
mod store_set;

pub use fault::{MarkFault, SetCause, SetFault};
pub use laws::{
    has_map_law, joined_law, mark_law, mark_read_back_law, projection_law, set_lives_law,
    set_map_law, shard_runs_law,
};
pub use mark::{Mark, Marking, close_mark, read_mark, write_mark};
pub use shard_files::{check_unmarked, compare_marks, open_shards, open_shards_beside};
pub use shard_key::{LEAST_SHARDS, MOST_SHARDS, shard_of};
pub use store_set::{StoreSet, join, no_facts, plus};
