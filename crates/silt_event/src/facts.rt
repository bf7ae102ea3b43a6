// What a store says of itself while it serves.

/// Exact numbers of a store at one moment. Of a set they are the sums over its shards.
#[derive(Clone, Copy, Debug, PartialEq, Eq)]
pub struct Facts {
    /// How many stores these are the facts of: 1, or the number of shards.
    pub stores: u64,
    /// How many of them have failed: an earlier write or sync failed, and they refuse all calls.
    pub failed: u64,
    /// How many commands were accepted since the store was opened.
    pub commands: u64,
    /// The charge: how many put rows count against the capacity.
    pub charge: u64,
    /// The most put rows that the store may hold.
    pub capacity: u64,
    /// The generation of the current manifest record: how many records were written after formatting.
    pub generation: u64,
    /// How many full logs wait for their conversion, the one in progress included.
    pub frozen_logs: u64,
    /// How many hash stores there are, those of a merge in progress included.
    pub hash_stores: u64,
    /// How many entries the sorted store has.
    pub sorted_entries: u64,
    /// How many slots the conversion in progress has written; 0 if none is in progress.
    pub converted_slots: u64,
    /// How many steps the merge in progress has taken; 0 if none is in progress.
    pub merge_steps: u64,
}
