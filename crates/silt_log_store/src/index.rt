// The table of a log's keys as it grows in a rebuild. It keeps the keys themselves, so that no key is read twice.
ghost use Rattle.std.specs.Prelude.{◌≡◌, ◌+◌, ◌<◌, ◌≤◌, ◌^◌, [], IfOk, IfSome, IsSome, All, length, vec_capacity, get_or, find, option_map};
ghost use Rattle.std.specs.Str.{bytes_eq};
ghost use Rattle.silt_cuckoo.specs.declared.lookup.Candidate.{Candidate};
ghost use Rattle.silt_cuckoo.specs.Index.{slot_of_key};
ghost use Rattle.silt_cuckoo.specs.Keys.{first_bucket, second_bucket};
ghost use Rattle.silt_cuckoo.specs.Slots.{IsBucketCount, IsTable, PlacesBelow, bucket_count, entry_at};

use crate::placement::{enter, plan_entry};
use silt_cuckoo::{Candidate, Table, key_buckets};
use silt_frame::{KEY_LEN, Key, Kind};
use std::alloc::{AllocError, Global};

/// The keys of some rows in order from the oldest, their table, and how many of the rows are puts.
#[derive(Drop)]
pub struct KeyIndex {
    pub table: Table,
    pub keys: Vec<[u8; KEY_LEN]>,
    pub puts: u32,
}

impl KeyIndex {
    ghost use Rattle.silt_log_store.specs.Growth.{AddsOrGivesUp, IsKeyIndex, IsOfRows};

    /// No keys, and a table of this many buckets. This many keys can be added without allocating more memory.
    ///
    /// # Errors
    ///
    /// Out of memory: the table or the list of keys could not be allocated.
    pub fn new(alloc: Global, buckets: u32, capacity: u32) -> Result<Self, AllocError>
        requires { IsBucketCount buckets }
        ensures index { IfOk result IsKeyIndex }
        ensures buckets { IfOk result (λ index. bucket_count index.table ≡ buckets) }
        ensures empty { IfOk result (IsOfRows []) }
        ensures room { IfOk result (λ index. capacity ≤ vec_capacity index.keys) }
    {
        Ok(KeyIndex {
            table: Table::new(alloc, buckets)?,
            keys: Vec::with_capacity(alloc, capacity as usize)?,
            puts: 0,
        })
    }

    /// The slot of the older row of a key with these two buckets, if there is one.
    fn slot_of(&self, key: &Key, buckets: (u32, u32)) -> Option<usize>
        requires index { IsKeyIndex self.now }
        requires table { IsTable self.now.table }
        requires first { buckets.0 ≡ first_bucket (bucket_count self.now.table) key.now.0 }
        requires second { buckets.1 ≡ second_bucket (bucket_count self.now.table) key.now.0 }
        requires first_there { buckets.0 < bucket_count self.now.table }
        requires second_there { buckets.1 < bucket_count self.now.table }
        ensures slot { result ≡ slot_of_key self.now.keys.items self.now.table key.now.0 }
        ensures standing { IfSome result (λ slot. IsSome (entry_at self.now.table slot)) }
        ensures below { PlacesBelow self.now.table (length self.now.keys.items) }
    {
        let candidates = self.table.candidates(buckets.0, buckets.1);
        first_slot(self.keys.as_slice(), candidates.as_slice(), &key.0)
    }

    /// Adds the key of the next row. Returns whether it found a place.
    ///
    /// # Errors
    ///
    /// Out of memory: the list of keys could not grow.
    pub fn add(&mut self, kind: Kind, key: &Key) -> Result<bool, AllocError>
        requires index { IsKeyIndex self.old }
        requires room { length self.old.keys.items + 1 < 2 ^ 32 }
        ensures { IfOk result (AddsOrGivesUp kind key.now.0 self.old self.new) }
    {
        let buckets = key_buckets(&key.0, self.table.bucket_count());
        let standing = self.slot_of(key, buckets);
        let place = self.keys.len() as u32;
        let Some(placing) = plan_entry(&self.table, buckets, standing) else {
            return Ok(false);
        };
        enter(&mut self.table, &placing, place);
        self.keys.push(key.0)?;
        self.puts += kind.puts();
        Ok(true)
    }
}

// The slot of the first of some candidates whose place belongs to the key.
fn first_slot(
    keys: &[[u8; KEY_LEN]],
    candidates: &[Candidate],
    key: &[u8; KEY_LEN],
) -> Option<usize>
    requires { All (λ c. c.place < length keys.now) candidates.now }
    ensures { result ≡ option_map (λ (c : Candidate). c.slot) (find (λ (c : Candidate). bytes_eq (get_or keys.now c.place []) key.now) candidates.now) }
{
    for candidate in candidates {
        if keys[candidate.place as usize] == *key {
            return Some(candidate.slot);
        }
    }
    None
}
