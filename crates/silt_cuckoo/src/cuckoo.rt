//! The table.

ghost use Rattle.std.specs.Prelude.{◌≡◌, ◌≢◌, ◌↔◌, ℕ, ◌+◌, ◌*◌, ◌<◌, ◌≤◌, ◌^◌, [], ◌==◌, List, map, All, AllPairs, Contains, length, slice_index, option_map, IsSome, IsNone, IfSome, IfOk, Some, None};
ghost use Rattle.silt_cuckoo.specs.Packed.{unpacked_all};
ghost use Rattle.silt_cuckoo.specs.Slots.{Slots, IsBucketCount, IsTable, HoldsPlace, bucket_count, empty_slots, entry_at, place_at, tag_at};
ghost use Rattle.silt_cuckoo.specs.Placing.{PathPlan, IsPlanFor, plan_for, placed, free_slot, victim, shortest_walk, moved_along, put_along, replaced};
ghost use Rattle.silt_cuckoo.specs.Pairs.{AddsPair, TakesSlot, pair_of, table_pairs};
ghost use Rattle.silt_cuckoo.specs.Lookup.{candidates_of, has_candidates, places_of};

use crate::displacement::Path;
use crate::lookup::{Candidates, has_match};
use crate::slot::{Slot, entry_at, tag_at};
use std::alloc::{AllocError, Global};
use std::marker::Model;

/// The greatest number of turns of a walk.
const MOST_TURNS: u32 = 128;

/// A partial-key cuckoo table of 2 to 32,768 buckets of four slots. A slot takes six bytes.
///
/// In contracts it is the list of its slots. Each is free or has the tag and the place of an entry. Every tag is the number of a
/// bucket, and no place occurs twice.
#[derive(Drop)]
pub struct Table {
    slots: Vec<Slot>,
}

impl Model for Table {
    ghost Value = { Slots };

    ghost view = { λ t. unpacked_all t.slots.items };

    ghost invariant = { λ t. IsTable (unpacked_all t.slots.items) };
}

impl Table {
    /// An empty table of this many buckets, a power of two.
    pub fn new(alloc: Global, buckets: u32) -> Result<Self, AllocError>
        requires { IsBucketCount buckets }
        ensures empty { IfOk result (λ table. table ≡ empty_slots buckets) }
        ensures table { IfOk result IsTable }
    {
        let slots = vec![in alloc; Slot::FREE; 4 * buckets as usize]?;
        Ok(Table { slots })
    }

    /// The number of buckets.
    pub fn bucket_count(&self) -> u32
        ensures count { result ≡ bucket_count self.now }
        ensures table { IsTable self.now }
    {
        (self.slots.len() / 4) as u32
    }

    /// The tag and the place in a slot. `None` if the slot is free or past the last one.
    pub fn slot(&self, slot: usize) -> Option<(u32, u32)>
        ensures { result ≡ entry_at self.now slot }
    {
        match self.slots.get(slot) {
            Some(slot) => slot.entry(),
            None => None,
        }
    }

    /// The entries of these two buckets. First those in the first bucket whose tag is the second, in slot order. Then, if the buckets
    /// differ, those in the second whose tag is the first.
    pub fn candidates(&self, first: u32, second: u32) -> Candidates
        requires first_there { first < bucket_count self.now }
        requires second_there { second < bucket_count self.now }
        ensures in_order { result ≡ candidates_of self.now first second }
        ensures exactly { (place : ℕ) → Contains (places_of result) place ↔ (table_pairs self.now place ≡ Some (pair_of first second)) }
        ensures standing { All (λ c. place_at self.now c.slot ≡ Some c.place) result }
        ensures each_once { AllPairs (λ p q. p ≢ q) (places_of result) }
    {
        Candidates::of(self.slots.as_slice(), first, second)
    }

    /// Whether these two buckets have a candidate. It asks both before the first branch.
    pub fn has_candidates(&self, first: u32, second: u32) -> bool
        requires first_there { first < bucket_count self.now }
        requires second_there { second < bucket_count self.now }
        ensures { result ≡ has_candidates self.now first second }
    {
        let slots = self.slots.as_slice();
        has_match(slots, first, second) | has_match(slots, second, first)
    }

    /// Where a new entry of these two buckets goes: to the lowest free slot of the first bucket, else of the second, else into the
    /// first by a walk of at most 128 turns. Each turn moves one entry to its other bucket. `None` if the walk finds no free slot.
    pub fn plan(&self, first: u32, second: u32) -> Option<Path>
        requires first_there { first < bucket_count self.now }
        requires second_there { second < bucket_count self.now }
        ensures plan { result ≡ plan_for self.now first second }
        ensures stands { IfSome result (IsPlanFor self.now) }
        ensures gives_up { (place : ℕ) → IsNone result ↔ (placed self.now first second place ≡ None) }
    {
        find_path(self.slots.as_slice(), first, second)
    }

    /// Moves the entries along a path, and puts a new entry with this place into the path's first slot.
    pub fn apply(&mut self, path: &Path, place: u32)
        requires planned { IsPlanFor self.old path.now }
        requires new { ¬ HoldsPlace self.old place }
        ensures placed { placed self.old path.now.first path.now.second place ≡ Some self.new }
        ensures pairs { AddsPair self.old self.new place path.now.first path.now.second }
        ensures buckets { bucket_count self.new ≡ bucket_count self.old }
        ensures table { IsTable self.new }
    {
        put_along(self.slots.as_mut_slice(), path, place);
    }

    /// Gives the entry of a slot another place.
    pub fn replace(&mut self, slot: usize, place: u32)
        requires entry { IsSome (entry_at self.old slot) }
        requires new { ¬ HoldsPlace self.old place }
        ensures replaced { self.new ≡ replaced self.old slot place }
        ensures pairs { TakesSlot self.old self.new slot place }
        ensures buckets { bucket_count self.new ≡ bucket_count self.old }
        ensures table { IsTable self.new }
    {
        let tag = tag_at(self.slots.as_slice(), slot);
        self.slots[slot] = Slot::new(tag, place);
    }
}

/// The lowest free slot of a bucket.
#[tactic(auto, unfolding(crate::specs::Placing::free_slot))]
fn lowest_free(slots: &[Slot], bucket: u32) -> Option<u32>
    requires there { 4 * bucket + 4 ≤ length slots.now }
    requires small { length slots.now < 2 ^ 32 }
    ensures { result ≡ free_slot (unpacked_all slots.now) bucket }
{
    let start = 4 * bucket;
    (start..start + 4).find(|slot| entry_at(slots, *slot as usize).is_none())
}

/// The path of a new entry of these two buckets.
fn find_path(slots: &[Slot], first: u32, second: u32) -> Option<Path>
    requires table { IsTable (unpacked_all slots.now) }
    requires first_there { first < bucket_count (unpacked_all slots.now) }
    requires second_there { second < bucket_count (unpacked_all slots.now) }
    ensures { result ≡ plan_for (unpacked_all slots.now) first second }
{
    let mut path = Path::new(first, second);
    if let Some(free) = lowest_free(slots, first) {
        path.push(free);
        return Some(path);
    }
    if let Some(free) = lowest_free(slots, second) {
        path.push(free);
        return Some(path);
    }
    walk(slots, path)
}

/// The slot whose entry a turn of the walk moves out of a full bucket.
#[tactic(auto, unfolding(crate::specs::Placing::victim))]
fn turn_victim(slots: &[Slot], path: &Path, bucket: u32, turn: u32) -> Option<u32>
    requires there { 4 * bucket + 4 ≤ length slots.now }
    requires small { length slots.now < 2 ^ 32 }
    requires turns { turn < MOST_TURNS }
    ensures victim { result ≡ victim (unpacked_all slots.now) path.now.slots bucket turn }
    ensures inside { IfSome result (λ slot. slot < length slots.now) }
{
    let start = 4 * bucket;
    for k in 0..4 {
        let slot = start + (turn + k) % 4;
        if !path.contains(slot) && tag_at(slots, slot as usize) != bucket {
            return Some(slot);
        }
    }
    None
}

/// The path of the shortest walk from a full bucket to a free slot.
fn walk(slots: &[Slot], mut path: Path) -> Option<Path>
    requires empty { path.slots ≡ [] }
    requires small { length slots.now < 2 ^ 32 }
    requires there { 4 * path.first + 4 ≤ length slots.now }
    requires tags { (slot : ℕ) → 4 * tag_at (unpacked_all slots.now) slot + 4 ≤ length slots.now }
    ensures { result ≡ option_map (λ (s : List ℕ). record path { slots = s }) (shortest_walk (unpacked_all slots.now) path.first) }
{
    let mut bucket = path.first();
    for turn in 0..MOST_TURNS {
        let slot = turn_victim(slots, &path, bucket, turn)?;
        path.push(slot);
        bucket = tag_at(slots, slot as usize);
        if let Some(free) = lowest_free(slots, bucket) {
            path.push(free);
            return Some(path);
        }
    }
    None
}

/// Moves the entry of each slot of a path into the next slot, from the free end backwards.
fn move_along(slots: &mut [Slot], path: &[u32])
    requires small { length slots.old ≤ 2 ^ 17 }
    requires there { (k : ℕ) → k < length path.now → slice_index path.now k < length slots.old }
    requires apart { (i j : ℕ) → i < j → j < length path.now → slice_index path.now j ≢ slice_index path.now i }
    ensures { unpacked_all slots.new ≡ moved_along (unpacked_all slots.old) path.now }
{
    for k in (1..path.len()).rev() {
        let from = path[k - 1];
        slots[path[k] as usize] = slots[from as usize].with_tag(from / 4);
    }
}

/// Moves the entries along a path, and puts a new entry into the path's first slot.
fn put_along(slots: &mut [Slot], path: &Path, place: u32)
    requires table { IsTable (unpacked_all slots.old) }
    requires planned { IsPlanFor (unpacked_all slots.old) path.now }
    ensures { Some (unpacked_all slots.new) ≡ placed (unpacked_all slots.old) path.now.first path.now.second place }
{
    let slot = path.start();
    move_along(slots, path.slots());
    slots[slot] = Slot::new(path.tag_in(slot), place);
}
