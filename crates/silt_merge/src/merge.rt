// A merge of hash stores and a sorted store, step by step.
ghost use Rattle.std.specs.Prelude.{◌≡◌, ◌≢◌, ◌+◌, ◌*◌, ◌-◌, ◌<◌, ◌≤◌, ◌^◌, ◌↔◌, ◌++◌, ◌||◌, ℕ, List, [], Option, true, false, Some};
ghost use Rattle.std.specs.Prelude.{None, cond, get_or, length, take, IsTrue, IfOk, IfErr, IfSome, IsSomeAnd, OnOk, OnErr, MatchResult, is_some, nat_lt};
ghost use Rattle.std.specs.List.{All};
ghost use Rattle.std.specs.Str.{bytes_eq};
ghost use Rattle.silt_disk.specs.Disk.{Content, GaveAny, size};
ghost use Rattle.silt_disk.specs.Layout.{Shape, device_size, row_len};
ghost use Rattle.silt_frame.specs.Frame.{key_len};
ghost use Rattle.silt_frame.specs.declared.key.Key.{Key};
ghost use Rattle.silt_hash_store.specs.State.{HashState};
ghost use Rattle.silt_hash_store.specs.Lookup.{IsRowAt};
ghost use Rattle.silt_hasher.specs.Taking.{HasTaken, taken_after};
ghost use Rattle.silt_merge.specs.Choice.{Gathers, IsNextEntry, IsOffered, ReadsRow, choice_puts};
ghost use Rattle.silt_merge.specs.Comparing.{HasCompared, MayTake};
ghost use Rattle.silt_merge.specs.Rows.{regions_of};
ghost use Rattle.silt_merge.specs.State.{ahead_without, ends_entries, hashed_after, input_after, keys_after, finding, most_entries, passed_after, slot_after, written_after};
ghost use Rattle.silt_merge.specs.Steps.{GathersSlot, TakesStep, damaged_place};
ghost use Rattle.silt_trie.specs.Building.{IsBuildingOf, SuitsKeys, is_above};
ghost use Rattle.silt_merge.specs.declared.source.Source.{Source};
ghost use Rattle.silt_frame.specs.Rows.{StoredRow, row_of};
ghost use Rattle.silt_merge.specs.Pieces.{AreEntries, parts_after};
ghost use Rattle.silt_sorted_store.specs.Region.{is_written};
ghost use Rattle.silt_sorted_store.specs.State.{HasDigest, IsHeldSorted, SortedState, entries_of};
ghost use Rattle.sha1.specs.Sha1.{Holds, sha1};

mod ending;

use crate::choice::{Choice, choose, is_behind};
use crate::piece::Piece;
use crate::source::{Source, first, keep, remove_waiting};
use sha1::Sha1;
use silt_disk::Disk;
use silt_event::Place;
use silt_frame::{Digest, KEY_LEN, Key, Row};
use silt_hash_store::HashStore;
use silt_hasher::{BufferedHasher, LentBytes};
use silt_sorted_store::{SortedEntries, SortedRegion, SortedStore};
use silt_trie::MarkedTrieBuilder;
use std::alloc::{AllocError, Global};
use std::collections::BTreeMap;
use std::marker::Model;

/// Why a step of a merge failed.
#[derive(Debug, Drop)]
pub enum StepError<F> {
    /// A read failed with this fault. Nothing has changed.
    Read(F),
    /// The write of an entry failed with this fault. The entry may then show any bytes, and the merge promises nothing more.
    Write(F),
    /// Out of memory for a row that waits or for a key of the index. Nothing has changed.
    NoMemory,
    /// What was read of this store does not have the store's digest. Nothing has changed.
    Damaged(Place),
}

/// Hash stores and a sorted store that are being merged into a new sorted store.
///
/// It holds the key and the place of each row that waits to be decided, the last decided key, and the index of the entries that it
/// wrote, as far as it is built. It also holds a piece of the next slots and one of the next entries of the sorted store, each from
/// one read. Each step uses the same buffer for an entry. One hasher gets what is taken of the store that is being read, to compare
/// it with that store's digest, and one gets what is written, so that the new store's digest needs no further read. It remembers a store
/// that does not fit its digest, and then takes no further step.
#[derive(Drop)]
pub struct Merge {
    target: SortedRegion,
    stores: u16,
    store: u16,
    slot: u32,
    waiting: BTreeMap<Key, Source>,
    passed: u32,
    written: u32,
    index: MarkedTrieBuilder,
    decided: u64,
    last: Option<Key>,
    slots: Piece,
    ahead: Piece,
    input: BufferedHasher,
    hasher: Sha1,
    damaged: Option<Place>,
    made: Vec<u8>,
}

impl Model for Merge {
    ghost use Rattle.std.specs.Prelude.{◌≡◌, ◌≤◌, vec_len};
    ghost use Rattle.silt_disk.specs.Layout.{entry_len, row_len};
    ghost use Rattle.silt_merge.specs.State.{MergeState, IsHeldMerge};

    ghost Value = { MergeState };

    ghost view = { λ a. record {
      shape = a.target.geometry;
      region = a.target.number;
      stores = a.stores;
      store = a.store;
      slot = a.slot;
      waiting = a.waiting.entries;
      passed = a.passed;
      written = a.written;
      index = a.index;
      decided = a.decided;
      last = a.last;
      slots = a.slots.parts;
      ahead = a.ahead.parts;
      input = a.input;
      hasher = a.hasher;
      damaged = a.damaged;
    } };

    ghost invariant = { λ a. IsHeldMerge (record {
      shape = a.target.geometry;
      region = a.target.number;
      stores = a.stores;
      store = a.store;
      slot = a.slot;
      waiting = a.waiting.entries;
      passed = a.passed;
      written = a.written;
      index = a.index;
      decided = a.decided;
      last = a.last;
      slots = a.slots.parts;
      ahead = a.ahead.parts;
      input = a.input;
      hasher = a.hasher;
      damaged = a.damaged;
    }) × (a.slots.len ≡ row_len a.target.geometry) × (a.ahead.len ≡ entry_len a.target.geometry) × (vec_len a.made ≡ entry_len a.target.geometry)
        × (a.target.geometry.sorted_capacity ≤ 16777216) };
}

// Puts the bytes of the next entry of the sorted store into a buffer, if not all are skipped. Returns its key.
fn next_entry(sorted: &SortedEntries, ahead: &Piece, passed: u32, out: &mut [u8]) -> Option<Key>
    requires there { passed < sorted.now.count → 0 < length ahead.now.parts }
    requires out { length out.old ≡ ahead.now.len }
    ensures next { (rows : List StoredRow) → AreEntries rows passed ahead.now.parts → IsNextEntry rows passed out.new result }
    ensures is_some { is_some result ≡ nat_lt passed sorted.now.count }
    ensures len { length out.new ≡ length out.old }
    ensures held { IsHeldSorted sorted.now }
    ensures small { sorted.now.count < 2 ^ 32 }
{
    if passed >= sorted.len() {
        return None;
    }
    Some(ahead.first_entry(out))
}

// Reads the value of a put that decides into a buffer, after its key. If an entry decides, the buffer has its bytes already.
fn read_row<D: Disk>(
    stores: &[HashStore],
    disk: &D,
    choice: &Choice,
    out: &mut [u8],
) -> Result<(), D::Fault>
    requires shapes { All (λ store. key_len + store.shape.value_len ≡ length out.old) stores.now }
    requires store { IfSome choice.now.source (λ source. source.store < length stores.now) }
    requires slot { IfSome choice.now.source (λ source. All (λ store. source.slot < 4 * store.shape.buckets) stores.now) }
    requires size { All (λ store. device_size store.shape ≤ size (D.content disk.now)) stores.now }
    ensures row { (shape : Shape) → All (λ store. store.shape ≡ shape) stores.now → IsTrue (D.content disk.now).honest
        → OnOk result (ReadsRow shape (D.content disk.now).shown (regions_of stores.now) choice.now.key.0 choice.now.source out.old out.new) }
    ensures fault { IfErr result (GaveAny D.gave disk.now) }
    ensures len { length out.new ≡ length out.old }
{
    let Some(source) = choice.source else {
        return Ok(());
    };
    if !source.kind.is_put() {
        return Ok(());
    }
    let (key, value) = out.split_at_mut(KEY_LEN);
    key.copy_from_slice(&choice.key.0);
    stores[source.store as usize].read_value(disk, source.slot, value)
}

// The store and the slot after these, if each store has this many slots.
fn slot_after(store: u16, slot: u32, slots: u32) -> (u16, u32)
    requires store { store + 1 < 2 ^ 16 }
    requires slot { slot < slots }
    ensures { result ≡ slot_after store slot slots }
{
    if slot + 1 == slots {
        (store + 1, 0)
    } else {
        (store, slot + 1)
    }
}

// The number of written entries after a key, whose entry is written or not.
fn written_after(is_written: bool, written: u32) -> u32
    requires { is_written ≡ true → written + 1 < 2 ^ 32 }
    ensures { result ≡ written_after is_written written }
{
    if is_written { written + 1 } else { written }
}

// The number of skipped entries after a key. The next entry may have the key or not.
fn passed_after(passes: bool, passed: u32) -> u32
    requires { passes ≡ true → passed + 1 < 2 ^ 32 }
    ensures { result ≡ passed_after passes passed }
{
    if passes { passed + 1 } else { passed }
}

// At most as many entries come of these stores: one for each put and each entry, and no more than the region can hold.
fn most_entries(stores: &[HashStore], sorted: &SortedEntries) -> u32
    ensures { result ≡ most_entries stores.now sorted.now }
{
    let mut most = sorted.len();
    for store in stores {
        most = most.saturating_add(store.puts());
    }
    most.min(sorted.geometry().sorted_capacity())
}

// A hasher that was fed the same.
fn copy_of(hasher: &Sha1) -> Sha1
    ensures { result ≡ hasher.now }
{
    let copy: Result<_, _> = hasher.clone();
    let Ok(copy) = copy else { unreachable!() };
    copy
}

// The digest of what was hashed so far.
fn digest_so_far(hasher: &Sha1) -> Digest
    ensures { (bytes : List ℕ) → Holds hasher.now bytes → result.0 ≡ sha1 bytes }
{
    Digest(copy_of(hasher).finalize())
}

// Whether the next part of a store may be taken. If it is the last part, all parts must have the store's digest.
fn may_take(input: &BufferedHasher, part: &[u8], ends: bool, digest: &Digest) -> bool
    ensures { (bytes : List ℕ) → HasTaken input.now bytes → MayTake ends (bytes ++ part.now) digest.now.0 result }
{
    if !ends {
        return true;
    }
    Digest(input.digest_with(part)) == *digest
}

// Hashes a slot that is taken. The hasher is fresh for the next store after the last slot of a store.
fn hash_slot(input: &mut BufferedHasher, slot: &[u8], ends: bool)
    ensures { (bytes : List ℕ) → HasTaken input.old bytes → HasTaken input.new (input_after ends bytes slot.now) }
{
    if ends {
        input.restart();
    } else {
        input.update(slot);
    }
}

// Hashes an entry, if it is skipped.
fn hash_skipped(input: &mut BufferedHasher, entry: &[u8], is_skipped: bool)
    ensures { (bytes : List ℕ) → HasTaken input.old bytes → HasTaken input.new (hashed_after is_skipped bytes entry.now) }
{
    if is_skipped {
        input.update(entry);
    }
}

// Hashes the bytes of an entry, if it is written.
fn hash_entry(hasher: &mut Sha1, entry: &[u8], is_written: bool)
    ensures { (bytes : List ℕ) → Holds hasher.old bytes → Holds hasher.new (hashed_after is_written bytes entry.now) }
{
    if is_written {
        hasher.update(entry);
    }
}

// Whether the next entry is skipped: it is not above the last key, or it has the key of a choice.
fn skips_entry(is_behind: bool, choice: &Choice) -> bool
    ensures { result ≡ (is_behind || choice.now.passes) }
{
    is_behind || choice.passes
}

// Whether an entry is written for a choice.
fn is_due(choice: &Choice, written: u32, region: &SortedRegion) -> bool
    ensures { result ≡ is_written (choice_puts choice.now.source) written region.now.geometry.sorted_capacity }
{
    let capacity = region.geometry.sorted_capacity();
    choice.is_put() && written < capacity
}

// Whether the next entry is skipped and is the last one.
fn ends_entries(passes: bool, passed: u32, sorted: &SortedEntries) -> bool
    requires { passes ≡ true → passed < sorted.now.count }
    ensures { result ≡ ends_entries passes passed sorted.now.count }
{
    let count = sorted.len();
    passes && passed + 1 == count
}

// Takes the key of an entry that will be written into the index. After a write that failed, the index may have one key more than
// entries are written. It then takes no further key.
fn index_key(
    index: &mut MarkedTrieBuilder,
    written: u32,
    key: Key,
    is_due: bool,
) -> Result<(), AllocError>
    requires few { written ≤ 16777216 }
    requires most { index.old.building.count ≤ written + 1 }
    ensures index { OnOk result ((keys : List (List ℕ)) → IsBuildingOf keys index.old.building → length keys ≡ written → is_above index.old.building.last key.0 ≡ true
        → IsBuildingOf (keys_after is_due keys key.0) index.new.building) }
    ensures most { index.new.building.count ≤ written + 1 }
    ensures err { OnErr result (index.new ≡ index.old) }
    ensures due { OnErr result (is_due ≡ true) }
{
    if !is_due {
        return Ok(());
    }
    if index.len() > written as usize {
        return Ok(());
    }
    index.push(key)?;
    Ok(())
}

impl Merge {
    ghost use Rattle.silt_merge.specs.Merging.{AreSound, HasMerged, IsMergeOf};
    ghost use Rattle.silt_merge.specs.Rows.{key_count, merged_rows, sources};
    ghost use Rattle.silt_merge.specs.State.{IsHeldMerge, ends_store, is_done, oldest_stores, source_at, steps_for, steps_of};
    ghost use Rattle.silt_sorted_store.specs.Index.{IsIndexOf};

    /// A merge of these hash stores, from the newest, and the sorted store, into the sorted region of this number, with no slot
    /// gathered.
    ///
    /// # Errors
    ///
    /// Out of memory: the two pieces, the bytes that wait to be hashed or the bytes of one entry could not be allocated.
    pub fn start(
        alloc: Global,
        stores: &[HashStore],
        sorted: &SortedEntries,
        region: u32,
    ) -> Result<Self, AllocError>
        requires region { region < 2 }
        requires apart { sorted.now.region ≢ region }
        requires most { length stores.now < 2 ^ 16 }
        ensures start { IfOk result (λ merge. merge ≡ record {
          shape = sorted.now.shape;
          region = region;
          stores = length stores.now;
          store = 0;
          slot = 0;
          waiting = [];
          passed = 0;
          written = 0;
          index = merge.index;
          decided = 0;
          last = None;
          slots = [];
          ahead = [];
          input = merge.input;
          hasher = merge.hasher;
          damaged = None;
        }) }
        ensures levels { IfOk result (λ merge. SuitsKeys (most_entries stores.now sorted.now) merge.index.building.levels) }
        ensures held { IfOk result IsHeldMerge }
        ensures merged { (content : Content) → IfOk result (HasMerged content stores.now sorted.now) }
        ensures compared { (digest : List ℕ) → IfOk result (HasCompared stores.now sorted.now digest) }
    {
        let geometry = sorted.geometry();
        let slots = Piece::new(alloc, geometry.row_len(), 4 * geometry.buckets())?;
        let ahead = Piece::new(alloc, geometry.entry_len(), sorted.len())?;
        let input = BufferedHasher::new(alloc)?;
        Ok(Merge {
            target: SortedRegion {
                geometry,
                number: region,
            },
            stores: stores.len() as u16,
            store: 0,
            slot: 0,
            waiting: BTreeMap::new(alloc),
            passed: 0,
            written: 0,
            index: MarkedTrieBuilder::new(alloc, most_entries(stores, sorted) as usize),
            decided: 0,
            last: None,
            slots,
            ahead,
            input,
            hasher: Sha1::new(),
            damaged: None,
            made: vec![in alloc; 0; geometry.entry_len()]?,
        })
    }

    /// The number of hash stores that are merged.
    pub fn stores(&self) -> u16
        ensures value { result ≡ self.now.stores }
        ensures held { IsHeldMerge self.now }
    {
        self.stores
    }

    /// How many steps it has taken: one for each gathered slot, and one for each decided key.
    pub fn steps(&self) -> u64
        ensures { result ≡ steps_of self.now }
    {
        let slots = 4 * self.target.geometry.buckets() as u64;
        let gathered = self.store as u64 * slots + self.slot as u64;
        let most = gathered + self.passed as u64; // no more keys are decided
        gathered + self.decided.min(most)
    }

    /// Whether all slots are gathered and all keys are decided: after one step for each slot of each store and one for each key.
    pub fn is_done(&self, sorted: &SortedEntries) -> bool
        ensures value { result ≡ is_done self.now sorted.now }
        ensures held { IsHeldMerge self.now }
        ensures steps { (content : Content) (stores : List HashState) → HasMerged content stores sorted.now self.now → IsTrue content.honest → AreSound content.shown stores sorted.now
            → IsTrue result ↔ (steps_of self.now ≡ steps_for self.now (key_count (sources content.shown stores sorted.now))) }
    {
        if self.store < self.stores {
            return false;
        }
        if !self.waiting.is_empty() {
            return false;
        }
        self.passed >= sorted.len()
    }

    // Reads the next slots of a store, if none is ahead. Returns whether it read some.
    fn read_slots<D: Disk>(&mut self, stores: &[HashStore], disk: &D) -> Result<bool, D::Fault>
        requires more { self.old.store < self.old.stores }
        requires count { length stores.now ≡ self.old.stores }
        requires shapes { All (λ store. store.shape ≡ self.old.shape) stores.now }
        requires size { device_size self.old.shape ≤ size (D.content disk.now) }
        ensures state { MatchResult result (λ _. self.new ≡ record self.old { slots = self.new.slots }) (λ _. self.new ≡ self.old) }
        ensures slots { IfOk result (λ is_read. (ahead_without is_read self.new.slots ≡ self.old.slots) × (0 < length self.new.slots)) }
        ensures merged { (sorted : SortedState) → OnOk result (HasMerged (D.content disk.now) stores.now sorted self.old → HasMerged (D.content disk.now) stores.now sorted self.new) }
        ensures held { IsHeldMerge self.new }
        ensures fault { IfErr result (GaveAny D.gave disk.now) }
    {
        if !self.slots.is_empty() {
            return Ok(false);
        }
        let store = &stores[self.store as usize];
        self.slots.read_slots(store, disk, self.slot)?;
        Ok(true)
    }

    // Forgets the slots that are ahead, if they were read just now.
    fn forget_slots(&mut self, is_read: bool)
        ensures held { IsHeldMerge self.new }
        ensures state { self.new ≡ record self.old { slots = ahead_without is_read self.old.slots } }
    {
        if is_read {
            self.slots.clear();
        }
    }

    // The row of the next slot, which is ahead.
    fn row_ahead(&self) -> Option<Row>
        requires there { 0 < length self.now.slots }
        ensures { IsRowAt (row_of (get_or self.now.slots 0 [])) self.now.slot result }
    {
        self.slots.first_row(self.slot)
    }

    // Keeps the row of the next slot, unless a newer one of its key is kept, and goes on to the slot after it.
    fn take_row(&mut self, row: Option<Row>) -> Result<(), AllocError>
        requires more { self.old.store < self.old.stores }
        ensures gathers { OnOk result (Gathers self.old.store self.old.slot row self.old.waiting self.new.waiting) }
        ensures state { OnOk result (self.new ≡ record self.old {
          store = (slot_after self.old.store self.old.slot (4 * self.old.shape.buckets)).0;
          slot = (slot_after self.old.store self.old.slot (4 * self.old.shape.buckets)).1;
          waiting = self.new.waiting;
          slots = parts_after true self.old.slots;
          input = self.new.input;
        }) }
        ensures hashed { OnOk result ((bytes : List ℕ) → HasTaken self.old.input bytes → HasTaken self.new.input (input_after (ends_store self.old) bytes (get_or self.old.slots 0 []))) }
        ensures held { IsHeldMerge self.new }
        ensures err { OnErr result (self.new ≡ self.old) }
        ensures new_key { OnErr result (IsSomeAnd row (λ row. source_at self.old.waiting row.key.0 ≡ None)) }
    {
        if let Err(error) = keep(&mut self.waiting, self.store, self.slot, row) {
            return Err(error);
        }
        let slots = 4 * self.target.geometry.buckets();
        hash_slot(&mut self.input, self.slots.first(), self.slot + 1 == slots);
        (self.store, self.slot) = slot_after(self.store, self.slot, slots);
        self.slots.pass(true);
        Ok(())
    }

    // Notes whether the store at this place, of which a part was taken, is damaged.
    fn note(&mut self, fits: bool, place: Place)
        ensures state { self.new ≡ record self.old { damaged = finding fits place } }
        ensures held { IsHeldMerge self.new }
    {
        self.damaged = if fits { None } else { Some(place) };
    }

    // Whether the store fits its digest with the next slot, which is ahead: it is not the last one of its store, or all have the digest.
    fn may_take_slot(&self, store: &HashStore) -> bool
        requires there { 0 < length self.now.slots }
        ensures answer { (bytes : List ℕ) → HasTaken self.now.input bytes → MayTake (ends_store self.now) (bytes ++ get_or self.now.slots 0 []) store.now.digest result }
        ensures len { length (get_or self.now.slots 0 []) ≡ row_len self.now.shape }
        ensures held { IsHeldMerge self.now }
    {
        let slots = 4 * self.target.geometry.buckets();
        let ends = self.slot + 1 == slots;
        may_take(&self.input, self.slots.first(), ends, store.digest())
    }

    // Gathers the next slot, which is ahead.
    fn gather_ahead<D: Disk>(
        &mut self,
        stores: &[HashStore],
        disk: &D,
    ) -> Result<(), StepError<D::Fault>>
        requires more { self.old.store < self.old.stores }
        requires there { 0 < length self.old.slots }
        requires count { length stores.now ≡ self.old.stores }
        requires shapes { All (λ store. store.shape ≡ self.old.shape) stores.now }
        requires sound { self.old.damaged ≡ None }
        ensures step { (sorted : SortedState) (digest : List ℕ) → TakesStep D.Disk stores.now sorted digest disk.now disk.now self.old self.new result }
        ensures slot { OnOk result (GathersSlot self.old self.new) }
    {
        let store = &stores[self.store as usize];
        let fits = self.may_take_slot(store);
        let row = self.row_ahead();
        match self.take_row(row) {
            Ok(()) => {
                self.note(fits, Place::HashDigest(store.region()));
                Ok(())
            }
            Err(_) => Err(StepError::NoMemory),
        }
    }

    // Gathers one slot, and first reads the next ones if none is ahead.
    fn gather<D: Disk>(&mut self, stores: &[HashStore], disk: &D) -> Result<(), StepError<D::Fault>>
        requires more { self.old.store < self.old.stores }
        requires count { length stores.now ≡ self.old.stores }
        requires shapes { All (λ store. store.shape ≡ self.old.shape) stores.now }
        requires size { device_size self.old.shape ≤ size (D.content disk.now) }
        requires sound { self.old.damaged ≡ None }
        ensures { (sorted : SortedState) (digest : List ℕ) → TakesStep D.Disk stores.now sorted digest disk.now disk.now self.old self.new result }
    {
        let is_read = match self.read_slots(stores, disk) {
            Ok(is_read) => is_read,
            Err(fault) => return Err(StepError::Read(fault)),
        };
        match self.gather_ahead(stores, disk) {
            Ok(()) => Ok(()),
            Err(error) => {
                self.forget_slots(is_read);
                Err(error)
            }
        }
    }

    // Marks a key as decided, whose entry is written or not: no row waits for it any more, and the entry that has it is skipped.
    fn mark_decided(&mut self, choice: &Choice, is_written: bool)
        requires gathered { self.old.store ≡ self.old.stores }
        requires offered { IsOffered self.old.waiting self.old.last choice.now }
        requires passed { choice.now.passes ≡ true → self.old.passed + 1 < 2 ^ 32 }
        requires room { is_written ≡ true → self.old.written < self.old.shape.sorted_capacity }
        ensures held { IsHeldMerge self.new }
        ensures gone { (key : List ℕ) → source_at self.new.waiting key ≡ cond (bytes_eq choice.now.key.0 key) None (source_at self.old.waiting key) }
        ensures state { self.new ≡ record self.old {
          waiting = self.new.waiting;
          passed = passed_after choice.now.passes self.old.passed;
          written = written_after is_written self.old.written;
          decided = self.old.decided + 1;
          last = Some choice.now.key;
          ahead = parts_after choice.now.passes self.old.ahead;
          input = self.new.input;
        } }
        ensures hashed { (bytes : List ℕ) → HasTaken self.old.input bytes → HasTaken self.new.input (hashed_after choice.now.passes bytes (get_or self.old.ahead 0 [])) }
    {
        remove_waiting(&mut self.waiting, &choice.key);
        hash_skipped(&mut self.input, self.ahead.first(), choice.passes);
        self.passed = passed_after(choice.passes, self.passed);
        self.written = written_after(is_written, self.written);
        self.decided += 1;
        self.last = Some(choice.key);
        self.ahead.pass(choice.passes);
    }

    // Skips the next entry, whose key is not greater than the last one.
    fn pass_entry(&mut self)
        requires gathered { self.old.store ≡ self.old.stores }
        requires passed { self.old.passed + 1 < 2 ^ 32 }
        ensures held { IsHeldMerge self.new }
        ensures state { self.new ≡ record self.old { passed = self.old.passed + 1; decided = self.old.decided + 1; ahead = parts_after true self.old.ahead; input = self.new.input } }
        ensures hashed { (bytes : List ℕ) → HasTaken self.old.input bytes → HasTaken self.new.input (bytes ++ get_or self.old.ahead 0 []) }
    {
        self.input.update(self.ahead.first());
        self.passed += 1;
        self.decided += 1;
        self.ahead.pass(true);
    }

    // Reads the next entries of the sorted store, if none is ahead and not all are skipped. Returns whether it read some.
    fn read_ahead<D: Disk>(&mut self, sorted: &SortedEntries, disk: &D) -> Result<bool, D::Fault>
        requires shape { sorted.now.shape ≡ self.old.shape }
        requires size { device_size self.old.shape ≤ size (D.content disk.now) }
        ensures state { MatchResult result (λ _. self.new ≡ record self.old { ahead = self.new.ahead }) (λ _. self.new ≡ self.old) }
        ensures before { IfOk result (λ is_read. ahead_without is_read self.new.ahead ≡ self.old.ahead) }
        ensures there { OnOk result (self.old.passed < sorted.now.count → 0 < length self.new.ahead) }
        ensures merged { (stores : List HashState) → OnOk result (HasMerged (D.content disk.now) stores sorted.now self.old → HasMerged (D.content disk.now) stores sorted.now self.new) }
        ensures held { IsHeldMerge self.new }
        ensures fault { IfErr result (GaveAny D.gave disk.now) }
    {
        if !self.ahead.is_empty() {
            return Ok(false);
        }
        if self.passed >= sorted.len() {
            return Ok(false);
        }
        self.ahead.read_entries(sorted, disk, self.passed)?;
        Ok(true)
    }

    // Forgets the entries that are ahead, if they were read just now.
    fn forget_ahead(&mut self, is_read: bool)
        ensures held { IsHeldMerge self.new }
        ensures state { self.new ≡ record self.old { ahead = ahead_without is_read self.old.ahead } }
    {
        if is_read {
            self.ahead.clear();
        }
    }

    // Decides one key, with the next entry ahead: reads the value of the row that decides, and writes the entry if there is one to
    // write. The entry's key goes into the index before. So if there is no memory for it, nothing has changed.
    fn decide_next<D: Disk>(
        &mut self,
        stores: &[HashStore],
        sorted: &SortedEntries,
        digest: &Digest,
        disk: &mut D,
    ) -> Result<(), StepError<D::Fault>>
        requires more { is_done self.old sorted.now ≡ false }
        requires there { self.old.passed < sorted.now.count → 0 < length self.old.ahead }
        requires gathered { self.old.store ≡ self.old.stores }
        requires count { length stores.now ≡ self.old.stores }
        requires shapes { All (λ store. store.shape ≡ self.old.shape) stores.now }
        requires shape { sorted.now.shape ≡ self.old.shape }
        requires size { device_size self.old.shape ≤ size (D.content disk.old) }
        requires sound { self.old.damaged ≡ None }
        ensures { TakesStep D.Disk stores.now sorted.now digest.now.0 disk.old disk.new self.old self.new result }
    {
        let next = next_entry(sorted, &self.ahead, self.passed, &mut self.made);
        let is_behind = is_behind(self.last, next);
        let Some(choice) = choose(first(&self.waiting), next) else {
            return Ok(());
        };
        let passes = skips_entry(is_behind, &choice);
        let ends = ends_entries(passes, self.passed, sorted);
        let fits = may_take(&self.input, self.ahead.first(), ends, digest);
        if is_behind {
            self.pass_entry();
            self.note(fits, Place::SortedDigest);
            return Ok(());
        }
        if let Err(fault) = read_row(stores, disk, &choice, &mut self.made) {
            return Err(StepError::Read(fault));
        }
        let is_due = is_due(&choice, self.written, &self.target);
        if let Err(_) = index_key(&mut self.index, self.written, choice.key, is_due) {
            return Err(StepError::NoMemory);
        }
        match self
            .target
            .write_due(disk, self.written, is_due, &self.made)
        {
            Ok(_) => {
                hash_entry(&mut self.hasher, &self.made, is_due);
                self.mark_decided(&choice, is_due);
                self.note(fits, Place::SortedDigest);
                Ok(())
            }
            Err(fault) => Err(StepError::Write(fault)),
        }
    }

    // Decides one key, and first reads the next entries if none is ahead.
    fn decide<D: Disk>(
        &mut self,
        stores: &[HashStore],
        sorted: &SortedEntries,
        digest: &Digest,
        disk: &mut D,
    ) -> Result<(), StepError<D::Fault>>
        requires more { is_done self.old sorted.now ≡ false }
        requires gathered { self.old.store ≡ self.old.stores }
        requires count { length stores.now ≡ self.old.stores }
        requires shapes { All (λ store. store.shape ≡ self.old.shape) stores.now }
        requires shape { sorted.now.shape ≡ self.old.shape }
        requires size { device_size self.old.shape ≤ size (D.content disk.old) }
        requires sound { self.old.damaged ≡ None }
        ensures { TakesStep D.Disk stores.now sorted.now digest.now.0 disk.old disk.new self.old self.new result }
    {
        let is_read = match self.read_ahead(sorted, disk) {
            Ok(is_read) => is_read,
            Err(fault) => return Err(StepError::Read(fault)),
        };
        match self.decide_next(stores, sorted, digest, disk) {
            Ok(()) => Ok(()),
            Err(error) => {
                self.forget_ahead(is_read);
                Err(error)
            }
        }
    }

    /// The store that was found damaged: what was read of it does not have its digest. Then each later step is refused.
    pub fn damaged(&self) -> Option<Place>
        ensures { result ≡ self.now.damaged }
    {
        self.damaged
    }

    /// Takes the next step: gathers one slot, or decides one key. It makes at most two reads and then at most one write, of one
    /// entry, and no sync. It allocates memory for at most one row or one key of the index. Slots and entries are read once, in
    /// pieces of at most 64 KiB. If the step that read a piece fails, the piece is read again.
    ///
    /// As it takes the last slot of a hash store, it compares the digest of all the store's slots, as they were read, with the
    /// store's own. As it skips the last entry, it compares that of all entries with `digest`. If they differ, the store is damaged:
    /// the merge remembers that, and takes no further step.
    ///
    /// Pass the present stores, from the newest. The last of them must be those that the merge took. Newer ones may have come before
    /// them. `digest` is that of the sorted store.
    ///
    /// # Errors
    ///
    /// `Damaged` if an earlier step found a store damaged: nothing has changed, and each later step is refused alike. `Read` if a read
    /// failed, and `NoMemory`: nothing has changed, and the next step tries the same again. `Write` if the write failed: the merge
    /// promises nothing more.
    pub fn step<D: Disk>(
        &mut self,
        stores: &[HashStore],
        sorted: &SortedEntries,
        digest: &Digest,
        disk: &mut D,
    ) -> Result<(), StepError<D::Fault>>
        requires more { is_done self.old sorted.now ≡ false }
        requires count { self.old.stores ≤ length stores.now }
        requires shapes { All (λ store. store.shape ≡ self.old.shape) (oldest_stores self.old.stores stores.now) }
        requires shape { sorted.now.shape ≡ self.old.shape }
        requires size { device_size self.old.shape ≤ size (D.content disk.old) }
        ensures { TakesStep D.Disk (oldest_stores self.old.stores stores.now) sorted.now digest.now.0 disk.old disk.new self.old self.new result }
    {
        if let Some(place) = self.damaged {
            return Err(StepError::Damaged(place));
        }
        let (_newer, taken) = stores.split_at(stores.len() - self.stores as usize);
        if self.store < self.stores {
            return self.gather(taken, disk);
        }
        self.decide(taken, sorted, digest, disk)
    }

    /// Lends what is taken and not hashed yet, if it is 16 KiB or more, to be hashed elsewhere. Returns whether it did.
    pub fn lend(&self, lent: &mut LentBytes) -> bool
        ensures all { result ≡ true → self.now.input ≡ taken_after lent.new.before lent.new.bytes }
        ensures none { result ≡ false → lent.new.bytes ≡ [] }
        ensures unhashed { lent.new.after ≡ None }
    {
        self.input.lend(lent)
    }

    /// Takes what was hashed elsewhere. If it is of other bytes than those that wait here, nothing changes.
    pub fn take_back(&mut self, lent: &LentBytes)
        ensures { self.new ≡ self.old }
    {
        self.input.take_back(lent);
    }
}
