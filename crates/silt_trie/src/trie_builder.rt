//! Builds a trie with marks from keys that come one after the other.
ghost use Rattle.std.specs.Prelude.{◌≡◌, ℕ, true, false, None, ◌+◌, ◌-◌, ◌^◌, ◌<◌, ◌≤◌, List, [], ◌∷◌, ◌++◌, Some, Ok, Option, length, IsSome, IsTrue, IfOk, OnOk, OnErr};
ghost use Rattle.std.specs.Ordering.{nat_cmp, is_lt};
ghost use Rattle.std.specs.Cmp.Lexicographic.{slice_cmp};
ghost use Rattle.silt_trie.specs.Building.{Building, HasGroups, IsBuildingOf, IsHeldBuilding, IsTrieOf, MayFollow, SuitsKeys, group_of, group_under_way, is_above, trie_in};
ghost use Rattle.silt_trie.specs.Code.{IsCodable};
ghost use Rattle.silt_trie.specs.Coded.{Grows, bytes_of};
ghost use Rattle.silt_trie.specs.Marks.{IsMadeOf, MarkedCode};

use super::marked_code::{push_mark, write_marked};
use super::marked_trie::{MarkedTrie, levels_for};
use super::marks::{Mark, SKIPS};
use silt_frame::{KEY_LEN, Key};
use silt_gamma::BitWriter;
use std::alloc::{AllocError, Global};
use std::marker::Model;
use std::ops::Range;

/// The number of bits by which keys are grouped: the first byte.
const GROUP_BITS: usize = 8;

/// The number of groups.
const GROUPS: usize = 1 << GROUP_BITS;

/// Keys in groups by their first byte, with the code and the marks of all groups but that of the last key, whose keys wait.
#[derive(Drop)]
struct Groups {
    bits: BitWriter,
    marks: Vec<Mark>,
    group: Vec<Key>,
    count: usize,
    last: Option<Key>,
    levels: usize,
}

impl Model for Groups {
    ghost Value = { Building };

    ghost view = { λ b. record {
      code = b.bits;
      marks = b.marks.items;
      group = b.group.items;
      count = b.count;
      last = b.last;
      levels = b.levels;
    } };

    ghost invariant = { λ b. IsHeldBuilding (record {
      code = b.bits;
      marks = b.marks.items;
      group = b.group.items;
      count = b.count;
      last = b.last;
      levels = b.levels;
    }) };
}

impl Groups {
    // No keys yet, with marks for about this many.
    fn new(alloc: Global, count: usize) -> Groups
        ensures empty { IsBuildingOf [] result }
        ensures none { result.last ≡ None }
        ensures count { result.count ≡ 0 }
        ensures levels { SuitsKeys count result.levels }
    {
        Groups {
            bits: BitWriter::new(alloc),
            marks: Vec::new(alloc),
            group: Vec::new(alloc),
            count: 0,
            last: None,
            levels: levels_for(count),
        }
    }

    // Takes one more key if it is greater than the last one, and else changes nothing. Returns
    // whether it took the key. After an error nothing has changed.
    fn push(&mut self, key: Key) -> Result<bool, AllocError>
        requires few { self.old.count + 2 < 2 ^ 32 }
        ensures taken { IfOk result (λ taken. taken ≡ is_above self.old.last key.0) }
        ensures built { result ≡ Ok true → (keys : List (List ℕ)) → IsBuildingOf keys self.old
            → IsBuildingOf (keys ++ key.0 ∷ []) self.new }
        ensures last { result ≡ Ok true
            → (self.new.last ≡ Some key) × (self.new.count ≡ self.old.count + 1) }
        ensures stays { result ≡ Ok false → self.new ≡ self.old }
        ensures levels { IfOk result (λ taken. self.new.levels ≡ self.old.levels) }
        ensures err { OnErr result (self.new ≡ self.old) }
    {
        if !is_above(self.last, &key) {
            return Ok(false);
        }
        self.group.reserve(1)?;
        let (first, next) = (group_under_way(self.last), group_of(&key));
        if first < next {
            code_groups(
                &mut self.bits,
                &mut self.marks,
                &self.group,
                self.count,
                self.levels,
                first..next,
            )?;
            self.group.clear();
        }
        self.group.push_reserved(key);
        self.last = Some(key);
        self.count += 1;
        Ok(true)
    }

    // How much of code and marks there is.
    fn size(&self) -> Cut
        ensures { result ≡ record { bits = length self.now.code; marks = length self.now.marks } }
    {
        Cut {
            bits: self.bits.len(),
            marks: self.marks.len(),
        }
    }

    // Codes the last group, and puts the mark behind all keys: so code and marks are those of a trie. After an error nothing has changed.
    fn complete(&mut self) -> Result<(), AllocError>
        ensures rest { self.new ≡ record self.old { code = self.new.code; marks = self.new.marks } }
        ensures grows { Grows self.old.code self.new.code × Grows self.old.marks self.new.marks }
        ensures made { OnOk result ((keys : List (List ℕ)) → IsBuildingOf keys self.old → IsMadeOf keys (trie_in self.new)) }
        ensures err { OnErr result (self.new ≡ self.old) }
    {
        let (len, marked) = (self.bits.len(), self.marks.len());
        match self.append_rest() {
            Ok(()) => Ok(()),
            Err(fault) => {
                self.bits.truncate(len);
                self.marks.truncate(marked);
                Err(fault)
            }
        }
    }

    // The same. After an error part of both may have been appended.
    fn append_rest(&mut self) -> Result<(), AllocError>
        ensures rest { self.new ≡ record self.old { code = self.new.code; marks = self.new.marks } }
        ensures grows { Grows self.old.code self.new.code × Grows self.old.marks self.new.marks }
        ensures made { OnOk result ((keys : List (List ℕ)) → IsBuildingOf keys self.old → IsMadeOf keys (trie_in self.new)) }
    {
        write_groups(
            &mut self.bits,
            &mut self.marks,
            &self.group,
            self.count,
            self.levels,
            group_under_way(self.last)..GROUPS,
        )?;
        push_mark(
            &mut self.marks,
            self.bits.len(),
            self.count as u32,
            [0; SKIPS],
        )?;
        Ok(())
    }
}

/// How much of code and marks there was before the last group was coded.
#[derive(Clone, Copy)]
struct Cut {
    bits: usize,
    marks: usize,
}

/// A [`MarkedTrie`] that is being built, of keys in groups by their first byte. It holds the keys
/// of one group at a time, and codes a group when a key of a later one comes. Once it is sealed, it has the whole trie.
#[derive(Drop)]
pub struct MarkedTrieBuilder {
    groups: Groups,
    cut: Option<Cut>,
}

impl Model for MarkedTrieBuilder {
    ghost use Rattle.std.specs.Prelude.{IfSome, Some};
    ghost use Rattle.std.specs.Option.{option_map};
    ghost use Rattle.silt_trie.specs.Building.{BuilderState, IsTrieOf, opened, trie_in};

    ghost Value = { BuilderState };

    ghost view = { λ b. record { building = opened b.cut b.groups; sealed = option_map (λ _. trie_in b.groups) b.cut } };

    ghost invariant = { λ b. IfSome b.cut (λ cut. IsTrieOf (opened (Some cut) b.groups) (trie_in b.groups)) };
}

impl MarkedTrieBuilder {
    /// A trie of no keys yet, with marks for about this many.
    pub fn new(alloc: Global, count: usize) -> MarkedTrieBuilder
        ensures empty { IsBuildingOf [] result.building }
        ensures none { result.building.last ≡ None }
        ensures count { result.building.count ≡ 0 }
        ensures levels { SuitsKeys count result.building.levels }
        ensures open { result.sealed ≡ None }
    {
        MarkedTrieBuilder {
            groups: Groups::new(alloc, count),
            cut: None,
        }
    }

    /// How many keys were taken.
    pub fn len(&self) -> usize
        ensures { result ≡ self.now.building.count }
    {
        self.groups.count
    }

    /// Takes one more key if it is greater than the last one, and else changes nothing. Returns
    /// whether it took the key. After an error nothing has changed: out of memory, or it is sealed.
    pub fn push(&mut self, key: Key) -> Result<bool, AllocError>
        requires few { self.old.building.count + 2 < 2 ^ 32 }
        ensures taken { IfOk result (λ taken. taken ≡ is_above self.old.building.last key.0) }
        ensures built { result ≡ Ok true → (keys : List (List ℕ)) → IsBuildingOf keys self.old.building
            → IsBuildingOf (keys ++ key.0 ∷ []) self.new.building }
        ensures last { result ≡ Ok true
            → (self.new.building.last ≡ Some key) × (self.new.building.count ≡ self.old.building.count + 1) }
        ensures stays { result ≡ Ok false → self.new ≡ self.old }
        ensures levels { IfOk result (λ taken. self.new.building.levels ≡ self.old.building.levels) }
        ensures sealed { self.new.sealed ≡ self.old.sealed }
        ensures err { OnErr result (self.new ≡ self.old) }
    {
        match &self.cut {
            None => self.groups.push(key),
            Some(_) => Err(AllocError),
        }
    }

    /// Makes the trie of the keys that were taken, in the same memory. After an error nothing has changed, so it takes keys and can be
    /// asked again.
    pub fn seal(&mut self) -> Result<(), AllocError>
        ensures made { OnOk result ((made : MarkedCode) × (self.new ≡ record { building = self.old.building; sealed = Some made }) × IsTrieOf self.old.building made) }
        ensures err { OnErr result (self.new ≡ self.old) }
    {
        if self.cut.is_some() {
            return Ok(());
        }
        let cut = self.groups.size();
        self.groups.complete()?;
        self.cut = Some(cut);
        Ok(())
    }

    /// The trie that was made. Frees the memory that it does not need.
    pub fn into_trie(self) -> MarkedTrie
        requires { IsSome self.sealed }
        ensures { self.sealed ≡ Some result }
    {
        let Groups {
            bits,
            marks,
            count,
            levels,
            ..
        } = self.groups;
        MarkedTrie::of_groups(bits, marks, count, levels)
    }

    /// The trie of the keys that were taken.
    ///
    /// # Errors
    ///
    /// Out of memory.
    pub fn finish(self) -> Result<MarkedTrie, AllocError>
        ensures { IfOk result (IsTrieOf self.building) }
    {
        let mut builder = self;
        builder.seal()?;
        Ok(builder.into_trie())
    }
}

/// Room for all marks of so many levels: one of each prefix, and the one behind all keys. So they do not move while a merge ends.
fn reserve_marks(marks: &mut Vec<Mark>, levels: usize) -> Result<(), AllocError>
    requires { levels ≤ 24 }
    ensures { marks.new.items ≡ marks.old.items }
{
    let all = (1 << levels) + 1;
    marks.reserve_exact(all - marks.len().min(all))
}

/// Appends code and marks of these groups. The first one has these keys, and the others are empty;
/// `count` keys are all so far. After an error nothing has changed.
fn code_groups(
    bits: &mut BitWriter,
    marks: &mut Vec<Mark>,
    keys: &[Key],
    count: usize,
    levels: usize,
    groups: Range<usize>,
) -> Result<(), AllocError>
    requires some { (groups.start < groups.end) × (groups.end ≤ 256) }
    requires levels { (8 ≤ levels) × (levels ≤ 24) }
    requires few { (length keys.now ≤ count) × (count < 2 ^ 32) }
    requires codable { IsCodable (bytes_of keys.now) 8 }
    ensures coded { OnOk result ((all : List (List ℕ)) (last : Option Key)
        → HasGroups groups.start all (record { code = bits.old; marks = marks.old.items; group = keys.now; count = count; last = last; levels = levels })
        → HasGroups groups.end all (record { code = bits.new; marks = marks.new.items; group = []; count = count; last = last; levels = levels })) }
    ensures err { OnErr result ((bits.new ≡ bits.old) × (marks.new.items ≡ marks.old.items)) }
{
    reserve_marks(marks, levels)?;
    let (len, marked) = (bits.len(), marks.len());
    match write_groups(bits, marks, keys, count, levels, groups) {
        Ok(()) => Ok(()),
        Err(fault) => {
            bits.truncate(len);
            marks.truncate(marked);
            Err(fault)
        }
    }
}

/// The same. After an error part of both may have been appended.
fn write_groups(
    bits: &mut BitWriter,
    marks: &mut Vec<Mark>,
    keys: &[Key],
    count: usize,
    levels: usize,
    groups: Range<usize>,
) -> Result<(), AllocError>
    requires some { (groups.start < groups.end) × (groups.end ≤ 256) }
    requires levels { (8 ≤ levels) × (levels ≤ 24) }
    requires few { (length keys.now ≤ count) × (count < 2 ^ 32) }
    requires codable { IsCodable (bytes_of keys.now) 8 }
    ensures coded { OnOk result ((all : List (List ℕ)) (last : Option Key)
        → HasGroups groups.start all (record { code = bits.old; marks = marks.old.items; group = keys.now; count = count; last = last; levels = levels })
        → HasGroups groups.end all (record { code = bits.new; marks = marks.new.items; group = []; count = count; last = last; levels = levels })) }
    ensures grows { Grows bits.old bits.new × Grows marks.old.items marks.new.items }
{
    let mut waiting = keys;
    let first = groups.start;
    for _group in first..groups.end {
        let place = (count - waiting.len()) as u32;
        let below = levels - GROUP_BITS;
        write_marked(bits, marks, waiting, place, GROUP_BITS, below)?;
        waiting = &[];
    }
    Ok(())
}

/// The group of a key.
fn group_of(key: &Key) -> usize
    ensures group { result ≡ group_of key.now.0 }
    ensures within { result < 256 }
{
    usize::from(key.0[0])
}

/// The present group: that of the last key.
fn group_under_way(last: Option<Key>) -> usize
    ensures group { result ≡ group_under_way last }
    ensures within { result < 256 }
{
    match last {
        Some(last) => group_of(&last),
        None => 0,
    }
}

/// Whether a key is greater than the last one.
fn is_above(last: Option<Key>, key: &Key) -> bool
    ensures above { result ≡ is_above last key.now.0 }
    ensures next { IsTrue result → (before : Key) → last ≡ Some before → MayFollow before.0 key.now.0 }
{
    match last {
        Some(last) => is_below(&last.0, &key.0),
        None => true,
    }
}

/// Whether the bytes of the first key are less than those of the second.
fn is_below(low: &[u8; KEY_LEN], high: &[u8; KEY_LEN]) -> bool
    ensures below { result ≡ is_lt (slice_cmp nat_cmp low.now high.now) }
    ensures next { IsTrue result → MayFollow low.now high.now }
{
    low.cmp(high).is_lt()
}
