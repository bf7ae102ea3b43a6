//! The result of a look-up.

ghost use Rattle.std.specs.Prelude.{◌≡◌, ℕ, ◌+◌, ◌*◌, ◌<◌, ◌≤◌, ◌^◌, ◌==◌, not, length, List, take, [], ◌∷◌, ◌++◌};
ghost use Rattle.silt_cuckoo.specs.Packed.{unpacked_all};
ghost use Rattle.silt_cuckoo.specs.declared.lookup.Candidate.{Candidate};
ghost use Rattle.silt_cuckoo.specs.Lookup.{match_at, matches_in, candidates_of};

use crate::slot::{Slot, entry_at};
use std::marker::Model;

/// An entry that may belong to the key that is looked up: its slot and its place.
#[derive(Clone, Copy, PartialEq, Eq, Debug)]
pub struct Candidate {
    pub slot: usize,
    pub place: u32,
}

/// The entries of two buckets, at most eight, in a fixed order.
#[derive(Drop)]
pub struct Candidates {
    found: [Candidate; 8],
    len: usize,
}

impl Model for Candidates {
    ghost Value = { List Candidate };

    ghost view = { λ c. take c.len c.found };

    ghost invariant = { λ c. c.len ≤ 8 };
}

impl Candidates {
    /// No candidates.
    fn new() -> Self
        ensures { result ≡ [] }
    {
        Candidates {
            found: [Candidate { slot: 0, place: 0 }; 8],
            len: 0,
        }
    }

    /// The entries of these two buckets, those in the first before those in the second.
    pub(crate) fn of(slots: &[Slot], first: u32, second: u32) -> Self
        requires first_there { 4 * first + 4 ≤ length slots.now }
        requires second_there { 4 * second + 4 ≤ length slots.now }
        ensures { result ≡ candidates_of (unpacked_all slots.now) first second }
    {
        let mut found = Candidates::new();
        found.add_matches(slots, first, second);
        if first != second {
            found.add_matches(slots, second, first);
        }
        found
    }

    /// The candidates in order.
    pub fn as_slice(&self) -> &[Candidate]
        ensures { result.now ≡ self.now }
    {
        &self.found[..self.len]
    }

    /// Appends a candidate.
    fn push(&mut self, candidate: Candidate)
        requires { length self.old < 8 }
        ensures { self.new ≡ self.old ++ candidate ∷ [] }
    {
        self.found[self.len] = candidate;
        self.len += 1;
    }

    /// Adds the entries of a bucket that have this tag.
    fn add_matches(&mut self, slots: &[Slot], bucket: u32, tag: u32)
        requires room { length self.old ≤ 4 }
        requires there { 4 * bucket + 4 ≤ length slots.now }
        ensures added { self.new ≡ self.old ++ matches_in (unpacked_all slots.now) bucket tag }
        ensures at_most { length self.new ≤ length self.old + 4 }
    {
        let start = 4 * bucket as usize;
        for slot in start..start + 4 {
            if let Some(candidate) = match_at(slots, tag, slot) {
                self.push(candidate);
            }
        }
    }
}

/// Whether a bucket has an entry with this tag. Nearly always it has none. So this compares all four slots, and does not branch on
/// each.
pub fn has_match(slots: &[Slot], bucket: u32, tag: u32) -> bool
    requires there { 4 * bucket + 4 ≤ length slots.now }
    requires tag { tag < 2 ^ 15 }
    ensures { result ≡ not (length (matches_in (unpacked_all slots.now) bucket tag) == 0) }
{
    let start = 4 * bucket as usize;
    let four = &slots[start..start + 4];
    four[0].has_tag(tag) | four[1].has_tag(tag) | four[2].has_tag(tag) | four[3].has_tag(tag)
}

/// The entry in a slot, if it has this tag.
fn match_at(slots: &[Slot], tag: u32, slot: usize) -> Option<Candidate>
    requires { slot < length slots.now }
    ensures { result ≡ match_at (unpacked_all slots.now) tag slot }
{
    match entry_at(slots, slot) {
        Some((its_tag, place)) if its_tag == tag => Some(Candidate { slot, place }),
        _ => None,
    }
}
