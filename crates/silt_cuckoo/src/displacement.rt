//! The path along which entries move.

ghost use Rattle.std.specs.Prelude.{◌≡◌, ◌==◌, ℕ, ◌+◌, ◌/◌, ◌<◌, ◌≤◌, length, take, slice_index, [], ◌∷◌, ◌++◌, if◌then◌else◌};
ghost use Rattle.std.specs.List.{list_any};
ghost use Rattle.silt_cuckoo.specs.Placing.{PathPlan, other_bucket};
ghost use Rattle.silt_cuckoo.specs.declared.displacement.TheConstants.{LONGEST};

use std::marker::Model;

/// The longest path: 128 turns of a walk and the free slot at its end.
const LONGEST: usize = 129;

/// Where a new entry goes: the slots along which entries move to make room for it. The last of them is free.
///
/// It is valid only for the table as it was when the path was planned.
#[derive(Drop)]
pub struct Path {
    first: u32,
    second: u32,
    slots: [u32; LONGEST],
    len: usize,
}

impl Model for Path {
    ghost Value = { PathPlan };

    ghost view = { λ p. record { first = p.first; second = p.second; slots = take p.len p.slots } };

    ghost invariant = { λ p. p.len ≤ LONGEST };
}

impl Path {
    /// The empty path of a new entry of these two buckets.
    pub(crate) fn new(first: u32, second: u32) -> Self
        ensures { result ≡ record { first = first; second = second; slots = [] } }
    {
        Path {
            first,
            second,
            slots: [0; LONGEST],
            len: 0,
        }
    }

    /// The slots in order: the new entry's first, a free one last.
    pub fn slots(&self) -> &[u32]
        ensures { result.now ≡ self.now.slots }
    {
        &self.slots[..self.len]
    }

    /// The bucket in which the walk begins.
    pub(crate) fn first(&self) -> u32
        ensures { result ≡ self.now.first }
    {
        self.first
    }

    /// The slot of the new entry.
    pub(crate) fn start(&self) -> usize
        requires { 0 < length self.now.slots }
        ensures { result ≡ slice_index self.now.slots 0 }
    {
        self.slots[0] as usize
    }

    /// The tag of the new entry in this slot.
    pub(crate) fn tag_in(&self, slot: usize) -> u32
        ensures { result ≡ other_bucket self.now.first self.now.second slot }
    {
        if slot / 4 == self.first as usize {
            self.second
        } else {
            self.first
        }
    }

    /// Whether the path goes through a slot.
    pub(crate) fn contains(&self, slot: u32) -> bool
        ensures { result ≡ list_any (λ s. slot == s) self.now.slots }
    {
        self.slots().iter().any(|s| slot == *s)
    }

    /// Appends a slot.
    pub(crate) fn push(&mut self, slot: u32)
        requires { length self.old.slots < LONGEST }
        ensures { self.new ≡ record self.old { slots = self.old.slots ++ slot ∷ [] } }
    {
        self.slots[self.len] = slot;
        self.len += 1;
    }
}
