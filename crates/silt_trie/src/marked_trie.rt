//! Code with marks of its own.
ghost use Rattle.std.specs.Prelude.{◌≡◌, ℕ, ◌+◌, ◌-◌, ◌*◌, ◌/◌, ◌^◌, ◌<◌, ◌≤◌, [], ◌∷◌, ◌++◌, length, min, IfOk, IfSome};
ghost use Rattle.silt_trie.specs.Marks.{IsMarkedPlace, IsPlaceBetween, MarkedCode};

use super::key_place::locate_from;
use super::marks::{MOST_LEVELS, Mark, prefix_number};
use silt_frame::Key;
use silt_gamma::BitWriter;
use std::marker::Model;
use std::mem::size_of;

/// The greatest number of keys of a mark, if keys are spread evenly: 16 for each of its parts.
const KEYS_A_MARK: usize = 512;

/// The codes of groups of keys, with marks of all prefixes of some bits. A look-up reads only the
/// code of the keys with one prefix, and skips the parts of it that lie on the left.
#[derive(Drop)]
pub struct MarkedTrie {
    bits: BitWriter,
    marks: Vec<Mark>,
    count: usize,
    depth: usize,
    groups: usize,
    levels: usize,
}

impl Model for MarkedTrie {
    ghost Value = { MarkedCode };

    ghost view = { λ t. record {
      code = t.bits;
      marks = t.marks.items;
      count = t.count;
      depth = t.depth;
      groups = t.groups;
      levels = t.levels;
    } };

    ghost invariant = { λ t. (t.depth + t.levels ≤ 160) × (t.levels ≤ 24) × (t.groups ≤ t.levels) };
}

impl MarkedTrie {
    /// The trie with this code of groups by first byte, and with these marks. Frees the memory that they do not need.
    pub(crate) fn of_groups(
        mut bits: BitWriter,
        mut marks: Vec<Mark>,
        count: usize,
        levels: usize,
    ) -> MarkedTrie
        requires { (8 ≤ levels) × (levels ≤ 24) }
        ensures { result ≡ record { code = bits; marks = marks.items; count = count; depth = 0; groups = 8; levels = levels } }
    {
        marks.shrink_to_fit();
        bits.shrink_to_fit();
        MarkedTrie {
            bits,
            marks,
            count,
            depth: 0,
            groups: 8,
            levels,
        }
    }

    /// The number of keys.
    pub fn len(&self) -> usize
        ensures { result ≡ self.now.count }
    {
        self.count
    }

    /// The memory of code and marks, in bytes, or the greatest `usize`.
    pub fn memory(&self) -> usize
        ensures { result ≡ min ((length self.now.code + 7) / 8 + 72 * length self.now.marks) (2 ^ 64 - 1) }
    {
        let code = self.bits.len().div_ceil(8);
        code.saturating_add(self.marks.len().saturating_mul(size_of::<Mark>()))
    }

    /// The only possible place of the key. `None` if the key is certainly not one of them. It reads
    /// the code of the keys that have the key's prefix, and no other.
    pub fn locate_marked(&self, key: &Key) -> Option<usize>
        ensures below { IfSome result (λ place. place < self.now.count) }
        ensures place { IsMarkedPlace self.now key.now.0 result }
    {
        let at = prefix_number(key, self.depth, self.levels);
        if at + 1 >= self.marks.len() {
            return None;
        }
        let (mark, next) = (&self.marks[at], &self.marks[at + 1]);
        let found = locate_between(&self.bits, mark, next, self.depth + self.levels, key);
        match found {
            Some(place) if place < self.count => Some(place),
            _ => None,
        }
    }
}

/// The only possible place of a key among the keys from one mark up to the next. Their code begins
/// at the first mark, and they agree in their first `depth` bits.
pub fn locate_between(
    bits: &BitWriter,
    mark: &Mark,
    next: &Mark,
    depth: usize,
    key: &Key,
) -> Option<usize>
    ensures within { IfSome result (λ place. (mark.now.place ≤ place) × (place < next.now.place)) }
    ensures place { IsPlaceBetween bits.now mark.now next.now depth key.now.0 result }
{
    if next.place <= mark.place {
        return None;
    }
    let count = next.place - mark.place;
    let start = (mark.start as usize).min(bits.len());
    let end = (next.start as usize).min(bits.len()).max(start);
    let mut part = bits.reader(start, end - start);
    let found = locate_from(&mut part, count, depth, key, &mark.skips);
    Some(mark.place as usize + found as usize)
}

/// How many bits to mark so many keys in groups by: 8, which are the groups, and as many more, up
/// to 16, as leave at most 512 keys a mark if they are spread evenly.
pub fn levels_for(count: usize) -> usize
    ensures groups { 8 ≤ result }
    ensures most { result ≤ 24 }
    ensures enough { result < 24 → count ≤ 512 * 2 ^ result }
    ensures least { 8 < result → 512 * 2 ^ (result - 1) < count }
{
    for levels in 8..MOST_LEVELS {
        if count <= KEYS_A_MARK << levels {
            return levels;
        }
    }
    MOST_LEVELS
}
