//! Marks into code, so that a look-up reads a small part of it.
ghost use Rattle.std.specs.Prelude.{◌≡◌, ◌+◌, ◌^◌, ◌<◌, ◌≤◌};
ghost use Rattle.silt_trie.specs.Marks.{GroupsLaw, MarkLaw, number_of_bits, prefix_of};

use super::key::key_bit;
use silt_frame::Key;

/// How many bits after its prefix a mark covers: it divides its keys into 32 parts.
const SKIP_LEVELS: usize = 5;

/// The number of skips in a mark.
pub(crate) const SKIPS: usize = (1 << SKIP_LEVELS) - 1;

/// Where the code of the keys with one prefix begins in some code, and how many keys come before
/// them.
///
/// The code of the keys has the number of keys on the left, but not where the code of the others
/// begins. So `skips` holds how many bits the code of the keys on the left takes: of all keys with
/// the prefix, then of both parts that the next bit makes of them, and so on for five bits. The
/// left part with all its parts comes first. A skip of 65,535 means 65,535 bits or more.
#[derive(Clone, Copy, Debug, PartialEq, Eq)]
pub struct Mark {
    pub start: u32,
    pub place: u32,
    pub skips: [u16; SKIPS],
}

/// The greatest number of bits by which keys can be marked.
pub const MOST_LEVELS: usize = 24;

/// The meaning of the marks of keys. Its call does nothing: what it ensures is proved for all keys.
pub fn mark_law()
    ensures { MarkLaw }
{}

/// The code of keys in groups is the code of each group in turn. Its call does nothing.
pub fn groups_law()
    ensures { GroupsLaw }
{}

/// The number that `levels` bits of a key make, from `depth` on.
pub(crate) fn prefix_number(key: &Key, depth: usize, levels: usize) -> usize
    requires within { depth + levels ≤ 160 }
    requires few { levels ≤ 24 }
    ensures { result ≡ number_of_bits (prefix_of levels depth key.now.0) }
{
    let mut number = 0;
    for at in depth..depth + levels {
        number = 2 * number + usize::from(key_bit(key, at));
    }
    number
}
