// The order of keys.
ghost use Rattle.std.specs.Prelude.{◌≡◌, ◌↔◌, Some, IsTrue};
ghost use Rattle.silt_dump.specs.Order.{IsAbove, TakesLowest};

use crate::spot::Spot;
use silt_frame::Key;
use std::collections::BTreeMap;

// Whether a key is above the last one; each is if there was none.
pub fn is_above(key: &Key, last: &Option<Key>) -> bool
    ensures { IsTrue result ↔ IsAbove last.now key.now }
{
    match last {
        Some(last) => last.cmp(key).is_lt(),
        None => true,
    }
}

// Whether the next entry has this key.
pub fn has_key(entry: &Option<Key>, key: &Key) -> bool
    ensures { IsTrue result ↔ (entry.now ≡ Some key.now) }
{
    match entry {
        Some(next) => next == key,
        None => false,
    }
}

// Takes out the lowest key with its spot, unless the next entry has a lower key.
pub fn take_lowest(spots: &mut BTreeMap<Key, Spot>, entry: &Option<Key>) -> Option<(Key, Spot)>
    ensures { TakesLowest entry.now spots.old spots.new result }
{
    let (first, _spot) = spots.first_key_value()?;
    match entry {
        Some(next) if next.cmp(first).is_lt() => None,
        _ => spots.pop_first(),
    }
}
