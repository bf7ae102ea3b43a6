//! Laws of the placing rule, for the crates above.

ghost use Rattle.silt_cuckoo.specs.Laws.{FindLaw, IndexLaw, PairLaw, PushLaw, ReplaceLaw, TableLaw};

/// Placing a new place adds its pair, and changes no other.
pub fn pair_law()
    ensures { PairLaw }
{}

/// After a new place is placed, the table is still a table.
pub fn table_law()
    ensures { TableLaw }
{}

/// An entry that takes a new place keeps its pair.
pub fn replace_law()
    ensures { ReplaceLaw }
{}

/// A further key is placed in the table of the keys before it, or its old entry takes the new place.
pub fn push_law()
    ensures { PushLaw }
{}

/// The table of some keys has the newest place of each key, under the key's two buckets, and no other place.
pub fn index_law()
    ensures { IndexLaw }
{}

/// The slot of a key in the table of some keys is the slot of the first candidate whose place belongs to the key.
pub fn find_law()
    ensures { FindLaw }
{}
