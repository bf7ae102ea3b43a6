// Laws of merges, for the crates above.
ghost use Rattle.silt_merge.specs.Laws.{KeyCountLaw, MergedCountLaw, MergedElsewhereLaw, MergedLaw, OldestStoresLaw, SoundStoresLaw};

/// The newest rows that are puts are a merge of all rows.
pub fn merged_law()
    ensures { MergedLaw }
{}

/// There are at most as many keys as rows, and at most as many entries as puts.
pub fn key_count_law()
    ensures { KeyCountLaw }
{}

/// There are as many entries as keys that have a value.
pub fn merged_count_law()
    ensures { MergedCountLaw }
{}

/// Stores that match an honest disk are sound.
pub fn sound_stores_law()
    ensures { SoundStoresLaw }
{}

/// A change elsewhere leaves what a merge has gathered and written.
pub fn merged_elsewhere_law()
    ensures { MergedElsewhereLaw }
{}

/// The stores that a merge took are still the oldest ones after newer stores came.
pub fn oldest_stores_law()
    ensures { OldestStoresLaw }
{}
