// Laws of images, for the crates above.
ghost use Rattle.silt_image.specs.Laws.{AgainLaw, AppendLaw, BeginningLaw, ChargeFoundLaw, ChargeLaw, DigestsLaw};
ghost use Rattle.silt_image.specs.Laws.{EmptyLaw, FirstEntryLaw, FirstFindingLaw, FirstSlotLaw, FormattedLaw, FrameLaw, FreeHashLaw};
ghost use Rattle.silt_image.specs.Laws.{FreeSortedLaw, FreezeLaw, FrozenLaw, HeaderLaw, LimitsLaw, LogRegionLaw, ManifestLaw, MeaningLaw, NewActiveLaw, NewLogLaw, NoStoresLaw};
ghost use Rattle.silt_image.specs.Laws.{OwnRowsLaw, PartsLaw, RowsLaw, SaidLaw, SoundLaw, StandsLaw, StoresLaw, TakenLaw, UnnamedLaw, VerdictLaw, WholeLaw};

/// A header reads back as it was written, whether its commit byte is open or not.
pub fn header_law()
    ensures { HeaderLaw }
{}

/// The test of a header's limits decides them.
pub fn limits_law()
    ensures { LimitsLaw }
{}

/// A device of the length that its header gives has the header's shape.
pub fn formatted_law()
    ensures { FormattedLaw }
{}

/// An image has these stores exactly if its shape and its current body are theirs, and the regions that the body names have their rows.
pub fn stores_law()
    ensures { StoresLaw }
{}

/// The digests of an image with stores are those after the current body.
pub fn digests_law()
    ensures { DigestsLaw }
{}

/// The properties of every image with stores.
pub fn whole_law()
    ensures { WholeLaw }
{}

/// Images that agree on all meaningful bytes have the same stores.
pub fn frame_law()
    ensures { FrameLaw }
{}

/// Images with the same stores mean the same.
pub fn meaning_law()
    ensures { MeaningLaw }
{}

/// A change in a log region changes only the rows of that log.
pub fn log_region_law()
    ensures { LogRegionLaw }
{}

/// The rows of a log that is not named do not matter.
pub fn unnamed_law()
    ensures { UnnamedLaw }
{}

/// A change in a hash region that the body does not name changes nothing.
pub fn free_hash_law()
    ensures { FreeHashLaw }
{}

/// A change in the sorted region that the body does not name changes nothing.
pub fn free_sorted_law()
    ensures { FreeSortedLaw }
{}

/// After a change in a manifest slot the stores are those that the new current body names.
pub fn manifest_law()
    ensures { ManifestLaw }
{}

/// A body that freezes the active log names the stores with a new log in front.
pub fn freeze_law()
    ensures { FreezeLaw }
{}

/// If there is no finding, there is none after the last rows of a log are dropped.
pub fn beginning_law()
    ensures { BeginningLaw }
{}

/// If there is no finding, there is none with one more row that fits into the table and the capacity.
pub fn taken_law()
    ensures { TakenLaw }
{}

/// If there is no finding, there is none with a new log.
pub fn frozen_law()
    ensures { FrozenLaw }
{}

/// If there is no finding, there are at most as many puts as the store may hold.
pub fn charge_law()
    ensures { ChargeLaw }
{}

/// Rows at the end of the active log are the last of all rows.
pub fn append_law()
    ensures { AppendLaw }
{}

/// A new log has no rows.
pub fn new_log_law()
    ensures { NewLogLaw }
{}

/// A log whose rows are replaced by its own is unchanged.
pub fn own_rows_law()
    ensures { OwnRowsLaw }
{}

/// If the rows of a log are replaced twice, the last ones stay.
pub fn again_law()
    ensures { AgainLaw }
{}

/// A new log in a region that no log has is the active one.
pub fn new_active_law()
    ensures { NewActiveLaw }
{}

/// An image is good exactly if it represents a map and the keys of its logs have places.
pub fn verdict_law()
    ensures { VerdictLaw }
{}

/// Stores whose digests the manifest gives have no finding exactly if they are sound and the digests are theirs.
pub fn said_law()
    ensures { SaidLaw }
{}

/// An image with stores is good exactly if they have no finding and the digests in its manifest are theirs.
pub fn sound_law()
    ensures { SoundLaw }
{}

/// An image with sound stores represents the map of their rows.
pub fn stands_law()
    ensures { StandsLaw }
{}

/// The rows of an image with stores are theirs.
pub fn rows_law()
    ensures { RowsLaw }
{}

/// A newly formatted device represents the empty map.
pub fn empty_law()
    ensures { EmptyLaw }
{}

/// The first finding in the first log that has one is the verdict.
pub fn first_finding_law()
    ensures { FirstFindingLaw }
{}

/// If an image has no stores because of a finding, that finding is its verdict.
pub fn no_stores_law()
    ensures { NoStoresLaw }
{}

/// There is no finding exactly if no part has one.
pub fn parts_law()
    ensures { PartsLaw }
{}

/// The first finding in the first hash store that has one is the verdict, if the logs have none.
pub fn first_slot_law()
    ensures { FirstSlotLaw }
{}

/// The first finding in the entries is the verdict, if the logs and the hash stores have none.
pub fn first_entry_law()
    ensures { FirstEntryLaw }
{}

/// If there is no other finding, too many puts are the verdict.
pub fn charge_found_law()
    ensures { ChargeFoundLaw }
{}
