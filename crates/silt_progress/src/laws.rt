// Laws of background work, for the callers.
ghost use Rattle.silt_progress.specs.Laws.{BackgroundLaw, ConvertAllLaw, ConvertIdleLaw, ConvertRunLaw, ConvertStepLaw, FreesLaw, KeptLaw, MergeEndLaw, MergeIdleLaw, MergeLengthLaw, MergeRunLaw};
ghost use Rattle.silt_progress.specs.Laws.{MergeStepLaw, MergeTurnLaw, NoRoomLaw, OpenedLaw, RestLaw, RoomLaw, WaitLaw, WholeMergeLaw};

use silt_disk::Disk;

/// A store that was opened on a disk that obeys the crash model is sized.
pub fn opened_law<D: Disk>()
    ensures { OpenedLaw D.Disk }
{}

/// A store stays sized through each run that does not make it fail.
pub fn kept_law<D: Disk>()
    ensures { KeptLaw D.Disk }
{}

/// A step of conversion that is done leaves one step fewer to do.
pub fn convert_step_law<D: Disk>()
    ensures { ConvertStepLaw D.Disk }
{}

/// A conversion has nothing to do exactly if there are no steps to do. Then no log is frozen, and no conversion is in progress.
pub fn convert_idle_law<D: Disk>()
    ensures { ConvertIdleLaw D }
{}

/// After as many steps of conversion as there are to do, a conversion has nothing to do.
pub fn convert_run_law<D: Disk>()
    ensures { ConvertRunLaw D.Disk }
{}

/// If there is a free hash region for each frozen log, all these steps are done unless one is refused.
pub fn convert_all_law<D: Disk>()
    ensures { ConvertAllLaw D.Disk }
{}

/// After the steps of one conversion a log region is free.
pub fn frees_law<D: Disk>()
    ensures { FreesLaw D.Disk }
{}

/// Merging has nothing to do exactly if there is no hash store and no merge is in progress.
pub fn merge_idle_law<D: Disk>()
    ensures { MergeIdleLaw D }
{}

/// No merge takes more steps in all than were counted.
pub fn merge_length_law<D: Disk>()
    ensures { MergeLengthLaw D }
{}

/// A step of merging that goes on leaves one step fewer.
pub fn merge_step_law<D: Disk>()
    ensures { MergeStepLaw D.Disk }
{}

/// The step that finishes a merge is the last one that it takes. If it took all hash stores, merging then has nothing to do.
pub fn merge_end_law<D: Disk>()
    ensures { MergeEndLaw D.Disk }
{}

/// A whole merge takes one step for each slot, one for each key, and one that finishes it.
pub fn whole_merge_law<D: Disk>()
    ensures { WholeMergeLaw D.Disk }
{}

/// After as many steps as a merge can take, the next merge takes all hash stores.
pub fn merge_turn_law<D: Disk>()
    ensures { MergeTurnLaw D.Disk }
{}

/// If a merge takes all hash stores, merging has nothing to do after as many steps as it can take.
pub fn merge_run_law<D: Disk>()
    ensures { MergeRunLaw D.Disk }
{}

/// Steps of background work that are all done, in any order, come to an end: there are at most as many as were counted.
pub fn background_law<D: Disk>()
    ensures { BackgroundLaw D.Disk }
{}

/// A store with no step of background work to do has nothing to convert and nothing to merge.
pub fn rest_law<D: Disk>()
    ensures { RestLaw D }
{}

/// With a free log region, or with nothing to convert, no call is refused for lack of room.
pub fn room_law<D: Disk>()
    ensures { RoomLaw D.Disk }
{}

/// If a conversion waits for a hash region, there is a step of merging to do.
pub fn wait_law<D: Disk>()
    ensures { WaitLaw D }
{}

/// If a call is refused for lack of room, there is a step of background work to do.
pub fn no_room_law<D: Disk>()
    ensures { NoRoomLaw D.Disk }
{}
