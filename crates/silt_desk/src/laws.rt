// Laws of recorded calls, for the callers.
ghost use Rattle.silt_desk.specs.History.{OthersStayLaw};
ghost use Rattle.silt_desk.specs.Seeing.{BatchCostLaw};
ghost use Rattle.silt_desk.specs.Servings.{FollowsLaw, HeldLaw, ServingsLaw};

use silt_disk::Disk;

/// A call of one seat leaves the recorded calls of every other seat as they are.
pub fn others_stay_law()
    ensures { OthersStayLaw }
{}

/// Over any list of servings of one device, the calls of each have the replies of a plain map, and the next one begins at the map that is
/// left: that of a beginning of the accepted commands that holds every acknowledged one.
pub fn servings_law<D: Disk>()
    ensures { ServingsLaw D.Disk }
{}

/// A crash leaves what the next serving may find, and so does an end without one.
pub fn follows_law()
    ensures { FollowsLaw }
{}

/// What is left of a serving holds each command that was accepted under a number that a flush acknowledged.
pub fn held_law()
    ensures { HeldLaw }
{}

/// A batch of accepted commands and a flush behind them costs two writes for each command, and one write and two syncs, if no log is
/// frozen for it.
pub fn batch_cost_law()
    ensures { BatchCostLaw }
{}
