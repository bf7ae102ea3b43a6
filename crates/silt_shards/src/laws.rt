// Laws of sets and of marks, for the callers.
ghost use Rattle.silt_shards.specs.Marks.{FileMarkLaw, ReadBackLaw};
ghost use Rattle.silt_shards.specs.SetLaws.{JoinedLaw, ProjectionLaw};
ghost use Rattle.silt_shards.specs.Stores.{HasMapLaw, SetLivesLaw, SetMapLaw, ShardRunsLaw};

use silt_disk::Disk;
use silt_event::Answerer;

/// If a set does events with replies, each of its shards does exactly the events of its keys, and all flushes. Each of its own
/// replies is what the set replied; to a flush, it is a part of that.
pub fn projection_law<A: Answerer>()
    ensures { ProjectionLaw A.answers }
{}

/// If a flush of a set acknowledges commands, each shard acknowledged all of its own.
pub fn joined_law()
    ensures { JoinedLaw }
{}

/// Each set of stores is a map: that of each key's value in its own shard.
pub fn has_map_law<D: Disk>()
    ensures { HasMapLaw D }
{}

/// The replies of a set of stores are those of one map.
pub fn set_map_law<D: Disk>()
    ensures { SetMapLaw D.Disk }
{}

/// A run of a set of stores is a run of each shard's store over the shard's own events: its replies are those of a map, and a
/// crash keeps a first part of the commands that the shard has accepted, with each acknowledged one.
pub fn shard_runs_law<D: Disk>()
    ensures { ShardRunsLaw D.Disk }
{}

/// Over any lives of a set of stores, each from an opening to a crash: **for each shard, every answered get gives its key's
/// value in the map folded over what earlier lives kept and this life has accepted, and what a life keeps is a first part of
/// the shard's accepted commands that holds every acknowledged one**. A key has one shard, so this holds for each key.
pub fn set_lives_law<D: Disk>()
    ensures { SetLivesLaw D.Disk }
{}

/// A change of the bytes of a file's mark leaves its store what it is.
pub fn mark_law()
    ensures { FileMarkLaw }
{}

/// A mark reads back as it was written, if its commit byte is open.
pub fn mark_read_back_law()
    ensures { ReadBackLaw }
{}
