// The jobs of the bench.
ghost use Rattle.std.specs.Prelude.{◌<◌};

use crate::keys::store_of;
use silt_device::Geometry;
use silt_frame::Key;
use silt_shards::{LEAST_SHARDS, MOST_SHARDS};

/// How the background work of a store is done.
#[derive(Clone, Copy)]
pub enum Work {
    /// On the writer's thread, between its groups.
    Turns,
    /// On two threads beside the writer.
    Workers,
}

/// Which of the keys a store has: those of a shard of a set, or all keys, if there is only one shard.
#[derive(Clone, Copy)]
pub struct Part {
    /// The number of the shard.
    pub shard: usize,
    /// How many shards there are.
    pub shards: u32,
}

impl Part {
    /// All keys.
    pub const ALL: Part = Part {
        shard: 0,
        shards: 1,
    };

    /// Whether the store has this key.
    pub fn has(&self, key: &Key) -> bool {
        store_of(key, self.shards) == self.shard
    }
}

/// How a store is to be filled and read.
#[derive(Clone, Copy)]
pub struct Plan {
    pub geometry: Geometry,
    /// Which of the keys this store has.
    pub part: Part,
    /// How many keys are put.
    pub keys: u64,
    /// How many puts there are for each flush.
    pub group: u64,
    /// How many looks are made.
    pub gets: u64,
    /// How many hash stores there are when a merge begins.
    pub stores: u64,
}

impl Plan {
    /// The plan of this shard of the same set.
    pub fn of_shard(&self, shard: usize) -> Plan {
        Plan {
            part: Part { shard, ..self.part },
            ..*self
        }
    }

    /// About how many keys the store has in the end.
    pub fn keys_of_part(&self) -> u64 {
        self.keys / u64::from(self.part.shards.max(1))
    }
}

/// One of the bench's jobs.
#[derive(Clone, Copy)]
pub enum Job {
    Store(Work, Plan),
    /// The plan is that of the first shard.
    Set(Work, Plan),
    Growth(Plan),
    Index { keys: u64, gets: u64 },
    Counts,
}

/// The job that the words name. The first word is the program's own. None if they name no job.
pub fn job_of(words: &[String]) -> Option<Job> {
    let name = words.get(1)?.as_str();
    match (name, words.len()) {
        ("store", 14) => Some(Job::Store(work_of(words)?, plan_of(words)?)),
        ("set", 15) => Some(Job::Set(work_of(words)?, set_of(words)?)),
        ("growth", 12) => Some(Job::Growth(growth_of(words)?)),
        ("index", 4) => Some(Job::Index {
            keys: number_at(words, 2)?,
            gets: number_at(words, 3)?,
        }),
        ("counts", 2) => Some(Job::Counts),
        _ => None,
    }
}

// How the background work is done, which the fourth word says.
fn work_of(words: &[String]) -> Option<Work> {
    match words.get(3)?.as_str() {
        "turns" => Some(Work::Turns),
        "workers" => Some(Work::Workers),
        _ => None,
    }
}

// The plan that the words of a store name.
fn plan_of(words: &[String]) -> Option<Plan> {
    Some(Plan {
        geometry: geometry_at(words, 4)?,
        part: Part::ALL,
        keys: number_at(words, 10)?,
        group: number_at(words, 11)?,
        gets: number_at(words, 12)?,
        stores: number_at(words, 13)?,
    })
}

// The plan of the first shard of the set that the words name.
fn set_of(words: &[String]) -> Option<Plan> {
    let shards = size_at(words, 14)?;
    if shards < LEAST_SHARDS || shards > MOST_SHARDS {
        return None;
    }
    Some(Plan {
        part: Part { shard: 0, shards },
        ..plan_of(words)?
    })
}

// The plan that the words of a growth name.
fn growth_of(words: &[String]) -> Option<Plan> {
    let geometry = geometry_at(words, 3)?;
    Some(Plan {
        geometry,
        part: Part::ALL,
        keys: number_at(words, 9)?,
        group: number_at(words, 10)?,
        gets: number_at(words, 11)?,
        stores: u64::from(geometry.hashes()),
    })
}

/// The path of the store's file, which the third word names.
pub fn path_of(words: &[String]) -> Option<&str> {
    Some(words.get(2)?.as_str())
}

// The number that a word writes.
fn number_at(words: &[String], at: usize) -> Option<u64> {
    words.get(at)?.as_str().parse::<u64>().ok()
}

// The number of a geometry or of shards that a word writes.
fn size_at(words: &[String], at: usize) -> Option<u32> {
    words.get(at)?.as_str().parse::<u32>().ok()
}

// The geometry of six words from here on.
fn geometry_at(words: &[String], at: usize) -> Option<Geometry>
    requires { at < 64 }
{
    let geometry = Geometry::new(
        size_at(words, at)?,
        size_at(words, at + 1)?,
        size_at(words, at + 2)?,
        size_at(words, at + 3)?,
        size_at(words, at + 4)?,
        size_at(words, at + 5)?,
    );
    geometry.ok()
}
