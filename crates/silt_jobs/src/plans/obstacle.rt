// Why there is no plan.
ghost use Rattle.std.specs.Prelude.{◌≡◌};
ghost use Rattle.silt_jobs.specs.MergeWrites.{memory_needed};

use crate::plans::{
    MOST_KEYS, can_write, fewest_buckets, least_shards, least_writes, memory_planned, share_of,
};
use silt_words::PlanRequest;
use std::fmt;

/// Why no store has room for what is planned, or no set of so many shards.
#[derive(Clone, Copy, Debug, PartialEq, Eq)]
pub enum Obstacle {
    /// A value has this many bytes.
    ValueLen(u32),
    /// There are this many keys, in each shard if it is a set. A set of so many shards has room for them.
    Keys {
        keys: u32,
        shards: Option<u32>,
        enough: Option<u32>,
    },
    /// With this many keys, in each shard if it is a set, merging writes at least so many entries for each row. In a set of
    /// enough shards it writes no more than what is allowed.
    Writes {
        keys: u32,
        shards: Option<u32>,
        least: u64,
        enough: Option<u32>,
        most: u32,
    },
    /// The least store for this many keys needs this many bytes of memory, if merging is to write no more than the limit.
    Memory {
        keys: u32,
        bytes: u64,
        most: Option<u32>,
    },
}

impl fmt::Display for Obstacle {
    fn fmt<W: fmt::Write>(&self, f: &mut fmt::Formatter<W>) -> fmt::Result {
        match *self {
            Obstacle::ValueLen(len) => write!(f, "V is {len}, and may be 1 to 4096"),
            Obstacle::Keys {
                keys,
                shards,
                enough,
            } => {
                write_most_keys(keys, shards, f)?;
                write_enough(enough, f)
            }
            Obstacle::Writes {
                keys,
                shards,
                least,
                enough,
                most,
            } => {
                write_keys(keys, shards, f)?;
                write!(f, "merging writes {least} entries for each row or more")?;
                write_fewer(enough, most, f)
            }
            Obstacle::Memory { keys, bytes, most } => {
                write!(f, "{keys} keys need {bytes} bytes of memory or more")?;
                write_limit(most, f)
            }
        }
    }
}

// Writes how many keys a store may have, or each shard of a set.
fn write_most_keys<W: fmt::Write>(
    keys: u32,
    shards: Option<u32>,
    f: &mut fmt::Formatter<W>,
) -> fmt::Result {
    match shards {
        Some(shards) => write!(
            f,
            "each of {shards} shards is for {keys} keys, and may be for {MOST_KEYS}"
        ),
        None => write!(f, "KEYS is {keys}, and may be 0 to {MOST_KEYS}"),
    }
}

// Writes how many keys a store has, or each shard of a set.
fn write_keys<W: fmt::Write>(
    keys: u32,
    shards: Option<u32>,
    f: &mut fmt::Formatter<W>,
) -> fmt::Result {
    match shards {
        Some(shards) => write!(f, "with {keys} keys in each of {shards} shards "),
        None => write!(f, "with {keys} keys "),
    }
}

// Writes with how many shards merging writes no more than this, if there are so many.
fn write_fewer<W: fmt::Write>(
    enough: Option<u32>,
    most: u32,
    f: &mut fmt::Formatter<W>,
) -> fmt::Result {
    match enough {
        Some(shards) => write!(f, "; with --shards {shards} it is {most} or less"),
        None => Ok(()),
    }
}

// Writes to how many entries merging is limited, if it is.
fn write_limit<W: fmt::Write>(most: Option<u32>, f: &mut fmt::Formatter<W>) -> fmt::Result {
    match most {
        Some(most) => write!(
            f,
            ", if merging is to write at most {most} entries for each row"
        ),
        None => Ok(()),
    }
}

// Writes with how many shards there is room, if there is.
fn write_enough<W: fmt::Write>(enough: Option<u32>, f: &mut fmt::Formatter<W>) -> fmt::Result {
    match enough {
        Some(shards) => write!(f, "; --shards {shards} has room for them"),
        None => Ok(()),
    }
}

/// What no store has room for, or no set of so many shards, if there is no plan: the length of a value, else the keys of the
/// store or of each shard, else what merging writes, else the memory of all.
pub fn obstacle_of(shards: Option<u32>, request: &PlanRequest) -> Obstacle {
    let PlanRequest {
        keys,
        value_len,
        merge_writes,
        ..
    } = *request;
    if value_len < 1 || value_len > 4096 {
        return Obstacle::ValueLen(value_len);
    }
    let share = match shards {
        Some(shards) if shards >= 2 => share_of(shards, keys),
        _ => keys,
    };
    let enough = least_shards(merge_writes, keys);
    if share > MOST_KEYS {
        return Obstacle::Keys {
            keys: share,
            shards,
            enough,
        };
    }
    match merge_writes {
        Some(most) if !can_write(merge_writes, share) => Obstacle::Writes {
            keys: share,
            shards,
            least: least_writes(share),
            enough,
            most,
        },
        most => Obstacle::Memory {
            keys,
            bytes: memory_needed(most, share).saturating_mul(u64::from(shards.unwrap_or(1))),
            most,
        },
    }
}

// The least memory of a plan with which merging writes no more than the limit, if there is one.
fn memory_needed(merge_writes: Option<u32>, keys: u32) -> u64
    ensures { result ≡ memory_needed merge_writes keys }
{
    let buckets = match merge_writes {
        Some(most) => fewest_buckets(most, keys),
        None => 2,
    };
    memory_planned(keys, buckets)
}
