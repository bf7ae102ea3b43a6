// Why files do not open as a set.

use silt_disk::Disk;
use silt_event::Refusal;
use thiserror::Error;

/// Why a file is not what is due: a shard of a set, or a store of its own.
#[derive(Clone, Copy, Debug, PartialEq, Eq, Error)]
pub enum MarkFault {
    /// It has no mark: it is a store of its own, or none.
    #[error("it is no shard of a set")]
    Unmarked,
    /// Its mark is of another version, or has the numbers of no shard.
    #[error("its mark of a shard is of another version, or damaged")]
    Unknown,
    /// It is shard `shard` of a set of `of` shards, and a store of its own is due.
    #[error("it is shard {shard} of {of}; ask for --shards {of}")]
    InSet { shard: u32, of: u32 },
    /// It is a shard of a set of `found` shards, and `asked` are asked for.
    #[error("it is one of {found} shards, and {asked} are asked for")]
    OtherCount { found: u32, asked: u32 },
    /// It is shard `found` of `of`, and shard `due` is due.
    #[error("it is shard {found} of {of}, and shard {due} is due")]
    OtherShard { found: u32, of: u32, due: u32 },
    /// It belongs to another set than shard 0.
    #[error("it is a shard of another set than shard 0")]
    OtherSet,
    /// One of its six numbers is not that of shard 0.
    #[error("its numbers are not those of shard 0")]
    OtherGeometry,
}

/// Why a file is refused.
#[derive(Debug, Drop)]
pub enum SetCause<F> {
    /// It is not the shard that is due, or no store of its own.
    NotDue(MarkFault),
    /// It could not be read, or no store was opened on it.
    Refused(Refusal<F>),
}

/// The shard because of which no set was opened, its disk, and why.
#[derive(Drop)]
pub struct SetFault<D: Disk> {
    /// The number of the shard, and of its file, from 0 on.
    pub shard: u32,
    pub disk: D,
    pub cause: SetCause<D::Fault>,
}
