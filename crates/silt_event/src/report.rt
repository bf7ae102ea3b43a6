// What a store consists of.

/// Whether a manifest holds the digests of the stores that it names.
#[derive(Clone, Copy, Debug, PartialEq, Eq)]
pub enum Layout {
    /// It holds none: the first version wrote it.
    One,
    /// It holds them.
    Two,
}

/// What a store consists of, in numbers of parts, rows and entries.
#[derive(Clone, Copy, Debug, PartialEq, Eq)]
pub struct Report {
    /// The generation of the current manifest record.
    pub generation: u64,
    /// The region of the active log.
    pub active: u32,
    /// The number of rows of the active log.
    pub active_rows: u32,
    /// The number of frozen logs.
    pub frozen: u32,
    /// The number of rows of all frozen logs.
    pub frozen_rows: u32,
    /// The number of hash stores.
    pub hashes: u32,
    /// The number of rows of all hash stores.
    pub hash_rows: u32,
    /// The number of entries of the sorted store.
    pub entries: u32,
    /// The number of puts among all rows and entries.
    pub charge: u32,
    /// Whether the current manifest record comes with digests.
    pub layout: Layout,
}
