// The parts of a device.

use thiserror::Error;

/// The damaged part of a device.
#[derive(Clone, Copy, Debug, PartialEq, Eq, Error)]
pub enum Place {
    /// A number of the header is out of its limits.
    #[error("a number of the header is out of its limits")]
    Header,
    /// The device does not have the length that its header gives.
    #[error("it has another length than its header says")]
    Length,
    /// An open manifest slot is not well formed.
    #[error("a manifest slot is damaged")]
    Slot(u32),
    /// No manifest slot is current.
    #[error("no manifest slot is open")]
    NoSlot,
    /// A row of a log is of an unknown kind.
    #[error("a row of a log is damaged")]
    Log { region: u32, row: u32 },
    /// A slot of a hash region holds a row that does not belong there.
    #[error("a slot of a hash store is damaged")]
    Hash { region: u32, slot: u32 },
    /// The digest of this hash region's slots is not the one in the manifest.
    #[error("a hash store has another digest than the manifest says")]
    HashDigest(u32),
    /// A sorted entry is not greater than the one before it.
    #[error("an entry of the sorted store is damaged")]
    Sorted(u32),
    /// The digest of the sorted entries is not the one in the manifest.
    #[error("the sorted store has another digest than the manifest says")]
    SortedDigest,
    /// There are more put rows than the store's limit.
    #[error("it holds more rows than it may")]
    Charge,
}
