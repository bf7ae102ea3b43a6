// Findings: the ways in which a device can be wrong.

use crate::Place;
use thiserror::Error;

/// Why a device cannot be opened.
#[derive(Clone, Copy, Debug, PartialEq, Eq, Error)]
pub enum Finding {
    /// The device holds no store.
    #[error("it holds no store")]
    NotFormatted,
    /// A part of the device is not in a state that a store leaves.
    #[error("{0}")]
    Damaged(Place),
    /// The keys of a log do not fit into a table.
    #[error("the keys of a log find no places in a table")]
    Crowded,
}
