// Why calls are refused.

use crate::Place;
use std::fmt::Display;
use thiserror::Error;

/// Why a call is refused. `Device` holds the fault that the device gave.
#[derive(Clone, Copy, Debug, Drop, Error)]
#[error_bound(F: Display)]
pub enum Refusal<F> {
    /// The device holds no store.
    #[error("it holds no store")]
    NotFormatted,
    /// A number is out of its limits, or the device has another length.
    #[error("a number is out of its limits, or the length is another one")]
    BadGeometry,
    /// A part of the device is not in a state that a store leaves.
    #[error("{0}")]
    Damaged(Place),
    /// The keys of a log do not fit into a table.
    #[error("the keys of a log find no places in a table")]
    Crowded,
    /// A device call of this very call failed.
    #[error("{0}")]
    Device(F),
    /// Out of memory. Nothing was changed.
    #[error("out of memory")]
    NoMemory,
    /// The store is at its limit of put rows. Nothing was changed.
    #[error("the store holds as many put rows as it may")]
    StoreFull,
    /// The active log cannot take the row, and no log region is free. Nothing was changed.
    #[error("no log region is free")]
    NoRoom,
    /// An earlier write or sync of this store failed. Open the store again.
    #[error("an earlier write or sync failed")]
    Failed,
    /// A counter has reached its greatest value. Nothing was changed.
    #[error("a number that counts up has reached its greatest value")]
    Spent,
    /// The history is at its limit of calls. Nothing was done.
    #[error("the history holds as many calls as it may")]
    HistoryFull,
}

impl<F: Drop> Refusal<F> {
    ghost use Rattle.std.specs.Prelude.{◌≡◌};
    ghost use Rattle.silt_event.specs.Events.{refusal_label, plain_refusal};

    /// The number and the name of a refusal in texts.
    pub fn label(&self) -> (u32, &'static str)
        ensures number { result.0 ≡ (refusal_label self.now).0 }
        ensures name { result.1.now ≡ (refusal_label self.now).1 }
    {
        match self {
            Refusal::NotFormatted => (1, "NotFormatted"),
            Refusal::BadGeometry => (2, "BadGeometry"),
            Refusal::Damaged(_) => (3, "Damaged"),
            Refusal::Crowded => (4, "Crowded"),
            Refusal::Device(_) => (5, "Device"),
            Refusal::NoMemory => (6, "NoMemory"),
            Refusal::StoreFull => (7, "StoreFull"),
            Refusal::NoRoom => (8, "NoRoom"),
            Refusal::Failed => (9, "Failed"),
            Refusal::Spent => (10, "Spent"),
            Refusal::HistoryFull => (11, "HistoryFull"),
        }
    }

    /// The refusal without its fault.
    pub fn plain(&self) -> Refusal<()>
        ensures { result ≡ plain_refusal self.now }
    {
        match self {
            Refusal::NotFormatted => Refusal::NotFormatted,
            Refusal::BadGeometry => Refusal::BadGeometry,
            Refusal::Damaged(place) => Refusal::Damaged(*place),
            Refusal::Crowded => Refusal::Crowded,
            Refusal::Device(_) => Refusal::Device(()),
            Refusal::NoMemory => Refusal::NoMemory,
            Refusal::StoreFull => Refusal::StoreFull,
            Refusal::NoRoom => Refusal::NoRoom,
            Refusal::Failed => Refusal::Failed,
            Refusal::Spent => Refusal::Spent,
            Refusal::HistoryFull => Refusal::HistoryFull,
        }
    }
}
