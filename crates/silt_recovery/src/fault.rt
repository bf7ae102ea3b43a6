// Why a device was not formatted, not opened or not found whole.
ghost use Rattle.std.specs.Prelude.{◌≡◌};
ghost use Rattle.silt_recovery.specs.Refusals.{refusal_of};
ghost use Rattle.silt_recovery.specs.Errors.{refusal_of_formatting, refusal_of_opening};

use silt_disk::Disk;
use silt_event::{Finding, Place, Refusal};
use std::fmt::Display;
use thiserror::Error;

/// Why a device was not formatted. A fault is the disk's own, of a call that failed within this very call.
#[derive(Debug, Drop, Error)]
#[error_bound(F: Display)]
pub enum FormatError<F> {
    /// The device is not as long as the geometry asks.
    #[error("it has another length than the numbers ask for")]
    BadGeometry,
    /// A write or a sync failed with this fault.
    #[error("{0}")]
    Device(F),
    /// Out of memory for the commit bytes of a log.
    #[error("out of memory")]
    NoMemory,
}

/// A device that was not formatted, and why.
#[derive(Drop)]
pub struct FormatFault<D: Disk> {
    pub disk: D,
    pub error: FormatError<D::Fault>,
}

/// Why a device was not opened or did not pass a check. The first finding decides; a failed call or missing memory may
/// come before it. A fault is the disk's own, of a call that failed within this very call.
#[derive(Debug, Drop, Error)]
#[error_bound(F: Display)]
pub enum OpenError<F> {
    /// The device holds no store.
    #[error("it holds no store")]
    NotFormatted,
    /// A part of the device is not as a store leaves it.
    #[error("{0}")]
    Damaged(Place),
    /// The keys of a log find no places in a table.
    #[error("the keys of a log find no places in a table")]
    Crowded,
    /// A read, a write or a sync failed with this fault.
    #[error("{0}")]
    Device(F),
    /// Out of memory for a log, a hash store or the sorted store.
    #[error("out of memory")]
    NoMemory,
}

impl<F> From<Finding> for OpenError<F> {
    ghost from_gives = { λ finding error. error ≡ refusal_of finding };

    fn from(finding: Finding) -> Self {
        match finding {
            Finding::NotFormatted => OpenError::NotFormatted,
            Finding::Damaged(place) => OpenError::Damaged(place),
            Finding::Crowded => OpenError::Crowded,
        }
    }
}

/// A device that was not opened, and why.
#[derive(Drop)]
pub struct OpenFault<D: Disk> {
    pub disk: D,
    pub error: OpenError<D::Fault>,
}

impl<F> From<FormatError<F>> for Refusal<F> {
    ghost from_gives = { λ error refusal. refusal ≡ refusal_of_formatting error };

    fn from(error: FormatError<F>) -> Self {
        match error {
            FormatError::BadGeometry => Refusal::BadGeometry,
            FormatError::Device(fault) => Refusal::Device(fault),
            FormatError::NoMemory => Refusal::NoMemory,
        }
    }
}

impl<F> From<OpenError<F>> for Refusal<F> {
    ghost from_gives = { λ error refusal. refusal ≡ refusal_of_opening error };

    fn from(error: OpenError<F>) -> Self {
        match error {
            OpenError::NotFormatted => Refusal::NotFormatted,
            OpenError::Damaged(place) => Refusal::Damaged(place),
            OpenError::Crowded => Refusal::Crowded,
            OpenError::Device(fault) => Refusal::Device(fault),
            OpenError::NoMemory => Refusal::NoMemory,
        }
    }
}
