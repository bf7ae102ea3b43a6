// Why there is no backup.
ghost use Rattle.std.specs.Prelude.{◌≡◌};
ghost use Rattle.silt_backup.specs.Backups.{fault_of};

use silt_event::Place;
use silt_recovery::OpenError;

/// Why there is no backup.
#[derive(Debug, Drop)]
pub enum BackupFault<G, F> {
    /// It was to end.
    Ended,
    /// The disk has another length than the device of the store.
    Length,
    /// A read of the store failed with this fault.
    Unread(G),
    /// A call of the disk of the backup failed with this fault.
    Device(F),
    /// Out of memory for a piece, or for the stores of the copy.
    NoMemory,
    /// The copy is damaged, at this place if there is one; or it is good, and of another store.
    Damaged(Option<Place>),
}

// The fault of a copy whose examination failed.
pub(crate) fn fault_of<G, F>(error: OpenError<F>) -> BackupFault<G, F>
    ensures { result ≡ fault_of error }
{
    match error {
        OpenError::NotFormatted | OpenError::Crowded => BackupFault::Damaged(None),
        OpenError::Damaged(place) => BackupFault::Damaged(Some(place)),
        OpenError::Device(fault) => BackupFault::Device(fault),
        OpenError::NoMemory => BackupFault::NoMemory,
    }
}
