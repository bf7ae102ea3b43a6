// Why no backup was written.

use crate::people::StreamError;
use silt_event::Place;
use std::fmt;

/// Why no backup was written.
#[derive(Clone, Copy, Debug)]
pub enum NoBackup {
    /// Its file is one of the served store's.
    Own,
    /// The server ends.
    Ended,
    /// The store has failed.
    Failed,
    /// The system refuses to make, write, read or rename the file.
    File(StreamError),
    /// The store's device could not be read.
    Unread,
    /// Each time the copy was begun, a merge freed a part of the store that was not copied yet.
    Moved,
    /// The copy is not the store of its moment. This part of it is damaged, if that is known.
    Damaged(Option<Place>),
    /// Out of memory.
    NoMemory,
}

// The reason, as the end of a sentence.
impl fmt::Display for NoBackup {
    fn fmt<W: fmt::Write>(&self, f: &mut fmt::Formatter<W>) -> fmt::Result {
        match self {
            NoBackup::Own => f.write_str("it is a file of the served store"),
            NoBackup::Ended => f.write_str("the server ends"),
            NoBackup::Failed => f.write_str("the store has failed"),
            NoBackup::File(StreamError { error }) => write!(f, "{error}"),
            NoBackup::Unread => f.write_str("the store's device cannot be read"),
            NoBackup::Moved => {
                f.write_str("at each try merges freed parts of the store before they were copied")
            }
            NoBackup::Damaged(None) => {
                f.write_str("the store's device is damaged, or the copy was changed")
            }
            NoBackup::Damaged(Some(place)) => write!(
                f,
                "the store's device is damaged, or the copy was changed: {place}"
            ),
            NoBackup::NoMemory => f.write_str("there is no memory for it"),
        }
    }
}
