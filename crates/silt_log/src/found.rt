// The result of a look-up.
use silt_frame::Kind;

/// A key that was found: the kind of its last row, and the row's place.
#[derive(Clone, Copy, Debug, PartialEq, Eq)]
pub struct Found {
    pub kind: Kind,
    pub place: u32,
}
