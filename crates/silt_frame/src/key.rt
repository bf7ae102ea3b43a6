// Keys, and what a row does to its key.
ghost use Rattle.std.specs.Prelude.{◌≡◌};
ghost use Rattle.silt_frame.specs.Frame.{is_put, kind_byte, kind_of};

/// The length of a key, in bytes.
pub const KEY_LEN: usize = 20;

/// A key: 20 bytes, ordered bytewise.
#[derive(Clone, Copy, Debug, PartialEq, Eq, PartialOrd, Ord)]
pub struct Key(pub [u8; 20]);

/// What a row does to its key.
#[derive(Clone, Copy, Debug, PartialEq, Eq)]
pub enum Kind {
    Put,
    Delete,
}

impl Kind {
    ghost use Rattle.std.specs.Prelude.{◌≡◌, ◌≤◌};
    ghost use Rattle.silt_frame.specs.Rows.{puts_of};

    /// Whether it gives its key a value.
    pub fn is_put(self) -> bool
        ensures { result ≡ is_put self }
    {
        self == Kind::Put
    }

    /// The kind as a byte: 1 for a put, 2 for a delete.
    pub fn byte(self) -> u8
        ensures { result ≡ kind_byte self }
    {
        match self {
            Kind::Put => 1,
            Kind::Delete => 2,
        }
    }

    /// The kind of a byte: `None` exactly for a byte other than 1 and 2.
    pub fn from_byte(byte: u8) -> Option<Kind>
        ensures { result ≡ kind_of byte }
    {
        match byte {
            1 => Some(Kind::Put),
            2 => Some(Kind::Delete),
            _ => None,
        }
    }

    /// The number of puts in one row of this kind: 1 for a put, 0 for a delete.
    pub fn puts(self) -> u32
        ensures value { result ≡ puts_of self }
        ensures most { result ≤ 1 }
    {
        match self {
            Kind::Put => 1,
            Kind::Delete => 0,
        }
    }
}

/// A row without its value, and its number in its region.
#[derive(Clone, Copy, Debug, PartialEq, Eq)]
pub struct Row {
    pub kind: Kind,
    pub key: Key,
    pub place: u32,
}
