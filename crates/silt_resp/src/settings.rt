// What a session knows of its server and of its client.
ghost use Rattle.std.specs.Prelude.{◌≡◌, ◌≤◌};

/// What a session knows of its server, and which one it is.
#[derive(Clone, Copy, Debug)]
pub struct Settings {
    /// The length of the store's values, in bytes.
    pub value_len: usize,
    /// The SHA-1 digest of the password, if there is one.
    pub password: Option<[u8; 20]>,
    /// The number of the session, as its client is told.
    pub id: u32,
    // A value has its string's length in front.
    pub ghost room: { 2 ≤ value_len },
}

impl Settings {
    ghost use Rattle.silt_resp.specs.Arguments.{longest_string};

    /// The most bytes of a string that a value holds.
    pub fn longest_string(&self) -> usize
        ensures { result ≡ longest_string self.now.value_len }
    {
        (self.value_len - 2).min(65_535)
    }
}

/// The client of a session.
#[derive(Clone, Copy, Debug, PartialEq, Eq)]
pub struct Visitor {
    /// Its number, as it is told.
    pub id: u32,
    /// Whether its commands are done.
    pub is_let_in: bool,
}

impl Visitor {
    ghost use Rattle.silt_resp.specs.Commands.{visitor_at_first};

    /// A client that has given no command. Without a password all are let in.
    pub fn new(settings: &Settings) -> Self
        ensures { result ≡ visitor_at_first settings.now }
    {
        Visitor {
            id: settings.id,
            is_let_in: settings.password.is_none(),
        }
    }
}
