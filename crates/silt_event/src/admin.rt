// What a client asks of what serves it, besides events.

use crate::{Counts, Facts};

/// What a client asks of what serves it, besides events.
#[derive(Clone, Copy, Debug, PartialEq, Eq)]
pub enum Admin {
    /// The facts of the store at this moment, and what its server counted.
    Info,
    /// That the server ends in order: it takes no more commands, and replies to those that wait.
    Shutdown,
    /// That the server writes a backup.
    Backup,
}

/// The reply to that.
#[derive(Clone, Copy, Debug, PartialEq, Eq)]
pub enum AdminReply {
    /// The facts, and what a server counted, if one counts.
    Info(Facts, Option<Counts>),
    /// It begins.
    Begun,
    /// It goes on already.
    UnderWay,
    /// Nothing here does that.
    NotServed,
}

impl AdminReply {
    ghost use Rattle.std.specs.Prelude.{◌≡◌};
    ghost use Rattle.silt_event.specs.Queries.{facts_said};

    /// The facts, if it has some.
    pub fn facts(&self) -> Option<Facts>
        ensures { result ≡ facts_said self.now }
    {
        match self {
            AdminReply::Info(facts, _) => Some(*facts),
            _ => None,
        }
    }
}
