// The replies of a store.

use crate::{Progress, Refusal};
use silt_frame::Value;

/// The reply of a store.
#[derive(Debug, Drop)]
pub enum Reply<F> {
    /// The command is done. The number counts the commands accepted so far, this one included.
    Accepted(u64),
    /// This many commands survive any crash.
    Acknowledged(u64),
    /// The key's value.
    Found(Value),
    /// The key has no value.
    Absent,
    /// The key of a swap has another value than the one to compare with, or none. Nothing is done.
    Differs,
    /// What a background step did.
    Progress(Progress),
    /// The call is refused.
    Refused(Refusal<F>),
    /// The command is done, with this number, but the flush after it was refused: a crash may lose the command. No store replies so,
    /// only a layer in front of one that flushes.
    Unsettled(u64),
    /// The call is not served here, and nothing is done. No store replies so, only a layer in front of one.
    NotServed,
}

/// The replies of a life: a run from opening to crash or close.
#[derive(Debug, Drop)]
pub enum LifeReply<F> {
    /// The store was not opened, and no event was done.
    NotOpened(Refusal<F>),
    /// The replies to the events.
    Opened(Vec<Reply<F>>),
}

impl<F: Drop> Reply<F> {
    ghost use Rattle.std.specs.Prelude.{◌≡◌};
    ghost use Rattle.silt_event.specs.Events.{plain};

    /// The reply without its fault, in the form for records and output.
    pub fn plain(self) -> Reply<()>
        ensures { result ≡ plain self }
    {
        match self {
            Reply::Accepted(n) => Reply::Accepted(n),
            Reply::Acknowledged(n) => Reply::Acknowledged(n),
            Reply::Found(value) => Reply::Found(value),
            Reply::Absent => Reply::Absent,
            Reply::Differs => Reply::Differs,
            Reply::Progress(progress) => Reply::Progress(progress),
            Reply::Refused(refusal) => Reply::Refused(refusal.plain()),
            Reply::Unsettled(n) => Reply::Unsettled(n),
            Reply::NotServed => Reply::NotServed,
        }
    }
}
