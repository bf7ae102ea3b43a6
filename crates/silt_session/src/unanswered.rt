// Events that get no reply of the store.
ghost use Rattle.std.specs.Prelude.{◌≡◌, ◌≤◌, ◌+◌, ◌++◌, replicate, vec_capacity, vec_len};
ghost use Rattle.silt_session.specs.Unanswered.{reply_without};

use silt_event::{Refusal, Reply};

/// Why the events of a session have no replies.
#[derive(Clone, Copy, Debug, PartialEq, Eq)]
pub enum Unanswered {
    /// No reply comes, or one that does not fit its event. Some of the events may have been done.
    Lost,
    /// Out of memory. None of the events is done.
    NoMemory,
}

impl Unanswered {
    /// The reply that an event has instead.
    pub(crate) fn reply(self) -> Reply<()>
        ensures { result ≡ reply_without self }
    {
        match self {
            Unanswered::Lost => Reply::NotServed,
            Unanswered::NoMemory => Reply::Refused(Refusal::NoMemory),
        }
    }

    /// Appends the reply that each of so many events has instead.
    pub(crate) fn reply_to(self, count: usize, replies: &mut Vec<Reply<()>>)
        requires room { vec_len replies.old + count ≤ vec_capacity replies.old }
        ensures items { replies.new.items ≡ replies.old.items ++ replicate count (reply_without self) }
        ensures capacity { vec_capacity replies.new ≡ vec_capacity replies.old }
    {
        for _ in 0..count {
            replies.push_reserved(self.reply());
        }
    }
}
