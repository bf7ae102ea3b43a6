// A type that replies to events.
ghost use Rattle.std.specs.Prelude.{◌≡◌, ◌≤◌, ◌+◌, ◌++◌, ℕ, All, List, vec_capacity, vec_len};
ghost use Rattle.silt_event.specs.declared.admin.Admin.{Admin as AdminOf};
ghost use Rattle.silt_event.specs.declared.admin.AdminReply.{AdminReply as AdminReplyOf};
ghost use Rattle.silt_event.specs.declared.event.Event.{Event as EventOf};
ghost use Rattle.silt_event.specs.Events.{AnswersEach, HasValueOf, PlainReply};

use crate::{Admin, AdminReply, Event, Reply};
use std::alloc::Global;

/// A type that replies to events: a store, or a layer in front of one.
pub trait Answerer {
    /// The length of its values, in bytes. It never changes.
    ghost value_len: { Self → ℕ };

    /// The answerer before and after a reply, the event and the reply.
    ghost answers: { Self → Self → EventOf → PlainReply → Type 0 };

    /// The answerer, an admin command and the reply to it.
    ghost administers: { Self → AdminOf → AdminReplyOf → Type 0 };

    /// Replies to one event. The caller makes sure that a put's value has the answerer's value length.
    fn answer(&mut self, alloc: Global, event: Event) -> Reply<()>
        requires { HasValueOf (value_len self.old) event }
        ensures stays { value_len self.new ≡ value_len self.old }
        ensures answers { answers self.old self.new event result };

    /// Replies to events in order, and appends the replies to the list. The caller makes sure that each value has the
    /// answerer's value length, and that the list has room. A layer in front of a store may treat the events as one batch.
    fn answer_all(&mut self, alloc: Global, events: Vec<Event>, replies: &mut Vec<Reply<()>>)
        requires values { All (HasValueOf (value_len self.old)) events.items }
        requires room { vec_len replies.old + vec_len events ≤ vec_capacity replies.old }
        ensures stays { value_len self.new ≡ value_len self.old }
        ensures answers { (given : List PlainReply) × (replies.new.items ≡ replies.old.items ++ given)
            × AnswersEach answers self.old events.items given self.new }
    {
        for event in events {
            replies.push_reserved(self.answer(alloc, event));
        }
    }

    /// Replies to an admin command, and stays as it is. The facts are those of its store at this moment. A layer in front of a store
    /// passes them on, and says that they are not served if it cannot reach the store.
    fn administer(&self, admin: Admin) -> AdminReply
        ensures { administers self.now admin result };
}
