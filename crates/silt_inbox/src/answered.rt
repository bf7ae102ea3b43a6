// A reply with the kind of its event.
ghost use Rattle.std.specs.Prelude.{◌≡◌, true};
ghost use Rattle.silt_event.specs.Commands.{Map};
ghost use Rattle.silt_event.specs.Events.{Step};
ghost use Rattle.silt_event.specs.declared.event.Event.{Event as EventOf};
ghost use Rattle.silt_event.specs.declared.reply.Reply.{Reply as ReplyOf};
ghost use Rattle.silt_inbox.specs.Answers.{is_allowed, event_kind};

use silt_event::{Event, Reply};

/// An event without its contents.
#[derive(Clone, Copy, Debug, PartialEq, Eq)]
pub enum EventKind {
    Put,
    Delete,
    Swap,
    Flush,
    Get,
    Convert,
    Merge,
}

impl EventKind {
    /// The kind of an event.
    pub fn of(event: &Event) -> EventKind
        ensures { result ≡ event_kind event.now }
    {
        match event {
            Event::Put(_, _) => EventKind::Put,
            Event::Delete(_) => EventKind::Delete,
            Event::Swap(_, _, _) => EventKind::Swap,
            Event::Flush => EventKind::Flush,
            Event::Get(_) => EventKind::Get,
            Event::Convert => EventKind::Convert,
            Event::Merge => EventKind::Merge,
        }
    }
}

/// A reply that an event of its kind may have.
#[derive(Drop)]
pub struct Answered {
    kind: EventKind,
    reply: Reply<()>,
    ghost allowed: { is_allowed kind reply ≡ true },
}

impl Answered {
    /// The reply to an event of this kind. It needs no memory.
    pub fn new(kind: EventKind, reply: Reply<()>) -> Answered
        requires { is_allowed kind reply ≡ true }
        ensures { (result.kind ≡ kind) × (result.reply ≡ reply) }
    {
        Answered { kind, reply }
    }

    /// The kind of the event that this replies to.
    pub fn kind(&self) -> EventKind
        ensures { result ≡ self.now.kind }
    {
        self.kind
    }

    /// The reply, which the kind allows.
    pub fn into_reply(self) -> Reply<()>
        ensures reply { result ≡ self.reply }
        ensures allowed { is_allowed self.kind result ≡ true }
    {
        self.reply
    }
}

/// Every reply of a map to an event is allowed for the event's kind.
pub fn answered_law()
    ensures { (map to : Map) (event : EventOf) (reply : ReplyOf (Unit {0})) → Step map event reply to → is_allowed (event_kind event) reply ≡ true }
{}
