// Commands that are gathered first and done together.
ghost use Rattle.std.specs.Prelude.{◌≡◌, ◌≤◌, ◌+◌, ◌++◌, ◌∷◌, [], false, ℕ, All, List, None, Some, OnErr, OnOk, length, map, vec_capacity, vec_len};
ghost use Rattle.silt_event.specs.Events.{AnswersEach, HasValueOf, PlainReply};
ghost use Rattle.silt_event.specs.Queries.{AnswersQuery, replies as replied};
ghost use Rattle.silt_wire.specs.Sessions.{IsBeginning};
ghost use Rattle.silt_resp.specs.Batches.{GainsAsked, HoldsAsked, HasLengths, KeepsAsked, due_seen, part_len, part_text, part_texts, tail_answers, tail_parts, tail_queries};
ghost use Rattle.silt_resp.specs.Commands.{Asked as AskedOf, FitsValues};
ghost use Rattle.silt_resp.specs.Seen.{asked_seen};
ghost use Rattle.silt_resp.specs.Sessions.{AnswersCommands, AnswersSomeCommands};

use crate::asked::{Asked, Tail};
use crate::info::push_admin;
use crate::texts::{Form, push_text};
use silt_event::{AdminReply, Answerer, Event, Reply};
use std::alloc::{AllocError, Global};

/// How many bytes of possible replies are enough for a batch.
const ENOUGH_TEXT: usize = 65_536;

/// The most bytes of a reply without a value: that of a value that is no string.
const PLAIN_TEXT: usize = 68;

/// The most bytes around a string in a reply.
const AROUND: usize = 9;

/// A reply that is due to a command.
#[derive(Debug, Drop)]
pub enum Due {
    /// This text.
    Text(Vec<u8>),
    /// One of this form, made of so many replies to events.
    Replies(Form, usize),
}

/// Commands in order: all their events, the replies that are due to them, and the admin command that ends them.
#[derive(Drop)]
pub struct Batch {
    pub events: Vec<Event>,
    pub dues: Vec<Due>,
    /// The last command, if it is an admin command: it is done when the events before it are.
    pub tail: Option<Tail>,
    /// How many bytes the replies may have.
    pub possible_text: usize,
}

impl Due {
    // How many replies to events it is made of.
    fn count(&self) -> usize
        ensures { result ≡ part_len (due_seen self.now) }
    {
        match self {
            Due::Text(_) => 0,
            Due::Replies(_, count) => *count,
        }
    }

    // How many bytes it may have, with the values that it is made of.
    fn possible_text(&self, value_len: usize) -> usize {
        match self {
            Due::Text(text) => text.len(),
            Due::Replies(Form::Stored | Form::Swapped | Form::Changed, _) => PLAIN_TEXT,
            Due::Replies(_, count) => value_len
                .saturating_add(AROUND)
                .saturating_mul(*count)
                .saturating_add(PLAIN_TEXT),
        }
    }
}

impl Batch {
    /// No commands yet.
    pub(crate) fn new(alloc: Global) -> Self
        ensures empty { HoldsAsked result [] }
        ensures ready { (value_len : ℕ) → HasLengths value_len result }
        ensures unended { result.tail ≡ None }
    {
        Batch {
            events: Vec::new(alloc),
            dues: Vec::new(alloc),
            tail: None,
            possible_text: 0,
        }
    }

    /// Whether it takes no more commands: it ends with an admin command, or the possible replies are long enough, so that memory stays
    /// bounded.
    pub(crate) fn is_full(&self) -> bool
        ensures { result ≡ false → self.now.tail ≡ None }
    {
        self.tail.is_some() || self.possible_text >= ENOUGH_TEXT
    }

    /// Adds a command. On an error the commands stay.
    pub(crate) fn push(&mut self, asked: Asked, value_len: usize) -> Result<(), AllocError>
        requires ready { HasLengths value_len self.old }
        requires unended { self.old.tail ≡ None }
        requires fits { FitsValues value_len (asked_seen asked) }
        ensures ready { HasLengths value_len self.new }
        ensures ok { OnOk result (GainsAsked self.old self.new (asked_seen asked)) }
        ensures err { OnErr result (KeepsAsked self.old self.new) }
    {
        match asked {
            Asked::Text(text) => self.push_due(Due::Text(text), value_len),
            Asked::Events(events, form) => self.push_events(events, form, value_len),
            Asked::Admin(tail) => {
                self.tail = Some(tail);
                Ok(())
            }
        }
    }

    // Adds a reply that is due, and no events.
    fn push_due(&mut self, due: Due, value_len: usize) -> Result<(), AllocError>
        ensures events { self.new.events.items ≡ self.old.events.items }
        ensures tail { self.new.tail ≡ self.old.tail }
        ensures ok { OnOk result (self.new.dues.items ≡ self.old.dues.items ++ due ∷ []) }
        ensures err { OnErr result (self.new.dues.items ≡ self.old.dues.items) }
    {
        self.dues.reserve(1)?;
        self.possible_text = self
            .possible_text
            .saturating_add(due.possible_text(value_len));
        self.dues.push_reserved(due);
        Ok(())
    }

    // Adds the events of a command, and the reply that is due to it.
    fn push_events(
        &mut self,
        events: Vec<Event>,
        form: Form,
        value_len: usize,
    ) -> Result<(), AllocError>
        ensures tail { self.new.tail ≡ self.old.tail }
        ensures ok { OnOk result ((self.new.events.items ≡ self.old.events.items ++ events.items)
            × (self.new.dues.items ≡ self.old.dues.items ++ Due.Replies form (length events.items) ∷ [])) }
        ensures err { OnErr result ((self.new.events.items ≡ self.old.events.items) × (self.new.dues.items ≡ self.old.dues.items)) }
    {
        let mut events = events;
        let count = events.len();
        self.dues.reserve(1)?;
        self.events.append(&mut events)?;
        let due = Due::Replies(form, count);
        self.possible_text = self
            .possible_text
            .saturating_add(due.possible_text(value_len));
        self.dues.push_reserved(due);
        Ok(())
    }

    /// Does the commands in one call of the answerer, and appends their replies to the texts. If out of memory for a text, the
    /// texts before it are appended.
    pub(crate) fn answer<A: Answerer>(
        self,
        alloc: Global,
        texts: &mut Vec<u8>,
        answerer: &mut A,
    ) -> Result<(), AllocError>
        requires { HasLengths (A.value_len answerer.old) self }
        ensures stays { A.value_len answerer.new ≡ A.value_len answerer.old }
        ensures all { OnOk result ((asked : List AskedOf) → HoldsAsked self asked
            → AnswersCommands (AnswersQuery A.answers A.administers) asked answerer.old answerer.new (Some texts.old.items) (Some texts.new.items)) }
        ensures some { OnErr result ((asked : List AskedOf) → HoldsAsked self asked
            → AnswersSomeCommands (AnswersQuery A.answers A.administers) asked answerer.old answerer.new (Some texts.old.items) (Some texts.new.items)) }
    {
        let Batch {
            events,
            dues,
            tail,
            possible_text: _,
        } = self;
        let mut replies = Vec::with_capacity(alloc, events.len())?;
        answer_events(alloc, events, &mut replies, answerer);
        let reply = administered(tail, answerer);
        push_dues(alloc, &dues, &replies, texts)?;
        push_tail(alloc, tail, reply, texts)
    }
}

// The reply to the admin command, if there is one.
fn administered<A: Answerer>(tail: Option<Tail>, answerer: &A) -> AdminReply
    ensures { AnswersEach (AnswersQuery A.answers A.administers) answerer.now (tail_queries tail) (tail_answers tail result) answerer.now }
{
    match tail {
        Some(tail) => answerer.administer(tail.command()),
        None => AdminReply::NotServed,
    }
}

// Appends the reply to an admin command, if there is one. On an error nothing changes.
fn push_tail(
    alloc: Global,
    tail: Option<Tail>,
    reply: AdminReply,
    texts: &mut Vec<u8>,
) -> Result<(), AllocError>
    ensures ok { OnOk result (texts.new.items ≡ texts.old.items ++ part_texts (tail_parts tail) (tail_answers tail reply)) }
    ensures err { OnErr result (texts.new.items ≡ texts.old.items) }
{
    match tail {
        Some(tail) => push_admin(alloc, tail, reply, texts),
        None => Ok(()),
    }
}

// Replies to the events, if there are some.
fn answer_events<A: Answerer>(
    alloc: Global,
    events: Vec<Event>,
    replies: &mut Vec<Reply<()>>,
    answerer: &mut A,
)
    requires values { All (HasValueOf (A.value_len answerer.old)) events.items }
    requires room { vec_len replies.old + vec_len events ≤ vec_capacity replies.old }
    ensures stays { A.value_len answerer.new ≡ A.value_len answerer.old }
    ensures answers { (given : List PlainReply) × (replies.new.items ≡ replies.old.items ++ given)
        × AnswersEach A.answers answerer.old events.items given answerer.new }
{
    if events.is_empty() {
        return;
    }
    answerer.answer_all(alloc, events, replies);
}

// Appends the replies that are due. If out of memory, those before are appended.
fn push_dues(
    alloc: Global,
    dues: &[Due],
    replies: &[Reply<()>],
    texts: &mut Vec<u8>,
) -> Result<(), AllocError>
    ensures ok { OnOk result (texts.new.items ≡ texts.old.items ++ part_texts (map due_seen dues.now) (map replied replies.now)) }
    ensures err { OnErr result ((out : List ℕ) × IsBeginning out (part_texts (map due_seen dues.now) (map replied replies.now))
        × (texts.new.items ≡ texts.old.items ++ out)) }
{
    let mut rest = replies;
    for due in dues {
        let (given, more) = rest.split_at(due.count().min(rest.len()));
        push_due(alloc, due, given, texts)?;
        rest = more;
    }
    Ok(())
}

// Appends a reply that is due. On an error nothing changes.
fn push_due(
    alloc: Global,
    due: &Due,
    replies: &[Reply<()>],
    texts: &mut Vec<u8>,
) -> Result<(), AllocError>
    ensures ok { OnOk result (texts.new.items ≡ texts.old.items ++ part_text (due_seen due.now) (map replied replies.now)) }
    ensures err { OnErr result (texts.new.items ≡ texts.old.items) }
{
    match due {
        Due::Text(text) => texts.extend_from_slice(text),
        Due::Replies(form, _) => {
            let mut text = Vec::new(alloc);
            push_text(alloc, &mut text, *form, replies)?;
            texts.extend_from_slice(&text)
        }
    }
}
