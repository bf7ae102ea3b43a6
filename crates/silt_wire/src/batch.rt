// Events that are gathered first and answered together.
ghost use Rattle.std.specs.Prelude.{◌≡◌, ◌++◌, ◌∷◌, [], ℕ, List, Some, OnErr, OnOk, flat_map, string_bytes};
ghost use Rattle.silt_event.specs.Events.{HasValueOf};
ghost use Rattle.silt_event.specs.Queries.{AnswersQuery, says};
ghost use Rattle.silt_wire.specs.Batches.{IsAnswerable, requests, tail_asked};
ghost use Rattle.silt_wire.specs.Replies.{fault_line};
ghost use Rattle.silt_wire.specs.Sessions.{AnswersAll, AnswersSome, IsBeginning, answer_lines, line_of};

use crate::facts::print_info;
use crate::line::LineFault;
use crate::reply::{print_fault, print_reply};
use silt_event::{Admin, AdminReply, Answerer, Event, Reply};
use std::alloc::{AllocError, Global};

/// How many bytes of possible replies are enough for a batch.
const ENOUGH_TEXT: usize = 65_536;

/// The most bytes of a reply without a value, its line feed counted.
const PLAIN_TEXT: usize = 40;

/// Events in order, with room for a reply to each.
#[derive(Drop)]
pub(crate) struct Batch {
    events: Vec<Event>,
    replies: Vec<Reply<()>>,
    /// How many bytes the replies may have.
    possible_text: usize,
}

/// A line that ends a batch: it is answered alone, when the events before it are done.
#[derive(Clone, Copy, Debug, PartialEq, Eq)]
pub enum Tail {
    /// It has no valid request.
    Fault(LineFault),
    /// It has an admin command.
    Admin(Admin),
}

// How many bytes the reply to an event may have. Only the reply to a get has a value, in two digits for each byte.
fn possible_text(event: &Event, value_len: usize) -> usize {
    match event {
        Event::Get(_) => value_len.saturating_mul(2).saturating_add(PLAIN_TEXT),
        _ => PLAIN_TEXT,
    }
}

impl Batch {
    /// No events yet.
    pub(crate) fn new(alloc: Global) -> Self
        ensures empty { result.events.items ≡ [] }
        ensures ready { (value_len : ℕ) → IsAnswerable value_len result }
    {
        Batch {
            events: Vec::new(alloc),
            replies: Vec::new(alloc),
            possible_text: 0,
        }
    }

    /// Whether the possible replies are long enough, so that memory stays bounded.
    pub(crate) fn is_full(&self) -> bool {
        self.possible_text >= ENOUGH_TEXT
    }

    /// Adds an event. On an error the events stay.
    pub(crate) fn push(&mut self, event: Event, value_len: usize) -> Result<(), AllocError>
        requires ready { IsAnswerable value_len self.old }
        requires fits { HasValueOf value_len event }
        ensures ready { IsAnswerable value_len self.new }
        ensures ok { OnOk result (self.new.events.items ≡ self.old.events.items ++ event ∷ []) }
        ensures err { OnErr result (self.new.events.items ≡ self.old.events.items) }
    {
        self.events.reserve(1)?;
        self.replies.reserve(self.events.len() + 1)?;
        self.possible_text = self
            .possible_text
            .saturating_add(possible_text(&event, value_len));
        self.events.push_reserved(event);
        Ok(())
    }

    /// Replies to the events in one call, and appends the replies to the texts. If out of memory for a text, the texts
    /// before it are appended.
    pub(crate) fn answer<A: Answerer>(
        self,
        alloc: Global,
        texts: &mut String,
        answerer: &mut A,
    ) -> Result<(), AllocError>
        requires { IsAnswerable (A.value_len answerer.old) self }
        ensures stays { A.value_len answerer.new ≡ A.value_len answerer.old }
        ensures all { OnOk result (AnswersAll (AnswersQuery A.answers A.administers) (requests self)
            answerer.old answerer.new (Some (string_bytes texts.old)) (Some (string_bytes texts.new))) }
        ensures some { OnErr result (AnswersSome (AnswersQuery A.answers A.administers) (requests self)
            answerer.old answerer.new (Some (string_bytes texts.old)) (Some (string_bytes texts.new))) }
    {
        if self.events.is_empty() {
            return Ok(());
        }
        let Batch {
            events,
            mut replies,
            possible_text: _,
        } = self;
        answerer.answer_all(alloc, events, &mut replies);
        push_replies(alloc, &replies, texts)
    }
}

// Appends replies to the texts, each as a line. If out of memory, the lines before it are appended.
fn push_replies(alloc: Global, replies: &[Reply<()>], texts: &mut String) -> Result<(), AllocError>
    ensures ok { OnOk result (string_bytes texts.new ≡ string_bytes texts.old ++ flat_map line_of replies.now) }
    ensures err { OnErr result ((out : List ℕ) × IsBeginning out (flat_map line_of replies.now)
        × (string_bytes texts.new ≡ string_bytes texts.old ++ out)) }
{
    for reply in replies.iter() {
        push_reply(alloc, reply, texts)?;
    }
    Ok(())
}

// Appends a reply and a line feed to the texts. On an error nothing changes.
fn push_reply(alloc: Global, reply: &Reply<()>, texts: &mut String) -> Result<(), AllocError>
    ensures ok { OnOk result (string_bytes texts.new ≡ string_bytes texts.old ++ line_of reply.now) }
    ensures err { OnErr result (string_bytes texts.new ≡ string_bytes texts.old) }
{
    let mut line = print_reply(alloc, reply)?;
    line.push('\n')?;
    texts.push_str(&line)
}

/// Appends the lines of one that ended a batch. On an error nothing changes.
pub(crate) fn push_tail<A: Answerer>(
    alloc: Global,
    tail: Tail,
    texts: &mut String,
    answerer: &A,
) -> Result<(), AllocError>
    ensures ok { OnOk result (AnswersAll (AnswersQuery A.answers A.administers) (tail_asked tail ∷ [])
        answerer.now answerer.now (Some (string_bytes texts.old)) (Some (string_bytes texts.new))) }
    ensures err { OnErr result (string_bytes texts.new ≡ string_bytes texts.old) }
{
    match tail {
        Tail::Fault(fault) => push_fault(alloc, fault, texts),
        Tail::Admin(admin) => push_admin(alloc, answerer.administer(admin), texts),
    }
}

// Appends the reply to a line without a valid request, and a line feed, to the texts. On an error nothing changes.
fn push_fault(alloc: Global, fault: LineFault, texts: &mut String) -> Result<(), AllocError>
    ensures ok { OnOk result (string_bytes texts.new ≡ string_bytes texts.old ++ fault_line fault) }
    ensures err { OnErr result (string_bytes texts.new ≡ string_bytes texts.old) }
{
    let mut line = print_fault(alloc, fault)?;
    line.push('\n')?;
    texts.push_str(&line)
}

// Appends the reply to an admin command as lines. On an error nothing changes.
fn push_admin(alloc: Global, reply: AdminReply, texts: &mut String) -> Result<(), AllocError>
    ensures ok { OnOk result (string_bytes texts.new ≡ string_bytes texts.old ++ answer_lines (says reply)) }
    ensures err { OnErr result (string_bytes texts.new ≡ string_bytes texts.old) }
{
    match reply {
        AdminReply::Info(facts, counts) => {
            let text = print_info(alloc, &facts, &counts)?;
            texts.push_str(&text)
        }
        AdminReply::Begun => texts.push_str("begun\n"),
        AdminReply::UnderWay => texts.push_str("under way\n"),
        AdminReply::NotServed => push_reply(alloc, &Reply::NotServed, texts),
    }
}
