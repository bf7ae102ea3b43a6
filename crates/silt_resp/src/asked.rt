// What a command asks for.
ghost use Rattle.std.specs.Prelude.{◌≡◌, ◌∷◌, [], IfOk, All};
ghost use Rattle.silt_event.specs.Events.{HasValueOf};
ghost use Rattle.silt_resp.specs.Arguments.{Gives};
ghost use Rattle.silt_resp.specs.Commands.{FitsValues, asks, one, says, tail_command};
ghost use Rattle.silt_resp.specs.Seen.{asked_seen};
ghost use Rattle.silt_resp.specs.Texts.{marked_line};

use crate::fault::CommandFault;
use crate::texts::{Form, push_line};
use silt_event::{Admin, Event};
use std::alloc::{AllocError, Global};

/// What a command asks for.
#[derive(Debug, Drop)]
pub enum Asked {
    /// This reply, which needs no store.
    Text(Vec<u8>),
    /// One reply of this form, made of the replies to these events.
    Events(Vec<Event>, Form),
    /// The reply to this admin command.
    Admin(Tail),
}

/// An admin command. It ends a batch: it is done alone, when the events before it are done.
#[derive(Clone, Copy, Debug, PartialEq, Eq)]
pub enum Tail {
    /// An INFO that asks for these sections.
    Info(Sections),
    /// A SHUTDOWN.
    Shutdown,
    /// A BGSAVE.
    Backup,
}

/// The sections that INFO asks for.
#[derive(Clone, Copy, Debug, PartialEq, Eq)]
pub struct Sections {
    pub server: bool,
    pub store: bool,
    pub stats: bool,
}

impl Tail {
    /// What it asks of the answerer.
    pub fn command(self) -> Admin
        ensures { result ≡ tail_command self }
    {
        match self {
            Tail::Info(_) => Admin::Info,
            Tail::Shutdown => Admin::Shutdown,
            Tail::Backup => Admin::Backup,
        }
    }
}

/// One event.
pub(crate) fn one(alloc: Global, event: Event, form: Form) -> Result<Asked, CommandFault>
    ensures { Gives asked_seen (one event form) result }
{
    let mut events = Vec::new(alloc);
    events.push(event)?;
    Ok(Asked::Events(events, form))
}

/// A line of text behind its mark.
pub(crate) fn line(alloc: Global, mark: u8, text: &[u8]) -> Result<Asked, AllocError>
    ensures { IfOk result (λ asked. asked_seen asked ≡ says (marked_line mark text.now)) }
{
    let mut out = Vec::new(alloc);
    push_line(&mut out, mark, text)?;
    Ok(Asked::Text(out))
}
