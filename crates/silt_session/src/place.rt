// The place of an event among the events that a session asks at once.
ghost use Rattle.std.specs.Prelude.{◌≡◌, IfSome};
ghost use Rattle.silt_session.specs.Pipelines.{FillsOne, given_by, reply_without_tasks};
ghost use Rattle.silt_session.specs.Tolds.{PassesOn};

use crate::task::Task;
use crate::told::Told;
use silt_desk::Trace;
use silt_disk::Disk;
use silt_event::{Refusal, Reply};
use std::collections::VecDeque;

/// The reply to an event that is not for the writer.
#[derive(Drop)]
pub struct Shown {
    pub reply: Reply<()>,
    /// If the reply waits for a flush: how many commands that has to acknowledge.
    pub until: Option<u64>,
}

/// The place of an event.
#[derive(Drop)]
pub enum Place {
    Shows(Shown),
    /// A request waits for the writer.
    Waits,
}

impl Shown {
    /// A reply that waits for nothing.
    pub(crate) fn now(reply: Reply<()>) -> Shown
        ensures { result ≡ record { reply = reply; until = None } }
    {
        Shown { reply, until: None }
    }

    /// The reply, by the reply to the flush behind it. None if it waits for a flush and that acknowledges too few
    /// commands. If the flush is refused, so is the event.
    pub(crate) fn given(self, flushed: &Option<Reply<()>>) -> Option<Reply<()>>
        ensures { result ≡ given_by flushed.now self }
    {
        let Some(count) = self.until else {
            return Some(self.reply);
        };
        match flushed {
            Some(Reply::Acknowledged(acknowledged)) => {
                (count <= *acknowledged).then_some(self.reply)
            }
            Some(Reply::Refused(refusal)) => Some(Reply::Refused(*refusal)),
            _ => None,
        }
    }

    // The reply if out of memory for a flush.
    fn without_flush(self) -> Reply<()>
        ensures { result ≡ reply_without_tasks (Place.Shows self) }
    {
        match self.until {
            None => self.reply,
            Some(_) => Reply::Refused(Refusal::NoMemory),
        }
    }
}

impl Place {
    /// The reply, by the tasks that came back in order, of which it takes the next one if its request waited, and by the
    /// reply to the flush behind them. None if that task is missing, or has no reply that fits what was told.
    pub(crate) fn given<D: Disk, T: Trace>(
        self,
        tasks: &mut VecDeque<Task<D, T>>,
        flushed: &Option<Reply<()>>,
        told: &mut Told<T>,
    ) -> Option<Reply<()>>
        ensures told { PassesOn told.old told.new }
        ensures fills { IfSome result (λ reply. FillsOne D.Disk T.Trace told.old flushed.now told.old.next tasks.old.items self reply told.new.next tasks.new.items) }
    {
        match self {
            Place::Shows(shown) => shown.given(flushed),
            Place::Waits => tasks.pop_front()?.tell(told),
        }
    }

    /// The reply if out of memory for the tasks.
    pub(crate) fn without_tasks(self) -> Reply<()>
        ensures { result ≡ reply_without_tasks self }
    {
        match self {
            Place::Shows(shown) => shown.without_flush(),
            Place::Waits => Reply::Refused(Refusal::NoMemory),
        }
    }
}
