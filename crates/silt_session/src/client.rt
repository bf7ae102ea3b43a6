// The client side of one session: it gets the replies to the session's events.
ghost use Rattle.std.specs.Prelude.{◌≡◌, ◌≤◌, ◌+◌, ◌++◌, List, IfOk, None, Option, Some, false, vec_capacity, vec_len};
ghost use Rattle.std.specs.List.{AllZip};
ghost use Rattle.silt_event.specs.declared.event.Event.{Event as EventOf};
ghost use Rattle.silt_event.specs.declared.facts.Facts.{Facts as FactsOf};
ghost use Rattle.silt_event.specs.Events.{PlainReply};

use crate::board::Board;
use crate::tally::Tally;
use crate::unanswered::Unanswered;
use silt_event::{Admin, AdminReply, Answerer, Event, Facts, Reply};
use std::alloc::Global;
use std::marker::Model;
use std::sync::atomic::{AtomicU64, Ordering};
use std::time::Clock;

/// Gives replies to events, as long as replies come.
pub trait Asking: Drop {
    /// Events may be sent through it.
    ghost can_ask: { Self → Type 0 };

    /// An event and a reply that is given to it, in the first state and up to the second one.
    ghost gives: { Self → Self → EventOf → PlainReply → Type 0 };

    /// The facts that it gives.
    ghost informs: { Self → FactsOf → Type 0 };

    /// The reply to an event.
    ///
    /// # Errors
    ///
    /// No reply comes, or out of memory before the event is done.
    fn ask(&mut self, event: Event) -> Result<Reply<()>, Unanswered>
        requires { can_ask self.old }
        ensures can { can_ask self.new }
        ensures reply { IfOk result (gives self.old self.new event) };

    /// The replies to events that are asked at once, in order.
    ///
    /// # Errors
    ///
    /// No reply comes to one of them, or out of memory before any of them is done.
    fn ask_all(&mut self, events: Vec<Event>) -> Result<Vec<Reply<()>>, Unanswered>
        requires { can_ask self.old }
        ensures can { can_ask self.new }
        ensures replies { IfOk result (λ replies. AllZip (gives self.old self.new) events.items replies.items) };

    /// The facts of the store at this moment.
    fn facts(&self) -> Facts
        requires { can_ask self.now }
        ensures { informs self.now result };

    ghost gives_in: { (a b : Self) (event : EventOf) (reply : PlainReply) → gives a b event reply → gives b b event reply };
}

/// Asks one event by a closure, several at once by another one, and for facts by a third. The first two are given what the client
/// was told before, and return what it is told then. If the second gives another number of replies than it is asked for,
/// these do not count.
#[derive(Drop)]
pub struct AskBy<'a, F, G, H, X: Drop> {
    pub one: &'a F,
    pub all: &'a G,
    pub facts: &'a H,
    pub told: X,
}

impl<
    X: Drop,
    F: Fn(Event, &X) -> (Result<Reply<()>, Unanswered>, X),
    G: Fn(Vec<Event>, &X) -> (Result<Vec<Reply<()>>, Unanswered>, X),
    H: Fn() -> Facts,
> Asking for AskBy<'_, F, G, H, X> {
    ghost use Rattle.std.specs.Prelude.{◌≡◌, ◌⊎◌, Ok};
    ghost use Rattle.silt_session.specs.Sessions.{ArePaired, is_known};

    ghost can_ask = { λ by. F.IsAlwaysCallable by.one.now × G.IsAlwaysCallable by.all.now × H.IsAlwaysCallable by.facts.now };

    ghost gives = { λ old new event reply. (told : _) × ((told.now ≡ old.told) ⊎ (new.told ≡ old.told))
        × (F.post new.one.now event told (Ok reply, new.told)
        ⊎ ((events : _) × (replies : _) × G.post new.all.now events told (Ok replies, new.told) × ArePaired events.items replies.items event reply)) };

    ghost informs = { λ by facts. H.post by.facts.now facts };

    ghost gives_in = { λ a b event reply given. (given.0, is_known b.told, given.2) };

    fn ask(&mut self, event: Event) -> Result<Reply<()>, Unanswered> {
        let (given, told) = (self.one)(event, &self.told);
        self.told = told;
        given
    }

    fn ask_all(&mut self, events: Vec<Event>) -> Result<Vec<Reply<()>>, Unanswered> {
        let count = events.len();
        let (given, told) = (self.all)(events, &self.told);
        self.told = told;
        let replies = given?;
        if replies.len() != count {
            return Err(Unanswered::Lost);
        }
        Ok(replies)
    }

    fn facts(&self) -> Facts {
        (self.facts)()
    }
}

/// Forwards events and returns their replies. If no reply comes the session is lost: no more events are forwarded, each
/// gets the reply of a step that is not served, and the session's outlet is cut, so that none of these replies is sent.
/// Contracts see how events are sent, and whether the session is lost.
#[derive(Drop)]
pub struct Client<'a, A: Asking, R> {
    value_len: usize,
    asking: A,
    pipelines: bool,
    is_lost: bool,
    cut: &'a AtomicU64,
    rt: &'a R,
    board: &'a Board,
}

impl<'a, A: Asking, R> Model for Client<'a, A, R> {
    ghost use Rattle.silt_session.specs.Sessions.{ClientState};

    ghost Value = { ClientState A };

    ghost view = { λ c. record { value_len = c.value_len; asking = c.asking; is_lost = c.is_lost } };

    ghost invariant = { λ c. A.can_ask c.asking };
}

// Appends replies to a list that has room for them.
fn append(replies: &mut Vec<Reply<()>>, given: Vec<Reply<()>>)
    requires { vec_len replies.old + vec_len given ≤ vec_capacity replies.old }
    ensures { replies.new.items ≡ replies.old.items ++ given.items }
{
    for reply in given {
        replies.push_reserved(reply);
    }
}

impl<'a, A: Asking, R: Clock> Client<'a, A, R> {
    ghost use Rattle.silt_event.specs.Events.{AnswersEach};
    ghost use Rattle.silt_session.specs.Sessions.{AnswersClient, IsWithout};

    /// A client that sends events this way: all that are asked at once together if it pipelines, and else one by one.
    /// Its values have `value_len` bytes.
    pub fn new(
        value_len: usize,
        asking: A,
        pipelines: bool,
        cut: &'a AtomicU64,
        rt: &'a R,
        board: &'a Board,
    ) -> Client<'a, A, R>
        requires { A.can_ask asking }
        ensures { (result.value_len ≡ value_len) × (result.asking ≡ asking) × (result.is_lost ≡ false) }
    {
        Client {
            value_len,
            asking,
            pipelines,
            is_lost: false,
            cut,
            rt,
            board,
        }
    }

    // Notes why no reply came. If it is lost, the session is lost too.
    fn note(&mut self, lack: Unanswered)
        ensures without { IsWithout self.old self.new lack }
        ensures stays { self.new.value_len ≡ self.old.value_len }
    {
        match lack {
            Unanswered::Lost => {
                self.is_lost = true;
                self.cut.store(1, Ordering::SeqCst);
            }
            Unanswered::NoMemory => {}
        }
    }

    // Asks one event.
    fn ask(&mut self, event: Event) -> Reply<()>
        ensures stays { self.new.value_len ≡ self.old.value_len }
        ensures answers { AnswersClient A.gives self.old self.new event result }
    {
        if self.is_lost {
            return Unanswered::Lost.reply();
        }
        match self.asking.ask(event) {
            Ok(reply) => reply,
            Err(lack) => {
                self.note(lack);
                lack.reply()
            }
        }
    }

    // Asks events at once, and appends their replies.
    fn ask_all(&mut self, events: Vec<Event>, replies: &mut Vec<Reply<()>>)
        requires { vec_len replies.old + vec_len events ≤ vec_capacity replies.old }
        ensures stays { self.new.value_len ≡ self.old.value_len }
        ensures answers { (given : List PlainReply) × (replies.new.items ≡ replies.old.items ++ given) × AnswersEach (AnswersClient A.gives) self.old events.items given self.new }
    {
        let count = events.len();
        if count == 0 {
            return;
        }
        if self.is_lost {
            Unanswered::Lost.reply_to(count, replies);
            return;
        }
        let mut tally = Tally::new();
        tally.events(events.as_slice());
        match self.asking.ask_all(events) {
            Ok(given) => {
                tally.replies(given.as_slice());
                tally.post(self.rt, self.board);
                append(replies, given);
            }
            Err(lack) => {
                self.note(lack);
                tally.reply(&lack.reply(), count as u64);
                tally.post(self.rt, self.board);
                lack.reply_to(count, replies);
            }
        }
    }
}

impl<A: Asking, R: Clock> Answerer for Client<'_, A, R> {
    ghost use Rattle.silt_session.specs.Sessions.{AdministersClient, AnswersClient};

    ghost value_len = { λ client. client.value_len };

    ghost answers = { AnswersClient A.gives };

    ghost administers = { AdministersClient A.informs };

    fn answer(&mut self, _alloc: Global, event: Event) -> Reply<()> {
        let mut tally = Tally::new();
        tally.event(&event);
        let reply = self.ask(event);
        tally.reply(&reply, 1);
        tally.post(self.rt, self.board);
        reply
    }

    fn answer_all(&mut self, alloc: Global, events: Vec<Event>, replies: &mut Vec<Reply<()>>) {
        if self.pipelines {
            self.ask_all(events, replies);
            return;
        }
        for event in events {
            replies.push_reserved(self.answer(alloc, event));
        }
    }

    fn administer(&self, admin: Admin) -> AdminReply {
        match admin {
            Admin::Info if self.is_lost => AdminReply::NotServed,
            Admin::Info => AdminReply::Info(self.asking.facts(), Some(self.board.counts(self.rt))),
            Admin::Shutdown => {
                self.board.end();
                AdminReply::Begun
            }
            Admin::Backup => self.board.order_backup(),
        }
    }
}
