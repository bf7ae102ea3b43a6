// The sessions of one connection, one at each shard of a set, which reply as one.
ghost use Rattle.std.specs.Prelude.{◌≡◌, ◌≤◌, ◌<◌, [], ◌∷◌, ◌++◌, ℕ, List, All, IfOk, IfSome, IsSomeAnd, OnOk, length, map, slice_get, vec_capacity, vec_len};
ghost use Rattle.std.specs.List.{AllZip};
ghost use Rattle.silt_event.specs.Events.{PlainReply};
ghost use Rattle.silt_event.specs.declared.event.Event.{Event as EventOf};
ghost use Rattle.silt_event.specs.declared.event.Event.TheVariants as event_case;
ghost use Rattle.silt_event.specs.declared.facts.Facts.{Facts as FactsOf};
ghost use Rattle.silt_shards.specs.Routing.{IsShardCount, routed};
ghost use Rattle.silt_shards.specs.Sets.{joined};
ghost use Rattle.silt_session.specs.SetAnswers.{DealsTo, Draws, DrawsEach, DrawsFrom, DrawsHeads, EachShard, HasPart, IsShardWithin, SetGives, SumsFacts, route_of};

use crate::client::Asking;
use crate::unanswered::Unanswered;
use silt_event::{Event, Facts, Reply};
use silt_shards::{join, no_facts, plus, shard_of};
use std::alloc::{AllocError, Global};
use std::collections::VecDeque;
use std::marker::PhantomData;

/// Gives replies to events, as long as replies come, in two steps: so several shards can be asked before the replies of one are waited
/// for.
pub trait AskingAhead: Drop {
    /// What was asked.
    type Asked: Drop;

    /// Events may be sent through it.
    ghost can_ask: { Self → Type 0 };

    /// An event and a reply that is given to it.
    ghost gives: { Self → EventOf → PlainReply → Type 0 };

    /// These events were asked through it.
    ghost are_asked: { Self → List EventOf → Self.Asked → Type 0 };

    /// The facts that it gives.
    ghost informs: { Self → FactsOf → Type 0 };

    /// The reply to an event.
    ///
    /// # Errors
    ///
    /// No reply comes, or out of memory before the event is done.
    fn ask(&self, event: Event) -> Result<Reply<()>, Unanswered>
        requires { can_ask self.now }
        ensures { IfOk result (gives self.now event) };

    /// Asks for the replies to events, and does not wait for the last of them.
    ///
    /// # Errors
    ///
    /// No reply comes to one of them, or out of memory before any of them is done.
    fn begin(&self, events: Vec<Event>) -> Result<Self::Asked, Unanswered>
        requires { can_ask self.now }
        ensures { IfOk result (are_asked self.now events.items) };

    /// Waits for the replies to events that were asked for, in order.
    ///
    /// # Errors
    ///
    /// No reply comes to one of them.
    fn finish(&self, asked: Self::Asked) -> Result<Vec<Reply<()>>, Unanswered>
        requires { can_ask self.now }
        ensures { (events : List EventOf) → are_asked self.now events asked → IfOk result (λ replies. AllZip (gives self.now) events replies.items) };

    /// The facts of the store at this moment.
    fn facts(&self) -> Facts
        requires { can_ask self.now }
        ensures { informs self.now result };
}

/// Asks one event by a closure, and several at once by two: one asks for their replies, and one waits for them. If that gives another
/// number of replies than was asked for, these do not count. Asks for facts by a fourth one.
#[derive(Drop)]
pub struct AskAheadBy<F: Drop, B: Drop, E: Drop, H: Drop, X> {
    pub one: F,
    pub begin: B,
    pub finish: E,
    pub facts: H,
    pub of: PhantomData<X>,
}

/// What was asked by a closure, and for how many events.
#[derive(Drop)]
pub struct CountedEvents<X: Drop> {
    count: usize,
    asked: X,
}

impl<
    X: Drop,
    F: Fn(Event) -> Result<Reply<()>, Unanswered> + Drop,
    B: Fn(Vec<Event>) -> Result<X, Unanswered> + Drop,
    E: Fn(X) -> Result<Vec<Reply<()>>, Unanswered> + Drop,
    H: Fn() -> Facts + Drop,
> AskingAhead for AskAheadBy<F, B, E, H, X> {
    ghost use Rattle.std.specs.Prelude.{◌≡◌, ◌⊎◌, Ok, vec_len};
    ghost use Rattle.silt_session.specs.Sessions.{ArePaired};

    type Asked = CountedEvents<X>;

    ghost can_ask = { λ by. F.IsAlwaysCallable by.one × B.IsAlwaysCallable by.begin × E.IsAlwaysCallable by.finish × H.IsAlwaysCallable by.facts };

    ghost gives = { λ by event reply. F.post by.one event (Ok reply)
        ⊎ ((events : _) × (asked : _) × (replies : _) × B.post by.begin events (Ok asked) × E.post by.finish asked (Ok replies) × ArePaired events.items replies.items event reply) };

    ghost are_asked = { λ by events asked. (all : _) × B.post by.begin all (Ok asked.asked) × (all.items ≡ events) × (asked.count ≡ vec_len all) };

    ghost informs = { λ by facts. H.post by.facts facts };

    fn ask(&self, event: Event) -> Result<Reply<()>, Unanswered> {
        (self.one)(event)
    }

    fn begin(&self, events: Vec<Event>) -> Result<CountedEvents<X>, Unanswered> {
        let count = events.len();
        let asked = (self.begin)(events)?;
        Ok(CountedEvents { count, asked })
    }

    fn finish(&self, asked: CountedEvents<X>) -> Result<Vec<Reply<()>>, Unanswered> {
        let CountedEvents { count, asked } = asked;
        let replies = (self.finish)(asked)?;
        if replies.len() != count {
            return Err(Unanswered::Lost);
        }
        Ok(replies)
    }

    fn facts(&self) -> Facts {
        (self.facts)()
    }
}

/// Asks the shards of a set: that of an event's key, and all of them for a flush. Of events that are asked at once each shard gets its
/// own, before the replies of any are waited for, so the shards flush side by side.
#[derive(Drop)]
pub struct SetAsking<'a, A: AskingAhead> {
    pub alloc: Global,
    /// The ways to the shards, in their order.
    pub shards: &'a [A],
}

/// Which shards do an event.
#[derive(Clone, Copy, Debug, PartialEq, Eq)]
enum Route {
    One(u32),
    All,
    Nowhere,
}

// Which shards of so many do an event.
fn route_of(count: u32, event: &Event) -> Route
    requires { 0 < count }
    ensures route { result ≡ route_of count event.now }
    ensures within { IsShardWithin count result }
{
    match event {
        Event::Put(key, _) => Route::One(shard_of(count, key)),
        Event::Delete(key) => Route::One(shard_of(count, key)),
        Event::Swap(key, _, _) => Route::One(shard_of(count, key)),
        Event::Get(key) => Route::One(shard_of(count, key)),
        Event::Flush => Route::All,
        Event::Convert | Event::Merge => Route::Nowhere,
    }
}

/// Which shards do each of some events, and the events of each shard, in order.
#[derive(Drop)]
struct Dealt {
    routes: Vec<Route>,
    parts: Vec<Vec<Event>>,
}

// So many empty lists.
fn no_parts(alloc: Global, count: u32) -> Result<Vec<Vec<Event>>, AllocError>
    ensures { IfOk result (λ parts. (vec_len parts ≡ count) × ((i : ℕ) → i < count → HasPart parts.items (λ part. part.items) i [])) }
{
    let mut parts = Vec::with_capacity(alloc, count as usize)?;
    for _number in 0..count {
        parts.push_reserved(Vec::new(alloc));
    }
    Ok(parts)
}

// Adds a flush to the events of each shard.
fn flush_all(parts: &mut Vec<Vec<Event>>) -> Result<(), AllocError>
    ensures { OnOk result (AllZip (λ old new. new.items ≡ old.items ++ event_case.Flush ∷ []) parts.old.items parts.new.items) }
{
    for part in parts.iter_mut() {
        part.push(Event::Flush)?;
    }
    Ok(())
}

// Adds an event to those of the shards that do it.
fn deal_one(parts: &mut Vec<Vec<Event>>, route: Route, event: Event) -> Result<(), AllocError>
    requires route { route ≡ route_of (vec_len parts.old) event }
    requires within { IsShardWithin (vec_len parts.old) route }
    ensures { OnOk result (DealsTo (vec_len parts.old) event parts.old.items parts.new.items (λ part. part.items)) }
{
    match route {
        Route::One(shard) => {
            parts[shard as usize].push(event)?;
            Ok(())
        }
        Route::All => flush_all(parts),
        Route::Nowhere => Ok(()),
    }
}

// Gives each event to the shards that do it.
fn deal(alloc: Global, count: u32, events: Vec<Event>) -> Result<Dealt, AllocError>
    requires { 0 < count }
    ensures routes { IfOk result (λ dealt. dealt.routes.items ≡ map (route_of count) events.items) }
    ensures parts { IfOk result (λ dealt. (vec_len dealt.parts ≡ count) × ((i : ℕ) → i < count → HasPart dealt.parts.items (λ part. part.items) i (routed count i events.items))) }
{
    let mut parts = no_parts(alloc, count)?;
    let mut routes = Vec::with_capacity(alloc, events.len())?;
    for event in events {
        let route = route_of(count, &event);
        deal_one(&mut parts, route, event)?;
        routes.push_reserved(route);
    }
    Ok(Dealt { routes, parts })
}

// Takes the next reply of each shard, and joins them.
fn draw_heads(told: &mut Vec<VecDeque<Reply<()>>>) -> Option<Reply<()>>
    ensures { IfSome result (λ reply. (heads : List PlainReply) × DrawsHeads told.old.items heads told.new.items (λ list. list.items) × (reply ≡ joined heads)) }
{
    let mut joined = Reply::Acknowledged(0);
    for replies in told.iter_mut() {
        joined = join(joined, replies.pop_front()?);
    }
    Some(joined)
}

// Takes the next reply of one shard.
fn draw_from(told: &mut Vec<VecDeque<Reply<()>>>, shard: usize) -> Option<Reply<()>>
    ensures { IfSome result (λ reply. DrawsFrom shard told.old.items reply told.new.items (λ list. list.items)) }
{
    if shard >= told.len() {
        return None;
    }
    told[shard].pop_front()
}

// Takes the next reply to an event of the shards that did it.
fn draw(told: &mut Vec<VecDeque<Reply<()>>>, route: Route) -> Option<Reply<()>>
    ensures { IfSome result (λ reply. Draws told.old.items route reply told.new.items (λ list. list.items)) }
{
    match route {
        Route::One(shard) => draw_from(told, shard as usize),
        Route::All => draw_heads(told),
        Route::Nowhere => Some(Reply::NotServed),
    }
}

// Puts the replies of the shards into the order of the events. None if a shard has too few.
fn weave(
    routes: Vec<Route>,
    told: Vec<VecDeque<Reply<()>>>,
    room: Vec<Reply<()>>,
) -> Option<Vec<Reply<()>>>
    requires room { (room.items ≡ []) × (vec_len routes ≤ vec_capacity room) }
    ensures { IfSome result (λ replies. DrawsEach told.items routes.items replies.items (λ list. list.items)) }
{
    let mut told = told;
    let mut replies = room;
    for route in routes {
        replies.push_reserved(draw(&mut told, route)?);
    }
    Some(replies)
}

/// Memory for what is asked, and for its replies.
#[derive(Drop)]
struct SetRoom<X: Drop> {
    asked: Vec<X>,
    told: Vec<VecDeque<Reply<()>>>,
    replies: Vec<Reply<()>>,
}

impl<X: Drop> SetRoom<X> {
    // For so many events and shards.
    fn new(alloc: Global, events: usize, shards: usize) -> Result<SetRoom<X>, AllocError>
        ensures none { IfOk result (λ room. (room.asked.items ≡ []) × (room.told.items ≡ []) × (room.replies.items ≡ [])) }
        ensures room { IfOk result (λ room. (shards ≤ vec_capacity room.asked) × (shards ≤ vec_capacity room.told) × (events ≤ vec_capacity room.replies)) }
    {
        Ok(SetRoom {
            asked: Vec::with_capacity(alloc, shards)?,
            told: Vec::with_capacity(alloc, shards)?,
            replies: Vec::with_capacity(alloc, events)?,
        })
    }
}

// Asks each shard for the replies to its events. Once one was asked, out of memory is a loss too.
fn begin_each<A: AskingAhead>(
    shards: &[A],
    parts: Vec<Vec<Event>>,
    room: Vec<A::Asked>,
) -> Result<Vec<A::Asked>, Unanswered>
    requires can { All A.can_ask shards.now }
    requires room { (room.items ≡ []) × (length shards.now ≤ vec_capacity room) }
    ensures { IfOk result (λ asked. EachShard shards.now asked.items (λ i shard one. IsSomeAnd (slice_get parts.items i) (λ part. A.are_asked shard part.items one))) }
{
    let mut parts = VecDeque::from(parts);
    let mut asked = room;
    for shard in shards {
        let Some(events) = parts.pop_front() else {
            return Err(Unanswered::Lost);
        };
        match shard.begin(events) {
            Ok(one) => asked.push_reserved(one),
            Err(_) => return Err(Unanswered::Lost),
        }
    }
    Ok(asked)
}

// Waits for the replies of each shard.
fn finish_each<A: AskingAhead>(
    shards: &[A],
    asked: Vec<A::Asked>,
    room: Vec<VecDeque<Reply<()>>>,
) -> Result<Vec<VecDeque<Reply<()>>>, Unanswered>
    requires can { All A.can_ask shards.now }
    requires room { (room.items ≡ []) × (length shards.now ≤ vec_capacity room) }
    ensures count { IfOk result (λ told. vec_len told ≡ length shards.now) }
    ensures told { IfOk result (λ told. EachShard shards.now told.items (λ i shard list. IsSomeAnd (slice_get asked.items i)
        (λ one. (events : List EventOf) → A.are_asked shard events one → AllZip (A.gives shard) events list.items))) }
{
    let mut asked = VecDeque::from(asked);
    let mut told = room;
    for shard in shards {
        let Some(one) = asked.pop_front() else {
            return Err(Unanswered::Lost);
        };
        match shard.finish(one) {
            Ok(replies) => told.push_reserved(VecDeque::from(replies)),
            Err(_) => return Err(Unanswered::Lost),
        }
    }
    Ok(told)
}

// The sums of the shards' facts, each at a moment of its own.
fn sum_facts<A: AskingAhead>(shards: &[A]) -> Facts
    requires { All A.can_ask shards.now }
    ensures { SumsFacts A.informs shards.now result }
{
    let mut sum = no_facts();
    for shard in shards {
        sum = plus(sum, shard.facts());
    }
    sum
}

impl<A: AskingAhead> SetAsking<'_, A> {
    // Has all shards flush, side by side.
    fn flush(&self) -> Result<Reply<()>, Unanswered>
        requires can { IsShardCount (length self.now.shards.now) × All A.can_ask self.now.shards.now }
        ensures { IfOk result (SetGives A.gives self.now.shards.now event_case.Flush) }
    {
        let Ok(events) = vec![in self.alloc; Event::Flush] else {
            return Err(Unanswered::NoMemory);
        };
        let mut replies = self.ask_each(events)?;
        replies.pop().ok_or(Unanswered::Lost)
    }

    // Asks the shards, each for the replies to its events.
    fn ask_each(&self, events: Vec<Event>) -> Result<Vec<Reply<()>>, Unanswered>
        requires can { IsShardCount (length self.now.shards.now) × All A.can_ask self.now.shards.now }
        ensures { IfOk result (λ replies. AllZip (SetGives A.gives self.now.shards.now) events.items replies.items) }
    {
        let shards = self.shards;
        let Ok(room) = SetRoom::new(self.alloc, events.len(), shards.len()) else {
            return Err(Unanswered::NoMemory);
        };
        let Ok(dealt) = deal(self.alloc, shards.len() as u32, events) else {
            return Err(Unanswered::NoMemory);
        };
        let asked = begin_each(shards, dealt.parts, room.asked)?;
        let told = finish_each(shards, asked, room.told)?;
        weave(dealt.routes, told, room.replies).ok_or(Unanswered::Lost)
    }
}

impl<A: AskingAhead> Asking for SetAsking<'_, A> {
    ghost use Rattle.std.specs.Prelude.{All, length};
    ghost use Rattle.silt_shards.specs.Routing.{IsShardCount};
    ghost use Rattle.silt_session.specs.SetAnswers.{SetGives, SumsFacts};

    ghost can_ask = { λ set. IsShardCount (length set.shards.now) × All A.can_ask set.shards.now };

    ghost gives = { λ old new event reply. SetGives A.gives new.shards.now event reply };

    ghost informs = { λ set facts. SumsFacts A.informs set.shards.now facts };

    ghost gives_in = { λ a b event reply given. given };

    fn ask(&mut self, event: Event) -> Result<Reply<()>, Unanswered> {
        let count = self.shards.len() as u32;
        match route_of(count, &event) {
            Route::One(shard) => self.shards[shard as usize].ask(event),
            Route::All => self.flush(),
            Route::Nowhere => Ok(Reply::NotServed),
        }
    }

    fn ask_all(&mut self, events: Vec<Event>) -> Result<Vec<Reply<()>>, Unanswered> {
        self.ask_each(events)
    }

    fn facts(&self) -> Facts {
        sum_facts(self.shards)
    }
}
