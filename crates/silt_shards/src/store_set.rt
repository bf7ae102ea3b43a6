// A set of shards that replies to events.
ghost use Rattle.std.specs.Prelude.{◌≡◌, ◌<◌, ◌++◌, ◌∷◌, [], List, length, vec_len};
ghost use Rattle.silt_event.specs.Events.{HasValueOf, PlainReply};
ghost use Rattle.silt_shards.specs.Routing.{IsShardCount};
ghost use Rattle.silt_shards.specs.SetFacts.{AdministersSet, Informs, SetInforms, no_facts, plus};
ghost use Rattle.silt_shards.specs.Sets.{AreAlike, DoesAt, FlushesEach, IsSet, SetDoes, joined, value_len_of};

use crate::shard_key::only_shard;
use silt_event::{Admin, AdminReply, Answerer, Event, Facts, Reply};
use std::alloc::Global;
use std::marker::Model;

/// One store in several shards: 2 to 64 answerers, each of which is a whole store, or a layer in front of one. Some bytes of a
/// key choose its shard ([`shard_of`](crate::shard_of)).
#[derive(Drop)]
pub struct StoreSet<A: Answerer + Drop> {
    shards: Vec<A>,
}

impl<A: Answerer + Drop> Model for StoreSet<A> {
    ghost use Rattle.std.specs.Prelude.{List};
    ghost use Rattle.silt_shards.specs.Sets.{IsSet};

    ghost Value = { List A };

    ghost view = { λ set. set.shards.items };

    ghost invariant = { λ set. IsSet A.value_len set.shards.items };
}

impl<A: Answerer + Drop> StoreSet<A> {
    /// The set of these shards, in their order.
    pub fn new(shards: Vec<A>) -> StoreSet<A>
        requires count { IsShardCount (vec_len shards) }
        requires alike { AreAlike A.value_len shards.items }
        ensures { result ≡ shards.items }
    {
        StoreSet { shards }
    }

    /// The shards, in their order.
    pub fn into_shards(self) -> Vec<A>
        ensures { result.items ≡ self }
    {
        self.shards
    }

    // Each shard does one flush, whatever the others reply.
    fn flush_each(&mut self, alloc: Global) -> Reply<()>
        ensures stays { value_len_of A.value_len self.new ≡ value_len_of A.value_len self.old }
        ensures flushes { (parts : List PlainReply) × FlushesEach A.answers self.old parts self.new × (result ≡ joined parts) }
    {
        let mut joined = Reply::Acknowledged(0);
        for shard in self.shards.iter_mut() {
            joined = join(joined, shard.answer(alloc, Event::Flush));
        }
        joined
    }

    // The sums of the shards' facts, if all give some.
    fn sum_facts(&self) -> Option<Facts>
        ensures { SetInforms (Informs A.administers) self.now result }
    {
        let mut sum = no_facts();
        for shard in self.shards.iter() {
            sum = plus(sum, facts_given(shard)?);
        }
        Some(sum)
    }

    // This shard does the event, and the others stay as they are.
    fn answer_at(&mut self, alloc: Global, shard: usize, event: Event) -> Reply<()>
        requires within { shard < length self.old }
        requires value { HasValueOf (value_len_of A.value_len self.old) event }
        ensures stays { value_len_of A.value_len self.new ≡ value_len_of A.value_len self.old }
        ensures does { DoesAt A.answers shard self.old self.new event result }
    {
        self.shards[shard].answer(alloc, event)
    }
}

impl<A: Answerer + Drop> Answerer for StoreSet<A> {
    ghost value_len = { value_len_of A.value_len };

    ghost answers = { SetDoes A.answers };

    ghost administers = { AdministersSet A.administers };

    fn answer(&mut self, alloc: Global, event: Event) -> Reply<()> {
        let count = self.shards.len() as u32;
        match only_shard(count, &event) {
            Some(shard) => self.answer_at(alloc, shard as usize, event),
            None => match event {
                Event::Flush => self.flush_each(alloc),
                _ => Reply::NotServed,
            },
        }
    }

    fn administer(&self, admin: Admin) -> AdminReply {
        match admin {
            Admin::Info => match self.sum_facts() {
                Some(facts) => AdminReply::Info(facts, None),
                None => AdminReply::NotServed,
            },
            _ => AdminReply::NotServed,
        }
    }
}

// The facts of a shard, if it gives some.
fn facts_given<A: Answerer>(shard: &A) -> Option<Facts>
    ensures { Informs A.administers shard.now result }
{
    shard.administer(Admin::Info).facts()
}

/// The facts of no store.
pub fn no_facts() -> Facts
    ensures { result ≡ no_facts }
{
    Facts {
        stores: 0,
        failed: 0,
        commands: 0,
        charge: 0,
        capacity: 0,
        generation: 0,
        frozen_logs: 0,
        hash_stores: 0,
        sorted_entries: 0,
        converted_slots: 0,
        merge_steps: 0,
    }
}

/// The sums of two stores' facts, each no more than a fact can hold.
pub fn plus(a: Facts, b: Facts) -> Facts
    ensures { result ≡ plus a b }
{
    Facts {
        stores: a.stores.saturating_add(b.stores),
        failed: a.failed.saturating_add(b.failed),
        commands: a.commands.saturating_add(b.commands),
        charge: a.charge.saturating_add(b.charge),
        capacity: a.capacity.saturating_add(b.capacity),
        generation: a.generation.saturating_add(b.generation),
        frozen_logs: a.frozen_logs.saturating_add(b.frozen_logs),
        hash_stores: a.hash_stores.saturating_add(b.hash_stores),
        sorted_entries: a.sorted_entries.saturating_add(b.sorted_entries),
        converted_slots: a.converted_slots.saturating_add(b.converted_slots),
        merge_steps: a.merge_steps.saturating_add(b.merge_steps),
    }
}

/// The reply to a flush of some shards, joined with that of the next one.
pub fn join(so_far: Reply<()>, part: Reply<()>) -> Reply<()>
    ensures { (parts : List PlainReply) → so_far ≡ joined parts → result ≡ joined (parts ++ part ∷ []) }
{
    let Reply::Acknowledged(sum) = so_far else {
        return so_far;
    };
    match part {
        Reply::Acknowledged(count) => Reply::Acknowledged(sum.saturating_add(count)),
        refused => refused,
    }
}
