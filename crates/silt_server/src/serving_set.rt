// What the threads of a server of a set share: what those of each shard share, in the order of the shards.
ghost use Rattle.std.specs.Prelude.{◌≡◌, ◌∷◌, [], All, IfOk, IfSome, List, length, true, vec_len};
ghost use Rattle.std.specs.List.{AllZip};
ghost use Rattle.silt_event.specs.declared.event.Event.{Event as EventOf};
ghost use Rattle.silt_session.specs.Handing.{AreAsked};
ghost use Rattle.silt_session.specs.Sessions.{IsAnswer};
ghost use Rattle.silt_session.specs.Tolds.{AreInOrder, AsksBehind, ToldState};
ghost use Rattle.silt_shards.specs.Routing.{IsShardCount};
ghost use Rattle.silt_store_set.specs.CoreState.{CoreState};
ghost use Rattle.silt_store_set.specs.Facts.{facts_of};

use crate::admission::{Door, accept_clients};
use crate::care::Cares;
use crate::common::Serving;
use crate::connection::Connection;
use crate::counting_listener::Listens;
use crate::threads::{care_beside, run_shards};
use crate::workers::Workers;
use crossbeam_channel::{Receiver, Sender};
use silt_desk::{DeskId, DeskView, Gate, Shared, Trace, Viewed};
use silt_disk::Disk;
use silt_event::{Event, Facts, Reply};
use silt_inbox::{InboxId, Taker};
use silt_session::{
    AskAheadBy, AskedEvents, Board, Job, LogId, Session, SessionNumber, SetAsking, Told, Unanswered,
};
use std::alloc::Global;
use std::io;
use std::marker::PhantomData;
use std::sync::Wait;
use std::thread::Threads;
use std::time::Clock;

/// What the threads of a server of a set share. `S` is what those of one shard share.
#[derive(Drop)]
pub struct ServingSet<'a, S> {
    pub alloc: Global,
    pub board: &'a Board,
    pub shards: &'a [S],
    ghost count: { IsShardCount (length shards.now) },
}

/// A session at a shard, and what it was told of the calls there when its connection began.
#[derive(Drop)]
struct ShardSession<'a, D: Disk, T: Trace, N: DeskId + InboxId + LogId, R> {
    session: Session<'a, D, T, N, R>,
    told: Told<T>,
}

/// What one shard needs: its number, its workers and its writer, and where it says that they run.
#[derive(Drop)]
pub struct ShardPart<D: Disk, T: Trace, N: DeskId + InboxId + LogId> {
    pub number: usize,
    pub workers: Workers<D, T, N>,
    pub taker: Taker<N>,
    pub runs: Sender<bool>,
}

impl<D: Disk, T: Trace, N: DeskId + InboxId + LogId, G: Gate, R: Wait + Clock> ServingSet<
    '_,
    Serving<'_, Shared<D, T, N>, Job<D, T, N>, N, G, R>,
> {
    // Replies to a connection by sessions at all shards.
    fn answer(&self, sessions: &[ShardSession<'_, D, T, N, R>], connection: &Connection<'_, R>)
        requires { IsShardCount (length sessions.now) }
    {
        let Ok(mut shards) = Vec::with_capacity(self.alloc, sessions.len()) else {
            return;
        };
        for at in sessions {
            shards.push_reserved(AskAheadBy {
                one: move |event: Event| -> Result<Reply<()>, Unanswered>
                    ensures { IfOk result (λ reply. (told : ToldState) × AsksBehind at.entry.now.told told × IsAnswer D.Disk T.Trace told at.entry.now.session.settles_gets event reply
                        × AreInOrder told (event ∷ []) (reply ∷ [])) }
                { at.session.answer(event, &mut at.told.again()) },
                begin: move |events: Vec<Event>| -> Result<AskedEvents<D, T, N>, Unanswered>
                    ensures { IfOk result (AreAsked D.Disk at.entry.now.session.settles_gets T.Trace at.entry.now.told events.items) }
                { at.session.begin(events, &at.told) },
                finish: move |asked: AskedEvents<D, T, N>| -> Result<Vec<Reply<()>>, Unanswered>
                    ensures { (events : List EventOf) → AreAsked D.Disk at.entry.now.session.settles_gets T.Trace at.entry.now.told events asked
                        → IfOk result (λ replies. (told : ToldState) × AsksBehind at.entry.now.told told × AllZip (IsAnswer D.Disk T.Trace told at.entry.now.session.settles_gets) events replies.items
                        × AreInOrder told events replies.items) }
                {
                    match at.session.finish(asked) {
                        Ok((replies, _)) => Ok(replies),
                        Err(lack) => Err(lack),
                    }
                },
                facts: move || -> Facts
                    ensures { (core : CoreState D) × (result ≡ facts_of core) }
                { at.session.facts() },
                of: PhantomData,
            });
        }
        let asking = SetAsking {
            alloc: self.alloc,
            shards: shards.as_slice(),
        };
        connection.answer(asking);
    }
}

impl<D: Viewed, T: Trace, N: DeskId + InboxId + LogId, G: Gate, R: Wait + Clock> ServingSet<
    '_,
    Serving<'_, Shared<D, T, N>, Job<D, T, N>, N, G, R>,
> {
    // The sessions of this number in a slot, one at each shard, in their order. Their gets show only what a crash keeps. None if out of
    // memory.
    fn sessions(
        &self,
        slot: usize,
        number: &SessionNumber,
    ) -> Option<Vec<ShardSession<'_, D, T, N, R>>>
        ensures count { IfSome result (λ sessions. vec_len sessions ≡ length self.now.shards.now) }
        ensures settle { IfSome result (λ sessions. All (λ at. at.session.settles_gets ≡ true) sessions.items) }
        ensures number { IfSome result (λ sessions. All (λ at. at.session.number ≡ number.now) sessions.items) }
    {
        let mut sessions = Vec::with_capacity(self.alloc, self.shards.len()).ok()?;
        for shard in self.shards {
            let slot = shard.slots.get(slot)?;
            let session = shard.session(slot, number, true);
            let told = session.told();
            sessions.push_reserved(ShardSession { session, told });
        }
        Some(sessions)
    }

    // Runs the session in the slot of this number, and then frees the slot. The first shard's slots are those of the connections.
    fn serve_slot(&self, number: usize) {
        let Some(first) = self.shards.first() else {
            return;
        };
        let Some(slot) = first.slots.get(number) else {
            return;
        };
        let newcomer = slot.lock(first.rt).connection();
        if let Some(newcomer) = newcomer {
            if let Some(sessions) = self.sessions(number, &newcomer.number) {
                let connection = Connection {
                    rt: first.rt,
                    alloc: first.alloc,
                    board: first.board,
                    limits: first.limits,
                    value_len: first.value_len,
                    number: newcomer.number.get(),
                    stream: &newcomer.stream,
                };
                self.answer(sessions.as_slice(), &connection);
            }
        }
        slot.lock(first.rt).leave();
    }

    // A view of each shard's store, in their order. None if out of memory.
    fn views(&self) -> Option<Vec<DeskView<'_, D, T, N, R>>> {
        let mut views = Vec::with_capacity(self.alloc, self.shards.len()).ok()?;
        for shard in self.shards {
            views.push_reserved(shard.view());
        }
        Some(views)
    }

    // Does the care beside the sessions of a listener's connections. If out of memory for the views of the stores, the server ends.
    fn take_care<L: Listens, C: Cares>(&self, listener: &L, care: &C) {
        match self.views() {
            Some(views) => care.care(views.as_slice()),
            None => {
                self.board.end();
                listener.wake();
            }
        }
    }

    // Closes the inbox of each shard.
    fn close(&self) {
        for shard in self.shards {
            shard.inbox.close(shard.rt);
        }
    }
}

impl<
    D: Viewed,
    T: Trace + Send + Sync,
    N: DeskId + InboxId + LogId + Send + Sync,
    G: Gate + Sync,
    R: Threads + Wait + Clock + Sync,
> ServingSet<'_, Serving<'_, Shared<D, T, N>, Job<D, T, N>, N, G, R>> {
    // Runs the workers, the writer and the replier of one shard, until its inbox is closed.
    fn run_shard(&self, part: ShardPart<D, T, N>) {
        let ShardPart {
            number,
            workers,
            taker,
            runs,
        } = part;
        if let Some(shard) = self.shards.get(number) {
            shard.run_shard(workers, taker, &runs);
        }
    }

    // Serves the connections of a listener.
    fn serve_sessions<L: Listens + Sync>(&self, rt: &R, listener: &L) -> io::Result<()> {
        let Some(first) = self.shards.first() else {
            return Ok(());
        };
        let door = Door {
            alloc: self.alloc,
            board: self.board,
            limits: first.limits,
            slots: first.slots,
        };
        let accepted = accept_clients(
            rt,
            listener,
            &door,
            self,
            &|set: &ServingSet<
                '_,
                Serving<'_, Shared<D, T, N>, Job<D, T, N>, N, G, R>,
            >, number: usize| { set.serve_slot(number) },
        );
        match accepted {
            Ok(_) => Ok(()),
            Err(error) => Err(error),
        }
    }

    /// Runs the shards and the care beside the sessions of a listener's connections, until these have ended and all their requests are
    /// done. None if a worker, a writer or the care has no thread.
    pub fn run<L: Listens + Sync, C: Cares>(
        &self,
        rt: &R,
        listener: &L,
        care: &C,
        parts: Vec<ShardPart<D, T, N>>,
        heard: Receiver<bool>,
    ) -> Option<io::Result<()>> {
        care_beside(
            rt,
            self.board,
            self,
            &|set: &ServingSet<'_, Serving<'_, Shared<D, T, N>, Job<D, T, N>, N, G, R>>| {
                set.take_care(listener, care)
            },
            |set: &ServingSet<'_, Serving<'_, Shared<D, T, N>, Job<D, T, N>, N, G, R>>| -> Option<
                io::Result<()>,
            > { set.run_all(rt, listener, parts, heard) },
        )
    }

    // Runs the shards beside the sessions.
    fn run_all<L: Listens + Sync>(
        &self,
        rt: &R,
        listener: &L,
        parts: Vec<ShardPart<D, T, N>>,
        heard: Receiver<bool>,
    ) -> Option<io::Result<()>> {
        run_shards(
            rt,
            self,
            parts,
            heard,
            &|set: &ServingSet<
                '_,
                Serving<'_, Shared<D, T, N>, Job<D, T, N>, N, G, R>,
            >, part: ShardPart<D, T, N>| { set.run_shard(part) },
            (
                &|set: &ServingSet<
                    '_,
                    Serving<'_, Shared<D, T, N>, Job<D, T, N>, N, G, R>,
                >| -> io::Result<()> { set.serve_sessions(rt, listener) },
                &|set: &ServingSet<'_, Serving<'_, Shared<D, T, N>, Job<D, T, N>, N, G, R>>| {
                    set.close()
                },
            ),
        )
    }
}
