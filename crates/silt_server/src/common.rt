// What the threads of a server share, and what each of them does.
ghost use Rattle.std.specs.Prelude.{◌≡◌, ◌∷◌, [], IfOk, OnOk};
ghost use Rattle.std.specs.List.{AllZip};
ghost use Rattle.silt_session.specs.Sessions.{IsAnswer};
ghost use Rattle.silt_session.specs.Tolds.{AreInOrder, AsksBehind};
ghost use Rattle.silt_store_set.specs.CoreState.{CoreState};
ghost use Rattle.silt_store_set.specs.Facts.{facts_of};

use crate::admission::{Door, accept_clients};
use crate::care::Cares;
use crate::connection::Connection;
use crate::counting_listener::Listens;
use crate::limits::Limits;
use crate::threads::{Ended, Parts, care_beside, run_beside};
use crate::workers::{Worker, Workers, WriterParts};
use crossbeam_channel::Sender;
use silt_desk::{
    DeskId, DeskView, Gate, Seat, Shared, Trace, Viewed, WorkerEnds, converter, merger,
};
use silt_disk::Disk;
use silt_event::{Event, Facts, Reply};
use silt_inbox::{Inbox, InboxId, Taker};
use silt_session::{
    AskBy, Asking, Board, Job, JobLog, LogId, Newcomer, RoomGate, RoomWait, Session, SessionNumber,
    SessionSlot, Told, Unanswered, Workplace, WriterLink,
};
use std::alloc::Global;
use std::io;
use std::sync::{Mutex, Wait};
use std::thread::Threads;
use std::time::Clock;

/// What the threads of a server share. `S` is the desk under its lock, and `J` the jobs of its writer.
#[derive(Drop)]
pub struct Serving<'a, S, J: Drop, N: InboxId + LogId, G, R> {
    pub rt: &'a R,
    pub alloc: Global,
    pub desk: &'a S,
    pub inbox: &'a Inbox<J, N>,
    pub log: &'a JobLog<N>,
    pub slots: &'a [Mutex<SessionSlot<N>>],
    pub value_len: usize,
    pub limits: Limits,
    pub gate: &'a G,
    pub board: &'a Board,
}

/// What one of the workers needs, or the writer.
#[derive(Drop)]
pub enum Part<D: Disk, T: Trace, N: DeskId + InboxId + LogId> {
    Merger(Worker<N>),
    Converter(Worker<N>),
    Writer(WriterParts<D, T, N>, Taker<N>),
}

/// What comes back when the sessions have ended: the seats, and whether the listener failed.
#[derive(Drop)]
pub struct Served<N: DeskId> {
    pub seats: (Seat<N>, Seat<N>, Seat<N>),
    pub accepted: io::Result<()>,
}

// What came back, if all threads ran.
fn gather_served<N: DeskId>(back: Option<Ended<Seat<N>>>) -> Option<Served<N>> {
    match back {
        Some(ended) => Some(Served {
            seats: (ended.writer, ended.converter, ended.merger),
            accepted: ended.sessions,
        }),
        None => None,
    }
}

// What the threads of the workers and of the writer need.
fn parts_of<D: Disk, T: Trace, N: DeskId + InboxId + LogId>(
    workers: Workers<D, T, N>,
    taker: Taker<N>,
) -> Parts<Part<D, T, N>, D, T, N> {
    let Workers {
        writer,
        converter,
        merger,
        stops,
        batches,
    } = workers;
    Parts {
        merger: Part::Merger(merger),
        converter: Part::Converter(converter),
        writer: Part::Writer(writer, taker),
        stops,
        batches,
    }
}

impl<D: Viewed, T: Trace, N: DeskId + InboxId + LogId, G: Gate, R: Wait + Clock> Serving<
    '_,
    Shared<D, T, N>,
    Job<D, T, N>,
    N,
    G,
    R,
> {
    // Does steps of conversion until the converter is told to end, and gives its seat back. The writer hears when there
    // may be room.
    fn convert(&self, worker: Worker<N>) -> Seat<N>
        ensures { result.caller ≡ worker.seat.caller }
    {
        let view = self.view();
        let gate = RoomGate {
            rt: self.rt,
            view: &view,
            gate: self.gate,
            room: worker.room,
        };
        let ends = WorkerEnds {
            wakes: worker.wakes,
            other: worker.other,
        };
        converter(self.rt, self.alloc, self.desk, worker.seat, &gate, ends)
    }

    // Does steps of merging until the merger is told to end, and gives its seat back. The writer hears when there may be
    // room.
    fn merge(&self, worker: Worker<N>) -> Seat<N>
        ensures { result.caller ≡ worker.seat.caller }
    {
        let view = self.view();
        let gate = RoomGate {
            rt: self.rt,
            view: &view,
            gate: self.gate,
            room: worker.room,
        };
        let ends = WorkerEnds {
            wakes: worker.wakes,
            other: worker.other,
        };
        merger(self.rt, self.alloc, self.desk, worker.seat, &gate, ends)
    }

    // Does the requests of the sessions until there are no more, and gives the writer's seat back. A command waits for room
    // as long as the limits say.
    fn write(&self, parts: WriterParts<D, T, N>, taker: Taker<N>) -> Seat<N>
        ensures { result.caller.seat ≡ parts.seat.caller.seat }
    {
        let room = RoomWait {
            wakes: parts.wakes,
            heard: parts.heard,
            seconds: self.limits.wait,
        };
        let at = Workplace {
            rt: self.rt,
            alloc: self.alloc,
            shared: self.desk,
            gate: self.gate,
            room: &room,
            board: self.board,
        };
        let (seat, _) = at.serve_all(parts.seat, self.inbox, taker, parts.replier);
        seat
    }

    // Does the work of one worker or of the writer until it is to end, and gives its seat back.
    fn work(&self, part: Part<D, T, N>) -> Seat<N> {
        match part {
            Part::Merger(worker) => self.merge(worker),
            Part::Converter(worker) => self.convert(worker),
            Part::Writer(parts, taker) => self.write(parts, taker),
        }
    }

    /// The session of this number, in a slot. With `settles_gets` a get waits for a flush if a crash may take away what it shows.
    pub fn session<'b>(
        &'b self,
        slot: &'b Mutex<SessionSlot<N>>,
        number: &SessionNumber,
        settles_gets: bool,
    ) -> Session<'b, D, T, N, R>
        ensures { (result.number ≡ number.now) × (result.settles_gets ≡ settles_gets) }
    {
        let writer = WriterLink {
            rt: self.rt,
            alloc: self.alloc,
            inbox: self.inbox,
            log: self.log,
            slot,
        };
        Session::new(self.desk, writer, number, settles_gets)
    }

    /// A view of the store.
    pub fn view(&self) -> DeskView<'_, D, T, N, R> {
        DeskView {
            rt: self.rt,
            desk: self.desk,
        }
    }

    // Replies to a connection, with events asked this way.
    fn answer<A: Asking>(&self, newcomer: &Newcomer, asking: A)
        requires { A.can_ask asking }
    {
        let connection = Connection {
            rt: self.rt,
            alloc: self.alloc,
            board: self.board,
            limits: self.limits,
            value_len: self.value_len,
            number: newcomer.number.get(),
            stream: &newcomer.stream,
        };
        connection.answer(asking);
    }

    // Runs the session in the slot of this number, and then frees the slot.
    fn serve_slot(&self, slot: usize) {
        let Some(slot) = self.slots.get(slot) else {
            return;
        };
        let newcomer = slot.lock(self.rt).connection();
        if let Some(newcomer) = newcomer {
            let session = self.session(slot, &newcomer.number, self.limits.protocol.settles_gets());
            let one = |event: Event, told: &Told<T>| -> (Result<Reply<()>, Unanswered>, Told<T>)
                ensures told { OnOk result.0 (AsksBehind told.now result.1) }
                ensures reply { IfOk result.0 (IsAnswer D.Disk T.Trace result.1 session.entry.settles_gets event) }
                ensures order { IfOk result.0 (λ reply. AreInOrder result.1 (event ∷ []) (reply ∷ [])) }
            {
                let mut now = told.again();
                let given = session.answer(event, &mut now);
                (given, now)
            };
            let all = |events: Vec<Event>, told: &Told<T>| -> (
                Result<Vec<Reply<()>>, Unanswered>,
                Told<T>,
            )
                ensures told { OnOk result.0 (AsksBehind told.now result.1) }
                ensures replies { IfOk result.0 (λ replies. AllZip (IsAnswer D.Disk T.Trace result.1 session.entry.settles_gets) events.items replies.items) }
                ensures order { IfOk result.0 (λ replies. AreInOrder result.1 events.items replies.items) }
            {
                let mut now = told.again();
                let given = session.answer_all(events, &mut now);
                (given, now)
            };
            let facts = || -> Facts
                ensures { (core : CoreState D) × (result ≡ facts_of core) }
            { session.facts() };
            let asking = AskBy {
                one: &one,
                all: &all,
                facts: &facts,
                told: session.told(),
            };
            self.answer(&newcomer, asking);
        }
        slot.lock(self.rt).leave();
    }
}

impl<
    D: Viewed,
    T: Trace + Send + Sync,
    N: DeskId + InboxId + LogId + Send + Sync,
    G: Gate + Sync,
    R: Threads + Wait + Clock + Sync,
> Serving<'_, Shared<D, T, N>, Job<D, T, N>, N, G, R> {
    // Serves the connections of a listener, and then closes the inbox.
    fn serve_sessions<L: Listens + Sync>(&self, listener: &L) -> io::Result<()> {
        let door = Door {
            alloc: self.alloc,
            board: self.board,
            limits: self.limits,
            slots: self.slots,
        };
        let accepted = accept_clients(
            self.rt,
            listener,
            &door,
            self,
            &|serving: &Serving<'_, Shared<D, T, N>, Job<D, T, N>, N, G, R>, slot: usize| {
                serving.serve_slot(slot)
            },
        );
        self.inbox.close(self.rt);
        match accepted {
            Ok(_) => Ok(()),
            Err(error) => Err(error),
        }
    }

    /// Runs the workers, the writer, the replier and the care beside the sessions of a listener's connections, until these have
    /// ended and all their requests are done. None if a worker, the writer or the care has no thread.
    pub fn run<L: Listens + Sync, C: Cares>(
        &self,
        listener: &L,
        care: &C,
        workers: Workers<D, T, N>,
        taker: Taker<N>,
    ) -> Option<Served<N>> {
        care_beside(
            self.rt,
            self.board,
            self,
            &|serving: &Serving<'_, Shared<D, T, N>, Job<D, T, N>, N, G, R>| {
                care.care(&[serving.view()])
            },
            |serving: &Serving<'_, Shared<D, T, N>, Job<D, T, N>, N, G, R>| -> Option<Served<N>> {
                serving.run_crew(listener, workers, taker)
            },
        )
    }

    // Runs the workers, the writer and the replier beside the sessions.
    fn run_crew<L: Listens + Sync>(
        &self,
        listener: &L,
        workers: Workers<D, T, N>,
        taker: Taker<N>,
    ) -> Option<Served<N>> {
        gather_served(run_beside(
            self.rt,
            self,
            parts_of(workers, taker),
            &|serving: &Serving<'_, Shared<D, T, N>, Job<D, T, N>, N, G, R>, part: Part<
                D,
                T,
                N,
            >| -> Seat<N> { serving.work(part) },
            &|serving: &Serving<'_, Shared<D, T, N>, Job<D, T, N>, N, G, R>| -> io::Result<()> {
                serving.serve_sessions(listener)
            },
        ))
    }

    /// Runs the workers, the writer and the replier of one shard, until its inbox is closed and all its requests are done. Says when
    /// they run, or that one of them has no thread.
    pub fn run_shard(&self, workers: Workers<D, T, N>, taker: Taker<N>, runs: &Sender<bool>) {
        let back = run_beside(
            self.rt,
            self,
            parts_of(workers, taker),
            &|serving: &Serving<'_, Shared<D, T, N>, Job<D, T, N>, N, G, R>, part: Part<
                D,
                T,
                N,
            >| -> Seat<N> { serving.work(part) },
            &|serving: &Serving<'_, Shared<D, T, N>, Job<D, T, N>, N, G, R>| -> io::Result<()> {
                let _ = runs.send(serving.rt, true);
                Ok(())
            },
        );
        if back.is_none() {
            let _ = runs.send(self.rt, false);
        }
    }
}
