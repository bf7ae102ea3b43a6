// The replies to the events of a session.
ghost use Rattle.std.specs.Prelude.{◌≡◌, ◌≤◌, ℕ, ◌+◌, ◌++◌, ◌∷◌, [], List, IfOk, OnOk, vec_len};
ghost use Rattle.std.specs.List.{AllZip};
ghost use Rattle.silt_event.specs.declared.event.Event.{Event as EventOf};
ghost use Rattle.silt_event.specs.declared.event.Event.TheVariants as event_case;
ghost use Rattle.silt_session.specs.Handing.{AreAsked};
ghost use Rattle.silt_session.specs.Pipelines.{AnswersSoFar, HasRoom, IsFree, IsSettled, IsShown, Looks, MaySettle, SettlesShown, awaited, shown_of};
ghost use Rattle.silt_session.specs.Requests.{IsNoRequest, asked_event, requests_of};
ghost use Rattle.silt_session.specs.Sessions.{IsAnswer, IsToldTo};
ghost use Rattle.silt_session.specs.Tolds.{AreInOrder, AsksBehind, IsToldMore, TellsAll, ToldState};
ghost use Rattle.silt_store_set.specs.CoreState.{CoreState};
ghost use Rattle.silt_store_set.specs.Facts.{facts_of};

use crate::asked::AskedEvents;
use crate::job::Request;
use crate::job_log::LogId;
use crate::pipeline::{Pipeline, reply_alone};
use crate::place::Shown;
use crate::session::Session;
use crate::task::Task;
use crate::told::Told;
use crate::unanswered::Unanswered;
use silt_desk::{Desk, DeskId, Look, Trace};
use silt_disk::Disk;
use silt_event::{Event, Facts, Refusal, Reply};
use silt_frame::{Key, Value};
use silt_inbox::InboxId;
use std::alloc::{AllocError, Global};
use std::sync::Wait;

// How many commands a flush has to acknowledge before a look is shown, if it waits for one.
fn awaited(look: Look, settles: bool) -> Option<u64>
    ensures { result ≡ awaited settles look }
{
    if settles && !look.is_settled {
        Some(look.count)
    } else {
        None
    }
}

// What is shown of a look that found a value in the buffer, or none.
fn shown(look: Look, out: Vec<u8>, settles: bool) -> Shown
    ensures { result ≡ shown_of settles out.items look }
{
    let reply = if look.found {
        Reply::Found(Value::new(out))
    } else {
        Reply::Absent
    };
    Shown {
        reply,
        until: awaited(look, settles),
    }
}

// What a look at the desk finds. If gets settle what they show, and a command that waits changes the key, it waits for a
// flush.
fn look_up<D: Disk, T: Trace, N: DeskId>(
    desk: &Desk<D, T, N>,
    key: &Key,
    mut out: Vec<u8>,
    settles: bool,
) -> Shown
    requires { vec_len out ≡ desk.now.core.shape.value_len }
    ensures { Looks D.Disk settles key.now result }
{
    match desk.look(key, out.as_mut_slice()) {
        Ok(look) => shown(look, out, settles),
        Err(refusal) => Shown::now(Reply::Refused(refusal.plain())),
    }
}

// Looks a key up at the desk. If out of memory for the value's buffer, nothing is looked up.
fn find<D: Disk, T: Trace, N: DeskId>(
    desk: &Desk<D, T, N>,
    alloc: Global,
    key: &Key,
    settles: bool,
) -> Shown
    ensures { IsShown D.Disk settles (event_case.Get key.now) result }
{
    match vec![in alloc; 0u8; desk.geometry().value_len() as usize] {
        Ok(out) => look_up(desk, key, out, settles),
        Err(_) => Shown::now(Reply::Refused(Refusal::NoMemory)),
    }
}

// The task of one request of a session.
fn alone<D: Disk, T: Trace>(
    alloc: Global,
    session: u64,
    request: Request,
) -> Result<Vec<Task<D, T>>, AllocError>
    ensures { IfOk result (λ tasks. requests_of tasks.items ≡ request ∷ []) }
{
    Ok(vec![in alloc; Task::new(session, request)]?)
}

impl<D: Disk, T: Trace, N: DeskId + InboxId + LogId, R: Wait> Session<'_, D, T, N, R> {
    /// What the session is told when it begins: all calls that the desk's trace logs now. Nothing is told only if it logs none.
    pub fn told(&self) -> Told<T>
        ensures all { (trace : T) × TellsAll T.Trace trace result }
        ensures session { result.session ≡ self.now.number }
    {
        Told::of(self.desk.read(self.rt).trace(), self.number)
    }

    /// The facts of the desk's store at this moment.
    pub fn facts(&self) -> Facts
        ensures { (core : CoreState D) × (result ≡ facts_of core) }
    {
        self.desk.read(self.rt).facts()
    }

    // Has one request done, and returns its reply.
    fn request(&self, request: Request, told: &mut Told<T>) -> Result<Reply<()>, Unanswered>
        requires { told.old.from ≤ told.old.next }
        ensures told { IsToldMore told.old told.new }
        ensures reply { IfOk result (IsToldTo D.Disk T.Trace told.new request) }
        ensures order { IfOk result (λ reply. AreInOrder told.new (asked_event request ∷ []) (reply ∷ [])) }
    {
        let Ok(tasks) = alone(self.alloc, told.session(), request) else {
            return Err(Unanswered::NoMemory);
        };
        match self.writer.commit(tasks) {
            Ok(tasks) => reply_alone(tasks, told).ok_or(Unanswered::Lost),
            Err(lack) => Err(lack),
        }
    }

    // The reply to an event that is not for the writer, after a flush if it waits for one.
    fn give(&self, shown: Shown, told: &mut Told<T>) -> Result<Reply<()>, Unanswered>
        requires { told.old.from ≤ told.old.next }
        ensures told { IsToldMore told.old told.new }
        ensures reply { IfOk result (SettlesShown D.Disk T.Trace told.new shown) }
    {
        let flushed = match shown.until {
            Some(_) => Some(self.request(Request::Flush, told)?),
            None => None,
        };
        shown.given(&flushed).ok_or(Unanswered::Lost)
    }

    // Waits until no request waits that may change the key of this event.
    fn settle_for(&self, pipeline: &mut Pipeline<D, T>, event: &Event) -> Result<(), Unanswered>
        requires { HasRoom pipeline.old 0 }
        ensures free { OnOk result (IsFree pipeline.new.marks event.now) }
        ensures settled { OnOk result (MaySettle D.Disk T.Trace pipeline.old pipeline.new) }
    {
        if pipeline.may_change(event) {
            pipeline.settle(self)
        } else {
            Ok(())
        }
    }

    // The reply to an event that is not for the writer: a get is looked up, and a step is not served.
    fn answer_here(&self, event: &Event) -> Shown
        requires { IsNoRequest event.now }
        ensures { IsShown D.Disk self.now.settles_gets event.now result }
    {
        match event {
            Event::Get(key) => find(
                &*self.desk.read(self.rt),
                self.alloc,
                key,
                self.settles_gets,
            ),
            _ => Shown::now(Reply::NotServed),
        }
    }

    /// The reply to an event. A get is looked up, a put, a delete, a swap and a flush are a job of the writer, and steps are
    /// not served. If gets settle what they show, one that a crash may undo waits for a flush. The calls that the reply speaks of
    /// stand behind all that was told before.
    ///
    /// # Errors
    ///
    /// No reply comes, or one that does not fit the event; or out of memory for the job.
    pub fn answer(&self, event: Event, told: &mut Told<T>) -> Result<Reply<()>, Unanswered>
        ensures told { AsksBehind told.old told.new }
        ensures reply { IfOk result (IsAnswer D.Disk T.Trace told.new self.now.settles_gets event) }
        ensures order { IfOk result (λ reply. AreInOrder told.new (event ∷ []) (reply ∷ [])) }
    {
        *told = told.asked();
        match Request::of(event) {
            Ok(request) => self.request(request, told),
            Err(event) => self.give(self.answer_here(&event), told),
        }
    }

    // Gives an event that is not for the writer its place, once no request waits that may change its key.
    fn take_here(&self, pipeline: &mut Pipeline<D, T>, event: &Event) -> Result<(), Unanswered>
        requires event { IsNoRequest event.now }
        requires room { HasRoom pipeline.old 1 }
        ensures answers { OnOk result ((events : List EventOf) → AnswersSoFar D.Disk self.now.settles_gets T.Trace events pipeline.old
            → AnswersSoFar D.Disk self.now.settles_gets T.Trace (events ++ event.now ∷ []) pipeline.new) }
        ensures room { OnOk result ((n : ℕ) → HasRoom pipeline.old (n + 1) → HasRoom pipeline.new n) }
        ensures told { OnOk result (IsToldMore pipeline.old.told pipeline.new.told) }
    {
        self.settle_for(pipeline, event)?;
        pipeline.push(self.answer_here(event));
        Ok(())
    }

    // Takes one more event. A request waits for the writer.
    fn take(&self, pipeline: &mut Pipeline<D, T>, event: Event) -> Result<(), Unanswered>
        requires { HasRoom pipeline.old 1 }
        ensures answers { OnOk result ((events : List EventOf) → AnswersSoFar D.Disk self.now.settles_gets T.Trace events pipeline.old
            → AnswersSoFar D.Disk self.now.settles_gets T.Trace (events ++ event ∷ []) pipeline.new) }
        ensures room { OnOk result ((n : ℕ) → HasRoom pipeline.old (n + 1) → HasRoom pipeline.new n) }
        ensures told { OnOk result (IsToldMore pipeline.old.told pipeline.new.told) }
    {
        match Request::of(event) {
            Ok(request) => {
                pipeline.gather(request);
                Ok(())
            }
            Err(event) => self.take_here(pipeline, &event),
        }
    }

    // Takes all events. The last requests wait.
    fn take_all(&self, pipeline: &mut Pipeline<D, T>, events: Vec<Event>) -> Result<(), Unanswered>
        requires settled { IsSettled pipeline.old }
        requires none { pipeline.old.replies.items ≡ [] }
        requires order { pipeline.old.told.from ≤ pipeline.old.told.next }
        requires room { HasRoom pipeline.old (vec_len events) }
        ensures answers { OnOk result (AnswersSoFar D.Disk self.now.settles_gets T.Trace events.items pipeline.new) }
        ensures room { OnOk result (HasRoom pipeline.new 0) }
        ensures told { OnOk result (IsToldMore pipeline.old.told pipeline.new.told) }
    {
        for event in events {
            self.take(pipeline, event)?;
        }
        Ok(())
    }

    /// Asks for the replies to events. Puts, deletes, swaps and flushes are gathered into one job of the writer, which is handed over. A
    /// get is looked up at once, but if one of these may change its key, only when they are done. Steps are not served. If gets
    /// settle what they show, those that a crash may undo wait for a flush, one for all of them. The calls that the replies speak of
    /// stand behind all that was told before.
    ///
    /// # Errors
    ///
    /// No reply comes, or one that does not fit its event; or out of memory for the replies.
    pub fn begin(
        &self,
        events: Vec<Event>,
        told: &Told<T>,
    ) -> Result<AskedEvents<D, T, N>, Unanswered>
        ensures { IfOk result (AreAsked D.Disk self.now.settles_gets T.Trace told.now events.items) }
    {
        let Ok(mut pipeline) = Pipeline::new(self.alloc, events.len(), told.asked()) else {
            return Err(Unanswered::NoMemory);
        };
        self.take_all(&mut pipeline, events)?;
        let handed = pipeline.hand_over(self);
        Ok(AskedEvents { pipeline, handed })
    }

    /// Waits for the replies to events that were asked for, in order. Returns them, and what the session is told then.
    ///
    /// # Errors
    ///
    /// No reply comes, or one that does not fit its event.
    pub fn finish(
        &self,
        asked: AskedEvents<D, T, N>,
    ) -> Result<(Vec<Reply<()>>, Told<T>), Unanswered>
        ensures { (told : ToldState) (events : List EventOf) → AreAsked D.Disk self.now.settles_gets T.Trace told events asked
            → IfOk result (λ given. AsksBehind told given.1 × AllZip (IsAnswer D.Disk T.Trace given.1 self.now.settles_gets) events given.0.items × AreInOrder given.1 events given.0.items) }
    {
        let AskedEvents {
            mut pipeline,
            handed,
        } = asked;
        pipeline.settle_by(self.rt, self.alloc, handed)?;
        Ok((pipeline.replies, pipeline.told))
    }

    /// The replies to events, in order: asks for them, as [`Session::begin`] does, and waits for them.
    ///
    /// # Errors
    ///
    /// No reply comes, or one that does not fit its event; or out of memory for the replies.
    pub fn answer_all(
        &self,
        events: Vec<Event>,
        told: &mut Told<T>,
    ) -> Result<Vec<Reply<()>>, Unanswered>
        ensures told { OnOk result (AsksBehind told.old told.new) }
        ensures replies { IfOk result (λ replies. AllZip (IsAnswer D.Disk T.Trace told.new self.now.settles_gets) events.items replies.items) }
        ensures order { IfOk result (λ replies. AreInOrder told.new events.items replies.items) }
    {
        let asked = self.begin(events, told)?;
        let (replies, now_told) = self.finish(asked)?;
        *told = now_told;
        Ok(replies)
    }
}
