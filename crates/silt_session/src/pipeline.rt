// The events that a session asks at once, on their way to replies.
ghost use Rattle.std.specs.Prelude.{◌≡◌, ◌≤◌, ◌<◌, ◌+◌, ◌++◌, ◌∷◌, ◌||◌, ◌↔◌, [], List, false, is_some, map, true, IfOk, IfSome, OnOk, vec_capacity, vec_len};
ghost use Rattle.std.specs.VecDeque.{deque_capacity, deque_len};
ghost use Rattle.silt_event.specs.Events.{PlainReply};
ghost use Rattle.silt_session.specs.Handing.{AwaitsRequests, Hands, HasHanded, IsHanded};
ghost use Rattle.silt_session.specs.Pipelines.{AddsFlush, Fills, FillsAll, GathersTask, IsFree, IsSettled, MarksToo, MovesPlaces, NothingWaits};
ghost use Rattle.silt_session.specs.Pipelines.{SettlesAll, TakesLast, reply_without_tasks};
ghost use Rattle.silt_session.specs.Requests.{TaskState, asked_event, changed_key, requests_of};
ghost use Rattle.silt_session.specs.Sessions.{IsReplyOf};
ghost use Rattle.silt_session.specs.Tolds.{AreInOrder, IsToldMore};
ghost use Rattle.silt_session.specs.declared.job.Request.{Request as RequestOf};
ghost use Rattle.silt_session.specs.declared.pipeline.Pipeline.{Pipeline as PipelineOf};
ghost use Rattle.silt_session.specs.declared.place.Place.TheVariants as place;

use crate::job::{Awaited, Request};
use crate::job_log::LogId;
use crate::key_marks::KeyMarks;
use crate::place::{Place, Shown};
use crate::session::Session;
use crate::task::Task;
use crate::told::Told;
use crate::unanswered::Unanswered;
use silt_desk::{DeskId, Trace};
use silt_disk::Disk;
use silt_event::{Event, Reply};
use silt_inbox::InboxId;
use std::alloc::{AllocError, Global};
use std::collections::VecDeque;
use std::mem;
use std::sync::Wait;

/// The replies to the first events, and the places of those behind them, in order.
#[derive(Drop)]
pub struct Pipeline<D: Disk, T: Trace> {
    pub replies: Vec<Reply<()>>,
    pub places: VecDeque<Place>,
    /// The tasks of the requests that wait, in order, unless out of memory for one of them.
    pub tasks: Vec<Task<D, T>>,
    pub lacks_memory: bool,
    /// The keys that these requests may change.
    pub marks: KeyMarks,
    /// Whether a reply waits for a flush.
    pub needs_flush: bool,
    /// What was told of the calls at the desk. Those that the replies speak of are among them.
    pub told: Told<T>,
}

/// The tasks that were handed over, if there were any, and whether the last of them is that of a flush.
#[derive(Drop)]
pub struct Handed<D: Disk, T: Trace, N: LogId> {
    pub has_flush: bool,
    pub awaited: Option<Awaited<D, T, N>>,
}

impl<D: Disk, T: Trace, N: LogId> Handed<D, T, N> {
    // Waits until the tasks come back.
    fn wait<R: Wait>(self, rt: &R, alloc: Global) -> Result<Vec<Task<D, T>>, Unanswered>
        ensures { (requests : List RequestOf) → AwaitsRequests self.awaited requests → IfOk result (λ tasks. requests_of tasks.items ≡ requests) }
    {
        match self.awaited {
            Some(awaited) => awaited.wait(rt).ok_or(Unanswered::Lost),
            None => Ok(Vec::new(alloc)),
        }
    }
}

impl<D: Disk, T: Trace> Pipeline<D, T> {
    /// A pipeline for this many events, to a session that was told so much. All memory for their replies is reserved.
    pub fn new(alloc: Global, count: usize, told: Told<T>) -> Result<Pipeline<D, T>, AllocError>
        ensures settled { IfOk result IsSettled }
        ensures none { IfOk result (λ pipeline. pipeline.replies.items ≡ []) }
        ensures replies { IfOk result (λ pipeline. count ≤ vec_capacity pipeline.replies) }
        ensures places { IfOk result (λ pipeline. count ≤ deque_capacity pipeline.places) }
        ensures told { IfOk result (λ pipeline. pipeline.told ≡ told) }
    {
        Ok(Pipeline {
            replies: Vec::with_capacity(alloc, count)?,
            places: VecDeque::with_capacity(alloc, count)?,
            tasks: Vec::new(alloc),
            lacks_memory: false,
            marks: KeyMarks::new(),
            needs_flush: false,
            told,
        })
    }

    // Marks the key that a request may change.
    fn mark(&mut self, request: &Request)
        ensures marks { MarksToo self.old.marks (changed_key (asked_event request.now)) self.new.marks }
        ensures same { self.new ≡ record self.old { marks = self.new.marks } }
    {
        if let Some(key) = request.key() {
            self.marks.mark(key);
        }
    }

    /// Adds a request to those that wait. If out of memory for its task, none of them is done.
    pub fn gather(&mut self, request: Request)
        requires room { deque_len self.old.places < deque_capacity self.old.places }
        ensures places { self.new.places.items ≡ self.old.places.items ++ place.Waits ∷ [] }
        ensures tasks { self.new.lacks_memory ≡ false → GathersTask self.old self.new request }
        ensures marks { MarksToo self.old.marks (changed_key (asked_event request)) self.new.marks }
        ensures room { deque_capacity self.new.places ≡ deque_capacity self.old.places }
        ensures same { (self.new.replies ≡ self.old.replies) × (self.new.needs_flush ≡ self.old.needs_flush) × (self.new.told ≡ self.old.told) }
    {
        self.mark(&request);
        self.places.push_back_reserved(Place::Waits);
        let Ok(()) = self.tasks.push(Task::new(self.told.session(), request)) else {
            self.lacks_memory = true;
            return;
        };
    }

    /// Adds the reply to an event that is not for the writer.
    pub fn push(&mut self, shown: Shown)
        requires room { deque_len self.old.places < deque_capacity self.old.places }
        ensures places { self.new.places.items ≡ self.old.places.items ++ place.Shows shown ∷ [] }
        ensures flush { self.new.needs_flush ≡ (self.old.needs_flush || is_some shown.until) }
        ensures room { deque_capacity self.new.places ≡ deque_capacity self.old.places }
        ensures same { self.new ≡ record self.old { places = self.new.places; needs_flush = self.new.needs_flush } }
    {
        self.needs_flush = self.needs_flush || shown.until.is_some();
        self.places.push_back_reserved(Place::Shows(shown));
    }

    /// Whether an event is a get of a key that a request may change that waits. It may also be true of another key with the same
    /// mark.
    pub fn may_change(&self, event: &Event) -> bool
        ensures { result ≡ false ↔ IsFree self.now.marks event.now }
    {
        match event {
            Event::Get(key) => self.marks.has(key),
            _ => false,
        }
    }

    /// Has the requests that wait done together, and a flush behind them if a reply waits for one, and waits until they come
    /// back. Then each event has its reply. If out of memory, none of them is done.
    ///
    /// # Errors
    ///
    /// No reply comes, or one that does not fit.
    pub fn settle<N: DeskId + InboxId + LogId, R: Wait>(
        &mut self,
        session: &Session<'_, D, T, N, R>,
    ) -> Result<(), Unanswered>
        requires room { vec_len self.old.replies + deque_len self.old.places ≤ vec_capacity self.old.replies }
        ensures { OnOk result (SettlesAll D.Disk T.Trace self.old self.new) }
    {
        let handed = self.hand_over(session);
        self.settle_by(session.rt, session.alloc, handed)
    }

    /// Waits until the tasks that were handed over come back. Then each event has its reply. If out of memory for the tasks, none of
    /// them is done.
    ///
    /// # Errors
    ///
    /// No reply comes, or one that does not fit.
    pub(crate) fn settle_by<N: LogId, R: Wait>(
        &mut self,
        rt: &R,
        alloc: Global,
        handed: Result<Handed<D, T, N>, Unanswered>,
    ) -> Result<(), Unanswered>
        requires room { vec_len self.old.replies + deque_len self.old.places ≤ vec_capacity self.old.replies }
        ensures { (before : PipelineOf D T D.Fault) → HasHanded before self.old handed → OnOk result (SettlesAll D.Disk T.Trace before self.new) }
    {
        match handed {
            Ok(handed) => self.fill_by(rt, alloc, handed),
            Err(Unanswered::NoMemory) => {
                self.fill_without_tasks();
                Ok(())
            }
            Err(Unanswered::Lost) => Err(Unanswered::Lost),
        }
    }

    // Is told of all calls up to those that the tasks' replies come from.
    fn learn(&mut self, tasks: &Vec<Task<D, T>>)
        ensures told { IsToldMore self.old.told self.new.told }
        ensures next { self.new.told.next ≡ self.old.told.next }
        ensures same { self.new ≡ record self.old { told = self.new.told } }
    {
        for task in tasks {
            self.told.learn(&task.last_place());
        }
    }

    // Waits until the tasks come back, and moves each place to the replies.
    fn fill_by<N: LogId, R: Wait>(
        &mut self,
        rt: &R,
        alloc: Global,
        handed: Handed<D, T, N>,
    ) -> Result<(), Unanswered>
        requires { vec_len self.old.replies + deque_len self.old.places ≤ vec_capacity self.old.replies }
        ensures { (before : PipelineOf D T D.Fault) → IsHanded before self.old → Hands before handed → OnOk result (SettlesAll D.Disk T.Trace before self.new) }
    {
        let has_flush = handed.has_flush;
        match handed.wait(rt, alloc) {
            Ok(tasks) => {
                self.learn(&tasks);
                self.fill(tasks, has_flush)
            }
            Err(lack) => Err(lack),
        }
    }

    // Takes the tasks that wait, with that of a flush behind them if a reply waits for one. None if out of memory for one
    // of them.
    fn take_tasks(&mut self, alloc: Global) -> Option<Vec<Task<D, T>>>
        ensures tasks { IfSome result (λ tasks. (self.old.lacks_memory ≡ false) × AddsFlush self.old.needs_flush self.old.tasks.items tasks.items) }
        ensures none { NothingWaits self.new }
        ensures same { (self.new.replies ≡ self.old.replies) × (self.new.places ≡ self.old.places) × (self.new.told ≡ self.old.told) }
    {
        let tasks = mem::replace(&mut self.tasks, Vec::new(alloc));
        let lacks_memory = mem::replace(&mut self.lacks_memory, false);
        let needs_flush = mem::replace(&mut self.needs_flush, false);
        self.marks.clear();
        match (lacks_memory, needs_flush) {
            (true, _) => None,
            (false, true) => with_flush(self.told.session(), tasks),
            (false, false) => Some(tasks),
        }
    }

    /// Hands the tasks that wait over, with that of a flush behind them if a reply waits for one, and does not wait until they come
    /// back.
    ///
    /// # Errors
    ///
    /// The inbox is closed, or out of memory for the tasks.
    pub(crate) fn hand_over<N: DeskId + InboxId + LogId, R: Wait>(
        &mut self,
        session: &Session<'_, D, T, N, R>,
    ) -> Result<Handed<D, T, N>, Unanswered>
        ensures asked { IfOk result (Hands self.old) }
        ensures none { NothingWaits self.new }
        ensures same { (self.new.replies ≡ self.old.replies) × (self.new.places ≡ self.old.places) × (self.new.told ≡ self.old.told) }
    {
        let has_flush = self.needs_flush;
        let Some(tasks) = self.take_tasks(session.alloc) else {
            return Err(Unanswered::NoMemory);
        };
        if tasks.is_empty() {
            return Ok(Handed {
                has_flush,
                awaited: None,
            });
        }
        let awaited = session.writer.send(tasks)?;
        Ok(Handed {
            has_flush,
            awaited: Some(awaited),
        })
    }

    // Moves each place to the replies, by the tasks that came back. The last of them is a flush's if there is one.
    fn fill(&mut self, tasks: Vec<Task<D, T>>, has_flush: bool) -> Result<(), Unanswered>
        requires { vec_len self.old.replies + deque_len self.old.places ≤ vec_capacity self.old.replies }
        ensures replies { OnOk result ((given : List PlainReply) × (self.new.replies.items ≡ self.old.replies.items ++ given)
            × FillsAll D.Disk T.Trace self.old.told has_flush self.old.told.next tasks.items self.old.places.items given self.new.told.next) }
        ensures moved { OnOk result (MovesPlaces self.old self.new) }
    {
        let mut tasks = VecDeque::from(tasks);
        if !has_flush {
            return self.fill_places(tasks, &None);
        }
        let Some(flushed) = take_last(&mut tasks, &self.told) else {
            return Err(Unanswered::Lost);
        };
        self.fill_places(tasks, &Some(flushed))
    }

    // Moves each place to the replies, by the tasks and the reply to the flush behind them.
    fn fill_places(
        &mut self,
        tasks: VecDeque<Task<D, T>>,
        flushed: &Option<Reply<()>>,
    ) -> Result<(), Unanswered>
        requires { vec_len self.old.replies + deque_len self.old.places ≤ vec_capacity self.old.replies }
        ensures replies { OnOk result ((given : List PlainReply) × (self.new.replies.items ≡ self.old.replies.items ++ given)
            × Fills D.Disk T.Trace self.old.told flushed.now self.old.told.next tasks.items self.old.places.items given self.new.told.next []) }
        ensures moved { OnOk result (MovesPlaces self.old self.new) }
    {
        let mut tasks = tasks;
        while let Some(place) = self.places.pop_front() {
            let Some(reply) = place.given(&mut tasks, flushed, &mut self.told) else {
                return Err(Unanswered::Lost);
            };
            self.replies.push_reserved(reply);
        }
        if tasks.is_empty() {
            Ok(())
        } else {
            Err(Unanswered::Lost)
        }
    }

    // Moves each place to the replies, if out of memory for the tasks.
    fn fill_without_tasks(&mut self)
        requires { vec_len self.old.replies + deque_len self.old.places ≤ vec_capacity self.old.replies }
        ensures replies { self.new.replies.items ≡ self.old.replies.items ++ map reply_without_tasks self.old.places.items }
        ensures moved { MovesPlaces self.old self.new }
    {
        while let Some(place) = self.places.pop_front() {
            self.replies.push_reserved(place.without_tasks());
        }
    }
}

// Adds the task of a flush for a session. None if out of memory for it.
fn with_flush<D: Disk, T: Trace>(session: u64, tasks: Vec<Task<D, T>>) -> Option<Vec<Task<D, T>>>
    ensures { IfSome result (λ all. AddsFlush true tasks.items all.items) }
{
    let mut tasks = tasks;
    match tasks.push(Task::new(session, Request::Flush)) {
        Ok(()) => Some(tasks),
        Err(_) => None,
    }
}

// Takes the last task, that of a flush, and returns its reply. It takes no place of a command.
fn take_last<D: Disk, T: Trace>(
    tasks: &mut VecDeque<Task<D, T>>,
    told: &Told<T>,
) -> Option<Reply<()>>
    ensures { IfSome result (TakesLast D.Disk T.Trace told.now tasks.old.items tasks.new.items) }
{
    tasks.pop_back()?.tell(&mut told.again())
}

// The reply of a task that came back alone. The session is told of all calls up to those that it comes from.
pub(crate) fn reply_alone<D: Disk, T: Trace>(
    tasks: Vec<Task<D, T>>,
    told: &mut Told<T>,
) -> Option<Reply<()>>
    requires { told.old.from ≤ told.old.next }
    ensures told { IsToldMore told.old told.new }
    ensures reply { IfSome result (λ reply. (task : TaskState) × (tasks.items ≡ task ∷ []) × IsReplyOf D.Disk T.Trace told.new task reply) }
    ensures order { IfSome result (λ reply. (task : TaskState) × (tasks.items ≡ task ∷ []) × AreInOrder told.new (asked_event task.request ∷ []) (reply ∷ [])) }
{
    let mut tasks = tasks;
    if tasks.len() != 1 {
        return None;
    }
    let task = tasks.pop()?;
    told.learn(&task.last_place());
    task.tell(told)
}
