// A request in progress, and its reply.
ghost use Rattle.std.specs.Prelude.{◌≡◌, None, IfNone, IfSome, true};
ghost use Rattle.silt_desk.specs.CallLogs.{PlacesFlush};
ghost use Rattle.silt_session.specs.Batches.{RepliesTo};
ghost use Rattle.silt_session.specs.Origins.{HasDone, WasFlushed};
ghost use Rattle.silt_session.specs.Requests.{IsNew, acknowledged, asked_event, changed, reply_due};
ghost use Rattle.silt_session.specs.Sessions.{IsReplyOf};
ghost use Rattle.silt_session.specs.Tolds.{CallsAt, IsInLog, IsToldBetween, PassesOn, TellsAt, ToldOf};

use crate::job::Request;
use crate::told::Told;
use silt_desk::{CallPlace, Trace};
use silt_disk::Disk;
use silt_event::{Refusal, Reply};
use std::marker::{Model, PhantomData};

/// The result of a command at the desk: the number of an accepted one, or `None` if a swap's old value differs.
pub(crate) type Answer = Result<Option<u64>, Refusal<()>>;

/// A reply, and where the call and the flush stand that it comes from, if they were recorded.
#[derive(Drop)]
struct Placed {
    reply: Reply<()>,
    call: Option<CallPlace>,
    flush: Option<CallPlace>,
}

/// A request of a session in progress: its result at the desk, and its reply. Its type says where they come from: a desk of a store on
/// such a disk, with such a trace, did this request with this result, and the reply is due by that and a flush of the desk.
/// If the trace has a log, the task knows where the call, which was made for the session, and the flush stand in it.
#[derive(Drop)]
pub struct Task<D: Disk, T: Trace> {
    session: u64,
    request: Request,
    answer: Option<Answer>,
    call: Option<CallPlace>,
    reply: Option<Placed>,
    of: PhantomData<(D, T)>,
}

impl<D: Disk, T: Trace> Model for Task<D, T> {
    ghost use Rattle.std.specs.Prelude.{IfSome};
    ghost use Rattle.std.specs.Option.{option_map};
    ghost use Rattle.silt_session.specs.Origins.{HasDone, HasOrigin};
    ghost use Rattle.silt_session.specs.Requests.{TaskState, asked_event};
    ghost use Rattle.silt_session.specs.Tolds.{CallsAt, IsInLog, TellsAt};

    ghost Value = { TaskState };

    ghost view = { λ t. record { session = t.session; request = t.request; answer = t.answer; reply = option_map (λ placed. placed.reply) t.reply } };

    ghost invariant = { λ t. HasDone D.Disk T.Trace t.request t.answer × HasOrigin D.Disk T.Trace t.request (option_map (λ placed. placed.reply) t.reply)
        × CallsAt T.log t.session t.request t.answer t.call
        × IfSome t.reply (λ placed. TellsAt T.log t.session (asked_event t.request) placed.reply placed.call placed.flush × IsInLog T.log placed.call × IsInLog T.log placed.flush) };
}

impl<D: Disk, T: Trace> Task<D, T> {
    /// A request of the session of this number, for which nothing is done yet.
    pub fn new(session: u64, request: Request) -> Task<D, T>
        ensures new { IsNew request result }
        ensures session { result.session ≡ session }
    {
        Task {
            session,
            request,
            answer: None,
            call: None,
            reply: None,
            of: PhantomData,
        }
    }

    /// The number of the session that asks.
    pub(crate) fn session(&self) -> u64
        ensures { result ≡ self.now.session }
    {
        self.session
    }

    /// The request.
    pub(crate) fn request(&self) -> &Request
        ensures { result.now ≡ self.now.request }
    {
        &self.request
    }

    /// The request is done with this result, at this place of the trace's log, or no result is to be had.
    pub(crate) fn finish(&mut self, answer: Option<Answer>, call: Option<CallPlace>)
        requires done { HasDone D.Disk T.Trace self.old.request answer }
        requires call { CallsAt T.log self.old.session self.old.request answer call }
        ensures { self.new ≡ record self.old { answer = answer } }
    {
        self.answer = answer;
        self.call = call;
    }

    /// Gives the task its reply, by its own result and that of the flush at this place of the trace's log.
    pub(crate) fn reply(&mut self, flushed: &Result<u64, Refusal<()>>, flush: &Option<CallPlace>)
        requires flushed { WasFlushed D.Disk T.Trace flushed.now }
        requires flush { PlacesFlush T.log (acknowledged flushed.now) flush.now }
        ensures { RepliesTo flushed.now self.old self.new }
    {
        self.reply = match reply_after(&self.request, &self.answer, flushed) {
            Some(reply) => Some(Placed {
                reply,
                call: again(&self.call),
                flush: again(flush),
            }),
            None => None,
        };
    }

    /// Where the last call stands that its reply comes from: the flush, or its own call if no flush was recorded.
    pub(crate) fn last_place(&self) -> Option<CallPlace>
        ensures { IsInLog T.log result }
    {
        match &self.reply {
            Some(placed) if placed.flush.is_some() => again(&placed.flush),
            Some(placed) => again(&placed.call),
            None => None,
        }
    }

    /// The reply, if there is one, and if the calls that it speaks of are among those that were told, that of a command for the session that
    /// is told. A command takes the place of its call, which is none before that for the next command.
    pub fn tell(self, told: &mut Told<T>) -> Option<Reply<()>>
        ensures told { PassesOn told.old told.new }
        ensures reply { IfSome result (IsReplyOf D.Disk T.Trace told.old self) }
        ensures place { IfSome result (λ reply. IsToldBetween told.old told.old.next (asked_event self.request) reply told.new.next) }
        ensures none { told.old.calls ≡ None → IfNone result (self.reply ≡ None) }
    {
        let Placed { reply, call, flush } = self.reply?;
        stands(told, self.session, &self.request, &reply, &call, &flush).then_some(reply)
    }
}

// A copy of a place.
fn again(place: &Option<CallPlace>) -> Option<CallPlace>
    ensures { result ≡ place.now }
{
    match place {
        Some(place) => Some(place.again()),
        None => None,
    }
}

// Whether the calls that a reply to this session speaks of are among those that were told to it. A command takes the place of its call.
fn stands<T: Trace>(
    told: &mut Told<T>,
    session: u64,
    request: &Request,
    reply: &Reply<()>,
    call: &Option<CallPlace>,
    flush: &Option<CallPlace>,
) -> bool
    requires tells { TellsAt T.log session (asked_event request.now) reply.now call.now flush.now }
    requires named { IsInLog T.log call.now × IsInLog T.log flush.now }
    ensures passes { PassesOn told.old told.new }
    ensures told { result ≡ true → ToldOf told.old (asked_event request.now) reply.now }
    ensures place { result ≡ true → IsToldBetween told.old told.old.next (asked_event request.now) reply.now told.new.next }
    ensures all { told.old.calls ≡ None → result ≡ true }
{
    match (reply, request) {
        (Reply::Accepted(_), _) => told.takes_before(session, call, flush),
        (Reply::Unsettled(_) | Reply::Differs, _) => told.takes(session, call),
        (Reply::Acknowledged(_), _) => told.has(flush),
        (Reply::Refused(Refusal::NoMemory | Refusal::HistoryFull), _) => true,
        (Reply::Refused(_), Request::Flush) => told.has(flush),
        (Reply::Refused(_), _) => told.takes(session, call),
        (_, _) => true,
    }
}

// The reply to a request with this result at the desk, after a flush of its batch with that result.
fn reply_after(
    request: &Request,
    answer: &Option<Answer>,
    flushed: &Result<u64, Refusal<()>>,
) -> Option<Reply<()>>
    ensures { result ≡ reply_due request.now answer.now flushed.now }
{
    match request {
        Request::Flush => Some(acknowledged(flushed)),
        Request::Swap(_, _, _) => Some(changed(answer.as_ref()?, flushed)),
        Request::Put(_, _) | Request::Delete(_) => match answer {
            None | Some(Ok(None)) => None,
            Some(answer) => Some(changed(answer, flushed)),
        },
    }
}

// The reply to a command, by its result and that of the flush after it. A flush that acknowledges fewer commands does not
// settle it.
fn changed(answer: &Answer, flushed: &Result<u64, Refusal<()>>) -> Reply<()>
    ensures { result ≡ changed answer.now flushed.now }
{
    match (answer, flushed) {
        (Ok(Some(count)), Ok(settled)) if *count <= *settled => Reply::Accepted(*count),
        (Ok(Some(count)), _) => Reply::Unsettled(*count),
        (Ok(None), _) => Reply::Differs,
        (Err(refusal), _) => Reply::Refused(*refusal),
    }
}

// The reply to a flush with this result.
fn acknowledged(flushed: &Result<u64, Refusal<()>>) -> Reply<()>
    ensures { result ≡ acknowledged flushed.now }
{
    match flushed {
        Ok(count) => Reply::Acknowledged(*count),
        Err(refusal) => Reply::Refused(*refusal),
    }
}
