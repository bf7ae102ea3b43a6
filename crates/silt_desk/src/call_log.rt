// The log of the calls at a desk, in order: contracts see the calls. Only its length is kept in memory.
ghost use Rattle.std.specs.Prelude.{◌≡◌, ◌+◌, ◌<◌, ◌^◌, ◌⊎◌, ◌++◌, ◌∷◌, [], length, IfSome, List, MatchBool, slice_get, true};
ghost use Rattle.std.specs.Prelude.{Some};
ghost use mathlib.Core.List.{IsPrefix};
ghost use Rattle.silt_desk.specs.CallLogs.{log_word};
ghost use Rattle.silt_desk.specs.History.{call};
ghost use Rattle.silt_desk.specs.Notes.{noted_event, reply_of};
ghost use Rattle.silt_desk.specs.declared.call.RecordedCall.{RecordedCall as Recorded};

use crate::call::{Caller, Note, RecordedCall};
use logbook::{Gain, Offer, Plain, Play, Rule, Seen, Start, Word};
use std::marker::Model;

/// The most calls of a log.
const MOST_CALLS: u64 = 1 << 62;

/// What the log's word is: its length.
struct IsLength;

impl Rule<RecordedCall, u64> for IsLength {
    ghost use Rattle.std.specs.Prelude.{[]};
    ghost use base.Fml.{ftrue};
    ghost use Rattle.silt_desk.specs.CallLogs.{CountsLog};

    ghost holds = { λ cells log. CountsLog cells log };

    ghost first = { [] };

    ghost hinted = { λ n log. Unit {0} };

    ghost shows = { λ log. [] };

    ghost keeps = { λ names log. ftrue };

    ghost moves = { λ ask before after answer. Unit {0} };
}

/// A step gives nothing back.
struct GivesNothing;

impl Gain<RecordedCall, u64> for GivesNothing {
    ghost use base.Fml.{ftrue};

    ghost after = { λ names about answer. ftrue };
}

/// A step that appends a call.
struct Append;

impl Play<RecordedCall, u64> for Append {
    ghost use Rattle.silt_desk.specs.CallLogs.{AddsEntry};

    ghost then = { AddsEntry };
}

/// A call that is to be recorded, with the bytes of its value and, for a swap, of its new value.
#[derive(Drop)]
pub(crate) struct NotedCall<'a> {
    pub caller: Caller,
    pub note: Note,
    pub value: &'a [u8],
    pub second: &'a [u8],
}

impl Plain<NotedCall<'_>, RecordedCall, u64> for Append {
    ghost use Rattle.std.specs.Prelude.{None};
    ghost use Rattle.silt_desk.specs.History.{call};
    ghost use Rattle.silt_desk.specs.Notes.{noted_event, reply_of};

    ghost ask = { λ c. call c.caller (noted_event c.note c.value.now c.second.now) (reply_of c.note c.value.now) };

    ghost state = { λ c. None };
}

/// A beginning of a log of calls that was seen. Contracts see the number of its shard, which log it is, and the calls.
#[derive(Drop)]
pub struct CallView {
    shard: u64,
    count: u64,
    seen: Seen<RecordedCall, u64, IsLength>,
}

impl Model for CallView {
    ghost use Rattle.std.specs.Prelude.{◌≡◌, length};
    ghost use Rattle.silt_desk.specs.CallLogs.{CallsSeen};

    ghost Value = { CallsSeen };

    ghost view = { λ v. record { shard = v.shard; book = v.seen.book; calls = v.seen.log } };

    ghost invariant = { λ v. v.count ≡ length v.seen.log };
}

impl CallView {
    /// The number of the shard whose calls they are.
    pub fn shard(&self) -> u64
        ensures { result ≡ self.now.shard }
    {
        self.shard
    }

    /// How many calls it has.
    pub fn len(&self) -> u64
        ensures { result ≡ length self.now.calls }
    {
        self.count
    }

    /// A copy.
    pub fn again(&self) -> CallView
        ensures { result ≡ self.now }
    {
        CallView {
            shard: self.shard,
            count: self.count,
            seen: self.seen.again(),
        }
    }

    // Appends a call to the log of this word, if that has no more than was seen. Returns whether it did.
    fn append(&mut self, head: &Word<RecordedCall, u64, IsLength>, noted: &NotedCall<'_>) -> bool
        requires head { head.now ≡ log_word self.old.book }
        requires room { length self.old.calls < 2 ^ 62 }
        ensures calls { MatchBool result (self.new.calls ≡ self.old.calls ++ call noted.now.caller
            (noted_event noted.now.note noted.now.value.now noted.now.second.now) (reply_of noted.now.note noted.now.value.now) ∷ []) (Unit {0}) }
        ensures book { self.new.book ≡ self.old.book }
        ensures shard { self.new.shard ≡ self.old.shard }
    {
        let mut offer: Offer<RecordedCall, u64, IsLength, GivesNothing> = self
            .seen
            .plain::<GivesNothing, NotedCall<'_>, Append>(noted);
        let mut pen = self.seen.no_pen();
        let count = self.count;
        let found = head.compare_exchange::<Append, GivesNothing>(
            count,
            count + 1,
            &mut self.seen,
            &mut offer,
            &mut pen,
        );
        self.count = if found == count { count + 1 } else { found };
        found == count
    }

    /// The longer of two views of one log, which the other begins.
    pub fn longer(&self, other: &CallView) -> CallView
        requires { other.now.book ≡ self.now.book }
        ensures one { (result ≡ self.now) ⊎ (result ≡ other.now) }
        ensures this { IsPrefix self.now.calls result.calls }
        ensures that { IsPrefix other.now.calls result.calls }
    {
        let mut both = self.seen.again();
        both.learn(&other.seen);
        if self.count < other.count {
            other.again()
        } else {
            self.again()
        }
    }
}

/// A log of calls, with all that was seen of it. Contracts see that.
#[derive(Drop)]
pub struct CallLog {
    head: Word<RecordedCall, u64, IsLength>,
    view: CallView,
}

impl Model for CallLog {
    ghost use Rattle.std.specs.Prelude.{◌≡◌};
    ghost use Rattle.silt_desk.specs.CallLogs.{CallsSeen, log_word};

    ghost Value = { CallsSeen };

    ghost view = { λ l. l.view };

    ghost invariant = { λ l. l.head ≡ log_word l.view.book };
}

impl CallLog {
    /// A log of no calls, for the shard of this number. A single store has number 0.
    pub fn new(shard: u64) -> CallLog
        ensures calls { result.calls ≡ [] }
        ensures shard { result.shard ≡ shard }
    {
        let (seen, mut first, _second) = Seen::open(Start::alone(), 0, 0);
        CallLog {
            head: Word::tracked(0, &mut first),
            view: CallView {
                shard,
                count: 0,
                seen,
            },
        }
    }

    /// The number of its shard.
    pub(crate) fn shard(&self) -> u64
        ensures { result ≡ self.now.shard }
    {
        self.view.shard()
    }

    /// What was seen of it.
    pub(crate) fn view(&self) -> CallView
        ensures { result ≡ self.now }
    {
        self.view.again()
    }

    /// Appends a call if the log has no more than was seen, and has room. Returns whether it did.
    pub(crate) fn append(&mut self, noted: &NotedCall<'_>) -> bool
        ensures calls { MatchBool result (self.new.calls ≡ self.old.calls ++ call noted.now.caller
            (noted_event noted.now.note noted.now.value.now noted.now.second.now) (reply_of noted.now.note noted.now.value.now) ∷ []) (Unit {0}) }
        ensures book { self.new.book ≡ self.old.book }
        ensures shard { self.new.shard ≡ self.old.shard }
    {
        self.view.len() < MOST_CALLS && self.view.append(&self.head, noted)
    }
}

/// A place in a log of calls. Contracts see which log it is, and the call at this place.
#[derive(Drop)]
pub struct CallPlace {
    number: u64,
    view: CallView,
}

impl Model for CallPlace {
    ghost use Rattle.std.specs.Prelude.{◌≡◌, ◌<◌, length, slice_get};
    ghost use Rattle.silt_desk.specs.CallLogs.{PlaceState};

    ghost Value = { PlaceState };

    ghost view = { λ p. record { shard = p.view.shard; book = p.view.book; number = p.number; at = slice_get p.view.calls p.number } };

    ghost invariant = { λ p. p.number < length p.view.calls };
}

impl CallPlace {
    /// The place of the last call that was seen. None if there are no calls.
    pub fn last(view: CallView) -> Option<CallPlace>
        ensures { IfSome result (λ place. (place.book ≡ view.book) × (place.shard ≡ view.shard) × ((before : List Recorded) (c : Recorded) → view.calls ≡ before ++ c ∷ [] → place.at ≡ Some c)) }
    {
        if view.count == 0 {
            return None;
        }
        Some(CallPlace {
            number: view.count - 1,
            view,
        })
    }

    /// A copy.
    pub fn again(&self) -> CallPlace
        ensures { result ≡ self.now }
    {
        CallPlace {
            number: self.number,
            view: self.view.again(),
        }
    }

    /// The number of the shard whose call it is.
    pub fn shard(&self) -> u64
        ensures { result ≡ self.now.shard }
    {
        self.view.shard()
    }

    /// The number of the place.
    pub fn number(&self) -> u64
        ensures { result ≡ self.now.number }
    {
        self.number
    }

    /// The number of the place behind it.
    pub fn behind(&self) -> u64
        ensures { result ≡ self.now.number + 1 }
    {
        let _known = self.view.len(); // more than the number
        self.number + 1
    }

    /// The longer of a view and that with which the place was seen.
    pub fn seen_with(&self, view: &CallView) -> CallView
        requires { view.now.book ≡ self.now.book }
        ensures book { result.book ≡ view.now.book }
        ensures shard { view.now.shard ≡ self.now.shard → result.shard ≡ view.now.shard }
        ensures begins { IsPrefix view.now.calls result.calls }
    {
        self.view.longer(view)
    }

    /// Whether the place is within this view of the same log.
    pub fn is_in(&self, view: &CallView) -> bool
        requires { view.now.book ≡ self.now.book }
        ensures { result ≡ true → slice_get view.now.calls self.now.number ≡ self.now.at }
    {
        if self.number >= view.count {
            return false;
        }
        let _known = self.view.longer(view); // one of the two views is a beginning of the other
        true
    }
}
