// A call at a desk, with its result.
ghost use Rattle.std.specs.Prelude.{◌≡◌, ℕ, List};
ghost use Rattle.silt_store_set.specs.Replies.{get_reply};
ghost use Rattle.silt_event.specs.declared.reply.Reply.TheVariants as reply_case;
ghost use Rattle.silt_desk.specs.History.{accepted_by, is_recorded};
ghost use Rattle.silt_desk.specs.Notes.{given, noted_event, plain_answer, reply_of};

use silt_event::{Event, Progress, Refusal, Reply};
use silt_frame::{Key, Value};
use silt_store_set::{accepted, progressed, swapped};

/// Who makes a call: the number of its seat, and that of the session for which it is made, if it is made for one.
#[derive(Clone, Copy, Debug, PartialEq, Eq)]
pub struct Caller {
    pub seat: u64,
    pub session: Option<u64>,
}

/// A recorded call: its caller, its event and its reply.
#[derive(Debug, Drop)]
pub struct RecordedCall {
    pub caller: Caller,
    pub event: Event,
    pub reply: Reply<()>,
}

/// A call with its result, but without the bytes of its values.
#[derive(Clone, Copy, Debug, Drop)]
pub enum Note {
    Put(Key, Result<u64, Refusal<()>>),
    Delete(Key, Result<u64, Refusal<()>>),
    /// Whether there is an old value, and a new one.
    Swap(Key, bool, bool, Result<Option<u64>, Refusal<()>>),
    Flush(Result<u64, Refusal<()>>),
    Get(Key, Result<bool, Refusal<()>>),
    Convert(Result<Progress, Refusal<()>>),
    Merge(Result<Progress, Refusal<()>>),
}

impl Note {
    /// 1 for an accepted command, else 0.
    pub fn acceptance(&self) -> u64
        ensures { (value : List ℕ) → result ≡ accepted_by (reply_of self.now value) }
    {
        match self {
            Note::Put(_, Ok(_)) | Note::Delete(_, Ok(_)) | Note::Swap(_, _, _, Ok(Some(_))) => 1,
            _ => 0,
        }
    }

    /// Whether a call with this result is recorded.
    pub fn is_recorded(&self) -> bool
        ensures { (value : List ℕ) → result ≡ is_recorded (reply_of self.now value) }
    {
        match self {
            Note::Put(_, Err(refusal)) | Note::Delete(_, Err(refusal)) => is_record(refusal),
            Note::Swap(_, _, _, Err(refusal)) | Note::Get(_, Err(refusal)) => is_record(refusal),
            Note::Flush(Err(refusal)) => is_record(refusal),
            Note::Convert(Err(refusal)) | Note::Merge(Err(refusal)) => is_record(refusal),
            _ => true,
        }
    }

    /// The event and the reply. `bytes` is the value of a put or of a get, and the old value of a swap, if it has one;
    /// `second` is the new value of a swap, if it has one.
    pub fn with_values(self, bytes: Vec<u8>, second: Vec<u8>) -> (Event, Reply<()>)
        ensures event { result.0 ≡ noted_event self bytes.items second.items }
        ensures reply { result.1 ≡ reply_of self bytes.items }
    {
        match self {
            Note::Put(key, answer) => (Event::Put(key, Value::new(bytes)), accepted(answer)),
            Note::Delete(key, answer) => (Event::Delete(key), accepted(answer)),
            Note::Swap(key, has_old, has_new, answer) => {
                let event = Event::Swap(key, given(has_old, bytes), given(has_new, second));
                (event, swapped(answer))
            }
            Note::Flush(Ok(count)) => (Event::Flush, Reply::Acknowledged(count)),
            Note::Flush(Err(refusal)) => (Event::Flush, Reply::Refused(refusal)),
            Note::Get(key, answer) => (Event::Get(key), found(answer, bytes)),
            Note::Convert(answer) => (Event::Convert, progressed(answer)),
            Note::Merge(answer) => (Event::Merge, progressed(answer)),
        }
    }
}

// A value of these bytes, if there is one.
fn given(is_given: bool, bytes: Vec<u8>) -> Option<Value>
    ensures { result ≡ given is_given bytes.items }
{
    if is_given {
        Some(Value::new(bytes))
    } else {
        None
    }
}

// Whether a refusal is recorded.
fn is_record(refusal: &Refusal<()>) -> bool
    ensures { result ≡ is_recorded (reply_case.Refused refusal.now) }
{
    !matches!(refusal, Refusal::NoMemory | Refusal::HistoryFull)
}

// The reply to a get that found these bytes.
fn found(answer: Result<bool, Refusal<()>>, bytes: Vec<u8>) -> Reply<()>
    ensures { result ≡ get_reply bytes.items answer }
{
    match answer {
        Ok(true) => Reply::Found(Value::new(bytes)),
        Ok(false) => Reply::Absent,
        Err(refusal) => Reply::Refused(refusal),
    }
}

/// A result without its fault.
pub fn plain<A: Copy, F: Drop>(answer: &Result<A, Refusal<F>>) -> Result<A, Refusal<()>>
    ensures { result ≡ plain_answer answer.now }
{
    match answer {
        Ok(answered) => Ok(*answered),
        Err(refusal) => Err(refusal.plain()),
    }
}
