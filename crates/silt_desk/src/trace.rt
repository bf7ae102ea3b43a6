// What a desk remembers of its calls.
ghost use Rattle.logbook.specs.Pages.{Book};
ghost use Rattle.std.specs.Prelude.{◌≡◌, ℕ, ◌+◌, ◌++◌, ◌∷◌, ◌%◌, ◌^◌, [], List, MatchOption, MatchResult, Option, Some, length, vec_capacity};
ghost use Rattle.silt_desk.specs.CallLogs.{LogsNone};
ghost use Rattle.silt_desk.specs.History.{accepted_by, call};
ghost use Rattle.silt_desk.specs.Notes.{noted_event, reply_of};
ghost use Rattle.silt_desk.specs.Seeing.{SeenStore, SeenStep};
ghost use Rattle.silt_desk.specs.Preparing.{NotPreparedCause};
ghost use Rattle.silt_desk.specs.declared.call.RecordedCall.{RecordedCall as Recorded};

use crate::call::{Caller, Note};
use crate::call_log::CallView;
use std::alloc::Global;

/// Why a further call cannot be recorded.
#[derive(Clone, Copy, Debug, PartialEq, Eq)]
pub enum NotPrepared {
    /// The history is full.
    Full,
    /// Out of memory for the record.
    NoMemory,
}

/// Buffers for the values of one call. Only a swap can have a second value.
#[derive(Drop)]
pub struct Room {
    pub value: Vec<u8>,
    pub second: Vec<u8>,
}

/// A record of the calls at a desk.
pub trait Trace: Drop {
    /// The recorded calls lead to this store.
    ghost agrees: { Self → SeenStore → Type 0 };

    /// This many calls are recorded, and this many of them are accepted commands.
    ghost counts: { Self → ℕ → ℕ → Type 0 };

    /// The last trace is the first with this call more.
    ghost extends: { Self → Recorded → Self → Type 0 };

    /// No further call can be recorded.
    ghost is_full: { Self → Type 0 };

    /// Its records need memory.
    ghost takes_memory: { Self → Type 0 };

    /// A buffer of this capacity has room for a value of this length.
    ghost fits: { ℕ → ℕ → Type 0 };

    /// The log to which the trace of each shard adds its calls, if it keeps one.
    ghost log: { ℕ → Option Book };

    /// These are the calls of its log.
    ghost logs: { Self → List Recorded → Type 0 };

    /// Allocates the memory for the record of a call whose values have `len` and `second` bytes. A value of 0 bytes
    /// needs none.
    fn prepare(&self, alloc: Global, len: usize, second: usize) -> Result<Room, NotPrepared>
        ensures { MatchResult result (λ room. (is_full self.now → ⊥) × fits (vec_capacity room.value) len × fits (vec_capacity room.second) second)
            (NotPreparedCause (is_full self.now) (takes_memory self.now)) };

    /// Records a call of a caller, with the bytes of its value and, for a swap, of its new value, if it has one.
    fn record(&mut self, caller: Caller, note: Note, value: &[u8], second: &[u8], room: Room)
        requires room { is_full self.old → ⊥ }
        requires fits { fits (vec_capacity room.value) (length value.now) }
        requires fits_second { fits (vec_capacity room.second) (length second.now) }
        ensures { extends self.old (call caller (noted_event note value.now second.now) (reply_of note value.now)) self.new };

    /// How many calls are recorded, and how many of them are accepted commands, both modulo 2^64.
    fn numbers(&self) -> (u64, u64)
        ensures { (n m : ℕ) → counts self.now n m → (result.0 ≡ n % 2 ^ 64) × (result.1 ≡ m % 2 ^ 64) };

    /// The calls of its log. None only if it logs no calls.
    fn view(&self) -> Option<CallView>
        ensures { MatchOption result (LogsNone (logs self.now)) (λ view. (Some view.book ≡ log view.shard) × logs self.now view.calls) };

    ghost agrees_after: { (a b : Self) (c : Recorded) (s t : SeenStore) → agrees a s → extends a c b → SeenStep s t c.event c.reply → agrees b t };

    ghost counts_after: { (a b : Self) (c : Recorded) (n m k l : ℕ) → counts a n m → extends a c b → k ≡ n + 1 → l ≡ m + accepted_by c.reply → counts b k l };

    ghost logs_after: { (a b : Self) (c : Recorded) (calls : List Recorded) → extends a c b → logs b calls → (before : List Recorded) × (calls ≡ before ++ c ∷ []) };
}
