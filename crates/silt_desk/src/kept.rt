// A trace that keeps every call.
ghost use Rattle.std.specs.Prelude.{◌≡◌, ◌≤◌, ◌≢◌, [], length, false, IsTrue, IfOk, IfErr, OnOk, vec_capacity};
ghost use Rattle.silt_store_set.specs.CoreState.{EntriesCause, map_of};
ghost use Rattle.silt_desk.specs.Seeing.{seen};
ghost use Rattle.silt_desk.specs.Traces.{ListsMap, IsHistory};

use crate::call::{Caller, Note, RecordedCall};
use crate::call_log::CallView;
use crate::trace::{NotPrepared, Room, Trace};
use silt_disk::Disk;
use silt_event::Refusal;
use silt_frame::{Key, Value};
use silt_store_set::Core;
use std::alloc::Global;
use std::collections::BTreeMap;
use std::marker::Model;

/// The entries of a store when its history began, how many commands were accepted by then, and all calls that were
/// recorded since. It records at most as many calls as it was made for.
#[derive(Drop)]
pub struct Kept {
    opening: BTreeMap<Key, Value>,
    count: u64,
    calls: Vec<RecordedCall>,
    accepted: u64,
    most: u64,
}

impl Model for Kept {
    ghost use Rattle.std.specs.Prelude.{◌≡◌, ◌≤◌, vec_len, vec_capacity};
    ghost use Rattle.silt_desk.specs.Traces.{Keeping};

    ghost Value = { Keeping };

    ghost use Rattle.silt_desk.specs.History.{count_accepted};

    ghost view = { λ k. record { opening = k.opening.entries; count = k.count; calls = k.calls.items; most = k.most } };

    ghost invariant = { λ k. (vec_len k.calls ≤ k.most) × (k.most ≤ vec_capacity k.calls) × (k.accepted ≡ count_accepted k.calls.items) };
}

impl Kept {
    /// Room for this many calls of this store, as it is now.
    ///
    /// # Errors
    ///
    /// `Failed`, `Device` with the fault of a read, `NoMemory`.
    pub fn new<D: Disk>(alloc: Global, core: &Core<D>, most: u64) -> Result<Kept, Refusal<D::Fault>>
        ensures entries { IsTrue (D.content core.now.disk).honest → IfOk result (λ kept. ListsMap kept.opening (map_of core.now)) }
        ensures count { IfOk result (λ kept. kept.count ≡ core.now.count) }
        ensures calls { IfOk result (λ kept. (kept.calls ≡ []) × (kept.most ≡ most)) }
        ensures working { OnOk result (core.now.failed ≡ false) }
        ensures cause { IfErr result (EntriesCause D.Disk core.now) }
        ensures history { IfOk result (λ kept. IsHistory kept (seen D.Disk core.now)) }
    {
        let opening = core.entries(alloc)?;
        let _known = core.standing(); // the possible crash images of the store as it is now
        let Ok(calls) = Vec::with_capacity(alloc, most as usize) else {
            return Err(Refusal::NoMemory);
        };
        Ok(Kept {
            opening,
            count: core.count(),
            calls,
            accepted: 0,
            most,
        })
    }

    /// The entries of the store when the history began.
    pub fn opening(&self) -> &BTreeMap<Key, Value>
        ensures { result.now.entries ≡ self.now.opening }
    {
        &self.opening
    }

    /// How many commands were accepted when the history began.
    pub fn count(&self) -> u64
        ensures { result ≡ self.now.count }
    {
        self.count
    }

    /// The recorded calls, in order.
    pub fn calls(&self) -> &[RecordedCall]
        ensures { result.now ≡ self.now.calls }
    {
        self.calls.as_slice()
    }
}

impl Trace for Kept {
    ghost use Rattle.std.specs.Prelude.{◌≡◌, ◌+◌, ◌≤◌, None, length};
    ghost use Rattle.silt_desk.specs.History.{count_accepted};
    ghost use Rattle.silt_desk.specs.Traces.{IsHistory, with_call};
    ghost use Rattle.silt_desk.specs.TraceLaws.{history_more, length_after, accepted_after};

    ghost agrees = { λ k s. IsHistory k s };

    ghost counts = { λ k n m. (length k.calls ≡ n) × (count_accepted k.calls ≡ m) };

    ghost extends = { λ a c b. b ≡ with_call a c };

    ghost is_full = { λ k. k.most ≤ length k.calls };

    ghost takes_memory = { λ k. Unit {0} };

    ghost fits = { λ capacity len. len ≤ capacity };

    ghost log = { λ shard. None };

    ghost logs = { λ t calls. ⊥ };

    ghost agrees_after = { λ a b c s t agrees extends step. history_more a b c s t agrees extends step };

    ghost counts_after = { λ a b c n m k l counts extends more accepted. (length_after a b c n k counts.0 extends more, accepted_after a b c m l counts.1 extends accepted) };

    ghost logs_after = { λ a b c calls extends logged. absurd logged };

    fn prepare(&self, alloc: Global, len: usize, second: usize) -> Result<Room, NotPrepared> {
        if self.calls.len() as u64 >= self.most {
            return Err(NotPrepared::Full);
        }
        let Ok(value) = Vec::with_capacity(alloc, len) else {
            return Err(NotPrepared::NoMemory);
        };
        match Vec::with_capacity(alloc, second) {
            Ok(second) => Ok(Room { value, second }),
            Err(_) => Err(NotPrepared::NoMemory),
        }
    }

    #[tactic(auto, using(crate::specs::TraceLaws::accepted_laws))]
    fn record(&mut self, caller: Caller, note: Note, value: &[u8], second: &[u8], room: Room) {
        let acceptance = note.acceptance();
        let values = (filled(room.value, value), filled(room.second, second));
        let (event, reply) = note.with_values(values.0, values.1);
        self.accepted += acceptance;
        self.calls.push_reserved(RecordedCall {
            caller,
            event,
            reply,
        });
    }

    #[tactic(auto, using(crate::specs::TraceLaws::accepted_laws))]
    fn numbers(&self) -> (u64, u64) {
        (self.calls.len() as u64, self.accepted)
    }

    fn view(&self) -> Option<CallView> {
        None
    }
}

// Fills a buffer that has room for them with these bytes.
fn filled(room: Vec<u8>, bytes: &[u8]) -> Vec<u8>
    requires { length bytes.now ≤ vec_capacity room }
    ensures { result.items ≡ bytes.now }
{
    let mut room = room;
    room.clear();
    for byte in bytes {
        room.push_reserved(*byte);
    }
    room
}
