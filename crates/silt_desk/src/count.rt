// A trace that counts.
ghost use Rattle.std.specs.Prelude.{◌≡◌};

use crate::call::{Caller, Note};
use crate::call_log::CallView;
use crate::trace::{NotPrepared, Room, Trace};
use std::alloc::Global;

/// The numbers of the recorded calls and of the accepted commands among them, both modulo 2^64. It needs no memory.
#[derive(Debug, Drop)]
pub struct Count {
    calls: u64,
    accepted: u64,
}

impl Count {
    /// Nothing is counted yet.
    pub fn new() -> Count
        ensures { (result.calls ≡ 0) × (result.accepted ≡ 0) }
    {
        Count {
            calls: 0,
            accepted: 0,
        }
    }
}

impl Trace for Count {
    ghost use Rattle.std.specs.Prelude.{◌≡◌, ◌+◌, ◌%◌, ◌^◌, None};
    ghost use Rattle.silt_desk.specs.History.{accepted_by};
    ghost use Rattle.silt_desk.specs.TraceLaws.{next_count};

    ghost agrees = { λ t s. Unit {0} };

    ghost counts = { λ t n m. (t.calls ≡ n % 2 ^ 64) × (t.accepted ≡ m % 2 ^ 64) };

    ghost extends = { λ a c b. (b.calls ≡ (a.calls + 1) % 2 ^ 64) × (b.accepted ≡ (a.accepted + accepted_by c.reply) % 2 ^ 64) };

    ghost is_full = { λ t. ⊥ };

    ghost takes_memory = { λ t. ⊥ };

    ghost fits = { λ capacity len. Unit {0} };

    ghost log = { λ shard. None };

    ghost logs = { λ t calls. ⊥ };

    ghost agrees_after = { λ a b c s t agrees extends step. tt };

    ghost counts_after = { λ a b c n m k l counts extends more accepted.
        (next_count a.calls b.calls n 1 k counts.0 extends.0 more, next_count a.accepted b.accepted m (accepted_by c.reply) l counts.1 extends.1 accepted) };

    ghost logs_after = { λ a b c calls extends logged. absurd logged };

    fn prepare(&self, alloc: Global, _len: usize, _second: usize) -> Result<Room, NotPrepared> {
        Ok(Room {
            value: Vec::new(alloc),
            second: Vec::new(alloc),
        })
    }

    fn record(&mut self, _caller: Caller, note: Note, _value: &[u8], _second: &[u8], _room: Room) {
        self.calls = self.calls.wrapping_add(1);
        self.accepted = self.accepted.wrapping_add(note.acceptance());
    }

    fn numbers(&self) -> (u64, u64) {
        (self.calls, self.accepted)
    }

    fn view(&self) -> Option<CallView> {
        None
    }
}
