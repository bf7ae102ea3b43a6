// A trace that is anchored at the store with which it began.
ghost use Rattle.std.specs.Prelude.{◌≡◌, [], Some};
ghost use Rattle.silt_desk.specs.Anchors.{HasPast};
ghost use Rattle.silt_desk.specs.Seeing.{seen};

use crate::call::{Caller, Note};
use crate::call_log::{CallLog, CallView, NotedCall};
use crate::trace::{NotPrepared, Room, Trace};
use silt_disk::Disk;
use silt_store_set::Core;
use std::alloc::Global;
use std::marker::{Brand, Model, PhantomData};

/// Names, for each shard, the store with which a trace began, and the log of its calls. Each call of a program picks the names. A single
/// store is that of shard 0.
pub trait Anchor {
    ghost use Rattle.std.specs.Prelude.{ℕ, Option};
    ghost use Rattle.logbook.specs.Pages.{Book};
    ghost use Rattle.silt_desk.specs.Seeing.{SeenStore};

    /// The store of the shard of this number, if the name is that of one.
    ghost first: { ℕ → Option SeenStore };

    /// Its log.
    ghost calls: { ℕ → Book };
}

impl Anchor for Brand {
    ghost use Rattle.std.specs.Prelude.{None};

    ghost first = { λ shard. None };

    ghost calls = { λ shard. record { number = 0; log_name = 0; cells_name = 0 } };
}

/// A trace whose type names the store with which it began, by the number of its shard, and a log: the calls of the log lead from that
/// store to the one that a desk has, whether or not the trace keeps them.
#[derive(Drop)]
pub struct Anchored<T: Trace, N: Anchor> {
    shard: u64,
    trace: T,
    /// None once it could not take a call.
    log: Option<CallLog>,
    of: PhantomData<N>,
}

impl<T: Trace, N: Anchor> Model for Anchored<T, N> {
    ghost use Rattle.std.specs.Prelude.{◌≡◌, IfSome};
    ghost use Rattle.silt_desk.specs.Anchors.{AnchoredState};

    ghost Value = { AnchoredState T };

    ghost view = { λ a. record { shard = a.shard; trace = a.trace; log = a.log } };

    ghost invariant = { λ a. IfSome a.log (λ log. log.book ≡ N.calls log.shard) };
}

impl<T: Trace, N: Anchor> Anchored<T, N> {
    /// Anchors a trace of no calls at this store, as it is now, with a log of no calls. Its shard is that of the log.
    pub fn new<D: Disk>(core: &Core<D>, trace: T, log: CallLog) -> Anchored<T, N>
        requires first { N.first log.shard ≡ Some (seen D.Disk core.now) }
        requires log { (log.book ≡ N.calls log.shard) × (log.calls ≡ []) }
        requires trace { T.agrees trace (seen D.Disk core.now) × T.counts trace 0 0 }
        ensures agrees { T.agrees result.trace (seen D.Disk core.now) }
        ensures counts { T.counts result.trace 0 0 }
        ensures past { HasPast (N.first result.shard) T.counts result (seen D.Disk core.now) }
        ensures shard { result.shard ≡ log.shard }
        ensures log { result.log ≡ Some log }
    {
        let _known = core.standing(); // the possible crash images of the store as it is now
        Anchored {
            shard: log.shard(),
            trace,
            log: Some(log),
            of: PhantomData,
        }
    }

    /// The number of its shard.
    pub fn shard(&self) -> u64
        ensures { result ≡ self.now.shard }
    {
        self.shard
    }
}

impl<T: Trace, N: Anchor> Trace for Anchored<T, N> {
    ghost use Rattle.std.specs.Prelude.{◌≡◌, Some};
    ghost use Rattle.silt_desk.specs.CallLogs.{HasLogged, LogsCall};
    ghost use Rattle.silt_desk.specs.TraceLaws.{logged_more, past_more};

    ghost log = { λ shard. Some (N.calls shard) };

    ghost logs = { λ a calls. HasLogged a.log calls };

    ghost agrees = { λ a s. T.agrees a.trace s × HasPast (N.first a.shard) T.counts a s };

    ghost counts = { λ a n m. T.counts a.trace n m };

    ghost extends = { λ a c b. T.extends a.trace c b.trace × LogsCall a.log c b.log × (b.shard ≡ a.shard) };

    ghost is_full = { λ a. T.is_full a.trace };

    ghost takes_memory = { λ a. T.takes_memory a.trace };

    ghost fits = { T.fits };

    ghost agrees_after = { λ a b c s t agrees extends step. (
      T.agrees_after a.trace b.trace c s t agrees.0 extends.0 step,
      past_more N.first T.counts a b c s t (λ n m k l held more accepted. T.counts_after a.trace b.trace c n m k l held extends.0 more accepted) extends.1 extends.2 agrees.1 step,
    ) };

    ghost counts_after = { λ a b c n m k l counts extends more accepted. T.counts_after a.trace b.trace c n m k l counts extends.0 more accepted };

    ghost logs_after = { λ a b c calls extends logged. logged_more a.log b.log c calls extends.1 logged };

    fn prepare(&self, alloc: Global, len: usize, second: usize) -> Result<Room, NotPrepared> {
        self.trace.prepare(alloc, len, second)
    }

    fn record(&mut self, caller: Caller, note: Note, value: &[u8], second: &[u8], room: Room) {
        let noted = NotedCall {
            caller,
            note,
            value,
            second,
        };
        let is_logged = match &mut self.log {
            Some(log) => log.append(&noted),
            None => false,
        };
        if !is_logged {
            self.log = None; // another owner added to it: this never happens, and if it did, no reply would come
        }
        self.trace.record(caller, note, value, second, room);
    }

    fn numbers(&self) -> (u64, u64) {
        self.trace.numbers()
    }

    fn view(&self) -> Option<CallView> {
        match &self.log {
            Some(log) => Some(log.view()),
            None => None,
        }
    }
}
