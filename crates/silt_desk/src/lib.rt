//! One store for many threads: a desk under one lock, at which each caller has a seat.
//!
//! A [`Desk`] is a store with a [`Trace`] of its calls. Each caller has a [`Seat`]. A call at the desk does the store's
//! call and records who made it, its event and its reply: the number of the seat, and that of the session that it serves. So the recorded calls are a history of one thread,
//! whatever threads made them. [`Kept`] keeps all of them, and the entries at which they began; its type says that
//! their replay is the store's map. [`Count`] keeps only their number. [`Anchored`] is another trace whose type says that some calls
//! lead from the store with which it began to the one that the desk has: those of its [`CallLog`], of which only the length is kept
//! in memory. A [`CallView`] is a beginning of that log, and a [`CallPlace`] one call of it, which a [`Seat`] has of its last call. A look is a get
//! that is not recorded, and many threads may look at the same time.
//!
//! [`Shared`] is the desk under a lock for readers and writers, and nothing more: a thread with a guard makes the
//! desk's own calls. Once all seats are given back, [`settle`] returns how many calls are recorded and how many
//! commands are accepted. Both agree with what the callers got.
//!
//! [`converter`] and [`merger`] are loops for threads of their own that do the store's steps in the background, some under each guard.
//! Nothing is promised about waiting: not that a call gets its turn, nor in which order, nor that a message arrives.
#![tactic(auto)]

mod anchored;
mod call;
mod call_log;
mod count;
mod desk;
mod kept;
mod laws;
mod seat;
mod shared;
mod shift_gate;
mod threads;
mod trace;
mod view;
mod wakes;
mod worker;

pub use anchored::{Anchor, Anchored};
pub use call::{Caller, Note, RecordedCall, plain};
pub use call_log::{CallLog, CallPlace, CallView};
pub use count::Count;
pub use desk::{Desk, NotMade};
pub use kept::Kept;
pub use laws::{batch_cost_law, follows_law, held_law, others_stay_law, servings_law};
pub use seat::{DeskId, MissingSeats, Seat};
pub use shared::{Shared, settle};
pub use shift_gate::ShiftGate;
pub use silt_inbox::{
    Answered, EventKind, Feeder, Inbox, InboxId, MissingFeeders, NotPushed, NotPut, NotPutReason,
    Queue, Taker, answered_law,
};
pub use silt_store_set::{LentBytes, Look};
pub use silt_view::{ReadFault, View, Viewed};
pub use threads::join_over;
pub use trace::{NotPrepared, Room, Trace};
pub use view::DeskView;
pub use wakes::{Wakes, wake};
pub use worker::{
    Due, Gate, Hears, OpenGate, STEPS_A_GUARD, Spot, Turn, Wake, WorkerEnds, convert_once,
    converter, merge_once, merger,
};
