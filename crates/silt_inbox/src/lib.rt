//! A job queue with many producers and one consumer, and replies that fit the events they reply to.
//!
//! A [`Queue`] is a list of jobs in order. An [`Inbox`] is a queue under a lock. Each producer has a [`Feeder`], and
//! the consumer has the one [`Taker`]. These count the jobs that went through them, and take no bytes. In the end
//! [`Inbox::tally`] returns three numbers that add up: each job that was put was taken or is left. A job that cannot be
//! put is handed back.
//!
//! An [`Answered`] is a reply with the kind of the event that it replies to. Its type says that an event of this kind
//! may have this reply, so a thread that receives one from a channel knows it. Nothing is promised about whether a
//! message arrives, or in which order.
#![tactic(auto)]

mod answered;
mod inbox;
mod job_queue;
mod places;
mod queue;

pub use answered::{Answered, EventKind, answered_law};
pub use inbox::Inbox;
pub use job_queue::{MissingFeeders, NotPut, NotPutReason};
pub use places::{Feeder, InboxId, Taker};
pub use queue::{NotPushed, Queue};
