//! The sessions of a server, and the one writer that does their changes.
//!
//! The [`Client`] of a connection asks its [`Session`] for replies to events. A session does its gets itself, at the same
//! time as other sessions. It puts its changes as a [`Job`] into the inbox of the writer. The writer ([`Workplace`]) takes
//! all jobs that wait, does their tasks, flushes once and only then replies, so one flush settles the commands of many
//! sessions. Replies to many jobs are sent by a thread of its own, the *replier*, while the writer does the next batch
//! ([`send_replies`]).
//!
//! A job has one [`Task`], or all changes of one read up to a get of a key that one of them may change. So a client that
//! writes many lines before it reads waits for one flush, and its get still sees its changes before it.
//!
//! The connection of a set has a session at each shard ([`SetAsking`]). It gives each event to the shard of its key, and a flush to all
//! shards. Events that come at once are handed over to all shards before the replies of one are waited for ([`Session::begin`],
//! [`Session::finish`]), so the shards flush side by side; then the replies are put into the order of the events.
//!
//! What the threads of a server tell each other besides jobs is on its [`Board`]: that it is to end, and what they counted. A connection
//! is read by an [`Inlet`] and written by an [`Outlet`]. Both wait for a second at most and then look at the board, so each session
//! ends soon after its server is told to end, and what it has read gets its replies first. The writer says at its gate if the store has
//! failed, and waits for no room once that gate is closed. Nothing is proved of the board.
//!
//! The contract of [`Workplace::serve_batch`] states the replies to a batch of jobs, and that of [`Session::answer_all`] that each
//! reply comes from its own request: a [`Task`] keeps which calls its reply comes from, and where they stand in the log of the desk's calls; a
//! [`Ticket`] says whose job it is; and [`Told`] is what a session was told of the calls, among which those of its replies are. The log names
//! the session for which each call was made, so sessions share no call: all together are told of no more accepted commands than the log has
//! ([`ledger_law`]).
//! Nothing is proved of whether messages arrive.
#![tactic(auto)]

mod answers;
mod asked;
mod batch;
mod board;
mod client;
mod held;
mod inlet;
mod job;
mod job_log;
mod key_marks;
mod laws;
mod outlet;
mod pipeline;
mod place;
mod replier;
mod room;
mod session;
mod session_number;
mod session_slots;
mod set;
mod tally;
mod task;
mod ticket;
mod told;
mod unanswered;
mod work;

pub use asked::AskedEvents;
pub use batch::Workplace;
pub use board::Board;
pub use client::{AskBy, Asking, Client};
pub use inlet::{Inlet, end_gently, wait_by_ticks};
pub use job::{Awaited, Job, Request, Tasks};
pub use job_log::{JobLog, LogId, LogStart, LogView};
pub use laws::ledger_law;
pub use outlet::Outlet;
pub use replier::{replier_channel, send_batches, send_replies};
pub use room::{HearsRoom, RoomGate, RoomWait, room_channel};
pub use session::{Session, WriterLink};
pub use session_number::{SessionNumber, SessionNumbers};
pub use session_slots::{Newcomer, SessionSlot, free_slot, slots_of};
pub use set::{AskAheadBy, AskingAhead, SetAsking};
pub use task::Task;
pub use ticket::Ticket;
pub use told::Told;
pub use unanswered::Unanswered;
pub use work::Jobs;
