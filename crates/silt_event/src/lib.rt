//! The calls of a store, and its replies.
//!
//! An [`Event`] is a call, and a [`Reply`] its result. If a call is refused, the reply holds a [`Refusal`]. A [`Finding`] says what
//! is wrong with a device, and a [`Place`] says where. A step of background work returns its [`Progress`]. A life is a run from
//! opening to crash or close: it returns a [`LifeReply`]. A look at a device returns a [`Report`]. An [`Answerer`] replies to
//! events one after the other: it is a store, or a layer in front of one. It also replies to an [`Admin`] command: it gives the store's
//! [`Facts`], and what a server counted ([`Counts`]).
//!
//! `specs/` has the definitions that all promises are made of. `Commands` has maps and the commands that change them. `Rows` says
//! which command a row of a device is, and so which map rows make. `Events` says which replies to events are those of a map, which
//! commands a crash may take away, and which lives are a history. `Queries` says what a session asks of an answerer. Nothing here reads or writes a device. Code that speaks to a
//! store, whatever the store is made of, needs only this crate.
#![tactic(auto)]

mod admin;
mod answerer;
mod counts;
mod damage;
mod event;
mod facts;
mod laws;
mod place;
mod progress;
mod refusal;
mod reply;
mod report;

pub use admin::{Admin, AdminReply};
pub use answerer::Answerer;
pub use counts::{COUNTS, Counter, Counts};
pub use damage::Finding;
pub use event::{Event, bytes_of};
pub use facts::Facts;
pub use laws::{count_law, map_law, newest_law};
pub use place::Place;
pub use progress::Progress;
pub use refusal::Refusal;
pub use reply::{LifeReply, Reply};
pub use report::{Layout, Report};
