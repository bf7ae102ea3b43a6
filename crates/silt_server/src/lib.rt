//! One store for many clients, over the network.
//!
//! A [`Server`] serves a store on a listener. Each session is one thread that replies to the lines of its connection in
//! order, with a slot and an inbox of silt_session. Beside the sessions run the writer that does their changes, the
//! replier that sends its replies, and the converter and the merger, which do their steps while there is work. Unless its
//! [`Protocol`] is that of plain lines, all changes of one read are one job of the writer.
//!
//! A server ends behind its last session, or once its board says that it is to end: then it accepts no more connections, its sessions
//! read no more, and it waits for all of their threads. A thread of its own may work beside the sessions ([`Cares`]).
//!
//! A session's fault ends only that session. Nothing is proved of sockets, of whether threads run, or of whether messages
//! arrive.
#![tactic(auto)]

mod admission;
mod care;
mod common;
mod connection;
mod counting_listener;
mod limits;
mod serve;
mod serve_set;
mod serving_set;
mod threads;
mod workers;
mod written;

pub use care::{Cares, NoCare};
pub use counting_listener::Listens;
pub use limits::{Limits, Protocol};
pub use serve::{Server, ServerState, refuse_network, refuse_set_network};
pub use serve_set::SetServer;
