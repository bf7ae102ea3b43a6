//! A page of metrics: what a server says of itself to a monitoring system, in Prometheus' text format over HTTP.
//!
//! [`page`] is the text of the page: each fact of the store and each count of its server, as a number with its name and its type.
//! [`asked_for`] says what the head of a request asks for; the library `httparse` parses it. [`serve_page`] reads one request from a
//! connection, and writes one response.
#![tactic(auto)]

mod exchange;
mod request;
mod text;

pub use exchange::{response, serve_page};
pub use request::{Wanted, asked_for};
pub use text::page;
