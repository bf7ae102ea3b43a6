//! The texts of a store: request lines, reply lines, and reports.
//!
//! A line ends with a line feed. One carriage return before it is removed, and a line that is then empty gets no reply.
//! Words are in lower case, with single spaces between them. `parse_line` returns the event that a line asks for,
//! `print_reply` the text of a reply, and `print_report` the text of a report. `LineBuffer` keeps the bytes of a line
//! that has not ended. `session` reads lines from any reader, passes their events to a store, or another `Answerer`,
//! and writes the replies to any writer. A session also has the lines of admin commands: `info`, which asks for the store's facts
//! and for what its server counted (`print_info` returns their lines), `shutdown` and `backup`. `session_over` does so with a
//! buffer of its caller, and so does `client_session`, which does not reply to HTTP requests.
#![tactic(auto)]

mod batch;
mod facts;
mod http_guard;
mod keys;
mod line;
mod line_buffer;
mod number;
mod reply;
mod report;
mod sessions;

pub use facts::{count_rows, fact_rows, print_info};
pub use http_guard::{HttpGuard, client_session};
pub use keys::key_of;
pub use line::{
    LONGEST_LINE, LineFault, admin_of, cut_word, is_blank, parse_line, without_carriage_return,
};
pub use line_buffer::{LineBuffer, Taken};
pub use number::number_of;
pub use reply::{print_fault, print_refusal, print_reply, refuse_line, write_refusal, write_reply};
pub use report::{print_report, write_report};
pub use sessions::{SessionEnd, session, session_over, write_texts};
pub use silt_event::Answerer;
