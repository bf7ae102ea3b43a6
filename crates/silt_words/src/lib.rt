//! The words of the command line: which job they name.
//!
//! A call is the program's own word, the command's, and the command's values: `format FILE V B CAP NL NH S`, `script V B CAP NL NH S`,
//! `run FILE`, `tend FILE`, `check FILE`, `dump FILE`, `plan KEYS V`, `serve FILE PORT`, `stop ADDRESS` or `info ADDRESS`. A
//! number is one to ten decimal digits, and at most 4,294,967,295; a port is at most 65,535. An ADDRESS is the port of a server
//! of this machine, or an IP address in digits, a colon and a port.
//!
//! Options are `--force` and `--sparse` of `format`, `--tend` and `--strict` of `run`, `--merge-at K` of `run`, `tend` and
//! `serve`, `--memory BYTES` and `--merge-writes E` of `plan`, `--shards M` of all but `script`, and `--audit N`,
//! `--sessions M`, `--idle SECONDS`, `--wait SECONDS`, `--pipeline`, `--resp`, `--bind ADDRESS`,
//! `--password-file PATH`, `--clients N`, `--stay`, `--scrub HOURS`, `--scrub-rate MB`, `--metrics PORT`, `--backup PATH` and,
//! beside `--shards`, `--mergers G` of `serve`, and `--password-file PATH` of `stop` and `info`. Each is given at most once,
//! before, between or after the values, and `--audit=N` is the same as two words. A backup is another file than the store's,
//! by its name, and so is PATH.new, where it is written first. No other word of more than one character may
//! begin with a hyphen, but after the first word `--` every word is a value. Without `--sessions`, or with 0, the server
//! serves any number of sessions. Without `--idle`, or with 0, it closes no silent connection. With `--wait 0` no command
//! waits for room; without `--wait` the server decides how long.
#![tactic(auto)]

mod address;
mod backup;
mod command;
mod forms;
mod job;
mod usage;
mod words;

pub use forms::{Form, Forms};
pub use job::{
    Access, Contact, FormatOptions, Job, Numbers, PlanRequest, RunOptions, Service, SetJob,
    SetWork, WordsError,
};
pub use usage::{Complaint, VERSION, asks_version, complaint_of, forms_for};
pub use words::{
    FEWEST_SHARDS, MOST_CLIENTS, MOST_SCRUB, MOST_SCRUB_RATE, MOST_SHARDS, read_words,
};
