// What is read of a job: how it ended, its lines for people and for programs, and which calls failed.
mod empty_swap;
mod end_lines;
mod ended;
mod failure;
mod failures;
mod input_lines;
mod no_backup;
mod output;
mod progress;
mod refusal;
mod streams;
mod tally;
mod urgent;
mod watched_file;

pub use empty_swap::EmptySwap;
pub use end_lines::{RANDOM_DEVICE, Subject, print_ends, print_of};
pub use ended::{Ended, Ends, Found, Session, Why};
pub use failure::{Failure, Watched};
pub use failures::Failures;
pub use input_lines::InputLines;
pub use no_backup::NoBackup;
pub use output::write_out;
pub use progress::{AfterProgress, Progress};
pub use refusal::refuse;
pub use streams::{
    KeepsError, KeepsLines, KeepsTally, Stream, StreamError, WatchedReader, WatchedWriter,
};
pub use tally::{KINDS, Refusals, Tally};
pub use urgent::{Tells, Urgent, write_place};
pub use watched_file::{WatchedFile, WatchedFiles};
