//! The jobs of the program that need no server.
//!
//! `format_file`, `run_file`, `tend_file`, `check_file` and `dump_file` work on the disk of a path, `format_set`, `run_set`,
//! `do_each` and `dump_set` on the files of a set, `run_script` on a new store in memory, and `write_plan` and
//! `write_set_plan` only on numbers. They are functions over any source of disks, reader and writer. Each returns how it
//! ended, as a value (`Ended`, `Ends`), and `print_ends` prints that for people. What cannot wait for the end goes through
//! `Tells`. The contracts say what is written for each content of the disk, and how the job ended.
//! The room `jobs` has all these but the plans, which are in `plans`; how a job ended, and what is told of it, is in `people`.
//! `WatchedFiles` are the files of a source as disks that keep which of their calls failed, and that show how far an
//! opening is (`Progress`).
#![tactic(auto)]

mod jobs;
mod people;
mod plans;

pub use jobs::{
    HeldStore, Holding, NewSet, NewStore, NotOpened, SetFiles, ShardJob, Tended, at_shard,
    check_file, do_each, dump_file, dump_set, few_regions, format_file, format_set,
    has_few_regions, is_set, merge_damage_at, offset_of, open_files, open_store, refuse_at,
    refuse_few_regions, run_file, run_script, run_set, shard_path, tend_file, value_len_of, why_of,
};
pub use people::{
    AfterProgress, Ended, Ends, Failure, Failures, Found, InputLines, KeepsError, KeepsLines,
    KeepsTally, NoBackup, Progress, RANDOM_DEVICE, Session, Stream, StreamError, Subject, Tally,
    Tells, Urgent, Watched, WatchedFile, WatchedFiles, WatchedReader, WatchedWriter, Why,
    print_ends, print_of, refuse, write_out,
};
pub use plans::{PlanCost, Remedy, write_plan, write_set_plan};
