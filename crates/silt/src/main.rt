//! The program silt.
//!
//! - `silt plan KEYS V [--memory BYTES]` prints the six numbers of a store for this many keys, and what they cost. With
//!   `--shards M` it prints those of one shard of a set, and what all of them cost.
//! - `silt format FILE V B CAP NL NH S [--force] [--sparse]` makes an empty store of this geometry in a file, and prints the
//!   file's length. Without `--force` a file with other data stays as it is. Without `--sparse` all of the file is written.
//!   With `--shards M` it makes an empty set of the files FILE.0 to FILE.(M-1), each a shard of one store.
//! - `silt run FILE [--tend] [--strict] [--merge-at K]` is one life of the store in a file: it reads lines to the end, and
//!   writes one reply line for each. The end of the input flushes nothing. With `--tend` it does the background work that
//!   is due between the lines; if that is refused, it prints why behind the replies, and ends with status 1. With
//!   `--strict` it ends with status 3 if a line was refused. With `--shards M` it is one life of the set of these M files.
//! - `silt tend FILE [--merge-at K]` does all background work of the store in a file. With `--shards M` it does so for each
//!   file of a set, as `check` and `dump` do their work.
//! - `silt check FILE` prints a report of the store in a file, in numbers.
//! - `silt dump FILE` prints a line for each key with a value, which puts that value.
//! - `silt script V B CAP NL NH S` makes an empty store of this geometry on a disk in memory, reads lines to the end, and
//!   writes one reply line for each. Lines `stop K FILL` divide them into lives. Such a line is a crash at the K-th write or
//!   sync of the life before it. The next life opens what the crash leaves.
//! - `silt serve FILE PORT [--audit N] [--sessions M] [--idle SECONDS] [--wait SECONDS] [--merge-at K] [--pipeline] [--resp]`
//!   serves the store in a file to the connections of a port of this machine. With `--pipeline` the commands that a
//!   connection sent together are done with one flush. A line `shutdown` ends it in order, and so does a failed write or sync,
//!   with status 1, unless it has `--stay`.
//!   With `--backup PATH` a line `backup` orders a copy of the store in a file of its own.
//! - `silt stop ADDRESS [--password-file PATH]` ends a server in order, and waits until nothing listens at its port.
//! - `silt info ADDRESS [--password-file PATH]` prints what a server says of itself.
//!
//! Before all else it opens `/dev/null` on each standard descriptor that is closed. A job whose file is a standard stream is
//! refused.
//!
//! silt_jobs does the work on a file or in memory, and silt_server serves. Their functions work over any source of disks,
//! and their contracts say what is written for each content of the path's disk. Of a disk in a file only its length is
//! known.
#![tactic(auto)]

mod backup_places;
mod backups;
mod care;
mod clash;
mod client;
mod client_text;
mod copy_disk;
mod early_sync;
mod file_identity;
mod file_systems;
mod listener;
mod machine;
mod merge_gate;
mod merge_holds;
mod merge_places;
mod mounts;
mod password;
mod program;
mod random_bytes;
mod service;
mod set_service;
mod standard_streams;

use file_systems::tell_weakness;
use machine::Machine;
use program::refuse_words;
use silt_device::FileDisks;
use silt_jobs::{
    AfterProgress, KeepsLines, Progress, Subject, WatchedFiles, WatchedReader, WatchedWriter,
    print_ends, print_of,
};
use silt_words::{WordsError, read_words};
use standard_streams::{NULL_DEVICE, StandardStreams, fill_descriptors};
use std::env::{self, Env};
use std::fs::File;
use std::io::{self, ErrorKind, IsTerminal, Stderr, Write};
use std::net::{Net, TcpListener, TcpStream};
use std::process::ExitCode;
use std::rt::{Files, Runtime};
use std::sync::Wait;
use std::thread::Threads;

fn main(rt: HostRuntime) -> ExitCode {
    match fill_descriptors(rt.alloc(), &rt) {
        Ok(files) => {
            let status = done(&rt, rt.stderr(), rt.stderr());
            drop(files); // not before the end, or a store's file could get such a number
            status
        }
        Err(error) => {
            print_of(&NULL_DEVICE, &error, &mut rt.stderr());
            ExitCode::from(1)
        }
    }
}

// Does the job that the process's own words name, prints how it ended to `errors`, and returns the exit status. What cannot
// wait for that goes there too, but what is known against the file system, the first failed write or sync of a served store,
// and the progress of an opening, if it is a terminal, go to `at_once`.
fn done<
    S: Runtime
        + Files<File = File>
        + Net<Listener = TcpListener, Stream = TcpStream>
        + Threads
        + Wait
        + Sync
        + StandardStreams,
    E: Write + Drop,
>(rt: &S, errors: E, at_once: Stderr) -> ExitCode {
    let progress = Progress::new(at_once.is_terminal().then_some(at_once));
    let mut errors = AfterProgress::new(errors, &progress);
    let mut writer = WatchedWriter::new(AfterProgress::new(io::writer(rt), &progress));
    let words = match own_words(rt) {
        Ok(words) => words,
        Err(error) => {
            let ended = refuse_words::<(), (), _>(rt.alloc(), error, &mut writer);
            return ExitCode::from(ended.exit_status());
        }
    };
    let words = words.as_slice();
    if let Ok(job) = read_words(rt.alloc(), words) {
        let mut people = at_once;
        tell_weakness(rt.alloc(), rt, &job, &mut people);
    }
    let source = WatchedFiles::new(FileDisks::new(rt, &progress), at_once, &progress);
    let mut reader = WatchedReader::new(rt.alloc(), rt.reader());
    let machine = Machine { rt, source };
    let (file, ends) = machine.do_words(words, &mut reader, &mut writer, &mut errors);
    let subject = Subject {
        words,
        file: file.unwrap_or(""),
        lines: reader.lines(),
    };
    print_ends(&subject, &ends, &mut errors);
    ExitCode::from(ends.whole.exit_status())
}

// The words that the program was called with, the program's own first. A word that is no text is a bad word.
fn own_words<S: Env + AllocGlobal>(rt: &S) -> Result<Vec<String>, WordsError> {
    let words = match env::args(rt) {
        Ok(words) => words,
        Err(error) if error.kind() == ErrorKind::OutOfMemory => return Err(WordsError::NoMemory),
        Err(_) => return Err(WordsError::Usage),
    };
    Ok(words.collect::<Vec<String>>(rt.alloc())?)
}
