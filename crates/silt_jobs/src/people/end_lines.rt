// How a job ended, as lines for people.
use crate::jobs::{HeldStore, Holding};
use crate::people::{
    Ended, Ends, Found, InputLines, KINDS, Refusals, Session, StreamError, Why, write_place,
};
use crate::plans::{NumbersText, PlanCost, obstacle_of, out_of_limits};
use silt_store_set::{Place, Refusal};
use silt_wire::SessionEnd;
use silt_words::{VERSION, asks_version, complaint_of, forms_for};
use std::fmt::{self, Display};
use std::io::{self, ErrorKind, Write};
use std::net::SocketAddr;

/// The number of the refusal of a value of another length.
const BAD_VALUE: usize = 22;

/// What a job was about.
#[derive(Clone, Copy)]
pub struct Subject<'a> {
    /// The words of the command line.
    pub words: &'a [String],
    /// The name of the job's file, or nothing.
    pub file: &'a str,
    /// The lines that it read.
    pub lines: &'a InputLines,
}

/// The device that gives random bytes.
pub const RANDOM_DEVICE: &str = "/dev/urandom";

/// The name of a job's file, or of one file of its set.
#[derive(Clone, Copy)]
struct FileName<'a> {
    name: &'a str,
    shard: Option<u32>,
}

impl<'a> FileName<'a> {
    // The name of the file that a job found out something of.
    fn of(name: &'a str, found: &Option<Found>) -> FileName<'a> {
        let shard = match found {
            Some(Found::Shard(shard)) => Some(*shard),
            _ => None,
        };
        FileName { name, shard }
    }

    // The name of the file of this shard, if there is one, and else this one.
    fn or(self, shard: Option<u32>) -> FileName<'a> {
        FileName {
            name: self.name,
            shard: shard.or(self.shard),
        }
    }
}

impl fmt::Display for FileName<'_> {
    fn fmt<W: fmt::Write>(&self, f: &mut fmt::Formatter<W>) -> fmt::Result {
        let FileName { name, shard } = *self;
        match shard {
            Some(shard) => write!(f, "{name}.{shard}"),
            None => f.write_str(name),
        }
    }
}

/// Prints how a job ended, first on each file of its set, if it has such ends: `silt: `, the subject, and the words of the
/// system. A line that cannot be written is left out.
pub fn print_ends<E: Display + Drop, F: Display + Drop, W: Write>(
    subject: &Subject<'_>,
    ends: &Ends<E, F>,
    out: &mut W,
) {
    let mut shard = 0_u32;
    for part in ends.parts.iter() {
        let file = FileName {
            name: subject.file,
            shard: Some(shard),
        };
        print_ended(subject, file, part, out);
        shard = shard.saturating_add(1);
    }
    let file = FileName::of(subject.file, &ends.whole.found);
    print_ended(subject, file, &ends.whole, out);
}

// Prints how a job ended on a file of this name.
fn print_ended<E: Display + Drop, F: Display + Drop, W: Write>(
    subject: &Subject<'_>,
    file: FileName<'_>,
    ended: &Ended<E, F>,
    out: &mut W,
) {
    let is_printed = ended.status.is_ok();
    match &ended.why {
        None => {}
        Some(Why::NoJob) => print_words(subject.words, out),
        // The writer's error says enough of a plan that could not be written.
        Some(Why::NoPlan(..)) if !is_printed => {}
        Some(why) => print_why(file, why, out),
    }
    match &ended.found {
        Some(Found::Session(session)) => print_session(session, subject.lines, out),
        Some(Found::Store(store)) if is_printed => print_store(file, store, out),
        Some(Found::Cost(cost)) if is_printed => print_cost(cost, out),
        _ => {}
    }
    for failure in [ended.failures.read, ended.failures.last] {
        if let Some(failure) = failure {
            print_of(&file.or(ended.failures.shard), &failure, out);
        }
    }
    if let Err(error) = ended.status {
        print_broken(&error, out);
    }
}

/// Prints this of a file of this name.
pub fn print_of<N: Display, T: Display, W: Write>(file: &N, it: &T, out: &mut W) {
    let _ = writeln!(out, "silt: {file}: {it}");
}

// Prints the error of a reader or a writer. If the reader of the replies closed the pipe, there is no line.
fn print_broken<W: Write>(error: &io::Error, out: &mut W) {
    if error.kind() != ErrorKind::BrokenPipe {
        let _ = writeln!(out, "silt: {error}");
    }
}

// Prints which words would name a job, and what is wrong with these words.
fn print_words<W: Write>(words: &[String], out: &mut W) {
    if asks_version(words) {
        let _ = writeln!(out, "silt {VERSION}");
        return;
    }
    let _ = write!(out, "{}", forms_for(words));
    if let Some(complaint) = complaint_of(words) {
        let _ = writeln!(out, "\nsilt: {complaint}");
    }
}

// Prints why a job was refused, if it is not for the words.
fn print_why<E: Display, F: Display, W: Write>(file: FileName<'_>, why: &Why<E, F>, out: &mut W) {
    match why {
        Why::NoDisk(error) => print_of(&file, error, out),
        Why::NotDue(fault) => print_of(&file, fault, out),
        Why::Refused(refusal, at) => print_refusal_of(file, refusal, *at, out),
        Why::IsStream(stream) => print_of(&file, stream, out),
        Why::NoRandom(StreamError { error }) => print_of(&RANDOM_DEVICE, error, out),
        _ => {
            let _ = write_unfit(file, why, out);
        }
    }
}

// Writes why what was asked for cannot be.
fn write_unfit<E, F, W: Write>(file: FileName<'_>, why: &Why<E, F>, out: &mut W) -> io::Result<()> {
    match why {
        Why::Holds(Holding::Store(store)) => writeln!(
            out,
            "silt: {file}: it holds a store{store}; --force overwrites it"
        ),
        Why::Holds(_) => writeln!(
            out,
            "silt: {file}: it holds other data; --force overwrites it"
        ),
        Why::FewRegions(hashes) => writeln!(
            out,
            "silt: --merge-at: {file} has {hashes} hash regions, and no more hash stores"
        ),
        Why::ShortValues => writeln!(
            out,
            "silt: --resp: {file} has values of 1 byte, and a string needs 2 for its length"
        ),
        Why::OutOfLimits(numbers) => match out_of_limits(numbers) {
            Some(number) => writeln!(out, "silt: {number}"),
            None => Ok(()),
        },
        Why::NoPlan(shards, request) => { writeln!(out, "silt: {}", obstacle_of(*shards, request)) }
        Why::NotListening(socket, error) => writeln!(out, "silt: {socket}: {}", error.error),
        Why::NoReply(socket, error) => write_no_reply(*socket, *error, out),
        _ => Ok(()),
    }
}

// Writes why a server gave no reply.
fn write_no_reply<W: Write>(socket: SocketAddr, why: StreamError, out: &mut W) -> io::Result<()> {
    let StreamError { error } = why;
    match error.kind() {
        ErrorKind::ConnectionRefused => writeln!(out, "silt: nothing listens at {socket}"),
        _ => writeln!(out, "silt: {socket}: {error}"),
    }
}

// Prints the fault of a disk, the damage that begins at this offset, or that there is no store, if the refusal is one of
// these.
fn print_refusal_of<F: Display, W: Write>(
    file: FileName<'_>,
    refusal: &Refusal<F>,
    at: Option<u64>,
    out: &mut W,
) {
    let _ = match refusal {
        Refusal::Device(fault) => writeln!(out, "silt: {file}: {fault}"),
        Refusal::Damaged(place) => write_damage(file, *place, at, out),
        Refusal::NotFormatted => writeln!(
            out,
            "silt: {file}: it is not a silt store; make one with silt format"
        ),
        _ => Ok(()),
    };
}

// Writes that a part of a file is damaged, and where it begins, if that is known.
fn write_damage<W: Write>(
    file: FileName<'_>,
    place: Place,
    at: Option<u64>,
    out: &mut W,
) -> io::Result<()> {
    write!(out, "silt: {file}")?;
    write_place(place, at, out)
}

// Prints the six numbers of a checked store and its charge, if the numbers could be read again.
fn print_store<W: Write>(file: FileName<'_>, store: &HeldStore, out: &mut W) {
    if let (Some(geometry), Some(charge)) = (store.geometry, store.charge) {
        let most = geometry.sorted_capacity();
        let numbers = NumbersText(geometry);
        let _ = writeln!(out, "silt: {file}: {numbers}; charge {charge} of {most}");
    }
}

// Prints what a planned store costs in merging and in memory at rest, and what helps if merging is dear.
fn print_cost<W: Write>(cost: &PlanCost, out: &mut W) {
    let _ = writeln!(out, "silt: {cost}");
    if let Some(remedy) = cost.remedy {
        let _ = writeln!(out, "silt: {remedy}");
    }
}

// Prints why a session broke off, if it did not reach the end of its lines, and which of them were refused.
fn print_session<W: Write>(session: &Session, lines: &InputLines, out: &mut W) {
    match session.error {
        Some(StreamError { error }) => print_broken(&error, out),
        None if session.end == SessionEnd::End => {}
        None => {
            let _ = writeln!(out, "silt: {}", session.end);
        }
    }
    print_refused(session, lines, out);
}

// Prints which lines of a session were refused. The first reply belongs to no line.
fn print_refused<W: Write>(session: &Session, lines: &InputLines, out: &mut W) {
    for kind in 1..KINDS {
        let refusals = session.refused[kind];
        if refusals.count > 0 {
            let _ = write_refusals(out, kind, refusals, lines);
            let _ = if kind == BAD_VALUE {
                write_value_help(out, refusals.count, lines, session.value_len)
            } else {
                writeln!(out, "{}", help_for(kind))
            };
        }
    }
    if lines.has_rest() {
        let _ = writeln!(
            out,
            "silt: the last line has no line feed, and is not answered"
        );
    }
}

// Writes how many lines of an input were refused with this number, and which is the first. The first reply, `opened`,
// belongs to no line.
fn write_refusals<W: Write>(
    writer: &mut W,
    kind: usize,
    refusals: Refusals,
    lines: &InputLines,
) -> io::Result<()> {
    let Refusals { count, first } = refusals;
    let name = name_of(kind);
    let noun = if count == 1 { "line" } else { "lines" };
    write!(writer, "silt: {count} {noun} refused {kind} {name}, ")?;
    match lines.number_of(first.saturating_sub(1)) {
        Some(line) => write!(writer, "first line {line}"),
        None => writer.write_all(b"first far behind many blank lines"),
    }
}

// Writes the end of the line about so many refused values: what a value is here, and, if some of these lines were swaps of
// no value for none, what a swap needs.
fn write_value_help<W: Write>(
    writer: &mut W,
    refused: u64,
    lines: &InputLines,
    value_len: u32,
) -> io::Result<()> {
    let hyphens = lines.empty_swaps();
    if hyphens >= refused {
        return writer.write_all(b"; OLD and NEW of a swap are not both a hyphen\n");
    }
    let digits = 2 * u64::from(value_len);
    write!(
        writer,
        "; a value has {digits} hexadecimal digits here (V is {value_len})"
    )?;
    if hyphens > 0 {
        return writer.write_all(b", and OLD and NEW of a swap are not both a hyphen\n");
    }
    writer.write_all(b"\n")
}

// The name of a refusal of a line, by its number.
fn name_of(kind: usize) -> &'static str {
    match kind {
        5 => "Device",
        6 => "NoMemory",
        7 => "StoreFull",
        8 => "NoRoom",
        9 => "Failed",
        10 => "Spent",
        20 => "BadLine",
        21 => "BadKey",
        22 => "BadValue",
        23 => "LineTooLong",
        _ => "",
    }
}

// What helps against a refusal, whatever the store.
fn help_for(kind: usize) -> &'static str {
    match kind {
        7 => {
            "; merging drops what was overwritten or deleted (run with --tend, or silt tend), and more keys need a larger S"
        }
        8 => "; background work makes room: run with --tend, or silt tend",
        9 => "; an earlier write or sync failed, and running again opens the store anew",
        _ => "",
    }
}
