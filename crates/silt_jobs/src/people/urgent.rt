// What people are told at once, before a job has ended.
ghost use Rattle.std.specs.Prelude.{ℕ, List, ⊤};
ghost use Rattle.silt_jobs.specs.declared.people.urgent.Urgent.{Urgent as UrgentOf};

use crate::jobs::HeldStore;
use crate::people::{AfterProgress, Failure, NoBackup, StreamError};
use silt_care::Finding;
use silt_store_set::{Place, Refusal};
use silt_wire::print_refusal;
use std::alloc::Global;
use std::io::{self, Stderr, Write};
use std::net::SocketAddr;

/// What cannot wait for the end of a job.
#[derive(Drop)]
pub enum Urgent {
    /// This store is overwritten.
    Overwrites(HeldStore),
    /// This call failed, and with it the store, or the store of the shard of this number.
    FailedStore(Failure, Option<u32>),
    /// The store has failed, and so its server ends.
    EndsServer,
    /// A scrub found this, of a part that begins at this offset, if that is known. The text needs memory.
    Scrubbed(Global, Finding, Option<u64>),
    /// The file gives no password.
    NoPassword(StreamError),
    /// The text is no IP address.
    NoAddress,
    /// The server cannot listen on this socket.
    NoPort(SocketAddr, StreamError),
    /// The system gives this socket no connection. The server tries again.
    NotAccepting(SocketAddr, StreamError),
    /// A merge found this part damaged, which begins at this offset, if that is known. The text needs memory.
    Unmerged(Global, Place, Option<u64>),
    /// The file has a backup. The server had accepted this many commands since it was opened when its moment came.
    BackedUp(u64),
    /// No backup was written to the file.
    NotBackedUp(NoBackup),
}

/// Tells people at once what is urgent. No output for programs depends on it.
pub trait Tells {
    /// This was told of the file of this name, or of this text.
    ghost told: { Self → Self → List ℕ → UrgentOf → Type 0 };

    /// Tells this of the file of this name, or of this text.
    fn tell(&mut self, file: &str, urgent: &Urgent)
        ensures { told self.old self.new file.now urgent.now };
}

impl Tells for Stderr {
    ghost told = { λ _ _ _ _. ⊤ };

    fn tell(&mut self, file: &str, urgent: &Urgent) {
        let _ = write_urgent(file, urgent, self);
    }
}

impl<W: Write> Tells for AfterProgress<'_, W> {
    ghost told = { λ _ _ _ _. ⊤ };

    fn tell(&mut self, file: &str, urgent: &Urgent) {
        let _ = write_urgent(file, urgent, self);
    }
}

// Writes a line about what is urgent.
fn write_urgent<W: Write>(file: &str, urgent: &Urgent, out: &mut W) -> io::Result<()> {
    match urgent {
        Urgent::Overwrites(store) => {
            writeln!(out, "silt: {file} holds a store{store}; it is overwritten")
        }
        Urgent::FailedStore(failure, None) => writeln!(
            out,
            "silt: {failure}; the store takes nothing more until it is opened again"
        ),
        Urgent::FailedStore(failure, Some(shard)) => writeln!(
            out,
            "silt: shard {shard}: {failure}; it takes nothing more until it is opened again"
        ),
        Urgent::Scrubbed(alloc, finding, at) => write_scrubbed(*alloc, file, *finding, *at, out),
        Urgent::EndsServer => writeln!(out, "silt: {file}: the store has failed; the server ends"),
        Urgent::NoPassword(StreamError { error }) => writeln!(out, "silt: {file}: {error}"),
        Urgent::NoAddress => writeln!(out, "silt: {file}: it is no IP address"),
        Urgent::NoPort(address, StreamError { error }) => {
            writeln!(out, "silt: {address}: {error}")
        }
        Urgent::NotAccepting(address, StreamError { error }) => writeln!(
            out,
            "silt: {address}: a connection is not accepted: {error}; the server tries again"
        ),
        Urgent::Unmerged(alloc, place, at) => {
            write_damaged(*alloc, file, "merge", *place, *at, out)
        }
        Urgent::BackedUp(commands) => write_backed_up(file, *commands, out),
        Urgent::NotBackedUp(why) => writeln!(out, "silt: {file}: no backup was written: {why}"),
    }
}

// Writes what a scrub found of a part.
fn write_scrubbed<W: Write>(
    alloc: Global,
    file: &str,
    finding: Finding,
    at: Option<u64>,
    out: &mut W,
) -> io::Result<()> {
    match finding {
        Finding::Damaged(place) => write_damaged(alloc, file, "scrub", place, at, out),
        Finding::Unread(place) => write_unread(file, place, at, out),
    }
}

// Writes which region a scrub cannot read, and where it begins, if that is known.
fn write_unread<W: Write>(
    file: &str,
    place: Place,
    at: Option<u64>,
    out: &mut W,
) -> io::Result<()> {
    write!(out, "silt: {file}: a scrub cannot read ")?;
    match place {
        Place::HashDigest(region) => write!(out, "hash region {region}")?,
        _ => out.write_all(b"the sorted region")?,
    }
    match at {
        Some(at) => writeln!(out, ", at byte {at}"),
        None => writeln!(out),
    }
}

// Writes that this work found a damaged part. It names the refusal as a reply does, if there is memory for its text.
fn write_damaged<W: Write>(
    alloc: Global,
    file: &str,
    work: &str,
    place: Place,
    at: Option<u64>,
    out: &mut W,
) -> io::Result<()> {
    write!(out, "silt: {file}: a {work} is ")?;
    match print_refusal(alloc, &Refusal::<()>::Damaged(place)) {
        Ok(refused) => out.write_all(refused.as_bytes())?,
        Err(_) => out.write_all(b"refused")?,
    }
    write_place(place, at, out)
}

// Writes that a file has a backup, and of which moment.
fn write_backed_up<W: Write>(file: &str, commands: u64, out: &mut W) -> io::Result<()> {
    let noun = if commands == 1 { "command" } else { "commands" };
    writeln!(
        out,
        "silt: {file}: a backup is written, of the store as it was when this server had accepted {commands} {noun}"
    )
}

/// Writes the end of a line: what a damaged part is, and where it begins, if that is known.
pub fn write_place<W: Write>(place: Place, at: Option<u64>, out: &mut W) -> io::Result<()> {
    match at {
        Some(at) => writeln!(out, ": {place}, at byte {at}"),
        None => writeln!(out, ": {place}"),
    }
}
