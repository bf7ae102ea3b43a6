// The jobs on a disk of any kind.
ghost use Rattle.std.specs.Prelude.{◌≡◌, ℕ, List, IfOk, Option as OptionOf, codes};
ghost use Rattle.silt_jobs.specs.Common.{Appends, report_text};
ghost use Rattle.silt_jobs.specs.Ended.{HasFailed, RefusesSo};
ghost use Rattle.silt_jobs.specs.Jobs.{AnswersLines, AnswersReader, Checks, EndsSession, EndsTending, Formats, PrintsUntended, RunsOpened, TendsOpened};
ghost use Rattle.silt_jobs.specs.Jobs.{formatted_line, run_status, session_error, tended_line};

use crate::jobs::{
    HeldStore, Steps, Tended, Tending, damage_at, geometry_on, has_few_regions, refuse_few_regions,
    tend_all,
};
use crate::people::{
    Ended, Failures, Found, KeepsError, KeepsLines, KeepsTally, Session, StreamError, Tally,
    Watched, Why, refuse, write_out,
};
use silt_disk::{Disk, Geometry};
use silt_event::Report;
use silt_recovery::{check, format};
use silt_store_set::{Core, Refusal};
use silt_wire::{SessionEnd, session, write_report};
use silt_words::RunOptions;
use std::alloc::Global;
use std::io::{self, Read, Write};

/// One life of an opened store, a run from its opening to the end of the lines: it replies to the reader's lines to their
/// end. The end flushes nothing. Returns the disk, and how the job ended, with the status 0 at the end of the lines, and 1
/// if the store has fewer hash regions than `merge_at`, or the session breaks off. It breaks off if a read or write fails,
/// or if it is out of memory for a line or for the text of a reply. With `tend` it does the background work that is due
/// before each line. If a step of that is refused, it does no more of it, writes the refusal behind the replies, and the
/// status is 1. With `strict` the status is 3 at the end of the lines if a reply was a refusal.
pub fn run_opened<E: Drop, D: Tended + Watched, R: KeepsLines, W: KeepsTally>(
    alloc: Global,
    core: Core<D>,
    options: RunOptions,
    reader: &mut R,
    writer: &mut W,
) -> (D, Ended<E, D::Fault>)
    ensures { RunsOpened D.Disk (HasFailed D.kept_read D.last_failure) W.contents W.kept_error W.kept_tally options (R.kept_error reader.new) core result.0 result.1
        (R.remaining reader.old) (R.remaining reader.new) writer.old writer.new }
{
    if has_few_regions(&core, options.merge_at) {
        return refuse_few_regions(alloc, core, writer);
    }
    let value_len = core.geometry().value_len();
    let (core, end, refusal) = answer_reader(alloc, core, options, reader, writer);
    let disk = core.close();
    let failures = Failures::of(&disk);
    let session = EndedSession {
        end,
        refusal,
        failures,
        value_len,
    };
    (disk, end_session(alloc, session, options, reader, writer))
}

// Writes that the store is opened, and replies to the reader's lines to their end. Returns the store, how the session ended,
// and why background work was refused, if it was.
fn answer_reader<D: Tended, R: Read, W: Write>(
    alloc: Global,
    core: Core<D>,
    options: RunOptions,
    reader: &mut R,
    writer: &mut W,
) -> (Core<D>, io::Result<SessionEnd>, Option<Refusal<()>>)
    ensures { IfOk result.1 (λ end. AnswersReader D.Disk W.contents options end result.2 core result.0
        (R.remaining reader.old) (R.remaining reader.new) writer.old writer.new) }
{
    match write_out(b"opened\n", writer) {
        Ok(()) => {
            let (core, end, refusal) = answer_lines(alloc, core, options, reader, writer);
            (core, Ok(end), refusal)
        }
        Err(error) => (core, Err(error), None),
    }
}

/// A session that ended, or that did not begin since the writer failed.
#[derive(Drop)]
pub struct EndedSession {
    pub end: io::Result<SessionEnd>,
    /// Why background work was refused, if it was.
    pub refusal: Option<Refusal<()>>,
    /// The calls of its disks that failed.
    pub failures: Failures,
    /// The bytes of a value of its store.
    pub value_len: u32,
}

/// How a job ended by its session. It writes behind the replies why background work was refused, if it was.
pub fn end_session<E: Drop, F: Drop, R: KeepsError, W: KeepsTally>(
    alloc: Global,
    session: EndedSession,
    options: RunOptions,
    reader: &R,
    writer: &mut W,
) -> Ended<E, F>
    ensures { EndsSession W.contents W.kept_error W.kept_tally options (R.kept_error reader.now) session result writer.old writer.new }
{
    let end = match session.end {
        Ok(end) => end,
        Err(error) => return Ended {
            failures: session.failures,
            ..Ended::plain(Err(error))
        },
    };
    let found = Session {
        end,
        error: session_error(end, reader, writer),
        refused: writer.tally().refused(),
        value_len: session.value_len,
    };
    let status = run_status(options, writer.tally(), end, session.refusal);
    let status = write_untended(alloc, end, session.refusal, status, writer);
    Ended {
        found: Some(Found::Session(found)),
        failures: session.failures,
        ..Ended::plain(status)
    }
}

// The error of the reader or the writer of a session that ended so, if that is why it broke off.
fn session_error<R: KeepsError, W: KeepsError>(
    end: SessionEnd,
    reader: &R,
    writer: &W,
) -> Option<StreamError>
    ensures { result ≡ session_error end (R.kept_error reader.now) (W.kept_error writer.now) }
{
    match end {
        SessionEnd::ReadFault => reader.kept_error(),
        SessionEnd::WriteFault => writer.kept_error(),
        SessionEnd::End | SessionEnd::NoMemory => None,
    }
}

// Replies to the reader's lines to their end, or until a read or write fails or memory runs out. Returns the store, how
// the session ended, and why background work was refused, if it was.
fn answer_lines<D: Tended, R: Read, W: Write>(
    alloc: Global,
    mut core: Core<D>,
    options: RunOptions,
    reader: &mut R,
    writer: &mut W,
) -> (Core<D>, SessionEnd, Option<Refusal<()>>)
    ensures { AnswersLines D.Disk options result.1 result.2 core result.0
        (R.remaining reader.old) (R.remaining reader.new) (W.contents writer.old) (W.contents writer.new) }
{
    let value_len = core.geometry().value_len() as usize;
    if options.tend {
        let mut tending = Tending::new(core, options.merge_at);
        let end = session(alloc, value_len, reader, writer, &mut tending);
        let refusal = tending.refusal();
        return (tending.into_core(), end, refusal);
    }
    let end = session(alloc, value_len, reader, writer, &mut core);
    (core, end, None)
}

// The status of a run by the end of its session, by its background work and, if the run is strict, by its replies.
fn run_status(
    options: RunOptions,
    tally: &Tally,
    end: SessionEnd,
    refusal: Option<Refusal<()>>,
) -> u8
    ensures { result ≡ run_status options tally.now end refusal }
{
    match end {
        _ if refusal.is_some() => 1,
        SessionEnd::End if options.strict && tally.has_refusals() => 3,
        SessionEnd::End => 0,
        _ => 1,
    }
}

// Writes behind the replies why background work was refused, if it was, unless the writer has failed. Returns the status.
fn write_untended<W: Write>(
    alloc: Global,
    end: SessionEnd,
    refusal: Option<Refusal<()>>,
    status: u8,
    writer: &mut W,
) -> io::Result<u8>
    ensures { IfOk result (λ printed. (printed ≡ status) × PrintsUntended W.contents end refusal writer.old writer.new) }
{
    match (end, refusal) {
        (SessionEnd::WriteFault, _) => {}
        (_, Some(untended)) => {
            refuse(alloc, &untended, writer)?;
        }
        (_, None) => {}
    }
    Ok(status)
}

/// Writes the report of the store on a disk, in numbers. The status is 0 after the report, and 1 if the device is refused.
pub fn check_on<E: Drop, D: Disk, W: Write>(
    alloc: Global,
    disk: &D,
    writer: &mut W,
) -> Ended<E, D::Fault>
    ensures { Checks D.Disk disk.now result (W.contents writer.old) (W.contents writer.new) }
{
    match check(alloc, disk) {
        Ok(report) => {
            let store = HeldStore {
                geometry: geometry_on(disk),
                charge: Some(report.charge),
            };
            Ended {
                found: Some(Found::Store(store)),
                ..Ended::plain(write_checked(alloc, &report, writer))
            }
        }
        Err(error) => refuse_disk(alloc, disk, Refusal::from(error), writer),
    }
}

// Writes a report, and returns the status.
fn write_checked<W: Write>(alloc: Global, report: &Report, writer: &mut W) -> io::Result<u8>
    ensures { IfOk result (λ status. (status ≡ 0) × Appends (W.contents writer.old) (W.contents writer.new) (report_text report.now)) }
{
    write_report(alloc, report, writer)?;
    writer.flush()?;
    Ok(0)
}

/// Refuses a job on a disk so, with the offset of the damage, if that is known.
pub fn refuse_disk<E: Drop, D: Disk, W: Write>(
    alloc: Global,
    disk: &D,
    refusal: Refusal<D::Fault>,
    writer: &mut W,
) -> Ended<E, D::Fault>
    ensures { RefusesSo refusal result (W.contents writer.old) (W.contents writer.new) }
{
    let at = damage_at(disk, &refusal);
    Ended::refuse(alloc, Why::Refused(refusal, at), writer)
}

/// Does all background work of an opened store. Returns the disk, and how the job ended, with the status 0 after the line
/// with the number of steps, and 1 if the store has fewer hash regions than `merge_at`, or a step is refused.
pub fn tend_opened<E: Drop, D: Watched, W: Write>(
    alloc: Global,
    mut core: Core<D>,
    merge_at: Option<u32>,
    writer: &mut W,
) -> (D, Ended<E, D::Fault>)
    ensures { TendsOpened D.Disk (HasFailed D.kept_read D.last_failure) merge_at core result.0 result.1 (W.contents writer.old) (W.contents writer.new) }
{
    if has_few_regions(&core, merge_at) {
        return refuse_few_regions(alloc, core, writer);
    }
    let status = tend_core(alloc, &mut core, merge_at, writer);
    let disk = core.close();
    let ended = Ended {
        failures: Failures::of(&disk),
        ..Ended::plain(status)
    };
    (disk, ended)
}

// Writes that the store is opened, does all its background work, and writes how many steps it took, or why one was
// refused.
fn tend_core<D: Disk, W: Write>(
    alloc: Global,
    core: &mut Core<D>,
    merge_at: Option<u32>,
    writer: &mut W,
) -> io::Result<u8>
    ensures { IfOk result (λ status. (opened : OptionOf (List ℕ)) × Appends (W.contents writer.old) opened (codes "opened\n")
        × EndsTending D.Disk merge_at core.old core.new status opened (W.contents writer.new)) }
{
    write_out(b"opened\n", writer)?;
    match tend_all(alloc, core, merge_at) {
        Ok(steps) => write_steps(alloc, steps, writer),
        Err(refusal) => refuse(alloc, &refusal, writer),
    }
}

// Writes how many steps were done, and returns the status.
fn write_steps<W: Write>(alloc: Global, steps: Steps, writer: &mut W) -> io::Result<u8>
    ensures { IfOk result (λ status. (status ≡ 0) × Appends (W.contents writer.old) (W.contents writer.new) (tended_line steps)) }
{
    let Steps { converted, merged } = steps;
    let line = format!(in alloc; "converted {converted} steps, merged {merged} steps\n")?;
    write_out(line.as_bytes(), writer)?;
    Ok(0)
}

/// Makes an empty store of this geometry on a disk, and writes the disk's length. Returns the disk, and how the job ended,
/// with the status 0 after the length, and 1 if the disk is not formatted. It may be formatted if the writer failed.
pub fn format_on<E: Drop, D: Disk, W: Write>(
    alloc: Global,
    disk: D,
    geometry: Geometry,
    writer: &mut W,
) -> (D, Ended<E, D::Fault>)
    ensures { Formats D.Disk geometry disk result.0 result.1 (W.contents writer.old) (W.contents writer.new) }
{
    match format(alloc, disk, geometry) {
        Ok(disk) => {
            let status = write_formatted(alloc, geometry.size(), writer);
            (disk, Ended::plain(status))
        }
        Err(fault) => {
            let why = Why::Refused(Refusal::from(fault.error), None);
            (fault.disk, Ended::refuse(alloc, why, writer))
        }
    }
}

// Writes the length of a device that was formatted, and returns the status.
fn write_formatted<W: Write>(alloc: Global, bytes: u64, writer: &mut W) -> io::Result<u8>
    ensures { IfOk result (λ status. (status ≡ 0) × Appends (W.contents writer.old) (W.contents writer.new) (formatted_line bytes)) }
{
    let line = format!(in alloc; "formatted {bytes}\n")?;
    write_out(line.as_bytes(), writer)?;
    Ok(0)
}
