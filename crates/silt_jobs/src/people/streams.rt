// Readers and writers that keep the error of their last call, and what people are told of their lines.
ghost use Rattle.std.specs.Prelude.{◌≡◌, Option, Some, None, IfErr, IfOk, take};
ghost use Rattle.silt_jobs.specs.Common.{Keeps, ReadConsumes, WriteAppends, ReadsAtMost, WritesAtMost};
ghost use Rattle.silt_jobs.specs.declared.people.input_lines.InputLines.{InputLines as InputLinesOf};
ghost use Rattle.silt_jobs.specs.declared.people.streams.StreamError.{StreamError as StreamErrorOf};
ghost use Rattle.silt_jobs.specs.declared.people.tally.Tally.{Tally as TallyOf};
ghost use Rattle.silt_jobs.specs.Tally.{tally_of, unreported};

use crate::people::{InputLines, Tally};
use std::alloc::Global;
use std::fmt;
use std::io::{self, Read, Write};

/// A standard stream.
#[derive(Clone, Copy, Debug, PartialEq, Eq)]
pub enum Stream {
    Input,
    Output,
    Error,
}

// Why a file cannot be a store.
impl fmt::Display for Stream {
    fn fmt<W: fmt::Write>(&self, f: &mut fmt::Formatter<W>) -> fmt::Result {
        let name = match self {
            Stream::Input => "input",
            Stream::Output => "output",
            Stream::Error => "error",
        };
        write!(f, "the file is also this program's standard {name}")
    }
}

/// Why a reader or a writer failed.
#[derive(Clone, Copy, Debug)]
pub struct StreamError {
    pub error: io::Error,
}

/// A reader or a writer that keeps the error of its last call.
pub trait KeepsError {
    /// The error of the last call, if that failed.
    ghost kept_error: { Self → Option StreamErrorOf };

    /// The error of the last call, if that failed.
    fn kept_error(&self) -> Option<StreamError>
        ensures { result ≡ kept_error self.now };
}

/// A reader that keeps its error and facts about its lines.
pub trait KeepsLines: Read + KeepsError {
    /// The lines that were read.
    ghost kept_lines: { Self → InputLinesOf };

    /// The lines that were read.
    fn lines(&self) -> &InputLines
        ensures { result.now ≡ kept_lines self.now };
}

/// A writer that keeps its error and which of its lines are refusals.
pub trait KeepsTally: Write + KeepsError {
    /// The lines that were written.
    ghost kept_tally: { Self → TallyOf };

    /// The lines that were written.
    fn tally(&self) -> &Tally
        ensures { result.now ≡ kept_tally self.now };
}

/// A reader that keeps the error of its last read, and passes on what it reads unchanged.
#[derive(Drop)]
pub struct WatchedReader<R> {
    reader: R,
    error: Option<StreamError>,
    lines: InputLines,
}

impl<R> WatchedReader<R> {
    /// A watched reader with no failed read.
    pub fn new(alloc: Global, reader: R) -> Self
        ensures { (result.reader ≡ reader) × (result.error ≡ None) }
    {
        WatchedReader {
            reader,
            error: None,
            lines: InputLines::new(alloc),
        }
    }
}

impl<R: Read> Read for WatchedReader<R> {
    ghost remaining = { λ watched. R.remaining watched.reader };

    fn read(&mut self, buf: &mut [u8]) -> io::Result<usize>
        ensures bound { ReadsAtMost result buf.new }
        ensures bytes { ReadConsumes (R.remaining self.old.reader) (R.remaining self.new.reader) result buf.new }
        ensures kept { IfErr result (λ error. self.new.error ≡ Some (record { error = error })) }
    {
        let read = self.reader.read(buf);
        self.error = read.err().map(|error| StreamError { error });
        self.lines.take(&buf[..read?]);
        read
    }
}

impl<R> KeepsError for WatchedReader<R> {
    ghost kept_error = { λ watched. watched.error };

    fn kept_error(&self) -> Option<StreamError> {
        self.error
    }
}

impl<R: Read> KeepsLines for WatchedReader<R> {
    ghost kept_lines = { λ watched. watched.lines };

    fn lines(&self) -> &InputLines {
        &self.lines
    }
}

/// A writer that keeps the error of its last write or flush, and passes on its bytes unchanged.
#[derive(Drop)]
pub struct WatchedWriter<W> {
    writer: W,
    error: Option<StreamError>,
    tally: Tally,
}

impl<W> WatchedWriter<W> {
    /// A watched writer with no failed write.
    pub fn new(writer: W) -> Self
        ensures { (result.writer ≡ writer) × (result.error ≡ None) × (result.tally ≡ unreported) }
    {
        WatchedWriter {
            writer,
            error: None,
            tally: Tally::new(),
        }
    }
}

impl<W: Write> Write for WatchedWriter<W> {
    ghost contents = { λ watched. W.contents watched.writer };

    fn write(&mut self, buf: &[u8]) -> io::Result<usize>
        ensures bound { WritesAtMost result buf.now }
        ensures bytes { WriteAppends (W.contents self.old.writer) (W.contents self.new.writer) result buf.now }
        ensures tallied { IfOk result (λ count. self.new.tally ≡ tally_of self.old.tally (take count buf.now)) }
        ensures kept { IfErr result (λ error. self.new.error ≡ Some (record { error = error })) }
    {
        let written = self.writer.write(buf);
        self.error = written.err().map(|error| StreamError { error });
        self.tally.take(&buf[..written?]);
        written
    }

    fn flush(&mut self) -> io::Result<()>
        ensures bytes { Keeps (W.contents self.old.writer) (W.contents self.new.writer) }
        ensures kept { IfErr result (λ error. self.new.error ≡ Some (record { error = error })) }
    {
        let flushed = self.writer.flush();
        self.error = flushed.err().map(|error| StreamError { error });
        flushed
    }
}

impl<W> KeepsError for WatchedWriter<W> {
    ghost kept_error = { λ watched. watched.error };

    fn kept_error(&self) -> Option<StreamError> {
        self.error
    }
}

impl<W: Write> KeepsTally for WatchedWriter<W> {
    ghost kept_tally = { λ watched. watched.tally };

    fn tally(&self) -> &Tally {
        &self.tally
    }
}
