// The progress of the opening of a store, or of the making of its file, for people.
ghost use Rattle.std.specs.Prelude.{◌≡◌, ◌-◌, ◌%◌, nat_le};
ghost use Rattle.silt_jobs.specs.Common.{Keeps, WriteAppends, WritesAtMost};

use silt_device::Filling;
use std::io::{self, Stderr, Write};
use std::sync::atomic::{AtomicBool, AtomicU64, Ordering};

/// The line is written again after reads of this cost, 16 MiB or 65,536 heads of rows, or after 16 MiB that were written.
const STEP: u64 = 16_777_216;

/// The least cost of a read.
const LEAST: usize = 256;

/// The progress of an opening, or of the making of a file, as one line of a terminal. The line is written again when much
/// more was read or written, and ends before any other note or reply. What is short shows none. The disk reports its reads
/// here, and a new file what was written of it; no contract speaks of it.
#[derive(Drop)]
pub struct Progress {
    terminal: Option<Stderr>,
    bytes: AtomicU64,
    cost: AtomicU64,
    // The length of the file in the last line.
    len: AtomicU64,
    // Whether a file is being made.
    is_filling: AtomicBool,
    is_shown: AtomicBool,
    is_over: AtomicBool,
}

impl Progress {
    /// The progress of an opening that has read nothing. Without a terminal nothing is shown.
    pub fn new(terminal: Option<Stderr>) -> Self {
        Progress {
            terminal,
            bytes: AtomicU64::new(0),
            cost: AtomicU64::new(0),
            len: AtomicU64::new(0),
            is_filling: AtomicBool::new(false),
            is_shown: AtomicBool::new(false),
            is_over: AtomicBool::new(false),
        }
    }

    /// This many bytes were read from a file of this length.
    pub fn add(&self, count: usize, len: u64) {
        if let Some(bytes) = self.take(count) {
            self.show(bytes, len);
        }
    }

    // Counts this many more bytes. Returns how many there are now, if the line is due.
    fn take(&self, count: usize) -> Option<u64> {
        if self.is_over.load(Ordering::SeqCst) {
            return None;
        }
        let cost = count.max(LEAST) as u64;
        let before = self.cost.fetch_add(cost, Ordering::SeqCst);
        let bytes = self.bytes.fetch_add(count as u64, Ordering::SeqCst);
        if is_due(before, cost) {
            return Some(bytes.wrapping_add(count as u64));
        }
        None
    }

    // Writes the line again.
    fn show(&self, bytes: u64, len: u64) {
        if let Some(mut terminal) = self.terminal {
            let _ = write_line(&mut terminal, self.is_filling(), bytes, len);
            self.len.store(len, Ordering::SeqCst);
            self.is_shown.store(true, Ordering::SeqCst);
        }
    }

    /// The opening is over. A line on the terminal is written again and ended, and no more are shown.
    pub fn end(&self) {
        if self.is_over.load(Ordering::SeqCst) {
            return;
        }
        self.is_over.store(true, Ordering::SeqCst);
        if let (Some(mut terminal), true) = (self.terminal, self.is_shown.load(Ordering::SeqCst)) {
            let bytes = self.bytes.load(Ordering::SeqCst);
            let len = self.len.load(Ordering::SeqCst);
            let _ = write_end(&mut terminal, self.is_filling(), bytes, len);
        }
    }

    // Whether a file is being made.
    fn is_filling(&self) -> bool {
        self.is_filling.load(Ordering::SeqCst)
    }
}

impl Filling for &Progress {
    fn filled(&self, count: usize, len: u64) {
        if !self.is_filling() {
            // What was read of an old file before it is overwritten does not count.
            self.end();
            self.is_shown.store(false, Ordering::SeqCst);
            self.is_over.store(false, Ordering::SeqCst);
            self.bytes.store(0, Ordering::SeqCst);
            self.cost.store(0, Ordering::SeqCst);
            self.is_filling.store(true, Ordering::SeqCst);
        }
        self.add(count, len);
    }
}

// Whether a read of this cost reaches the next step.
fn is_due(before: u64, cost: u64) -> bool
    ensures { result ≡ nat_le (16777216 - before % 16777216) cost }
{
    STEP - before % STEP <= cost
}

// Writes how many bytes were read from a file of this length, or written of a new one, over the old line.
fn write_line<W: Write>(to: &mut W, is_filling: bool, bytes: u64, len: u64) -> io::Result<()> {
    let (done, whole) = (bytes >> 20, len >> 20);
    if is_filling {
        return write!(to, "\rsilt: new file: {done} MiB written of {whole} MiB");
    }
    write!(
        to,
        "\rsilt: opening: {done} MiB read of a file of {whole} MiB"
    )
}

// Writes how many bytes were read or written in all, and ends the line.
fn write_end<W: Write>(to: &mut W, is_filling: bool, bytes: u64, len: u64) -> io::Result<()> {
    write_line(to, is_filling, bytes, len)?;
    if is_filling {
        return to.write_all(b"\n");
    }
    to.write_all(b", 100 percent of what it needs\n")
}

/// A writer that ends the line of an opening before it writes its first bytes.
#[derive(Drop)]
pub struct AfterProgress<'a, W> {
    writer: W,
    progress: &'a Progress,
}

impl<'a, W> AfterProgress<'a, W> {
    /// This writer, which ends the line of this progress.
    pub fn new(writer: W, progress: &'a Progress) -> AfterProgress<'a, W>
        ensures { result.writer ≡ writer }
    {
        AfterProgress { writer, progress }
    }
}

impl<W: Write> Write for AfterProgress<'_, W> {
    ghost contents = { λ after. W.contents after.writer };

    fn write(&mut self, buf: &[u8]) -> io::Result<usize>
        ensures bound { WritesAtMost result buf.now }
        ensures bytes { WriteAppends (W.contents self.old.writer) (W.contents self.new.writer) result buf.now }
    {
        self.progress.end();
        self.writer.write(buf)
    }

    fn flush(&mut self) -> io::Result<()>
        ensures bytes { Keeps (W.contents self.old.writer) (W.contents self.new.writer) }
    {
        self.writer.flush()
    }
}
