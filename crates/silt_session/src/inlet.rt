// The reader of one session, and how long its reads and writes wait.
ghost use Rattle.std.specs.Prelude.{◌≡◌};
ghost use Rattle.silt_session.specs.Silences.{is_silent};

use crate::board::Board;
use std::io::{self, ErrorKind, Read};
use std::net::{Shutdown, TcpStream};
use std::sync::Wait;
use std::time::{Clock, Duration, Instant};

/// How many seconds one read or write of a connection waits at most. Then it is looked whether the server ends, and whether the
/// client was silent for too long.
const TICK: u64 = 1;

/// How many reads pass over what a client sent too late, and for how many milliseconds each waits.
const LATE_READS: u32 = 256;

const LATE_WAIT: u64 = 250;

/// Has each read and each write of a connection wait for a tick at most.
///
/// # Errors
///
/// The system's.
pub fn wait_by_ticks(stream: &TcpStream) -> io::Result<()> {
    let tick = Some(Duration::from_secs(TICK));
    stream.set_read_timeout(tick)?;
    stream.set_write_timeout(tick)
}

/// Whether a read or a write failed because a tick has passed.
pub(crate) fn is_tick(error: &io::Error) -> bool {
    matches!(error.kind(), ErrorKind::WouldBlock | ErrorKind::TimedOut)
}

/// Whether a client was silent for too long, after so many ticks. If `idle` is None or 0, it may be silent for ever.
pub(crate) fn is_silent(idle: Option<u32>, ticks: u32) -> bool
    ensures { result ≡ is_silent idle ticks }
{
    match idle {
        None | Some(0) => false,
        Some(seconds) => seconds <= ticks,
    }
}

/// Reads from a connection whose reads wait by ticks. It is at its end once the server ends, and a read fails if its client is silent
/// for too long.
#[derive(Drop)]
pub struct Inlet<'a, R> {
    pub rt: &'a R,
    pub stream: &'a TcpStream,
    pub board: &'a Board,
    /// After how many seconds a silent connection is closed. If None or 0, never.
    pub idle: Option<u32>,
}

impl<R: Wait> Read for Inlet<'_, R> {
    fn read(&mut self, buf: &mut [u8]) -> io::Result<usize> {
        let mut stream = self.stream;
        let mut ticks = 0_u32;
        for _ in self.rt.forever() {
            if self.board.is_ending() {
                return Ok(0);
            }
            match stream.read(buf) {
                Err(error) if is_tick(&error) => {
                    ticks = ticks.saturating_add(1);
                    if is_silent(self.idle, ticks) {
                        return Err(error);
                    }
                }
                got => return got,
            }
        }
        unreachable!()
    }
}

// Whether a tick has passed since this moment, or the clock cannot say.
fn has_ticked<R: Clock>(rt: &R, began: Instant) -> bool {
    match Instant::now(rt) {
        Ok(now) => now.saturating_duration_since(began).as_secs() >= TICK,
        Err(_) => true,
    }
}

// Passes over what comes, until the client ends or is silent for a while, for a tick in all.
fn pass_over<R: Clock>(rt: &R, stream: &TcpStream, buffer: &mut [u8]) {
    let Ok(began) = Instant::now(rt) else {
        return;
    };
    let mut stream = stream;
    for _ in 0..LATE_READS {
        if has_ticked(rt, began) || !matches!(stream.read(buffer), Ok(count) if count > 0) {
            return;
        }
    }
}

// Closes a connection for writing. Its reads wait for a short while from now on.
fn end_writing(stream: &TcpStream) -> io::Result<()> {
    stream.set_nonblocking(false)?;
    stream.set_read_timeout(Some(Duration::from_millis(LATE_WAIT)))?;
    stream.shutdown(Shutdown::Write)
}

/// Ends a connection from which no more is read. If its client has sent more, the connection is closed for writing alone, and what
/// comes is passed over for a short while: a connection that is closed with unread bytes may lose its last replies.
pub fn end_gently<R: Clock>(rt: &R, stream: &TcpStream, buffer: &mut [u8]) {
    if stream.set_nonblocking(true).is_err() {
        return;
    }
    let mut unread = stream;
    if !matches!(unread.read(buffer), Ok(count) if count > 0) {
        return;
    }
    if end_writing(stream).is_ok() {
        pass_over(rt, stream, buffer);
    }
}
