// The writer of one session.

use crate::board::Board;
use crate::inlet::{is_silent, is_tick};
use std::io::{self, ErrorKind, Write};
use std::net::TcpStream;
use std::sync::Wait;
use std::sync::atomic::{AtomicU64, Ordering};

/// For how many ticks a server that ends waits for a client that does not take its replies.
const LAST_TICKS: u32 = 2;

/// Writes to a connection whose writes wait by ticks, until it is cut, or until its client takes nothing for too long. Once the server
/// ends, the client has two more ticks.
#[derive(Drop)]
pub struct Outlet<'a, R> {
    rt: &'a R,
    stream: &'a TcpStream,
    cut: &'a AtomicU64,
    board: &'a Board,
    idle: Option<u32>,
    late: u32,
}

impl<'a, R> Outlet<'a, R> {
    /// The writer of a connection. It fails once its client takes nothing for `idle` seconds; if that is None or 0, never.
    pub fn new(
        rt: &'a R,
        stream: &'a TcpStream,
        cut: &'a AtomicU64,
        board: &'a Board,
        idle: Option<u32>,
    ) -> Outlet<'a, R> {
        Outlet {
            rt,
            stream,
            cut,
            board,
            idle,
            late: 0,
        }
    }

    // Counts a tick in which not all was taken, if the server ends. Returns whether the client has no more.
    fn is_late(&mut self) -> bool {
        if self.board.is_ending() {
            self.late = self.late.saturating_add(1);
        }
        self.late >= LAST_TICKS
    }
}

impl<R: Wait> Write for Outlet<'_, R> {
    fn write(&mut self, buf: &[u8]) -> io::Result<usize> {
        let mut ticks = 0_u32;
        for _ in self.rt.forever() {
            if self.cut.load(Ordering::SeqCst) != 0 || self.late >= LAST_TICKS {
                return Err(io::Error::from(ErrorKind::BrokenPipe));
            }
            match self.stream.write(buf) {
                Err(error) if is_tick(&error) => {
                    ticks = ticks.saturating_add(1);
                    if self.is_late() || is_silent(self.idle, ticks) {
                        return Err(error);
                    }
                }
                Ok(count) if count < buf.len() => {
                    let _ = self.is_late();
                    return Ok(count);
                }
                written => return written,
            }
        }
        unreachable!()
    }

    fn flush(&mut self) -> io::Result<()> {
        self.stream.flush()
    }
}
