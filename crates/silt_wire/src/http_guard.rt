// A session for a client, which does not reply to HTTP requests. A web page can make a browser send one to a port of
// its own machine, and each line of its body would be a line of ours.
ghost use Rattle.std.specs.Prelude.{◌≡◌, true, ◌≤◌, ◌<◌, ◌++◌, ℕ, List, Option, [], IfSome, length, take};
ghost use Rattle.std.specs.Io.KnownBytes.{Appends};
ghost use Rattle.silt_wire.specs.Http.{Guards, IsHttp, guard_remaining, handed_on, is_passed, is_turned_away, line_after, open_after};
ghost use Rattle.silt_event.specs.Queries.{AnswersQuery};
ghost use Rattle.silt_wire.specs.Sessions.{Ends};

use crate::sessions::{SessionEnd, session_over};
use silt_event::Answerer;
use std::alloc::Global;
use std::io::{self, Read, Write};

/// The first line of an HTTP request has these bytes. No line with a valid request has them, since no key and no value
/// begins with them.
const MARK: [u8; 6] = *b" HTTP/";

/// What is known of the first line of a client.
#[derive(Clone, Copy)]
pub enum FirstLine {
    /// It is in progress, and its last bytes are the first ones of the mark, this many.
    Open(usize),
    /// It has ended without the mark.
    Passed,
    /// It has the mark.
    Refused,
}

impl FirstLine {
    // What is known after one more byte.
    fn after(self, byte: u8) -> FirstLine
        ensures { result ≡ line_after self byte }
    {
        match self {
            FirstLine::Open(matched) => open_after(matched, byte),
            FirstLine::Passed => FirstLine::Passed,
            FirstLine::Refused => FirstLine::Refused,
        }
    }

    fn is_turned_away(self) -> bool
        ensures { result ≡ is_turned_away self }
    {
        matches!(self, FirstLine::Refused)
    }

    fn is_passed(self) -> bool
        ensures { result ≡ is_passed self }
    {
        matches!(self, FirstLine::Passed)
    }
}

// The state of a first line after one more byte, if its last bytes were the first ones of the mark, this many.
fn open_after(matched: usize, byte: u8) -> FirstLine
    ensures { result ≡ open_after matched byte }
{
    if byte == b'\n' {
        return FirstLine::Passed;
    }
    if byte == b' ' {
        return FirstLine::Open(1);
    }
    if matched >= MARK.len() || byte != MARK[matched] {
        return FirstLine::Open(0);
    }
    if matched == 5 {
        FirstLine::Refused
    } else {
        FirstLine::Open(matched + 1)
    }
}

// What is known after these bytes, and how many of them are passed on.
fn look_through(line: FirstLine, bytes: &[u8]) -> (FirstLine, usize)
    ensures given { (rest : List ℕ) → handed_on line (bytes.now ++ rest) ≡ take result.1 bytes.now ++ handed_on result.0 rest }
    ensures count { result.1 ≤ length bytes.now }
    ensures none { result.1 ≡ 0 → 0 < length bytes.now → is_turned_away result.0 ≡ true }
{
    if line.is_passed() {
        return (line, bytes.len());
    }
    let mut line = line;
    for at in 0..bytes.len() {
        line = line.after(bytes[at]);
        if line.is_turned_away() {
            return (line, at);
        }
    }
    (line, bytes.len())
}

/// Passes on the bytes of a reader, but ends at an HTTP request, before any line of the request has ended.
#[derive(Drop)]
pub struct HttpGuard<R> {
    inner: R,
    line: FirstLine,
}

impl<R: Read> HttpGuard<R> {
    ghost use Rattle.silt_wire.specs.Http.{Guards, guard_remaining};

    /// A guard of a reader that has not been read yet.
    pub fn new(inner: R) -> HttpGuard<R>
        ensures { Guards (R.remaining inner) (guard_remaining R.remaining result) }
    {
        HttpGuard {
            inner,
            line: FirstLine::Open(0),
        }
    }
}

impl<R: Read> Read for HttpGuard<R> {
    ghost use Rattle.silt_wire.specs.Http.{guard_remaining};

    ghost remaining = { guard_remaining R.remaining };

    fn read(&mut self, buf: &mut [u8]) -> io::Result<usize> {
        if self.line.is_turned_away() {
            return Ok(0);
        }
        let count = self.inner.read(buf)?;
        let (line, given) = look_through(self.line, &buf[..count]);
        self.line = line;
        Ok(given)
    }
}

/// Replies to the lines of a client as `session_over` does. It writes no reply to an HTTP request, and ends at its first
/// line.
pub fn client_session<A: Answerer, R: Read + Drop, W: Write>(
    alloc: Global,
    value_len: usize,
    buffer: &mut [u8],
    reader: R,
    writer: &mut W,
    answerer: &mut A,
) -> SessionEnd
    requires len { A.value_len answerer.old ≡ value_len }
    requires room { 0 < length buffer.old }
    ensures ends { (given : Option (List ℕ)) × (left : Option (List ℕ)) × Guards (R.remaining reader) given
        × Ends (AnswersQuery A.answers A.administers) result value_len
        (record { answerer = answerer.old; remaining = given; contents = W.contents writer.old })
        (record { answerer = answerer.new; remaining = left; contents = W.contents writer.new }) }
    ensures http { IfSome (R.remaining reader) (λ bytes. IsHttp bytes → (answerer.new ≡ answerer.old) × Appends (W.contents writer.old) (W.contents writer.new) []) }
{
    let mut guard = HttpGuard::new(reader);
    session_over(alloc, value_len, buffer, &mut guard, writer, answerer)
}
