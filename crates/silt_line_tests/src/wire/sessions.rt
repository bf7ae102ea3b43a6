// Sessions over readers and writers that take few bytes at a time, are interrupted or fail, and sessions with long
// replies.
ghost use Rattle.std.specs.Prelude.{◌≡◌, ℕ};
ghost use Rattle.silt_event.specs.declared.admin.Admin.{Admin as AdminOf};
ghost use Rattle.silt_event.specs.declared.admin.AdminReply.{AdminReply as AdminReplyOf};
ghost use Rattle.silt_event.specs.declared.event.Event.{Event as EventOf};
ghost use Rattle.silt_event.specs.Events.{PlainReply};

use silt_event::{Admin, AdminReply, Answerer, Event, Refusal, Reply};
use silt_frame::Value;
use silt_wire::{SessionEnd, session};
use std::alloc::{AllocError, Global};
use std::io::{self, Cursor, ErrorKind, Read, Write};
use std::process::Abort;
use std::test::Fail;

// Accepts each event, and counts them. Its values have two bytes.
#[derive(Drop)]
struct Counter {
    count: u64,
}

impl Answerer for Counter {
    ghost value_len = { λ _. 2 };

    ghost answers = { λ old new event reply. Unit {0} };

    ghost administers = { λ answerer admin reply. Unit {0} };

    fn answer(&mut self, _alloc: Global, _event: Event) -> Reply<()> {
        self.count = self.count.wrapping_add(1);
        Reply::Accepted(self.count)
    }

    fn administer(&self, _admin: Admin) -> AdminReply {
        AdminReply::NotServed
    }
}

// A reader that returns a text a few bytes at a time, and is interrupted before each read. At the end of the text it
// ends or fails.
#[derive(Drop)]
struct Pieces<'a> {
    text: &'a [u8],
    most: usize,
    is_interrupted: bool,
    fails: bool,
}

impl Read for Pieces<'_> {
    fn read(&mut self, buf: &mut [u8]) -> io::Result<usize> {
        self.is_interrupted = !self.is_interrupted;
        if self.is_interrupted {
            return Err(io::Error::from(ErrorKind::Interrupted));
        }
        let count = self.most.min(buf.len()).min(self.text.len());
        if count == 0 && self.fails {
            return Err(io::Error::from(ErrorKind::ConnectionReset));
        }
        buf[..count].copy_from_slice(&self.text[..count]);
        self.text = &self.text[count..];
        Ok(count)
    }
}

// A writer that takes a few bytes at a time, and is interrupted before each write. It fails when it is full.
#[derive(Drop)]
struct Short {
    taken: Vec<u8>,
    most: usize,
    room: usize,
    is_interrupted: bool,
}

impl Write for Short {
    fn write(&mut self, buf: &[u8]) -> io::Result<usize> {
        self.is_interrupted = !self.is_interrupted;
        if self.is_interrupted {
            return Err(io::Error::from(ErrorKind::Interrupted));
        }
        let count = self.room.min(self.most).min(buf.len());
        if count == 0 {
            return Err(io::Error::from(ErrorKind::BrokenPipe));
        }
        self.taken.extend_from_slice(&buf[..count])?;
        self.room -= count;
        Ok(count)
    }

    fn flush(&mut self) -> io::Result<()> {
        Ok(())
    }
}

// Five lines with a reply, a blank one, and bytes after the last line feed.
const LINES: &[u8] = b"get =a\nput =b 0102\r\n\nput =b 01\nswap =b 0102 0304\nflush\nmerge";

const ANSWERS: &[u8] = b"accepted 1\naccepted 2\nrefused 22 BadValue\naccepted 3\naccepted 4\n";

// How a session over a text ends, and what it writes. The numbers are the most bytes of a read and of a write.
fn serve(
    alloc: Global,
    text: &[u8],
    most_read: usize,
    fails: bool,
    most_written: usize,
    room: usize,
) -> (SessionEnd, Vec<u8>) {
    let mut reader = Pieces {
        text,
        most: most_read,
        is_interrupted: false,
        fails,
    };
    let mut writer = Short {
        taken: Vec::new(alloc),
        most: most_written,
        room,
        is_interrupted: false,
    };
    let mut counter = Counter { count: 0 };
    let end = session(alloc, 2, &mut reader, &mut writer, &mut counter);
    let Short {
        taken,
        most: _,
        room: _,
        is_interrupted: _,
    } = writer;
    (end, taken)
}

#[test]
fn answers_whatever_the_reads(rt: HostRuntime) -> Result<(), Fail> {
    for most in [1usize, 2, 7, 100] {
        let (end, taken) = serve(rt.alloc(), LINES, most, false, 100, 1000);
        assert_eq!(rt; end, SessionEnd::End);
        assert_eq!(rt; taken.as_slice(), ANSWERS);
    }
    Ok(())
}

#[test]
fn answers_whatever_the_writes(rt: HostRuntime) -> Result<(), Fail> {
    for most in [1usize, 3, 20] {
        let (end, taken) = serve(rt.alloc(), LINES, 100, false, most, 1000);
        assert_eq!(rt; end, SessionEnd::End);
        assert_eq!(rt; taken.as_slice(), ANSWERS);
    }
    Ok(())
}

// How many bytes the replies have to the lines that end within the first bytes of the text.
fn answered_within(count: usize) -> usize {
    match count {
        0..7 => 0,
        7..20 => 11,
        20..31 => 22,
        31..49 => 42,
        49..55 => 53,
        _ => 64,
    }
}

// The lines before a failed read get their replies, and the line that it cuts gets none, wherever the cut is.
#[test]
fn reports_a_failed_read(rt: HostRuntime) -> Result<(), Fail> {
    for count in 0..61usize {
        let text = &LINES[..LINES.len().min(count)];
        let (end, taken) = serve(rt.alloc(), text, 5, true, 3, 1000);
        assert_eq!(rt; end, SessionEnd::ReadFault);
        let due = &ANSWERS[..ANSWERS.len().min(answered_within(count))];
        assert_eq!(rt; taken.as_slice(), due, "{count}");
    }
    Ok(())
}

// What was written is a prefix as long as the writer has room. It may be cut within a reply.
#[test]
fn reports_a_failed_write(rt: HostRuntime) -> Result<(), Fail> {
    for room in 0..ANSWERS.len() {
        let (end, taken) = serve(rt.alloc(), LINES, 100, false, 3, room);
        assert_eq!(rt; end, SessionEnd::WriteFault);
        assert_eq!(rt; taken.as_slice(), &ANSWERS[..room]);
    }
    Ok(())
}

// A writer that keeps what is written to it, and how much of that is flushed.
#[derive(Drop)]
struct Buffered {
    taken: Vec<u8>,
    flushed: usize,
}

impl Write for Buffered {
    fn write(&mut self, buf: &[u8]) -> io::Result<usize> {
        self.taken.extend_from_slice(buf)?;
        Ok(buf.len())
    }

    fn flush(&mut self) -> io::Result<()> {
        self.flushed = self.taken.len();
        Ok(())
    }
}

// What a session writes is flushed, however long its reads are.
#[test]
fn flushes_what_it_writes(rt: HostRuntime) -> Result<(), Fail> {
    for most in [1usize, 7, 100] {
        let mut reader = Pieces {
            text: LINES,
            most,
            is_interrupted: false,
            fails: false,
        };
        let mut writer = Buffered {
            taken: Vec::new(rt.alloc()),
            flushed: 0,
        };
        let mut counter = Counter { count: 0 };
        let end = session(rt.alloc(), 2, &mut reader, &mut writer, &mut counter);
        assert_eq!(rt; end, SessionEnd::End);
        assert_eq!(rt; writer.taken.as_slice(), ANSWERS);
        assert_eq!(rt; writer.flushed, ANSWERS.len());
    }
    Ok(())
}

// Accepts each event. Its values have 4,096 bytes, the most of any store.
#[derive(Drop)]
struct Wide;

impl Answerer for Wide {
    ghost value_len = { λ _. 4096 };

    ghost answers = { λ old new event reply. Unit {0} };

    ghost administers = { λ answerer admin reply. Unit {0} };

    fn answer(&mut self, _alloc: Global, _event: Event) -> Reply<()> {
        Reply::Accepted(1)
    }

    fn administer(&self, _admin: Admin) -> AdminReply {
        AdminReply::NotServed
    }
}

// The digits of a value.
const DIGITS: [u8; 8192] = [b'0'; 8192];

// A put of a value of 4,096 bytes under a name of this many letters, and a get. The line of the put has 8,198 bytes and
// its name.
fn long_put(alloc: Global, letters: usize) -> Result<Vec<u8>, AllocError> {
    let name = &NAME[..NAME.len().min(letters)];
    joined(alloc, &[b"put =", name, b" ", &DIGITS, b"\nget =a\n"])
}

// A swap of values of 4,096 bytes under a name of this many letters, with these bytes before the line feed, and a get.
// The line of the swap has 16,392 bytes, its name, and the bytes at its end.
fn long_swap(alloc: Global, letters: usize, end: &[u8]) -> Result<Vec<u8>, AllocError> {
    let name = &NAME[..NAME.len().min(letters)];
    joined(
        alloc,
        &[
            b"swap =",
            name,
            b" ",
            &DIGITS,
            b" ",
            &DIGITS,
            end,
            b"\nget =a\n",
        ],
    )
}

// The parts as one text.
fn joined(alloc: Global, parts: &[&[u8]]) -> Result<Vec<u8>, AllocError> {
    let mut text = Vec::new(alloc);
    for part in parts {
        text.extend_from_slice(part)?;
    }
    Ok(text)
}

// The letters of the longest name, and one more.
const NAME: [u8; 8001] = [b'x'; 8001];

// How a session over these lines ends, and what it writes. Each event is accepted.
fn wide_answers(alloc: Global, lines: &[u8]) -> (SessionEnd, Vec<u8>) {
    let mut out = Vec::new(alloc);
    let mut reader = Cursor::new(lines);
    let end = session(alloc, 4096, &mut reader, &mut out, &mut Wide);
    (end, out)
}

const BOTH_ACCEPTED: &[u8] = b"accepted 1\naccepted 1\n";

const BAD_KEY: &[u8] = b"refused 21 BadKey\naccepted 1\n";

const BAD_VALUE: &[u8] = b"refused 22 BadValue\naccepted 1\n";

const TOO_LONG: &[u8] = b"refused 23 LineTooLong\naccepted 1\n";

// A line of 16,600 bytes is read, its carriage return counted. A longer line is refused whatever its bytes are, and the
// next line gets its reply. So the name of a swap of the longest values has at most 208 bytes, and its key 209.
#[test]
fn answers_lines_up_to_the_longest(rt: HostRuntime) -> Result<(), Fail> {
    let cases: [(usize, &[u8], &[u8]); 6] = [
        (208, b"", BOTH_ACCEPTED),
        (207, b"\r", BOTH_ACCEPTED),
        (207, b"0", BAD_VALUE),
        (208, b"\r", TOO_LONG),
        (208, b"0", TOO_LONG),
        (209, b"", TOO_LONG),
    ];
    for (letters, end, due) in cases {
        let lines = long_swap(rt.alloc(), letters, end)?;
        let (end, out) = wide_answers(rt.alloc(), &lines);
        assert_eq!(rt; end, SessionEnd::End);
        assert_eq!(rt; out.as_slice(), due, "{letters}");
    }
    Ok(())
}

// The longest name and the longest value of a put are a line of 16,198 bytes.
#[test]
fn answers_a_put_of_the_longest_name_and_value(rt: HostRuntime) -> Result<(), Fail> {
    for (letters, due) in [(8_000, BOTH_ACCEPTED), (8_001, BAD_KEY)] {
        let lines = long_put(rt.alloc(), letters)?;
        let (end, out) = wide_answers(rt.alloc(), &lines);
        assert_eq!(rt; end, SessionEnd::End);
        assert_eq!(rt; out.as_slice(), due, "{letters}");
    }
    Ok(())
}

// Whether these bytes are the replies to the first lines, each of them whole.
fn are_whole_answers(taken: &[u8]) -> bool {
    [0, 11, 22, 42, 53, 64].contains(&taken.len()) && ANSWERS.starts_with(taken)
}

// A session ends if a request for memory is refused, also the request for either value of the swap. If the writer's own
// request is refused, the writer fails. What was written are the replies to the first lines. The test passes whichever
// one request is refused, and if none is.
#[test]
fn ends_where_memory_is_refused(rt: HostRuntime) -> Result<(), Fail> {
    let (end, taken) = serve(rt.alloc(), LINES, 9, false, 100, 1000);
    if end == SessionEnd::End {
        assert_eq!(rt; taken.as_slice(), ANSWERS);
        return Ok(());
    }
    let ends = [SessionEnd::NoMemory, SessionEnd::WriteFault];
    assert!(rt; ends.contains(&end));
    assert!(rt; are_whole_answers(&taken));
    Ok(())
}

// Has a value of 4,096 bytes for each key.
#[derive(Drop)]
struct Full;

fn long_value(alloc: Global) -> Reply<()> {
    match vec![in alloc; 0u8; 4096] {
        Ok(bytes) => Reply::Found(Value::new(bytes)),
        Err(_) => Reply::Refused(Refusal::NoMemory),
    }
}

impl Answerer for Full {
    ghost value_len = { λ _. 4096 };

    ghost answers = { λ old new event reply. Unit {0} };

    ghost administers = { λ answerer admin reply. Unit {0} };

    fn answer(&mut self, alloc: Global, _event: Event) -> Reply<()> {
        long_value(alloc)
    }

    fn administer(&self, _admin: Admin) -> AdminReply {
        AdminReply::NotServed
    }
}

// A writer that keeps how many bytes it was given, and the most in one write.
#[derive(Drop)]
struct Tally {
    bytes: usize,
    largest: usize,
}

impl Write for Tally {
    fn write(&mut self, buf: &[u8]) -> io::Result<usize> {
        self.bytes = self.bytes.wrapping_add(buf.len());
        self.largest = self.largest.max(buf.len());
        Ok(buf.len())
    }

    fn flush(&mut self) -> io::Result<()> {
        Ok(())
    }
}

// 585 lines fit into one read, and each has a reply of 8,199 bytes. The session writes the replies in parts.
#[test]
fn writes_long_answers_in_parts(rt: HostRuntime) -> Result<(), Fail> {
    let mut lines = Vec::new(rt.alloc());
    for _ in 0..585 {
        lines.extend_from_slice(b"get =a\n")?;
    }
    let mut reader = Cursor::new(lines.as_slice());
    let mut writer = Tally {
        bytes: 0,
        largest: 0,
    };
    let end = session(rt.alloc(), 4096, &mut reader, &mut writer, &mut Full);
    assert_eq!(rt; end, SessionEnd::End);
    assert_eq!(rt; writer.bytes, 4_796_415);
    assert_eq!(rt; writer.largest, 65_592);
    Ok(())
}

// A store whose values are longer than any memory.
#[derive(Drop)]
struct Vast;

impl Answerer for Vast {
    ghost value_len = { λ _. 4611686018427387904 };

    ghost answers = { λ old new event reply. Unit {0} };

    ghost administers = { λ answerer admin reply. Unit {0} };

    fn answer(&mut self, _alloc: Global, _event: Event) -> Reply<()> {
        Reply::Absent
    }

    fn administer(&self, _admin: Admin) -> AdminReply {
        AdminReply::NotServed
    }
}

// If memory runs out for a line, the session ends. The lines before it get their replies, and those after it none. A bad
// key is found before any memory is needed.
#[test]
fn ends_where_memory_is_wanted_for_a_line(rt: HostRuntime) -> Result<(), Fail> {
    let puts: &[u8] = b"get =a\nput = 00\nput =b 00\nget =c\n";
    let swaps: &[u8] = b"get =a\nswap = 00 00\nswap =b 00 00\nget =c\n";
    let hyphens: &[u8] = b"get =a\nswap = - 00\nswap =b - 00\nget =c\n";
    for lines in [puts, swaps, hyphens] {
        let mut reader = Cursor::new(lines);
        let mut out = Vec::new(rt.alloc());
        let end = session(rt.alloc(), 1 << 62, &mut reader, &mut out, &mut Vast);
        assert_eq!(rt; end, SessionEnd::NoMemory);
        assert_eq!(rt; out.as_slice(), b"absent\nrefused 21 BadKey\n".as_slice());
    }
    Ok(())
}
