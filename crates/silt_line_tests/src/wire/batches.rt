// Sessions over an answerer that shows in which of its calls it replied to an event: which lines are handed over
// together.
ghost use Rattle.std.specs.Prelude.{◌≡◌, ◌<◌, ℕ, length};
ghost use Rattle.silt_event.specs.declared.admin.Admin.{Admin as AdminOf};
ghost use Rattle.silt_event.specs.declared.admin.AdminReply.{AdminReply as AdminReplyOf};
ghost use Rattle.silt_event.specs.declared.event.Event.{Event as EventOf};
ghost use Rattle.silt_event.specs.Events.{PlainReply};

use silt_event::{Admin, AdminReply, Answerer, Event, Reply};
use silt_wire::{SessionEnd, session_over};
use std::alloc::Global;
use std::io::Cursor;
use std::process::Abort;
use std::test::Fail;

// Replies with the number of the call, to a get with another word than to other events.
#[derive(Drop)]
pub(crate) struct InCall {
    pub(crate) value_len: usize,
    pub(crate) call: u64,
}

impl Answerer for InCall {
    ghost value_len = { λ answerer. answerer.value_len };

    ghost answers = { λ old new event reply. Unit {0} };

    ghost administers = { λ answerer admin reply. Unit {0} };

    fn answer(&mut self, _alloc: Global, event: Event) -> Reply<()> {
        match event {
            Event::Get(_) => Reply::Acknowledged(self.call),
            _ => Reply::Accepted(self.call),
        }
    }

    fn administer(&self, _admin: Admin) -> AdminReply {
        AdminReply::NotServed
    }
}

// Counts the calls that are made of it.
#[derive(Drop)]
pub(crate) struct Calls {
    pub(crate) inner: InCall,
}

impl Answerer for Calls {
    ghost value_len = { λ answerer. answerer.inner.value_len };

    ghost answers = { λ old new event reply. Unit {0} };

    ghost administers = { λ answerer admin reply. Unit {0} };

    fn answer(&mut self, alloc: Global, event: Event) -> Reply<()> {
        self.inner.call = self.inner.call.wrapping_add(1);
        self.inner.answer(alloc, event)
    }

    fn answer_all(&mut self, alloc: Global, events: Vec<Event>, replies: &mut Vec<Reply<()>>) {
        if events.is_empty() {
            return;
        }
        self.inner.call = self.inner.call.wrapping_add(1);
        self.inner.answer_all(alloc, events, replies);
    }

    fn administer(&self, _admin: Admin) -> AdminReply {
        AdminReply::NotServed
    }
}

// What a session over these lines writes, whose reads fill this buffer.
fn written(
    alloc: Global,
    value_len: usize,
    buffer: &mut [u8],
    lines: &[u8],
) -> (SessionEnd, Vec<u8>)
    requires { 0 < length buffer.old }
{
    let mut reader = Cursor::new(lines);
    let mut out = Vec::new(alloc);
    let mut calls = Calls {
        inner: InCall { value_len, call: 0 },
    };
    let end = session_over(alloc, value_len, buffer, &mut reader, &mut out, &mut calls);
    (end, out)
}

// Puts, a get among them, a blank line, a line without a valid request, and bytes after the last line feed.
const LINES: &[u8] = b"put =a 0102\nget =a\n\r\nput =b 0102\nput\nget =b\nflush\nmerge";

// The lines of one read are handed over in one call, in order. A line without a valid request divides them, and a blank
// one does not.
#[test]
fn hands_over_the_lines_of_a_read_together(rt: HostRuntime) {
    let mut buffer = [0; 100];
    let (end, out) = written(rt.alloc(), 2, &mut buffer, LINES);
    assert_eq!(rt; end, SessionEnd::End);
    let due: &[u8] =
        b"accepted 1\nacknowledged 1\naccepted 1\nrefused 20 BadLine\nacknowledged 2\naccepted 2\n";
    assert_eq!(rt; out.as_slice(), due);
}

// With a buffer of one byte each line is handed over alone. Nothing is handed over for a blank line, or for one without a
// valid request.
#[test]
fn hands_over_each_line_if_reads_are_short(rt: HostRuntime) {
    let mut buffer = [0; 1];
    let (end, out) = written(rt.alloc(), 2, &mut buffer, LINES);
    assert_eq!(rt; end, SessionEnd::End);
    let due: &[u8] =
        b"accepted 1\nacknowledged 2\naccepted 3\nrefused 20 BadLine\nacknowledged 4\naccepted 5\n";
    assert_eq!(rt; out.as_slice(), due);
}

// This line, so many times.
fn repeated(alloc: Global, line: &[u8], count: usize) -> Result<Vec<u8>, Fail> {
    let mut lines = Vec::new(alloc);
    for _ in 0..count {
        lines.extend_from_slice(line)?;
    }
    Ok(lines)
}

// A call takes no more lines once their replies may have 65,536 bytes: 8,232 bytes for each get of a value of 4,096
// bytes, and 40 for each other event.
#[test]
fn divides_what_may_have_long_replies(rt: HostRuntime) -> Result<(), Fail> {
    let cases: [(&[u8], usize, &[u8], &[u8]); 2] = [
        (b"get =a\n", 8, b"acknowledged 1\n", b"acknowledged 2\n"),
        (b"flush\n", 1639, b"accepted 1\n", b"accepted 2\n"),
    ];
    for (line, most, first, second) in cases {
        let lines = repeated(rt.alloc(), line, most + 1)?;
        let mut buffer = vec![in rt.alloc(); 0u8; 65_536]?;
        let (end, out) = written(rt.alloc(), 4096, &mut buffer, &lines);
        let mut due = repeated(rt.alloc(), first, most)?;
        due.extend_from_slice(second)?;
        assert_eq!(rt; end, SessionEnd::End);
        assert_eq!(rt; out.as_slice(), due.as_slice());
    }
    Ok(())
}
