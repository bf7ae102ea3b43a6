// Commands of Redis clients, the replies to them and values of strings, letter for letter.

mod batches;
mod facts;
mod sessions;

use silt_event::{Refusal, Reply};
use silt_resp::{Command, CommandBuffer, Form, Word, Words, push_text, string_of, string_value};
use std::alloc::{AllocError, Global};
use std::process::Abort;
use std::test::Fail;

// What a client sends, and the commands: a bar behind each word, a line feed behind each command.
const COMMANDS: [(&str, &str); 15] = [
    (
        "*3\r\n$3\r\nSET\r\n$1\r\nk\r\n$5\r\na\r\nbc\r\n",
        "SET|k|a\r\nbc|\n",
    ),
    (
        "*2\r\n$3\r\nGET\r\n$0\r\n\r\n*1\r\n$4\r\nPING\r\n",
        "GET||\nPING|\n",
    ),
    (
        "  get  k \r\nPING\n\r\n\n*0\r\n*-1\r\n*1\r\n$4\r\nPING\r\n",
        "get|k|\nPING|\nPING|\n",
    ),
    ("*01\r\n$004\r\nPING\r\n", "PING|\n"),
    ("*2\r\n$3\r\nGET\r\n$1\r\nk\r", ""),
    ("*1\r\n$4\r\nquit\r\nPING\r\n", "quit|\n"),
    ("QUIT now\r\nPING\r\n", "QUIT|now|\n"),
    ("PING\r\n*1\r\n$4\r\nPINGxx", "PING|\nexpected CRLF\n"),
    ("*1\r\n$4\r\nPING\rx", "expected CRLF\n"),
    ("*1\nPING\r\n", "expected CRLF\n"),
    ("*x\r\n", "invalid multibulk length\n"),
    ("*1048577\r\n", "invalid multibulk length\n"),
    ("*1\r\n$536870913\r\n", "invalid bulk length\n"),
    ("*1\r\n$-1\r\n", "invalid bulk length\n"),
    ("*1\r\n+4\r\nPING\r\n", "expected '$'\n"),
];

// The words of a command, with a bar behind each.
fn show_words(words: &Words<'_>, out: &mut Vec<u8>) -> Result<(), AllocError> {
    for index in 0..words.len() {
        match words.get(index) {
            Some(Word::Whole(bytes)) => out.extend_from_slice(bytes)?,
            _ => out.extend_from_slice(b"(long)")?,
        }
        out.extend_from_slice(b"|")?;
    }
    Ok(())
}

// A command, with a line feed behind it.
fn show(alloc: Global, command: &Command<'_>, out: &mut Vec<u8>) -> Result<(), AllocError> {
    match command {
        Command::Complete(words) => show_words(words, out)?,
        Command::ManyWords => out.extend_from_slice(b"(many words)")?,
        Command::ManyBytes => out.extend_from_slice(b"(many bytes)")?,
        Command::Broken(fault) => out.extend_from_slice(fault.text().as_bytes())?,
    }
    out.extend_from_slice(b"\n")
}

// Takes one read. Returns whether the stream is closed.
fn take_read(
    alloc: Global,
    buffer: &mut CommandBuffer,
    bytes: &[u8],
    out: &mut Vec<u8>,
) -> Result<bool, AllocError> {
    let mut rest = bytes;
    for _ in 0..bytes.len() {
        let taken = buffer.take(rest)?;
        if !taken.ends_command {
            return Ok(false);
        }
        let command = buffer.command();
        show(alloc, &command, out)?;
        if command.closes() {
            return Ok(true);
        }
        drop(command);
        buffer.clear();
        rest = rest.split_at(taken.count).1;
    }
    Ok(false)
}

// The commands of a stream of which so many bytes are read at a time.
fn commands(alloc: Global, bytes: &[u8], read: usize) -> Result<Vec<u8>, AllocError> {
    let mut buffer = CommandBuffer::new(alloc);
    let mut out = Vec::new(alloc);
    let mut rest = bytes;
    for _ in 0..bytes.len() {
        let (front, back) = rest.split_at(read.min(rest.len()));
        if take_read(alloc, &mut buffer, front, &mut out)? {
            return Ok(out);
        }
        rest = back;
    }
    Ok(out)
}

// However the bytes are cut, the commands are the same.
#[test]
fn reads_commands(rt: HostRuntime) -> Result<(), Fail> {
    for (bytes, text) in COMMANDS {
        for read in [1, 2, 3, 5, 64] {
            let shown = commands(rt.alloc(), bytes.as_bytes(), read)?;
            assert!(rt; shown.as_slice() == text.as_bytes(), "{bytes:?}");
        }
    }
    Ok(())
}

// What is too long is not kept, and the stream goes on behind it, unless it is a line.
#[test]
fn drops_what_is_too_long(rt: HostRuntime) -> Result<(), Fail> {
    let alloc = rt.alloc();
    let mut bytes = Vec::new(alloc);
    bytes.extend_from_slice(b"*2\r\n$3\r\nGET\r\n$8193\r\n")?;
    bytes.resize(bytes.len() + 8_193, b'a')?;
    bytes.extend_from_slice(b"\r\nPING\r\n")?;
    bytes.resize(bytes.len() + 16_385, b'a')?;
    let shown = commands(alloc, &bytes, 4_096)?;
    assert!(rt; shown.as_slice() == b"GET|(long)|\nPING|\ntoo big inline request\n".as_slice());
    Ok(())
}

#[test]
fn makes_values_of_strings(rt: HostRuntime) -> Result<(), Fail> {
    let value = string_value(rt.alloc(), 8, b"abc")?;
    assert!(rt; value.as_slice() == b"\0\x03abc\0\0\0".as_slice());
    assert!(rt; string_of(value.as_slice()) == Some(b"abc".as_slice()));
    assert!(rt; string_of(b"\0\x03abc\0\x01\0").is_none());
    assert!(rt; string_of(b"\0\x07abc\0\0\0").is_none());
    Ok(())
}

// The reply to a command of this form, of two replies to its events.
fn replied(
    alloc: Global,
    form: Form,
    first: Reply<()>,
    second: Reply<()>,
) -> Result<Vec<u8>, AllocError> {
    let mut out = Vec::new(alloc);
    push_text(alloc, &mut out, form, &[first, second])?;
    Ok(out)
}

#[test]
fn prints_errors(rt: HostRuntime) -> Result<(), Fail> {
    for (reply, text) in [
        (Reply::Refused(Refusal::NoRoom), "-TRYAGAIN 8 NoRoom\r\n"),
        (Reply::Refused(Refusal::Failed), "-MISCONF 9 Failed\r\n"),
        (Reply::Refused(Refusal::StoreFull), "-ERR 7 StoreFull\r\n"),
        (
            Reply::Unsettled(2),
            "-UNSETTLED the flush was refused, a crash may lose this\r\n",
        ),
    ] {
        let out = replied(rt.alloc(), Form::Stored, Reply::Accepted(1), reply)?;
        assert!(rt; out.as_slice() == text.as_bytes(), "{text}");
    }
    Ok(())
}

#[test]
fn prints_values(rt: HostRuntime) -> Result<(), Fail> {
    let alloc = rt.alloc();
    let found = Reply::Found(string_value(alloc, 8, b"abc")?);
    let out = replied(alloc, Form::Values, Reply::Absent, found)?;
    assert!(rt; out.as_slice() == b"*2\r\n$-1\r\n$3\r\nabc\r\n".as_slice());
    let found = Reply::Found(string_value(alloc, 8, b"")?);
    let out = replied(alloc, Form::Counted, Reply::Absent, found)?;
    assert!(rt; out.as_slice() == b":1\r\n".as_slice());
    let out = replied(alloc, Form::Swapped, Reply::Differs, Reply::Absent)?;
    assert!(rt; out.as_slice() == b"$-1\r\n".as_slice());
    Ok(())
}
