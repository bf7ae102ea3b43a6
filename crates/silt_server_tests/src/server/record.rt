// Sixty-four sessions at once, whose calls are recorded. Each session has a key of its own, and gets the replies of a
// plain map. The recorded calls are repeated on another one.

mod kept;

use crate::server::{connected, read_lines};
use silt_desk::RecordedCall;
use silt_event::{Event, Reply};
use silt_fixtures::two_bytes;
use silt_frame::{Key, Value};
use std::alloc::{AllocError, Global};
use std::collections::BTreeMap;
use std::io::{self, Write};
use std::net::{Net, TcpListener, TcpStream};

/// How many commands each session asks.
const COMMANDS: u32 = 200;

/// A connection, its key, and the value that this should have.
#[derive(Drop)]
struct Session {
    stream: TcpStream,
    key: u8,
    value: Option<u8>,
}

impl Session {
    // Sends the command of a round: puts, deletes, gets and flushes in turn.
    fn ask(&mut self, round: u32, line: &mut Vec<u8>) -> io::Result<()> {
        line.clear();
        push_line(line, self.key, round)?;
        self.stream.write_all(line.as_slice())
    }

    // Whether the reply to the round's command is that of a plain map.
    fn is_answered(&mut self, round: u32, line: &mut Vec<u8>) -> io::Result<bool> {
        line.clear();
        read_lines(&mut self.stream, line, 1)?;
        Ok(self.is_due(round, line.as_slice()))
    }

    // Takes the reply to the round's command. A refused command changes nothing.
    fn is_due(&mut self, round: u32, line: &[u8]) -> bool {
        match round % 8 {
            0 | 4 => self.is_changed(line, Some((round % 256) as u8)),
            2 => self.is_changed(line, None),
            6 => line.starts_with(b"acknowledged "),
            _ => is_value(line, self.value),
        }
    }

    // Takes the reply to a command that gives the key this value, or none.
    fn is_changed(&mut self, line: &[u8], value: Option<u8>) -> bool {
        if line.starts_with(b"accepted ") {
            self.value = value;
            return true;
        }
        is_full(line)
    }
}

// Whether a command is refused because the store has no room.
fn is_full(line: &[u8]) -> bool {
    line == b"refused 7 StoreFull\n".as_slice() || line == b"refused 8 NoRoom\n".as_slice()
}

// Whether this is the reply to a get of a key with this value, or none.
fn is_value(line: &[u8], value: Option<u8>) -> bool {
    match value {
        Some(low) => is_value_line(line, digits(low)),
        None => line == b"absent\n".as_slice(),
    }
}

// Whether this is the line of a value with these digits.
fn is_value_line(line: &[u8], digits: [u8; 2]) -> bool {
    let [high, low] = digits;
    line == [
        b'v', b'a', b'l', b'u', b'e', b' ', b'0', b'0', high, low, b'\n',
    ]
    .as_slice()
}

// A hexadecimal digit.
fn digit(number: u8) -> u8 {
    match number {
        0..=9 => b'0'.wrapping_add(number),
        _ => b'a'.wrapping_add(number.wrapping_sub(10)),
    }
}

// Both hexadecimal digits of a byte.
fn digits(byte: u8) -> [u8; 2] {
    [digit(byte / 16), digit(byte % 16)]
}

// Appends the line of a round for this key.
fn push_line(line: &mut Vec<u8>, key: u8, round: u32) -> Result<(), AllocError> {
    match round % 8 {
        0 | 4 => push_put(line, key, (round % 256) as u8)?,
        2 => push_words(line, b"delete =s", key)?,
        6 => line.extend_from_slice(b"flush")?,
        _ => push_words(line, b"get =s", key)?,
    }
    line.push(b'\n')?;
    Ok(())
}

// Appends a word and a key.
fn push_words(line: &mut Vec<u8>, word: &[u8], key: u8) -> Result<(), AllocError> {
    line.extend_from_slice(word)?;
    line.extend_from_slice(digits(key).as_slice())
}

// Appends a put of a value of two bytes, the first of them zero.
fn push_put(line: &mut Vec<u8>, key: u8, low: u8) -> Result<(), AllocError> {
    push_words(line, b"put =s", key)?;
    push_words(line, b" 00", low)
}

// Opens so many connections, each with a key of its own.
fn connect_all<R: Net<Stream = TcpStream>>(
    rt: &R,
    listener: &TcpListener,
    count: u32,
    sessions: &mut Vec<Session>,
) -> io::Result<()> {
    let addr = listener.local_addr()?;
    for number in 0..count {
        sessions.push(Session {
            stream: connected(rt, addr)?,
            key: (number % 256) as u8,
            value: None,
        })?;
    }
    Ok(())
}

// All sessions ask the command of a round.
fn ask_round(sessions: &mut Vec<Session>, round: u32, line: &mut Vec<u8>) -> io::Result<()> {
    for session in sessions.iter_mut() {
        session.ask(round, line)?;
    }
    Ok(())
}

// How many of the replies are not those of a plain map.
fn count_wrong(sessions: &mut Vec<Session>, round: u32, line: &mut Vec<u8>) -> io::Result<u32> {
    let mut wrong = 0u32;
    for session in sessions.iter_mut() {
        if !session.is_answered(round, line)? {
            wrong = wrong.saturating_add(1);
        }
    }
    Ok(wrong)
}

// The same for all rounds.
fn count_all_wrong(sessions: &mut Vec<Session>, line: &mut Vec<u8>) -> io::Result<u32> {
    let mut wrong = 0u32;
    for round in 0..COMMANDS {
        ask_round(sessions, round, line)?;
        wrong = wrong.saturating_add(count_wrong(sessions, round, line)?);
    }
    Ok(wrong)
}

/// So many sessions ask the server of this listener, each command at the same time. Returns how many
/// commands got a wrong reply.
fn ask_all<R: Net<Stream = TcpStream>>(
    rt: &R,
    alloc: Global,
    listener: &TcpListener,
    count: u32,
) -> io::Result<u32> {
    let mut line = Vec::new(alloc);
    let mut sessions = Vec::new(alloc);
    connect_all(rt, listener, count, &mut sessions)?;
    count_all_wrong(&mut sessions, &mut line)
}

/// A map of one thread, how many commands it has accepted, and how many calls had another reply
/// than the map's.
#[derive(Drop)]
struct Again {
    pub map: BTreeMap<Key, [u8; 2]>,
    pub accepted: u64,
    pub wrong: u64,
}

impl Again {
    // Repeats one call. Returns whether it had the reply of a plain map. A refused call and a step
    // change nothing.
    fn does(&mut self, call: &RecordedCall) -> Result<bool, AllocError> {
        match (&call.event, &call.reply) {
            (Event::Put(key, value), Reply::Accepted(number)) => self.puts(key, value, *number),
            (Event::Delete(key), Reply::Accepted(number)) => Ok(self.deletes(key, *number)),
            (Event::Flush, Reply::Acknowledged(number)) => Ok(*number == self.accepted),
            (Event::Get(key), Reply::Found(value)) => Ok(self.has(key, value)),
            (Event::Get(key), Reply::Absent) => Ok(self.map.get(key).is_none()),
            (Event::Convert | Event::Merge, Reply::Progress(_)) => Ok(true),
            (_, Reply::Refused(_)) => Ok(true),
            _ => Ok(false),
        }
    }

    fn puts(&mut self, key: &Key, value: &Value, number: u64) -> Result<bool, AllocError> {
        self.map.insert(*key, two_bytes(value))?;
        Ok(self.is_next(number))
    }

    fn deletes(&mut self, key: &Key, number: u64) -> bool {
        self.map.remove(key);
        self.is_next(number)
    }

    fn has(&self, key: &Key, value: &Value) -> bool {
        self.map.get(key) == Some(&two_bytes(value))
    }

    // Counts one more command, and returns whether it has this number.
    fn is_next(&mut self, number: u64) -> bool {
        self.accepted = self.accepted.wrapping_add(1);
        self.accepted == number
    }

    // Repeats all calls, and counts those that had another reply.
    fn do_all(&mut self, calls: &[RecordedCall]) -> Result<(), AllocError> {
        for call in calls {
            if !self.does(call)? {
                self.wrong = self.wrong.wrapping_add(1);
            }
        }
        Ok(())
    }
}

/// Repeats all calls, on a map that is empty at first.
fn replayed(alloc: Global, calls: &[RecordedCall]) -> Result<Again, AllocError> {
    let mut again = Again {
        map: BTreeMap::new(alloc),
        accepted: 0,
        wrong: 0,
    };
    again.do_all(calls)?;
    Ok(again)
}
