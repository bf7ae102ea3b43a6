// Sessions of Redis clients over a small store, reply by reply.
ghost use Rattle.std.specs.Prelude.{◌≡◌, ◌<◌, ℕ, length};
ghost use Rattle.silt_event.specs.declared.admin.Admin.{Admin as AdminOf};
ghost use Rattle.silt_event.specs.declared.admin.AdminReply.{AdminReply as AdminReplyOf};
ghost use Rattle.silt_event.specs.declared.event.Event.{Event as EventOf};
ghost use Rattle.silt_event.specs.Events.{PlainReply};

use silt_event::{Admin, AdminReply, Answerer, Event, Refusal, Reply, bytes_of};
use silt_frame::{Key, Value};
use silt_resp::{RespEnd, Settings, resp_session};
use std::alloc::{AllocError, Global};
use std::io::Cursor;
use std::process::Abort;
use std::test::Fail;

// A store in memory.
#[derive(Drop)]
struct Store {
    value_len: usize,
    entries: Vec<(Key, Value)>,
}

impl Answerer for Store {
    ghost value_len = { λ store. store.value_len };

    ghost answers = { λ old new event reply. Unit {0} };

    ghost administers = { λ answerer admin reply. Unit {0} };

    fn answer(&mut self, alloc: Global, event: Event) -> Reply<()> {
        match answered(alloc, &mut self.entries, event) {
            Ok(reply) => reply,
            Err(_) => Reply::Refused(Refusal::NoMemory),
        }
    }

    fn administer(&self, _admin: Admin) -> AdminReply {
        AdminReply::NotServed
    }
}

fn value_of(entries: &[(Key, Value)], key: Key) -> Option<&[u8]> {
    for entry in entries {
        if entry.0 == key {
            return Some(entry.1.as_slice());
        }
    }
    None
}

fn delete(entries: &mut Vec<(Key, Value)>, key: Key) {
    entries.retain(|entry| entry.0 != key);
}

fn put(entries: &mut Vec<(Key, Value)>, key: Key, value: Value) -> Result<(), AllocError> {
    entries.reserve(1)?;
    delete(entries, key);
    entries.push((key, value))?;
    Ok(())
}

fn found(alloc: Global, value: Option<&[u8]>) -> Result<Reply<()>, AllocError> {
    let Some(bytes) = value else {
        return Ok(Reply::Absent);
    };
    let mut copy = Vec::new(alloc);
    copy.extend_from_slice(bytes)?;
    Ok(Reply::Found(Value::new(copy)))
}

fn swap(
    entries: &mut Vec<(Key, Value)>,
    key: Key,
    old: Option<Value>,
    new: Option<Value>,
) -> Result<Reply<()>, AllocError> {
    if value_of(entries, key) != bytes_of(&old) {
        return Ok(Reply::Differs);
    }
    match new {
        Some(value) => put(entries, key, value)?,
        None => delete(entries, key),
    }
    Ok(Reply::Accepted(1))
}

fn answered(
    alloc: Global,
    entries: &mut Vec<(Key, Value)>,
    event: Event,
) -> Result<Reply<()>, AllocError> {
    match event {
        Event::Put(key, value) => {
            put(entries, key, value)?;
            Ok(Reply::Accepted(1))
        }
        Event::Delete(key) => {
            delete(entries, key);
            Ok(Reply::Accepted(1))
        }
        Event::Swap(key, old, new) => swap(entries, key, old, new),
        Event::Get(key) => found(alloc, value_of(entries, key)),
        _ => Ok(Reply::NotServed),
    }
}

// How a session ends, and what it writes. Its client has the number 7, and its values have eight bytes.
fn served(
    alloc: Global,
    password: Option<[u8; 20]>,
    buffer: &mut [u8],
    bytes: &[u8],
) -> (RespEnd, Vec<u8>)
    requires { 0 < length buffer.old }
{
    let settings = Settings {
        value_len: 8,
        password,
        id: 7,
    };
    let mut store = Store {
        value_len: 8,
        entries: Vec::new(alloc),
    };
    let reader = Cursor::new(bytes);
    let mut out = Vec::new(alloc);
    let end = resp_session(alloc, &settings, buffer, reader, &mut out, &mut store);
    (end, out)
}

// What clients send, each to a new store, and the replies.
const REPLIES: [(&str, &str); 29] = [
    ("PING\r\nping a\r\n", "+PONG\r\n$1\r\na\r\n"),
    ("*2\r\n$4\r\nECHO\r\n$4\r\na\r\nb\r\n", "$4\r\na\r\nb\r\n"),
    (
        "SET k abc\r\nGET k\r\nSTRLEN k\r\n",
        "+OK\r\n$3\r\nabc\r\n:3\r\n",
    ),
    ("GET k\r\nSTRLEN k\r\n", "$-1\r\n:0\r\n"),
    (
        "*3\r\n$3\r\nset\r\n$0\r\n\r\n$0\r\n\r\n*2\r\n$3\r\nget\r\n$0\r\n\r\n",
        "+OK\r\n$0\r\n\r\n",
    ),
    (
        "MSET a 1 b 2\r\nMGET a x b\r\nEXISTS a a x\r\nTOUCH b\r\n",
        "+OK\r\n*3\r\n$1\r\n1\r\n$-1\r\n$1\r\n2\r\n:2\r\n:1\r\n",
    ),
    (
        "SET k a NX\r\nSET k b nx\r\nGET k\r\n",
        "+OK\r\n$-1\r\n$1\r\na\r\n",
    ),
    ("SETNX k a\r\nSETNX k b\r\n", ":1\r\n:0\r\n"),
    (
        "SET k a\r\nSET k b IFEQ x\r\nSET k b IFEQ a\r\nGET k\r\nSET n b IFEQ a\r\n",
        "+OK\r\n$-1\r\n+OK\r\n$1\r\nb\r\n$-1\r\n",
    ),
    (
        "SET k a\r\nDELIFEQ k b\r\nDELIFEQ k a\r\nGET k\r\n",
        "+OK\r\n:0\r\n:1\r\n$-1\r\n",
    ),
    (
        "MSET a 1 b 2\r\nDEL a x b\r\nUNLINK a\r\n",
        "+OK\r\n:2\r\n:0\r\n",
    ),
    (
        "SELECT 0\r\nSELECT 1\r\n",
        "+OK\r\n-ERR DB index is out of range\r\n",
    ),
    (
        "AUTH p\r\n",
        "-ERR AUTH called without any password configured\r\n",
    ),
    (
        "HELLO\r\nHELLO 3\r\n",
        "*14\r\n$6\r\nserver\r\n$5\r\nredis\r\n$7\r\nversion\r\n$5\r\n7.0.0\r\n$5\r\nproto\r\n:2\r\n$2\r\nid\r\n:7\r\n$4\r\nmode\r\n$10\r\nstandalone\r\n$4\r\nrole\r\n$6\r\nmaster\r\n$7\r\nmodules\r\n*0\r\n-NOPROTO unsupported protocol version\r\n",
    ),
    (
        "CLIENT SETNAME n\r\nclient setinfo a b\r\nCLIENT ID\r\nCLIENT GETNAME\r\nCLIENT x\r\n",
        "+OK\r\n+OK\r\n:7\r\n$-1\r\n-ERR unknown subcommand or wrong number of arguments\r\n",
    ),
    (
        "COMMAND\r\nCOMMAND DOCS\r\n",
        "*0\r\n-ERR unknown subcommand or wrong number of arguments\r\n",
    ),
    (
        "CONFIG GET save\r\nCONFIG GET appendonly\r\nCONFIG GET x\r\n",
        "*2\r\n$4\r\nsave\r\n$0\r\n\r\n*2\r\n$10\r\nappendonly\r\n$3\r\nyes\r\n*0\r\n",
    ),
    (
        "CLUSTER INFO\r\n",
        "-ERR This instance has cluster support disabled\r\n",
    ),
    ("\r\n*0\r\n*-1\r\nPING\r\n", "+PONG\r\n"),
    (
        "INCR k\r\nabcdefghijklmnopqrstuvwxyz0123456789\r\n\x01\x7f\r\n",
        "-ERR unknown command 'INCR'\r\n-ERR unknown command 'abcdefghijklmnopqrstuvwxyz012345'\r\n-ERR unknown command '??'\r\n",
    ),
    (
        "SET k a EX 10\r\nSET k a XX\r\nSET k a GET\r\nSET k a KEEPTTL\r\nGET k\r\n",
        "-ERR syntax error\r\n-ERR syntax error\r\n-ERR syntax error\r\n-ERR syntax error\r\n$-1\r\n",
    ),
    (
        "GET\r\ngEt a b\r\n",
        "-ERR wrong number of arguments for 'get' command\r\n-ERR wrong number of arguments for 'get' command\r\n",
    ),
    (
        "MSET a\r\nMSET a 1 b\r\nUNLINK\r\n",
        "-ERR wrong number of arguments for 'mset' command\r\n-ERR wrong number of arguments for 'mset' command\r\n-ERR wrong number of arguments for 'unlink' command\r\n",
    ),
    (
        "SET k 1234567\r\nGET k\r\nSET k 123456\r\nGET k\r\n",
        "-ERR value is longer than 6 bytes\r\n$-1\r\n+OK\r\n$6\r\n123456\r\n",
    ),
    (
        "MSET a 1 b 1234567\r\nGET a\r\n",
        "-ERR value is longer than 6 bytes\r\n$-1\r\n",
    ),
    (
        "PING\r\n*x\r\nPING\r\n",
        "+PONG\r\n-ERR Protocol error: invalid multibulk length\r\n",
    ),
    ("SET k a\r\nQUIT\r\nPING\r\n", "+OK\r\n+OK\r\n"),
    ("PING\r\nSET k a", "+PONG\r\n"),
    ("PING\r\n*1\r\n$4\r\nPING\r", "+PONG\r\n"),
];

// However long the reads are.
#[test]
fn replies_to_each_command(rt: HostRuntime) {
    for (bytes, text) in REPLIES {
        let mut long = [0; 200];
        let (_, out) = served(rt.alloc(), None, &mut long, bytes.as_bytes());
        assert!(rt; out.as_slice() == text.as_bytes(), "{bytes:?}");
        let mut short = [0; 3];
        let (_, out) = served(rt.alloc(), None, &mut short, bytes.as_bytes());
        assert!(rt; out.as_slice() == text.as_bytes(), "{bytes:?}");
    }
}

// The SHA-1 digest of `secret`.
const DIGEST: [u8; 20] = [
    0xe5, 0xe9, 0xfa, 0x1b, 0xa3, 0x1e, 0xcd, 0x1a, 0xe8, 0x4f, 0x75, 0xca, 0xaa, 0x47, 0x4f, 0x3a,
    0x66, 0x3f, 0x05, 0xf4,
];

// What a client sends to a server with the password `secret`, and the replies.
const GUARDED: [(&str, &str); 6] = [
    (
        "GET k\r\nPING\r\nINCR k\r\nHELLO 2\r\nQUIT\r\n",
        "-NOAUTH Authentication required.\r\n-NOAUTH Authentication required.\r\n-NOAUTH Authentication required.\r\n-NOAUTH Authentication required.\r\n+OK\r\n",
    ),
    (
        "AUTH other\r\nGET k\r\n",
        "-WRONGPASS invalid username-password pair or user is disabled.\r\n-NOAUTH Authentication required.\r\n",
    ),
    ("AUTH secret\r\nGET k\r\n", "+OK\r\n$-1\r\n"),
    (
        "auth default secret\r\nAUTH other\r\nPING\r\n",
        "+OK\r\n-WRONGPASS invalid username-password pair or user is disabled.\r\n+PONG\r\n",
    ),
    (
        "AUTH someone secret\r\nAUTH a b c\r\nPING\r\n",
        "-WRONGPASS invalid username-password pair or user is disabled.\r\n-ERR syntax error\r\n-NOAUTH Authentication required.\r\n",
    ),
    (
        "*x\r\n",
        "-ERR Protocol error: invalid multibulk length\r\n",
    ),
];

#[test]
fn lets_in_who_knows_the_password(rt: HostRuntime) {
    let mut buffer = [0; 200];
    for (bytes, text) in GUARDED {
        let (_, out) = served(rt.alloc(), Some(DIGEST), &mut buffer, bytes.as_bytes());
        assert!(rt; out.as_slice() == text.as_bytes(), "{bytes:?}");
    }
    let greeting = b"HELLO 2 AUTH default secret SETNAME n\r\nPING\r\n".as_slice();
    let (_, out) = served(rt.alloc(), Some(DIGEST), &mut buffer, greeting);
    assert!(rt; out.ends_with(b"*0\r\n+PONG\r\n"));
}

#[test]
fn says_how_it_ended(rt: HostRuntime) {
    let mut buffer = [0; 200];
    for (bytes, end) in [
        ("PING\r\n", RespEnd::End),
        ("", RespEnd::End),
        ("QUIT\r\nPING\r\n", RespEnd::Closed),
        ("*x\r\nPING\r\n", RespEnd::Closed),
    ] {
        let (ended, _) = served(rt.alloc(), None, &mut buffer, bytes.as_bytes());
        assert!(rt; ended == end, "{bytes:?}");
    }
}

// A browser gets no reply.
#[test]
fn replies_to_no_browser(rt: HostRuntime) {
    let mut buffer = [0; 200];
    let request = b"POST / HTTP/1.1\r\nHost: a\r\n\r\nSET k a\r\n".as_slice();
    let (end, out) = served(rt.alloc(), None, &mut buffer, request);
    assert!(rt; end == RespEnd::End);
    assert!(rt; out.is_empty());
}

// If a request for memory is refused, the session ends, and what was written are the first replies.
#[test]
fn ends_where_memory_is_refused(rt: HostRuntime) {
    let mut buffer = [0; 14];
    let bytes = b"SET k abc\r\nGET k\r\nMGET k k\r\nDEL k\r\nPING\r\n".as_slice();
    let due = b"+OK\r\n$3\r\nabc\r\n*2\r\n$3\r\nabc\r\n$3\r\nabc\r\n:1\r\n+PONG\r\n".as_slice();
    let (end, out) = served(rt.alloc(), None, &mut buffer, bytes);
    if end == RespEnd::End {
        return;
    }
    assert!(rt; [RespEnd::NoMemory, RespEnd::WriteFault].contains(&end));
    assert!(rt; due.starts_with(&out));
}
