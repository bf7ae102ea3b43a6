// Sessions of Redis clients over an answerer that counts its calls: which commands are done together.
ghost use Rattle.std.specs.Prelude.{◌<◌, ◌≤◌, length};

use crate::wire::batches::{Calls, InCall};
use silt_resp::{Settings, resp_session};
use std::alloc::{AllocError, Global};
use std::io::Cursor;
use std::process::Abort;
use std::test::Fail;

// How many calls a session makes over these bytes, and what it writes.
fn counted(alloc: Global, value_len: usize, buffer: &mut [u8], bytes: &[u8]) -> (u64, Vec<u8>)
    requires some { 0 < length buffer.old }
    requires room { 2 ≤ value_len }
{
    let settings = Settings {
        value_len,
        password: None,
        id: 1,
    };
    let mut calls = Calls {
        inner: InCall { value_len, call: 0 },
    };
    let reader = Cursor::new(bytes);
    let mut out = Vec::new(alloc);
    let _ = resp_session(alloc, &settings, buffer, reader, &mut out, &mut calls);
    (calls.inner.call, out)
}

// Four commands with events, and some that have none among them.
const COMMANDS: &[u8] =
    b"SET a 1\r\nPING\r\nGET a\r\nx\r\nMSET a 1 b 2\r\nDEL a b\r\nQUIT\r\nGET a\r\n";

// The replies, if all is accepted and no key has a value.
const DUE: &[u8] = b"+OK\r\n+PONG\r\n$-1\r\n-ERR unknown command 'x'\r\n+OK\r\n:0\r\n+OK\r\n";

// The commands of one read are done in one call, up to the end of the session.
#[test]
fn does_the_commands_of_a_read_together(rt: HostRuntime) {
    let mut buffer = [0; 100];
    let (calls, out) = counted(rt.alloc(), 8, &mut buffer, COMMANDS);
    assert!(rt; calls == 1);
    assert!(rt; out.as_slice() == DUE);
}

// With short reads each is done alone, and none for a command without events.
#[test]
fn does_each_command_if_reads_are_short(rt: HostRuntime) {
    let mut buffer = [0; 1];
    let (calls, out) = counted(rt.alloc(), 8, &mut buffer, COMMANDS);
    assert!(rt; calls == 4);
    assert!(rt; out.as_slice() == DUE);
}

// This command, so many times.
fn repeated(alloc: Global, command: &[u8], count: usize) -> Result<Vec<u8>, AllocError> {
    let mut bytes = Vec::new(alloc);
    for _ in 0..count {
        bytes.extend_from_slice(command)?;
    }
    Ok(bytes)
}

// A call takes no more commands once their replies may have 65,536 bytes: 4,173 for each get of a value of 4,096 bytes, and
// 68 for each command without a value.
#[test]
fn divides_what_may_have_long_replies(rt: HostRuntime) -> Result<(), Fail> {
    let cases: [(&[u8], usize, u64); 4] = [
        (b"GET a\r\n", 16, 1),
        (b"GET a\r\n", 17, 2),
        (b"SET a b\r\n", 964, 1),
        (b"SET a b\r\n", 965, 2),
    ];
    for (command, count, due) in cases {
        let bytes = repeated(rt.alloc(), command, count)?;
        let mut buffer = vec![in rt.alloc(); 0u8; 65_536]?;
        let (calls, _) = counted(rt.alloc(), 4_096, &mut buffer, &bytes);
        assert!(rt; calls == due);
    }
    Ok(())
}

// The values of a command have at most 1 MiB together.
#[test]
fn refuses_too_many_keys(rt: HostRuntime) {
    let mut buffer = [0; 100];
    let sixteen = b"MGET 1 2 3 4 5 6 7 8 9 a b c d e f g\r\n".as_slice();
    let (calls, out) = counted(rt.alloc(), 65_536, &mut buffer, sixteen);
    assert!(rt; calls == 1);
    assert!(rt; out.starts_with(b"*16\r\n$-1\r\n"));
    let more = b"DEL 1 2 3 4 5 6 7 8 9 a b c d e f g h\r\n".as_slice();
    let (calls, out) = counted(rt.alloc(), 65_536, &mut buffer, more);
    assert!(rt; calls == 0);
    assert!(rt; out.as_slice() == b"-ERR too many keys\r\n".as_slice());
}
