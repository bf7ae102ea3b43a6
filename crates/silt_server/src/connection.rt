// What one connection asks for.
ghost use Rattle.std.specs.Prelude.{◌<◌, length};

use crate::limits::{Limits, Protocol};
use silt_resp::{LENGTH_LEN, Settings, resp_session};
use silt_session::{Asking, Board, Client, Inlet, Outlet, end_gently, wait_by_ticks};
use silt_wire::client_session;
use std::alloc::Global;
use std::net::TcpStream;
use std::sync::Wait;
use std::sync::atomic::AtomicU64;
use std::time::Clock;

/// How many bytes one read of a session takes.
const READ_LEN: usize = 4_096;

/// How many bytes one read of a session takes that pipelines.
const PIPELINED_READ_LEN: usize = 262_144;

/// How many bytes one read of a Redis client's session takes.
const RESP_READ_LEN: usize = 65_536;

// How many bytes one read takes.
fn read_len(protocol: Protocol) -> usize
    ensures { 0 < result }
{
    match protocol {
        Protocol::Lines => READ_LEN,
        Protocol::PipelinedLines => PIPELINED_READ_LEN,
        Protocol::Resp => RESP_READ_LEN,
    }
}

/// One connection of a server, and what its session needs besides its events.
#[derive(Drop)]
pub struct Connection<'a, R> {
    pub rt: &'a R,
    pub alloc: Global,
    pub board: &'a Board,
    pub limits: Limits,
    pub value_len: usize,
    /// Its number, which no other connection of the server has.
    pub number: u64,
    pub stream: &'a TcpStream,
}

impl<R: Wait + Clock> Connection<'_, R> {
    /// Replies to the lines or commands of the connection, with events asked this way, until the client or the server ends. If out
    /// of memory for the bytes of a read, or if commands come and values have no room for a string's length, it gets no reply.
    pub fn answer<A: Asking>(&self, asking: A)
        requires { A.can_ask asking }
    {
        let stream = self.stream;
        let _ = stream.set_nodelay(true); // without it replies come later
        if wait_by_ticks(stream).is_err() {
            return;
        }
        let Ok(mut buffer) = vec![in self.alloc; 0u8; read_len(self.limits.protocol)] else {
            return;
        };
        let buffer = buffer.as_mut_slice();
        self.answer_with(asking, buffer);
        if self.board.is_ending() {
            end_gently(self.rt, stream, buffer);
        }
    }

    // Replies to them, with this buffer for the bytes of a read.
    fn answer_with<A: Asking>(&self, asking: A, buffer: &mut [u8])
        requires can { A.can_ask asking }
        requires room { 0 < length buffer.old }
    {
        let (alloc, value_len, idle) = (self.alloc, self.value_len, self.limits.idle);
        let cut = AtomicU64::new(0);
        let pipelines = self.limits.protocol.pipelines();
        let mut client = Client::new(value_len, asking, pipelines, &cut, self.rt, self.board);
        let mut outlet = Outlet::new(self.rt, self.stream, &cut, self.board, idle);
        let inlet = Inlet {
            rt: self.rt,
            stream: self.stream,
            board: self.board,
            idle,
        };
        if self.limits.protocol != Protocol::Resp {
            let _ = client_session(alloc, value_len, buffer, inlet, &mut outlet, &mut client);
            return;
        }
        if value_len < LENGTH_LEN {
            return;
        }
        let settings = Settings {
            value_len,
            password: self.limits.password,
            id: u32::try_from(self.number).unwrap_or(u32::MAX),
        };
        let _ = resp_session(alloc, &settings, buffer, inlet, &mut outlet, &mut client);
    }
}
