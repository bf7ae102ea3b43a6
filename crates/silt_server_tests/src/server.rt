// Servers: the replies to clients over sockets, and what threads do at the same time.
//
// What needs no Rust of a server is in the suite from outside.

mod ends;
mod gets;
mod held;
mod looks;
mod lost;
mod network;
mod record;
mod replies;
mod room;
mod swaps;
mod ticks;
mod work;

use silt_desk::Gate;
use silt_device::{Geometry, MemDisk};
use silt_fixtures::{formatted_with, opened_on};
use silt_server::{Limits, NoCare, Protocol, Server};
use silt_session::Board;
use silt_store_set::Core;
use silt_view::Viewed;
use std::alloc::Global;
use std::io::{self, Read, Write};
use std::net::{Net, SocketAddr, TcpListener, TcpStream};
use std::sync::Wait;
use std::test::Fail;
use std::thread::{self, Threads};
use std::time::{Clock, Duration};

/// The clients of a server.
trait Clients: Sync {
    /// Asks at this address, and appends the replies.
    fn ask(&self, addr: SocketAddr, got: &mut Vec<u8>) -> io::Result<()>;
}

// Two ends of one connection.
fn both_ends<R: Net<Listener = TcpListener, Stream = TcpStream>>(
    rt: &R,
) -> io::Result<(TcpStream, TcpStream)> {
    let listener = TcpListener::bind(rt, ("127.0.0.1", 0u16))?;
    let near = TcpStream::connect(rt, listener.local_addr()?)?;
    let (far, _) = listener.accept()?;
    Ok((near, far))
}

// Limits of this many sessions and recorded calls. A silent connection is never ended.
fn limits_of(sessions: u32, audit: Option<u64>) -> Limits {
    Limits {
        sessions,
        clients: 64,
        password: None,
        audit,
        idle: None,
        wait: 10,
        protocol: Protocol::Lines,
    }
}

// An empty store whose first log has room for all rows of a test.
fn roomy(alloc: Global) -> Result<MemDisk, Fail> {
    let geometry = Geometry::new(2, 8_192, 16_384, 2, 2, 10_000)
        .ok()
        .ok_or("in limits")?;
    formatted_with(alloc, geometry)
}

// Lets the clients ask the server of this listener. If that fails, some replies are missing.
fn ask_at<C: Clients>(listener: &TcpListener, clients: &C, got: &mut Vec<u8>) {
    if let Ok(addr) = listener.local_addr() {
        let _ = clients.ask(addr, got);
    }
}

// Serves a store within these limits in one thread, and lets clients ask in another, until both are
// done. Returns the store's disk and the status.
fn serve_beside<D: Viewed, G: Gate + Sync, C: Clients, R: Threads + Wait + Clock + Sync>(
    rt: &R,
    alloc: Global,
    listener: &TcpListener,
    core: Core<D>,
    limits: Limits,
    gate: &G,
    clients: &C,
    written: &mut Vec<u8>,
    got: &mut Vec<u8>,
) -> (D, io::Result<u8>) {
    let (ended, ()) = thread::join(
        rt,
        || -> (D, io::Result<u8>) {
            let server = Server {
                rt,
                alloc,
                listener,
                limits,
                gate,
                board: &Board::new(rt, false),
                care: &NoCare,
            };
            server.serve(core, written)
        },
        || ask_at(listener, clients, got),
    );
    ended
}

// Whether the clients of a server get these replies, and the server ends well. It serves the store
// on this disk in so many sessions.
fn is_served<
    D: Viewed,
    G: Gate + Sync,
    C: Clients,
    R: Net<Listener = TcpListener, Stream = TcpStream> + Threads + Wait + Clock + Sync,
>(
    rt: &R,
    alloc: Global,
    disk: D,
    sessions: u32,
    gate: &G,
    clients: &C,
    due: &[u8],
) -> Result<bool, Fail> {
    let limits = limits_of(sessions, None);
    is_served_within(rt, alloc, disk, limits, gate, clients, due)
}

// The same within these limits.
fn is_served_within<
    D: Viewed,
    G: Gate + Sync,
    C: Clients,
    R: Net<Listener = TcpListener, Stream = TcpStream> + Threads + Wait + Clock + Sync,
>(
    rt: &R,
    alloc: Global,
    disk: D,
    limits: Limits,
    gate: &G,
    clients: &C,
    due: &[u8],
) -> Result<bool, Fail> {
    let listener = TcpListener::bind(rt, ("127.0.0.1", 0u16))?;
    let core = opened_on(alloc, disk)?;
    let mut written = Vec::new(alloc);
    let mut got = Vec::new(alloc);
    let (disk, status) = serve_beside(
        rt,
        alloc,
        &listener,
        core,
        limits,
        gate,
        clients,
        &mut written,
        &mut got,
    );
    drop(disk);
    Ok(is_zero(status) && got.as_slice() == due)
}

// Whether a server ended with status 0.
fn is_zero(status: io::Result<u8>) -> bool {
    match status {
        Ok(status) => status == 0,
        Err(_) => false,
    }
}

// A connection whose reads and writes wait for at most half a minute.
fn connected<R: Net<Stream = TcpStream>>(rt: &R, addr: SocketAddr) -> io::Result<TcpStream> {
    let stream = TcpStream::connect(rt, addr)?;
    stream.set_read_timeout(Some(Duration::from_secs(30)))?;
    stream.set_write_timeout(Some(Duration::from_secs(30)))?;
    Ok(stream)
}

// Appends the next so many lines of a server with their line feeds, or what comes before the
// connection ends.
fn read_lines(stream: &mut TcpStream, got: &mut Vec<u8>, count: u32) -> io::Result<()> {
    let mut left = count;
    let mut byte = [0u8; 1];
    for _ in 0..20_000u32 {
        if left == 0 || stream.read(&mut byte)? == 0 {
            break;
        }
        got.push(byte[0])?;
        if byte[0] == b'\n' {
            left = left.saturating_sub(1);
        }
    }
    Ok(())
}

// Sends so many lines, and appends the replies.
fn ask_lines(
    stream: &mut TcpStream,
    lines: &[u8],
    got: &mut Vec<u8>,
    count: u32,
) -> io::Result<()> {
    stream.write_all(lines)?;
    read_lines(stream, got, count)
}
