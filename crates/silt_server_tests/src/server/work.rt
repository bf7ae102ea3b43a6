// Background work that a server does for its clients.

use crate::server::{Clients, ask_lines, connected, limits_of, serve_beside};
use silt_desk::OpenGate;
use silt_event::{Layout, Report};
use silt_fixtures::{formatted, opened_on};
use silt_recovery::check;
use std::alloc::Global;
use std::io;
use std::net::{Net, SocketAddr, TcpListener, TcpStream};
use std::sync::Wait;
use std::test::Fail;
use std::thread::Threads;
use std::time::Clock;

const FIVE_PUTS: &[u8] = b"put 0100000000000000000000000000000000000000 0001\n\
    put 0200000000000000000000000000000000000000 0002\n\
    put 0300000000000000000000000000000000000000 0003\n\
    put 0400000000000000000000000000000000000000 0004\n\
    put 0500000000000000000000000000000000000000 0005\n";

const ACCEPTED: &[u8] = b"accepted 1\naccepted 2\naccepted 3\naccepted 4\naccepted 5\n";

/// A client that sends five puts.
#[derive(Drop)]
struct PutsFive<'a, R> {
    rt: &'a R,
}

impl<R: Net<Stream = TcpStream> + Sync> Clients for PutsFive<'_, R> {
    fn ask(&self, addr: SocketAddr, got: &mut Vec<u8>) -> io::Result<()> {
        let mut stream = connected(self.rt, addr)?;
        ask_lines(&mut stream, FIVE_PUTS, got, 5)
    }
}

// Serves the five puts. Returns the status and the report of the store on the disk that comes back.
fn put_five<R: Net<Listener = TcpListener, Stream = TcpStream> + Threads + Wait + Clock + Sync>(
    rt: &R,
    alloc: Global,
    written: &mut Vec<u8>,
    got: &mut Vec<u8>,
) -> Result<(u8, Report), Fail> {
    let listener = TcpListener::bind(rt, ("127.0.0.1", 0u16))?;
    let core = opened_on(alloc, formatted(alloc)?)?;
    let clients = PutsFive { rt };
    let limits = limits_of(1, Some(100));
    let (disk, status) = serve_beside(
        rt, alloc, &listener, core, limits, &OpenGate, &clients, written, got,
    );
    let report = check(alloc, &disk).ok();
    drop(disk);
    Ok((status?, report.ok_or("a report")?))
}

// The report of the store behind the fifth put and all background work.
const LEFT: Report = Report {
    generation: 3,
    active: 1,
    active_rows: 1,
    frozen: 0,
    frozen_rows: 0,
    hashes: 0,
    hash_rows: 0,
    entries: 4,
    charge: 5,
    layout: Layout::Two,
};

fn is_left(report: Report) -> bool {
    report == LEFT
}

// The fifth put freezes a log of four rows. The server finishes the background work: a conversion
// of nine steps, and a merge of thirteen. With the five puts and their flushes these are thirty-two
// calls.
#[test]
fn finishes_what_is_wanted(rt: HostRuntime) -> Result<(), Fail> {
    let alloc = rt.alloc();
    let mut written = Vec::new(alloc);
    let mut got = Vec::new(alloc);
    let (status, report) = put_five(&rt, alloc, &mut written, &mut got)?;
    assert!(rt; got.as_slice() == ACCEPTED);
    assert!(rt; written.as_slice().ends_with(b"\ncalls 32\n"));
    assert!(rt; status == 0 && is_left(report));
    Ok(())
}
