// A network that fails before the port is known.

use crate::server::limits_of;
use silt_desk::OpenGate;
use silt_device::Disk;
use silt_fixtures::opened;
use silt_recovery::check;
use silt_server::{Listens, NoCare, Server};
use silt_session::Board;
use std::alloc::Global;
use std::io::{self, ErrorKind};
use std::net::TcpStream;
use std::sync::Wait;
use std::test::Fail;
use std::thread::Threads;
use std::time::Clock;

/// A listener without a port, to which nobody can connect.
#[derive(Drop)]
struct Portless;

impl Listens for Portless {
    ghost has_port = { λ listener port. Unit {0} };

    fn port(&self) -> io::Result<u16> {
        Err(io::Error::from(ErrorKind::NotConnected))
    }

    fn wait(&self) -> io::Result<TcpStream> {
        Err(io::Error::from(ErrorKind::NotConnected))
    }

    fn wake(&self) {}
}

// Whether an empty store is on the disk.
fn is_empty<D: Disk>(alloc: Global, disk: &D) -> bool {
    match check(alloc, disk) {
        Ok(report) => (report.generation, report.active_rows, report.charge) == (0, 0, 0),
        Err(_) => false,
    }
}

// Serves an empty store without a port. Returns the status, and whether the store is still empty.
fn serve_portless<R: Threads + Wait + Clock + Sync>(
    rt: &R,
    alloc: Global,
    written: &mut Vec<u8>,
) -> Result<(u8, bool), Fail> {
    let core = opened(alloc)?;
    let server = Server {
        rt,
        alloc,
        listener: &Portless,
        limits: limits_of(1, None),
        gate: &OpenGate,
        board: &Board::new(rt, false),
        care: &NoCare,
    };
    let (disk, status) = server.serve(core, written);
    let is_empty = is_empty(alloc, &disk);
    drop(disk);
    Ok((status?, is_empty))
}

#[test]
fn reports_that_its_port_is_not_known(rt: HostRuntime) -> Result<(), Fail> {
    let alloc = rt.alloc();
    let mut written = Vec::new(alloc);
    let found = serve_portless(&rt, alloc, &mut written)?;
    assert!(rt; found == (1, true));
    assert!(rt; written.as_slice() == b"opened\nnetwork fault\n".as_slice());
    Ok(())
}
