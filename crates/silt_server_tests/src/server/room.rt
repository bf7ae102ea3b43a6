// A command that is refused for want of room waits for a worker, and gets go on meanwhile.

use crate::server::{Clients, ask_lines, connected, is_served, read_lines};
use silt_desk::{Gate, Spot};
use silt_device::{Call, FaultDisk, Geometry, MemDisk};
use silt_fixtures::{formatted_with, reaches};
use silt_view::Viewed;
use std::alloc::Global;
use std::io::{self, Write};
use std::net::{Net, SocketAddr, TcpListener, TcpStream};
use std::sync::Wait;
use std::sync::atomic::{AtomicU64, Ordering};
use std::test::Fail;
use std::thread::Threads;
use std::time::Clock;

/// Holds the converter until it is opened, and notes that the writer waits.
#[derive(Drop)]
struct HoldsConverter<'a, R: Clock> {
    rt: &'a R,
    waits: &'a AtomicU64,
    opened: &'a AtomicU64,
}

impl<R: Clock> Gate for HoldsConverter<'_, R> {
    fn pass(&self, spot: Spot) {
        if spot == Spot::Converter {
            let _ = reaches(self.rt, self.opened, 1);
        }
    }

    fn rest(&self, spot: Spot) {
        if spot == Spot::Writer {
            self.waits.fetch_add(1, Ordering::SeqCst);
        }
    }
}

// They fill both logs.
const EIGHT_PUTS: &[u8] = b"put 0100000000000000000000000000000000000000 0001\n\
    put 0200000000000000000000000000000000000000 0002\n\
    put 0300000000000000000000000000000000000000 0003\n\
    put 0400000000000000000000000000000000000000 0004\n\
    put 0500000000000000000000000000000000000000 0005\n\
    put 0600000000000000000000000000000000000000 0006\n\
    put 0700000000000000000000000000000000000000 0007\n\
    put 0800000000000000000000000000000000000000 0008\n";

// A ninth key for the store, by a swap from no value.
const NINTH: &[u8] = b"swap 0900000000000000000000000000000000000000 - 0009\n";

const GETS: &[u8] = b"get 0800000000000000000000000000000000000000\n\
    get 0900000000000000000000000000000000000000\n";

/// A client that sends eight puts, and a swap that waits. Meanwhile another one gets two keys, and only then frees
/// the converter.
#[derive(Drop)]
struct PutWaits<'a, R> {
    rt: &'a R,
    waits: &'a AtomicU64,
    opened: &'a AtomicU64,
}

impl<R: Net<Stream = TcpStream> + Clock + Sync> Clients for PutWaits<'_, R> {
    fn ask(&self, addr: SocketAddr, got: &mut Vec<u8>) -> io::Result<()> {
        let mut puts = connected(self.rt, addr)?;
        let mut gets = connected(self.rt, addr)?;
        ask_lines(&mut puts, EIGHT_PUTS, got, 8)?;
        puts.write_all(NINTH)?;
        let _ = reaches(self.rt, self.waits, 1);
        ask_lines(&mut gets, GETS, got, 2)?;
        self.opened.store(1, Ordering::SeqCst);
        read_lines(&mut puts, got, 1)
    }
}

// An empty store whose two logs have room for four rows each.
fn of_small_logs(alloc: Global) -> Result<MemDisk, Fail> {
    let geometry = Geometry::new(2, 2, 4, 2, 2, 64).ok().ok_or("in limits")?;
    formatted_with(alloc, geometry)
}

// Whether these are the replies, and the writer waited.
fn gets_so<
    D: Viewed,
    R: Net<Listener = TcpListener, Stream = TcpStream> + Clock + Threads + Wait + Sync,
>(rt: &R, alloc: Global, disk: D, due: &[u8]) -> Result<bool, Fail> {
    let (waits, opened) = (AtomicU64::new(0), AtomicU64::new(0));
    let gate = HoldsConverter {
        rt,
        waits: &waits,
        opened: &opened,
    };
    let clients = PutWaits {
        rt,
        waits: &waits,
        opened: &opened,
    };
    let is_served = is_served(rt, alloc, disk, 2, &gate, &clients, due)?;
    Ok(is_served && waits.load(Ordering::SeqCst) > 0)
}

const ACCEPTED: &[u8] = b"accepted 1\naccepted 2\naccepted 3\naccepted 4\naccepted 5\naccepted 6\n\
    accepted 7\naccepted 8\nvalue 0008\nabsent\naccepted 9\n";

#[test]
fn is_accepted_once_a_conversion_is_finished(rt: HostRuntime) -> Result<(), Fail> {
    let disk = of_small_logs(rt.alloc())?;
    assert!(rt; gets_so(&rt, rt.alloc(), disk, ACCEPTED)?);
    Ok(())
}

const FAILED: &[u8] = b"accepted 1\naccepted 2\naccepted 3\naccepted 4\naccepted 5\naccepted 6\n\
    accepted 7\naccepted 8\nvalue 0008\nabsent\nrefused 9 Failed\n";

// The twenty-ninth write is the first one of the conversion. Before it come two for each of eight
// rows and one for each of their flushes, and four to freeze the first log.
#[test]
fn is_refused_once_a_conversion_has_failed(rt: HostRuntime) -> Result<(), Fail> {
    let disk = FaultDisk::new(of_small_logs(rt.alloc())?, Call::Write, 29);
    assert!(rt; gets_so(&rt, rt.alloc(), disk, FAILED)?);
    Ok(())
}
