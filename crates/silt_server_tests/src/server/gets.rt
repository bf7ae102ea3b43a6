// Gets of Redis clients: what they wait for, and what not.

use crate::server::{Clients, connected, is_served_within, limits_of, read_lines};
use silt_desk::{Gate, Spot};
use silt_device::{Call, Disk, FaultDisk, Geometry};
use silt_event::Facts;
use silt_fixtures::{of_values, reaches};
use silt_manifest::{Body, Digests};
use silt_server::{Limits, Protocol};
use silt_store_set::Core;
use silt_view::{Moment, ReadFault, Viewed, read_within};
use std::alloc::Global;
use std::io::{self, Write};
use std::net::{Net, SocketAddr, TcpListener, TcpStream};
use std::sync::Wait;
use std::sync::atomic::{AtomicU64, Ordering};
use std::test::Fail;
use std::thread::Threads;
use std::time::Clock;

/// How many calls the writer has begun, how many reads the disk has had, and what a test waits for.
#[derive(Drop)]
struct Counts {
    passes: AtomicU64,
    reads: AtomicU64,
    opened: AtomicU64,
    missed: AtomicU64,
}

impl Counts {
    fn new() -> Counts {
        Counts {
            passes: AtomicU64::new(0),
            reads: AtomicU64::new(0),
            opened: AtomicU64::new(0),
            missed: AtomicU64::new(0),
        }
    }

    // Waits until so many of these happened, and notes it if they did not.
    fn wait_for<R: Clock>(&self, rt: &R, mark: &AtomicU64, least: u64) {
        if !reaches(rt, mark, least) {
            self.missed.store(1, Ordering::SeqCst);
        }
    }
}

/// A disk that counts its reads.
#[derive(Drop)]
struct Counted<'a, D: Disk> {
    disk: D,
    counts: &'a Counts,
}

impl<D: Disk> Disk for Counted<'_, D> {
    type Fault = D::Fault;

    ghost content = { λ m. D.content m.disk };

    ghost failures = { λ m. D.failures m.disk };

    ghost writes = { λ m. D.writes m.disk };

    ghost syncs = { λ m. D.syncs m.disk };

    ghost gave = { λ m fault call at count. D.gave m.disk fault call at count };

    fn len(&self) -> u64 {
        self.disk.len()
    }

    fn read(&self, at: u64, buf: &mut [u8]) -> Result<(), D::Fault> {
        self.counts.reads.fetch_add(1, Ordering::SeqCst);
        self.disk.read(at, buf)
    }

    fn write(&mut self, at: u64, buf: &[u8]) -> Result<(), D::Fault> {
        self.disk.write(at, buf)
    }

    fn sync(&mut self) -> Result<(), D::Fault> {
        self.disk.sync()
    }
}

impl Viewed for Counted<'_, FaultDisk> {
    fn geometry_in(core: &Core<Self>) -> Geometry {
        core.geometry()
    }

    fn facts_in(core: &Core<Self>) -> Facts {
        core.facts()
    }

    fn named_in(core: &Core<Self>) -> (Body, Digests) {
        core.named()
    }

    fn note_in(core: &Core<Self>, moment: &mut Moment) -> Result<(), ReadFault<Self::Fault>> {
        moment.note(core)
    }

    fn read_in(core: &Core<Self>, at: u64, buf: &mut [u8]) -> Result<(), ReadFault<Self::Fault>> {
        read_within(core, at, buf)
    }
}

/// Holds the writer before the call with this number, from 0, until it is opened.
#[derive(Drop)]
struct HoldsCall<'a, R: Clock> {
    rt: &'a R,
    counts: &'a Counts,
    call: u64,
}

impl<R: Clock> Gate for HoldsCall<'_, R> {
    fn pass(&self, spot: Spot) {
        let counts = self.counts;
        if spot == Spot::Writer && counts.passes.fetch_add(1, Ordering::SeqCst) == self.call {
            counts.wait_for(self.rt, &counts.opened, 1);
        }
    }
}

/// A client that sets a string while the writer is held before the flush. Another one gets it, with a reply of so many
/// lines.
#[derive(Drop)]
struct GetBeforeFlush<'a, R> {
    rt: &'a R,
    counts: &'a Counts,
    lines: u32,
}

impl<R: Net<Stream = TcpStream> + Clock + Sync> Clients for GetBeforeFlush<'_, R> {
    fn ask(&self, addr: SocketAddr, got: &mut Vec<u8>) -> io::Result<()> {
        let mut first = connected(self.rt, addr)?;
        let mut second = connected(self.rt, addr)?;
        let counts = self.counts;
        first.write_all(b"SET a 1\r\n")?;
        counts.wait_for(self.rt, &counts.passes, 2);
        let reads = counts.reads.load(Ordering::SeqCst);
        second.write_all(b"GET a\r\n")?;
        counts.wait_for(self.rt, &counts.reads, reads.saturating_add(1));
        counts.opened.store(1, Ordering::SeqCst);
        read_lines(&mut second, got, self.lines)?;

        // By now the writer has begun two calls for the first client, and two for the flush of the get.
        if counts.passes.load(Ordering::SeqCst) < 4 {
            got.extend_from_slice(b"too early\n")?;
        }
        read_lines(&mut first, got, 1)
    }
}

/// A client that sets a string. Then it sets another one while the writer is held, and gets the first one.
#[derive(Drop)]
struct GetBesideSet<'a, R> {
    rt: &'a R,
    counts: &'a Counts,
}

impl<R: Net<Stream = TcpStream> + Clock + Sync> Clients for GetBesideSet<'_, R> {
    fn ask(&self, addr: SocketAddr, got: &mut Vec<u8>) -> io::Result<()> {
        let mut stream = connected(self.rt, addr)?;
        let counts = self.counts;
        stream.write_all(b"SET a 1\r\n")?;
        read_lines(&mut stream, got, 1)?;
        let reads = counts.reads.load(Ordering::SeqCst);
        stream.write_all(b"SET b 2\r\nGET a\r\n")?;
        counts.wait_for(self.rt, &counts.reads, reads.saturating_add(1));
        counts.opened.store(1, Ordering::SeqCst);
        read_lines(&mut stream, got, 3)
    }
}

// A disk none of whose calls fails.
fn sound(alloc: Global) -> Result<FaultDisk, Fail> {
    Ok(FaultDisk::new(of_values(alloc, 8)?, Call::Sync, 1_000_000))
}

// Whether clients get these replies while the writer is held before this call.
fn are_served<
    C: Clients,
    R: Net<Listener = TcpListener, Stream = TcpStream> + Clock + Threads + Wait + Sync,
>(
    alloc: Global,
    disk: FaultDisk,
    gate: &HoldsCall<'_, R>,
    sessions: u32,
    clients: &C,
    due: &[u8],
) -> Result<bool, Fail> {
    let counts = gate.counts;
    let disk = Counted { disk, counts };
    let limits = Limits {
        protocol: Protocol::Resp,
        ..limits_of(sessions, None)
    };
    let is_served = is_served_within(gate.rt, alloc, disk, limits, gate, clients, due)?;
    Ok(is_served && counts.missed.load(Ordering::SeqCst) == 0)
}

#[test]
fn a_get_of_what_is_not_flushed_waits_for_a_flush(rt: HostRuntime) -> Result<(), Fail> {
    let counts = Counts::new();
    let clients = GetBeforeFlush {
        rt: &rt,
        counts: &counts,
        lines: 2,
    };
    let due = b"$1\r\n1\r\n+OK\r\n";
    let disk = sound(rt.alloc())?;
    let gate = HoldsCall {
        rt: &rt,
        counts: &counts,
        call: 1,
    };
    assert!(rt; are_served(rt.alloc(), disk, &gate, 2, &clients, due)?);
    Ok(())
}

// The flush behind the set is refused, and then the one behind the get.
#[test]
fn a_get_of_what_is_not_flushed_is_refused_with_its_flush(rt: HostRuntime) -> Result<(), Fail> {
    let counts = Counts::new();
    let clients = GetBeforeFlush {
        rt: &rt,
        counts: &counts,
        lines: 1,
    };
    let due = b"-MISCONF 9 Failed\r\n-UNSETTLED the flush was refused, a crash may lose this\r\n";
    let disk = FaultDisk::new(of_values(rt.alloc(), 8)?, Call::Sync, 2);
    let gate = HoldsCall {
        rt: &rt,
        counts: &counts,
        call: 1,
    };
    assert!(rt; are_served(rt.alloc(), disk, &gate, 2, &clients, due)?);
    Ok(())
}

#[test]
fn a_get_of_another_key_does_not_wait(rt: HostRuntime) -> Result<(), Fail> {
    let counts = Counts::new();
    let clients = GetBesideSet {
        rt: &rt,
        counts: &counts,
    };
    let due = b"+OK\r\n+OK\r\n$1\r\n1\r\n";
    let disk = sound(rt.alloc())?;
    let gate = HoldsCall {
        rt: &rt,
        counts: &counts,
        call: 2,
    };
    assert!(rt; are_served(rt.alloc(), disk, &gate, 1, &clients, due)?);
    Ok(())
}
