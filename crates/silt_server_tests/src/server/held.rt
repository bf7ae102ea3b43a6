// Clients get replies between two steps of the converter.

use crate::server::{Clients, ask_lines, connected, is_served};
use silt_desk::{Gate, Spot};
use silt_device::{Disk, Geometry, MemDisk};
use silt_event::Facts;
use silt_fixtures::{formatted, reaches};
use silt_manifest::{Body, Digests};
use silt_store_set::Core;
use silt_view::{Moment, ReadFault, Viewed, read_within};
use std::alloc::Global;
use std::io;
use std::net::{Net, SocketAddr, TcpListener, TcpStream};
use std::sync::Wait;
use std::sync::atomic::{AtomicU64, Ordering};
use std::test::Fail;
use std::thread::Threads;
use std::time::Clock;

/// What happened so far.
#[derive(Drop)]
struct Marks {
    hash_writes: AtomicU64,
    held: AtomicU64,
    opened: AtomicU64,
    missed: AtomicU64,
}

impl Marks {
    // Waits until this happened, and notes it if it did not.
    fn wait_for<R: Clock>(&self, rt: &R, mark: &AtomicU64) {
        if !reaches(rt, mark, 1) {
            self.missed.store(1, Ordering::SeqCst);
        }
    }
}

/// Holds the converter at its first pass after the first write in a hash region, until it is opened.
#[derive(Drop)]
struct Hold<'a, R: Clock> {
    rt: &'a R,
    marks: &'a Marks,
}

impl<R: Clock> Gate for Hold<'_, R> {
    fn pass(&self, spot: Spot) {
        let marks = self.marks;
        if spot != Spot::Converter || marks.hash_writes.load(Ordering::SeqCst) == 0 {
            return;
        }
        if marks.held.fetch_add(1, Ordering::SeqCst) == 0 {
            marks.wait_for(self.rt, &marks.opened);
        }
    }
}

/// A disk that marks writes in the hash regions of the small geometry.
#[derive(Drop)]
struct Marked<'a, D: Disk> {
    disk: D,
    marks: &'a Marks,
}

impl<D: Disk> Disk for Marked<'_, D> {
    type Fault = D::Fault;

    ghost content = { λ m. D.content m.disk };

    ghost failures = { λ m. D.failures m.disk };

    ghost writes = { λ m. D.writes m.disk };

    ghost syncs = { λ m. D.syncs m.disk };

    ghost gave = { λ m fault call at count. D.gave m.disk fault call at count };

    fn len(&self) -> u64 {
        self.disk.len()
    }

    fn read(&self, at: u64, buf: &mut [u8]) -> Result<(), D::Fault> {
        self.disk.read(at, buf)
    }

    fn write(&mut self, at: u64, buf: &[u8]) -> Result<(), D::Fault> {
        if 28_672 <= at && at < 36_864 {
            self.marks.hash_writes.fetch_add(1, Ordering::SeqCst);
        }
        self.disk.write(at, buf)
    }

    fn sync(&mut self) -> Result<(), D::Fault> {
        self.disk.sync()
    }
}

impl Viewed for Marked<'_, MemDisk> {
    fn geometry_in(core: &Core<Self>) -> Geometry {
        core.geometry()
    }

    fn facts_in(core: &Core<Self>) -> Facts {
        core.facts()
    }

    fn named_in(core: &Core<Self>) -> (Body, Digests) {
        core.named()
    }

    fn note_in(core: &Core<Self>, moment: &mut Moment) -> Result<(), ReadFault<Self::Fault>> {
        moment.note(core)
    }

    fn read_in(core: &Core<Self>, at: u64, buf: &mut [u8]) -> Result<(), ReadFault<Self::Fault>> {
        read_within(core, at, buf)
    }
}

const FIVE_PUTS: &[u8] = b"put 0100000000000000000000000000000000000000 0001\n\
    put 0200000000000000000000000000000000000000 0002\n\
    put 0300000000000000000000000000000000000000 0003\n\
    put 0400000000000000000000000000000000000000 0004\n\
    put 0500000000000000000000000000000000000000 0005\n";

const THEN: &[u8] = b"put 0600000000000000000000000000000000000000 0006\n\
    get 0600000000000000000000000000000000000000\n\
    flush\n";

const DUE: &[u8] = b"accepted 1\naccepted 2\naccepted 3\naccepted 4\naccepted 5\n\
    accepted 6\nvalue 0006\nacknowledged 6\n";

/// A client that sends five puts; then, while the converter is held, a put, a get and a flush. Only
/// then it frees the converter.
#[derive(Drop)]
struct AskWhileHeld<'a, R> {
    rt: &'a R,
    marks: &'a Marks,
}

impl<R: Net<Stream = TcpStream> + Clock + Sync> Clients for AskWhileHeld<'_, R> {
    fn ask(&self, addr: SocketAddr, got: &mut Vec<u8>) -> io::Result<()> {
        let mut stream = connected(self.rt, addr)?;
        ask_lines(&mut stream, FIVE_PUTS, got, 5)?;
        self.marks.wait_for(self.rt, &self.marks.held);
        ask_lines(&mut stream, THEN, got, 3)?;
        self.marks.opened.store(1, Ordering::SeqCst);
        Ok(())
    }
}

// Whether the replies are those while the converter is held.
fn is_served_while_held<
    R: Net<Listener = TcpListener, Stream = TcpStream> + Clock + Threads + Wait + Sync,
>(rt: &R, alloc: Global, marks: &Marks) -> Result<bool, Fail> {
    let disk = Marked {
        disk: formatted(alloc)?,
        marks,
    };
    let gate = Hold { rt, marks };
    let clients = AskWhileHeld { rt, marks };
    is_served(rt, alloc, disk, 1, &gate, &clients, DUE)
}

#[test]
fn held_server(rt: HostRuntime) -> Result<(), Fail> {
    let marks = Marks {
        hash_writes: AtomicU64::new(0),
        held: AtomicU64::new(0),
        opened: AtomicU64::new(0),
        missed: AtomicU64::new(0),
    };
    assert!(rt; is_served_while_held(&rt, rt.alloc(), &marks)?);
    assert!(rt; marks.missed.load(Ordering::SeqCst) == 0);
    Ok(())
}
