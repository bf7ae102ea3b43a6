// Gets of two sessions are looked up at the same time.

use crate::server::{Clients, ask_lines, connected, is_served, read_lines};
use silt_desk::{Gate, Spot};
use silt_device::{Disk, Geometry, MemDisk};
use silt_event::Facts;
use silt_fixtures::{formatted, reaches};
use silt_manifest::{Body, Digests};
use silt_store_set::Core;
use silt_view::{Moment, ReadFault, Viewed, read_within};
use std::io::{self, Write};
use std::net::{Net, SocketAddr, TcpStream};
use std::sync::atomic::{AtomicU64, Ordering};
use std::test::Fail;
use std::time::Clock;

/// How many reads have begun since they were armed, and whether one waited in vain.
#[derive(Drop)]
struct Reads {
    armed: AtomicU64,
    begun: AtomicU64,
    missed: AtomicU64,
}

impl Reads {
    // A read has begun. If they are armed it waits for a second one.
    fn meet<R: Clock>(&self, rt: &R) {
        if self.armed.load(Ordering::SeqCst) == 0 {
            return;
        }
        self.begun.fetch_add(1, Ordering::SeqCst);
        if !reaches(rt, &self.begun, 2) {
            self.missed.store(1, Ordering::SeqCst);
        }
    }
}

/// A disk whose next read, once armed, waits until a second read has begun.
#[derive(Drop)]
struct Meeting<'a, D: Disk, R: Clock> {
    disk: D,
    rt: &'a R,
    reads: &'a Reads,
}

impl<D: Disk, R: Clock + Send + Sync> Disk for Meeting<'_, D, R> {
    type Fault = D::Fault;

    ghost content = { λ m. D.content m.disk };

    ghost failures = { λ m. D.failures m.disk };

    ghost writes = { λ m. D.writes m.disk };

    ghost syncs = { λ m. D.syncs m.disk };

    ghost gave = { λ m fault call at count. D.gave m.disk fault call at count };

    fn len(&self) -> u64 {
        self.disk.len()
    }

    fn read(&self, at: u64, buf: &mut [u8]) -> Result<(), D::Fault> {
        self.reads.meet(self.rt);
        self.disk.read(at, buf)
    }

    fn write(&mut self, at: u64, buf: &[u8]) -> Result<(), D::Fault> {
        self.disk.write(at, buf)
    }

    fn sync(&mut self) -> Result<(), D::Fault> {
        self.disk.sync()
    }
}

impl Viewed for Meeting<'_, MemDisk, HostRuntime> {
    fn geometry_in(core: &Core<Self>) -> Geometry {
        core.geometry()
    }

    fn facts_in(core: &Core<Self>) -> Facts {
        core.facts()
    }

    fn named_in(core: &Core<Self>) -> (Body, Digests) {
        core.named()
    }

    fn note_in(core: &Core<Self>, moment: &mut Moment) -> Result<(), ReadFault<Self::Fault>> {
        moment.note(core)
    }

    fn read_in(core: &Core<Self>, at: u64, buf: &mut [u8]) -> Result<(), ReadFault<Self::Fault>> {
        read_within(core, at, buf)
    }
}

/// A gate that is open, and counts how often a worker rests.
#[derive(Drop)]
struct Resting<'a> {
    rests: &'a AtomicU64,
}

impl Gate for Resting<'_> {
    fn pass(&self, _spot: Spot) {}

    fn rest(&self, spot: Spot) {
        if spot != Spot::Writer {
            self.rests.fetch_add(1, Ordering::SeqCst);
        }
    }
}

/// A client that puts a key. Then it and another one ask for the key at once, when both workers rest: a worker that waits for the
/// store would let no second get in.
#[derive(Drop)]
struct AskBoth<'a, R> {
    rt: &'a R,
    reads: &'a Reads,
    rests: &'a AtomicU64,
}

impl<R: Net<Stream = TcpStream> + Clock + Sync> Clients for AskBoth<'_, R> {
    fn ask(&self, addr: SocketAddr, got: &mut Vec<u8>) -> io::Result<()> {
        let mut first = connected(self.rt, addr)?;
        let mut second = connected(self.rt, addr)?;
        let _ = reaches(self.rt, self.rests, 2);
        ask_both(&mut first, &mut second, self.reads, got)
    }
}

fn ask_both(
    first: &mut TcpStream,
    second: &mut TcpStream,
    reads: &Reads,
    got: &mut Vec<u8>,
) -> io::Result<()> {
    ask_lines(first, b"put =a 0102\n", got, 1)?;
    reads.armed.store(1, Ordering::SeqCst);
    first.write_all(b"get =a\n")?;
    second.write_all(b"get =a\n")?;
    read_lines(first, got, 1)?;
    read_lines(second, got, 1)
}

// Both get the value. There is no background work, so no other thread reads.
#[test]
fn two_looks(rt: HostRuntime) -> Result<(), Fail> {
    let reads = Reads {
        armed: AtomicU64::new(0),
        begun: AtomicU64::new(0),
        missed: AtomicU64::new(0),
    };
    let disk = Meeting {
        disk: formatted(rt.alloc())?,
        rt: &rt,
        reads: &reads,
    };
    let rests = AtomicU64::new(0);
    let gate = Resting { rests: &rests };
    let clients = AskBoth {
        rt: &rt,
        reads: &reads,
        rests: &rests,
    };
    let due = b"accepted 1\nvalue 0102\nvalue 0102\n";
    let both_find = is_served(&rt, rt.alloc(), disk, 2, &gate, &clients, due)?;
    assert!(rt; both_find);
    assert!(rt; reads.missed.load(Ordering::SeqCst) == 0);
    Ok(())
}
