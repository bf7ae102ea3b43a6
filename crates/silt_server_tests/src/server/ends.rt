// A server that is told to end, one whose store fails, and a gate that is closed.

use crate::server::{Clients, ask_lines, connected, is_zero, limits_of, read_lines};
use silt_desk::{Gate, Spot, View};
use silt_device::{Call, Disk, FaultDisk};
use silt_event::Counter;
use silt_fixtures::{formatted, formatted_with, of_regions, opened_on, reaches};
use silt_recovery::check;
use silt_server::{Cares, Limits, Listens, Server};
use silt_session::Board;
use silt_store_set::Core;
use silt_view::Viewed;
use std::alloc::Global;
use std::io::{self, Read, Write};
use std::net::{Net, SocketAddr, TcpListener, TcpStream};
use std::sync::Wait;
use std::sync::atomic::{AtomicU64, Ordering};
use std::test::Fail;
use std::thread::{self, Threads};
use std::time::{Clock, Duration};

/// A listener that connects to itself to be woken.
#[derive(Drop)]
struct Waking<'a, R> {
    rt: &'a R,
    listener: TcpListener,
}

impl<R: Net<Stream = TcpStream>> Listens for Waking<'_, R> {
    ghost has_port = { λ listener port. Unit {0} };

    fn port(&self) -> io::Result<u16> {
        self.listener.port()
    }

    fn wait(&self) -> io::Result<TcpStream> {
        self.listener.wait()
    }

    fn wake(&self) {
        if let Ok(addr) = self.listener.local_addr() {
            let _ = TcpStream::connect(self.rt, addr);
        }
    }
}

/// A gate that holds the converter until it is closed. It counts the waits of the writer, and how often it hears that the store has
/// failed.
#[derive(Drop)]
struct Closing<'a, R: Clock> {
    rt: &'a R,
    closed: AtomicU64,
    waits: AtomicU64,
    failed: AtomicU64,
}

impl<R: Clock> Gate for Closing<'_, R> {
    fn pass(&self, spot: Spot) {
        if spot == Spot::Converter {
            let _ = reaches(self.rt, &self.closed, 1);
        }
    }

    fn rest(&self, spot: Spot) {
        if spot == Spot::Writer {
            self.waits.fetch_add(1, Ordering::SeqCst);
        }
    }

    fn failed(&self, _spot: Spot) {
        self.failed.fetch_add(1, Ordering::SeqCst);
    }

    fn is_closed(&self) -> bool {
        self.closed.load(Ordering::SeqCst) != 0
    }
}

// A gate that is closed, or not yet.
fn gate_of<R: Clock>(rt: &R, closed: u64) -> Closing<'_, R> {
    Closing {
        rt,
        closed: AtomicU64::new(closed),
        waits: AtomicU64::new(0),
        failed: AtomicU64::new(0),
    }
}

/// Waits beside the sessions until they have ended. Then it notes how many views it has, and how many commands the first one shows.
#[derive(Drop)]
struct Watch<'a, R> {
    rt: &'a R,
    board: &'a Board,
    views: AtomicU64,
    commands: AtomicU64,
}

impl<R: Wait + Clock + Sync> Cares for Watch<'_, R> {
    fn care<V: View>(&self, views: &[V]) {
        for _ in self.rt.forever() {
            if self.board.has_ended() {
                break;
            }
            thread::sleep(self.rt, Duration::from_millis(10));
        }
        self.views.store(views.len() as u64, Ordering::SeqCst);
        if let Some(view) = views.first() {
            self.commands.store(view.facts().commands, Ordering::SeqCst);
        }
    }
}

// A watch that has not seen anything.
fn watch_of<'a, R>(rt: &'a R, board: &'a Board) -> Watch<'a, R> {
    Watch {
        rt,
        board,
        views: AtomicU64::new(0),
        commands: AtomicU64::new(0),
    }
}

/// What was seen of a server that has ended.
#[derive(Drop)]
struct Seen {
    is_zero: bool,
    got: Vec<u8>,
    /// How many rows frozen logs have, if the store is sound.
    frozen: Option<u32>,
    views: u64,
    commands: u64,
}

/// A server of one store: its listener, its limits, its gate and its board.
#[derive(Drop)]
struct Bench<'a, R: Clock> {
    rt: &'a R,
    alloc: Global,
    limits: Limits,
    gate: Closing<'a, R>,
    board: Board,
}

// A server of so many sessions, whose gate is closed, or not yet.
fn bench_of<R: Clock>(rt: &R, alloc: Global, sessions: u32, closed: u64) -> Bench<'_, R> {
    Bench {
        rt,
        alloc,
        limits: limits_of(sessions, None),
        gate: gate_of(rt, closed),
        board: Board::new(rt, false),
    }
}

impl<R: Net<Listener = TcpListener, Stream = TcpStream> + Threads + Wait + Clock + Sync> Bench<
    '_,
    R,
> {
    // Serves the store on this disk at this listener beside the care. Returns the disk and whether the status is 0.
    fn serve_at<D: Viewed>(
        &self,
        listener: &Waking<'_, R>,
        care: &Watch<'_, R>,
        core: Core<D>,
    ) -> (D, bool) {
        let server = Server {
            rt: self.rt,
            alloc: self.alloc,
            listener,
            limits: self.limits,
            gate: &self.gate,
            board: &self.board,
            care,
        };
        let mut written = Vec::new(self.alloc);
        let (disk, status) = server.serve(core, &mut written);
        (disk, is_zero(status))
    }

    // Serves the store on this disk, and lets clients ask. Returns what was seen.
    fn serve<D: Viewed, C: Clients>(&self, disk: D, clients: &C) -> Result<Seen, Fail> {
        let listener = TcpListener::bind(self.rt, ("127.0.0.1", 0u16))?;
        let addr = listener.local_addr()?;
        let listener = Waking {
            rt: self.rt,
            listener,
        };
        let care = watch_of(self.rt, &self.board);
        let core = opened_on(self.alloc, disk)?;
        let mut got = Vec::new(self.alloc);
        let ((disk, is_zero), asked) = thread::join(
            self.rt,
            || -> (D, bool) { self.serve_at(&listener, &care, core) },
            || -> io::Result<()> { clients.ask(addr, &mut got) },
        );
        asked?;
        Ok(Seen {
            is_zero,
            got,
            frozen: frozen_on(self.alloc, disk),
            views: care.views.load(Ordering::SeqCst),
            commands: care.commands.load(Ordering::SeqCst),
        })
    }

    // What was counted.
    fn counted(&self, counter: Counter) -> u64 {
        self.board.counts(self.rt).numbers[counter.place()]
    }
}

// How many rows the frozen logs on this disk have, if its store is sound.
fn frozen_on<D: Disk>(alloc: Global, disk: D) -> Option<u32> {
    let report = check(alloc, &disk).ok();
    drop(disk);
    Some(report?.frozen_rows)
}

const PUTS: &[u8] = b"put 0100000000000000000000000000000000000000 0001\n\
    put 0200000000000000000000000000000000000000 0002\n\
    put 0300000000000000000000000000000000000000 0003\n\
    put 0400000000000000000000000000000000000000 0004\n\
    put 0500000000000000000000000000000000000000 0005\n";

const SHUTDOWN: &[u8] = b"shutdown\nget 0500000000000000000000000000000000000000\n";

const ENDED: &[u8] = b"accepted 1\naccepted 2\naccepted 3\naccepted 4\naccepted 5\n\
    begun\nvalue 0005\n";

/// A client that says nothing, and one that sends five puts, and then that the server is to end, with a get behind it.
#[derive(Drop)]
struct TellsToEnd<'a, R> {
    rt: &'a R,
}

impl<R: Net<Stream = TcpStream> + Sync> Clients for TellsToEnd<'_, R> {
    fn ask(&self, addr: SocketAddr, got: &mut Vec<u8>) -> io::Result<()> {
        let mut silent = connected(self.rt, addr)?;
        let mut busy = connected(self.rt, addr)?;
        ask_lines(&mut busy, PUTS, got, 5)?;
        busy.write_all(SHUTDOWN)?;
        busy.read_to_end(got)?;
        silent.read_to_end(got)?;
        Ok(())
    }
}

// The fifth put freezes a log of four rows. The gate is closed, so its conversion stands still.
#[test]
fn all_sessions_end_once_it_is_told_to(rt: HostRuntime) -> Result<(), Fail> {
    let bench = bench_of(&rt, rt.alloc(), 0, 1);
    let seen = bench.serve(formatted(rt.alloc())?, &TellsToEnd { rt: &rt })?;
    assert!(rt; seen.is_zero && seen.got.as_slice() == ENDED);
    assert!(rt; seen.frozen == Some(4));
    assert!(rt; (seen.views, seen.commands) == (1, 5));
    assert!(rt; (bench.counted(Counter::Puts), bench.counted(Counter::Gets)) == (5, 1));
    assert!(rt; bench.counted(Counter::Connections) == 2);
    assert!(rt; bench.counted(Counter::OpenConnections) == 0);
    Ok(())
}

/// A client that sends some lines, and reads so many.
#[derive(Drop)]
struct Asks<'a, R> {
    rt: &'a R,
    lines: &'a [u8],
    count: u32,
}

impl<R: Net<Stream = TcpStream> + Sync> Clients for Asks<'_, R> {
    fn ask(&self, addr: SocketAddr, got: &mut Vec<u8>) -> io::Result<()> {
        let mut stream = connected(self.rt, addr)?;
        ask_lines(&mut stream, self.lines, got, self.count)
    }
}

const TWO_PUTS: &[u8] = b"put 0100000000000000000000000000000000000000 0001\n\
    put 0200000000000000000000000000000000000000 0002\n";

// Each put makes two writes, and its flush one: the fourth is the first one of the second put. The gate hears of the failure from
// the writer, and from each worker that rests behind it.
#[test]
fn tells_that_the_store_has_failed(rt: HostRuntime) -> Result<(), Fail> {
    let bench = bench_of(&rt, rt.alloc(), 1, 1);
    let disk = FaultDisk::new(formatted(rt.alloc())?, Call::Write, 4);
    let asks = Asks {
        rt: &rt,
        lines: TWO_PUTS,
        count: 2,
    };
    let seen = bench.serve(disk, &asks)?;
    assert!(rt;
        seen.is_zero && seen.got.as_slice() == b"accepted 1\nrefused 5 Device\n".as_slice()
    );
    assert!(rt; bench.gate.failed.load(Ordering::SeqCst) > 0);
    assert!(rt; bench.counted(Counter::Refusals(5)) == 1);
    assert!(rt; bench.counted(Counter::LastFailure) > 0);
    assert!(rt; bench.counted(Counter::Batches) == 2);
    Ok(())
}

const EIGHT_PUTS: &[u8] = b"put 0100000000000000000000000000000000000000 0001\n\
    put 0200000000000000000000000000000000000000 0002\n\
    put 0300000000000000000000000000000000000000 0003\n\
    put 0400000000000000000000000000000000000000 0004\n\
    put 0500000000000000000000000000000000000000 0005\n\
    put 0600000000000000000000000000000000000000 0006\n\
    put 0700000000000000000000000000000000000000 0007\n\
    put 0800000000000000000000000000000000000000 0008\n";

const NINTH: &[u8] = b"put 0900000000000000000000000000000000000000 0009\n";

const NO_ROOM: &[u8] = b"accepted 1\naccepted 2\naccepted 3\naccepted 4\naccepted 5\naccepted 6\n\
    accepted 7\naccepted 8\nrefused 8 NoRoom\n";

/// A client that fills both logs, and sends a put that waits for room. Then it closes the gate.
#[derive(Drop)]
struct ClosesTheGate<'a, R: Clock> {
    rt: &'a R,
    gate: &'a Closing<'a, R>,
}

impl<R: Net<Stream = TcpStream> + Clock + Sync> Clients for ClosesTheGate<'_, R> {
    fn ask(&self, addr: SocketAddr, got: &mut Vec<u8>) -> io::Result<()> {
        let mut stream = connected(self.rt, addr)?;
        ask_lines(&mut stream, EIGHT_PUTS, got, 8)?;
        stream.write_all(NINTH)?;
        let _ = reaches(self.rt, &self.gate.waits, 1);
        self.gate.closed.store(1, Ordering::SeqCst);
        read_lines(&mut stream, got, 1)
    }
}

// The put would wait for ten minutes.
#[test]
fn no_command_waits_for_room_at_a_closed_gate(rt: HostRuntime) -> Result<(), Fail> {
    let mut bench = bench_of(&rt, rt.alloc(), 1, 0);
    bench.limits.wait = 600;
    let disk = formatted_with(rt.alloc(), of_regions(4, 2, 2, 64)?)?;
    let clients = ClosesTheGate {
        rt: &rt,
        gate: &bench.gate,
    };
    let seen = bench.serve(disk, &clients)?;
    assert!(rt; seen.is_zero && seen.got.as_slice() == NO_ROOM);
    assert!(rt; bench.gate.waits.load(Ordering::SeqCst) > 0);
    Ok(())
}
