// A server of sixty-four sessions that keeps a record, and a plain map that repeats its calls.
ghost use Rattle.std.specs.Prelude.{◌≡◌, []};
ghost use Rattle.silt_desk.specs.Seeing.{seen};
ghost use Rattle.silt_desk.specs.Traces.{IsHistory};

use crate::server::limits_of;
use crate::server::record::{Again, ask_all, replayed};
use silt_desk::{Desk, DeskId, Kept, OpenGate, Seat};
use silt_device::{Disk, Geometry, MemDisk};
use silt_fixtures::{are_those, formatted_with, opened_with};
use silt_inbox::InboxId;
use silt_server::{NoCare, Server, ServerState};
use silt_session::{Board, LogId, LogStart};
use silt_store_set::Core;
use silt_view::Viewed;
use std::alloc::Global;
use std::io;
use std::marker::Brand;
use std::net::{Net, TcpListener, TcpStream};
use std::sync::Wait;
use std::sync::ledger::Blank;
use std::test::Fail;
use std::thread::{self, Threads};
use std::time::Clock;

const SESSIONS: u32 = 64;

/// What a record shows.
#[derive(Clone, Copy)]
struct Printed {
    // How many calls are recorded.
    calls: u64,
    // How many of them had another reply than that of a plain map.
    wrong: u64,
    // How many commands were accepted.
    accepted: u64,
    // Whether the store ends with the entries of the plain map.
    ends_alike: bool,
}

// Whether the store has the entries of the plain map.
fn is_alike<D: Disk>(alloc: Global, core: &Core<D>, again: &Again) -> bool {
    match core.entries(alloc) {
        Ok(entries) => are_those(&entries, &again.map),
        Err(_) => false,
    }
}

// What the record of a desk shows once its calls are repeated.
fn printed_by<D: Disk, N: DeskId>(alloc: Global, desk: Desk<D, Kept, N>) -> Option<Printed> {
    let calls = desk.trace().calls().len() as u64;
    let again = replayed(alloc, desk.trace().calls()).ok()?;
    let core = desk.into_core();
    let ends_alike = is_alike(alloc, &core, &again);
    drop(core);
    Some(Printed {
        calls,
        wrong: again.wrong,
        accepted: again.accepted,
        ends_alike,
    })
}

/// What a record shows, and the status of the server.
type Ended = Option<(Printed, u8)>;

// Serves the store of a desk with these seats. Returns what its record shows, and the status.
fn serve_seated<
    D: Viewed,
    N: DeskId + InboxId + LogId + Send + Sync,
    R: Threads + Wait + Clock + Sync,
>(
    rt: &R,
    alloc: Global,
    listener: &TcpListener,
    desk: Desk<D, Kept, N>,
    seats: Vec<Seat<N>>,
    inbox_blanks: (Blank, Blank, LogStart),
) -> Ended
    requires put { (inbox_blanks.0.name ≡ N.put_name) × (inbox_blanks.0.parts ≡ N.feeders) × (N.feeders ≡ 1024) }
    requires taken { (inbox_blanks.1.name ≡ N.taken_name) × (inbox_blanks.1.parts ≡ 1) }
    requires log { inbox_blanks.2 ≡ N.log }
{
    let (put, taken, log) = inbox_blanks;
    let state = ServerState::<D, Kept, N>::new(alloc, seats, put, taken, log)?;
    let server = Server {
        rt,
        alloc,
        listener,
        limits: limits_of(SESSIONS, None),
        gate: &OpenGate,
        board: &Board::new(rt, false),
        care: &NoCare,
    };
    let mut written = Vec::new(alloc);
    let (desk, status) = server.serve_desk(desk, state, &mut written);
    let printed = printed_by(alloc, desk);
    Some((printed?, status.ok()?))
}

// Serves a store and records all calls. The blanks become the ledgers.
fn serve_recorded<
    D: Viewed,
    N: DeskId + InboxId + LogId + Send + Sync,
    R: Threads + Wait + Clock + Sync,
>(
    rt: &R,
    alloc: Global,
    listener: &TcpListener,
    core: Core<D>,
    kept: Kept,
    desk_blanks: (Blank, Blank),
    inbox_blanks: (Blank, Blank, LogStart),
) -> Ended
    requires calls { (desk_blanks.0.name ≡ N.calls_name) × (desk_blanks.0.parts ≡ N.seats) × (N.seats ≡ 3) }
    requires accepted { (desk_blanks.1.name ≡ N.accepted_name) × (desk_blanks.1.parts ≡ N.seats) }
    requires put { (inbox_blanks.0.name ≡ N.put_name) × (inbox_blanks.0.parts ≡ N.feeders) × (N.feeders ≡ 1024) }
    requires taken { (inbox_blanks.1.name ≡ N.taken_name) × (inbox_blanks.1.parts ≡ 1) }
    requires log { inbox_blanks.2 ≡ N.log }
    requires trace { IsHistory kept (seen D.Disk core) × (kept.calls ≡ []) }
{
    let (calls, accepted) = desk_blanks;
    match Desk::<D, Kept, N>::new(alloc, core, kept, 3, calls, accepted) {
        Ok((desk, seats)) => {
            serve_seated::<D, N, R>(rt, alloc, listener, desk, seats, inbox_blanks)
        }
        Err(_) => None,
    }
}

// Serves and records in the same way.
fn serve_kept<R: Threads + Wait + Clock + Sync>(
    rt: &R,
    alloc: Global,
    listener: &TcpListener,
    core: Core<MemDisk>,
) -> Ended {
    match Kept::new(alloc, &core, 400_000) {
        Ok(kept) => serve_recorded::<MemDisk, Brand, R>(
            rt,
            alloc,
            listener,
            core,
            kept,
            (Blank::new(3), Blank::new(3)),
            (Blank::new(1024), Blank::new(1), LogStart::new()),
        ),
        Err(_) => None,
    }
}

// Runs a server of this store beside sixty-four sessions. Returns what its record shows, and how
// many commands got a wrong reply.
fn serve_all<R: Net<Listener = TcpListener, Stream = TcpStream> + Threads + Wait + Clock + Sync>(
    rt: &R,
    alloc: Global,
    listener: &TcpListener,
    core: Core<MemDisk>,
) -> (Ended, io::Result<u32>) {
    thread::join(
        rt,
        || serve_kept(rt, alloc, listener, core),
        || ask_all(rt, alloc, listener, SESSIONS),
    )
}

// The same on an empty store.
fn served_and_asked<
    R: Net<Listener = TcpListener, Stream = TcpStream> + Threads + Wait + Clock + Sync,
>(rt: &R, alloc: Global) -> Result<(Printed, u8, u32), Fail> {
    let geometry = Geometry::new(2, 16, 64, 8, 16, 4000)
        .ok()
        .ok_or("in limits")?;
    let listener = TcpListener::bind(rt, ("127.0.0.1", 0u16))?;
    let core = opened_with(alloc, geometry)?;
    let (ended, wrong) = serve_all(rt, alloc, &listener, core);
    let (printed, status) = ended.ok_or("served")?;
    Ok((printed, status, wrong?))
}

#[test]
fn records_what_a_plain_map_does(rt: HostRuntime) -> Result<(), Fail> {
    let (printed, status, wrong) = served_and_asked(&rt, rt.alloc())?;
    assert!(rt; (status, wrong, printed.wrong) == (0, 0, 0));
    assert!(rt; printed.ends_alike);
    assert!(rt; printed.accepted > 0 && printed.accepted < printed.calls);
    Ok(())
}
