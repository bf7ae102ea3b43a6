// The server on the disk of a path.
ghost use Rattle.std.specs.Prelude.{◌≡◌, ◌⊎◌, ◌<◌, ◌≤◌, None, Ok, IfOk, IfSome, IsOkAnd, is_some, false, true, unwrap_or};
ghost use Rattle.silt.specs.Common.{LeavesCalls, PrintsNotServed, HasFailed, named_access};
ghost use Rattle.silt_wire.specs.Statuses.{IsStatus};
ghost use Rattle.silt.specs.Services.{EndsServe, ServesDisk, ServesFile, ServesOpened, TellsEntrance, protocol_of};
ghost use Rattle.silt.specs.Passwords.{HasPassword};

use crate::care::Care;
use crate::listener::{Entrance, PatientListener, enter, tell_no_entrance};
use crate::merge_gate::{GateParts, MergeGate};
use crate::standard_streams::StandardStreams;
use silt_device::DiskSource;
use silt_disk::Disk;
use silt_jobs::{
    Ended, Failures, StreamError, Tells, Watched, Why, has_few_regions, open_store,
    refuse_few_regions,
};
use silt_resp::LENGTH_LEN;
use silt_server::{Limits, Protocol, Server, refuse_network};
use silt_session::Board;
use silt_store_set::Core;
use silt_view::Viewed;
use silt_words::Service;
use std::io::{self, Write};
use std::net::{Net, SocketAddr, TcpListener, TcpStream};
use std::sync::Wait;
use std::thread::Threads;

/// How many clients are served at once if no number is given.
const CLIENTS: u32 = 64;

/// Serves the store on the disk of a path to the connections of a port. Returns the disk, and how the job
/// ended, with the status 0 after the last session or if a client ended the server, and 1 if the disk or the store is not
/// opened, the network fails, the store has failed, or a merge was refused.
pub fn serve_file<
    S: DiskSource,
    H: Net<Listener = TcpListener, Stream = TcpStream> + Threads + Wait + Sync + StandardStreams,
    W: Write,
    T: Tells,
>(
    rt: &H,
    source: S,
    service: &Service<'_>,
    writer: &mut W,
    people: &mut T,
) -> (Option<S::Disk>, Ended<S::Error, <S::Disk as Disk>::Fault>)
where
    S::Disk: Watched,
    ensures { ServesFile S.Disk.Disk (HasFailed S.Disk.Watched.kept_read S.Disk.Watched.last_failure) service.now
        (S.opened source service.now.file.now) (S.not_opened source service.now.file.now)
        (T.told people.old people.new) (people.new ≡ people.old) result.0 result.1 (W.contents writer.old) (W.contents writer.new) }
{
    match source.open(service.file) {
        Ok(disk) => serve_disk::<S, H, W, T>(rt, disk, service, writer, people),
        Err(error) => (None, Ended::refuse(rt.alloc(), Why::NoDisk(error), writer)),
    }
}

// Serves the store on a disk to the connections of a port. It binds the port before the opening, which
// may be long: so a port that is in use is told of at once. Returns the disk, and how the job ended.
fn serve_disk<
    S: DiskSource,
    H: Net<Listener = TcpListener, Stream = TcpStream> + Threads + Wait + Sync + StandardStreams,
    W: Write,
    T: Tells,
>(
    rt: &H,
    mut disk: S::Disk,
    service: &Service<'_>,
    writer: &mut W,
    people: &mut T,
) -> (Option<S::Disk>, Ended<S::Error, <S::Disk as Disk>::Fault>)
where
    S::Disk: Watched,
    ensures { ServesDisk S.Disk.Disk (HasFailed S.Disk.Watched.kept_read S.Disk.Watched.last_failure) service.now
        (T.told people.old people.new) (people.new ≡ people.old) disk result.0 result.1 (W.contents writer.old) (W.contents writer.new) }
{
    let entrance = entrance_of(rt, service, people);
    disk.report_at_once(None);
    match open_store(rt.alloc(), Ok(disk)) {
        Ok(core) => {
            let (disk, ended) = serve_opened(rt, core, entrance, service, writer);
            (Some(disk), ended)
        }
        Err(unopened) => unopened.refuse(rt.alloc(), writer),
    }
}

/// The entrance of a service. If there is none, people are told why.
pub fn entrance_of<H: Net<Listener = TcpListener, Stream = TcpStream> + StandardStreams, T: Tells>(
    rt: &H,
    service: &Service<'_>,
    people: &mut T,
) -> Option<Entrance>
    ensures told { TellsEntrance (T.told people.old people.new) (people.new ≡ people.old) service.now (is_some result) }
    ensures password { IfSome result (λ entrance. HasPassword (H.begins rt.now) (named_access service.now.access).password_file entrance.password) }
{
    match enter(rt, service) {
        Ok(entrance) => Some(entrance),
        Err(why) => {
            tell_no_entrance(service.file, why, people);
            None
        }
    }
}

// Serves an opened store to the connections of an entrance, if it has as many hash regions as a merge is to begin with, and
// values that can hold strings if clients send those. Returns the store's disk, and how the job ended.
fn serve_opened<
    E: Drop,
    D: Watched,
    H: Net<Listener = TcpListener, Stream = TcpStream> + Threads + Wait + Sync + StandardStreams,
    W: Write,
>(
    rt: &H,
    core: Core<D>,
    entrance: Option<Entrance>,
    service: &Service<'_>,
    writer: &mut W,
) -> (D, Ended<E, D::Fault>)
    ensures served { ServesOpened D.Disk (HasFailed D.kept_read D.last_failure) service.now (is_some entrance) core result.0 result.1 (W.contents writer.old) (W.contents writer.new) }
    ensures led { LeavesCalls D.Disk core result.0 }
{
    let _known = core.standing(); // the possible crash images of the store as it is
    if has_few_regions(&core, service.merge_at) {
        return refuse_few_regions(rt.alloc(), core, writer);
    }
    if are_short(core.geometry().value_len(), service.resp) {
        let ended = Ended::refuse(rt.alloc(), Why::ShortValues, writer);
        return (core.close(), ended);
    }
    let (disk, status, why) = serve_store(rt, core, entrance, service, writer);
    let ended = Ended {
        why,
        failures: Failures::of(&disk),
        ..Ended::plain(status)
    };
    (disk, ended)
}

/// Whether values of this length, for Redis clients, have no room for a string's length.
pub fn are_short(value_len: u32, resp: bool) -> bool
    ensures short { result ≡ true → (resp ≡ true) × (value_len < 2) }
    ensures enough { result ≡ false → resp ≡ true → 2 ≤ value_len }
{
    match resp {
        true => (value_len as usize) < LENGTH_LEN,
        false => false,
    }
}

// Serves a store to the connections of an entrance, if there is one. Returns the store's disk, the status, and why the
// listener failed, if the server failed.
fn serve_store<
    E: Drop,
    D: Viewed,
    H: Net<Listener = TcpListener, Stream = TcpStream> + Threads + Wait + Sync + StandardStreams,
    W: Write,
>(
    rt: &H,
    core: Core<D>,
    entrance: Option<Entrance>,
    service: &Service<'_>,
    writer: &mut W,
) -> (D, io::Result<u8>, Option<Why<E, D::Fault>>)
    ensures served { result.1 ≡ Ok 0 → EndsServe D.Disk service.now.audit result.0 (W.contents writer.old) (W.contents writer.new) }
    ensures bound { result.1 ≡ Ok 0 → is_some entrance ≡ true }
    ensures printed { IfOk result.1 (IsStatus (PrintsNotServed D.Disk (λ port. Unit {0}) core result.0 (W.contents writer.old) (W.contents writer.new)
        ⊎ EndsServe D.Disk service.now.audit result.0 (W.contents writer.old) (W.contents writer.new))) }
    ensures quiet { result.1 ≡ Ok 0 → result.2 ≡ None }
    ensures led { LeavesCalls D.Disk core result.0 }
{
    let Some(entrance) = entrance else {
        let (disk, status) = refuse_network(core, writer);
        return (disk, status, None);
    };
    let limits = limits_of(service, entrance.password);
    let board = Board::new(rt, service.backup.is_some());
    let listener = PatientListener::new(rt, entrance.listener, entrance.socket, &board);
    let parts = GateParts::new(service, listener.own_socket(), 1);
    let gate = MergeGate::new(rt, service.file, &board, &parts, None, &core);
    let server = Server {
        rt,
        alloc: rt.alloc(),
        listener: &listener,
        limits,
        gate: &gate,
        board: &board,
        care: &Care::new(rt, &board, &parts, service, entrance.page),
    };
    let (disk, status) = server.serve(core, writer);
    let why = listener_fault(entrance.socket, listener.failure(), &status);
    let status = status_served(status, gate.is_noted());
    (disk, status, why)
}

/// The status of a server with this status: 1 if it is noted that a store has failed or a merge was refused.
pub fn status_served(status: io::Result<u8>, is_noted: bool) -> io::Result<u8>
    ensures done { result ≡ Ok 0 → (status ≡ Ok 0) × (is_noted ≡ false) }
    ensures printed { IfOk result (λ ended. IsOkAnd status (λ served. (ended ≡ served) ⊎ ((served ≡ 0) × (ended ≡ 1) × (is_noted ≡ true)))) }
{
    match status {
        Ok(0) if is_noted => Ok(1),
        ended => ended,
    }
}

/// The limits of a server of this service.
pub fn limits_of(service: &Service<'_>, password: Option<[u8; 20]>) -> Limits
    ensures sessions { result.sessions ≡ unwrap_or service.now.sessions 0 }
    ensures clients { result.clients ≡ unwrap_or service.now.access.clients 64 }
    ensures password { result.password ≡ password }
    ensures audit { result.audit ≡ service.now.audit }
    ensures idle { result.idle ≡ service.now.idle }
    ensures wait { result.wait ≡ unwrap_or service.now.wait 10 }
    ensures protocol { result.protocol ≡ protocol_of service.now.pipeline service.now.resp }
{
    Limits {
        sessions: service.sessions.unwrap_or(0),
        clients: service.access.clients.unwrap_or(CLIENTS),
        password,
        audit: calls_kept(service.audit),
        idle: service.idle,
        wait: service.wait.unwrap_or(10),
        protocol: protocol_of(service.pipeline, service.resp),
    }
}

// What a server and its clients send each other.
fn protocol_of(pipeline: bool, resp: bool) -> Protocol
    ensures { result ≡ protocol_of pipeline resp }
{
    match (pipeline, resp) {
        (_, true) => Protocol::Resp,
        (true, false) => Protocol::PipelinedLines,
        (false, false) => Protocol::Lines,
    }
}

/// Why the listener of this socket failed, if the server failed.
pub fn listener_fault<E: Drop, F: Drop>(
    socket: SocketAddr,
    failure: Option<io::Error>,
    status: &io::Result<u8>,
) -> Option<Why<E, F>>
    ensures { status.now ≡ Ok 0 → result ≡ None }
{
    match (status, failure) {
        (Ok(0), _) => None,
        (_, Some(error)) => Some(Why::NotListening(socket, StreamError { error })),
        (_, None) => None,
    }
}

// The most calls of a record, if one is kept.
fn calls_kept(audit: Option<u32>) -> Option<u64>
    ensures { result ≡ audit }
{
    match audit {
        Some(calls) => Some(u64::from(calls)),
        None => None,
    }
}
