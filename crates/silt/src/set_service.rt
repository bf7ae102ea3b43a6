// The server on the files of a set.
ghost use Rattle.std.specs.Prelude.{◌≡◌, ◌≤◌, All, IfOk, is_some, length, map, unwrap_or, vec_len, Some};
ghost use Rattle.silt.specs.Common.{range_with_len, Shape, LeavesBegun, IsShardCount, most_shards, LeavesEach, HasFailed};
ghost use Rattle.silt_shards.specs.Sets.{AreAlike};
ghost use Rattle.silt.specs.Services.{least_merged};
ghost use Rattle.silt.specs.SetServices.{FailedAmong, RefusesFault, ServesDisks, ServesEntered, ServesSet, ServesShards};

use crate::care::Care;
use crate::listener::{Entrance, PatientListener};
use crate::merge_gate::{GateParts, MergeGate};
use crate::service::{are_short, entrance_of, limits_of, listener_fault, status_served};
use crate::standard_streams::StandardStreams;
use silt_device::DiskSources;
use silt_disk::Disk;
use silt_jobs::{
    Ended, Failures, SetFiles, Tells, Watched, Why, few_regions, is_set, open_files, refuse_at,
    value_len_of, why_of,
};
use silt_server::{SetServer, refuse_set_network};
use silt_session::Board;
use silt_shards::{SetFault, open_shards_beside};
use silt_store_set::{Core, Refusal};
use silt_words::Service;
use std::alloc::{AllocError, Global};
use std::io::Write;
use std::net::{Net, TcpListener, TcpStream};
use std::sync::Wait;
use std::thread::Threads;

/// Serves the stores in the files of a set, as one store, to the connections of a port. It opens all files before it binds the port, and
/// then compares their marks and opens the stores. Returns the disks that were served, in the order of their shards, and how the job
/// ended, with the status 0 after the last session or if a client ended the server, and 1 if a disk or a store is not opened or is
/// not the shard that is due, the network fails, a store has failed, or a merge was refused. A set has no record of its calls.
pub fn serve_set<
    S: DiskSources,
    H: Net<Listener = TcpListener, Stream = TcpStream> + Threads + Wait + Sync + StandardStreams,
    W: Write,
    T: Tells,
>(
    rt: &H,
    source: S,
    shards: u32,
    service: &Service<'_>,
    writer: &mut W,
    people: &mut T,
) -> (Vec<S::Disk>, Ended<S::Error, <S::Disk as Disk>::Fault>)
where
    S::Disk: Watched,
    ensures { ServesSet S.Disk.Disk (HasFailed S.Disk.Watched.kept_read S.Disk.Watched.last_failure) S.DiskSource source service.now
        (T.told people.old people.new) (people.new ≡ people.old) shards result.0.items result.1 (W.contents writer.old) (W.contents writer.new) }
{
    let alloc = rt.alloc();
    if !is_set(shards) {
        return (Vec::new(alloc), Ended::refuse(alloc, Why::NoJob, writer));
    }
    let files = SetFiles {
        name: service.file,
        shards,
    };
    match open_files(alloc, source, &files, false) {
        Ok(disks) => serve_disks::<S, H, W, T>(rt, disks, service, writer, people),
        Err((shard, why)) => (Vec::new(alloc), refuse_at(alloc, shard, why, writer)),
    }
}

// Serves the set on these disks to the connections of a port. It binds the port before the opening, which may be long.
fn serve_disks<
    S: DiskSources,
    H: Net<Listener = TcpListener, Stream = TcpStream> + Threads + Wait + Sync + StandardStreams,
    W: Write,
    T: Tells,
>(
    rt: &H,
    disks: Vec<S::Disk>,
    service: &Service<'_>,
    writer: &mut W,
    people: &mut T,
) -> (Vec<S::Disk>, Ended<S::Error, <S::Disk as Disk>::Fault>)
where
    S::Disk: Watched,
    requires { IsShardCount (vec_len disks) }
    ensures { ServesDisks S.Disk.Disk (HasFailed S.Disk.Watched.kept_read S.Disk.Watched.last_failure) service.now
        (T.told people.old people.new) (people.new ≡ people.old) disks.items result.0.items result.1 (W.contents writer.old) (W.contents writer.new) }
{
    let entrance = entrance_of(rt, service, people);
    let disks = report_each(disks);
    match open_shards_beside(rt, rt.alloc(), disks) {
        Ok(cores) => serve_shards(rt, cores, entrance, service, writer),
        Err(fault) => (
            Vec::new(rt.alloc()),
            refuse_shard(rt.alloc(), fault, writer),
        ),
    }
}

// Lets each disk report its first failed write or sync at once, with the number of its shard.
fn report_each<D: Watched>(disks: Vec<D>) -> Vec<D>
    requires { IsShardCount (vec_len disks) }
    ensures { map D.content result.items ≡ map D.content disks.items }
{
    let mut disks = disks;
    for shard in 0..disks.len() {
        disks[shard].report_at_once(Some(shard as u32));
    }
    disks
}

// Refuses the job because of the shard that is not what is due.
fn refuse_shard<E: Drop, D: Disk, W: Write>(
    alloc: Global,
    fault: SetFault<D>,
    writer: &mut W,
) -> Ended<E, D::Fault>
    ensures { RefusesFault fault.shard fault.cause result (W.contents writer.old) (W.contents writer.new) }
{
    let SetFault { shard, disk, cause } = fault;
    let why = why_of(&disk, cause);
    refuse_at(alloc, shard, why, writer)
}

// Serves opened stores as a set to the connections of an entrance, if there is one, and if they have as many hash regions as a merge is
// to begin with, and values that can hold strings if clients send those.
fn serve_shards<
    E: Drop,
    D: Watched,
    H: Net<Listener = TcpListener, Stream = TcpStream> + Threads + Wait + Sync + StandardStreams,
    W: Write,
>(
    rt: &H,
    cores: Vec<Core<D>>,
    entrance: Option<Entrance>,
    service: &Service<'_>,
    writer: &mut W,
) -> (Vec<D>, Ended<E, D::Fault>)
    requires count { IsShardCount (vec_len cores) }
    requires alike { AreAlike (λ core. core.shape.value_len) cores.items }
    ensures served { ServesShards D.Disk (HasFailed D.kept_read D.last_failure) service.now (is_some entrance) cores.items result.0.items result.1
        (W.contents writer.old) (W.contents writer.new) }
    ensures left { All (λ disk. (shape : Shape) × LeavesBegun (D.content disk) shape) result.0.items }
    ensures led { LeavesEach D.Disk cores.items result.0.items }
{
    let alloc = rt.alloc();
    if let Some(hashes) = few_regions(cores.as_slice(), service.merge_at) {
        let ended = Ended::refuse(alloc, Why::FewRegions(hashes), writer);
        return (Vec::new(alloc), ended);
    }
    if are_short(value_len_of(cores.as_slice()), service.resp) {
        return (
            Vec::new(alloc),
            Ended::refuse(alloc, Why::ShortValues, writer),
        );
    }
    let Some(entrance) = entrance else {
        return (Vec::new(alloc), Ended::plain(refuse_set_network(writer)));
    };
    serve_entered(rt, cores, entrance, service, writer)
}

// Serves opened stores as a set to the connections of an entrance.
fn serve_entered<
    E: Drop,
    D: Watched,
    H: Net<Listener = TcpListener, Stream = TcpStream> + Threads + Wait + Sync + StandardStreams,
    W: Write,
>(
    rt: &H,
    cores: Vec<Core<D>>,
    entrance: Entrance,
    service: &Service<'_>,
    writer: &mut W,
) -> (Vec<D>, Ended<E, D::Fault>)
    requires count { IsShardCount (vec_len cores) }
    requires alike { AreAlike (λ core. core.shape.value_len) cores.items }
    ensures served { ServesEntered D.Disk (HasFailed D.kept_read D.last_failure) (vec_len cores) result.0.items result.1
        (W.contents writer.old) (W.contents writer.new) }
    ensures left { All (λ disk. (shape : Shape) × LeavesBegun (D.content disk) shape) result.0.items }
    ensures led { LeavesEach D.Disk cores.items result.0.items }
{
    let alloc = rt.alloc();
    let board = Board::new(rt, service.backup.is_some());
    let listener = PatientListener::new(rt, entrance.listener, entrance.socket, &board);
    let places = places_of(service, cores.len());
    let parts = GateParts::new(service, listener.own_socket(), places);
    let Ok(gates) = gates_of(rt, service.file, &board, &parts, cores.as_slice()) else {
        let why = Why::Refused(Refusal::NoMemory, None);
        return (Vec::new(alloc), Ended::refuse(alloc, why, writer));
    };
    let server = SetServer {
        rt,
        alloc,
        listener: &listener,
        limits: limits_of(service, entrance.password),
        gates: gates.as_slice(),
        board: &board,
        care: &Care::new(rt, &board, &parts, service, entrance.page),
    };
    let (disks, status) = server.serve(cores, writer);
    let why = listener_fault(entrance.socket, listener.failure(), &status);
    let status = status_served(status, are_noted(gates.as_slice()));
    let ended = Ended {
        why,
        failures: failures_among(disks.as_slice()),
        ..Ended::plain(status)
    };
    (disks, ended)
}

// How many of so many shards may be merged at a time: all, if no number is asked for.
fn places_of(service: &Service<'_>, shards: usize) -> u32
    requires { shards ≤ most_shards }
    ensures { result ≡ unwrap_or service.now.mergers shards }
{
    service.mergers.unwrap_or(shards as u32)
}

// The gates of the workers of these stores, which are the shards of a set.
fn gates_of<'a, 'f, 'b, 'p, D: Disk, H: Wait + StandardStreams>(
    rt: &'a H,
    file: &'f str,
    board: &'b Board,
    parts: &'p GateParts,
    cores: &[Core<D>],
) -> Result<Vec<MergeGate<'a, 'f, 'b, 'p, H>>, AllocError>
    requires { length cores.now ≤ most_shards }
    ensures count { IfOk result (λ gates. vec_len gates ≡ length cores.now) }
    ensures shards { IfOk result (λ gates. map (λ gate. gate.shard) gates.items ≡ map Some (range_with_len 0 (length cores.now))) }
    ensures least { IfOk result (λ gates. map (λ gate. gate.least) gates.items ≡ map (λ core. least_merged parts.entry.now.merge_at core.shape.hashes) cores.now) }
{
    let mut gates = Vec::with_capacity(rt.alloc(), cores.len())?;
    for core in cores {
        let shard = gates.len() as u32;
        let gate = MergeGate::new(rt, file, board, parts, Some(shard), core);
        gates.push_reserved(gate);
    }
    Ok(gates)
}

// Whether a merge of one of the stores was refused, or a store has failed.
fn are_noted<H: Wait + StandardStreams>(gates: &[MergeGate<'_, '_, '_, '_, H>]) -> bool {
    for gate in gates {
        if gate.is_noted() {
            return true;
        }
    }
    false
}

// The calls that failed of the first of these disks of which one did.
fn failures_among<D: Watched>(disks: &[D]) -> Failures
    requires { length disks.now ≤ most_shards }
    ensures { FailedAmong (HasFailed D.kept_read D.last_failure) disks.now result }
{
    for shard in 0..disks.len() {
        let failures = Failures::of(&disks[shard]);
        if failures.read.is_some() || failures.last.is_some() {
            return Failures {
                shard: Some(shard as u32),
                ..failures
            };
        }
    }
    Failures::none()
}
