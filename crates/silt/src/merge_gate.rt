// The gate of a served store's workers.
ghost use Rattle.std.specs.Prelude.{◌≡◌};
ghost use Rattle.silt.specs.Services.{least_merged};

use crate::early_sync::EarlySync;
use crate::listener::wake;
use crate::merge_holds::{Hold, MergeHolds};
use crate::merge_places::MergePlaces;
use crate::standard_streams::StandardStreams;
use silt_desk::{Gate, STEPS_A_GUARD, Spot};
use silt_disk::{Disk, Geometry};
use silt_event::Place;
use silt_jobs::{Tells, Urgent, merge_damage_at, shard_path};
use silt_session::Board;
use silt_store_set::Core;
use silt_words::Service;
use std::alloc::{AllocError, Global};
use std::net::{Net, SocketAddr, TcpListener, TcpStream};
use std::sync::atomic::{AtomicBool, Ordering};
use std::sync::{OnceLock, Wait};
use std::thread;
use std::time::{Clock, Duration};

/// How many milliseconds a merger that a backup holds waits before it looks again.
const HOLD: u64 = 2;

// Of how many hash stores a merge begins, if a store has this many regions for them: half of them, but at least one, if
// no number is asked for.
fn least_merged(asked: Option<u32>, hashes: u32) -> u32
    ensures { result ≡ least_merged asked hashes }
{
    asked.unwrap_or((hashes / 2).max(1))
}

/// The path of a store's file, or of that shard of the set of this name.
pub fn path_of(alloc: Global, file: &str, shard: Option<u32>) -> Result<String, AllocError> {
    match shard {
        None => String::from_str(alloc, file),
        Some(shard) => shard_path(alloc, file, shard),
    }
}

/// Tells people this of a store's file, or of that shard of the set of this name.
pub fn tell_of<H: StandardStreams>(rt: &H, file: &str, shard: Option<u32>, urgent: &Urgent) {
    let mut people = rt.errors();
    match path_of(rt.alloc(), file, shard) {
        Ok(path) => people.tell(path.as_str(), urgent),
        Err(_) => people.tell(file, urgent),
    }
}

// Early syncs of a store's file, whose merges write so many bytes a step at most. None are made if out of memory.
fn early_sync_of<H: StandardStreams>(
    rt: &H,
    file: &str,
    shard: Option<u32>,
    step_len: usize,
) -> EarlySync {
    match path_of(rt.alloc(), file, shard) {
        Ok(path) => EarlySync::of(rt.open_beside(path.as_str()), step_len),
        Err(_) => EarlySync::of(None, step_len),
    }
}

/// What the gates of one server share: what its service asks for, where its listener waits, and the places for mergers.
#[derive(Drop)]
pub struct GateParts {
    /// Of how many hash stores a merge begins, if a number is asked for.
    merge_at: Option<u32>,
    /// Whether the server goes on if a store has failed.
    stays: bool,
    /// The socket of its listener, if the system tells it.
    socket: Option<SocketAddr>,
    places: MergePlaces,
    holds: MergeHolds,
    // Whether a store has failed.
    has_failed: OnceLock<()>,
}

impl GateParts {
    /// What the gates of a server of this service share, with a listener on this socket and so many places for mergers.
    pub fn new(service: &Service<'_>, socket: Option<SocketAddr>, places: u32) -> GateParts
        ensures merge_at { result.merge_at ≡ service.now.merge_at }
        ensures stays { result.stays ≡ service.now.stay }
        ensures socket { result.socket ≡ socket }
    {
        GateParts {
            merge_at: service.merge_at,
            stays: service.stay,
            socket,
            places: MergePlaces::new(places),
            holds: MergeHolds::new(),
            has_failed: OnceLock::new(),
        }
    }

    /// What the mergers may do while a backup is made.
    pub fn holds(&self) -> &MergeHolds {
        &self.holds
    }
}

/// The gate of one store's workers. Its merger works while it has one of the places for mergers, begins a merge of so many hash stores,
/// and syncs early what it wrote. The first damage that it finds is told of at once. It is closed once the server is to end. If the
/// store has failed, the server ends, unless it stays.
#[derive(Drop)]
pub struct MergeGate<'a, 'f, 'b, 'p, H> {
    rt: &'a H,
    /// The name of the store's file, or of its set.
    file: &'f str,
    board: &'b Board,
    parts: &'p GateParts,
    /// Which shard of the set the store is, if it is of one.
    shard: Option<u32>,
    geometry: Geometry,
    least: u32,
    // Whether the merger has a place.
    has_place: AtomicBool,
    // Whether a merge has ended since the merger was free.
    has_merged: AtomicBool,
    early: EarlySync,
    is_noted: OnceLock<()>,
}

impl<'a, 'f, 'b, 'p, H: Wait + StandardStreams> MergeGate<'a, 'f, 'b, 'p, H> {
    /// The gate of a store of this file, or of that shard of the set of this name.
    pub fn new<D: Disk>(
        rt: &'a H,
        file: &'f str,
        board: &'b Board,
        parts: &'p GateParts,
        shard: Option<u32>,
        core: &Core<D>,
    ) -> MergeGate<'a, 'f, 'b, 'p, H>
        ensures file { result.file.now ≡ file.entry.now }
        ensures shard { result.shard ≡ shard }
        ensures least { result.least ≡ least_merged parts.entry.now.merge_at core.now.shape.hashes }
    {
        let geometry = core.geometry();
        MergeGate {
            rt,
            file,
            board,
            parts,
            shard,
            geometry,
            least: least_merged(parts.merge_at, geometry.hashes()),
            has_place: AtomicBool::new(false),
            has_merged: AtomicBool::new(false),
            early: early_sync_of(
                rt,
                file,
                shard,
                geometry.entry_len() * STEPS_A_GUARD as usize,
            ),
            is_noted: OnceLock::new(),
        }
    }

    /// Whether damage was found, or a store of the server has failed.
    pub fn is_noted(&self) -> bool {
        self.is_noted.get().is_some() || self.parts.has_failed.get().is_some()
    }

    // Waits for a place, unless the merger has one.
    fn take_place(&self) {
        if !self.has_place.load(Ordering::Relaxed) {
            self.parts.places.take(self.rt);
            self.has_place.store(true, Ordering::Relaxed);
        }
    }

    // Frees the merger's place, if it has one.
    fn leave_place(&self) {
        if self.has_place.swap(false, Ordering::Relaxed) {
            self.parts.places.leave(self.rt);
        }
    }

    // Tells people what was found in the store's file.
    fn tell(&self, urgent: &Urgent) {
        tell_of(self.rt, self.file, self.shard, urgent);
    }
}

impl<H: Clock + Wait> MergeGate<'_, '_, '_, '_, H> {
    // Whether the merger is to wait, since a backup copies what its next step might free or overwrite.
    fn is_held(&self) -> bool {
        match self.parts.holds().of(self.shard.unwrap_or(0) as usize) {
            Hold::Free => {
                self.has_merged.store(false, Ordering::Relaxed);
                false
            }
            Hold::Steps => !self.board.is_ending(),
            Hold::Merges => self.has_merged.load(Ordering::Relaxed) && !self.board.is_ending(),
        }
    }

    // Waits until no backup holds the merger.
    fn wait_for_backup(&self) {
        for _ in self.rt.forever() {
            if !self.is_held() {
                return;
            }
            thread::sleep(self.rt, Duration::from_millis(HOLD));
        }
        unreachable!()
    }
}

impl<H: Net<Listener = TcpListener, Stream = TcpStream> + Wait + StandardStreams> Gate
    for MergeGate<'_, '_, '_, '_, H> {
    fn pass(&self, spot: Spot) {
        if spot == Spot::Merger {
            self.wait_for_backup();
            self.take_place();
            self.early.step();
        }
    }

    fn rest(&self, spot: Spot) {
        if spot == Spot::Merger {
            self.leave_place();
        }
    }

    fn ends_merge(&self) {
        self.early.sync();
    }

    // A merge has ended: so the next one may be that of another shard.
    fn finished(&self, spot: Spot) {
        if spot == Spot::Merger {
            self.has_merged.store(true, Ordering::Relaxed);
            self.leave_place();
        }
    }

    fn merges_at(&self) -> u32 {
        self.least
    }

    fn damaged(&self, _spot: Spot, place: Place, sorted: Option<u32>) {
        if self.is_noted.try_set(()).is_ok() {
            let at = merge_damage_at(&self.geometry, sorted, place);
            self.tell(&Urgent::Unmerged(self.rt.alloc(), place, at));
        }
    }

    // People are told of the first store that has failed. The listener may wait for a connection: so it is woken.
    fn failed(&self, _spot: Spot) {
        if self.parts.has_failed.try_set(()).is_err() || self.parts.stays {
            return;
        }
        self.tell(&Urgent::EndsServer);
        self.board.end();
        if let Some(socket) = self.parts.socket {
            wake(self.rt, socket);
        }
    }

    fn is_closed(&self) -> bool {
        self.board.is_ending()
    }
}
