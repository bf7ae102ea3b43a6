// The store that is measured.
ghost use Rattle.std.specs.Prelude.{◌≡◌, false};
ghost use Rattle.silt_inbox.specs.Books.{has_books};

use crate::error::{BenchError, Call};
use silt_desk::{Count, Desk, DeskId, Seat};
use silt_device::{Disk, Geometry};
use silt_recovery::format;
use silt_store_set::Core;
use std::alloc::Global;
use std::sync::ledger::Blank;

/// An empty store of this geometry on a disk.
pub fn new_store<D: Disk>(
    alloc: Global,
    disk: D,
    geometry: Geometry,
) -> Result<Core<D>, BenchError> {
    match format(alloc, disk, geometry) {
        Ok(disk) => open_store(alloc, disk),
        Err(_) => Err(BenchError::Refused(Call::Format)),
    }
}

/// Opens the store on a disk.
pub fn open_store<D: Disk>(alloc: Global, disk: D) -> Result<Core<D>, BenchError> {
    match Core::open(alloc, disk) {
        Ok(core) => Ok(core),
        Err(_) => Err(BenchError::Refused(Call::Open)),
    }
}

/// The blanks that become the ledgers of a desk with three seats.
#[derive(Drop)]
pub struct Blanks {
    pub calls: Blank,
    pub accepted: Blank,
}

impl Blanks {
    /// Two new ones.
    pub fn new() -> Blanks
        ensures { (result.calls.parts ≡ 3) × (result.accepted.parts ≡ 3) }
    {
        Blanks {
            calls: Blank::new(3),
            accepted: Blank::new(3),
        }
    }
}

/// A store at a desk with three seats and no books, as each shard of a set has one.
pub fn seated_in_set<D: Disk, N: DeskId>(
    alloc: Global,
    core: Core<D>,
) -> Result<(Desk<D, Count, N>, Vec<Seat<N>>), BenchError>
    requires books { has_books N.seats ≡ false }
{
    match Desk::unbooked(alloc, core, Count::new(), 3) {
        Ok(made) => Ok(made),
        Err(_) => Err(BenchError::NoMemory),
    }
}

/// A store at a desk with three seats.
pub fn seated<D: Disk, N: DeskId>(
    alloc: Global,
    core: Core<D>,
    blanks: Blanks,
) -> Result<(Desk<D, Count, N>, Vec<Seat<N>>), BenchError>
    requires calls { (blanks.calls.name ≡ N.calls_name) × (blanks.calls.parts ≡ N.seats) }
    requires accepted { (blanks.accepted.name ≡ N.accepted_name) × (blanks.accepted.parts ≡ N.seats) }
    requires seats { N.seats ≡ 3 }
{
    let Blanks { calls, accepted } = blanks;
    match Desk::new(alloc, core, Count::new(), 3, calls, accepted) {
        Ok(made) => Ok(made),
        Err(_) => Err(BenchError::NoMemory),
    }
}
