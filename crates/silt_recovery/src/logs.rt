// Reading the logs that a manifest names.
ghost use Rattle.std.specs.Prelude.{◌≡◌, ◌≤◌, ◌<◌, ◌^◌, [], ◌∷◌, All, IsTrue, IfOk, IfErr, OnOk, length, vec_capacity};
ghost use Rattle.silt_disk.specs.Disk.{GaveAny, size};
ghost use Rattle.silt_disk.specs.Layout.{device_size, most_frozen};
ghost use Rattle.silt_frame.specs.Rows.{put_count};
ghost use Rattle.silt_log.specs.Rows.{log_rows};
ghost use Rattle.silt_recovery.specs.Logs.{AreReadLogs, AreSoundLogs, HasFirstFinding, IsReadLog};
ghost use Rattle.silt_recovery.specs.Refusals.{IsRefusedLook};

use crate::fault::OpenError;
use silt_disk::{Disk, Geometry};
use silt_event::Place;
use silt_log_store::{LogStore, RebuildError};
use std::alloc::Global;

// As many frozen logs as a device can have.
const FROZEN_ROOM: usize = 7;

/// Logs that were read, in order, and how many of their rows are puts.
#[derive(Drop)]
pub struct ReadLogs {
    pub stores: Vec<LogStore>,
    pub puts: u64,
}

/// Reads the log in a region, and makes the table of its keys.
///
/// # Errors
///
/// `Damaged` with the number of the first row of an unknown kind, or `Crowded` if the placing rule gives up at an
/// earlier one; `Device` with the fault of a read, and `NoMemory`.
pub fn read_log<D: Disk>(
    alloc: Global,
    disk: &D,
    geometry: Geometry,
    region: u32,
) -> Result<LogStore, OpenError<D::Fault>>
    requires region { region < geometry.logs }
    requires size { size (D.content disk.now) ≡ device_size geometry }
    ensures region { IfOk result (λ store. store.log.region ≡ region) }
    ensures read { IfOk result (IsReadLog (D.content disk.now) geometry) }
    ensures sound { IsTrue (D.content disk.now).honest → OnOk result (AreSoundLogs geometry (D.content disk.now).shown (region ∷ [])) }
    ensures counted { IsTrue (D.content disk.now).honest → IfOk result (λ store. store.puts ≡ put_count (log_rows geometry region (D.content disk.now).shown)) }
    ensures most { IfOk result (λ store. store.puts < 2 ^ 32) }
    ensures cause { IfErr result (IsRefusedLook
        (λ finding. IsTrue (D.content disk.now).honest → HasFirstFinding geometry (D.content disk.now).shown (region ∷ []) finding)
        (GaveAny D.gave disk.now)) }
{
    match LogStore::rebuild(alloc, disk, geometry, region) {
        Ok(store) => {
            let _known = store.puts(); // at most as many as rows, which the log has room for
            Ok(store)
        }
        Err(RebuildError::Damaged(row)) => Err(OpenError::Damaged(Place::Log { region, row })),
        Err(RebuildError::Crowded) => Err(OpenError::Crowded),
        Err(RebuildError::Device(fault)) => Err(OpenError::Device(fault)),
        Err(RebuildError::NoMemory) => Err(OpenError::NoMemory),
    }
}

/// Reads the frozen logs, the newest first. Their list has room for as many as a device can have.
///
/// # Errors
///
/// Those of `read_log`, of the first log in which something is found.
pub fn read_frozen<D: Disk>(
    alloc: Global,
    disk: &D,
    geometry: Geometry,
    regions: &[u32],
) -> Result<ReadLogs, OpenError<D::Fault>>
    requires regions { All (λ region. region < geometry.logs) regions.now }
    requires few { length regions.now ≤ most_frozen }
    requires size { size (D.content disk.now) ≡ device_size geometry }
    ensures read { IfOk result (λ logs. AreReadLogs (D.content disk.now) geometry regions.now logs.stores.items logs.puts) }
    ensures most { IfOk result (λ logs. logs.puts < 2 ^ 40) }
    ensures room { IfOk result (λ logs. most_frozen ≤ vec_capacity logs.stores) }
    ensures cause { IfErr result (IsRefusedLook
        (λ finding. IsTrue (D.content disk.now).honest → HasFirstFinding geometry (D.content disk.now).shown regions.now finding)
        (GaveAny D.gave disk.now)) }
{
    let Ok(mut stores) = Vec::with_capacity(alloc, FROZEN_ROOM) else {
        return Err(OpenError::NoMemory);
    };
    let mut puts = 0;
    for region in regions {
        let store = read_log(alloc, disk, geometry, *region)?;
        puts += u64::from(store.puts());
        let Ok(()) = stores.push(store) else {
            return Err(OpenError::NoMemory);
        };
    }
    Ok(ReadLogs { stores, puts })
}
