// Examines a copy, and compares it with the moment whose copy it should be.
ghost use Rattle.std.specs.Prelude.{◌≡◌, ◌∷◌, IfErr, IfOk, IsTrue, length};
ghost use Rattle.silt_backup.specs.Backups.{AreLogs, HasDigests, IsBackup, IsOfMoment, IsLogOf};
ghost use Rattle.silt_disk.specs.Disk.{GaveAny, Shows};
ghost use Rattle.silt_disk.specs.Layout.{log_size};
ghost use Rattle.silt_recovery.specs.Opening.{held_stores};
ghost use Rattle.silt_recovery.specs.Refusals.{IsFound, IsRefusedLook};

use crate::ranges::{is_within, log_len};
use silt_disk::{Disk, Geometry};
use silt_manifest::Digests;
use silt_recovery::{Holding, OpenError, examine};
use silt_view::Moment;
use std::alloc::Global;

// Whether what is held of a device has the six numbers and the record of a moment.
fn has_record(held: &Holding, moment: &Moment) -> bool
    ensures { IsTrue result → (held.now.manifest.shape ≡ moment.now.geometry) × (held.now.manifest.current ≡ moment.now.body) }
{
    held.manifest.geometry() == moment.geometry && held.manifest.current() == moment.body
}

// Whether the stores that are held of a device have these digests.
fn has_digests(held: &Holding, digests: &Digests) -> bool
    ensures { IsTrue result → HasDigests (held_stores held.now) digests.now }
{
    if held.hashes.len() > digests.hashed.len() || held.sorted.digest().0 != digests.sorted.0 {
        return false;
    }
    for place in 0..held.hashes.len() {
        if held.hashes[place].digest().0 != digests.hashed[place].0 {
            return false;
        }
    }
    true
}

// Whether what is held of a device has the six numbers, the record and the digests of a moment.
fn is_like(held: &Holding, moment: &Moment) -> bool
    ensures { IsTrue result → IsOfMoment (held_stores held.now) moment.now }
{
    if !has_record(held, moment) {
        return false;
    }
    has_digests(held, &moment.digests)
}

// Whether a log region of a device has these bytes.
fn has_log<D: Disk>(
    alloc: Global,
    disk: &D,
    geometry: &Geometry,
    region: u32,
    log: &[u8],
) -> Result<bool, OpenError<D::Fault>>
    requires { length log.now ≡ log_size geometry.now }
    ensures same { IfOk result (λ same. IsTrue same → Shows (D.content disk.now) (IsLogOf geometry.now region log.now)) }
    ensures cause { IfErr result (IsRefusedLook
        (λ finding. IsTrue (D.content disk.now).honest → IsFound (D.content disk.now).shown finding)
        (GaveAny D.gave disk.now)) }
{
    if region >= geometry.logs() {
        return Ok(false);
    }
    let at = geometry.commits_at(region);
    if !is_within(at, log.len() as u64, disk.len()) {
        return Ok(false);
    }
    let Ok(mut bytes) = vec![in alloc; 0u8; log.len()] else {
        return Err(OpenError::NoMemory);
    };
    match disk.read(at, bytes.as_mut_slice()) {
        Ok(()) => Ok(bytes.as_slice() == log),
        Err(fault) => Err(OpenError::Device(fault)),
    }
}

// Whether a device has this log, with whose bytes these begin, and then the other ones.
fn has_logs<D: Disk>(
    alloc: Global,
    disk: &D,
    geometry: &Geometry,
    region: u32,
    others: &[u32],
    bytes: &[u8],
) -> Result<bool, OpenError<D::Fault>>
    ensures same { IfOk result (λ same. IsTrue same → Shows (D.content disk.now) (AreLogs geometry.now (region ∷ others.now) bytes.now)) }
    ensures cause { IfErr result (IsRefusedLook
        (λ finding. IsTrue (D.content disk.now).honest → IsFound (D.content disk.now).shown finding)
        (GaveAny D.gave disk.now)) }
{
    let len = log_len(geometry);
    if bytes.len() < len {
        return Ok(false);
    }
    let (log, behind) = bytes.split_at(len);
    if !has_log(alloc, disk, geometry, region, log)? {
        return Ok(false);
    }
    match others.split_first() {
        Some((next, rest)) => has_logs(alloc, disk, geometry, *next, rest, behind),
        None => Ok(true),
    }
}

// Examines a device, and says whether it is a backup of a moment.
pub(crate) fn is_backup<D: Disk>(
    alloc: Global,
    disk: &D,
    moment: &Moment,
) -> Result<bool, OpenError<D::Fault>>
    ensures backup { IfOk result (λ is. IsTrue is → Shows (D.content disk.now) (IsBackup moment.now)) }
    ensures cause { IfErr result (IsRefusedLook
        (λ finding. IsTrue (D.content disk.now).honest → IsFound (D.content disk.now).shown finding)
        (GaveAny D.gave disk.now)) }
{
    let held = examine(alloc, disk)?;
    let is_like = is_like(&held, moment);
    drop(held);
    if !is_like {
        return Ok(false);
    }
    let body = &moment.body;
    has_logs(
        alloc,
        disk,
        &moment.geometry,
        body.active,
        body.frozen.as_slice(),
        moment.logs.as_slice(),
    )
}
