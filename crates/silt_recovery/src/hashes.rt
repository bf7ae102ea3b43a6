// Reading the hash stores that a manifest names.
ghost use Rattle.std.specs.Prelude.{◌≡◌, ◌≤◌, ◌<◌, ◌^◌, [], All, IsTrue, IfOk, IfErr, OnOk, length, vec_capacity};
ghost use Rattle.silt_disk.specs.Disk.{GaveAny, size};
ghost use Rattle.silt_disk.specs.Layout.{device_size, most_hashes};
ghost use Rattle.silt_recovery.specs.Digests.{bytes_said};
ghost use Rattle.silt_recovery.specs.Hashes.{AreReadHashes, HasFirstInRegion, HasFirstSlot, IsReadHash, region_findings, region_rows};
ghost use Rattle.silt_recovery.specs.Refusals.{IsRefusedLook};

use crate::digests::{hash_said, is_other};
use crate::fault::OpenError;
use silt_disk::{Disk, Geometry};
use silt_event::Place;
use silt_frame::Digest;
use silt_hash_store::{HashStore, Rebuilt, ScanError};
use silt_manifest::Digests;
use std::alloc::Global;

// As many hash stores as a device can have.
const HASH_ROOM: usize = 16;

/// Hash stores that were read, in order, how many of their rows are puts, and how many rows of known kinds they have.
#[derive(Drop)]
pub struct ReadHashes {
    pub stores: Vec<HashStore>,
    pub puts: u64,
    pub rows: u32,
}

/// Reads the hash store in a region, and makes the tags of its slots. After them the digest of their bytes is compared
/// with the manifest's, if it has one.
///
/// # Errors
///
/// `Damaged` with the number of the first slot that has an unknown kind, a row that belongs into other buckets, or a
/// row of a key that an earlier slot has; or else with the region, if its digest is another; `Device` with the fault of
/// a read, and `NoMemory`.
pub fn read_hash<D: Disk>(
    alloc: Global,
    disk: &D,
    geometry: Geometry,
    region: u32,
    said: Option<Digest>,
) -> Result<Rebuilt, OpenError<D::Fault>>
    requires region { region < geometry.hashes }
    requires size { size (D.content disk.now) ≡ device_size geometry }
    ensures region { IfOk result (λ rebuilt. rebuilt.store.region ≡ region) }
    ensures read { IfOk result (λ rebuilt. IsReadHash (D.content disk.now) geometry rebuilt.store) }
    ensures sound { IsTrue (D.content disk.now).honest → OnOk result (region_findings geometry (bytes_said said) (D.content disk.now).shown region ≡ []) }
    ensures counted { IsTrue (D.content disk.now).honest → IfOk result (λ rebuilt. rebuilt.rows ≡ region_rows geometry (D.content disk.now).shown region) }
    ensures most { IfOk result (λ rebuilt. (rebuilt.store.puts ≤ 131072) × (rebuilt.rows ≤ 131072)) }
    ensures cause { IfErr result (IsRefusedLook
        (λ finding. IsTrue (D.content disk.now).honest → HasFirstInRegion geometry (bytes_said said) (D.content disk.now).shown region finding)
        (GaveAny D.gave disk.now)) }
{
    let _known = geometry.buckets(); // at most 32,768, of four slots each
    match HashStore::rebuild(alloc, disk, geometry, region) {
        Ok(rebuilt) => {
            let _known = rebuilt.store.region(); // one that the device has
            if is_other(said, rebuilt.store.digest()) {
                return Err(OpenError::Damaged(Place::HashDigest(region)));
            }
            Ok(rebuilt)
        }
        Err(ScanError::Damaged(slot)) => Err(OpenError::Damaged(Place::Hash { region, slot })),
        Err(ScanError::Device(fault)) => Err(OpenError::Device(fault)),
        Err(ScanError::NoMemory) => Err(OpenError::NoMemory),
    }
}

/// Reads the hash stores, the newest first, and compares their digests with the manifest's. Their list has room for as
/// many as a device can have.
///
/// # Errors
///
/// Those of `read_hash`, of the first hash store with a finding.
pub fn read_hashes<D: Disk>(
    alloc: Global,
    disk: &D,
    geometry: Geometry,
    regions: &[u32],
    said: &Option<Digests>,
) -> Result<ReadHashes, OpenError<D::Fault>>
    requires regions { All (λ region. region < geometry.hashes) regions.now }
    requires few { length regions.now ≤ most_hashes }
    requires size { size (D.content disk.now) ≡ device_size geometry }
    ensures read { IfOk result (λ hashes. AreReadHashes (D.content disk.now) geometry said.now regions.now hashes.stores.items hashes.puts hashes.rows) }
    ensures most { IfOk result (λ hashes. hashes.puts < 2 ^ 40) }
    ensures room { IfOk result (λ hashes. most_hashes ≤ vec_capacity hashes.stores) }
    ensures cause { IfErr result (IsRefusedLook
        (λ finding. IsTrue (D.content disk.now).honest → HasFirstSlot geometry said.now (D.content disk.now).shown regions.now finding)
        (GaveAny D.gave disk.now)) }
{
    let Ok(mut stores) = Vec::with_capacity(alloc, HASH_ROOM) else {
        return Err(OpenError::NoMemory);
    };
    let mut puts = 0;
    let mut rows = 0;
    for (place, region) in regions.iter().enumerate() {
        let rebuilt = read_hash(alloc, disk, geometry, *region, hash_said(said, place))?;
        puts += u64::from(rebuilt.store.puts());
        rows += rebuilt.rows;
        let Ok(()) = stores.push(rebuilt.store) else {
            return Err(OpenError::NoMemory);
        };
    }
    Ok(ReadHashes { stores, puts, rows })
}
