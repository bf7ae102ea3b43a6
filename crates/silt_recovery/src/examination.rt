// The look at a device: what it holds, or what is found wrong.
ghost use Rattle.std.specs.Prelude.{◌≡◌, ◌≤◌, IsTrue, IfOk, IfErr, OnOk, None, Ok, vec_capacity};
ghost use Rattle.silt_disk.specs.Disk.{GaveAny, Rests, size};
ghost use Rattle.silt_disk.specs.Layout.{device_size, most_frozen, most_hashes};
ghost use Rattle.silt_disk.specs.Header.{header_of, version_of};
ghost use Rattle.silt_image.specs.Stores.{image_digests, image_stores, shape_found, stores_named};
ghost use Rattle.silt_manifest.specs.Standing.{IsCurrent};
ghost use Rattle.silt_recovery.specs.Opening.{CountsHashRows, Holds, held_stores};
ghost use Rattle.silt_recovery.specs.Refusals.{IsFound, IsRefusedLook};

use crate::entries::read_entries;
use crate::fault::OpenError;
use crate::hashes::read_hashes;
use crate::header::read_geometry;
use crate::logs::{read_frozen, read_log};
use silt_disk::{Disk, Geometry, Version};
use silt_event::Place;
use silt_hash_store::HashStore;
use silt_image::finding_of;
use silt_log_store::LogStore;
use silt_manifest::{Manifest, ReadFault, read_current};
use silt_sorted_store::SortedStore;
use std::alloc::Global;

/// What is held in memory of a device in which nothing was found: the manifest, the stores that it names, the newest first, and how
/// many of their rows are puts. The lists have room for as many frozen logs and hash stores as a device can have.
#[derive(Drop)]
pub struct Holding {
    pub manifest: Manifest,
    pub active: LogStore,
    pub frozen: Vec<LogStore>,
    pub hashes: Vec<HashStore>,
    pub sorted: SortedStore,
    /// How many rows of known kinds the hash stores have together.
    pub hash_rows: u32,
    pub charge: u32,
}

// Reads the manifest of a device of this geometry and version.
fn read_manifest<D: Disk>(
    disk: &D,
    geometry: Geometry,
    version: Version,
) -> Result<Manifest, OpenError<D::Fault>>
    requires size { size (D.content disk.now) ≡ device_size geometry }
    requires shape { IsTrue (D.content disk.now).honest → shape_found (size (D.content disk.now)) (header_of (D.content disk.now).shown) ≡ Ok geometry }
    requires version { IsTrue (D.content disk.now).honest → version ≡ version_of (header_of (D.content disk.now).shown) }
    ensures shape { IfOk result (λ m. (m.shape ≡ geometry) × (m.prepared ≡ None)) }
    ensures current { IfOk result (λ m. Rests (D.content disk.now) → IsCurrent m (D.content disk.now)) }
    ensures named { IsTrue (D.content disk.now).honest → IfOk result (λ m. image_stores (D.content disk.now).shown ≡ Ok (stores_named geometry m.current (D.content disk.now).shown)) }
    ensures says { IsTrue (D.content disk.now).honest → IfOk result (λ m. image_digests (D.content disk.now).shown ≡ m.digests) }
    ensures cause { IfErr result (IsRefusedLook
        (λ finding. IsTrue (D.content disk.now).honest → IsFound (D.content disk.now).shown finding)
        (GaveAny D.gave disk.now)) }
{
    match read_current(disk, geometry, version) {
        Ok(manifest) => Ok(manifest),
        Err(ReadFault::Damaged(damage)) => Err(OpenError::from(finding_of(damage))),
        Err(ReadFault::Device(fault)) => Err(OpenError::Device(fault)),
    }
}

// Reads the logs that a manifest names, the active one first, the hash stores and the sorted entries, compares the
// manifest's digests, and counts the puts.
fn read_stores<D: Disk>(
    alloc: Global,
    disk: &D,
    manifest: Manifest,
) -> Result<Holding, OpenError<D::Fault>>
    requires size { size (D.content disk.now) ≡ device_size manifest.shape }
    requires idle { manifest.prepared ≡ None }
    requires named { IsTrue (D.content disk.now).honest → image_stores (D.content disk.now).shown ≡ Ok (stores_named manifest.shape manifest.current (D.content disk.now).shown) }
    requires says { IsTrue (D.content disk.now).honest → image_digests (D.content disk.now).shown ≡ manifest.digests }
    requires current { Rests (D.content disk.now) → IsCurrent manifest (D.content disk.now) }
    ensures holds { IfOk result (λ held. Holds (D.content disk.now) (held_stores held)) }
    ensures hash_rows { IfOk result (λ held. CountsHashRows (D.content disk.now) (held_stores held) held.hash_rows) }
    ensures room { IfOk result (λ held. (most_frozen ≤ vec_capacity held.frozen) × (most_hashes ≤ vec_capacity held.hashes)) }
    ensures cause { IfErr result (IsRefusedLook
        (λ finding. IsTrue (D.content disk.now).honest → IsFound (D.content disk.now).shown finding)
        (GaveAny D.gave disk.now)) }
{
    let geometry = manifest.geometry();
    let body = manifest.current();
    let said = manifest.digests();
    let most = u64::from(geometry.sorted_capacity());
    let active = read_log(alloc, disk, geometry, body.active)?;
    let frozen = read_frozen(alloc, disk, geometry, body.frozen.as_slice())?;
    let hashes = read_hashes(alloc, disk, geometry, body.hashed.as_slice(), &said)?;
    let sorted = read_entries(alloc, disk, geometry, body.sorted, body.sorted_count, &said)?;
    let newest = u64::from(active.puts());
    let entries = u64::from(sorted.len());
    let charge = newest + frozen.puts + hashes.puts + entries;
    if charge > most {
        return Err(OpenError::Damaged(Place::Charge));
    }
    Ok(Holding {
        manifest,
        active,
        frozen: frozen.stores,
        hashes: hashes.stores,
        sorted,
        hash_rows: hashes.rows,
        charge: charge as u32,
    })
}

/// Examines a device, in this order: the header, the manifest, the active log, the frozen logs from the newest, the
/// hash stores from the newest, the sorted entries, the number of puts. If the manifest has digests, that of a hash
/// store is compared after its slots, and that of the sorted store after its entries. It writes nothing.
///
/// # Errors
///
/// The first finding; or `Device` with the fault of a read, or `NoMemory`.
pub fn examine<D: Disk>(alloc: Global, disk: &D) -> Result<Holding, OpenError<D::Fault>>
    ensures holds { IfOk result (λ held. Holds (D.content disk.now) (held_stores held)) }
    ensures hash_rows { IfOk result (λ held. CountsHashRows (D.content disk.now) (held_stores held) held.hash_rows) }
    ensures room { IfOk result (λ held. (most_frozen ≤ vec_capacity held.frozen) × (most_hashes ≤ vec_capacity held.hashes)) }
    ensures cause { IfErr result (IsRefusedLook
        (λ finding. IsTrue (D.content disk.now).honest → IsFound (D.content disk.now).shown finding)
        (GaveAny D.gave disk.now)) }
{
    let header = read_geometry(disk)?;
    let manifest = read_manifest(disk, header.geometry, header.version)?;
    read_stores(alloc, disk, manifest)
}
