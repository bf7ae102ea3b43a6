// Reading the sorted entries that a manifest names.
ghost use Rattle.std.specs.Prelude.{◌≡◌, ◌<◌, ◌≤◌, IsTrue, IfOk, IfErr, OnOk};
ghost use Rattle.silt_disk.specs.Disk.{GaveAny, size};
ghost use Rattle.silt_disk.specs.Layout.{device_size};
ghost use Rattle.silt_recovery.specs.Entries.{AreSoundEntries, HasFirstEntry};
ghost use Rattle.silt_recovery.specs.Refusals.{IsRefusedLook};
ghost use Rattle.silt_sorted_store.specs.Index.{HasIndex};
ghost use Rattle.silt_sorted_store.specs.State.{HasDigest};

use crate::digests::{is_other, sorted_said};
use crate::fault::OpenError;
use silt_disk::{Disk, Geometry};
use silt_event::Place;
use silt_manifest::Digests;
use silt_sorted_store::{ScanError, SortedStore};
use std::alloc::Global;

/// Reads the first `count` entries of a sorted region once, and makes the index of their keys and the digest of their
/// bytes. After the last entry the digest is compared with the manifest's, if it has one.
///
/// # Errors
///
/// `Damaged` with the number of the first entry that is not above the one before it, or else at the digest, if it is
/// another; `Device` with the fault of a read; `NoMemory` for what is read and for the index.
pub fn read_entries<D: Disk>(
    alloc: Global,
    disk: &D,
    geometry: Geometry,
    region: u32,
    count: u32,
    said: &Option<Digests>,
) -> Result<SortedStore, OpenError<D::Fault>>
    requires region { region < 2 }
    requires count { count ≤ geometry.sorted_capacity }
    requires size { size (D.content disk.now) ≡ device_size geometry }
    ensures store { IfOk result (λ store. store.sorted ≡ record { shape = geometry; region = region; count = count }) }
    ensures indexed { IfOk result (λ store. HasIndex (D.content disk.now) store.sorted store.index) }
    ensures digested { IfOk result (λ store. HasDigest (D.content disk.now) store.sorted store.digest) }
    ensures sound { IsTrue (D.content disk.now).honest → OnOk result (AreSoundEntries geometry said.now (D.content disk.now).shown region count) }
    ensures cause { IfErr result (IsRefusedLook
        (λ finding. IsTrue (D.content disk.now).honest → HasFirstEntry geometry said.now (D.content disk.now).shown region count finding)
        (GaveAny D.gave disk.now)) }
{
    match SortedStore::rebuild(alloc, disk, geometry, region, count) {
        Ok(store) => {
            if is_other(sorted_said(said), store.digest()) {
                return Err(OpenError::Damaged(Place::SortedDigest));
            }
            Ok(store)
        }
        Err(ScanError::Damaged(place)) => Err(OpenError::Damaged(Place::Sorted(place))),
        Err(ScanError::Device(fault)) => Err(OpenError::Device(fault)),
        Err(ScanError::NoMemory) => Err(OpenError::NoMemory),
    }
}
