// Where a damaged part of a disk lies.
ghost use Rattle.std.specs.Prelude.{◌≡◌, ◌+◌, ◌*◌, ◌<◌, ◌≤◌, ◌^◌, IsTrue, IfSome, IfNone};
ghost use Rattle.silt_jobs.specs.Common.{size, device_size, entry_len, row_len, header_of, version_of};
ghost use Rattle.silt_jobs.specs.Damage.{HasShape, LacksShape, offset_in, offset_of, merge_offset_of, unsorted_offset_of};

use silt_disk::{Disk, Geometry, slot_start};
use silt_event::{Place, Refusal};
use silt_manifest::read_current;
use silt_recovery::{Header, read_geometry};

/// The offset of the six numbers of a header.
const NUMBERS_AT: u64 = 13;

/// The offset of the damaged part that a refusal reports, if the refused disk can still say it.
pub fn damage_at<D: Disk, F: Drop>(disk: &D, refusal: &Refusal<F>) -> Option<u64> {
    match refusal {
        Refusal::Damaged(Place::Header) => Some(NUMBERS_AT),
        Refusal::Damaged(place) => {
            let header = header_on(disk)?;
            offset_of(&header.geometry, sorted_on(disk, &header), *place)
        }
        _ => None,
    }
}

// The contents of a disk's header, if it is whole and can be read.
fn header_on<D: Disk>(disk: &D) -> Option<Header>
    ensures version { IsTrue (D.content disk.now).honest → IfSome result (λ header. header.version ≡ version_of (header_of (D.content disk.now).shown)) }
    ensures size { IfSome result (λ header. size (D.content disk.now) ≡ device_size header.geometry) }
    ensures found { IfSome result (λ header. HasShape (D.content disk.now) header.geometry) }
    ensures none { IfNone result (LacksShape D.Disk disk.now) }
{
    match read_geometry(disk) {
        Ok(header) => Some(header),
        Err(error) => {
            drop(error);
            None
        }
    }
}

/// The geometry of a disk, if its header is whole and can be read.
pub fn geometry_on<D: Disk>(disk: &D) -> Option<Geometry>
    ensures size { IfSome result (λ geometry. size (D.content disk.now) ≡ device_size geometry) }
    ensures found { IfSome result (HasShape (D.content disk.now)) }
    ensures none { IfNone result (LacksShape D.Disk disk.now) }
{
    let header = header_on(disk)?;
    Some(header.geometry)
}

// The region of the sorted store of a disk, by its manifest, if that can be read.
fn sorted_on<D: Disk>(disk: &D, header: &Header) -> u32
    requires size { size (D.content disk.now) ≡ device_size header.now.geometry }
    requires version { IsTrue (D.content disk.now).honest → header.now.version ≡ version_of (header_of (D.content disk.now).shown) }
    ensures { result < 2 }
{
    match read_current(disk, header.geometry, header.version) {
        Ok(manifest) if manifest.current().sorted < 2 => manifest.current().sorted,
        _ => 0,
    }
}

/// The offset of the damaged part that a merge reports. If it is not known in which region the sorted store lies, a part of
/// that store has no offset.
pub fn merge_damage_at(geometry: &Geometry, sorted: Option<u32>, place: Place) -> Option<u64>
    ensures { result ≡ merge_offset_of geometry.now sorted place }
{
    match sorted {
        Some(sorted) if sorted < 2 => offset_of(geometry, sorted, place),
        _ => unsorted_offset_of(geometry, place),
    }
}

// The offset of a part that is not in the sorted store.
fn unsorted_offset_of(geometry: &Geometry, place: Place) -> Option<u64>
    ensures { result ≡ unsorted_offset_of geometry.now place }
{
    match place {
        Place::Sorted(_) => None,
        Place::SortedDigest => None,
        _ => offset_of(geometry, 0, place),
    }
}

/// The offset of a part of a disk with this geometry, and with the sorted store in this region.
pub fn offset_of(geometry: &Geometry, sorted: u32, place: Place) -> Option<u64>
    requires { sorted < 2 }
    ensures { result ≡ offset_of geometry.now sorted place }
{
    let row_len = geometry.row_len() as u64;
    match place {
        Place::Header => Some(NUMBERS_AT),
        Place::Slot(slot) if slot < 2 => Some(slot_start(slot)),
        Place::NoSlot => Some(slot_start(0)),
        Place::Log { region, row } if region < geometry.logs() => {
            offset_in(
                geometry.bodies_at(region),
                row_len,
                geometry.log_capacity(),
                row,
            )
        }
        Place::Hash { region, slot } if region < geometry.hashes() => {
            offset_in(
                geometry.hash_at(region),
                row_len,
                4 * geometry.buckets(),
                slot,
            )
        }
        Place::HashDigest(region) if region < geometry.hashes() => Some(geometry.hash_at(region)),
        Place::Sorted(entry) => offset_in(
            geometry.sorted_at(sorted),
            geometry.entry_len() as u64,
            geometry.sorted_capacity(),
            entry,
        ),
        Place::SortedDigest => Some(geometry.sorted_at(sorted)),
        _ => None,
    }
}

// The offset of a row, a slot or an entry of this length in a region of this many of them.
fn offset_in(region_at: u64, len: u64, count: u32, part: u32) -> Option<u64>
    requires { region_at + count * len ≤ 2 ^ 40 }
    ensures { result ≡ offset_in region_at len count part }
{
    if part < count {
        Some(region_at + u64::from(part) * len)
    } else {
        None
    }
}
