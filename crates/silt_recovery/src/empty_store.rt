// The empty store that a device is given.
ghost use Rattle.std.specs.Prelude.{◌≡◌, [], ◌≤◌, ◌+◌, false, slice_range, length, IsTrue, OnOk, OnErr, IfErr, MatchResult};
ghost use Rattle.std.specs.FinMap.{empty};
ghost use Rattle.silt_disk.specs.Disk.{Costs, GaveAny, LeavesOnly, Makes, MakesAtMost, size};
ghost use Rattle.silt_disk.specs.Layout.{InLimits, device_size};
ghost use Rattle.silt_image.specs.Meaning.{StandsFor, entries_digest};
ghost use Rattle.silt_recovery.specs.Format.{FormatCause, IsHalfFormatted};
ghost use Rattle.silt_standing.specs.Standing.{SameDisk};

use crate::fault::{FormatError, FormatFault};
use crate::header::write_header;
use sha1::Sha1;
use silt_disk::{Disk, Geometry, slot_start, write_synced};
use silt_frame::{COMMIT_CLOSED, Digest};
use silt_log::Log;
use silt_manifest::{Digests, write_first};
use std::alloc::Global;

/// Makes an empty store of this geometry, and gives the device back. What the device held is lost. The header's commit byte
/// is closed first and opened last. So a device whose formatting was interrupted by a crash holds no
/// store, or the empty one. It costs eight writes and seven syncs.
///
/// # Errors
///
/// `BadGeometry` exactly if the device has another length than the geometry asks for, and then nothing is written;
/// `NoMemory` before the first write; `Device` with the fault of a write or a sync. Each crash image that is then
/// possible was possible before, but for the header's commit byte, or it holds no store, or the empty one.
pub fn format<D: Disk>(alloc: Global, mut disk: D, geometry: Geometry) -> Result<D, FormatFault<D>>
    ensures size { OnOk result (size (D.content disk) ≡ device_size geometry) }
    ensures images { MatchResult result (λ new. LeavesOnly (D.content new) (StandsFor geometry empty)) (λ fault. LeavesOnly (D.content fault.disk) (IsHalfFormatted (D.content disk) geometry)) }
    ensures same { MatchResult result (λ new. SameDisk (D.content disk) (D.content new)) (λ fault. SameDisk (D.content disk) (D.content fault.disk)) }
    ensures made { MatchResult result (λ new. Makes D.writes D.syncs 8 7 disk new) (λ fault. MakesAtMost D.writes D.syncs 8 7 disk fault.disk) }
    ensures cause { IfErr result (λ fault. FormatCause D.content (GaveAny D.gave) geometry disk fault.disk fault.error) }
{
    if disk.len() != geometry.size() {
        return Err(FormatFault {
            disk,
            error: FormatError::BadGeometry,
        });
    }
    let Ok(mut log) = Log::new(alloc, geometry, 0) else {
        return Err(FormatFault {
            disk,
            error: FormatError::NoMemory,
        });
    };
    match write_store(&mut disk, &mut log, &geometry) {
        Ok(()) => Ok(disk),
        Err(fault) => Err(FormatFault {
            disk,
            error: FormatError::Device(fault),
        }),
    }
}

// The digests of an empty store: there is no hash store, and the sorted store has no entries.
fn empty_digests() -> Digests
    ensures { result.sorted.0 ≡ entries_digest [] }
{
    Digests {
        hashed: [Digest([0; 20]); 16],
        sorted: Digest(Sha1::new().finalize()),
    }
}

// Writes the empty store: the header's commit byte is closed first and opened last.
fn write_store<D: Disk>(disk: &mut D, log: &mut Log, geometry: &Geometry) -> Result<(), D::Fault>
    requires size { size (D.content disk.old) ≡ device_size geometry.now }
    requires limits { InLimits geometry.now }
    requires log { log.old ≡ record { shape = geometry.now; region = 0; settled = 0; used = 0; stale = false } }
    ensures same { SameDisk (D.content disk.old) (D.content disk.new) }
    ensures images { OnOk result (LeavesOnly (D.content disk.new) (StandsFor geometry.now empty)) }
    ensures stopped { OnErr result (LeavesOnly (D.content disk.new) (IsHalfFormatted (D.content disk.old) geometry.now)) }
    ensures made { Costs D.writes D.syncs 8 7 disk.old disk.new result }
    ensures fault { IfErr result (GaveAny D.gave disk.new) }
{
    write_synced(disk, 0, &[COMMIT_CLOSED])?;
    disk.write(slot_start(1), &[COMMIT_CLOSED])?;
    log.prepare(disk)?;
    let digests = empty_digests();
    write_first(disk, &digests)?;
    write_header(disk, geometry)?;
    Ok(())
}
