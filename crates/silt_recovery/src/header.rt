// The header of a device: its commit byte, and the six numbers behind it.
ghost use Rattle.std.specs.Prelude.{◌≡◌, ◌∷◌, ◌≤◌, IsTrue, IfOk, IfErr, OnOk, Ok, Err};
ghost use Rattle.silt_disk.specs.Disk.{GaveAny, LeavesOnly, Rests, size};
ghost use Rattle.silt_disk.specs.Wrote.{Wrote};
ghost use Rattle.silt_disk.specs.Layout.{device_size};
ghost use Rattle.silt_frame.specs.Commit.{commit_open};
ghost use Rattle.silt_disk.specs.Header.{header_bytes, header_of, version_of};
ghost use Rattle.silt_image.specs.Stores.{shape_found};
ghost use Rattle.silt_recovery.specs.Format.{HasHeaderOrNone, IsCommitClosed};
ghost use Rattle.silt_recovery.specs.Refusals.{IsRefusedLook};
ghost use Rattle.silt_recovery.specs.declared.fault.OpenError.TheVariants.{NoMemory};

use crate::fault::OpenError;
use silt_disk::{Disk, Geometry, HEADER_LEN, Version, header_bytes, version_of, write_synced};
use silt_frame::COMMIT_OPEN;
use silt_image::read_header;

/// What the header of a device has: six numbers, and the version of its layout.
#[derive(Clone, Copy)]
pub struct Header {
    pub geometry: Geometry,
    pub version: Version,
}

// The bytes of the header.
fn read_bytes<D: Disk>(disk: &D) -> Result<[u8; 37], D::Fault>
    requires { 37 ≤ size (D.content disk.now) }
    ensures bytes { IsTrue (D.content disk.now).honest → IfOk result (λ header. header ≡ header_of (D.content disk.now).shown) }
    ensures fault { IfErr result (GaveAny D.gave disk.now) }
{
    let mut header = [0; HEADER_LEN];
    disk.read(0, &mut header)?;
    Ok(header)
}

/// The geometry and the version in the header of a device. The device must have the length that this geometry asks for. It takes no
/// memory.
///
/// # Errors
///
/// `NotFormatted`, `Damaged` at the header or the length, or `Device` with the fault of the read.
pub fn read_geometry<D: Disk>(disk: &D) -> Result<Header, OpenError<D::Fault>>
    ensures shape { IsTrue (D.content disk.now).honest → IfOk result (λ header. shape_found (size (D.content disk.now)) (header_of (D.content disk.now).shown) ≡ Ok header.geometry) }
    ensures version { IsTrue (D.content disk.now).honest → IfOk result (λ header. header.version ≡ version_of (header_of (D.content disk.now).shown)) }
    ensures size { IfOk result (λ header. size (D.content disk.now) ≡ device_size header.geometry) }
    ensures cause { IfErr result (IsRefusedLook
        (λ finding. IsTrue (D.content disk.now).honest → shape_found (size (D.content disk.now)) (header_of (D.content disk.now).shown) ≡ Err finding)
        (GaveAny D.gave disk.now)) }
    ensures memory { IfErr result (λ error. error ≡ NoMemory → ⊥) }
{
    if disk.len() < HEADER_LEN as u64 {
        return Err(OpenError::NotFormatted);
    }
    let header = match read_bytes(disk) {
        Ok(header) => header,
        Err(fault) => return Err(OpenError::Device(fault)),
    };
    match read_header(disk.len(), &header) {
        Ok(geometry) => Ok(Header {
            geometry,
            version: version_of(&header),
        }),
        Err(finding) => Err(OpenError::from(finding)),
    }
}

/// Writes the header behind its closed commit byte, and then opens that byte, each with a sync.
///
/// # Errors
///
/// The fault of a write or of a sync.
pub fn write_header<D: Disk>(disk: &mut D, geometry: &Geometry) -> Result<(), D::Fault>
    requires size { 12288 ≤ size (D.content disk.old) }
    requires closed { LeavesOnly (D.content disk.old) IsCommitClosed }
    ensures wrote { Wrote D.Disk 0 37 2 2 disk.old disk.new result }
    ensures header { IsTrue (D.content disk.new).honest → OnOk result (header_of (D.content disk.new).shown ≡ commit_open ∷ header_bytes geometry.now) }
    ensures stopped { LeavesOnly (D.content disk.new) (HasHeaderOrNone geometry.now) }
    ensures rests { OnOk result (Rests (D.content disk.new)) }
{
    let header = header_bytes(geometry);
    write_synced(disk, 1, &header)?;
    write_synced(disk, 0, &[COMMIT_OPEN])?;
    Ok(())
}
