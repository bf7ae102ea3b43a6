// The findings in the header of a device.
ghost use Rattle.std.specs.Prelude.{◌≡◌, Ok, Err, IfOk, IfErr};
ghost use Rattle.silt_disk.specs.Layout.{device_size};
ghost use Rattle.silt_image.specs.Stores.{shape_found};

use silt_disk::{Geometry, HEADER_LEN, geometry_of, is_formatted};
use silt_event::{Finding, Place};

/// The geometry of a device of this many bytes with this header. Otherwise the finding: no header, a number out of its limits, or
/// a length that is not the one of these numbers.
#[tactic(auto, using(crate::proofs::HeaderExits::too_short, crate::proofs::HeaderExits::not_formatted, crate::proofs::HeaderExits::out_of_limits, crate::proofs::HeaderExits::has_shape))]
pub fn read_header(len: u64, header: &[u8; HEADER_LEN]) -> Result<Geometry, Finding>
    ensures geometry { IfOk result (λ geometry. shape_found len header.now ≡ Ok geometry) }
    ensures size { IfOk result (λ geometry. len ≡ device_size geometry) }
    ensures finding { IfErr result (λ finding. shape_found len header.now ≡ Err finding) }
{
    if len < HEADER_LEN as u64 {
        return Err(Finding::NotFormatted);
    }
    if !is_formatted(header) {
        return Err(Finding::NotFormatted);
    }
    let Ok(geometry) = geometry_of(header) else {
        return Err(Finding::Damaged(Place::Header));
    };
    if len != geometry.size() {
        return Err(Finding::Damaged(Place::Length));
    }
    Ok(geometry)
}
