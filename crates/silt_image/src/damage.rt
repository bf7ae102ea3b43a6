// The finding of a damaged manifest.
ghost use Rattle.std.specs.Prelude.{◌≡◌};
ghost use Rattle.silt_image.specs.Stores.{damage_finding};

use silt_event::{Finding, Place};
use silt_manifest::Damage;

/// The finding of a damaged manifest.
pub fn finding_of(damage: Damage) -> Finding
    ensures { result ≡ damage_finding damage }
{
    match damage {
        Damage::Slot(slot) => Finding::Damaged(Place::Slot(slot)),
        Damage::NoSlot => Finding::Damaged(Place::NoSlot),
    }
}
