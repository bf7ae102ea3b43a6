// The opening of a device after a crash.
ghost use Rattle.std.specs.Prelude.{◌≡◌, ◌≤◌, vec_capacity, IsTrue, IfOk, IfErr, MatchResult};
ghost use Rattle.silt_disk.specs.Disk.{GaveAny};
ghost use Rattle.silt_disk.specs.Layout.{most_frozen, most_hashes};
ghost use Rattle.silt_recovery.specs.Opening.{CostsOpening, CostsRefusal, IsUnwrittenUnlessFailed, LeavesNoOther, TakesUp, held_stores};
ghost use Rattle.silt_recovery.specs.Refusals.{IsFound, IsRefusedLook};
ghost use Rattle.silt_standing.specs.Standing.{SameDisk};

use crate::examination::{Holding, examine};
use crate::fault::{OpenError, OpenFault};
use silt_disk::Disk;
use std::alloc::Global;

/// A device that was opened, and what is held of it in memory.
#[derive(Drop)]
pub struct Opened<D: Disk> {
    pub disk: D,
    pub held: Holding,
}

/// Opens a device: settles what it shows, examines it, and, if a commit byte of the active log past its first closed one is
/// open, closes these commit bytes. The stores represent the map of what was shown, and no row waits. It costs one sync, and one
/// write and one more sync if it closes commit bytes.
///
/// # Errors
///
/// `NotFormatted`, `Damaged` or `Crowded` if that is the first finding in what is shown; then, and with `NoMemory`,
/// nothing was written. `Device` with the fault of a read, a write or a sync: each crash image that is then possible
/// was possible before, or represents the same map.
pub fn open<D: Disk>(alloc: Global, mut disk: D) -> Result<Opened<D>, OpenFault<D>>
    ensures ok { IfOk result (λ opened. TakesUp (D.content disk) (D.content opened.disk) (held_stores opened.held)) }
    ensures room { IfOk result (λ opened. (most_frozen ≤ vec_capacity opened.held.frozen) × (most_hashes ≤ vec_capacity opened.held.hashes)) }
    ensures same { MatchResult result (λ opened. SameDisk (D.content disk) (D.content opened.disk)) (λ fault. SameDisk (D.content disk) (D.content fault.disk)) }
    ensures made { MatchResult result (λ opened. CostsOpening D.content D.writes D.syncs disk opened.disk) (λ fault. CostsRefusal D.writes D.syncs disk fault.disk fault.error) }
    ensures cause { IfErr result (λ fault. IsRefusedLook
        (λ finding. IsTrue (D.content disk).honest → IsFound (D.content disk).shown finding)
        (GaveAny D.gave fault.disk) fault.error) }
    ensures unwritten { IfErr result (λ fault. IsUnwrittenUnlessFailed (D.content disk) (D.content fault.disk) fault.error) }
    ensures images { MatchResult result (λ opened. LeavesNoOther (D.content disk) (D.content opened.disk)) (λ fault. LeavesNoOther (D.content disk) (D.content fault.disk)) }
{
    match take_up(alloc, &mut disk) {
        Ok(held) => Ok(Opened { disk, held }),
        Err(error) => Err(OpenFault { disk, error }),
    }
}

// Settles what the device shows, reads what it holds, and seals its active log.
fn take_up<D: Disk>(alloc: Global, disk: &mut D) -> Result<Holding, OpenError<D::Fault>>
    ensures ok { IfOk result (λ held. TakesUp (D.content disk.old) (D.content disk.new) (held_stores held)) }
    ensures room { IfOk result (λ held. (most_frozen ≤ vec_capacity held.frozen) × (most_hashes ≤ vec_capacity held.hashes)) }
    ensures same { SameDisk (D.content disk.old) (D.content disk.new) }
    ensures made { MatchResult result (λ _. CostsOpening D.content D.writes D.syncs disk.old disk.new) (CostsRefusal D.writes D.syncs disk.old disk.new) }
    ensures cause { IfErr result (IsRefusedLook
        (λ finding. IsTrue (D.content disk.old).honest → IsFound (D.content disk.old).shown finding)
        (GaveAny D.gave disk.new)) }
    ensures unwritten { IfErr result (IsUnwrittenUnlessFailed (D.content disk.old) (D.content disk.new)) }
    ensures images { LeavesNoOther (D.content disk.old) (D.content disk.new) }
{
    if let Err(fault) = disk.sync() {
        return Err(OpenError::Device(fault));
    }
    let mut held = match examine(alloc, disk) {
        Ok(held) => held,
        Err(error) => return Err(error),
    };
    match held.active.seal(disk) {
        Ok(()) => Ok(held),
        Err(fault) => Err(OpenError::Device(fault)),
    }
}
