// The entries of a store, read from its device without opening it.
ghost use Rattle.std.specs.Prelude.{IsTrue, IfOk, IfErr, OnOk};
ghost use Rattle.silt_disk.specs.Disk.{GaveAny};
ghost use Rattle.silt_image.specs.Meaning.{IsGood, image_map};
ghost use Rattle.silt_recovery.specs.Refusals.{IsFound, IsRefusedLook};
ghost use Rattle.silt_engine.specs.Lookup.{AreEntriesOf};

use silt_disk::Disk;
use silt_engine::{Engine, EntriesError};
use silt_frame::{Key, Value};
use silt_recovery::{OpenError, examine};
use std::alloc::Global;
use std::collections::BTreeMap;

/// Returns all keys with their values, of the store on a device. It looks at the device as `check` does, and then reads
/// each row and each entry once. It makes no write and no sync.
///
/// # Errors
///
/// Those of `check`.
pub fn read_entries<D: Disk>(
    alloc: Global,
    disk: &D,
) -> Result<BTreeMap<Key, Value>, OpenError<D::Fault>>
    ensures entries { IsTrue (D.content disk.now).honest → IfOk result (AreEntriesOf (image_map (D.content disk.now).shown)) }
    ensures good { IsTrue (D.content disk.now).honest → OnOk result (IsGood (D.content disk.now).shown) }
    ensures cause { IfErr result (IsRefusedLook
        (λ finding. IsTrue (D.content disk.now).honest → IsFound (D.content disk.now).shown finding)
        (GaveAny D.gave disk.now)) }
{
    let held = examine(alloc, disk)?;
    let engine = Engine::new(
        held.manifest,
        held.active,
        held.frozen,
        held.hashes,
        held.sorted,
        held.charge,
    );
    match engine.entries(alloc, disk) {
        Ok(entries) => Ok(entries),
        Err(EntriesError::Device(fault)) => Err(OpenError::Device(fault)),
        Err(EntriesError::NoMemory) => Err(OpenError::NoMemory),
    }
}
