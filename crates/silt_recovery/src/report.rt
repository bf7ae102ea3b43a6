// What a store consists of, in numbers.
ghost use Rattle.std.specs.Prelude.{◌≡◌, ◌≤◌, All, IsTrue, IfOk, IfErr, length, sum_by};
ghost use Rattle.silt_disk.specs.Disk.{GaveAny};
ghost use Rattle.silt_disk.specs.Layout.{most_frozen};
ghost use Rattle.silt_image.specs.Meaning.{report_of};
ghost use Rattle.silt_recovery.specs.Opening.{CountsHashRows, Holds, IsReported, held_stores};
ghost use Rattle.silt_recovery.specs.Refusals.{IsFound, IsRefusedLook};
ghost use Rattle.silt_standing.specs.Standing.{shown_stores};

use crate::digests::layout_of;
use crate::examination::{Holding, examine};
use crate::fault::OpenError;
use silt_disk::Disk;
use silt_event::Report;
use silt_log_store::LogStore;
use std::alloc::Global;

/// Examines a device as `open` does, and reports what it consists of. It makes no write and no sync.
///
/// # Errors
///
/// As of `open`, of what is shown.
pub fn check<D: Disk>(alloc: Global, disk: &D) -> Result<Report, OpenError<D::Fault>>
    ensures report { IsTrue (D.content disk.now).honest → IfOk result (IsReported (D.content disk.now).shown) }
    ensures cause { IfErr result (IsRefusedLook
        (λ finding. IsTrue (D.content disk.now).honest → IsFound (D.content disk.now).shown finding)
        (GaveAny D.gave disk.now)) }
{
    let held = examine(alloc, disk)?;
    Ok(report_of(disk, &held))
}

// The numbers of what is held of a device.
fn report_of<D: Disk>(disk: &D, held: &Holding) -> Report
    requires holds { Holds (D.content disk.now) (held_stores held.now) }
    requires hash_rows { CountsHashRows (D.content disk.now) (held_stores held.now) held.now.hash_rows }
    ensures { IsTrue (D.content disk.now).honest → IsReported (D.content disk.now).shown result }
{
    let body = held.manifest.current();
    let said = held.manifest.digests();
    Report {
        generation: body.generation,
        active: body.active,
        active_rows: held.active.len(),
        frozen: body.frozen.len() as u32,
        frozen_rows: row_count(&held.frozen),
        hashes: body.hashed.len() as u32,
        hash_rows: held.hash_rows,
        entries: body.sorted_count,
        charge: held.charge,
        layout: layout_of(&said),
    }
}

// How many rows some logs have together.
fn row_count(stores: &[LogStore]) -> u32
    requires few { length stores.now ≤ most_frozen }
    requires most { All (λ store. store.log.used ≤ 131072) stores.now }
    ensures { result ≡ sum_by (λ store. store.log.used) stores.now }
{
    let mut count = 0;
    for store in stores {
        count += store.len();
    }
    count
}
