// A log store rebuilt from the device.
ghost use Rattle.std.specs.Prelude.{◌≡◌, ◌+◌, ◌<◌, ◌≤◌, ◌^◌, ℕ, IsTrue, IfOk, IfErr, OnOk};
ghost use Rattle.silt_cuckoo.specs.Slots.{bucket_count};
ghost use Rattle.silt_disk.specs.Disk.{GaveAny, size};
ghost use Rattle.silt_disk.specs.Layout.{device_size};
ghost use Rattle.silt_log.specs.Rows.{first_rows};
ghost use Rattle.silt_log.specs.State.{InBounds};
ghost use Rattle.silt_log_store.specs.Growth.{IsKeyIndexOf, IsKeyIndex, IsOfRows};
ghost use Rattle.silt_log_store.specs.State.{IsHeldStore};
ghost use Rattle.silt_log_store.specs.Rebuild.{IsFirstCrowded, IsFirstDamaged, IsRefusedRebuild};

use crate::index::KeyIndex;
use silt_disk::Disk;
use silt_log::Log;
use std::alloc::Global;

/// Why a log store could not be rebuilt. The first bad row decides.
#[derive(Debug, Drop)]
pub enum RebuildError<F> {
    /// The row of this number has a kind byte other than 1 and 2.
    Damaged(u32),
    /// The placing rule found no place for the key of a row.
    Crowded,
    /// A read failed with this fault.
    Device(F),
    /// Out of memory: the table, the commit bytes or the list of the keys could not be allocated.
    NoMemory,
}

// Reads the head of the row of this number, which follows the rows so far, and adds its key.
fn add_row<D: Disk>(
    disk: &D,
    log: &Log,
    index: &mut KeyIndex,
    place: u32,
) -> Result<(), RebuildError<D::Fault>>
    requires size { device_size log.now.shape ≤ size (D.content disk.now) }
    requires bounds { InBounds log.now }
    requires place { place < log.now.used }
    requires small { log.now.used < 2 ^ 32 }
    requires index { IsKeyIndexOf log.now.shape place index.old }
    ensures index { OnOk result (IsKeyIndexOf log.now.shape (place + 1) index.new) }
    ensures rows { IsTrue (D.content disk.now).honest → IsOfRows (first_rows log.now.shape log.now.region (D.content disk.now).shown place) index.old
        → OnOk result (IsOfRows (first_rows log.now.shape log.now.region (D.content disk.now).shown (place + 1)) index.new) }
    ensures err { IfErr result (IsRefusedRebuild
        (λ row. IsTrue (D.content disk.now).honest → IsOfRows (first_rows log.now.shape log.now.region (D.content disk.now).shown place) index.old
        → IsFirstDamaged log.now.shape.buckets (first_rows log.now.shape log.now.region (D.content disk.now).shown log.now.used) row)
        (IsTrue (D.content disk.now).honest → IsOfRows (first_rows log.now.shape log.now.region (D.content disk.now).shown place) index.old
        → (row : ℕ) × IsFirstCrowded log.now.shape.buckets (first_rows log.now.shape log.now.region (D.content disk.now).shown log.now.used) row)
        (GaveAny D.gave disk.now)) }
{
    let head = match log.read_head(disk, place) {
        Ok(head) => head,
        Err(fault) => return Err(RebuildError::Device(fault)),
    };
    let Some((kind, key)) = head else {
        return Err(RebuildError::Damaged(place));
    };
    match index.add(kind, &key) {
        Ok(true) => Ok(()),
        Ok(false) => Err(RebuildError::Crowded),
        Err(_) => Err(RebuildError::NoMemory),
    }
}

// The table of the keys of a log's rows.
pub fn index_rows<D: Disk>(
    alloc: Global,
    disk: &D,
    log: &Log,
) -> Result<KeyIndex, RebuildError<D::Fault>>
    requires size { device_size log.now.shape ≤ size (D.content disk.now) }
    ensures index { IfOk result IsKeyIndex }
    ensures buckets { IfOk result (λ index. bucket_count index.table ≡ log.now.shape.buckets) }
    ensures held { IfOk result (λ index. IsHeldStore (record { log = log.now; table = index.table; puts = index.puts })) }
    ensures rows { IsTrue (D.content disk.now).honest → IfOk result (IsOfRows (first_rows log.now.shape log.now.region (D.content disk.now).shown log.now.used)) }
    ensures err { IfErr result (IsRefusedRebuild
        (λ row. IsTrue (D.content disk.now).honest → IsFirstDamaged log.now.shape.buckets (first_rows log.now.shape log.now.region (D.content disk.now).shown log.now.used) row)
        (IsTrue (D.content disk.now).honest → (row : ℕ) × IsFirstCrowded log.now.shape.buckets (first_rows log.now.shape log.now.region (D.content disk.now).shown log.now.used) row)
        (GaveAny D.gave disk.now)) }
{
    let count = log.len();
    let buckets = log.geometry().buckets();
    let mut index = match KeyIndex::new(alloc, buckets, count) {
        Ok(index) => index,
        Err(_) => return Err(RebuildError::NoMemory),
    };
    for place in 0..count {
        add_row(disk, log, &mut index, place)?;
    }
    Ok(index)
}
