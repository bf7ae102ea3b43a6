// The number of hash stores of which a merge is to begin.
ghost use Rattle.std.specs.Prelude.{◌≡◌, ◌<◌, ◌≤◌, IfSome, false, true};
ghost use Rattle.silt_jobs.specs.Common.{IsSomeAnd, Shape, LeavesBegun, FewRegions};
ghost use Rattle.silt_jobs.specs.Ended.{Refuses};

use crate::people::{Ended, Why};
use silt_disk::Disk;
use silt_store_set::Core;
use std::alloc::Global;
use std::io::Write;

/// Whether a store has fewer hash regions than the hash stores of which a merge is to begin.
pub fn has_few_regions<D: Disk>(core: &Core<D>, merge_at: Option<u32>) -> bool
    ensures few { result ≡ true → IsSomeAnd merge_at (λ least. core.now.shape.hashes < least) }
    ensures enough { result ≡ false → IfSome merge_at (λ least. least ≤ core.now.shape.hashes) }
{
    match merge_at {
        Some(least) => core.geometry().hashes() < least,
        None => false,
    }
}

/// Refuses a job on a store that has fewer hash regions than the hash stores of which a merge is to begin. Returns its disk.
pub fn refuse_few_regions<E: Drop, D: Disk, W: Write>(
    alloc: Global,
    core: Core<D>,
    writer: &mut W,
) -> (D, Ended<E, D::Fault>)
    ensures disk { result.0 ≡ core.disk }
    ensures left { (shape : Shape) × LeavesBegun (D.content result.0) shape }
    ensures printed { Refuses (FewRegions core.shape.hashes) result.1 (W.contents writer.old) (W.contents writer.new) }
{
    let why = Why::FewRegions(core.geometry().hashes());
    let ended = Ended::refuse(alloc, why, writer);
    (core.close(), ended)
}
