// The six numbers of a planned store for a number of keys.
ghost use Rattle.std.specs.Prelude.{◌≡◌, ◌≤◌, ◌+◌, ◌*◌, if◌then◌else◌, Some, None, IfOk, string_bytes};
ghost use Rattle.silt_jobs.specs.Common.{Appends};
ghost use Rattle.silt_jobs.specs.PlanCosts.{EndsPlan, Plans};
ghost use Rattle.silt_jobs.specs.Plans.{first_planned, fits_memory, geometry_planned, is_needed, is_planned, memory_of, number_after, plan_text, shape_planned};

use crate::people::{Ended, Found, Why, write_out};
use crate::plans::{PlanCost, cost_of, fits_writes, needs_buckets};
use silt_disk::Geometry;
use silt_words::PlanRequest;
use std::alloc::{AllocError, Global};
use std::io::{self, Write};

/// The bucket counts of a geometry, the greatest first.
pub const BUCKET_COUNTS: [u32; 15] = [
    32_768, 16_384, 8192, 4096, 2048, 1024, 512, 256, 128, 64, 32, 16, 8, 4, 2,
];

/// How many entries merging is to write for each row at most, if a request does not say.
const USUAL_WRITES: u32 = 9;

/// The most keys of a plan: with two buckets and eleven regions of seven rows, the sum is the greatest S.
pub const MOST_KEYS: u32 = 16_777_216 - 77;

/// Writes the six numbers of a store for this many keys, and what it costs on disk and in memory. It has as many
/// buckets as four logs need for a ninth of the keys, or fewer if the numbers or the memory are limited. If the request limits
/// what merging writes, it has the fewest buckets that keep to that. The status is 1 if there is no such store.
pub fn write_plan<E: Drop, F: Drop, W: Write>(
    alloc: Global,
    request: &PlanRequest,
    writer: &mut W,
) -> Ended<E, F>
    ensures { Plans request.now (first_planned request.now) result (W.contents writer.old) (W.contents writer.new) }
{
    match geometry_planned(request) {
        Some(geometry) => {
            let cost = cost_of(request, geometry.buckets());
            let memory = memory_planned(request.keys, geometry.buckets());
            end_plan(alloc, &geometry, geometry.size(), memory, cost, writer)
        }
        None => Ended::refuse(alloc, Why::NoPlan(None, *request), writer),
    }
}

/// The end of a plan of this cost. Writes the six numbers of a geometry, and so many bytes on disk and in memory.
pub fn end_plan<E: Drop, F: Drop, W: Write>(
    alloc: Global,
    geometry: &Geometry,
    disk: u64,
    memory: u64,
    cost: PlanCost,
    writer: &mut W,
) -> Ended<E, F>
    ensures { EndsPlan geometry.now disk memory cost result (W.contents writer.old) (W.contents writer.new) }
{
    Ended {
        found: Some(Found::Cost(cost)),
        ..Ended::plain(write_numbers(alloc, geometry, disk, memory, writer))
    }
}

// Writes the six numbers of a geometry, and so many bytes on disk and in memory. Returns the status.
fn write_numbers<W: Write>(
    alloc: Global,
    geometry: &Geometry,
    disk: u64,
    memory: u64,
    writer: &mut W,
) -> io::Result<u8>
    ensures { IfOk result (λ status. (status ≡ 0) × Appends (W.contents writer.old) (W.contents writer.new) (plan_text geometry.now disk memory)) }
{
    let text = print_plan(alloc, geometry, disk, memory)?;
    write_out(text.as_bytes(), writer)?;
    Ok(0)
}

/// The geometry of the most buckets that can be planned.
pub fn geometry_planned(request: &PlanRequest) -> Option<Geometry>
    ensures { result ≡ geometry_planned request.now }
{
    for buckets in BUCKET_COUNTS {
        match planned(request, buckets) {
            Some(geometry) => return Some(geometry),
            None => {}
        }
    }
    None
}

// Whether half as many buckets would be too few.
fn is_needed(request: &PlanRequest, buckets: u32) -> bool
    requires { buckets ≤ 32768 }
    ensures { result ≡ is_needed request.now buckets }
{
    let most = request.merge_writes.unwrap_or(USUAL_WRITES);
    needs_buckets(most, request.keys, buckets)
}

// The geometry of this many buckets, if they are needed, its numbers are in their limits, it fits the memory, and merging
// writes no more than the request allows.
fn planned(request: &PlanRequest, buckets: u32) -> Option<Geometry>
    requires { buckets ≤ 32768 }
    ensures { result ≡ (if is_planned request.now buckets then Some (shape_planned request.now buckets) else None) }
{
    if !is_needed(request, buckets) {
        return None;
    }
    if !fits_memory(request.memory, memory_planned(request.keys, buckets)) {
        return None;
    }
    if !fits_writes(request.merge_writes, request.keys, buckets) {
        return None;
    }
    let rows = 7 * (buckets / 2);
    let most = request.keys.checked_add(11 * rows)?;
    Geometry::new(request.value_len, buckets, rows, 3, 8, most).ok()
}

/// The bytes of memory that a store of this many buckets takes at most.
pub fn memory_planned(keys: u32, buckets: u32) -> u64
    ensures { result ≡ memory_of keys buckets }
{
    1043 * u64::from(buckets) + 3 * u64::from(keys) + 55_512
}

// Whether this many bytes fit under the limit, if there is one.
fn fits_memory(memory: Option<u32>, bytes: u64) -> bool
    ensures { result ≡ fits_memory memory bytes }
{
    match memory {
        Some(most) => bytes <= u64::from(most),
        None => true,
    }
}

// A word and a number.
#[tactic(auto, unfolding(crate::specs::Plans::number_after))]
fn number_after(alloc: Global, word: &str, number: u64) -> Result<String, AllocError>
    ensures { IfOk result (λ text. string_bytes text ≡ number_after word.now number) }
{
    format!(in alloc; "{word}{number}")
}

// The six numbers of a geometry, and so many bytes on disk and in memory.
fn print_plan(
    alloc: Global,
    geometry: &Geometry,
    disk: u64,
    memory: u64,
) -> Result<String, AllocError>
    ensures { IfOk result (λ text. string_bytes text ≡ plan_text geometry.now disk memory) }
{
    let value_len = number_after(alloc, "", u64::from(geometry.value_len()))?;
    let buckets = number_after(alloc, " ", u64::from(geometry.buckets()))?;
    let rows = number_after(alloc, " ", u64::from(geometry.log_capacity()))?;
    let logs = number_after(alloc, " ", u64::from(geometry.logs()))?;
    let hashes = number_after(alloc, " ", u64::from(geometry.hashes()))?;
    let most = number_after(alloc, " ", u64::from(geometry.sorted_capacity()))?;
    let disk = number_after(alloc, "\ndisk ", disk)?;
    let memory = number_after(alloc, "\nmemory ", memory)?;
    format!(in alloc; "{value_len}{buckets}{rows}{logs}{hashes}{most}{disk}{memory}\n")
}
