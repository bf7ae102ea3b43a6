// The plan of a set of shards.
ghost use Rattle.std.specs.Prelude.{◌≡◌, ◌<◌, ◌≤◌, ℕ, IfNone, IfSome};
ghost use Rattle.silt_jobs.specs.Common.{least_shards, most_shards};
ghost use Rattle.silt_jobs.specs.PlanCosts.{cost_of};
ghost use Rattle.silt_jobs.specs.SetPlans.{IsEnoughFor, PlansSet, set_cost, set_remedy, share_of, shard_request, times};

use crate::jobs::is_set;
use crate::people::{Ended, Why};
use crate::plans::{
    PlanCost, Remedy, cost_of, end_plan, geometry_planned, is_plannable, memory_planned,
};
use silt_shards::{LEAST_SHARDS, MOST_SHARDS};
use silt_words::PlanRequest;
use std::alloc::Global;
use std::io::Write;

/// Writes the six numbers of one shard of a set for this many keys, and what all shards cost on disk and in memory. Each shard is
/// planned as one store is, for its even share of the keys and a sixteenth more. The status is 1 if there is no such store.
pub fn write_set_plan<E: Drop, F: Drop, W: Write>(
    alloc: Global,
    shards: u32,
    request: &PlanRequest,
    writer: &mut W,
) -> Ended<E, F>
    ensures { PlansSet shards request.now result (W.contents writer.old) (W.contents writer.new) }
{
    if !is_set(shards) {
        return Ended::refuse(alloc, Why::NoJob, writer);
    }
    let one = shard_request(shards, request);
    match geometry_planned(&one) {
        Some(geometry) => {
            let cost = set_cost(shards, &one, geometry.buckets());
            let disk = times(shards, geometry.size());
            let memory = times(shards, memory_planned(one.keys, geometry.buckets()));
            end_plan(alloc, &geometry, disk, memory, cost, writer)
        }
        None => Ended::refuse(alloc, Why::NoPlan(Some(shards), *request), writer),
    }
}

// So many times a number, but no more than 64 bits hold.
fn times(shards: u32, number: u64) -> u64
    ensures { result ≡ times shards number }
{
    u64::from(shards).saturating_mul(number)
}

/// The keys that a shard is planned for.
pub fn share_of(shards: u32, keys: u32) -> u32
    requires { 2 ≤ shards }
    ensures { result ≡ share_of shards keys }
{
    let even = keys.div_ceil(shards);
    even + even / 16 + 64
}

// What one of so many shards is planned for.
fn shard_request(shards: u32, request: &PlanRequest) -> PlanRequest
    requires { 2 ≤ shards }
    ensures { result ≡ shard_request shards request.now }
{
    PlanRequest {
        keys: share_of(shards, request.keys),
        memory: match request.memory {
            Some(bytes) => Some(bytes / shards),
            None => None,
        },
        ..*request
    }
}

// What a set of shards of this many buckets costs, of which each is planned for this request.
fn set_cost(shards: u32, one: &PlanRequest, buckets: u32) -> PlanCost
    requires { buckets ≤ 32768 }
    ensures { result ≡ set_cost shards (cost_of one.now buckets) }
{
    let cost = cost_of(one, buckets);
    PlanCost {
        at_rest: times(shards, cost.at_rest),
        remedy: match cost.remedy {
            Some(remedy) => Some(set_remedy(shards, remedy)),
            None => None,
        },
        ..cost
    }
}

// What helps a set, if this helps each shard.
fn set_remedy(shards: u32, remedy: Remedy) -> Remedy
    ensures { result ≡ set_remedy shards remedy }
{
    match remedy {
        Remedy::SeveralStores => Remedy::SeveralStores,
        Remedy::Memory { bytes, most } => Remedy::Memory {
            bytes: times(shards, bytes),
            most,
        },
    }
}

/// The least number of shards of a set that has room for this many keys and keeps what merging writes within its limit, if
/// one has and does.
pub fn least_shards(merge_writes: Option<u32>, keys: u32) -> Option<u32>
    ensures room { IfSome result (IsEnoughFor merge_writes keys) }
    ensures least { IfSome result (λ shards. (fewer : ℕ) → 2 ≤ fewer → fewer < shards → ¬ IsEnoughFor merge_writes keys fewer) }
    ensures none { IfNone result ((shards : ℕ) → least_shards ≤ shards → shards ≤ most_shards → ¬ IsEnoughFor merge_writes keys shards) }
{
    for shards in LEAST_SHARDS..MOST_SHARDS + 1 {
        if is_plannable(merge_writes, share_of(shards, keys)) {
            return Some(shards);
        }
    }
    None
}
