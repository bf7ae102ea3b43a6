// What a planned store costs in merging, and in memory at rest.
ghost use Rattle.std.specs.Prelude.{◌≡◌, ◌≤◌};
ghost use Rattle.silt_jobs.specs.PlanCosts.{at_rest, cost_of, more_memory, remedy_for, remedy_of, tenths_written};

use crate::plans::{fewest_buckets, memory_planned, rows_between_merges, writes_more};
use silt_words::PlanRequest;
use std::fmt;

/// The most buckets of a geometry.
const MOST_BUCKETS: u32 = 32_768;

// The most keys with which some plan writes at most twenty entries for each row.
const MOST_KEYS_OF_ONE: u32 = 9_175_040;

/// What a planned store costs in merging, and in memory at rest.
#[derive(Clone, Copy, Debug, PartialEq, Eq)]
pub struct PlanCost {
    /// How many entries a merge writes at most.
    pub keys: u32,
    /// How many rows come between two merges.
    pub rows: u32,
    /// The bytes of memory when all is merged and one log is in use.
    pub at_rest: u64,
    /// What helps, if merging is dear.
    pub remedy: Option<Remedy>,
}

/// What helps if merging writes many entries for each row.
#[derive(Clone, Copy, Debug, PartialEq, Eq)]
pub enum Remedy {
    /// To split the keys over several stores. No plan for all of them writes much less.
    SeveralStores,
    /// To allow this many bytes of memory. Then merging writes at most so many entries for each row.
    Memory { bytes: u64, most: u32 },
}

impl PlanCost {
    // The entries that merging writes for each row, in tenths.
    fn tenths(&self) -> u64
        ensures { result ≡ tenths_written self.now.keys self.now.rows }
    {
        (20 * u64::from(self.keys) / u64::from(self.rows.max(1)) + 1) / 2
    }
}

impl fmt::Display for PlanCost {
    fn fmt<W: fmt::Write>(&self, f: &mut fmt::Formatter<W>) -> fmt::Result {
        let written = Tenths(self.tenths());
        let at_rest = Bytes(self.at_rest);
        write!(f, "merging writes {written} entries for each row; ")?;
        write!(f, "at rest the store takes about {at_rest} of memory")
    }
}

impl fmt::Display for Remedy {
    fn fmt<W: fmt::Write>(&self, f: &mut fmt::Formatter<W>) -> fmt::Result {
        f.write_str("that makes writing slow; ")?;
        match *self {
            Remedy::Memory { bytes, most } => {
                write!(f, "with --memory {bytes} it is {most} or less")
            }
            Remedy::SeveralStores => write!(
                f,
                "it is above 20 with more than {MOST_KEYS_OF_ONE} keys, so split them over several stores"
            ),
        }
    }
}

// A number of tenths, as a decimal number.
#[derive(Clone, Copy)]
struct Tenths(u64);

impl fmt::Display for Tenths {
    fn fmt<W: fmt::Write>(&self, f: &mut fmt::Formatter<W>) -> fmt::Result {
        let (whole, tenth) = (self.0 / 10, self.0 % 10);
        write!(f, "{whole}.{tenth}")
    }
}

// A number of bytes, to the nearest tenth of a kilobyte or a megabyte. Half a tenth counts as one.
#[derive(Clone, Copy)]
struct Bytes(u64);

impl fmt::Display for Bytes {
    fn fmt<W: fmt::Write>(&self, f: &mut fmt::Formatter<W>) -> fmt::Result {
        let kilobytes = Tenths((self.0 / 50 + 1) / 2);
        let megabytes = Tenths((self.0 / 50_000 + 1) / 2);
        if kilobytes.0 < 10_000 {
            write!(f, "{kilobytes} kB")
        } else {
            write!(f, "{megabytes} MB")
        }
    }
}

/// What a store of this many buckets that is planned for this request costs.
pub fn cost_of(request: &PlanRequest, buckets: u32) -> PlanCost
    requires { buckets ≤ 32768 }
    ensures { result ≡ cost_of request.now buckets }
{
    PlanCost {
        keys: request.keys,
        rows: rows_between_merges(buckets),
        at_rest: at_rest(request.keys, buckets),
        remedy: remedy_for(request, buckets),
    }
}

// The bytes of memory when all is merged and one log is in use: the index of the sorted store, and the log with its
// table.
fn at_rest(keys: u32, buckets: u32) -> u64
    requires { buckets ≤ 32768 }
    ensures { result ≡ at_rest keys buckets }
{
    let index = ((4 * u64::from(keys) + 4) / 5).max(18_504);
    index + 24 * u64::from(buckets) + 7 * u64::from(buckets / 2)
}

// What helps, if merging writes more than twenty entries for each row and the request does not limit that.
fn remedy_for(request: &PlanRequest, buckets: u32) -> Option<Remedy>
    requires { buckets ≤ 32768 }
    ensures { result ≡ remedy_for request.now buckets }
{
    if request.merge_writes.is_some() {
        return None;
    }
    remedy_of(request.keys, buckets)
}

// What helps, if merging writes more than twenty entries for each row.
fn remedy_of(keys: u32, buckets: u32) -> Option<Remedy>
    requires { buckets ≤ 32768 }
    ensures { result ≡ remedy_of keys buckets }
{
    if !writes_more(20, keys, buckets) {
        return None;
    }
    if writes_more(20, keys, MOST_BUCKETS) {
        return Some(Remedy::SeveralStores);
    }
    Some(more_memory(keys))
}

// The memory with which merging writes at most ten entries for each row, or twenty if no memory makes it ten.
fn more_memory(keys: u32) -> Remedy
    ensures { result ≡ more_memory keys }
{
    let most = if writes_more(10, keys, MOST_BUCKETS) {
        20
    } else {
        10
    };
    let bytes = memory_planned(keys, fewest_buckets(most, keys));
    Remedy::Memory { bytes, most }
}
