// How many entries merging writes for each row of a planned store.
ghost use Rattle.std.specs.Prelude.{◌≡◌, ◌≤◌};
ghost use Rattle.silt_jobs.specs.MergeWrites.{can_write, first_needed, has_room, is_plannable, least_writes, most_rows};
ghost use Rattle.silt_jobs.specs.Plans.{fits_writes, needs_buckets, rows_between_merges, writes_more};

use crate::plans::{BUCKET_COUNTS, MOST_KEYS};

/// How many rows come between two merges of four hash stores.
pub fn rows_between_merges(buckets: u32) -> u32
    requires { buckets ≤ 32768 }
    ensures { result ≡ rows_between_merges buckets }
{
    28 * (buckets / 2)
}

/// Whether merging writes more than this many entries for each row.
pub fn writes_more(most: u32, keys: u32, buckets: u32) -> bool
    requires { buckets ≤ 32768 }
    ensures { result ≡ writes_more most keys buckets }
{
    u64::from(most) * u64::from(rows_between_merges(buckets)) < u64::from(keys)
}

/// Whether merging writes no more entries for each row than the limit, if there is one.
pub fn fits_writes(merge_writes: Option<u32>, keys: u32, buckets: u32) -> bool
    requires { buckets ≤ 32768 }
    ensures { result ≡ fits_writes merge_writes keys buckets }
{
    match merge_writes {
        Some(most) => !writes_more(most, keys, buckets),
        None => true,
    }
}

/// Whether half as many buckets would be too few for merging to write at most this many entries for each row.
pub fn needs_buckets(most: u32, keys: u32, buckets: u32) -> bool
    requires { buckets ≤ 32768 }
    ensures { result ≡ needs_buckets most keys buckets }
{
    buckets == 2 || 7 * u64::from(most) * u64::from(buckets) < u64::from(keys)
}

/// The fewest buckets with which merging writes at most this many entries for each row.
pub fn fewest_buckets(most: u32, keys: u32) -> u32
    ensures { result ≡ first_needed most keys }
{
    for buckets in BUCKET_COUNTS {
        if needs_buckets(most, keys, buckets) {
            return buckets;
        }
    }
    2
}

// Whether a plan of this many buckets has room for all keys, and for all rows of its logs and hash regions.
fn has_room(keys: u32, buckets: u32) -> bool
    requires { buckets ≤ 32768 }
    ensures { result ≡ has_room keys buckets }
{
    u64::from(keys) + 77 * u64::from(buckets / 2) <= 16_777_216
}

// The most rows between two merges of any plan for so many keys.
fn most_rows(keys: u32) -> u32
    ensures { result ≡ most_rows keys }
{
    for buckets in BUCKET_COUNTS {
        if has_room(keys, buckets) {
            return rows_between_merges(buckets);
        }
    }
    0
}

/// The fewest entries for each row with which there is a plan for so many keys.
pub fn least_writes(keys: u32) -> u64
    ensures { result ≡ least_writes keys }
{
    u64::from(keys.saturating_sub(1)) / u64::from(most_rows(keys).max(1)) + 1
}

/// Whether merging can write no more entries for each row than the limit, if there is one.
pub fn can_write(merge_writes: Option<u32>, keys: u32) -> bool
    ensures { result ≡ can_write merge_writes keys }
{
    match merge_writes {
        Some(most) => least_writes(keys) <= u64::from(most),
        None => true,
    }
}

/// Whether there is a plan for so many keys that keeps what merging writes within its limit.
pub fn is_plannable(merge_writes: Option<u32>, keys: u32) -> bool
    ensures { result ≡ is_plannable merge_writes keys }
{
    keys <= MOST_KEYS && can_write(merge_writes, keys)
}
