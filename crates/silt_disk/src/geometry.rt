// The layout of a device: where each region begins, and how long the device is.
ghost use Rattle.std.specs.Prelude.{◌≡◌, ◌+◌, ◌*◌, ◌^◌, ◌<◌, ◌≤◌, IsTrue, ◌↔◌, MatchResult};
ghost use Rattle.silt_disk.specs.Layout.{Shape, InLimits, RegionsApart, is_bucket_count, sector, slot_at, up};

use silt_frame::{HEAD_LEN, KEY_LEN};
use std::marker::Model;
use thiserror::Error;

/// The length of a sector, in bytes. Each part of a device begins with one, and the header and each manifest slot are one.
pub const SECTOR: u64 = 4096;

/// Where the log regions begin, behind the header and the two manifest slots.
pub const REGIONS_AT: u64 = 12_288;

// The greatest length of a value, in bytes.
const MOST_VALUE_LEN: u32 = 4096;

// The greatest number of log regions.
const MOST_LOGS: u32 = 8;

// The greatest number of hash regions.
const MOST_HASHES: u32 = 16;

// The greatest number of entries of a sorted region.
const MOST_SORTED_CAPACITY: u32 = 16_777_216;

/// A number of a geometry is out of its limits.
#[derive(Clone, Copy, Debug, PartialEq, Eq, Error)]
#[error("a number is out of its limits")]
pub struct BadGeometry;

/// The six numbers of a store, each within its limits, and the offsets of its parts on a device.
///
/// A device has a header of one sector (4,096 bytes) and two manifest slots of one sector each. Then come the log regions, the
/// hash regions and two sorted regions. Each region begins at a sector. All offsets and lengths are in bytes.
#[derive(Clone, Copy, Debug, PartialEq, Eq)]
pub struct Geometry {
    value_len: u32,
    buckets: u32,
    log_capacity: u32,
    logs: u32,
    hashes: u32,
    sorted_capacity: u32,
}

impl Model for Geometry {
    ghost use Rattle.silt_disk.specs.Layout.{Shape, InLimits};

    ghost Value = { Shape };

    ghost view = { λ g. record {
      value_len = g.value_len;
      buckets = g.buckets;
      log_capacity = g.log_capacity;
      logs = g.logs;
      hashes = g.hashes;
      sorted_capacity = g.sorted_capacity;
    } };

    ghost inverse = { λ s. record {
      value_len = s.value_len;
      buckets = s.buckets;
      log_capacity = s.log_capacity;
      logs = s.logs;
      hashes = s.hashes;
      sorted_capacity = s.sorted_capacity;
    } };

    ghost invariant = { λ g. InLimits (record {
      value_len = g.value_len;
      buckets = g.buckets;
      log_capacity = g.log_capacity;
      logs = g.logs;
      hashes = g.hashes;
      sorted_capacity = g.sorted_capacity;
    }) };
}

// n rounded up to whole sectors.
fn round_up(n: u64) -> u64
    requires { n ≤ 2 ^ 62 }
    ensures { result ≡ up n }
{
    (n + (SECTOR - 1)) / SECTOR * SECTOR
}

// Whether n is a power of two from 2 to 32,768.
fn has_bucket_count(n: u32) -> bool
    ensures value { result ≡ is_bucket_count n }
    ensures most { IsTrue result → n ≤ 32768 }
{
    matches!(
        n,
        2 | 4 | 8 | 16 | 32 | 64 | 128 | 256 | 512 | 1024 | 2048 | 4096 | 8192 | 16_384 | 32_768
    )
}

/// Where a manifest slot begins, slot 0 or 1. It is the same in every geometry: the slots follow the header, one sector each.
pub fn slot_start(slot: u32) -> u64
    requires { slot < 2 }
    ensures { result ≡ slot_at slot }
{
    SECTOR + SECTOR * u64::from(slot)
}

/// The law of the layout, for code that reads or writes a device by offsets: in every geometry the regions do not overlap, and
/// they lie within the device.
#[tactic(auto, using(crate::proofs::Regions::regions_apart))]
pub fn regions_law()
    ensures { (shape : Shape) → RegionsApart shape }
{}

impl Geometry {
    ghost use Rattle.silt_disk.specs.Layout.{row_len, entry_len, slot_at, log_size, hash_size, sorted_size, commits_at, bodies_at, hash_at, sorted_at, device_size};

    /// Makes the geometry of these numbers. Each must be within its limits: values of 1 to 4,096 bytes; a power of two of buckets,
    /// from 2 to 32,768; logs of 1 row up to four a bucket; 2 to 8 log regions; 1 to 16 hash regions; 1 to 16,777,216 sorted entries.
    pub fn new(
        value_len: u32,
        buckets: u32,
        log_capacity: u32,
        logs: u32,
        hashes: u32,
        sorted_capacity: u32,
    ) -> Result<Self, BadGeometry>
        ensures { let asked : Shape = record {
          value_len = value_len;
          buckets = buckets;
          log_capacity = log_capacity;
          logs = logs;
          hashes = hashes;
          sorted_capacity = sorted_capacity;
        } in
            MatchResult result (λ geometry. (geometry ≡ asked) × InLimits asked) (λ _. ¬ InLimits asked) }
    {
        if value_len < 1 || value_len > MOST_VALUE_LEN || !has_bucket_count(buckets) {
            return Err(BadGeometry);
        }
        if log_capacity < 1 || log_capacity > 4 * buckets || logs < 2 || logs > MOST_LOGS {
            return Err(BadGeometry);
        }
        if hashes < 1
            || hashes > MOST_HASHES
            || sorted_capacity < 1
            || sorted_capacity > MOST_SORTED_CAPACITY
        {
            return Err(BadGeometry);
        }
        Ok(Geometry {
            value_len,
            buckets,
            log_capacity,
            logs,
            hashes,
            sorted_capacity,
        })
    }

    /// The length of a value, in bytes.
    pub fn value_len(&self) -> u32
        ensures value { result ≡ self.now.value_len }
        ensures limits { InLimits self.now }
    {
        self.value_len
    }

    /// The number of buckets of an index, each of four slots.
    pub fn buckets(&self) -> u32
        ensures value { result ≡ self.now.buckets }
        ensures limits { InLimits self.now }
    {
        self.buckets
    }

    /// The number of rows that a log region holds.
    pub fn log_capacity(&self) -> u32
        ensures value { result ≡ self.now.log_capacity }
        ensures limits { InLimits self.now }
    {
        self.log_capacity
    }

    /// The number of log regions.
    pub fn logs(&self) -> u32
        ensures value { result ≡ self.now.logs }
        ensures limits { InLimits self.now }
    {
        self.logs
    }

    /// The number of hash regions.
    pub fn hashes(&self) -> u32
        ensures value { result ≡ self.now.hashes }
        ensures limits { InLimits self.now }
    {
        self.hashes
    }

    /// The number of entries that a sorted region holds.
    pub fn sorted_capacity(&self) -> u32
        ensures value { result ≡ self.now.sorted_capacity }
        ensures limits { InLimits self.now }
    {
        self.sorted_capacity
    }

    /// The length of a row, in bytes: kind, key and value.
    pub fn row_len(&self) -> usize
        ensures value { result ≡ row_len self.now }
        ensures limits { InLimits self.now }
    {
        HEAD_LEN + self.value_len as usize
    }

    /// The length of a sorted entry, in bytes: key and value.
    pub fn entry_len(&self) -> usize
        ensures value { result ≡ entry_len self.now }
        ensures limits { InLimits self.now }
    {
        KEY_LEN + self.value_len as usize
    }

    #[tactic(auto, using(crate::proofs::Products::product_below))]
    fn log_size(&self) -> u64
        ensures value { result ≡ log_size self.now }
        ensures most { result ≤ 2 ^ 30 }
        ensures limits { InLimits self.now }
    {
        let rows = u64::from(self.log_capacity);
        round_up(rows) + round_up(rows * (HEAD_LEN as u64 + u64::from(self.value_len)))
    }

    #[tactic(auto, using(crate::proofs::Products::product_below))]
    fn hash_size(&self) -> u64
        ensures value { result ≡ hash_size self.now }
        ensures most { result ≤ 2 ^ 30 }
    {
        round_up(4 * u64::from(self.buckets) * (HEAD_LEN as u64 + u64::from(self.value_len)))
    }

    #[tactic(auto, using(crate::proofs::Products::product_below))]
    fn sorted_size(&self) -> u64
        ensures value { result ≡ sorted_size self.now }
        ensures most { result ≤ 2 ^ 37 }
    {
        round_up(u64::from(self.sorted_capacity) * (KEY_LEN as u64 + u64::from(self.value_len)))
    }

    // Where the log regions end, and the hash regions begin.
    #[tactic(auto, using(crate::proofs::Products::product_below))]
    fn logs_end(&self) -> u64
        ensures value { result ≡ hash_at self.now 0 }
        ensures most { result ≤ 2 ^ 34 }
        ensures limits { InLimits self.now }
    {
        REGIONS_AT + u64::from(self.logs) * self.log_size()
    }

    // Where the hash regions end, and the sorted regions begin.
    #[tactic(auto, using(crate::proofs::Products::product_below))]
    fn hashes_end(&self) -> u64
        ensures value { result ≡ sorted_at self.now 0 }
        ensures most { result ≤ 2 ^ 35 }
        ensures limits { InLimits self.now }
    {
        self.logs_end() + u64::from(self.hashes) * self.hash_size()
    }

    /// Where a manifest slot begins, slot 0 or 1. A slot is one sector.
    pub fn slot_at(&self, slot: u32) -> u64
        requires { slot < 2 }
        ensures value { result ≡ slot_at slot }
        ensures fits { slot_at slot + sector ≤ device_size self.now }
    {
        slot_start(slot)
    }

    /// Where the commit bytes of a log region begin, one byte for each row.
    #[tactic(auto, using(crate::proofs::Products::product_below, crate::proofs::Regions::device_size_most))]
    pub fn commits_at(&self, region: u32) -> u64
        requires { region < self.now.logs }
        ensures value { result ≡ commits_at self.now region }
        ensures fits { commits_at self.now region + self.now.log_capacity ≤ device_size self.now }
        ensures most { device_size self.now ≤ 2 ^ 39 }
    {
        REGIONS_AT + u64::from(region) * self.log_size()
    }

    /// Where the bodies of a log region begin, at the first sector after its commit bytes.
    pub fn bodies_at(&self, region: u32) -> u64
        requires { region < self.now.logs }
        ensures value { result ≡ bodies_at self.now region }
        ensures fits { bodies_at self.now region + self.now.log_capacity * row_len self.now ≤ device_size self.now }
        ensures most { device_size self.now ≤ 2 ^ 39 }
    {
        self.commits_at(region) + round_up(u64::from(self.log_capacity))
    }

    /// Where a hash region begins.
    #[tactic(auto, using(crate::proofs::Products::product_below))]
    pub fn hash_at(&self, region: u32) -> u64
        requires { region < self.now.hashes }
        ensures value { result ≡ hash_at self.now region }
        ensures fits { hash_at self.now region + 4 * self.now.buckets * row_len self.now ≤ device_size self.now }
        ensures most { device_size self.now ≤ 2 ^ 39 }
    {
        self.logs_end() + u64::from(region) * self.hash_size()
    }

    /// Where a sorted region begins, region 0 or 1.
    #[tactic(auto, using(crate::proofs::Products::product_below))]
    pub fn sorted_at(&self, region: u32) -> u64
        requires { region < 2 }
        ensures value { result ≡ sorted_at self.now region }
        ensures fits { sorted_at self.now region + self.now.sorted_capacity * entry_len self.now ≤ device_size self.now }
        ensures most { device_size self.now ≤ 2 ^ 39 }
    {
        self.hashes_end() + u64::from(region) * self.sorted_size()
    }

    /// The length of the device, in bytes: it ends with the last sorted region.
    pub fn size(&self) -> u64
        ensures value { result ≡ device_size self.now }
        ensures most { device_size self.now ≤ 2 ^ 39 }
        ensures limits { InLimits self.now }
    {
        self.hashes_end() + 2 * self.sorted_size()
    }
}
