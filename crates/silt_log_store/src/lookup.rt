// Look-ups of a key among the candidates of its two buckets.
ghost use Rattle.std.specs.Prelude.{◌≡◌, ◌<◌, ◌≤◌, IsOkAnd, None, true, IsTrue, IfOk, IfErr, IfSome, OnOk, All, Contains, drop, length, option_map};
ghost use Rattle.std.specs.List.{list_all};
ghost use Rattle.silt_cuckoo.specs.Index.{candidate_of_key};
ghost use Rattle.silt_cuckoo.specs.Lookup.{candidates_of};
ghost use Rattle.silt_cuckoo.specs.Keys.{first_bucket, second_bucket};
ghost use Rattle.silt_cuckoo.specs.Slots.{bucket_count, place_at};
ghost use Rattle.silt_disk.specs.Disk.{GaveAny, size};
ghost use Rattle.silt_disk.specs.Layout.{device_size, row_len};
ghost use Rattle.silt_log.specs.Rows.{row_at};
ghost use Rattle.silt_frame.specs.Frame.{head_len};
ghost use Rattle.silt_frame.specs.Rows.{has_known_kind};
ghost use Rattle.silt_log.specs.State.{all_rows};
ghost use Rattle.silt_log_store.specs.declared.lookup.Match.{Match};
ghost use Rattle.silt_log_store.specs.Lookup.{AreBucketsOf, IsFirstMatch, IsFrontOf, IsTableWithin, candidate_of, has_candidate, kind_for, kind_with_key};

use silt_cuckoo::{Candidate, Table, key_buckets};
use silt_disk::Disk;
use silt_frame::{Key, Kind};
use silt_log::{Found, Log};

/// A candidate whose row has the key: its slot, and the kind and the place of the row.
#[derive(Clone, Copy)]
pub struct Match {
    pub slot: usize,
    pub found: Found,
}

/// The slot of a match.
pub fn slot_of(found: Option<Match>) -> Option<usize>
    ensures { result ≡ option_map (λ (m : Match). m.slot) found }
{
    let found = found?;
    Some(found.slot)
}

// The kind of a head, if the head has the key.
fn kind_with_key(head: Option<(Kind, Key)>, key: &Key) -> Option<Kind>
    ensures { result ≡ kind_with_key head key.now.0 }
{
    let (kind, its_key) = head?;
    if its_key == *key { Some(kind) } else { None }
}

// Reads the front of the row at a place, as many bytes as `front` is long. The row's kind, if it is known and the row has the key.
fn kind_at<D: Disk>(
    log: &Log,
    disk: &D,
    place: u32,
    key: &Key,
    front: &mut [u8],
) -> Result<Option<Kind>, D::Fault>
    requires place { place < log.now.shape.log_capacity }
    requires front { IsFrontOf log.now.shape (length front.old) }
    requires size { device_size log.now.shape ≤ size (D.content disk.now) }
    ensures kind { IsTrue (D.content disk.now).honest → IfOk result (λ kind. kind ≡ kind_for (row_at log.now.shape log.now.region (D.content disk.now).shown place) key.now.0) }
    ensures value { IsTrue (D.content disk.now).honest → length front.old ≡ row_len log.now.shape
        → OnOk result (drop head_len front.new ≡ (row_at log.now.shape log.now.region (D.content disk.now).shown place).value) }
    ensures fault { IfErr result (GaveAny D.gave disk.now) }
{
    let head = log.read_front(disk, place, front)?;
    Ok(kind_with_key(head, key))
}

// The first of some candidates whose row is of a known kind and has the key. It reads the front of the row of each candidate up to
// that one, into the same bytes.
fn first_match<D: Disk>(
    log: &Log,
    disk: &D,
    candidates: &[Candidate],
    key: &Key,
    front: &mut [u8],
) -> Result<Option<Match>, D::Fault>
    requires size { device_size log.now.shape ≤ size (D.content disk.now) }
    requires places { All (λ c. c.place < log.now.used) candidates.now }
    requires room { log.now.used ≤ log.now.shape.log_capacity }
    requires front { IsFrontOf log.now.shape (length front.old) }
    ensures among { IfOk result (λ found. IfSome found (λ m. Contains candidates.now (candidate_of m))) }
    ensures first { IsTrue (D.content disk.now).honest → list_all has_known_kind (all_rows (D.content disk.now) log.now) ≡ true
        → IfOk result (IsFirstMatch (all_rows (D.content disk.now) log.now) candidates.now key.now.0) }
    ensures value { IsTrue (D.content disk.now).honest → length front.old ≡ row_len log.now.shape
        → IfOk result (λ found. IfSome found (λ m.
        drop head_len front.new ≡ (row_at log.now.shape log.now.region (D.content disk.now).shown m.found.place).value)) }
    ensures empty { log.now.used ≡ 0 → IsOkAnd result (λ found. found ≡ None) }
    ensures fault { IfErr result (GaveAny D.gave disk.now) }
{
    for candidate in candidates {
        if let Some(kind) = kind_at(log, disk, candidate.place, key, front)? {
            return Ok(Some(Match {
                slot: candidate.slot,
                found: Found {
                    kind,
                    place: candidate.place,
                },
            }));
        }
    }
    Ok(None)
}

// Whether a key has a candidate. If it has none, no row has the key.
pub fn has_candidate(table: &Table, key: &Key) -> bool
    ensures { result ≡ has_candidate table.now key.now.0 }
{
    let (first, second) = key_buckets(&key.0, table.bucket_count());
    table.has_candidates(first, second)
}

// The row of a key in a log with this table of its keys. For each candidate of the key's buckets it reads at most the front of the
// row, as many bytes as `front` is long. If `front` has room for a whole row, it then holds the value of the row with the key.
pub fn look_up<D: Disk>(
    log: &Log,
    table: &Table,
    disk: &D,
    key: &Key,
    front: &mut [u8],
) -> Result<Option<Match>, D::Fault>
    requires size { device_size log.now.shape ≤ size (D.content disk.now) }
    requires table { IsTableWithin table.now log.now }
    requires front { IsFrontOf log.now.shape (length front.old) }
    ensures standing { IfOk result (λ found. IfSome found (λ m. place_at table.now m.slot ≡ Some m.found.place)) }
    ensures first { IsTrue (D.content disk.now).honest → list_all has_known_kind (all_rows (D.content disk.now) log.now) ≡ true
        → IfOk result (IsFirstMatch (all_rows (D.content disk.now) log.now) (candidates_of table.now (first_bucket (bucket_count table.now) key.now.0)
        (second_bucket (bucket_count table.now) key.now.0)) key.now.0) }
    ensures value { IsTrue (D.content disk.now).honest → length front.old ≡ row_len log.now.shape
        → IfOk result (λ found. IfSome found (λ m.
        drop head_len front.new ≡ (row_at log.now.shape log.now.region (D.content disk.now).shown m.found.place).value)) }
    ensures fault { IfErr result (GaveAny D.gave disk.now) }
{
    let buckets = key_buckets(&key.0, table.bucket_count());
    look_up_under(log, table, disk, key, buckets, front)
}

// Like `look_up`, with the key's two buckets given.
pub fn look_up_under<D: Disk>(
    log: &Log,
    table: &Table,
    disk: &D,
    key: &Key,
    buckets: (u32, u32),
    front: &mut [u8],
) -> Result<Option<Match>, D::Fault>
    requires buckets { AreBucketsOf table.now key.now.0 buckets }
    requires size { device_size log.now.shape ≤ size (D.content disk.now) }
    requires table { IsTableWithin table.now log.now }
    requires front { IsFrontOf log.now.shape (length front.old) }
    ensures standing { IfOk result (λ found. IfSome found (λ m. place_at table.now m.slot ≡ Some m.found.place)) }
    ensures first { IsTrue (D.content disk.now).honest → list_all has_known_kind (all_rows (D.content disk.now) log.now) ≡ true
        → IfOk result (IsFirstMatch (all_rows (D.content disk.now) log.now) (candidates_of table.now (first_bucket (bucket_count table.now) key.now.0)
        (second_bucket (bucket_count table.now) key.now.0)) key.now.0) }
    ensures value { IsTrue (D.content disk.now).honest → length front.old ≡ row_len log.now.shape
        → IfOk result (λ found. IfSome found (λ m.
        drop head_len front.new ≡ (row_at log.now.shape log.now.region (D.content disk.now).shown m.found.place).value)) }
    ensures empty { log.now.used ≡ 0 → IsOkAnd result (λ found. found ≡ None) }
    ensures fault { IfErr result (GaveAny D.gave disk.now) }
{
    if !table.has_candidates(buckets.0, buckets.1) {
        return Ok(None);
    }
    let candidates = table.candidates(buckets.0, buckets.1);
    first_match(log, disk, candidates.as_slice(), key, front)
}
