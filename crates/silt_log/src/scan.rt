// Reading the rows of a log.
ghost use Rattle.std.specs.Prelude.{vec_len, ◌≡◌, ◌+◌, ◌*◌, ◌≤◌, ℕ, map, true, false, IsTrue, IfOk, IfErr, MatchResult};
ghost use Rattle.std.specs.List.{range_with_len};
ghost use Rattle.silt_disk.specs.Disk.{GaveAny, size};
ghost use Rattle.silt_log.specs.Rows.{AreRows, FirstUnknown, IsRow, body_row};
ghost use Rattle.silt_frame.specs.Rows.{has_known_kind};
ghost use Rattle.silt_log.specs.Scans.{IsScanRefused};
ghost use Rattle.silt_frame.specs.Frame.{head_len};

use silt_disk::Disk;
use silt_frame::{HEAD_LEN, Row, head_of};
use std::alloc::Global;

/// Why a region could not be read: a log, or the slots or entries that a store is rebuilt from.
#[derive(Debug, Drop)]
pub enum ScanError<F> {
    /// The row of this number is the first damaged one. In a log that means a kind byte other than 1 and 2.
    Damaged(u32),
    /// A read failed with this fault.
    Device(F),
    /// Out of memory for the rows that are read, or for what is built of them.
    NoMemory,
}

// Reads the heads of the first rows. The bodies begin here and have this length.
pub fn read_rows<D: Disk>(
    alloc: Global,
    disk: &D,
    bodies: u64,
    row_len: u64,
    count: u32,
) -> Result<Vec<Row>, ScanError<D::Fault>>
    requires len { head_len ≤ row_len }
    requires fits { bodies + count * row_len ≤ size (D.content disk.now) }
    ensures len { IfOk result (λ rows. vec_len rows ≡ count) }
    ensures rows { IsTrue (D.content disk.now).honest → IfOk result (λ rows. AreRows rows.items (map (body_row bodies row_len (D.content disk.now).shown) (range_with_len 0 count))) }
    ensures err { IfErr result (IsScanRefused (λ place. IsTrue (D.content disk.now).honest → FirstUnknown (body_row bodies row_len (D.content disk.now).shown) count place) (GaveAny D.gave disk.now)) }
{
    let _known = disk.len(); // so no place within it passes a word
    let mut rows = Vec::with_capacity(alloc, count as usize).map_err(|_| ScanError::NoMemory)?;
    for place in 0..count {
        let row = read_row(disk, bodies, row_len, place)?;
        rows.push(row).map_err(|_| ScanError::NoMemory)?;
    }
    Ok(rows)
}

// Reads the head of the row of this number.
fn read_row<D: Disk>(
    disk: &D,
    bodies: u64,
    row_len: u64,
    place: u32,
) -> Result<Row, ScanError<D::Fault>>
    requires len { head_len ≤ row_len }
    requires fits { bodies + place * row_len + row_len ≤ size (D.content disk.now) }
    ensures row { IsTrue (D.content disk.now).honest → IfOk result (IsRow place (body_row bodies row_len (D.content disk.now).shown place)) }
    ensures err { IfErr result (IsScanRefused (λ damaged. (damaged ≡ place)
        × (IsTrue (D.content disk.now).honest → has_known_kind (body_row bodies row_len (D.content disk.now).shown place) ≡ false))
        (GaveAny D.gave disk.now)) }
{
    let _known = disk.len(); // so no place within it passes a word
    let mut head = [0; HEAD_LEN];
    disk.read(bodies + u64::from(place) * row_len, &mut head)
        .map_err(ScanError::Device)?;
    let (kind, key) = head_of(&head).ok_or(ScanError::Damaged(place))?;
    Ok(Row { kind, key, place })
}
