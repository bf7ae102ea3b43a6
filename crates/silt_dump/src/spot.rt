// Where the newest row of a key lies.
ghost use Rattle.std.specs.Prelude.{◌≡◌, ◌≤◌, Ok, true, false, length, IsTrue, IfErr, Some, None};
ghost use Rattle.silt_disk.specs.Disk.{GaveAny};
ghost use Rattle.silt_disk.specs.Layout.{row_len};
ghost use Rattle.silt_dump.specs.Spots.{IsSpotOf, log_at, spot_value};
ghost use Rattle.silt_recovery.specs.Opening.{Holds, held_stores};

use silt_disk::Disk;
use silt_frame::HEAD_LEN;
use silt_log_store::LogStore;
use silt_recovery::Holding;

/// Where the newest row of a key lies. The logs are numbered from the newest: the active one is number 0.
#[derive(Clone, Copy)]
pub enum Spot {
    /// It is a delete.
    Deleted,
    /// It is a put in the log of this number, at this place.
    Logged(u8, u32),
    /// It is a put in the hash store of this number, the newest first, in this slot.
    Hashed(u8, u32),
}

// The log of this number, the newest first.
pub fn log_of(held: &Holding, number: u8) -> &LogStore
    requires { number ≤ length held.now.frozen.items }
    ensures { result.now ≡ log_at (held_stores held.now) number }
{
    if number == 0 {
        &held.active
    } else {
        &held.frozen[number as usize - 1]
    }
}

// Reads the value of the row at a spot into `value`. Returns whether it has one: a delete has none. A row of a log is read whole,
// into `row`.
pub fn read_spot<D: Disk>(
    disk: &D,
    held: &Holding,
    spot: Spot,
    row: &mut [u8],
    value: &mut [u8],
) -> Result<bool, D::Fault>
    requires holds { Holds (D.content disk.now) (held_stores held.now) }
    requires spot { IsSpotOf (held_stores held.now) spot }
    requires row { length row.old ≡ row_len held.now.manifest.shape }
    requires value { length value.old ≡ held.now.manifest.shape.value_len }
    ensures found { IsTrue (D.content disk.now).honest → result ≡ Ok true → spot_value (D.content disk.now) (held_stores held.now) spot ≡ Some value.new }
    ensures none { IsTrue (D.content disk.now).honest → result ≡ Ok false → spot_value (D.content disk.now) (held_stores held.now) spot ≡ None }
    ensures fault { IfErr result (GaveAny D.gave disk.now) }
{
    match spot {
        Spot::Deleted => Ok(false),
        Spot::Logged(number, place) => {
            log_of(held, number).read_row(disk, place, row)?;
            value.copy_from_slice(&row[HEAD_LEN..]);
            Ok(true)
        }
        Spot::Hashed(number, slot) => {
            held.hashes[number as usize].read_value(disk, slot, value)?;
            Ok(true)
        }
    }
}
