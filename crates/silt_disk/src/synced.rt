// A write with the sync that settles it.
ghost use Rattle.std.specs.Prelude.{◌+◌, ◌≤◌, ◌⊎◌, length, IfErr, OnOk};
ghost use Rattle.silt_disk.specs.declared.disk.Call.TheVariants.{Write, Sync};
ghost use Rattle.silt_disk.specs.Disk.{Writes, Rests, size};
ghost use Rattle.silt_disk.specs.Wrote.{Wrote};

use crate::disk::Disk;

/// Writes bytes from `at` on and syncs. After Ok all that the disk shows is settled. After a fault of either call, each possible
/// crash image is one that was possible before, except for the bytes in the range.
pub fn write_synced<D: Disk>(disk: &mut D, at: u64, bytes: &[u8]) -> Result<(), D::Fault>
    requires { at + length bytes.now ≤ size (D.content disk.old) }
    ensures wrote { Wrote D.Disk at (length bytes.now) 1 1 disk.old disk.new result }
    ensures written { OnOk result (Writes at bytes.now (D.content disk.old) (D.content disk.new)) }
    ensures rests { OnOk result (Rests (D.content disk.new)) }
    ensures gave { IfErr result (λ fault. D.gave disk.new fault Write at (length bytes.now) ⊎ D.gave disk.new fault Sync 0 (size (D.content disk.new))) }
{
    disk.write(at, bytes)?;
    disk.sync()?;
    Ok(())
}
