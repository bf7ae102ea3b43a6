// Laws of backups, for the callers.
ghost use Rattle.silt_backup.specs.Backups.{BackupLaw};

use silt_disk::Disk;

/// A backup of a moment of a store has the map of that moment's base, or two byte strings have one digest.
pub fn backup_law<D: Disk>()
    ensures { BackupLaw D.Disk }
{}
