// A copy of a store that is served, written to a disk and examined.
ghost use Rattle.std.specs.Prelude.{OnOk};
ghost use Rattle.silt_backup.specs.Backups.{IsBackup, WritesCopy};
ghost use Rattle.silt_disk.specs.Disk.{LeavesOnly};

use crate::comparing::is_backup;
use crate::fault::{BackupFault, fault_of};
use crate::writing::PIECE;
use silt_care::Finds;
use silt_disk::Disk;
use silt_view::{Moment, View};
use std::alloc::Global;

/// A copy of a store that is served, as it was at a moment.
#[derive(Drop)]
pub struct Backup<'a, V> {
    /// What is seen of the store.
    pub view: &'a V,
    /// What it was at the moment, noted through this view.
    pub moment: &'a Moment,
}

impl<V: View> Backup<'_, V> {
    /// Copies the logs and the hash stores of the moment to a disk, which must have the length of the store's device. It asks before
    /// each piece of 64 KiB and before each sync whether to go on. After an error the disk holds any bytes.
    ///
    /// # Errors
    ///
    /// `Length`, and the faults of the calls that failed. `Damaged` if the moment says nothing.
    pub fn begin<D: Disk, F: Finds>(
        &self,
        alloc: Global,
        disk: &mut D,
        finds: &F,
    ) -> Result<(), BackupFault<V::Fault, D::Fault>>
        ensures { WritesCopy V.View F.Finds D.Disk self.now finds.now disk.old disk.new result }
    {
        if disk.len() != self.moment.geometry.size() {
            return Err(BackupFault::Length);
        }
        let Ok(mut room) = vec![in alloc; 0u8; PIECE] else {
            return Err(BackupFault::NoMemory);
        };
        self.copy_first(disk, finds, room.as_mut_slice())
    }

    /// Copies the sorted store of the moment to the disk of [`begin`](Self::begin), and examines the copy.
    ///
    /// # Errors
    ///
    /// `Damaged` if the copy is none, as when regions of the moment were freed and written again meanwhile; then another moment may be
    /// tried. Else the faults of the calls that failed.
    pub fn finish<D: Disk, F: Finds>(
        &self,
        alloc: Global,
        disk: &mut D,
        finds: &F,
    ) -> Result<(), BackupFault<V::Fault, D::Fault>>
        ensures writes { WritesCopy V.View F.Finds D.Disk self.now finds.now disk.old disk.new result }
        ensures copy { OnOk result (LeavesOnly (D.content disk.new) (IsBackup self.now.moment.now)) }
    {
        self.copy_rest(alloc, disk, finds)?;
        match is_backup(alloc, disk, self.moment) {
            Ok(true) => Ok(()),
            Ok(false) => Err(BackupFault::Damaged(None)),
            Err(error) => Err(fault_of(error)),
        }
    }
}
