// The writes and syncs of a backup.
ghost use Rattle.std.specs.Prelude.{OnOk};
ghost use Rattle.silt_backup.specs.Backups.{WritesCopy};
ghost use Rattle.silt_disk.specs.Disk.{Rests};

use crate::backup::Backup;
use crate::fault::BackupFault;
use crate::ranges::is_within;
use silt_care::Finds;
use silt_disk::Disk;
use silt_view::View;

/// How many bytes a backup reads or writes at once.
pub(crate) const PIECE: usize = 65_536;

// After so many bytes of one part there is a sync, so that no sync takes long.
const UNSYNCED: u64 = 8 << 20;

impl<V: View> Backup<'_, V> {
    // Writes some bytes, if the backup is to go on.
    pub(crate) fn put<D: Disk, F: Finds>(
        &self,
        disk: &mut D,
        finds: &F,
        at: u64,
        bytes: &[u8],
    ) -> Result<(), BackupFault<V::Fault, D::Fault>>
        ensures { WritesCopy V.View F.Finds D.Disk self.now finds.now disk.old disk.new result }
    {
        if !finds.goes_on() {
            return Err(BackupFault::Ended);
        }
        if !is_within(at, bytes.len() as u64, disk.len()) {
            return Err(BackupFault::Damaged(None));
        }
        match disk.write(at, bytes) {
            Ok(()) => Ok(()),
            Err(fault) => Err(BackupFault::Device(fault)),
        }
    }

    // Syncs, if the backup is to go on.
    pub(crate) fn settle<D: Disk, F: Finds>(
        &self,
        disk: &mut D,
        finds: &F,
    ) -> Result<(), BackupFault<V::Fault, D::Fault>>
        ensures writes { WritesCopy V.View F.Finds D.Disk self.now finds.now disk.old disk.new result }
        ensures rests { OnOk result (Rests (D.content disk.new)) }
    {
        if !finds.goes_on() {
            return Err(BackupFault::Ended);
        }
        match disk.sync() {
            Ok(()) => Ok(()),
            Err(fault) => Err(BackupFault::Device(fault)),
        }
    }

    // Syncs if so many bytes of a part make it due.
    pub(crate) fn settle_at<D: Disk, F: Finds>(
        &self,
        disk: &mut D,
        finds: &F,
        done: u64,
    ) -> Result<(), BackupFault<V::Fault, D::Fault>>
        ensures { WritesCopy V.View F.Finds D.Disk self.now finds.now disk.old disk.new result }
    {
        if done % UNSYNCED != 0 {
            return Ok(());
        }
        self.settle(disk, finds)
    }

    // Writes bytes in pieces, and syncs.
    pub(crate) fn put_all<D: Disk, F: Finds>(
        &self,
        disk: &mut D,
        finds: &F,
        at: u64,
        bytes: &[u8],
    ) -> Result<(), BackupFault<V::Fault, D::Fault>>
        ensures { WritesCopy V.View F.Finds D.Disk self.now finds.now disk.old disk.new result }
    {
        if !is_within(at, bytes.len() as u64, disk.len()) {
            return Err(BackupFault::Damaged(None));
        }
        let mut done: usize = 0;
        while done < bytes.len() {
            let count = PIECE.min(bytes.len() - done);
            self.put(disk, finds, at + done as u64, &bytes[done..done + count])?;
            done += count;
            self.settle_at(disk, finds, done as u64)?;
        }
        self.settle(disk, finds)
    }
}
