// Copies a store to a disk. What is copied is examined afterwards, so no contract here speaks of bytes.
ghost use Rattle.std.specs.Prelude.{◌≡◌, ◌+◌, ◌^◌, ◌<◌, ◌≤◌, OnOk, length, vec_len};
ghost use Rattle.silt_backup.specs.Backups.{WritesCopy};
ghost use Rattle.silt_care.specs.Extents.{IsPartOf};
ghost use Rattle.silt_care.specs.Orders.{piece_len};
ghost use Rattle.silt_disk.specs.Disk.{Rests};

use crate::backup::Backup;
use crate::fault::BackupFault;
use crate::ranges::log_len;
use crate::writing::PIECE;
use silt_care::{Extent, Finds, Part};
use silt_disk::{Disk, slot_start};
use silt_frame::{COMMIT_CLOSED, COMMIT_OPEN};
use silt_view::{FRONT_LEN, Moment, View};
use std::alloc::Global;

// Fills a buffer with the bytes before the logs, with the commit bytes of the header and of the other manifest slot closed.
fn fill_front(moment: &Moment, front: &mut [u8])
    requires moment { vec_len moment.now.front ≡ 12288 }
    requires front { length front.old ≡ 12288 }
{
    let other_slot = (1 - moment.body.generation % 2) as u32;
    front.copy_from_slice(moment.front.as_slice());
    front[0] = COMMIT_CLOSED;
    front[slot_start(other_slot) as usize] = COMMIT_CLOSED;
}

impl<V: View> Backup<'_, V> {
    // Copies the bytes before the logs, with the commit bytes of the header and of the other manifest slot closed.
    fn copy_front<D: Disk, F: Finds>(
        &self,
        disk: &mut D,
        finds: &F,
        room: &mut [u8],
    ) -> Result<(), BackupFault<V::Fault, D::Fault>>
        requires room { length room.old ≡ piece_len }
        ensures { WritesCopy V.View F.Finds D.Disk self.now finds.now disk.old disk.new result }
    {
        if self.moment.front.len() != FRONT_LEN {
            return Err(BackupFault::Damaged(None));
        }
        let (front, _rest) = room.split_at_mut(FRONT_LEN);
        fill_front(self.moment, front);
        self.put_all(disk, finds, 0, front)
    }

    // Copies this log, with whose bytes these begin, and then the other ones.
    fn copy_logs<D: Disk, F: Finds>(
        &self,
        disk: &mut D,
        finds: &F,
        region: u32,
        others: &[u32],
        bytes: &[u8],
    ) -> Result<(), BackupFault<V::Fault, D::Fault>>
        ensures { WritesCopy V.View F.Finds D.Disk self.now finds.now disk.old disk.new result }
    {
        let geometry = self.moment.geometry;
        let len = log_len(&geometry);
        if region >= geometry.logs() || bytes.len() < len {
            return Err(BackupFault::Damaged(None));
        }
        let (log, behind) = bytes.split_at(len);
        self.put_all(disk, finds, geometry.commits_at(region), log)?;
        match others.split_first() {
            Some((next, rest)) => self.copy_logs(disk, finds, *next, rest, behind),
            None => Ok(()),
        }
    }

    // Copies a piece, which is read into a buffer.
    fn copy_piece<D: Disk, F: Finds>(
        &self,
        disk: &mut D,
        finds: &F,
        at: u64,
        piece: &mut [u8],
    ) -> Result<(), BackupFault<V::Fault, D::Fault>>
        ensures { WritesCopy V.View F.Finds D.Disk self.now finds.now disk.old disk.new result }
    {
        if let Err(fault) = self.view.read_at(at, piece) {
            return Err(BackupFault::Unread(fault));
        }
        self.put(disk, finds, at, piece)
    }

    // Copies the bytes of a store in pieces, and syncs.
    fn copy_extent<D: Disk, F: Finds>(
        &self,
        disk: &mut D,
        finds: &F,
        extent: &Extent,
        room: &mut [u8],
    ) -> Result<(), BackupFault<V::Fault, D::Fault>>
        requires room { length room.old ≡ piece_len }
        requires most { extent.now.at + extent.now.len ≤ 2 ^ 39 }
        ensures { WritesCopy V.View F.Finds D.Disk self.now finds.now disk.old disk.new result }
    {
        let mut done: u64 = 0;
        while done < extent.len {
            let count = PIECE.min((extent.len - done) as usize);
            self.copy_piece(disk, finds, extent.at + done, &mut room[..count])?;
            done += count as u64;
            self.settle_at(disk, finds, done)?;
        }
        self.settle(disk, finds)
    }

    // Copies the store in a part.
    fn copy_part<D: Disk, F: Finds>(
        &self,
        disk: &mut D,
        finds: &F,
        part: Part,
        room: &mut [u8],
    ) -> Result<(), BackupFault<V::Fault, D::Fault>>
        requires part { IsPartOf self.now.moment.now.geometry part }
        requires room { length room.old ≡ piece_len }
        ensures { WritesCopy V.View F.Finds D.Disk self.now finds.now disk.old disk.new result }
    {
        let named = (self.moment.body, self.moment.digests);
        match Extent::of(&self.moment.geometry, &named, part) {
            Some(extent) => self.copy_extent(disk, finds, &extent, room),
            None => Err(BackupFault::Damaged(None)),
        }
    }

    // Copies the hash store in this region.
    fn copy_hash<D: Disk, F: Finds>(
        &self,
        disk: &mut D,
        finds: &F,
        region: u32,
        room: &mut [u8],
    ) -> Result<(), BackupFault<V::Fault, D::Fault>>
        requires room { length room.old ≡ piece_len }
        ensures { WritesCopy V.View F.Finds D.Disk self.now finds.now disk.old disk.new result }
    {
        if region >= self.moment.geometry.hashes() {
            return Err(BackupFault::Damaged(None));
        }
        self.copy_part(disk, finds, Part::Hash(region), room)
    }

    // Copies each hash store that is named.
    fn copy_hashes<D: Disk, F: Finds>(
        &self,
        disk: &mut D,
        finds: &F,
        room: &mut [u8],
    ) -> Result<(), BackupFault<V::Fault, D::Fault>>
        requires room { length room.old ≡ piece_len }
        ensures { WritesCopy V.View F.Finds D.Disk self.now finds.now disk.old disk.new result }
    {
        for region in self.moment.body.hashed.as_slice() {
            self.copy_hash(disk, finds, *region, room)?;
        }
        Ok(())
    }

    // Opens the commit byte of the header, and syncs.
    fn open_header<D: Disk, F: Finds>(
        &self,
        disk: &mut D,
        finds: &F,
    ) -> Result<(), BackupFault<V::Fault, D::Fault>>
        ensures writes { WritesCopy V.View F.Finds D.Disk self.now finds.now disk.old disk.new result }
        ensures rests { OnOk result (Rests (D.content disk.new)) }
    {
        self.put(disk, finds, 0, &[COMMIT_OPEN])?;
        self.settle(disk, finds)
    }

    // Copies the parts of the store but for the sorted store. The commit byte of the header stays closed.
    pub(crate) fn copy_first<D: Disk, F: Finds>(
        &self,
        disk: &mut D,
        finds: &F,
        room: &mut [u8],
    ) -> Result<(), BackupFault<V::Fault, D::Fault>>
        requires room { length room.old ≡ piece_len }
        ensures { WritesCopy V.View F.Finds D.Disk self.now finds.now disk.old disk.new result }
    {
        let body = self.moment.body;
        self.copy_front(disk, finds, room)?;
        self.copy_logs(
            disk,
            finds,
            body.active,
            body.frozen.as_slice(),
            self.moment.logs.as_slice(),
        )?;
        self.copy_hashes(disk, finds, room)
    }

    // Copies the sorted store, and opens the header. After Ok all that the disk shows is settled.
    pub(crate) fn copy_rest<D: Disk, F: Finds>(
        &self,
        alloc: Global,
        disk: &mut D,
        finds: &F,
    ) -> Result<(), BackupFault<V::Fault, D::Fault>>
        ensures writes { WritesCopy V.View F.Finds D.Disk self.now finds.now disk.old disk.new result }
        ensures rests { OnOk result (Rests (D.content disk.new)) }
    {
        let Ok(mut room) = vec![in alloc; 0u8; PIECE] else {
            return Err(BackupFault::NoMemory);
        };
        self.copy_part(disk, finds, Part::Sorted, room.as_mut_slice())?;
        self.open_header(disk, finds)
    }
}
