// A disk in a file of the system.
ghost use Rattle.std.specs.Prelude.{⊤, ◌≤◌, ◌^◌, ◌+◌, IfOk, OnOk, IsErr};

use crate::buffered_disk::{BufferFault, BufferedDisk};
use crate::file::{FileFault, RandomAccessDisk};
use crate::filling::Filling;
use crate::system::FileSystem;
use silt_disk::Disk;
use std::alloc::Global;
use std::fs::File;
use std::io;

/// A disk in a file of the system. Its length never changes. It buffers adjacent writes for the random-access disk of the file. So
/// all that is proved of these two, over any disks and any files, holds for it: it is honest (obeys the crash model) if its file
/// behaves. That the file does is an assumption, which no clause states or denies.
#[derive(Drop)]
pub struct FileDisk {
    inner: BufferedDisk<RandomAccessDisk<File>>,
}

impl FileDisk {
    ghost use Rattle.silt_device.specs.File.{IsOpened, IsOpenedFile, IsFilledFile, IsFoundFile, IsMadeFile, IsResizedFile};
    ghost use Rattle.silt_assumption.specs.Files.{system_content};

    /// Opens the file, or makes an empty one, and locks it. Nothing in the file changes: the disk has its bytes and its length. The
    /// folder of the file is synced; if the path is a link, the folder of the link. The disk holds the lock: until the disk is
    /// dropped no other open of the file gets one.
    ///
    /// # Errors
    ///
    /// The error of the system, if the file cannot be opened, locked or measured, or its folder cannot be synced. An error of kind
    /// out of memory, if the buffer cannot be allocated.
    pub fn find<R: FileSystem<File = File> + AllocGlobal>(
        system: &R,
        path: &str,
    ) -> io::Result<FileDisk>
        ensures found { IfOk result (λ disk. IsFoundFile system_content (R.made system.now path.now) (R.locked system.now) (λ _ _. ⊤) disk.inner.inner) }
        ensures folder { OnOk result (R.folder_synced system.now path.now) }
    {
        let disk = RandomAccessDisk::find(system, path)?;
        let inner = BufferedDisk::new(system.alloc(), disk)?;
        Ok(FileDisk { inner })
    }

    /// Gives the file exactly this length in bytes, and syncs it. Its bytes up to this length stay, and new bytes are zeros. Bytes that
    /// were written on the disk and not yet synced may be lost.
    ///
    /// # Errors
    ///
    /// The error of the system, if the file cannot be resized or synced. It may then have its old length or the new one. A length of
    /// 2^63 or more is always an error. An error of kind out of memory, if the buffer cannot be allocated.
    pub fn resize(self, alloc: Global, len: u64) -> io::Result<FileDisk>
        ensures opened { IfOk result (λ disk. IsOpened system_content len disk.inner.inner) }
        ensures resized { IfOk result (λ disk. IsResizedFile system_content (λ _ _ _. ⊤) (λ _ _. ⊤) self.inner.inner.file len disk.inner.inner.file) }
        ensures too_long { 2 ^ 63 ≤ len → IsErr result }
    {
        let disk = self.inner.into_inner().resize(len)?;
        let inner = BufferedDisk::new(alloc, disk)?;
        Ok(FileDisk { inner })
    }

    /// Gives the file at this path, in which the disk is, exactly this length in bytes, writes all of its bytes, and syncs it. Its
    /// bytes up to this length stay, and new bytes are zeros. So the system has room for each byte before a store needs it. Bytes that
    /// were written on the disk and not yet synced may be lost.
    ///
    /// # Errors
    ///
    /// The error of the system, if the file cannot be resized, read, written or synced. A length of 2^63 or more is always an error.
    /// Then the file gets its old length again, if the system does that. What `find` has made is removed while the lock is still held.
    /// An error of kind out of memory, if a piece of 1 MiB or the buffer cannot be allocated.
    pub fn fill<R: FileSystem<File = File> + AllocGlobal, P: Filling>(
        self,
        system: &R,
        path: &str,
        len: u64,
        progress: &P,
    ) -> io::Result<FileDisk>
        ensures opened { IfOk result (λ disk. IsOpened system_content len disk.inner.inner) }
        ensures filled { IfOk result (λ disk. IsFilledFile system_content (λ _ _ _ _. ⊤) (λ _ _. ⊤) self.inner.inner.file len disk.inner.inner.file) }
        ensures too_long { 2 ^ 63 ≤ len → IsErr result }
    {
        let disk = self.inner.into_inner();
        let filled = disk.fill(system, path, len, progress)?;
        let inner = BufferedDisk::new(system.alloc(), filled)?;
        Ok(FileDisk { inner })
    }

    /// Opens the file, or makes it, and locks it. Then gives it exactly this length in bytes, and syncs it and its folder. Bytes of an
    /// existing file up to this length stay, and new bytes are zeros.
    ///
    /// # Errors
    ///
    /// Those of `find`, and then nothing in the file has changed, and those of `resize`.
    pub fn create<R: FileSystem<File = File> + AllocGlobal>(
        system: &R,
        path: &str,
        len: u64,
    ) -> io::Result<FileDisk>
        ensures opened { IfOk result (λ disk. IsOpened system_content len disk.inner.inner) }
        ensures made { IfOk result (λ disk. IsMadeFile system_content (R.made system.now path.now) (R.locked system.now) (λ _ _ _. ⊤) (λ _ _. ⊤) len disk.inner.inner.file) }
        ensures folder { OnOk result (R.folder_synced system.now path.now) }
        ensures too_long { 2 ^ 63 ≤ len → IsErr result }
    {
        FileDisk::find(system, path)?.resize(system.alloc(), len)
    }

    /// Opens an existing file, locks it, and syncs it, at its present length. The sync settles what an earlier process wrote and did
    /// not sync. The disk holds the lock until it is dropped.
    ///
    /// # Errors
    ///
    /// The error of the system, if the file does not exist, another open of it has a lock, or it cannot be read, written, measured
    /// or synced. An error of kind out of memory, if the buffer cannot be allocated.
    pub fn open<R: FileSystem<File = File> + AllocGlobal>(
        system: &R,
        path: &str,
    ) -> io::Result<FileDisk>
        ensures opened { IfOk result (λ disk. IsOpenedFile system_content (R.opened system.now path.now) (R.locked system.now) (λ _ _. ⊤) (λ _ _. ⊤) disk.inner.inner) }
    {
        let disk = RandomAccessDisk::open(system, path)?;
        let inner = BufferedDisk::new(system.alloc(), disk)?;
        Ok(FileDisk { inner })
    }

    /// Opens an existing file to read only, at its present length. It shares the file's lock with others that do so, and syncs
    /// nothing. It buffers nothing: each write on the disk is an error.
    ///
    /// # Errors
    ///
    /// The error of the system, if the file does not exist, another open of it has the exclusive lock, or it cannot be read or
    /// measured.
    pub fn open_shared<R: FileSystem<File = File> + AllocGlobal>(
        system: &R,
        path: &str,
    ) -> io::Result<FileDisk>
        ensures opened { IfOk result (λ disk. IsFoundFile system_content (R.opened_to_read system.now path.now) (R.shared system.now) (λ _ _. ⊤) disk.inner.inner) }
    {
        let disk = RandomAccessDisk::open_shared(system, path)?;
        let inner = BufferedDisk::with_room(system.alloc(), disk, 0)?;
        Ok(FileDisk { inner })
    }
}

impl Disk for FileDisk {
    ghost use Rattle.std.specs.Prelude.{length, MatchResult, ◌⊎◌};
    ghost use Rattle.silt_assumption.specs.Files.{system_content};
    ghost use Rattle.silt_disk.specs.Disk.{size};
    ghost use Rattle.silt_device.specs.DiskCalls.{SyncsAll, WritesBytes};
    ghost use Rattle.silt_device.specs.File.{file_content, file_gave, file_syncs, file_writes, random_access_disk};
    ghost use Rattle.silt_device.specs.Buffered.{buffered_content, buffered_disk, buffered_gave, SavesWrites, PassesOn, WritesOut};

    type Fault = BufferFault<FileFault>;

    ghost content = { λ disk. buffered_content file_content disk.inner };

    ghost failures = { λ disk. disk.inner.calls.failures };

    ghost writes = { λ disk. disk.inner.calls.writes };

    ghost syncs = { λ disk. disk.inner.calls.syncs };

    ghost gave = { λ disk. buffered_gave file_gave disk.inner };

    fn len(&self) -> u64 {
        self.inner.len()
    }

    fn read(&self, at: u64, buf: &mut [u8]) -> Result<(), BufferFault<FileFault>> {
        self.inner.read(at, buf)
    }

    fn write(&mut self, at: u64, buf: &[u8]) -> Result<(), BufferFault<FileFault>>
        requires { at + length buf.now ≤ size (buffered_content file_content self.old.inner) }
        ensures writes { WritesBytes (buffered_disk (random_access_disk system_content)) at buf.now self.old.inner self.new.inner result }
        ensures passes { OnOk result (PassesOn file_writes file_syncs at buf.now self.old.inner self.new.inner) }
        ensures gathers { MatchResult result (λ _. SavesWrites file_writes file_syncs 1 0 self.old.inner self.new.inner)
            (λ _. SavesWrites file_writes file_syncs 2 0 self.old.inner self.new.inner) }
    {
        self.inner.write(at, buf)
    }

    fn sync(&mut self) -> Result<(), BufferFault<FileFault>>
        ensures syncs { SyncsAll (buffered_disk (random_access_disk system_content)) self.old.inner self.new.inner result }
        ensures gathers { MatchResult result (λ _. WritesOut file_writes file_syncs self.old.inner self.new.inner)
            (λ _. SavesWrites file_writes file_syncs 1 0 self.old.inner self.new.inner ⊎ SavesWrites file_writes file_syncs 0 1 self.old.inner self.new.inner) }
    {
        self.inner.sync()
    }
}
