// A file in memory that behaves, and a folder that has one.
ghost use Rattle.std.specs.Prelude.{◌≡◌, ◌+◌, ◌≤◌, ◌↔◌, IfOk, OnOk, OnErr, IsTrue};
ghost use Rattle.silt_disk.specs.Disk.{Settles, Stays, size};
ghost use Rattle.silt_device.specs.Memory.{memory_content};

use silt_device::{Disk, FileSystem, MemDisk, RandomAccessFile, Stoppable};
use std::alloc::{AllocError, Global};
use std::fs::Metadata;
use std::io::{self, ErrorKind};

/// A file in memory that behaves. Its bytes are those of a disk in memory, which knows which of
/// them are settled and computes crash images.
#[derive(Drop)]
pub struct MemFile {
    disk: MemDisk,
    alloc: Global,
}

impl MemFile {
    /// A file with these bytes, all of them settled.
    pub fn new(alloc: Global, bytes: &[u8]) -> Result<MemFile, AllocError>
        ensures { IfOk result (λ file. (memory_content file.disk).shown ≡ bytes.now) }
    {
        let disk = MemDisk::with_bytes(alloc, bytes)?;
        Ok(MemFile { disk, alloc })
    }

    /// The bytes of the file after a crash, if the device wrote none of the pending ones.
    pub(crate) fn after_stop(self) -> Result<Vec<u8>, AllocError> {
        let disk = self.disk.restart();
        disk.shown().to_vec(self.alloc)
    }

    // Settles all that is shown.
    fn settle_all(&mut self) -> io::Result<()>
        ensures settled { OnOk result
            (Settles (memory_content self.old.disk) (memory_content self.new.disk)) }
        ensures unchanged { OnErr result
            (Stays (memory_content self.old.disk) (memory_content self.new.disk)) }
    {
        match self.disk.sync() {
            Ok(()) => Ok(()),
            Err(_) => Err(io::Error::new(ErrorKind::Other, "the sync fails")),
        }
    }

    // Whether a range lies in the file.
    fn has(&self, at: u64, count: usize) -> bool
        ensures { IsTrue result ↔ (at + count ≤ size (memory_content self.now.disk)) }
    {
        let len = self.disk.len();
        at <= len && count as u64 <= len - at
    }
}

impl RandomAccessFile for MemFile {
    ghost use Rattle.std.specs.Prelude.{⊤};
    ghost use Rattle.silt_device.specs.Memory.{memory_content};

    ghost content = { λ file. memory_content file.disk };

    ghost resized = { λ _ _ _. ⊤ };

    ghost measured = { λ _ _. ⊤ };

    ghost synced = { λ _ _. ⊤ };

    ghost data_synced = { λ _ _. ⊤ };

    ghost not_data_synced = { λ _ _. ⊤ };

    ghost read_from = { λ _ _ _. ⊤ };

    ghost written_at = { λ _ _ _ _. ⊤ };

    ghost not_written_at = { λ _ _ _ _. ⊤ };

    fn resize(&mut self, len: u64) -> io::Result<()> {
        if len >= 1 << 63 {
            return Err(io::Error::new(ErrorKind::InvalidInput, "the length"));
        }
        let mut bytes = self.disk.shown().to_vec(self.alloc)?;
        bytes.resize(len as usize, 0)?;
        self.disk = MemDisk::with_bytes(self.alloc, &bytes)?;
        Ok(())
    }

    fn measure(&self) -> io::Result<Metadata> {
        Ok(Metadata::of_file(self.disk.len()))
    }

    fn settle(&mut self) -> io::Result<()> {
        self.settle_all()
    }

    fn settle_data(&mut self) -> io::Result<()> {
        self.settle_all()
    }

    fn read_all_from(&self, buf: &mut [u8], at: u64) -> io::Result<()> {
        if !self.has(at, buf.len()) {
            return Err(ErrorKind::UnexpectedEof.into());
        }
        match self.disk.read(at, buf) {
            Ok(()) => Ok(()),
            Err(_) => Err(io::Error::new(ErrorKind::Other, "the read fails")),
        }
    }

    fn write_whole_at(&mut self, buf: &[u8], at: u64) -> io::Result<()> {
        if !self.has(at, buf.len()) {
            return Err(io::Error::new(ErrorKind::StorageFull, "past the end"));
        }
        match self.disk.write(at, buf) {
            Ok(()) => Ok(()),
            Err(_) => Err(io::Error::new(ErrorKind::Other, "the write fails")),
        }
    }
}

/// A folder that has a file with these bytes under each name. Each opening gives a file of its own.
#[derive(Drop)]
pub struct MemFolder {
    alloc: Global,
    bytes: Vec<u8>,
}

impl MemFolder {
    /// A folder with these bytes.
    pub fn new(alloc: Global, bytes: Vec<u8>) -> MemFolder {
        MemFolder { alloc, bytes }
    }
}

impl FileSystem for MemFolder {
    ghost use Rattle.std.specs.Prelude.{⊤};

    type File = MemFile;

    ghost opened = { λ _ _ _. ⊤ };

    ghost made = { λ _ _ _. ⊤ };

    ghost removed = { λ _ _. ⊤ };

    ghost opened_to_read = { λ _ _ _. ⊤ };

    ghost locked = { λ _ _ _. ⊤ };

    ghost shared = { λ _ _ _. ⊤ };

    ghost folder_synced = { λ _ _. ⊤ };

    fn open_file_at(&self, _path: &str) -> io::Result<MemFile> {
        Ok(MemFile::new(self.alloc, &self.bytes)?)
    }

    fn make_file_at(&self, path: &str) -> io::Result<MemFile> {
        self.open_file_at(path)
    }

    fn make_new_file_at(&self, path: &str) -> io::Result<MemFile> {
        self.open_file_at(path)
    }

    fn remove_file_at(&self, _path: &str) -> io::Result<()> {
        Ok(())
    }

    fn open_file_to_read_at(&self, path: &str) -> io::Result<MemFile> {
        self.open_file_at(path)
    }

    fn lock_file(&self, file: MemFile) -> io::Result<MemFile> {
        Ok(file)
    }

    fn share_file(&self, file: MemFile) -> io::Result<MemFile> {
        Ok(file)
    }

    fn sync_folder_of(&self, _path: &str) -> io::Result<()> {
        Ok(())
    }
}
