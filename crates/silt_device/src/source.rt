// Sources of disks: a path names a disk, and the source opens it or makes it.
ghost use Rattle.std.specs.Prelude.{◌≡◌, ℕ, List, IfOk, IfErr};
ghost use Rattle.silt_disk.specs.Disk.{size};

use crate::FileDisk;
use crate::filling::Filling;
use crate::system::FileSystem;
use silt_disk::Disk;
use std::alloc::Global;
use std::fs::File;
use std::io;

/// A source of one disk. Taking the disk consumes the source.
pub trait DiskSource: Drop {
    /// The type of its disks.
    type Disk: Disk;

    /// Why it gives no disk. Code that is generic over sources can neither make nor copy one.
    type Error: Drop;

    /// The source opened this disk at this path.
    ghost opened: { Self → List ℕ → Self.Disk → Type 0 };

    /// The source reported that it cannot open a disk at this path, with this error.
    ghost not_opened: { Self → List ℕ → Self.Error → Type 0 };

    /// The source opened this disk at this path, shared with other readers.
    ghost shared: { Self → List ℕ → Self.Disk → Type 0 };

    /// The source reported that it cannot open a disk at this path for shared reading, with this error.
    ghost not_shared: { Self → List ℕ → Self.Error → Type 0 };

    /// The source opened this disk at this path, or made it with length 0. It changed no bytes.
    ghost found: { Self → List ℕ → Self.Disk → Type 0 };

    /// The source reported that it can neither open nor make a disk at this path, with this error.
    ghost not_found: { Self → List ℕ → Self.Error → Type 0 };

    /// A disk that `find` returned was given this length in bytes, and became the second one.
    ghost resized: { Self.Disk → ℕ → Self.Disk → Type 0 };

    /// A disk that `find` returned cannot be given this length, with this error.
    ghost not_resized: { Self.Disk → ℕ → Self.Error → Type 0 };

    /// A disk that `find` returned was given this length in bytes, all of them were written, and it became the second one.
    ghost filled: { Self.Disk → ℕ → Self.Disk → Type 0 };

    /// A disk that `find` returned cannot be given this length and written, with this error.
    ghost not_filled: { Self.Disk → ℕ → Self.Error → Type 0 };

    /// Opens an existing disk for exclusive use.
    fn open(self, path: &str) -> Result<Self::Disk, Self::Error>
        ensures opened { IfOk result (opened self path.now) }
        ensures not_opened { IfErr result (not_opened self path.now) };

    /// Opens an existing disk to read, shared with other readers.
    fn open_shared(self, path: &str) -> Result<Self::Disk, Self::Error>
        ensures shared { IfOk result (shared self path.now) }
        ensures not_shared { IfErr result (not_shared self path.now) };

    /// Opens the disk, or makes one of length 0, for exclusive use. It changes no bytes.
    fn find(&self, path: &str) -> Result<Self::Disk, Self::Error>
        ensures found { IfOk result (found self.now path.now) }
        ensures not_found { IfErr result (not_found self.now path.now) };

    /// Gives a disk that `find` returned exactly this length in bytes.
    fn resize(alloc: Global, disk: Self::Disk, len: u64) -> Result<Self::Disk, Self::Error>
        ensures resized { IfOk result (resized disk len) }
        ensures size { IfOk result (λ new. size (Self.Disk.Disk.content new) ≡ len) }
        ensures not_resized { IfErr result (not_resized disk len) };

    /// Gives the disk that `find` returned for this path exactly this length in bytes, and writes all of them, so that there is room
    /// for each. Bytes up to this length stay, and new ones are zeros. A disk that `find` made is removed if there is no room.
    fn fill(self, path: &str, disk: Self::Disk, len: u64) -> Result<Self::Disk, Self::Error>
        ensures filled { IfOk result (filled disk len) }
        ensures size { IfOk result (λ new. size (Self.Disk.Disk.content new) ≡ len) }
        ensures not_filled { IfErr result (not_filled disk len) };
}

/// A source of several disks.
pub trait DiskSources: DiskSource {
    /// The same source once more, for one more disk.
    fn another(&self) -> Self
        ensures { result ≡ self.now };
}

/// The files of a system, each a disk.
#[derive(Drop)]
pub struct FileDisks<S, P> {
    system: S,
    progress: P,
}

impl<S, P> FileDisks<S, P> {
    /// The files of this system. The progress shows how far a filling is.
    pub fn new(system: S, progress: P) -> Self
        ensures { result.system ≡ system }
    {
        FileDisks { system, progress }
    }
}

impl<S, P> DiskSources for FileDisks<S, P>
where
    S: FileSystem<File = File> + AllocGlobal + Copy + Drop,
    P: Filling + Copy + Drop,
{
    fn another(&self) -> Self {
        FileDisks {
            system: self.system,
            progress: self.progress,
        }
    }
}

impl<S, P> DiskSource for FileDisks<S, P>
where
    S: FileSystem<File = File> + AllocGlobal + Drop,
    P: Filling + Drop,
{
    ghost use Rattle.std.specs.Prelude.{⊤};
    ghost use Rattle.silt_device.specs.File.{IsFilledFile, IsFoundFile, IsOpened, IsOpenedFile, IsResizedFile};
    ghost use Rattle.silt_assumption.specs.Files.{system_content};

    type Disk = FileDisk;

    type Error = io::Error;

    ghost opened = { λ source path disk. IsOpenedFile system_content (S.opened source.system path) (S.locked source.system) (λ _ _. ⊤) (λ _ _. ⊤) disk.inner.inner };

    ghost not_opened = { λ _ _ _. ⊤ };

    ghost shared = { λ source path disk. IsFoundFile system_content (S.opened_to_read source.system path) (S.shared source.system) (λ _ _. ⊤) disk.inner.inner };

    ghost not_shared = { λ _ _ _. ⊤ };

    ghost found = { λ source path disk. IsFoundFile system_content (S.made source.system path) (S.locked source.system) (λ _ _. ⊤) disk.inner.inner × S.folder_synced source.system path };

    ghost not_found = { λ _ _ _. ⊤ };

    ghost resized = { λ old len new. IsOpened system_content len new.inner.inner × IsResizedFile system_content (λ _ _ _. ⊤) (λ _ _. ⊤) old.inner.inner.file len new.inner.inner.file };

    ghost not_resized = { λ _ _ _. ⊤ };

    ghost filled = { λ old len new. IsOpened system_content len new.inner.inner × IsFilledFile system_content (λ _ _ _ _. ⊤) (λ _ _. ⊤) old.inner.inner.file len new.inner.inner.file };

    ghost not_filled = { λ _ _ _. ⊤ };

    fn open(self, path: &str) -> io::Result<FileDisk> {
        FileDisk::open(&self.system, path)
    }

    fn open_shared(self, path: &str) -> io::Result<FileDisk> {
        FileDisk::open_shared(&self.system, path)
    }

    fn find(&self, path: &str) -> io::Result<FileDisk> {
        FileDisk::find(&self.system, path)
    }

    fn resize(alloc: Global, disk: FileDisk, len: u64) -> io::Result<FileDisk> {
        disk.resize(alloc, len)
    }

    fn fill(self, path: &str, disk: FileDisk, len: u64) -> io::Result<FileDisk> {
        disk.fill(&self.system, path, len, &self.progress)
    }
}
