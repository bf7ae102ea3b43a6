// The system calls that a disk in a file uses. Each has a relation of its own. Code over any system can state it only of a call
// that it made. Clauses say what each call does to the bytes of a file that behaves.
ghost use Rattle.std.specs.Prelude.{◌≡◌, ◌+◌, ◌≤◌, ◌^◌, ℕ, List, length, slice_range, IfOk, OnOk, OnErr, IsErr, IsTrue};
ghost use Rattle.std.specs.Fs.{metadata_len};
ghost use Rattle.std.specs.declared.fs.attrs.Metadata.{Metadata as MetadataOf};
ghost use Rattle.silt_disk.specs.Disk.{Content, Tears, Writes, Settles, Stays, size};
ghost use Rattle.silt_device.specs.System.{Resizes};

use std::fs::{self, File, Metadata, OpenOptions, TryLockError};
use std::io::{self, ErrorKind};
use std::os::unix::fs::FileExt;
use std::path::Path;
use std::rt::Files;

/// An open file that is read and written at offsets.
///
/// Its content says whether the file behaves. A file that behaves obeys the crash model, as an honest disk does: each call does to
/// its bytes what the clauses say. About the bytes of any other file they say nothing.
pub trait RandomAccessFile: Drop {
    /// Whether the file behaves, what reads of it give, and the possible crash images.
    ghost content: { Self → Content };

    /// The system gave the file this length, and it became the second one.
    ghost resized: { Self → ℕ → Self → Type 0 };

    /// The system reported this metadata of the file.
    ghost measured: { Self → MetadataOf → Type 0 };

    /// The system settled the file's bytes and its length, and it became the second one.
    ghost synced: { Self → Self → Type 0 };

    /// The system settled the file's bytes, and it became the second one.
    ghost data_synced: { Self → Self → Type 0 };

    /// The system was asked to settle the file's bytes, and failed. The file became the second one.
    ghost not_data_synced: { Self → Self → Type 0 };

    /// The system read these bytes, from this offset on.
    ghost read_from: { Self → ℕ → List ℕ → Type 0 };

    /// The system wrote these bytes from this offset on, and the file became the second one.
    ghost written_at: { Self → ℕ → List ℕ → Self → Type 0 };

    /// The system was asked to write these bytes from this offset on, and failed. The file became the second one.
    ghost not_written_at: { Self → ℕ → List ℕ → Self → Type 0 };

    /// Truncates the file to this length, or extends it with zeros.
    fn resize(&mut self, len: u64) -> io::Result<()>
        ensures resized { OnOk result (resized self.old len self.new) }
        ensures content { OnOk result (Resizes len (content self.old) (content self.new)) }
        ensures too_long { 2 ^ 63 ≤ len → IsErr result };

    /// The metadata of the file: for a file that behaves, its length.
    fn measure(&self) -> io::Result<Metadata>
        ensures measured { IfOk result (measured self.now) }
        ensures len { IsTrue (content self.now).honest → IfOk result (λ metadata. metadata_len metadata ≡ size (content self.now)) };

    /// Settles the file's bytes and its length.
    fn settle(&mut self) -> io::Result<()>
        ensures synced { OnOk result (synced self.old self.new) }
        ensures settled { OnOk result (Settles (content self.old) (content self.new)) }
        ensures unchanged { OnErr result (Stays (content self.old) (content self.new)) };

    /// Settles the file's bytes. After an error nothing has changed.
    fn settle_data(&mut self) -> io::Result<()>
        ensures synced { OnOk result (data_synced self.old self.new) }
        ensures not_synced { OnErr result (not_data_synced self.old self.new) }
        ensures settled { OnOk result (Settles (content self.old) (content self.new)) }
        ensures unchanged { OnErr result (Stays (content self.old) (content self.new)) };

    /// Reads the whole buffer from this offset on. It does not read past the end of a file that behaves.
    fn read_all_from(&self, buf: &mut [u8], at: u64) -> io::Result<()>
        ensures read { OnOk result (read_from self.now at buf.new) }
        ensures bytes { IsTrue (content self.now).honest →
            OnOk result (buf.new ≡ slice_range (content self.now).shown at (at + length buf.old)) };

    /// Writes all bytes from this offset on, and makes their range pending, if it lies in the file. After an error that range may
    /// show any bytes.
    fn write_whole_at(&mut self, buf: &[u8], at: u64) -> io::Result<()>
        ensures wrote { OnOk result (written_at self.old at buf.now self.new) }
        ensures not_wrote { OnErr result (not_written_at self.old at buf.now self.new) }
        ensures honest { (content self.new).honest ≡ (content self.old).honest }
        ensures torn { at + length buf.now ≤ size (content self.old) → Tears at (length buf.now) (content self.old) (content self.new) }
        ensures written { at + length buf.now ≤ size (content self.old) → OnOk result (Writes at buf.now (content self.old) (content self.new)) };
}

/// A system with files.
pub trait FileSystem {
    /// The type of its open files.
    type File: RandomAccessFile;

    /// The system opened this file at this path, to read and write.
    ghost opened: { Self → List ℕ → Self.File → Type 0 };

    /// The system opened this file at this path, to read and write. It made the file if there was none.
    ghost made: { Self → List ℕ → Self.File → Type 0 };

    /// The system removed the name of the file at this path.
    ghost removed: { Self → List ℕ → Type 0 };

    /// The system opened this file at this path, to read only.
    ghost opened_to_read: { Self → List ℕ → Self.File → Type 0 };

    /// The system took this file's exclusive lock, and the file became the second one.
    ghost locked: { Self → Self.File → Self.File → Type 0 };

    /// The system took a shared lock of this file, and the file became the second one.
    ghost shared: { Self → Self.File → Self.File → Type 0 };

    /// The system settled the names in the folder of this path.
    ghost folder_synced: { Self → List ℕ → Type 0 };

    /// Opens an existing file, to read and write.
    fn open_file_at(&self, path: &str) -> io::Result<Self::File>
        ensures { IfOk result (opened self.now path.now) };

    /// Opens the file, or makes an empty one, to read and write.
    fn make_file_at(&self, path: &str) -> io::Result<Self::File>
        ensures { IfOk result (made self.now path.now) };

    /// Makes an empty file, to read and write. It is an error if the path has a file already.
    fn make_new_file_at(&self, path: &str) -> io::Result<Self::File>
        ensures { IfOk result (made self.now path.now) };

    /// Removes the name of the file. Open files stay.
    fn remove_file_at(&self, path: &str) -> io::Result<()>
        ensures { OnOk result (removed self.now path.now) };

    /// Opens an existing file, to read only.
    fn open_file_to_read_at(&self, path: &str) -> io::Result<Self::File>
        ensures { IfOk result (opened_to_read self.now path.now) };

    /// Takes the exclusive lock of the file, and returns the file. It does not wait: it is an error if another open of the file has a
    /// lock.
    fn lock_file(&self, file: Self::File) -> io::Result<Self::File>
        ensures locked { IfOk result (locked self.now file) }
        ensures content { IfOk result (λ held. Self.File.RandomAccessFile.content held ≡ Self.File.RandomAccessFile.content file) };

    /// Takes a shared lock of the file, and returns the file. It does not wait: it is an error if another open of the file has the
    /// exclusive lock.
    fn share_file(&self, file: Self::File) -> io::Result<Self::File>
        ensures shared { IfOk result (shared self.now file) }
        ensures content { IfOk result (λ held. Self.File.RandomAccessFile.content held ≡ Self.File.RandomAccessFile.content file) };

    /// Syncs the folder that holds the last name of the path, so that a crash does not remove that name.
    fn sync_folder_of(&self, path: &str) -> io::Result<()>
        ensures { OnOk result (folder_synced self.now path.now) };
}

// Why a lock was refused. The text is clearer than the system's if another open of the file has a lock.
fn lock_error(error: TryLockError) -> io::Error {
    match error {
        TryLockError::Error(error) => error,
        TryLockError::WouldBlock => io::Error::new(
            ErrorKind::WouldBlock,
            "the file is in use, and is free when the other program ends",
        ),
    }
}

// Whether a file of the system behaves is an assumption: std promises nothing about its bytes. Only this crate knows the law about
// its content. To all others it is any content, so each theorem about a file that behaves holds for it if it does.
impl RandomAccessFile for File {
    ghost use Rattle.std.specs.Prelude.{⊤};
    ghost use Rattle.silt_assumption.specs.Files.{system_content};

    ghost content = { system_content };

    ghost resized = { λ _ _ _. ⊤ };

    ghost measured = { λ _ _. ⊤ };

    ghost synced = { λ _ _. ⊤ };

    ghost data_synced = { λ _ _. ⊤ };

    ghost not_data_synced = { λ _ _. ⊤ };

    ghost read_from = { λ _ _ _. ⊤ };

    ghost written_at = { λ _ _ _ _. ⊤ };

    ghost not_written_at = { λ _ _ _ _. ⊤ };

    #[tactic(auto, using(crate::proofs::Files::system_resizes))]
    fn resize(&mut self, len: u64) -> io::Result<()> {
        self.set_len(len)
    }

    fn measure(&self) -> io::Result<Metadata> {
        self.metadata()
    }

    #[tactic(auto, using(crate::proofs::Files::system_settles, crate::proofs::Files::system_stays))]
    fn settle(&mut self) -> io::Result<()> {
        self.sync_all()
    }

    #[tactic(auto, using(crate::proofs::Files::system_settles, crate::proofs::Files::system_stays))]
    fn settle_data(&mut self) -> io::Result<()> {
        self.sync_data()
    }

    fn read_all_from(&self, buf: &mut [u8], at: u64) -> io::Result<()> {
        self.read_exact_at(buf, at)
    }

    #[tactic(auto, using(crate::proofs::Files::system_writes))]
    fn write_whole_at(&mut self, buf: &[u8], at: u64) -> io::Result<()> {
        self.write_all_at(buf, at)
    }
}

impl<R: Files<File = File>> FileSystem for R {
    ghost use Rattle.std.specs.Prelude.{⊤};

    type File = File;

    ghost opened = { λ _ _ _. ⊤ };

    ghost made = { λ _ _ _. ⊤ };

    ghost removed = { λ _ _. ⊤ };

    ghost opened_to_read = { λ _ _ _. ⊤ };

    ghost locked = { λ _ _ _. ⊤ };

    ghost shared = { λ _ _ _. ⊤ };

    ghost folder_synced = { λ _ _. ⊤ };

    fn open_file_at(&self, path: &str) -> io::Result<File> {
        OpenOptions::new().read(true).write(true).open(self, path)
    }

    fn make_file_at(&self, path: &str) -> io::Result<File> {
        OpenOptions::new()
            .read(true)
            .write(true)
            .create(true)
            .open(self, path)
    }

    fn make_new_file_at(&self, path: &str) -> io::Result<File> {
        OpenOptions::new()
            .read(true)
            .write(true)
            .create_new(true)
            .open(self, path)
    }

    fn remove_file_at(&self, path: &str) -> io::Result<()> {
        fs::remove_file(self, path)
    }

    fn open_file_to_read_at(&self, path: &str) -> io::Result<File> {
        File::open(self, path)
    }

    fn lock_file(&self, file: File) -> io::Result<File> {
        match file.try_lock() {
            Ok(()) => Ok(file),
            Err(error) => Err(lock_error(error)),
        }
    }

    fn share_file(&self, file: File) -> io::Result<File> {
        match file.try_lock_shared() {
            Ok(()) => Ok(file),
            Err(error) => Err(lock_error(error)),
        }
    }

    fn sync_folder_of(&self, path: &str) -> io::Result<()> {
        let folder = match Path::new(path).parent() {
            Some(folder) if !folder.as_str().is_empty() => folder,
            _ => Path::new("."),
        };
        File::open(self, folder)?.sync_all()
    }
}
