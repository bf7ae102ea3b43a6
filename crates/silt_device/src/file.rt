// A disk in a file, read and written at offsets.
ghost use Rattle.std.specs.Prelude.{◌≡◌, ◌≤◌, ◌^◌, ◌+◌, ◌%◌, IfOk, OnOk, IsErr};

use crate::calls::Calls;
use crate::filling::{Filling, fill_file};
use crate::system::{FileSystem, RandomAccessFile};
use silt_disk::{Call, CallAt, Disk};
use std::error::Error;
use std::fs::{File, Metadata};
use std::marker::Model;
use std::{fmt, io};

/// The fault of one device call: the call, its range, how many calls had failed then, and the error of the system. Only a disk
/// makes a fault, and nothing copies one.
#[derive(Debug, Drop)]
pub struct FileFault {
    call: Call,
    at: u64,
    count: u64,
    failures: u64,
    error: io::Error,
}

impl FileFault {
    /// The call that failed, and where its range begins.
    pub fn call(&self) -> CallAt
        ensures { result ≡ record { call = self.now.call; at = self.now.at } }
    {
        CallAt {
            call: self.call,
            at: self.at,
        }
    }

    /// The error of the system.
    pub fn error(&self) -> io::Error
        ensures { result ≡ self.now.error }
    {
        self.error
    }
}

// The call that failed, and the system's text for the error.
impl fmt::Display for FileFault {
    fn fmt<W: fmt::Write>(&self, f: &mut fmt::Formatter<W>) -> fmt::Result {
        let (call, error) = (self.call(), self.error);
        write!(f, "{call}: {error}")
    }
}

impl Error for FileFault {}

/// A disk in a file. Its length never changes.
///
/// It obeys the crash model if its file does: then its content is the file's, and each clause of `Disk` follows. Whatever the
/// file does, the length stays, and the clauses name the system calls that were made, with their offsets and bytes. Writes
/// and syncs are counted, and so are those that failed. Each fault is this disk's own, for the call that failed. That a file of the
/// system behaves is an assumption. It is false if the system, after a failed sync, still shows bytes that it will never write. The
/// lock is advisory: it keeps out only those who ask for it, as each disk here does.
#[derive(Drop)]
pub struct RandomAccessDisk<F: RandomAccessFile = File> {
    file: F,
    len: u64,
    calls: Calls,
    // Whether the file was made for this disk.
    is_new: bool,
}

// Makes the file, or opens the one that is there. Returns whether it was made.
fn make_or_open<R: FileSystem>(system: &R, path: &str) -> io::Result<(R::File, bool)>
    ensures { IfOk result (λ found. R.made system.now path.now found.0) }
{
    match system.make_new_file_at(path) {
        Ok(file) => Ok((file, true)),
        Err(_) => Ok((system.make_file_at(path)?, false)),
    }
}

impl<F: RandomAccessFile> Model for RandomAccessDisk<F> {
    ghost use Rattle.silt_device.specs.File.{FileState, HasLength};

    ghost Value = { FileState F };

    ghost view = { λ a. record { file = a.file; len = a.len; calls = a.calls } };

    ghost invariant = { λ a. HasLength (F.content a.file) a.len };
}

impl<F: RandomAccessFile> RandomAccessDisk<F> {
    ghost use Rattle.std.specs.Fs.{metadata_len};
    ghost use Rattle.silt_device.specs.File.{file_gave, HasLength, IsOpened, IsOpenedFile, IsFoundFile, IsFilledFile, IsMadeFile, IsResizedFile};

    /// Opens the file, or makes an empty one, and locks it. Nothing in the file changes: the disk has its bytes and its length. The
    /// folder of the file is synced; if the path is a link, the folder of the link. The disk holds the lock: until the disk is
    /// dropped no other open of the file gets one.
    ///
    /// # Errors
    ///
    /// The error of the system, if the file cannot be opened, locked or measured, or its folder cannot be synced.
    pub fn find<R: FileSystem<File = F>>(system: &R, path: &str) -> io::Result<RandomAccessDisk<F>>
        ensures found { IfOk result (IsFoundFile F.content (R.made system.now path.now) (R.locked system.now) F.measured) }
        ensures folder { OnOk result (R.folder_synced system.now path.now) }
    {
        let (file, is_new) = make_or_open(system, path)?;
        let found = system.lock_file(file)?;
        system.sync_folder_of(path)?;
        let metadata = found.measure()?;
        let mut disk = RandomAccessDisk::measured(found, &metadata);
        disk.is_new = is_new;
        Ok(disk)
    }

    /// Gives the file exactly this length in bytes, and syncs it. Its bytes up to this length stay, and new bytes are zeros.
    ///
    /// # Errors
    ///
    /// The error of the system, if the file cannot be resized or synced. It may then have its old length or the new one. A length of
    /// 2^63 or more is always an error.
    pub fn resize(self, len: u64) -> io::Result<RandomAccessDisk<F>>
        ensures opened { IfOk result (IsOpened F.content len) }
        ensures resized { IfOk result (λ disk. IsResizedFile F.content F.resized F.synced self.file len disk.file) }
        ensures too_long { 2 ^ 63 ≤ len → IsErr result }
    {
        let mut file = self.into_file();
        file.resize(len)?;
        file.settle()?;
        Ok(RandomAccessDisk::of_len(file, len))
    }

    /// Gives the file at this path, in which the disk is, exactly this length in bytes, writes all of its bytes, and syncs it. Its
    /// bytes up to this length stay, and new bytes are zeros. So the system has room for each byte before a store needs it.
    ///
    /// # Errors
    ///
    /// The error of the system, if the file cannot be resized, read, written or synced. An error of kind out of memory, if a piece of
    /// 1 MiB cannot be allocated. A length of 2^63 or more is always an error. Then the file gets its old length again, if the system
    /// does that. What `find` has made is removed while the lock is still held.
    pub fn fill<R: FileSystem<File = F> + AllocGlobal, P: Filling>(
        self,
        system: &R,
        path: &str,
        len: u64,
        progress: &P,
    ) -> io::Result<RandomAccessDisk<F>>
        ensures opened { IfOk result (IsOpened F.content len) }
        ensures filled { IfOk result (λ disk. IsFilledFile F.content F.written_at F.synced self.file len disk.file) }
        ensures too_long { 2 ^ 63 ≤ len → IsErr result }
    {
        let (old, is_new) = (self.len, self.is_new);
        let mut file = self.into_file();
        match fill_file(system.alloc(), &mut file, old, len, progress) {
            Ok(()) => Ok(RandomAccessDisk::of_len(file, len)),
            Err(error) => {
                let _ = file.resize(old);
                if is_new {
                    let _ = system.remove_file_at(path);
                }
                Err(error)
            }
        }
    }

    /// Opens the file, or makes it, and locks it. Then gives it exactly this length in bytes, and syncs it and its folder. Bytes of an
    /// existing file up to this length stay, and new bytes are zeros.
    ///
    /// # Errors
    ///
    /// Those of `find`, and then nothing in the file has changed, and those of `resize`.
    pub fn create<R: FileSystem<File = F>>(
        system: &R,
        path: &str,
        len: u64,
    ) -> io::Result<RandomAccessDisk<F>>
        ensures opened { IfOk result (IsOpened F.content len) }
        ensures made { IfOk result (λ disk. IsMadeFile F.content (R.made system.now path.now) (R.locked system.now) F.resized F.synced len disk.file) }
        ensures folder { OnOk result (R.folder_synced system.now path.now) }
        ensures too_long { 2 ^ 63 ≤ len → IsErr result }
    {
        RandomAccessDisk::find(system, path)?.resize(len)
    }

    /// Opens an existing file, locks it, and syncs it, at its present length. The sync settles what an earlier process wrote and did
    /// not sync. The disk holds the lock until it is dropped.
    ///
    /// # Errors
    ///
    /// The error of the system, if the file does not exist, another open of it has a lock, or it cannot be read, written, measured
    /// or synced.
    pub fn open<R: FileSystem<File = F>>(system: &R, path: &str) -> io::Result<RandomAccessDisk<F>>
        ensures opened { IfOk result (IsOpenedFile F.content (R.opened system.now path.now) (R.locked system.now) F.measured F.synced) }
    {
        let mut found = system.lock_file(system.open_file_at(path)?)?;
        found.settle()?;
        let metadata = found.measure()?;
        Ok(RandomAccessDisk::measured(found, &metadata))
    }

    /// Opens an existing file to read only, at its present length. It shares the file's lock with others that do so, and syncs
    /// nothing. Each write on the disk is an error.
    ///
    /// # Errors
    ///
    /// The error of the system, if the file does not exist, another open of it has the exclusive lock, or it cannot be read or
    /// measured.
    pub fn open_shared<R: FileSystem<File = F>>(
        system: &R,
        path: &str,
    ) -> io::Result<RandomAccessDisk<F>>
        ensures opened { IfOk result (IsFoundFile F.content (R.opened_to_read system.now path.now) (R.shared system.now) F.measured) }
    {
        let found = system.share_file(system.open_file_to_read_at(path)?)?;
        let metadata = found.measure()?;
        Ok(RandomAccessDisk::measured(found, &metadata))
    }

    // The disk in an open file, of the length in its metadata.
    fn measured(file: F, metadata: &Metadata) -> RandomAccessDisk<F>
        requires { HasLength (F.content file) (metadata_len metadata.now) }
        ensures len { IsOpened F.content (metadata_len metadata.now) result }
        ensures file { result.file ≡ file }
    {
        RandomAccessDisk::of_len(file, metadata.len())
    }

    // The disk in an open file, of this length.
    #[tactic(auto, using(crate::proofs::Files::kept_size, crate::proofs::Files::kept_same))]
    fn of_len(file: F, len: u64) -> RandomAccessDisk<F>
        requires { HasLength (F.content file) len }
        ensures len { IsOpened F.content len result }
        ensures file { result.file ≡ file }
    {
        RandomAccessDisk {
            file,
            len,
            calls: Calls::none(),
            is_new: false,
        }
    }

    /// The file, as it is now.
    pub fn into_file(self) -> F
        ensures { result ≡ self.file }
    {
        self.file
    }

    // The fault of a call of the disk in its present state.
    fn fault(&self, call: Call, at: u64, count: u64, error: io::Error) -> FileFault
        ensures gave { file_gave self.now result call at count }
        ensures error { result.error ≡ error }
    {
        FileFault {
            call,
            at,
            count,
            failures: self.calls.failures(),
            error,
        }
    }

    // Counts a failed write or sync, modulo 2^64, and makes its fault.
    fn fail(&mut self, call: Call, at: u64, count: u64, error: io::Error) -> FileFault
        ensures counted { self.new.calls ≡ record self.old.calls { failures = (self.old.calls.failures + 1) % 2 ^ 64 } }
        ensures len { self.new.len ≡ self.old.len }
        ensures file { self.new.file ≡ self.old.file }
        ensures gave { file_gave self.new result call at count }
        ensures error { result.error ≡ error }
    {
        self.calls.count_failure();
        self.fault(call, at, count, error)
    }
}

impl<F: RandomAccessFile + Send + Sync> Disk for RandomAccessDisk<F> {
    ghost use Rattle.std.specs.Prelude.{OnOk, OnErr, IfErr, IsTrue, length, slice_range};
    ghost use Rattle.silt_disk.specs.declared.disk.Call.TheVariants.{Read};
    ghost use Rattle.silt_disk.specs.Disk.{size};
    ghost use Rattle.silt_device.specs.DiskCalls.{SyncsAll, WritesBytes};
    ghost use Rattle.silt_device.specs.File.{file_gave, file_syncs, file_writes, random_access_content, random_access_disk};

    type Fault = FileFault;

    ghost content = { random_access_content F.content };

    ghost failures = { λ disk. disk.calls.failures };

    ghost writes = { file_writes };

    ghost syncs = { file_syncs };

    ghost gave = { file_gave };

    fn len(&self) -> u64 {
        self.len
    }

    // A read takes no lock, so several threads may read at once.
    fn read(&self, at: u64, buf: &mut [u8]) -> Result<(), FileFault>
        ensures bytes { IsTrue (random_access_content F.content self.now).honest →
            OnOk result (buf.new ≡ slice_range (random_access_content F.content self.now).shown at (at + length buf.old)) }
        ensures read { OnOk result (F.read_from self.now.file at buf.new) }
        ensures fault { IfErr result (λ fault. file_gave self.now fault Read at (length buf.old)) }
    {
        let count = buf.len() as u64;
        match self.file.read_all_from(buf, at) {
            Ok(()) => Ok(()),
            Err(error) => Err(self.fault(Call::Read, at, count, error)),
        }
    }

    fn write(&mut self, at: u64, buf: &[u8]) -> Result<(), FileFault>
        requires { at + length buf.now ≤ size (random_access_content F.content self.old) }
        ensures len { self.new.len ≡ self.old.len }
        ensures writes { WritesBytes (random_access_disk F.content) at buf.now self.old self.new result }
        ensures wrote { OnOk result (F.written_at self.old.file at buf.now self.new.file) }
        ensures not_wrote { OnErr result (F.not_written_at self.old.file at buf.now self.new.file) }
    {
        self.calls.count_write();
        match self.file.write_whole_at(buf, at) {
            Ok(()) => Ok(()),
            Err(error) => Err(self.fail(Call::Write, at, buf.len() as u64, error)),
        }
    }

    fn sync(&mut self) -> Result<(), FileFault>
        ensures len { self.new.len ≡ self.old.len }
        ensures syncs { SyncsAll (random_access_disk F.content) self.old self.new result }
        ensures all { size (random_access_content F.content self.new) ≡ self.new.len }
        ensures synced { OnOk result (F.data_synced self.old.file self.new.file) }
        ensures not_synced { OnErr result (F.not_data_synced self.old.file self.new.file) }
    {
        self.calls.count_sync();
        match self.file.settle_data() {
            Ok(()) => Ok(()),
            Err(error) => Err(self.fail(Call::Sync, 0, self.len, error)),
        }
    }
}
