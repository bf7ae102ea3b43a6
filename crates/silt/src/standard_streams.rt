// The standard streams: their descriptors are in use before a store is opened, and no store is one of them.
ghost use Rattle.std.specs.Prelude.{◌≡◌, ◌≤◌, ℕ, List, None, IfOk, length, take};
ghost use Rattle.silt.specs.declared.standard_streams.SameStreams.{SameStreams as SameStreamsOf};
ghost use Rattle.silt.specs.Streams.{FillsLow, IsLowOrLast, first_stream, null_device};

use crate::file_identity::identity_at;
use silt_device::{FileDisk, FileSystem};
use silt_jobs::Stream;
use std::alloc::Global;
use std::fs::{self, File, Metadata};
use std::io::{self, ErrorKind, Read, Stderr};
use std::os::fd::{AsRawFd, RawFd};
use std::os::unix::fs::symlink;
use std::path::Path;
use std::rt::Runtime;
use std::time::Clock;

/// The device that takes everything and gives nothing.
pub const NULL_DEVICE: &str = "/dev/null";

/// The number of the standard error, the highest of a standard stream.
const LAST_STREAM: RawFd = 2;

/// Opens the null device on each of the descriptors 0, 1 and 2 that is closed, and returns these files. While they are
/// open, no file of a store can get such a number, so nothing that the program prints goes into a store. This rests on
/// the system: it gives each file the lowest free number.
///
/// # Errors
///
/// The system's, if the device cannot be opened, and out of memory.
pub fn fill_descriptors<R: FileSystem>(alloc: Global, system: &R) -> io::Result<Vec<R::File>>
where
    R::File: AsRawFd,
    ensures { IfOk result (λ files. FillsLow R.File.AsRawFd.raw_fd (R.opened system.now null_device) files.items) }
{
    let mut files = Vec::new(alloc);
    for _ in 0..3_usize {
        match open_low(system)? {
            Some(file) => files.push(file)?,
            None => return Ok(files),
        }
    }
    Ok(files)
}

// Opens the null device once more. Returns none if its number is above those of the standard streams: then each of these
// is in use.
fn open_low<R: FileSystem>(system: &R) -> io::Result<Option<R::File>>
where
    R::File: AsRawFd,
    ensures { IfOk result (IsLowOrLast R.File.AsRawFd.raw_fd (R.opened system.now null_device)) }
{
    let file = system.open_file_at(NULL_DEVICE)?;
    if file.as_raw_fd() > LAST_STREAM {
        return Ok(None);
    }
    Ok(Some(file))
}

/// Which of the standard streams are one file.
#[derive(Clone, Copy, Debug, PartialEq, Eq)]
pub struct SameStreams {
    pub input: bool,
    pub output: bool,
    pub error: bool,
}

impl SameStreams {
    /// The first of these streams.
    pub fn first(self) -> Option<Stream>
        ensures { result ≡ first_stream self }
    {
        if self.input {
            Some(Stream::Input)
        } else if self.output {
            Some(Stream::Output)
        } else if self.error {
            Some(Stream::Error)
        } else {
            None
        }
    }
}

/// What is wrong with a path whose file or link a backup of a set does not replace.
pub fn not_its_link() -> io::Error {
    io::Error::new(
        ErrorKind::InvalidInput,
        "it is no link to PATH.a or PATH.b, so no backup of a set takes its place",
    )
}

/// A program with standard streams, and with files beside those of its stores. It has memory and a clock, and its threads share it.
pub trait StandardStreams: AllocGlobal + Clock {
    /// The system reported that these streams are the file of this path, and no others.
    ghost are_file: { Self → List ℕ → SameStreamsOf → Type 0 };

    /// Which standard streams are the file of a path.
    fn streams_at(&self, path: &str) -> SameStreams
        ensures { are_file self.now path.now result };

    /// The file at this path begins with these bytes.
    ghost begins: { Self → List ℕ → List ℕ → Type 0 };

    /// Reads the first bytes of a file into `buffer`, as many as there are and there is room for. Returns their number.
    fn read_start(&self, path: &str, buffer: &mut [u8]) -> io::Result<usize>
        ensures count { IfOk result (λ count. count ≤ length buffer.new) }
        ensures start { IfOk result (λ count. begins self.now path.now (take count buffer.new)) }
        ensures len { length buffer.new ≡ length buffer.old };

    /// Another handle of the file at this path, if it can be opened once more.
    fn open_beside(&self, path: &str) -> Option<File>;

    /// Whether both paths are of one file that can hold a store.
    fn is_same_file(&self, one: &str, other: &str) -> bool;

    /// Makes a file of so many zeros at this path, in place of one that is there and that nobody has locked, and gives it as a disk.
    fn make_disk(&self, path: &str, len: u64) -> io::Result<FileDisk>;

    /// An error if at this path is something that a file is not to take the place of, as a pipe or a device.
    fn may_replace(&self, path: &str) -> io::Result<()>;

    /// Gives the file at this path another one, in place of a file that is there.
    fn rename(&self, path: &str, place: &str) -> io::Result<()>;

    /// Syncs the folder of the file at this path.
    fn sync_folder(&self, path: &str) -> io::Result<()>;

    /// Removes the file at this path, if there is one.
    fn remove(&self, path: &str);

    /// The text of the symbolic link at this path, or none if nothing is there. Anything else there is an error.
    fn link_at(&self, path: &str) -> io::Result<Option<String>>;

    /// Makes a symbolic link of this text at this path, in place of a file or a link that is there and that nobody has locked.
    fn make_link(&self, text: &str, path: &str) -> io::Result<()>;

    /// Makes a folder at this path.
    fn make_folder(&self, path: &str) -> io::Result<()>;

    /// Removes the folder at this path, if there is one, and these files in it. A file that another program has locked stays, and so
    /// does what else is in the folder: then it is an error.
    fn remove_folder(&self, path: &str, files: &[String]) -> io::Result<()>;

    /// The standard error.
    fn errors(&self) -> Stderr;
}

// Fills a buffer from the front, up to the reader's end. Returns how many bytes there were.
fn fill_from<R: Read>(reader: &mut R, buffer: &mut [u8]) -> io::Result<usize>
    ensures count { IfOk result (λ count. count ≤ length buffer.new) }
    ensures len { length buffer.new ≡ length buffer.old }
{
    let mut count = 0;
    for _ in 0..buffer.len() {
        match reader.read(&mut buffer[count..])? {
            0 => return Ok(count),
            more => count += more,
        }
    }
    Ok(count)
}

// Whether a file may take the place of this, or the system itself refuses that.
fn is_replaced(found: &Metadata) -> bool {
    found.is_file() || found.is_dir() || found.file_type().is_symlink()
}

// Removes what is at this path, unless it is a file that another program has locked.
fn clear(rt: &HostRuntime, path: &str) -> io::Result<()> {
    let Ok(found) = fs::symlink_metadata(rt, path) else {
        return Ok(());
    };
    if found.is_file() {
        let held = rt.lock_file(rt.open_file_at(path)?)?;
        fs::remove_file(rt, path)?;
        drop(held);
        return Ok(());
    }
    fs::remove_file(rt, path)
}

// Whether a folder is at this path. Anything else there is an error.
fn has_folder(rt: &HostRuntime, path: &str) -> io::Result<bool> {
    match fs::symlink_metadata(rt, path) {
        Ok(found) if found.is_dir() => Ok(true),
        Ok(_) => Err(io::Error::new(
            ErrorKind::NotADirectory,
            "PATH.a or PATH.b, where its files are to go, is no folder",
        )),
        Err(error) if error.kind() == ErrorKind::NotFound => Ok(false),
        Err(error) => Err(error),
    }
}

// Removes an empty folder.
fn remove_empty(rt: &HostRuntime, path: &str) -> io::Result<()> {
    match fs::remove_dir(rt, path) {
        Err(error) if error.kind() == ErrorKind::DirectoryNotEmpty => Err(io::Error::new(
            ErrorKind::DirectoryNotEmpty,
            "the folder PATH.a or PATH.b, where its files are to go, holds other files",
        )),
        ended => ended,
    }
}

// Not for any system with files: rattle takes no such bound of `done` for granted in the threads of a server.
impl StandardStreams for HostRuntime {
    ghost use Rattle.std.specs.Prelude.{⊤};

    ghost are_file = { λ _ _ _. ⊤ };

    ghost begins = { λ _ _ _. ⊤ };

    // A path below /proc/self/fd means the open file itself, whatever its name. A system without /proc shows no clash.
    fn streams_at(&self, path: &str) -> SameStreams {
        SameStreams {
            input: self.is_same_file(path, "/proc/self/fd/0"),
            output: self.is_same_file(path, "/proc/self/fd/1"),
            error: self.is_same_file(path, "/proc/self/fd/2"),
        }
    }

    fn read_start(&self, path: &str, buffer: &mut [u8]) -> io::Result<usize> {
        let mut file = File::open(self, path)?;
        fill_from(&mut file, buffer)
    }

    fn open_beside(&self, path: &str) -> Option<File> {
        File::open(self, path).ok()
    }

    fn is_same_file(&self, one: &str, other: &str) -> bool {
        match identity_at(self, one) {
            Some(file) => identity_at(self, other) == Some(file),
            None => false,
        }
    }

    fn make_disk(&self, path: &str, len: u64) -> io::Result<FileDisk> {
        clear(self, path)?;
        drop(self.make_new_file_at(path)?);
        FileDisk::create(self, path, len)
    }

    fn may_replace(&self, path: &str) -> io::Result<()> {
        match fs::symlink_metadata(self, path) {
            Ok(found) if !is_replaced(&found) => {
                Err(io::Error::new(ErrorKind::InvalidInput, "it is no regular file"))
            }
            _ => Ok(()),
        }
    }

    fn rename(&self, path: &str, place: &str) -> io::Result<()> {
        fs::rename(self, path, place)
    }

    fn sync_folder(&self, path: &str) -> io::Result<()> {
        self.sync_folder_of(path)
    }

    fn remove(&self, path: &str) {
        let _ = fs::remove_file(self, path); // most often there is none
    }

    fn link_at(&self, path: &str) -> io::Result<Option<String>> {
        match fs::symlink_metadata(self, path) {
            Ok(found) if found.file_type().is_symlink() => {
                Ok(Some(Path::new(path).read_link(self)?.into_string()))
            }
            Ok(_) => Err(not_its_link()),
            Err(error) if error.kind() == ErrorKind::NotFound => Ok(None),
            Err(error) => Err(error),
        }
    }

    fn make_link(&self, text: &str, path: &str) -> io::Result<()> {
        clear(self, path)?;
        symlink(self, text, path)
    }

    fn make_folder(&self, path: &str) -> io::Result<()> {
        fs::create_dir(self, path)
    }

    fn remove_folder(&self, path: &str, files: &[String]) -> io::Result<()> {
        if !has_folder(self, path)? {
            return Ok(());
        }
        let mut removed = Ok(());
        for file in files {
            let cleared = clear(self, file.as_str());
            if cleared.is_err() {
                removed = cleared;
            }
        }
        removed?;
        remove_empty(self, path)
    }

    fn errors(&self) -> Stderr {
        self.stderr()
    }
}
