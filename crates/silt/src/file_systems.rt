// What people are told of the file system in which a job's store lies.

use crate::clash::clash_of;
use crate::mounts::{Mount, Weakness, mount_of, weakness_of};
use crate::standard_streams::StandardStreams;
use silt_words::{Job, SetJob, SetWork};
use std::alloc::Global;
use std::fs::{self, File, Metadata};
use std::io::{self, Read, Write};
use std::os::unix::fs::MetadataExt;
use std::path::Path;
use std::rt::Files;

/// The lines of the mounted file systems.
const MOUNTS: &str = "/proc/self/mountinfo";

/// Tells why the file system of a job's file may not keep what it has synced, if that is known, by one write. A check and a
/// dump write nothing that could be lost. Of a system that does not say what it has mounted nothing is told, and neither is
/// anything of a file that is a standard stream: it could go into that file.
pub fn tell_weakness<R: AllocGlobal + Files<File = File> + StandardStreams, W: Write>(
    alloc: Global,
    system: &R,
    job: &Job<'_>,
    out: &mut W,
) {
    let file = match job {
        Job::Check { .. } | Job::Dump { .. } => None,
        Job::Set(
            SetJob {
                work: SetWork::Check | SetWork::Dump,
                ..
            },
        ) => None,
        _ => job.file(),
    };
    if let Some(file) = file
        && let Ok(None) = clash_of(system, job)
        && let Ok(Some(weakness)) = weakness_at(alloc, system, file)
        && let Ok(note) = format!(in alloc; "silt: {file}: {weakness}\n")
    {
        let _ = out.write_all(note.as_bytes());
    }
}

// The metadata of a file, or of the folder in which it is to be made.
fn metadata_near<R: Files<File = File>>(system: &R, path: &str) -> io::Result<Metadata> {
    if let Ok(found) = fs::metadata(system, path) {
        return Ok(found);
    }
    match Path::new(path).parent() {
        Some(folder) if !folder.as_str().is_empty() => fs::metadata(system, folder),
        _ => fs::metadata(system, "."),
    }
}

// All bytes of a file, of which the system does not say before how many there are.
fn read_all<R: Files<File = File>>(alloc: Global, system: &R, path: &str) -> io::Result<Vec<u8>> {
    let mut bytes = Vec::new(alloc);
    File::open(system, path)?.read_to_end(&mut bytes)?;
    Ok(bytes)
}

// Why the file system at a path may not keep what it has synced, if that is known.
fn weakness_at<R: Files<File = File>>(
    alloc: Global,
    system: &R,
    path: &str,
) -> io::Result<Option<Weakness>> {
    let device = metadata_near(system, path)?.dev();
    // Linux's numbers of a device, out of the one number that a program gets.
    let major = ((device >> 8) & 0xFFF) | ((device >> 32) & 0xFFFF_F000);
    let minor = (device & 0xFF) | ((device >> 12) & 0xFFFF_FF00);
    let numbers = format!(in alloc; "{major}:{minor}")?;
    let mounts = read_all(alloc, system, MOUNTS)?;
    let Some(mount) = mount_with(alloc, &mounts, numbers.as_bytes())? else {
        return Ok(None);
    };
    match str::from_utf8(mount.kind) {
        Ok("ext4") => without_journal(alloc, system, &numbers),
        Ok(kind) => Ok(weakness_of(kind)),
        Err(_) => Ok(None),
    }
}

// The first mounted file system on the device of these numbers.
fn mount_with<'a>(
    alloc: Global,
    mounts: &'a [u8],
    numbers: &[u8],
) -> io::Result<Option<Mount<'a>>> {
    for line in mounts.split(|byte| *byte == b'\n') {
        if let Some(mount) = mount_of(alloc, line)?
            && mount.device == numbers
        {
            return Ok(Some(mount));
        }
    }
    Ok(None)
}

// Whether the ext4 on the device of these numbers has no journal: then the system names no task for it.
fn without_journal<R: Files<File = File>>(
    alloc: Global,
    system: &R,
    numbers: &str,
) -> io::Result<Option<Weakness>> {
    let link = format!(in alloc; "/sys/dev/block/{numbers}")?;
    let device = system.read_link(alloc, &link)?;
    let Some(name) = device.as_path().file_name() else {
        return Ok(None);
    };
    let task = format!(in alloc; "/sys/fs/ext4/{name}/journal_task")?;
    if read_all(alloc, system, &task)?.as_slice() == b"<none>\n".as_slice() {
        return Ok(Some(Weakness::NoJournal));
    }
    Ok(None)
}
