// All entries of a store as lines that put them.
ghost use Rattle.std.specs.Prelude.{◌≡◌, ◌++◌, [], IfOk, OnOk, None, string_bytes};
ghost use Rattle.silt_jobs.specs.Common.{Appends, Streams};
ghost use Rattle.silt_jobs.specs.Dump.{Dumps, DumpsFile, EndsDump, GathersLines, WritesLines, put_line};

use crate::jobs::refuse_disk;
use crate::people::{Ended, Why};
use silt_device::DiskSource;
use silt_disk::Disk;
use silt_dump::EntryStream;
use silt_recovery::OpenError;
use silt_store_set::{Key, Refusal};
use std::alloc::{AllocError, Global};
use std::io::{self, Write};

// How many bytes of lines are gathered before they are written.
const WRITTEN_AT_ONCE: usize = 65_536;

// Adds the line that puts this value at this key.
fn push_put(alloc: Global, key: &Key, value: &[u8], lines: &mut String) -> Result<(), AllocError>
    ensures { OnOk result (string_bytes lines.new ≡ string_bytes lines.old ++ put_line key.now value.now) }
{
    let key = hex::encode(alloc, &key.0)?;
    let value = hex::encode(alloc, value)?;
    let line = format!(in alloc; "put {key} {value}\n")?;
    lines.push_str(&line)
}

// Writes the lines if enough of them are gathered.
fn write_full<W: Write>(lines: &mut String, writer: &mut W) -> io::Result<()>
    ensures { OnOk result ((passed : _) × (string_bytes lines.old ≡ passed ++ string_bytes lines.new) × Appends (W.contents writer.old) (W.contents writer.new) passed) }
{
    if lines.len() < WRITTEN_AT_ONCE {
        return Ok(());
    }
    writer.write_all(lines.as_bytes())?;
    lines.clear();
    Ok(())
}

// Adds the line of one entry, and writes the lines if enough of them are gathered.
fn write_put<W: Write>(
    alloc: Global,
    key: &Key,
    value: &[u8],
    lines: &mut String,
    writer: &mut W,
) -> io::Result<()>
    ensures { OnOk result ((passed : _) × (string_bytes lines.old ++ put_line key.now value.now ≡ passed ++ string_bytes lines.new) × Appends (W.contents writer.old) (W.contents writer.new) passed) }
{
    push_put(alloc, key, value, lines)?;
    write_full(lines, writer)
}

// Gathers the lines of the entries of a stream, and writes them as they become enough. Returns the error at which the stream
// ended early, if it did. The last lines are gathered, and not written.
fn gather_lines<D: Disk, W: Write>(
    alloc: Global,
    disk: &D,
    stream: &mut EntryStream,
    lines: &mut String,
    writer: &mut W,
) -> io::Result<Option<OpenError<D::Fault>>>
    requires streams { Streams (D.content disk.now) stream.old }
    requires first { stream.old.last ≡ None }
    requires none { string_bytes lines.old ≡ [] }
    ensures { IfOk result (λ early. GathersLines D.Disk disk.now early (W.contents writer.old) (W.contents writer.new) (string_bytes lines.new)) }
{
    let mut value = vec![in alloc; 0u8; stream.value_len()]?;
    loop {
        match stream.next(disk, &mut value) {
            Ok(Some(key)) => write_put(alloc, &key, &value, lines, writer)?,
            Ok(None) => return Ok(None),
            Err(error) => return Ok(Some(error)),
        }
    }
}

// Writes the lines of the entries of a stream. Returns the error at which it ended early, if it did.
fn write_lines<D: Disk, W: Write>(
    alloc: Global,
    disk: &D,
    stream: &mut EntryStream,
    writer: &mut W,
) -> io::Result<Option<OpenError<D::Fault>>>
    requires streams { Streams (D.content disk.now) stream.old }
    requires first { stream.old.last ≡ None }
    ensures { IfOk result (λ early. WritesLines D.Disk disk.now early (W.contents writer.old) (W.contents writer.new)) }
{
    let mut lines = String::new(alloc);
    let early = gather_lines(alloc, disk, stream, &mut lines, writer)?;
    writer.write_all(lines.as_bytes())?;
    writer.flush()?;
    Ok(early)
}

/// Writes the lines that put all entries of the store on a disk, in the order of their keys. It writes nothing to the disk. The
/// status is 0 after the lines, and 1 if the device is refused. Damage is refused before the first line. If a read fails behind
/// it, the refusal comes behind the lines so far.
pub fn dump_on<E: Drop, D: Disk, W: Write>(
    alloc: Global,
    disk: &D,
    writer: &mut W,
) -> Ended<E, D::Fault>
    ensures { Dumps D.Disk disk.now result (W.contents writer.old) (W.contents writer.new) }
{
    match EntryStream::open(alloc, disk) {
        Ok(mut stream) => {
            let written = write_lines(alloc, disk, &mut stream, writer);
            drop(stream);
            end_dump(alloc, disk, written, writer)
        }
        Err(error) => refuse_disk(alloc, disk, Refusal::from(error), writer),
    }
}

// Ends a dump after its lines: refuses the disk if the stream ended early.
fn end_dump<E: Drop, D: Disk, W: Write>(
    alloc: Global,
    disk: &D,
    written: io::Result<Option<OpenError<D::Fault>>>,
    writer: &mut W,
) -> Ended<E, D::Fault>
    ensures { EndsDump written result (W.contents writer.old) (W.contents writer.new) }
{
    match written {
        Ok(None) => Ended::plain(Ok(0)),
        Ok(Some(error)) => refuse_disk(alloc, disk, Refusal::from(error), writer),
        Err(error) => Ended::plain(Err(error)),
    }
}

/// Writes the lines that put all entries of the store on the disk of a path, in the order of their keys. The disk is
/// opened only for reading, and others may read it too. Returns the disk, and how the job ended, with the status 0 after
/// the lines, and 1 if the disk is not opened or is refused.
pub fn dump_file<S: DiskSource, W: Write>(
    alloc: Global,
    source: S,
    path: &str,
    writer: &mut W,
) -> (Option<S::Disk>, Ended<S::Error, <S::Disk as Disk>::Fault>)
    ensures { DumpsFile S.Disk.Disk (S.shared source path.now) (S.not_shared source path.now) result.0 result.1 (W.contents writer.old) (W.contents writer.new) }
{
    match source.open_shared(path) {
        Ok(disk) => {
            let ended = dump_on(alloc, &disk, writer);
            (Some(disk), ended)
        }
        Err(error) => (None, Ended::refuse(alloc, Why::NoDisk(error), writer)),
    }
}
