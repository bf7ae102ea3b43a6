// The jobs on the disk of a path.
ghost use Rattle.std.specs.Prelude.{◌≡◌, ◌+◌, ◌≤◌, IfErr, IfOk, OnOk};
ghost use Rattle.silt_jobs.specs.Common.{GaveAny, size, device_size, mark_at, mark_len};
ghost use Rattle.silt_jobs.specs.Ended.{HasFailed};
ghost use Rattle.silt_jobs.specs.Files.{ChecksFile, FormatsFile, FormatsFound, FormatsSized, FormatsUnmarked, RunsFile, TendsDisk, TendsFile, Unmarks, sized_by};
ghost use Rattle.silt_jobs.specs.HeldData.{TellsStore};

use crate::jobs::{
    HeldStore, Tended, check_on, format_on, may_overwrite, open_on, open_store, run_opened,
    tend_opened,
};
use crate::people::{Ended, KeepsLines, KeepsTally, Tells, Urgent, Watched, Why};
use crate::plans::geometry_of;
use silt_device::DiskSource;
use silt_disk::{Disk, Geometry};
use silt_shards::{Marking, close_mark, read_mark};
use silt_store_set::Refusal;
use silt_words::{FormatOptions, Numbers, RunOptions};
use std::alloc::Global;
use std::io::Write;

/// Where an empty store is to be made, of which numbers, whether that overwrites anything, and how the file is made.
#[derive(Clone, Copy, Debug)]
pub struct NewStore<'a> {
    pub file: &'a str,
    pub numbers: Numbers,
    pub options: FormatOptions,
}

/// Opens or makes the disk of a path, sets its length to that of the geometry of these numbers, and formats it. Unless the
/// disk is to be sparse, all its bytes are written before, so that there is room for each. Returns
/// the disk, and how the job ended, with the status 0 after the length was written, and 1 if it is refused. Numbers out of
/// their limits are refused before the source opens a disk. The data on the disk is read before its length changes. Without
/// `force` only an empty disk or a store without keys is overwritten. A disk with a store that may have keys, or with other
/// data, is refused and returned as it was found. A store is told of before it is overwritten.
pub fn format_file<S: DiskSource, W: Write, T: Tells>(
    alloc: Global,
    source: S,
    asked: &NewStore<'_>,
    writer: &mut W,
    people: &mut T,
) -> (Option<S::Disk>, Ended<S::Error, <S::Disk as Disk>::Fault>)
    ensures { FormatsFile S.Disk.Disk (S.found source asked.now.file.now) (S.not_found source asked.now.file.now)
        (sized_by asked.now.options.sparse S.resized S.filled) (sized_by asked.now.options.sparse S.not_resized S.not_filled)
        (T.told people.old people.new asked.now.file.now) (people.new ≡ people.old) asked.now.numbers asked.now.options.force
        result.0 result.1 (W.contents writer.old) (W.contents writer.new) }
{
    let Ok(geometry) = geometry_of(&asked.numbers) else {
        return (
            None,
            Ended::refuse(alloc, Why::OutOfLimits(asked.numbers), writer),
        );
    };
    match source.find(asked.file) {
        Ok(disk) => format_found(alloc, source, disk, geometry, asked, writer, people),
        Err(error) => (None, Ended::refuse(alloc, Why::NoDisk(error), writer)),
    }
}

// Formats a disk that was found, if its data may be overwritten.
fn format_found<S: DiskSource, W: Write, T: Tells>(
    alloc: Global,
    source: S,
    disk: S::Disk,
    geometry: Geometry,
    asked: &NewStore<'_>,
    writer: &mut W,
    people: &mut T,
) -> (Option<S::Disk>, Ended<S::Error, <S::Disk as Disk>::Fault>)
    ensures { FormatsFound S.Disk.Disk (sized_by asked.now.options.sparse S.resized S.filled) (sized_by asked.now.options.sparse S.not_resized S.not_filled)
        (T.told people.old people.new asked.now.file.now) (people.new ≡ people.old) geometry asked.now.options.force disk result.0 result.1 (W.contents writer.old) (W.contents writer.new) }
{
    match may_overwrite(alloc, &disk, asked.options.force) {
        Ok(store) => {
            tell_store(asked.file, store, people);
            format_sized(alloc, source, disk, geometry, asked, writer)
        }
        Err(why) => (Some(disk), Ended::refuse(alloc, why, writer)),
    }
}

// Tells that this store of a file is overwritten, if there is one.
fn tell_store<T: Tells>(file: &str, store: Option<HeldStore>, people: &mut T)
    ensures { TellsStore (T.told people.old people.new file.now) (people.new ≡ people.old) store }
{
    match store {
        Some(store) => people.tell(file, &Urgent::Overwrites(store)),
        None => {}
    }
}

// Gives a disk this length. Unless it is to be sparse, all its bytes are written.
fn size_disk<S: DiskSource>(
    alloc: Global,
    source: S,
    disk: S::Disk,
    len: u64,
    asked: &NewStore<'_>,
) -> Result<S::Disk, S::Error>
    ensures sized { IfOk result (sized_by asked.now.options.sparse S.resized S.filled disk len) }
    ensures size { IfOk result (λ new. size (S.Disk.Disk.content new) ≡ len) }
    ensures not_sized { IfErr result (sized_by asked.now.options.sparse S.not_resized S.not_filled disk len) }
{
    if asked.options.sparse {
        S::resize(alloc, disk, len)
    } else {
        source.fill(asked.file, disk, len)
    }
}

// Sets the length of a disk to that of a geometry, and formats it.
fn format_sized<S: DiskSource, W: Write>(
    alloc: Global,
    source: S,
    disk: S::Disk,
    geometry: Geometry,
    asked: &NewStore<'_>,
    writer: &mut W,
) -> (Option<S::Disk>, Ended<S::Error, <S::Disk as Disk>::Fault>)
    ensures { FormatsSized S.Disk.Disk (sized_by asked.now.options.sparse S.resized S.filled) (sized_by asked.now.options.sparse S.not_resized S.not_filled)
        geometry disk result.0 result.1 (W.contents writer.old) (W.contents writer.new) }
{
    match size_disk(alloc, source, disk, geometry.size(), asked) {
        Ok(disk) => {
            let (disk, ended) = format_unmarked(alloc, disk, geometry, writer);
            (Some(disk), ended)
        }
        Err(error) => (None, Ended::refuse(alloc, Why::NoDisk(error), writer)),
    }
}

// Formats a disk of this length, which has no mark then.
fn format_unmarked<E: Drop, D: Disk, W: Write>(
    alloc: Global,
    disk: D,
    geometry: Geometry,
    writer: &mut W,
) -> (D, Ended<E, D::Fault>)
    requires { size (D.content disk) ≡ device_size geometry }
    ensures { FormatsUnmarked D.Disk geometry disk result.0 result.1 (W.contents writer.old) (W.contents writer.new) }
{
    let mut disk = disk;
    match unmark(&mut disk) {
        Ok(()) => format_on(alloc, disk, geometry, writer),
        Err(fault) => {
            let why = Why::Refused(Refusal::Device(fault), None);
            (disk, Ended::refuse(alloc, why, writer))
        }
    }
}

// Closes the commit byte of a disk's mark, if it has one.
fn unmark<D: Disk>(disk: &mut D) -> Result<(), D::Fault>
    requires { mark_at + mark_len ≤ size (D.content disk.old) }
    ensures unmarked { OnOk result (Unmarks D.Disk disk.old disk.new) }
    ensures fault { IfErr result (GaveAny D.gave disk.new) }
{
    match read_mark(disk)? {
        Marking::Unmarked => Ok(()),
        Marking::Unknown | Marking::Marked(_) => close_mark(disk),
    }
}

/// One life of the store on the disk of a path, from the reader's lines. A shard of a set is refused. Returns the disk, and
/// how the job ended. The status is 1 if the disk or the store is not opened, and else that of [`run_opened`].
pub fn run_file<S: DiskSource, R: KeepsLines, W: KeepsTally>(
    alloc: Global,
    source: S,
    path: &str,
    options: RunOptions,
    reader: &mut R,
    writer: &mut W,
) -> (Option<S::Disk>, Ended<S::Error, <S::Disk as Disk>::Fault>)
where
    S::Disk: Tended + Watched,
    ensures { RunsFile S.Disk.Disk (HasFailed S.Disk.Watched.kept_read S.Disk.Watched.last_failure)
        W.contents W.kept_error W.kept_tally options (S.opened source path.now) (S.not_opened source path.now)
        (R.kept_error reader.new) result.0 result.1 (R.remaining reader.old) (R.remaining reader.new) writer.old writer.new }
{
    match open_store(alloc, source.open(path)) {
        Ok(core) => {
            let (disk, ended) = run_opened(alloc, core, options, reader, writer);
            (Some(disk), ended)
        }
        Err(unopened) => unopened.refuse(alloc, writer),
    }
}

/// Does all background work of the store on the disk of a path. With `merge_at` it begins a merge only of at least so
/// many hash stores, or if a conversion waits for a hash region. Returns the disk, and how the job ended. The status is 1
/// if the disk or the store is not opened, and else that of [`tend_opened`].
pub fn tend_file<S: DiskSource, W: Write>(
    alloc: Global,
    source: S,
    path: &str,
    merge_at: Option<u32>,
    writer: &mut W,
) -> (Option<S::Disk>, Ended<S::Error, <S::Disk as Disk>::Fault>)
where
    S::Disk: Watched,
    ensures { TendsFile S.Disk.Disk (HasFailed S.Disk.Watched.kept_read S.Disk.Watched.last_failure) merge_at
        (S.opened source path.now) (S.not_opened source path.now) result.0 result.1 (W.contents writer.old) (W.contents writer.new) }
{
    match source.open(path) {
        Ok(disk) => tend_on(alloc, disk, merge_at, writer),
        Err(error) => (None, Ended::refuse(alloc, Why::NoDisk(error), writer)),
    }
}

/// Does all background work of the store on a disk, as [`tend_file`] does. It may be a shard of a set.
pub fn tend_on<E: Drop, D: Watched, W: Write>(
    alloc: Global,
    disk: D,
    merge_at: Option<u32>,
    writer: &mut W,
) -> (Option<D>, Ended<E, D::Fault>)
    ensures { TendsDisk D.Disk (HasFailed D.kept_read D.last_failure) merge_at disk result.0 result.1 (W.contents writer.old) (W.contents writer.new) }
{
    match open_on(alloc, disk) {
        Ok(core) => {
            let (disk, ended) = tend_opened(alloc, core, merge_at, writer);
            (Some(disk), ended)
        }
        Err(unopened) => unopened.refuse(alloc, writer),
    }
}

/// Writes the report of the store on the disk of a path, in numbers. The disk is opened only for reading, and others may
/// read it too. Returns the disk, and how the job ended, with the status 0 after the report, and 1 if the disk is not
/// opened or is refused.
pub fn check_file<S: DiskSource, W: Write>(
    alloc: Global,
    source: S,
    path: &str,
    writer: &mut W,
) -> (Option<S::Disk>, Ended<S::Error, <S::Disk as Disk>::Fault>)
    ensures { ChecksFile S.Disk.Disk (S.shared source path.now) (S.not_shared source path.now) result.0 result.1 (W.contents writer.old) (W.contents writer.new) }
{
    match source.open_shared(path) {
        Ok(disk) => {
            let ended = check_on(alloc, &disk, writer);
            (Some(disk), ended)
        }
        Err(error) => (None, Ended::refuse(alloc, Why::NoDisk(error), writer)),
    }
}
