// Jobs that are done on each file of a set.
ghost use Rattle.std.specs.Prelude.{◌≡◌, IfErr, IfOk, Some, length, max, vec_len};
ghost use Rattle.silt_jobs.specs.Common.{Appends, IsShardCount};
ghost use Rattle.silt_jobs.specs.Ended.{HasFailed};
ghost use Rattle.silt_jobs.specs.SetJobs.{DoesEach, DoesOn, DoesSet, DoesShard, DumpsEach, DumpsSet, IsNoSet, OpensSet, RefusesNoSet, is_shared, shard_line};

use crate::jobs::{
    SetFiles, at_shard, check_on, dump_on, is_done, is_set, open_files, refuse_at, tend_on, why_of,
};
use crate::people::{Ended, Ends, Watched, Why, write_out};
use silt_device::DiskSources;
use silt_disk::Disk;
use silt_shards::compare_marks;
use silt_store_set::Refusal;
use std::alloc::Global;
use std::io::{self, Write};

/// A job that is done on each file of a set.
#[derive(Clone, Copy, Debug, PartialEq, Eq)]
pub enum ShardJob {
    /// Writes the report of each store.
    Check,
    /// Does all background work of each store. With a number it begins a merge only of so many hash stores.
    Tend(Option<u32>),
}

impl ShardJob {
    // Whether it only reads, so that others may read the files too.
    fn is_shared(self) -> bool
        ensures { result ≡ is_shared self }
    {
        match self {
            ShardJob::Check => true,
            ShardJob::Tend(_) => false,
        }
    }
}

/// Why there is no such set, and because of which shard, if of one.
#[derive(Drop)]
struct NoSet<E, F> {
    shard: Option<u32>,
    why: Why<E, F>,
}

impl<E: Drop, F: Drop> NoSet<E, F> {
    // Because of this shard.
    fn at(shard: u32, why: Why<E, F>) -> Self
        ensures { result ≡ record { shard = Some shard; why = why } }
    {
        NoSet {
            shard: Some(shard),
            why,
        }
    }

    // Refuses a job for this reason.
    fn refuse<W: Write>(self, alloc: Global, writer: &mut W) -> Ended<E, F>
        ensures { RefusesNoSet self result (W.contents writer.old) (W.contents writer.new) }
    {
        let NoSet { shard, why } = self;
        match shard {
            Some(shard) => refuse_at(alloc, shard, why, writer),
            None => Ended::refuse(alloc, why, writer),
        }
    }
}

// The disks of the files of a set, shared with other readers or not. By their marks they are the shards of one set in their order.
fn open_set<S: DiskSources>(
    alloc: Global,
    source: S,
    files: &SetFiles<'_>,
    shared: bool,
) -> Result<Vec<S::Disk>, NoSet<S::Error, <S::Disk as Disk>::Fault>>
    ensures count { IfOk result (λ disks. vec_len disks ≡ files.now.shards) }
    ensures opened { IfOk result (λ disks. OpensSet S.Disk.Disk S.DiskSource source shared files.now.name.now files.now.shards disks.items) }
    ensures none { IfErr result (IsNoSet S.Disk.Disk S.DiskSource source shared files.now.name.now files.now.shards) }
{
    if !is_set(files.shards) {
        return Err(NoSet {
            shard: None,
            why: Why::NoJob,
        });
    }
    let disks = match open_files(alloc, source, files, shared) {
        Ok(disks) => disks,
        Err((shard, why)) => return Err(NoSet::at(shard, why)),
    };
    match compare_marks(disks.as_slice()) {
        Ok(()) => Ok(disks),
        Err((shard, cause)) => {
            let why = why_of(&disks[shard as usize], cause);
            Err(NoSet::at(shard, why))
        }
    }
}

/// Does a job on each file of a set, one after the other. It first opens all files, and compares their marks. Before what it writes
/// of a file it writes a line with the number of the shard. It goes on behind a file that is refused. The status is 1 if the files
/// are not all shards of one set, in their order, or if one of them is refused.
pub fn do_each<S: DiskSources, W: Write>(
    alloc: Global,
    source: S,
    files: &SetFiles<'_>,
    job: ShardJob,
    writer: &mut W,
) -> Ends<S::Error, <S::Disk as Disk>::Fault>
where
    S::Disk: Watched,
    ensures { DoesSet S.Disk.Disk (HasFailed S.Disk.Watched.kept_read S.Disk.Watched.last_failure) S.DiskSource source files.now.name.now
        job files.now.shards result (W.contents writer.old) (W.contents writer.new) }
{
    match open_set(alloc, source, files, job.is_shared()) {
        Ok(disks) => do_on_each(alloc, disks, job, writer),
        Err(none) => Ends::of(alloc, none.refuse(alloc, writer)),
    }
}

// Does a job on each disk of a set.
fn do_on_each<E: Drop, D: Watched, W: Write>(
    alloc: Global,
    disks: Vec<D>,
    job: ShardJob,
    writer: &mut W,
) -> Ends<E, D::Fault>
    requires { IsShardCount (vec_len disks) }
    ensures { DoesEach D.Disk (HasFailed D.kept_read D.last_failure) job (vec_len disks) disks.items result (W.contents writer.old) (W.contents writer.new) }
{
    let Ok(mut parts) = Vec::with_capacity(alloc, disks.len()) else {
        let why = Why::Refused(Refusal::NoMemory, None);
        return Ends::of(alloc, Ended::refuse(alloc, why, writer));
    };
    let mut worst = 0;
    for disk in disks {
        let shard = parts.len() as u32;
        let part = do_shard(alloc, shard, disk, job, writer);
        if part.is_broken() {
            return Ends {
                parts,
                whole: at_shard(shard, part),
            };
        }
        worst = worse(worst, part.exit_status());
        parts.push_reserved(part);
    }
    Ends {
        parts,
        whole: Ended::plain(Ok(worst)),
    }
}

// The greater of two exit statuses.
fn worse(status: u8, other: u8) -> u8
    ensures { result ≡ max status other }
{
    if status < other { other } else { status }
}

// Writes the number of a shard, and does a job on its disk.
fn do_shard<E: Drop, D: Watched, W: Write>(
    alloc: Global,
    shard: u32,
    disk: D,
    job: ShardJob,
    writer: &mut W,
) -> Ended<E, D::Fault>
    ensures { DoesShard D.Disk (HasFailed D.kept_read D.last_failure) job shard disk result (W.contents writer.old) (W.contents writer.new) }
{
    match write_shard(alloc, shard, writer) {
        Ok(()) => do_on(alloc, disk, job, writer),
        Err(error) => Ended::plain(Err(error)),
    }
}

// Writes the number of a shard.
fn write_shard<W: Write>(alloc: Global, shard: u32, writer: &mut W) -> io::Result<()>
    ensures { IfOk result (λ _. Appends (W.contents writer.old) (W.contents writer.new) (shard_line shard)) }
{
    let line = format!(in alloc; "shard {shard}\n")?;
    write_out(line.as_bytes(), writer)
}

// Does a job on a disk.
fn do_on<E: Drop, D: Watched, W: Write>(
    alloc: Global,
    disk: D,
    job: ShardJob,
    writer: &mut W,
) -> Ended<E, D::Fault>
    ensures { DoesOn D.Disk (HasFailed D.kept_read D.last_failure) job disk result (W.contents writer.old) (W.contents writer.new) }
{
    match job {
        ShardJob::Check => check_on(alloc, &disk, writer),
        ShardJob::Tend(merge_at) => tend_on(alloc, disk, merge_at, writer).1,
    }
}

/// Writes the lines that put all entries of a set, file by file, each in the order of its keys. It first opens all files, and
/// compares their marks. The status is 0 after the lines of the last file, and 1 if the files are not all shards of one set, in
/// their order, or if one is refused. Then the job ends there.
pub fn dump_set<S: DiskSources, W: Write>(
    alloc: Global,
    source: S,
    files: &SetFiles<'_>,
    writer: &mut W,
) -> Ended<S::Error, <S::Disk as Disk>::Fault>
    ensures { DumpsSet S.Disk.Disk S.DiskSource source files.now.name.now files.now.shards result (W.contents writer.old) (W.contents writer.new) }
{
    match open_set(alloc, source, files, true) {
        Ok(disks) => dump_each(alloc, disks.as_slice(), writer),
        Err(none) => none.refuse(alloc, writer),
    }
}

// Writes the lines that put all entries of the stores on these disks.
fn dump_each<E: Drop, D: Disk, W: Write>(
    alloc: Global,
    disks: &[D],
    writer: &mut W,
) -> Ended<E, D::Fault>
    requires { IsShardCount (length disks.now) }
    ensures { DumpsEach D.Disk (length disks.now) disks.now result (W.contents writer.old) (W.contents writer.new) }
{
    for shard in 0..disks.len() as u32 {
        let dumped = dump_on(alloc, &disks[shard as usize], writer);
        if !is_done(&dumped) {
            return at_shard(shard, dumped);
        }
    }
    Ended::plain(Ok(0))
}
