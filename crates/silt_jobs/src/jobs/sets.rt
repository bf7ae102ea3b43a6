// The jobs on the files of a set, each of which is a shard of one store.
ghost use Rattle.std.specs.Prelude.{◌≡◌, ◌<◌, IfErr, IfOk, IfSome, None, Ok, Some, string_bytes, vec_len};
ghost use Rattle.silt_jobs.specs.Common.{IsShardCount, is_shard_count, AreAlike, value_len_of};
ghost use Rattle.silt_jobs.specs.SetFiles.{AnswersCores, AnswersTended, EndsAtShard, EndsUnformatted, FormatsSet};
ghost use Rattle.silt_jobs.specs.SetFiles.{HasFewRegions, HasFormatted, HasRegions, MakesShard, OpensFiles, OpensNot, OpensSession, RefusesAt};
ghost use Rattle.silt_jobs.specs.SetFiles.{RunsCores, RunsDisks, RunsSet, at_shard, first_refusal, is_done_so, opened_by, set_value_len, shard_file, tending_each};

use crate::jobs::{
    EndedSession, NewStore, Tended, Tending, end_session, format_file, has_few_regions, why_of,
};
use crate::people::{
    Ended, Failures, Found, KeepsLines, KeepsTally, Tells, Watched, Why, write_out,
};
use silt_device::DiskSources;
use silt_disk::Disk;
use silt_event::Answerer;
use silt_shards::{LEAST_SHARDS, MOST_SHARDS, Mark, SetFault, StoreSet, open_shards, write_mark};
use silt_store_set::{Core, Refusal};
use silt_wire::{SessionEnd, session};
use silt_words::RunOptions;
use std::alloc::{AllocError, Global};
use std::io::{self, Read, Write};

/// The files of a set: its name, and the number of its shards. A file has the name of the set, a dot, and the number of its shard.
#[derive(Clone, Copy, Debug)]
pub struct SetFiles<'a> {
    pub name: &'a str,
    pub shards: u32,
}

/// Where an empty set is to be made. The file of the store is the name of the set.
#[derive(Clone, Copy, Debug)]
pub struct NewSet<'a> {
    pub store: NewStore<'a>,
    pub shards: u32,
    /// Random bytes, which no other set has.
    pub set: [u8; 16],
}

/// The name of the file of a shard.
///
/// # Errors
///
/// Out of memory for it.
pub fn shard_path(alloc: Global, name: &str, shard: u32) -> Result<String, AllocError>
    ensures { IfOk result (λ path. string_bytes path ≡ shard_file name.now shard) }
{
    format!(in alloc; "{name}.{shard}")
}

/// Whether a set has so many shards.
pub fn is_set(shards: u32) -> bool
    ensures { result ≡ is_shard_count shards }
{
    shards >= LEAST_SHARDS && shards <= MOST_SHARDS
}

/// The same end, because of the file of this shard.
pub fn at_shard<E, F>(shard: u32, ended: Ended<E, F>) -> Ended<E, F>
    ensures { result ≡ at_shard shard ended }
{
    Ended {
        found: Some(Found::Shard(shard)),
        ..ended
    }
}

/// Refuses a job for this reason, because of the file of this shard.
pub fn refuse_at<E: Drop, F: Drop, W: Write>(
    alloc: Global,
    shard: u32,
    why: Why<E, F>,
    writer: &mut W,
) -> Ended<E, F>
    ensures { RefusesAt shard why result (W.contents writer.old) (W.contents writer.new) }
{
    at_shard(shard, Ended::refuse(alloc, why, writer))
}

/// Formats the files of a set one after the other, each as [`format_file`] does, and behind that writes its mark. All marks have the
/// same bytes of a set. If a file is not formatted or marked, the job ends with that: no job opens the set then, since not all its
/// files have these bytes. The status is 0 after the last mark.
pub fn format_set<S: DiskSources, W: Write, T: Tells>(
    alloc: Global,
    source: S,
    asked: &NewSet<'_>,
    writer: &mut W,
    people: &mut T,
) -> Ended<S::Error, <S::Disk as Disk>::Fault>
    ensures { FormatsSet S.Disk.Disk S.DiskSource source T.told asked.now.store.file.now asked.now.store.numbers asked.now.store.options
        asked.now.shards asked.now.set people.old people.new result (W.contents writer.old) (W.contents writer.new) }
{
    if !is_set(asked.shards) {
        return Ended::refuse(alloc, Why::NoJob, writer);
    }
    let Ok(mut made) = Vec::with_capacity(alloc, asked.shards as usize) else {
        return Ended::refuse(alloc, Why::Refused(Refusal::NoMemory, None), writer);
    };
    for shard in 0..asked.shards {
        match make_shard(alloc, source.another(), asked, shard, writer, people) {
            Ok(disk) => made.push_reserved(disk),
            Err(ended) => return ended,
        }
    }
    drop(made); // each file is locked until all are made
    Ended::plain(Ok(0))
}

// Formats the file of a shard, and writes its mark.
fn make_shard<S: DiskSources, W: Write, T: Tells>(
    alloc: Global,
    source: S,
    asked: &NewSet<'_>,
    shard: u32,
    writer: &mut W,
    people: &mut T,
) -> Result<S::Disk, Ended<S::Error, <S::Disk as Disk>::Fault>>
    requires count { IsShardCount asked.now.shards }
    requires within { shard < asked.now.shards }
    ensures made { IfOk result (λ disk. MakesShard S.Disk.Disk S.DiskSource source T.told asked.now.store.file.now asked.now.store.numbers asked.now.store.options
        asked.now.shards asked.now.set shard people.old people.new disk (W.contents writer.old) (W.contents writer.new)) }
    ensures ended { IfErr result (λ ended. EndsAtShard S.Disk.Disk S.DiskSource source T.told asked.now.store.file.now asked.now.store.numbers asked.now.store.options
        shard people.old people.new ended (W.contents writer.old) (W.contents writer.new)) }
{
    let mut disk = format_shard(alloc, source, &asked.store, shard, writer, people)?;
    let mark = Mark {
        count: asked.shards,
        shard,
        set: asked.set,
    };
    match write_mark(&mut disk, &mark) {
        Ok(()) => Ok(disk),
        Err(fault) => {
            let why = Why::Refused(Refusal::Device(fault), None);
            Err(refuse_at(alloc, shard, why, writer))
        }
    }
}

// Formats the file of a shard, as one file is formatted.
fn format_shard<S: DiskSources, W: Write, T: Tells>(
    alloc: Global,
    source: S,
    store: &NewStore<'_>,
    shard: u32,
    writer: &mut W,
    people: &mut T,
) -> Result<S::Disk, Ended<S::Error, <S::Disk as Disk>::Fault>>
    ensures formatted { IfOk result (λ disk. HasFormatted S.Disk.Disk S.DiskSource source T.told store.now.file.now store.now.numbers store.now.options
        shard people.old people.new disk (W.contents writer.old) (W.contents writer.new)) }
    ensures ended { IfErr result (λ ended. EndsUnformatted S.Disk.Disk S.DiskSource source T.told store.now.file.now store.now.numbers store.now.options
        shard people.old people.new ended (W.contents writer.old) (W.contents writer.new)) }
{
    let Ok(path) = shard_path(alloc, store.file, shard) else {
        let why = Why::Refused(Refusal::NoMemory, None);
        return Err(refuse_at(alloc, shard, why, writer));
    };
    let asked = NewStore {
        file: path.as_str(),
        numbers: store.numbers,
        options: store.options,
    };
    let (given, ended) = format_file(alloc, source, &asked, writer, people);
    match given {
        Some(disk) if is_done(&ended) => Ok(disk),
        _ => Err(at_shard(shard, ended)),
    }
}

// Whether a job was done, and its line was written.
pub fn is_done<E, F>(ended: &Ended<E, F>) -> bool
    ensures { result ≡ is_done_so ended.now }
{
    match (&ended.why, &ended.status) {
        (None, Ok(_)) => true,
        _ => false,
    }
}

/// One life of the set in these files, from the reader's lines: the shard of its key replies to a line, and all shards to a flush.
/// The disks are opened one after the other, and then all are compared and opened. The status is 1 if one is not opened or is not
/// the shard that is due, and else that of [`run_opened`](crate::jobs::run_opened).
pub fn run_set<S: DiskSources, R: KeepsLines, W: KeepsTally>(
    alloc: Global,
    source: S,
    files: &SetFiles<'_>,
    options: RunOptions,
    reader: &mut R,
    writer: &mut W,
) -> Ended<S::Error, <S::Disk as Disk>::Fault>
where
    S::Disk: Tended + Watched,
    ensures { RunsSet S.Disk.Disk S.DiskSource source files.now.name.now W.contents W.kept_error W.kept_tally options (R.kept_error reader.new)
        files.now.shards result (R.remaining reader.old) (R.remaining reader.new) writer.old writer.new }
{
    if !is_set(files.shards) {
        return Ended::refuse(alloc, Why::NoJob, writer);
    }
    match open_files(alloc, source, files, false) {
        Ok(disks) => run_disks(alloc, disks, options, reader, writer),
        Err((shard, why)) => refuse_at(alloc, shard, why, writer),
    }
}

/// Opens the disk of each file of a set, shared with other readers or not. The error has the number of the shard of which there
/// is none.
///
/// # Errors
///
/// The first shard of which no disk is opened, and why; and out of memory.
pub fn open_files<S: DiskSources>(
    alloc: Global,
    source: S,
    files: &SetFiles<'_>,
    shared: bool,
) -> Result<Vec<S::Disk>, (u32, Why<S::Error, <S::Disk as Disk>::Fault>)>
    ensures count { IfOk result (λ disks. vec_len disks ≡ files.now.shards) }
    ensures opened { IfOk result (λ disks. OpensFiles S.DiskSource source shared files.now.name.now files.now.shards disks.items) }
    ensures not { IfErr result (λ fault. OpensNot S.DiskSource source shared files.now.name.now fault.0 fault.1) }
{
    let Ok(mut disks) = Vec::with_capacity(alloc, files.shards as usize) else {
        return Err((0, Why::Refused(Refusal::NoMemory, None)));
    };
    for shard in 0..files.shards {
        match open_file(alloc, source.another(), files.name, shard, shared) {
            Ok(disk) => disks.push_reserved(disk),
            Err(why) => return Err((shard, why)),
        }
    }
    Ok(disks)
}

// Opens the disk of the file of a shard.
fn open_file<S: DiskSources>(
    alloc: Global,
    source: S,
    name: &str,
    shard: u32,
    shared: bool,
) -> Result<S::Disk, Why<S::Error, <S::Disk as Disk>::Fault>>
    ensures opened { IfOk result (opened_by S.DiskSource source shared (shard_file name.now shard)) }
    ensures not { IfErr result (OpensNot S.DiskSource source shared name.now shard) }
{
    let Ok(path) = shard_path(alloc, name, shard) else {
        return Err(Why::Refused(Refusal::NoMemory, None));
    };
    let opened = if shared {
        source.open_shared(path.as_str())
    } else {
        source.open(path.as_str())
    };
    match opened {
        Ok(disk) => Ok(disk),
        Err(error) => Err(Why::NoDisk(error)),
    }
}

// One life of the set on these disks.
fn run_disks<E: Drop, D: Tended + Watched, R: KeepsLines, W: KeepsTally>(
    alloc: Global,
    disks: Vec<D>,
    options: RunOptions,
    reader: &mut R,
    writer: &mut W,
) -> Ended<E, D::Fault>
    requires { IsShardCount (vec_len disks) }
    ensures { RunsDisks D.Disk W.contents W.kept_error W.kept_tally options (R.kept_error reader.new)
        disks.items result (R.remaining reader.old) (R.remaining reader.new) writer.old writer.new }
{
    match open_shards(alloc, disks) {
        Ok(cores) => run_cores(alloc, cores, options, reader, writer),
        Err(SetFault { shard, disk, cause }) => {
            let why = why_of(&disk, cause);
            refuse_at(alloc, shard, why, writer)
        }
    }
}

// One life of these opened stores as a set.
fn run_cores<E: Drop, D: Tended + Watched, R: KeepsLines, W: KeepsTally>(
    alloc: Global,
    cores: Vec<Core<D>>,
    options: RunOptions,
    reader: &mut R,
    writer: &mut W,
) -> Ended<E, D::Fault>
    requires count { IsShardCount (vec_len cores) }
    requires alike { AreAlike (λ core. core.shape.value_len) cores.items }
    ensures { RunsCores D.Disk W.contents W.kept_error W.kept_tally options (R.kept_error reader.new)
        cores.items result (R.remaining reader.old) (R.remaining reader.new) writer.old writer.new }
{
    match few_regions(cores.as_slice(), options.merge_at) {
        Some(hashes) => Ended::refuse(alloc, Why::FewRegions(hashes), writer),
        None => answer_cores(alloc, cores, options, reader, writer),
    }
}

/// The number of hash regions of these stores, if that is less than the number of hash stores of which a merge is to begin.
pub fn few_regions<D: Disk>(cores: &[Core<D>], merge_at: Option<u32>) -> Option<u32>
    ensures few { IfSome result (HasFewRegions merge_at cores.now) }
    ensures enough { result ≡ None → HasRegions merge_at cores.now }
{
    let core = cores.first()?;
    if has_few_regions(core, merge_at) {
        return Some(core.geometry().hashes());
    }
    None
}

/// The length of the values of these stores.
pub fn value_len_of<D: Disk>(cores: &[Core<D>]) -> u32
    ensures { result ≡ set_value_len cores.now }
{
    match cores.first() {
        Some(core) => core.geometry().value_len(),
        None => 0,
    }
}

// Replies to the reader's lines with these stores as a set.
fn answer_cores<E: Drop, D: Tended + Watched, R: KeepsLines, W: KeepsTally>(
    alloc: Global,
    cores: Vec<Core<D>>,
    options: RunOptions,
    reader: &mut R,
    writer: &mut W,
) -> Ended<E, D::Fault>
    requires count { IsShardCount (vec_len cores) }
    requires alike { AreAlike (λ core. core.shape.value_len) cores.items }
    ensures { AnswersCores D.Disk W.contents W.kept_error W.kept_tally options (R.kept_error reader.new)
        cores.items result (R.remaining reader.old) (R.remaining reader.new) writer.old writer.new }
{
    let value_len = value_len_of(cores.as_slice());
    if options.tend {
        return match tend_each(alloc, cores, options.merge_at) {
            Ok(stores) => answer_tended(alloc, stores, value_len, options, reader, writer),
            Err(_) => Ended::refuse(alloc, Why::Refused(Refusal::NoMemory, None), writer),
        };
    }
    let (cores, end) = answer_set(alloc, cores, value_len, reader, writer);
    let session = EndedSession {
        end,
        refusal: None,
        failures: failures_of(cores),
        value_len,
    };
    end_session(alloc, session, options, reader, writer)
}

// Replies to the reader's lines with these stores as a set, each of which does the background work that is due before its lines.
fn answer_tended<E: Drop, D: Tended + Watched, R: KeepsLines, W: KeepsTally>(
    alloc: Global,
    stores: Vec<Tending<D>>,
    value_len: u32,
    options: RunOptions,
    reader: &mut R,
    writer: &mut W,
) -> Ended<E, D::Fault>
    requires count { IsShardCount (vec_len stores) }
    requires alike { AreAlike (λ store. store.core.shape.value_len) stores.items }
    requires value { value_len_of (λ store. store.core.shape.value_len) stores.items ≡ value_len }
    ensures { AnswersTended D.Disk W.contents W.kept_error W.kept_tally options (R.kept_error reader.new)
        value_len stores.items result (R.remaining reader.old) (R.remaining reader.new) writer.old writer.new }
{
    let (stores, end) = answer_set(alloc, stores, value_len, reader, writer);
    let refusal = refusal_of(stores.as_slice());
    let session = EndedSession {
        end,
        refusal,
        failures: failures_of_tended(stores),
        value_len,
    };
    end_session(alloc, session, options, reader, writer)
}

// Writes that the stores are opened, and replies to the reader's lines with them as a set. Returns the stores.
fn answer_set<A: Answerer + Drop, R: Read, W: Write>(
    alloc: Global,
    shards: Vec<A>,
    value_len: u32,
    reader: &mut R,
    writer: &mut W,
) -> (Vec<A>, io::Result<SessionEnd>)
    requires count { IsShardCount (vec_len shards) }
    requires alike { AreAlike A.value_len shards.items }
    requires value { value_len_of A.value_len shards.items ≡ value_len }
    ensures { IfOk result.1 (λ end. OpensSession A.answers A.administers W.contents end value_len shards.items result.0.items
        (R.remaining reader.old) (R.remaining reader.new) writer.old writer.new) }
{
    match write_out(b"opened\n", writer) {
        Ok(()) => {
            let mut set = StoreSet::new(shards);
            let end = session(alloc, value_len as usize, reader, writer, &mut set);
            (set.into_shards(), Ok(end))
        }
        Err(error) => (shards, Err(error)),
    }
}

// These stores, each of which is to do background work.
fn tend_each<D: Disk>(
    alloc: Global,
    cores: Vec<Core<D>>,
    least: Option<u32>,
) -> Result<Vec<Tending<D>>, AllocError>
    ensures stores { IfOk result (λ stores. stores.items ≡ tending_each least cores.items) }
    ensures count { IfOk result (λ stores. vec_len stores ≡ vec_len cores) }
{
    let mut stores = Vec::with_capacity(alloc, cores.len())?;
    for core in cores {
        stores.push_reserved(Tending::new(core, least));
    }
    Ok(stores)
}

// Why a step of background work was refused, by the first store of which one was.
fn refusal_of<D: Disk>(stores: &[Tending<D>]) -> Option<Refusal<()>>
    ensures { result ≡ first_refusal stores.now }
{
    for store in stores {
        match store.refusal() {
            Some(refusal) => return Some(refusal),
            None => {}
        }
    }
    None
}

// The calls that failed of the first disk of which one did.
fn failures_of<D: Watched>(cores: Vec<Core<D>>) -> Failures {
    let mut shard = 0_u32;
    for core in cores {
        if let Some(failures) = failures_at(shard, core) {
            return failures;
        }
        shard = shard.saturating_add(1);
    }
    Failures::none()
}

// The same, of stores that do background work.
fn failures_of_tended<D: Watched>(stores: Vec<Tending<D>>) -> Failures {
    let mut shard = 0_u32;
    for store in stores {
        if let Some(failures) = failures_at(shard, store.into_core()) {
            return failures;
        }
        shard = shard.saturating_add(1);
    }
    Failures::none()
}

// The calls that failed of the disk of this shard, if one did.
fn failures_at<D: Watched>(shard: u32, core: Core<D>) -> Option<Failures> {
    let failures = Failures::of(&core.close());
    if failures.read.is_none() && failures.last.is_none() {
        return None;
    }
    Some(Failures {
        shard: Some(shard),
        ..failures
    })
}
