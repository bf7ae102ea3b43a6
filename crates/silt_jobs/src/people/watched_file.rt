// Files as disks that keep which of their calls failed.
ghost use Rattle.std.specs.Prelude.{◌≡◌, ◌+◌, ◌%◌, ◌^◌, ◌≤◌, Some, None, IfErr, MatchResult, OnErr, OnOk, length};
ghost use Rattle.silt_jobs.specs.Common.{Makes, Settles, Stays, Tears, Writes, size};
ghost use Rattle.silt_disk.specs.declared.disk.Call.TheVariants.{Write, Sync};

use crate::jobs::{Tended, tend_plain};
use crate::people::{Failure, Progress, Tells, Urgent, Watched};
use silt_device::{DiskSource, DiskSources, FileDisk};
use silt_disk::{Disk, Geometry};
use silt_event::{Event, Facts, Reply};
use silt_manifest::{Body, Digests};
use silt_store_set::{Core, Refusal, Served};
use silt_view::{Moment, ReadFault, Viewed, read_within};
use std::alloc::Global;
use std::io::Stderr;
use std::sync::OnceLock;

// The fault of a disk in a file.
type FileFault = <FileDisk as Disk>::Fault;

/// A disk in a file that keeps its first failed read, and its last failed write or sync. Reads share the disk, so a
/// cell that can be written once keeps the failed one. A disk that reports at once tells its first failed write or sync. The progress line shows the reads of an opening.
#[derive(Drop)]
pub struct WatchedFile<'a> {
    disk: FileDisk,
    first_read: OnceLock<Failure>,
    last: Option<Failure>,
    errors: Stderr,
    reports_at_once: bool,
    shard: Option<u32>,
    progress: &'a Progress,
}

impl Disk for WatchedFile<'_> {
    ghost use Rattle.std.specs.Prelude.{◌⊎◌};
    ghost use Rattle.silt_device.specs.File.{file_content, file_gave, file_syncs, file_writes};
    ghost use Rattle.silt_device.specs.Buffered.{buffered_content, buffered_gave, SavesWrites, PassesOn, WritesOut};

    type Fault = FileFault;

    ghost content = { λ watched. buffered_content file_content watched.disk.inner };

    ghost failures = { λ watched. watched.disk.inner.calls.failures };

    ghost writes = { λ watched. watched.disk.inner.calls.writes };

    ghost syncs = { λ watched. watched.disk.inner.calls.syncs };

    ghost gave = { λ watched. buffered_gave file_gave watched.disk.inner };

    fn len(&self) -> u64 {
        self.disk.len()
    }

    fn read(&self, at: u64, buf: &mut [u8]) -> Result<(), FileFault> {
        match self.disk.read(at, buf) {
            Ok(()) => {
                self.progress.add(buf.len(), self.disk.len());
                Ok(())
            }
            Err(fault) => {
                let _ = self.first_read.try_set(failure_of(&fault));
                Err(fault)
            }
        }
    }

    fn write(&mut self, at: u64, buf: &[u8]) -> Result<(), FileFault>
        requires { at + length buf.now ≤ size (buffered_content file_content self.old.disk.inner) }
        ensures size { size (buffered_content file_content self.new.disk.inner) ≡ size (buffered_content file_content self.old.disk.inner) }
        ensures made { Makes (λ watched. watched.disk.inner.calls.writes) (λ watched. watched.disk.inner.calls.syncs) 1 0 self.old self.new }
        ensures torn { Tears at (length buf.now) (buffered_content file_content self.old.disk.inner) (buffered_content file_content self.new.disk.inner) }
        ensures written { OnOk result (Writes at buf.now (buffered_content file_content self.old.disk.inner) (buffered_content file_content self.new.disk.inner)) }
        ensures passes { OnOk result (PassesOn file_writes file_syncs at buf.now self.old.disk.inner self.new.disk.inner) }
        ensures gathers { MatchResult result (λ _. SavesWrites file_writes file_syncs 1 0 self.old.disk.inner self.new.disk.inner)
            (λ _. SavesWrites file_writes file_syncs 2 0 self.old.disk.inner self.new.disk.inner) }
        ensures failures { MatchResult result (λ _. self.new.disk.inner.calls.failures ≡ self.old.disk.inner.calls.failures)
            (λ fault. (self.new.disk.inner.calls.failures ≡ (self.old.disk.inner.calls.failures + 1) % 2 ^ 64)
            × buffered_gave file_gave self.new.disk.inner fault Write at (length buf.now)) }
        ensures last { IfErr result (λ fault. self.new.last ≡ Some (record { call = record { call = fault.inner.call; at = fault.inner.at }; error = fault.inner.error })) }
    {
        match self.disk.write(at, buf) {
            Ok(()) => Ok(()),
            Err(fault) => Err(self.keep(fault)),
        }
    }

    fn sync(&mut self) -> Result<(), FileFault>
        ensures size { size (buffered_content file_content self.new.disk.inner) ≡ size (buffered_content file_content self.old.disk.inner) }
        ensures made { Makes (λ watched. watched.disk.inner.calls.writes) (λ watched. watched.disk.inner.calls.syncs) 0 1 self.old self.new }
        ensures settled { OnOk result (Settles (buffered_content file_content self.old.disk.inner) (buffered_content file_content self.new.disk.inner)) }
        ensures unchanged { OnErr result (Stays (buffered_content file_content self.old.disk.inner) (buffered_content file_content self.new.disk.inner)) }
        ensures gathers { MatchResult result (λ _. WritesOut file_writes file_syncs self.old.disk.inner self.new.disk.inner)
            (λ _. SavesWrites file_writes file_syncs 1 0 self.old.disk.inner self.new.disk.inner ⊎ SavesWrites file_writes file_syncs 0 1 self.old.disk.inner self.new.disk.inner) }
        ensures failures { MatchResult result (λ _. self.new.disk.inner.calls.failures ≡ self.old.disk.inner.calls.failures)
            (λ fault. (self.new.disk.inner.calls.failures ≡ (self.old.disk.inner.calls.failures + 1) % 2 ^ 64)
            × buffered_gave file_gave self.new.disk.inner fault Sync 0 (size (buffered_content file_content self.new.disk.inner))) }
        ensures last { IfErr result (λ fault. self.new.last ≡ Some (record { call = record { call = fault.inner.call; at = fault.inner.at }; error = fault.inner.error })) }
    {
        match self.disk.sync() {
            Ok(()) => Ok(()),
            Err(fault) => Err(self.keep(fault)),
        }
    }
}

impl WatchedFile<'_> {
    // Keeps which call on the file failed with this fault, and returns the fault.
    fn keep(&mut self, fault: FileFault) -> FileFault
        ensures fault { result ≡ fault }
        ensures disk { self.new.disk ≡ self.old.disk }
        ensures last { self.new.last ≡ Some (record { call = record { call = fault.inner.call; at = fault.inner.at }; error = fault.inner.error }) }
    {
        let failure = failure_of(&fault);
        if self.reports_at_once && self.last.is_none() {
            self.progress.end();
            self.errors
                .tell("", &Urgent::FailedStore(failure, self.shard));
        }
        self.last = Some(failure);
        fault
    }
}

// The call on the file that failed with this fault. It may be a write of bytes that were buffered before.
fn failure_of(fault: &FileFault) -> Failure
    ensures { result ≡ record { call = record { call = fault.now.inner.call; at = fault.now.inner.at }; error = fault.now.inner.error } }
{
    Failure {
        call: fault.inner().call(),
        error: fault.inner().error(),
    }
}

impl Watched for WatchedFile<'_> {
    ghost use Rattle.std.specs.Prelude.{⊤};

    ghost last_failure = { λ watched. watched.last };

    ghost kept_read = { λ _ _. ⊤ };

    fn last_failure(&self) -> Option<Failure> {
        self.last
    }

    fn failed_read(&self) -> Option<Failure> {
        self.first_read.get().copied()
    }

    fn report_at_once(&mut self, shard: Option<u32>) {
        self.reports_at_once = true;
        self.shard = shard;
    }
}

impl Served for WatchedFile<'_> {
    fn answer_on(core: &mut Core<Self>, alloc: Global, event: &Event) -> Reply<()> {
        core.answer(alloc, event).plain()
    }

    fn facts_on(core: &Core<Self>) -> Facts {
        core.facts()
    }
}

impl Viewed for WatchedFile<'_> {
    fn geometry_in(core: &Core<Self>) -> Geometry {
        core.geometry()
    }

    fn facts_in(core: &Core<Self>) -> Facts {
        core.facts()
    }

    fn named_in(core: &Core<Self>) -> (Body, Digests) {
        core.named()
    }

    fn note_in(core: &Core<Self>, moment: &mut Moment) -> Result<(), ReadFault<Self::Fault>> {
        moment.note(core)
    }

    fn read_in(core: &Core<Self>, at: u64, buf: &mut [u8]) -> Result<(), ReadFault<Self::Fault>> {
        read_within(core, at, buf)
    }
}

impl Tended for WatchedFile<'_> {
    fn tend_on(core: &mut Core<Self>, alloc: Global, least: Option<u32>) -> Option<Refusal<()>> {
        tend_plain(alloc, core, least)
    }
}

/// The files of a source, each a disk that keeps which of its calls failed.
#[derive(Drop)]
pub struct WatchedFiles<'a, S> {
    files: S,
    errors: Stderr,
    progress: &'a Progress,
}

impl<'a, S> WatchedFiles<'a, S> {
    /// The files of this source. A disk that reports at once does so on this standard error, and this progress shows how far
    /// its opening is.
    pub fn new(files: S, errors: Stderr, progress: &'a Progress) -> WatchedFiles<'a, S>
        ensures { result.files ≡ files }
    {
        WatchedFiles {
            files,
            errors,
            progress,
        }
    }
}

// The disk in a file, with no failed call.
fn watched(disk: FileDisk, errors: Stderr, progress: &Progress) -> WatchedFile<'_>
    ensures { (result.disk ≡ disk) × (result.last ≡ None) }
{
    WatchedFile {
        disk,
        first_read: OnceLock::new(),
        last: None,
        errors,
        reports_at_once: false,
        shard: None,
        progress,
    }
}

impl<'a, S: DiskSources<Disk = FileDisk>> DiskSources for WatchedFiles<'a, S> {
    fn another(&self) -> Self {
        WatchedFiles {
            files: self.files.another(),
            errors: self.errors,
            progress: self.progress,
        }
    }
}

impl<'a, S: DiskSource<Disk = FileDisk>> DiskSource for WatchedFiles<'a, S> {
    type Disk = WatchedFile<'a>;

    type Error = S::Error;

    ghost opened = { λ source path watched. S.opened source.files path watched.disk };

    ghost not_opened = { λ source path error. S.not_opened source.files path error };

    ghost shared = { λ source path watched. S.shared source.files path watched.disk };

    ghost not_shared = { λ source path error. S.not_shared source.files path error };

    ghost found = { λ source path watched. S.found source.files path watched.disk };

    ghost not_found = { λ source path error. S.not_found source.files path error };

    ghost resized = { λ old len new. S.resized old.disk len new.disk };

    ghost not_resized = { λ old len error. S.not_resized old.disk len error };

    ghost filled = { λ old len new. S.filled old.disk len new.disk };

    ghost not_filled = { λ old len error. S.not_filled old.disk len error };

    fn open(self, path: &str) -> Result<WatchedFile<'a>, S::Error> {
        let disk = self.files.open(path)?;
        Ok(watched(disk, self.errors, self.progress))
    }

    fn open_shared(self, path: &str) -> Result<WatchedFile<'a>, S::Error> {
        let disk = self.files.open_shared(path)?;
        Ok(watched(disk, self.errors, self.progress))
    }

    fn find(&self, path: &str) -> Result<WatchedFile<'a>, S::Error> {
        let disk = self.files.find(path)?;
        Ok(watched(disk, self.errors, self.progress))
    }

    fn fill(
        self,
        path: &str,
        disk: WatchedFile<'a>,
        len: u64,
    ) -> Result<WatchedFile<'a>, S::Error> {
        let file = self.files.fill(path, disk.disk, len)?;
        Ok(watched(file, disk.errors, disk.progress))
    }

    fn resize(alloc: Global, disk: WatchedFile<'a>, len: u64) -> Result<WatchedFile<'a>, S::Error> {
        let file = S::resize(alloc, disk.disk, len)?;
        Ok(watched(file, disk.errors, disk.progress))
    }
}
