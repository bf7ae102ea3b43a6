// The conversion of the oldest frozen log into a hash store, one slot a step.
ghost use Rattle.std.specs.Prelude.{◌≡◌, ◌<◌, ◌*◌, ◌-◌, ◌^◌, [], length, false, true, None, IsSome, IsTrue, IfOk, IfErr, IfSome, IfNone, OnOk};
ghost use Rattle.silt_disk.specs.Disk.{Rests};
ghost use Rattle.silt_disk.specs.Layout.{most_hashes};
ghost use Rattle.silt_engine.specs.Calls.{BreaksOff, Works};
ghost use Rattle.silt_engine.specs.Conversion.{AreAllHashesNamed, ConvertErrorCause, Converts, EndsConversion, Finishes, HasConvertedRows, IsLowestFreeHash};
ghost use Rattle.silt_engine.specs.Conversion.{MayReplace, ReplacesOldest, convert_turn, converted_body, is_work};
ghost use Rattle.silt_engine.specs.Costs.{step_syncs, step_writes};
ghost use Rattle.silt_event.specs.declared.progress.Progress.TheVariants.{Finished, Moved};
ghost use Rattle.silt_standing.specs.State.{AreWhole, names_hash};
ghost use Rattle.silt_standing.specs.Standing.{Stands, shown_stores};

use crate::digests::digests_with;
use crate::engine::{Engine, LAST_GENERATION};
use silt_conversion::{Conversion, StepError};
use silt_disk::Disk;
use silt_event::Progress;
use silt_manifest::{Body, Digests, Manifest};
use std::alloc::Global;

/// Why a step of conversion was not done.
#[derive(Debug, Drop)]
pub enum ConvertError<F> {
    /// The manifest must be written, and the current record has the last generation. Nothing was changed.
    Spent,
    /// Out of memory for the tags of the hash store or the bytes of a row. Nothing was changed.
    NoMemory,
    /// A read failed. Nothing was changed.
    Read(F),
    /// A write or a sync failed.
    Write(F),
}

impl<F> From<StepError<F>> for ConvertError<F> {
    ghost from_gives = { λ error converted. converted ≡ Rattle.silt_engine.specs.Conversion.refusal_of_step error };

    fn from(error: StepError<F>) -> Self {
        match error {
            StepError::Read(fault) => ConvertError::Read(fault),
            StepError::Write(fault) => ConvertError::Write(fault),
        }
    }
}

// Whether a hash store of the body has this region.
fn names_hash(body: &Body, region: u32) -> bool
    ensures { result ≡ names_hash body.now region }
{
    body.hashed.as_slice().contains(&region)
}

// The lowest of this many hash regions that the record does not name.
fn lowest_free_hash(hashes: u32, body: &Body) -> Option<u32>
    ensures none { IfNone result (AreAllHashesNamed hashes body.now) }
    ensures some { IfSome result (IsLowestFreeHash hashes body.now) }
{
    for region in 0..hashes {
        if !names_hash(body, region) {
            return Some(region);
        }
    }
    None
}

// The body without the oldest frozen log, and with this hash region in front of the others.
fn converted_body(body: &Body, region: u32) -> Body
    requires frozen { 0 < length body.now.frozen }
    requires hashed { length body.now.hashed < most_hashes }
    requires unspent { body.now.generation < 2 ^ 63 - 1 }
    ensures { result ≡ converted_body body.now region }
{
    let mut frozen = body.frozen;
    frozen.truncate(body.frozen.len() - 1);
    let mut hashed = body.hashed;
    hashed.push_front(region);
    Body {
        generation: body.generation + 1,
        frozen,
        hashed,
        ..*body
    }
}

impl Engine {
    /// The progress that the next step of conversion makes, if nothing refuses it.
    pub fn convert_turn(&self) -> Progress
        ensures { result ≡ convert_turn self.now }
    {
        let geometry = self.manifest.geometry();
        match &self.converting {
            Some(conversion) if conversion.is_done() => Progress::Finished,
            Some(_) => Progress::Moved,
            None if self.frozen.is_empty() => Progress::Idle,
            None if self.hashes.len() == geometry.hashes() as usize => Progress::Waiting,
            None => Progress::Moved,
        }
    }

    // Begins the conversion of the oldest frozen log into the lowest free hash region, and writes its first slot.
    fn begin_conversion<D: Disk>(
        &mut self,
        alloc: Global,
        disk: &mut D,
    ) -> Result<Progress, ConvertError<D::Fault>>
        requires stands { Stands (D.content disk.old) self.old }
        requires none { self.old.converting ≡ None }
        ensures works { Works D.Disk [] (step_writes (convert_turn self.old)) (step_syncs (convert_turn self.old)) disk.old disk.new self.old self.new result }
        ensures converts { IfOk result (λ progress. Converts progress self.old self.new) }
        ensures moves { IfOk result (λ progress. progress ≡ Finished → ⊥) }
        ensures quiet { IfOk result (λ progress. is_work progress ≡ false → disk.new ≡ disk.old) }
        ensures err { IfErr result (ConvertErrorCause D.Disk disk.old disk.new self.old self.new) }
    {
        let Some(oldest) = self.frozen.last() else {
            return Ok(Progress::Idle);
        };
        let geometry = self.manifest.geometry();
        let Some(region) = lowest_free_hash(geometry.hashes(), &self.manifest.current()) else {
            return Ok(Progress::Waiting);
        };
        let Ok(mut conversion) = Conversion::start(alloc, oldest, region) else {
            return Err(ConvertError::NoMemory);
        };
        conversion.step(oldest, disk)?;
        self.converting = Some(conversion);
        Ok(Progress::Moved)
    }

    // Writes the next slot, from the oldest log.
    fn step_conversion<D: Disk>(&mut self, disk: &mut D) -> Result<Progress, ConvertError<D::Fault>>
        requires stands { Stands (D.content disk.old) self.old }
        requires some { IsSome self.old.converting }
        requires turn { convert_turn self.old ≡ Moved }
        ensures works { Works D.Disk [] 1 0 disk.old disk.new self.old self.new result }
        ensures converts { IfOk result (λ progress. Converts progress self.old self.new) }
        ensures moves { IfOk result (λ progress. progress ≡ Moved) }
        ensures err { IfErr result (ConvertErrorCause D.Disk disk.old disk.new self.old self.new) }
    {
        let Some(conversion) = &mut self.converting else {
            unreachable!()
        };
        let Some(log) = self.frozen.last() else {
            unreachable!()
        };
        conversion.step(log, disk)?;
        Ok(Progress::Moved)
    }

    // Syncs what a conversion or a merge has written, so that each possible crash image has it.
    pub(crate) fn settle_work<D: Disk>(&self, disk: &mut D) -> Result<(), D::Fault>
        requires stands { Stands (D.content disk.old) self.now }
        ensures works { Works D.Disk [] 0 1 disk.old disk.new self.now self.now result }
        ensures rests { OnOk result (Rests (D.content disk.new)) }
        ensures stores { OnOk result (IsTrue (D.content disk.old).honest → shown_stores (D.content disk.new) self.now ≡ shown_stores (D.content disk.old) self.now) }
        ensures err { IfErr result (BreaksOff D.Disk disk.old disk.new self.now self.now) }
    {
        disk.sync()?;
        Ok(())
    }

    // Takes a manifest that names the hash store of the conversion. The hash store comes in front of the others, and
    // the oldest log goes. The puts that went away no longer count.
    fn replace_oldest(&mut self, manifest: Manifest)
        requires { MayReplace self.old manifest }
        ensures replaced { IfSome self.old.converting (ReplacesOldest self.old manifest self.new) }
        ensures whole { AreWhole self.new }
    {
        let Some(conversion) = self.converting.take() else {
            unreachable!()
        };
        let Some(oldest) = self.frozen.pop() else {
            unreachable!()
        };
        let dropped = oldest.puts().saturating_sub(conversion.puts()); // no more than there are, on an honest disk
        self.charge = self.charge.saturating_sub(dropped);
        let Ok(()) = self.hashes.insert(0, conversion.into_store()) else {
            unreachable!()
        };
        self.manifest = manifest;
    }

    // Ends the conversion, all of whose slots are written: syncs them, and then has the manifest name the hash store, with its digest
    // in front of the others.
    fn end_conversion<D: Disk>(
        &mut self,
        disk: &mut D,
        body: &Body,
        digests: &Digests,
    ) -> Result<(), D::Fault>
        requires stands { Stands (D.content disk.old) self.old }
        requires ends { EndsConversion self.old body.now digests.now }
        ensures works { Works D.Disk [] 3 4 disk.old disk.new self.old self.new result }
        ensures finishes { OnOk result (Finishes self.old self.new) }
        ensures rows { OnOk result (IsTrue (D.content disk.old).honest → HasConvertedRows (D.content disk.old) (D.content disk.new) self.old self.new) }
        ensures err { IfErr result (BreaksOff D.Disk disk.old disk.new self.old self.new) }
    {
        self.settle_work(disk)?;
        let manifest = self.change_manifest(disk, body, digests)?;
        self.replace_oldest(manifest);
        Ok(())
    }

    // Finishes the conversion, all of whose slots are written, if the manifest has a generation left.
    fn finish_conversion<D: Disk>(
        &mut self,
        disk: &mut D,
    ) -> Result<Progress, ConvertError<D::Fault>>
        requires stands { Stands (D.content disk.old) self.old }
        requires turn { convert_turn self.old ≡ Finished }
        ensures works { Works D.Disk [] 3 4 disk.old disk.new self.old self.new result }
        ensures converts { IfOk result (λ progress. Converts progress self.old self.new) }
        ensures rows { OnOk result (IsTrue (D.content disk.old).honest → HasConvertedRows (D.content disk.old) (D.content disk.new) self.old self.new) }
        ensures err { IfErr result (ConvertErrorCause D.Disk disk.old disk.new self.old self.new) }
    {
        let current = self.manifest.current();
        if current.generation == LAST_GENERATION {
            return Err(ConvertError::Spent);
        }
        let Some(conversion) = &self.converting else {
            unreachable!()
        };
        let _known = self.manifest.geometry().hashes(); // so that the body has room for one hash store more
        let body = converted_body(&current, conversion.region());
        let sorted = *self.sorted.digest();
        let digests = digests_with(Some(conversion.digest()), &self.hashes, sorted);
        match self.end_conversion(disk, &body, &digests) {
            Ok(()) => Ok(Progress::Finished),
            Err(fault) => Err(ConvertError::Write(fault)),
        }
    }

    /// One step of conversion. If none is in progress, and there are a frozen log and a free hash region, the
    /// conversion of the oldest log into the lowest such region begins. Each step writes one slot. The step after the
    /// last slot syncs the slots and writes the next manifest record. It names the hash store in front of the others,
    /// and the log no longer.
    ///
    /// # Errors
    ///
    /// `Spent` before anything else, if the manifest must be written; then `NoMemory`, if a conversion begins; `Read`,
    /// and then nothing was changed; `Write` with the fault of a write or of a sync.
    pub fn convert<D: Disk>(
        &mut self,
        alloc: Global,
        disk: &mut D,
    ) -> Result<Progress, ConvertError<D::Fault>>
        requires stands { Stands (D.content disk.old) self.old }
        ensures works { Works D.Disk [] (step_writes (convert_turn self.old)) (step_syncs (convert_turn self.old)) disk.old disk.new self.old self.new result }
        ensures converts { IfOk result (λ progress. Converts progress self.old self.new) }
        ensures rows { IfOk result (λ progress. progress ≡ Finished → IsTrue (D.content disk.old).honest → HasConvertedRows (D.content disk.old) (D.content disk.new) self.old self.new) }
        ensures quiet { IfOk result (λ progress. is_work progress ≡ false → disk.new ≡ disk.old) }
        ensures err { IfErr result (ConvertErrorCause D.Disk disk.old disk.new self.old self.new) }
    {
        let Some(conversion) = &self.converting else {
            return self.begin_conversion(alloc, disk);
        };
        if conversion.is_done() {
            return self.finish_conversion(disk);
        }
        self.step_conversion(disk)
    }
}
