// The merge of the hash stores and the sorted store into a new sorted store, one slot or one key a step.
ghost use Rattle.std.specs.Prelude.{◌≡◌, ◌<◌, ◌≤◌, ◌-◌, ◌^◌, [], length, false, true, None, Some, Err, IsSome, IsTrue, IfOk, IfErr, IfSome, IsSomeAnd, OnErr, OnOk};
ghost use Rattle.silt_hasher.specs.Taking.{taken_after};
ghost use Rattle.silt_event.specs.declared.progress.Progress.TheVariants.{Finished, Moved};
ghost use Rattle.silt_engine.specs.Calls.{BreaksOff, Works};
ghost use Rattle.silt_engine.specs.declared.merge.MergeError.TheVariants.{Damaged};
ghost use Rattle.silt_event.specs.declared.place.Place.{Place};
ghost use Rattle.silt_engine.specs.Conversion.{is_work};
ghost use Rattle.silt_engine.specs.Digests.{merged_digests};
ghost use Rattle.silt_engine.specs.Merge.{EndsMerge, EndsMerged, HasMergedEntries, MayStandFor, MergeErrorCause, Merges, SealsMerge, WorksOfMerge, damaged_in, merge_turn, merged_body, puts_in, sorted_replaced};
ghost use Rattle.silt_sorted_store.specs.Index.{IndexedState};
ghost use Rattle.silt_standing.specs.State.{AreWhole, EngineState};
ghost use Rattle.silt_standing.specs.Standing.{Stands};

use crate::digests::digests_with;
use crate::engine::{Engine, LAST_GENERATION};
use silt_disk::Disk;
use silt_event::{Place, Progress};
use silt_frame::Digest;
use silt_hash_store::HashStore;
use silt_hasher::LentBytes;
use silt_manifest::{Body, Digests, Manifest};
use silt_merge::{Merge, StepError};
use std::alloc::{AllocError, Global};

/// Why a step of merging was not done.
#[derive(Debug, Drop)]
pub enum MergeError<F> {
    /// The manifest must be written, and the current record has the last generation. Nothing was changed.
    Spent,
    /// Out of memory for a row that waits for its key, for a key of the new sorted store, or for what the merge or that
    /// store keeps. Nothing was changed.
    NoMemory,
    /// The merge has found this store damaged: what was read of it does not have the store's digest. Nothing was changed.
    Damaged(Place),
    /// A read failed. Nothing was changed.
    Read(F),
    /// A write or a sync failed.
    Write(F),
}

impl<F> From<StepError<F>> for MergeError<F> {
    ghost from_gives = { λ error merged. merged ≡ Rattle.silt_engine.specs.Merge.refusal_of_step error };

    fn from(error: StepError<F>) -> Self {
        match error {
            StepError::NoMemory => MergeError::NoMemory,
            StepError::Damaged(place) => MergeError::Damaged(place),
            StepError::Read(fault) => MergeError::Read(fault),
            StepError::Write(fault) => MergeError::Write(fault),
        }
    }
}

// The record without this many of the oldest hash stores, and with this many entries in this sorted region.
fn merged_body(body: &Body, count: usize, region: u32, written: u32) -> Body
    requires count { count ≤ length body.now.hashed }
    requires unspent { body.now.generation < 2 ^ 63 - 1 }
    ensures { result ≡ merged_body body.now count region written }
{
    let mut hashed = body.hashed;
    hashed.truncate(body.hashed.len() - count);
    Body {
        generation: body.generation + 1,
        hashed,
        sorted: region,
        sorted_count: written,
        ..*body
    }
}

// A charge without the puts of these hash stores.
fn without_puts(charge: u32, stores: &[HashStore]) -> u32
    ensures { result ≡ charge - puts_in stores.now }
{
    let mut left = charge;
    for store in stores {
        left = left.saturating_sub(store.puts());
    }
    left
}

impl Engine {
    /// The progress that the next step of merging makes, if nothing refuses it.
    pub fn merge_turn(&self) -> Progress
        ensures { result ≡ merge_turn self.now }
    {
        match &self.merging {
            Some(merge) if merge.is_done(self.sorted.entries()) => Progress::Finished,
            Some(_) => Progress::Moved,
            None if self.hashes.is_empty() => Progress::Idle,
            None => Progress::Moved,
        }
    }

    /// Lends bytes that the merge in progress has read and not hashed yet, if they are 16 KiB or more, to be hashed
    /// elsewhere. Returns whether it did.
    pub fn lend_unhashed(&self, lent: &mut LentBytes) -> bool
        ensures all { result ≡ true → IsSomeAnd self.now.merging (λ merge. merge.input ≡ taken_after lent.new.before lent.new.bytes) }
        ensures none { result ≡ false → lent.new.bytes ≡ [] }
        ensures unhashed { lent.new.after ≡ None }
    {
        let Some(merge) = &self.merging else {
            lent.clear();
            return false;
        };
        merge.lend(lent)
    }

    /// Takes what was hashed elsewhere. If the merge in progress does not wait for it, nothing changes.
    pub fn take_hashed(&mut self, lent: &LentBytes)
        ensures { self.new ≡ self.old }
    {
        if let Some(merge) = &mut self.merging {
            merge.take_back(lent);
        }
    }

    // Begins the merge of all hash stores and the sorted store into the other sorted region, and does its first step.
    fn begin_merge<D: Disk>(
        &mut self,
        alloc: Global,
        disk: &mut D,
    ) -> Result<Progress, MergeError<D::Fault>>
        requires stands { Stands (D.content disk.old) self.old }
        requires none { self.old.merging ≡ None }
        ensures works { WorksOfMerge D.Disk disk.old disk.new self.old self.new result }
        ensures merges { IfOk result (λ progress. Merges progress self.old self.new) }
        ensures moves { IfOk result (λ progress. progress ≡ Finished → ⊥) }
        ensures quiet { IfOk result (λ progress. is_work progress ≡ false → disk.new ≡ disk.old) }
        ensures err { IfErr result (MergeErrorCause D.Disk disk.old disk.new self.old self.new) }
    {
        if self.hashes.is_empty() {
            return Ok(Progress::Idle);
        }
        let _known = self.manifest.current(); // so there are no more hash stores than regions
        let _known = self.manifest.geometry().hashes(); // and at most 16 regions
        let region = 1 - self.sorted.region();
        let sorted = self.sorted.entries();
        let Ok(mut merge) = Merge::start(alloc, &self.hashes, sorted, region) else {
            return Err(MergeError::NoMemory);
        };
        merge.step(&self.hashes, sorted, self.sorted.digest(), disk)?;
        self.merging = Some(merge);
        Ok(Progress::Moved)
    }

    // Gathers the next slot, or decides the next key.
    fn step_merge<D: Disk>(&mut self, disk: &mut D) -> Result<Progress, MergeError<D::Fault>>
        requires stands { Stands (D.content disk.old) self.old }
        requires some { IsSome self.old.merging }
        requires turn { merge_turn self.old ≡ Moved }
        ensures works { WorksOfMerge D.Disk disk.old disk.new self.old self.new result }
        ensures merges { IfOk result (λ progress. Merges progress self.old self.new) }
        ensures moves { IfOk result (λ progress. progress ≡ Moved) }
        ensures err { IfErr result (MergeErrorCause D.Disk disk.old disk.new self.old self.new) }
    {
        let Some(merge) = &mut self.merging else {
            unreachable!()
        };
        merge.step(
            &self.hashes,
            self.sorted.entries(),
            self.sorted.digest(),
            disk,
        )?;
        Ok(Progress::Moved)
    }

    // Takes a manifest that names the sorted store of the merge, whose index is made and whose bytes have this digest. It replaces the
    // old one and the hash stores that were merged. Its entries count, and their puts no longer do.
    fn replace_sorted(&mut self, manifest: Manifest, digest: Digest)
        requires { (store : IndexedState) × (store.digest ≡ digest.0) × MayStandFor self.old manifest store }
        ensures replaced { (store : IndexedState) → store.digest ≡ digest.0 → MayStandFor self.old manifest store
            → IfSome self.old.merging (λ merge. self.new ≡ sorted_replaced self.old manifest merge.stores store) }
        ensures whole { AreWhole self.new }
    {
        let Some(merge) = self.merging.take() else {
            unreachable!()
        };
        let newer = self.hashes.len() - merge.stores() as usize;
        let sorted = merge.into_store(digest);
        let left = without_puts(self.charge, &self.hashes[newer..]).saturating_sub(
            self.sorted.len(),
        );
        let gone = self.charge - left;
        self.charge -= gone.saturating_sub(sorted.len()); // no more than went away, on an honest disk
        self.hashes.truncate(newer);
        self.sorted = sorted;
        self.manifest = manifest;
    }

    // The digests of the stores without this many of the oldest hash stores, and with a sorted store of this digest.
    fn merged_digests(&self, count: usize, sorted: Digest) -> Digests
        requires { count ≤ length self.now.hashes }
        ensures { result ≡ merged_digests self.now count sorted.0 }
    {
        let _known = self.manifest.current(); // so there are no more hash stores than regions
        let _known = self.manifest.geometry().hashes(); // and at most 16 regions
        let newer = &self.hashes[..self.hashes.len() - count];
        digests_with(None, newer, sorted)
    }

    // Ends the merge, all of whose keys are decided and whose index is made: syncs the entries, and then has the manifest name the new
    // sorted store, with this digest and those of the hash stores that stay.
    fn end_merge<D: Disk>(
        &mut self,
        disk: &mut D,
        body: &Body,
        digests: &Digests,
        digest: Digest,
    ) -> Result<(), D::Fault>
        requires stands { Stands (D.content disk.old) self.old }
        requires ends { (store : IndexedState) × (store.digest ≡ digest.0) × EndsMerge self.old body.now digests.now store }
        ensures works { Works D.Disk [] 3 4 disk.old disk.new self.old self.new result }
        ensures ends { OnOk result (EndsMerged self.old self.new) }
        ensures entries { OnOk result (IsTrue (D.content disk.old).honest → HasMergedEntries (D.content disk.old) (D.content disk.new) self.old self.new) }
        ensures err { IfErr result (BreaksOff D.Disk disk.old disk.new self.old self.new) }
    {
        self.settle_work(disk)?;
        let manifest = self.change_manifest(disk, body, digests)?;
        self.replace_sorted(manifest, digest);
        Ok(())
    }

    // Makes the index of the merge in progress. After an error nothing has changed.
    fn seal_merge(&mut self) -> Result<(), AllocError>
        requires { IsSome self.old.merging }
        ensures made { OnOk result (SealsMerge self.old self.new) }
        ensures err { OnErr result (self.new ≡ self.old) }
    {
        let Some(merge) = &mut self.merging else {
            unreachable!()
        };
        merge.seal()?;
        Ok(())
    }

    // Finishes the merge, all of whose keys are decided and whose index is made.
    fn finish_sealed<D: Disk>(&mut self, disk: &mut D) -> Result<(), D::Fault>
        requires stands { Stands (D.content disk.old) self.old }
        requires turn { merge_turn self.old ≡ Finished }
        requires sound { damaged_in self.old.merging ≡ None }
        requires unspent { self.old.manifest.current.generation < 2 ^ 63 - 1 }
        requires sealed { (before : EngineState) × SealsMerge before self.old }
        ensures works { Works D.Disk [] 3 4 disk.old disk.new self.old self.new result }
        ensures ends { OnOk result (EndsMerged self.old self.new) }
        ensures entries { OnOk result (IsTrue (D.content disk.old).honest → HasMergedEntries (D.content disk.old) (D.content disk.new) self.old self.new) }
        ensures err { IfErr result (BreaksOff D.Disk disk.old disk.new self.old self.new) }
    {
        let Some(merge) = &self.merging else {
            unreachable!()
        };
        let count = merge.stores() as usize;
        let entries = merge.entries();
        let digest = merge.digest();
        let current = self.manifest.current();
        let body = merged_body(&current, count, entries.region(), entries.len());
        let digests = self.merged_digests(count, digest);
        self.end_merge(disk, &body, &digests, digest)
    }

    // Finishes the merge, all of whose keys are decided, if the manifest has a generation left. The index of the new
    // entries is made first, so if memory runs out the merge is as it was.
    fn finish_merge<D: Disk>(&mut self, disk: &mut D) -> Result<Progress, MergeError<D::Fault>>
        requires stands { Stands (D.content disk.old) self.old }
        requires turn { merge_turn self.old ≡ Finished }
        requires sound { damaged_in self.old.merging ≡ None }
        ensures works { Works D.Disk [] 3 4 disk.old disk.new self.old self.new result }
        ensures merges { IfOk result (λ progress. Merges progress self.old self.new) }
        ensures entries { OnOk result (IsTrue (D.content disk.old).honest → HasMergedEntries (D.content disk.old) (D.content disk.new) self.old self.new) }
        ensures finishes { IfOk result (λ progress. progress ≡ Finished) }
        ensures err { IfErr result (MergeErrorCause D.Disk disk.old disk.new self.old self.new) }
    {
        let current = self.manifest.current();
        if current.generation == LAST_GENERATION {
            return Err(MergeError::Spent);
        }
        let Ok(()) = self.seal_merge() else {
            return Err(MergeError::NoMemory);
        };
        match self.finish_sealed(disk) {
            Ok(()) => Ok(Progress::Finished),
            Err(fault) => Err(MergeError::Write(fault)),
        }
    }

    // The store that the merge in progress has found damaged, if there is one.
    fn found_damaged(&self) -> Option<Place>
        ensures { result ≡ damaged_in self.now.merging }
    {
        let Some(merge) = &self.merging else {
            return None;
        };
        merge.damaged()
    }

    // One step of merging, if the merge in progress has found no store damaged.
    fn merge_on<D: Disk>(
        &mut self,
        alloc: Global,
        disk: &mut D,
    ) -> Result<Progress, MergeError<D::Fault>>
        requires stands { Stands (D.content disk.old) self.old }
        requires sound { damaged_in self.old.merging ≡ None }
        ensures works { WorksOfMerge D.Disk disk.old disk.new self.old self.new result }
        ensures merges { IfOk result (λ progress. Merges progress self.old self.new) }
        ensures entries { IfOk result (λ progress. progress ≡ Finished → IsTrue (D.content disk.old).honest → HasMergedEntries (D.content disk.old) (D.content disk.new) self.old self.new) }
        ensures quiet { IfOk result (λ progress. is_work progress ≡ false → disk.new ≡ disk.old) }
        ensures err { IfErr result (MergeErrorCause D.Disk disk.old disk.new self.old self.new) }
    {
        let Some(merge) = &self.merging else {
            return self.begin_merge(alloc, disk);
        };
        if merge.is_done(self.sorted.entries()) {
            return self.finish_merge(disk);
        }
        self.step_merge(disk)
    }
    /// One step of merging. If none is in progress, and there are hash stores, the merge of all of them and of the
    /// sorted store into the other sorted region begins. A step gathers one slot of a hash store, or decides one key.
    /// The step after the last key syncs the entries and writes the next manifest record. It names the new sorted
    /// store, and the merged hash stores no longer. A hash store that came meanwhile stays in front. With the last slot of
    /// a hash store and with the last old entry, what was read must have the digest that the store has. If it has another one,
    /// the merge remembers that the store is damaged, and each later step is refused.
    ///
    /// # Errors
    ///
    /// `Damaged` before anything else, if the merge in progress has found a store damaged; `Spent`, if the manifest must be
    /// written; `Read` and `NoMemory`: nothing was changed. `Write` with the fault of a write or of a sync. On a disk that
    /// obeys the crash model `Damaged` cannot come.
    pub fn merge<D: Disk>(
        &mut self,
        alloc: Global,
        disk: &mut D,
    ) -> Result<Progress, MergeError<D::Fault>>
        requires stands { Stands (D.content disk.old) self.old }
        ensures works { WorksOfMerge D.Disk disk.old disk.new self.old self.new result }
        ensures merges { IfOk result (λ progress. Merges progress self.old self.new) }
        ensures entries { IfOk result (λ progress. progress ≡ Finished → IsTrue (D.content disk.old).honest → HasMergedEntries (D.content disk.old) (D.content disk.new) self.old self.new) }
        ensures quiet { IfOk result (λ progress. is_work progress ≡ false → disk.new ≡ disk.old) }
        ensures err { IfErr result (MergeErrorCause D.Disk disk.old disk.new self.old self.new) }
        ensures stuck { (place : Place) → damaged_in self.old.merging ≡ Some place → result ≡ Err (Damaged place) }
    {
        match self.found_damaged() {
            Some(place) => Err(MergeError::Damaged(place)),
            None => self.merge_on(alloc, disk),
        }
    }
}
