// The stores of a device in memory, and their calls.
ghost use Rattle.std.specs.Prelude.{vec_capacity, ◌≡◌, ◌*◌, ◌<◌, ◌≤◌, [], None, IfOk, IfErr, OnOk, is_some, length};
ghost use Rattle.silt_disk.specs.Layout.{most_frozen, most_hashes, sector, slot_at};
ghost use Rattle.silt_disk.specs.Wrote.{WroteOr};
ghost use Rattle.silt_engine.specs.Costs.{row_waits};
ghost use Rattle.silt_manifest.specs.Standing.{spare_slot};

use silt_conversion::Conversion;
use silt_disk::{Disk, Geometry};
use silt_hash_store::HashStore;
use silt_log_store::LogStore;
use silt_manifest::{Body, Digests, Manifest};
use silt_merge::Merge;
use silt_sorted_store::SortedStore;
use std::marker::Model;

// The generation after which there is none.
pub(crate) const LAST_GENERATION: u64 = (1 << 63) - 1;

/// The stores of a device: the manifest, the active log, the frozen logs, the hash stores, the sorted store, the
/// conversion and the merge in progress, and how many put rows there are.
#[derive(Drop)]
pub struct Engine {
    pub(crate) manifest: Manifest,
    pub(crate) active: LogStore,
    // The full logs, the newest first.
    pub(crate) frozen: Vec<LogStore>,
    // The newest first.
    pub(crate) hashes: Vec<HashStore>,
    pub(crate) sorted: SortedStore,
    // Of the oldest frozen log.
    pub(crate) converting: Option<Conversion>,
    // Of the oldest hash stores and the sorted store.
    pub(crate) merging: Option<Merge>,
    // How many put rows there are, those that wait included.
    pub(crate) charge: u32,
}

impl Model for Engine {
    ghost use Rattle.std.specs.Prelude.{vec_capacity};
    ghost use Rattle.silt_standing.specs.State.{EngineState, AreHeld};

    ghost Value = { EngineState };

    ghost view = { λ a. record {
      manifest = a.manifest;
      active = a.active;
      frozen = a.frozen.items;
      hashes = a.hashes.items;
      sorted = a.sorted.sorted;
      index = a.sorted.index;
      digest = a.sorted.digest;
      converting = a.converting;
      merging = a.merging;
      charge = a.charge;
    } };

    ghost invariant = { λ a. AreHeld (record {
      manifest = a.manifest;
      active = a.active;
      frozen = a.frozen.items;
      hashes = a.hashes.items;
      sorted = a.sorted.sorted;
      index = a.sorted.index;
      digest = a.sorted.digest;
      converting = a.converting;
      merging = a.merging;
      charge = a.charge;
    }) (vec_capacity a.frozen) (vec_capacity a.hashes) };
}

impl Engine {
    ghost use Rattle.silt_standing.specs.State.{EngineState, AreHeld, AreWhole};
    ghost use Rattle.silt_standing.specs.Standing.{IsQuiet, Stands};
    ghost use Rattle.silt_engine.specs.Calls.{BreaksOff, Remaps, ChangesOnlyActive, Works};
    ghost use Rattle.silt_engine.specs.Succession.{MayBecomeCurrent, BecomesCurrent};

    /// The stores with these parts. The frozen logs and the hash stores are in order from the newest, in `Vec`s with
    /// room for seven and for sixteen. No conversion and no merge is in progress.
    pub fn new(
        manifest: Manifest,
        active: LogStore,
        frozen: Vec<LogStore>,
        hashes: Vec<HashStore>,
        sorted: SortedStore,
        charge: u32,
    ) -> Self
        requires whole { AreWhole (record {
          manifest = manifest;
          active = active;
          frozen = frozen.items;
          hashes = hashes.items;
          sorted = sorted.sorted;
          index = sorted.index;
          digest = sorted.digest;
          converting = None;
          merging = None;
          charge = charge;
        }) }
        requires room { most_frozen ≤ vec_capacity frozen }
        requires hash_room { most_hashes ≤ vec_capacity hashes }
        ensures { result ≡ record {
          manifest = manifest;
          active = active;
          frozen = frozen.items;
          hashes = hashes.items;
          sorted = sorted.sorted;
          index = sorted.index;
          digest = sorted.digest;
          converting = None;
          merging = None;
          charge = charge;
        } }
    {
        Engine {
            manifest,
            active,
            frozen,
            hashes,
            sorted,
            converting: None,
            merging: None,
            charge,
        }
    }

    /// The six numbers of the store.
    pub fn geometry(&self) -> Geometry
        ensures value { result ≡ self.now.manifest.shape }
        ensures whole { AreWhole self.now }
    {
        self.manifest.geometry()
    }

    /// How many put rows there are, those that wait included.
    pub fn charge(&self) -> u32
        ensures value { result ≡ self.now.charge }
        ensures most { self.now.charge ≤ self.now.manifest.shape.sorted_capacity }
    {
        self.charge
    }

    /// How many hash stores there are, those of a merge in progress included.
    pub fn hash_stores(&self) -> usize
        ensures { result ≡ length self.now.hashes }
    {
        self.hashes.len()
    }

    /// Whether a merge is in progress.
    pub fn is_merging(&self) -> bool
        ensures { result ≡ is_some self.now.merging }
    {
        self.merging.is_some()
    }

    /// Settles the rows that wait: a sync, one write over their commit bytes, a sync. If none waits it makes no device call.
    ///
    /// # Errors
    ///
    /// The fault of a sync or of the write.
    pub fn flush<D: Disk>(&mut self, disk: &mut D) -> Result<(), D::Fault>
        requires { Stands (D.content disk.old) self.old }
        ensures works { Works D.Disk [] (row_waits self.old) (2 * row_waits self.old) disk.old disk.new self.old self.new result }
        ensures quiet { OnOk result (IsQuiet (D.content disk.new) self.new) }
        ensures others { ChangesOnlyActive self.old self.new }
        ensures charge { self.new.charge ≡ self.old.charge }
        ensures idle { self.old.active.log.settled ≡ self.old.active.log.used → (disk.new ≡ disk.old) × (self.new ≡ self.old) }
        ensures err { IfErr result (BreaksOff D.Disk disk.old disk.new self.old self.new) }
    {
        if !self.active.has_waiting() {
            return Ok(());
        }
        self.open_commits(disk)
    }

    // Opens the commit bytes of the rows that wait.
    fn open_commits<D: Disk>(&mut self, disk: &mut D) -> Result<(), D::Fault>
        requires waiting { self.old.active.log.settled < self.old.active.log.used }
        requires stands { Stands (D.content disk.old) self.old }
        ensures works { Works D.Disk [] 1 2 disk.old disk.new self.old self.new result }
        ensures quiet { OnOk result (IsQuiet (D.content disk.new) self.new) }
        ensures others { ChangesOnlyActive self.old self.new }
        ensures charge { self.new.charge ≡ self.old.charge }
        ensures err { IfErr result (BreaksOff D.Disk disk.old disk.new self.old self.new) }
    {
        self.active.open_commits(disk)?;
        Ok(())
    }

    // Changes the manifest of the disk: writes the next record with these digests behind a closed commit byte, and opens that
    // commit byte. In memory nothing changes until the manifest that it returns is taken, together with the stores that the
    // record names.
    pub(crate) fn change_manifest<D: Disk>(
        &self,
        disk: &mut D,
        next: &Body,
        digests: &Digests,
    ) -> Result<Manifest, D::Fault>
        requires stands { Stands (D.content disk.old) self.now }
        requires next { MayBecomeCurrent (D.content disk.old) self.now next.now digests.now }
        ensures wrote { WroteOr D.Disk (BreaksOff D.Disk disk.old disk.new self.now self.now) (slot_at (spare_slot self.now.manifest)) sector 3 3
            disk.old disk.new result }
        ensures ok { IfOk result (BecomesCurrent (D.content disk.old) (D.content disk.new) self.now next.now digests.now) }
        ensures map { OnOk result (Remaps [] (D.content disk.old) (D.content disk.new) self.now self.now) }
    {
        let _known = self.manifest.current(); // the next body is well formed as it is
        let mut manifest = self.manifest;
        manifest.prepare_next(disk, *next, *digests)?;
        manifest.commit_next(disk)?;
        Ok(manifest)
    }
}
