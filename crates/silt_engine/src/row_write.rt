// A put or a delete as a whole: a row in the active log, which is frozen first if it cannot take the row.
ghost use Rattle.std.specs.Prelude.{◌≡◌, ◌+◌, ◌*◌, ◌≤◌, [], ◌∷◌, IfOk, IfErr, OnOk, OnErr};
ghost use Rattle.silt_event.specs.Rows.{command_of};
ghost use Rattle.silt_frame.specs.Rows.{stored_row, puts_of};
ghost use Rattle.silt_log.specs.Rows.{IsRowValue};
ghost use Rattle.silt_log_store.specs.Calls.{IsFailedWrite};
ghost use Rattle.silt_standing.specs.State.{AreWhole};
ghost use Rattle.silt_standing.specs.Standing.{IsQuiet, Stands};
ghost use Rattle.silt_engine.specs.Calls.{BreaksOff, Works, WorksBy};
ghost use Rattle.silt_engine.specs.Costs.{RowMakes, freeze_syncs, freeze_writes, row_waits};
ghost use Rattle.silt_engine.specs.NextLog.{HasFrozen, IsEmptied, IsNextLog, NoNextCause, active_replaced};
ghost use Rattle.silt_engine.specs.RowWrite.{CountsRow, JoinsActive, NeedsNext, TakeCause, TurnsFor, WriteCause, WritesKey};

use crate::engine::{Engine, LAST_GENERATION};
use crate::next_log::{NextLog, NoNextLog, lowest_free, next_body};
use silt_disk::Disk;
use silt_frame::{Key, Kind};
use silt_log_store::{LogStore, TakeError};
use silt_manifest::Manifest;
use std::alloc::Global;
use std::mem;

/// Why a row was not taken.
#[derive(Debug, Drop)]
pub enum WriteError<F> {
    /// A read failed. Nothing was changed.
    Read(F),
    /// A write or a sync failed.
    Write(F),
    /// The active log cannot take the row, and every log region is in use. Nothing was changed.
    NoRoom,
    /// The active log cannot take the row, and the current manifest record has the last generation. Nothing was
    /// changed.
    Spent,
    /// The active log cannot take the row, and memory for a new one ran out. Nothing was changed.
    NoMemory,
}

impl Engine {
    /// Writes a row, which waits for a flush: into the active log, or, if that cannot take it, into a new one. The
    /// active log is then frozen behind the new one.
    ///
    /// # Errors
    ///
    /// The checks are in this order: `Read`; if the active log cannot take the row, `NoRoom`, `Spent`, `NoMemory`; then
    /// `Write` with the fault of a write or of a sync.
    pub fn write<D: Disk>(
        &mut self,
        alloc: Global,
        disk: &mut D,
        kind: Kind,
        key: &Key,
        value: &[u8],
    ) -> Result<(), WriteError<D::Fault>>
        requires stands { Stands (D.content disk.old) self.old }
        requires value { IsRowValue self.old.manifest.shape.value_len kind value.now }
        requires charge { self.old.charge + puts_of kind ≤ self.old.manifest.shape.sorted_capacity }
        ensures works { WorksBy D.Disk (λ _. RowMakes D.Disk disk.old disk.new self.old self.new) (command_of (stored_row kind key.now value.now) ∷ [])
            (freeze_writes self.old) (freeze_syncs self.old) disk.old disk.new self.old self.new result }
        ensures row { OnOk result (CountsRow self.old self.new kind) }
        ensures current { OnOk result (WritesKey (D.content disk.old) (D.content disk.new) self.old self.new key.now.0 (command_of (stored_row kind key.now value.now))) }
        ensures err { IfErr result (WriteCause D.Disk disk.old disk.new self.old self.new key.now.0) }
    {
        match self.write_active(disk, kind, key, value) {
            Ok(()) => Ok(()),
            Err(TakeError::Full) => self.write_in_next(alloc, disk, kind, key, value),
            Err(TakeError::Read(fault)) => Err(WriteError::Read(fault)),
            Err(TakeError::Write(fault)) => Err(WriteError::Write(fault)),
        }
    }

    // Writes a row behind the others of the active log, where it waits for a flush. A log with no rows takes a row of
    // any key.
    fn write_active<D: Disk>(
        &mut self,
        disk: &mut D,
        kind: Kind,
        key: &Key,
        value: &[u8],
    ) -> Result<(), TakeError<D::Fault>>
        requires stands { Stands (D.content disk.old) self.old }
        requires value { IsRowValue self.old.manifest.shape.value_len kind value.now }
        requires charge { self.old.charge + puts_of kind ≤ self.old.manifest.shape.sorted_capacity }
        ensures works { Works D.Disk (command_of (stored_row kind key.now value.now) ∷ []) 2 0 disk.old disk.new self.old self.new result }
        ensures row { OnOk result (JoinsActive (D.content disk.old) (D.content disk.new) self.old self.new kind key.now.0 (command_of (stored_row kind key.now value.now))) }
        ensures err { IfErr result (TakeCause D.Disk disk.old disk.new self.old self.new key.now.0) }
        ensures first { self.old.active.log.used ≡ 0 → IfErr result IsFailedWrite }
        ensures unchanged { OnErr result (self.new ≡ self.old) }
    {
        let _known = self.manifest.geometry().sorted_capacity(); // so the charge fits its word
        self.active.take(disk, kind, key, value)?;
        self.charge += kind.puts();
        Ok(())
    }

    // Freezes the active log, which cannot take a row of this key, and writes the row into the next log.
    fn write_in_next<D: Disk>(
        &mut self,
        alloc: Global,
        disk: &mut D,
        kind: Kind,
        key: &Key,
        value: &[u8],
    ) -> Result<(), WriteError<D::Fault>>
        requires stands { Stands (D.content disk.old) self.old }
        requires value { IsRowValue self.old.manifest.shape.value_len kind value.now }
        requires charge { self.old.charge + puts_of kind ≤ self.old.manifest.shape.sorted_capacity }
        requires needs { NeedsNext (D.content disk.old) self.old key.now.0 }
        ensures works { Works D.Disk (command_of (stored_row kind key.now value.now) ∷ []) (freeze_writes self.old) (freeze_syncs self.old) disk.old disk.new self.old self.new result }
        ensures row { OnOk result (CountsRow self.old self.new kind) }
        ensures current { OnOk result (TurnsFor (D.content disk.old) (D.content disk.new) self.old self.new key.now.0 (command_of (stored_row kind key.now value.now))) }
        ensures err { IfErr result (WriteCause D.Disk disk.old disk.new self.old self.new key.now.0) }
    {
        let next = match self.next_log(alloc) {
            Ok(next) => next,
            Err(NoNextLog::NoRoom) => return Err(WriteError::NoRoom),
            Err(NoNextLog::Spent) => return Err(WriteError::Spent),
            Err(NoNextLog::NoMemory) => return Err(WriteError::NoMemory),
        };
        if let Err(fault) = self.freeze(disk, next) {
            return Err(WriteError::Write(fault));
        }
        match self.write_active(disk, kind, key, value) {
            Ok(()) => Ok(()),
            Err(TakeError::Write(fault)) => Err(WriteError::Write(fault)),
            Err(_) => unreachable!(), // a log with no rows takes any row, and reads nothing for it
        }
    }

    // A new log in memory, in the lowest log region that is free, with the body that names it. It makes no device call.
    // What refuses one is decided in this order: `NoRoom`, `Spent`, `NoMemory`.
    fn next_log(&self, alloc: Global) -> Result<NextLog, NoNextLog>
        ensures ok { IfOk result (IsNextLog self.now) }
        ensures err { IfErr result (NoNextCause self.now) }
    {
        let geometry = self.manifest.geometry();
        let current = self.manifest.current();
        let Some(region) = lowest_free(geometry.logs(), &current) else {
            return Err(NoNextLog::NoRoom);
        };
        if current.generation == LAST_GENERATION {
            return Err(NoNextLog::Spent);
        }
        match LogStore::new(alloc, geometry, region) {
            Ok(store) => Ok(NextLog {
                store,
                body: next_body(&current, region),
            }),
            Err(_) => Err(NoNextLog::NoMemory),
        }
    }

    // Closes all commit bytes of the new log's region, which no log has.
    fn clear_region<D: Disk>(&self, disk: &mut D, next: &mut NextLog) -> Result<(), D::Fault>
        requires stands { Stands (D.content disk.old) self.now }
        requires quiet { IsQuiet (D.content disk.old) self.now }
        requires next { IsNextLog self.now next.old }
        ensures works { Works D.Disk [] 1 1 disk.old disk.new self.now self.now result }
        ensures quiet { OnOk result (IsQuiet (D.content disk.new) self.now) }
        ensures emptied { OnOk result (IsEmptied (D.content disk.new) self.now next.new) }
        ensures next { next.new ≡ next.old }
        ensures err { IfErr result (BreaksOff D.Disk disk.old disk.new self.now self.now) }
    {
        next.store.prepare(disk)?;
        Ok(())
    }

    // Takes a manifest and the log that it names first, which then is the active one.
    fn replace_active(&mut self, manifest: Manifest, log: LogStore)
        requires { AreWhole (active_replaced self.old manifest log) }
        ensures { self.new ≡ active_replaced self.old manifest log }
    {
        self.manifest = manifest;
        let full = mem::replace(&mut self.active, log);
        let Ok(()) = self.frozen.insert(0, full) else {
            unreachable!()
        };
    }

    // Freezes the active log: settles what waits, closes the commit bytes of the new log's region, and writes the manifest's next body,
    // which names the new log first, with the digests of the other stores. Then that is the active log.
    fn freeze<D: Disk>(&mut self, disk: &mut D, mut next: NextLog) -> Result<(), D::Fault>
        requires stands { Stands (D.content disk.old) self.old }
        requires next { IsNextLog self.old next }
        ensures works { Works D.Disk [] (row_waits self.old + 4) (2 * row_waits self.old + 4) disk.old disk.new self.old self.new result }
        ensures frozen { OnOk result (HasFrozen next (D.content disk.new) self.old self.new) }
        ensures err { IfErr result (BreaksOff D.Disk disk.old disk.new self.old self.new) }
    {
        self.flush(disk)?;
        self.clear_region(disk, &mut next)?;
        let digests = self.own_digests();
        let manifest = self.change_manifest(disk, &next.body, &digests)?;
        self.replace_active(manifest, next.store);
        Ok(())
    }
}
