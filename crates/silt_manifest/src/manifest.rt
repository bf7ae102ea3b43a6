// The manifest in memory, and the calls that read and write it.
ghost use Rattle.std.specs.Prelude.{◌≡◌, ◌+◌, ◌<◌, ◌≤◌, ◌↔◌, IsTrue, Some, None, true, false, IfOk, IfErr, OnOk, OnErr, MatchResult};
ghost use Rattle.silt_disk.specs.Disk.{GaveAny, LeavesOnly, Rests, Shows, size};
ghost use Rattle.silt_disk.specs.Header.{header_of, version_of};
ghost use Rattle.silt_disk.specs.Layout.{slot_at, sector};
ghost use Rattle.silt_disk.specs.Wrote.{Wrote};
ghost use Rattle.silt_manifest.specs.Body.{is_well_formed};
ghost use Rattle.silt_manifest.specs.Digests.{long_record};
ghost use Rattle.silt_manifest.specs.Current.{ClosedSlotLaw, OtherRecordsLaw, OtherRegionsLaw, is_slot_open, is_sound_record};
ghost use Rattle.silt_manifest.specs.Faults.{IsNotRead};
ghost use Rattle.silt_manifest.specs.Standing.{CanCommit, FirstIsCurrentLaw, IsFirst, IsNext, IsCurrentIn, IsCurrent, RecordIsCurrent};
ghost use Rattle.silt_manifest.specs.Standing.{OldOrNewIsCurrent, WritesNext, closing_place, manifest_of, with_current, current_record, current_slot, spare_slot};

use crate::body::Body;
use crate::digests::Digests;
use crate::slot::{
    Damage, ReadFault, SlotRecord, read_slot, record_bytes, write_commit, write_record,
};
use silt_disk::{Disk, Geometry, Version, slot_start, write_synced};
use silt_frame::{COMMIT_CLOSED, COMMIT_OPEN};
use std::marker::Model;

// The last place of a slot, which nothing reads.
const UNUSED_PLACE: u64 = 4095;

/// The current body of a device, the digests after it, and what is known of its slots.
#[derive(Clone, Copy)]
pub struct Manifest {
    geometry: Geometry,
    current: Body,
    // The digests after the current body, if there are any.
    digests: Option<Digests>,
    // Whether the commit byte of the spare slot is closed.
    spare_closed: bool,
    // The next record, once it is written behind that commit byte.
    prepared: Option<SlotRecord>,
}

impl Model for Manifest {
    ghost use Rattle.silt_manifest.specs.Standing.{ManifestState, HasSoundBodies};

    ghost Value = { ManifestState };

    ghost view = { λ m. record { shape = m.geometry; current = m.current; digests = m.digests; spare_closed = m.spare_closed; prepared = m.prepared } };

    ghost inverse = { λ s. record { geometry = s.shape; current = s.current; digests = s.digests; spare_closed = s.spare_closed; prepared = s.prepared } };

    ghost invariant = { λ m. HasSoundBodies (record { shape = m.geometry; current = m.current; digests = m.digests; spare_closed = m.spare_closed; prepared = m.prepared }) };
}

/// Reads the slots of a device of this version. A closed slot is skipped. An open one is damage if its body is not well formed, or
/// if its digests are missing although the version requires them. It is damage too if no slot is open. If both slots are open, the
/// greater generation is current.
///
/// # Errors
///
/// The first damage: of slot 0, then of slot 1, then that no slot is open; or the fault of a read.
pub fn read_current<D: Disk>(
    disk: &D,
    geometry: Geometry,
    version: Version,
) -> Result<Manifest, ReadFault<D::Fault>>
    requires size { slot_at 1 + sector ≤ size (D.content disk.now) }
    requires version { IsTrue (D.content disk.now).honest → version ≡ version_of (header_of (D.content disk.now).shown) }
    ensures shape { IfOk result (λ m. (m.shape ≡ geometry) × (m.prepared ≡ None)) }
    ensures shown { IfOk result (λ m. Shows (D.content disk.now) (IsCurrentIn m)) }
    ensures current { IfOk result (λ m. Rests (D.content disk.now) → IsCurrent m (D.content disk.now)) }
    ensures refused { IfErr result (IsNotRead (D.content disk.now) geometry (GaveAny D.gave disk.now)) }
{
    let first = read_slot(disk, &geometry, version, 0)?;
    let second = read_slot(disk, &geometry, version, 1)?;
    Manifest::of_slots(geometry, version, first, second).ok_or(ReadFault::Damaged(Damage::NoSlot))
}

impl Manifest {
    /// The six numbers of the store.
    pub fn geometry(&self) -> Geometry
        ensures value { result ≡ self.now.shape }
    {
        self.geometry
    }

    /// The current body.
    pub fn current(&self) -> Body
        ensures value { result ≡ self.now.current }
        ensures sound { is_well_formed self.now.shape (current_slot self.now) self.now.current ≡ true }
    {
        let _known = &self.geometry; // the body is well formed for it
        self.current
    }

    /// The digests after the current body, if there are any.
    pub fn digests(&self) -> Option<Digests>
        ensures value { result ≡ self.now.digests }
    {
        self.digests
    }

    // The manifest with this current record.
    #[tactic(auto, using(crate::proofs::SoundBodies::own_slot))]
    fn with_current(geometry: Geometry, found: SlotRecord, spare_closed: bool, slot: u32) -> Self
        requires { is_well_formed geometry slot found.body ≡ true }
        ensures { result ≡ with_current geometry found spare_closed }
    {
        Manifest {
            geometry,
            current: found.body,
            digests: found.digests,
            spare_closed,
            prepared: None,
        }
    }

    // The manifest of two slots, each with a sound record or none.
    #[tactic(auto, using(crate::proofs::SoundBodies::sound_body))]
    fn of_slots(
        geometry: Geometry,
        version: Version,
        first: Option<SlotRecord>,
        second: Option<SlotRecord>,
    ) -> Option<Self>
        requires first { is_sound_record geometry version 0 first ≡ true }
        requires second { is_sound_record geometry version 1 second ≡ true }
        ensures { result ≡ manifest_of geometry first second }
    {
        match (first, second) {
            (None, None) => None,
            (None, Some(second)) => Some(Self::with_current(geometry, second, true, 1)),
            (Some(first), None) => Some(Self::with_current(geometry, first, true, 0)),
            (Some(first), Some(second)) => {
                if first.body.generation < second.body.generation {
                    Some(Self::with_current(geometry, second, false, 1))
                } else {
                    Some(Self::with_current(geometry, first, false, 0))
                }
            }
        }
    }

    // The spare slot.
    fn spare_slot(&self) -> u32
        ensures value { result ≡ spare_slot self.now }
        ensures below { result < 2 }
    {
        ((self.current.generation + 1) % 2) as u32
    }

    // The place of the zero that begins a write of the next record.
    fn closing_place(&self) -> u64
        ensures value { result ≡ closing_place self.now }
        ensures least { slot_at (spare_slot self.now) ≤ result }
        ensures most { result < slot_at (spare_slot self.now) + sector }
    {
        let start = slot_start(self.spare_slot());
        if self.spare_closed {
            start + UNUSED_PLACE
        } else {
            start
        }
    }

    /// Writes the next body and its digests into the spare slot, behind a closed commit byte: closes the commit byte and syncs, then writes the
    /// bytes and syncs. At each exit the old body is current in each possible crash image. After Ok, call `commit_next` next on this
    /// disk.
    ///
    /// # Errors
    ///
    /// The fault of a write or of a sync.
    pub fn prepare_next<D: Disk>(
        &mut self,
        disk: &mut D,
        next: Body,
        digests: Digests,
    ) -> Result<(), D::Fault>
        requires size { slot_at 1 + sector ≤ size (D.content disk.old) }
        requires current { IsCurrent self.old (D.content disk.old) }
        requires next { IsNext self.old next }
        ensures wrote { Wrote D.Disk (slot_at (spare_slot self.old)) sector 2 2 disk.old disk.new result }
        ensures each { LeavesOnly (D.content disk.new) (RecordIsCurrent self.old) }
        ensures written { OnOk result (WritesNext self.old next digests (D.content disk.old) (D.content disk.new)) }
        ensures ready { OnOk result (CanCommit self.new (D.content disk.new)) }
        ensures rests { OnOk result (Rests (D.content disk.new)) }
        ensures state { MatchResult result (λ _. self.new ≡ record self.old { spare_closed = true; prepared = Some (long_record next digests) }) (λ _. self.new ≡ self.old) }
    {
        let _known = self.geometry.logs(); // at most eight
        let slot = self.spare_slot();
        write_synced(disk, self.closing_place(), &[COMMIT_CLOSED])?;
        write_record(disk, slot, &record_bytes(&next, &digests))?;
        self.spare_closed = true;
        self.prepared = Some(SlotRecord {
            body: next,
            digests: Some(digests),
        });
        Ok(())
    }

    /// Opens the commit byte of the record that `prepare_next` wrote, and syncs. At each exit the old body or the new one is current in each
    /// possible crash image. After Ok it is the new one.
    ///
    /// # Errors
    ///
    /// The fault of the write or of the sync.
    pub fn commit_next<D: Disk>(&mut self, disk: &mut D) -> Result<(), D::Fault>
        requires size { slot_at 1 + sector ≤ size (D.content disk.old) }
        requires prepared { CanCommit self.old (D.content disk.old) }
        ensures wrote { Wrote D.Disk (slot_at (spare_slot self.old)) 1 1 1 disk.old disk.new result }
        ensures each { LeavesOnly (D.content disk.new) (OldOrNewIsCurrent self.old) }
        ensures current { OnOk result (IsCurrent self.new (D.content disk.new)) }
        ensures rests { OnOk result (Rests (D.content disk.new)) }
        ensures new { OnOk result (Some (current_record self.new) ≡ self.old.prepared) }
        ensures state { OnOk result ((self.new.shape ≡ self.old.shape) × (self.new.spare_closed ≡ false) × (self.new.prepared ≡ None)) }
        ensures unchanged { OnErr result (self.new ≡ self.old) }
    {
        let Some(next) = self.prepared else {
            unreachable!()
        };
        write_commit(disk, self.spare_slot(), COMMIT_OPEN)?;
        self.current = next.body;
        self.digests = next.digests;
        self.spare_closed = false;
        self.prepared = None;
        Ok(())
    }
}

/// Writes the body of generation 0 with these digests into slot 0, with its commit byte: closes the commit byte, writes the bytes, opens the commit byte,
/// each with a sync. After Ok it is current in each possible crash image, since the commit byte of slot 1 is closed. The zero always goes
/// to the commit byte: while a device is formatted the header's commit byte is closed, and no slot matters.
///
/// # Errors
///
/// The fault of a write or of a sync.
pub fn write_first<D: Disk>(disk: &mut D, digests: &Digests) -> Result<(), D::Fault>
    requires size { slot_at 1 + sector ≤ size (D.content disk.old) }
    requires closed { LeavesOnly (D.content disk.old) (λ image. is_slot_open image 1 ≡ false) }
    ensures wrote { Wrote D.Disk (slot_at 0) sector 3 3 disk.old disk.new result }
    ensures current { OnOk result (LeavesOnly (D.content disk.new) (IsFirst digests.now)) }
    ensures rests { OnOk result (Rests (D.content disk.new)) }
{
    write_commit(disk, 0, COMMIT_CLOSED)?;
    write_record(disk, 0, &record_bytes(&Body::first(), digests))?;
    write_commit(disk, 0, COMMIT_OPEN)?;
    Ok(())
}

/// The law of closed slots, which says which bytes matter: a change in a slot that is closed before and after changes nothing.
pub fn closed_slot_law()
    ensures { ClosedSlotLaw }
{}

/// The law of other records, which says which bytes matter: the record of a slot does not depend on bytes outside the two slots.
pub fn other_records_law()
    ensures { OtherRecordsLaw }
{}

/// The law of the other regions, which says which bytes matter: outside the two slots, the current record depends only on the
/// version in the header.
pub fn other_regions_law()
    ensures { OtherRegionsLaw }
{}

/// The law of the first record: it is current in any store's geometry, whatever the header's version.
pub fn first_is_current_law()
    ensures { FirstIsCurrentLaw }
{}
