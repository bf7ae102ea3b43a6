// The two slots of a manifest.
ghost use Rattle.std.specs.Prelude.{◌≡◌, ◌+◌, ◌<◌, ◌≤◌, true, false, Some, [], ◌∷◌, IfOk, IfErr, IfSome, IfNone, OnOk};
ghost use Rattle.silt_disk.specs.Disk.{GaveAny, Rests, Shows, Writes, size};
ghost use Rattle.silt_disk.specs.Layout.{slot_at, sector};
ghost use Rattle.silt_disk.specs.Wrote.{Wrote};
ghost use Rattle.silt_manifest.specs.Body.{FitsSlot};
ghost use Rattle.silt_manifest.specs.Digests.{FitsDigests, record_bytes, record_len, record_of};
ghost use Rattle.silt_manifest.specs.Current.{HasSlot, has_due_digests, is_sound_record, record_behind};
ghost use Rattle.silt_manifest.specs.Faults.{IsSlotRefused};
ghost use Rattle.silt_manifest.specs.declared.slot.Damage.TheVariants.{Slot};

use crate::body::{BODY_LEN, Body, SLOT_LEN, is_long};
use crate::digests::Digests;
use silt_disk::{Disk, Geometry, Version, slot_start, write_synced};
use silt_frame::is_open;

// What is written after a commit byte: a body, and the digests after it.
const RECORD_LEN: usize = 460;

/// The record of a slot, after its commit byte.
#[derive(Clone, Copy, Debug, PartialEq, Eq)]
pub struct SlotRecord {
    /// The body.
    pub body: Body,
    /// The digests after it, if there are any.
    pub digests: Option<Digests>,
}

/// The damage of a manifest.
#[derive(Clone, Copy, Debug, PartialEq, Eq)]
pub enum Damage {
    /// The slot of this number, 0 or 1, is open, and its body is not well formed or the digests that the device's version requires are
    /// missing.
    Slot(u32),
    /// No slot is open.
    NoSlot,
}

/// Why a manifest could not be read.
#[derive(Debug, Drop)]
pub enum ReadFault<F> {
    /// The slots have no current body.
    Damaged(Damage),
    /// A read failed with this fault.
    Device(F),
}

// Whether a record with these digests is allowed on a device of this version.
fn has_due_digests(version: Version, digests: &Option<Digests>) -> bool
    ensures { result ≡ has_due_digests version digests.now }
{
    match version {
        Version::One => true,
        Version::Two => digests.is_some(),
    }
}

impl SlotRecord {
    // Decodes an open slot, which begins with its commit byte, if its record is sound.
    #[tactic(auto, using(crate::proofs::SoundBodies::without_digests, crate::proofs::SoundBodies::without_body, crate::proofs::SoundBodies::with_both))]
    fn from_slot(
        bytes: &[u8; SLOT_LEN],
        geometry: &Geometry,
        version: Version,
        slot: u32,
    ) -> Option<Self>
        ensures sound { IfSome result (λ found. (found ≡ record_of bytes.now) × (is_sound_record geometry.now version slot (Some found) ≡ true)) }
        ensures unsound { IfNone result (is_sound_record geometry.now version slot (Some (record_of bytes.now)) ≡ false) }
    {
        let digests = Self::digests_from(bytes);
        if !has_due_digests(version, &digests) {
            return None;
        }
        let body = Body::from_slot(bytes, geometry, slot)?;
        Some(SlotRecord { body, digests })
    }

    // The digests of a slot, which begins with its commit byte, if there are any.
    fn digests_from(bytes: &[u8; SLOT_LEN]) -> Option<Digests>
        ensures { result ≡ (record_of bytes.now).digests }
    {
        if is_long(bytes) {
            Some(Digests::of_slot(bytes))
        } else {
            None
        }
    }
}

// Decodes the bytes of a slot: nothing if it is closed, and else a sound record.
#[tactic(auto, unfolding(crate::specs::Current::record_behind))]
fn slot_held(
    bytes: &[u8; SLOT_LEN],
    geometry: &Geometry,
    version: Version,
    slot: u32,
) -> Result<Option<SlotRecord>, Damage>
    ensures held { IfOk result (λ held. (record_behind bytes.now ≡ held) × (is_sound_record geometry.now version slot held ≡ true)) }
    ensures damaged { IfErr result (λ damage. (damage ≡ Slot slot) × (is_sound_record geometry.now version slot (record_behind bytes.now) ≡ false)) }
{
    if !is_open(bytes[0]) {
        return Ok(None);
    }
    match SlotRecord::from_slot(bytes, geometry, version, slot) {
        Some(found) => Ok(Some(found)),
        None => Err(Damage::Slot(slot)),
    }
}

// Reads a slot: nothing if it is closed, and else a sound record.
pub(crate) fn read_slot<D: Disk>(
    disk: &D,
    geometry: &Geometry,
    version: Version,
    slot: u32,
) -> Result<Option<SlotRecord>, ReadFault<D::Fault>>
    requires slot { slot < 2 }
    requires size { slot_at 1 + sector ≤ size (D.content disk.now) }
    ensures sound { IfOk result (λ held. is_sound_record geometry.now version slot held ≡ true) }
    ensures held { IfOk result (λ held. Shows (D.content disk.now) (HasSlot geometry.now version slot held)) }
    ensures refused { IfErr result (IsSlotRefused (D.content disk.now) geometry.now version (GaveAny D.gave disk.now) slot) }
{
    let mut bytes = [0; SLOT_LEN];
    disk.read(slot_start(slot), &mut bytes)
        .map_err(ReadFault::Device)?;
    match slot_held(&bytes, geometry, version, slot) {
        Ok(held) => Ok(held),
        Err(damage) => Err(ReadFault::Damaged(damage)),
    }
}

// Writes the commit byte of a slot, and syncs.
pub(crate) fn write_commit<D: Disk>(disk: &mut D, slot: u32, commit: u8) -> Result<(), D::Fault>
    requires slot { slot < 2 }
    requires size { slot_at 1 + sector ≤ size (D.content disk.old) }
    ensures wrote { Wrote D.Disk (slot_at slot) 1 1 1 disk.old disk.new result }
    ensures written { OnOk result (Writes (slot_at slot) (commit ∷ []) (D.content disk.old) (D.content disk.new)) }
    ensures rests { OnOk result (Rests (D.content disk.new)) }
{
    write_synced(disk, slot_start(slot), &[commit])?;
    Ok(())
}

// The bytes of a body and of the digests after it.
pub(crate) fn record_bytes(body: &Body, digests: &Digests) -> [u8; RECORD_LEN]
    requires { FitsSlot body.now }
    ensures value { result ≡ record_bytes body.now digests.now }
    ensures fits { FitsDigests digests.now }
{
    let mut bytes = [0; RECORD_LEN];
    let (first, rest) = bytes.split_at_mut(BODY_LEN);
    first.copy_from_slice(&body.to_bytes());
    rest.copy_from_slice(&digests.to_bytes());
    bytes
}

// Writes these bytes after the commit byte of a slot, and syncs.
pub(crate) fn write_record<D: Disk>(
    disk: &mut D,
    slot: u32,
    bytes: &[u8; RECORD_LEN],
) -> Result<(), D::Fault>
    requires slot { slot < 2 }
    requires size { slot_at 1 + sector ≤ size (D.content disk.old) }
    ensures wrote { Wrote D.Disk (slot_at slot + 1) record_len 1 1 disk.old disk.new result }
    ensures written { OnOk result (Writes (slot_at slot + 1) bytes.now (D.content disk.old) (D.content disk.new)) }
    ensures rests { OnOk result (Rests (D.content disk.new)) }
{
    write_synced(disk, slot_start(slot) + 1, bytes)?;
    Ok(())
}
