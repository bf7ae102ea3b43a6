// The manifest: the layout's bytes, damaged slots, and the forms of slots on devices of either
// version. A crash comes at each call of a write, and the first call is looked at by itself.
ghost use Rattle.std.specs.Prelude.{◌≡◌, ◌+◌, ◌≤◌, ◌<◌, ◌↔◌, length, IsTrue, IfOk, IfSome, OnOk};
ghost use Rattle.silt_disk.specs.Disk.{Rests, size};
ghost use Rattle.silt_manifest.specs.Standing.{IsNext, IsCurrent};
ghost use Rattle.silt_disk.specs.Header.{header_of, version_of};
ghost use Rattle.silt_disk.specs.Layout.{slot_at};
ghost use Rattle.silt_device.specs.Fault.{fault_content};
ghost use Rattle.silt_device.specs.Memory.{memory_content};

use crate::regions::{done, same, same_in, shows};
use silt_device::{
    Call, Disk, FaultDisk, Fill, Geometry, HEADER_LEN, MemDisk, Stop, Stoppable, write_synced,
};
use silt_disk::{Version, version_of};
use silt_frame::Digest;
use silt_manifest::{Body, Damage, Digests, Ids, Manifest, ReadFault, read_current, write_first};
use std::alloc::{AllocError, Global};
use std::process::Abort;

const FILLS: [Fill; 5] = [Fill::Old, Fill::New, Fill::Zero, Fill::Ones, Fill::Mix];

// The header and the two slots.
const LEN: usize = 12_288;

// The bytes of a slot that count: the commit byte, the body, and the digests or zeros.
type Slot = [u8; 461];

// The current record on a device, or the damage. None if a read fails.
type Current = Option<Result<Body, Damage>>;

// Values of 2 bytes, 2 buckets, logs of 4 rows, 2 logs, 2 hash regions and 8 sorted entries.
fn small(rt: &impl Abort) -> Geometry {
    Geometry::new(2, 2, 4, 2, 2, 8).expect(rt, "the numbers are within their limits")
}

// The most logs and hash regions.
fn large(rt: &impl Abort) -> Geometry {
    Geometry::new(2, 2, 4, 8, 16, 8).expect(rt, "the numbers are within their limits")
}

// The bytes of a device with these slots and a header that has this number as its version.
fn bytes_of(alloc: Global, number: u8, first: &Slot, second: &Slot) -> Result<Vec<u8>, AllocError>
    ensures { IfOk result (λ bytes. length bytes.items ≡ 12288) }
{
    let mut bytes = vec![in alloc; 0u8; LEN]?;
    bytes[12] = number;
    bytes[4096..4557].copy_from_slice(first);
    bytes[8192..8653].copy_from_slice(second);
    Ok(bytes)
}

// The ends of two lives. The first one is not interrupted, the second one ends with this crash.
fn stops_of(alloc: Global, stop: Stop) -> Result<Vec<Stop>, AllocError> {
    let mut stops = Vec::new(alloc);
    stops.push(NEVER)?;
    stops.push(stop)?;
    Ok(stops)
}

// A device of this version with these slots, in the second of those lives.
fn device_as(
    rt: &impl Abort,
    alloc: Global,
    number: u8,
    slots: (&Slot, &Slot),
    stop: Stop,
) -> MemDisk
    ensures { Rests (memory_content result) }
{
    let bytes = bytes_of(alloc, number, slots.0, slots.1).expect(rt, "memory");
    let stops = stops_of(alloc, stop).expect(rt, "memory");
    let disk = MemDisk::with_bytes(alloc, &bytes).expect(rt, "memory");
    disk.arm(stops).restart()
}

// The same of version 1.
fn device(rt: &impl Abort, alloc: Global, first: &Slot, second: &Slot, stop: Stop) -> MemDisk
    ensures { Rests (memory_content result) }
{
    device_as(rt, alloc, 1, (first, second), stop)
}

const NEVER: Stop = Stop {
    k: 0,
    fill: Fill::Old,
};

// The crash of this number, of those at each call with each fill.
fn stop_of(number: u32) -> Stop {
    Stop {
        k: number / 5,
        fill: FILLS[(number % 5) as usize],
    }
}

// A slot with this commit byte, this generation below 256, and zeros elsewhere.
fn slot_of(commit: u8, generation: u8) -> Slot {
    let mut slot = [0; 461];
    slot[0] = commit;
    slot[8] = generation;
    slot
}

// A device whose slot 0 is open with generation 0, and whose slot 1 is closed.
fn first_device(rt: &impl Abort, alloc: Global, stop: Stop) -> MemDisk
    ensures { Rests (memory_content result) }
{
    device(rt, alloc, &slot_of(0xA7, 0), &slot_of(0, 0), stop)
}

// The version in the header of a device, if it can be read.
fn version_on<D: Disk>(disk: &D) -> Option<Version>
    requires { 37 ≤ size (D.content disk.now) }
    ensures { IfSome result (λ version. IsTrue (D.content disk.now).honest → version ≡ version_of (header_of (D.content disk.now).shown)) }
{
    let mut header = [0; HEADER_LEN];
    match disk.read(0, &mut header) {
        Ok(()) => Some(version_of(&header)),
        Err(_) => None,
    }
}

// The current record in the slots of a disk of this length, or the damage.
fn current<D: Disk>(disk: &D, geometry: Geometry) -> Current {
    if disk.len() != LEN as u64 {
        return None;
    }
    let version = version_on(disk)?;
    match read_current(disk, geometry, version) {
        Ok(manifest) => Some(Ok(manifest.current())),
        Err(ReadFault::Damaged(damage)) => Some(Err(damage)),
        Err(ReadFault::Device(_)) => None,
    }
}

// The manifest in the slots of a disk of at least this length.
fn opened<D: Disk>(rt: &impl Abort, disk: &D, geometry: Geometry) -> Manifest
    requires { Rests (D.content disk.now) }
    ensures size { 12288 ≤ size (D.content disk.now) }
    ensures current { IsCurrent result (D.content disk.now) }
{
    assert!(rt; disk.len() >= LEN as u64);
    let version = version_on(disk).expect(rt, "a header");
    done(rt, read_current(disk, geometry, version))
}

// Whether a body may be the next one: it has the next generation, and is well formed for the slot
// that is not current.
fn is_next(manifest: &Manifest, next: &Body) -> bool
    ensures { IsTrue result ↔ IsNext manifest.now next.now }
{
    let generation = manifest.current().generation + 1;
    next.generation == generation
        && next.is_well_formed(&manifest.geometry(), (generation % 2) as u32)
}

// Digests for the most hash stores that there may be. All bytes of each digest are its number, from
// 1 on.
fn some_digests() -> Digests {
    let mut hashed = [Digest([0; 20]); 16];
    for k in 0..16usize {
        hashed[k] = Digest([k as u8 + 1; 20]);
    }
    Digests {
        hashed,
        sorted: Digest([0xEE; 20]),
    }
}

// Writes these digests into a slot, and sets the bit that says that they follow.
fn put_digests(slot: &mut Slot) {
    slot[1] |= 0x80;
    for k in 0..16usize {
        slot[121 + 20 * k..141 + 20 * k].fill(k as u8 + 1);
    }
    slot[441..].fill(0xEE);
}

// Writes this body as the next one, with those digests.
fn write<D: Disk>(manifest: &mut Manifest, disk: &mut D, next: Body) -> Result<(), D::Fault>
    requires size { slot_at 1 + 4096 ≤ size (D.content disk.old) }
    requires current { IsCurrent manifest.old (D.content disk.old) }
    requires next { IsNext manifest.old next }
    ensures size { size (D.content disk.new) ≡ size (D.content disk.old) }
    ensures current { OnOk result (IsCurrent manifest.new (D.content disk.new)) }
{
    manifest.prepare_next(disk, next, some_digests())?;
    manifest.commit_next(disk)?;
    Ok(())
}

// Reads the manifest and writes the next one. Returns whether all six calls returned Ok.
fn write_next<D: Disk>(rt: &impl Abort, disk: &mut D, geometry: Geometry, next: Body) -> bool
    requires { Rests (D.content disk.old) }
{
    let mut manifest = opened(rt, disk, geometry);
    assert!(rt; is_next(&manifest, &next));
    write(&mut manifest, disk, next).is_ok()
}

// Reads the manifest and writes the next one, and then the one after it. Returns whether all twelve calls returned Ok.
fn write_two<D: Disk>(
    rt: &impl Abort,
    disk: &mut D,
    geometry: Geometry,
    next: Body,
    last: Body,
) -> bool
    requires { Rests (D.content disk.old) }
{
    let mut manifest = opened(rt, disk, geometry);
    assert!(rt; is_next(&manifest, &next));
    let Ok(()) = write(&mut manifest, disk, next) else {
        return false;
    };
    assert!(rt; is_next(&manifest, &last));
    write(&mut manifest, disk, last).is_ok()
}

// The regions 0 to `count` - 1, at most 16 of them, the last one in front.
fn first_ids(count: u32) -> Ids {
    let mut ids = Ids::new();
    for id in 0..count {
        if ids.len() < 16 {
            ids.push_front(id);
        }
    }
    ids
}

// Closes slot 1 and writes the first body into slot 0, with those digests, in eight calls.
fn write_slots<D: Disk>(disk: &mut D) -> Result<(), D::Fault>
    requires { 12288 ≤ size (D.content disk.old) }
    ensures { size (D.content disk.new) ≡ size (D.content disk.old) }
{
    write_synced(disk, 8192, &[0])?;
    write_first(disk, &some_digests())?;
    Ok(())
}

// A body of this generation. Its number of entries distinguishes it from others.
fn body_of(generation: u64) -> Body {
    let mut body = Body::first();
    body.generation = generation;
    body.active = (generation % 2) as u32;
    body.sorted_count = (generation % 8) as u32;
    body
}

// The current record on a device with these slots, or the damage.
fn current_of(rt: &impl Abort, alloc: Global, first: &Slot, second: &Slot) -> Current {
    let geometry = small(rt);
    let disk = device(rt, alloc, first, second, NEVER);
    current(&disk, geometry)
}

// A device with these slots has this record, or this damage.
fn has(
    rt: &impl Abort,
    alloc: Global,
    (first, second): (&Slot, &Slot),
    found: Result<Body, Damage>,
) {
    same(rt, &current_of(rt, alloc, first, second), &Some(found));
}

#[test]
fn finds_the_damaged_slot(rt: HostRuntime) {
    let alloc = rt.alloc();
    let good = slot_of(0xA7, 0);
    let closed = slot_of(0, 0);
    let mut active_2 = slot_of(0xA7, 0);
    active_2[12] = 2;
    has(&rt, alloc, (&closed, &good), Err(Damage::Slot(1)));
    has(&rt, alloc, (&active_2, &closed), Err(Damage::Slot(0)));
    has(&rt, alloc, (&active_2, &good), Err(Damage::Slot(0)));
    has(&rt, alloc, (&good, &slot_of(0xA7, 2)), Err(Damage::Slot(1)));
    has(
        &rt,
        alloc,
        (&closed, &slot_of(0xA6, 1)),
        Err(Damage::NoSlot),
    );
    has(&rt, alloc, (&good, &slot_of(0xFF, 0)), Ok(Body::first()));
}

// A slot without digests, with a well-formed body. A change of one byte can break each rule of
// well-formed bodies.
fn good_slot() -> Slot {
    let mut good = slot_of(0xA7, 0);
    good[12] = 1;
    good[16] = 1;
    good[48] = 2;
    good[52] = 1;
    good[116] = 1;
    good[120] = 8;
    good
}

// This byte of that slot is damage.
fn is_refused(rt: &impl Abort, alloc: Global, place: usize, byte: u8)
    requires { place < 461 }
{
    let mut slot = good_slot();
    slot[place] = byte;
    let found = current_of(rt, alloc, &slot, &slot_of(0, 0));
    same_in(rt, &found, &Some(Err(Damage::Slot(0))), &(place, byte));
}

// Each rule of well-formed bodies is broken, one at a time.
#[test]
fn refuses_each_fault_of_a_body(rt: HostRuntime) {
    let alloc = rt.alloc();
    let good = current_of(&rt, alloc, &good_slot(), &slot_of(0, 0));
    same(&rt, &matches!(good, Some(Ok(_))), &true);
    is_refused(&rt, alloc, 12, 2);
    is_refused(&rt, alloc, 12, 0);
    is_refused(&rt, alloc, 16, 2);
    is_refused(&rt, alloc, 20, 1);
    is_refused(&rt, alloc, 48, 3);
    is_refused(&rt, alloc, 52, 0);
    is_refused(&rt, alloc, 52, 2);
    is_refused(&rt, alloc, 56, 2);
    is_refused(&rt, alloc, 116, 2);
    is_refused(&rt, alloc, 120, 9);
}

// The first body with this generation.
fn first_of(generation: u64) -> Body {
    let mut body = Body::first();
    body.generation = generation;
    body
}

#[test]
fn the_greater_generation_is_current(rt: HostRuntime) {
    let alloc = rt.alloc();
    let first = slot_of(0xA7, 2);
    has(&rt, alloc, (&first, &slot_of(0xA7, 1)), Ok(first_of(2)));
    has(&rt, alloc, (&first, &slot_of(0xA7, 3)), Ok(first_of(3)));
}

// A slot with the first body, but of the generation before the last one, without digests.
fn last_but_one() -> Slot {
    let mut slot = slot_of(0xA7, 0xFE);
    slot[1] = 0x7F;
    slot[2..8].fill(0xFF);
    slot
}

// A body with every count at its greatest, and the last generation.
fn greatest() -> Body {
    let mut body = Body::first();
    body.generation = (1 << 63) - 1;
    body.active = 7;
    body.frozen = first_ids(7);
    body.hashed = first_ids(16);
    body.sorted = 1;
    body.sorted_count = 8;
    body
}

// The slot with the greatest body and the digests.
fn greatest_slot() -> Slot {
    let mut slot = last_but_one();
    slot[8] = 0xFF;
    slot[12] = 7;
    slot[16] = 7;
    for k in 0..7usize {
        slot[20 + 4 * k] = 6 - k as u8;
    }
    slot[48] = 16;
    for k in 0..16usize {
        slot[52 + 4 * k] = 15 - k as u8;
    }
    slot[116] = 1;
    slot[120] = 8;
    put_digests(&mut slot);
    slot
}

// The disk shows the greatest body and the digests.
fn shows_greatest(rt: &impl Abort, disk: &MemDisk) {
    same(rt, &disk.shown().len(), &LEN);
    same(rt, &shows(disk, 8192, &greatest_slot()), &true);
}

// The device after a write of the greatest body, which succeeds and leaves its bytes.
fn with_greatest(rt: &impl Abort, alloc: Global) -> MemDisk
    ensures { Rests (memory_content result) }
{
    let geometry = large(rt);
    let mut disk = device(rt, alloc, &last_but_one(), &slot_of(0, 0), NEVER);
    same(rt, &write_next(rt, &mut disk, geometry, greatest()), &true);
    shows_greatest(rt, &disk);
    disk.restart()
}

// A write has the layout's bytes, and reads back. It has digests on a device of version 1 too.
#[test]
fn writes_the_layouts_bytes(rt: HostRuntime) {
    let geometry = large(&rt);
    let disk = with_greatest(&rt, rt.alloc());
    let found = (
        current(&disk, geometry),
        opened(&rt, &disk, geometry).digests(),
    );
    drop(disk);
    same(&rt, &found, &(Some(Ok(greatest())), Some(some_digests())));
}

// A device of this version. The first slot is open with generation 0, and has this byte after its
// commit byte.
fn with_form(rt: &impl Abort, alloc: Global, number: u8, byte: u8) -> MemDisk
    ensures { Rests (memory_content result) }
{
    let mut slot = slot_of(0xA7, 0);
    slot[1] = byte;
    device_as(rt, alloc, number, (&slot, &slot_of(0, 1)), NEVER)
}

// The first body is current on such a device, with digests or none.
fn takes(rt: &impl Abort, alloc: Global, number: u8, byte: u8, has_digests: bool) {
    let geometry = small(rt);
    let disk = with_form(rt, alloc, number, byte);
    let found = current(&disk, geometry);
    let digests = opened(rt, &disk, geometry).digests();
    drop(disk);
    same_in(rt, &found, &Some(Ok(Body::first())), &(number, byte));
    same_in(rt, &digests.is_some(), &has_digests, &(number, byte));
}

// What is current on such a device, or the damage.
fn current_as(rt: &impl Abort, alloc: Global, number: u8, byte: u8) -> Current {
    let geometry = small(rt);
    let disk = with_form(rt, alloc, number, byte);
    current(&disk, geometry)
}

// A slot may have digests or none on a device of version 1. On one of version 2 it needs them.
#[test]
fn takes_the_forms_of_its_version(rt: HostRuntime) {
    let alloc = rt.alloc();
    takes(&rt, alloc, 1, 0x00, false);
    takes(&rt, alloc, 1, 0x80, true);
    same(
        &rt,
        &current_as(&rt, alloc, 2, 0x00),
        &Some(Err(Damage::Slot(0))),
    );
    takes(&rt, alloc, 2, 0x80, true);
}

// The two slots in their order, if this generation is current and the other slot has this commit byte.
fn slots_of(old: u8, spare: u8) -> (Slot, Slot) {
    let current_slot = slot_of(0xA7, old);
    let spare_slot = slot_of(spare, old.wrapping_sub(1));
    if old % 2 == 0 {
        (current_slot, spare_slot)
    } else {
        (spare_slot, current_slot)
    }
}

// What is current after a crash.
fn current_after(disk: MemDisk, geometry: Geometry) -> Current {
    current(&disk.restart(), geometry)
}

// Whether a write of the next body on a device with these slots ends before this crash, and what is
// current after the crash.
fn stopped_write(
    rt: &impl Abort,
    alloc: Global,
    slots: &(Slot, Slot),
    next: Body,
    stop: Stop,
) -> (bool, Current) {
    let geometry = small(rt);
    let mut disk = device(rt, alloc, &slots.0, &slots.1, stop);
    let done = write_next(rt, &mut disk, geometry, next);
    (done, current_after(disk, geometry))
}

// Whether a crash at the call that writes a commit byte leaves the commit byte written.
fn keeps_the_commit(fill: Fill) -> bool {
    fill == Fill::New || fill == Fill::Mix
}

// This crash leaves the old body or the new one. The fifth call writes the commit byte, at an even offset.
fn leaves_old_or_new(
    rt: &impl Abort,
    alloc: Global,
    slots: &(Slot, Slot),
    next: &Body,
    before: &Current,
    stop: Stop,
) {
    let found = stopped_write(rt, alloc, slots, *next, stop);
    let done = stop.k == 0 || stop.k > 6;
    let is_new = done || (stop.k >= 5 && keeps_the_commit(stop.fill));
    let left = if is_new { Some(Ok(*next)) } else { *before };
    same_in(rt, &found, &(done, left), &stop);
}

// That of each crash, if this generation is current and the other slot has this commit byte.
fn each_leaves_old_or_new(rt: &impl Abort, alloc: Global, old: u8, spare: u8) {
    let slots = slots_of(old, spare);
    let next = body_of(u64::from(old) + 1);
    let before = current_of(rt, alloc, &slots.0, &slots.1);
    for number in 0..40u32 {
        leaves_old_or_new(rt, alloc, &slots, &next, &before, stop_of(number));
    }
}

// From each state of the slots a crash at each of the six calls, with every fill, leaves the old
// body or the new one.
#[test]
fn each_stop_leaves_the_old_or_the_new_body(rt: HostRuntime) {
    let alloc = rt.alloc();
    each_leaves_old_or_new(&rt, alloc, 0, 0);
    each_leaves_old_or_new(&rt, alloc, 1, 0);
    each_leaves_old_or_new(&rt, alloc, 2, 0xA7);
    each_leaves_old_or_new(&rt, alloc, 3, 0xA7);
}

// Whether writes of two bodies end before this crash, and what is current after the crash.
fn stopped_writes(rt: &impl Abort, alloc: Global, stop: Stop) -> (bool, Current) {
    let geometry = small(rt);
    let mut disk = first_device(rt, alloc, stop);
    let done = write_two(rt, &mut disk, geometry, body_of(1), body_of(2));
    (done, current_after(disk, geometry))
}

// Which body is current after a crash at this call.
fn left_of_two(k: u32, fill: Fill) -> Body {
    let is_kept = keeps_the_commit(fill);
    if k == 0 || k > 12 || (k >= 11 && is_kept) {
        return body_of(2);
    }
    if k > 6 || (k >= 5 && is_kept) {
        return body_of(1);
    }
    Body::first()
}

// This crash leaves one of three bodies.
fn leaves_one_of_three(rt: &impl Abort, alloc: Global, stop: Stop) {
    let done = stop.k == 0 || stop.k > 12;
    let left = Some(Ok(left_of_two(stop.k, stop.fill)));
    let found = stopped_writes(rt, alloc, stop);
    same_in(rt, &found, &(done, left), &stop);
}

// Two writes in one life, the first over a closed slot and the second over an open one. A crash at
// each of the twelve calls leaves one of three bodies.
#[test]
fn each_stop_leaves_one_of_three_bodies(rt: HostRuntime) {
    for number in 0..70u32 {
        leaves_one_of_three(&rt, rt.alloc(), stop_of(number));
    }
}

// The device after one more life, in which a body of this generation is written and then current.
fn written_in_turn(rt: &impl Abort, disk: MemDisk, generation: u64) -> MemDisk {
    let geometry = small(rt);
    let mut disk = disk.restart();
    let done = write_next(rt, &mut disk, geometry, body_of(generation));
    let found = current(&disk, geometry);
    same_in(
        rt,
        &(done, found),
        &(true, Some(Ok(body_of(generation)))),
        &generation,
    );
    disk
}

// In several lives each write goes to the slot of its generation.
#[test]
fn writes_in_turn(rt: HostRuntime) {
    let disk = first_device(&rt, rt.alloc(), NEVER);
    let disk = written_in_turn(&rt, disk, 1);
    let disk = written_in_turn(&rt, disk, 2);
    let disk = written_in_turn(&rt, disk, 3);
    let disk = written_in_turn(&rt, disk, 4);
    drop(written_in_turn(&rt, disk, 5));
}

// How many bytes a disk shows after a crash, and the place of the first 0xFF among them.
fn first_ones(disk: MemDisk) -> (usize, Option<usize>) {
    let disk = disk.restart();
    let shown = disk.shown();
    (shown.len(), shown.iter().position(|byte| *byte == 0xFF))
}

// A crash at this call that fills with ones.
fn ones_at(k: u32) -> Stop {
    Stop {
        k,
        fill: Fill::Ones,
    }
}

// A write of generation 3 beside a slot with this commit byte ends with a crash at its first call. The
// crash changes this place.
fn changes_first(rt: &impl Abort, alloc: Global, spare: u8, place: usize) {
    let geometry = small(rt);
    let mut disk = device(rt, alloc, &slot_of(0xA7, 2), &slot_of(spare, 1), ones_at(1));
    let done = write_next(rt, &mut disk, geometry, body_of(3));
    same(rt, &(done, first_ones(disk)), &(false, (LEN, Some(place))));
}

// The first call writes to the commit byte if that is open, and else to the last place of the slot.
#[test]
fn the_first_call_spares_a_closed_commit_byte(rt: HostRuntime) {
    changes_first(&rt, rt.alloc(), 0xA7, 8192);
    changes_first(&rt, rt.alloc(), 0, 12_287);
}

// A device with these slots after a write of the first body that this crash may interrupt, and
// whether the write succeeds.
fn first_written(
    rt: &impl Abort,
    alloc: Global,
    first: &Slot,
    second: &Slot,
    stop: Stop,
) -> (MemDisk, bool) {
    let mut disk = device(rt, alloc, first, second, stop);
    assert!(rt; disk.len() == LEN as u64);
    let done = write_slots(&mut disk).is_ok();
    (disk, done)
}

// The same over two old bodies.
fn written_over_old(rt: &impl Abort, alloc: Global, stop: Stop) -> (MemDisk, bool) {
    first_written(rt, alloc, &slot_of(0xA7, 4), &slot_of(0xA7, 5), stop)
}

// The slot with the first body and the digests.
fn first_slot() -> Slot {
    let mut slot = slot_of(0xA7, 0);
    put_digests(&mut slot);
    slot
}

// What is current after a crash, and whether the disk then has the first body and the digests.
fn first_after(disk: MemDisk, geometry: Geometry) -> (Current, bool) {
    let disk = disk.restart();
    (current(&disk, geometry), shows(&disk, 4096, &first_slot()))
}

// The first body is written over two old ones, with this crash. It is current from the call on that
// writes its commit byte: the seventh, at an even offset.
fn leaves_first(rt: &impl Abort, alloc: Global, stop: Stop) {
    let geometry = small(rt);
    let (disk, done) = written_over_old(rt, alloc, stop);
    let left = first_after(disk, geometry);
    same_in(rt, &done, &(stop.k == 0 || stop.k > 8), &stop);
    if done || (stop.k >= 7 && keeps_the_commit(stop.fill)) {
        same_in(rt, &left, &(Some(Ok(Body::first())), true), &stop);
    } else if stop.k >= 5 {
        same_in(rt, &left.0, &Some(Err(Damage::NoSlot)), &stop);
    }
}

// A crash comes at each of the eight calls, with every fill.
#[test]
fn the_first_body_is_current_once_it_is_written(rt: HostRuntime) {
    for number in 0..50u32 {
        leaves_first(&rt, rt.alloc(), stop_of(number));
    }
}

// The first write of the first body goes to the commit byte of slot 0, though that is closed.
#[test]
fn the_first_body_begins_at_its_commit_byte(rt: HostRuntime) {
    let closed = slot_of(0, 0);
    let (disk, done) = first_written(&rt, rt.alloc(), &closed, &closed, ones_at(3));
    same(&rt, &(done, first_ones(disk)), &(false, (LEN, Some(4096))));
}

// A write of the first body ends with a crash at this call, and slot 0 then shows this commit byte.
fn has_commit(rt: &impl Abort, alloc: Global, k: u32, commit: u8) {
    let stop = Stop { k, fill: Fill::Old };
    let (disk, done) = written_over_old(rt, alloc, stop);
    let is_shown = shows(&disk, 4096, &[commit]);
    drop(disk);
    same_in(rt, &(done, is_shown), &(false, true), &k);
}

// The commit byte of slot 0 is open before the first body is written. Of the six calls that write it, the
// first one closes the commit byte with a zero, and the fifth one opens it.
#[test]
fn the_first_commit_byte_is_closed_by_a_zero(rt: HostRuntime) {
    let alloc = rt.alloc();
    has_commit(&rt, alloc, 2, 0xA7);
    has_commit(&rt, alloc, 3, 0);
    has_commit(&rt, alloc, 4, 0);
    has_commit(&rt, alloc, 5, 0);
    has_commit(&rt, alloc, 6, 0);
    has_commit(&rt, alloc, 7, 0xA7);
    has_commit(&rt, alloc, 8, 0xA7);
}

// A disk whose call of this kind and this number fails.
fn failing(rt: &impl Abort, alloc: Global, call: Call, number: u64) -> FaultDisk
    ensures { Rests (fault_content result) }
{
    FaultDisk::new(first_device(rt, alloc, NEVER), call, number)
}

// Whether the manifest can be read if the read of this number fails.
fn reads_with_fault(rt: &impl Abort, alloc: Global, number: u64) -> bool {
    let geometry = small(rt);
    let disk = failing(rt, alloc, Call::Read, number);
    current(&disk, geometry).is_some()
}

// Whether a write of the next body succeeds if a call of this kind and this number fails.
fn writes_with_fault(rt: &impl Abort, alloc: Global, call: Call, number: u64) -> bool {
    let geometry = small(rt);
    let mut disk = failing(rt, alloc, call, number);
    write_next(rt, &mut disk, geometry, body_of(1))
}

// The fault of the read of this number is returned, and those of the write and of the sync.
fn hands_on(rt: &impl Abort, alloc: Global, number: u64) {
    same_in(
        rt,
        &reads_with_fault(rt, alloc, number),
        &(number == 4),
        &number,
    );
    same_in(
        rt,
        &writes_with_fault(rt, alloc, Call::Write, number),
        &(number > 3),
        &number,
    );
    same_in(
        rt,
        &writes_with_fault(rt, alloc, Call::Sync, number),
        &(number > 3),
        &number,
    );
}

// The fault of each read is returned, that of the header too, and the fault of each of the six
// calls of a write.
#[test]
fn hands_on_each_fault(rt: HostRuntime) {
    for number in 1..5u64 {
        hands_on(&rt, rt.alloc(), number);
    }
}
