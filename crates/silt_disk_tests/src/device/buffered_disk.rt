// A disk that buffers: how often it calls the inner disk, and which bytes the inner disk has
// meanwhile.
use super::{Step, do_all, four_at, write_at};
use silt_device::{BufferedDisk, Call, Disk, FaultDisk, MemDisk, Stoppable};
use std::alloc::Global;
use std::process::Abort;
use std::test::Fail;

const LEN: u64 = 24;

// Writes in turn: two that are buffered, one that fills the room, one that finds no room, one
// elsewhere, one over bytes of two buffers, one longer than the room, one elsewhere, and one of no
// bytes.
const WRITES: [(u64, &[u8]); 9] = [
    (4, &[0x11, 0x12, 0x13]),
    (7, &[0x21, 0x22]),
    (9, &[0x31, 0x32, 0x33]),
    (12, &[0x41]),
    (0, &[0x51, 0x52, 0x53, 0x54]),
    (2, &[0x61, 0x62, 0x63, 0x64]),
    (10, &[0x71, 0x72, 0x73, 0x74, 0x75, 0x76, 0x77, 0x78, 0x79]),
    (19, &[0x81, 0x82]),
    (21, &[]),
];

// Whether these bytes were written to a disk of LEN bytes.
fn write_within<D: Disk>(disk: &mut D, at: u64, bytes: &[u8]) -> bool {
    disk.len() == LEN && write_at(disk, at, bytes)
}

// The four bytes from a place on, if the disk has LEN bytes and the read succeeds.
fn four_within<D: Disk>(disk: &D, at: u64) -> Option<[u8; 4]> {
    if disk.len() != LEN {
        return None;
    }
    four_at(disk, at)
}

// The bytes from a place to the end of the disk.
fn tail_of<D: Disk>(disk: &D, at: u64) -> Option<[u8; 24]> {
    let mut read = [0; 24];
    if disk.len() != LEN || at > LEN {
        return None;
    }
    let count = (LEN - at) as usize;
    disk.read(at, &mut read[..count]).ok()?;
    Some(read)
}

// The first place from which two disks return different bytes, either four or all to the end.
fn first_difference<A: Disk, B: Disk>(one: &A, other: &B) -> Option<u64> {
    (0..=LEN).find(|&place| {
        tail_of(one, place) != tail_of(other, place) || four_at(one, place) != four_at(other, place)
    })
}

fn buffered(alloc: Global, call: Call, number: u64) -> Result<BufferedDisk<FaultDisk>, Fail> {
    let disk = FaultDisk::new(MemDisk::new(alloc, LEN as usize)?, call, number);
    Ok(BufferedDisk::with_room(alloc, disk, 8)?)
}

// Makes these writes to two disks, which return the same bytes after each, and syncs the first one.
fn write_to_both<A: Disk, B: Disk>(
    rt: &impl Abort,
    disk: &mut A,
    plain: &mut B,
    writes: &[(u64, &[u8])],
) {
    for (at, bytes) in writes {
        let is_written = write_within(disk, *at, bytes) && write_within(plain, *at, bytes);
        assert!(rt; is_written, "at {at}");
        let difference = first_difference(disk, plain);
        assert_eq!(rt; difference, None, "after {at}");
    }
    assert!(rt; disk.sync().is_ok());
}

// After a crash of the first disk both have the same bytes.
fn show_alike(rt: &impl Abort, disk: BufferedDisk<FaultDisk>, plain: &MemDisk) {
    let left = disk.into_inner().into_disk().restart();
    assert_eq!(rt; left.shown(), plain.shown());
}

// Each read returns what a disk without a buffer returns, whether it begins before, in or after the
// buffered bytes.
#[test]
fn it_shows_what_was_written(rt: HostRuntime) -> Result<(), Fail> {
    let mut plain = MemDisk::new(rt.alloc(), 24)?;
    let mut disk = buffered(rt.alloc(), Call::Write, 0)?;
    write_to_both(&rt, &mut disk, &mut plain, &WRITES);
    show_alike(&rt, disk, &plain);
    Ok(())
}

// Which write of the inner disk fails, how many of the nine writes then fail, and whether the sync
// succeeds. The nine writes make five writes of the inner disk, and the sync makes the sixth.
const FAILURES: [(u64, u32, bool); 7] = [
    (1, 1, true),
    (2, 1, true),
    (3, 1, true),
    (4, 1, true),
    (5, 1, true),
    (6, 0, false),
    (7, 0, true),
];

// How many of these writes fail.
fn count_failed<D: Disk>(disk: &mut D, writes: &[(u64, &[u8])]) -> u32 {
    let mut failed = 0u32;
    for (at, bytes) in writes {
        if !write_within(disk, *at, bytes) {
            failed = failed.saturating_add(1);
        }
    }
    failed
}

// How many of the nine writes fail if this write of the inner disk does, and whether the sync
// succeeds.
fn answered(alloc: Global, number: u64) -> Result<(u32, bool), Fail> {
    let mut disk = buffered(alloc, Call::Write, number)?;
    let failed = count_failed(&mut disk, &WRITES);
    Ok((failed, disk.sync().is_ok()))
}

#[test]
fn adjacent_bytes_are_one_write(rt: HostRuntime) -> Result<(), Fail> {
    for (number, failures, synced) in FAILURES {
        let answers = answered(rt.alloc(), number)?;
        assert_eq!(rt; answers, (failures, synced), "{number}");
    }
    Ok(())
}

// Three buffers have bytes. The first write of the inner disk fails: that of the first of them.
const FIRST_WRITE_FAILS: [Step; 7] = [
    Step::Write(4, &[0x11, 0x12, 0x13], true),
    Step::Write(12, &[0x14], true),
    Step::Write(16, &[0x15], true),
    Step::Write(20, &[0x21], false),
    Step::Read(4, Some([0x11, 0x12, 0x13, 0])),
    Step::Read(2, Some([0, 0, 0x11, 0x12])),
    Step::Sync(true),
];

// If the buffered bytes cannot be written, reads still return them, and the next sync writes them.
// The range of the refused write is pending: a crash may leave any bytes there.
#[test]
fn a_failed_write_keeps_what_is_buffered(rt: HostRuntime) -> Result<(), Fail> {
    let mut disk = buffered(rt.alloc(), Call::Write, 1)?;
    do_all(&rt, &mut disk, LEN, &FIRST_WRITE_FAILS);
    let left = four_within(&disk.into_inner().into_disk().restart(), 4);
    assert_eq!(rt; left, Some([0x11, 0x12, 0x13, 0]));
    Ok(())
}

// Writes at three places in turn, each behind the last one there, and one over bytes that another
// place has.
const THREE_PLACES: [(u64, &[u8]); 7] = [
    (0, &[0x11, 0x12]),
    (8, &[0x21]),
    (16, &[0x31]),
    (2, &[0x13]),
    (9, &[0x22, 0x23]),
    (17, &[0x32]),
    (3, &[0x14]),
];

// Which write of the inner disk fails, and whether the sync then succeeds. The seven writes make
// none, and the sync makes three.
const SYNCED: [(u64, bool); 4] = [(1, false), (2, false), (3, false), (4, true)];

#[test]
fn three_places_are_three_writes(rt: HostRuntime) -> Result<(), Fail> {
    for (number, synced) in SYNCED {
        let mut disk = buffered(rt.alloc(), Call::Write, number)?;
        let failed = count_failed(&mut disk, &THREE_PLACES);
        assert_eq!(rt; (failed, disk.sync().is_ok()), (0, synced), "{number}");
    }
    Ok(())
}

// Bytes in one buffer, then some of their places in a second one, and two writes that continue the
// first but lie in the second.
const OVER_ANOTHER: [(u64, &[u8]); 5] = [
    (0, &[0x11, 0x12, 0x13, 0x14]),
    (2, &[0x21, 0x22, 0x23, 0x24]),
    (4, &[0x31, 0x32]),
    (6, &[0x41]),
    (4, &[0x51]),
];

// Of bytes in two buffers the newer ones are shown, and stay.
#[test]
fn the_newer_of_two_buffers_is_shown(rt: HostRuntime) -> Result<(), Fail> {
    let mut plain = MemDisk::new(rt.alloc(), 24)?;
    let mut disk = buffered(rt.alloc(), Call::Write, 0)?;
    write_to_both(&rt, &mut disk, &mut plain, &OVER_ANOTHER);
    show_alike(&rt, disk, &plain);
    Ok(())
}

// One write before a sync, and one after it.
const ONE_SYNCED: [Step; 3] = [
    Step::Write(0, &[0x11], true),
    Step::Sync(true),
    Step::Write(1, &[0x12], true),
];

// A crash loses the bytes that were buffered and not synced.
#[test]
fn a_stop_forgets_what_is_buffered(rt: HostRuntime) -> Result<(), Fail> {
    let mut disk = BufferedDisk::new(rt.alloc(), MemDisk::new(rt.alloc(), 24)?)?;
    do_all(&rt, &mut disk, LEN, &ONE_SYNCED);
    let left = four_within(&disk.restart(), 0);
    assert_eq!(rt; left, Some([0x11, 0, 0, 0]));
    Ok(())
}

// The first read of the inner disk fails.
const FIRST_READ_FAILS: [Step; 4] = [
    Step::Write(4, &[0x11, 0x12, 0x13, 0x14], true),
    Step::Read(4, Some([0x11, 0x12, 0x13, 0x14])),
    Step::Read(5, None),
    Step::Read(5, Some([0x12, 0x13, 0x14, 0])),
];

// A read of buffered bytes makes no call of the inner disk. Any other read makes one.
#[test]
fn buffered_bytes_are_read_without_a_call(rt: HostRuntime) -> Result<(), Fail> {
    let mut disk = buffered(rt.alloc(), Call::Read, 1)?;
    do_all(&rt, &mut disk, LEN, &FIRST_READ_FAILS);
    Ok(())
}
