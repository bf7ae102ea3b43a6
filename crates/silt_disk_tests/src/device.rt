// Disks in memory: which image each crash leaves, which call fails, and the worked layouts.
mod behaving_file;
mod buffered_disk;
mod files;

use silt_device::{
    BadGeometry, Call, Disk, FaultDisk, Fill, Geometry, MemDisk, Stop, Stoppable, regions_law,
};
use std::alloc::{AllocError, Global};
use std::process::Abort;
use std::test::Fail;

const FIRST: [u8; 4] = [0x11, 0x12, 0x13, 0x14];

const SECOND: [u8; 3] = [0x23, 0x24, 0x25];

// A call of a disk, and its result: whether the write or the sync succeeds, or the four bytes that
// a read returns.
#[derive(Clone, Copy, Debug)]
enum Step {
    Write(u64, &'static [u8], bool),
    Sync(bool),
    Read(u64, Option<[u8; 4]>),
}

// Whether these bytes were written. They are not if they do not fit on the disk.
fn write_at<D: Disk>(disk: &mut D, at: u64, bytes: &[u8]) -> bool {
    if at > disk.len() || bytes.len() as u64 > disk.len() - at {
        return false;
    }
    disk.write(at, bytes).is_ok()
}

// The four bytes from a place on, if the disk has as many and the read succeeds.
fn four_at<D: Disk>(disk: &D, at: u64) -> Option<[u8; 4]> {
    if at > disk.len() || disk.len() - at < 4 {
        return None;
    }
    let mut read = [0; 4];
    disk.read(at, &mut read).ok()?;
    Some(read)
}

fn is_answered<D: Disk>(disk: &mut D, step: Step) -> bool {
    match step {
        Step::Write(at, bytes, is_done) => write_at(disk, at, bytes) == is_done,
        Step::Sync(is_done) => disk.sync().is_ok() == is_done,
        Step::Read(at, bytes) => four_at(disk, at) == bytes,
    }
}

// Makes these calls up to the first with another result, and returns that one.
fn first_wrong<D: Disk>(disk: &mut D, steps: &[Step]) -> Option<Step> {
    for step in steps {
        if !is_answered(disk, *step) {
            return Some(*step);
        }
    }
    None
}

// Makes these calls on a disk of this length, and compares their results.
fn do_all<D: Disk>(rt: &impl Abort, disk: &mut D, len: u64, steps: &[Step]) {
    assert_eq!(rt; disk.len(), len);
    let wrong = first_wrong(disk, steps);
    assert!(rt; wrong.is_none(), "{wrong:?}");
}

// A disk of these bytes whose lives end with these crashes.
fn armed(alloc: Global, bytes: &[u8], ends: &[(u32, Fill)]) -> Result<MemDisk, AllocError> {
    let mut stops = Vec::new(alloc);
    for (k, fill) in ends {
        stops.push(Stop { k: *k, fill: *fill })?;
    }
    Ok(MemDisk::with_bytes(alloc, bytes)?.arm(stops))
}

// FIRST at 1, a sync, SECOND at 3, a sync.
const FOUR_CALLS: [Step; 4] = [
    Step::Write(1, &FIRST, true),
    Step::Sync(true),
    Step::Write(3, &SECOND, true),
    Step::Sync(true),
];

// The image that a life of these four calls leaves if it crashes at the K-th of them.
const LEFT: [(u32, Fill, [u8; 8]); 22] = [
    (1, Fill::Old, [0, 0, 0, 0, 0, 0, 0, 0]),
    (1, Fill::New, [0, 0x11, 0x12, 0x13, 0x14, 0, 0, 0]),
    (1, Fill::Zero, [0, 0, 0, 0, 0, 0, 0, 0]),
    (1, Fill::Ones, [0, 0xFF, 0xFF, 0xFF, 0xFF, 0, 0, 0]),
    (1, Fill::Mix, [0, 0, 0x12, 0, 0x14, 0, 0, 0]),
    (2, Fill::Old, [0, 0, 0, 0, 0, 0, 0, 0]),
    (2, Fill::New, [0, 0x11, 0x12, 0x13, 0x14, 0, 0, 0]),
    (2, Fill::Zero, [0, 0, 0, 0, 0, 0, 0, 0]),
    (2, Fill::Ones, [0, 0xFF, 0xFF, 0xFF, 0xFF, 0, 0, 0]),
    (2, Fill::Mix, [0, 0, 0x12, 0, 0x14, 0, 0, 0]),
    (3, Fill::Old, [0, 0x11, 0x12, 0x13, 0x14, 0, 0, 0]),
    (3, Fill::New, [0, 0x11, 0x12, 0x23, 0x24, 0x25, 0, 0]),
    (3, Fill::Zero, [0, 0x11, 0x12, 0, 0, 0, 0, 0]),
    (3, Fill::Ones, [0, 0x11, 0x12, 0xFF, 0xFF, 0xFF, 0, 0]),
    (3, Fill::Mix, [0, 0x11, 0x12, 0x13, 0x24, 0, 0, 0]),
    (4, Fill::Old, [0, 0x11, 0x12, 0x13, 0x14, 0, 0, 0]),
    (4, Fill::New, [0, 0x11, 0x12, 0x23, 0x24, 0x25, 0, 0]),
    (4, Fill::Zero, [0, 0x11, 0x12, 0, 0, 0, 0, 0]),
    (4, Fill::Ones, [0, 0x11, 0x12, 0xFF, 0xFF, 0xFF, 0, 0]),
    (4, Fill::Mix, [0, 0x11, 0x12, 0x13, 0x24, 0, 0, 0]),
    (5, Fill::Zero, [0, 0x11, 0x12, 0x23, 0x24, 0x25, 0, 0]),
    (0, Fill::Ones, [0, 0x11, 0x12, 0x23, 0x24, 0x25, 0, 0]),
];

// How many of the four calls succeed, up to the first that fails.
fn count_done<D: Disk>(disk: &mut D) -> u32 {
    let mut done = 0u32;
    for step in FOUR_CALLS {
        if !is_answered(disk, step) {
            return done;
        }
        done = done.saturating_add(1);
    }
    done
}

// The bytes of a disk of eight, or none if the read fails.
fn eight_of<D: Disk>(disk: &D) -> Option<[u8; 8]> {
    let mut read = [0; 8];
    if disk.len() != 8 {
        return None;
    }
    disk.read(0, &mut read).ok()?;
    Some(read)
}

// Makes the four calls on a disk of eight bytes that crashes at the K-th. That call and all after
// it fail, reads too.
fn stops_at(rt: &impl Abort, disk: &mut MemDisk, k: u32) {
    let is_stopped = 0 < k && k < 5;
    assert_eq!(rt; disk.len(), 8);
    assert_eq!(rt;
        count_done(disk),
        if is_stopped { k - 1 } else { 4 },
        "at {k}"
    );
    assert_eq!(rt; eight_of(disk).is_none(), is_stopped, "at {k}");
    assert!(rt; !is_stopped || disk.sync().is_err(), "at {k}");
}

// The disk has these bytes, and shows them.
fn shows(rt: &impl Abort, disk: &MemDisk, left: [u8; 8], k: u32) {
    assert_eq!(rt; eight_of(disk), Some(left), "at {k}");
    assert_eq!(rt; disk.shown(), left.as_slice(), "at {k}");
}

// Each call in turn fails, and every call after it, reads too. The bytes of the failed write are
// shown, and are pending.
#[test]
fn each_stop_leaves_its_image(rt: HostRuntime) -> Result<(), Fail> {
    for (k, fill, left) in LEFT {
        let mut disk = armed(rt.alloc(), &[0; 8], &[(k, fill)])?;
        stops_at(&rt, &mut disk, k);
        shows(&rt, &disk.restart(), left, k);
    }
    Ok(())
}

// The calls of a life, the bytes that a disk of four shows at its end, and those that it has after
// the crash.
type Shown = (&'static [Step], [u8; 4], [u8; 4]);

// The disk begins with the bytes 1, 2, 3 and 4. The first life crashes at its end, with ones, and
// the second one at call 1.
const LIVES: [Shown; 3] = [
    (
        &[Step::Write(1, &[7, 8], true)],
        [1, 7, 8, 4],
        [1, 0xFF, 0xFF, 4],
    ),
    (
        &[Step::Write(3, &[9], false)],
        [1, 0xFF, 0xFF, 9],
        [1, 0xFF, 0xFF, 9],
    ),
    (
        &[
            Step::Sync(true),
            Step::Sync(true),
            Step::Sync(true),
            Step::Write(0, &[5], true),
        ],
        [5, 0xFF, 0xFF, 9],
        [1, 0xFF, 0xFF, 9],
    ),
];

// Runs a life, and crashes the disk.
fn lived(rt: &impl Abort, mut disk: MemDisk, (steps, shown, left): Shown) -> MemDisk {
    do_all(rt, &mut disk, 4, steps);
    shows_four(rt, &disk, shown);
    let disk = disk.restart();
    shows_four(rt, &disk, left);
    disk
}

fn shows_four(rt: &impl Abort, disk: &MemDisk, bytes: [u8; 4]) {
    assert_eq!(rt; disk.shown(), bytes.as_slice());
    assert_eq!(rt; disk.len(), 4);
}

// With k = 0 no call fails, and the crash comes at the end of the life. A life past the end of the
// list is the same, and its crash leaves the settled bytes.
#[test]
fn each_restart_begins_the_next_life(rt: HostRuntime) -> Result<(), Fail> {
    let mut disk = armed(
        rt.alloc(),
        &[1, 2, 3, 4],
        &[(0, Fill::Ones), (1, Fill::New)],
    )?;
    for life in LIVES {
        disk = lived(&rt, disk, life);
    }
    Ok(())
}

// Makes two reads, two writes and two syncs of a disk of eight bytes. Returns which of them failed.
fn six_calls<D: Disk>(rt: &impl Abort, disk: &mut D) -> [bool; 6] {
    assert_eq!(rt; disk.len(), 8);
    let first = [
        four_at(disk, 0).is_none(),
        !write_at(disk, 1, &FIRST),
        disk.sync().is_err(),
    ];
    let second = [
        four_at(disk, 0).is_none(),
        !write_at(disk, 3, &SECOND),
        disk.sync().is_err(),
    ];
    [
        first[0], first[1], first[2], second[0], second[1], second[2],
    ]
}

// Which of the six calls fail on a disk that fails this one.
fn failed_calls(
    rt: &impl Abort,
    alloc: Global,
    call: Call,
    number: u64,
) -> Result<[bool; 6], AllocError> {
    let mut disk = FaultDisk::new(MemDisk::new(alloc, 8)?, call, number);
    Ok(six_calls(rt, &mut disk))
}

// The chosen call fails, and no other.
#[test]
fn one_call_fails(rt: HostRuntime) -> Result<(), Fail> {
    for (place, call) in [Call::Read, Call::Write, Call::Sync].iter().enumerate() {
        for number in 0..4u64 {
            let failed = failed_calls(&rt, rt.alloc(), *call, number)?;
            for index in 0..6usize {
                let is_named = number == 1 && index == place || number == 2 && index == place + 3;
                assert_eq!(rt; failed[index], is_named, "{call:?} {number}");
            }
        }
    }
    Ok(())
}

// The second write fails on a disk of four bytes.
const SECOND_WRITE_FAILS: [Step; 5] = [
    Step::Write(0, &[5], true),
    Step::Sync(true),
    Step::Write(1, &[6, 7], false),
    Step::Read(0, Some([5, 2, 3, 4])),
    Step::Write(3, &[8], true),
];

// A failed write shows nothing new, and its range is pending: a crash may leave any bytes there.
#[test]
fn a_failed_write_shows_nothing_new(rt: HostRuntime) -> Result<(), Fail> {
    let inner = armed(rt.alloc(), &[1, 2, 3, 4], &[(0, Fill::Ones)])?;
    let mut disk = FaultDisk::new(inner, Call::Write, 2);
    do_all(&rt, &mut disk, 4, &SECOND_WRITE_FAILS);
    let disk = disk.into_disk();
    shows_four(&rt, &disk, [5, 2, 3, 8]);
    shows_four(&rt, &disk.restart(), [5, 0xFF, 0xFF, 0xFF]);
    Ok(())
}

fn geometry(numbers: [u32; 6]) -> Result<Geometry, BadGeometry> {
    let [
        value_len,
        buckets,
        log_capacity,
        logs,
        hashes,
        sorted_capacity,
    ] = numbers;
    Geometry::new(
        value_len,
        buckets,
        log_capacity,
        logs,
        hashes,
        sorted_capacity,
    )
}

// The numbers on both sides of each limit, and whether they are within the limits.
const LIMITS: [([u32; 6], bool); 25] = [
    ([0, 2, 4, 2, 2, 8], false),
    ([1, 2, 4, 2, 2, 8], true),
    ([4096, 2, 4, 2, 2, 8], true),
    ([4097, 2, 4, 2, 2, 8], false),
    ([2, 1, 4, 2, 2, 8], false),
    ([2, 2, 4, 2, 2, 8], true),
    ([2, 3, 4, 2, 2, 8], false),
    ([2, 32_768, 4, 2, 2, 8], true),
    ([2, 65_536, 4, 2, 2, 8], false),
    ([2, 2, 0, 2, 2, 8], false),
    ([2, 2, 1, 2, 2, 8], true),
    ([2, 2, 8, 2, 2, 8], true),
    ([2, 2, 9, 2, 2, 8], false),
    ([2, 2, 4, 1, 2, 8], false),
    ([2, 2, 4, 2, 2, 8], true),
    ([2, 2, 4, 8, 2, 8], true),
    ([2, 2, 4, 9, 2, 8], false),
    ([2, 2, 4, 2, 0, 8], false),
    ([2, 2, 4, 2, 1, 8], true),
    ([2, 2, 4, 2, 16, 8], true),
    ([2, 2, 4, 2, 17, 8], false),
    ([2, 2, 4, 2, 2, 0], false),
    ([2, 2, 4, 2, 2, 1], true),
    ([2, 2, 4, 2, 2, 16_777_216], true),
    ([2, 2, 4, 2, 2, 16_777_217], false),
];

#[test]
fn limits(rt: HostRuntime) {
    for (numbers, fits) in LIMITS {
        assert_eq!(rt; geometry(numbers).is_ok(), fits, "{numbers:?}");
    }
}

// The numbers of a geometry.
fn numbers_of(geometry: &Geometry) -> [u32; 6] {
    [
        geometry.value_len(),
        geometry.buckets(),
        geometry.log_capacity(),
        geometry.logs(),
        geometry.hashes(),
        geometry.sorted_capacity(),
    ]
}

// Where the first or the second of each kind begins: a slot, the commit bytes and the bodies of a log, a
// hash region and a sorted region. None if the geometry has no second one.
fn places_of(geometry: &Geometry, second: bool) -> Option<[u64; 5]> {
    if geometry.logs() < 2 || geometry.hashes() < 2 {
        return None;
    }
    let place = if second { 1 } else { 0 };
    Some([
        geometry.slot_at(place),
        geometry.commits_at(place),
        geometry.bodies_at(place),
        geometry.hash_at(place),
        geometry.sorted_at(place),
    ])
}

const FIRST_PLACES: [u64; 5] = [4096, 12_288, 16_384, 28_672, 36_864];

const SECOND_PLACES: [u64; 5] = [8192, 20_480, 24_576, 32_768, 40_960];

fn is_laid_out(rt: &impl Abort, small: &Geometry) {
    assert_eq!(rt; numbers_of(small), [2, 2, 4, 2, 2, 8]);
    assert_eq!(rt; places_of(small, false), Some(FIRST_PLACES));
    assert_eq!(rt; places_of(small, true), Some(SECOND_PLACES));
    assert_eq!(rt; (small.row_len(), small.entry_len()), (23, 22));
}

// The layout of two small logs, two hash regions and the two sorted regions, and the length of a larger device.
#[test]
fn layouts(rt: HostRuntime) -> Result<(), Fail> {
    let small = geometry([2, 2, 4, 2, 2, 8]).ok().ok_or("in limits")?;
    is_laid_out(&rt, &small);
    let large = geometry([100, 1024, 3000, 4, 4, 100_000])
        .ok()
        .ok_or("in limits")?;
    assert_eq!(rt; (small.size(), large.size()), (45_056, 27_471_872));
    regions_law();
    Ok(())
}
