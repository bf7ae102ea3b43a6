// The device calls of a formatting and of an opening, with a crash at each, and failed reads.

use crate::got;
use silt_device::{Call, FaultDisk, Fill, Geometry, MemDisk, Stop, Stoppable};
use silt_event::{Finding, Layout, Report};
use silt_fixtures::{FILLS, SMALL_LEN, blank_of_version_1, changed, key, opened_on, small};
use silt_recovery::{FormatError, OpenError, check, format, open};
use silt_store_set::Core;
use std::alloc::Global;
use std::process::Abort;
use std::test::Fail;

// The bytes of an empty store of the small geometry, SMALL_LEN of them, on a device of version 1.
// Its manifest has no digests, so it can name stores whose bytes are made by hand.
fn small_blank(rt: &impl Abort, alloc: Global) -> Result<Vec<u8>, Fail> {
    let whole = blank_of_version_1(alloc, small()?)?;
    assert!(rt; whole.len() == SMALL_LEN);
    Ok(whole)
}

// Changes of a device: the place of a byte, and its new value.
type Changes<'a> = &'a [(usize, u8)];

// What a check reports of an empty store.
const EMPTY: Report = Report {
    generation: 0,
    active: 0,
    active_rows: 0,
    frozen: 0,
    frozen_rows: 0,
    hashes: 0,
    hash_rows: 0,
    entries: 0,
    charge: 0,
    layout: Layout::Two,
};

// The report of a check, or what it finds wrong.
type Found = Result<Report, Finding>;

// The finding of a check that was refused.
fn finding<F: Drop>(error: OpenError<F>) -> Result<Finding, Fail> {
    match error {
        OpenError::NotFormatted => Ok(Finding::NotFormatted),
        OpenError::Damaged(place) => Ok(Finding::Damaged(place)),
        OpenError::Crowded => Ok(Finding::Crowded),
        OpenError::Device(_) => Err("a device call failed".into()),
        OpenError::NoMemory => Err("no memory".into()),
    }
}

// The report of a check of this disk, or what it finds wrong.
fn checked(alloc: Global, disk: &MemDisk) -> Result<Found, Fail> {
    match check(alloc, disk) {
        Ok(report) => Ok(Ok(report)),
        Err(error) => Ok(Err(finding(error)?)),
    }
}

// How many writes and syncs a formatting makes.
const FORMAT_CALLS: u32 = 15;

// A disk of these bytes that crashes at this write or sync.
fn stopping(alloc: Global, bytes: &[u8], k: u32, fill: Fill) -> Result<MemDisk, Fail> {
    let mut stops = Vec::new(alloc);
    stops.push(Stop { k, fill })?;
    Ok(MemDisk::with_bytes(alloc, bytes)?.arm(stops))
}

// How a formatting ends.
#[derive(Clone, Copy, PartialEq, Eq)]
enum End {
    Done,
    BadGeometry,
    Stopped,
    NoMemory,
}

fn end_of<F: Drop>(error: &FormatError<F>) -> End {
    match error {
        FormatError::BadGeometry => End::BadGeometry,
        FormatError::Device(_) => End::Stopped,
        FormatError::NoMemory => End::NoMemory,
    }
}

// Formats a device of this many of these bytes as a small store, with a crash at this write or
// sync. Returns how the formatting ends, and the disk after the crash.
fn formatted(
    alloc: Global,
    (len, byte): (usize, u8),
    k: u32,
    fill: Fill,
) -> Result<(MemDisk, End), Fail> {
    let geometry = small()?;
    let bytes = vec![in alloc; byte; len]?;
    Ok(formatted_on(alloc, stopping(alloc, &bytes, k, fill)?, geometry))
}

fn formatted_on(alloc: Global, disk: MemDisk, geometry: Geometry) -> (MemDisk, End) {
    match format(alloc, disk, geometry) {
        Ok(disk) => (disk.restart(), End::Done),
        Err(fault) => {
            let end = end_of(&fault.error);
            (fault.disk.restart(), end)
        }
    }
}

// How a formatting of zeros ends with a crash at this write or sync, and what a check then finds.
fn left_by(alloc: Global, k: u32, fill: Fill) -> Result<(End, Found), Fail> {
    let (disk, end) = formatted(alloc, (SMALL_LEN, 0), k, fill)?;
    Ok((end, checked(alloc, &disk)?))
}

// A crash in a formatting of zeros leaves no store or an empty one. Only one at the last two calls
// may leave a store.
fn left_at(k: u32, fill: Fill) -> (End, Found) {
    if k > FORMAT_CALLS {
        return (End::Done, Ok(EMPTY));
    }
    if k >= FORMAT_CALLS - 1 && (fill == Fill::New || fill == Fill::Mix) {
        return (End::Stopped, Ok(EMPTY));
    }
    (End::Stopped, Err(Finding::NotFormatted))
}

fn leaves_no_other_store(rt: &impl Abort, alloc: Global, k: u32, fill: Fill) -> Result<(), Fail> {
    let left = left_by(alloc, k, fill)?;
    assert!(rt; left == left_at(k, fill), "{k} {fill:?}");
    Ok(())
}

#[test]
fn a_stopped_formatting_leaves_no_other_store(rt: HostRuntime) -> Result<(), Fail> {
    for fill in FILLS {
        for k in 1..FORMAT_CALLS + 2 {
            leaves_no_other_store(&rt, rt.alloc(), k, fill)?;
        }
    }
    Ok(())
}

// A device of another length is refused with no call: the first one would fail.
#[test]
fn formats_no_other_length(rt: HostRuntime) -> Result<(), Fail> {
    assert!(rt; refused(rt.alloc())? == (End::BadGeometry, 45_055, true));
    Ok(())
}

// How the formatting of zeros of another length ends, and the length of the disk and whether it has
// zeros then.
fn refused(alloc: Global) -> Result<(End, usize, bool), Fail> {
    let (disk, end) = formatted(alloc, (45_055, 0), 1, Fill::Ones)?;
    Ok((end, disk.shown().len(), are_zeros(disk.shown())))
}

fn are_zeros(bytes: &[u8]) -> bool {
    for byte in bytes {
        if *byte != 0 {
            return false;
        }
    }
    true
}

// The commit bytes of both logs on a device.
fn commits_of(rt: &impl Abort, shown: &[u8]) -> [u8; 8] {
    assert!(rt; shown.len() == SMALL_LEN);
    let mut commits = [0; 8];
    commits[..4].copy_from_slice(&shown[12_288..12_292]);
    commits[4..].copy_from_slice(&shown[20_480..20_484]);
    commits
}

// The commit bytes of both logs after an opening of a device of these bytes that crashes at this write or
// sync. None if the opening fails.
fn opened(rt: &impl Abort, alloc: Global, bytes: &[u8], k: u32) -> Result<Option<[u8; 8]>, Fail> {
    let disk = stopping(alloc, bytes, k, Fill::Old)?;
    Ok(commits_opened(rt, alloc, disk))
}

fn commits_opened(rt: &impl Abort, alloc: Global, disk: MemDisk) -> Option<[u8; 8]> {
    match open(alloc, disk) {
        Ok(opened) => Some(commits_of(rt, opened.disk.shown())),
        Err(fault) => is_fault(rt, &fault.error),
    }
}

// An opening that fails only does so by a call of the disk. Returns no commit bytes.
fn is_fault<F>(rt: &impl Abort, error: &OpenError<F>) -> Option<[u8; 8]> {
    assert!(rt; matches!(error, OpenError::Device(_)));
    None
}

// Log 1 is frozen, and its second commit byte is open after a closed one. In the second case the third
// commit byte of the active log is open after closed ones too.
const OPEN_BEHIND: [(Changes, u32); 2] = [
    (&[(4112, 1), (4116, 1), (20_481, 0xA7)], 1),
    (&[(4112, 1), (4116, 1), (20_481, 0xA7), (12_290, 0xA7)], 3),
];

// An opening of a device of these bytes makes exactly this many writes and syncs.
fn opens_in(rt: &impl Abort, alloc: Global, bytes: &[u8], calls: u32) -> Result<(), Fail> {
    for k in 1..calls.saturating_add(2) {
        let commits = opened(rt, alloc, bytes, k)?;
        let expected = (k > calls).then_some([0, 0, 0, 0, 0, 0xA7, 0, 0]);
        assert!(rt; commits == expected, "{k}");
    }
    Ok(())
}

// An opening makes a sync. If a commit byte of the active log past its first closed one is open, it also
// makes a write and a sync. It never writes to a frozen log.
#[test]
fn seals_the_active_log_alone(rt: HostRuntime) -> Result<(), Fail> {
    seals_each(&rt, rt.alloc(), &OPEN_BEHIND)
}

fn seals_each(rt: &impl Abort, alloc: Global, cases: &[(Changes, u32)]) -> Result<(), Fail> {
    for (changes, calls) in cases {
        let bytes = small_changed(rt, alloc, changes)?;
        opens_in(rt, alloc, &bytes, *calls)?;
    }
    Ok(())
}

// The bytes of an empty store of the small geometry without digests, with some of them changed.
fn small_changed(rt: &impl Abort, alloc: Global, changes: &[(usize, u8)]) -> Result<Vec<u8>, Fail> {
    let whole = small_blank(rt, alloc)?;
    changed(alloc, &whole, changes)
}

// Whether a check of a disk of these bytes is refused with a fault if this read fails, and whether
// it succeeds.
fn checked_at(alloc: Global, bytes: &[u8], number: u64) -> Result<(bool, bool), Fail> {
    let disk = FaultDisk::new(MemDisk::with_bytes(alloc, bytes)?, Call::Read, number);
    match check(alloc, &disk) {
        Ok(_) => Ok((false, true)),
        Err(error) => Ok((matches!(&error, OpenError::Device(_)), false)),
    }
}

// A check of a device of these bytes makes exactly this many reads, and returns the fault of each.
fn checks_in(rt: &impl Abort, alloc: Global, bytes: &[u8], reads: u64) -> Result<(), Fail> {
    for number in 1..reads.saturating_add(2) {
        let answer = checked_at(alloc, bytes, number)?;
        assert!(rt; answer == (number <= reads, number > reads), "{number}");
    }
    Ok(())
}

// A check of an empty store makes four reads: the header, two slots, and the commit bytes. The eight slots
// of a hash store take one more, and so do three sorted entries.
const READS: [(Changes, u64); 3] = [
    (&[], 4),
    (&[(4144, 1)], 5),
    (&[(4216, 3), (36_886, 1), (36_908, 2)], 5),
];

#[test]
fn hands_on_each_fault_of_a_read(rt: HostRuntime) -> Result<(), Fail> {
    checks_each(&rt, rt.alloc(), &READS)
}

fn checks_each(rt: &impl Abort, alloc: Global, cases: &[(Changes, u64)]) -> Result<(), Fail> {
    for (changes, reads) in cases {
        let bytes = small_changed(rt, alloc, changes)?;
        checks_in(rt, alloc, &bytes, *reads)?;
    }
    Ok(())
}

// A get on a device of these bytes, on which the read of this number fails. Returns whether there
// is a value, and its bytes, or none after a fault.
fn got_from(alloc: Global, bytes: &[u8], number: u64) -> Result<Option<(bool, [u8; 2])>, Fail> {
    let core = failing(alloc, bytes, number)?;
    let answer = got(&core, &key(1), [0; 2]);
    let _disk = core.close();
    Ok(answer)
}

// A store on a disk of these bytes, on which the read of this number fails.
fn failing(alloc: Global, bytes: &[u8], number: u64) -> Result<Core<FaultDisk>, Fail> {
    let disk = FaultDisk::new(MemDisk::with_bytes(alloc, bytes)?, Call::Read, number);
    opened_on(alloc, disk)
}

// Three sorted entries. The second has a value other than zeros.
const WITH_A_VALUE: Changes = &[(4216, 3), (36_886, 1), (36_906, 7), (36_908, 2)];

// An opening of a store of three sorted entries makes five reads. A get of one of them then makes
// one.
#[test]
fn gets_an_entry_in_one_read(rt: HostRuntime) -> Result<(), Fail> {
    let bytes = small_changed(&rt, rt.alloc(), WITH_A_VALUE)?;
    reads_once(&rt, rt.alloc(), &bytes)
}

fn reads_once(rt: &impl Abort, alloc: Global, bytes: &[u8]) -> Result<(), Fail> {
    let answers = [got_from(alloc, bytes, 6)?, got_from(alloc, bytes, 7)?];
    assert!(rt; answers == [None, Some((true, [7, 0]))]);
    Ok(())
}

// The commit bytes of the header, of the manifest's slots and of the first row of log 0 on a device.
fn first_commits(rt: &impl Abort, shown: &[u8]) -> [u8; 4] {
    assert!(rt; shown.len() == SMALL_LEN);
    [shown[0], shown[4096], shown[8192], shown[12_288]]
}

// The commit bytes after a crash at each call of a formatting, on a device of ones whose pending bytes all
// become new. A commit byte is closed with a zero, and opened with 0xA7.
#[test]
fn closes_commit_bytes_with_zeros(rt: HostRuntime) -> Result<(), Fail> {
    for k in 1..FORMAT_CALLS + 1 {
        let left = commits_after(&rt, rt.alloc(), k)?;
        assert!(rt; left == (End::Stopped, commits_at(k)), "{k}");
    }
    Ok(())
}

fn commits_after(rt: &impl Abort, alloc: Global, k: u32) -> Result<(End, [u8; 4]), Fail> {
    let (disk, end) = formatted(alloc, (SMALL_LEN, 0xFF), k, Fill::New)?;
    Ok((end, first_commits(rt, disk.shown())))
}

fn commits_at(k: u32) -> [u8; 4] {
    let header = if k < 14 { 0x00 } else { 0xA7 };
    let first = match k {
        0..6 => 0xFF,
        6..10 => 0x00,
        _ => 0xA7,
    };
    let second = if k < 3 { 0xFF } else { 0x00 };
    let log = if k < 4 { 0xFF } else { 0x00 };
    [header, first, second, log]
}
