// Disks in files: the bytes of the file, and the errors of each call. Each test uses a folder or
// file of its own in the current folder, and removes it at the end.
use super::{FIRST, SECOND, Step, first_wrong, four_at};
use silt_device::{Disk, DiskSource, FileDisk, FileDisks, Filling, write_synced};
use std::alloc::Global;
use std::fs;
use std::io::{self, ErrorKind};
use std::test::Fail;

// Makes an empty folder, and removes what an earlier run left in it.
fn make_folder(runtime: &HostRuntime, name: &str) -> io::Result<()> {
    if fs::exists(runtime, name)? {
        fs::remove_dir_all(runtime, name)?;
    }
    fs::create_dir(runtime, name)
}

// The length of the disk, or the kind of the error.
fn len_of(answer: io::Result<FileDisk>) -> Result<u64, ErrorKind> {
    match answer {
        Ok(disk) => Ok(disk.len()),
        Err(error) => Err(error.kind()),
    }
}

// The calls after the write of FIRST at place 1 of a disk of nine bytes. They write SECOND over its
// end, write the last byte of the disk, and sync.
const PARTS: [Step; 3] = [
    Step::Write(3, &SECOND, true),
    Step::Write(8, &[0x31], true),
    Step::Sync(true),
];

// Writes FIRST and syncs by one call, and then makes these calls. Returns whether all of them
// succeeded.
fn write_parts<D: Disk>(disk: &mut D) -> bool {
    if disk.len() != 9 {
        return false;
    }
    write_synced(disk, 1, &FIRST).is_ok() && first_wrong(disk, &PARTS).is_none()
}

// The bytes of a disk of nine.
fn nine_of<D: Disk>(disk: &D) -> Option<[u8; 9]> {
    let mut read = [0xFF; 9];
    if disk.len() != 9 {
        return None;
    }
    disk.read(0, &mut read).ok()?;
    Some(read)
}

// Makes a disk of nine bytes, makes these writes, and returns its bytes.
fn written(rt: &HostRuntime) -> io::Result<Option<[u8; 9]>> {
    let mut disk = FileDisk::create(rt, "kept/disk", 9)?;
    Ok(if write_parts(&mut disk) {
        nine_of(&disk)
    } else {
        None
    })
}

// Opens that disk again, and returns its length and its last four bytes.
fn kept(rt: &HostRuntime) -> io::Result<(u64, Option<[u8; 4]>)> {
    let disk = FileDisk::open(rt, "kept/disk")?;
    Ok((disk.len(), four_at(&disk, 5)))
}

// The bytes that these writes leave.
const WRITTEN: [u8; 9] = [0, 0x11, 0x12, 0x23, 0x24, 0x25, 0, 0, 0x31];

// What both disks have, and whether the file has the bytes that were written.
type Kept = (Option<[u8; 9]>, (u64, Option<[u8; 4]>), bool);

const ALL_KEPT: Kept = (Some(WRITTEN), (9, Some([0x25, 0, 0, 0x31])), true);

fn written_and_kept(rt: &HostRuntime) -> io::Result<Kept> {
    make_folder(rt, "kept")?;
    let found = (written(rt)?, kept(rt)?, holds(rt, "kept/disk", &WRITTEN)?);
    fs::remove_dir_all(rt, "kept")?;
    Ok(found)
}

// A second disk in the same file has the bytes that were written, and zeros where nothing was
// written.
#[test]
fn a_file_keeps_what_was_written(rt: HostRuntime) -> Result<(), Fail> {
    assert!(rt; written_and_kept(&rt)? == ALL_KEPT);
    Ok(())
}

// Whether the file has these bytes.
fn holds(rt: &HostRuntime, path: &str, bytes: &[u8]) -> io::Result<bool> {
    Ok(fs::read(rt, path)?.as_slice() == bytes)
}

// The lengths of disks that are made one after the other, and the bytes of the file after each.
const LENGTHS: [(u64, &[u8]); 5] = [
    (4, &FIRST),
    (6, &[0x11, 0x12, 0x13, 0x14, 0, 0]),
    (3, &[0x11, 0x12, 0x13]),
    (5, &[0x11, 0x12, 0x13, 0, 0]),
    (0, &[]),
];

// The first length that fails: no disk is made with it, the file has other bytes, or the disk that
// is opened has another length.
fn other_length(rt: &HostRuntime, path: &str, lengths: &[(u64, &[u8])]) -> io::Result<Option<u64>> {
    for (len, held) in lengths {
        let made = len_of(FileDisk::create(rt, path, *len));
        let is_held = holds(rt, path, held)?;
        let opened = len_of(FileDisk::open(rt, path));
        if !(made == Ok(*len) && is_held && opened == Ok(*len)) {
            return Ok(Some(*len));
        }
    }
    Ok(None)
}

// Tries these lengths on a file with the bytes of FIRST.
fn other_length_of_first(rt: &HostRuntime) -> io::Result<Option<u64>> {
    make_folder(rt, "sized")?;
    fs::write(rt, "sized/disk", FIRST.as_slice())?;
    let other = other_length(rt, "sized/disk", &LENGTHS)?;
    fs::remove_dir_all(rt, "sized")?;
    Ok(other)
}

// An existing file keeps its bytes up to the new length, and grows by zeros.
#[test]
fn create_gives_the_length(rt: HostRuntime) -> Result<(), Fail> {
    assert!(rt; other_length_of_first(&rt)? == None);
    Ok(())
}

// A bare name is a path in the current folder.
#[test]
fn a_bare_name_is_a_path(rt: HostRuntime) -> Result<(), Fail> {
    assert!(rt; len_of(FileDisk::create(&rt, "bare_name_disk", 1)) == Ok(1));
    fs::remove_file(&rt, "bare_name_disk")?;
    Ok(())
}

// Paths and lengths for which no disk is made, and the error.
const NOT_MADE: [(&str, u64, ErrorKind); 4] = [
    ("wrong/folder/disk", 8, ErrorKind::NotFound),
    ("", 8, ErrorKind::NotFound),
    ("wrong", 8, ErrorKind::IsADirectory),
    ("wrong/disk", 1 << 63, ErrorKind::InvalidInput),
];

// The first of these paths for which a disk is made or the error is another one.
fn made_at<'a>(rt: &HostRuntime, paths: &[(&'a str, u64, ErrorKind)]) -> Option<&'a str> {
    for (path, len, kind) in paths {
        if len_of(FileDisk::create(rt, path, *len)) != Err(*kind) {
            return Some(*path);
        }
    }
    None
}

// The error of opening a path with no file, and whether there is a file afterwards; and the error
// of opening a folder.
fn opened_wrong(
    rt: &HostRuntime,
) -> io::Result<(Result<u64, ErrorKind>, bool, Result<u64, ErrorKind>)> {
    let none = len_of(FileDisk::open(rt, "wrong/disk"));
    let is_there = fs::exists(rt, "wrong/disk")?;
    Ok((none, is_there, len_of(FileDisk::open(rt, "wrong"))))
}

// What these paths return, and the first for which a disk is made or the error is another one.
type Wrong<'a> = (
    (Result<u64, ErrorKind>, bool, Result<u64, ErrorKind>),
    Option<&'a str>,
);

fn wrong_paths(rt: &HostRuntime) -> io::Result<Wrong<'static>> {
    make_folder(rt, "wrong")?;
    let answers = (opened_wrong(rt)?, made_at(rt, &NOT_MADE));
    fs::remove_dir_all(rt, "wrong")?;
    Ok(answers)
}

#[test]
fn a_path_with_no_file_is_an_error(rt: HostRuntime) -> Result<(), Fail> {
    const NOT_OPENED: Wrong = (
        (
            Err(ErrorKind::NotFound),
            false,
            Err(ErrorKind::IsADirectory),
        ),
        None,
    );
    assert!(rt; wrong_paths(&rt)? == NOT_OPENED);
    Ok(())
}

// The kind of the error of a read of four bytes from a place on, if the disk has as many.
fn read_fault(disk: &FileDisk, at: u64) -> Option<ErrorKind> {
    if at > disk.len() || disk.len() - at < 4 {
        return None;
    }
    match disk.read(at, &mut [0; 4]) {
        Ok(()) => None,
        Err(fault) => Some(fault.inner().error().kind()),
    }
}

// The number of the error of a write of SECOND at the front, if the disk has room for it.
fn write_fault(disk: &mut FileDisk) -> Option<i32> {
    if disk.len() < 3 {
        return None;
    }
    match disk.write(0, &SECOND) {
        Ok(()) => None,
        Err(fault) => fault.inner().error().raw_os_error(),
    }
}

// The kind of the error of a sync.
fn sync_fault(disk: &mut FileDisk) -> Option<ErrorKind> {
    match disk.sync() {
        Ok(()) => None,
        Err(fault) => Some(fault.inner().error().kind()),
    }
}

// A disk of eight bytes whose file is cut to FIRST: what a read of these bytes returns, and the
// error of a read past them.
fn cut_short(rt: &HostRuntime) -> io::Result<(Option<[u8; 4]>, Option<ErrorKind>)> {
    let disk = FileDisk::create(rt, "cut/disk", 8)?;
    fs::write(rt, "cut/disk", FIRST.as_slice())?;
    Ok((four_at(&disk, 0), read_fault(&disk, 1)))
}

// A read past the end fails if somebody has cut the file short.
#[test]
fn a_read_behind_the_end_fails(rt: HostRuntime) -> Result<(), Fail> {
    assert!(rt; cut_in_a_folder(&rt)? == (Some(FIRST), Some(ErrorKind::UnexpectedEof)));
    Ok(())
}

fn cut_in_a_folder(rt: &HostRuntime) -> io::Result<(Option<[u8; 4]>, Option<ErrorKind>)> {
    make_folder(rt, "cut")?;
    let answers = cut_short(rt)?;
    fs::remove_dir_all(rt, "cut")?;
    Ok(answers)
}

// A disk that is opened for reading only: the error of a write, whether a sync then succeeds, and
// what a read returns.
fn read_alone(rt: &HostRuntime, path: &str) -> io::Result<(Option<i32>, bool, Option<[u8; 4]>)> {
    let mut disk = FileDisk::open_shared(rt, path)?;
    let fault = write_fault(&mut disk);
    let is_synced = disk.sync().is_ok();
    Ok((fault, is_synced, four_at(&disk, 0)))
}

// That of a file with the bytes of FIRST.
fn first_alone(rt: &HostRuntime) -> io::Result<(Option<i32>, bool, Option<[u8; 4]>)> {
    make_folder(rt, "read")?;
    fs::write(rt, "read/disk", FIRST.as_slice())?;
    let answers = read_alone(rt, "read/disk")?;
    fs::remove_dir_all(rt, "read")?;
    Ok(answers)
}

// A write fails if the file was opened for reading only. Reads and syncs still succeed.
#[test]
fn a_write_to_what_is_read_alone_fails(rt: HostRuntime) -> Result<(), Fail> {
    assert!(rt; first_alone(&rt)? == (Some(9), true, Some(FIRST)));
    Ok(())
}

// A sync fails if the system has nothing to sync: here the file is a null device.
#[test]
fn a_sync_of_no_file_fails(rt: HostRuntime) -> Result<(), Fail> {
    assert!(rt; null_fault(&rt)? == Some(ErrorKind::InvalidInput));
    Ok(())
}

fn null_fault(rt: &HostRuntime) -> io::Result<Option<ErrorKind>> {
    let mut disk = FileDisk::open_shared(rt, "/dev/null")?;
    Ok(sync_fault(&mut disk))
}

// What each way of opening returns: as owner, as owner with a length of two bytes, and for reading
// only.
fn openings(rt: &HostRuntime, path: &str) -> [Result<u64, ErrorKind>; 3] {
    [
        len_of(FileDisk::open(rt, path)),
        len_of(FileDisk::create(rt, path, 2)),
        len_of(FileDisk::open_shared(rt, path)),
    ]
}

const BUSY: Result<u64, ErrorKind> = Err(ErrorKind::WouldBlock);

// What they return while a disk owns the file. That one was made with a length, or else opened.
fn beside_owner(rt: &HostRuntime, made: Option<u64>) -> io::Result<[Result<u64, ErrorKind>; 3]> {
    let _owner = match made {
        Some(len) => FileDisk::create(rt, "owned/disk", len)?,
        None => FileDisk::open(rt, "owned/disk")?,
    };
    Ok(openings(rt, "owned/disk"))
}

// What they return beside an owner that made the file with a length of three, the length of the
// file then, what they return beside an owner that opened it, and the length of the disk at last.
type Owned = (
    [Result<u64, ErrorKind>; 3],
    u64,
    [Result<u64, ErrorKind>; 3],
    Result<u64, ErrorKind>,
);

fn owned(rt: &HostRuntime) -> io::Result<Owned> {
    make_folder(rt, "owned")?;
    let beside_first = beside_owner(rt, Some(3))?;
    let len = fs::metadata(rt, "owned/disk")?.len();
    let beside_second = beside_owner(rt, None)?;
    let last = len_of(FileDisk::open(rt, "owned/disk"));
    fs::remove_dir_all(rt, "owned")?;
    Ok((beside_first, len, beside_second, last))
}

// While a disk owns the file, nobody else can open the file, and a refused opening changes nothing
// in it.
#[test]
fn a_file_has_one_owner(rt: HostRuntime) -> Result<(), Fail> {
    assert!(rt; owned(&rt)? == ([BUSY; 3], 3, [BUSY; 3], Ok(3)));
    Ok(())
}

// What they return while another disk has the file open for reading only, and what a write and a
// read of that one then return.
type Beside = ([Result<u64, ErrorKind>; 3], Option<i32>, Option<[u8; 4]>);

fn beside_reader(rt: &HostRuntime) -> io::Result<Beside> {
    let mut first = FileDisk::open_shared(rt, "shared/disk")?;
    let answers = openings(rt, "shared/disk");
    let fault = write_fault(&mut first);
    Ok((answers, fault, four_at(&first, 0)))
}

// What they return in a folder of their own, and what an opening of no file for reading returns.
fn shared(rt: &HostRuntime) -> io::Result<(Beside, Result<u64, ErrorKind>)> {
    make_folder(rt, "shared")?;
    fs::write(rt, "shared/disk", FIRST.as_slice())?;
    let answers = beside_reader(rt)?;
    let missing = len_of(FileDisk::open_shared(rt, "shared/none"));
    fs::remove_dir_all(rt, "shared")?;
    Ok((answers, missing))
}

// Disks that only read share a file, and keep an owner out.
#[test]
fn readers_share_a_file(rt: HostRuntime) -> Result<(), Fail> {
    const SHARED: Beside = ([BUSY, BUSY, Ok(4)], Some(9), Some(FIRST));
    assert!(rt; shared(&rt)? == (SHARED, Err(ErrorKind::NotFound)));
    Ok(())
}

// A progress that is not shown.
#[derive(Clone, Copy, Drop)]
struct Silent;

impl Filling for Silent {
    fn filled(&self, _count: usize, _len: u64) {}
}

// What a source does with a path.
#[derive(Clone, Copy)]
enum Asking {
    Open,
    Resize(u64),
    Fill(u64),
}

// The length of the disk that a source opens, or finds and gives a length. None if it returns no
// disk.
fn len_from<S: DiskSource>(alloc: Global, source: S, path: &str, asking: Asking) -> Option<u64> {
    let disk = match asking {
        Asking::Open => source.open(path),
        Asking::Resize(len) => S::resize(alloc, source.find(path).ok()?, len),
        Asking::Fill(len) => {
            let found = source.find(path).ok()?;
            source.fill(path, found, len)
        }
    };
    Some(disk.ok()?.len())
}

// A path, what is done with it, and the length of the disk, or none if there is no disk.
type Asked<'a> = (&'a str, Asking, Option<u64>);

// The folder has no file at first. A filled file has several pieces of 1 MiB, the last one shorter. A file
// that cannot be filled is removed if there was none before.
const OF_FILES: [Asked; 9] = [
    ("source/disk", Asking::Open, None),
    ("source/disk", Asking::Resize(7), Some(7)),
    ("source/disk", Asking::Open, Some(7)),
    ("source/disk", Asking::Fill(2_100_000), Some(2_100_000)),
    ("source/disk", Asking::Fill(5), Some(5)),
    ("source/disk", Asking::Fill(1 << 63), None),
    ("source/disk", Asking::Open, Some(5)),
    ("source/other", Asking::Fill(1 << 63), None),
    ("source/other", Asking::Open, None),
];

// The first of these paths for which a source of files returns another disk.
fn files_differ<'a>(rt: &HostRuntime, asked: &[Asked<'a>]) -> Option<&'a str> {
    for (path, asking, given) in asked {
        if len_from(rt.alloc(), FileDisks::new(rt, Silent), path, *asking) != *given {
            return Some(*path);
        }
    }
    None
}

fn files_in_a_folder_differ(rt: &HostRuntime) -> io::Result<Option<&'static str>> {
    make_folder(rt, "source")?;
    let path = files_differ(rt, &OF_FILES);
    fs::remove_dir_all(rt, "source")?;
    Ok(path)
}

// The bytes of a file of FIRST that is filled to five bytes, and then to two.
fn filled_first(rt: &HostRuntime) -> io::Result<(bool, bool)> {
    make_folder(rt, "filled")?;
    fs::write(rt, "filled/disk", FIRST.as_slice())?;
    let _longer = len_from(
        rt.alloc(),
        FileDisks::new(rt, Silent),
        "filled/disk",
        Asking::Fill(5),
    );
    let longer = holds(rt, "filled/disk", &[0x11, 0x12, 0x13, 0x14, 0])?;
    let _shorter = len_from(
        rt.alloc(),
        FileDisks::new(rt, Silent),
        "filled/disk",
        Asking::Fill(2),
    );
    let shorter = holds(rt, "filled/disk", &[0x11, 0x12])?;
    fs::remove_dir_all(rt, "filled")?;
    Ok((longer, shorter))
}

// A file that is filled keeps its bytes up to the new length, and grows by zeros.
#[test]
fn a_filled_file_keeps_its_bytes(rt: HostRuntime) -> Result<(), Fail> {
    assert!(rt; filled_first(&rt)? == (true, true));
    Ok(())
}

// A source of files returns the disk of the path.
#[test]
fn a_source_gives_the_disk_of_its_path(rt: HostRuntime) -> Result<(), Fail> {
    assert!(rt; files_in_a_folder_differ(&rt)? == None);
    Ok(())
}
