// A store on a disk in a file that behaves keeps what was flushed. Each step is proved for every
// such file. Here it is run.
use crate::{MemFile, MemFolder, got, put_count};
use silt_device::{Disk, RandomAccessDisk};
use silt_fixtures::{key, opened_on, small};
use silt_recovery::format;
use silt_store_set::Core;
use std::alloc::Global;
use std::process::Abort;
use std::test::Fail;

// A disk of the small geometry in a file that is made, with an empty store.
fn formatted(alloc: Global) -> Result<RandomAccessDisk<MemFile>, Fail> {
    let geometry = small()?;
    let folder = MemFolder::new(alloc, Vec::new(alloc));
    let disk = RandomAccessDisk::create(&folder, "disk", geometry.size())?;
    Ok(format(alloc, disk, geometry).ok().ok_or("formats")?)
}

// Puts two values, with a flush between them. Returns whether all calls succeeded.
fn put_two<D: Disk>(alloc: Global, core: &mut Core<D>) -> bool {
    put_count(alloc, core, &key(1), [5, 6]).is_some()
        && core.flush().is_ok()
        && put_count(alloc, core, &key(2), [7, 8]).is_some()
}

// The file of a store in which one value was flushed, and another one was not.
fn flushed(rt: &impl Abort, alloc: Global) -> Result<MemFile, Fail> {
    let disk = formatted(alloc)?;
    let mut core = opened_on(alloc, disk)?;
    assert!(rt; put_two(alloc, &mut core));
    Ok(core.close().into_file())
}

// Whether each key has a value, and which. None if a get is refused.
type Both = [Option<(bool, [u8; 2])>; 2];

fn both_of<D: Disk>(core: &Core<D>) -> Both {
    [got(core, &key(1), [0; 2]), got(core, &key(2), [0; 2])]
}

// The disk in a file with these bytes.
fn disk_of(alloc: Global, bytes: Vec<u8>) -> Result<RandomAccessDisk<MemFile>, Fail> {
    let folder = MemFolder::new(alloc, bytes);
    Ok(RandomAccessDisk::open(&folder, "disk")?)
}

// Opens the store in a file with these bytes, and gets both keys.
fn found(alloc: Global, bytes: Vec<u8>) -> Result<Both, Fail> {
    let disk = disk_of(alloc, bytes)?;
    let core = opened_on(alloc, disk)?;
    let both = both_of(&core);
    let _disk = core.close();
    Ok(both)
}

// After a crash that leaves none of the pending bytes, the store has the flushed value and not the
// other one.
#[test]
fn a_file_that_behaves_keeps_what_was_flushed(rt: HostRuntime) -> Result<(), Fail> {
    let bytes = flushed(&rt, rt.alloc())?.after_stop()?;
    assert!(rt; found(rt.alloc(), bytes)? == [Some((true, [5, 6])), Some((false, [0, 0]))]);
    Ok(())
}
