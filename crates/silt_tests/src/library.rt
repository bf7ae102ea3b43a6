// The example of docs/library.md, with only the store's crate.

use silt_store_set::{Core, Disk, Geometry, Key, MemDisk, format};
use std::alloc::Global;
use std::test::Fail;

// A new store on this disk.
fn make<D: Disk>(alloc: Global, disk: D, geometry: Geometry) -> Option<Core<D>> {
    let disk = format(alloc, disk, geometry).ok()?;
    Core::open(alloc, disk).ok()
}

// A value that is put, settled and found.
fn keep_one<D: Disk>(alloc: Global, store: &mut Core<D>) -> Option<Vec<u8>> {
    let key = Key([7; 20]);
    let value = vec![in alloc; 1u8; store.geometry().value_len() as usize].ok()?;
    store.put(alloc, &key, &value).ok()?; // accepted: later gets see it
    store.flush().ok()?; // acknowledged: it survives any stop
    let mut out = vec![in alloc; 0u8; store.geometry().value_len() as usize].ok()?;
    store.get(&key, &mut out).ok()?;
    Some(out)
}

#[test]
fn keeps_what_the_readme_puts(rt: HostRuntime) -> Result<(), Fail> {
    let Ok(geometry) = Geometry::new(100, 1024, 3000, 4, 4, 100_000) else {
        return Err(Fail::new("a bad geometry"));
    };
    let Ok(disk) = MemDisk::new(rt.alloc(), geometry.size() as usize) else {
        return Err(Fail::new("no memory"));
    };
    let Some(mut store) = make(rt.alloc(), disk, geometry) else {
        return Err(Fail::new("not made"));
    };
    let Some(out) = keep_one(rt.alloc(), &mut store) else {
        return Err(Fail::new("not kept"));
    };
    assert_eq!(rt; out.as_slice(), [1; 100].as_slice());
    Ok(())
}
