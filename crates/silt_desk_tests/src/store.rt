// A store moves to another thread and back.

use crate::same;
use silt_device::MemDisk;
use silt_fixtures::{key, opened};
use silt_store_set::Core;
use std::alloc::Global;
use std::test::Fail;
use std::thread;
use std::thread::Threads;

// Puts a key so that it survives any crash. Returns whether it is put.
fn put_key(alloc: Global, core: &mut Core<MemDisk>) -> bool {
    if core.geometry().value_len() != 2 {
        return false;
    }
    core.put(alloc, &key(1), &[1, 2]).is_ok() && core.flush().is_ok()
}

// The store with one more key. None if it is refused.
fn with_key(alloc: Global, mut core: Core<MemDisk>) -> Option<Core<MemDisk>> {
    let is_put = put_key(alloc, &mut core);
    is_put.then_some(core)
}

// How many commands a store accepted.
fn count_of(core: Option<Core<MemDisk>>) -> Option<u64> {
    match core {
        Some(core) => Some(core.count()),
        None => None,
    }
}

fn counted_there<R: Threads>(rt: &R, alloc: Global, core: Core<MemDisk>) -> Option<u64> {
    let (there, _) = thread::join(rt, move || with_key(alloc, core), || ());
    count_of(there)
}

#[test]
fn a_store_goes_to_another_thread(rt: HostRuntime) -> Result<(), Fail> {
    let core = opened(rt.alloc())?;
    same(&rt, &counted_there(&rt, rt.alloc(), core), &Some(1));
    Ok(())
}
