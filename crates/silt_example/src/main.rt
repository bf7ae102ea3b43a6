//! How often was this program started? It keeps the number in a store in the file `starts.silt`.
#![tactic(auto)]

use silt_store_set::{Core, Disk, FileDisk, Geometry, Key, format};
use std::alloc::Global;
use std::fs::{self, File};
use std::process::ExitCode;
use std::rt::Files;

const STARTS: Key = Key([1; 20]);

// The store of the file. If there is none, it makes an empty one: 8 bytes a value, some 1,000 keys.
fn open_store<R: Files<File = File> + AllocGlobal>(rt: &R, path: &str) -> Option<Core<FileDisk>> {
    if fs::exists(rt, path).ok()? {
        return Core::open(rt.alloc(), FileDisk::open(rt, path).ok()?).ok();
    }
    let geometry = Geometry::new(8, 64, 224, 2, 4, 2_344).ok()?;
    let disk = FileDisk::create(rt, path, geometry.size()).ok()?;
    Core::open(rt.alloc(), format(rt.alloc(), disk, geometry).ok()?).ok()
}

// Adds one to the number in the store, and returns it once it survives every crash. None if the store is of another kind.
fn count_start<D: Disk>(alloc: Global, store: &mut Core<D>) -> Option<u64> {
    let mut value = [0; 8];
    if store.geometry().value_len() as usize != value.len() {
        return None;
    }
    store.get(&STARTS, &mut value).ok()?; // no value yet: the zeros stay
    let starts = u64::from_be_bytes(value).wrapping_add(1);
    store.put(alloc, &STARTS, &starts.to_be_bytes()).ok()?; // accepted: later gets see it
    store.flush().ok()?; // acknowledged: it survives every crash
    Some(starts)
}

fn main(rt: HostRuntime) -> ExitCode {
    let starts = match open_store(&rt, "starts.silt") {
        Some(mut store) => count_start(rt.alloc(), &mut store),
        None => None,
    };
    match starts {
        Some(starts) => {
            let _ = println!(&rt; "start {starts}");
            ExitCode::SUCCESS
        }
        None => {
            let _ = eprintln!(&rt; "no store");
            ExitCode::FAILURE
        }
    }
}
