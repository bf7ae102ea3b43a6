// A stream gives the entries of a store in order, whatever background work is done. It ends early at a failed read.
ghost use Rattle.silt_dump.specs.Stream.{Streams};

use silt_device::{Call, Disk, FaultDisk, MemDisk};
use silt_dump::EntryStream;
use silt_fixtures::{formatted_with, key, of_regions};
use silt_frame::Key;
use silt_recovery::OpenError;
use silt_store_set::Core;
use std::alloc::Global;
use std::collections::BTreeMap;
use std::process::Abort;
use std::rt::HostRuntime;
use std::test::Fail;

// The next number of a sequence.
fn next_number(number: u32) -> u32 {
    number.wrapping_mul(1_664_525).wrapping_add(1_013_904_223)
}

// One change of a store of values of two bytes, and of a plain map: mostly a put, every fourth a delete.
fn change(
    rt: &impl Abort,
    alloc: Global,
    core: &mut Core<MemDisk>,
    map: &mut BTreeMap<Key, [u8; 2]>,
    number: u32,
) {
    assert!(rt; core.geometry().value_len() == 2);
    let [first, kind, high, low] = number.to_be_bytes();
    let key = key(first % 40);
    if kind < 64 {
        if core.delete(alloc, &key).is_ok() {
            let _old = map.remove(&key);
        }
        return;
    }
    if core.put(alloc, &key, &[high, low]).is_ok() {
        let added: Result<_, _> = map.insert(key, [high, low]);
        assert!(rt; added.is_ok());
    }
}

// Up to seven steps of each kind of background work.
fn work(alloc: Global, core: &mut Core<MemDisk>, number: u32) {
    for _ in 0..(number >> 8) % 8 {
        let _done = core.convert(alloc);
    }
    for _ in 0..(number >> 12) % 8 {
        let _done = core.merge(alloc);
    }
}

// The disk of a store after this many changes from a number on.
fn changed(
    rt: &impl Abort,
    alloc: Global,
    disk: MemDisk,
    map: &mut BTreeMap<Key, [u8; 2]>,
    first: u32,
    changes: u32,
) -> MemDisk {
    let Ok(mut core) = Core::open(alloc, disk) else {
        panic!(rt; "opens");
    };
    let mut number = first;
    for _ in 0..changes {
        number = next_number(number);
        change(rt, alloc, &mut core, map, number);
        work(alloc, &mut core, number);
    }
    let _done = core.flush();
    core.close()
}

// The stream ended early since a read failed.
fn is_fault<F>(rt: &impl Abort, error: &OpenError<F>) {
    assert!(rt; matches!(error, OpenError::Device(_)));
}

// Takes the entries of a stream up to its end, or to a failed read. Returns whether these are all.
fn take_all<D: Disk>(
    rt: &impl Abort,
    disk: &D,
    stream: &mut EntryStream,
    given: &mut Vec<(Key, [u8; 2])>,
) -> bool
    requires { Streams (D.content disk.now) stream.old }
{
    assert!(rt; stream.value_len() == 2);
    let mut value = [0u8; 2];
    loop {
        match stream.next(disk, &mut value) {
            Ok(Some(key)) => {
                let added: Result<_, _> = given.push((key, value));
                assert!(rt; added.is_ok());
            }
            Ok(None) => return true,
            Err(error) => {
                is_fault(rt, &error);
                return false;
            }
        }
    }
}

// The entries that a stream gives, and whether these are all.
fn streamed<D: Disk>(rt: &impl Abort, alloc: Global, disk: &D) -> (Vec<(Key, [u8; 2])>, bool) {
    let mut given = Vec::new(alloc);
    match EntryStream::open(alloc, disk) {
        Ok(mut stream) => {
            let all = take_all(rt, disk, &mut stream, &mut given);
            (given, all)
        }
        Err(error) => {
            is_fault(rt, &error);
            (given, false)
        }
    }
}

// Whether these are the first entries of the map.
fn are_first(given: &[(Key, [u8; 2])], map: &BTreeMap<Key, [u8; 2]>) -> bool {
    for ((key, value), (its_key, its_value)) in given.iter().zip(map.iter()) {
        if key != its_key || value != its_value {
            return false;
        }
    }
    given.len() <= map.len()
}

// A stream gives the first entries of the map. Returns whether it gives all.
fn gives_first<D: Disk>(
    rt: &impl Abort,
    alloc: Global,
    disk: &D,
    map: &BTreeMap<Key, [u8; 2]>,
) -> bool {
    let (given, all) = streamed(rt, alloc, disk);
    assert!(rt; are_first(&given, map));
    assert!(rt; !all || given.len() == map.len());
    all
}

// The number of reads of a stream: each fails once.
fn reads_fail(rt: &impl Abort, alloc: Global, disk: MemDisk, map: &BTreeMap<Key, [u8; 2]>) -> u64 {
    let mut disk = disk;
    for number in 1..1000 {
        let faulty = FaultDisk::new(disk, Call::Read, number);
        if gives_first(rt, alloc, &faulty, map) {
            return number - 1;
        }
        disk = faulty.into_disk();
    }
    1000
}

#[test]
fn gives_the_entries_in_order(rt: HostRuntime) -> Result<(), Fail> {
    let alloc = rt.alloc();
    let rt = &rt;
    let mut map = BTreeMap::new(alloc);
    let mut disk = formatted_with(alloc, of_regions(6, 3, 3, 64)?)?;
    for round in 0..16 {
        disk = changed(rt, alloc, disk, &mut map, round, round);
        assert!(rt; gives_first(rt, alloc, &disk, &map));
    }
    Ok(())
}

#[test]
fn ends_early_at_each_failed_read(rt: HostRuntime) -> Result<(), Fail> {
    let alloc = rt.alloc();
    let rt = &rt;
    let mut map = BTreeMap::new(alloc);
    let disk = formatted_with(alloc, of_regions(6, 3, 3, 64)?)?;
    let disk = changed(rt, alloc, disk, &mut map, 1, 40);
    let reads = reads_fail(rt, alloc, disk, &map);
    assert!(rt; 1 < reads && reads < 1000);
    Ok(())
}
