// Lives on devices that hold no store of their values.

use crate::life_lines::Line;
use crate::script::{Printed, lived, printed_lives};
use crate::support::{are_zeros, same_lists};
use silt_device::MemDisk;
use silt_fixtures::{SMALL_LEN, of_values};
use std::alloc::Global;
use std::process::Abort;
use std::test::Fail;

// The lives on this disk get these replies.
fn are_printed(
    rt: &impl Abort,
    alloc: Global,
    disk: MemDisk,
    all: &[&[Line]],
    expected: &[Printed],
) -> Result<(), Fail> {
    let printed = printed_lives(alloc, disk, all)?;
    same_lists(rt, &printed, expected);
    Ok(())
}

// Two lives that need a store of values of two bytes.
const TWO_LIVES: [&[Line]; 2] = [&[Line::Put(1, 1), Line::Flush], &[Line::Get(1)]];

// A store of values of another length is opened in none of the lives.
#[test]
fn refuses_values_of_another_length(rt: HostRuntime) -> Result<(), Fail> {
    for value_len in [1u32, 3, 4096] {
        let disk = of_values(rt.alloc(), value_len)?;
        are_printed(
            &rt,
            rt.alloc(),
            disk,
            &TWO_LIVES,
            &[Printed::NotOpened(2); 2],
        )?;
    }
    Ok(())
}

fn opens_no_life(rt: &impl Abort, alloc: Global) -> Result<(), Fail> {
    let disk = MemDisk::new(alloc, SMALL_LEN)?;
    are_printed(rt, alloc, disk, &TWO_LIVES, &[Printed::NotOpened(1); 2])
}

// A device of zeros holds no store. It is opened in none of the lives, and stays as it is.
#[test]
fn refuses_without_running(rt: HostRuntime) -> Result<(), Fail> {
    opens_no_life(&rt, rt.alloc())?;
    let disk = MemDisk::new(rt.alloc(), SMALL_LEN)?;
    let disk = lived(
        &rt,
        rt.alloc(),
        disk,
        TWO_LIVES[0],
        &[Printed::NotOpened(1)],
    )?;
    assert!(rt; are_zeros(disk.shown()));
    drop(disk);
    Ok(())
}
