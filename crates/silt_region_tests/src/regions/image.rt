// The header of a device, and how its damage is reported, on worked headers.

use crate::regions::{four_rows, same, same_in};
use silt_device::{HEADER_LEN, header_bytes};
use silt_disk::{Version, version_of};
use silt_event::{Finding, Place};
use silt_image::{finding_of, read_header};
use silt_manifest::Damage;
use std::process::Abort;

// The header of a store with values of 2 bytes, 2 buckets, logs of 4 rows, 2 logs, 2 hash regions and 8 sorted entries.
const HEADER: [u8; HEADER_LEN] = [
    0xA7, 0x53, 0x49, 0x4C, 0x54, 0x46, 0x4C, 0x53, 0x48, 0, 0, 0, 2, 0, 0, 0, 2, 0, 0, 0, 2, 0, 0,
    0, 4, 0, 0, 0, 2, 0, 0, 0, 2, 0, 0, 0, 8,
];

// The finding in this header, on a device of this many bytes.
fn finding(len: u64, header: &[u8; HEADER_LEN]) -> Option<Finding> {
    match read_header(len, header) {
        Ok(_) => None,
        Err(finding) => Some(finding),
    }
}

#[test]
fn a_header_is_written_as_it_is_read(rt: HostRuntime) {
    let geometry = four_rows(&rt);
    same(&rt, &read_header(45_056, &HEADER).ok(), &Some(geometry));
    same(
        &rt,
        &(header_bytes(&geometry).as_slice() == &HEADER[1..]),
        &true,
    );
    same(&rt, &version_of(&HEADER), &Version::Two);
}

// A header of version 1 has the same numbers.
#[test]
fn an_old_header_is_read(rt: HostRuntime) {
    let mut header = HEADER;
    header[12] = 1;
    same(&rt, &finding(45_056, &header), &None);
    same(&rt, &version_of(&header), &Version::One);
}

// This is the finding in this header, on a device of this many bytes.
fn finds(rt: &impl Abort, len: u64, header: &[u8; HEADER_LEN], expected: Finding) {
    same_in(rt, &finding(len, header), &Some(expected), &len);
}

#[test]
fn the_first_finding_is_reported(rt: HostRuntime) {
    finds(&rt, 36, &HEADER, Finding::NotFormatted);
    finds(&rt, 45_055, &HEADER, Finding::Damaged(Place::Length));
    let mut header = HEADER;
    header[16] = 0;
    finds(&rt, 45_055, &header, Finding::Damaged(Place::Header));
    header[12] = 3;
    finds(&rt, 45_055, &header, Finding::NotFormatted);
}

#[test]
fn manifest_damage_is_a_finding(rt: HostRuntime) {
    let slot = Finding::Damaged(Place::Slot(1));
    same(&rt, &finding_of(Damage::Slot(1)), &slot);
    let none = Finding::Damaged(Place::NoSlot);
    same(&rt, &finding_of(Damage::NoSlot), &none);
}
