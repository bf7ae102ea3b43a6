// Lines of swaps, letter for letter. The store's values have two bytes.

use silt_event::{Event, bytes_of};
use silt_wire::{LineFault, parse_line};
use std::alloc::Global;
use std::process::Abort;
use std::test::Fail;

// Lines with an unknown first word, or with a wrong number of words. Two spaces in a row have an empty word between them.
const BAD_LINES: [&str; 20] = [
    "swap",
    "swap =a",
    "swap =a 0102",
    "swap =a -",
    "swap =a 0102 0304 0506",
    "swap =a - - -",
    "swap =a 0102 0304 ",
    "swap  =a 0102 0304",
    "swap =a  0102 0304",
    "swap =a 0102  0304",
    " swap =a 0102 0304",
    "SWAP =a 0102 0304",
    "Swap =a 0102 0304",
    "swaps =a 0102 0304",
    "swap= a 0102 0304",
    "put =a 0102 0304",
    "put  =a 0102",
    "get =a 0102 0304",
    "delete =a 0102 0304",
    "delete =a -",
];

// The key is looked at before the values.
const BAD_KEYS: [&str; 11] = [
    "swap = 0102 0304",
    "swap a 0102 0304",
    "swap  =a 0102",
    "swap 010000000000000000000000000000000000000 0102 0304",
    "swap 0g00000000000000000000000000000000000000 0102 0304",
    "swap 0 01 0304",
    "swap 0 01 03",
    "swap = - -",
    "swap - 0102 0304",
    "delete -",
    "get -",
];

// One of the values is bad, or both are. Only a swap takes a hyphen for a value, and not for both.
const BAD_VALUES: [&str; 21] = [
    "swap =a 01 0304",
    "swap =a 0102 03",
    "swap =a 01 03",
    "swap =a 010203 0304",
    "swap =a 0102 030405",
    "swap =a 010 0304",
    "swap =a 0102 030",
    "swap =a 01g2 0304",
    "swap =a 0102 03g4",
    "swap =a  0102",
    "swap =a 0102 ",
    "swap =a  ",
    "swap =a 0102 0304\r\r",
    "swap =a - -",
    "swap =a - -\r",
    "swap =a - 03",
    "swap =a 01 -",
    "swap =a -- 0304",
    "swap =a - ",
    "swap =a  -",
    "put =a -",
];

#[test]
fn refuses_bad_lines(rt: HostRuntime) -> Result<(), Fail> {
    for line in BAD_LINES {
        let fault = parse_line(rt.alloc(), line.as_bytes(), 2).err();
        assert_eq!(rt; fault, Some(LineFault::BadLine), "{line}");
    }
    Ok(())
}

#[test]
fn refuses_bad_keys(rt: HostRuntime) -> Result<(), Fail> {
    for line in BAD_KEYS {
        let fault = parse_line(rt.alloc(), line.as_bytes(), 2).err();
        assert_eq!(rt; fault, Some(LineFault::BadKey), "{line}");
    }
    Ok(())
}

#[test]
fn refuses_bad_values(rt: HostRuntime) -> Result<(), Fail> {
    for line in BAD_VALUES {
        let fault = parse_line(rt.alloc(), line.as_bytes(), 2).err();
        assert_eq!(rt; fault, Some(LineFault::BadValue), "{line}");
    }
    Ok(())
}

// The SHA-1 digest of the name `abc`.
const ABC: [u8; 20] = [
    0xA9, 0x99, 0x3E, 0x36, 0x47, 0x06, 0x81, 0x6A, 0xBA, 0x3E, 0x25, 0x71, 0x78, 0x50, 0xC2, 0x6C,
    0x9C, 0xD0, 0xD8, 0x9D,
];

// Whether a line is a swap of that name's value for another one, `None` for no value.
fn is_swap(alloc: Global, line: &str, from: Option<&[u8]>, to: Option<&[u8]>) -> bool {
    match parse_line(alloc, line.as_bytes(), 2) {
        Ok(Event::Swap(key, old, new)) => {
            key.0 == ABC && bytes_of(&old) == from && bytes_of(&new) == to
        }
        _ => false,
    }
}

// The old value comes before the new one. Digits have either case, and one carriage return is removed.
#[test]
fn reads_the_key_and_both_values(rt: HostRuntime) {
    for line in [
        "swap =abc 0102 aBfF",
        "swap =abc 0102 ABFF\r",
        "swap a9993e364706816aba3e25717850c26c9cd0d89d 0102 abff",
        "swap A9993E364706816ABA3E25717850C26C9CD0D89D 0102 abff\r",
    ] {
        assert!(rt;
            is_swap(rt.alloc(), line, Some(&[1, 2]), Some(&[0xAB, 0xFF])),
            "{line}"
        );
    }
}

// A hyphen stands for no value.
#[test]
fn reads_a_hyphen(rt: HostRuntime) {
    assert!(rt; is_swap(rt.alloc(), "swap =abc - abff", None, Some(&[0xAB, 0xFF])));
    assert!(rt; is_swap(rt.alloc(), "swap =abc 0102 -\r", Some(&[1, 2]), None));
}
