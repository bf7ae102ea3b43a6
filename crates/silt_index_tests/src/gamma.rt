//! The standard's examples of codes, and readings that no code fits.
use silt_gamma::{BitReader, BitWriter};
use std::alloc::{AllocError, Global};
use std::process::Abort;
use std::test::Fail;

/// The codes of 1, 2, 3, 4, 5 and 8 one after another: `1 010 011 00100 00101 0001000`.
const CODES: [u8; 3] = [0b1010_0110, 0b0100_0010, 0b1000_1000];

/// The same codes, and behind them that of the greatest number: 31 zeros and 32 ones.
const CODES_AND_GREATEST: [u8; 11] = [
    0b1010_0110,
    0b0100_0010,
    0b1000_1000,
    0,
    0,
    0,
    1,
    0xff,
    0xff,
    0xff,
    0b1111_1110,
];

/// This many bits were written, and these are their bytes.
fn has_written(rt: &impl Abort, bits: &BitWriter, len: usize, bytes: &[u8]) {
    assert!(rt; bits.len() == len);
    assert_eq!(rt; bits.as_bytes(), bytes);
}

#[test]
fn writes_codes(rt: HostRuntime) -> Result<(), Fail> {
    let mut bits = BitWriter::new(rt.alloc());
    for n in [1, 2, 3, 4, 5, 8] {
        bits.write_gamma(n)?;
    }
    has_written(&rt, &bits, 24, &CODES);
    bits.write_gamma(u32::MAX)?;
    has_written(&rt, &bits, 87, &CODES_AND_GREATEST);
    Ok(())
}

#[test]
fn reads_codes(rt: HostRuntime) {
    let mut reader = BitReader::new(&CODES, 0, 24);
    for n in [1, 2, 3, 4, 5, 8] {
        assert!(rt; reader.read_gamma() == Some(n));
    }
    assert!(rt; reader.read_gamma().is_none());
    assert!(rt; reader.len() == 0);
}

/// This is read from the bits of these bytes, from this bit on and this many, and this many are then left.
fn reads(
    rt: &impl Abort,
    bytes: &[u8],
    (start, len): (usize, usize),
    read: Option<u32>,
    left: usize,
) {
    assert!(rt; start <= 8 && len <= 72 && bytes.len() <= 16);
    assert!(rt; start + len <= bytes.len() * 8);
    let mut reader = BitReader::new(bytes, start, len);
    assert!(rt; reader.read_gamma() == read);
    assert!(rt; reader.len() == left);
}

/// A code with bits behind it, one that is cut off, zeros that no code begins with, and the greatest number.
#[test]
fn reads_no_more_than_a_code(rt: HostRuntime) {
    let zeros = [0, 0, 0, 0, 0xff, 0xff, 0xff, 0xff, 0xff];
    reads(&rt, &[0b0010_0000], (0, 8), Some(4), 3);
    reads(&rt, &[0b0010_0000], (0, 3), None, 3);
    reads(&rt, &zeros, (0, 72), None, 72);
    reads(&rt, &zeros, (1, 63), Some(u32::MAX), 0);
}

/// The codes of the numbers from 1 to this one, one after another.
fn written_up_to(alloc: Global, last: u32) -> Result<BitWriter, AllocError> {
    let mut bits = BitWriter::new(alloc);
    for n in 1..=last {
        bits.write_gamma(n)?;
    }
    Ok(bits)
}

#[test]
fn reads_what_it_wrote(rt: HostRuntime) -> Result<(), Fail> {
    let bits = written_up_to(rt.alloc(), 5_000)?;
    let mut reader = bits.reader(0, bits.len());
    for n in 1..=5_000u32 {
        assert!(rt; reader.read_gamma() == Some(n));
    }
    assert!(rt; reader.len() == 0);
    Ok(())
}
