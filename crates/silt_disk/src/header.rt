// The header of a device, encoded and decoded.
ghost use Rattle.std.specs.Prelude.{◌≡◌, MatchResult};
ghost use Rattle.silt_disk.specs.Header.{header_bytes, header_shape, is_formatted, version_number, version_of};
ghost use Rattle.silt_disk.specs.Layout.{InLimits};

use crate::{BadGeometry, Geometry};
use byteorder::{BigEndian, ByteOrder};
use silt_frame::is_open;

/// The length of a header's meaningful bytes: its commit byte, the magic bytes, the version and the six numbers.
pub const HEADER_LEN: usize = 37;

// The magic bytes follow the header's commit byte.
const MAGIC: [u8; 8] = *b"SILTFLSH";

// The version numbers: the first layout, and the one that `format` writes.
const FIRST_VERSION: u32 = 1;

const NEW_VERSION: u32 = 2;

/// The version of a device's layout, from its header.
#[derive(Clone, Copy, Debug, PartialEq, Eq)]
pub enum Version {
    /// A manifest slot may have no digests: the device was formatted by the first version.
    One,
    /// Every manifest slot has digests.
    Two,
}

// The version number in a header.
fn version_number(header: &[u8; HEADER_LEN]) -> u32
    ensures { result ≡ version_number header.now }
{
    BigEndian::read_u32(&header[9..13])
}

/// Whether the commit byte is open, and the magic bytes and version 1 or 2 follow.
pub fn is_formatted(header: &[u8; HEADER_LEN]) -> bool
    ensures { result ≡ is_formatted header.now }
{
    is_open(header[0])
        && &header[1..9] == MAGIC.as_slice()
        && matches!(version_number(header), FIRST_VERSION | NEW_VERSION)
}

/// The version of a formatted header.
pub fn version_of(header: &[u8; HEADER_LEN]) -> Version
    ensures { result ≡ version_of header.now }
{
    if version_number(header) == NEW_VERSION {
        Version::Two
    } else {
        Version::One
    }
}

/// The geometry from the six numbers of a header, or an error if one of them is out of its limits.
pub fn geometry_of(header: &[u8; HEADER_LEN]) -> Result<Geometry, BadGeometry>
    ensures { MatchResult result (λ geometry. (geometry ≡ header_shape header.now) × InLimits (header_shape header.now)) (λ _. ¬ InLimits (header_shape header.now)) }
{
    Geometry::new(
        BigEndian::read_u32(&header[13..17]),
        BigEndian::read_u32(&header[17..21]),
        BigEndian::read_u32(&header[21..25]),
        BigEndian::read_u32(&header[25..29]),
        BigEndian::read_u32(&header[29..33]),
        BigEndian::read_u32(&header[33..37]),
    )
}

/// The bytes after the commit byte of a new header: the magic bytes, version 2 and the six numbers.
pub fn header_bytes(geometry: &Geometry) -> [u8; HEADER_LEN - 1]
    ensures { result ≡ header_bytes geometry.now }
{
    let mut bytes = [0; HEADER_LEN - 1];
    let (magic, rest) = bytes.split_at_mut(8);
    magic.copy_from_slice(&MAGIC);
    let (version, rest) = rest.split_at_mut(4);
    BigEndian::write_u32(version, NEW_VERSION);
    let (value_len, rest) = rest.split_at_mut(4);
    BigEndian::write_u32(value_len, geometry.value_len());
    let (buckets, rest) = rest.split_at_mut(4);
    BigEndian::write_u32(buckets, geometry.buckets());
    let (log_capacity, rest) = rest.split_at_mut(4);
    BigEndian::write_u32(log_capacity, geometry.log_capacity());
    let (logs, rest) = rest.split_at_mut(4);
    BigEndian::write_u32(logs, geometry.logs());
    let (hashes, sorted_capacity) = rest.split_at_mut(4);
    BigEndian::write_u32(hashes, geometry.hashes());
    BigEndian::write_u32(sorted_capacity, geometry.sorted_capacity());
    bytes
}
