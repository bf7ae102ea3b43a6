// The digest of a store, and the bytes that it covers.
ghost use Rattle.silt_frame.specs.Rows.{RowBytesLaw};

/// The SHA-1 digest of the bytes of a store.
#[derive(Clone, Copy, Debug, PartialEq, Eq)]
pub struct Digest(pub [u8; 20]);

/// The law of digested bytes: decode a row or a put from bytes, encode it again, and the same bytes come out. So a digest of rows
/// is a digest of the bytes on the device.
#[tactic(auto, using(crate::proofs::RowBytes::row_bytes_law))]
pub fn row_bytes_law()
    ensures { RowBytesLaw }
{}
