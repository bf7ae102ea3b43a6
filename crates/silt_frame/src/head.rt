// The head of a row: its kind and its key.
ghost use Rattle.std.specs.Prelude.{◌≡◌};
ghost use Rattle.silt_frame.specs.Frame.{head_bytes, head_of, HeadLaw};

use crate::{KEY_LEN, Key, Kind};

/// The length of a row's head, in bytes.
pub const HEAD_LEN: usize = 1 + KEY_LEN;

/// The head of a row: the kind in one byte, then the key.
pub fn head_bytes(kind: Kind, key: &Key) -> [u8; HEAD_LEN]
    ensures { result ≡ head_bytes kind key.now }
{
    let mut bytes = [0; HEAD_LEN];
    bytes[0] = kind.byte();
    bytes[1..].copy_from_slice(&key.0);
    bytes
}

/// Decodes the head of a row. Returns `None` exactly if the kind byte is neither 1 nor 2.
pub fn head_of(bytes: &[u8; HEAD_LEN]) -> Option<(Kind, Key)>
    ensures { result ≡ head_of bytes.now }
{
    let kind = Kind::from_byte(bytes[0])?;
    let mut key = [0; KEY_LEN];
    key.copy_from_slice(&bytes[1..]);
    Some((kind, Key(key)))
}

/// The law of heads: a head reads back as it was written, and no other bytes read as the same head. The crates above rely on it.
pub fn head_bytes_law()
    ensures { HeadLaw }
{}

#[cfg(test)]
mod tests {
    use super::*;

    // The head of a put of the key that is the SHA-1 digest of "abc".
    #[test]
    fn writes_a_head(rt: HostRuntime) {
        let key = Key(
            *b"\xa9\x99\x3e\x36\x47\x06\x81\x6a\xba\x3e\x25\x71\x78\x50\xc2\x6c\x9c\xd0\xd8\x9d",
        );
        let head =
            *b"\x01\xa9\x99\x3e\x36\x47\x06\x81\x6a\xba\x3e\x25\x71\x78\x50\xc2\x6c\x9c\xd0\xd8\x9d";
        assert_eq!(rt; head_bytes(Kind::Put, &key), head);
        assert_eq!(rt; head_of(&head), Some((Kind::Put, key)));
        assert_eq!(rt; head_bytes(Kind::Delete, &key)[0], 2);
        assert!(rt; Kind::Put.is_put() && !Kind::Delete.is_put());
    }

    #[test]
    fn reads_no_other_kind(rt: HostRuntime) {
        for kind in [0, 3, 255] {
            let mut head = [7; HEAD_LEN];
            head[0] = kind;
            assert_eq!(rt; head_of(&head), None);
            assert_eq!(rt; Kind::from_byte(kind), None);
        }
    }
}
