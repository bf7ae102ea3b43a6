// Keys in text.
ghost use Rattle.std.specs.Prelude.{◌≡◌};
ghost use Rattle.std.specs.List.{list_all};
ghost use Rattle.silt_wire.specs.Lines.{is_name, is_name_byte, key_bytes, key_of};

use hex::FromHex;
use sha1::Sha1;
use silt_frame::{KEY_LEN, Key};

/// The most bytes that a name may have.
const LONGEST_NAME: usize = 8000;

fn has_name_bytes(text: &[u8]) -> bool
    ensures { result ≡ list_all is_name_byte text.now }
{
    text.iter().all(|byte| 0x21 <= *byte && *byte <= 0x7E)
}

// Whether a key may have this name.
fn is_name(text: &[u8]) -> bool
    ensures { result ≡ is_name text.now }
{
    1 <= text.len() && text.len() <= LONGEST_NAME && has_name_bytes(text)
}

fn key_bytes(word: &[u8]) -> Option<[u8; KEY_LEN]>
    ensures { result ≡ key_bytes word.now }
{
    match word {
        [] => None,
        [b'=', name @ ..] => {
            if is_name(name) {
                Some(Sha1::digest(name))
            } else {
                None
            }
        }
        _ => <[u8; KEY_LEN] as FromHex>::from_hex(word).ok(),
    }
}

/// The key that a word spells: forty hexadecimal digits in either case, or `=` and a name of 1 to 8,000 bytes from 0x21 to
/// 0x7E, whose SHA-1 digest is the key.
pub fn key_of(word: &[u8]) -> Option<Key>
    ensures { result ≡ key_of word.now }
{
    key_bytes(word).map(Key)
}
