// An entry of a sorted region: a key and its value.
ghost use Rattle.std.specs.Prelude.{◌≡◌, ◌+◌, ◌<◌, ◌≤◌, length};
ghost use Rattle.silt_frame.specs.Frame.{entry_bytes, entry_of, key_len, EntryLaw};

use crate::{KEY_LEN, Key};

/// Writes the bytes of an entry, the key and then the value, over a buffer of exactly that length. The inverse of `entry_of`, for
/// code that makes a region's bytes outside of a store.
pub fn write_entry(key: &Key, value: &[u8], out: &mut [u8])
    requires { length out.old ≡ key_len + length value.now }
    ensures { out.new ≡ entry_bytes key.now value.now }
{
    let (head, rest) = out.split_at_mut(KEY_LEN);
    head.copy_from_slice(&key.0);
    rest.copy_from_slice(value);
}

/// The key and the value of an entry of at least 20 bytes.
pub fn entry_of(bytes: &[u8]) -> (Key, &[u8])
    requires { key_len ≤ length bytes.now }
    ensures { (result.0, result.1.now) ≡ entry_of bytes.now }
{
    let (head, value) = bytes.split_at(KEY_LEN);
    let mut key = [0; KEY_LEN];
    key.copy_from_slice(head);
    (Key(key), value)
}

/// The law of entries: an entry reads back as it was written, and no other bytes read as the same entry. The crates above rely on it.
pub fn entry_bytes_law()
    ensures { EntryLaw }
{}
