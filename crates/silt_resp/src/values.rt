// Strings as values, and names as keys.
ghost use Rattle.std.specs.Prelude.{◌≡◌, ◌≤◌, ◌<◌, ◌+◌, ◌==◌, ℕ, IfOk, length, replicate, slice_index};
ghost use Rattle.std.specs.List.{list_all};
ghost use Rattle.std.specs.Option.{option_copied};
ghost use Rattle.sha1.specs.Sha1.{sha1};
ghost use Rattle.silt_resp.specs.Values.{ValuesLaw, count_limit, string_of, string_value};

use byteorder::{BigEndian, ByteOrder};
use sha1::Sha1;
use silt_frame::{Key, Value};
use std::alloc::{AllocError, Global};

/// How many bytes of a value are the length of its string.
pub const LENGTH_LEN: usize = 2;

/// The law of strings as values: a string that fits is read back, and a value that holds a string is that string's alone.
#[tactic(auto, using(crate::proofs::Strings::values_law))]
pub fn values_law()
    ensures { ValuesLaw }
{}

/// The key of a name: its SHA-1 digest.
pub fn key_of(name: &[u8]) -> Key
    ensures { result.0 ≡ sha1 name.now }
{
    Key(Sha1::digest(name))
}

/// A string as a value of `value_len` bytes: its length in two bytes, the string, and zeros.
pub fn string_value(alloc: Global, value_len: usize, string: &[u8]) -> Result<Value, AllocError>
    requires fits { 2 + length string.now ≤ value_len }
    requires counted { length string.now < count_limit }
    ensures value { IfOk result (λ value. value ≡ string_value value_len string.now) }
{
    let mut count = [0; LENGTH_LEN];
    BigEndian::write_u16(&mut count, string.len() as u16);
    let mut bytes = Vec::with_capacity(alloc, value_len)?;
    bytes.extend_from_slice(&count)?;
    bytes.extend_from_slice(string)?;
    bytes.resize(value_len, 0)?;
    Ok(Value::new(bytes))
}

/// The string that has this value, if one has it.
pub fn string_of(value: &[u8]) -> Option<&[u8]>
    ensures { option_copied result ≡ string_of value.now }
{
    if value.len() < LENGTH_LEN {
        return None;
    }
    let (count, rest) = value.split_at(LENGTH_LEN);
    let _known = known_bytes(count); // each is below 256
    let len = BigEndian::read_u16(count) as usize;
    if len > rest.len() {
        return None;
    }
    let (string, zeros) = rest.split_at(len);
    if are_zeros(zeros) { Some(string) } else { None }
}

fn are_zeros(bytes: &[u8]) -> bool
    ensures { result ≡ list_all (λ b. b == 0) bytes.now }
{
    bytes.iter().all(|byte| *byte == 0)
}

// What the type of bytes says: each is less than 256.
fn known_bytes(bytes: &[u8])
    ensures { (place : ℕ) → slice_index bytes.now place < 256 }
{}
