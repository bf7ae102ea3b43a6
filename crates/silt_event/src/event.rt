// The calls of a store, as data.
ghost use Rattle.std.specs.Prelude.{◌≡◌};
ghost use Rattle.std.specs.Option.{option_map};

use silt_frame::{Key, Value};

/// One call of a store.
#[derive(Debug, Drop)]
pub enum Event {
    /// Sets the value of a key.
    Put(Key, Value),
    /// Deletes a key.
    Delete(Key),
    /// Compare and swap: if the value of a key is the first one, sets it to the second one. `None` as the first value means
    /// that the key has no value, and `None` as the second one deletes the key.
    Swap(Key, Option<Value>, Option<Value>),
    /// Acknowledges all commands accepted so far.
    Flush,
    /// Looks up a key's value.
    Get(Key),
    /// One step of the conversion of a frozen log into a hash store.
    Convert,
    /// One step of the merge of the hash stores into the sorted store.
    Merge,
}

/// The bytes of a value, if there is one.
pub fn bytes_of(value: &Option<Value>) -> Option<&[u8]>
    ensures { option_map (λ bytes. bytes.now) result ≡ value.now }
{
    match value {
        Some(value) => Some(value.as_slice()),
        None => None,
    }
}
