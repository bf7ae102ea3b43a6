// Keys that differ in their first byte only.
ghost use Rattle.std.specs.Prelude.{◌≡◌, ◌∷◌, replicate};

use silt_frame::Key;

/// A key that begins with this byte and goes on with zeros.
pub fn key(first: u8) -> Key
    ensures { result.0 ≡ first ∷ replicate 19 0 }
{
    let mut bytes = [0; 20];
    bytes[0] = first;
    Key(bytes)
}
