// SHA-1 of a message that comes in parts.
ghost use Rattle.std.specs.Prelude.{◌≡◌, ℕ, [], List, IsTrue, ◌↔◌};
ghost use Rattle.sha1.specs.Sha1.{sha1};
ghost use Rattle.silt_hasher.specs.Taking.{HasTaken, taken_after};

use crate::state::Sha1State;
use std::marker::Model;

/// A message that is hashed part by part. Contracts see what is taken in of it.
#[derive(Drop)]
pub struct Hasher {
    state: Sha1State,
}

impl Model for Hasher {
    ghost use Rattle.silt_hasher.specs.States.{taken_of};
    ghost use Rattle.silt_hasher.specs.Taking.{Taken};

    ghost Value = { Taken };

    ghost view = { λ a. taken_of a.state };
}

impl Hasher {
    /// Nothing is taken in.
    pub fn new() -> Hasher
        ensures { HasTaken result [] }
    {
        Hasher {
            state: Sha1State::new(),
        }
    }

    /// Takes in bytes.
    pub fn update(&mut self, bytes: &[u8])
        ensures { self.new ≡ taken_after self.old bytes.now }
    {
        self.state.update(bytes);
    }

    /// A hasher that has taken in the same.
    pub fn copy(&self) -> Hasher
        ensures { result ≡ self.now }
    {
        Hasher { state: self.state }
    }

    /// Whether the other one has taken in the same.
    pub fn is_same(&self, other: &Hasher) -> bool
        ensures { IsTrue result ↔ (self.now ≡ other.now) }
    {
        self.state.is_same(&other.state)
    }

    /// The digest of what is taken in.
    pub fn finalize(self) -> [u8; 20]
        ensures { (bytes : List ℕ) → HasTaken self bytes → result ≡ sha1 bytes }
    {
        self.state.finalize()
    }
}
