// The numbers of sessions.
ghost use Rattle.std.specs.Prelude.{◌≡◌, ◌+◌, MatchOption};

use std::marker::Model;

/// The number of a session. Only [`SessionNumbers::next`] makes one, and nothing copies it: so no two sessions have one number if one
/// count gives all.
#[derive(Drop)]
pub struct SessionNumber {
    number: u64,
}

impl Model for SessionNumber {
    ghost use Rattle.std.specs.Prelude.{ℕ};

    ghost Value = { ℕ };

    ghost view = { λ n. n.number };
}

impl SessionNumber {
    /// The number.
    pub fn get(&self) -> u64
        ensures { result ≡ self.now }
    {
        self.number
    }
}

/// How many sessions have got a number.
#[derive(Drop)]
pub struct SessionNumbers {
    given: u64,
}

impl Model for SessionNumbers {
    ghost use Rattle.std.specs.Prelude.{ℕ};

    ghost Value = { ℕ };

    ghost view = { λ n. n.given };
}

impl SessionNumbers {
    /// No session has one yet.
    pub fn new() -> SessionNumbers
        ensures { result ≡ 0 }
    {
        SessionNumbers { given: 0 }
    }

    /// The next number, greater than all before it. None once 2^64 - 1 of them are given.
    pub fn next(&mut self) -> Option<SessionNumber>
        ensures { MatchOption result (self.new ≡ self.old) (λ number. (number ≡ self.new) × (self.new ≡ self.old + 1)) }
    {
        self.given = self.given.checked_add(1)?;
        Some(SessionNumber { number: self.given })
    }
}
