// Which lines of an output are refusals, and which is the first of each kind.
ghost use Rattle.std.specs.Prelude.{◌≡◌, ◌-◌, ◌++◌, ◌∷◌, ◌<◌, ◌≤◌, [], cond, length, nat_lt};
ghost use Rattle.silt_jobs.specs.Tally.{counted, has_refusals, line_ended, refusal_number, refusal_in, tally_after, tally_of, unreported};

use std::marker::Model;

/// How many bytes of a line say whether it is a refusal, and which.
const ENOUGH: usize = 10;

/// One more than the greatest number of a refusal.
pub const KINDS: usize = 24;

/// How many lines are refusals of one kind, and which line is the first.
#[derive(Clone, Copy, Debug, PartialEq, Eq)]
pub struct Refusals {
    pub count: u64,
    pub first: u64,
}

// The first bytes of a line.
#[derive(Drop)]
struct Beginning {
    bytes: [u8; ENOUGH],
    len: usize,
}

impl Model for Beginning {
    ghost use Rattle.std.specs.Prelude.{◌≤◌, ℕ, List, take};

    ghost Value = { List ℕ };

    ghost view = { λ b. take b.len b.bytes };

    ghost invariant = { λ b. b.len ≤ 10 };
}

impl Beginning {
    fn new() -> Self
        ensures { result ≡ [] }
    {
        Beginning {
            bytes: [0; ENOUGH],
            len: 0,
        }
    }

    // One more byte, if it is one of the first.
    fn take(&mut self, byte: u8)
        ensures { self.new ≡ cond (nat_lt (length self.old) 10) (self.old ++ byte ∷ []) self.old }
    {
        if self.len < ENOUGH {
            self.bytes[self.len] = byte;
            self.len += 1;
        }
    }

    fn as_slice(&self) -> &[u8]
        ensures { result.now ≡ self.now }
    {
        &self.bytes[..self.len]
    }
}

/// How many lines an output has, and how many of them are refusals, by the number of the refusal.
#[derive(Drop)]
pub struct Tally {
    ended: u64,
    begun: Beginning,
    refused: [Refusals; KINDS],
}

impl Tally {
    /// The tally of an empty output.
    pub fn new() -> Self
        ensures { result ≡ unreported }
    {
        Tally {
            ended: 0,
            begun: Beginning::new(),
            refused: [Refusals { count: 0, first: 0 }; KINDS],
        }
    }

    /// Takes what was written next.
    pub fn take(&mut self, bytes: &[u8])
        ensures { self.new ≡ tally_of self.old bytes.now }
    {
        for byte in bytes {
            self.take_byte(*byte);
        }
    }

    // Takes the next byte.
    fn take_byte(&mut self, byte: u8)
        ensures { self.new ≡ tally_after self.old byte }
    {
        if byte == b'\n' {
            self.end_line();
        } else {
            self.begun.take(byte);
        }
    }

    // Ends a line. A line that is no refusal is counted under the number 0.
    fn end_line(&mut self)
        ensures { self.new ≡ line_ended self.old }
    {
        self.ended = self.ended.wrapping_add(1);
        let kind = refusal_in(self.begun.as_slice());
        if kind < KINDS {
            self.refused[kind] = counted(self.refused[kind], self.ended);
        }
        self.begun = Beginning::new();
    }

    /// Whether some line is a refusal.
    pub fn has_refusals(&self) -> bool
        ensures { result ≡ has_refusals self.now }
    {
        self.refused[1..].iter().any(|refusals| refusals.count > 0)
    }

    /// The refusals by their number. The first are the lines that are none.
    pub fn refused(&self) -> [Refusals; KINDS]
        ensures { result ≡ self.now.refused }
    {
        self.refused
    }
}

// With one more line, which has this number.
fn counted(refusals: Refusals, line: u64) -> Refusals
    ensures { result ≡ counted refusals line }
{
    Refusals {
        count: refusals.count.saturating_add(1),
        first: if refusals.count == 0 {
            line
        } else {
            refusals.first
        },
    }
}

// The number of the refusal that begins so, or 0.
fn refusal_in(begun: &[u8]) -> usize
    ensures { result ≡ refusal_in begun.now }
{
    if begun.len() < ENOUGH || &begun[..8] != b"refused ".as_slice() {
        return 0;
    }
    refusal_number(begun[8], begun[9])
}

// The number of one digit before a space, or of two digits.
fn refusal_number(first: u8, second: u8) -> usize
    ensures { result ≡ refusal_number first second }
{
    let (tens, ones) = (digit(first), digit(second));
    if second == b' ' {
        tens
    } else {
        10 * tens + ones
    }
}

// The value of a digit.
fn digit(byte: u8) -> usize
    ensures value { result ≡ byte - 48 }
    ensures most { result < 256 }
{
    usize::from(byte.saturating_sub(48))
}
