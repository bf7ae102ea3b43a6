// The bytes of a line in progress.
ghost use Rattle.std.specs.Prelude.{◌≡◌, ◌==◌, ◌++◌, ◌<◌, ◌≤◌, [], ℕ, List, length, position, OnOk, IfOk};
ghost use Rattle.silt_event.specs.Events.{HasValueOf};
ghost use Rattle.silt_wire.specs.Lines.{Parses, asked_by, admin_of, is_blank};
ghost use Rattle.silt_wire.specs.LineBuffer.{HoldsBytes, TakesPiece};

use crate::line::{LONGEST_LINE, LineFault, admin_of, is_blank, parse_line};
use silt_event::{Admin, Event};
use std::alloc::{AllocError, Global};

/// The bytes since the last line feed, or only that they are too many for a line.
#[derive(Drop)]
pub struct LineBuffer {
    pub line: Vec<u8>,
    pub is_long: bool,
}

/// How many bytes were taken of a line, and whether they end it.
#[derive(Clone, Copy, Debug, PartialEq, Eq)]
pub struct Taken {
    pub count: usize,
    pub ends_line: bool,
}

// Where the first line feed is.
fn feed_at(bytes: &[u8]) -> Option<usize>
    ensures { result ≡ position (λ b. b == 10) bytes.now }
{
    bytes.iter().position(|byte| *byte == b'\n')
}

impl LineBuffer {
    /// No bytes yet, with room for a whole line.
    pub fn new(alloc: Global) -> Result<Self, AllocError>
        ensures { IfOk result (λ pending. HoldsBytes pending []) }
    {
        Ok(LineBuffer {
            line: Vec::with_capacity(alloc, LONGEST_LINE)?,
            is_long: false,
        })
    }

    /// Takes bytes up to the first line feed, or all if there is none. A line that has ended is kept, without its line
    /// feed, until the line is cleared.
    pub fn take(&mut self, bytes: &[u8]) -> Result<Taken, AllocError>
        ensures takes { IfOk result (λ taken. (begun : List ℕ) → HoldsBytes self.old begun → TakesPiece begun bytes.now taken self.new) }
        ensures count { IfOk result (λ taken. (0 < length bytes.now → 0 < taken.count) × (taken.count ≤ length bytes.now)) }
    {
        match feed_at(bytes) {
            Some(at) => {
                self.append(bytes.split_at(at).0)?;
                Ok(Taken {
                    count: at + 1,
                    ends_line: true,
                })
            }
            None => {
                self.append(bytes)?;
                Ok(Taken {
                    count: bytes.len(),
                    ends_line: false,
                })
            }
        }
    }

    // Takes more bytes of the line.
    fn append(&mut self, bytes: &[u8]) -> Result<(), AllocError>
        ensures { OnOk result ((begun : List ℕ) → HoldsBytes self.old begun → HoldsBytes self.new (begun ++ bytes.now)) }
    {
        if self.is_long {
            return Ok(());
        }
        if self.line.len() + bytes.len() > LONGEST_LINE {
            self.is_long = true;
            return Ok(());
        }
        self.line.extend_from_slice(bytes)?;
        Ok(())
    }

    /// Forgets the line.
    pub fn clear(&mut self)
        ensures { HoldsBytes self.new [] }
    {
        self.line.clear();
        self.is_long = false;
    }

    /// Whether the line is empty but for a carriage return.
    pub fn is_blank(&self) -> bool
        ensures { (line : List ℕ) → HoldsBytes self.now line → result ≡ is_blank line }
    {
        !self.is_long && is_blank(&self.line)
    }

    /// The admin command of the line, if it is one.
    pub fn admin(&self) -> Option<Admin>
        ensures { (line : List ℕ) → HoldsBytes self.now line → result ≡ admin_of line }
    {
        if self.is_long {
            return None;
        }
        admin_of(&self.line)
    }

    /// The event that the line asks for.
    pub fn parse(&self, alloc: Global, value_len: usize) -> Result<Event, LineFault>
        ensures asked { (line : List ℕ) → HoldsBytes self.now line → Parses (asked_by value_len line) result }
        ensures fits { IfOk result (HasValueOf value_len) }
    {
        if self.is_long {
            return Err(LineFault::LineTooLong);
        }
        parse_line(alloc, &self.line, value_len)
    }
}
