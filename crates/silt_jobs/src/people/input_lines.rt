// The lines of an input: how many there are, which of them are blank, and how many are swaps of no value for none.
use crate::people::EmptySwap;
use std::alloc::Global;

/// How many blank lines are kept at most, by their numbers.
const MOST_BLANK: usize = 65_536;

/// The bytes of a line that has not ended.
#[derive(Clone, Copy, Debug, PartialEq, Eq)]
pub enum Begun {
    Nothing,
    /// A carriage return alone, so that it is blank if it ends.
    Return,
    Something,
}

/// How many lines an input has, the numbers of its blank lines, which get no reply, and how many are swaps of no value for
/// none. The first line is number 1.
#[derive(Drop)]
pub struct InputLines {
    ended: u64,
    begun: Begun,
    blank: Vec<u64>,
    // Whether not all blank lines are kept.
    is_cut: bool,
    swap: EmptySwap,
    empty_swaps: u64,
}

impl InputLines {
    /// The lines of an input before anything is read.
    pub fn new(alloc: Global) -> Self {
        InputLines {
            ended: 0,
            begun: Begun::Nothing,
            blank: Vec::new(alloc),
            is_cut: false,
            swap: EmptySwap::new(),
            empty_swaps: 0,
        }
    }

    /// Takes what was read next.
    pub fn take(&mut self, bytes: &[u8]) {
        for byte in bytes {
            self.take_byte(*byte);
        }
    }

    // Takes the next byte.
    fn take_byte(&mut self, byte: u8) {
        if byte == b'\n' {
            self.end_line();
            return;
        }
        self.swap = self.swap.with(byte);
        self.begun = match self.begun {
            Begun::Nothing if byte == b'\r' => Begun::Return,
            _ => Begun::Something,
        };
    }

    // Ends a line, keeps its number if it is blank, and counts it if it is a swap of no value for none.
    fn end_line(&mut self) {
        self.ended = self.ended.wrapping_add(1);
        if self.begun != Begun::Something {
            self.keep_blank();
        }
        self.begun = Begun::Nothing;
        if self.swap.is_whole() {
            self.empty_swaps = self.empty_swaps.saturating_add(1);
        }
        self.swap = EmptySwap::new();
    }

    // Keeps the number of the last line, which is blank.
    fn keep_blank(&mut self) {
        if self.blank.len() >= MOST_BLANK || self.blank.push(self.ended).is_err() {
            self.is_cut = true;
        }
    }

    /// Whether bytes came after the last line feed.
    pub fn has_rest(&self) -> bool {
        self.begun != Begun::Nothing
    }

    /// How many lines are swaps of no value for none.
    pub fn empty_swaps(&self) -> u64 {
        self.empty_swaps
    }

    /// The number of the line to which this is the reply. None if that is not known.
    pub fn number_of(&self, reply: u64) -> Option<u64> {
        let mut number = reply;
        for blank in &self.blank {
            if *blank > number {
                return Some(number);
            }
            number = number.wrapping_add(1);
        }
        if self.is_cut {
            return None;
        }
        Some(number)
    }
}
