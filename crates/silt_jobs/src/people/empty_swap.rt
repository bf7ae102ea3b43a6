// Lines that are swaps of no value for none: `swap`, a key, and two hyphens. They are refused, and no value is wrong.

const HEAD: &[u8] = b"swap ";

const TAIL: &[u8] = b"- -";

/// The most bytes that a name of a key may have.
const LONGEST_NAME: usize = 8000;

/// How far the bytes of a line are those of such a swap.
#[derive(Clone, Copy, Debug, PartialEq, Eq)]
pub enum EmptySwap {
    /// So many bytes of the head.
    Head(usize),
    /// So many digits of a key.
    Digits(usize),
    /// So many bytes of a name.
    Name(usize),
    /// So many bytes of the tail.
    Tail(usize),
    Whole,
    /// A carriage return behind a whole line.
    Return,
    /// The line is another one.
    Other,
}

impl EmptySwap {
    /// The beginning of a line.
    pub fn new() -> Self {
        EmptySwap::Head(0)
    }

    /// Whether the line is such a swap, if it ends here.
    pub fn is_whole(self) -> bool {
        matches!(self, EmptySwap::Whole | EmptySwap::Return)
    }

    /// With one more byte of the line.
    pub fn with(self, byte: u8) -> Self {
        match self {
            EmptySwap::Head(at) if at < HEAD.len() => {
                next_if(HEAD[at] == byte, EmptySwap::Head(at + 1))
            }
            EmptySwap::Head(_) if byte == b'=' => EmptySwap::Name(0),
            EmptySwap::Head(_) => next_if(byte.is_ascii_hexdigit(), EmptySwap::Digits(1)),
            EmptySwap::Digits(40) => next_if(byte == b' ', EmptySwap::Tail(0)),
            EmptySwap::Digits(digits) if digits < 40 => {
                next_if(byte.is_ascii_hexdigit(), EmptySwap::Digits(digits + 1))
            }
            EmptySwap::Name(bytes) if bytes > 0 && byte == b' ' => EmptySwap::Tail(0),
            EmptySwap::Name(bytes) if bytes < LONGEST_NAME => {
                next_if(byte.is_ascii_graphic(), EmptySwap::Name(bytes + 1))
            }
            EmptySwap::Tail(2) => next_if(byte == TAIL[2], EmptySwap::Whole),
            EmptySwap::Tail(at) if at < 2 => next_if(TAIL[at] == byte, EmptySwap::Tail(at + 1)),
            EmptySwap::Whole => next_if(byte == b'\r', EmptySwap::Return),
            _ => EmptySwap::Other,
        }
    }
}

// This state, if the byte was the one that is due.
fn next_if(is_due: bool, next: EmptySwap) -> EmptySwap {
    if is_due { next } else { EmptySwap::Other }
}
