// The lines in front of commands and words: how many words come, and how many bytes a word has.
ghost use Rattle.std.specs.Prelude.{◌≡◌, ◌++◌};
ghost use Rattle.std.specs.Option.{option_copied};
ghost use Rattle.silt_resp.specs.Heads.{before_return, bytes_announced, within, word_count, words_announced};
ghost use Rattle.silt_wire.specs.Numbers.{number_of};

use crate::fault::ProtocolFault;
use silt_wire::number_of;

/// What a line is.
#[derive(Clone, Copy, Debug, PartialEq, Eq)]
pub enum LineKind {
    /// A command without marks.
    Inline,
    /// How many words a command has.
    Count,
    /// How many bytes a word has.
    WordLength,
}

impl LineKind {
    ghost use Rattle.silt_resp.specs.Stream.{line_kind, line_limit, too_long};

    /// What a line is, by how many words are due and by its first byte.
    pub fn of(left: u32, line: &[u8]) -> LineKind
        ensures { result ≡ line_kind left line.now }
    {
        if left > 0 {
            return LineKind::WordLength;
        }
        match line {
            [b'*', ..] => LineKind::Count,
            _ => LineKind::Inline,
        }
    }

    /// What a line is, of which there are two parts.
    pub fn of_parts(left: u32, front: &[u8], back: &[u8]) -> LineKind
        ensures { result ≡ line_kind left (front.now ++ back.now) }
    {
        if front.is_empty() {
            LineKind::of(left, back)
        } else {
            LineKind::of(left, front)
        }
    }

    /// The most bytes of such a line, its carriage return counted.
    pub fn limit(self) -> usize
        ensures { result ≡ line_limit self }
    {
        match self {
            LineKind::Inline => 16_384,
            LineKind::Count | LineKind::WordLength => 32,
        }
    }

    /// What is wrong with a longer one.
    pub fn too_long(self) -> ProtocolFault
        ensures { result ≡ too_long self }
    {
        match self {
            LineKind::Inline => ProtocolFault::InlineTooLong,
            LineKind::Count => ProtocolFault::CountTooLong,
            LineKind::WordLength => ProtocolFault::LengthTooLong,
        }
    }
}

/// The most words of a command that are counted down.
const MOST_ANNOUNCED: u32 = 1_048_576;

/// The most bytes of a word that are counted down.
const LONGEST_ANNOUNCED: u32 = 536_870_912;

// The line without the carriage return at its end. None if it has none.
fn before_return(line: &[u8]) -> Option<&[u8]>
    ensures { option_copied result ≡ before_return line.now }
{
    match line {
        [text @ .., b'\r'] => Some(text),
        _ => None,
    }
}

// The number that a text writes, if it is at most this much.
fn number_within(most: u32, text: &[u8]) -> Option<u32>
    ensures { result ≡ within most (number_of text.now) }
{
    let number = number_of(text)?;
    if number <= most { Some(number) } else { None }
}

// The number of words that a text writes. A negative one is none.
fn word_count(text: &[u8]) -> Option<u32>
    ensures { result ≡ word_count text.now }
{
    if let [b'-', digits @ ..] = text {
        if number_of(digits).is_some() {
            return Some(0);
        }
    }
    number_within(MOST_ANNOUNCED, text)
}

/// How many words the line in front of a command announces, behind its mark `*`.
pub fn words_announced(line: &[u8]) -> Result<u32, ProtocolFault>
    ensures { result ≡ words_announced line.now }
{
    let [_, rest @ ..] = line else {
        return Err(ProtocolFault::NoCrLf);
    };
    let text = before_return(rest).ok_or(ProtocolFault::NoCrLf)?;
    word_count(text).ok_or(ProtocolFault::BadCount)
}

/// How many bytes the line in front of a word announces. It has to begin with the mark `$`.
pub fn bytes_announced(line: &[u8]) -> Result<u32, ProtocolFault>
    ensures { result ≡ bytes_announced line.now }
{
    let [b'$', rest @ ..] = line else {
        return Err(ProtocolFault::NoDollar);
    };
    let text = before_return(rest).ok_or(ProtocolFault::NoCrLf)?;
    number_within(LONGEST_ANNOUNCED, text).ok_or(ProtocolFault::BadLength)
}
