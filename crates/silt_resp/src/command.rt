// The command that a client's bytes ended.
ghost use Rattle.std.specs.Prelude.{◌≡◌, drop, length, slice_get, slice_range};
ghost use Rattle.std.specs.Option.{option_map};

use crate::fault::ProtocolFault;
use crate::words::Span;
use std::marker::Model;

/// A word of a command: its bytes, or only that it has more than are kept.
#[derive(Clone, Copy, Debug)]
pub enum Word<'a> {
    Whole(&'a [u8]),
    Long,
}

/// The words of a command.
#[derive(Debug, Drop)]
pub struct Words<'a> {
    bytes: &'a [u8],
    spans: &'a [Span],
}

impl<'a> Model for Words<'a> {
    ghost use Rattle.std.specs.Prelude.{List};
    ghost use Rattle.silt_resp.specs.Stream.{Word as WordOf};
    ghost use Rattle.silt_resp.specs.Words.{words_in};

    ghost Value = { List WordOf };

    ghost view = { λ w. words_in w.bytes.now w.spans.now };
}

/// A command, or what a client sent in the place of one.
#[derive(Debug, Drop)]
pub enum Command<'a> {
    /// These are its words.
    Complete(Words<'a>),
    /// It has more words than are kept.
    ManyWords,
    /// Its words have more bytes than are kept.
    ManyBytes,
    /// The bytes begin no command.
    Broken(ProtocolFault),
}

// The bytes from one place to another, as far as there are any.
fn bytes_between(bytes: &[u8], start: usize, end: usize) -> &[u8]
    ensures { result.now ≡ slice_range bytes.now start end }
{
    let (_, rest) = bytes.split_at(start.min(bytes.len()));
    rest.split_at(end.saturating_sub(start).min(rest.len())).0
}

impl<'a> Words<'a> {
    ghost use Rattle.silt_resp.specs.Words.{words_in};
    ghost use Rattle.silt_resp.specs.Seen.{word_seen};

    /// The words whose bytes are there.
    pub fn new(bytes: &'a [u8], spans: &'a [Span]) -> Self
        ensures { result ≡ words_in bytes.now spans.now }
    {
        Words { bytes, spans }
    }

    /// How many there are.
    pub fn len(&self) -> usize
        ensures { result ≡ length self.now }
    {
        self.spans.len()
    }

    /// The words behind the first one.
    pub fn rest(&self) -> Words<'a>
        ensures { result ≡ drop 1 self.now }
    {
        match self.spans {
            [_, spans @ ..] => Words::new(self.bytes, spans),
            [] => Words::new(self.bytes, self.spans),
        }
    }

    /// The word with this number, counted from 0.
    pub fn get(&self, index: usize) -> Option<Word<'a>>
        ensures { option_map word_seen result ≡ slice_get self.now index }
    {
        match *self.spans.get(index)? {
            Span::Whole(start, end) => Some(Word::Whole(bytes_between(self.bytes, start, end))),
            Span::Long => Some(Word::Long),
        }
    }
}

impl Command<'_> {
    ghost use Rattle.silt_resp.specs.Seen.{command_seen};
    ghost use Rattle.silt_resp.specs.Stream.{closes};

    /// Whether nothing behind it is read: so it is with bytes that begin no command, and with a `QUIT`.
    pub fn closes(&self) -> bool
        ensures { result ≡ closes (command_seen self.now) }
    {
        match self {
            Command::Complete(words) => match words.get(0) {
                Some(Word::Whole(name)) => name.eq_ignore_ascii_case(b"quit"),
                _ => false,
            },
            Command::ManyWords | Command::ManyBytes => false,
            Command::Broken(_) => true,
        }
    }
}
