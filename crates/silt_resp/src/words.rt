// The words of a command, in bounded memory.
ghost use Rattle.std.specs.Prelude.{◌≡◌, ◌==◌, ◌≤◌, ◌<◌, ◌++◌, ◌∷◌, [], List, IfOk, OnOk, length};
ghost use Rattle.silt_resp.specs.Stream.{Word as WordOf, command_read, long, most_words, spaced_words, word_of};
ghost use Rattle.silt_wire.specs.Lines.{words_of};
ghost use Rattle.silt_resp.specs.Seen.{command_seen};
ghost use Rattle.silt_resp.specs.Buffers.{HoldsWith, HoldsWords, IsPiece};

use crate::command::{Command, Words};
use silt_wire::cut_word;
use std::alloc::{AllocError, Global};

/// The most bytes of a word that are kept.
pub const LONGEST_WORD: usize = 8_192;

/// The most bytes of a command's words that are kept.
const MOST_BYTES: usize = 262_144;

/// The most words of a command that are kept.
const MOST_WORDS: usize = 1_024;

/// Where the bytes of a word are, or that they are too many.
#[derive(Clone, Copy, Debug, PartialEq, Eq)]
pub enum Span {
    Whole(usize, usize),
    Long,
}

/// Whether the words of a command are kept.
#[derive(Clone, Copy, Debug, PartialEq, Eq)]
pub enum Extent {
    FitsValues,
    ManyBytes,
    ManyWords,
}

/// The words of a command: their bytes one after the other, and where those of each word are.
#[derive(Drop)]
pub struct WordBuffer {
    pub bytes: Vec<u8>,
    pub spans: Vec<Span>,
    pub extent: Extent,
}

impl WordBuffer {
    /// No words.
    pub fn new(alloc: Global) -> Self
        ensures { HoldsWords result [] }
    {
        WordBuffer {
            bytes: Vec::new(alloc),
            spans: Vec::new(alloc),
            extent: Extent::FitsValues,
        }
    }

    /// Forgets all words.
    pub fn clear(&mut self)
        ensures { HoldsWords self.new [] }
    {
        self.bytes.clear();
        self.spans.clear();
        self.extent = Extent::FitsValues;
    }

    /// Adds a word.
    pub fn push(&mut self, word: &[u8]) -> Result<(), AllocError>
        ensures { OnOk result ((words : List WordOf) → HoldsWords self.old words
            → HoldsWords self.new (words ++ word_of word.now ∷ [])) }
    {
        if self.spans.len() >= MOST_WORDS {
            self.extent = Extent::ManyWords;
            return Ok(());
        }
        let span = self.keep(word)?;
        self.spans.push(span)?;
        Ok(())
    }

    /// Adds a word that has these bytes, or is too long to be kept.
    pub fn push_piece(&mut self, piece: &[u8], is_long: bool) -> Result<(), AllocError>
        ensures { OnOk result ((words : List WordOf) (word : WordOf) → HoldsWords self.old words → IsPiece is_long 0 piece.now word
            → HoldsWords self.new (words ++ word ∷ [])) }
    {
        if is_long {
            self.push_long()
        } else {
            self.push(piece)
        }
    }

    // Adds a word that is too long to be kept.
    fn push_long(&mut self) -> Result<(), AllocError>
        ensures { OnOk result ((words : List WordOf) → HoldsWords self.old words → HoldsWords self.new (words ++ long ∷ [])) }
    {
        if self.spans.len() >= MOST_WORDS {
            self.extent = Extent::ManyWords;
            return Ok(());
        }
        self.spans.push(Span::Long)?;
        Ok(())
    }

    /// Adds the words between the spaces of a text.
    pub fn push_spaced(&mut self, text: &[u8]) -> Result<(), AllocError>
        ensures { OnOk result ((words : List WordOf) → HoldsWords self.old words
            → HoldsWords self.new (words ++ spaced_words (words_of text.now))) }
    {
        let mut rest = text;
        while let Some((word, more)) = cut_word(rest) {
            self.push_some(word)?;
            rest = more;
        }
        self.push_some(rest)
    }

    // Adds a word if it has bytes.
    fn push_some(&mut self, word: &[u8]) -> Result<(), AllocError>
        ensures { OnOk result ((words : List WordOf) → HoldsWords self.old words
            → HoldsWords self.new (words ++ spaced_words (word.now ∷ []))) }
    {
        if word.is_empty() {
            return Ok(());
        }
        self.push(word)
    }

    /// Whether there are no words.
    pub fn is_empty(&self) -> bool
        ensures { (words : List WordOf) → HoldsWords self.now words → result ≡ (length words == 0) }
    {
        self.spans.is_empty()
    }

    /// The command of the words.
    pub fn command(&self) -> Command<'_>
        ensures { (words : List WordOf) → HoldsWords self.now words → command_seen result ≡ command_read words }
    {
        match self.extent {
            Extent::FitsValues => Command::Complete(Words::new(&self.bytes, &self.spans)),
            Extent::ManyBytes => Command::ManyBytes,
            Extent::ManyWords => Command::ManyWords,
        }
    }

    // Keeps the bytes of one more word if there is room for them.
    fn keep(&mut self, word: &[u8]) -> Result<Span, AllocError>
        ensures keeps { IfOk result (λ span. (words : List WordOf) → HoldsWords self.old words → length self.old.spans.items < most_words
            → HoldsWith self.new.extent self.new.bytes.items (self.old.spans.items ++ span ∷ []) (words ++ word_of word.now ∷ [])) }
        ensures spans { self.new.spans.items ≡ self.old.spans.items }
    {
        let Extent::FitsValues = self.extent else {
            return Ok(Span::Long);
        };
        if word.len() > LONGEST_WORD {
            return Ok(Span::Long);
        }
        let start = self.bytes.len();
        if start + word.len() > MOST_BYTES {
            self.extent = Extent::ManyBytes;
            return Ok(Span::Long);
        }
        self.bytes.extend_from_slice(word)?;
        Ok(Span::Whole(start, start + word.len()))
    }
}
