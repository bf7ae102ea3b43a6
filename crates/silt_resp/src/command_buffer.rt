// The command in progress of a client's stream.
ghost use Rattle.std.specs.Prelude.{◌≡◌, ◌==◌, ◌++◌, ◌∷◌, ◌<◌, ◌≤◌, [], ℕ, length, position, take, IfOk, OnOk, MatchBool, false, if◌then◌else◌};
ghost use Rattle.silt_resp.specs.Stream.{Command as CommandOf, Stream, end_byte, line_kind, start};
ghost use Rattle.silt_resp.specs.Seen.{command_seen};
ghost use Rattle.silt_resp.specs.Buffers.{HoldsCommand, HoldsStream, NoFeed, TakesInput};

use crate::command::Command;
use crate::fault::ProtocolFault;
use crate::heads::{LineKind, bytes_announced, words_announced};
use crate::words::{LONGEST_WORD, WordBuffer};
use silt_wire::without_carriage_return;
use std::alloc::{AllocError, Global};

/// Where a client's stream is.
#[derive(Clone, Copy, Debug, PartialEq, Eq)]
pub enum BufferPlace {
    /// In a line.
    Line,
    /// In a word of which so many bytes are due, its end counted. A long word is not kept.
    Word { due: usize, is_long: bool },
    /// At bytes that begin no command.
    Broken(ProtocolFault),
}

/// How many bytes were taken, and whether the last of them ends a command.
#[derive(Clone, Copy, Debug, PartialEq, Eq)]
pub struct Taken {
    pub count: usize,
    pub ends_command: bool,
}

/// What of a client's command has come, in bounded memory.
#[derive(Drop)]
pub struct CommandBuffer {
    pub words: WordBuffer,
    pub left: u32,
    pub place: BufferPlace,
    pub piece: Vec<u8>,
}

// Where the first line feed is.
fn feed_at(bytes: &[u8]) -> Option<usize>
    ensures { result ≡ position (λ b. b == 10) bytes.now }
{
    bytes.iter().position(|byte| *byte == b'\n')
}

// The byte that has to come when so many of a word are due.
fn end_byte(due: usize) -> u8
    ensures { result ≡ end_byte due }
{
    if due == 2 { b'\r' } else { b'\n' }
}

// Adds bytes of a word to its piece. One that is too long has none.
fn extend_kept(piece: &mut Vec<u8>, bytes: &[u8], is_long: bool) -> Result<(), AllocError>
    ensures { OnOk result (piece.new.items ≡ (if is_long then piece.old.items else piece.old.items ++ bytes.now)) }
{
    if is_long {
        return Ok(());
    }
    piece.extend_from_slice(bytes)
}

impl CommandBuffer {
    /// At the start of a stream.
    pub fn new(alloc: Global) -> Self
        ensures { HoldsStream result start }
    {
        CommandBuffer {
            words: WordBuffer::new(alloc),
            left: 0,
            place: BufferPlace::Line,
            piece: Vec::new(alloc),
        }
    }

    /// Forgets the command.
    pub fn clear(&mut self)
        ensures { HoldsStream self.new start }
    {
        self.words.clear();
        self.left = 0;
        self.place = BufferPlace::Line;
        self.piece.clear();
    }

    /// Takes bytes up to the end of a command, or all if none ends. A command that has ended is kept until it is cleared.
    pub fn take(&mut self, bytes: &[u8]) -> Result<Taken, AllocError>
        ensures takes { IfOk result (λ taken. (s : Stream) → HoldsStream self.old s
            → TakesInput s (take taken.count bytes.now) taken.ends_command self.new) }
        ensures count { IfOk result (λ taken. taken.count ≤ length bytes.now) }
        ensures all { IfOk result (λ taken. MatchBool taken.ends_command (0 < taken.count) (taken.count ≡ length bytes.now)) }
    {
        let mut done = 0;
        while done < bytes.len() {
            let taken = self.take_piece(bytes.split_at(done).1)?;
            done += taken.count;
            if taken.ends_command {
                return Ok(Taken {
                    count: done,
                    ends_command: true,
                });
            }
        }
        Ok(Taken {
            count: done,
            ends_command: false,
        })
    }

    /// The command that has ended.
    pub fn command(&self) -> Command<'_>
        ensures { (command : CommandOf) → HoldsCommand self.now command → command_seen result ≡ command }
    {
        match self.place {
            BufferPlace::Broken(fault) => Command::Broken(fault),
            BufferPlace::Line | BufferPlace::Word { .. } => self.words.command(),
        }
    }

    // Takes bytes of one line, or of one word or its end.
    fn take_piece(&mut self, bytes: &[u8]) -> Result<Taken, AllocError>
        requires { 0 < length bytes.now }
        ensures takes { IfOk result (λ taken. (s : Stream) → HoldsStream self.old s
            → TakesInput s (take taken.count bytes.now) taken.ends_command self.new) }
        ensures count { IfOk result (λ taken. (0 < taken.count) × (taken.count ≤ length bytes.now)) }
    {
        match self.place {
            BufferPlace::Line => self.take_line(bytes),
            BufferPlace::Word { due, is_long } => {
                if due > 2 {
                    let count = self.take_run(bytes, due, is_long)?;
                    return Ok(Taken {
                        count,
                        ends_command: false,
                    });
                }
                let ends_command = self.take_end(bytes[0], due, is_long)?;
                Ok(Taken {
                    count: 1,
                    ends_command,
                })
            }
            BufferPlace::Broken(_) => Ok(Taken {
                count: bytes.len(),
                ends_command: false,
            }),
        }
    }

    // Takes bytes of a line, with its line feed if it comes.
    fn take_line(&mut self, bytes: &[u8]) -> Result<Taken, AllocError>
        requires some { 0 < length bytes.now }
        requires line { self.old.place ≡ BufferPlace.Line }
        ensures takes { IfOk result (λ taken. (s : Stream) → HoldsStream self.old s
            → TakesInput s (take taken.count bytes.now) taken.ends_command self.new) }
        ensures count { IfOk result (λ taken. (0 < taken.count) × (taken.count ≤ length bytes.now)) }
    {
        match feed_at(bytes) {
            Some(at) => {
                if self.grow_line(bytes.split_at(at).0)? {
                    return Ok(Taken {
                        count: at + 1,
                        ends_command: true,
                    });
                }
                let ends_command = self.end_line()?;
                Ok(Taken {
                    count: at + 1,
                    ends_command,
                })
            }
            None => {
                let ends_command = self.grow_line(bytes)?;
                Ok(Taken {
                    count: bytes.len(),
                    ends_command,
                })
            }
        }
    }

    // Takes bytes of a line, none a line feed. Returns whether the line is then too long.
    fn grow_line(&mut self, bytes: &[u8]) -> Result<bool, AllocError>
        requires line { self.old.place ≡ BufferPlace.Line }
        requires no_feed { NoFeed bytes.now }
        ensures takes { IfOk result (λ ends. (s : Stream) → HoldsStream self.old s → TakesInput s bytes.now ends self.new) }
        ensures place { IfOk result (λ ends. MatchBool ends ((fault : ProtocolFault) × (self.new.place ≡ BufferPlace.Broken fault))
            (self.new.place ≡ BufferPlace.Line)) }
    {
        let kind = LineKind::of_parts(self.left, &self.piece, bytes);
        if self.piece.len() + bytes.len() > kind.limit() {
            self.place = BufferPlace::Broken(kind.too_long());
            return Ok(true);
        }
        self.piece.extend_from_slice(bytes)?;
        Ok(false)
    }

    // Takes the line feed of a line. Returns whether a command ends.
    fn end_line(&mut self) -> Result<bool, AllocError>
        requires { self.old.place ≡ BufferPlace.Line }
        ensures { IfOk result (λ ends. (s : Stream) → HoldsStream self.old s → TakesInput s (10 ∷ []) ends self.new) }
    {
        match LineKind::of(self.left, &self.piece) {
            LineKind::Inline => self.end_inline(),
            LineKind::Count => Ok(self.end_count()),
            LineKind::WordLength => Ok(self.end_length()),
        }
    }

    // Takes the line feed of a command without marks.
    fn end_inline(&mut self) -> Result<bool, AllocError>
        requires line { self.old.place ≡ BufferPlace.Line }
        requires kind { line_kind self.old.left self.old.piece.items ≡ LineKind.Inline }
        ensures { IfOk result (λ ends. (s : Stream) → HoldsStream self.old s → TakesInput s (10 ∷ []) ends self.new) }
    {
        self.words.clear();
        self.words
            .push_spaced(without_carriage_return(&self.piece))?;
        self.piece.clear();
        Ok(!self.words.is_empty())
    }

    // Takes the line feed of a number of words.
    fn end_count(&mut self) -> bool
        requires line { self.old.place ≡ BufferPlace.Line }
        requires kind { line_kind self.old.left self.old.piece.items ≡ LineKind.Count }
        ensures { (s : Stream) → HoldsStream self.old s → TakesInput s (10 ∷ []) result self.new }
    {
        match words_announced(&self.piece) {
            Ok(count) => {
                self.words.clear();
                self.left = count;
                self.piece.clear();
                false
            }
            Err(fault) => {
                self.place = BufferPlace::Broken(fault);
                true
            }
        }
    }

    // Takes the line feed of a word's length.
    fn end_length(&mut self) -> bool
        requires line { self.old.place ≡ BufferPlace.Line }
        requires kind { line_kind self.old.left self.old.piece.items ≡ LineKind.WordLength }
        ensures { (s : Stream) → HoldsStream self.old s → TakesInput s (10 ∷ []) result self.new }
    {
        match bytes_announced(&self.piece) {
            Ok(len) => {
                let len = len as usize;
                self.place = BufferPlace::Word {
                    due: len + 2,
                    is_long: len > LONGEST_WORD,
                };
                self.piece.clear();
                false
            }
            Err(fault) => {
                self.place = BufferPlace::Broken(fault);
                true
            }
        }
    }

    // Takes bytes of a word. Returns how many there were.
    fn take_run(&mut self, bytes: &[u8], due: usize, is_long: bool) -> Result<usize, AllocError>
        requires some { 0 < length bytes.now }
        requires due { 2 < due }
        requires word { self.old.place ≡ BufferPlace.Word due is_long }
        ensures takes { IfOk result (λ count. (s : Stream) → HoldsStream self.old s → TakesInput s (take count bytes.now) false self.new) }
        ensures count { IfOk result (λ count. (0 < count) × (count ≤ length bytes.now)) }
    {
        let count = bytes.len().min(due - 2);
        extend_kept(&mut self.piece, bytes.split_at(count).0, is_long)?;
        self.place = BufferPlace::Word {
            due: due - count,
            is_long,
        };
        Ok(count)
    }

    // Takes a byte of a word's end. Returns whether a command ends.
    fn take_end(&mut self, byte: u8, due: usize, is_long: bool) -> Result<bool, AllocError>
        requires due { due ≤ 2 }
        requires word { self.old.place ≡ BufferPlace.Word due is_long }
        ensures { IfOk result (λ ends. (s : Stream) → HoldsStream self.old s → TakesInput s (byte ∷ []) ends self.new) }
    {
        if byte != end_byte(due) {
            self.place = BufferPlace::Broken(ProtocolFault::NoCrLf);
            return Ok(true);
        }
        if due == 2 {
            self.place = BufferPlace::Word { due: 1, is_long };
            return Ok(false);
        }
        self.end_word(is_long)
    }

    // Takes the line feed behind a word. Returns whether a command ends.
    fn end_word(&mut self, is_long: bool) -> Result<bool, AllocError>
        requires { (due : ℕ) × (due < 2) × (self.old.place ≡ BufferPlace.Word due is_long) }
        ensures { IfOk result (λ ends. (s : Stream) → HoldsStream self.old s → TakesInput s (10 ∷ []) ends self.new) }
    {
        self.words.push_piece(&self.piece, is_long)?;
        self.place = BufferPlace::Line;
        self.piece.clear();
        if self.left <= 1 {
            return Ok(true);
        }
        self.left -= 1;
        Ok(false)
    }
}
