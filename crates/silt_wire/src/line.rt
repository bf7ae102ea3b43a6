// Lines to events.
ghost use Rattle.std.specs.Prelude.{◌≡◌, ◌⊎◌, ◌==◌, ◌≤◌, ◌∷◌, [], length, position, IfSome, IfNone, IfOk, IfErr};
ghost use Rattle.std.specs.Str.Lines.{strip_carriage_return};
ghost use Rattle.silt_event.specs.Events.{HasValueOf};
ghost use Rattle.silt_wire.specs.Lines.{Parses, words_of, value_of, value_or_none_of, bare_event, key_event, value_event, swap_event, event_of, asked_by, is_blank, admin_of, admin_word, longest_line};

use crate::keys::key_of;
use silt_event::{Admin, Event};
use silt_frame::Value;
use std::alloc::{AllocError, Global};
use thiserror::Error;

/// The most bytes that a line may have, its carriage return counted.
pub const LONGEST_LINE: usize = 16_600;

/// Why a line has no valid request.
#[derive(Clone, Copy, Debug, PartialEq, Eq, Error)]
pub enum LineFault {
    /// The first word is unknown, or there is a wrong number of words.
    #[error("the first word is unknown, or there is a wrong number of words")]
    BadLine,
    /// The key is not in its form.
    #[error("the key is not in its form")]
    BadKey,
    /// The value is not in its form.
    #[error("the value is not in its form")]
    BadValue,
    /// The line has too many bytes.
    #[error("the line has more than {LONGEST_LINE} bytes")]
    LineTooLong,
    /// Out of memory.
    #[error("out of memory")]
    NoMemory,
}

impl LineFault {
    ghost use Rattle.silt_wire.specs.Replies.{fault_label};

    /// The number and the name of a fault in texts.
    pub fn label(self) -> (u32, &'static str)
        ensures number { result.0 ≡ (fault_label self).0 }
        ensures name { result.1.now ≡ (fault_label self).1 }
    {
        match self {
            LineFault::BadLine => (20, "BadLine"),
            LineFault::BadKey => (21, "BadKey"),
            LineFault::BadValue => (22, "BadValue"),
            LineFault::LineTooLong => (23, "LineTooLong"),
            LineFault::NoMemory => (6, "NoMemory"),
        }
    }
}

impl From<AllocError> for LineFault {
    ghost use Rattle.silt_wire.specs.declared.line.LineFault.TheVariants.{NoMemory};

    ghost from_gives = { λ _ fault. fault ≡ NoMemory };

    fn from(_error: AllocError) -> LineFault {
        LineFault::NoMemory
    }
}

/// The line without the carriage return at its end, if there is one.
pub fn without_carriage_return(line: &[u8]) -> &[u8]
    ensures { result.now ≡ strip_carriage_return line.now }
{
    match line {
        [text @ .., b'\r'] => text,
        _ => line,
    }
}

// Where the first space is.
fn space_at(text: &[u8]) -> Option<usize>
    ensures { result ≡ position (λ b. b == 32) text.now }
{
    text.iter().position(|byte| *byte == b' ')
}

/// The first word and what comes after its space. None if there is only one word.
#[tactic(auto, using(crate::proofs::Cuts::words_of_steps))]
pub fn cut_word(text: &[u8]) -> Option<(&[u8], &[u8])>
    ensures more { IfSome result (λ parts. words_of text.now ≡ parts.0.now ∷ words_of parts.1.now) }
    ensures last { IfNone result (words_of text.now ≡ text.now ∷ []) }
{
    let at = space_at(text)?;
    Some((text.split_at(at).0, text.split_at(at + 1).1))
}

// The value that a word spells: two hexadecimal digits for each of its bytes.
fn value_of(alloc: Global, value_len: usize, word: &[u8]) -> Result<Value, LineFault>
    ensures value { IfOk result (λ value. value_of value_len word.now ≡ Some value) }
    ensures fits { IfOk result (λ value. length value ≡ value_len) }
    ensures fault { IfErr result (λ fault. (fault ≡ LineFault.NoMemory) ⊎ ((fault ≡ LineFault.BadValue) × (value_of value_len word.now ≡ None))) }
{
    let mut bytes = vec![in alloc; 0u8; value_len]?;
    match hex::decode_to_slice(word, &mut bytes) {
        Ok(()) => Ok(Value::new(bytes)),
        Err(_) => Err(LineFault::BadValue),
    }
}

// The value that a word of a swap spells: none for a hyphen.
fn value_or_none_of(
    alloc: Global,
    value_len: usize,
    word: &[u8],
) -> Result<Option<Value>, LineFault>
    ensures value { IfOk result (λ value. value_or_none_of value_len word.now ≡ Some value) }
    ensures fits { IfOk result (λ value. IfSome value (λ bytes. length bytes ≡ value_len)) }
    ensures fault { IfErr result (λ fault. (fault ≡ LineFault.NoMemory) ⊎ ((fault ≡ LineFault.BadValue) × (value_or_none_of value_len word.now ≡ None))) }
{
    if word == b"-".as_slice() {
        return Ok(None);
    }
    let value = value_of(alloc, value_len, word)?;
    Ok(Some(value))
}

// The request of a line with one word.
fn bare_event(word: &[u8]) -> Result<Event, LineFault>
    ensures { result ≡ bare_event word.now }
{
    if word == b"flush".as_slice() {
        Ok(Event::Flush)
    } else if word == b"convert".as_slice() {
        Ok(Event::Convert)
    } else if word == b"merge".as_slice() {
        Ok(Event::Merge)
    } else {
        Err(LineFault::BadLine)
    }
}

// What a word and a key ask for.
fn key_event(word: &[u8], key: &[u8]) -> Result<Event, LineFault>
    ensures { result ≡ key_event word.now key.now }
{
    if word == b"delete".as_slice() {
        Ok(Event::Delete(key_of(key).ok_or(LineFault::BadKey)?))
    } else if word == b"get".as_slice() {
        Ok(Event::Get(key_of(key).ok_or(LineFault::BadKey)?))
    } else {
        Err(LineFault::BadLine)
    }
}

// What a word, a key and a value ask for.
fn value_event(
    alloc: Global,
    value_len: usize,
    word: &[u8],
    key: &[u8],
    value: &[u8],
) -> Result<Event, LineFault>
    ensures asked { Parses (value_event value_len word.now key.now value.now) result }
    ensures fits { IfOk result (HasValueOf value_len) }
{
    if word != b"put".as_slice() {
        return Err(LineFault::BadLine);
    }
    let key = key_of(key).ok_or(LineFault::BadKey)?;
    let value = value_of(alloc, value_len, value)?;
    Ok(Event::Put(key, value))
}

// What a word, a key and two values ask for, each a value or a hyphen.
fn swap_event(
    alloc: Global,
    value_len: usize,
    word: &[u8],
    key: &[u8],
    old: &[u8],
    new: &[u8],
) -> Result<Event, LineFault>
    ensures asked { Parses (swap_event value_len word.now key.now old.now new.now) result }
    ensures fits { IfOk result (HasValueOf value_len) }
{
    if word != b"swap".as_slice() {
        return Err(LineFault::BadLine);
    }
    let key = key_of(key).ok_or(LineFault::BadKey)?;
    let old = value_or_none_of(alloc, value_len, old)?;
    let new = value_or_none_of(alloc, value_len, new)?;
    if old.is_none() && new.is_none() {
        return Err(LineFault::BadValue);
    }
    Ok(Event::Swap(key, old, new))
}

// What the words of a text ask for.
#[tactic(auto, using(crate::proofs::Cuts::asked_steps))]
fn parse_words(alloc: Global, text: &[u8], value_len: usize) -> Result<Event, LineFault>
    ensures asked { Parses (event_of value_len (words_of text.now)) result }
    ensures fits { IfOk result (HasValueOf value_len) }
{
    let Some((word, rest)) = cut_word(text) else {
        return bare_event(text);
    };
    let Some((key, rest)) = cut_word(rest) else {
        return key_event(word, rest);
    };
    let Some((value, rest)) = cut_word(rest) else {
        return value_event(alloc, value_len, word, key, rest);
    };
    if cut_word(rest).is_some() {
        return Err(LineFault::BadLine);
    }
    swap_event(alloc, value_len, word, key, value, rest)
}

/// The request of a line to a store whose values have `value_len` bytes.
///
/// The line comes without its line feed, and one carriage return at its end is not part of a word. Words are in lower
/// case, with single spaces between them: `put KEY VALUE`, `delete KEY`, `swap KEY OLD NEW`, `get KEY`, `flush`,
/// `convert` and `merge`. A hyphen for OLD or for NEW, but not for both, stands for no value.
///
/// # Errors
///
/// The first of these that is found: `LineTooLong`, for more than 16,600 bytes; `BadLine`, for the first word and the
/// number of words; `BadKey`; then, for each value of a put or a swap in order, `NoMemory` and `BadValue`; and
/// `BadValue` for two hyphens.
pub fn parse_line(alloc: Global, line: &[u8], value_len: usize) -> Result<Event, LineFault>
    ensures asked { Parses (asked_by value_len line.now) result }
    ensures fits { IfOk result (HasValueOf value_len) }
{
    if line.len() > LONGEST_LINE {
        return Err(LineFault::LineTooLong);
    }
    parse_words(alloc, without_carriage_return(line), value_len)
}

// The admin command that a word is.
fn admin_word(word: &[u8]) -> Option<Admin>
    ensures { result ≡ admin_word word.now }
{
    if word == b"info".as_slice() {
        return Some(Admin::Info);
    }
    if word == b"shutdown".as_slice() {
        return Some(Admin::Shutdown);
    }
    if word == b"backup".as_slice() {
        return Some(Admin::Backup);
    }
    None
}

/// The admin command of a line, if it is one, but for a carriage return at its end.
pub fn admin_of(line: &[u8]) -> Option<Admin>
    ensures { length line.now ≤ longest_line → result ≡ admin_of line.now }
{
    admin_word(without_carriage_return(line))
}

/// Whether a line is empty but for a carriage return at its end.
pub fn is_blank(line: &[u8]) -> bool
    ensures { result ≡ is_blank line.now }
{
    without_carriage_return(line).is_empty()
}
