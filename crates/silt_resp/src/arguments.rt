// The words behind a command's name: keys, values and options.
ghost use Rattle.std.specs.Prelude.{◌≡◌, All, IfOk, length};
ghost use Rattle.silt_event.specs.Events.{HasValueOf};
ghost use Rattle.silt_resp.specs.Arguments.{Gives, has_word, is_word, key_at, key_named, keys_named, puts_named, value_at, value_named};
ghost use Rattle.silt_resp.specs.Seen.{word_seen};

use crate::command::{Word, Words};
use crate::fault::CommandFault;
use crate::settings::Settings;
use crate::values::{key_of, string_value};
use silt_event::Event;
use silt_frame::{Key, Value};
use std::alloc::Global;

/// The most bytes of a name.
const LONGEST_NAME: usize = 8_000;

// The key that a word names.
fn key_named(word: Word<'_>) -> Result<Key, CommandFault>
    ensures { result ≡ key_named (word_seen word.entry) }
{
    match word {
        Word::Whole(name) => {
            if name.len() > LONGEST_NAME {
                return Err(CommandFault::LongKey);
            }
            Ok(key_of(name))
        }
        Word::Long => Err(CommandFault::LongKey),
    }
}

// The value that a word gives.
fn value_named(alloc: Global, settings: &Settings, word: Word<'_>) -> Result<Value, CommandFault>
    ensures value { Gives (λ value. value) (value_named settings.now.value_len (word_seen word.entry)) result }
    ensures len { IfOk result (λ value. length value ≡ settings.now.value_len) }
{
    let longest = settings.longest_string();
    match word {
        Word::Whole(string) => {
            if string.len() > longest {
                return Err(CommandFault::LongValue(longest));
            }
            let value = string_value(alloc, settings.value_len, string)?;
            Ok(value)
        }
        Word::Long => Err(CommandFault::LongValue(longest)),
    }
}

/// The key that the word with this number names.
pub(crate) fn key_at(args: &Words<'_>, index: usize) -> Result<Key, CommandFault>
    ensures { result ≡ key_at args.now index }
{
    match args.get(index) {
        Some(word) => key_named(word),
        None => Err(CommandFault::BadSyntax),
    }
}

/// The value that the word with this number gives.
pub(crate) fn value_at(
    alloc: Global,
    settings: &Settings,
    args: &Words<'_>,
    index: usize,
) -> Result<Value, CommandFault>
    ensures value { Gives (λ value. value) (value_at settings.now.value_len args.now index) result }
    ensures len { IfOk result (λ value. length value ≡ settings.now.value_len) }
{
    match args.get(index) {
        Some(word) => value_named(alloc, settings, word),
        None => Err(CommandFault::BadSyntax),
    }
}

/// Whether the word with this number is this one, in either case.
pub(crate) fn has_word(args: &Words<'_>, index: usize, text: &[u8]) -> bool
    ensures { result ≡ has_word args.now index text.now }
{
    match args.get(index) {
        Some(Word::Whole(word)) => word.eq_ignore_ascii_case(text),
        _ => false,
    }
}

/// The keys that all words name.
pub(crate) fn keys_named(alloc: Global, args: &Words<'_>) -> Result<Vec<Key>, CommandFault>
    ensures { Gives (λ keys. keys.items) (keys_named args.now) result }
{
    let mut keys = Vec::new(alloc);
    for index in 0..args.len() {
        let key = key_at(args, index)?;
        keys.push(key)?;
    }
    Ok(keys)
}

/// The puts of words that are keys and values by turns.
pub(crate) fn puts_named(
    alloc: Global,
    settings: &Settings,
    args: &Words<'_>,
) -> Result<Vec<Event>, CommandFault>
    ensures puts { Gives (λ puts. puts.items) (puts_named settings.now.value_len args.now) result }
    ensures fits { IfOk result (λ puts. All (HasValueOf settings.now.value_len) puts.items) }
{
    let mut puts = Vec::new(alloc);
    let count = args.len();
    let mut at = 0;
    while at < count {
        let key = key_at(args, at)?;
        let value = value_at(alloc, settings, args, at + 1)?;
        puts.push(Event::Put(key, value))?;
        at += 2;
    }
    Ok(puts)
}
