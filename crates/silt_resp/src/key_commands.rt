// Commands on keys.
ghost use Rattle.std.specs.Prelude.{◌≡◌, ◌++◌, ℕ, IfOk, OnOk, map};
ghost use Rattle.silt_event.specs.declared.event.Event.TheVariants.{Delete, Get};
ghost use Rattle.silt_resp.specs.Arguments.{Gives};
ghost use Rattle.silt_resp.specs.Commands.{FitsValues, delete_made, insert_made, is_few, look_all_made, look_made, put_made, remove_made, replace_made, set_all_made, set_made};
ghost use Rattle.silt_resp.specs.Seen.{asked_seen};

use crate::arguments::{has_word, key_at, keys_named, puts_named, value_at};
use crate::asked::{Asked, one};
use crate::command::Words;
use crate::fault::CommandFault;
use crate::settings::Settings;
use crate::table::CommandName;
use crate::texts::Form;
use silt_event::Event;
use silt_frame::Key;
use std::alloc::{AllocError, Global};

/// The most bytes of the values that a command asks for or brings.
const MOST_ASKED: usize = 1_048_576;

/// The value of a key.
pub(crate) fn look(alloc: Global, args: &Words<'_>, form: Form) -> Result<Asked, CommandFault>
    ensures asked { Gives asked_seen (look_made args.now form) result }
    ensures fits { (len : ℕ) → IfOk result (λ asked. FitsValues len (asked_seen asked)) }
{
    let key = key_at(args, 0)?;
    one(alloc, Event::Get(key), form)
}

// Whether the values of so many keys are not too many together.
fn is_few(settings: &Settings, count: usize) -> bool
    ensures { result ≡ is_few settings.now count }
{
    count <= MOST_ASKED / settings.value_len
}

// Adds a look-up of each key.
fn push_looks(events: &mut Vec<Event>, keys: &[Key]) -> Result<(), AllocError>
    ensures { OnOk result (events.new.items ≡ events.old.items ++ map (λ key. Get key) keys.now) }
{
    for key in keys {
        events.push(Event::Get(*key))?;
    }
    Ok(())
}

// Adds a deletion of each key.
fn push_deletes(events: &mut Vec<Event>, keys: &[Key]) -> Result<(), AllocError>
    ensures { OnOk result (events.new.items ≡ events.old.items ++ map (λ key. Delete key) keys.now) }
{
    for key in keys {
        events.push(Event::Delete(*key))?;
    }
    Ok(())
}

/// The values of keys.
pub(crate) fn look_all(
    alloc: Global,
    settings: &Settings,
    args: &Words<'_>,
    form: Form,
) -> Result<Asked, CommandFault>
    ensures asked { Gives asked_seen (look_all_made settings.now args.now form) result }
    ensures fits { IfOk result (λ asked. FitsValues settings.now.value_len (asked_seen asked)) }
{
    if !is_few(settings, args.len()) {
        return Err(CommandFault::ManyKeys);
    }
    let keys = keys_named(alloc, args)?;
    let mut events = Vec::new(alloc);
    push_looks(&mut events, &keys)?;
    Ok(Asked::Events(events, form))
}

/// All keys are looked up, and then deleted.
pub(crate) fn delete(
    alloc: Global,
    settings: &Settings,
    args: &Words<'_>,
) -> Result<Asked, CommandFault>
    ensures asked { Gives asked_seen (delete_made settings.now args.now) result }
    ensures fits { IfOk result (λ asked. FitsValues settings.now.value_len (asked_seen asked)) }
{
    if !is_few(settings, args.len()) {
        return Err(CommandFault::ManyKeys);
    }
    let keys = keys_named(alloc, args)?;
    let mut events = Vec::new(alloc);
    push_looks(&mut events, &keys)?;
    push_deletes(&mut events, &keys)?;
    Ok(Asked::Events(events, Form::Counted))
}

// A value for a key.
fn put(alloc: Global, settings: &Settings, args: &Words<'_>) -> Result<Asked, CommandFault>
    ensures asked { Gives asked_seen (put_made settings.now args.now) result }
    ensures fits { IfOk result (λ asked. FitsValues settings.now.value_len (asked_seen asked)) }
{
    let key = key_at(args, 0)?;
    let value = value_at(alloc, settings, args, 1)?;
    one(alloc, Event::Put(key, value), Form::Stored)
}

/// A value for a key that has none.
pub(crate) fn insert(
    alloc: Global,
    settings: &Settings,
    args: &Words<'_>,
    form: Form,
) -> Result<Asked, CommandFault>
    ensures asked { Gives asked_seen (insert_made settings.now args.now form) result }
    ensures fits { IfOk result (λ asked. FitsValues settings.now.value_len (asked_seen asked)) }
{
    let key = key_at(args, 0)?;
    let value = value_at(alloc, settings, args, 1)?;
    one(alloc, Event::Swap(key, None, Some(value)), form)
}

// A value for a key that has the old one, the last word.
fn replace(alloc: Global, settings: &Settings, args: &Words<'_>) -> Result<Asked, CommandFault>
    ensures asked { Gives asked_seen (replace_made settings.now args.now) result }
    ensures fits { IfOk result (λ asked. FitsValues settings.now.value_len (asked_seen asked)) }
{
    let key = key_at(args, 0)?;
    let value = value_at(alloc, settings, args, 1)?;
    let old = value_at(alloc, settings, args, 3)?;
    one(
        alloc,
        Event::Swap(key, Some(old), Some(value)),
        Form::Swapped,
    )
}

/// No value for a key that has the old one.
pub(crate) fn remove(
    alloc: Global,
    settings: &Settings,
    args: &Words<'_>,
) -> Result<Asked, CommandFault>
    ensures asked { Gives asked_seen (remove_made settings.now args.now) result }
    ensures fits { IfOk result (λ asked. FitsValues settings.now.value_len (asked_seen asked)) }
{
    let key = key_at(args, 0)?;
    let old = value_at(alloc, settings, args, 1)?;
    one(alloc, Event::Swap(key, Some(old), None), Form::Changed)
}

/// A value for a key, as the option says.
pub(crate) fn set(
    alloc: Global,
    settings: &Settings,
    args: &Words<'_>,
) -> Result<Asked, CommandFault>
    ensures asked { Gives asked_seen (set_made settings.now args.now) result }
    ensures fits { IfOk result (λ asked. FitsValues settings.now.value_len (asked_seen asked)) }
{
    match args.len() {
        2 => put(alloc, settings, args),
        3 => {
            if has_word(args, 2, b"nx") {
                return insert(alloc, settings, args, Form::Swapped);
            }
            Err(CommandFault::BadSyntax)
        }
        4 => {
            if has_word(args, 2, b"ifeq") {
                return replace(alloc, settings, args);
            }
            Err(CommandFault::BadSyntax)
        }
        _ => Err(CommandFault::BadSyntax),
    }
}

/// Values for keys, by turns.
pub(crate) fn set_all(
    alloc: Global,
    settings: &Settings,
    args: &Words<'_>,
) -> Result<Asked, CommandFault>
    ensures asked { Gives asked_seen (set_all_made settings.now args.now) result }
    ensures fits { IfOk result (λ asked. FitsValues settings.now.value_len (asked_seen asked)) }
{
    if args.len() % 2 == 1 {
        return Err(CommandFault::WrongCount(CommandName::Mset));
    }
    if !is_few(settings, args.len() / 2) {
        return Err(CommandFault::ManyKeys);
    }
    let puts = puts_named(alloc, settings, args)?;
    Ok(Asked::Events(puts, Form::Stored))
}
