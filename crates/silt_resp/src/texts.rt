// Replies to text.
ghost use Rattle.std.specs.Prelude.{◌≡◌, ◌∷◌, ◌++◌, [], IfOk, OnOk, codes, count_by, length, string_bytes};
ghost use Rattle.std.specs.Fmt.{decimal};
ghost use Rattle.std.specs.List.{find, flat_map};
ghost use Rattle.std.specs.Option.{option_copied};
ghost use Rattle.silt_event.specs.Events.{refusal_label};
ghost use Rattle.silt_wire.specs.Replies.{label_text};
ghost use Rattle.silt_resp.specs.Texts.{reply_error, error_text, is_error, is_found, item_text, marked_line, null_text, plain_text, refusal_word, string_text, text_of, wrong_type};

use crate::values::string_of;
use silt_event::{Refusal, Reply};
use std::alloc::{AllocError, Global};

/// What the one reply to a command is made of.
#[derive(Clone, Copy, Debug, PartialEq, Eq)]
pub enum Form {
    /// The string of the value that is found.
    Value,
    /// The length of the string of the value that is found.
    Len,
    /// That all is stored.
    Stored,
    /// Whether the key had the value to compare with: `+OK`, or no string.
    Swapped,
    /// The same as a number: 1, or 0.
    Changed,
    /// The strings of the values that are found, one for each event.
    Values,
    /// How many values are found.
    Counted,
}

/// Appends a line of text behind its mark.
pub(crate) fn push_line(out: &mut Vec<u8>, mark: u8, text: &[u8]) -> Result<(), AllocError>
    ensures { OnOk result (out.new.items ≡ out.old.items ++ marked_line mark text.now) }
{
    out.push(mark)?;
    out.extend_from_slice(text)?;
    out.extend_from_slice(b"\r\n")
}

/// Appends a number behind its mark.
pub(crate) fn push_number(
    alloc: Global,
    out: &mut Vec<u8>,
    mark: u8,
    number: usize,
) -> Result<(), AllocError>
    ensures { OnOk result (out.new.items ≡ out.old.items ++ marked_line mark (decimal number)) }
{
    let digits = number.to_string(alloc)?;
    push_line(out, mark, digits.as_bytes())
}

/// Appends a string.
pub(crate) fn push_string(alloc: Global, out: &mut Vec<u8>, string: &[u8]) -> Result<(), AllocError>
    ensures { OnOk result (out.new.items ≡ out.old.items ++ string_text string.now) }
{
    push_number(alloc, out, b'$', string.len())?;
    out.extend_from_slice(string)?;
    out.extend_from_slice(b"\r\n")
}

/// Appends that there is no string.
pub(crate) fn push_null(out: &mut Vec<u8>) -> Result<(), AllocError>
    ensures { OnOk result (out.new.items ≡ out.old.items ++ null_text) }
{
    push_line(out, b'$', b"-1")
}

// Appends the error of a value that holds no string.
fn push_wrong_type(out: &mut Vec<u8>) -> Result<(), AllocError>
    ensures { OnOk result (out.new.items ≡ out.old.items ++ wrong_type) }
{
    push_line(
        out,
        b'-',
        b"WRONGTYPE Operation against a key holding the wrong kind of value",
    )
}

// Whether a reply refuses its event, or cannot say that it is kept.
fn is_error(reply: &Reply<()>) -> bool
    ensures { result ≡ is_error reply.now }
{
    match reply {
        Reply::Refused(_) | Reply::Unsettled(_) | Reply::NotServed => true,
        _ => false,
    }
}

fn is_found(reply: &Reply<()>) -> bool
    ensures { result ≡ is_found reply.now }
{
    match reply {
        Reply::Found(_) => true,
        _ => false,
    }
}

// What clients may do about a refusal, in the protocol's words.
fn refusal_word(refusal: &Refusal<()>) -> &'static str
    ensures { result.now ≡ refusal_word refusal.now }
{
    match refusal {
        Refusal::NoRoom => "TRYAGAIN ",
        Refusal::Failed => "MISCONF ",
        _ => "ERR ",
    }
}

// The number and the name of a refusal.
fn refusal_text(alloc: Global, refusal: &Refusal<()>) -> Result<String, AllocError>
    ensures { IfOk result (λ text. string_bytes text ≡ label_text (refusal_label refusal.now)) }
{
    let (number, name) = refusal.label();
    format!(in alloc; "{number} {name}")
}

// The error of a refusal.
fn refusal_error(alloc: Global, refusal: &Refusal<()>) -> Result<String, AllocError>
    ensures { IfOk result (λ text. string_bytes text ≡ refusal_word refusal.now ++ label_text (refusal_label refusal.now)) }
{
    let word = refusal_word(refusal);
    let text = refusal_text(alloc, refusal)?;
    format!(in alloc; "{word}{text}")
}

// Appends the error of a reply that is one.
fn push_error(alloc: Global, out: &mut Vec<u8>, reply: &Reply<()>) -> Result<(), AllocError>
    ensures { OnOk result (out.new.items ≡ out.old.items ++ error_text (reply_error reply.now)) }
{
    match reply {
        Reply::Refused(refusal) => {
            let text = refusal_error(alloc, refusal)?;
            push_line(out, b'-', text.as_bytes())
        }
        Reply::Unsettled(_) => push_line(
            out,
            b'-',
            b"UNSETTLED the flush was refused, a crash may lose this",
        ),
        _ => push_line(out, b'-', b"ERR not served"),
    }
}

// Appends the string of a value that is found among others.
fn push_item(alloc: Global, out: &mut Vec<u8>, reply: &Reply<()>) -> Result<(), AllocError>
    ensures { OnOk result (out.new.items ≡ out.old.items ++ item_text reply.now) }
{
    match reply {
        Reply::Found(value) => match string_of(value.as_slice()) {
            Some(string) => push_string(alloc, out, string),
            None => push_null(out),
        },
        _ => push_null(out),
    }
}

// Appends the strings of the values that are found.
fn push_items(alloc: Global, out: &mut Vec<u8>, replies: &[Reply<()>]) -> Result<(), AllocError>
    ensures { OnOk result (out.new.items ≡ out.old.items ++ flat_map item_text replies.now) }
{
    for reply in replies {
        push_item(alloc, out, reply)?;
    }
    Ok(())
}

// Appends the string of the value that is found.
fn push_value(alloc: Global, out: &mut Vec<u8>, replies: &[Reply<()>]) -> Result<(), AllocError>
    ensures { OnOk result (out.new.items ≡ out.old.items ++ plain_text Form.Value replies.now) }
{
    match replies.first() {
        Some(Reply::Found(value)) => match string_of(value.as_slice()) {
            Some(string) => push_string(alloc, out, string),
            None => push_wrong_type(out),
        },
        _ => push_null(out),
    }
}

// Appends the length of the string of the value that is found.
fn push_len(alloc: Global, out: &mut Vec<u8>, replies: &[Reply<()>]) -> Result<(), AllocError>
    ensures { OnOk result (out.new.items ≡ out.old.items ++ plain_text Form.Len replies.now) }
{
    match replies.first() {
        Some(Reply::Found(value)) => match string_of(value.as_slice()) {
            Some(string) => push_number(alloc, out, b':', string.len()),
            None => push_wrong_type(out),
        },
        _ => push_number(alloc, out, b':', 0),
    }
}

// Appends whether the key had the value to compare with.
fn push_swapped(out: &mut Vec<u8>, replies: &[Reply<()>]) -> Result<(), AllocError>
    ensures { OnOk result (out.new.items ≡ out.old.items ++ plain_text Form.Swapped replies.now) }
{
    match replies.first() {
        Some(Reply::Accepted(_)) => push_line(out, b'+', b"OK"),
        _ => push_null(out),
    }
}

// Appends as a number whether the key had the value to compare with.
fn push_changed(alloc: Global, out: &mut Vec<u8>, replies: &[Reply<()>]) -> Result<(), AllocError>
    ensures { OnOk result (out.new.items ≡ out.old.items ++ plain_text Form.Changed replies.now) }
{
    match replies.first() {
        Some(Reply::Accepted(_)) => push_number(alloc, out, b':', 1),
        _ => push_number(alloc, out, b':', 0),
    }
}

// Appends how many values are found.
fn push_count(alloc: Global, out: &mut Vec<u8>, replies: &[Reply<()>]) -> Result<(), AllocError>
    ensures { OnOk result (out.new.items ≡ out.old.items ++ plain_text Form.Counted replies.now) }
{
    let count = replies.iter().filter(|reply| is_found(*reply)).count();
    push_number(alloc, out, b':', count)
}

// Appends an array of the strings of the values that are found.
fn push_values(alloc: Global, out: &mut Vec<u8>, replies: &[Reply<()>]) -> Result<(), AllocError>
    ensures { OnOk result (out.new.items ≡ out.old.items ++ plain_text Form.Values replies.now) }
{
    push_number(alloc, out, b'*', replies.len())?;
    push_items(alloc, out, replies)
}

// Appends the reply of this form, if no event was refused.
fn push_plain(
    alloc: Global,
    out: &mut Vec<u8>,
    form: Form,
    replies: &[Reply<()>],
) -> Result<(), AllocError>
    ensures { OnOk result (out.new.items ≡ out.old.items ++ plain_text form replies.now) }
{
    match form {
        Form::Value => push_value(alloc, out, replies),
        Form::Len => push_len(alloc, out, replies),
        Form::Stored => push_line(out, b'+', b"OK"),
        Form::Swapped => push_swapped(out, replies),
        Form::Changed => push_changed(alloc, out, replies),
        Form::Values => push_values(alloc, out, replies),
        Form::Counted => push_count(alloc, out, replies),
    }
}

// The first reply that is an error.
fn first_error(replies: &[Reply<()>]) -> Option<&Reply<()>>
    ensures { option_copied result ≡ find is_error replies.now }
{
    replies.iter().find(|reply| is_error(*reply))
}

/// Appends one reply of this form, made of the replies to events: the first error, and if there is none what the form says.
pub fn push_text(
    alloc: Global,
    out: &mut Vec<u8>,
    form: Form,
    replies: &[Reply<()>],
) -> Result<(), AllocError>
    ensures { OnOk result (out.new.items ≡ out.old.items ++ text_of form replies.now) }
{
    match first_error(replies) {
        Some(reply) => push_error(alloc, out, reply),
        None => push_plain(alloc, out, form, replies),
    }
}
