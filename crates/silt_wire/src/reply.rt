// Replies to text.
ghost use Rattle.std.specs.Prelude.{◌≡◌, ◌++◌, ◌∷◌, [], IfOk, OnOk, string_bytes};
ghost use Rattle.std.specs.Io.KnownBytes.{Appends};
ghost use Rattle.silt_event.specs.declared.reply.Reply.TheVariants.{Refused};
ghost use Rattle.silt_wire.specs.Replies.{place_text, refusal_text, progress_text, reply_text, fault_line, fault_text, label_text};

use crate::line::LineFault;
use silt_event::{Place, Progress, Refusal, Reply};
use std::alloc::{AllocError, Global};
use std::io::{self, Write};

// Which part of a device is damaged.
fn place_text(alloc: Global, place: &Place) -> Result<String, AllocError>
    ensures { IfOk result (λ text. string_bytes text ≡ place_text place.now) }
{
    match place {
        Place::Header => String::from_str(alloc, "header"),
        Place::Length => String::from_str(alloc, "length"),
        Place::Slot(slot) => format!(in alloc; "slot {slot}"),
        Place::NoSlot => String::from_str(alloc, "no slot"),
        Place::Log { region, row } => format!(in alloc; "log {region} row {row}"),
        Place::Hash { region, slot } => format!(in alloc; "hash {region} slot {slot}"),
        Place::HashDigest(region) => format!(in alloc; "hash {region} digest"),
        Place::Sorted(entry) => format!(in alloc; "sorted {entry}"),
        Place::SortedDigest => String::from_str(alloc, "sorted digest"),
        Place::Charge => String::from_str(alloc, "charge"),
    }
}

// A number and a name.
fn label_text(alloc: Global, number: u32, name: &str) -> Result<String, AllocError>
    ensures { IfOk result (λ text. string_bytes text ≡ label_text (number, name.now)) }
{
    format!(in alloc; "{number} {name}")
}

// The number and the name of a refusal, and for a damaged device the place.
fn refusal_text<F: Drop>(alloc: Global, refusal: &Refusal<F>) -> Result<String, AllocError>
    ensures { IfOk result (λ text. string_bytes text ≡ refusal_text refusal.now) }
{
    let (number, name) = refusal.label();
    let text = label_text(alloc, number, name)?;
    match refusal {
        Refusal::Damaged(place) => {
            let place = place_text(alloc, place)?;
            format!(in alloc; "{text} {place}")
        }
        _ => Ok(text),
    }
}

fn progress_text(progress: Progress) -> &'static str
    ensures { result.now ≡ progress_text progress }
{
    match progress {
        Progress::Idle => "idle",
        Progress::Waiting => "waiting",
        Progress::Moved => "moved",
        Progress::Finished => "finished",
    }
}

/// The text of a reply that refuses, one line without its line feed.
pub fn print_refusal<F: Drop>(alloc: Global, refusal: &Refusal<F>) -> Result<String, AllocError>
    ensures { IfOk result (λ text. string_bytes text ≡ reply_text (Refused refusal.now)) }
{
    let text = refusal_text(alloc, refusal)?;
    format!(in alloc; "refused {text}")
}

/// The text of the reply to a line without a valid request: one line without its line feed.
pub fn print_fault(alloc: Global, fault: LineFault) -> Result<String, AllocError>
    ensures { IfOk result (λ text. string_bytes text ≡ fault_text fault) }
{
    let (number, name) = fault.label();
    let text = label_text(alloc, number, name)?;
    format!(in alloc; "refused {text}")
}

/// The text of a reply, one line without its line feed. Values are in lower case hexadecimal digits, numbers in decimal.
pub fn print_reply<F: Drop>(alloc: Global, reply: &Reply<F>) -> Result<String, AllocError>
    ensures { IfOk result (λ text. string_bytes text ≡ reply_text reply.now) }
{
    match reply {
        Reply::Accepted(count) => format!(in alloc; "accepted {count}"),
        Reply::Acknowledged(count) => format!(in alloc; "acknowledged {count}"),
        Reply::Found(value) => {
            let digits = hex::encode(alloc, value.as_slice())?;
            format!(in alloc; "value {digits}")
        }
        Reply::Absent => String::from_str(alloc, "absent"),
        Reply::Differs => String::from_str(alloc, "differs"),
        Reply::Progress(progress) => String::from_str(alloc, progress_text(*progress)),
        Reply::Refused(refusal) => print_refusal(alloc, refusal),
        Reply::Unsettled(count) => format!(in alloc; "unsettled {count}"),
        Reply::NotServed => print_fault(alloc, LineFault::BadLine),
    }
}

/// Writes a reply and a line feed.
pub fn write_reply<F: Drop, W: Write>(
    alloc: Global,
    reply: &Reply<F>,
    writer: &mut W,
) -> io::Result<()>
    ensures { OnOk result (Appends (W.contents writer.old) (W.contents writer.new) (reply_text reply.now ++ 10 ∷ [])) }
{
    let mut line = print_reply(alloc, reply)?;
    line.push('\n')?;
    writer.write_all(line.as_bytes())
}

/// Writes a refusal as a reply, and a line feed.
pub fn write_refusal<F: Drop, W: Write>(
    alloc: Global,
    refusal: &Refusal<F>,
    writer: &mut W,
) -> io::Result<()>
    ensures { OnOk result (Appends (W.contents writer.old) (W.contents writer.new) (reply_text (Refused refusal.now) ++ 10 ∷ [])) }
{
    let mut line = print_refusal(alloc, refusal)?;
    line.push('\n')?;
    writer.write_all(line.as_bytes())
}

/// Writes the reply to a line without a valid request, and a line feed.
pub fn refuse_line<W: Write>(alloc: Global, fault: LineFault, writer: &mut W) -> io::Result<()>
    ensures { OnOk result (Appends (W.contents writer.old) (W.contents writer.new) (fault_line fault)) }
{
    let mut line = print_fault(alloc, fault)?;
    line.push('\n')?;
    writer.write_all(line.as_bytes())
}
