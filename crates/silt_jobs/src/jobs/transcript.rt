// The output of a script: the replies of its lives in the order of its lines.
ghost use Rattle.std.specs.Prelude.{◌≡◌, ◌<◌, ◌+◌, ◌^◌, OnOk};
ghost use Rattle.std.specs.List.{slice_get};
ghost use Rattle.silt_jobs.specs.Common.{Appends};
ghost use Rattle.silt_jobs.specs.Scripts.{opening_text, event_text, fault_reported, mark_text, place_after, script_text};

use crate::jobs::Mark;
use silt_store_set::LifeReply;
use silt_wire::{LineFault, refuse_line, write_refusal, write_reply};
use std::alloc::Global;
use std::io::{self, Write};

/// Which life a line belongs to, and which of its replies comes next.
#[derive(Clone, Copy, Debug, PartialEq, Eq)]
pub struct LinePlace {
    pub life: usize,
    pub reply: usize,
}

impl LinePlace {
    // The place after a line.
    fn after(self, mark: Mark) -> Self
        requires life { self.life + 1 < 2 ^ 64 }
        requires reply { self.reply + 1 < 2 ^ 64 }
        ensures { result ≡ place_after self mark }
    {
        match mark {
            Mark::Event => LinePlace {
                life: self.life,
                reply: self.reply + 1,
            },
            Mark::Refused(_) => self,
            Mark::Stop => LinePlace {
                life: self.life + 1,
                reply: 0,
            },
        }
    }
}

// Writes how a life begins.
fn write_opening<F: Drop, W: Write>(
    alloc: Global,
    lives: &[LifeReply<F>],
    life: usize,
    writer: &mut W,
) -> io::Result<()>
    ensures { OnOk result (Appends (W.contents writer.old) (W.contents writer.new) (opening_text (slice_get lives.now life))) }
{
    match lives.get(life) {
        None => Ok(()),
        Some(LifeReply::NotOpened(refusal)) => write_refusal(alloc, refusal, writer),
        Some(LifeReply::Opened(_)) => writer.write_all(b"opened\n"),
    }
}

// Writes a life's reply in this place.
fn write_event<F: Drop, W: Write>(
    alloc: Global,
    lives: &[LifeReply<F>],
    place: LinePlace,
    writer: &mut W,
) -> io::Result<()>
    ensures { OnOk result (Appends (W.contents writer.old) (W.contents writer.new) (event_text (slice_get lives.now place.life) place.reply)) }
{
    let Some(LifeReply::Opened(replies)) = lives.get(place.life) else {
        return Ok(());
    };
    match replies.get(place.reply) {
        None => Ok(()),
        Some(reply) => write_reply(alloc, reply, writer),
    }
}

// Writes the refusal of a line without a valid request.
fn write_fault<F: Drop, W: Write>(
    alloc: Global,
    lives: &[LifeReply<F>],
    life: usize,
    fault: LineFault,
    writer: &mut W,
) -> io::Result<()>
    ensures { OnOk result (Appends (W.contents writer.old) (W.contents writer.new) (fault_reported (slice_get lives.now life) fault)) }
{
    match lives.get(life) {
        Some(LifeReply::Opened(_)) => refuse_line(alloc, fault, writer),
        _ => Ok(()),
    }
}

// Writes the text for a line in its place.
fn write_mark<F: Drop, W: Write>(
    alloc: Global,
    lives: &[LifeReply<F>],
    place: LinePlace,
    mark: Mark,
    writer: &mut W,
) -> io::Result<()>
    requires { place.life + 1 < 2 ^ 64 }
    ensures { OnOk result (Appends (W.contents writer.old) (W.contents writer.new) (mark_text lives.now place mark)) }
{
    match mark {
        Mark::Event => write_event(alloc, lives, place, writer),
        Mark::Refused(fault) => write_fault(alloc, lives, place.life, fault, writer),
        Mark::Stop => {
            writer.write_all(b"stopped\n")?;
            write_opening(alloc, lives, place.life + 1, writer)
        }
    }
}

/// Writes the output of a script: how each life begins, the reply to each line that has one, and `stopped` for each
/// stop line.
///
/// # Errors
///
/// An error of the writer, or out of memory for the text of a reply.
pub fn write_script<F: Drop, W: Write>(
    alloc: Global,
    marks: &[Mark],
    lives: &[LifeReply<F>],
    writer: &mut W,
) -> io::Result<()>
    ensures { OnOk result (Appends (W.contents writer.old) (W.contents writer.new) (script_text lives.now marks.now)) }
{
    write_opening(alloc, lives, 0, writer)?;
    let mut place = LinePlace { life: 0, reply: 0 };
    for mark in marks {
        write_mark(alloc, lives, place, *mark, writer)?;
        place = place.after(*mark);
    }
    writer.flush()
}
