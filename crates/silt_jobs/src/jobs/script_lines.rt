// Scripts: lines from a reader, divided into lives.
ghost use Rattle.std.specs.Prelude.{◌≢◌, ◌<◌, ◌≤◌, [], ℕ, List, All, Err, OnOk, IfOk, length, take};
ghost use Rattle.silt_jobs.specs.Common.{Consumes, IsAtEnd, HasValueOf, HoldsBytes, lines_after, rest_after};
ghost use Rattle.silt_jobs.specs.Scripts.{HasReadNothing, TakesStop, TakesAsked, TakesLine, TakesBytes, EndsReading, Reads, Fits};

use crate::jobs::stop_reported;
use silt_device::Stop;
use silt_store_set::Event;
use silt_wire::{LineBuffer, LineFault};
use std::alloc::{AllocError, Global};
use std::io::{self, ErrorKind, Read};
use std::mem;

/// The kind of a line of a script.
#[derive(Clone, Copy, Debug, PartialEq, Eq)]
pub enum Mark {
    /// It asks for an event, the next of its life.
    Event,
    /// It has no valid request.
    Refused(LineFault),
    /// It ends a life.
    Stop,
}

/// A script as far as it was read.
#[derive(Drop)]
pub struct Reading {
    /// The lines that are not blank.
    pub marks: Vec<Mark>,
    /// The events of the lives that have ended.
    pub lives: Vec<Vec<Event>>,
    /// The stops that ended them.
    pub stops: Vec<Stop>,
    /// The events of the life that goes on.
    pub life: Vec<Event>,
}

/// A script that was read to its end.
#[derive(Drop)]
pub struct Script {
    /// The lines that are not blank.
    pub marks: Vec<Mark>,
    /// The events of each life. The last life ends with the script.
    pub lives: Vec<Vec<Event>>,
    /// The stops that end the other lives.
    pub stops: Vec<Stop>,
}

impl Reading {
    // Nothing is read yet.
    fn new(alloc: Global) -> Self
        ensures first { HasReadNothing result }
    {
        Reading {
            marks: Vec::new(alloc),
            lives: Vec::new(alloc),
            stops: Vec::new(alloc),
            life: Vec::new(alloc),
        }
    }

    // Takes a line with a stop: the life ends, and the next one begins.
    fn take_stop(&mut self, alloc: Global, stop: Stop) -> Result<(), AllocError>
        ensures { OnOk result (TakesStop stop self.old self.new) }
    {
        let life = mem::replace(&mut self.life, Vec::new(alloc));
        self.lives.push(life)?;
        self.stops.push(stop)?;
        self.marks.push(Mark::Stop)?;
        Ok(())
    }

    // Takes a line with an event, or without a valid request, unless memory ran out for it.
    fn take_asked(&mut self, asked: Result<Event, LineFault>) -> Result<(), AllocError>
        ensures takes { OnOk result (TakesAsked asked self.old self.new) }
        ensures printed { OnOk result (asked ≢ Err LineFault.NoMemory) }
    {
        match asked {
            Ok(event) => {
                self.life.push(event)?;
                self.marks.push(Mark::Event)?;
            }
            Err(LineFault::NoMemory) => return Err(AllocError),
            Err(fault) => self.marks.push(Mark::Refused(fault))?,
        }
        Ok(())
    }

    // Takes the line that has ended, if it is not blank.
    fn take_line(
        &mut self,
        alloc: Global,
        value_len: usize,
        pending: &LineBuffer,
    ) -> Result<(), AllocError>
        ensures takes { OnOk result ((line : List ℕ) → HoldsBytes pending.now line → TakesLine value_len line self.old self.new) }
        ensures fits { OnOk result (Fits value_len self.old → Fits value_len self.new) }
    {
        if pending.is_blank() {
            return Ok(());
        }
        match stop_reported(pending) {
            Some(stop) => self.take_stop(alloc, stop),
            None => self.take_asked(pending.parse(alloc, value_len)),
        }
    }

    // Takes bytes to the end of a line, and the line; or takes all, if they end no line. Returns how many bytes were
    // taken.
    fn take_piece(
        &mut self,
        alloc: Global,
        value_len: usize,
        pending: &mut LineBuffer,
        bytes: &[u8],
    ) -> Result<usize, AllocError>
        requires { 0 < length bytes.now }
        ensures count { IfOk result (λ count. (0 < count) × (count ≤ length bytes.now)) }
        ensures holds { IfOk result (λ count. (p : List ℕ) → HoldsBytes pending.old p → HoldsBytes pending.new (rest_after p (take count bytes.now))) }
        ensures takes { IfOk result (λ count. (p : List ℕ) → HoldsBytes pending.old p → TakesBytes value_len p self.old (take count bytes.now) self.new) }
        ensures fits { OnOk result (Fits value_len self.old → Fits value_len self.new) }
    {
        let taken = pending.take(bytes)?;
        if taken.ends_line {
            self.take_line(alloc, value_len, pending)?;
            pending.clear();
        }
        Ok(taken.count)
    }

    // Takes bytes, and the lines that they end.
    fn take_bytes(
        &mut self,
        alloc: Global,
        value_len: usize,
        pending: &mut LineBuffer,
        bytes: &[u8],
    ) -> Result<(), AllocError>
        ensures holds { OnOk result ((p : List ℕ) → HoldsBytes pending.old p → HoldsBytes pending.new (rest_after p bytes.now)) }
        ensures takes { OnOk result ((p : List ℕ) → HoldsBytes pending.old p → TakesBytes value_len p self.old bytes.now self.new) }
        ensures fits { OnOk result (Fits value_len self.old → Fits value_len self.new) }
    {
        let mut done = 0;
        while done < bytes.len() {
            let (_, rest) = bytes.split_at(done);
            done += self.take_piece(alloc, value_len, pending, rest)?;
        }
        Ok(())
    }

    // Takes all that the reader has.
    fn take_all<R: Read>(
        &mut self,
        alloc: Global,
        value_len: usize,
        reader: &mut R,
    ) -> io::Result<()>
        ensures takes { OnOk result ((read : List ℕ) × Consumes (R.remaining reader.old) (R.remaining reader.new) read × IsAtEnd (R.remaining reader.new)
            × TakesBytes value_len [] self.old read self.new) }
        ensures fits { OnOk result (Fits value_len self.old → Fits value_len self.new) }
    {
        let mut pending = LineBuffer::new(alloc)?;
        let mut buffer = [0; 4096];
        for _ in 0..u64::MAX {
            match reader.read(&mut buffer) {
                Ok(0) => return Ok(()),
                Ok(count) => self.take_bytes(alloc, value_len, &mut pending, &buffer[..count])?,
                Err(error) if error.kind() == ErrorKind::Interrupted => {}
                Err(error) => return Err(error),
            }
        }
        Err(io::Error::from(ErrorKind::Other))
    }

    // Ends the script, and its last life too.
    fn end(self) -> Result<Script, AllocError>
        ensures { IfOk result (EndsReading self) }
    {
        let Reading {
            marks,
            mut lives,
            stops,
            life,
        } = self;
        lives.push(life)?;
        Ok(Script {
            marks,
            lives,
            stops,
        })
    }
}

/// Reads a script to the reader's end, for a store whose values have `value_len` bytes. Bytes after the last line feed
/// are no line, and blank lines are skipped.
///
/// # Errors
///
/// The reader's, and out of memory for the script or one of its lines.
pub fn read_script<R: Read>(alloc: Global, value_len: usize, reader: &mut R) -> io::Result<Script>
    ensures reads { IfOk result (λ script. (read : List ℕ) × Consumes (R.remaining reader.old) (R.remaining reader.new) read × IsAtEnd (R.remaining reader.new)
        × Reads value_len (lines_after [] read) script) }
    ensures fits { IfOk result (λ script. All (λ life. All (HasValueOf value_len) life.items) script.lives.items) }
{
    let mut reading = Reading::new(alloc);
    reading.take_all(alloc, value_len, reader)?;
    Ok(reading.end()?)
}
