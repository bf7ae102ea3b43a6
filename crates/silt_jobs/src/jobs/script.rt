// A script: lives of a new store in memory.
ghost use Rattle.std.specs.Prelude.{◌≡◌, All, IfOk, IfErr};
ghost use Rattle.silt_jobs.specs.Common.{empty, LeavesOnly, size, device_size, memory_content, StandsFor, HasValueOf};
ghost use Rattle.silt_jobs.specs.NewStores.{NewStoreCause};
ghost use Rattle.silt_jobs.specs.Scripts.{AnswersScript, RunsLives};
ghost use Rattle.silt_jobs.specs.Jobs.{RunsScript};

use crate::jobs::{read_script, write_script};
use crate::people::{Ended, Why, refuse};
use crate::plans::geometry_of;
use silt_device::{MemDisk, MemFault, Stop};
use silt_disk::Geometry;
use silt_recovery::format;
use silt_store_set::{Event, LifeReply, Refusal, lives};
use silt_words::Numbers;
use std::alloc::Global;
use std::io::{self, ErrorKind, Read, Write};

/// Reads a script to its end, runs its lives over a new store of these numbers on a disk in memory, and then writes the
/// replies. The status is 0 at the end of the replies, and 1 if the script or the store is refused.
pub fn run_script<E: Drop, F: Drop, R: Read, W: Write>(
    alloc: Global,
    numbers: &Numbers,
    reader: &mut R,
    writer: &mut W,
) -> Ended<E, F>
    ensures { RunsScript numbers.now result (R.remaining reader.old) (R.remaining reader.new) (W.contents writer.old) (W.contents writer.new) }
{
    match geometry_of(numbers) {
        Ok(geometry) => Ended::plain(answer_script(alloc, geometry, reader, writer)),
        Err(_) => Ended::refuse(alloc, Why::OutOfLimits(*numbers), writer),
    }
}

// Reads a script to its end, runs its lives over a new store of this geometry, and then writes the replies. Returns the
// status.
fn answer_script<R: Read, W: Write>(
    alloc: Global,
    geometry: Geometry,
    reader: &mut R,
    writer: &mut W,
) -> io::Result<u8>
    ensures { IfOk result (AnswersScript geometry (R.remaining reader.old) (R.remaining reader.new) (W.contents writer.old) (W.contents writer.new)) }
{
    let script = match read_script(alloc, geometry.value_len() as usize, reader) {
        Ok(script) => script,
        Err(error) if error.kind() == ErrorKind::OutOfMemory => {
            return refuse(alloc, &Refusal::<MemFault>::NoMemory, writer);
        }
        Err(error) => return Err(error),
    };
    match run_lives(alloc, geometry, script.stops, &script.lives) {
        Ok(replies) => {
            write_script(alloc, &script.marks, &replies, writer)?;
            Ok(0)
        }
        Err(refusal) => refuse(alloc, &refusal, writer),
    }
}

// Runs lives over a new store. A stop ends each of them, and the last one ends with its events. They are refused as a
// new store is, or if out of memory.
fn run_lives(
    alloc: Global,
    geometry: Geometry,
    stops: Vec<Stop>,
    events: &[Vec<Event>],
) -> Result<Vec<LifeReply<MemFault>>, Refusal<MemFault>>
    requires { All (λ life. All (HasValueOf geometry.value_len) life.items) events.now }
    ensures ran { IfOk result (λ replies. RunsLives geometry stops.items events.now replies.items) }
    ensures cause { IfErr result (NewStoreCause geometry) }
{
    let disk = new_store(alloc, geometry)?.arm(stops);
    match lives(alloc, disk, geometry.value_len(), events) {
        Ok(replies) => Ok(replies),
        Err(_) => Err(Refusal::NoMemory),
    }
}

// A new disk in memory with an empty store. It is refused if out of memory, or with the fault of a disk of its length.
fn new_store(alloc: Global, geometry: Geometry) -> Result<MemDisk, Refusal<MemFault>>
    ensures size { IfOk result (λ disk. size (memory_content disk) ≡ device_size geometry) }
    ensures images { IfOk result (λ disk. LeavesOnly (memory_content disk) (StandsFor geometry empty)) }
    ensures cause { IfErr result (NewStoreCause geometry) }
{
    let Ok(disk) = MemDisk::new(alloc, geometry.size() as usize) else {
        return Err(Refusal::NoMemory);
    };
    match format(alloc, disk, geometry) {
        Ok(disk) => Ok(disk),
        Err(fault) => Err(Refusal::from(fault.error)),
    }
}
