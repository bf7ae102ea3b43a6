// Whole jobs that are refused.
ghost use Rattle.std.specs.Prelude.{◌≡◌, IfOk};
ghost use Rattle.silt_jobs.specs.Common.{Appends, Refused};
ghost use Rattle.silt_jobs.specs.Scripts.{reply_line};

use silt_store_set::Refusal;
use silt_wire::write_refusal;
use std::alloc::Global;
use std::io::{self, Write};

/// Writes that the whole job is refused so, and returns the status.
///
/// # Errors
///
/// The writer's, and out of memory for the text of the refusal, but not for that of `NoMemory`.
pub fn refuse<F: Drop, W: Write>(
    alloc: Global,
    refusal: &Refusal<F>,
    writer: &mut W,
) -> io::Result<u8>
    ensures { IfOk result (λ status. (status ≡ 1) × Appends (W.contents writer.old) (W.contents writer.new) (reply_line (Refused refusal.now))) }
{
    match refusal {
        Refusal::NoMemory => writer.write_all(b"refused 6 NoMemory\n")?,
        _ => write_refusal(alloc, refusal, writer)?,
    }
    Ok(1)
}
