// Texts that are written at once.
ghost use Rattle.std.specs.Prelude.{OnOk};
ghost use Rattle.silt_jobs.specs.Common.{Appends};

use std::io::{self, Write};

/// Writes a text and flushes it.
///
/// # Errors
///
/// The writer's.
pub fn write_out<W: Write>(text: &[u8], writer: &mut W) -> io::Result<()>
    ensures { OnOk result (Appends (W.contents writer.old) (W.contents writer.new) text.now) }
{
    writer.write_all(text)?;
    writer.flush()?;
    Ok(())
}
