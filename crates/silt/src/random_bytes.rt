// Random bytes, by which the system tells a set of files from all others.
ghost use Rattle.std.specs.Prelude.{IfOk};
ghost use Rattle.silt.specs.Programs.{random_device};

use crate::standard_streams::StandardStreams;
use silt_jobs::RANDOM_DEVICE;
use std::io::{self, ErrorKind};

/// Random bytes for a new set of files.
///
/// # Errors
///
/// The system's, and too few bytes.
pub fn random_set<H: StandardStreams>(rt: &H) -> io::Result<[u8; 16]>
    ensures { IfOk result (H.begins rt.now random_device) }
{
    let mut bytes = [0; 16];
    let count = rt.read_start(RANDOM_DEVICE, &mut bytes)?;
    if count < bytes.len() {
        return Err(io::Error::new(ErrorKind::UnexpectedEof, "it gives too few random bytes"));
    }
    Ok(bytes)
}
