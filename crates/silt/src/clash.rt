// Jobs whose file is a standard stream of the program.
ghost use Rattle.std.specs.Prelude.{◌≡◌, ◌<◌, ℕ, None, Ok, IfErr, IfOk, IfSome, is_some, true};
ghost use Rattle.silt.specs.Common.{shard_file, Shard, job_shards};
ghost use Rattle.silt.specs.Clashes.{PrintsClash, RefusesClash, SaysClash};
ghost use Rattle.silt.specs.Streams.{AreStreams, IsApart, IsClash, IsClashAmong, IsNoStream};

use crate::standard_streams::{SameStreams, StandardStreams};
use silt_jobs::{Ended, Found, Stream, Why, refuse, shard_path};
use silt_store_set::Refusal;
use silt_words::Job;
use std::alloc::{AllocError, Global};
use std::io::{self, ErrorKind, Write};

/// A file that cannot be a store, since the program reads or prints there.
#[derive(Clone, Copy, Debug)]
pub struct Clash<'a> {
    /// The job's file, or the name of its set.
    file: &'a str,
    /// The shard whose file it is, if the job is on a set.
    shard: Option<u32>,
    /// Which standard streams it is.
    same: SameStreams,
    /// The first of them.
    stream: Stream,
}

/// The first file of a job that is a standard stream, if there is one.
///
/// # Errors
///
/// Out of memory for the name of a set's file.
pub fn clash_of<'a, H: StandardStreams>(
    rt: &H,
    job: &Job<'a>,
) -> Result<Option<Clash<'a>>, AllocError>
    ensures apart { result ≡ Ok None → IsApart (H.are_file rt.now) job.now }
    ensures clash { IfOk result (λ found. IfSome found (IsClash (H.are_file rt.now) job.now)) }
    ensures set { IfErr result (λ _. is_some (job_shards job.now) ≡ true) }
{
    match (job.file(), job.shards()) {
        (None, _) => Ok(None),
        (Some(file), None) => Ok(clash_at(rt, file, None, file)),
        (Some(file), Some(shards)) => clash_among(rt, file, shards),
    }
}

// The first file of a set that is a standard stream, if there is one.
fn clash_among<'a, H: StandardStreams>(
    rt: &H,
    file: &'a str,
    shards: u32,
) -> Result<Option<Clash<'a>>, AllocError>
    ensures apart { result ≡ Ok None → (shard : ℕ) → shard < shards → IsNoStream (H.are_file rt.now) (shard_file file.entry.now shard) }
    ensures clash { IfOk result (λ found. IfSome found (IsClashAmong (H.are_file rt.now) file.entry.now shards)) }
{
    for shard in 0..shards {
        let path = shard_path(rt.alloc(), file, shard)?;
        match clash_at(rt, file, Some(shard), path.as_str()) {
            Some(clash) => return Ok(Some(clash)),
            None => {}
        }
    }
    Ok(None)
}

// The file at this path, which is the job's, or that of this shard of its set, if it is a standard stream.
fn clash_at<'a, H: StandardStreams>(
    rt: &H,
    file: &'a str,
    shard: Option<u32>,
    path: &str,
) -> Option<Clash<'a>>
    ensures apart { result ≡ None → IsNoStream (H.are_file rt.now) path.now }
    ensures clash { IfSome result (λ clash. (clash.file.now ≡ file.entry.now) × (clash.shard ≡ shard) × AreStreams (H.are_file rt.now) path.now clash.same clash.stream) }
{
    let same = rt.streams_at(path);
    let stream = same.first()?;
    Some(Clash {
        file,
        shard,
        same,
        stream,
    })
}

/// Refuses the job of such a file. Neither the line nor the reason goes into that file.
pub fn refuse_clash<E: Drop, F: Drop, W: Write>(
    alloc: Global,
    clash: &Clash<'_>,
    writer: &mut W,
) -> Ended<E, F>
    ensures { RefusesClash clash.now result (W.contents writer.old) (W.contents writer.new) }
{
    let status = write_clash(alloc, clash, writer);
    Ended {
        why: reason_of(clash),
        found: clash.shard.map(|shard| Found::Shard(shard)),
        ..Ended::plain(status)
    }
}

// Writes that the device is refused, unless the line would go into the file. Returns the status.
fn write_clash<W: Write>(alloc: Global, clash: &Clash<'_>, writer: &mut W) -> io::Result<u8>
    ensures { IfOk result (λ status. (status ≡ 1) × PrintsClash clash.now (W.contents writer.old) (W.contents writer.new)) }
{
    if clash.same.output {
        return Ok(1);
    }
    match refuse(alloc, &Refusal::Device(()), writer) {
        Ok(status) => Ok(status),
        // The reason would go to the standard error. This kind of error has none.
        Err(_) if clash.same.error => Err(io::Error::from(ErrorKind::BrokenPipe)),
        Err(error) => Err(error),
    }
}

// Which standard stream the file is, unless people would be told so in it.
fn reason_of<E, F>(clash: &Clash<'_>) -> Option<Why<E, F>>
    ensures { SaysClash clash.now result }
{
    if clash.same.error {
        None
    } else {
        Some(Why::IsStream(clash.stream))
    }
}
