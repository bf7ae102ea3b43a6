// Results of calls as replies, and values as they are read.
ghost use Rattle.std.specs.Prelude.{◌≡◌, ◌≤◌, length, IfOk};
ghost use Rattle.silt_frame.specs.declared.key.Kind.TheVariants.{Delete};
ghost use Rattle.silt_log.specs.Rows.{IsValueOf};
ghost use Rattle.silt_engine.specs.Conversion.{is_work};
ghost use Rattle.silt_store_set.specs.CoreState.{awaits_region};
ghost use Rattle.silt_store_set.specs.Facts.{failed_count};
ghost use Rattle.silt_store_set.specs.Replies.{change_reply, progress_reply, swap_reply};

use crate::{Progress, Refusal, Reply};
use silt_frame::Value;
use std::alloc::{AllocError, Global};

static ZEROS: [u8; 4096] = [0; 4096];

// The value in a delete's row.
pub fn zeros(len: u32) -> &'static [u8]
    requires { len ≤ 4096 }
    ensures len { length result.now ≡ len }
    ensures zeros { IsValueOf Delete result.now }
{
    &ZEROS[..len as usize]
}

// How many stores have failed, of one.
pub fn failed_count(failed: bool) -> u64
    ensures { result ≡ failed_count failed }
{
    if failed { 1 } else { 0 }
}

// A value of these bytes.
pub fn copied(alloc: Global, bytes: &[u8]) -> Result<Value, AllocError>
    ensures { IfOk result (λ value. value ≡ bytes.now) }
{
    let owned = bytes.to_vec(alloc)?;
    Ok(Value::new(owned))
}

// Whether this progress of a background step is work.
pub fn is_work(progress: Progress) -> bool
    ensures { result ≡ is_work progress }
{
    matches!(progress, Progress::Moved | Progress::Finished)
}

// Whether this progress of a background step is a wait for other work.
pub fn awaits_region(progress: Progress) -> bool
    ensures { result ≡ awaits_region progress }
{
    matches!(progress, Progress::Waiting)
}

/// The reply to a put or a delete.
pub fn accepted<F>(answer: Result<u64, Refusal<F>>) -> Reply<F>
    ensures { result ≡ change_reply answer }
{
    match answer {
        Ok(count) => Reply::Accepted(count),
        Err(refusal) => Reply::Refused(refusal),
    }
}

/// The reply to a swap.
pub fn swapped<F>(answer: Result<Option<u64>, Refusal<F>>) -> Reply<F>
    ensures { result ≡ swap_reply answer }
{
    match answer {
        Ok(Some(count)) => Reply::Accepted(count),
        Ok(None) => Reply::Differs,
        Err(refusal) => Reply::Refused(refusal),
    }
}

/// The reply to a step of background work.
pub fn progressed<F>(answer: Result<Progress, Refusal<F>>) -> Reply<F>
    ensures { result ≡ progress_reply answer }
{
    match answer {
        Ok(progress) => Reply::Progress(progress),
        Err(refusal) => Reply::Refused(refusal),
    }
}
