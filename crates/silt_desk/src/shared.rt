// A desk under a lock.
ghost use Rattle.std.specs.Prelude.{◌≡◌, ◌≢◌, ◌%◌, ◌^◌, IfOk, MatchResult, vec_len};
ghost use Rattle.silt_desk.specs.Seats.{accepted_of, calls_of};

use crate::desk::Desk;
use crate::seat::{DeskId, MissingSeats, Seat};
use crate::trace::Trace;
use silt_disk::Disk;
use std::sync::{RwLock, Wait};

/// A desk that threads share. Callers take a guard and make the desk's own calls: looks under a read guard, at the same
/// time, and all others under a write guard.
pub type Shared<D, T, N> = RwLock<Desk<D, T, N>>;

/// If all seats are given, returns how many calls are recorded, and how many of them are accepted commands, both modulo
/// 2^64. These are the sums of what was done from the seats.
///
/// # Errors
///
/// A seat is missing. Then all are handed back.
pub fn settle<D: Disk, T: Trace, N: DeskId, R: Wait>(
    rt: &R,
    shared: &Shared<D, T, N>,
    seats: Vec<Seat<N>>,
) -> Result<(u64, u64), MissingSeats<N>>
    ensures sums { IfOk result (λ r. (r.0 ≡ calls_of seats.items % 2 ^ 64) × (r.1 ≡ accepted_of seats.items % 2 ^ 64)) }
    ensures missing { MatchResult result (λ _. vec_len seats ≡ N.seats) (λ e. (e.seats.items ≡ seats.items) × (vec_len seats ≢ N.seats)) }
{
    shared.write(rt).settle(seats)
}
