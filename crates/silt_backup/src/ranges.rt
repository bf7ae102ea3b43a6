// Ranges of a device.
ghost use Rattle.std.specs.Prelude.{◌≡◌, ◌+◌, ◌<◌, ◌≤◌, MatchBool};
ghost use Rattle.silt_disk.specs.Layout.{log_size};

use silt_disk::Geometry;

// Whether a range ends within a device of this size.
pub(crate) fn is_within(at: u64, len: u64, size: u64) -> bool
    ensures { MatchBool result (at + len ≤ size) (size < at + len) }
{
    at <= size && len <= size - at
}

// How long a log region of a device is.
pub(crate) fn log_len(geometry: &Geometry) -> usize
    ensures { result ≡ log_size geometry.now }
{
    let _known = geometry.logs(); // there are at least two
    (geometry.commits_at(1) - geometry.commits_at(0)) as usize
}
