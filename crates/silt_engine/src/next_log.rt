// The log that comes next, and the body that names it.
ghost use Rattle.std.specs.Prelude.{◌≡◌, ◌<◌, ◌-◌, ◌^◌, length, IfNone, IfSome};
ghost use Rattle.silt_engine.specs.NextLog.{AreAllNamed, IsLowestFree, names_region, next_body};
ghost use Rattle.silt_manifest.specs.IdList.{id_room};

use silt_log_store::LogStore;
use silt_manifest::Body;

/// Why there is no next log.
#[derive(Clone, Copy, Debug, PartialEq, Eq)]
pub(crate) enum NoNextLog {
    /// Every log region is in use.
    NoRoom,
    /// The current manifest record has the last generation.
    Spent,
    /// Out of memory for the new log.
    NoMemory,
}

/// A new log in memory, in a region that is free, and the manifest's body that names it first.
#[derive(Drop)]
pub(crate) struct NextLog {
    pub(crate) store: LogStore,
    pub(crate) body: Body,
}

// Whether a log of the body has this region.
pub fn names_region(body: &Body, region: u32) -> bool
    ensures { result ≡ names_region body.now region }
{
    body.active == region || body.frozen.as_slice().contains(&region)
}

// The lowest of this many log regions that the record does not name.
pub fn lowest_free(logs: u32, body: &Body) -> Option<u32>
    ensures none { IfNone result (AreAllNamed logs body.now) }
    ensures some { IfSome result (IsLowestFree logs body.now) }
{
    for region in 0..logs {
        if !names_region(body, region) {
            return Some(region);
        }
    }
    None
}

// The body that freezes the active log and has this region in its place.
pub fn next_body(body: &Body, region: u32) -> Body
    requires frozen { length body.now.frozen < id_room }
    requires unspent { body.now.generation < 2 ^ 63 - 1 }
    ensures { result ≡ next_body body.now region }
{
    let mut frozen = body.frozen;
    frozen.push_front(body.active);
    Body {
        generation: body.generation + 1,
        active: region,
        frozen,
        ..*body
    }
}
