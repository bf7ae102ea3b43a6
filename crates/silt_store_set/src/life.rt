// Lives of a store, each ended by a stop: a crash at a chosen device call.
ghost use Rattle.std.specs.Prelude.{◌≡◌, All, IfOk};
ghost use Rattle.silt_disk.specs.Disk.{LeavesOnly, Restarts};
ghost use Rattle.silt_event.specs.Commands.{Map};
ghost use Rattle.silt_event.specs.Events.{HasValueOf, LifeHistory};
ghost use Rattle.silt_store_set.specs.CoreInvariant.{IsSafe};
ghost use Rattle.silt_store_set.specs.Living.{IsHistoryFrom, LifeEnds, LivesRun, StartsFrom};

use crate::{Core, Event, LifeReply, OpenFault, Refusal};
use silt_disk::Stoppable;
use std::alloc::{AllocError, Global};

/// Does lives in order. Each life opens the store and does its events, and then its device is stopped.
///
/// If each possible crash image of the given device is a store with values of `value_len` bytes and represents one map,
/// the replies are a history from that map: **every answered get gives its key's value in the map folded over what
/// earlier lives kept and this life has accepted, and what a life keeps is a beginning of its accepted commands that
/// holds every acknowledged one**. This holds wherever each life is stopped, before or within any device call, and
/// whatever the stop leaves.
///
/// Whatever the device holds, each life opens a store on what the life before left, and has that store's replies
/// (`LivesRun`). A life that is not opened has the cause of its refusal. If the store has values of another length, the
/// life is `NotOpened` with `BadGeometry` and does no events. If it is out of memory for its replies, it is `NotOpened`
/// with `NoMemory`. Between two lives the device is stopped.
///
/// # Errors
///
/// Out of memory for the list of replies. Then no life begins.
pub fn lives<D: Stoppable>(
    alloc: Global,
    disk: D,
    value_len: u32,
    lives: &[Vec<Event>],
) -> Result<Vec<LifeReply<D::Fault>>, AllocError>
    requires { All (λ life. All (HasValueOf value_len) life.items) lives.now }
    ensures history { (map : Map) → StartsFrom value_len map (D.content disk) → IfOk result (IsHistoryFrom map lives.now) }
    ensures ran { IfOk result (λ replies. LivesRun D.Disk value_len lives.now replies.items disk) }
{
    let mut replies = Vec::with_capacity(alloc, lives.len())?;
    let mut disk = disk;
    for events in lives {
        let (reply, left) = live(alloc, disk, value_len, events);
        disk = left;
        replies.push(reply)?;
    }
    Ok(replies)
}

// Does one life: opens the store, does the events, and stops its device.
fn live<D: Stoppable>(
    alloc: Global,
    disk: D,
    value_len: u32,
    events: &[Event],
) -> (LifeReply<D::Fault>, D)
    requires { All (HasValueOf value_len) events.now }
    ensures honest { (D.content result.1).honest ≡ (D.content disk).honest }
    ensures ran { LifeEnds D.Disk value_len events.now result.0 disk result.1 }
    ensures life { (map : Map) → StartsFrom value_len map (D.content disk) → (to : Map) × LifeHistory map events.now result.0 to
        × LeavesOnly (D.content result.1) (IsSafe value_len to) }
{
    let mut core = match Core::open(alloc, disk) {
        Ok(core) => core,
        Err(OpenFault { disk, refusal }) => {
            return (LifeReply::NotOpened(refusal), disk.restart());
        }
    };
    if core.geometry().value_len() != value_len {
        return (LifeReply::NotOpened(Refusal::BadGeometry), stop(core));
    }
    match core.run(alloc, events) {
        Ok(replies) => (LifeReply::Opened(replies), stop(core)),
        Err(_) => (LifeReply::NotOpened(Refusal::NoMemory), stop(core)),
    }
}

// Stops a store, and returns its device as the stop left it.
fn stop<D: Stoppable>(core: Core<D>) -> D
    ensures { Restarts (D.content core.disk) (D.content result) }
{
    core.close().restart()
}
