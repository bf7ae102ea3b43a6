// What a store is at one moment: as much as a copy of it needs.
ghost use Rattle.std.specs.Prelude.{◌≡◌, ◌+◌, ◌≤◌, ◌<◌, ◌≢◌, ◌^◌, ℕ, ◌∷◌, IfErr, IfOk, IsTrue, OnOk, length};
ghost use Rattle.silt_disk.specs.Layout.{commits_at, log_size};
ghost use Rattle.silt_view.specs.Moments.{HasLog, HoldLogs, IsMoment};
ghost use Rattle.silt_view.specs.Views.{GivesFaultIn};

use crate::viewed::{ReadFault, read_within};
use silt_disk::{Disk, Geometry};
use silt_event::Facts;
use silt_frame::Digest;
use silt_manifest::{Body, Digests};
use silt_store_set::Core;
use std::alloc::{AllocError, Global};

/// How many bytes a device has before its logs: the header, the mark of a shard, and the two manifest slots.
pub const FRONT_LEN: usize = 12_288;

/// What a store is at one moment, as much as a copy of it needs.
#[derive(Drop)]
pub struct Moment {
    pub geometry: Geometry,
    pub facts: Facts,
    /// Which regions the manifest record names.
    pub body: Body,
    /// The digests of the hash stores and of the sorted store in these regions.
    pub digests: Digests,
    /// The bytes of the device before its logs.
    pub front: Vec<u8>,
    /// The bytes of the log regions that the record names, one behind the other, the active one first. There is room for as many as there
    /// are.
    pub logs: Vec<u8>,
}

// The facts of no store.
fn no_facts() -> Facts {
    Facts {
        stores: 0,
        failed: 0,
        commands: 0,
        charge: 0,
        capacity: 0,
        generation: 0,
        frozen_logs: 0,
        hash_stores: 0,
        sorted_entries: 0,
        converted_slots: 0,
        merge_steps: 0,
    }
}

// How long a log region of a device is.
fn log_len(geometry: &Geometry) -> usize
    ensures { result ≡ log_size geometry.now }
{
    let _known = geometry.logs(); // there are at least two
    (geometry.commits_at(1) - geometry.commits_at(0)) as usize
}

// How long all log regions of a device are.
fn logs_len(geometry: &Geometry) -> usize {
    let _known = geometry.logs(); // there is a region for hash stores
    (geometry.hash_at(0) - geometry.commits_at(0)) as usize
}

impl Moment {
    /// Room for what a store of this geometry is at a moment. It says nothing yet.
    ///
    /// # Errors
    ///
    /// Out of memory.
    pub fn room(alloc: Global, geometry: Geometry) -> Result<Moment, AllocError>
        ensures { IfOk result (λ moment. moment.geometry ≡ geometry) }
    {
        Ok(Moment {
            geometry,
            facts: no_facts(),
            body: Body::first(),
            digests: Digests {
                hashed: [Digest([0; 20]); 16],
                sorted: Digest([0; 20]),
            },
            front: vec![in alloc; 0u8; FRONT_LEN]?,
            logs: vec![in alloc; 0u8; logs_len(&geometry)]?,
        })
    }
}

// Reads a log region of a store's device.
fn read_log<D: Disk>(core: &Core<D>, region: u32, log: &mut [u8]) -> Result<(), ReadFault<D::Fault>>
    requires { length log.old ≡ log_size core.now.shape }
    ensures copied { OnOk result (HasLog D.Disk core.now region log.new) }
    ensures fault { IfErr result (GivesFaultIn D.Disk core.now) }
{
    let geometry = core.geometry();
    if region >= geometry.logs() {
        return Err(ReadFault::Outside);
    }
    read_within(core, geometry.commits_at(region), log)
}

// Reads this log region of a store's device, and then the others, one behind the other.
fn read_logs<D: Disk>(
    core: &Core<D>,
    region: u32,
    others: &[u32],
    room: &mut [u8],
) -> Result<(), ReadFault<D::Fault>>
    ensures copied { OnOk result (HoldLogs D.Disk core.now (region ∷ others.now) room.new) }
    ensures fault { IfErr result (GivesFaultIn D.Disk core.now) }
{
    let len = log_len(&core.geometry());
    if room.len() < len {
        return Err(ReadFault::Outside);
    }
    let (log, behind) = room.split_at_mut(len);
    read_log(core, region, log)?;
    match others.split_first() {
        Some((next, rest)) => read_logs(core, *next, rest, behind),
        None => Ok(()),
    }
}

impl Moment {
    /// Notes what a store is at this moment.
    ///
    /// # Errors
    ///
    /// The fault of a read. `Outside` if there is no room for the logs of such a store. What was noted is then of no use.
    pub fn note<D: Disk>(&mut self, core: &Core<D>) -> Result<(), ReadFault<D::Fault>>
        ensures moment { OnOk result (IsMoment D.Disk core.now self.new) }
        ensures fault { IfErr result (GivesFaultIn D.Disk core.now) }
    {
        let (body, digests) = core.named();
        self.geometry = core.geometry();
        self.facts = core.facts();
        self.body = body;
        self.digests = digests;
        read_within(core, 0, &mut self.front)?;
        read_logs(core, body.active, body.frozen.as_slice(), &mut self.logs)
    }
}
