// Disks whose stores can be viewed.
ghost use Rattle.std.specs.Prelude.{◌≡◌, ◌+◌, ◌<◌, ◌≤◌, ◌^◌, IfErr, MatchBool, OnOk, length};
ghost use Rattle.silt_store_set.specs.Facts.{facts_of};
ghost use Rattle.silt_view.specs.Moments.{IsMoment};
ghost use Rattle.silt_view.specs.Views.{GivesBytes, GivesFault, IsNamed};

use crate::moment::Moment;
use silt_device::{FaultDisk, FileDisk, MemDisk};
use silt_disk::{Disk, Geometry};
use silt_event::Facts;
use silt_manifest::{Body, Digests};
use silt_store_set::Core;

/// Why a view gives no bytes.
#[derive(Clone, Copy, Debug, PartialEq, Eq)]
pub enum ReadFault<F> {
    /// The range does not lie within the device.
    Outside,
    /// The device refused the read.
    Device(F),
}

/// A disk whose stores can be viewed while they are served.
pub trait Viewed: Disk + Sized {
    /// The six numbers of a store on such a disk.
    fn geometry_in(core: &Core<Self>) -> Geometry
        ensures { result ≡ core.now.shape };

    /// Its facts.
    fn facts_in(core: &Core<Self>) -> Facts
        ensures { result ≡ facts_of core.now };

    /// Which regions its manifest record names, and the digests of the stores in them.
    fn named_in(core: &Core<Self>) -> (Body, Digests)
        ensures { IsNamed Self.Disk core.now result };

    /// Notes what it is at this moment. After a fault that is of no use.
    fn note_in(core: &Core<Self>, moment: &mut Moment) -> Result<(), ReadFault<Self::Fault>>
        ensures { OnOk result (IsMoment Self.Disk core.now moment.new) };

    /// Reads bytes of its device from `at` on. After a fault the buffer may hold any bytes.
    fn read_in(core: &Core<Self>, at: u64, buf: &mut [u8]) -> Result<(), ReadFault<Self::Fault>>
        ensures bytes { OnOk result (GivesBytes Self.Disk core.now at buf.new) }
        ensures fault { IfErr result (λ fault. GivesFault Self.Disk core.now fault at (length buf.old)) };
}

// Whether a range ends within a device of this size.
fn is_within(at: u64, len: u64, size: u64) -> bool
    ensures { MatchBool result (at + len ≤ size) (size < at + len) }
{
    at <= size && len <= size - at
}

/// Reads bytes of the device of a store from `at` on, if it has them. After a fault the buffer may hold any bytes.
pub fn read_within<D: Disk>(
    core: &Core<D>,
    at: u64,
    buf: &mut [u8],
) -> Result<(), ReadFault<D::Fault>>
    ensures bytes { OnOk result (GivesBytes D.Disk core.now at buf.new) }
    ensures fault { IfErr result (λ fault. GivesFault D.Disk core.now fault at (length buf.old)) }
{
    if !is_within(at, buf.len() as u64, core.geometry().size()) {
        return Err(ReadFault::Outside);
    }
    match core.read_at(at, buf) {
        Ok(()) => Ok(()),
        Err(fault) => Err(ReadFault::Device(fault)),
    }
}

impl Viewed for MemDisk {
    fn geometry_in(core: &Core<Self>) -> Geometry {
        core.geometry()
    }

    fn facts_in(core: &Core<Self>) -> Facts {
        core.facts()
    }

    fn named_in(core: &Core<Self>) -> (Body, Digests) {
        core.named()
    }

    fn note_in(core: &Core<Self>, moment: &mut Moment) -> Result<(), ReadFault<Self::Fault>> {
        moment.note(core)
    }

    fn read_in(core: &Core<Self>, at: u64, buf: &mut [u8]) -> Result<(), ReadFault<Self::Fault>> {
        read_within(core, at, buf)
    }
}

impl Viewed for FaultDisk {
    fn geometry_in(core: &Core<Self>) -> Geometry {
        core.geometry()
    }

    fn facts_in(core: &Core<Self>) -> Facts {
        core.facts()
    }

    fn named_in(core: &Core<Self>) -> (Body, Digests) {
        core.named()
    }

    fn note_in(core: &Core<Self>, moment: &mut Moment) -> Result<(), ReadFault<Self::Fault>> {
        moment.note(core)
    }

    fn read_in(core: &Core<Self>, at: u64, buf: &mut [u8]) -> Result<(), ReadFault<Self::Fault>> {
        read_within(core, at, buf)
    }
}

impl Viewed for FileDisk {
    fn geometry_in(core: &Core<Self>) -> Geometry {
        core.geometry()
    }

    fn facts_in(core: &Core<Self>) -> Facts {
        core.facts()
    }

    fn named_in(core: &Core<Self>) -> (Body, Digests) {
        core.named()
    }

    fn note_in(core: &Core<Self>, moment: &mut Moment) -> Result<(), ReadFault<Self::Fault>> {
        moment.note(core)
    }

    fn read_in(core: &Core<Self>, at: u64, buf: &mut [u8]) -> Result<(), ReadFault<Self::Fault>> {
        read_within(core, at, buf)
    }
}
