// Stores that reply to events.
ghost use Rattle.std.specs.Prelude.{◌≡◌};
ghost use Rattle.silt_event.specs.Events.{HasValueOf};
ghost use Rattle.silt_store_set.specs.CoreState.{DoesPlain};
ghost use Rattle.silt_store_set.specs.Facts.{AdministersCore, facts_of};

use crate::Core;
use silt_device::{FaultDisk, FileDisk, MemDisk};
use silt_disk::Disk;
use silt_event::{Admin, AdminReply, Answerer, Event, Facts, Reply};
use std::alloc::Global;

/// A disk whose stores reply to events and give their facts.
pub trait Served: Disk + Sized {
    /// The reply of a store on such a disk to an event, without its fault.
    fn answer_on(core: &mut Core<Self>, alloc: Global, event: &Event) -> Reply<()>
        requires { HasValueOf core.old.shape.value_len event.now }
        ensures { DoesPlain Self.Disk core.old core.new event.now result };

    /// The facts of a store on such a disk.
    fn facts_on(core: &Core<Self>) -> Facts
        ensures { result ≡ facts_of core.now };
}

impl Served for MemDisk {
    fn answer_on(core: &mut Core<Self>, alloc: Global, event: &Event) -> Reply<()> {
        answer_plain(core, alloc, event)
    }

    fn facts_on(core: &Core<Self>) -> Facts {
        core.facts()
    }
}

impl Served for FaultDisk {
    fn answer_on(core: &mut Core<Self>, alloc: Global, event: &Event) -> Reply<()> {
        answer_plain(core, alloc, event)
    }

    fn facts_on(core: &Core<Self>) -> Facts {
        core.facts()
    }
}

impl Served for FileDisk {
    fn answer_on(core: &mut Core<Self>, alloc: Global, event: &Event) -> Reply<()> {
        answer_plain(core, alloc, event)
    }

    fn facts_on(core: &Core<Self>) -> Facts {
        core.facts()
    }
}

impl<D: Served> Answerer for Core<D> {
    ghost value_len = { λ core. core.shape.value_len };

    ghost answers = { DoesPlain D.Disk };

    ghost administers = { AdministersCore };

    fn answer(&mut self, alloc: Global, event: Event) -> Reply<()> {
        D::answer_on(self, alloc, &event)
    }

    fn administer(&self, admin: Admin) -> AdminReply {
        match admin {
            Admin::Info => AdminReply::Info(D::facts_on(self), None),
            _ => AdminReply::NotServed,
        }
    }
}

// A store's reply to an event, without its fault.
fn answer_plain<D: Disk>(core: &mut Core<D>, alloc: Global, event: &Event) -> Reply<()>
    requires { HasValueOf core.old.shape.value_len event.now }
    ensures { DoesPlain D.Disk core.old core.new event.now result }
{
    core.answer(alloc, event).plain()
}
