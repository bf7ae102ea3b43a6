// What a thread may see of a desk that others use.
ghost use Rattle.std.specs.Prelude.{◌≡◌, OnOk};
ghost use Rattle.std.specs.List.{AllZip};
ghost use Rattle.silt_desk.specs.Views.{GaveBytes, GaveFault, HadFacts, HadMoment, HadNamed, HadShape};

use crate::seat::DeskId;
use crate::shared::Shared;
use crate::trace::Trace;
use silt_disk::{Disk, Geometry};
use silt_event::Facts;
use silt_manifest::{Body, Digests};
use silt_view::{Moment, ReadFault, View, Viewed};
use std::sync::Wait;

/// The view of a shared desk. Each look takes a read guard of its own.
#[derive(Drop)]
pub struct DeskView<'a, D: Disk, T: Trace, N: DeskId, R> {
    pub rt: &'a R,
    pub desk: &'a Shared<D, T, N>,
}

impl<D: Viewed, T: Trace, N: DeskId, R: Wait> View for DeskView<'_, D, T, N, R> {
    type Fault = ReadFault<D::Fault>;

    ghost has_shape = { λ view. HadShape D };

    ghost has_facts = { λ view. HadFacts D };

    ghost has_named = { λ view. HadNamed D.Disk };

    ghost had_moment = { λ view. HadMoment D.Disk };

    ghost gave = { λ view. GaveBytes D.Disk };

    ghost faulted = { λ view. GaveFault D.Disk };

    fn geometry(&self) -> Geometry {
        D::geometry_in(&self.desk.read(self.rt).core)
    }

    fn facts(&self) -> Facts {
        D::facts_in(&self.desk.read(self.rt).core)
    }

    fn named(&self) -> (Body, Digests) {
        D::named_in(&self.desk.read(self.rt).core)
    }

    // The guard of a store is kept while those behind it are noted, so at the moment of the last one all are as they were noted.
    fn note_moments(views: &[Self], moments: &mut [Moment]) -> Result<(), ReadFault<D::Fault>> {
        let Some((view, others)) = views.split_first() else {
            return match moments {
                [] => Ok(()),
                _ => Err(ReadFault::Outside),
            };
        };
        let Some((moment, later)) = moments.split_first_mut() else {
            return Err(ReadFault::Outside);
        };
        let desk = view.desk.read(view.rt);
        D::note_in(&desk.core, moment)?;
        Self::note_moments(others, later)
    }

    fn read_at(&self, at: u64, buf: &mut [u8]) -> Result<(), ReadFault<D::Fault>> {
        D::read_in(&self.desk.read(self.rt).core, at, buf)
    }
}
