// What a thread may see of a store that is served.
ghost use Rattle.std.specs.Prelude.{◌≡◌, ℕ, List, IfErr, OnOk, length};
ghost use Rattle.std.specs.List.{AllZip};
ghost use Rattle.silt_disk.specs.Layout.{Shape};
ghost use Rattle.silt_event.specs.declared.facts.Facts.{Facts as FactsOf};
ghost use Rattle.silt_manifest.specs.declared.body.Body.{Body as BodyOf};
ghost use Rattle.silt_manifest.specs.declared.digests.Digests.{Digests as DigestsOf};
ghost use Rattle.silt_view.specs.declared.moment.Moment.{Moment as MomentOf};

use crate::moment::Moment;
use silt_disk::Geometry;
use silt_event::Facts;
use silt_manifest::{Body, Digests};

/// What a thread may see of a store that is served. Each look is one moment of the store, and between two looks anything may happen
/// to it.
pub trait View: Sized {
    /// The fault of a failed read.
    type Fault: Drop;

    /// At some moment these were the six numbers of the store.
    ghost has_shape: { Self → Shape → Type 0 };

    /// At some moment these were its facts.
    ghost has_facts: { Self → FactsOf → Type 0 };

    /// At some moment its manifest record was this, and its stores had these digests.
    ghost has_named: { Self → BodyOf × DigestsOf → Type 0 };

    /// At some moment it was this.
    ghost had_moment: { Self → MomentOf → Type 0 };

    /// At some moment a read from there on gave these bytes.
    ghost gave: { Self → ℕ → List ℕ → Type 0 };

    /// At some moment a read of this range (offset and length) gave this fault.
    ghost faulted: { Self → Self.Fault → ℕ → ℕ → Type 0 };

    /// The six numbers of the store.
    fn geometry(&self) -> Geometry
        ensures { has_shape self.now result };

    /// The numbers of the store at this moment.
    fn facts(&self) -> Facts
        ensures { has_facts self.now result };

    /// Which regions the current manifest record names, and the digests of the stores in them.
    fn named(&self) -> (Body, Digests)
        ensures { has_named self.now result };

    /// Notes what each of these stores is, all at one moment, at the same place of the list. After a fault they are of no use.
    fn note_moments(views: &[Self], moments: &mut [Moment]) -> Result<(), Self::Fault>
        ensures { OnOk result (AllZip had_moment views.now moments.new) };

    /// Reads bytes of the device from `at` on. After a fault the buffer may hold any bytes.
    fn read_at(&self, at: u64, buf: &mut [u8]) -> Result<(), Self::Fault>
        ensures bytes { OnOk result (gave self.now at buf.new) }
        ensures fault { IfErr result (λ fault. faulted self.now fault at (length buf.old)) };
}
