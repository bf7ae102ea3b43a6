// Looks at a store, one behind the other.
ghost use Rattle.std.specs.Prelude.{◌≡◌, ℕ, List, IfErr, OnOk, length};
ghost use Rattle.silt_manifest.specs.declared.body.Body.{Body as BodyOf};
ghost use Rattle.silt_manifest.specs.declared.digests.Digests.{Digests as DigestsOf};

use silt_manifest::{Body, Digests};
use silt_view::View;

/// Looks at a store, one behind the other. Each look leads from one state to the next, so that a contract can say in which order
/// they were made.
pub(crate) trait Looks {
    /// The fault of a failed read.
    type Fault: Drop;

    /// A look showed that the manifest record was this, and that its stores had these digests.
    ghost showed: { Self → BodyOf × DigestsOf → Self → Type 0 };

    /// A read from there on gave these bytes.
    ghost gave: { Self → ℕ → List ℕ → Self → Type 0 };

    /// A read of this range (offset and length) gave this fault.
    ghost faulted: { Self → Self.Fault → ℕ → ℕ → Self → Type 0 };

    // Which regions the current manifest record names, and the digests of the stores in them.
    fn named(&mut self) -> (Body, Digests)
        ensures { showed self.old result self.new };

    // Reads bytes of the device from `at` on. After a fault the buffer may hold any bytes.
    fn read_at(&mut self, at: u64, buf: &mut [u8]) -> Result<(), Self::Fault>
        ensures bytes { OnOk result (gave self.old at buf.new self.new) }
        ensures fault { IfErr result (λ fault. faulted self.old fault at (length buf.old) self.new) };
}

/// The looks at a view.
#[derive(Drop)]
pub(crate) struct Live<'a, V> {
    pub(crate) view: &'a V,
}

impl<V: View> Looks for Live<'_, V> {
    type Fault = V::Fault;

    ghost showed = { λ old named new. V.has_named old.view.now named × (new ≡ old) };

    ghost gave = { λ old at bytes new. V.gave old.view.now at bytes × (new ≡ old) };

    ghost faulted = { λ old fault at len new. V.faulted old.view.now fault at len × (new ≡ old) };

    fn named(&mut self) -> (Body, Digests) {
        self.view.named()
    }

    fn read_at(&mut self, at: u64, buf: &mut [u8]) -> Result<(), V::Fault> {
        self.view.read_at(at, buf)
    }
}
