// Who has a store scrubbed.
ghost use Rattle.std.specs.Prelude.{◌≡◌, false};
ghost use Rattle.silt_care.specs.declared.finds.Finding.{Finding as FindingOf};

use silt_event::Place;

/// What a pass found.
#[derive(Clone, Copy, Debug, PartialEq, Eq)]
pub enum Finding {
    /// The bytes of a store have another digest than they had.
    Damaged(Place),
    /// The bytes of a store could not be read; the place is that of its digest.
    Unread(Place),
}

/// Who has a store scrubbed: it hears of what is found, and says how long to go on.
pub trait Finds {
    /// It was told of this finding.
    ghost heard: { Self → FindingOf → Self → Type 0 };

    /// It said that a pass is to end.
    ghost has_stopped: { Self → Type 0 };

    /// Hears of a finding.
    fn found(&mut self, finding: Finding)
        ensures { heard self.old finding self.new };

    /// Whether to go on.
    fn goes_on(&self) -> bool
        ensures { result ≡ false → has_stopped self.now };
}
