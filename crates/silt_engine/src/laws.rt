// Laws of the stores on a disk, for the layers above.
ghost use Rattle.silt_engine.specs.Laws.{StandingLaw};
ghost use Rattle.silt_engine.specs.Replacements.{ConvertsLaw, MergesLaw};

/// If the stores stand on a disk, each possible crash image represents the base, and what is shown, with the commit bytes of
/// the waiting rows open, represents the map of lookups.
pub fn standing_law()
    ensures { StandingLaw }
{}

/// What a conversion has written may be a hash store in place of the oldest log.
pub fn converts_law()
    ensures { ConvertsLaw }
{}

/// A merge of the entries and the oldest hash stores may replace them as the entries.
pub fn merges_law()
    ensures { MergesLaw }
{}
