// Laws of a log with its table, for the crates above.
ghost use Rattle.silt_log_store.specs.Findings.{LogSoundLaw};
ghost use Rattle.silt_log_store.specs.Laws.{TableEntryLaw};

/// In the table of some keys each entry has the newest place of a key and lies under the key's two buckets, and each newest place
/// lies in exactly one slot.
#[tactic(auto, using(crate::proofs::Entries::entry_law))]
pub fn entry_law()
    ensures { TableEntryLaw }
{}

/// There is no finding in a log exactly if its kinds are known and its keys have places.
#[tactic(auto, using(crate::proofs::Findings::log_sound_law))]
pub fn log_sound_law()
    ensures { LogSoundLaw }
{}
