// Laws of conversions, for the crates above.
ghost use Rattle.silt_conversion.specs.Laws.{ConvertedChargeLaw, ConvertedMapLaw, ConvertedSoundLaw, WrittenElsewhereLaw};

/// There is no finding in the rows that a conversion writes.
#[tactic(auto, using(crate::proofs::Soundness::converted_sound))]
pub fn converted_sound_law()
    ensures { ConvertedSoundLaw }
{}

/// Applied to any map, the rows that a conversion writes and the log's rows give the same map.
#[tactic(auto, using(crate::proofs::Answering::converted_map))]
pub fn converted_map_law()
    ensures { ConvertedMapLaw }
{}

/// The rows that a conversion writes have at most as many puts as the log's rows.
pub fn converted_charge_law()
    ensures { ConvertedChargeLaw }
{}

/// A change outside a conversion's slots and its log leaves what the conversion has written.
pub fn written_elsewhere_law()
    ensures { WrittenElsewhereLaw }
{}
