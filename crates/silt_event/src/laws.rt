// Laws of the map that rows make, for the layers above.
ghost use Rattle.silt_event.specs.Rows.{CountLaw, MapLaw, NewestLaw};

/// The map after more rows.
#[tactic(auto, using(crate::proofs::Rows::map_law))]
pub fn map_law()
    ensures { MapLaw }
{}

/// The number of puts among more rows.
#[tactic(auto, using(crate::proofs::Rows::count_law))]
pub fn count_law()
    ensures { CountLaw }
{}

/// The last row of a key decides the key's value in the map.
#[tactic(auto, using(crate::proofs::Rows::newest_law))]
pub fn newest_law()
    ensures { NewestLaw }
{}
