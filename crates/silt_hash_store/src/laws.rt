// Laws of hash stores, for the crates above.
ghost use Rattle.silt_hash_store.specs.Laws.{HashBytesLaw, HashElsewhereLaw};

/// A hash store still matches the disk after a change outside its slots.
pub fn hash_elsewhere_law()
    ensures { HashElsewhereLaw }
{}

/// What a digest covers: the bytes of a region's rows are the bytes of its slots on the device.
#[tactic(auto, using(crate::proofs::Bytes::hash_bytes))]
pub fn hash_bytes_law()
    ensures { HashBytesLaw }
{}
