// Laws of entries, for the crates above.
ghost use Rattle.silt_sorted_store.specs.Laws.{DigestElsewhereLaw, EntriesBytesLaw, EntriesElsewhereLaw, EntriesLaw, IndexedElsewhereLaw, RisingLaw};

/// The entries of a sorted region have the requested number, and each is a put.
pub fn entries_law()
    ensures { EntriesLaw }
{}

/// The bytes of the entries of a sorted region are the device's bytes there. So a digest of the entries is a digest of these
/// bytes.
pub fn entries_bytes_law()
    ensures { EntriesBytesLaw }
{}

/// In entries without a finding a lower place has a lower key, and each key has one place.
pub fn rising_law()
    ensures { RisingLaw }
{}

/// Entries stay, after a change outside them.
pub fn entries_elsewhere_law()
    ensures { EntriesElsewhereLaw }
{}

/// An index of entries is still theirs after a change outside them.
pub fn indexed_elsewhere_law()
    ensures { IndexedElsewhereLaw }
{}

/// A digest of entries is still theirs after a change outside them.
pub fn digest_elsewhere_law()
    ensures { DigestElsewhereLaw }
{}
