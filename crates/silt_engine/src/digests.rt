// The digests that the next manifest gets, of the stores in memory.
ghost use Rattle.std.specs.Prelude.{◌≡◌, ◌+◌, ◌≤◌, length};
ghost use Rattle.std.specs.Option.{option_to_list};
ghost use Rattle.silt_disk.specs.Layout.{most_hashes};
ghost use Rattle.silt_engine.specs.Digests.{digests_with, own_digests};

use crate::engine::Engine;
use silt_frame::Digest;
use silt_hash_store::HashStore;
use silt_manifest::Digests;

// As many hash stores as a manifest has room for.
const ROOM: usize = 16;

// The digest in an unused place.
const NO_DIGEST: Digest = Digest([0; 20]);

// The digests of hash stores, the newest first, after that of a newer one, if there is one; and that of the sorted
// store.
pub fn digests_with(first: Option<Digest>, stores: &[HashStore], sorted: Digest) -> Digests
    requires { length (option_to_list first) + length stores.now ≤ most_hashes }
    ensures { result ≡ digests_with first stores.now sorted }
{
    let mut hashed = [NO_DIGEST; ROOM];
    hashed[0] = first.unwrap_or(NO_DIGEST);
    let newer = usize::from(first.is_some());
    for (index, store) in stores.iter().enumerate() {
        hashed[newer + index] = *store.digest();
    }
    Digests { hashed, sorted }
}

impl Engine {
    /// The digests of the stores as they are: of the hash stores, the newest first, and of the sorted store.
    pub fn own_digests(&self) -> Digests
        ensures { result ≡ own_digests self.now }
    {
        let _known = self.manifest.current(); // so there are no more hash stores than regions
        let _known = self.manifest.geometry().hashes(); // and at most 16 regions
        digests_with(None, &self.hashes, *self.sorted.digest())
    }
}
