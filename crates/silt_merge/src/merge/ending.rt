// How a merge ends: the index of what it wrote is made, and then it becomes a sorted store.
ghost use Rattle.std.specs.Prelude.{◌≡◌, ◌≤◌, List, true, length, take, IsSome, IsTrue, OnErr, OnOk, Some};
ghost use Rattle.silt_disk.specs.Disk.{Content};
ghost use Rattle.silt_hash_store.specs.State.{HashState};
ghost use Rattle.silt_sorted_store.specs.State.{HasDigest, SortedState, entries_of};

use super::{Merge, digest_so_far};
use silt_frame::Digest;
use silt_sorted_store::{SortedEntries, SortedStore};
use std::alloc::AllocError;

impl Merge {
    ghost use Rattle.silt_merge.specs.Merging.{AreSound, HasMerged, IsMergeOf, Seals};
    ghost use Rattle.silt_merge.specs.Rows.{merged_rows, sources};
    ghost use Rattle.silt_merge.specs.State.{is_done, sorted_in};

    /// The entries that it wrote.
    pub fn entries(&self) -> SortedEntries
        ensures { result ≡ sorted_in self.now }
    {
        SortedEntries::new(self.target.geometry, self.target.number, self.written)
    }

    /// The digest of the entries that it wrote.
    pub fn digest(&self) -> Digest
        ensures { (content : Content) (stores : List HashState) (sorted : SortedState) → HasMerged content stores sorted self.now → HasDigest content (sorted_in self.now) result.0 }
    {
        digest_so_far(&self.hasher)
    }

    /// Makes the index of the written entries, in the memory in which it was built. A merge takes no further step then. After an error
    /// nothing has changed.
    ///
    /// # Errors
    ///
    /// Out of memory for the last part of the index.
    pub fn seal(&mut self) -> Result<(), AllocError>
        ensures made { OnOk result (Seals self.old self.new) }
        ensures err { OnErr result (self.new ≡ self.old) }
    {
        self.index.seal()?;
        Ok(())
    }

    /// The sorted store of the written entries, with the index that was made and this digest.
    pub fn into_store(self, digest: Digest) -> SortedStore
        requires { IsSome self.index.sealed }
        ensures store { result.sorted ≡ sorted_in self }
        ensures index { self.index.sealed ≡ Some result.index }
        ensures digest { result.digest ≡ digest.0 }
        ensures entries { (content : Content) (stores : List HashState) (sorted : SortedState) → is_done self sorted ≡ true → HasMerged content stores sorted self → IsTrue content.honest
            → AreSound content.shown stores sorted → entries_of content result.sorted ≡ take self.shape.sorted_capacity (merged_rows (sources content.shown stores sorted)) }
        ensures merge { (content : Content) (stores : List HashState) (sorted : SortedState) → is_done self sorted ≡ true → HasMerged content stores sorted self → IsTrue content.honest
            → AreSound content.shown stores sorted → length (merged_rows (sources content.shown stores sorted)) ≤ self.shape.sorted_capacity
            → IsMergeOf (sources content.shown stores sorted) (entries_of content result.sorted) }
    {
        let entries = self.entries();
        SortedStore::new(entries, self.index.into_trie(), digest)
    }
}
