// The digests that a manifest has of its stores, and those of what was read.
ghost use Rattle.std.specs.Prelude.{◌≡◌, ◌<◌, [], get_or};
ghost use Rattle.silt_disk.specs.Layout.{most_hashes};
ghost use Rattle.silt_event.specs.Findings.{finding_if};
ghost use Rattle.silt_event.specs.declared.damage.Finding.TheVariants.{Damaged};
ghost use Rattle.silt_event.specs.declared.place.Place.{Place};
ghost use Rattle.silt_image.specs.Meaning.{digest_findings, layout_of, said_hash, said_sorted};
ghost use Rattle.silt_recovery.specs.Digests.{bytes_said};

use silt_event::Layout;
use silt_frame::Digest;
use silt_manifest::Digests;

// The digest of the hash store at a place, the newest first.
fn hashed_at(digests: &Digests, place: usize) -> Digest
    requires { place < most_hashes }
    ensures { result.0 ≡ (get_or digests.now.hashed place (record { 0 = [] })).0 }
{
    digests.hashed[place]
}

/// The manifest's digest of the hash store of this number, the newest first.
pub fn hash_said(said: &Option<Digests>, place: usize) -> Option<Digest>
    requires { place < most_hashes }
    ensures { bytes_said result ≡ said_hash said.now place }
{
    match said {
        Some(digests) => Some(hashed_at(digests, place)),
        None => None,
    }
}

/// The manifest's digest of the sorted store.
pub fn sorted_said(said: &Option<Digests>) -> Option<Digest>
    ensures { bytes_said result ≡ said_sorted said.now }
{
    match said {
        Some(digests) => Some(digests.sorted),
        None => None,
    }
}

/// Whether the manifest's digest is another than that of what was read. If it has none, nothing is compared.
pub fn is_other(said: Option<Digest>, read: &Digest) -> bool
    ensures { (place : Place) → digest_findings place (bytes_said said) read.now.0 ≡ finding_if result (Damaged place) }
{
    match said {
        Some(digest) => digest != *read,
        None => false,
    }
}

/// The layout of a manifest with these digests.
pub fn layout_of(said: &Option<Digests>) -> Layout
    ensures { result ≡ layout_of said.now }
{
    match said {
        Some(_) => Layout::Two,
        None => Layout::One,
    }
}
