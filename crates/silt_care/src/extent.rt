// Where the bytes of a store lie that a manifest record names.
ghost use Rattle.std.specs.Prelude.{◌≡◌, ◌==◌, ◌+◌, ◌<◌, ◌≤◌, ◌^◌, IfSome, length, position};
ghost use Rattle.std.specs.Option.{option_map};
ghost use Rattle.silt_care.specs.Extents.{IsPartOf, extent_of, hash_extent, part_at, place_of, sorted_extent};
ghost use Rattle.silt_disk.specs.Layout.{most_hashes};

use silt_disk::Geometry;
use silt_event::Place;
use silt_frame::Digest;
use silt_manifest::{Body, Digests};

/// A part of a device that may hold a store with a digest.
#[derive(Clone, Copy, Debug, PartialEq, Eq)]
pub enum Part {
    /// The hash region of this number.
    Hash(u32),
    /// The sorted region in use.
    Sorted,
}

impl Part {
    /// The part at a place of a pass: first the hash regions in order, and then the sorted region.
    pub(crate) fn at(geometry: &Geometry, place: u32) -> Part
        ensures { result ≡ part_at geometry.now place }
    {
        if place < geometry.hashes() {
            Part::Hash(place)
        } else {
            Part::Sorted
        }
    }

    /// The place that is damaged if its bytes have another digest.
    pub fn place(self) -> Place
        ensures { result ≡ place_of self }
    {
        match self {
            Part::Hash(region) => Place::HashDigest(region),
            Part::Sorted => Place::SortedDigest,
        }
    }
}

/// The bytes of a store, and the digest that they should have.
#[derive(Clone, Copy, Debug, PartialEq, Eq)]
pub struct Extent {
    /// Where they begin on the device.
    pub at: u64,
    /// How many they are.
    pub len: u64,
    pub digest: Digest,
}

// The place of a region in a list.
fn place_in(regions: &[u32], region: u32) -> Option<usize>
    ensures value { result ≡ position (λ id. id == region) regions.now }
    ensures inside { IfSome result (λ place. place < length regions.now) }
{
    regions.iter().position(|id| *id == region)
}

// The bytes of the hash store in this region, whose digest is at this place: those of its slots.
fn hash_extent(geometry: &Geometry, digests: &Digests, region: u32, place: usize) -> Extent
    requires region { region < geometry.now.hashes }
    requires place { place < most_hashes }
    ensures value { result ≡ hash_extent geometry.now digests.now region place }
    ensures most { result.at + result.len ≤ 2 ^ 39 }
{
    Extent {
        at: geometry.hash_at(region),
        len: 4 * u64::from(geometry.buckets()) * geometry.row_len() as u64,
        digest: digests.hashed[place],
    }
}

// The same, if its digest has a place.
fn hash_named(
    geometry: &Geometry,
    digests: &Digests,
    region: u32,
    place: Option<usize>,
) -> Option<Extent>
    requires region { region < geometry.now.hashes }
    requires place { IfSome place (λ place. place < most_hashes) }
    ensures value { result ≡ option_map (hash_extent geometry.now digests.now region) place }
    ensures most { IfSome result (λ extent. extent.at + extent.len ≤ 2 ^ 39) }
{
    match place {
        Some(place) => Some(hash_extent(geometry, digests, region, place)),
        None => None,
    }
}

// The bytes of the sorted store in this region, of so many entries.
#[tactic(auto, using(silt_disk::proofs::Products::product_below))]
fn sorted_extent(geometry: &Geometry, body: &Body, digests: &Digests) -> Extent
    requires region { body.now.sorted < 2 }
    requires count { body.now.sorted_count ≤ geometry.now.sorted_capacity }
    ensures value { result ≡ sorted_extent geometry.now body.now digests.now }
    ensures most { result.at + result.len ≤ 2 ^ 39 }
{
    Extent {
        at: geometry.sorted_at(body.sorted),
        len: u64::from(body.sorted_count) * geometry.entry_len() as u64,
        digest: digests.sorted,
    }
}

impl Extent {
    /// The bytes of a part, if the record names a store there.
    pub fn of(geometry: &Geometry, named: &(Body, Digests), part: Part) -> Option<Extent>
        requires { IsPartOf geometry.now part }
        ensures value { result ≡ extent_of geometry.now named.now part }
        ensures most { IfSome result (λ extent. extent.at + extent.len ≤ 2 ^ 39) }
    {
        let (body, digests) = named;
        match part {
            Part::Hash(region) => {
                let place = place_in(body.hashed.as_slice(), region);
                hash_named(geometry, digests, region, place)
            }
            Part::Sorted => {
                if body.sorted >= 2 || body.sorted_count > geometry.sorted_capacity() {
                    return None;
                }
                Some(sorted_extent(geometry, body, digests))
            }
        }
    }
}
