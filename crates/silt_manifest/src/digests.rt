// The digests in a manifest, of the stores that its body names.
ghost use Rattle.std.specs.Prelude.{◌≡◌, ◌+◌, ◌≤◌, ◌++◌, length, take};
ghost use Rattle.silt_frame.specs.Frame.{digest_len};
ghost use Rattle.silt_manifest.specs.Digests.{FitsDigests, digest_at, digests_bytes, digests_of, slot_len};

use crate::body::SLOT_LEN;
use silt_frame::Digest;

/// The length of the digests, in bytes.
pub(crate) const DIGESTS_LEN: usize = 340;

// The greatest number of hash stores of a device.
const ROOM: usize = 16;

// The length of a digest, in bytes.
const DIGEST_LEN: usize = 20;

// Offsets in a slot: of the hash stores' digests, and of the sorted entries' digest.
const HASHED_AT: usize = 121;

const SORTED_AT: usize = 441;

/// The digests of the stores that a manifest names.
#[derive(Clone, Copy, Debug, PartialEq, Eq)]
pub struct Digests {
    /// Those of the hash stores, from the newest. The rest of the room is written as zeros and never read.
    pub hashed: [Digest; ROOM],
    /// The digest of the sorted entries.
    pub sorted: Digest,
}

// Writes a digest.
fn put_digest(bytes: &mut [u8], at: usize, digest: &Digest)
    requires { at + digest_len ≤ length bytes.old }
    ensures written { take (at + digest_len) bytes.new ≡ take at bytes.old ++ digest.now.0 }
    ensures long { length digest.now.0 ≡ digest_len }
{
    bytes[at..at + DIGEST_LEN].copy_from_slice(&digest.0);
}

impl Digests {
    // The bytes after the body.
    pub(crate) fn to_bytes(&self) -> [u8; DIGESTS_LEN]
        ensures value { result ≡ digests_bytes self.now }
        ensures fits { FitsDigests self.now }
    {
        let mut bytes = [0; DIGESTS_LEN];
        for k in 0..ROOM {
            put_digest(&mut bytes, DIGEST_LEN * k, &self.hashed[k]);
        }
        put_digest(&mut bytes, DIGEST_LEN * ROOM, &self.sorted);
        bytes
    }

    // The digests of a slot, which begins with its commit byte.
    pub(crate) fn of_slot(slot: &[u8; SLOT_LEN]) -> Self
        ensures { result ≡ digests_of slot.now }
    {
        let mut hashed = [Digest([0; DIGEST_LEN]); ROOM];
        for k in 0..ROOM {
            hashed[k] = digest_at(slot, HASHED_AT + DIGEST_LEN * k);
        }
        let sorted = digest_at(slot, SORTED_AT);
        Digests { hashed, sorted }
    }
}

// The digest at an offset of a slot.
fn digest_at(slot: &[u8; SLOT_LEN], at: usize) -> Digest
    requires { at + digest_len ≤ slot_len }
    ensures { result ≡ digest_at at slot.now }
{
    let mut bytes = [0; DIGEST_LEN];
    bytes.copy_from_slice(&slot[at..at + DIGEST_LEN]);
    Digest(bytes)
}
