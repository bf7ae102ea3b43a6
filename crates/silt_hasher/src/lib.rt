//! SHA-1 of bytes that come in parts, which another thread may hash.
//!
//! A `Hasher` is SHA-1 with a state that can be compared. A `BufferedHasher` gathers bytes in a buffer and hashes them later, many
//! at a time. Its bytes can be lent: a `LentBytes` takes a copy of the hasher and of the bytes that wait, hashes them on its own, and
//! is shown again. If it began with the hasher that is still there, and hashed the bytes that wait next, its hasher takes the place
//! of theirs. Else it is ignored. So the digest is always that of all bytes, whatever is lent and whatever comes back.
//!
//! The contracts cite the definitions of the library `sha1`. Its state cannot be compared, so this crate hashes by itself.
#![tactic(auto)]

mod buffered;
mod compress;
mod hasher;
mod lent;
mod state;

pub use buffered::BufferedHasher;
pub use lent::LentBytes;
