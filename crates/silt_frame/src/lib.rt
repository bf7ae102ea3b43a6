//! Commit bytes, and the bytes of rows and entries.
//!
//! A row of a log or of a hash region is a head and a value. The head is 21 bytes: the kind (1 for a put,
//! 2 for a delete) and the 20 bytes of the key. An entry of a sorted region is a key and a value.
//! A row, a manifest slot and the header each have a commit byte. It is open if and only if it is 0xA7.
#![tactic(auto)]

mod commit;
mod digest;
mod entry;
mod head;
mod key;
mod value;

pub use commit::{COMMIT_CLOSED, COMMIT_OPEN, commits_differ, is_open};
pub use digest::{Digest, row_bytes_law};
pub use entry::{entry_bytes_law, entry_of, write_entry};
pub use head::{HEAD_LEN, head_bytes, head_bytes_law, head_of};
pub use key::{KEY_LEN, Key, Kind, Row};
pub use value::Value;
