//! The entries of a store, one after the other in the order of their keys, with little memory.
//!
//! [`EntryStream::open`] examines a device as `check` does. Then it notes where the newest row of each key of the logs and the hash
//! stores lies: one [`Spot`] a key, no value. Each [`next`](EntryStream::next) gives the entry with the next key. It goes through
//! the noted keys and the entries of the sorted store side by side, and the lower key comes next. If both have it, the row decides:
//! a put has the key's value, and a delete drops the key. Entries of the sorted store are read in pieces of at most 64 KiB, and the
//! value of a row when its turn comes.
//!
//! It writes nothing.
#![tactic(auto)]

mod gather;
mod order;
mod piece;
mod spot;
mod stream;

pub use spot::Spot;
pub use stream::EntryStream;
