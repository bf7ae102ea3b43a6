//! One log region of a flash store.
//!
//! A log region has a commit byte for each row. After the commit bytes come the rows' bodies: the kind (1 for a put, 2 for a
//! delete), the key of 20 bytes and the value. A commit byte is open if and only if it is 0xA7. The rows of a log end at the first
//! closed commit byte. One write never has both a commit byte and its body. A body is written while its commit byte is closed. One write between two
//! syncs opens the commit bytes of all waiting rows. So each possible crash image has the settled rows and a prefix of the waiting
//! ones.
#![tactic(auto)]

mod commits;
mod found;
mod log;
mod scan;

pub use found::Found;
pub use log::Log;
pub use scan::ScanError;
