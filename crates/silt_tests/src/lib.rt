//! Tests of the store as a whole, over disks in memory. They show what no contract says.
//!
//! A body that always refuses for lack of memory meets its contract. So these tests make each call
//! that takes memory while there is enough of it. They refuse memory, fail each device call of
//! worked lives in turn, and count reads. Three long lives crash at each call on devices of version 1
//! too; all others that crash are in the suite from outside.
#![tactic(auto)]

#[cfg(test)]
mod each_call;
#[cfg(test)]
mod failed_flush;
#[cfg(test)]
mod faults;
#[cfg(test)]
mod formats;
#[cfg(test)]
mod kept;
#[cfg(test)]
mod library;
mod life_lines;
#[cfg(test)]
mod lines;
#[cfg(test)]
mod looks;
#[cfg(test)]
mod memory;
#[cfg(test)]
mod read_counts;
#[cfg(test)]
mod reads;
#[cfg(test)]
mod refused_lives;
#[cfg(test)]
mod script;
#[cfg(test)]
mod stops;
#[cfg(test)]
mod support;
#[cfg(test)]
mod swaps;

pub use life_lines::{Line, event, events};
