//! Tests of the tables and codes that an index is made of: partial-key cuckoo tables, gamma codes and coded tries.
//!
//! They show what no clause says, from outside, through the public calls.
#![tactic(auto)]

#[cfg(test)]
mod cuckoo;
#[cfg(test)]
mod gamma;
#[cfg(test)]
mod memory;
#[cfg(test)]
mod trie;
