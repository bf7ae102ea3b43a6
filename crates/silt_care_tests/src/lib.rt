//! Tests of a scrub: changed bytes are found, and what a merge moves is not.
//!
//! They show what no contract says, through the public calls.
#![tactic(auto)]

#[cfg(test)]
mod care;
