//! Tests of the server: what its clients see.
//!
//! They show what no contract says, through the public calls.
#![tactic(auto)]

#[cfg(test)]
mod server;
