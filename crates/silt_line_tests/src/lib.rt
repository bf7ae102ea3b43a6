//! Tests of lines, replies, sessions, commands of Redis clients and the words of the command line.
//!
//! They try what no contract says, through the public calls.
#![tactic(auto)]

#[cfg(test)]
mod resp;
#[cfg(test)]
mod wire;
#[cfg(test)]
mod words;
