//! Tests of the stream of a store's entries. They compare it with a plain map, at any state of the background work, and let each
//! read fail.
#![tactic(auto)]

#[cfg(test)]
mod streams;
