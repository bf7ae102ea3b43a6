//! Tests of the regions of a device: logs, hash stores, sorted stores, the manifest, the header, and merging.
//!
//! They show what no contract says, through the public calls.
#![tactic(auto)]

#[cfg(test)]
mod regions;
