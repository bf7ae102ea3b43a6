//! What the stores of a device are in memory, and how they match the device.
//!
//! These are definitions only. `EngineState` is the stores that a manifest names, with a conversion and a merge in
//! progress. `AreWhole` is what holds of them on any device. `Stands` says how they match what a device shows and its
//! possible crash images, and on any device, that what a merge in progress has read has the digests of its stores. An
//! opening returns stores that stand on the device, and after each call of the stores they stand on it again.
#![tactic(auto)]
