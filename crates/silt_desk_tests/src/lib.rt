//! Tests of the desk and the inbox: what many threads see.
//!
//! They show what no contract says, through the public calls.
#![tactic(auto)]

#[cfg(test)]
mod desk;
#[cfg(test)]
mod inbox;
#[cfg(test)]
mod store;

#[cfg(test)]
use std::fmt::Debug;
#[cfg(test)]
use std::process::Abort;

// What was found is what is expected. A comparison is a call, so that its proof is made once.
#[cfg(test)]
fn same<T: PartialEq + Debug>(rt: &impl Abort, found: &T, expected: &T) {
    assert_eq!(rt; found, expected);
}
