//! A builder whose requests for memory are refused. It stays as it was, and a second try succeeds.
//! This test passes whichever one of its requests is refused, and also if none is. docs/testing.md
//! says how to refuse each in turn.
ghost use Rattle.std.specs.Prelude.{IsSome};

use silt_frame::Key;
use silt_trie::{MarkedTrie, MarkedTrieBuilder};
use std::alloc::Global;
use std::process::Abort;

/// The number of keys: twelve groups of eight, and four in a last one.
const COUNT: u8 = 100;

/// The key of a number, with eight keys in a group.
fn key(number: u8) -> Key {
    let mut bytes = [0; 20];
    bytes[0] = number / 8;
    bytes[1] = number % 8 * 32;
    Key(bytes)
}

/// A builder takes a key.
fn push(rt: &impl Abort, builder: &mut MarkedTrieBuilder, key: Key) {
    assert!(rt; builder.len() < 1_000);
    let taken = match builder.push(key) {
        Ok(taken) => taken,
        Err(_) => builder.push(key).expect(rt, "memory for a key"),
    };
    assert!(rt; taken);
}

/// The trie of a builder that has made it. The builder takes no further key.
fn made(rt: &impl Abort, mut builder: MarkedTrieBuilder) -> MarkedTrie
    requires { IsSome builder.sealed }
{
    assert!(rt; builder.len() < 1_000);
    assert!(rt; builder.push(key(COUNT)).is_err());
    builder.into_trie()
}

/// The trie of the keys that a builder has.
fn finish(rt: &impl Abort, mut builder: MarkedTrieBuilder) -> MarkedTrie {
    match builder.seal() {
        Ok(()) => made(rt, builder),
        Err(_) => {
            builder.seal().expect(rt, "memory for a trie");
            made(rt, builder)
        }
    }
}

/// How many keys a trie has, how many of them it finds at their place, and its memory.
fn found(made: &MarkedTrie) -> (usize, u8, usize) {
    let mut found = 0u8;
    for number in 0..COUNT {
        if made.locate_marked(&key(number)) == Some(usize::from(number)) {
            found = found.saturating_add(1);
        }
    }
    (made.len(), found, made.memory())
}

/// What is found in the trie of the first keys.
fn build(rt: &impl Abort, alloc: Global, count: u8) -> (usize, u8, usize) {
    let mut builder = MarkedTrieBuilder::new(alloc, usize::from(COUNT));
    for number in 0..count {
        push(rt, &mut builder, key(number));
    }
    found(&finish(rt, builder))
}

/// The code of eight keys of a group takes 23 bits, that of its first four 14, and that of its first two 9.
#[test]
fn a_builder_lacks_memory(rt: HostRuntime) {
    let marks = 72 * 257;
    let half = (50, 50, marks + (6 * 23 + 9usize).div_ceil(8));
    let all = (100, 100, marks + (12 * 23 + 14usize).div_ceil(8));
    assert_eq!(rt; build(&rt, rt.alloc(), COUNT / 2), half);
    assert_eq!(rt; build(&rt, rt.alloc(), COUNT), all);
}
