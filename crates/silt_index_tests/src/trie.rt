//! Worked examples of codes and places.
ghost use Rattle.std.specs.Prelude.{◌↔◌, ◌≤◌, IsTrue};
ghost use Rattle.silt_trie.specs.Code.{IsCodable};
ghost use Rattle.silt_trie.specs.Coded.{bytes_of};

use sha1::Sha1;
use silt_frame::Key;
use silt_gamma::BitWriter;
use silt_trie::{MarkedTrie, MarkedTrieBuilder, Trie, follows, levels_for, locate_in, write_code};
use std::alloc::{AllocError, Global};
use std::process::Abort;
use std::test::Fail;

/// The key that begins with these two bytes, followed by zeros.
fn key(first: u8, second: u8) -> Key {
    let mut bytes = [0; 20];
    bytes[0] = first;
    bytes[1] = second;
    Key(bytes)
}

/// Whether keys rise strictly and agree in their first `depth` bits, and are few enough that the
/// code has all their numbers: at most 4,294,967,294.
fn is_codable(keys: &[Key], depth: usize) -> bool
    ensures { IsTrue result ↔ IsCodable (bytes_of keys.now) depth }
{
    if keys.len() >= u32::MAX as usize {
        return false;
    }
    for i in 1..keys.len() {
        if !follows(&keys[i - 1], &keys[i], depth) {
            return false;
        }
    }
    true
}

/// The code of some keys.
fn encode(rt: &impl Abort, alloc: Global, keys: &[Key], depth: usize) -> Result<Trie, AllocError> {
    assert!(rt; is_codable(keys, depth));
    Trie::encode(alloc, keys, depth)
}

/// The code as text, a digit for each bit.
fn digits(alloc: Global, trie: &Trie) -> Result<Vec<u8>, AllocError> {
    let mut text = Vec::new(alloc);
    for byte in trie.as_bytes() {
        for at in 0..8u32 {
            text.push(b'0' + (*byte >> (7 - at) & 1))?;
        }
    }
    text.truncate(trie.code_len());
    Ok(text)
}

/// The place of a key, if there is one.
fn place(trie: &Trie, key: Key) -> Option<usize> {
    if trie.len() == 0 {
        return None;
    }
    Some(trie.locate(&key))
}

/// A key has this place.
fn is_at(rt: &impl Abort, trie: &Trie, key: Key, at: usize) {
    assert_eq!(rt; place(trie, key), Some(at));
}

/// Each key has its own place.
fn are_in_place(rt: &impl Abort, trie: &Trie, keys: &[Key]) {
    for (at, key) in keys.iter().enumerate() {
        is_at(rt, trie, *key, at);
    }
}

/// A code is this.
fn has_digits(rt: &impl Abort, alloc: Global, trie: &Trie, code: &[u8]) -> Result<(), AllocError> {
    let text = digits(alloc, trie)?;
    assert!(rt; trie.code_len() == code.len());
    assert_eq!(rt; text.as_slice(), code);
    Ok(())
}

/// The code of some keys is this, and of two more keys the first has the first place and the second the last.
fn codes(
    rt: &impl Abort,
    alloc: Global,
    (keys, depth): (&[Key], usize),
    code: &[u8],
    (first, last): (Key, Key),
) -> Result<(), AllocError> {
    let trie = encode(rt, alloc, keys, depth)?;
    is_at(rt, &trie, first, 0);
    is_at(rt, &trie, last, keys.len().saturating_sub(1));
    has_digits(rt, alloc, &trie, code)
}

#[test]
fn codes_two_keys(rt: HostRuntime) -> Result<(), Fail> {
    let pairs: [(u8, u8, &[u8]); 3] = [
        (0b0000_0000, 0b1000_0000, b"010"),
        (0b0000_0000, 0b0100_0000, b"011010"),
        (0b1000_0000, 0b1100_0000, b"1010"),
    ];
    for (low, high, code) in pairs {
        let (low, high) = (key(low, 0), key(high, 0));
        codes(&rt, rt.alloc(), (&[low, high], 0), code, (low, high))?;
    }
    Ok(())
}

/// The code of no key has nothing.
fn codes_none(rt: &impl Abort, alloc: Global) -> Result<(), AllocError> {
    let none = encode(rt, alloc, &[], 0)?;
    assert_eq!(rt; (none.len(), none.code_len()), (0, 0));
    Ok(())
}

/// The code of one key has nothing, and any key is at its place.
fn codes_one(rt: &impl Abort, alloc: Global) -> Result<(), AllocError> {
    let one = encode(rt, alloc, &[key(0x35, 0x17)], 0)?;
    assert!(rt; one.code_len() == 0);
    for first in 0..=255u8 {
        is_at(rt, &one, key(first, 0x80), 0);
    }
    Ok(())
}

#[test]
fn codes_no_key_and_one(rt: HostRuntime) -> Result<(), Fail> {
    codes_none(&rt, rt.alloc())?;
    codes_one(&rt, rt.alloc())?;
    Ok(())
}

#[test]
fn codes_a_group(rt: HostRuntime) -> Result<(), Fail> {
    let group = [key(0, 0), key(0, 0x40), key(0, 0x80)];
    codes(
        &rt,
        rt.alloc(),
        (&group, 8),
        b"011010",
        (key(0, 0x20), key(0, 0xc0)),
    )?;
    Ok(())
}

/// The code of two keys with one first byte that differ in their last bit: 151 bits that both have, and the last.
fn code_of_last_bit(alloc: Global) -> Result<Vec<u8>, AllocError> {
    let mut code = Vec::new(alloc);
    for _ in 0..151 {
        code.extend_from_slice(b"011")?;
    }
    code.extend_from_slice(b"010")?;
    Ok(code)
}

#[test]
fn codes_keys_that_differ_in_their_last_bit(rt: HostRuntime) -> Result<(), Fail> {
    let mut last = [0; 20];
    last[19] = 1;
    let keys = [Key([0; 20]), Key(last)];
    let code = code_of_last_bit(rt.alloc())?;
    assert!(rt; code.len() == 456);
    codes(&rt, rt.alloc(), (&keys, 8), &code, (keys[0], keys[1]))?;
    Ok(())
}

#[test]
fn keys_follow_each_other(rt: HostRuntime) {
    assert!(rt; !follows(&key(1, 0), &key(0, 0), 0));
    assert!(rt; !follows(&key(1, 0), &key(1, 0), 0));
    assert!(rt; !follows(&key(0, 0), &key(1, 0), 8));
    assert!(rt; follows(&key(0, 0), &key(1, 0), 7));
}

/// Each of these keys is found by their code.
fn locates(rt: &impl Abort, alloc: Global, keys: &[Key], depth: usize) -> Result<(), AllocError> {
    let trie = encode(rt, alloc, keys, depth)?;
    are_in_place(rt, &trie, keys);
    Ok(())
}

/// How many keys from the first one on have this first byte.
fn count_of(keys: &[Key], first: u8) -> usize {
    keys.iter().take_while(|key| key.0[0] == first).count()
}

/// The keys of each first byte are found by their code.
fn locates_groups(rt: &impl Abort, alloc: Global, keys: &[Key]) -> Result<(), AllocError> {
    let mut rest = keys;
    for first in 0..=255u8 {
        let (group, others) = rest.split_at(count_of(rest, first).min(rest.len()));
        locates(rt, alloc, group, 8)?;
        rest = others;
    }
    assert!(rt; rest.is_empty());
    Ok(())
}

#[test]
fn locates_ten_thousand_keys(rt: HostRuntime) -> Result<(), Fail> {
    let keys = random_keys(rt.alloc(), 10_000, 255)?;
    locates_groups(&rt, rt.alloc(), &keys)?;
    locates(&rt, rt.alloc(), &keys[..keys.len().min(500)], 0)?;
    Ok(())
}

/// Writes the code of three keys behind other codes: where it begins.
fn write_group(
    rt: &impl Abort,
    bits: &mut BitWriter,
    keys: &[Key; 3],
) -> Result<usize, AllocError> {
    let start = bits.len();
    assert!(rt; is_codable(keys, 8));
    write_code(bits, keys, 8)?;
    Ok(start)
}

/// Each of three keys is found by their code, which begins with this bit.
fn locates_group(rt: &impl Abort, bits: &BitWriter, keys: &[Key; 3], start: usize) {
    let rest = bits.len().saturating_sub(start);
    assert!(rt; start + rest == bits.len());
    for (at, key) in keys.iter().enumerate() {
        assert!(rt; locate_in(bits.reader(start, rest), 3, 8, key) == at);
    }
}

#[test]
fn locates_in_one_buffer(rt: HostRuntime) -> Result<(), Fail> {
    let groups = [
        [key(0, 1), key(0, 2), key(0, 0xf0)],
        [key(1, 0), key(1, 0x7f), key(1, 0x80)],
        [key(9, 3), key(9, 4), key(9, 5)],
    ];
    let mut bits = BitWriter::new(rt.alloc());
    let mut starts = [0; 3];
    for (group, keys) in groups.iter().enumerate() {
        starts[group] = write_group(&rt, &mut bits, keys)?;
    }
    for group in 0..3usize {
        locates_group(&rt, &bits, &groups[group], starts[group]);
    }
    Ok(())
}

/// A pseudo-random key whose first byte has no other bits than these.
fn random_key(number: u32, firsts: u8) -> Key {
    let mut bytes = Sha1::digest(&number.to_be_bytes());
    bytes[0] &= firsts;
    Key(bytes)
}

/// This many pseudo-random keys, in their order.
fn random_keys(alloc: Global, count: u32, firsts: u8) -> Result<Vec<Key>, AllocError> {
    let mut keys = Vec::new(alloc);
    for number in 0..count {
        keys.push(random_key(number, firsts))?;
    }
    keys.sort_unstable();
    Ok(keys)
}

/// How many of the first pseudo-random keys a look finds elsewhere than a search among all keys
/// does. An absent key may have any place among the keys.
fn misplaced(marked: &MarkedTrie, keys: &[Key], count: u32, firsts: u8) -> u32 {
    let mut wrong = 0u32;
    for number in 0..count {
        let key = random_key(number, firsts);
        let place = marked.locate_marked(&key);
        let right = match keys.binary_search(&key) {
            Ok(at) => place == Some(at),
            Err(_) => place.unwrap_or(0) < keys.len(),
        };
        if !right {
            wrong = wrong.saturating_add(1);
        }
    }
    wrong
}

/// Marks of some keys, as many as for `due` ones, lead to them as a search does, among the first pseudo-random keys.
fn marks_locate(
    rt: &impl Abort,
    alloc: Global,
    keys: &[Key],
    due: usize,
    count: u32,
    firsts: u8,
) -> Result<(), AllocError> {
    let marked = build(rt, alloc, keys, due)?;
    assert!(rt; marked.len() == keys.len());
    assert!(rt; misplaced(&marked, keys, count, firsts) == 0);
    Ok(())
}

#[test]
fn marks_locate_as_a_search_does(rt: HostRuntime) -> Result<(), Fail> {
    let keys = random_keys(rt.alloc(), 6_000, 255)?;
    assert!(rt; keys.len() == 6_000);
    marks_locate(&rt, rt.alloc(), &keys, 6_000, 12_000, 255)?;
    marks_locate(&rt, rt.alloc(), &keys, 1_000_000, 12_000, 255)?;
    Ok(())
}

#[test]
fn marks_locate_in_many_keys_each(rt: HostRuntime) -> Result<(), Fail> {
    for count in [1, 300, 4_000] {
        let keys = random_keys(rt.alloc(), count, 1)?;
        marks_locate(&rt, rt.alloc(), &keys, keys.len(), 6_000, 1)?;
    }
    Ok(())
}

/// Pairs of keys that differ in their last bit, so that a pair has a long code. All keys have first
/// byte 0; of the 336 pairs 256 have bit 0 next.
fn paired_keys(alloc: Global) -> Result<Vec<Key>, AllocError> {
    let mut keys = Vec::new(alloc);
    for number in 0..336u16 {
        let mut bytes = [0; 20];
        bytes[1..3].copy_from_slice(&(number << 7).to_be_bytes());
        keys.push(Key(bytes))?;
        bytes[19] = 1;
        keys.push(Key(bytes))?;
    }
    Ok(keys)
}

/// Each of these keys is at its place.
fn are_marked(rt: &impl Abort, marked: &MarkedTrie, keys: &[Key]) {
    for (at, key) in keys.iter().enumerate() {
        assert_eq!(rt; marked.locate_marked(key), Some(at));
    }
}

#[test]
fn marks_code_that_is_too_long_to_skip(rt: HostRuntime) -> Result<(), Fail> {
    let keys = paired_keys(rt.alloc())?;
    let marked = build(&rt, rt.alloc(), &keys, keys.len())?;
    assert!(rt; marked.memory() > 257 * 72 + 2 * 8_192); // more than 65,535 bits on the left
    are_marked(&rt, &marked, &keys);
    Ok(())
}

#[test]
fn marks_few_keys(rt: HostRuntime) -> Result<(), Fail> {
    let keys = [key(0, 0), key(0, 0x40), key(0, 0x80)];
    let marked = build(&rt, rt.alloc(), &keys, 131_073)?;
    assert!(rt; marked.memory() == 1 + 72 * 513); // six bits, and a mark for each of the prefixes and one behind them
    are_marked(&rt, &marked, &keys);
    assert!(rt; marked.locate_marked(&key(1, 0)).is_none());
    assert!(rt; marked.locate_marked(&key(0xff, 0xff)).is_none());
    Ok(())
}

#[test]
fn chooses_levels(rt: HostRuntime) {
    let levels = [
        levels_for(0),
        levels_for(131_072),
        levels_for(131_073),
        levels_for(1_000_000),
        levels_for(16_000_000),
        levels_for(usize::MAX),
    ];
    assert_eq!(rt; levels, [8, 8, 9, 11, 15, 24]);
}

/// The trie that a builder for this many keys makes of some.
fn build(
    rt: &impl Abort,
    alloc: Global,
    keys: &[Key],
    count: usize,
) -> Result<MarkedTrie, AllocError> {
    let mut builder = MarkedTrieBuilder::new(alloc, count);
    for key in keys {
        push(rt, &mut builder, *key)?;
    }
    builder.finish()
}

/// A builder takes a key.
fn push(rt: &impl Abort, builder: &mut MarkedTrieBuilder, key: Key) -> Result<(), AllocError> {
    assert!(rt; builder.len() < 10_000);
    assert!(rt; builder.push(key)?);
    Ok(())
}

/// What a builder makes of keys has them at their places, and their code takes this many bytes.
fn check_built(
    rt: &impl Abort,
    alloc: Global,
    keys: &[Key],
    code: usize,
) -> Result<(), AllocError> {
    let built = build(rt, alloc, keys, keys.len())?;
    assert!(rt; built.len() == keys.len());
    are_marked(rt, &built, keys);
    assert_eq!(rt; built.memory().saturating_sub(72 * 257), code);
    Ok(())
}

#[test]
fn builds_few_keys(rt: HostRuntime) -> Result<(), Fail> {
    let alloc = rt.alloc();
    check_built(&rt, alloc, &[], 0)?;
    check_built(&rt, alloc, &[key(0x35, 0x17)], 0)?;
    check_built(&rt, alloc, &[key(0, 0), key(0, 0x40), key(0, 0x80)], 1)?; // 6 bits
    check_built(&rt, alloc, &[key(9, 3), key(9, 4), key(9, 0xf0)], 3)?; // 18 bits
    let two_groups = [key(0, 1), key(0, 2), key(255, 1), key(255, 2)];
    check_built(&rt, alloc, &two_groups, 6)?; // 21 bits each
    Ok(())
}

/// A key for each first byte.
fn keys_of_all_groups(alloc: Global) -> Result<Vec<Key>, AllocError> {
    let mut keys = Vec::new(alloc);
    for first in 0..=255u8 {
        keys.push(key(first, 7))?;
    }
    Ok(keys)
}

#[test]
fn builds_a_key_for_each_group(rt: HostRuntime) -> Result<(), Fail> {
    let keys = keys_of_all_groups(rt.alloc())?;
    check_built(&rt, rt.alloc(), &keys, 0)?; // no bit of code
    Ok(())
}

#[test]
fn builds_more_marks(rt: HostRuntime) -> Result<(), Fail> {
    let keys = random_keys(rt.alloc(), 500, 255)?;
    let built = build(&rt, rt.alloc(), &keys, 400_000)?;
    are_marked(&rt, &built, &keys);
    Ok(())
}

/// A builder refuses a key.
fn refuse(rt: &impl Abort, builder: &mut MarkedTrieBuilder, key: Key) -> Result<(), AllocError> {
    assert!(rt; builder.len() < 10_000);
    assert!(rt; !builder.push(key)?);
    Ok(())
}

/// The trie that a builder makes of keys, where it refuses one after each.
fn build_refusing(
    rt: &impl Abort,
    alloc: Global,
    keys: &[Key; 3],
    refused: &[Key; 3],
) -> Result<MarkedTrie, AllocError> {
    let mut builder = MarkedTrieBuilder::new(alloc, 3);
    for at in 0..3usize {
        push(rt, &mut builder, keys[at])?;
        refuse(rt, &mut builder, refused[at])?;
    }
    builder.finish()
}

#[test]
fn refuses_keys_that_do_not_rise(rt: HostRuntime) -> Result<(), Fail> {
    let keys = [key(3, 1), key(3, 2), key(5, 0)];
    let refused = [key(3, 1), key(2, 9), key(5, 0)];
    let built = build_refusing(&rt, rt.alloc(), &keys, &refused)?;
    assert!(rt; built.len() == 3);
    are_marked(&rt, &built, &keys);
    Ok(())
}
