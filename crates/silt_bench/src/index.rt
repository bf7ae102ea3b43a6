// The index of a sorted store, by itself.

use crate::error::BenchError;
use crate::figures::Thousandths;
use crate::keys::{key_of, pick};
use crate::looks::ABSENT;
use crate::pauses::Lap;
use silt_frame::Key;
use silt_trie::{MarkedTrie, MarkedTrieBuilder};
use std::alloc::{AllocError, Global};
use std::time::Clock;

// The keys of the first numbers, rising.
fn rising_keys(alloc: Global, count: u64) -> Result<Vec<Key>, AllocError> {
    let mut keys = Vec::new(alloc);
    for number in 0..count {
        keys.push(key_of(number))?;
    }
    keys.sort_unstable();
    Ok(keys)
}

// The index of rising keys.
fn index_of(alloc: Global, keys: &[Key]) -> Result<MarkedTrie, BenchError> {
    let mut builder = MarkedTrieBuilder::new(alloc, keys.len());
    for key in keys {
        if builder.len() >= 1 << 31 || !builder.push(*key)? {
            return Err(BenchError::Wrong);
        }
    }
    Ok(builder.finish()?)
}

// The place of a key, by the index and one look at the key at that place.
fn place_of(index: &MarkedTrie, keys: &[Key], key: &Key) -> Option<usize> {
    let place = index.locate_marked(key)?;
    if keys.get(place)? == key {
        Some(place)
    } else {
        None
    }
}

/// Looks for this many present and absent keys by an index and by a search among the keys. Prints
/// how many of each the index finds.
///
/// # Errors
///
/// `Wrong` if the two do not agree.
pub fn index_agrees<R: Print>(
    rt: &R,
    alloc: Global,
    present: u64,
    absent: u64,
) -> Result<(), BenchError> {
    let (found, others) = found_in_index(alloc, present, absent)?;
    println!(rt;
        "index: {found} of {present} present keys and {others} of {absent} absent ones found"
    )?;
    Ok(())
}

// How many of so many present and absent keys an index finds.
fn found_in_index(alloc: Global, present: u64, absent: u64) -> Result<(u64, u64), BenchError> {
    let keys = rising_keys(alloc, present)?;
    let found = found_among(alloc, keys.as_slice(), present, absent);
    drop(keys);
    found
}

// The same, for the index of these keys.
fn found_among(
    alloc: Global,
    keys: &[Key],
    present: u64,
    absent: u64,
) -> Result<(u64, u64), BenchError> {
    let index = index_of(alloc, keys)?;
    let found = count_both(&index, keys, present, absent);
    drop(index);
    found
}

fn count_both(
    index: &MarkedTrie,
    keys: &[Key],
    present: u64,
    absent: u64,
) -> Result<(u64, u64), BenchError> {
    let found = count_found(index, keys, 0, present)?;
    let others = count_found(index, keys, ABSENT, absent)?;
    Ok((found, others))
}

// How many of the keys of these numbers the index finds, if a search among the keys finds the same.
fn count_found(
    index: &MarkedTrie,
    keys: &[Key],
    first: u64,
    count: u64,
) -> Result<u64, BenchError> {
    let mut found = 0u64;
    for number in 0..count {
        let key = key_of(first.wrapping_add(number));
        let place = place_of(index, keys, &key);
        if place != keys.binary_search(&key).ok() {
            return Err(BenchError::Wrong);
        }
        if place.is_some() {
            found = found.wrapping_add(1);
        }
    }
    Ok(found)
}

/// Prints how many bytes of memory an index of this many keys takes for each key, and how many nanoseconds a look at it
/// takes.
pub fn measure_index<R: Clock + Print>(
    rt: &R,
    alloc: Global,
    keys: u64,
    gets: u64,
) -> Result<(), BenchError> {
    let (index, build) = build_by_clock(rt, alloc, keys)?;
    let looked = look_by_clock(rt, &index, keys, gets);
    let bytes = Thousandths::of(index.memory() as u64, keys);
    drop(index);
    let (sum, nanos) = looked?;
    let look = Thousandths::of(nanos, gets);
    let built = Thousandths::of(build, keys);
    println!(rt; "keys\tbytes a key\tns a look\tns a key of building\tsum of places")?;
    println!(rt; "{keys}\t{bytes}\t{look}\t{built}\t{sum}")?;
    Ok(())
}

// An index of so many keys, and how many nanoseconds its building takes.
fn build_by_clock<R: Clock>(
    rt: &R,
    alloc: Global,
    keys: u64,
) -> Result<(MarkedTrie, u64), BenchError> {
    let rising = rising_keys(alloc, keys)?;
    let built = index_by_clock(rt, alloc, rising.as_slice());
    drop(rising);
    built
}

// The index of these keys, and how many nanoseconds its building takes.
fn index_by_clock<R: Clock>(
    rt: &R,
    alloc: Global,
    keys: &[Key],
) -> Result<(MarkedTrie, u64), BenchError> {
    let mut lap = Lap::new(rt)?;
    let index = index_of(alloc, keys)?;
    match lap.turn(rt) {
        Ok(nanos) => Ok((index, nanos)),
        Err(error) => Err(error.into()),
    }
}

// The sum of the places of this many keys, and how many nanoseconds the looks take.
fn look_by_clock<R: Clock>(
    rt: &R,
    index: &MarkedTrie,
    keys: u64,
    gets: u64,
) -> Result<(u64, u64), BenchError> {
    let mut lap = Lap::new(rt)?;
    let sum = locate_all(index, keys, gets);
    Ok((sum, lap.turn(rt)?))
}

// The sum of the places of this many keys.
fn locate_all(index: &MarkedTrie, keys: u64, gets: u64) -> u64 {
    let mut sum = 0u64;
    for turn in 0..gets {
        let place = index.locate_marked(&key_of(pick(turn, 0, keys)));
        sum = sum.wrapping_add(place.unwrap_or(0) as u64);
    }
    sum
}
