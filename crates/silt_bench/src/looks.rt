// Gets at stores that threads share, made by several threads at once.

use crate::error::BenchError;
use crate::figures::a_second;
use crate::keys::{byte_of, key_of, pick, store_of};
use crate::pauses::Lap;
use silt_desk::{Count, Desk, DeskId, Shared, join_over};
use silt_device::Disk;
use silt_frame::Key;
use std::sync::Wait;
use std::sync::atomic::{AtomicU64, Ordering};
use std::thread::Threads;
use std::time::Clock;

/// The stores that are looked at.
#[derive(Drop)]
pub enum Stores<'a, S> {
    /// One store with all keys.
    One(&'a S),
    /// The shards of a set in their order, and how many they are.
    Shards(&'a [S], u32),
}

impl<S> Stores<'_, S> {
    // The first store.
    fn first(&self) -> Option<&S> {
        match self {
            Stores::One(store) => Some(*store),
            Stores::Shards(shards, _) => shards.first(),
        }
    }

    // The store that has this key.
    fn of_key(&self, key: &Key) -> Option<&S> {
        match self {
            Stores::One(store) => Some(*store),
            Stores::Shards(shards, count) => shards.get(store_of(key, *count)),
        }
    }
}

/// The first number of the keys that are never put.
pub const ABSENT: u64 = 1 << 40;

/// Which looks are made.
#[derive(Clone, Copy)]
pub struct Looks {
    /// The first number of the keys.
    pub first: u64,
    /// How many keys there are to pick from.
    pub keys: u64,
    /// How many looks are made in all.
    pub count: u64,
    /// Whether the keys have values.
    pub present: bool,
}

impl Looks {
    /// Looks at keys that were put.
    pub fn present(keys: u64, count: u64) -> Looks {
        Looks {
            first: 0,
            keys,
            count,
            present: true,
        }
    }

    /// Looks at keys that were not.
    pub fn absent(keys: u64, count: u64) -> Looks {
        Looks {
            first: ABSENT,
            keys,
            count,
            present: false,
        }
    }
}

/// How many looks a second one thread makes.
///
/// # Errors
///
/// `Wrong` if a look found another value than was put.
pub fn looks_by_one<D: Disk, N: DeskId, R: Wait + Clock>(
    rt: &R,
    stores: &Stores<'_, Shared<D, Count, N>>,
    looks: Looks,
) -> Result<u64, BenchError> {
    let mut lap = Lap::new(rt)?;
    if !look_all(rt, stores, looks, looks.count, 0) {
        return Err(BenchError::Wrong);
    }
    Ok(a_second(looks.count, lap.turn(rt)?))
}

/// How many looks a second four threads make, side by side.
///
/// # Errors
///
/// `Wrong` if a look found another value than was put.
pub fn looks_by_four<D: Disk, N: DeskId + Send + Sync, R: Threads + Wait + Clock + Sync>(
    rt: &R,
    stores: &Stores<'_, Shared<D, Count, N>>,
    looks: Looks,
) -> Result<u64, BenchError> {
    let each = looks.count / 4;
    let mut lap = Lap::new(rt)?;
    if !four_look(rt, stores, looks, each) {
        return Err(BenchError::Wrong);
    }
    Ok(a_second(looks.count, lap.turn(rt)?))
}

/// How many reads the looks of one thread make.
///
/// # Errors
///
/// `Wrong` if a look found another value than was put.
pub fn count_reads<D: Disk, N: DeskId, R: Wait>(
    rt: &R,
    stores: &Stores<'_, Shared<D, Count, N>>,
    reads: &AtomicU64,
    looks: Looks,
) -> Result<u64, BenchError> {
    let before = reads.load(Ordering::SeqCst);
    if !look_all(rt, stores, looks, looks.count, 0) {
        return Err(BenchError::Wrong);
    }
    Ok(reads.load(Ordering::SeqCst).wrapping_sub(before))
}

// This many looks by each of four threads. Returns whether each one found what was put.
fn four_look<D: Disk, N: DeskId + Send + Sync, R: Threads + Wait + Sync>(
    rt: &R,
    stores: &Stores<'_, Shared<D, Count, N>>,
    looks: Looks,
    each: u64,
) -> bool {
    let (first, second) = join_over(
        rt,
        stores,
        move |all: &Stores<'_, Shared<D, Count, N>>| two_look(rt, all, looks, each, 0),
        move |all: &Stores<'_, Shared<D, Count, N>>| two_look(rt, all, looks, each, 2),
    );
    first && second
}

// This many looks by each of two threads. Returns whether each one found what was put.
fn two_look<D: Disk, N: DeskId + Send + Sync, R: Threads + Wait + Sync>(
    rt: &R,
    stores: &Stores<'_, Shared<D, Count, N>>,
    looks: Looks,
    each: u64,
    thread: u64,
) -> bool {
    let (first, second) = join_over(
        rt,
        stores,
        move |all: &Stores<'_, Shared<D, Count, N>>| look_all(rt, all, looks, each, thread),
        move |all: &Stores<'_, Shared<D, Count, N>>| look_all(rt, all, looks, each, thread ^ 1),
    );
    first && second
}

// This many looks by one thread. Returns whether each one found what was put.
fn look_all<D: Disk, N: DeskId, R: Wait>(
    rt: &R,
    stores: &Stores<'_, Shared<D, Count, N>>,
    looks: Looks,
    count: u64,
    thread: u64,
) -> bool {
    let Some(first) = stores.first() else {
        return false;
    };
    let mut buffer = [0u8; 4096];
    let value_len = first.read(rt).geometry().value_len() as usize;
    let len = value_len.min(buffer.len());
    let out = &mut buffer[..len];
    for turn in 0..count {
        if !look_once(rt, stores, looks, pick(turn, thread, looks.keys), out) {
            return false;
        }
    }
    true
}

// One look, at the store of the key of this number. Returns whether it found what was put.
fn look_once<D: Disk, N: DeskId, R: Wait>(
    rt: &R,
    stores: &Stores<'_, Shared<D, Count, N>>,
    looks: Looks,
    number: u64,
    out: &mut [u8],
) -> bool {
    let key = key_of(looks.first.wrapping_add(number));
    match stores.of_key(&key) {
        Some(store) => is_right(&*store.read(rt), looks, number, &key, out),
        None => false,
    }
}

// Whether a look at the key of a number finds what was put, or nothing if the key is absent.
fn is_right<D: Disk, N: DeskId>(
    desk: &Desk<D, Count, N>,
    looks: Looks,
    number: u64,
    key: &Key,
    out: &mut [u8],
) -> bool {
    if desk.geometry().value_len() as usize != out.len() {
        return false;
    }
    match desk.look(key, out) {
        Ok(look) => {
            look.found == looks.present && (!look.found || out.first() == Some(&byte_of(number)))
        }
        Err(_) => false,
    }
}
