// Fills a store by one writer.
ghost use Rattle.std.specs.Prelude.{◌≡◌, length};

use crate::background::Background;
use crate::error::{BenchError, Call};
use crate::job::{Part, Plan};
use crate::keys::{byte_of, key_of};
use crate::pauses::{Lap, Pauses};
use silt_desk::{Count, Desk, DeskId, Seat, Shared};
use silt_device::Disk;
use silt_event::Refusal;
use silt_frame::Key;
use std::alloc::{AllocError, Global};
use std::ops::Range;
use std::sync::Wait;
use std::thread;
use std::time::{Clock, Duration};

/// How often a put is tried again if the store has no room for it.
const MOST_TRIES: u32 = 2_000_000;

/// The background work of this many puts is done before a put is tried again.
const PUTS_IN_WAIT: u64 = 1000;

/// The time that filling a store took: nanoseconds in all, and microseconds of single calls.
#[derive(Clone, Copy)]
pub struct Filled {
    pub nanos: u64,
    pub put_late: u64,
    pub put_longest: u64,
    pub flush_middle: u64,
    pub flush_longest: u64,
}

impl Filled {
    /// No calls, in this many nanoseconds.
    pub fn none(nanos: u64) -> Filled {
        Filled {
            nanos,
            put_late: 0,
            put_longest: 0,
            flush_middle: 0,
            flush_longest: 0,
        }
    }

    /// These nanoseconds, and of each other number the greater one of the two.
    pub fn with(&self, other: &Filled) -> Filled {
        Filled {
            nanos: self.nanos,
            put_late: self.put_late.max(other.put_late),
            put_longest: self.put_longest.max(other.put_longest),
            flush_middle: self.flush_middle.max(other.flush_middle),
            flush_longest: self.flush_longest.max(other.flush_longest),
        }
    }
}

/// The writer of a store, and how the background work is done.
#[derive(Drop)]
pub struct Writer<N: DeskId> {
    pub seat: Seat<N>,
    pub background: Background,
    pub puts: Pauses,
    pub flushes: Pauses,
    // Which of the keys are put.
    part: Part,
    // How many puts are flushed together.
    group: u64,
    // The value of the next put.
    value: Vec<u8>,
}

impl<N: DeskId> Writer<N> {
    /// A writer of the plan's values that has put nothing yet.
    pub fn new(
        alloc: Global,
        seat: Seat<N>,
        background: Background,
        plan: &Plan,
    ) -> Result<Writer<N>, AllocError> {
        let value = vec![in alloc; 0u8; plan.geometry.value_len() as usize]?;
        Ok(Writer {
            seat,
            background,
            puts: Pauses::new(),
            flushes: Pauses::new(),
            part: plan.part,
            group: plan.group.max(1),
            value,
        })
    }

    // How many keys of all shards there are for each group of this one.
    fn numbers_a_group(&self) -> u64 {
        self.group.saturating_mul(u64::from(self.part.shards))
    }

    // The times of a fill that took this many nanoseconds in all.
    fn filled(&self, nanos: u64) -> Filled {
        Filled {
            nanos,
            put_late: self.puts.all_but(1),
            put_longest: self.puts.longest() / 1000,
            flush_middle: self.flushes.all_but(500),
            flush_longest: self.flushes.longest() / 1000,
        }
    }
}

/// Puts so many keys, and finishes all background work.
pub fn fill_all<D: Disk, N: DeskId, R: Wait + Clock>(
    rt: &R,
    alloc: Global,
    shared: &Shared<D, Count, N>,
    writer: &mut Writer<N>,
    keys: u64,
) -> Result<Filled, BenchError> {
    let mut lap = Lap::new(rt)?;
    fill(rt, alloc, shared, writer, 0, keys)?;
    writer
        .background
        .finish(rt, alloc, shared, &mut writer.seat)?;
    Ok(writer.filled(lap.turn(rt)?))
}

/// Puts those of the keys of the numbers from `first` up to `end` that the store has, in groups, with
/// a flush and some background work after each. If this thread does that work, its time counts in the
/// pause of the next put.
pub fn fill<D: Disk, N: DeskId, R: Wait + Clock>(
    rt: &R,
    alloc: Global,
    shared: &Shared<D, Count, N>,
    writer: &mut Writer<N>,
    first: u64,
    end: u64,
) -> Result<(), BenchError> {
    let mut lap = Lap::new(rt)?;
    let numbers = writer.numbers_a_group();
    for at in (first..end).step_by((numbers as usize).max(1)) {
        let next = at.saturating_add(numbers).min(end);
        let puts = put_group(rt, alloc, shared, writer, at..next, &mut lap)?;
        flush_once(&mut *shared.write(rt), alloc, &mut writer.seat)?;
        writer.flushes.note(lap.turn(rt)?);
        writer
            .background
            .go_on(rt, alloc, shared, &mut writer.seat, puts)?;
    }
    Ok(())
}

// Puts those of the keys of these numbers that the store has. Returns how many they are.
fn put_group<D: Disk, N: DeskId, R: Wait + Clock>(
    rt: &R,
    alloc: Global,
    shared: &Shared<D, Count, N>,
    writer: &mut Writer<N>,
    numbers: Range<u64>,
    lap: &mut Lap,
) -> Result<u64, BenchError> {
    let mut puts = 0u64;
    for number in numbers {
        let key = key_of(number);
        if writer.part.has(&key) {
            writer.value.fill(byte_of(number));
            put_patiently(rt, alloc, shared, writer, &key)?;
            writer.puts.note(lap.turn(rt)?);
            puts = puts.saturating_add(1);
        }
    }
    Ok(puts)
}

// Puts the writer's value. While the store has no room for it, waits for the background work.
fn put_patiently<D: Disk, N: DeskId, R: Wait + Clock>(
    rt: &R,
    alloc: Global,
    shared: &Shared<D, Count, N>,
    writer: &mut Writer<N>,
    key: &Key,
) -> Result<(), BenchError> {
    for _try in 0..MOST_TRIES {
        if put_once(
            &mut *shared.write(rt),
            alloc,
            &mut writer.seat,
            key,
            &writer.value,
        )? {
            return Ok(());
        }
        writer
            .background
            .go_on(rt, alloc, shared, &mut writer.seat, PUTS_IN_WAIT)?;
        thread::sleep(rt, Duration::from_micros(50));
    }
    Err(BenchError::Refused(Call::Put))
}

// Puts a value. False if the store has no room for it.
fn put_once<D: Disk, N: DeskId>(
    desk: &mut Desk<D, Count, N>,
    alloc: Global,
    seat: &mut Seat<N>,
    key: &Key,
    value: &[u8],
) -> Result<bool, BenchError> {
    if desk.geometry().value_len() as usize != value.len() {
        return Err(BenchError::Refused(Call::Put));
    }
    match desk.put(alloc, seat, key, value) {
        Ok(_) => Ok(true),
        Err(Refusal::NoRoom | Refusal::StoreFull) => Ok(false),
        Err(_) => Err(BenchError::Refused(Call::Put)),
    }
}

// Acknowledges all puts.
fn flush_once<D: Disk, N: DeskId>(
    desk: &mut Desk<D, Count, N>,
    alloc: Global,
    seat: &mut Seat<N>,
) -> Result<(), BenchError> {
    match desk.flush(alloc, seat) {
        Ok(_) => Ok(()),
        Err(_) => Err(BenchError::Refused(Call::Flush)),
    }
}
