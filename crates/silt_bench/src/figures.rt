// The numbers that are printed.
ghost use Rattle.std.specs.Prelude.{◌≡◌, ◌*◌, ◌-◌, ◌/◌, ◌^◌, ◌<◌, min};

use std::alloc::Global;
use std::fmt;
use std::fs::{self, Files};

// The product of `count` and `times` divided by `of`, or the greatest number of 64 bits if that is
// less. 0 if `of` is 0.
fn quotient(count: u64, times: u32, of: u64) -> u64
    ensures { 0 < of → result ≡ min (count * times / of) (2 ^ 64 - 1) }
{
    if of == 0 {
        return 0;
    }
    let whole = u128::from(count) * u128::from(times) / u128::from(of);
    if whole < 1 << 64 {
        whole as u64
    } else {
        u64::MAX
    }
}

/// The rate a second of this many in this many nanoseconds. 0 if no time passed.
pub fn a_second(count: u64, nanos: u64) -> u64
    ensures { 0 < nanos → result ≡ min (count * 1000000000 / nanos) (2 ^ 64 - 1) }
{
    quotient(count, 1_000_000_000, nanos)
}

/// A number in thousandths, which prints with a decimal point.
#[derive(Clone, Copy)]
pub struct Thousandths(pub u64);

impl Thousandths {
    /// The quotient of two numbers, 0 if the second one is 0.
    pub fn of(count: u64, of: u64) -> Thousandths
        ensures { 0 < of → result.0 ≡ min (count * 1000 / of) (2 ^ 64 - 1) }
    {
        Thousandths(quotient(count, 1000, of))
    }
}

impl fmt::Display for Thousandths {
    fn fmt<W: fmt::Write>(&self, f: &mut fmt::Formatter<W>) -> fmt::Result {
        let whole = self.0 / 1000;
        let part = self.0 % 1000;
        write!(f, "{whole}.{part:03}")
    }
}

/// The memory that is resident now, and the most that was, in kibibytes. 0 if the system does not
/// report it.
#[derive(Clone, Copy)]
pub struct Memory {
    pub resident: u64,
    pub most: u64,
}

/// The memory of this process.
pub fn memory_of_process<R: Files>(rt: &R, alloc: Global) -> Memory {
    match fs::read_to_string(&(rt, alloc), "/proc/self/status") {
        Ok(text) => Memory {
            resident: number_of(text.as_str(), "VmRSS:"),
            most: number_of(text.as_str(), "VmHWM:"),
        },
        Err(_) => Memory {
            resident: 0,
            most: 0,
        },
    }
}

// The number after this name in a text of lines, 0 if no line begins with the name.
fn number_of(text: &str, name: &str) -> u64 {
    for line in text.lines() {
        if let Some(rest) = line.strip_prefix(name) {
            let word = rest.split_whitespace().next().unwrap_or("");
            return word.parse::<u64>().unwrap_or(0);
        }
    }
    0
}
