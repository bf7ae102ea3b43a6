// What a server counts.

/// How many numbers a server counts.
pub const COUNTS: usize = 38;

/// What a server counted since it began to serve, in the order of [`Counter`]. Nothing is proved of these numbers.
#[derive(Clone, Copy, Debug, PartialEq, Eq)]
pub struct Counts {
    pub numbers: [u64; COUNTS],
}

/// What one of the numbers counts.
#[derive(Clone, Copy, Debug, PartialEq, Eq)]
pub enum Counter {
    /// Seconds since the server began to serve.
    Uptime,
    /// Connections that had a session.
    Connections,
    /// Connections that have a session now.
    OpenConnections,
    /// Connections that found no place or no thread.
    RefusedConnections,
    Gets,
    Puts,
    Deletes,
    Swaps,
    Flushes,
    /// Replies that refuse with this number, from 1 to 11.
    Refusals(u32),
    /// Batches of commands that were flushed together.
    Batches,
    /// Batches whose work and flush took less than 128 microseconds (0), less than twice that (1) and so on; those of the last, 12, took
    /// 262 milliseconds or more.
    BatchTimes(u32),
    /// Seconds from the beginning to the last reply that said that the device failed; 0 if there was none.
    LastFailure,
    /// Parts of the device that were found damaged.
    Findings,
    /// Scrubs that ended.
    Scrubs,
    /// Backups that ended.
    Backups,
}

impl Counter {
    ghost use Rattle.std.specs.Prelude.{◌<◌};

    /// The place of its number.
    pub fn place(self) -> usize
        ensures { result < 38 }
    {
        match self {
            Counter::Uptime => 0,
            Counter::Connections => 1,
            Counter::OpenConnections => 2,
            Counter::RefusedConnections => 3,
            Counter::Gets => 4,
            Counter::Puts => 5,
            Counter::Deletes => 6,
            Counter::Swaps => 7,
            Counter::Flushes => 8,
            Counter::Refusals(number) => 9 + number.clamp(1, 11) as usize - 1,
            Counter::Batches => 20,
            Counter::BatchTimes(power) => 21 + power.min(12) as usize,
            Counter::LastFailure => 34,
            Counter::Findings => 35,
            Counter::Scrubs => 36,
            Counter::Backups => 37,
        }
    }
}
