// What the threads of a server tell each other besides jobs: that it is to end, that a backup is wanted, and what they counted.
ghost use Rattle.std.specs.Prelude.{◌≡◌, ◌⊎◌};
ghost use Rattle.silt_event.specs.declared.admin.AdminReply.TheVariants as reply_case;

use silt_event::{AdminReply, COUNTS, Counter, Counts};
use std::sync::atomic::{AtomicBool, AtomicU64, Ordering};
use std::time::{Clock, Instant};

/// What the threads of a server tell each other besides jobs: that it is to end, that a backup is wanted, and what they counted.
/// Nothing is proved of what it holds.
#[derive(Drop)]
pub struct Board {
    began: Option<Instant>,
    is_ending: AtomicBool,
    has_ended: AtomicBool,
    takes_backups: bool,
    is_backup_due: AtomicBool,
    numbers: [AtomicU64; COUNTS],
}

impl Board {
    /// The board of a server that begins now. It has an order for a backup done, if it takes backups.
    pub fn new<R: Clock>(rt: &R, takes_backups: bool) -> Board {
        Board {
            began: Instant::now(rt).ok(),
            is_ending: AtomicBool::new(false),
            has_ended: AtomicBool::new(false),
            takes_backups,
            is_backup_due: AtomicBool::new(false),
            numbers: std::array::from_fn(|_| AtomicU64::new(0)),
        }
    }

    /// Says that the server is to end.
    pub fn end(&self) {
        self.is_ending.store(true, Ordering::SeqCst);
    }

    /// Whether the server is to end.
    pub fn is_ending(&self) -> bool {
        self.is_ending.load(Ordering::SeqCst)
    }

    /// Says that the sessions have ended. The workers may still do steps.
    pub fn sessions_ended(&self) {
        self.has_ended.store(true, Ordering::SeqCst);
    }

    /// Whether the server is to end, or its sessions have ended: then work beside the sessions ends too.
    pub fn has_ended(&self) -> bool {
        self.is_ending() || self.has_ended.load(Ordering::SeqCst)
    }

    /// Says that a backup is wanted. It stays wanted until it is made.
    pub fn order_backup(&self) -> AdminReply
        ensures { (result ≡ reply_case.Begun) ⊎ ((result ≡ reply_case.UnderWay) ⊎ (result ≡ reply_case.NotServed)) }
    {
        if !self.takes_backups {
            return AdminReply::NotServed;
        }
        match self.is_backup_due.swap(true, Ordering::SeqCst) {
            true => AdminReply::UnderWay,
            false => AdminReply::Begun,
        }
    }

    /// Whether a backup is wanted.
    pub fn is_backup_due(&self) -> bool {
        self.is_backup_due.load(Ordering::SeqCst)
    }

    /// Says that the backup that was wanted has ended.
    pub fn backup_ended(&self) {
        self.is_backup_due.store(false, Ordering::SeqCst);
    }

    /// Counts so many more.
    pub fn count(&self, counter: Counter, more: u64) {
        self.numbers[counter.place()].fetch_add(more, Ordering::Relaxed);
    }

    /// Counts so many more of each.
    pub(crate) fn add(&self, more: &[u64; COUNTS]) {
        for place in 0..COUNTS {
            if more[place] > 0 {
                self.numbers[place].fetch_add(more[place], Ordering::Relaxed);
            }
        }
    }

    /// Counts so many fewer.
    pub fn discount(&self, counter: Counter, fewer: u64) {
        self.numbers[counter.place()].fetch_sub(fewer, Ordering::Relaxed);
    }

    // Seconds since the server began.
    fn seconds<R: Clock>(&self, rt: &R) -> u64 {
        match (self.began, Instant::now(rt)) {
            (Some(began), Ok(now)) => now.saturating_duration_since(began).as_secs(),
            _ => 0,
        }
    }

    /// Notes that the device failed just now.
    pub fn note_failure<R: Clock>(&self, rt: &R) {
        let seconds = self.seconds(rt).max(1);
        self.numbers[Counter::LastFailure.place()].store(seconds, Ordering::Relaxed);
    }

    /// What was counted.
    pub fn counts<R: Clock>(&self, rt: &R) -> Counts {
        let mut numbers = [0_u64; COUNTS];
        for place in 0..COUNTS {
            numbers[place] = self.numbers[place].load(Ordering::Relaxed);
        }
        numbers[Counter::Uptime.place()] = self.seconds(rt);
        Counts { numbers }
    }
}
