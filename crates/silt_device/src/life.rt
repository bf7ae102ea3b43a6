// The lives of a disk in memory. A life runs from opening to crash or close: which call crashes, and what the crash leaves.
ghost use Rattle.std.specs.Prelude.{◌≡◌, drop, []};
ghost use Rattle.silt_device.specs.Lives.{filled, life_after_call, life_of, endless, is_stopped, Plan, next_life, plan_after_call};

use std::alloc::Global;
use std::marker::Model;

/// The bytes of the pending places after a stop (a crash at a chosen call).
#[derive(Clone, Copy, Debug, PartialEq, Eq)]
pub enum Fill {
    /// The settled bytes, as if no write since the last sync had happened.
    Old,
    /// The shown bytes, as if each of these writes had happened.
    New,
    /// 0x00.
    Zero,
    /// 0xFF.
    Ones,
    /// The shown byte at even device offsets, and the settled byte at odd ones.
    Mix,
}

/// Where a life stops (crashes), and what the crash leaves.
#[derive(Clone, Copy, Debug, PartialEq, Eq)]
pub struct Stop {
    /// The K-th write or sync of the life, counted from 1, fails, and so does every call after it, reads too.
    /// With 0 no call fails, and the crash comes at the end of the life.
    pub k: u32,
    /// The bytes of the pending places after the crash.
    pub fill: Fill,
}

// The progress of a life.
#[derive(Clone, Copy, Debug, PartialEq, Eq)]
struct Life {
    fill: Fill,
    // The number of writes and syncs up to and including the one that fails: 0 once it has failed. None: no call fails.
    calls_left: Option<u32>,
}

impl Life {
    // A life without a crash.
    fn endless() -> Self
        ensures { result ≡ endless }
    {
        Life {
            fill: Fill::Old,
            calls_left: None,
        }
    }

    // A life with this stop, at its beginning.
    fn new(stop: Stop) -> Self
        ensures { result ≡ life_of stop }
    {
        Life {
            fill: stop.fill,
            calls_left: if stop.k == 0 { None } else { Some(stop.k) },
        }
    }

    // Counts a write or sync, and returns whether it fails.
    fn count_call(&mut self) -> bool
        ensures counted { self.new ≡ life_after_call self.old }
        ensures stopped { result ≡ is_stopped self.new }
    {
        if let Some(left) = self.calls_left {
            self.calls_left = Some(left.saturating_sub(1));
        }
        self.is_stopped()
    }

    // Whether every call fails: the crash has come.
    fn is_stopped(&self) -> bool
        ensures { result ≡ is_stopped self.now }
    {
        self.calls_left == Some(0)
    }
}

// The present life, and the stops of later ones.
#[derive(Drop)]
pub(crate) struct Lives {
    life: Life,
    stops: Vec<Stop>,
    next: usize,
}

impl Model for Lives {
    ghost Value = { Plan };

    ghost view = { λ lives. record { life = lives.life; to_come = drop lives.next lives.stops.items } };
}

impl Lives {
    // Begins the first of these lives.
    pub(crate) fn new(stops: Vec<Stop>) -> Self
        ensures { result ≡ next_life stops.items }
    {
        let mut lives = Lives {
            life: Life::endless(),
            stops,
            next: 0,
        };
        lives.begin_next();
        lives
    }

    // One life without a crash.
    pub(crate) fn endless(alloc: Global) -> Self
        ensures { result ≡ next_life [] }
    {
        Lives {
            life: Life::endless(),
            stops: Vec::new(alloc),
            next: 0,
        }
    }

    // Begins the next life.
    #[tactic(auto, using(crate::proofs::ToCome::next_stop, crate::proofs::ToCome::no_stop))]
    pub(crate) fn begin_next(&mut self)
        ensures { self.new ≡ next_life self.old.to_come }
    {
        match self.stops.get(self.next).copied() {
            Some(stop) => {
                self.life = Life::new(stop);
                self.next += 1;
            }
            None => self.life = Life::endless(),
        }
    }

    // Counts a write or sync, and returns whether it fails.
    pub(crate) fn count_call(&mut self) -> bool
        ensures counted { self.new ≡ plan_after_call self.old }
        ensures stopped { result ≡ is_stopped self.new.life }
    {
        self.life.count_call()
    }

    // Whether every call fails: the crash has come.
    pub(crate) fn is_stopped(&self) -> bool
        ensures { result ≡ is_stopped self.now.life }
    {
        self.life.is_stopped()
    }

    // What a crash now leaves in the pending places.
    pub(crate) fn fill(&self) -> Fill
        ensures { result ≡ self.now.life.fill }
    {
        self.life.fill
    }
}

// The byte of a pending place after a crash.
pub(crate) fn filled_byte(fill: Fill, place: usize, shown: u8, settled: u8) -> u8
    ensures { result ≡ filled fill place shown settled }
{
    match fill {
        Fill::Old => settled,
        Fill::New => shown,
        Fill::Zero => 0x00,
        Fill::Ones => 0xFF,
        Fill::Mix => { if place % 2 == 0 { shown } else { settled } }
    }
}
