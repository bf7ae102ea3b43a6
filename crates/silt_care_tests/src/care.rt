// Views of stores whose bytes change, and who has them scrubbed.
ghost use Rattle.std.specs.Prelude.{◌≡◌};

mod passes;
mod times;

use silt_care::{Finding, Finds, View};
use silt_device::MemDisk;
use silt_disk::{Disk, Geometry};
use silt_event::{Facts, Progress};
use silt_fixtures::{key, opened_on};
use silt_manifest::{Body, Digests};
use silt_store_set::Core;
use silt_view::Moment;
use std::alloc::Global;
use std::cell::Cell;
use std::fmt::Debug;
use std::process::Abort;
use std::test::Fail;

// A store whose device has other bytes, and refuses the reads that begin at one place. From the read of this number on, counted from 0,
// it is another store.
#[derive(Drop)]
struct Rotten {
    core: Core<MemDisk>,
    later: Core<MemDisk>,
    changes_at: u32,
    disk: MemDisk,
    refused_at: Option<u64>,
    reads: Cell<u32>,
}

impl Rotten {
    // The store as it is now.
    fn now(&self) -> &Core<MemDisk> {
        if self.reads.get() > self.changes_at {
            &self.later
        } else {
            &self.core
        }
    }
}

// A view of this store, whose device is another one. It is to become the store of these bytes.
fn view_of(
    alloc: Global,
    core: Core<MemDisk>,
    later: &[u8],
    disk: MemDisk,
) -> Result<Rotten, Fail> {
    Ok(Rotten {
        core,
        later: opened_on(alloc, MemDisk::with_bytes(alloc, later)?)?,
        changes_at: u32::MAX,
        disk,
        refused_at: None,
        reads: Cell::new(0),
    })
}

// Does all merging that there is to do.
fn merge_all(alloc: Global, core: &mut Core<MemDisk>) {
    for _ in 0..1_000 {
        if !matches!(core.merge(alloc), Ok(Progress::Moved | Progress::Finished)) {
            return;
        }
    }
}

// Puts keys with these first bytes, as many as the log takes, and converts it.
fn put_and_convert(alloc: Global, core: &mut Core<MemDisk>, firsts: &[u8]) -> Result<(), Fail> {
    for first in firsts {
        if core.geometry().value_len() == 2 {
            core.put(alloc, &key(*first), &[*first, 0])
                .ok()
                .ok_or("puts")?;
        }
    }
    for _ in 0..100_000 {
        if !matches!(
            core.convert(alloc),
            Ok(Progress::Moved | Progress::Finished)
        ) {
            return Ok(());
        }
    }
    Ok(())
}

impl View for Rotten {
    type Fault = ();

    ghost has_shape = { λ view shape. Unit {0} };

    ghost has_facts = { λ view facts. Unit {0} };

    ghost has_named = { λ view named. Unit {0} };

    ghost had_moment = { λ view moment. Unit {0} };

    ghost gave = { λ view at bytes. Unit {0} };

    ghost faulted = { λ view fault at len. Unit {0} };

    fn geometry(&self) -> Geometry {
        self.now().geometry()
    }

    fn facts(&self) -> Facts {
        self.now().facts()
    }

    fn named(&self) -> (Body, Digests) {
        self.now().named()
    }

    fn note_moments(_views: &[Self], _moments: &mut [Moment]) -> Result<(), ()> {
        Err(())
    }

    fn read_at(&self, at: u64, buf: &mut [u8]) -> Result<(), ()> {
        self.reads.set(self.reads.get().wrapping_add(1));
        if self.refused_at == Some(at) {
            return Err(());
        }
        let len = buf.len() as u64;
        if at > self.disk.len() || len > self.disk.len() - at {
            return Err(());
        }
        self.disk.read(at, buf).ok().ok_or(())
    }
}

// Who keeps the first two findings that it hears, and stops after being asked so many times.
#[derive(Drop)]
struct Ear {
    heard: Heard,
    asked: Cell<u32>,
    most: u32,
}

// How many findings were heard, and the first two.
#[derive(Clone, Copy, Debug, PartialEq, Eq)]
struct Heard {
    count: u32,
    first: Option<Finding>,
    second: Option<Finding>,
}

impl Ear {
    fn new(most: u32) -> Ear {
        Ear {
            heard: told_of(0, None, None),
            asked: Cell::new(0),
            most,
        }
    }
}

// So many findings, of which these are the first.
fn told_of(count: u32, first: Option<Finding>, second: Option<Finding>) -> Heard {
    Heard {
        count,
        first,
        second,
    }
}

impl Finds for Ear {
    ghost heard = { λ old finding new. Unit {0} };

    ghost has_stopped = { λ ear. Unit {0} };

    fn found(&mut self, finding: Finding) {
        match self.heard.count {
            0 => self.heard.first = Some(finding),
            1 => self.heard.second = Some(finding),
            _ => {}
        }
        self.heard.count = self.heard.count.saturating_add(1);
    }

    fn goes_on(&self) -> bool {
        self.asked.set(self.asked.get().wrapping_add(1));
        self.asked.get() <= self.most
    }
}

// What was found is what is expected. A comparison is a call, so that its proof is made once.
fn same<T: PartialEq + Debug>(rt: &impl Abort, found: &T, expected: &T) {
    assert_eq!(rt; found, expected);
}
