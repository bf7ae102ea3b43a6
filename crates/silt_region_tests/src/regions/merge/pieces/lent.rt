// Bytes that a merge lends, to be hashed elsewhere. Its first four slots are the first that it lends: they have 16,468 bytes.
ghost use Rattle.std.specs.Prelude.{◌≡◌, ◌≤◌, length};
ghost use Rattle.std.specs.List.{All};
ghost use Rattle.silt_disk.specs.Disk.{size};
ghost use Rattle.silt_disk.specs.Layout.{device_size};
ghost use Rattle.silt_device.specs.Memory.{memory_content};
ghost use Rattle.silt_merge.specs.Merging.{IsSameMerge};
ghost use Rattle.silt_merge.specs.State.{oldest_stores};

use crate::regions::merge::pieces::{fill_long, long};
use crate::regions::merge::{both, digest_of};
use crate::regions::{blank_of, done, put, same, same_in};
use silt_device::{Geometry, MemDisk};
use silt_event::Place;
use silt_frame::Digest;
use silt_hash_store::HashStore;
use silt_hasher::LentBytes;
use silt_merge::{Merge, StepError};
use silt_sorted_store::SortedEntries;
use std::alloc::Global;
use std::process::Abort;

// How many steps are tried. The merge takes 52: one for each of the 32 slots and 20 entries.
const TRIES: u32 = 60;

// What the steps did: how many of them succeeded, how many times bytes were lent, how many steps were refused because of damage,
// and what was damaged.
type Done = (u32, u32, u32, Option<Place>);

// Lends bytes and hashes them after the steps of these numbers, and takes them back before each step from one on.
#[derive(Drop)]
struct Lender {
    lent: LentBytes,
    step: u32,
    first: u32,
    last: u32,
    takes: u32,
    tries: u32,
}

impl Lender {
    fn take_back(&self, merge: &mut Merge)
        ensures { merge.new ≡ merge.old }
    {
        if self.step >= self.takes {
            merge.take_back(&self.lent);
        }
    }

    fn lend(&mut self, merge: &Merge) -> u32 {
        self.step = self.step.saturating_add(1);
        if self.step < self.first || self.step > self.last {
            return 0;
        }
        let is_lent = merge.lend(&mut self.lent);
        self.lent.hash();
        u32::from(is_lent)
    }
}

fn lends_after(rt: &impl Abort, alloc: Global, first: u32, last: u32, takes: u32) -> Lender {
    Lender {
        lent: done(rt, LentBytes::new(alloc)),
        step: 0,
        first,
        last,
        takes,
        tries: TRIES,
    }
}

// Takes one step, if the merge is not done.
fn lend_step(
    merge: &mut Merge,
    stores: &[HashStore],
    sorted: &SortedEntries,
    digest: &Digest,
    disk: &mut MemDisk,
    lender: &mut Lender,
) -> Done
    requires count { merge.old.stores ≤ length stores.now }
    requires shapes { All (λ store. store.shape ≡ merge.old.shape) (oldest_stores merge.old.stores stores.now) }
    requires shape { sorted.now.shape ≡ merge.old.shape }
    requires size { device_size merge.old.shape ≤ size (memory_content disk.old) }
    ensures same { IsSameMerge merge.old merge.new }
    ensures size { size (memory_content disk.new) ≡ size (memory_content disk.old) }
{
    if merge.is_done(sorted) {
        return (0, 0, 0, None);
    }
    lender.take_back(merge);
    let (steps, refused, place) = match merge.step(stores, sorted, digest, disk) {
        Ok(()) => (1, 0, None),
        Err(StepError::Damaged(place)) => (0, 1, Some(place)),
        Err(_) => (0, 0, None),
    };
    (steps, lender.lend(merge), refused, place)
}

// Takes the steps of a merge, as many as the lender tries.
fn lend_steps(
    merge: &mut Merge,
    stores: &[HashStore],
    sorted: &SortedEntries,
    digest: &Digest,
    disk: &mut MemDisk,
    lender: &mut Lender,
) -> Done
    requires count { merge.old.stores ≤ length stores.now }
    requires shapes { All (λ store. store.shape ≡ merge.old.shape) (oldest_stores merge.old.stores stores.now) }
    requires shape { sorted.now.shape ≡ merge.old.shape }
    requires size { device_size merge.old.shape ≤ size (memory_content disk.old) }
    ensures same { IsSameMerge merge.old merge.new }
    ensures size { size (memory_content disk.new) ≡ size (memory_content disk.old) }
{
    let mut all: Done = (0, 0, 0, None);
    for _step in 0..lender.tries {
        let one = lend_step(merge, stores, sorted, digest, disk, lender);
        all = (
            all.0.saturating_add(one.0),
            all.1.saturating_add(one.1),
            all.2.saturating_add(one.2),
            one.3.or(all.3),
        );
    }
    all
}

// Merges the two hash regions and twenty entries of a disk twice with one lender. Before the second merge a byte of the first slot
// changes on the disk, after its store's digest was taken.
fn merge_twice(
    rt: &impl Abort,
    alloc: Global,
    disk: &mut MemDisk,
    geometry: Geometry,
    lender: &mut Lender,
) -> (Done, Done)
    requires hashes { geometry.hashes ≡ 2 }
    requires capacity { 20 ≤ geometry.sorted_capacity }
    requires size { device_size geometry ≤ size (memory_content disk.old) }
{
    let stores = both(rt, alloc, disk, geometry);
    let sorted = SortedEntries::new(geometry, 0, 20);
    let digest = digest_of(rt, alloc, disk, &sorted);
    let mut merge = done(rt, Merge::start(alloc, &stores, &sorted, 1));
    let intact = lend_steps(&mut merge, &stores, &sorted, &digest, disk, lender);
    put(rt, disk, geometry.hash_at(0) + 30, &[1]);
    let mut merge = done(rt, Merge::start(alloc, &stores, &sorted, 1));
    let damaged = lend_steps(&mut merge, &stores, &sorted, &digest, disk, lender);
    (intact, damaged)
}

// What both merges do if bytes are lent after these steps, and taken back from a step on.
fn lends(rt: &impl Abort, alloc: Global, (first, last, takes): (u32, u32, u32)) -> (Done, Done) {
    let geometry = long(rt);
    let mut disk = blank_of(rt, alloc, geometry);
    fill_long(rt, &mut disk, geometry);
    let mut lender = lends_after(rt, alloc, first, last, takes);
    merge_twice(rt, alloc, &mut disk, geometry, &mut lender)
}

// What is damaged: the store of hash region 0, whose last slot the sixteenth step takes. Each later step is refused.
const DAMAGED: Option<Place> = Some(Place::HashDigest(0));

// Four slots or entries are lent at a time, and taken back before the next step: three times in each store of 16 slots, whose last
// slot ends it, and five times among the entries. In the second merge the changed byte is in the first bytes that were lent.
#[test]
fn refuses_damage_in_lent_bytes(rt: HostRuntime) {
    let found = lends(&rt, rt.alloc(), (0, 120, 0));
    same(&rt, &found, &((52, 11, 0, None), (16, 3, 44, DAMAGED)));
}

// Both merges are as without a lending, but for what is lent once, after this step.
fn ignores(rt: &impl Abort, alloc: Global, lent: u32, takes: u32) {
    let found = lends(rt, alloc, (lent, lent, takes));
    same_in(
        rt,
        &found,
        &((52, 1, 0, None), (16, 0, 44, DAMAGED)),
        &(lent, takes),
    );
}

// What is hashed comes back at once and again before each later step, or it comes late: in the second store, among the entries,
// after the merge has hashed those bytes itself (with the sixteenth entry), or in another merge, in which a byte of them differs.
#[test]
fn ignores_what_comes_late(rt: HostRuntime) {
    let alloc = rt.alloc();
    ignores(&rt, alloc, 4, 0);
    ignores(&rt, alloc, 8, 17);
    ignores(&rt, alloc, 12, 33);
    ignores(&rt, alloc, 36, 49);
    ignores(&rt, alloc, 5, 60);
}

// Takes twenty steps of a merge from a disk on which a byte of the first slot has changed, and twenty more once it is as it was.
fn merge_healed(
    rt: &impl Abort,
    alloc: Global,
    disk: &mut MemDisk,
    geometry: Geometry,
    lender: &mut Lender,
) -> (Done, Done)
    requires hashes { geometry.hashes ≡ 2 }
    requires capacity { 20 ≤ geometry.sorted_capacity }
    requires size { device_size geometry ≤ size (memory_content disk.old) }
{
    let place = geometry.hash_at(0) + 30;
    put(rt, disk, place, &[1]);
    let stores = both(rt, alloc, disk, geometry);
    let sorted = SortedEntries::new(geometry, 0, 20);
    let digest = digest_of(rt, alloc, disk, &sorted);
    let mut merge = done(rt, Merge::start(alloc, &stores, &sorted, 1));
    lender.tries = 20;
    put(rt, disk, place, &[2]);
    let damaged = lend_steps(&mut merge, &stores, &sorted, &digest, disk, lender);
    put(rt, disk, place, &[1]);
    let later = lend_steps(&mut merge, &stores, &sorted, &digest, disk, lender);
    (damaged, later)
}

// A merge that has found a store damaged goes no further, also if the disk then shows the right bytes.
#[test]
fn remembers_damage(rt: HostRuntime) {
    let alloc = rt.alloc();
    let geometry = long(&rt);
    let mut disk = blank_of(&rt, alloc, geometry);
    fill_long(&rt, &mut disk, geometry);
    let mut lender = lends_after(&rt, alloc, 1, 0, 0);
    let found = merge_healed(&rt, alloc, &mut disk, geometry, &mut lender);
    same(&rt, &found, &((16, 0, 4, DAMAGED), (0, 0, 20, DAMAGED)));
}
