// Files that open as one set.
ghost use Rattle.std.specs.Prelude.{◌≡◌, ◌<◌, ◌≤◌, ◌↔◌, ℕ, List, [], Some, IsTrue, OnOk, IfOk, IfErr, IfNone, IfSome, length, slice_get, vec_capacity, vec_len};
ghost use Rattle.std.specs.List.{AllZip};
ghost use Rattle.silt_recovery.specs.Opening.{LeavesNoOther};
ghost use Rattle.silt_store_set.specs.CoreState.{Opens};
ghost use Rattle.silt_shards.specs.Attempts.{GivesFor, IsAttemptOn};
ghost use Rattle.silt_shards.specs.Opening.{AreOfOneShape, AreShards, CausedAt, HasOtherNumbers, IsLike, IsMarked, IsRefusedSet, IsRefusedUnopened, Says};
ghost use Rattle.silt_shards.specs.Routing.{IsShardCount, most_shards};
ghost use Rattle.silt_shards.specs.Sets.{AreAlike};
ghost use Rattle.silt_shards.specs.declared.mark.Marking.TheVariants.{Marked, Unmarked};

use crate::attempt::Attempt;
use crate::fault::{MarkFault, SetCause, SetFault};
use crate::mark::{Mark, Marking, read_mark};
use silt_disk::{Disk, Geometry};
use silt_event::Refusal;
use silt_store_set::{Core, OpenFault};
use std::alloc::Global;
use std::thread;
use std::thread::Threads;

/// Opens the stores on these disks, which are, in their order, the shards of one set. First it compares their marks: each says
/// that its file is this shard, of a set of as many shards as there are disks, and all have the same bytes of a set. Then it
/// opens one store after the other, and compares their six numbers.
///
/// # Errors
///
/// The first disk that is not the shard that is due, or on which no store opens, and why. The stores that were opened before it
/// are closed. If it is out of memory for the list of stores, that is shard 0's.
pub fn open_shards<D: Disk>(alloc: Global, disks: Vec<D>) -> Result<Vec<Core<D>>, SetFault<D>>
    requires { IsShardCount (vec_len disks) }
    ensures opens { IfOk result (λ cores. AllZip (λ disk core. Opens D.Disk (D.content disk) core) disks.items cores.items) }
    ensures count { IfOk result (λ cores. vec_len cores ≡ vec_len disks) }
    ensures shape { IfOk result (λ cores. AreOfOneShape cores.items) }
    ensures alike { IfOk result (λ cores. AreAlike (λ core. core.shape.value_len) cores.items) }
    ensures shards { IfOk result (λ _. AreShards D.Disk disks.items) }
    ensures cause { IfErr result (λ fault. IsRefusedSet D.Disk disks.items fault.shard fault.disk fault.cause) }
{
    let (attempts, cores) = due_lists(alloc, disks)?;
    gather(alloc, attempts, cores)
}

/// Opens the stores on these disks as [`open_shards`] does, but side by side: in threads, of which there are at most as many as
/// processors. So each store is opened, also behind one that is refused.
///
/// # Errors
///
/// Those of [`open_shards`], and of the same shard. All other stores are closed. If it is out of memory for a list of the
/// stores, that is shard 0's, and none is opened.
pub fn open_shards_beside<D: Disk, R: Threads + Sync>(
    rt: &R,
    alloc: Global,
    disks: Vec<D>,
) -> Result<Vec<Core<D>>, SetFault<D>>
    requires { IsShardCount (vec_len disks) }
    ensures opens { IfOk result (λ cores. AllZip (λ disk core. Opens D.Disk (D.content disk) core) disks.items cores.items) }
    ensures count { IfOk result (λ cores. vec_len cores ≡ vec_len disks) }
    ensures shape { IfOk result (λ cores. AreOfOneShape cores.items) }
    ensures alike { IfOk result (λ cores. AreAlike (λ core. core.shape.value_len) cores.items) }
    ensures shards { IfOk result (λ _. AreShards D.Disk disks.items) }
    ensures cause { IfErr result (λ fault. IsRefusedSet D.Disk disks.items fault.shard fault.disk fault.cause) }
{
    let (attempts, cores) = due_lists(alloc, disks)?;
    gather(alloc, make_all(rt, alloc, attempts), cores)
}

// The disks are refused because of this one.
fn refused<D: Disk>(disks: Vec<D>, shard: u32, cause: SetCause<D::Fault>) -> SetFault<D>
    requires { shard < vec_len disks }
    ensures shard { result.shard ≡ shard }
    ensures disk { slice_get disks.items shard ≡ Some result.disk }
    ensures cause { result.cause ≡ cause }
{
    let mut disks = disks;
    SetFault {
        shard,
        disk: disks.swap_remove(shard as usize),
        cause,
    }
}

/// Makes sure that a disk is a store of its own, and no shard of a set. That takes at most one read.
///
/// # Errors
///
/// Why it is none: it has a mark, or the read failed.
pub fn check_unmarked<D: Disk>(disk: &D) -> Result<(), SetCause<D::Fault>>
    ensures unmarked { OnOk result (Says D.Disk disk.now Unmarked) }
    ensures cause { IfErr result (IsMarked D.Disk (D.content disk.now) disk.now) }
{
    match read_mark(disk) {
        Ok(Marking::Unmarked) => Ok(()),
        Ok(Marking::Unknown) => Err(SetCause::NotDue(MarkFault::Unknown)),
        Ok(Marking::Marked(mark)) => Err(SetCause::NotDue(MarkFault::InSet {
            shard: mark.shard,
            of: mark.count,
        })),
        Err(fault) => Err(SetCause::Refused(Refusal::Device(fault))),
    }
}

// The mark of a disk, if it is that of the shard that is due.
fn due_mark<D: Disk>(disk: &D, count: u32, due: u32) -> Result<Mark, SetCause<D::Fault>>
    ensures mark { IfOk result (λ mark. (mark.count ≡ count) × (mark.shard ≡ due) × Says D.Disk disk.now (Marked mark)) }
    ensures cause { (first : D) → IfErr result (CausedAt D.Disk count due first disk.now disk.now) }
{
    let mark = match read_mark(disk) {
        Ok(Marking::Marked(mark)) => mark,
        Ok(Marking::Unmarked) => return Err(SetCause::NotDue(MarkFault::Unmarked)),
        Ok(Marking::Unknown) => return Err(SetCause::NotDue(MarkFault::Unknown)),
        Err(fault) => return Err(SetCause::Refused(Refusal::Device(fault))),
    };
    match fault_of(&mark, count, due) {
        Some(fault) => Err(SetCause::NotDue(fault)),
        None => Ok(mark),
    }
}

// Why a mark is not that of the shard that is due, if it is not.
fn fault_of(mark: &Mark, count: u32, due: u32) -> Option<MarkFault>
    ensures fault { IfSome result (HasOtherNumbers count due mark.now) }
    ensures none { IfNone result ((mark.now.count ≡ count) × (mark.now.shard ≡ due)) }
{
    if mark.count != count {
        return Some(MarkFault::OtherCount {
            found: mark.count,
            asked: count,
        });
    }
    if mark.shard != due {
        return Some(MarkFault::OtherShard {
            found: mark.shard,
            of: mark.count,
            due,
        });
    }
    None
}

// Whether two marks have the same bytes of a set.
fn are_of_one_set(first: &Mark, other: &Mark) -> bool
    ensures { IsTrue result ↔ (other.now.set ≡ first.now.set) }
{
    other.set == first.set
}

/// Makes sure that these disks are, in their order, the shards of one set, by their marks.
///
/// # Errors
///
/// The number of the first disk that is not the shard that is due, and why.
pub fn compare_marks<D: Disk>(disks: &[D]) -> Result<(), (u32, SetCause<D::Fault>)>
    requires { IsShardCount (length disks.now) }
    ensures shards { OnOk result (AreShards D.Disk disks.now) }
    ensures cause { IfErr result (λ fault. IsRefusedUnopened D.Disk disks.now fault.0 fault.1) }
{
    let count = disks.len() as u32;
    let first = match due_mark(&disks[0], count, 0) {
        Ok(mark) => mark,
        Err(cause) => return Err((0, cause)),
    };
    for shard in 1..count {
        match due_mark(&disks[shard as usize], count, shard) {
            Ok(mark) => {
                if !are_of_one_set(&first, &mark) {
                    return Err((shard, SetCause::NotDue(MarkFault::OtherSet)));
                }
            }
            Err(cause) => return Err((shard, cause)),
        }
    }
    Ok(())
}

// An attempt on each of these disks, and an empty list with room for their stores, if the disks are the shards of one set by
// their marks.
fn due_lists<D: Disk>(
    alloc: Global,
    disks: Vec<D>,
) -> Result<(Vec<Attempt<D>>, Vec<Core<D>>), SetFault<D>>
    requires { IsShardCount (vec_len disks) }
    ensures due { IfOk result (λ lists. AllZip (IsAttemptOn D.Disk) disks.items lists.0.items) }
    ensures count { IfOk result (λ lists. vec_len lists.0 ≡ vec_len disks) }
    ensures none { IfOk result (λ lists. lists.1.items ≡ []) }
    ensures room { IfOk result (λ lists. vec_len lists.0 ≤ vec_capacity lists.1) }
    ensures shards { IfOk result (λ _. AreShards D.Disk disks.items) }
    ensures cause { IfErr result (λ fault. IsRefusedSet D.Disk disks.items fault.shard fault.disk fault.cause) }
{
    match compare_marks(disks.as_slice()) {
        Ok(()) => lists_for(alloc, disks),
        Err((shard, cause)) => Err(refused(disks, shard, cause)),
    }
}

// An attempt on each of these disks, and an empty list with room for their stores.
fn lists_for<D: Disk>(
    alloc: Global,
    disks: Vec<D>,
) -> Result<(Vec<Attempt<D>>, Vec<Core<D>>), SetFault<D>>
    requires { IsShardCount (vec_len disks) }
    ensures due { IfOk result (λ lists. AllZip (IsAttemptOn D.Disk) disks.items lists.0.items) }
    ensures count { IfOk result (λ lists. vec_len lists.0 ≡ vec_len disks) }
    ensures none { IfOk result (λ lists. lists.1.items ≡ []) }
    ensures room { IfOk result (λ lists. vec_len lists.0 ≤ vec_capacity lists.1) }
    ensures cause { IfErr result (λ fault. IsRefusedSet D.Disk disks.items fault.shard fault.disk fault.cause) }
{
    let Ok(cores) = Vec::with_capacity(alloc, disks.len()) else {
        return Err(refused(disks, 0, SetCause::Refused(Refusal::NoMemory)));
    };
    let Ok(attempts) = Vec::with_capacity(alloc, disks.len()) else {
        return Err(refused(disks, 0, SetCause::Refused(Refusal::NoMemory)));
    };
    Ok((all_due(disks, attempts), cores))
}

// An attempt on each of these disks, into a list that has room for them.
fn all_due<D: Disk>(disks: Vec<D>, attempts: Vec<Attempt<D>>) -> Vec<Attempt<D>>
    requires none { attempts.items ≡ [] }
    requires room { vec_len disks ≤ vec_capacity attempts }
    ensures due { AllZip (IsAttemptOn D.Disk) disks.items result.items }
    ensures count { vec_len result ≡ vec_len disks }
{
    let mut attempts = attempts;
    for disk in disks {
        attempts.push_reserved(Attempt::Due(disk));
    }
    attempts
}

// Makes these attempts side by side, in at most as many threads as there are processors.
fn make_all<D: Disk, R: Threads + Sync>(
    rt: &R,
    alloc: Global,
    attempts: Vec<Attempt<D>>,
) -> Vec<Attempt<D>>
    ensures on { (disks : List D) → AllZip (IsAttemptOn D.Disk) disks attempts.items → AllZip (IsAttemptOn D.Disk) disks result.items }
    ensures count { vec_len result ≡ vec_len attempts }
{
    let make = |_: usize, attempt: &mut Attempt<D>|
        ensures { (disk : D) → IsAttemptOn D.Disk disk attempt.old → IsAttemptOn D.Disk disk attempt.new }
    { attempt.make(alloc) };
    let mut attempts = attempts;
    thread::for_each_mut(rt, attempts.as_mut_slice(), thread_count(rt), &make);
    attempts
}

// How many processors there are; one, if the system does not say.
fn thread_count(rt: &impl Threads) -> usize
    ensures { 0 < result }
{
    match thread::available_parallelism(rt) {
        Ok(count) => count.get(),
        Err(_) => 1,
    }
}

// The stores that these attempts give, in their order, if all are open and of one geometry.
fn gather<D: Disk>(
    alloc: Global,
    attempts: Vec<Attempt<D>>,
    cores: Vec<Core<D>>,
) -> Result<Vec<Core<D>>, SetFault<D>>
    requires count { IsShardCount (vec_len attempts) }
    requires on { (disks : List D) × AllZip (IsAttemptOn D.Disk) disks attempts.items }
    requires none { cores.items ≡ [] }
    requires room { vec_len attempts ≤ vec_capacity cores }
    ensures opens { (disks : List D) → AllZip (IsAttemptOn D.Disk) disks attempts.items
        → IfOk result (λ cores. AllZip (λ disk core. Opens D.Disk (D.content disk) core) disks cores.items) }
    ensures count { IfOk result (λ cores. vec_len cores ≡ vec_len attempts) }
    ensures shape { IfOk result (λ cores. AreOfOneShape cores.items) }
    ensures cause { (disks : List D) → AllZip (IsAttemptOn D.Disk) disks attempts.items
        → IfErr result (λ fault. IsRefusedSet D.Disk disks fault.shard fault.disk fault.cause) }
{
    let mut cores = cores;
    for attempt in attempts {
        match next_store(attempt.outcome(alloc), cores.as_slice()) {
            Ok(core) => cores.push_reserved(core),
            Err(fault) => return Err(fault),
        }
    }
    Ok(cores)
}

// The store of the next shard, behind those that are open, if this opening of it gave one like them.
fn next_store<D: Disk>(
    opened: Result<Core<D>, OpenFault<D>>,
    cores: &[Core<D>],
) -> Result<Core<D>, SetFault<D>>
    requires { length cores.now < most_shards }
    ensures opens { (disk : D) → GivesFor D.Disk disk opened → IfOk result (Opens D.Disk (D.content disk)) }
    ensures like { IfOk result (IsLike cores.now) }
    ensures shard { IfErr result (λ fault. fault.shard ≡ length cores.now) }
    ensures cause { (disk : D) → GivesFor D.Disk disk opened → (count : ℕ) (first : D) → IfSome (slice_get cores.now 0) (Opens D.Disk (D.content first))
        → IfErr result (λ fault. CausedAt D.Disk count (length cores.now) first disk fault.disk fault.cause) }
    ensures images { (disk : D) → GivesFor D.Disk disk opened → IfErr result (λ fault. LeavesNoOther (D.content disk) (D.content fault.disk)) }
{
    let shard = cores.len() as u32;
    let core = match opened {
        Ok(core) => core,
        Err(OpenFault { disk, refusal }) => {
            return Err(SetFault {
                shard,
                disk,
                cause: SetCause::Refused(refusal),
            });
        }
    };
    if is_like(&core, cores) {
        return Ok(core);
    }
    Err(SetFault {
        shard,
        disk: core.close(),
        cause: SetCause::NotDue(MarkFault::OtherGeometry),
    })
}

// Whether a store has the geometry of the first of these, if there is one.
fn is_like<D: Disk>(core: &Core<D>, cores: &[Core<D>]) -> bool
    ensures { IsTrue result ↔ IsLike cores.now core.now }
{
    match cores.first() {
        Some(first) => core.geometry() == first.geometry(),
        None => true,
    }
}
