// A store that is opened, or not.
ghost use Rattle.std.specs.Prelude.{◌≡◌, IfErr, IfOk, IsOkAnd};
ghost use Rattle.silt_jobs.specs.Common.{IsSomeAnd, Says, Unmarked, Opens};
ghost use Rattle.silt_jobs.specs.Ended.{Refuses};
ghost use Rattle.silt_jobs.specs.Openings.{IsNotOpened, IsRefused, IsUnopened, IsWhy};

use crate::jobs::damage_at;
use crate::people::{Ended, Why};
use silt_disk::Disk;
use silt_shards::{SetCause, check_unmarked};
use silt_store_set::Core;
use std::alloc::Global;
use std::io::Write;

/// Why there is no opened store, and its disk, if there is one.
#[derive(Drop)]
pub struct NotOpened<E, D: Disk> {
    disk: Option<D>,
    why: Why<E, D::Fault>,
}

impl<E: Drop, D: Disk> NotOpened<E, D> {
    /// Refuses the job for this reason. Returns the disk.
    pub fn refuse<W: Write>(self, alloc: Global, writer: &mut W) -> (Option<D>, Ended<E, D::Fault>)
        ensures disk { result.0 ≡ self.disk }
        ensures printed { Refuses self.why result.1 (W.contents writer.old) (W.contents writer.new) }
    {
        let NotOpened { disk, why } = self;
        (disk, Ended::refuse(alloc, why, writer))
    }
}

/// Opens the store of its own on the disk that a source gave, if it gave one. A shard of a set is refused.
pub fn open_store<E: Drop, D: Disk>(
    alloc: Global,
    given: Result<D, E>,
) -> Result<Core<D>, NotOpened<E, D>>
    ensures opened { IfOk result (λ core. IsOkAnd given (λ disk. Opens D.Disk (D.content disk) core)) }
    ensures alone { IfOk result (λ core. IsOkAnd given (λ disk. Says D.Disk disk Unmarked)) }
    ensures refused { IfErr result (λ unopened. IsNotOpened D.Disk given unopened.disk unopened.why) }
{
    match given {
        Ok(disk) => open_alone(alloc, disk),
        Err(error) => Err(NotOpened {
            disk: None,
            why: Why::NoDisk(error),
        }),
    }
}

// Opens the store on a disk, unless it is a shard of a set.
fn open_alone<E: Drop, D: Disk>(alloc: Global, disk: D) -> Result<Core<D>, NotOpened<E, D>>
    ensures opened { IfOk result (Opens D.Disk (D.content disk)) }
    ensures alone { IfOk result (λ core. Says D.Disk disk Unmarked) }
    ensures refused { IfErr result (λ unopened. IsSomeAnd unopened.disk (λ new. IsRefused D.Disk (D.content disk) new unopened.why)) }
{
    match check_unmarked(&disk) {
        Ok(()) => open_on(alloc, disk),
        Err(cause) => {
            let why = why_of(&disk, cause);
            Err(NotOpened {
                disk: Some(disk),
                why,
            })
        }
    }
}

/// Opens the store on a disk, which may be a shard of a set.
pub fn open_on<E: Drop, D: Disk>(alloc: Global, disk: D) -> Result<Core<D>, NotOpened<E, D>>
    ensures opened { IfOk result (Opens D.Disk (D.content disk)) }
    ensures refused { IfErr result (λ unopened. IsSomeAnd unopened.disk (λ new. IsUnopened D.Disk (D.content disk) new unopened.why)) }
{
    match Core::open(alloc, disk) {
        Ok(core) => Ok(core),
        Err(fault) => {
            let at = damage_at(&fault.disk, &fault.refusal);
            Err(NotOpened {
                disk: Some(fault.disk),
                why: Why::Refused(fault.refusal, at),
            })
        }
    }
}

/// Why a job is refused, by what is wrong with a file, and its disk.
pub fn why_of<E, D: Disk>(disk: &D, cause: SetCause<D::Fault>) -> Why<E, D::Fault>
    ensures { IsWhy cause result }
{
    match cause {
        SetCause::NotDue(fault) => Why::NotDue(fault),
        SetCause::Refused(refusal) => {
            let at = damage_at(disk, &refusal);
            Why::Refused(refusal, at)
        }
    }
}
