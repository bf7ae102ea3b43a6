// An attempt to open the store on a disk.
ghost use Rattle.silt_shards.specs.Attempts.{GivesFor, IsAttemptOn};

use silt_disk::Disk;
use silt_store_set::{Core, OpenFault};
use std::alloc::Global;
use std::mem;

/// An attempt to open the store on a disk.
#[derive(Drop)]
pub enum Attempt<D: Disk> {
    /// It is still to be made.
    Due(D),
    /// It was made, and gave this.
    Made(Result<Core<D>, OpenFault<D>>),
    /// It was taken away, to make it.
    Taken,
}

impl<D: Disk> Attempt<D> {
    // Makes the attempt, if it is due.
    pub(crate) fn make(&mut self, alloc: Global)
        ensures { (disk : D) → IsAttemptOn D.Disk disk self.old → IsAttemptOn D.Disk disk self.new }
    {
        match mem::replace(self, Attempt::Taken) {
            Attempt::Due(disk) => *self = Attempt::Made(Core::open(alloc, disk)),
            made => *self = made,
        }
    }

    // What the attempt gives. It is made now, if it is still due.
    pub(crate) fn outcome(self, alloc: Global) -> Result<Core<D>, OpenFault<D>>
        requires { (disk : D) × IsAttemptOn D.Disk disk self }
        ensures { (disk : D) → IsAttemptOn D.Disk disk self → GivesFor D.Disk disk result }
    {
        match self {
            Attempt::Due(disk) => Core::open(alloc, disk),
            Attempt::Made(result) => result,
            Attempt::Taken => unreachable!(),
        }
    }
}
