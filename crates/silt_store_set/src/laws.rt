// Laws of stores, for the callers.
ghost use Rattle.silt_store_set.specs.FailedLaw.{FailedLaw};

use silt_disk::Disk;

/// If a store fails in the call after an acknowledged flush, no possible crash image has lost an acknowledged row: each
/// image that represents the failed store's base after some first part of the waiting commands has the acknowledged
/// map.
pub fn failed_law<D: Disk>()
    ensures { FailedLaw D.Disk }
{}
