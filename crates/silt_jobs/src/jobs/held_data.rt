// The data on a disk before a format, and whether it may be overwritten.
ghost use Rattle.std.specs.Prelude.{◌≡◌, IsTrue, Result as ResultOf};
ghost use Rattle.silt_jobs.specs.declared.jobs.held_data.Holding.{Holding as HoldingOf};
ghost use Rattle.silt_jobs.specs.HeldData.{HasCharge, IsFoundStore, FindsData, has_magic, is_empty, overwritten, store_overwritten};

use crate::jobs::geometry_on;
use crate::people::Why;
use crate::plans::NumbersText;
use silt_disk::{Disk, Geometry, HEADER_LEN};
use silt_recovery::check;
use silt_store_set::Refusal;
use std::alloc::Global;
use std::fmt;

/// The known facts of a store on a disk.
#[derive(Clone, Copy, Debug, PartialEq, Eq)]
pub struct HeldStore {
    /// Its six numbers, if its header is whole and can be read.
    pub geometry: Option<Geometry>,
    /// How many put rows and sorted entries it has, at least as many as its keys. None if it is damaged or cannot be
    /// read.
    pub charge: Option<u32>,
}

impl HeldStore {
    // Whether it is known to have no keys.
    fn is_empty(&self) -> bool
        ensures { result ≡ is_empty self.now }
    {
        matches!(self.charge, Some(0))
    }
}

// Its numbers in brackets, and how many keys it has at most, or that it is damaged or cannot be read.
impl fmt::Display for HeldStore {
    fn fmt<W: fmt::Write>(&self, f: &mut fmt::Formatter<W>) -> fmt::Result {
        if let Some(geometry) = self.geometry {
            let numbers = NumbersText(geometry);
            write!(f, " ({numbers})")?;
        }
        match self.charge {
            Some(charge) => write!(f, " of at most {charge} keys"),
            None => f.write_str(" that is damaged or cannot be read"),
        }
    }
}

/// The data on a disk.
#[derive(Clone, Copy, Debug, PartialEq, Eq)]
pub enum Holding {
    /// It has no bytes.
    Nothing,
    /// A store of this program, whole or not.
    Store(HeldStore),
    /// Something else.
    Other,
}

/// Reads the data on a disk before a format. Returns the store that is to be overwritten, if there is one, or why the data
/// stays: without force only an empty disk or a store without keys may be overwritten.
pub fn may_overwrite<E: Drop, D: Disk>(
    alloc: Global,
    disk: &D,
    force: bool,
) -> Result<Option<HeldStore>, Why<E, D::Fault>>
    ensures { (look : ResultOf HoldingOf D.Fault) × FindsData D.Disk disk.now look × (result ≡ overwritten force look) }
{
    match look(alloc, disk) {
        Ok(Holding::Nothing) => Ok(None),
        Ok(Holding::Store(store)) => overwrite_store(store, force),
        Ok(Holding::Other) if force => Ok(None),
        Ok(Holding::Other) => Err(Why::Holds(Holding::Other)),
        Err(_) if force => Ok(None),
        Err(fault) => Err(Why::Refused(Refusal::Device(fault), None)),
    }
}

// The store, if it is to be overwritten, or that it stays.
fn overwrite_store<E: Drop, F: Drop>(
    store: HeldStore,
    force: bool,
) -> Result<Option<HeldStore>, Why<E, F>>
    ensures { result ≡ store_overwritten force store }
{
    if force || store.is_empty() {
        Ok(Some(store))
    } else {
        Err(Why::Holds(Holding::Store(store)))
    }
}

// The data on a disk, or the fault of the read.
fn look<D: Disk>(alloc: Global, disk: &D) -> Result<Holding, D::Fault>
    ensures { FindsData D.Disk disk.now result }
{
    if disk.len() == 0 {
        return Ok(Holding::Nothing);
    }
    if disk.len() < HEADER_LEN as u64 {
        return Ok(Holding::Other);
    }
    let mut header = [0; HEADER_LEN];
    disk.read(0, &mut header)?;
    if !has_magic(&header) {
        return Ok(Holding::Other);
    }
    Ok(Holding::Store(held_store(alloc, disk)))
}

// Whether the bytes after the commit byte of a header belong to a store of this program.
fn has_magic(header: &[u8; HEADER_LEN]) -> bool
    ensures { result ≡ has_magic header.now }
{
    &header[1..9] == b"SILTFLSH".as_slice()
}

// The known facts of the store on a disk.
fn held_store<D: Disk>(alloc: Global, disk: &D) -> HeldStore
    ensures { IsTrue (D.content disk.now).honest → IsFoundStore D.Disk disk.now result }
{
    HeldStore {
        geometry: geometry_on(disk),
        charge: charge_on(alloc, disk),
    }
}

// The charge of the store on a disk, if no part of it is damaged and all of it can be read.
fn charge_on<D: Disk>(alloc: Global, disk: &D) -> Option<u32>
    ensures { IsTrue (D.content disk.now).honest → HasCharge D.Disk disk.now result }
{
    match check(alloc, disk) {
        Ok(report) => Some(report.charge),
        Err(_) => None,
    }
}
