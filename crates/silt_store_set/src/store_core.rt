// The store on one device: what it holds in memory, and its calls.
ghost use Rattle.std.specs.Prelude.{◌≡◌, ◌+◌, ◌<◌, ◌≤◌, ◌↔◌, length, slice_range, [], true, false, not, Some, None, Ok, All, IsTrue, IfOk, IfErr, IfSome, OnErr, MatchResult};
ghost use Rattle.std.specs.Option.{option_map};
ghost use Rattle.silt_event.specs.Events.{Legal};
ghost use Rattle.silt_disk.specs.Disk.{LeavesOnly};

use crate::basis::Basis;
use crate::replies::{
    accepted, awaits_region, copied, failed_count, is_work, progressed, swapped, zeros,
};
use crate::{Event, Facts, Progress, Refusal, Reply};
use silt_disk::{Disk, Geometry};
use silt_engine::{ConvertError, Engine, EntriesError, MergeError, WriteError};
use silt_event::bytes_of;
use silt_frame::{Key, Kind, Value};
use silt_hasher::LentBytes;
use silt_manifest::{Body, Digests};
use std::alloc::{AllocError, Global};
use std::collections::BTreeMap;
use std::marker::Model;

// The most bytes of a value.
const MOST_VALUE_LEN: usize = 4096;

/// The most commands that one life of a store accepts.
pub const MOST_COMMANDS: u64 = (1 << 63) - 1;

/// A device on which no store was opened, and why.
#[derive(Drop)]
pub struct OpenFault<D: Disk> {
    pub disk: D,
    pub refusal: Refusal<D::Fault>,
}

/// What a look at a key says.
#[derive(Clone, Copy)]
pub struct Look {
    /// How many commands are accepted.
    pub count: u64,
    /// Whether the key has a value.
    pub found: bool,
    /// Whether no waiting command changes the key. Then the acknowledged commands alone give this answer, and a crash
    /// keeps it.
    pub is_settled: bool,
}

/// A store on a device. Gets see all accepted commands, and a crash keeps all acknowledged ones.
#[derive(Drop)]
pub struct Core<D: Disk> {
    disk: D,
    engine: Engine,
    // How many commands this life has accepted.
    count: u64,
    failed: bool,
    // If the store is failed, what its failing call began with.
    basis: Basis<D>,
}

impl<D: Disk> Model for Core<D> {
    ghost use Rattle.std.specs.Coded.{codes};
    ghost use Rattle.silt_event.specs.Commands.{map_code};
    ghost use Rattle.silt_standing.specs.Standing.{full_image};
    ghost use Rattle.silt_store_set.specs.Basis.{basis_kept, basis_of};
    ghost use Rattle.silt_store_set.specs.CoreState.{CoreState, convert_work, merge_work};
    ghost use Rattle.silt_store_set.specs.CoreInvariant.{IsCore};

    ghost Value = { CoreState D };

    ghost coded = { Prim.hlevel (codes, map_code) };

    ghost view = { λ a. record {
      disk = a.disk;
      shape = a.engine.manifest.shape;
      body = a.engine.manifest.current;
      full = full_image (D.content a.disk) a.engine;
      base = (basis_kept a.failed a.basis (basis_of (D.content a.disk) a.engine)).base;
      waiting = (basis_kept a.failed a.basis (basis_of (D.content a.disk) a.engine)).waiting;
      converting = convert_work a.engine.converting;
      merging = merge_work a.engine.merging;
      charge = a.engine.charge;
      count = a.count;
      failed = a.failed;
    } };

    ghost invariant = { λ a. IsCore (D.content a.disk) a.engine a.count a.failed a.basis };
}

impl<D: Disk> Core<D> {
    ghost use Rattle.std.specs.Prelude.{IsErrOf, OnOk};
    ghost use Rattle.std.specs.BTreeMap as tree;
    ghost use Rattle.std.specs.FinMap.{get};
    ghost use Rattle.silt_frame.specs.declared.key.Key.{Key as KeyOf};
    ghost use Rattle.silt_log.specs.Rows.{IsValueOf};
    ghost use Rattle.silt_recovery.specs.Opening.{CostsOpening, LeavesNoOther};
    ghost use Rattle.silt_event.specs.Commands.{map_after};
    ghost use Rattle.silt_image.specs.Meaning.{StandsFor};
    ghost use Rattle.silt_standing.specs.Standing.{SameDisk};
    ghost use Rattle.silt_engine.specs.Calls.{HoldsPrefix};
    ghost use Rattle.silt_engine.specs.Lookup.{changes_key};
    ghost use Rattle.silt_store_set.specs.CoreInvariant.{LeavesBegun};
    ghost use Rattle.silt_frame.specs.Rows.{key_cmp};
    ghost use Rattle.silt_store_set.specs.CoreState.{CoreState, Does, Runs, Opens, EntriesCause, IsRefusedRead, IsWithinSteps, StandsKept};
    ghost use Rattle.silt_store_set.specs.CoreState.{map_of, MayWrite, may_merge, row_event, wants_convert, wants_merge};
    ghost use Rattle.silt_store_set.specs.Costs.{RunMade};
    ghost use Rattle.silt_store_set.specs.Facts.{NamesDigests, NamesMap, facts_of};
    ghost use Rattle.silt_disk.specs.Layout.{device_size};
    ghost use Rattle.silt_disk.specs.declared.disk.Call.TheVariants as DiskCall;
    ghost use Rattle.silt_event.specs.Events.{HasValueOf, Step};
    ghost use Rattle.silt_store_set.specs.Opening.{OpeningCause, RefusalMakes};
    ghost use Rattle.silt_store_set.specs.Replies.{change_reply, flush_reply, found_of, get_reply, read_reply, progress_reply, swap_reply};
    ghost use Rattle.silt_event.specs.declared.event.Event.TheVariants.{Put, Delete, Swap, Get, Flush, Convert, Merge};

    /// Opens a store on a device that a crash may have left. It costs one sync of the device. If the active log has open
    /// commit bytes past the first closed one, it costs one write and two syncs.
    ///
    /// # Errors
    ///
    /// The first finding (`NotFormatted`, `Damaged`, `Crowded`), and then nothing is written; `Device` with the fault
    /// of a device call; `NoMemory`.
    pub fn open(alloc: Global, disk: D) -> Result<Core<D>, OpenFault<D>>
        ensures ok { IfOk result (Opens D.Disk (D.content disk)) }
        ensures same { IfErr result (λ fault. SameDisk (D.content disk) (D.content fault.disk)) }
        ensures cause { IfErr result (λ fault. OpeningCause D.Disk (D.content disk) fault.disk fault.refusal) }
        ensures made { MatchResult result (λ core. CostsOpening D.content D.writes D.syncs disk core.disk) (λ fault. RefusalMakes D.Disk disk fault.disk fault.refusal) }
        ensures images { MatchResult result (λ core. LeavesNoOther (D.content disk) (D.content core.disk)) (λ fault. LeavesNoOther (D.content disk) (D.content fault.disk)) }
    {
        match silt_recovery::open(alloc, disk) {
            Ok(opened) => {
                let held = opened.held;
                let engine = Engine::new(
                    held.manifest,
                    held.active,
                    held.frozen,
                    held.hashes,
                    held.sorted,
                    held.charge,
                );
                Ok(Core {
                    basis: Basis::of(&opened.disk, &engine),
                    disk: opened.disk,
                    engine,
                    count: 0,
                    failed: false,
                })
            }
            Err(fault) => Err(OpenFault {
                disk: fault.disk,
                refusal: Refusal::from(fault.error),
            }),
        }
    }

    /// The six numbers of the store.
    pub fn geometry(&self) -> Geometry
        ensures { result ≡ self.now.shape }
    {
        self.engine.geometry()
    }

    /// How many commands this life has accepted.
    pub fn count(&self) -> u64
        ensures { result ≡ self.now.count }
    {
        self.count
    }

    /// Its numbers at this moment, also of a failed store. It asks nothing of the device.
    pub fn facts(&self) -> Facts
        ensures { result ≡ facts_of self.now }
    {
        let body = self.engine.body();
        Facts {
            stores: 1,
            failed: failed_count(self.failed),
            commands: self.count,
            charge: self.engine.charge() as u64,
            capacity: self.engine.geometry().sorted_capacity() as u64,
            generation: body.generation,
            frozen_logs: body.frozen.len() as u64,
            hash_stores: body.hashed.len() as u64,
            sorted_entries: body.sorted_count as u64,
            converted_slots: self.engine.slots_converted() as u64,
            merge_steps: self.engine.merge_steps(),
        }
    }

    /// Which regions the current manifest record names, and the digests of the stores in them: of the hash stores, the newest
    /// first, and of the sorted store. These stores represent the base. It asks nothing of the device.
    pub fn named(&self) -> (Body, Digests)
        ensures body { result.0 ≡ self.now.body }
        ensures map { self.now.failed ≡ false → NamesMap (D.content self.now.disk) self.now.shape self.now.body self.now.base }
        ensures digests { self.now.failed ≡ false → NamesDigests (D.content self.now.disk) self.now.shape self.now.body result.1 }
    {
        (self.engine.body(), self.engine.own_digests())
    }

    /// Reads bytes of the device from `at` on. After a fault the buffer may hold any bytes.
    pub fn read_at(&self, at: u64, buf: &mut [u8]) -> Result<(), D::Fault>
        requires { at + length buf.old ≤ device_size self.now.shape }
        ensures bytes { IsTrue (D.content self.now.disk).honest
            → OnOk result (buf.new ≡ slice_range (D.content self.now.disk).shown at (at + length buf.old)) }
        ensures fault { IfErr result (λ fault. D.gave self.now.disk fault DiskCall.Read at (length buf.old)) }
    {
        self.disk.read(at, buf)
    }

    /// States what is true of the store at every moment, and does nothing. Each possible crash image of its device
    /// represents the base or, if the store is failed, the base after some first part of the waiting commands. Its map
    /// is the base after all of them, and no more wait than this life has accepted. A failed store has both as its
    /// failing call began. A merge in progress has a step left.
    pub fn standing(&self)
        ensures safe { self.now.failed ≡ false → LeavesOnly (D.content self.now.disk) (StandsFor self.now.shape self.now.base) }
        ensures begun { LeavesOnly (D.content self.now.disk) (HoldsPrefix self.now.shape self.now.base self.now.waiting) }
        ensures has_map { IsTrue (D.content self.now.disk).honest → map_of self.now ≡ map_after self.now.base self.now.waiting }
        ensures few { IsTrue (D.content self.now.disk).honest → length self.now.waiting ≤ self.now.count }
        ensures merging { self.now.failed ≡ false → IsTrue (D.content self.now.disk).honest → IfSome self.now.merging (IsWithinSteps self.now) }
    {
        let _known = &self.disk; // the store is as it was made
    }

    /// Sets the value of a key, and returns how many commands this life has accepted, this one included.
    ///
    /// The checks are in this order: `Failed`, `Spent` (the count), `StoreFull`, the reads of its lookup (`Device`),
    /// `NoRoom`, `Spent` (the generation), `NoMemory`, its writes (`Device`). It needs memory only if the active log
    /// cannot take the row and a new log is started. A put costs two writes of the device and no sync. If a new log is
    /// started, it costs six writes and four syncs, and a flush's if a row waits.
    pub fn put(&mut self, alloc: Global, key: &Key, value: &[u8]) -> Result<u64, Refusal<D::Fault>>
        requires { length value.now ≡ self.old.shape.value_len }
        ensures { Does D.Disk self.old self.new (Put key.now value.now) (change_reply result) }
    {
        if self.failed {
            return Err(Refusal::Failed);
        }
        if self.count == MOST_COMMANDS {
            return Err(Refusal::Spent);
        }
        if self.engine.charge() == self.engine.geometry().sorted_capacity() {
            return Err(Refusal::StoreFull);
        }
        self.write_row(alloc, Kind::Put, key, value)
    }

    /// Deletes a key's value, and returns how many commands this life has accepted, this one included.
    ///
    /// The checks are those of a put, without `StoreFull`.
    pub fn delete(&mut self, alloc: Global, key: &Key) -> Result<u64, Refusal<D::Fault>>
        ensures { Does D.Disk self.old self.new (Delete key.now) (change_reply result) }
    {
        if self.failed {
            return Err(Refusal::Failed);
        }
        if self.count == MOST_COMMANDS {
            return Err(Refusal::Spent);
        }
        let zeros = zeros(self.engine.geometry().value_len());
        self.write_row(alloc, Kind::Delete, key, zeros)
    }

    /// Compare and swap: sets the value of a key to `new` if its value is `old`, and returns how many commands this life
    /// has accepted, this one included. If the key has another value, it returns `None` and changes nothing. `None` for
    /// `old` expects that the key has no value, and `None` for `new` deletes the key.
    ///
    /// The checks are in this order: `Failed`, the reads of the key's value (`Device`), the comparison (`None`), and then
    /// those of a put or of a delete, from `Spent` (the count) on.
    pub fn swap(
        &mut self,
        alloc: Global,
        key: &Key,
        old: Option<&[u8]>,
        new: Option<&[u8]>,
    ) -> Result<Option<u64>, Refusal<D::Fault>>
        requires old { IfSome old (λ value. length value.now ≡ self.old.shape.value_len) }
        requires new { IfSome new (λ value. length value.now ≡ self.old.shape.value_len) }
        ensures { Does D.Disk self.old self.new (Swap key.now (option_map (λ value. value.now) old.entry) (option_map (λ value. value.now) new.entry)) (swap_reply result) }
    {
        if self.failed {
            return Err(Refusal::Failed);
        }
        if !self.holds(key, old)? {
            return Ok(None);
        }
        match new {
            Some(value) => Ok(Some(self.put(alloc, key, value)?)),
            None => Ok(Some(self.delete(alloc, key)?)),
        }
    }

    // Whether the key has this value, or none. The buffer has room for the longest value, so that a row takes one read.
    fn holds(&self, key: &Key, value: Option<&[u8]>) -> Result<bool, Refusal<D::Fault>>
        requires working { self.now.failed ≡ false }
        requires value { IfSome value (λ value. length value.now ≡ self.now.shape.value_len) }
        ensures holds { IsTrue (D.content self.now.disk).honest
            → IfOk result (λ holds. IsTrue holds ↔ (get (map_of self.now) key.now.0 ≡ option_map (λ value. value.now) value.entry)) }
        ensures fault { IfErr result (λ refusal. IsRefusedRead D.Disk self.now refusal) }
    {
        let mut longest = [0; MOST_VALUE_LEN];
        let out = &mut longest[..self.engine.geometry().value_len() as usize];
        match self.engine.get(&self.disk, key, out) {
            Ok(true) => match value {
                Some(value) => Ok(*out == *value),
                None => Ok(false),
            },
            Ok(false) => Ok(value.is_none()),
            Err(fault) => Err(Refusal::Device(fault)),
        }
    }

    // Writes a row behind the others, or in a new log if the active one cannot take it.
    fn write_row(
        &mut self,
        alloc: Global,
        kind: Kind,
        key: &Key,
        value: &[u8],
    ) -> Result<u64, Refusal<D::Fault>>
        requires may { MayWrite kind self.old }
        requires value { length value.now ≡ self.old.shape.value_len }
        requires zeros { IsValueOf kind value.now }
        ensures { Does D.Disk self.old self.new (row_event kind key.now value.now) (change_reply result) }
    {
        let _known = self.engine.geometry().logs(); // at least two
        let basis = Basis::of(&self.disk, &self.engine);
        match self.engine.write(alloc, &mut self.disk, kind, key, value) {
            Ok(()) => {
                self.count += 1;
                Ok(self.count)
            }
            Err(WriteError::Write(fault)) => {
                self.failed = true; // the row or the manifest may stand in part
                self.basis = basis;
                Err(Refusal::Device(fault))
            }
            Err(WriteError::Read(fault)) => Err(Refusal::Device(fault)),
            Err(WriteError::NoRoom) => Err(Refusal::NoRoom),
            Err(WriteError::Spent) => Err(Refusal::Spent),
            Err(WriteError::NoMemory) => Err(Refusal::NoMemory),
        }
    }

    /// Acknowledges all commands accepted so far, and returns their number. It costs one write of the device between two
    /// syncs. If no row waits it makes no device call.
    pub fn flush(&mut self) -> Result<u64, Refusal<D::Fault>>
        ensures { Does D.Disk self.old self.new Flush (flush_reply result) }
    {
        if self.failed {
            return Err(Refusal::Failed);
        }
        let basis = Basis::of(&self.disk, &self.engine);
        match self.engine.flush(&mut self.disk) {
            Ok(()) => Ok(self.count),
            Err(fault) => {
                self.failed = true; // some of the commit bytes may be open
                self.basis = basis;
                Err(Refusal::Device(fault))
            }
        }
    }

    /// Writes a key's value over `out`, and returns how many commands are accepted, whether the key has a value, and
    /// whether a crash keeps this answer. If there is no value, `out` stays as it was.
    pub fn look(&self, key: &Key, out: &mut [u8]) -> Result<Look, Refusal<D::Fault>>
        requires { length out.old ≡ self.now.shape.value_len }
        ensures reply { Does D.Disk self.now self.now (Get key.now) (get_reply out.new (found_of result)) }
        ensures count { IfOk result (λ look. look.count ≡ self.now.count) }
        ensures settled { IsTrue (D.content self.now.disk).honest → IfOk result (λ look. look.is_settled ≡ not (changes_key self.now.waiting key.now.0)) }
        ensures kept { IsTrue (D.content self.now.disk).honest → IfOk result (λ look. look.is_settled ≡ true → Step self.now.base (Get key.now) (get_reply out.new (found_of result)) self.now.base) }
        ensures absent { found_of result ≡ Ok false → out.new ≡ out.old }
        ensures memory { ¬ IsErrOf result Refusal.NoMemory }
    {
        if self.failed {
            return Err(Refusal::Failed);
        }
        match self.engine.look_up(&self.disk, key, out) {
            Ok(lookup) => Ok(Look {
                count: self.count,
                found: lookup.found,
                is_settled: lookup.is_settled,
            }),
            Err(fault) => Err(Refusal::Device(fault)),
        }
    }

    /// Writes a key's value over `out`, and returns whether there is one. If there is none, `out` stays as it was.
    pub fn get(&self, key: &Key, out: &mut [u8]) -> Result<bool, Refusal<D::Fault>>
        requires { length out.old ≡ self.now.shape.value_len }
        ensures reply { Does D.Disk self.now self.now (Get key.now) (get_reply out.new result) }
        ensures absent { result ≡ Ok false → out.new ≡ out.old }
        ensures memory { ¬ IsErrOf result Refusal.NoMemory }
    {
        match self.look(key, out) {
            Ok(look) => Ok(look.found),
            Err(refusal) => Err(refusal),
        }
    }

    // Returns a key's value. The buffer has room for the longest value, so that a row takes one read, and memory is
    // allocated only if there is a value.
    fn read(&self, alloc: Global, key: &Key) -> Result<Option<Value>, Refusal<D::Fault>>
        ensures { Does D.Disk self.now self.now (Get key.now) (read_reply result) }
    {
        if self.failed {
            return Err(Refusal::Failed);
        }
        let mut longest = [0; MOST_VALUE_LEN];
        let out = &mut longest[..self.engine.geometry().value_len() as usize];
        match self.engine.get(&self.disk, key, out) {
            Ok(true) => match copied(alloc, out) {
                Ok(value) => Ok(Some(value)),
                Err(_) => Err(Refusal::NoMemory),
            },
            Ok(false) => Ok(None),
            Err(fault) => Err(Refusal::Device(fault)),
        }
    }

    /// Does one step of the conversion of the oldest frozen log into a hash store. If none is in progress, it returns
    /// `Idle` if no log is frozen and `Waiting` if no hash region is free; else the conversion begins. Each step writes
    /// one slot, by one write of the device, and returns `Moved`. The step after the last slot syncs, writes the
    /// manifest and returns `Finished`: three writes and four syncs.
    ///
    /// The checks are in this order: `Failed`, `Spent` (the generation, if the step writes the manifest), the read of a
    /// row (`Device`) and `NoMemory` (only in a first step), its write or syncs (`Device`).
    pub fn convert(&mut self, alloc: Global) -> Result<Progress, Refusal<D::Fault>>
        ensures { Does D.Disk self.old self.new Convert (progress_reply result) }
    {
        if self.failed {
            return Err(Refusal::Failed);
        }
        let basis = Basis::of(&self.disk, &self.engine);
        match self.engine.convert(alloc, &mut self.disk) {
            Ok(progress) => Ok(progress),
            Err(ConvertError::Write(fault)) => {
                self.failed = true; // a slot or the manifest may stand in part
                self.basis = basis;
                Err(Refusal::Device(fault))
            }
            Err(ConvertError::Read(fault)) => Err(Refusal::Device(fault)),
            Err(ConvertError::Spent) => Err(Refusal::Spent),
            Err(ConvertError::NoMemory) => Err(Refusal::NoMemory),
        }
    }

    /// Does one step of the merge of hash stores and the sorted store into a new sorted store. If none is in progress,
    /// it returns `Idle` if there is no hash store; else the merge of all of them begins. A step gathers one slot of a
    /// hash store, or decides one key, and returns `Moved`; it makes one write of the device if it writes an entry, and
    /// else none. The step after the last key syncs, writes the manifest and returns `Finished`: three writes and four
    /// syncs. A hash store that a conversion finishes meanwhile stays in front. It never returns `Waiting`.
    ///
    /// With the last slot of a hash store and with the last old entry it compares what was read of that store with the
    /// store's digest. If they differ it is refused, and nothing has changed. On an honest disk they do not.
    ///
    /// The checks are in this order: `Failed`, `Spent` (the generation, if the step writes the manifest), its read of
    /// slots or entries (`Device`), `Damaged` (the digest), the read of a value (`Device`), `NoMemory` (for a row that
    /// waits, for a key that has a value, and if it writes the manifest), its write or syncs (`Device`). Without memory
    /// for a row it reads the slot again (`Device`), and is refused with `Damaged` if that shows another row.
    pub fn merge(&mut self, alloc: Global) -> Result<Progress, Refusal<D::Fault>>
        ensures { Does D.Disk self.old self.new Merge (progress_reply result) }
    {
        if self.failed {
            return Err(Refusal::Failed);
        }
        let basis = Basis::of(&self.disk, &self.engine);
        match self.engine.merge(alloc, &mut self.disk) {
            Ok(merged) => Ok(merged),
            Err(MergeError::Write(fault)) => {
                self.failed = true; // an entry or the manifest may stand in part
                self.basis = basis;
                Err(Refusal::Device(fault))
            }
            Err(MergeError::Read(fault)) => Err(Refusal::Device(fault)),
            Err(MergeError::Spent) => Err(Refusal::Spent),
            Err(MergeError::Damaged(place)) => Err(Refusal::Damaged(place)),
            Err(MergeError::NoMemory) => Err(Refusal::NoMemory),
        }
    }

    /// Lends bytes that the merge in progress has read and not hashed yet, if they are 16 KiB or more, to be hashed with
    /// no lock held. Returns whether it did.
    pub fn lend_unhashed(&self, lent: &mut LentBytes) -> bool
        ensures none { result ≡ false → lent.new.bytes ≡ [] }
        ensures unhashed { lent.new.after ≡ None }
    {
        self.engine.lend_unhashed(lent)
    }

    /// Takes what was hashed meanwhile. If the merge in progress does not wait for it, it is ignored. The calls that
    /// follow do and return the same in either case; a step of merging has less to hash.
    pub fn take_hashed(&mut self, lent: &LentBytes)
        ensures { self.new ≡ self.old }
    {
        self.engine.take_hashed(lent);
    }

    /// Whether the store is not failed and there is a step of conversion to do. If nothing refuses it, the step returns
    /// `Moved` or `Finished`.
    pub fn wants_convert(&self) -> bool
        ensures { result ≡ wants_convert self.now }
    {
        !self.failed && is_work(self.engine.convert_turn())
    }

    /// Whether the store is not failed and there is a step of merging to do. If nothing refuses it, the step returns
    /// `Moved` or `Finished`.
    pub fn wants_merge(&self) -> bool
        ensures { result ≡ wants_merge self.now }
    {
        !self.failed && is_work(self.engine.merge_turn())
    }

    /// Whether the store is not failed and the next step of merging, if nothing refuses it, ends a merge.
    pub fn ends_merge(&self) -> bool {
        !self.failed && self.engine.merge_turn() == Progress::Finished
    }

    /// Whether there is a step of merging to do that goes on with a merge, or that begins one of at least this many hash
    /// stores. If a conversion waits for a hash region, any number is enough.
    pub fn may_merge(&self, least: u32) -> bool
        ensures { result ≡ may_merge self.now least }
    {
        if !self.wants_merge() {
            return false;
        }
        if self.engine.is_merging() {
            return true;
        }
        if self.engine.hash_stores() >= least as usize {
            return true;
        }
        awaits_region(self.engine.convert_turn())
    }

    /// Does one event. A get that is out of memory for its value is refused with `NoMemory`.
    pub fn answer(&mut self, alloc: Global, event: &Event) -> Reply<D::Fault>
        requires { HasValueOf self.old.shape.value_len event.now }
        ensures { Does D.Disk self.old self.new event.now result }
    {
        match event {
            Event::Put(key, value) => accepted(self.put(alloc, key, value.as_slice())),
            Event::Delete(key) => accepted(self.delete(alloc, key)),
            Event::Swap(key, old, new) => {
                swapped(self.swap(alloc, key, bytes_of(old), bytes_of(new)))
            }
            Event::Flush => match self.flush() {
                Ok(count) => Reply::Acknowledged(count),
                Err(refusal) => Reply::Refused(refusal),
            },
            Event::Get(key) => match self.read(alloc, key) {
                Ok(Some(value)) => Reply::Found(value),
                Ok(None) => Reply::Absent,
                Err(refusal) => Reply::Refused(refusal),
            },
            Event::Convert => progressed(self.convert(alloc)),
            Event::Merge => progressed(self.merge(alloc)),
        }
    }

    /// Does events in order, and returns a reply to each. What it costs is the sum of what the events cost (`RunMade`).
    ///
    /// # Errors
    ///
    /// Out of memory for the list of replies. Then no event is done.
    pub fn run(
        &mut self,
        alloc: Global,
        events: &[Event],
    ) -> Result<Vec<Reply<D::Fault>>, AllocError>
        requires { All (HasValueOf self.old.shape.value_len) events.now }
        ensures same { SameDisk (D.content self.old.disk) (D.content self.new.disk) }
        ensures runs { IfOk result (λ replies. Runs D.Disk self.old events.now replies.items self.new) }
        ensures legal { IsTrue (D.content self.old.disk).honest → IfOk result (λ replies. Legal self.old.count (map_of self.old) events.now replies.items self.new.count (map_of self.new)) }
        ensures kept { self.old.failed ≡ false → IfOk result (λ replies. LeavesOnly (D.content self.new.disk) (StandsKept self.old events.now replies.items)) }
        ensures made { IfOk result (λ replies. RunMade D.Disk self.old events.now replies.items self.new) }
        ensures err { OnErr result (self.new ≡ self.old) }
    {
        let _known = &self.disk; // the store is as it was made
        let mut replies = Vec::with_capacity(alloc, events.len())?;
        for event in events {
            let reply = self.answer(alloc, event);
            replies.push(reply)?;
        }
        Ok(replies)
    }

    /// All keys with their values.
    ///
    /// # Errors
    ///
    /// `Failed`, `Device` with the fault of a read, `NoMemory`.
    pub fn entries(&self, alloc: Global) -> Result<BTreeMap<Key, Value>, Refusal<D::Fault>>
        ensures entries { IsTrue (D.content self.now.disk).honest → IfOk result (λ entries. (key : KeyOf) → tree.get key_cmp entries key ≡ get (map_of self.now) key.0) }
        ensures working { OnOk result (self.now.failed ≡ false) }
        ensures cause { IfErr result (EntriesCause D.Disk self.now) }
    {
        if self.failed {
            return Err(Refusal::Failed);
        }
        match self.engine.entries(alloc, &self.disk) {
            Ok(entries) => Ok(entries),
            Err(EntriesError::Device(fault)) => Err(Refusal::Device(fault)),
            Err(EntriesError::NoMemory) => Err(Refusal::NoMemory),
        }
    }

    /// Gives the device back. Each possible crash image of it represents the base or, if the store is failed, the base
    /// after some first part of the commands that waited; both are as its failing call began.
    pub fn close(self) -> D
        ensures disk { result ≡ self.disk }
        ensures safe { self.failed ≡ false → LeavesOnly (D.content result) (StandsFor self.shape self.base) }
        ensures begun { LeavesOnly (D.content result) (HoldsPrefix self.shape self.base self.waiting) }
        ensures left { LeavesBegun (D.content result) self.shape }
    {
        let Core {
            disk,
            engine: _,
            count: _,
            failed: _,
            basis: _,
        } = self;
        disk
    }
}
