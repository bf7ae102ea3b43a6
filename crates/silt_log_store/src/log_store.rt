// A log region with the table of its keys and the number of its puts, and the calls that change it.
ghost use Rattle.std.specs.Prelude.{◌≡◌, ◌==◌, ◌↔◌, ◌+◌, ◌-◌, ◌<◌, ◌≤◌, ◌++◌, ℕ, [], ◌∷◌, length, replicate, nat_lt, cond, false, true, IsTrue, IsSome, IfSome, None};
ghost use Rattle.std.specs.Prelude.{IsOkAnd, IfOk, IfErr, OnOk, OnErr, MatchResult};
ghost use Rattle.std.specs.List.{list_all};
ghost use Rattle.silt_cuckoo.specs.Slots.{empty_slots, entry_at};
ghost use Rattle.silt_cuckoo.specs.Index.{index_of_keys};
ghost use Rattle.silt_disk.specs.Disk.{Content, GaveAny, LeavesOnly, Rests, Writes, size};
ghost use Rattle.silt_disk.specs.Layout.{device_size, commits_at, row_len};
ghost use Rattle.silt_disk.specs.Wrote.{Wrote, WroteOr};
ghost use Rattle.silt_frame.specs.Commit.{commit_open};
ghost use Rattle.silt_frame.specs.Frame.{head_bytes};
ghost use Rattle.silt_log.specs.Calls.{HasBeginning};
ghost use Rattle.silt_log.specs.Rows.{IsRowValue, body_at, log_rows, row_at};
ghost use Rattle.silt_frame.specs.Rows.{has_known_kind, row_of};
ghost use Rattle.silt_log.specs.State.{IsScanned, all_rows, settled_rows};

use crate::index::KeyIndex;
use crate::lookup::{has_candidate, look_up, look_up_under, slot_of};
use crate::placement::{Placing, enter, plan_entry};
use crate::rebuild::{RebuildError, index_rows};
use silt_cuckoo::{Table, key_buckets};
use silt_disk::{Disk, Geometry};
use silt_frame::{HEAD_LEN, Key, Kind};
use silt_log::{Found, Log};
use std::alloc::{AllocError, Global};
use std::marker::Model;

/// The greatest length of a row, in bytes, that is read whole for its value.
const WHOLE_LEN: usize = 512;

/// Why a row was not taken.
#[derive(Debug, Drop)]
pub enum TakeError<F> {
    /// The log has no room, or the placing rule has no place for the key. Nothing has changed.
    Full,
    /// A read failed with this fault. Nothing has changed.
    Read(F),
    /// A write failed with this fault. The device may then show any bytes after the last row.
    Write(F),
}

/// A log region with the table of its keys, and how many of its rows are puts.
///
/// An honest disk is one that obeys the crash model. On another disk the calls are safe and end, but promise nothing about rows: a
/// look-up skips a row of an unknown kind. Only `new` and `rebuild` allocate memory.
#[derive(Drop)]
pub struct LogStore {
    log: Log,
    table: Table,
    puts: u32,
}

impl Model for LogStore {
    ghost use Rattle.silt_log_store.specs.State.{LogStoreState, IsHeldStore};

    ghost Value = { LogStoreState };

    ghost view = { λ a. record { log = a.log; table = a.table; puts = a.puts } };

    ghost invariant = { λ a. IsHeldStore (record { log = a.log; table = a.table; puts = a.puts }) };
}

impl LogStore {
    ghost use Rattle.silt_log.specs.State.{InBounds};
    ghost use Rattle.silt_log_store.specs.State.{LogStoreState, IsHeldStore, IsIndexed, IsLogStore, IsFrozenStore};
    ghost use Rattle.silt_frame.specs.Rows.{keys_of};
    ghost use Rattle.silt_log_store.specs.LastRow.{FindsLast};
    ghost use Rattle.silt_log.specs.Found.{put_place};
    ghost use Rattle.silt_log_store.specs.Calls.{CanTake, EmptiesStore, FailsTake, IsFailedWrite, IsFullFor, IsPlacingFor, KeepsStore, OpensSomeOfStore, OpensStore, SealsStore, TakesRow};
    ghost use Rattle.silt_log_store.specs.Rebuild.{IsRebuilt, IsFirstDamaged, IsFirstCrowded, IsRefusedRebuild};

    /// A store of this region with no rows and an empty table. `prepare` it before use.
    ///
    /// # Errors
    ///
    /// Out of memory: the commit bytes or the table could not be allocated.
    pub fn new(alloc: Global, geometry: Geometry, region: u32) -> Result<Self, AllocError>
        requires { region < geometry.logs }
        ensures { IfOk result (λ store. store ≡ record { log = record { shape = geometry; region = region; settled = 0; used = 0; stale = false }; table = empty_slots geometry.buckets; puts = 0 }) }
    {
        let log = Log::new(alloc, geometry, region)?;
        let table = Table::new(alloc, geometry.buckets())?;
        Ok(LogStore {
            log,
            table,
            puts: 0,
        })
    }

    /// The number of rows, with the waiting ones.
    pub fn len(&self) -> u32
        ensures value { result ≡ self.now.log.used }
        ensures held { IsHeldStore self.now }
    {
        self.log.len()
    }

    /// The number of puts among the rows, with the waiting ones.
    pub fn puts(&self) -> u32
        ensures value { result ≡ self.now.puts }
        ensures held { IsHeldStore self.now }
    {
        self.puts
    }

    /// Whether there is no row, not even a waiting one.
    pub fn is_empty(&self) -> bool
        ensures { result ≡ (self.now.log.used == 0) }
    {
        self.log.is_empty()
    }

    /// The number of rows that are settled behind open commit bytes. The rows from this one on wait.
    pub fn settled(&self) -> u32
        ensures value { result ≡ self.now.log.settled }
        ensures bounds { InBounds self.now.log }
    {
        self.log.settled()
    }

    /// Whether a row waits for its commit byte to be opened.
    pub fn has_waiting(&self) -> bool
        ensures value { result ≡ nat_lt self.now.log.settled self.now.log.used }
        ensures bounds { InBounds self.now.log }
    {
        self.log.has_waiting()
    }

    /// The geometry of the store.
    pub fn geometry(&self) -> Geometry
        ensures { result ≡ self.now.log.shape }
    {
        self.log.geometry()
    }

    /// The tag and the place in a slot of the table. `None` if the slot is free or past the last one.
    pub fn slot(&self, slot: u32) -> Option<(u32, u32)>
        ensures value { result ≡ entry_at self.now.table slot }
        ensures held { IsHeldStore self.now }
    {
        self.table.slot(slot as usize)
    }

    /// Closes all commit bytes of the region, and syncs. Then the store has no rows. The table must be empty and no put counted, as in a new
    /// store. Costs one write and one sync.
    ///
    /// # Errors
    ///
    /// The fault of the write or of the sync. The store has not changed.
    pub fn prepare<D: Disk>(&mut self, disk: &mut D) -> Result<(), D::Fault>
        requires empty { self.old.table ≡ empty_slots self.old.log.shape.buckets }
        requires puts { self.old.puts ≡ 0 }
        requires size { device_size self.old.log.shape ≤ size (D.content disk.old) }
        ensures wrote { Wrote D.Disk (commits_at self.old.log.shape self.old.log.region) self.old.log.shape.log_capacity 1 1 disk.old disk.new result }
        ensures written { OnOk result (Writes (commits_at self.old.log.shape self.old.log.region) (replicate self.old.log.shape.log_capacity 0) (D.content disk.old) (D.content disk.new)) }
        ensures rests { OnOk result (Rests (D.content disk.new)) }
        ensures ok { OnOk result (EmptiesStore (D.content disk.new) self.old self.new) }
        ensures err { OnErr result (self.new ≡ self.old) }
    {
        self.log.prepare(disk)?;
        Ok(())
    }

    /// Opens the commit bytes of the waiting rows: a sync, one write over these commit bytes, a sync.
    ///
    /// # Errors
    ///
    /// The fault of a sync or of the write. A crash then leaves the settled rows and a prefix of the waiting ones.
    pub fn open_commits<D: Disk>(&mut self, disk: &mut D) -> Result<(), D::Fault>
        requires waiting { self.old.log.settled < self.old.log.used }
        requires size { device_size self.old.log.shape ≤ size (D.content disk.old) }
        requires store { IsLogStore (D.content disk.old) self.old }
        ensures wrote { Wrote D.Disk (commits_at self.old.log.shape self.old.log.region + self.old.log.settled) (self.old.log.used - self.old.log.settled) 1 2 disk.old disk.new result }
        ensures written { OnOk result (Writes (commits_at self.old.log.shape self.old.log.region + self.old.log.settled)
            (replicate (self.old.log.used - self.old.log.settled) commit_open) (D.content disk.old) (D.content disk.new)) }
        ensures rests { OnOk result (Rests (D.content disk.new)) }
        ensures ok { OnOk result (OpensStore (D.content disk.old) (D.content disk.new) self.old self.new) }
        ensures err { OnErr result (OpensSomeOfStore (D.content disk.old) (D.content disk.new) self.old self.new) }
    {
        self.log.open_commits(disk)?;
        Ok(())
    }

    /// Closes all commit bytes past the first closed one, and syncs. It does not touch that one. If they are closed already, it makes no
    /// device call.
    ///
    /// # Errors
    ///
    /// The fault of the write or of the sync. The log has the same rows as before.
    pub fn seal<D: Disk>(&mut self, disk: &mut D) -> Result<(), D::Fault>
        requires size { device_size self.old.log.shape ≤ size (D.content disk.old) }
        requires rests { Rests (D.content disk.old) }
        requires scanned { IsTrue (D.content disk.old).honest → IsScanned (D.content disk.old) self.old.log }
        ensures wrote { Wrote D.Disk (commits_at self.old.log.shape self.old.log.region + self.old.log.used + 1) (self.old.log.shape.log_capacity - (self.old.log.used + 1))
            (cond self.old.log.stale 1 0) (cond self.old.log.stale 1 0) disk.old disk.new result }
        ensures images { LeavesOnly (D.content disk.new) (λ image. log_rows self.old.log.shape self.old.log.region image ≡ log_rows self.old.log.shape self.old.log.region (D.content disk.old).shown) }
        ensures quiet { self.old.log.stale ≡ false → disk.new ≡ disk.old }
        ensures written { IsTrue self.old.log.stale → OnOk result (Writes (commits_at self.old.log.shape self.old.log.region + self.old.log.used + 1)
            (replicate (self.old.log.shape.log_capacity - (self.old.log.used + 1)) 0) (D.content disk.old) (D.content disk.new)) }
        ensures rests { OnOk result (Rests (D.content disk.new)) }
        ensures store { MatchResult result (λ _. SealsStore (D.content disk.old) (D.content disk.new) self.old self.new) (λ _. (self.new ≡ self.old) × IsTrue self.old.log.stale) }
    {
        self.log.seal(disk)?;
        Ok(())
    }

    /// The kind and the place of the last row of a key, among all rows of the log and the waiting ones. It reads the head of each
    /// candidate: at most one read of 21 bytes for each.
    ///
    /// # Errors
    ///
    /// The fault of a read.
    pub fn find<D: Disk>(&self, disk: &D, key: &Key) -> Result<Option<Found>, D::Fault>
        requires size { device_size self.now.log.shape ≤ size (D.content disk.now) }
        ensures last { IsTrue (D.content disk.now).honest → IsIndexed (D.content disk.now) self.now → IfOk result (FindsLast (all_rows (D.content disk.now) self.now.log) key.now.0) }
        ensures place { IfOk result (λ found. IfSome found (λ row. row.place < self.now.log.used)) }
        ensures bounds { InBounds self.now.log }
        ensures fault { IfErr result (GaveAny D.gave disk.now) }
    {
        let mut head = [0; HEAD_LEN];
        match look_up(&self.log, &self.table, disk, key, &mut head)? {
            Some(row) => Ok(Some(row.found)),
            None => Ok(None),
        }
    }

    /// The last row of a key, as `find` returns it, and its value in `out` if the row is a put. If there is no put, `out` does not
    /// change. A row of at most 512 bytes is read whole, so each candidate takes at most one read. Of a longer row it reads the head,
    /// and then the value of the put that it found. It allocates no memory.
    ///
    /// # Errors
    ///
    /// The fault of a read. `out` may then hold any bytes.
    pub fn get<D: Disk>(
        &self,
        disk: &D,
        key: &Key,
        out: &mut [u8],
    ) -> Result<Option<Found>, D::Fault>
        requires out { length out.old ≡ self.now.log.shape.value_len }
        requires size { device_size self.now.log.shape ≤ size (D.content disk.now) }
        ensures last { IsTrue (D.content disk.now).honest → IsIndexed (D.content disk.now) self.now → IfOk result (FindsLast (all_rows (D.content disk.now) self.now.log) key.now.0) }
        ensures place { IfOk result (λ found. IfSome found (λ row. row.place < self.now.log.used)) }
        ensures value { IsTrue (D.content disk.now).honest
            → IfOk result (λ found. IfSome (put_place found) (λ place. out.new ≡ (row_at self.now.log.shape self.now.log.region (D.content disk.now).shown place).value)) }
        ensures kept { IfOk result (λ found. put_place found ≡ None → out.new ≡ out.old) }
        ensures bounds { InBounds self.now.log }
        ensures fault { IfErr result (GaveAny D.gave disk.now) }
    {
        if !has_candidate(&self.table, key) {
            return Ok(None); // needs no buffer
        }
        let len = self.log.geometry().row_len();
        if len <= WHOLE_LEN {
            let mut row = [0; WHOLE_LEN];
            self.get_whole(disk, key, &mut row[..len], out)
        } else {
            self.get_by_parts(disk, key, out)
        }
    }

    // Like `get`, with reads of whole rows into a buffer of their length.
    fn get_whole<D: Disk>(
        &self,
        disk: &D,
        key: &Key,
        row: &mut [u8],
        out: &mut [u8],
    ) -> Result<Option<Found>, D::Fault>
        requires row { length row.old ≡ row_len self.now.log.shape }
        requires out { length out.old ≡ self.now.log.shape.value_len }
        requires size { device_size self.now.log.shape ≤ size (D.content disk.now) }
        ensures last { IsTrue (D.content disk.now).honest → IsIndexed (D.content disk.now) self.now → IfOk result (FindsLast (all_rows (D.content disk.now) self.now.log) key.now.0) }
        ensures place { IfOk result (λ found. IfSome found (λ row. row.place < self.now.log.used)) }
        ensures value { IsTrue (D.content disk.now).honest
            → IfOk result (λ found. IfSome (put_place found) (λ place. out.new ≡ (row_at self.now.log.shape self.now.log.region (D.content disk.now).shown place).value)) }
        ensures kept { IfOk result (λ found. put_place found ≡ None → out.new ≡ out.old) }
        ensures fault { IfErr result (GaveAny D.gave disk.now) }
    {
        let Some(its_row) = look_up(&self.log, &self.table, disk, key, row)? else {
            return Ok(None);
        };
        match its_row.found.kind {
            Kind::Put => {
                out.copy_from_slice(&row[HEAD_LEN..]);
                Ok(Some(its_row.found))
            }
            Kind::Delete => Ok(Some(its_row.found)),
        }
    }

    // Like `get`, with reads of heads and one read of the value.
    fn get_by_parts<D: Disk>(
        &self,
        disk: &D,
        key: &Key,
        out: &mut [u8],
    ) -> Result<Option<Found>, D::Fault>
        requires out { length out.old ≡ self.now.log.shape.value_len }
        requires size { device_size self.now.log.shape ≤ size (D.content disk.now) }
        ensures last { IsTrue (D.content disk.now).honest → IsIndexed (D.content disk.now) self.now → IfOk result (FindsLast (all_rows (D.content disk.now) self.now.log) key.now.0) }
        ensures place { IfOk result (λ found. IfSome found (λ row. row.place < self.now.log.used)) }
        ensures value { IsTrue (D.content disk.now).honest
            → IfOk result (λ found. IfSome (put_place found) (λ place. out.new ≡ (row_at self.now.log.shape self.now.log.region (D.content disk.now).shown place).value)) }
        ensures kept { IfOk result (λ found. put_place found ≡ None → out.new ≡ out.old) }
        ensures fault { IfErr result (GaveAny D.gave disk.now) }
    {
        let Some(found) = self.find(disk, key)? else {
            return Ok(None);
        };
        match found.kind {
            Kind::Put => {
                self.log.read_value(disk, found.place, out)?;
                Ok(Some(found))
            }
            Kind::Delete => Ok(Some(found)),
        }
    }

    /// Whether the store can take a row of this key: the log has room, and the placing rule has a place for the key. It reads the head
    /// of each candidate. It is for callers that write no row. No crate above calls it, since `take` decides the same on its way.
    ///
    /// # Errors
    ///
    /// The fault of a read.
    pub fn can_take<D: Disk>(&self, disk: &D, key: &Key) -> Result<bool, D::Fault>
        requires size { device_size self.now.log.shape ≤ size (D.content disk.now) }
        ensures exactly { IsTrue (D.content disk.now).honest → IsIndexed (D.content disk.now) self.now
            → IfOk result (λ can. IsTrue can ↔ ((self.now.log.used < self.now.log.shape.log_capacity)
            × IsSome (index_of_keys self.now.log.shape.buckets (keys_of (all_rows (D.content disk.now) self.now.log) ++ key.now.0 ∷ [])))) }
        ensures room { IfOk result (λ can. IsTrue can → self.now.log.used < self.now.log.shape.log_capacity) }
        ensures fault { IfErr result (GaveAny D.gave disk.now) }
    {
        Ok(self.placing(disk, key)?.is_some())
    }

    /// Takes a row after the others: reads the head of each candidate of its key, writes the row with its commit byte closed, enters the key
    /// into the table, and counts a put. A delete's value is zeros. It allocates no memory. A store with no rows takes a row of any
    /// key, and reads nothing for it. Costs two writes and no sync.
    ///
    /// # Errors
    ///
    /// `Full` exactly if the log has no room, or the placing rule has no place for the key; `Read` with the fault of a read. With
    /// both, nothing is written. `Write` with the fault of a write. The store has the same rows, table and number of puts as before.
    pub fn take<D: Disk>(
        &mut self,
        disk: &mut D,
        kind: Kind,
        key: &Key,
        value: &[u8],
    ) -> Result<(), TakeError<D::Fault>>
        requires value { IsRowValue self.old.log.shape.value_len kind value.now }
        requires size { device_size self.old.log.shape ≤ size (D.content disk.old) }
        requires store { IsLogStore (D.content disk.old) self.old }
        ensures wrote { WroteOr D.Disk (FailsTake D.Disk disk.old disk.new self.old self.new key.now.0)
            (body_at self.old.log.shape self.old.log.region self.old.log.used) (row_len self.old.log.shape) 2 0 disk.old disk.new result }
        ensures written { OnOk result (Writes (body_at self.old.log.shape self.old.log.region self.old.log.used) (head_bytes kind key.now ++ value.now) (D.content disk.old) (D.content disk.new)) }
        ensures images { LeavesOnly (D.content disk.new) (λ image. log_rows self.old.log.shape self.old.log.region image ≡ settled_rows (D.content disk.old) self.old.log) }
        ensures store { MatchResult result (λ _. CanTake (D.content disk.old) self.old key.now.0 × TakesRow kind key.now value.now (D.content disk.old) (D.content disk.new) self.old self.new)
            (λ _. self.new ≡ self.old) }
        ensures first { self.old.log.used ≡ 0 → IfErr result IsFailedWrite }
    {
        match self.placing(disk, key) {
            Ok(Some(placing)) => match self.take_at(disk, kind, key, value, &placing) {
                Ok(()) => Ok(()),
                Err(fault) => Err(TakeError::Write(fault)),
            },
            Ok(None) => Err(TakeError::Full),
            Err(fault) => Err(TakeError::Read(fault)),
        }
    }

    // Where the entry of a key goes, if the store can take the key. `None` exactly if the log has no room or the placing rule gives up.
    // A store with no rows has a place for any key, and reads nothing.
    fn placing<D: Disk>(&self, disk: &D, key: &Key) -> Result<Option<Placing>, D::Fault>
        requires size { device_size self.now.log.shape ≤ size (D.content disk.now) }
        ensures none { IsTrue (D.content disk.now).honest → IsIndexed (D.content disk.now) self.now
            → IfOk result (λ placing. (placing ≡ None) ↔ IsFullFor (D.content disk.now) self.now key.now.0) }
        ensures some { IfOk result (λ placing. IfSome placing (IsPlacingFor (D.content disk.now) self.now key.now.0)) }
        ensures first { self.now.log.used ≡ 0 → IsOkAnd result (λ placing. IsSome placing) }
        ensures fault { IfErr result (GaveAny D.gave disk.now) }
    {
        let _known = self.log.geometry().log_capacity(); // at least one row
        if self.log.is_full() {
            return Ok(None);
        }
        let buckets = key_buckets(&key.0, self.table.bucket_count());
        let mut head = [0; HEAD_LEN];
        let older = look_up_under(&self.log, &self.table, disk, key, buckets, &mut head)?;
        Ok(plan_entry(&self.table, buckets, slot_of(older)))
    }

    // Takes a row at a placing that was made for its key and for this very state of the store, without a read.
    fn take_at<D: Disk>(
        &mut self,
        disk: &mut D,
        kind: Kind,
        key: &Key,
        value: &[u8],
        placing: &Placing,
    ) -> Result<(), D::Fault>
        requires placing { IsPlacingFor (D.content disk.old) self.old key.now.0 placing.now }
        requires value { IsRowValue self.old.log.shape.value_len kind value.now }
        requires size { device_size self.old.log.shape ≤ size (D.content disk.old) }
        requires store { IsLogStore (D.content disk.old) self.old }
        ensures wrote { Wrote D.Disk (body_at self.old.log.shape self.old.log.region self.old.log.used) (row_len self.old.log.shape) 2 0 disk.old disk.new result }
        ensures written { OnOk result (Writes (body_at self.old.log.shape self.old.log.region self.old.log.used) (head_bytes kind key.now ++ value.now) (D.content disk.old) (D.content disk.new)) }
        ensures images { LeavesOnly (D.content disk.new) (λ image. log_rows self.old.log.shape self.old.log.region image ≡ settled_rows (D.content disk.old) self.old.log) }
        ensures store { MatchResult result (λ _. TakesRow kind key.now value.now (D.content disk.old) (D.content disk.new) self.old self.new)
            (λ _. KeepsStore (D.content disk.old) (D.content disk.new) self.old self.new) }
    {
        let _known = self.log.capacity(); // it fits its word, and so does the count of the puts
        let place = self.log.len();
        self.log.append(disk, kind, key, value)?;
        enter(&mut self.table, placing, place);
        self.puts += kind.puts();
        Ok(())
    }

    /// Reads the bytes of the row at a place, whether its commit byte is open or not: the kind, the key and the value.
    ///
    /// # Errors
    ///
    /// The fault of the read. `out` may then hold any bytes.
    pub fn read_row<D: Disk>(&self, disk: &D, place: u32, out: &mut [u8]) -> Result<(), D::Fault>
        requires place { place < self.now.log.shape.log_capacity }
        requires out { length out.old ≡ row_len self.now.log.shape }
        requires size { device_size self.now.log.shape ≤ size (D.content disk.now) }
        ensures row { IsTrue (D.content disk.now).honest → OnOk result (row_of out.new ≡ row_at self.now.log.shape self.now.log.region (D.content disk.now).shown place) }
        ensures fault { IfErr result (GaveAny D.gave disk.now) }
    {
        self.log.read_row(disk, place, out)
    }

    /// Rebuilds a store from the device. It reads the commit bytes, then the heads of the rows before the first closed commit byte, one after the
    /// other, and places each key once. While it runs it takes 20 bytes a row beside the store.
    ///
    /// # Errors
    ///
    /// `Damaged` with the number of a row of an unknown kind, or `Crowded` if the placing rule gives up at a row: the first row with
    /// either decides. `Device` with the fault of a read, and `NoMemory`.
    pub fn rebuild<D: Disk>(
        alloc: Global,
        disk: &D,
        geometry: Geometry,
        region: u32,
    ) -> Result<Self, RebuildError<D::Fault>>
        requires region { region < geometry.logs }
        requires size { device_size geometry ≤ size (D.content disk.now) }
        ensures region { IfOk result (λ store. (store.log.shape ≡ geometry) × (store.log.region ≡ region) × (store.log.settled ≡ store.log.used)) }
        ensures rebuilt { IsTrue (D.content disk.now).honest → IfOk result (IsRebuilt (D.content disk.now)) }
        ensures index { IfOk result (IsIndexed (D.content disk.now)) }
        ensures frozen { Rests (D.content disk.now) → IfOk result (IsFrozenStore (D.content disk.now)) }
        ensures err { IfErr result (IsRefusedRebuild
            (λ place. IsTrue (D.content disk.now).honest → IsFirstDamaged geometry.buckets (log_rows geometry region (D.content disk.now).shown) place)
            (IsTrue (D.content disk.now).honest → (place : ℕ) × IsFirstCrowded geometry.buckets (log_rows geometry region (D.content disk.now).shown) place)
            (GaveAny D.gave disk.now)) }
    {
        let mut log = match Log::new(alloc, geometry, region) {
            Ok(log) => log,
            Err(_) => return Err(RebuildError::NoMemory),
        };
        if let Err(fault) = log.scan_commits(disk) {
            return Err(RebuildError::Device(fault));
        }
        let KeyIndex {
            table,
            keys: _,
            puts,
        } = index_rows(alloc, disk, &log)?;
        Ok(LogStore { log, table, puts })
    }
}
