// A log region as the store holds it in memory, and the calls that change it.
ghost use Rattle.std.specs.Prelude.{vec_len, ◌≡◌, ◌==◌, ◌+◌, ◌-◌, ◌<◌, ◌≤◌, ◌++◌, length, drop, replicate, nat_lt, cond, false, IsTrue, IfOk, IfErr, OnOk, OnErr, MatchResult};
ghost use Rattle.silt_disk.specs.Disk.{GaveAny, LeavesOnly, Rests, Writes, size};
ghost use Rattle.silt_disk.specs.Layout.{device_size, commits_at, row_len};
ghost use Rattle.silt_disk.specs.Wrote.{Wrote};
ghost use Rattle.silt_frame.specs.Commit.{commit_open};
ghost use Rattle.silt_frame.specs.Frame.{head_bytes};
ghost use Rattle.silt_log.specs.Rows.{AreRows, FirstUnknown, IsRowValue, body_at, log_rows, open_count, row_at, row_head};
ghost use Rattle.silt_frame.specs.Rows.{stored_row, row_of};
ghost use Rattle.silt_log.specs.Scans.{IsScanRefused};

use crate::commits::{open_behind_sync, read_commits, write_commits, write_row};
use crate::scan::{ScanError, read_rows};
use silt_disk::{Disk, Geometry};
use silt_frame::{COMMIT_CLOSED, HEAD_LEN, KEY_LEN, Key, Kind, Row, head_bytes, head_of};
use std::alloc::{AllocError, Global};
use std::marker::Model;

/// A log region: how many rows it has, and how many of them are settled behind open commit bytes.
///
/// It holds one byte for each row that fits into the region. So no later call except `scan` allocates memory.
#[derive(Drop)]
pub struct Log {
    geometry: Geometry,
    region: u32,
    settled: u32,
    used: u32,
    stale: bool,
    commits: Vec<u8>,
}

impl Model for Log {
    ghost use Rattle.std.specs.Prelude.{vec_len};
    ghost use Rattle.silt_log.specs.State.{LogState, IsHeld};

    ghost Value = { LogState };

    ghost view = { λ a. record { shape = a.geometry; region = a.region; settled = a.settled; used = a.used; stale = a.stale } };

    ghost invariant = { λ a. IsHeld (record { shape = a.geometry; region = a.region; settled = a.settled; used = a.used; stale = a.stale }) (vec_len a.commits) };
}

impl Log {
    ghost use Rattle.std.specs.Prelude.{◌^◌};
    ghost use Rattle.silt_log.specs.State.{LogState, InBounds, IsLog, IsScanned, settled_rows};
    ghost use Rattle.silt_log.specs.Calls.{Empties, Appends, KeepsRows, OpensCommits, OpensSome, Seals};
    ghost use Rattle.silt_frame.specs.Frame.{head_len};

    /// A log of this region with no rows. `prepare` or scan it before use.
    ///
    /// # Errors
    ///
    /// Out of memory: the commit bytes could not be allocated.
    pub fn new(alloc: Global, geometry: Geometry, region: u32) -> Result<Self, AllocError>
        requires { region < geometry.logs }
        ensures { IfOk result (λ log. log ≡ record { shape = geometry; region = region; settled = 0; used = 0; stale = false }) }
    {
        let capacity = geometry.log_capacity() as usize;
        Ok(Log {
            geometry,
            region,
            settled: 0,
            used: 0,
            stale: false,
            commits: vec![in alloc; COMMIT_CLOSED; capacity]?,
        })
    }

    /// The number of rows, with the waiting ones.
    pub fn len(&self) -> u32
        ensures value { result ≡ self.now.used }
        ensures bounds { InBounds self.now }
    {
        self.used
    }

    /// Whether there is no row, not even a waiting one.
    pub fn is_empty(&self) -> bool
        ensures { result ≡ (self.now.used == 0) }
    {
        self.used == 0
    }

    /// The number of rows that are settled behind open commit bytes.
    pub fn settled(&self) -> u32
        ensures value { result ≡ self.now.settled }
        ensures bounds { InBounds self.now }
    {
        self.settled
    }

    /// Whether a row waits for its commit byte to be opened.
    pub fn has_waiting(&self) -> bool
        ensures value { result ≡ nat_lt self.now.settled self.now.used }
        ensures bounds { InBounds self.now }
    {
        self.settled < self.used
    }

    /// Whether there is no room for another row.
    pub fn is_full(&self) -> bool
        ensures value { result ≡ (self.now.used == self.now.shape.log_capacity) }
        ensures bounds { InBounds self.now }
    {
        self.used == self.geometry.log_capacity()
    }

    /// The number of rows that fit into the region.
    pub fn capacity(&self) -> u32
        ensures value { result ≡ self.now.shape.log_capacity }
        ensures bounds { InBounds self.now }
    {
        self.geometry.log_capacity()
    }

    /// The number of the region.
    pub fn region(&self) -> u32
        ensures value { result ≡ self.now.region }
        ensures bounds { InBounds self.now }
    {
        self.region
    }

    /// The geometry of the store.
    pub fn geometry(&self) -> Geometry
        ensures { result ≡ self.now.shape }
    {
        self.geometry
    }

    /// Closes all commit bytes of the region, and syncs. Then the log has no rows. Costs one write and one sync.
    ///
    /// # Errors
    ///
    /// The fault of the write or of the sync.
    pub fn prepare<D: Disk>(&mut self, disk: &mut D) -> Result<(), D::Fault>
        requires size { device_size self.old.shape ≤ size (D.content disk.old) }
        ensures wrote { Wrote D.Disk (commits_at self.old.shape self.old.region) self.old.shape.log_capacity 1 1 disk.old disk.new result }
        ensures written { OnOk result (Writes (commits_at self.old.shape self.old.region) (replicate self.old.shape.log_capacity 0) (D.content disk.old) (D.content disk.new)) }
        ensures rests { OnOk result (Rests (D.content disk.new)) }
        ensures ok { OnOk result (Empties (D.content disk.new) self.old self.new) }
        ensures err { OnErr result (self.new ≡ self.old) }
    {
        let at = self.geometry.commits_at(self.region);
        write_commits(disk, at, &mut self.commits, COMMIT_CLOSED)?;
        self.settled = 0;
        self.used = 0;
        self.stale = false;
        Ok(())
    }

    /// Writes a row after the others: the head, then the value. Its commit byte stays closed. A delete's value is zeros. Costs two writes and
    /// no sync.
    ///
    /// # Errors
    ///
    /// The fault of a write. The log has the same rows as before.
    pub fn append<D: Disk>(
        &mut self,
        disk: &mut D,
        kind: Kind,
        key: &Key,
        value: &[u8],
    ) -> Result<(), D::Fault>
        requires room { self.old.used < self.old.shape.log_capacity }
        requires value { IsRowValue self.old.shape.value_len kind value.now }
        requires size { device_size self.old.shape ≤ size (D.content disk.old) }
        requires log { IsLog (D.content disk.old) self.old }
        ensures wrote { Wrote D.Disk (body_at self.old.shape self.old.region self.old.used) (row_len self.old.shape) 2 0 disk.old disk.new result }
        ensures written { OnOk result (Writes (body_at self.old.shape self.old.region self.old.used) (head_bytes kind key.now ++ value.now) (D.content disk.old) (D.content disk.new)) }
        ensures images { LeavesOnly (D.content disk.new) (λ image. log_rows self.old.shape self.old.region image ≡ settled_rows (D.content disk.old) self.old) }
        ensures log { MatchResult result (λ _. Appends (stored_row kind key.now value.now) (D.content disk.old) (D.content disk.new) self.old self.new)
            (λ _. KeepsRows (D.content disk.old) (D.content disk.new) self.old self.new) }
    {
        let at = self.body_at(self.used);
        write_row(disk, at, &head_bytes(kind, key), value)?;
        self.used += 1;
        Ok(())
    }

    /// Opens the commit bytes of the waiting rows: a sync, one write over these commit bytes, a sync.
    ///
    /// # Errors
    ///
    /// The fault of a sync or of the write. A crash then leaves the settled rows and a prefix of the waiting ones.
    pub fn open_commits<D: Disk>(&mut self, disk: &mut D) -> Result<(), D::Fault>
        requires waiting { self.old.settled < self.old.used }
        requires size { device_size self.old.shape ≤ size (D.content disk.old) }
        requires log { IsLog (D.content disk.old) self.old }
        ensures wrote { Wrote D.Disk (commits_at self.old.shape self.old.region + self.old.settled) (self.old.used - self.old.settled) 1 2 disk.old disk.new result }
        ensures written { OnOk result (Writes (commits_at self.old.shape self.old.region + self.old.settled)
            (replicate (self.old.used - self.old.settled) commit_open) (D.content disk.old) (D.content disk.new)) }
        ensures rests { OnOk result (Rests (D.content disk.new)) }
        ensures ok { OnOk result (OpensCommits (D.content disk.old) (D.content disk.new) self.old self.new) }
        ensures err { OnErr result (OpensSome (D.content disk.old) (D.content disk.new) self.old self.new) }
    {
        let at = self.geometry.commits_at(self.region) + u64::from(self.settled);
        let waiting = (self.used - self.settled) as usize;
        open_behind_sync(disk, at, &mut self.commits[..waiting])?;
        self.settled = self.used;
        Ok(())
    }

    /// Closes all commit bytes past the first closed one, and syncs. It does not touch that one. If they are closed already, it makes no
    /// device call.
    ///
    /// # Errors
    ///
    /// The fault of the write or of the sync. The log has the same rows as before.
    pub fn seal<D: Disk>(&mut self, disk: &mut D) -> Result<(), D::Fault>
        requires size { device_size self.old.shape ≤ size (D.content disk.old) }
        requires rests { Rests (D.content disk.old) }
        requires scanned { IsTrue (D.content disk.old).honest → IsScanned (D.content disk.old) self.old }
        ensures wrote { Wrote D.Disk (commits_at self.old.shape self.old.region + self.old.used + 1) (self.old.shape.log_capacity - (self.old.used + 1))
            (cond self.old.stale 1 0) (cond self.old.stale 1 0) disk.old disk.new result }
        ensures images { LeavesOnly (D.content disk.new) (λ image. log_rows self.old.shape self.old.region image ≡ log_rows self.old.shape self.old.region (D.content disk.old).shown) }
        ensures quiet { self.old.stale ≡ false → disk.new ≡ disk.old }
        ensures written { IsTrue self.old.stale → OnOk result (Writes (commits_at self.old.shape self.old.region + self.old.used + 1)
            (replicate (self.old.shape.log_capacity - (self.old.used + 1)) 0) (D.content disk.old) (D.content disk.new)) }
        ensures rests { OnOk result (Rests (D.content disk.new)) }
        ensures log { MatchResult result (λ _. Seals (D.content disk.old) (D.content disk.new) self.old self.new) (λ _. (self.new ≡ self.old) × IsTrue self.old.stale) }
    {
        if !self.stale {
            return Ok(());
        }
        let first = self.used + 1;
        let at = self.geometry.commits_at(self.region) + u64::from(first);
        let past = (self.geometry.log_capacity() - first) as usize;
        write_commits(disk, at, &mut self.commits[..past], COMMIT_CLOSED)?;
        self.stale = false;
        Ok(())
    }

    /// Reads which commit bytes are open, and the kind and key of each row before the first closed commit byte. This is for a log without a
    /// table. A log with one reads its commit bytes (`scan_commits`), and then its rows one by one.
    ///
    /// # Errors
    ///
    /// `Damaged` with the number of the first row of an unknown kind, `Device` with the fault of a read, and `NoMemory` if the list
    /// could not be allocated. The log has not changed.
    pub fn scan<D: Disk>(
        &mut self,
        alloc: Global,
        disk: &D,
    ) -> Result<Vec<Row>, ScanError<D::Fault>>
        requires size { device_size self.old.shape ≤ size (D.content disk.now) }
        ensures region { (self.new.shape ≡ self.old.shape) × (self.new.region ≡ self.old.region) }
        ensures settled { OnOk result (self.new.settled ≡ self.new.used) }
        ensures len { IfOk result (λ rows. vec_len rows ≡ self.new.used) }
        ensures ok { IsTrue (D.content disk.now).honest → IfOk result (λ rows. IsScanned (D.content disk.now) self.new
            × AreRows rows.items (log_rows self.old.shape self.old.region (D.content disk.now).shown)) }
        ensures err { OnErr result (self.new ≡ self.old) }
        ensures refusal { IfErr result (IsScanRefused (λ place. IsTrue (D.content disk.now).honest
            → FirstUnknown (row_at self.old.shape self.old.region (D.content disk.now).shown)
            (open_count self.old.shape self.old.region (D.content disk.now).shown) place) (GaveAny D.gave disk.now)) }
    {
        let at = self.geometry.commits_at(self.region);
        let (count, stale) = read_commits(disk, at, &mut self.commits).map_err(ScanError::Device)?;
        let count = count as u32;
        let bodies = self.geometry.bodies_at(self.region);
        let row_len = self.geometry.row_len() as u64;
        let rows = read_rows(alloc, disk, bodies, row_len, count)?;
        self.settled = count;
        self.used = count;
        self.stale = stale;
        Ok(rows)
    }

    /// Reads which commit bytes are open, and no row. Returns how many rows come before the first closed commit byte, and whether a commit byte past it
    /// is open.
    ///
    /// # Errors
    ///
    /// The fault of the read. The log has not changed.
    pub fn scan_commits<D: Disk>(&mut self, disk: &D) -> Result<(), D::Fault>
        requires size { device_size self.old.shape ≤ size (D.content disk.now) }
        ensures region { (self.new.shape ≡ self.old.shape) × (self.new.region ≡ self.old.region) }
        ensures settled { OnOk result (self.new.settled ≡ self.new.used) }
        ensures ok { IsTrue (D.content disk.now).honest → OnOk result (IsScanned (D.content disk.now) self.new) }
        ensures err { OnErr result (self.new ≡ self.old) }
        ensures fault { IfErr result (GaveAny D.gave disk.now) }
    {
        let at = self.geometry.commits_at(self.region);
        let (count, has_stale) = read_commits(disk, at, &mut self.commits)?;
        self.settled = count as u32;
        self.used = count as u32;
        self.stale = has_stale;
        Ok(())
    }

    // Where the body of this number begins.
    pub(crate) fn body_at(&self, place: u32) -> u64
        requires { place < self.now.shape.log_capacity }
        ensures value { result ≡ body_at self.now.shape self.now.region place }
        ensures fits { result + row_len self.now.shape ≤ device_size self.now.shape }
        ensures most { device_size self.now.shape ≤ 2 ^ 39 }
    {
        self.geometry.bodies_at(self.region) + u64::from(place) * self.geometry.row_len() as u64
    }

    /// Reads the key in the body of this number, whether its commit byte is open or not. It is for a row whose kind is known. The crates
    /// above read both (`read_head`).
    ///
    /// # Errors
    ///
    /// The fault of the read.
    pub fn read_key<D: Disk>(&self, disk: &D, place: u32) -> Result<Key, D::Fault>
        requires place { place < self.now.shape.log_capacity }
        requires size { device_size self.now.shape ≤ size (D.content disk.now) }
        ensures key { IsTrue (D.content disk.now).honest → IfOk result (λ key. key.0 ≡ (row_at self.now.shape self.now.region (D.content disk.now).shown place).key) }
        ensures fault { IfErr result (GaveAny D.gave disk.now) }
    {
        let mut key = [0; KEY_LEN];
        disk.read(self.body_at(place) + 1, &mut key)?;
        Ok(Key(key))
    }

    /// Reads the value in the body of this number, whether its commit byte is open or not.
    ///
    /// # Errors
    ///
    /// The fault of the read. `out` may then hold any bytes.
    pub fn read_value<D: Disk>(&self, disk: &D, place: u32, out: &mut [u8]) -> Result<(), D::Fault>
        requires place { place < self.now.shape.log_capacity }
        requires out { length out.old ≡ self.now.shape.value_len }
        requires size { device_size self.now.shape ≤ size (D.content disk.now) }
        ensures value { IsTrue (D.content disk.now).honest → OnOk result (out.new ≡ (row_at self.now.shape self.now.region (D.content disk.now).shown place).value) }
        ensures fault { IfErr result (GaveAny D.gave disk.now) }
    {
        disk.read(self.body_at(place) + HEAD_LEN as u64, out)?;
        Ok(())
    }

    /// Reads the kind and the key in the body of this number, whether its commit byte is open or not. `None` for a kind byte other than 1 and 2.
    ///
    /// # Errors
    ///
    /// The fault of the read.
    pub fn read_head<D: Disk>(&self, disk: &D, place: u32) -> Result<Option<(Kind, Key)>, D::Fault>
        requires place { place < self.now.shape.log_capacity }
        requires size { device_size self.now.shape ≤ size (D.content disk.now) }
        ensures head { IsTrue (D.content disk.now).honest → IfOk result (λ head. head ≡ row_head (row_at self.now.shape self.now.region (D.content disk.now).shown place)) }
        ensures fault { IfErr result (GaveAny D.gave disk.now) }
    {
        let mut head = [0; HEAD_LEN];
        disk.read(self.body_at(place), &mut head)?;
        Ok(head_of(&head))
    }

    /// Reads the first bytes of the body of this number, as many as `out` is long, whether its commit byte is open or not. Returns the kind
    /// and the key there, `None` for a kind byte other than 1 and 2. If `out` has room for the whole body, the value follows them.
    ///
    /// # Errors
    ///
    /// The fault of the read. `out` may then hold any bytes.
    pub fn read_front<D: Disk>(
        &self,
        disk: &D,
        place: u32,
        out: &mut [u8],
    ) -> Result<Option<(Kind, Key)>, D::Fault>
        requires place { place < self.now.shape.log_capacity }
        requires least { head_len ≤ length out.old }
        requires most { length out.old ≤ row_len self.now.shape }
        requires size { device_size self.now.shape ≤ size (D.content disk.now) }
        ensures head { IsTrue (D.content disk.now).honest → IfOk result (λ head. head ≡ row_head (row_at self.now.shape self.now.region (D.content disk.now).shown place)) }
        ensures value { IsTrue (D.content disk.now).honest → length out.old ≡ row_len self.now.shape
            → OnOk result (drop head_len out.new ≡ (row_at self.now.shape self.now.region (D.content disk.now).shown place).value) }
        ensures fault { IfErr result (GaveAny D.gave disk.now) }
    {
        let at = self.body_at(place);
        disk.read(at, out)?;
        let mut head = [0; HEAD_LEN];
        head.copy_from_slice(&out[..HEAD_LEN]);
        Ok(head_of(&head))
    }

    /// Reads the body of this number, whether its commit byte is open or not: the kind, the key and the value.
    ///
    /// # Errors
    ///
    /// The fault of the read. `out` may then hold any bytes.
    pub fn read_row<D: Disk>(&self, disk: &D, place: u32, out: &mut [u8]) -> Result<(), D::Fault>
        requires place { place < self.now.shape.log_capacity }
        requires out { length out.old ≡ row_len self.now.shape }
        requires size { device_size self.now.shape ≤ size (D.content disk.now) }
        ensures row { IsTrue (D.content disk.now).honest → OnOk result (row_of out.new ≡ row_at self.now.shape self.now.region (D.content disk.now).shown place) }
        ensures fault { IfErr result (GaveAny D.gave disk.now) }
    {
        disk.read(self.body_at(place), out)?;
        Ok(())
    }
}
