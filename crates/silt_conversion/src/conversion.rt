// A log's rows, written into a hash region slot by slot.
ghost use Rattle.std.specs.Prelude.{◌≡◌, ◌==◌, ◌+◌, ◌*◌, ◌<◌, ◌≤◌, ◌^◌, true, false, [], ◌∷◌, filter, Some, length, replicate, None, IsTrue, IfOk, IfErr, IfSome, OnOk, OnErr};
ghost use Rattle.sha1.specs.Sha1.{Holds};
ghost use Rattle.silt_disk.specs.Disk.{Content, CountsFault, GaveAny, size};
ghost use Rattle.silt_disk.specs.Layout.{device_size, row_len};
ghost use Rattle.silt_disk.specs.Wrote.{WroteOr};
ghost use Rattle.silt_conversion.specs.Conversion.{converted_row, converted_rows, with_entry};
ghost use Rattle.silt_frame.specs.Rows.{put_count, has_known_kind, row_of};
ghost use Rattle.silt_hash_store.specs.Slots.{hash_rows};
ghost use Rattle.silt_log.specs.State.{all_rows};
ghost use Rattle.silt_log_store.specs.State.{IsHeldStore, IsIndexed};

use sha1::Sha1;
use silt_disk::Disk;
use silt_frame::Digest;
use silt_hash_store::{HashRegion, HashStore, Tags};
use silt_log_store::LogStore;
use std::alloc::{AllocError, Global};
use std::marker::Model;

/// Why a step of a conversion failed.
#[derive(Debug, Drop)]
pub enum StepError<F> {
    /// The read of a row failed with this fault. Nothing has changed.
    Read(F),
    /// The write of a slot failed with this fault. The slot may then show any bytes.
    Write(F),
}

/// A log that is being converted to a hash store: the region, the tags of the written slots, the next slot, how many puts were
/// written, and a hasher that was fed the bytes of the slots.
///
/// It holds the bytes of one row, so that no step allocates memory.
#[derive(Drop)]
pub struct Conversion {
    region: HashRegion,
    tags: Tags,
    next: u32,
    puts: u32,
    hasher: Sha1,
    row: Vec<u8>,
}

impl Model for Conversion {
    ghost use Rattle.std.specs.Prelude.{vec_len};
    ghost use Rattle.silt_conversion.specs.Conversion.{ConversionState, IsHeldConversion};

    ghost Value = { ConversionState };

    ghost view = { λ a. record { shape = a.region.geometry; region = a.region.number; tags = a.tags; next = a.next; puts = a.puts; hasher = a.hasher } };

    ghost invariant = { λ a. IsHeldConversion (record { shape = a.region.geometry; region = a.region.number; tags = a.tags; next = a.next; puts = a.puts; hasher = a.hasher }) (vec_len a.row) };
}

// Fills the bytes of a row with zeros if its kind is unknown. Returns how many puts the row then is.
fn settle_row(row: &mut [u8]) -> u32
    requires some { 0 < length row.old }
    ensures known { has_known_kind (row_of row.old) ≡ true → row.new ≡ row.old }
    ensures unknown { has_known_kind (row_of row.old) ≡ false → row.new ≡ replicate (length row.old) 0 }
    ensures puts { result ≡ put_count (filter has_known_kind (row_of row.new ∷ [])) }
    ensures most { result ≤ 1 }
{
    match row[0] {
        1 => 1,
        2 => 0,
        _ => {
            row.fill(0);
            0
        }
    }
}

// Puts the bytes of a slot into a buffer: the row of the log's entry there, or zeros if there is no entry or the row's kind is
// unknown. Returns how many puts they are.
fn read_due<D: Disk>(log: &LogStore, disk: &D, slot: u32, out: &mut [u8]) -> Result<u32, D::Fault>
    requires out { length out.old ≡ row_len log.now.log.shape }
    requires size { device_size log.now.log.shape ≤ size (D.content disk.now) }
    ensures due { IsTrue (D.content disk.now).honest → IsIndexed (D.content disk.now) log.now
        → OnOk result (row_of out.new ≡ converted_row log.now.log.shape log.now.table (all_rows (D.content disk.now) log.now.log) slot) }
    ensures puts { IfOk result (λ puts. puts ≡ put_count (filter has_known_kind (row_of out.new ∷ []))) }
    ensures most { IfOk result (λ puts. puts ≤ 1) }
    ensures fault { IfErr result (GaveAny D.gave disk.now) }
    ensures held { IsHeldStore log.now }
{
    match log.slot(slot) {
        Some((_, place)) => {
            log.read_row(disk, place, out)?;
            Ok(settle_row(out))
        }
        None => {
            out.fill(0);
            Ok(0)
        }
    }
}

// The tag of the log's entry in a slot, if it has one.
fn note_entry(tags: &mut Tags, slot: u32, entry: Option<(u32, u32)>)
    requires slot { slot < length tags.old }
    requires tag { IfSome entry (λ e. e.0 < 2 ^ 15) }
    ensures { tags.new ≡ with_entry tags.old slot entry }
{
    if let Some((tag, _)) = entry {
        tags.set(slot, tag);
    }
}

impl Conversion {
    ghost use Rattle.silt_log_store.specs.State.{LogStoreState, IsFrozenStore};
    ghost use Rattle.silt_conversion.specs.Conversion.{ConversionState, FailsStep, HasWritten, IsDigestOf, IsHeldConversion, Steps};
    ghost use Rattle.silt_hash_store.specs.Slots.{hash_slot_at};
    ghost use Rattle.silt_hash_store.specs.State.{IsHashStore, IsHeldHash};

    /// A conversion of a log into this region, with no slot written. It allocates all memory that the conversion needs: two bytes a
    /// slot, and those of one row.
    ///
    /// # Errors
    ///
    /// Out of memory: the tags or the row could not be allocated.
    pub fn start(alloc: Global, log: &LogStore, region: u32) -> Result<Self, AllocError>
        requires { region < log.now.log.shape.hashes }
        ensures start { IfOk result (λ conversion. conversion ≡ record {
          shape = log.now.log.shape;
          region = region;
          tags = replicate (4 * log.now.log.shape.buckets) None;
          next = 0;
          puts = 0;
          hasher = conversion.hasher;
        }) }
        ensures unfed { IfOk result (λ conversion. Holds conversion.hasher []) }
        ensures written { (content : Content) → IfOk result (HasWritten content log.now) }
    {
        let geometry = log.geometry();
        let region = HashRegion {
            geometry,
            number: region,
        };
        Ok(Conversion {
            region,
            tags: Tags::new(alloc, region.slot_count())?,
            next: 0,
            puts: 0,
            hasher: Sha1::new(),
            row: vec![in alloc; 0; geometry.row_len()]?,
        })
    }

    /// Whether all slots are written.
    pub fn is_done(&self) -> bool
        ensures value { result ≡ (self.now.next == 4 * self.now.shape.buckets) }
        ensures most { self.now.next ≤ 4 * self.now.shape.buckets }
    {
        self.next == self.region.slot_count()
    }

    /// How many slots are written.
    pub fn written(&self) -> u32
        ensures { result ≡ self.now.next }
    {
        self.next
    }

    /// The number of the region that the conversion writes.
    pub fn region(&self) -> u32
        ensures value { result ≡ self.now.region }
        ensures there { self.now.region < self.now.shape.hashes }
    {
        self.region.number
    }

    /// The number of puts among the written rows.
    pub fn puts(&self) -> u32
        ensures value { result ≡ self.now.puts }
        ensures most { self.now.puts ≤ self.now.next }
    {
        self.puts
    }

    /// The digest of the slots written so far. It is the digest of the hash store once all slots are written.
    pub fn digest(&self) -> Digest
        ensures { IsDigestOf self.now.hasher result.0 }
    {
        let copy: Result<_, _> = self.hasher.clone();
        let Ok(copy) = copy else { unreachable!() };
        Digest(copy.finalize())
    }

    /// Writes the next slot: reads the row that belongs there, if there is one, and writes its bytes, or zeros. It also writes zeros
    /// for a row of an unknown kind. Only a disk that is not honest (does not obey the crash model) shows one. It allocates no memory.
    /// Costs one write and no sync.
    ///
    /// # Errors
    ///
    /// `Read` if the read failed: nothing has changed. `Write` if the write failed: the conversion has not changed.
    pub fn step<D: Disk>(&mut self, log: &LogStore, disk: &mut D) -> Result<(), StepError<D::Fault>>
        requires more { self.old.next < 4 * self.old.shape.buckets }
        requires shape { self.old.shape ≡ log.now.log.shape }
        requires size { device_size self.old.shape ≤ size (D.content disk.old) }
        ensures wrote { WroteOr D.Disk (FailsStep (GaveAny D.gave) (CountsFault D.failures D.gave disk.old disk.new) disk.old disk.new)
            (hash_slot_at self.old.shape self.old.region self.old.next) (row_len self.old.shape) 1 0 disk.old disk.new result }
        ensures ok { OnOk result (Steps log.now (D.content disk.old) (D.content disk.new) self.old self.new) }
        ensures err { OnErr result (self.new ≡ self.old) }
        ensures written { IsFrozenStore (D.content disk.old) log.now → HasWritten (D.content disk.old) log.now self.old → HasWritten (D.content disk.new) log.now self.new }
        ensures frozen { IsFrozenStore (D.content disk.old) log.now → IsFrozenStore (D.content disk.new) log.now }
    {
        let slot = self.next;
        let puts = match read_due(log, disk, slot, &mut self.row) {
            Ok(puts) => puts,
            Err(fault) => return Err(StepError::Read(fault)),
        };
        if let Err(fault) = self.region.write_slot(disk, slot, &self.row) {
            return Err(StepError::Write(fault));
        }
        self.hasher.update(&self.row);
        note_entry(&mut self.tags, slot, log.slot(slot));
        self.next = slot + 1;
        self.puts += puts;
        Ok(())
    }

    /// The hash store of a finished conversion.
    pub fn into_store(self) -> HashStore
        requires done { self.next ≡ 4 * self.shape.buckets }
        ensures store { result ≡ record { shape = self.shape; region = self.region; tags = self.tags; puts = self.puts; digest = result.digest } }
        ensures digest { IsDigestOf self.hasher result.digest }
        ensures held { IsHeldHash result }
        ensures rows { (content : Content) (log : LogStoreState) → HasWritten content log self → IsTrue content.honest
            → hash_rows self.shape self.region content.shown ≡ converted_rows self.shape log.table (all_rows content log.log) }
        ensures charged { (content : Content) (log : LogStoreState) → HasWritten content log self → IsTrue content.honest
            → self.puts ≡ put_count (filter has_known_kind (converted_rows self.shape log.table (all_rows content log.log))) }
        ensures stands { (content : Content) (log : LogStoreState) → IsFrozenStore content log → HasWritten content log self → IsHashStore content result }
    {
        let _known = self.region.geometry.buckets(); // so the number of buckets lies within its limits
        let Conversion {
            region,
            tags,
            next: _,
            puts,
            hasher,
            row: _,
        } = self;
        HashStore::new(region, tags, puts, Digest(hasher.finalize()))
    }
}
