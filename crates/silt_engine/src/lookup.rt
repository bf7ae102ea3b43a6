// The lookup of a key: the active log, then the frozen ones, then the hash stores, then the sorted store.
ghost use Rattle.std.specs.Prelude.{◌≡◌, ◌<◌, ◌≤◌, ◌*◌, ℕ, Some, None, option_map, length, true, false, not, Ok, IsTrue, IfOk, IfErr, IfSome};
ghost use Rattle.silt_disk.specs.Disk.{GaveAny, size};
ghost use Rattle.silt_disk.specs.Layout.{device_size};
ghost use Rattle.silt_log.specs.Found.{put_place};
ghost use Rattle.silt_log.specs.declared.found.Found.{Found};
ghost use Rattle.silt_engine.specs.Calls.{Finds, FindsNone};
ghost use Rattle.silt_engine.specs.declared.lookup.Holder.{Holder};
ghost use Rattle.silt_engine.specs.declared.lookup.Holder.TheVariants.{Frozen, Hashed};
ghost use Rattle.silt_engine.specs.Lookup.{FindsFrozen, FindsHashed, FindsNewest, IsItsValue, changes_key, frozen_at, is_waiting_row};
ghost use Rattle.silt_standing.specs.Standing.{Stands, waiting_commands};

use crate::engine::Engine;
use silt_disk::Disk;
use silt_frame::Key;
use silt_log_store::Found;

/// A log or a hash store.
#[derive(Clone, Copy)]
pub enum Holder {
    /// The log that takes writes.
    Active,
    /// A full log, by its place among the frozen ones, the newest first.
    Frozen(usize),
    /// A hash store, by its place among these, the newest first.
    Hashed(usize),
}

/// What a lookup of a key says.
#[derive(Clone, Copy)]
pub struct Lookup {
    /// Whether the key has a value.
    pub found: bool,
    /// Whether no row of the key waits for a flush. A crash keeps the answer then.
    pub is_settled: bool,
}

impl Engine {
    // The last row of a key in the newest frozen log that has one, with the number of that log. If the row is a put,
    // `out` gets its value.
    fn get_frozen<D: Disk>(
        &self,
        disk: &D,
        key: &Key,
        out: &mut [u8],
    ) -> Result<Option<(usize, Found)>, D::Fault>
        requires out { length out.old ≡ self.now.manifest.shape.value_len }
        requires size { device_size self.now.manifest.shape ≤ size (D.content disk.now) }
        ensures found { Stands (D.content disk.now) self.now → IsTrue (D.content disk.now).honest → IfOk result (FindsFrozen (D.content disk.now) self.now key.now.0) }
        ensures there { IfOk result (λ found. IfSome found (λ row. (row.0 < length self.now.frozen) × (row.1.place < (frozen_at self.now row.0).log.used))) }
        ensures value { IsTrue (D.content disk.now).honest → IfOk result (λ found. IfSome found (λ row. IsItsValue (D.content disk.now) self.now (Frozen row.0) row.1 out.new)) }
        ensures kept { IfOk result (λ found. put_place (option_map (λ (row : ℕ × Found). row.1) found) ≡ None → out.new ≡ out.old) }
        ensures fault { IfErr result (GaveAny D.gave disk.now) }
    {
        for (index, log) in self.frozen.iter().enumerate() {
            if let Some(found) = log.get(disk, key, out)? {
                return Ok(Some((index, found)));
            }
        }
        Ok(None)
    }

    // The row of a key in the newest hash store that has one, with the number of that store. If the row is a put, `out`
    // gets its value.
    fn get_hashed<D: Disk>(
        &self,
        disk: &D,
        key: &Key,
        out: &mut [u8],
    ) -> Result<Option<(usize, Found)>, D::Fault>
        requires out { length out.old ≡ self.now.manifest.shape.value_len }
        requires size { device_size self.now.manifest.shape ≤ size (D.content disk.now) }
        ensures found { Stands (D.content disk.now) self.now → IsTrue (D.content disk.now).honest → IfOk result (FindsHashed (D.content disk.now) self.now key.now.0) }
        ensures there { IfOk result (λ found. IfSome found (λ row. (row.0 < length self.now.hashes) × (row.1.place < 4 * self.now.manifest.shape.buckets))) }
        ensures value { IsTrue (D.content disk.now).honest → IfOk result (λ found. IfSome found (λ row. IsItsValue (D.content disk.now) self.now (Hashed row.0) row.1 out.new)) }
        ensures kept { IfOk result (λ found. put_place (option_map (λ (row : ℕ × Found). row.1) found) ≡ None → out.new ≡ out.old) }
        ensures fault { IfErr result (GaveAny D.gave disk.now) }
    {
        for (index, store) in self.hashes.iter().enumerate() {
            if let Some(found) = store.get(disk, key, out)? {
                return Ok(Some((index, found)));
            }
        }
        Ok(None)
    }

    // The newest row of a key in the logs and the hash stores, with its store: first the active log, then the frozen
    // ones, then the hash stores, each the newest first. If the row is a put, `out` gets its value. If no put is found,
    // `out` stays as it was.
    fn get_newest<D: Disk>(
        &self,
        disk: &D,
        key: &Key,
        out: &mut [u8],
    ) -> Result<Option<(Holder, Found)>, D::Fault>
        requires out { length out.old ≡ self.now.manifest.shape.value_len }
        requires size { device_size self.now.manifest.shape ≤ size (D.content disk.now) }
        ensures found { Stands (D.content disk.now) self.now → IsTrue (D.content disk.now).honest → IfOk result (FindsNewest (D.content disk.now) self.now key.now.0) }
        ensures waits { Stands (D.content disk.now) self.now → IsTrue (D.content disk.now).honest → IfOk result (λ found. is_waiting_row self.now found ≡ changes_key (waiting_commands (D.content disk.now) self.now) key.now.0) }
        ensures value { IsTrue (D.content disk.now).honest → IfOk result (λ found. IfSome found (λ row. IsItsValue (D.content disk.now) self.now row.0 row.1 out.new)) }
        ensures kept { IfOk result (λ found. put_place (option_map (λ (row : Holder × Found). row.1) found) ≡ None → out.new ≡ out.old) }
        ensures fault { IfErr result (GaveAny D.gave disk.now) }
    {
        if let Some(found) = self.active.get(disk, key, out)? {
            return Ok(Some((Holder::Active, found)));
        }
        if let Some((index, found)) = self.get_frozen(disk, key, out)? {
            return Ok(Some((Holder::Frozen(index), found)));
        }
        let Some((number, found)) = self.get_hashed(disk, key, out)? else {
            return Ok(None);
        };
        Ok(Some((Holder::Hashed(number), found)))
    }

    // Whether a row is settled: it lies in a frozen log or in a hash store, or before the waiting rows of the active log.
    fn is_settled(&self, holder: Holder, found: Found) -> bool
        ensures { result ≡ not (is_waiting_row self.now (Some (holder, found))) }
    {
        match holder {
            Holder::Active => found.place < self.active.settled(),
            Holder::Frozen(_) | Holder::Hashed(_) => true,
        }
    }

    /// Writes a key's value over `out`, and returns whether there is one, and whether a crash keeps this answer. It goes
    /// through the active log, the frozen ones and the hash stores, each the newest first, and the sorted store last. The
    /// first row of the key that it finds decides: a delete ends the lookup with none. If there is none, `out` stays as
    /// it was. A row or an entry of at most 512 bytes is read whole, so its key and its value take one read. It takes no
    /// memory.
    ///
    /// # Errors
    ///
    /// The fault of a read. `out` may then have any bytes.
    pub fn look_up<D: Disk>(&self, disk: &D, key: &Key, out: &mut [u8]) -> Result<Lookup, D::Fault>
        requires out { length out.old ≡ self.now.manifest.shape.value_len }
        requires size { device_size self.now.manifest.shape ≤ size (D.content disk.now) }
        ensures found { Stands (D.content disk.now) self.now → IfOk result (λ lookup. lookup.found ≡ true → Finds (D.content disk.now) self.now key.now.0 out.new) }
        ensures none { Stands (D.content disk.now) self.now → IfOk result (λ lookup. lookup.found ≡ false → FindsNone (D.content disk.now) self.now key.now.0) }
        ensures settled { Stands (D.content disk.now) self.now → IsTrue (D.content disk.now).honest
            → IfOk result (λ lookup. lookup.is_settled ≡ not (changes_key (waiting_commands (D.content disk.now) self.now) key.now.0)) }
        ensures absent { IfOk result (λ lookup. lookup.found ≡ false → out.new ≡ out.old) }
        ensures fault { IfErr result (GaveAny D.gave disk.now) }
    {
        match self.get_newest(disk, key, out)? {
            Some((holder, found)) => Ok(Lookup {
                found: found.kind.is_put(),
                is_settled: self.is_settled(holder, found),
            }),
            None => Ok(Lookup {
                found: self.sorted.get(disk, key, out)?,
                is_settled: true,
            }),
        }
    }

    /// Writes a key's value over `out`, and returns whether there is one, as [`look_up`](Engine::look_up) does.
    ///
    /// # Errors
    ///
    /// The fault of a read. `out` may then have any bytes.
    pub fn get<D: Disk>(&self, disk: &D, key: &Key, out: &mut [u8]) -> Result<bool, D::Fault>
        requires out { length out.old ≡ self.now.manifest.shape.value_len }
        requires size { device_size self.now.manifest.shape ≤ size (D.content disk.now) }
        ensures found { Stands (D.content disk.now) self.now → result ≡ Ok true → Finds (D.content disk.now) self.now key.now.0 out.new }
        ensures none { Stands (D.content disk.now) self.now → result ≡ Ok false → FindsNone (D.content disk.now) self.now key.now.0 }
        ensures absent { result ≡ Ok false → out.new ≡ out.old }
        ensures fault { IfErr result (GaveAny D.gave disk.now) }
    {
        match self.look_up(disk, key, out) {
            Ok(lookup) => Ok(lookup.found),
            Err(fault) => Err(fault),
        }
    }
}
