// A store with its trace, whose callers have seats.
ghost use Rattle.std.specs.Prelude.{◌≡◌, ◌≢◌, ℕ, ◌+◌, ◌≤◌, ◌<◌, ◌%◌, ◌^◌, [], Some, None, Ok, true, false, not, IsTrue, length, is_some, IfOk, IfErr, IfSome, OnOk, MatchResult};
ghost use Rattle.std.specs.Prelude.{vec_len, vec_capacity, slice_get, slice_range};
ghost use Rattle.std.specs.Option.{option_map};
ghost use Rattle.silt_event.specs.Events.{Step, plain};
ghost use Rattle.silt_desk.specs.DeskState.{Notes};
ghost use Rattle.silt_desk.specs.Notes.{given, noted_event, reply_of};
ghost use Rattle.silt_desk.specs.Preparing.{unprepared_refusal};
ghost use Rattle.silt_desk.specs.Seats.{accepted_of, calls_of, fresh, unbooked};
ghost use Rattle.silt_inbox.specs.Books.{has_books};

use crate::call::{Note, plain};
use crate::seat::{DeskId, Ledgers, MissingSeats, Seat};
use crate::trace::{NotPrepared, Room, Trace};
use crate::worker::Due;
use silt_disk::{Disk, Geometry};
use silt_event::{Facts, Progress, Refusal};
use silt_frame::Key;
use silt_manifest::{Body, Digests};
use silt_store_set::{Core, LentBytes, Look};
use std::alloc::Global;
use std::marker::Model;
use std::sync::ledger::Blank;

/// A store with the trace of its calls. Contracts see the two.
#[derive(Drop)]
pub struct Desk<D: Disk, T: Trace, N: DeskId> {
    pub(crate) core: Core<D>,
    trace: T,
    ledgers: Ledgers<N>,
}

/// The store and the trace of a desk that was out of memory for its seats.
#[derive(Drop)]
pub struct NotMade<D: Disk, T: Trace> {
    pub core: Core<D>,
    pub trace: T,
}

impl<D: Disk, T: Trace, N: DeskId> Model for Desk<D, T, N> {
    ghost use Rattle.std.specs.Coded.{codes};
    ghost use Rattle.silt_event.specs.Commands.{map_code};
    ghost use Rattle.silt_desk.specs.DeskState.{CountsCalls, DeskState};
    ghost use Rattle.silt_desk.specs.Seeing.{seen};

    ghost Value = { DeskState D T };

    ghost coded = { Prim.hlevel (codes, map_code) };

    ghost view = { λ d. record { core = d.core; trace = d.trace } };

    ghost invariant = { λ d. T.agrees d.trace (seen D.Disk d.core) × CountsCalls T.counts d.trace d.ledgers };
}

// Notes a call in the trace, with the seat and in the ledgers, and its place with the seat, if it is to be recorded. Only a swap can have a second value.
fn note_both<T: Trace, N: DeskId>(
    trace: &mut T,
    ledgers: &mut Ledgers<N>,
    seat: &mut Seat<N>,
    room: Room,
    note: Note,
    value: &[u8],
    second: &[u8],
)
    requires room { T.is_full trace.old → ⊥ }
    requires fits { T.fits (vec_capacity room.value) (length value.now) }
    requires fits_second { T.fits (vec_capacity room.second) (length second.now) }
    ensures { Notes T.Trace trace.old trace.new ledgers.old ledgers.new seat.old seat.new (noted_event note value.now second.now) (reply_of note value.now) }
{
    if note.is_recorded() {
        trace.record(seat.caller(), note, value, second, room);
        ledgers.count(seat, note.acceptance());
        seat.note_last(trace.view());
    }
}

// The same for a call with at most one value.
fn note<T: Trace, N: DeskId>(
    trace: &mut T,
    ledgers: &mut Ledgers<N>,
    seat: &mut Seat<N>,
    room: Room,
    note: Note,
    value: &[u8],
)
    requires room { T.is_full trace.old → ⊥ }
    requires fits { T.fits (vec_capacity room.value) (length value.now) }
    requires fits_second { T.fits (vec_capacity room.second) 0 }
    ensures { Notes T.Trace trace.old trace.new ledgers.old ledgers.new seat.old seat.new (noted_event note value.now []) (reply_of note value.now) }
{
    note_both(trace, ledgers, seat, room, note, value, &[]);
}

// The bytes of a value, or none.
fn or_none(value: Option<&[u8]>) -> &[u8]
    ensures { given (is_some value.entry) result.now ≡ option_map (λ bytes. bytes.now) value.entry }
{
    match value {
        Some(bytes) => bytes,
        None => &[],
    }
}

// The refusal of a call that cannot be recorded.
fn refusal<F>(lack: NotPrepared) -> Refusal<F>
    ensures { result ≡ unprepared_refusal lack }
{
    match lack {
        NotPrepared::Full => Refusal::HistoryFull,
        NotPrepared::NoMemory => Refusal::NoMemory,
    }
}

impl<D: Disk, T: Trace, N: DeskId> Desk<D, T, N> {
    ghost use Rattle.std.specs.Prelude.{IsErrOf};
    ghost use Rattle.silt_disk.specs.Disk.{LeavesOnly};
    ghost use Rattle.silt_image.specs.Meaning.{StandsFor};
    ghost use Rattle.silt_engine.specs.Calls.{HoldsPrefix};
    ghost use Rattle.silt_engine.specs.Lookup.{changes_key};
    ghost use Rattle.silt_store_set.specs.CoreInvariant.{LeavesBegun};
    ghost use Rattle.silt_event.specs.Commands.{map_after};
    ghost use Rattle.silt_store_set.specs.CoreState.{Does, map_of, may_merge, wants_convert, wants_merge};
    ghost use Rattle.silt_store_set.specs.Replies.{change_reply, flush_reply, found_of, get_reply, progress_reply, swap_reply};
    ghost use Rattle.silt_event.specs.declared.event.Event.TheVariants.{Put, Delete, Swap, Get, Flush, Convert, Merge};
    ghost use Rattle.silt_store_set.specs.Facts.{NamesDigests, facts_of};
    ghost use Rattle.silt_disk.specs.Layout.{device_size};
    ghost use Rattle.silt_disk.specs.declared.disk.Call.TheVariants as DiskCall;
    ghost use Rattle.silt_desk.specs.DeskState.{Serves};
    ghost use Rattle.silt_desk.specs.Seeing.{seen};

    /// A desk with this many seats, numbered from 0. The two blanks become its ledgers.
    ///
    /// # Errors
    ///
    /// Out of memory for the list of seats. Then the store and the trace are given back.
    pub fn new(
        alloc: Global,
        core: Core<D>,
        trace: T,
        seats: u64,
        calls: Blank,
        accepted: Blank,
    ) -> Result<(Desk<D, T, N>, Vec<Seat<N>>), NotMade<D, T>>
        requires calls { (calls.name ≡ N.calls_name) × (calls.parts ≡ N.seats) }
        requires accepted { (accepted.name ≡ N.accepted_name) × (accepted.parts ≡ N.seats) }
        requires seats { seats ≡ N.seats }
        requires trace { T.agrees trace (seen D.Disk core) × T.counts trace 0 0 }
        ensures desk { IfOk result (λ r. (r.0.core ≡ core) × (r.0.trace ≡ trace)) }
        ensures seats { IfOk result (λ r. (vec_len r.1 ≡ seats) × ((k : ℕ) → k < seats → slice_get r.1.items k ≡ Some (fresh k))) }
        ensures err { IfErr result (λ e. (e.core ≡ core) × (e.trace ≡ trace)) }
    {
        match Ledgers::new(alloc, seats, calls, accepted) {
            Ok((ledgers, places)) => Ok((
                Desk {
                    core,
                    trace,
                    ledgers,
                },
                places,
            )),
            Err(_) => Err(NotMade { core, trace }),
        }
    }

    /// A desk without books, with this many seats, numbered from 0. Its seats are never settled. So there may be a list of such desks,
    /// of one type.
    ///
    /// # Errors
    ///
    /// Out of memory for the list of seats. Then the store and the trace are given back.
    pub fn unbooked(
        alloc: Global,
        core: Core<D>,
        trace: T,
        seats: u64,
    ) -> Result<(Desk<D, T, N>, Vec<Seat<N>>), NotMade<D, T>>
        requires books { has_books N.seats ≡ false }
        requires trace { T.agrees trace (seen D.Disk core) × T.counts trace 0 0 }
        ensures desk { IfOk result (λ r. (r.0.core ≡ core) × (r.0.trace ≡ trace)) }
        ensures seats { IfOk result (λ r. (vec_len r.1 ≡ seats) × ((k : ℕ) → k < seats → slice_get r.1.items k ≡ Some (unbooked k))) }
        ensures err { IfErr result (λ e. (e.core ≡ core) × (e.trace ≡ trace)) }
    {
        match Ledgers::unbooked(alloc, seats) {
            Ok((ledgers, places)) => Ok((
                Desk {
                    core,
                    trace,
                    ledgers,
                },
                places,
            )),
            Err(_) => Err(NotMade { core, trace }),
        }
    }

    /// The six numbers of the store.
    pub fn geometry(&self) -> Geometry
        ensures { result ≡ self.now.core.shape }
    {
        self.core.geometry()
    }

    /// The numbers of the store at this moment.
    pub fn facts(&self) -> Facts
        ensures { result ≡ facts_of self.now.core }
    {
        self.core.facts()
    }

    /// Which regions the current manifest record names, and the digests of the stores in them: of the hash stores, the newest
    /// first, and of the sorted store.
    pub fn named(&self) -> (Body, Digests)
        ensures body { result.0 ≡ self.now.core.body }
        ensures digests { self.now.core.failed ≡ false
            → NamesDigests (D.content self.now.core.disk) self.now.core.shape self.now.core.body result.1 }
    {
        self.core.named()
    }

    /// Reads bytes of the device from `at` on. After a fault the buffer may hold any bytes.
    pub fn read_at(&self, at: u64, buf: &mut [u8]) -> Result<(), D::Fault>
        requires { at + length buf.old ≤ device_size self.now.core.shape }
        ensures bytes { IsTrue (D.content self.now.core.disk).honest
            → OnOk result (buf.new ≡ slice_range (D.content self.now.core.disk).shown at (at + length buf.old)) }
        ensures fault { IfErr result (λ fault. D.gave self.now.core.disk fault DiskCall.Read at (length buf.old)) }
    {
        self.core.read_at(at, buf)
    }

    /// States what is true of the store at every moment, and does nothing: the possible crash images of its device,
    /// also of a failed store (see [`Core::standing`]). With [`Kept`](crate::Kept) the recorded calls say what a crash
    /// keeps: see [`Desk::trace`].
    pub fn standing(&self)
        ensures safe { self.now.core.failed ≡ false → LeavesOnly (D.content self.now.core.disk) (StandsFor self.now.core.shape self.now.core.base) }
        ensures begun { LeavesOnly (D.content self.now.core.disk) (HoldsPrefix self.now.core.shape self.now.core.base self.now.core.waiting) }
        ensures has_map { IsTrue (D.content self.now.core.disk).honest → map_of self.now.core ≡ map_after self.now.core.base self.now.core.waiting }
        ensures few { IsTrue (D.content self.now.core.disk).honest → length self.now.core.waiting ≤ self.now.core.count }
    {
        let _known = self.core.standing(); // the same of the core
    }

    /// Sets the value of a key, as a recorded call, and returns how many commands are accepted, this one included.
    pub fn put(
        &mut self,
        alloc: Global,
        seat: &mut Seat<N>,
        key: &Key,
        value: &[u8],
    ) -> Result<u64, Refusal<D::Fault>>
        requires { length value.now ≡ self.old.core.shape.value_len }
        ensures { Serves D.Disk T.Trace self.old self.new seat.old seat.new (Put key.now value.now) (change_reply result) }
    {
        let room = match self.trace.prepare(alloc, value.len(), 0) {
            Ok(room) => room,
            Err(lack) => return Err(refusal(lack)),
        };
        let answer = self.core.put(alloc, key, value);
        let noted = Note::Put(*key, plain(&answer));
        note(&mut self.trace, &mut self.ledgers, seat, room, noted, value);
        answer
    }

    /// Deletes a key's value, as a recorded call, and returns how many commands are accepted, this one included.
    pub fn delete(
        &mut self,
        alloc: Global,
        seat: &mut Seat<N>,
        key: &Key,
    ) -> Result<u64, Refusal<D::Fault>>
        ensures { Serves D.Disk T.Trace self.old self.new seat.old seat.new (Delete key.now) (change_reply result) }
    {
        let room = match self.trace.prepare(alloc, 0, 0) {
            Ok(room) => room,
            Err(lack) => return Err(refusal(lack)),
        };
        let answer = self.core.delete(alloc, key);
        let noted = Note::Delete(*key, plain(&answer));
        note(&mut self.trace, &mut self.ledgers, seat, room, noted, &[]);
        answer
    }

    /// Compare and swap: sets the value of a key to `new` if its value is `old`, as a recorded call, and returns how many
    /// commands are accepted, this one included. If the key has another value, it returns `None` and changes nothing.
    /// `None` for `old` expects that the key has no value, and `None` for `new` deletes the key.
    pub fn swap(
        &mut self,
        alloc: Global,
        seat: &mut Seat<N>,
        key: &Key,
        old: Option<&[u8]>,
        new: Option<&[u8]>,
    ) -> Result<Option<u64>, Refusal<D::Fault>>
        requires old { IfSome old (λ value. length value.now ≡ self.old.core.shape.value_len) }
        requires new { IfSome new (λ value. length value.now ≡ self.old.core.shape.value_len) }
        ensures { Serves D.Disk T.Trace self.old self.new seat.old seat.new
            (Swap key.now (option_map (λ value. value.now) old.entry) (option_map (λ value. value.now) new.entry)) (swap_reply result) }
    {
        let (value, second) = (or_none(old), or_none(new));
        let room = match self.trace.prepare(alloc, value.len(), second.len()) {
            Ok(room) => room,
            Err(lack) => return Err(refusal(lack)),
        };
        let answer = self.core.swap(alloc, key, old, new);
        let noted = Note::Swap(*key, old.is_some(), new.is_some(), plain(&answer));
        note_both(
            &mut self.trace,
            &mut self.ledgers,
            seat,
            room,
            noted,
            value,
            second,
        );
        answer
    }

    /// Acknowledges all commands accepted so far, as a recorded call, and returns their number.
    pub fn flush(&mut self, alloc: Global, seat: &mut Seat<N>) -> Result<u64, Refusal<D::Fault>>
        ensures { Serves D.Disk T.Trace self.old self.new seat.old seat.new Flush (flush_reply result) }
    {
        let room = match self.trace.prepare(alloc, 0, 0) {
            Ok(room) => room,
            Err(lack) => return Err(refusal(lack)),
        };
        let answer = self.core.flush();
        let noted = Note::Flush(plain(&answer));
        note(&mut self.trace, &mut self.ledgers, seat, room, noted, &[]);
        answer
    }

    /// Writes a key's value over `out`, as a recorded call, and returns whether there is one. If there is none, `out`
    /// stays as it was.
    pub fn get(
        &mut self,
        alloc: Global,
        seat: &mut Seat<N>,
        key: &Key,
        out: &mut [u8],
    ) -> Result<bool, Refusal<D::Fault>>
        requires { length out.old ≡ self.old.core.shape.value_len }
        ensures reply { Serves D.Disk T.Trace self.old self.new seat.old seat.new (Get key.now) (get_reply out.new result) }
        ensures absent { result ≡ Ok false → out.new ≡ out.old }
        ensures memory { IsErrOf result Refusal.NoMemory → T.takes_memory self.old.trace }
    {
        let room = match self.trace.prepare(alloc, out.len(), 0) {
            Ok(room) => room,
            Err(lack) => return Err(refusal(lack)),
        };
        let answer = self.core.get(key, out);
        let noted = Note::Get(*key, plain(&answer));
        note(&mut self.trace, &mut self.ledgers, seat, room, noted, out);
        answer
    }

    /// One step of conversion, as a recorded call.
    pub fn convert(
        &mut self,
        alloc: Global,
        seat: &mut Seat<N>,
    ) -> Result<Progress, Refusal<D::Fault>>
        ensures { Serves D.Disk T.Trace self.old self.new seat.old seat.new Convert (progress_reply result) }
    {
        let room = match self.trace.prepare(alloc, 0, 0) {
            Ok(room) => room,
            Err(lack) => return Err(refusal(lack)),
        };
        let answer = self.core.convert(alloc);
        let noted = Note::Convert(plain(&answer));
        note(&mut self.trace, &mut self.ledgers, seat, room, noted, &[]);
        answer
    }

    /// One step of merging, as a recorded call.
    pub fn merge(
        &mut self,
        alloc: Global,
        seat: &mut Seat<N>,
    ) -> Result<Progress, Refusal<D::Fault>>
        ensures { Serves D.Disk T.Trace self.old self.new seat.old seat.new Merge (progress_reply result) }
    {
        let room = match self.trace.prepare(alloc, 0, 0) {
            Ok(room) => room,
            Err(lack) => return Err(refusal(lack)),
        };
        let answer = self.core.merge(alloc);
        let noted = Note::Merge(plain(&answer));
        note(&mut self.trace, &mut self.ledgers, seat, room, noted, &[]);
        answer
    }

    /// Lends bytes that the merge in progress has read and not hashed yet, if they are 16 KiB or more, to be hashed with
    /// no guard held. Returns whether it did. It records nothing and changes nothing.
    pub fn lend_unhashed(&self, lent: &mut LentBytes) -> bool
        ensures none { result ≡ false → lent.new.bytes ≡ [] }
        ensures unhashed { lent.new.after ≡ None }
    {
        self.core.lend_unhashed(lent)
    }

    /// Takes what was hashed meanwhile. If the merge in progress does not wait for it, it is ignored. It records nothing,
    /// and the calls that follow do and return the same in either case.
    pub fn take_hashed(&mut self, lent: &LentBytes)
        ensures { self.new ≡ self.old }
    {
        self.core.take_hashed(lent);
    }

    /// Whether there is a step of conversion to do.
    pub fn wants_convert(&self) -> bool
        ensures { result ≡ wants_convert self.now.core }
    {
        self.core.wants_convert()
    }

    /// Whether there is a step of merging to do.
    pub fn wants_merge(&self) -> bool
        ensures { result ≡ wants_merge self.now.core }
    {
        self.core.wants_merge()
    }

    /// Whether the next step of merging, if nothing refuses it, ends a merge.
    pub fn ends_merge(&self) -> bool {
        self.core.ends_merge()
    }

    /// Whether there is a step of merging to do that goes on with a merge, or that begins one of at least this many hash
    /// stores. If a conversion waits for a hash region, any number is enough.
    pub fn may_merge(&self, least: u32) -> bool
        ensures { result ≡ may_merge self.now.core least }
    {
        self.core.may_merge(least)
    }

    /// Which background work there is to do, if a merge begins with at least this many hash stores.
    pub fn due(&self, least: u32) -> Due
        ensures converts { result.converts ≡ wants_convert self.now.core }
        ensures merges { result.merges ≡ wants_merge self.now.core }
        ensures begins { result.begins ≡ may_merge self.now.core least }
    {
        Due {
            converts: self.wants_convert(),
            merges: self.wants_merge(),
            begins: self.may_merge(least),
        }
    }

    /// Writes a key's value over `out`, and returns how many commands are accepted, whether the key has a value, and
    /// whether a crash keeps this answer. It records nothing and changes nothing: many threads may look at the same time.
    pub fn look(&self, key: &Key, out: &mut [u8]) -> Result<Look, Refusal<D::Fault>>
        requires { length out.old ≡ self.now.core.shape.value_len }
        ensures reply { Does D.Disk self.now.core self.now.core (Get key.now) (get_reply out.new (found_of result)) }
        ensures count { IfOk result (λ look. look.count ≡ self.now.core.count) }
        ensures settled { IsTrue (D.content self.now.core.disk).honest → IfOk result (λ look. look.is_settled ≡ not (changes_key self.now.core.waiting key.now.0)) }
        ensures kept { IsTrue (D.content self.now.core.disk).honest
            → IfOk result (λ look. look.is_settled ≡ true → Step self.now.core.base (Get key.now) (get_reply out.new (found_of result)) self.now.core.base) }
        ensures absent { found_of result ≡ Ok false → out.new ≡ out.old }
        ensures memory { ¬ IsErrOf result Refusal.NoMemory }
    {
        self.core.look(key, out)
    }

    /// The trace, which agrees with the store as it is now, and counts its own calls.
    pub fn trace(&self) -> &T
        ensures trace { result.now ≡ self.now.trace }
        ensures counts { (calls : ℕ) × (accepted : ℕ) × T.counts self.now.trace calls accepted }
        ensures agrees { T.agrees self.now.trace (seen D.Disk self.now.core) }
    {
        &self.trace
    }

    /// If all seats are given, returns how many calls are recorded, and how many of them are accepted commands, both
    /// modulo 2^64. These are the sums of what was done from the seats.
    ///
    /// # Errors
    ///
    /// A seat is missing, as always at a desk without books. Then all are handed back.
    pub fn settle(&mut self, seats: Vec<Seat<N>>) -> Result<(u64, u64), MissingSeats<N>>
        ensures same { self.new ≡ self.old }
        ensures counts { OnOk result (T.counts self.old.trace (calls_of seats.items) (accepted_of seats.items)) }
        ensures sums { IfOk result (λ r. (r.0 ≡ calls_of seats.items % 2 ^ 64) × (r.1 ≡ accepted_of seats.items % 2 ^ 64)) }
        ensures missing { MatchResult result (λ _. vec_len seats ≡ N.seats) (λ e. (e.seats.items ≡ seats.items) × (vec_len seats ≢ N.seats)) }
    {
        match self.ledgers.settle(seats) {
            Ok(()) => Ok(self.trace.numbers()),
            Err(missing) => Err(missing),
        }
    }

    /// The store. The trace and the seats are dropped.
    pub fn into_core(self) -> Core<D>
        ensures core { result ≡ self.core }
        ensures agrees { T.agrees self.trace (seen D.Disk self.core) }
    {
        let Desk {
            core,
            trace: _,
            ledgers: _,
        } = self;
        core
    }

    /// Gives the device back, at any moment. Each possible crash image of it represents the base or, if the store is
    /// failed, the base after some first part of the commands that waited; both are as its failing call began.
    pub fn close(self) -> D
        ensures disk { result ≡ self.core.disk }
        ensures safe { self.core.failed ≡ false → LeavesOnly (D.content result) (StandsFor self.core.shape self.core.base) }
        ensures begun { LeavesOnly (D.content result) (HoldsPrefix self.core.shape self.core.base self.core.waiting) }
        ensures left { LeavesBegun (D.content result) self.core.shape }
    {
        self.into_core().close()
    }
}
