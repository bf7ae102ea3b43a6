// Places at a desk, and the ledgers that count what is done from them.
ghost use Rattle.std.specs.Prelude.{◌≡◌, ◌≢◌, ℕ, ◌+◌, ◌<◌, ◌++◌, ◌∷◌, [], List, Some, None, false, true, is_some, IfOk, IfSome, MatchResult, vec_len, slice_get};
ghost use Rattle.std.specs.Option.{option_map};
ghost use Rattle.silt_inbox.specs.Books.{has_books};
ghost use Rattle.silt_desk.specs.Seats.{accepted_of, after_call, calls_of, counted, counts_of, for_session, fresh, unbooked};
ghost use Rattle.silt_desk.specs.declared.call.RecordedCall.{RecordedCall as Recorded};

use crate::call::Caller;
use crate::call_log::{CallPlace, CallView};
use std::alloc::{AllocError, Global};
use std::marker::{Brand, Model, PhantomData};
use std::sync::ledger::{Blank, Book, Ledger, Share};

/// Names a desk. Each call of a program picks the name.
pub trait DeskId {
    /// The name of the ledger of recorded calls.
    ghost calls_name: { ℕ };

    /// The name of the ledger of accepted commands.
    ghost accepted_name: { ℕ };

    /// How many seats the desk has. If they are more than a list can have, 2^64 or more, it keeps no books.
    ghost seats: { ℕ };
}

impl DeskId for Brand {
    ghost calls_name = { 0 };

    ghost accepted_name = { 0 };

    ghost seats = { 0 };
}

/// The ledger of a desk's recorded calls.
pub(crate) struct CallsOf<N: DeskId> {
    of: PhantomData<N>,
}

/// The ledger of a desk's accepted commands.
pub(crate) struct AcceptedOf<N: DeskId> {
    of: PhantomData<N>,
}

impl<N: DeskId> Ledger for CallsOf<N> {
    ghost name = { N.calls_name };

    ghost parts = { N.seats };
}

impl<N: DeskId> Ledger for AcceptedOf<N> {
    ghost name = { N.accepted_name };

    ghost parts = { N.seats };
}

// What a seat has done, as the books have it.
#[derive(Drop)]
struct Shares<N: DeskId> {
    calls: Share<CallsOf<N>>,
    accepted: Share<AcceptedOf<N>>,
}

impl<N: DeskId> Model for Shares<N> {
    ghost use Rattle.std.specs.Prelude.{◌≡◌};
    ghost use Rattle.silt_desk.specs.Seats.{Totals};

    ghost Value = { Totals };

    ghost view = { λ s. record { calls = s.calls.amount; accepted = s.accepted.amount } };

    ghost invariant = { λ s. (s.calls.parts ≡ 1) × (s.accepted.parts ≡ 1) };
}

/// A place at a desk. Contracts see who calls from it, how many calls from it are recorded and are accepted commands, if the desk keeps
/// books, and where its last recorded call stands, if the trace has a log. It fits only the desk that gave it out.
#[derive(Drop)]
pub struct Seat<N: DeskId> {
    caller: Caller,
    shares: Option<Shares<N>>,
    last: Option<CallPlace>,
}

impl<N: DeskId> Model for Seat<N> {
    ghost use Rattle.std.specs.Prelude.{◌≡◌, is_some};
    ghost use Rattle.silt_inbox.specs.Books.{has_books};
    ghost use Rattle.silt_desk.specs.Seats.{SeatState};

    ghost Value = { SeatState };

    ghost view = { λ s. record { caller = s.caller; counts = s.shares; last = s.last } };

    ghost invariant = { λ s. is_some s.shares ≡ has_books N.seats };
}

impl<N: DeskId> Seat<N> {
    /// Its number. The seats of a desk are numbered from 0.
    pub fn number(&self) -> u64
        ensures { result ≡ self.now.caller.seat }
    {
        self.caller.seat
    }

    /// Who calls from it.
    pub(crate) fn caller(&self) -> Caller
        ensures { result ≡ self.now.caller }
    {
        self.caller
    }

    /// Its calls are made for the session of this number from now on.
    pub fn serve(&mut self, session: u64)
        ensures { self.new ≡ for_session session self.old }
    {
        self.caller.session = Some(session);
    }

    /// Where its last recorded call stands in the trace's log. None if it has none, or if the trace has no log.
    pub fn last(&self) -> Option<CallPlace>
        ensures { result ≡ self.now.last }
    {
        match &self.last {
            Some(place) => Some(place.again()),
            None => None,
        }
    }

    // Notes that its last recorded call is the last one of these.
    pub(crate) fn note_last(&mut self, view: Option<CallView>)
        ensures caller { self.new.caller ≡ self.old.caller }
        ensures counts { self.new.counts ≡ self.old.counts }
        ensures last { IfSome self.new.last (λ place. IfSome view (λ seen. (place.book ≡ seen.book) × (place.shard ≡ seen.shard) × ((before : List Recorded) (c : Recorded) → seen.calls ≡ before ++ c ∷ [] → place.at ≡ Some c))) }
        ensures none { view ≡ None → self.new.last ≡ None }
    {
        self.last = match view {
            Some(view) => CallPlace::last(view),
            None => None,
        };
    }

    // Gives the seat's parts up.
    fn leave(self, calls: &mut Share<CallsOf<N>>, accepted: &mut Share<AcceptedOf<N>>)
        requires { has_books N.seats ≡ true }
        ensures calls { (calls.new.parts ≡ calls.old.parts + 1) × (calls.new.amount ≡ calls.old.amount + (counts_of self).calls) }
        ensures accepted { (accepted.new.parts ≡ accepted.old.parts + 1) × (accepted.new.amount ≡ accepted.old.amount + (counts_of self).accepted) }
    {
        let Seat {
            caller: _,
            shares,
            last,
        } = self;
        drop(last);
        if let Some(shares) = shares {
            let Shares {
                calls: mine,
                accepted: mine_accepted,
            } = shares;
            calls.merge(mine);
            accepted.merge(mine_accepted);
        }
    }
}

/// The given seats, if some of a desk's seats are missing.
#[derive(Drop)]
pub struct MissingSeats<N: DeskId> {
    pub seats: Vec<Seat<N>>,
}

// The books of a desk. Contracts see their totals.
#[derive(Drop)]
struct Books<N: DeskId> {
    calls: Book<CallsOf<N>>,
    accepted: Book<AcceptedOf<N>>,
    idle_calls: Share<CallsOf<N>>,
    idle_accepted: Share<AcceptedOf<N>>,
}

impl<N: DeskId> Model for Books<N> {
    ghost use Rattle.std.specs.Prelude.{◌≡◌};
    ghost use Rattle.silt_desk.specs.Seats.{Totals};

    ghost Value = { Totals };

    ghost view = { λ b. record { calls = b.calls.total; accepted = b.accepted.total } };

    ghost invariant = { λ b. (b.idle_calls.parts ≡ 0) × (b.idle_calls.amount ≡ 0) × (b.idle_accepted.parts ≡ 0) × (b.idle_accepted.amount ≡ 0) };
}

impl<N: DeskId> Books<N> {
    // The totals are what was done from these seats, which are all.
    fn settle(&mut self, seats: Vec<Seat<N>>)
        requires all { vec_len seats ≡ N.seats }
        requires books { has_books N.seats ≡ true }
        ensures same { self.new ≡ self.old }
        ensures sums { (self.old.calls ≡ calls_of seats.items) × (self.old.accepted ≡ accepted_of seats.items) }
    {
        let mut calls = self.idle_calls.empty();
        let mut accepted = self.idle_accepted.empty();
        let mut seats = seats;
        while let Some(seat) = seats.pop() {
            seat.leave(&mut calls, &mut accepted);
        }
        self.calls.audit(&mut calls);
        self.accepted.audit(&mut accepted);
    }
}

/// The ledgers of a desk. Contracts see the totals of its books, if it keeps any.
#[derive(Drop)]
pub(crate) struct Ledgers<N: DeskId> {
    seats: u64,
    books: Option<Books<N>>,
}

impl<N: DeskId> Model for Ledgers<N> {
    ghost use Rattle.std.specs.Prelude.{◌≡◌, Option, MatchOption, true, false};
    ghost use Rattle.silt_inbox.specs.Books.{has_books};
    ghost use Rattle.silt_desk.specs.Seats.{Totals};

    ghost Value = { Option Totals };

    ghost view = { λ l. l.books };

    ghost invariant = { λ l. MatchOption l.books (has_books N.seats ≡ false) (λ _. (has_books N.seats ≡ true) × (l.seats ≡ N.seats)) };
}

impl<N: DeskId> Ledgers<N> {
    // Empty ledgers, and this many seats, numbered from 0.
    pub fn new(
        alloc: Global,
        seats: u64,
        calls: Blank,
        accepted: Blank,
    ) -> Result<(Ledgers<N>, Vec<Seat<N>>), AllocError>
        requires calls { (calls.name ≡ N.calls_name) × (calls.parts ≡ N.seats) }
        requires accepted { (accepted.name ≡ N.accepted_name) × (accepted.parts ≡ N.seats) }
        requires seats { seats ≡ N.seats }
        ensures totals { IfOk result (λ r. r.0 ≡ Some (record { calls = 0; accepted = 0 })) }
        ensures seats { IfOk result (λ r. (vec_len r.1 ≡ seats) × ((k : ℕ) → k < seats → slice_get r.1.items k ≡ Some (fresh k))) }
    {
        let mut places = Vec::with_capacity(alloc, seats as usize)?;
        let (calls, mut calls_left) = calls.open::<CallsOf<N>>();
        let (accepted, mut accepted_left) = accepted.open::<AcceptedOf<N>>();
        for number in 0..seats {
            let shares = Shares {
                calls: calls_left.split_off(1, 0),
                accepted: accepted_left.split_off(1, 0),
            };
            places.push_reserved(Seat {
                caller: Caller {
                    seat: number,
                    session: None,
                },
                shares: Some(shares),
                last: None,
            });
        }
        let books = Books {
            calls,
            accepted,
            idle_calls: calls_left,
            idle_accepted: accepted_left,
        };
        let ledgers = Ledgers {
            seats,
            books: Some(books),
        };
        Ok((ledgers, places))
    }

    // No books, and this many seats, numbered from 0.
    pub fn unbooked(alloc: Global, seats: u64) -> Result<(Ledgers<N>, Vec<Seat<N>>), AllocError>
        requires { has_books N.seats ≡ false }
        ensures totals { IfOk result (λ r. r.0 ≡ None) }
        ensures seats { IfOk result (λ r. (vec_len r.1 ≡ seats) × ((k : ℕ) → k < seats → slice_get r.1.items k ≡ Some (unbooked k))) }
    {
        let mut places = Vec::with_capacity(alloc, seats as usize)?;
        for number in 0..seats {
            places.push_reserved(Seat {
                caller: Caller {
                    seat: number,
                    session: None,
                },
                shares: None,
                last: None,
            });
        }
        Ok((Ledgers { seats, books: None }, places))
    }

    // Counts a recorded call, and whether it is an accepted command, for the seat and in all, if there are books.
    pub fn count(&mut self, seat: &mut Seat<N>, acceptance: u64)
        ensures seat { seat.new ≡ after_call seat.old acceptance }
        ensures totals { self.new ≡ option_map (counted acceptance) self.old }
    {
        if let Some(books) = &mut self.books {
            if let Some(shares) = &mut seat.shares {
                books.calls.add(&mut shares.calls, 1);
                books.accepted.add(&mut shares.accepted, acceptance);
            }
        }
    }

    // If there are books and all seats are given, the totals are what was done from them.
    pub fn settle(&mut self, seats: Vec<Seat<N>>) -> Result<(), MissingSeats<N>>
        ensures same { self.new ≡ self.old }
        ensures sums { IfOk result (λ _. self.old ≡ Some (record { calls = calls_of seats.items; accepted = accepted_of seats.items })) }
        ensures missing { MatchResult result (λ _. vec_len seats ≡ N.seats) (λ e. (e.seats.items ≡ seats.items) × (vec_len seats ≢ N.seats)) }
    {
        let count = seats.len() as u64;
        let Some(books) = &mut self.books else {
            return Err(MissingSeats { seats });
        };
        if count != self.seats {
            return Err(MissingSeats { seats });
        }
        books.settle(seats);
        Ok(())
    }
}
