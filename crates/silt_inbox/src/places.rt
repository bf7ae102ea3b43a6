// The places of those who put jobs and of the one who takes them.
ghost use Rattle.std.specs.Prelude.{◌≡◌, ℕ, ◌+◌, ◌≤◌, Some, None, false, true, is_some, vec_len};
ghost use Rattle.std.specs.Option.{option_map, option_map_or};
ghost use Rattle.silt_inbox.specs.Books.{counted, has_books, jobs_of, with_put, with_taken};

use std::marker::{Brand, Model, PhantomData};
use std::sync::ledger::{Book, Ledger, Share};

/// Names an inbox. Each call of a program picks the name.
pub trait InboxId {
    /// The name of the ledger of the jobs put.
    ghost put_name: { ℕ };

    /// The name of the ledger of the jobs taken.
    ghost taken_name: { ℕ };

    /// How many feeders the inbox has. If they are more than a list can have, 2^64 or more, it keeps no books.
    ghost feeders: { ℕ };
}

impl InboxId for Brand {
    ghost put_name = { 0 };

    ghost taken_name = { 0 };

    ghost feeders = { 0 };
}

/// The ledger of the jobs put.
pub(crate) struct PutOf<P: InboxId> {
    of: PhantomData<P>,
}

/// The ledger of the jobs taken.
pub(crate) struct TakenOf<P: InboxId> {
    of: PhantomData<P>,
}

impl<P: InboxId> Ledger for PutOf<P> {
    ghost name = { P.put_name };

    ghost parts = { P.feeders };
}

impl<P: InboxId> Ledger for TakenOf<P> {
    ghost name = { P.taken_name };

    ghost parts = { 1 };
}

/// The books of an inbox. Contracts see their totals.
#[derive(Drop)]
pub(crate) struct Books<P: InboxId> {
    put: Book<PutOf<P>>,
    taken: Book<TakenOf<P>>,
    idle: Share<PutOf<P>>,
}

impl<P: InboxId> Model for Books<P> {
    ghost use Rattle.std.specs.Prelude.{◌≡◌};
    ghost use Rattle.silt_inbox.specs.Books.{JobTotals};

    ghost Value = { JobTotals };

    ghost view = { λ b. record { put = b.put.total; taken = b.taken.total } };

    ghost invariant = { λ b. (b.idle.parts ≡ 0) × (b.idle.amount ≡ 0) };
}

/// The place of one who puts. Contracts see how many jobs were put with it, if the inbox keeps books. It fits only the inbox that gave
/// it out.
#[derive(Drop)]
pub struct Feeder<P: InboxId> {
    share: Option<Share<PutOf<P>>>,
}

impl<P: InboxId> Model for Feeder<P> {
    ghost use Rattle.std.specs.Prelude.{◌≡◌, ℕ, Option, MatchOption, false, true};
    ghost use Rattle.std.specs.Option.{option_map};
    ghost use Rattle.silt_inbox.specs.Books.{has_books};

    ghost Value = { Option ℕ };

    ghost view = { λ f. option_map (λ s. s.amount) f.share };

    ghost invariant = { λ f. MatchOption f.share (has_books P.feeders ≡ false) (λ s. (has_books P.feeders ≡ true) × (s.parts ≡ 1)) };
}

/// The place of the one who takes. Contracts see how many jobs were taken with it, if the inbox keeps books. It fits only the inbox
/// that gave it out.
#[derive(Drop)]
pub struct Taker<P: InboxId> {
    share: Option<Share<TakenOf<P>>>,
}

impl<P: InboxId> Model for Taker<P> {
    ghost use Rattle.std.specs.Prelude.{◌≡◌, ℕ, Option, MatchOption, false, true};
    ghost use Rattle.std.specs.Option.{option_map};
    ghost use Rattle.silt_inbox.specs.Books.{has_books};

    ghost Value = { Option ℕ };

    ghost view = { λ t. option_map (λ s. s.amount) t.share };

    ghost invariant = { λ t. MatchOption t.share (has_books P.feeders ≡ false) (λ s. (has_books P.feeders ≡ true) × (s.parts ≡ 1)) };
}

impl<P: InboxId> Books<P> {
    // Empty books.
    pub(crate) fn new(
        put: Book<PutOf<P>>,
        taken: Book<TakenOf<P>>,
        idle: Share<PutOf<P>>,
    ) -> Books<P>
        requires totals { (put.total ≡ 0) × (taken.total ≡ 0) }
        requires idle { (idle.parts ≡ 0) × (idle.amount ≡ 0) }
        ensures { (result.put ≡ 0) × (result.taken ≡ 0) }
    {
        Books { put, taken, idle }
    }

    // The totals are what was put and taken with these places, which are all.
    pub(crate) fn settle(&mut self, feeders: Vec<Feeder<P>>, taker: &mut Taker<P>)
        requires all { vec_len feeders ≡ P.feeders }
        requires books { has_books P.feeders ≡ true }
        ensures same { (self.new ≡ self.old) × (taker.new ≡ taker.old) }
        ensures put { self.old.put ≡ jobs_of feeders.items }
        ensures taken { taker.old ≡ Some self.old.taken }
    {
        if let Some(share) = &mut taker.share {
            self.taken.audit(share);
        }
        let mut all = self.idle.empty();
        let mut feeders = feeders;
        while let Some(feeder) = feeders.pop() {
            feeder.leave(&mut all);
        }
        self.put.audit(&mut all);
    }
}

// Counts a job that is put, at its place and in the books, if there are any.
pub(crate) fn count_put<P: InboxId>(books: &mut Option<Books<P>>, feeder: &mut Feeder<P>)
    requires { is_some books.old ≡ has_books P.feeders }
    ensures place { feeder.new ≡ counted 1 feeder.old }
    ensures totals { books.new ≡ option_map (with_put 1) books.old }
{
    if let Some(books) = books {
        if let Some(share) = &mut feeder.share {
            books.put.add(share, 1);
        }
    }
}

// Counts jobs that are taken, at the place and in the books, if there are any.
pub(crate) fn count_taken<P: InboxId>(books: &mut Option<Books<P>>, taker: &mut Taker<P>, jobs: u64)
    requires { is_some books.old ≡ has_books P.feeders }
    ensures place { taker.new ≡ counted jobs taker.old }
    ensures totals { books.new ≡ option_map (with_taken jobs) books.old }
{
    if let Some(books) = books {
        if let Some(share) = &mut taker.share {
            books.taken.add(share, jobs);
        }
    }
}

impl<P: InboxId> Feeder<P> {
    // A place with one part of the ledger.
    pub(crate) fn split(rest: &mut Share<PutOf<P>>) -> Feeder<P>
        requires rest { (1 ≤ rest.old.parts) × (rest.old.amount ≡ 0) }
        requires books { has_books P.feeders ≡ true }
        ensures none { result ≡ Some 0 }
        ensures rest { (rest.new.parts + 1 ≡ rest.old.parts) × (rest.new.amount ≡ 0) }
    {
        Feeder {
            share: Some(rest.split_off(1, 0)),
        }
    }

    // A place at an inbox without books.
    pub(crate) fn unbooked() -> Feeder<P>
        requires { has_books P.feeders ≡ false }
        ensures { result ≡ None }
    {
        Feeder { share: None }
    }

    // Gives the place's part up.
    fn leave(self, all: &mut Share<PutOf<P>>)
        requires { is_some self ≡ true }
        ensures { (all.new.parts ≡ all.old.parts + 1) × (all.new.amount ≡ all.old.amount + option_map_or (λ n. n) self 0) }
    {
        if let Some(share) = self.share {
            all.merge(share);
        }
    }
}

impl<P: InboxId> Taker<P> {
    // The place with the whole ledger.
    pub(crate) fn of(share: Share<TakenOf<P>>) -> Taker<P>
        requires share { share.parts ≡ 1 }
        requires books { has_books P.feeders ≡ true }
        ensures { result ≡ Some share.amount }
    {
        Taker { share: Some(share) }
    }

    // The place at an inbox without books.
    pub(crate) fn unbooked() -> Taker<P>
        requires { has_books P.feeders ≡ false }
        ensures { result ≡ None }
    {
        Taker { share: None }
    }
}
