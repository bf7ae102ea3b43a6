// What a session was told of the calls at the desk.
ghost use Rattle.std.specs.Prelude.{◌≡◌, ◌≤◌, ◌<◌, IfSome, MatchOption, None, Some, length, slice_get, true};
ghost use Rattle.silt_session.specs.Tolds.{AsksBehind, IsInLog, IsTakenAt, IsToldMore, PassesOn, TellsAll};

use silt_desk::{CallPlace, CallView, Trace};
use std::marker::{Model, PhantomData};

/// The number of a session, a beginning of the calls at a desk, if its trace has a log, the first place at which a call of the session's
/// present events can stand, and the first one for the next command among them. Its type says that it is of the log of the desk's shard.
#[derive(Drop)]
pub struct Told<T: Trace> {
    session: u64,
    from: u64,
    next: u64,
    view: Option<CallView>,
    of: PhantomData<T>,
}

impl<T: Trace> Model for Told<T> {
    ghost use Rattle.std.specs.Prelude.{◌≡◌, ◌≤◌, IfSome, Some};
    ghost use Rattle.std.specs.Option.{option_map};
    ghost use Rattle.silt_session.specs.Tolds.{ToldState};

    ghost Value = { ToldState };

    ghost view = { λ t. record {
      session = t.session;
      from = t.from;
      next = t.next;
      shard = option_map (λ seen. seen.shard) t.view;
      calls = option_map (λ seen. seen.calls) t.view;
    } };

    ghost invariant = { λ t. IfSome t.view (λ seen. Some seen.book ≡ T.log seen.shard) × (t.from ≤ t.next) };
}

impl<T: Trace> Told<T> {
    /// A session of this number, which is told all calls that a trace logs now. Nothing is told only if it logs none.
    pub fn of(trace: &T, session: u64) -> Told<T>
        ensures all { TellsAll T.Trace trace.now result }
        ensures session { result.session ≡ session }
    {
        Told {
            session,
            from: 0,
            next: 0,
            view: trace.view(),
            of: PhantomData,
        }
    }

    /// The number of the session.
    pub(crate) fn session(&self) -> u64
        ensures { result ≡ self.now.session }
    {
        self.session
    }

    /// A copy.
    pub fn again(&self) -> Told<T>
        ensures { result ≡ self.now }
    {
        match &self.view {
            Some(view) => Told {
                session: self.session,
                from: self.from,
                next: self.next,
                view: Some(view.again()),
                of: PhantomData,
            },
            None => Told {
                session: self.session,
                from: self.from,
                next: self.next,
                view: None,
                of: PhantomData,
            },
        }
    }

    /// The same, for events that are asked now.
    pub fn asked(&self) -> Told<T>
        ensures { AsksBehind self.now result }
    {
        match &self.view {
            Some(view) => Told {
                session: self.session,
                from: view.len(),
                next: view.len(),
                view: Some(view.again()),
                of: PhantomData,
            },
            None => Told {
                session: self.session,
                from: self.from,
                next: self.next,
                view: None,
                of: PhantomData,
            },
        }
    }

    /// Adds all calls up to this place, if it is of the same shard.
    pub(crate) fn learn(&mut self, place: &Option<CallPlace>)
        requires { IsInLog T.log place.now }
        ensures told { IsToldMore self.old self.new }
        ensures next { self.new.next ≡ self.old.next }
    {
        if let (Some(view), Some(place)) = (&self.view, place) {
            if place.shard() == view.shard() {
                self.view = Some(place.seen_with(view));
            }
        }
    }

    // Whether the place is one of what was told, from the first of these on.
    fn has_from(&self, first: u64, place: &Option<CallPlace>) -> bool
        requires { IsInLog T.log place.now }
        ensures place { result ≡ true → IfSome self.now.calls (λ calls. MatchOption place.now ⊥ (λ p. (first ≤ p.number) × (slice_get calls p.number ≡ p.at))) }
        ensures all { self.now.calls ≡ None → result ≡ true }
    {
        match (&self.view, place) {
            (None, _) => true,
            (Some(view), Some(place)) if place.shard() == view.shard() => {
                first <= place.number() && place.is_in(view)
            }
            (Some(_), _) => false,
        }
    }

    /// Whether the place is one of what was told, so of the same shard, and none before the present events.
    pub(crate) fn has(&self, place: &Option<CallPlace>) -> bool
        requires { IsInLog T.log place.now }
        ensures place { result ≡ true → IfSome self.now.calls (λ calls. MatchOption place.now ⊥ (λ p. (self.now.from ≤ p.number) × (slice_get calls p.number ≡ p.at))) }
        ensures all { self.now.calls ≡ None → result ≡ true }
    {
        self.has_from(self.from, place)
    }

    // Whether the second place is behind the first.
    fn are_in_order(&self, place: &Option<CallPlace>, behind: &Option<CallPlace>) -> bool
        ensures order { result ≡ true → IfSome self.now.calls (λ calls. IfSome place.now (λ p. IfSome behind.now (λ q. p.number < q.number))) }
        ensures all { self.now.calls ≡ None → result ≡ true }
    {
        match (&self.view, place, behind) {
            (Some(_), Some(place), Some(behind)) => place.number() < behind.number(),
            _ => true,
        }
    }

    // Whether the session has this number, if anything is told.
    fn is_of(&self, session: u64) -> bool
        ensures same { result ≡ true → IfSome self.now.calls (λ calls. session ≡ self.now.session) }
        ensures all { self.now.calls ≡ None → result ≡ true }
    {
        self.view.is_none() || self.session == session
    }

    /// Whether the place of a call for this session is one of what was told, and none before that for the next command. If so, it is
    /// taken: the command behind it stands behind it.
    pub(crate) fn takes(&mut self, session: u64, place: &Option<CallPlace>) -> bool
        requires { IsInLog T.log place.now }
        ensures told { PassesOn self.old self.new }
        ensures session { result ≡ true → IfSome self.old.calls (λ calls. session ≡ self.old.session) }
        ensures place { result ≡ true → IfSome self.old.calls (λ calls. MatchOption place.now ⊥ (λ p. IsTakenAt self.old calls p self.new.next)) }
        ensures all { self.old.calls ≡ None → result ≡ true }
    {
        if !self.is_of(session) || !self.has_from(self.next, place) {
            return false;
        }
        if let (Some(_), Some(place)) = (&self.view, place) {
            self.next = place.behind();
        }
        true
    }

    /// The same, if another place behind it is one of what was told too.
    pub(crate) fn takes_before(
        &mut self,
        session: u64,
        place: &Option<CallPlace>,
        behind: &Option<CallPlace>,
    ) -> bool
        requires { IsInLog T.log place.now × IsInLog T.log behind.now }
        ensures told { PassesOn self.old self.new }
        ensures session { result ≡ true → IfSome self.old.calls (λ calls. session ≡ self.old.session) }
        ensures place { result ≡ true → IfSome self.old.calls (λ calls. MatchOption place.now ⊥ (λ p. IsTakenAt self.old calls p self.new.next)) }
        ensures behind { result ≡ true → IfSome self.old.calls (λ calls. MatchOption behind.now ⊥ (λ p. (self.old.from ≤ p.number) × (slice_get calls p.number ≡ p.at))) }
        ensures order { result ≡ true → IfSome self.old.calls (λ calls. IfSome place.now (λ p. IfSome behind.now (λ q. p.number < q.number))) }
        ensures all { self.old.calls ≡ None → result ≡ true }
    {
        if !self.has(behind) || !self.are_in_order(place, behind) {
            return false;
        }
        self.takes(session, place)
    }
}
