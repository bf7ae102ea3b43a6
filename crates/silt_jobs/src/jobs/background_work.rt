// Background work without workers: between the lines of a session, or all at once.
ghost use Rattle.std.specs.Prelude.{◌≡◌, ◌&&◌, not, IfErr, IfOk};
ghost use Rattle.silt_jobs.specs.BackgroundWork.{AdministersTended, StopsAt, TendsAll, TendsDue, TendsPlain, TendsThenDoes, begins, due_at_once, error_of, is_idle, is_paused, merges};

use silt_disk::Disk;
use silt_event::{Admin, AdminReply, Answerer, Event, Reply};
use silt_store_set::{Core, Progress, Refusal, Served};
use std::alloc::Global;
use std::marker::Model;

/// How many steps of each kind were done.
#[derive(Clone, Copy, Debug, PartialEq, Eq)]
pub struct Steps {
    pub converted: u64,
    pub merged: u64,
}

/// Does all background work of a store: conversions first, because they make room for puts. With a number it begins a
/// merge only of at least so many hash stores, or if a conversion waits for a hash region.
///
/// # Errors
///
/// That of the first step that is refused. The steps before it are done.
pub fn tend_all<D: Disk>(
    alloc: Global,
    core: &mut Core<D>,
    least: Option<u32>,
) -> Result<Steps, Refusal<D::Fault>>
    ensures done { IfOk result (TendsAll D.Disk least core.old core.new) }
    ensures refused { IfErr result (StopsAt D.Disk (due_at_once least) core.old core.new) }
{
    let mut steps = Steps {
        converted: 0,
        merged: 0,
    };
    for turn in 0..u64::MAX {
        if core.wants_convert() {
            core.convert(alloc)?;
            steps.converted += 1;
        } else if merges(core, least) {
            core.merge(alloc)?;
            steps.merged += 1;
        } else {
            return Ok(steps);
        }
    }
    Ok(steps)
}

// Whether there is a step of merging to do: with a number, of at least so many hash stores.
fn merges<D: Disk>(core: &Core<D>, least: Option<u32>) -> bool
    ensures { result ≡ merges core.now least }
{
    match least {
        Some(least) => core.may_merge(least),
        None => core.wants_merge(),
    }
}

/// Does the background work that is due before a line: it converts all frozen logs, and it merges if a conversion waits
/// for a hash region. So each put finds a free log. With a number it also merges once there are so many hash stores.
///
/// # Errors
///
/// That of the first step that is refused. The steps before it are done. `Spent`, if the most steps were done.
pub fn tend_due<D: Disk>(
    alloc: Global,
    core: &mut Core<D>,
    least: Option<u32>,
) -> Result<(), Refusal<D::Fault>>
    ensures { TendsDue D.Disk least core.old core.new (error_of result) }
{
    for _turn in 0..u64::MAX {
        let converted = core.convert(alloc)?;
        if rests(core, least, converted) {
            return Ok(());
        }
        if is_paused(converted) {
            core.merge(alloc)?;
        }
    }
    Err(Refusal::Spent)
}

// Whether nothing is due before a line, if the next step of conversion is this one.
fn rests<D: Disk>(core: &Core<D>, least: Option<u32>, converted: Progress) -> bool
    ensures { result ≡ (is_idle converted && not (begins core.now least)) }
{
    matches!(converted, Progress::Idle) && !begins(core, least)
}

// Whether there is a step of a merge of at least this many hash stores to do, if there is a number.
fn begins<D: Disk>(core: &Core<D>, least: Option<u32>) -> bool
    ensures { result ≡ begins core.now least }
{
    match least {
        Some(least) => core.may_merge(least),
        None => false,
    }
}

// Whether no conversion can go on before a merge has ended.
fn is_paused(converted: Progress) -> bool
    ensures { result ≡ is_paused converted }
{
    matches!(converted, Progress::Idle | Progress::Waiting)
}

/// A disk whose store can do the background work that is due before a line.
pub trait Tended: Served {
    /// Does that work as [`tend_due`] does it. Returns why a step was refused, if one was.
    fn tend_on(core: &mut Core<Self>, alloc: Global, least: Option<u32>) -> Option<Refusal<()>>
        ensures { TendsPlain Self.Disk least core.old core.new result };
}

/// The background work of [`tend_due`]. Returns why a step was refused, without its fault, if one was.
pub fn tend_plain<D: Disk>(
    alloc: Global,
    core: &mut Core<D>,
    least: Option<u32>,
) -> Option<Refusal<()>>
    ensures { TendsPlain D.Disk least core.old core.new result }
{
    match tend_due(alloc, core, least) {
        Ok(()) => None,
        Err(refusal) => Some(refusal.plain()),
    }
}

/// A store that does the background work that is due before each event. After a step that is refused it does no more.
#[derive(Drop)]
pub struct Tending<D: Disk> {
    core: Core<D>,
    least: Option<u32>,
    refusal: Option<Refusal<()>>,
}

impl<D: Disk> Model for Tending<D> {
    ghost use Rattle.std.specs.Coded.{codes};
    ghost use Rattle.silt_event.specs.Commands.{map_code};
    ghost use Rattle.silt_jobs.specs.BackgroundWork.{TendedState};

    ghost Value = { TendedState D };

    ghost coded = { Prim.hlevel (codes, map_code) };

    ghost view = { λ a. record { core = a.core; least = a.least; refusal = a.refusal } };
}

impl<D: Disk> Tending<D> {
    ghost use Rattle.std.specs.Prelude.{None};

    /// This store. With a number it also merges once there are so many hash stores.
    pub fn new(core: Core<D>, least: Option<u32>) -> Self
        ensures { result ≡ record { core = core; least = least; refusal = None } }
    {
        Tending {
            core,
            least,
            refusal: None,
        }
    }

    /// Why a step of its background work was refused, if one was.
    pub fn refusal(&self) -> Option<Refusal<()>>
        ensures { result ≡ self.now.refusal }
    {
        self.refusal
    }

    /// The store, as it is now.
    pub fn into_core(self) -> Core<D>
        ensures { result ≡ self.core }
    {
        self.core
    }
}

impl<D: Tended> Answerer for Tending<D> {
    ghost value_len = { λ tending. tending.core.shape.value_len };

    ghost answers = { TendsThenDoes D.Disk };

    ghost administers = { AdministersTended };

    fn answer(&mut self, alloc: Global, event: Event) -> Reply<()> {
        if self.refusal.is_some() {
            return D::answer_on(&mut self.core, alloc, &event);
        }
        self.refusal = D::tend_on(&mut self.core, alloc, self.least);
        D::answer_on(&mut self.core, alloc, &event)
    }

    fn administer(&self, admin: Admin) -> AdminReply {
        match admin {
            Admin::Info => AdminReply::Info(D::facts_on(&self.core), None),
            _ => AdminReply::NotServed,
        }
    }
}
