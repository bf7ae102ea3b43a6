// Marks of places, and a range that contains all marked places.
ghost use Rattle.std.specs.Prelude.{◌≡◌, ◌+◌, ◌-◌, ◌≤◌, ◌||◌, ◌&&◌, not, ℕ, false, length, get_or};
ghost use Rattle.silt_disk.specs.Disk.{within};

use std::alloc::{AllocError, Global};
use std::marker::Model;

/// Places from 0 on, each marked or not. All marked places lie in one range. So work on the marked places takes time in
/// proportion to that range, and not to all places.
#[derive(Drop)]
pub(crate) struct Marks {
    marked: Vec<bool>,
    from: usize,
    to: usize,
}

impl Model for Marks {
    ghost use Rattle.std.specs.Prelude.{List, Bool};
    ghost use Rattle.silt_device.specs.Marks.{LieWithin};

    ghost Value = { List Bool };

    ghost view = { λ m. m.marked.items };

    ghost invariant = { λ m. LieWithin m.from m.to m.marked.items };
}

// Marks a range, and returns where it ends.
fn mark_range(marked: &mut [bool], at: usize, count: usize) -> usize
    requires { at + count ≤ length marked.old }
    ensures marks { (place : ℕ) → get_or marked.new place false ≡ (get_or marked.old place false || within at count place) }
    ensures end { result ≡ at + count }
{
    let end = at + count;
    marked[at..end].fill(true);
    end
}

// Clears the marks of a range.
fn clear_range(marked: &mut [bool], from: usize, to: usize)
    requires order { from ≤ to }
    requires fits { to ≤ length marked.old }
    ensures { (place : ℕ) → get_or marked.new place false ≡ (get_or marked.old place false && not (within from (to - from) place)) }
{
    marked[from..to].fill(false);
}

impl Marks {
    ghost use Rattle.std.specs.Prelude.{◌≡◌, ◌+◌, ◌≤◌, ◌||◌, ℕ, false, length, get_or, IfOk, replicate};
    ghost use Rattle.silt_disk.specs.Disk.{within};
    ghost use Rattle.silt_device.specs.Marks.{LieWithin};

    /// This many places, all unmarked.
    pub(crate) fn new(alloc: Global, len: usize) -> Result<Self, AllocError>
        ensures { IfOk result (λ marks. marks ≡ replicate len false) }
    {
        Ok(Marks {
            marked: vec![in alloc; false; len]?,
            from: 0,
            to: 0,
        })
    }

    /// Marks a range.
    pub(crate) fn mark(&mut self, at: usize, count: usize)
        requires { at + count ≤ length self.old }
        ensures marks { (place : ℕ) → get_or self.new place false ≡ (get_or self.old place false || within at count place) }
        ensures size { length self.new ≡ length self.old }
    {
        let end = mark_range(&mut self.marked, at, count);
        if self.from == self.to {
            self.from = at;
            self.to = end;
        } else {
            self.from = self.from.min(at);
            self.to = self.to.max(end);
        }
    }

    /// Whether each place is marked.
    pub(crate) fn as_slice(&self) -> &[bool]
        ensures { result.now ≡ self.now }
    {
        self.marked.as_slice()
    }

    /// A range that contains all marked places: where it begins, and where it ends.
    pub(crate) fn range(&self) -> (usize, usize)
        ensures { LieWithin result.0 result.1 self.now }
    {
        (self.from, self.to)
    }

    /// Clears all marks.
    pub(crate) fn clear(&mut self)
        ensures none { (place : ℕ) → get_or self.new place false ≡ false }
        ensures size { length self.new ≡ length self.old }
    {
        clear_range(&mut self.marked, self.from, self.to);
        self.from = 0;
        self.to = 0;
    }
}
