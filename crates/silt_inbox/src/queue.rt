// A list of jobs.
ghost use Rattle.std.specs.Prelude.{◌≡◌, [], ◌∷◌, ◌++◌, length, MatchResult};

use std::alloc::Global;
use std::marker::Model;
use std::mem;

/// Jobs in the order in which they came.
#[derive(Drop)]
pub struct Queue<J: Drop> {
    jobs: Vec<J>,
    alloc: Global,
}

/// A job that was not pushed: the queue was out of memory for it.
#[derive(Drop)]
pub struct NotPushed<J: Drop> {
    pub job: J,
}

impl<J: Drop> Model for Queue<J> {
    ghost use Rattle.std.specs.Prelude.{List};

    ghost Value = { List J };

    ghost view = { λ q. q.jobs.items };
}

impl<J: Drop> Queue<J> {
    /// No jobs.
    pub fn new(alloc: Global) -> Queue<J>
        ensures { result ≡ [] }
    {
        Queue {
            jobs: Vec::new(alloc),
            alloc,
        }
    }

    /// How many jobs wait.
    pub fn len(&self) -> usize
        ensures { result ≡ length self.now }
    {
        self.jobs.len()
    }

    /// Adds a job at the back, or hands it back if out of memory.
    pub fn push(&mut self, job: J) -> Result<(), NotPushed<J>>
        ensures { MatchResult result (λ _. self.new ≡ self.old ++ job ∷ []) (λ e. (e.job ≡ job) × (self.new ≡ self.old)) }
    {
        match self.jobs.push(job) {
            Ok(()) => Ok(()),
            Err(refused) => Err(NotPushed { job: refused.value }),
        }
    }

    /// Takes all jobs, in order. None are left. It needs no memory.
    pub fn drain(&mut self) -> Vec<J>
        ensures jobs { result.items ≡ self.old }
        ensures none { self.new ≡ [] }
    {
        mem::replace(&mut self.jobs, Vec::new(self.alloc))
    }
}
