//! The jobs of each worker.
ghost use Rattle.std.specs.Prelude.{◌≡◌, ◌<◌, [], length, replicate, IfOk, OnOk};
ghost use Rattle.hgs_script.specs.Read.{has_room, with_job};

use crate::job::{Job, Jobs};
use std::alloc::{AllocError, Global};
use std::marker::Model;

const MOST_JOBS: usize = 10_000;

/// The jobs of each worker, whose numbers go from 0.
#[derive(Debug, Drop)]
pub struct Workers {
    items: Vec<Jobs>,
}

impl Model for Workers {
    ghost use Rattle.std.specs.Prelude.{List};
    ghost use Rattle.hgs_script.specs.declared.job.Job.{Job};

    ghost Value = { List (List Job) };

    ghost view = { λ b. b.items.items };
}

impl Workers {
    /// So many workers, who have no jobs yet.
    pub(crate) fn idle(alloc: Global, count: u32) -> Result<Self, AllocError>
        ensures { IfOk result (λ w. w ≡ replicate count []) }
    {
        let mut items = Vec::new(alloc);
        for _ in 0..count {
            items.push(Jobs::new(alloc))?;
        }
        Ok(Workers { items })
    }

    pub fn as_slice(&self) -> &[Jobs]
        ensures { result.now ≡ self.now }
    {
        self.items.as_slice()
    }

    /// How many workers there are.
    pub fn len(&self) -> usize
        ensures { result ≡ length self.now }
    {
        self.items.len()
    }

    /// Whether there is a worker of this number, who may have one more job.
    pub(crate) fn has_room(&self, worker: usize) -> bool
        ensures { result ≡ has_room self.now worker }
    {
        worker < self.items.len() && self.items[worker].len() < MOST_JOBS
    }

    /// Adds a job behind those of a worker.
    pub(crate) fn push(&mut self, worker: usize, job: Job) -> Result<(), AllocError>
        requires { worker < length self.old }
        ensures { OnOk result (self.new ≡ with_job self.old worker job) }
    {
        self.items[worker].push(job)
    }
}
