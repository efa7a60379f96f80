//! What a worker has to do.
ghost use Rattle.std.specs.Prelude.{◌≡◌, [], ◌∷◌, ◌++◌, length, OnOk, OnErr};

use hgs_bytes::bytes::Bytes;
use hgs_model::command::Command;
use std::alloc::{AllocError, Global};
use std::marker::Model;

/// What is asked of a repository. A `rev` is a revision's name.
#[derive(Debug, Drop)]
pub enum Question {
    /// The phase of this revision.
    Phase(Bytes),
    Log,
    Heads,
    Bookmarks,
    Parents,
    /// The files of this revision.
    Files(Bytes),
    Cat { rev: Bytes, path: Bytes },
}

/// One job of a worker.
#[derive(Debug, Drop)]
pub enum Job {
    /// A command that writes.
    Change(Command),
    /// A question, which only reads.
    Ask(Question),
}

/// The jobs of a worker, in order.
#[derive(Debug, Drop)]
pub struct Jobs {
    items: Vec<Job>,
}

impl Model for Jobs {
    ghost use Rattle.std.specs.Prelude.{List};
    ghost use Rattle.hgs_script.specs.declared.job.Job.{Job};

    ghost Value = { List Job };

    ghost view = { λ b. b.items.items };
}

impl Jobs {
    /// No jobs. Takes no memory.
    pub fn new(alloc: Global) -> Self
        ensures { result ≡ [] }
    {
        Jobs {
            items: Vec::new(alloc),
        }
    }

    pub fn as_slice(&self) -> &[Job]
        ensures { result.now ≡ self.now }
    {
        self.items.as_slice()
    }

    pub fn len(&self) -> usize
        ensures { result ≡ length self.now }
    {
        self.items.len()
    }

    /// Adds a job at the end, or changes nothing where there is no memory.
    pub fn push(&mut self, job: Job) -> Result<(), AllocError>
        ensures ok { OnOk result (self.new ≡ self.old ++ job ∷ []) }
        ensures err { OnErr result (self.new ≡ self.old) }
    {
        self.items.push(job)?;
        Ok(())
    }
}
