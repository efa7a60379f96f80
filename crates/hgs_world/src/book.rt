//! The commands that were published, and which of them nothing takes back any more.
ghost use Rattle.std.specs.Prelude.{◌≡◌, OnOk};
ghost use Rattle.hgs_world.specs.Book.{acknowledged_in, ended_in, no_commands, noted, published_in, taken_back, with_pending};

use crate::seen::NoMemory;
use hgs_model::command::Command;
use std::alloc::Global;
use std::marker::Model;

/// The commands that were published, in their order, and that of a writer at work which has not published yet.
#[derive(Drop)]
pub struct Book {
    published: Vec<Command>,
    /// How many of them, from the first on, have lost their journal, so that nothing takes them back.
    acknowledged: usize,
    pending: Option<Command>,
}

impl Model for Book {
    ghost use Rattle.hgs_world.specs.Book.{Commands};

    ghost Value = { Commands };

    ghost view = { λ b. record { published = b.published.items; acknowledged = b.acknowledged; pending = b.pending } };
}

impl Book {
    /// No commands. Takes no memory.
    pub fn new(alloc: Global) -> Book
        ensures { result ≡ no_commands }
    {
        Book {
            published: Vec::new(alloc),
            acknowledged: 0,
            pending: None,
        }
    }

    /// The commands that were published, in their order.
    pub fn commands(&self) -> &[Command]
        ensures { result.now ≡ self.now.published }
    {
        self.published.as_slice()
    }

    /// How many of them, from the first on, are acknowledged.
    pub fn acknowledged(&self) -> usize
        ensures { result ≡ self.now.acknowledged }
    {
        self.acknowledged
    }

    /// A writer begins with a command, for which room is made.
    pub fn begin(&mut self, command: Command) -> Result<(), NoMemory>
        ensures { OnOk result (self.new ≡ with_pending command self.old) }
    {
        self.published.reserve(1)?;
        self.pending = Some(command);
        Ok(())
    }

    // The command of the writer is published, if it was not before.
    fn publish(&mut self) -> Result<(), NoMemory>
        ensures { OnOk result (self.new ≡ published_in self.old) }
    {
        if let Some(command) = self.pending.take() {
            self.published.push(command)?;
        }
        Ok(())
    }

    // All that were published are acknowledged.
    fn acknowledge(&mut self)
        ensures { self.new ≡ acknowledged_in self.old }
    {
        self.acknowledged = self.published.len();
    }

    /// What the writer has come to is noted.
    pub fn note(&mut self, published: bool, acknowledged: bool) -> Result<(), NoMemory>
        ensures { OnOk result (self.new ≡ noted published acknowledged self.old) }
    {
        if published {
            self.publish()?;
        }
        if acknowledged {
            self.acknowledge();
        }
        Ok(())
    }

    /// The writer is gone, and with it a command that was not published.
    pub fn end(&mut self)
        ensures { self.new ≡ ended_in self.old }
    {
        self.pending = None;
    }

    /// What is not acknowledged is taken off.
    pub fn take_back(&mut self)
        ensures { self.new ≡ taken_back self.old }
    {
        self.published.truncate(self.acknowledged);
    }
}
