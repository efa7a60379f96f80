//! What a schedule consists of.
ghost use Rattle.std.specs.Prelude.{◌≡◌, [], ◌∷◌, ◌++◌, length, OnOk, OnErr};

use hgs_bytes::bytes::Bytes;
use hgs_model::command::Command;
use std::alloc::{AllocError, Global};
use std::marker::Model;

/// One event. A `u64` is a number of bytes, a `u32` that of a reader, and a `rev` a revision's name.
#[derive(Debug, Drop)]
pub enum Event {
    /// A writer begins with this command.
    Begin(Command),
    /// The writer's next operation is done: so many more of its bytes, or all that is left of it.
    Write(Option<u64>),
    /// The writer's next operation fails after so many more bytes.
    Fail(u64),
    /// The writer goes on until its next operation is the one that publishes.
    UntilPublish,
    /// The writer goes on until its next operation removes the journal.
    UntilClean,
    /// The writer goes on to its end.
    Finish,
    /// A reader begins to load.
    Open(u32),
    /// A reader's load makes its next read.
    Read(u32),
    /// A reader loads from beginning to end.
    Load(u32),
    /// A reader is asked for its log.
    Log(u32),
    /// A reader is asked for a file.
    Cat {
        reader: u32,
        rev: Bytes,
        path: Bytes,
    },
    /// A reader is asked for the phase of a changeset.
    Phase {
        reader: u32,
        rev: Bytes,
    },
    /// A reader is asked for its bookmarks.
    Bookmarks(u32),
    /// All stops after so many more bytes of the writer's next operation.
    Stop(u64),
    /// What a writer left unfinished is undone.
    Recover,
}

/// Events, one after another.
#[derive(Debug, Drop)]
pub struct Events {
    items: Vec<Event>,
}

impl Model for Events {
    ghost use Rattle.std.specs.Prelude.{List};
    ghost use Rattle.hgs_schedule.specs.declared.event.Event.{Event};

    ghost Value = { List Event };

    ghost view = { λ b. b.items.items };
}

impl Events {
    /// No events. Takes no memory.
    pub fn new(alloc: Global) -> Self
        ensures { result ≡ [] }
    {
        Events {
            items: Vec::new(alloc),
        }
    }

    /// These events. Takes no memory.
    pub fn from_vec(items: Vec<Event>) -> Self
        ensures { result ≡ items.items }
    {
        Events { items }
    }

    /// The events as a vector again. Takes no memory.
    pub fn into_vec(self) -> Vec<Event>
        ensures { result.items ≡ self }
    {
        self.items
    }

    pub fn as_slice(&self) -> &[Event]
        ensures { result.now ≡ self.now }
    {
        self.items.as_slice()
    }

    pub fn len(&self) -> usize
        ensures { result ≡ length self.now }
    {
        self.items.len()
    }

    /// Adds an event at the end, or changes nothing where there is no memory.
    pub fn push(&mut self, event: Event) -> Result<(), AllocError>
        ensures ok { OnOk result (self.new ≡ self.old ++ event ∷ []) }
        ensures err { OnErr result (self.new ≡ self.old) }
    {
        self.items.push(event)?;
        Ok(())
    }
}

/// Which readers there are, and what happens.
#[derive(Debug, Drop)]
pub struct Schedule {
    /// How many readers there are; their numbers go from 0.
    pub readers: u32,
    pub events: Events,
}
