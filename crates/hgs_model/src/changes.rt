//! The changesets of an import, which contracts see as a list.
ghost use Rattle.std.specs.Prelude.{◌≡◌, [], ◌∷◌, ◌++◌, length, OnOk, OnErr};

use crate::command::NewChange;
use std::alloc::{AllocError, Global};
use std::marker::Model;

/// Changesets to be recorded, one after another.
#[derive(Debug, Drop)]
pub struct NewChanges {
    items: Vec<NewChange>,
}

impl Model for NewChanges {
    ghost use Rattle.std.specs.Prelude.{List};
    ghost use Rattle.hgs_model.specs.declared.command.NewChange.{NewChange};

    ghost Value = { List NewChange };

    ghost view = { λ b. b.items.items };
}

impl NewChanges {
    /// No changesets. Takes no memory.
    pub fn new(alloc: Global) -> Self
        ensures { result ≡ [] }
    {
        NewChanges {
            items: Vec::new(alloc),
        }
    }

    /// These changesets. Takes no memory.
    pub fn from_vec(items: Vec<NewChange>) -> Self
        ensures { result ≡ items.items }
    {
        NewChanges { items }
    }

    /// The changesets as a vector again. Takes no memory.
    pub fn into_vec(self) -> Vec<NewChange>
        ensures { result.items ≡ self }
    {
        self.items
    }

    pub fn as_slice(&self) -> &[NewChange]
        ensures { result.now ≡ self.now }
    {
        self.items.as_slice()
    }

    pub fn len(&self) -> usize
        ensures { result ≡ length self.now }
    {
        self.items.len()
    }

    /// Adds a changeset at the end, or changes nothing where there is no memory.
    pub fn push(&mut self, change: NewChange) -> Result<(), AllocError>
        ensures ok { OnOk result (self.new ≡ self.old ++ change ∷ []) }
        ensures err { OnErr result (self.new ≡ self.old) }
    {
        self.items.push(change)?;
        Ok(())
    }
}
