//! The files of a new changeset, which contracts see as a list.
ghost use Rattle.std.specs.Prelude.{◌≡◌, [], ◌∷◌, ◌++◌, length, OnOk, OnErr};

use hgs_bytes::bytes::Bytes;
use hgs_index::kinds::Flag;
use std::alloc::{AllocError, Global};
use std::marker::Model;

/// A file of a new changeset.
#[derive(Debug, Drop)]
pub struct NewFile {
    pub path: Bytes,
    pub flag: Flag,
    /// The file of the first parent that it is a copy of.
    pub from: Option<Bytes>,
    pub body: Bytes,
}

/// The files of a new changeset, one after another. They are its whole tree.
#[derive(Debug, Drop)]
pub struct NewFiles {
    items: Vec<NewFile>,
}

impl Model for NewFiles {
    ghost use Rattle.std.specs.Prelude.{List};
    ghost use Rattle.hgs_model.specs.declared.files.NewFile.{NewFile};

    ghost Value = { List NewFile };

    ghost view = { λ b. b.items.items };
}

impl NewFiles {
    /// No files. Takes no memory.
    pub fn new(alloc: Global) -> Self
        ensures { result ≡ [] }
    {
        NewFiles {
            items: Vec::new(alloc),
        }
    }

    /// These files. Takes no memory.
    pub fn from_vec(items: Vec<NewFile>) -> Self
        ensures { result ≡ items.items }
    {
        NewFiles { items }
    }

    /// The files as a vector again. Takes no memory.
    pub fn into_vec(self) -> Vec<NewFile>
        ensures { result.items ≡ self }
    {
        self.items
    }

    pub fn as_slice(&self) -> &[NewFile]
        ensures { result.now ≡ self.now }
    {
        self.items.as_slice()
    }

    pub fn len(&self) -> usize
        ensures { result ≡ length self.now }
    {
        self.items.len()
    }

    /// Adds a file at the end, or changes nothing where there is no memory.
    pub fn push(&mut self, file: NewFile) -> Result<(), AllocError>
        ensures ok { OnOk result (self.new ≡ self.old ++ file ∷ []) }
        ensures err { OnErr result (self.new ≡ self.old) }
    {
        self.items.push(file)?;
        Ok(())
    }
}
