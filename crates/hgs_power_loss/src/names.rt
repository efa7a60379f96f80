//! The names of the files on a disk whose power may fail.
ghost use Rattle.std.specs.Prelude.{◌≡◌, ℕ, List, Some, OnOk, IfOk, if◌then◌else◌};
ghost use Rattle.hgs_files.specs.Tree.{same_path};
ghost use Rattle.hgs_power_loss.specs.Kept.{noted};

use hgs_files::path::StorePath;
use std::alloc::{AllocError, Global};
use std::collections::BTreeMap;

/// By what a file is told from all others, whatever its name.
#[derive(Drop)]
pub enum Mark {
    /// It stood at the start, at this path.
    Stood(StorePath),
    /// It was made, after so many others.
    Made(usize),
}

impl Mark {
    /// Another copy.
    pub fn copy(&self, alloc: Global) -> Result<Mark, AllocError>
        ensures { IfOk result (λ mark. mark ≡ self.now) }
    {
        match self {
            Mark::Stood(path) => Ok(Mark::Stood(path.copy(alloc)?)),
            Mark::Made(number) => Ok(Mark::Made(*number)),
        }
    }
}

/// A change of the names.
#[derive(Drop)]
pub enum NameChange {
    /// The made file with this number gets its first name.
    Stands { path: StorePath, number: usize },
    /// A file gets another name, in place of what stood there.
    Moves { from: StorePath, to: StorePath },
    /// A file's name goes.
    Goes { path: StorePath },
}

/// Notes what stands at a path now.
pub fn set_name(
    table: &mut BTreeMap<StorePath, Option<Mark>>,
    path: StorePath,
    mark: Option<Mark>,
) -> Result<(), AllocError>
    ensures { OnOk result ((other : List ℕ) → noted table.new other ≡ (if same_path path other then Some mark else noted table.old other)) }
{
    table.insert(path, mark)?;
    Ok(())
}
