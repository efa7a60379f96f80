//! A repository in memory, with one writer and some readers.
ghost use Rattle.std.specs.Prelude.{◌≡◌, Some};
ghost use Rattle.hgs_mem.specs.Steady.{steady_tree};
ghost use Rattle.hgs_world.specs.Working.{CanGoOn};
ghost use Rattle.hgs_world.specs.declared.working.Working.{Working};

use crate::book::Book;
use crate::reading::Reading;
use crate::working::Working;
use hgs_mem::steady::SteadyFiles;
use std::alloc::Global;

/// A repository in memory, the writer that is at work on it, and its readers.
#[derive(Drop)]
pub struct World {
    pub(crate) alloc: Global,
    pub(crate) files: SteadyFiles,
    pub(crate) writer: Option<Working>,
    pub(crate) readers: Vec<Reading>,
    /// The commands that were published.
    pub(crate) book: Book,
    /// Whether there was no memory at some event.
    pub(crate) spent: bool,
    ghost at_work: { (w : Working) → writer ≡ Some w → CanGoOn (steady_tree files) w },
}
