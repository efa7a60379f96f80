//! The commands that change files.
use hgs_model::phase::Phase;

/// A command that changes files, as its words say it. Revisions are given by their names.
#[derive(Clone, Copy)]
pub enum Order<'a> {
    /// Makes an empty repository.
    Init,
    /// Commits the record that stands on the input.
    Commit,
    /// Commits the records that stand on the input, all at once.
    Import,
    /// Undoes a transaction that was left unfinished.
    Recover,
    Move {
        rev: &'a [u8],
        phase: Phase,
        force: bool,
    },
    Mark {
        name: &'a [u8],
        rev: &'a [u8],
    },
    Unmark {
        name: &'a [u8],
    },
}
