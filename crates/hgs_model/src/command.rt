//! Commands, and why one is refused.
use crate::changes::NewChanges;
use crate::files::NewFiles;
use crate::phase::Phase;
use hgs_bytes::bytes::Bytes;
use hgs_bytes::names::Names;
use thiserror::Error;

/// A changeset to be recorded.
#[derive(Debug, Drop)]
pub struct NewChange {
    /// Up to two names of revisions.
    pub parents: Names,
    pub user: Bytes,
    /// Seconds since 1970 began, in UTC.
    pub seconds: i64,
    /// The seconds by which the time zone is west of UTC.
    pub offset: i32,
    /// The least phase that it gets; a parent's greater one goes before it.
    pub phase: Phase,
    /// The bookmark that is set on it.
    pub bookmark: Option<Bytes>,
    /// The branch that it is on; without one it is on `default`.
    pub branch: Option<Bytes>,
    pub description: Bytes,
    pub files: NewFiles,
}

/// What a writer is asked to do. A `rev` is a revision's name.
#[derive(Debug, Drop)]
pub enum Command {
    Commit(NewChange),
    /// Changesets one after another, all of them or none.
    Import(NewChanges),
    Move {
        rev: Bytes,
        phase: Phase,
        force: bool,
    },
    Mark {
        name: Bytes,
        rev: Bytes,
    },
    Unmark {
        name: Bytes,
    },
}

/// Why a command is refused. A number is that of a changeset.
#[derive(Debug, Drop, Error)]
pub enum Refusal {
    /// A name names nothing, or the bookmark to be deleted is not there.
    #[error("unknown revision")]
    UnknownRevision,
    /// The source of a copy is no file of the first parent.
    #[error("unknown path")]
    UnknownPath,
    /// A copy has the path of a file of a parent: this one.
    #[error("a copy over a file of a parent")]
    CopyOver(Bytes),
    /// The changeset's phase would rise.
    #[error("the phase of changeset {0} rises only by force")]
    NeedsForce(u32),
    /// The changeset that is as the command asks already.
    #[error("nothing changed: changeset {0} is as asked")]
    NothingChanged(u32),
}
