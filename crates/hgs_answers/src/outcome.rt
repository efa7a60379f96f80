//! What a command came to that writes.
ghost use Rattle.std.specs.Prelude.{◌≡◌};
ghost use Rattle.hgs_answers.specs.Answer.{published_word, status_of};

use hgs_bytes::bytes::Bytes;
use hgs_files::path::StorePath;
use hgs_index::kinds::Which;
use hgs_index::node::Node;
use hgs_plan::damage::Damage;

/// Whether readers see the transaction that was left unfinished.
#[derive(Clone, Copy, Debug, PartialEq, Eq)]
pub enum Published {
    No,
    Yes,
    /// Its last append failed, and how much of it stands could not be asked.
    Unknown,
}

impl Published {
    /// The word that a refusal prints.
    pub fn word(self) -> &'static [u8]
        ensures { result.now ≡ published_word self }
    {
        match self {
            Published::No => b"no",
            Published::Yes => b"yes",
            Published::Unknown => b"unknown",
        }
    }
}

/// What a command came to that writes. A `rev` is the number of a changeset, unless it is said otherwise.
#[derive(Debug, Drop)]
pub enum Outcome {
    /// The changeset that is new, or that the command named; where a bookmark was deleted, the one that it had.
    Done { rev: u32, node: Node },
    /// Somebody else holds a lock: the bytes of its file, where they could be read.
    LockHeld(Option<Bytes>),
    /// An earlier transaction was left unfinished.
    Abandoned,
    UnknownRevision,
    /// The changeset that is as the command asks already.
    NothingChanged(u32),
    Damaged(Damage),
    /// A call on the files failed, and the repository is as before.
    Fault,
    /// A call failed, and so did the way back, or there was none any more.
    Unfinished(Published),
    Limit(Which),
    /// The index with this path has another text with the same node at revision `rev`.
    Collision { path: StorePath, rev: u32 },
    /// This path, which is listed or new in the same commit, would have the same files.
    NameClash(Bytes),
    NeedsForce(u32),
    Memory,
    /// A file with bytes stands where one of a new filelog is to be.
    InTheWay(StorePath),
    /// The source of a copy is no file of the first parent.
    UnknownPath,
    /// The transaction stands, and it is not sure that it would after a loss of power. Nothing answers this yet.
    Unsettled { rev: u32, node: Node },
    /// A copy has this path, which a parent has a file at.
    CopyOver(Bytes),
}

impl Outcome {
    /// The exit status of a command that ends so.
    pub fn status(&self) -> u8
        ensures { result ≡ status_of self.now }
    {
        match self {
            Outcome::Done { .. } => 0,
            Outcome::LockHeld(_) => 10,
            Outcome::Abandoned => 11,
            Outcome::UnknownRevision => 12,
            Outcome::NothingChanged(_) => 13,
            Outcome::Damaged(_) => 15,
            Outcome::Fault => 16,
            Outcome::Unfinished(_) => 17,
            Outcome::Limit(_) => 20,
            Outcome::Collision { .. } => 21,
            Outcome::NameClash(_) => 22,
            Outcome::NeedsForce(_) => 26,
            Outcome::Memory => 30,
            Outcome::InTheWay(_) => 34,
            Outcome::UnknownPath => 23,
            Outcome::Unsettled { .. } => 31,
            Outcome::CopyOver(_) => 32,
        }
    }
}
