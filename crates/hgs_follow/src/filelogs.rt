//! Filelogs, as what follows a file's history sees them.
use hgs_bytes::bytes::Bytes;
use hgs_index::node::Node;
use hgs_revlog::revlog::Revlog;
use std::alloc::{AllocError, AllocFailed};

/// A filelog that was loaded.
#[derive(Drop)]
pub struct Filelog {
    pub log: Revlog,
    /// The bytes of an inline index, in which the texts stand.
    pub bytes: Option<Bytes>,
}

/// A file revision that another was copied from, kept behind the text that says it.
#[derive(Debug, Drop)]
pub struct CopiedFrom {
    pub path: Bytes,
    pub node: Node,
}

/// Why a history is not followed.
#[derive(Debug, Drop)]
pub enum Stop<E> {
    /// A filelog or a text was refused.
    Refused(E),
    /// The filelog has no revision with the node.
    Missing,
    Memory,
}

impl<E: Drop> From<AllocError> for Stop<E> {
    ghost use Rattle.std.specs.Prelude.{◌≡◌};
    ghost use Rattle.hgs_follow.specs.declared.filelogs.Stop.TheVariants.{Memory};

    ghost from_gives = { λ _ e. e ≡ Memory };

    fn from(_: AllocError) -> Stop<E> {
        Stop::Memory
    }
}

impl<T: Drop, E: Drop> From<AllocFailed<T>> for Stop<E> {
    ghost use Rattle.std.specs.Prelude.{◌≡◌};
    ghost use Rattle.hgs_follow.specs.declared.filelogs.Stop.TheVariants.{Memory};

    ghost from_gives = { λ _ e. e ≡ Memory };

    fn from(_: AllocFailed<T>) -> Stop<E> {
        Stop::Memory
    }
}

/// The filelogs of a repository.
pub trait Filelogs {
    ghost use Rattle.std.specs.Prelude.{◌≡◌, ◌<◌, ℕ, List, length, IfOk, IfErr};
    ghost use Rattle.std.specs.Option.{option_map};
    ghost use Rattle.hgs_index.specs.Revision.{ParentsBefore};
    ghost use Rattle.hgs_revlog.specs.Loaded.{parents_in};
    ghost use Rattle.hgs_follow.specs.Asked.{Asked, Asking, loaded, log_of, text_of, told};
    ghost use Rattle.hgs_follow.specs.Search.{view_copied};
    ghost use Rattle.hgs_follow.specs.Source.{copied_from};
    ghost use Rattle.hgs_follow.specs.declared.filelogs.Filelog.{Filelog};

    /// Why a filelog or a text is refused.
    type Refusal: Drop;

    /// What a call may answer from one state to the next.
    ghost gives: { Self → Asked → Self → Type 0 };

    /// How a call may be refused.
    ghost refuses: { Self → Asking → Self.Refusal → Self → Type 0 };

    /// Which loaded filelogs are that of a path.
    ghost holds: { List ℕ → Filelog → Type 0 };

    /// Loads the filelog of a path; it has no revisions where the path has no filelog, or where no file can have that path.
    fn filelog(&mut self, path: &[u8]) -> Result<Filelog, Self::Refusal>
        ensures given { IfOk result (λ f. gives self.old (loaded path.now f.log.entries) self.new) }
        ensures holds { IfOk result (λ f. holds path.now f) }
        ensures earlier { IfOk result (λ f. ParentsBefore 0 (parents_in f.log.entries)) }
        ensures refused { IfErr result (λ e. refuses self.old (log_of path.now) e self.new) };

    /// Reads the text of a revision, and answers what it was copied from.
    fn source(
        &mut self,
        path: &[u8],
        filelog: &Filelog,
        rev: u32,
    ) -> Result<Option<CopiedFrom>, Self::Refusal>
        requires there { rev < length filelog.now.log.entries }
        requires holds { holds path.now filelog.now }
        ensures given { IfOk result (λ source. (text : List ℕ) × gives self.old (told path.now rev text) self.new × (option_map view_copied source ≡ copied_from text)) }
        ensures refused { IfErr result (λ e. refuses self.old (text_of path.now rev) e self.new) };
}
