//! What a writer has read of the files while it holds the locks.
ghost use Rattle.std.specs.Prelude.{◌≡◌, ◌<◌, length};
ghost use Rattle.std.specs.Option.{ForSome};

use hgs_bytes::bytes::Bytes;
use hgs_load::marks::WorkingParents;
use hgs_marks::bookmarks::Bookmarks;
use hgs_path::fncache::Fncache;
use hgs_phases::phases::Phases;
use hgs_revlog::revlog::Revlog;

/// The bytes of the files that transactions replace, as they stand; none where a file is absent.
#[derive(Debug, Drop)]
pub struct Standing {
    pub bookmarks: Option<Bytes>,
    pub dirstate: Option<Bytes>,
    pub roots: Option<Bytes>,
}

/// What was read of a repository's files. A phase for each changeset, and working parents that are in the history.
#[derive(Drop)]
pub struct Loaded {
    pub changelog: Revlog,
    pub manifest: Revlog,
    pub bookmarks: Bookmarks,
    pub working: WorkingParents,
    pub phases: Phases,
    pub fncache: Fncache,
    /// The length of the file that lists the filelogs.
    pub fncache_length: u64,
    pub standing: Standing,
    pub ghost first_stands: { ForSome working.first (λ rev. rev < length changelog.entries) },
    pub ghost second_stands: { ForSome working.second (λ rev. rev < length changelog.entries) },
    pub ghost phases_fit: { length phases ≡ length changelog.entries },
}

impl Loaded {
    ghost use Rattle.hgs_steps.specs.Loaded.{has_inline};

    /// Whether the changelog or the manifest is inline. No writer appends to them then.
    pub fn has_inline(&self) -> bool
        ensures { result ≡ has_inline self.now }
    {
        self.changelog.is_inline() || self.manifest.is_inline()
    }
}
