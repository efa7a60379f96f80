//! What a transaction is put together from: the changes of files, in their order.
ghost use Rattle.std.specs.Prelude.{◌≡◌, length};
ghost use Rattle.std.specs.List.{list_all};
ghost use Rattle.hgs_transaction.specs.Parts.{file_name, is_in_store, is_plain, length_before};

use hgs_bytes::bytes::Bytes;
use hgs_bytes::parts::starts;
use hgs_files::path::StorePath;
use std::marker::Model;

/// A file of the store that is appended to.
#[derive(Debug, Drop)]
pub struct Appending {
    /// Its path, which begins with `store/`.
    pub path: StorePath,
    /// Its length before, 0 where it is absent.
    pub before: u64,
    pub bytes: Bytes,
}

/// A file that transactions replace whole.
#[derive(Clone, Copy, Debug, PartialEq, Eq)]
pub enum ReplacedFile {
    PhaseRoots,
    Dirstate,
    Bookmarks,
}

impl ReplacedFile {
    /// Whether its name is plain, and not in the store.
    pub fn is_plain(self) -> bool
        ensures { result ≡ is_plain self }
    {
        match self {
            ReplacedFile::PhaseRoots => false,
            ReplacedFile::Dirstate | ReplacedFile::Bookmarks => true,
        }
    }

    pub fn name(self) -> &'static [u8]
        ensures { result.now ≡ file_name self }
    {
        match self {
            ReplacedFile::PhaseRoots => b"phaseroots",
            ReplacedFile::Dirstate => b"dirstate",
            ReplacedFile::Bookmarks => b"bookmarks",
        }
    }
}

/// A file that is replaced, by a new text that is renamed to it.
#[derive(Debug, Drop)]
pub struct Replacing {
    pub file: ReplacedFile,
    pub text: Bytes,
    /// The bytes that stand, none where the file is absent.
    pub standing: Option<Bytes>,
}

/// The change of one file.
#[derive(Debug, Drop)]
pub enum Change {
    Append(Appending),
    Replace(Replacing),
    /// A new index of the changelog is made beside the old one, whose bytes it begins with.
    MakeIndex(Bytes),
    /// The new index takes the place of the old one, which had this length, 0 where it was absent.
    RenameIndex(u64),
}

impl Change {
    /// Whether the file, if it is appended to, is in the store.
    pub fn is_in_store(&self) -> bool
        ensures { result ≡ is_in_store self.now }
    {
        match self {
            Change::Append(appending) => starts(appending.path.bytes(), b"store/"),
            Change::Replace(_) | Change::MakeIndex(_) | Change::RenameIndex(_) => true,
        }
    }

    /// The length before of the file that is appended to, 0 for every other change.
    pub fn length_before(&self) -> u64
        ensures { result ≡ length_before self.now }
    {
        match self {
            Change::Append(appending) => appending.before,
            Change::Replace(_) | Change::MakeIndex(_) | Change::RenameIndex(_) => 0,
        }
    }
}

/// Changes, in their order.
#[derive(Debug, Drop)]
pub struct Changes {
    items: Vec<Change>,
}

impl Model for Changes {
    ghost use Rattle.std.specs.Prelude.{List};
    ghost use Rattle.hgs_transaction.specs.declared.parts.Change.{Change};

    ghost Value = { List Change };

    ghost view = { λ c. c.items.items };
}

impl Changes {
    /// The changes of a vector, which it takes over without memory.
    pub fn from_vec(items: Vec<Change>) -> Self
        ensures { result ≡ items.items }
    {
        Changes { items }
    }

    /// The vector of the changes, handed back without memory.
    pub fn into_vec(self) -> Vec<Change>
        ensures { result.items ≡ self }
    {
        self.items
    }

    pub fn len(&self) -> usize
        ensures { result ≡ length self.now }
    {
        self.items.len()
    }

    /// Whether each file that is appended to is in the store.
    pub fn are_in_store(&self) -> bool
        ensures { result ≡ list_all is_in_store self.now }
    {
        self.items.iter().all(|change| change.is_in_store())
    }
}

/// Files that are replaced, in their order.
#[derive(Debug, Drop)]
pub struct Replacings {
    items: Vec<Replacing>,
}

impl Model for Replacings {
    ghost use Rattle.std.specs.Prelude.{List};
    ghost use Rattle.hgs_transaction.specs.declared.parts.Replacing.{Replacing};

    ghost Value = { List Replacing };

    ghost view = { λ r. r.items.items };
}

impl Replacings {
    /// The files of a vector, which it takes over without memory.
    pub fn from_vec(items: Vec<Replacing>) -> Self
        ensures { result ≡ items.items }
    {
        Replacings { items }
    }

    /// The vector of the files, handed back without memory.
    pub fn into_vec(self) -> Vec<Replacing>
        ensures { result.items ≡ self }
    {
        self.items
    }

    pub fn len(&self) -> usize
        ensures { result ≡ length self.now }
    {
        self.items.len()
    }
}

/// A transaction behind its journal: the changes before the publishing operation, that operation, and the files whose new
/// texts are renamed behind it.
///
/// A commit appends, renames the phase roots where they change, publishes by the append of the changelog's new entry, and
/// renames the dirstate and the bookmarks behind it. An import makes a new index of the changelog and publishes by its
/// rename, and is as a commit besides. A phase or bookmark command is published by its one rename.
#[derive(Debug, Drop)]
pub struct Parts {
    pub before: Changes,
    pub publishing: Change,
    pub after: Replacings,
}
