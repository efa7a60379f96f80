//! Files whose texts were read for the commit before, so that they are not read again.
ghost use Rattle.std.specs.Prelude.{◌≡◌, true, IfSome, OnOk};
ghost use Rattle.hgs_files.specs.Tree.{Tree};
ghost use Rattle.hgs_bytes.specs.Bytes.{same};
ghost use Rattle.hgs_commit.specs.Known.{AreFreeOf, AreKept, AreUntouched, IsKept, is_touched, touches};

use hgs_bytes::parts::{below, equal};
use hgs_index::node::Node;
use hgs_model::files::NewFile;
use hgs_reader::find::RevlogPaths;
use hgs_transaction::parts::Change;
use std::alloc::{AllocError, Global};

/// Behind more changes than this all files are read again.
const MOST_CHANGES: usize = 100;

/// A file of a commit whose body is that of the revision of this node in its filelog.
#[derive(Drop)]
pub struct KnownFile<'a> {
    pub file: &'a NewFile,
    pub node: Node,
    /// Whether its filelog is inline.
    pub inline: bool,
    pub paths: RevlogPaths,
}

/// What is known of the files of the commit before, from the last path to the first, and of those of the commit that is under way.
#[derive(Drop)]
pub struct Known<'a> {
    before: Vec<KnownFile<'a>>,
    now: Vec<KnownFile<'a>>,
}

// Whether a change appends to one of the two files of a filelog.
fn touches(change: &Change, paths: &RevlogPaths) -> bool
    ensures { result ≡ touches paths.now change.now }
{
    match change {
        Change::Append(appending) => {
            let path = appending.path.bytes();
            equal(path, paths.index.bytes()) || equal(path, paths.chunks.bytes())
        }
        Change::Replace(_) | Change::MakeIndex(_) | Change::RenameIndex(_) => false,
    }
}

// Whether one of the changes does.
fn is_touched(changes: &[Change], paths: &RevlogPaths) -> bool
    ensures { result ≡ is_touched changes.now paths.now }
{
    changes.iter().any(|change| touches(change, paths))
}

impl<'a> Known<'a> {
    /// Nothing is known. Takes no memory.
    pub fn none(alloc: Global) -> Known<'a>
        ensures { (t : Tree) → AreKept t result }
    {
        Known {
            before: Vec::new(alloc),
            now: Vec::new(alloc),
        }
    }

    // Whether the next file has another path, which does not come before this one, or there is none.
    fn is_behind(&self, path: &[u8]) -> bool {
        match self.before.last() {
            Some(known) => below(path, known.file.path.as_slice()),
            None => true,
        }
    }

    /// What is known of the file of this path. Nothing is known any more of those before it.
    pub fn next(&mut self, path: &[u8]) -> Option<KnownFile<'a>>
        ensures kept { (t : Tree) → AreKept t self.old → AreKept t self.new × IfSome result (IsKept t) }
        ensures path { IfSome result (λ known. same known.file.now.path path.now ≡ true) }
    {
        while !self.is_behind(path) {
            let Some(known) = self.before.pop() else {
                return None;
            };
            if equal(known.file.path.as_slice(), path) {
                return Some(known);
            }
        }
        None
    }

    /// Adds a file of the commit that is under way.
    pub fn push(&mut self, known: KnownFile<'a>) -> Result<(), AllocError>
        ensures { OnOk result ((t : Tree) → AreKept t self.old → IsKept t known.entry → AreKept t self.new) }
    {
        self.now.push(known)?;
        Ok(())
    }

    // Adds a file of the commit before, unless one of the changes appends to its filelog.
    fn keep(&mut self, known: KnownFile<'a>, changes: &[Change]) -> Result<(), AllocError>
        ensures before { OnOk result ((t : Tree) → AreFreeOf t changes.now self.old.before.items → IsKept t known.entry → AreFreeOf t changes.now self.new.before.items) }
        ensures now { OnOk result (self.new.now ≡ self.old.now) }
    {
        if is_touched(changes, &known.paths) {
            return Ok(());
        }
        self.before.push(known)?;
        Ok(())
    }

    /// The commit that was under way is the one before. What these changes append to is not known any more.
    pub fn turn(&mut self, changes: &[Change]) -> Result<(), AllocError>
        ensures { OnOk result ((t : Tree) → AreKept t self.old → AreUntouched t changes.now self.new) }
    {
        let left = if changes.len() > MOST_CHANGES {
            0
        } else {
            self.now.len()
        };
        self.before.truncate(0);
        self.now.truncate(left);
        while let Some(known) = self.now.pop() {
            self.keep(known, changes)?;
        }
        Ok(())
    }
}
