//! The heads of the branches of a session's history.
ghost use Rattle.std.specs.Prelude.{◌≡◌, ◌≤◌, ◌+◌, ◌++◌, [], true, length, List, OnOk, OnErr, IfErr};
ghost use Rattle.hgs_files.specs.Reads.{Grows};
ghost use Rattle.hgs_index.specs.Revision.{ParentsBefore};
ghost use Rattle.hgs_load.specs.Answer.{HasFaultCause};
ghost use Rattle.hgs_load.specs.Given.{Takes};
ghost use Rattle.hgs_revlog.specs.Log.{nodes_of};
ghost use Rattle.hgs_branch.specs.Taken.{with_changes};
ghost use Rattle.hgs_branch.specs.Text.{branches_text};
ghost use Rattle.hgs_branch.specs.declared.changeset.OnBranch.{OnBranch};
ghost use Rattle.hgs_branches.specs.Read.{stored_between, AreRead, IsRefused};
ghost use Rattle.hgs_branches.specs.Windows.{changes_asks};

use crate::read::read_changes;
use hgs_branch::heads::BranchHeads;
use hgs_files::files::Reads;
use hgs_load::answer::ReadAnswer;
use hgs_reader::session::Session;
use std::alloc::{AllocError, Global};
use std::marker::Model;

/// The heads of the branches of the first changesets of a history. Contracts see the parents of these and their branches.
#[derive(Debug, Drop)]
pub struct Branches {
    alloc: Global,
    heads: BranchHeads,
}

impl Model for Branches {
    ghost use Rattle.hgs_branch.specs.Taken.{Taken};

    ghost Value = { Taken };

    ghost view = { λ b. b.heads };
}

impl Branches {
    /// Of no changesets. Takes no memory.
    pub fn new(alloc: Global) -> Branches
        ensures { result ≡ record { parents = []; names = [] } }
    {
        Branches {
            alloc,
            heads: BranchHeads::new(alloc),
        }
    }

    /// How many changesets were taken.
    pub fn count(&self) -> u32
        ensures { result ≡ length self.now.parents }
    {
        self.heads.len()
    }

    /// Takes the changesets up to this number, and reads no other. A refusal changes nothing.
    pub fn advance<R: Reads>(
        &mut self,
        session: &Session,
        files: &mut R,
        upto: u32,
    ) -> Result<(), ReadAnswer>
        requires order { length self.old.parents ≤ upto }
        requires there { upto ≤ length session.now.changelog.entries }
        ensures ok { OnOk result ((changes : List OnBranch) × (self.new ≡ with_changes self.old changes) × (length self.old.parents + length changes ≡ upto) × AreRead (R.seen files.old) (R.start files.old) (R.seen files.new) session.now (length self.old.parents) changes) }
        ensures err { OnErr result (self.new ≡ self.old) }
        ensures refused { IfErr result (λ e. IsRefused (R.seen files.old) (R.start files.old) (R.seen files.new) session.now (length self.old.parents) upto e) }
        ensures given { Takes (λ _. tt) (R.given files.old) (R.given files.new) (R.seen files.old) (R.start files.old) (R.seen files.new) (changes_asks session.now (length self.old.parents) upto) result }
        ensures few { R.given files.new ≤ R.given files.old + stored_between session.now.changelog.entries (length self.old.parents) upto }
        ensures seen { Grows (R.seen files.old) (R.seen files.new) }
        ensures same_start { R.start files.new ≡ R.start files.old }
        ensures still { R.alone ≡ true → R.seen files.new ≡ R.seen files.old }
        ensures cause { HasFaultCause (R.faults files.old) (R.faults files.new) (R.denied files.old) (R.denied files.new) result }
    {
        let changes = match read_changes(self.alloc, session, files, self.heads.len(), upto) {
            Ok(changes) => changes,
            Err(refusal) => return Err(refusal),
        };
        match self.heads.extend(&changes) {
            Ok(()) => Ok(()),
            Err(_) => Err(ReadAnswer::Memory),
        }
    }

    /// Adds a line for each head of each branch, by branch in the order of bytes, then by revision: branch, tab, revision, tab
    /// and node. A refusal adds nothing.
    pub fn print(&self, session: &Session, into: &mut Vec<u8>) -> Result<(), AllocError>
        ensures ok { OnOk result (ParentsBefore 0 self.now.parents → into.new.items ≡ into.old.items ++ branches_text self.now.parents self.now.names (nodes_of session.now.changelog.entries)) }
        ensures err { OnErr result (into.new.items ≡ into.old.items) }
    {
        self.heads.print(session.loaded().changelog(), into)
    }
}
