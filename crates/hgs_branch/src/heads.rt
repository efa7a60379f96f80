//! The heads of branches.
ghost use Rattle.std.specs.Prelude.{◌≡◌, ◌<◌, ◌+◌, ◌^◌, ◌++◌, [], length, OnOk, OnErr};
ghost use Rattle.hgs_index.specs.Revision.{ParentsBefore};
ghost use Rattle.hgs_revlog.specs.Log.{nodes_of};
ghost use Rattle.hgs_branch.specs.Taken.{with_changes};
ghost use Rattle.hgs_branch.specs.Text.{branches_text};

use crate::changeset::OnBranch;
use crate::course::{Course, add_and_mark, forget};
use crate::print::lines_of;
use crate::reach::spread;
use hgs_revlog::revlog::Revlog;
use std::alloc::{AllocError, Global};
use std::collections::BTreeMap;
use std::marker::Model;

/// The heads of the branches of some changesets, the first ones of a history. Contracts see the parents of these and their branches.
#[derive(Debug, Drop)]
pub struct BranchHeads {
    alloc: Global,
    course: Course,
}

impl Model for BranchHeads {
    ghost use Rattle.std.specs.Prelude.{◌<◌, ◌^◌, length};
    ghost use Rattle.hgs_branch.specs.Kept.{names_in, TracksCourse};
    ghost use Rattle.hgs_branch.specs.Taken.{Taken};
    ghost use Rattle.hgs_branch.specs.Reached.{IsLeftWithin};
    ghost use Rattle.hgs_branch.specs.Tracked.{parents_in};

    ghost Value = { Taken };

    ghost view = { λ h. record { parents = parents_in h.course.known.items; names = names_in h.course.names.items h.course.known.items } };

    ghost invariant = { λ h. TracksCourse h.course × IsLeftWithin h.course.reaches.items 0 0 × (length h.course.known.items < 2 ^ 32) };
}

impl BranchHeads {
    /// Of no changesets. Takes no memory.
    pub fn new(alloc: Global) -> BranchHeads
        ensures { result ≡ record { parents = []; names = [] } }
    {
        BranchHeads {
            alloc,
            course: Course {
                known: Vec::new(alloc),
                names: Vec::new(alloc),
                numbers: BTreeMap::new(alloc),
                heads: Vec::new(alloc),
                reaches: Vec::new(alloc),
            },
        }
    }

    /// How many changesets were taken.
    pub fn len(&self) -> u32
        ensures parents { result ≡ length self.now.parents }
        ensures names { result ≡ length self.now.names }
    {
        self.course.known.len() as u32
    }

    /// Takes the next changesets of the history. Where there is no memory for all of them, none is taken.
    pub fn extend(&mut self, changes: &[OnBranch]) -> Result<(), AllocError>
        requires { length self.old.parents + length changes.now < 2 ^ 32 }
        ensures ok { OnOk result (self.new ≡ with_changes self.old changes.now) }
        ensures err { OnErr result (self.new ≡ self.old) }
    {
        let count = self.course.known.len();
        let branches = self.course.names.len();
        match add_and_mark(self.alloc, &mut self.course, changes) {
            Ok(mut marks) => {
                let course = &mut self.course;
                spread(
                    self.alloc,
                    &course.known,
                    &mut course.heads,
                    &mut course.reaches,
                    &mut marks,
                    count,
                );
                Ok(())
            }
            Err(_) => {
                forget(&mut self.course, count, branches);
                Err(AllocError)
            }
        }
    }

    /// Adds a line for each head of each branch, by branch in the order of bytes, then by revision: branch, tab, revision, tab and the node that
    /// the history has. A refusal adds nothing.
    pub fn print(&self, history: &Revlog, into: &mut Vec<u8>) -> Result<(), AllocError>
        ensures ok { OnOk result (ParentsBefore 0 self.now.parents → into.new.items ≡ into.old.items ++ branches_text self.now.parents self.now.names (nodes_of history.now.entries)) }
        ensures err { OnErr result (into.new.items ≡ into.old.items) }
    {
        let lines = lines_of(self.alloc, &self.course, history)?;
        into.extend_from_slice(&lines)?;
        Ok(())
    }
}
