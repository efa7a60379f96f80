//! Names of revisions in what was loaded.
ghost use Rattle.std.specs.Prelude.{◌≡◌, ◌<◌, [], ◌∷◌, ℕ, List, length, Err, IfErr, IfOk, IfSome};
ghost use Rattle.hgs_model.specs.Step.{as_parents, or_unknown};
ghost use Rattle.hgs_reader.specs.Names.{mark_named, named};
ghost use Rattle.hgs_steps.specs.Loaded.{view_of};
ghost use Rattle.hgs_steps.specs.Parents.{AreBelow, means_no_parent, named_all, parents_answer, parents_behind, two_then};
ghost use Rattle.hgs_steps.specs.Steps.{as_fault};

use crate::fault::PlanFault;
use crate::loaded::Loaded;
use hgs_bytes::names::Names;
use hgs_bytes::parts::equal;
use hgs_model::command::Refusal;
use hgs_reader::names::revision_named;

/// The first two of the changesets that a commit named so far.
#[derive(Clone, Copy)]
struct FirstTwo {
    first: Option<u32>,
    second: Option<u32>,
}

impl FirstTwo {
    /// One more changeset.
    fn with(self, rev: u32) -> FirstTwo
        ensures two { (more : List ℕ) → as_parents (two_then result.first result.second more) ≡ as_parents (two_then self.first self.second (rev ∷ more)) }
        ensures below { (count : ℕ) → AreBelow self.first self.second count → rev < count → AreBelow result.first result.second count }
    {
        match (self.first, self.second) {
            (None, _) => FirstTwo {
                first: Some(rev),
                second: None,
            },
            (first, None) => FirstTwo {
                first,
                second: Some(rev),
            },
            (_, Some(_)) => self,
        }
    }

    /// The parents, where these are all.
    fn parents(self) -> (Option<u32>, Option<u32>)
        ensures parents { result ≡ as_parents (two_then self.first self.second []) }
        ensures below { (count : ℕ) → AreBelow self.first self.second count → AreBelow result.0 result.1 count }
    {
        match (self.first, self.second) {
            (None, _) => (None, None),
            (first, None) => (first, None),
            (Some(first), Some(second)) => {
                if first == second {
                    (Some(first), None)
                } else {
                    (Some(first), Some(second))
                }
            }
        }
    }
}

impl Loaded {
    /// The changeset that a name names: `null` names none, `.` the first working parent, `tip` the last changeset; then a
    /// number, a node's 40 digits, a bookmark.
    pub fn resolve(&self, name: &[u8]) -> Option<u32>
        ensures named { result ≡ named (view_of self.now) name.now }
        ensures below { IfSome result (λ rev. rev < length self.now.changelog.entries) }
    {
        revision_named(&self.changelog, &self.bookmarks, self.working.first, name)
    }

    /// The changeset that a name names; else the command that names it is refused.
    pub fn found(&self, name: &[u8]) -> Result<u32, PlanFault>
        ensures found { result ≡ as_fault (or_unknown (named (view_of self.now) name.now)) }
        ensures below { IfOk result (λ rev. rev < length self.now.changelog.entries) }
    {
        match self.resolve(name) {
            Some(rev) => Ok(rev),
            None => Err(PlanFault::Refused(Refusal::UnknownRevision)),
        }
    }

    /// The changeset of a bookmark; none where it is not there, or its node is unknown.
    pub fn bookmarked(&self, name: &[u8]) -> Option<u32>
        ensures named { result ≡ mark_named self.now.changelog.entries self.now.bookmarks name.now }
        ensures below { IfSome result (λ rev. rev < length self.now.changelog.entries) }
    {
        match self.bookmarks.get(name) {
            Some(node) => self.changelog.rev_of(&node),
            None => None,
        }
    }

    // Whether a commit that names this means no parent.
    fn means_no_parent(&self, name: &[u8]) -> bool
        ensures { result ≡ means_no_parent self.now name.now }
    {
        equal(name, b"null") || (equal(name, b".") && self.working.first.is_none())
    }

    // The first two, where one more name is looked at.
    fn next_parent(&self, two: FirstTwo, name: &[u8]) -> Result<FirstTwo, PlanFault>
        ensures ok { IfOk result (λ next. (names : List (List ℕ)) → parents_behind next.first next.second (named_all self.now names) ≡ parents_behind two.first two.second (named_all self.now (name.now ∷ names))) }
        ensures err { IfErr result (λ fault. (names : List (List ℕ)) → parents_behind two.first two.second (named_all self.now (name.now ∷ names)) ≡ Err fault) }
        ensures below { IfOk result (λ next. AreBelow two.first two.second (length self.now.changelog.entries) → AreBelow next.first next.second (length self.now.changelog.entries)) }
    {
        if self.means_no_parent(name) {
            return Ok(two);
        }
        match self.found(name) {
            Ok(rev) => Ok(two.with(rev)),
            Err(fault) => Err(fault),
        }
    }

    /// The parents of a commit that names these: `null`, and `.` without a working parent, mean none; a second parent that
    /// equals the first is dropped, and so are any behind it.
    pub fn parents(&self, names: &Names) -> Result<(Option<u32>, Option<u32>), PlanFault>
        ensures parents { result ≡ parents_answer (named_all self.now names.now) }
        ensures below { IfOk result (λ parents. AreBelow parents.0 parents.1 (length self.now.changelog.entries)) }
    {
        let mut two = FirstTwo {
            first: None,
            second: None,
        };
        for name in names.as_slice() {
            match self.next_parent(two, name.as_slice()) {
                Ok(next) => two = next,
                Err(fault) => return Err(fault),
            }
        }
        Ok(two.parents())
    }
}
