//! The phase of each changeset.
ghost use Rattle.std.specs.Prelude.{◌≡◌, ◌<◌, ◌≤◌, ◌++◌, ◌∷◌, [], List, length, slice_get, slice_index_or, Some, IfOk, OnOk, OnErr};
ghost use Rattle.hgs_phases.specs.Phases.{parent_phase, phases_by, raised, raised_root, AreFrontPublic, AreOwn};
ghost use Rattle.hgs_model.specs.declared.phase.Phase.TheVariants.{Public};
ghost use Rattle.hgs_model.specs.Phase.{greater};
ghost use Rattle.hgs_revlog.specs.Log.{place_of};

use crate::roots::{Root, Roots};
use hgs_index::entry::Entry;
use hgs_model::phase::Phase;
use hgs_revlog::revlog::Revlog;
use std::alloc::{AllocError, Global};
use std::marker::Model;

/// The phase of each changeset of a changelog, in the order of revisions.
#[derive(Debug, Drop)]
pub struct Phases {
    pub(crate) phases: Vec<Phase>,
    /// Which changesets a call has reached so far, so that none takes memory.
    pub(crate) marks: Vec<bool>,
}

impl Model for Phases {
    ghost use Rattle.std.specs.Prelude.{List};
    ghost use Rattle.hgs_model.specs.declared.phase.Phase.{Phase};

    ghost Value = { List Phase };

    ghost view = { λ p. p.phases.items };

    ghost use Rattle.std.specs.Prelude.{◌≡◌, length};

    ghost invariant = { λ p. length p.marks.items ≡ length p.phases.items };
}

pub(crate) fn phase_at(phases: &[Phase], rev: u32) -> Phase
    ensures { result ≡ slice_index_or phases.now rev Public }
{
    match phases.get(rev as usize) {
        None => Phase::Public,
        Some(phase) => *phase,
    }
}

/// The phase of a parent, public where there is none.
fn parent_phase(phases: &[Phase], parent: Option<u32>) -> Phase
    ensures { result ≡ parent_phase phases.now parent }
{
    match parent {
        None => Phase::Public,
        Some(rev) => phase_at(phases, rev),
    }
}

/// Raises the phase of a changeset to a phase, if it is below.
pub(crate) fn raise(phases: &mut Vec<Phase>, rev: u32, to: Phase)
    requires { rev < length phases.old.items }
    ensures { phases.new.items ≡ raised phases.old.items rev to }
{
    let phase = phase_at(phases, rev).or_greater(to);
    phases[rev as usize] = phase;
}

/// Raises the phase of the changeset at which a root stands, if it is known.
fn raise_root(phases: &mut Vec<Phase>, root: &Root, known: &Revlog)
    requires { length phases.old.items ≡ length known.now.entries }
    ensures { phases.new.items ≡ raised_root phases.old.items (place_of known.now.entries root.now.node.0) root.now.phase }
{
    if let Some(rev) = known.rev_of(&root.node) {
        raise(phases, rev, root.phase);
    }
}

/// The greatest phase of the roots that stand at each changeset itself.
fn own_phases(alloc: Global, roots: &[Root], known: &Revlog) -> Result<Vec<Phase>, AllocError>
    ensures { IfOk result (λ phases. AreOwn roots.now known.now.entries phases.items) }
{
    let mut phases = vec![in alloc; Phase::Public; known.len() as usize]?;
    for root in roots {
        raise_root(&mut phases, root, known);
    }
    Ok(phases)
}

// The first changeset that is not public by itself; the number of all where each is.
fn first_above(phases: &[Phase]) -> usize
    ensures below { AreFrontPublic result phases.now }
    ensures within { result ≤ length phases.now }
{
    let mut rev = 0;
    while let Some(Phase::Public) = phases.get(rev) {
        rev += 1;
    }
    rev
}

/// The greater of the phases of a changeset's parents.
pub(crate) fn inherited(phases: &[Phase], entry: &Entry) -> Phase
    ensures { result ≡ greater (parent_phase phases.now entry.now.p1) (parent_phase phases.now entry.now.p2) }
{
    parent_phase(phases, entry.p1).or_greater(parent_phase(phases, entry.p2))
}

impl Roots {
    /// The phases that the roots give to the changesets of a changelog. Roots of unknown nodes are passed over.
    ///
    /// The time is that of a look-up for each root and of one pass over the changesets from the first on at which a root stands.
    pub fn phases_of(&self, alloc: Global, known: &Revlog) -> Result<Phases, AllocError>
        ensures { IfOk result (λ phases. phases ≡ phases_by self.now known.now.entries) }
    {
        let mut phases = own_phases(alloc, &self.roots, known)?;
        let count = known.len();
        let first = first_above(&phases) as u32;
        for rev in first..count {
            let greatest = inherited(&phases[..rev as usize], known.entry(rev));
            raise(&mut phases, rev, greatest);
        }
        let marks = vec![in alloc; false; phases.len()]?;
        Ok(Phases { phases, marks })
    }
}

impl Phases {
    /// The same phases once more.
    pub fn copy(&self) -> Result<Phases, AllocError>
        ensures { IfOk result (λ copy. copy ≡ self.now) }
    {
        Ok(Phases {
            phases: self.phases.clone()?,
            marks: self.marks.clone()?,
        })
    }

    /// How many changesets there are.
    pub fn len(&self) -> usize
        ensures { result ≡ length self.now }
    {
        self.phases.len()
    }

    /// The phase of a changeset.
    pub fn get(&self, rev: u32) -> Phase
        requires { rev < length self.now }
        ensures { slice_get self.now rev ≡ Some result }
    {
        self.phases[rev as usize]
    }

    /// Adds the phase of the next changeset, or changes nothing where there is no memory.
    pub fn push(&mut self, phase: Phase) -> Result<(), AllocError>
        ensures ok { OnOk result (self.new ≡ self.old ++ phase ∷ []) }
        ensures err { OnErr result (self.new ≡ self.old) }
    {
        self.marks.reserve(1)?;
        self.phases.push(phase)?;
        match self.marks.push(false) {
            Ok(()) => Ok(()),
            Err(_) => unreachable!(),
        }
    }
}
