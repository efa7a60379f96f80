//! Revisions that are not needed, not in order, or not made by the rules.
ghost use Rattle.std.specs.Prelude.{◌≡◌, ◌<◌, ◌^◌, List, ◌++◌, ◌∷◌, [], length, Option, Some, IfOk};
ghost use Rattle.hgs_index.specs.Revision.{same_parent, same_parents};
ghost use Rattle.hgs_findings.specs.Namings.{in_order, is_after};
ghost use Rattle.hgs_judge.specs.Kinds.{AreKinds, AreStandings, breaks, kinds_by, later, naming_in, namings_in, rule_in, with_naming};
ghost use Rattle.hgs_findings.specs.Namings as findings;

use std::alloc::{AllocError, Global};

/// What the rules give to a changeset at a path.
#[derive(Clone, Copy, Debug, PartialEq, Eq)]
pub enum Rule {
    /// A revision of a parent is kept.
    Keeps(u32),
    /// One is made with these parents.
    Makes((Option<u32>, Option<u32>)),
    /// It can't be told.
    Untold,
}

/// The revision that a changeset names, and what the rules give.
#[derive(Clone, Copy, Debug, PartialEq, Eq)]
pub struct Naming {
    pub rev: u32,
    pub rule: Rule,
}

/// What the changesets that were looked at say of a revision: the first that names it, whether the rules gave it parents,
/// and whether it is another than the rules made or kept.
#[derive(Clone, Copy, Debug, PartialEq, Eq)]
pub struct Standing {
    pub first: Option<u32>,
    pub is_given: bool,
    pub is_wrong: bool,
}

/// What is wrong with a revision.
#[derive(Clone, Copy, Debug, PartialEq, Eq)]
pub struct Kinds {
    /// No changeset needs it.
    pub is_unneeded: bool,
    /// It stands out of the order of first use, or has another link.
    pub is_misplaced: bool,
    /// It has other parents than the rules give, or stands where they keep another.
    pub is_wrongly_made: bool,
}

// Whether two parents, each of which may be missing, are the same.
fn is_same_parent(a: Option<u32>, b: Option<u32>) -> bool
    ensures { result ≡ same_parent a b }
{
    match (a, b) {
        (None, None) => true,
        (None, Some(_)) => false,
        (Some(_), None) => false,
        (Some(a), Some(b)) => a == b,
    }
}

fn are_in_order(p: (Option<u32>, Option<u32>), q: (Option<u32>, Option<u32>)) -> bool
    ensures { result ≡ in_order p q }
{
    is_same_parent(p.0, q.0) && is_same_parent(p.1, q.1)
}

fn are_same(p: (Option<u32>, Option<u32>), q: (Option<u32>, Option<u32>)) -> bool
    ensures { result ≡ same_parents p q }
{
    are_in_order(p, q) || (is_same_parent(p.0, q.1) && is_same_parent(p.1, q.0))
}

impl Standing {
    // Whether a rule for this revision is broken by it. The first time that parents are given their order counts.
    fn breaks(&self, rule: &Rule, rev: u32, parents: (Option<u32>, Option<u32>)) -> bool
        ensures { result ≡ breaks self.now.is_given rev parents (rule_in rule.now) }
    {
        match *rule {
            Rule::Keeps(kept) => kept != rev,
            Rule::Makes(given) => {
                if self.is_given {
                    !are_same(given, parents)
                } else {
                    !are_in_order(given, parents)
                }
            }
            Rule::Untold => false,
        }
    }

    // With one more changeset, which names this revision.
    fn with(
        &self,
        changeset: u32,
        rule: &Rule,
        rev: u32,
        parents: (Option<u32>, Option<u32>),
    ) -> Standing
        ensures { result ≡ with_naming self.now changeset rev parents (rule_in rule.now) }
    {
        Standing {
            first: self.first.or(Some(changeset)),
            is_given: self.is_given || matches!(rule, Rule::Makes(_)),
            is_wrong: self.is_wrong || self.breaks(rule, rev, parents),
        }
    }
}

// Whether a changeset comes before another, which may be missing.
fn is_before(changeset: u32, other: Option<u32>) -> bool
    ensures { result ≡ is_after changeset other }
{
    match other {
        None => false,
        Some(other) => changeset < other,
    }
}

// The later of two changesets, each of which may be missing.
fn later(a: Option<u32>, b: Option<u32>) -> Option<u32>
    ensures { result ≡ later a b }
{
    match (a, b) {
        (None, b) => b,
        (Some(a), None) => Some(a),
        (Some(a), Some(b)) => Some(a.max(b)),
    }
}

impl Standing {
    // What is wrong with the revision, of its link and the last changeset that first names one before it.
    fn kinds(&self, link: u32, latest: Option<u32>) -> Kinds
        ensures { result ≡ kinds_by self.now link latest }
    {
        Kinds {
            is_unneeded: self.first.is_none(),
            is_misplaced: match self.first {
                None => false,
                Some(first) => link != first || is_before(first, latest),
            },
            is_wrongly_made: self.is_wrong,
        }
    }
}

const NOTHING: Standing = Standing {
    first: None,
    is_given: false,
    is_wrong: false,
};

// Takes what a changeset names.
fn note(
    standings: &mut [Standing],
    parents: &[(Option<u32>, Option<u32>)],
    changeset: u32,
    naming: &Naming,
)
    requires { length standings.old ≡ length parents.now }
    ensures { (front : List (Option findings.Naming)) → length front ≡ changeset → AreStandings front parents.now standings.old → AreStandings (front ++ naming_in (Some naming.now) ∷ []) parents.now standings.new }
{
    let rev = naming.rev as usize;
    if rev < parents.len() {
        standings[rev] = standings[rev].with(changeset, &naming.rule, naming.rev, parents[rev]);
    }
}

// What the changesets say of each revision, of which these are the parents. A revision that isn't among these is passed over.
fn standings(
    alloc: Global,
    parents: &[(Option<u32>, Option<u32>)],
    namings: &[Option<Naming>],
) -> Result<Vec<Standing>, AllocError>
    requires { length namings.now < 2 ^ 32 }
    ensures { IfOk result (λ s. AreStandings (namings_in namings.now) parents.now s.items) }
{
    let mut standings = Vec::with_capacity(alloc, parents.len())?;
    for _ in parents {
        standings.push(NOTHING)?;
    }
    for (changeset, naming) in namings.iter().enumerate() {
        if let Some(naming) = naming {
            note(&mut standings, parents, changeset as u32, naming);
        }
    }
    Ok(standings)
}

/// What is wrong with each revision, by its parents, its link, and what the changesets name and the rules give.
///
/// Goes once along the changesets and once along the revisions.
pub fn judge(
    alloc: Global,
    parents: &[(Option<u32>, Option<u32>)],
    links: &[u32],
    namings: &[Option<Naming>],
) -> Result<Vec<Kinds>, AllocError>
    requires few { length namings.now < 2 ^ 32 }
    requires links { length links.now ≡ length parents.now }
    ensures { IfOk result (λ kinds. AreKinds (namings_in namings.now) parents.now links.now kinds.items) }
{
    let standings = standings(alloc, parents, namings)?;
    let mut kinds = Vec::with_capacity(alloc, standings.len())?;
    let mut latest = None;
    for (rev, standing) in standings.iter().enumerate() {
        kinds.push(standing.kinds(links[rev], latest))?;
        latest = later(latest, standing.first);
    }
    Ok(kinds)
}
