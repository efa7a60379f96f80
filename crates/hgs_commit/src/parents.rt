//! The parents of the revisions that a commit makes.
ghost use Rattle.std.specs.Prelude.{◌≡◌, ◌<◌, length, Some, IfOk, IfSome};
ghost use Rattle.hgs_index.specs.Revision.{ParentsBefore};
ghost use Rattle.hgs_model.specs.History.{file_parents_of, manifest_parents_of};
ghost use Rattle.hgs_revlog.specs.Loaded.{parents_in};

use hgs_model::ancestor::ancestor;
use hgs_revlog::revlog::Revlog;
use std::alloc::{AllocError, Global};

// The parents of each revision.
fn all_parents(alloc: Global, log: &Revlog) -> Result<Vec<(Option<u32>, Option<u32>)>, AllocError>
    ensures { IfOk result (λ parents. parents.items ≡ parents_in log.now.entries) }
{
    let mut parents = Vec::with_capacity(alloc, log.len() as usize)?;
    for rev in 0..log.len() {
        let entry = log.entry(rev);
        parents.push((entry.p1, entry.p2))?;
    }
    Ok(parents)
}

// The parents of a file that stands in the trees of both parents, as two revisions of its filelog.
fn joined_parents(
    alloc: Global,
    log: &Revlog,
    a: u32,
    b: u32,
) -> Result<(Option<u32>, Option<u32>), AllocError>
    requires first { a < length log.now.entries }
    requires second { b < length log.now.entries }
    requires earlier { ParentsBefore 0 (parents_in log.now.entries) }
    ensures { IfOk result (λ parents. parents ≡ file_parents_of (parents_in log.now.entries) (Some a) (Some b)) }
{
    if a == b {
        return Ok((Some(a), None));
    }
    let parents = all_parents(alloc, log)?;
    if ancestor(alloc, &parents, a, b)? {
        return Ok((Some(b), None));
    }
    if ancestor(alloc, &parents, b, a)? {
        return Ok((Some(a), None));
    }
    Ok((Some(a), Some(b)))
}

/// The parents of a file's new revision, by its revisions in the trees of the commit's parents: a missing first takes the
/// second's place, of two equal ones one stays, and of one and its ancestor the descendant.
pub fn file_parents(
    alloc: Global,
    log: &Revlog,
    a: Option<u32>,
    b: Option<u32>,
) -> Result<(Option<u32>, Option<u32>), AllocError>
    requires first { IfSome a (λ rev. rev < length log.now.entries) }
    requires second { IfSome b (λ rev. rev < length log.now.entries) }
    requires earlier { ParentsBefore 0 (parents_in log.now.entries) }
    ensures parents { IfOk result (λ parents. parents ≡ file_parents_of (parents_in log.now.entries) a b) }
    ensures first { IfOk result (λ parents. IfSome parents.0 (λ rev. rev < length log.now.entries)) }
    ensures second { IfOk result (λ parents. IfSome parents.1 (λ rev. rev < length log.now.entries)) }
{
    match (a, b) {
        (None, None) => Ok((None, None)),
        (None, Some(b)) => Ok((Some(b), None)),
        (Some(a), None) => Ok((Some(a), None)),
        (Some(a), Some(b)) => joined_parents(alloc, log, a, b),
    }
}

/// The parents of a new manifest: the parents' manifests, of two equal ones one.
pub fn manifest_parents(a: Option<u32>, b: Option<u32>) -> (Option<u32>, Option<u32>)
    ensures { result ≡ manifest_parents_of a b }
{
    match (a, b) {
        (Some(a), Some(b)) => {
            if a == b {
                (Some(a), None)
            } else {
                (Some(a), Some(b))
            }
        }
        (None, None) => (None, None),
        (None, Some(b)) => (None, Some(b)),
        (Some(a), None) => (Some(a), None),
    }
}
