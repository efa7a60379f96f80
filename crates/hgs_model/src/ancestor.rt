//! The test of ancestors.
ghost use Rattle.std.specs.Prelude.{◌≡◌, ◌<◌, ◌+◌, ◌++◌, ◌↔◌, true, false, length, replicate, IfOk, IfSome};
ghost use Rattle.hgs_index.specs.Revision.{ParentsBefore};
ghost use Rattle.hgs_index.specs.Ancestor.{IsAncestor, is_ancestor};
ghost use Rattle.hgs_model.specs.Reached.{reached_at, reaches};

use std::alloc::{AllocError, Global};

/// Whether the parent is there and was reached. `reached` marks revisions from `a` on; none before `a` is reached.
fn is_reached(reached: &[bool], a: u32, parent: Option<u32>) -> bool
    requires { IfSome parent (λ p. p < a + length reached.now) }
    ensures { result ≡ reached_at (replicate a false ++ reached.now) parent }
{
    match parent {
        Some(rev) => rev >= a && reached[(rev - a) as usize],
        None => false,
    }
}

/// Whether the revision behind those that `reached` marks is `a`, or has a parent that was reached.
fn reaches(reached: &[bool], a: u32, parents: (Option<u32>, Option<u32>)) -> bool
    requires first { IfSome parents.0 (λ p. p < a + length reached.now) }
    requires second { IfSome parents.1 (λ p. p < a + length reached.now) }
    ensures { result ≡ reaches (replicate a false ++ reached.now) a parents }
{
    reached.is_empty() || is_reached(reached, a, parents.0) || is_reached(reached, a, parents.1)
}

/// Whether the revision `a` is `b`, or an ancestor of a parent of `b`. A number past the last revision is no ancestor.
///
/// `parents` has the two parents of each revision. Time and memory grow with the distance of the two alone: this goes once
/// along the revisions from `a` to `b`, and takes a `bool` for each. Where `a` comes after `b` it takes no memory.
pub fn ancestor(
    alloc: Global,
    parents: &[(Option<u32>, Option<u32>)],
    a: u32,
    b: u32,
) -> Result<bool, AllocError>
    requires earlier { ParentsBefore 0 parents.now }
    requires there { b < length parents.now }
    ensures test { IfOk result (λ yes. yes ≡ is_ancestor parents.now a b) }
    ensures relation { IfOk result (λ yes. yes ≡ true ↔ IsAncestor parents.now a b) }
{
    // Parents come before their children, so no later revision is an ancestor.
    if a > b {
        return Ok(false);
    }
    let within = &parents[a as usize..=b as usize];
    let mut reached = Vec::with_capacity(alloc, within.len())?;
    for &pair in within {
        let yes = reaches(&reached, a, pair);
        reached.push(yes)?;
    }
    Ok(reached[(b - a) as usize])
}
