//! Passes over the history: each takes marks of changesets and makes others of them, in place.
//!
//! None goes where no mark can change: before the first member, or behind the last.
ghost use Rattle.std.specs.Prelude.{◌≡◌, ◌<◌, ◌||◌, None, length, slice_index_or};
ghost use Rattle.hgs_index.specs.Revision.{ParentsBefore};
ghost use Rattle.hgs_phases.specs.Moves.{is_marked, marked};
ghost use Rattle.hgs_members.specs.Passes.{climbed, descended, headed, rooted, unmarked, AreAncestors, AreDescendants, AreHeads, AreRoots};

use crate::members::Members;

/// The parents of a changeset.
pub type Parents = (Option<u32>, Option<u32>);

fn is_marked(members: &Members, parent: Option<u32>) -> bool
    ensures { result ≡ is_marked members.now parent }
{
    match parent {
        None => false,
        Some(rev) => members.has(rev),
    }
}

// Whether a parent is marked.
fn has_marked_parent(members: &Members, parents: Parents) -> bool
    ensures { result ≡ (is_marked members.now parents.0 || is_marked members.now parents.1) }
{
    is_marked(members, parents.0) || is_marked(members, parents.1)
}

fn mark(members: &mut Members, parent: Option<u32>)
    ensures { members.new ≡ marked members.old parent }
{
    if let Some(rev) = parent {
        members.add(rev);
    }
}

fn unmark(members: &mut Members, parent: Option<u32>)
    ensures { members.new ≡ unmarked members.old parent }
{
    if let Some(rev) = parent {
        members.remove(rev);
    }
}

fn climb(members: &mut Members, rev: u32, history: &[Parents])
    requires { rev < length history.now }
    ensures { members.new ≡ climbed members.old rev (slice_index_or history.now rev (None, None)) }
{
    if members.has(rev) {
        let (p1, p2) = history[rev as usize];
        mark(members, p1);
        mark(members, p2);
    }
}

fn descend(members: &mut Members, rev: u32, history: &[Parents])
    requires { rev < length history.now }
    ensures { members.new ≡ descended members.old rev (slice_index_or history.now rev (None, None)) }
{
    if has_marked_parent(members, history[rev as usize]) {
        members.add(rev);
    }
}

fn head(members: &mut Members, rev: u32, history: &[Parents])
    requires { rev < length history.now }
    ensures { members.new ≡ headed members.old rev (slice_index_or history.now rev (None, None)) }
{
    if members.has(rev) {
        let (p1, p2) = history[rev as usize];
        unmark(members, p1);
        unmark(members, p2);
    }
}

fn root(members: &mut Members, rev: u32, history: &[Parents])
    requires { rev < length history.now }
    ensures { members.new ≡ rooted members.old rev (slice_index_or history.now rev (None, None)) }
{
    if members.has(rev) {
        if has_marked_parent(members, history[rev as usize]) {
            members.remove(rev);
        }
    }
}

/// Marks the ancestors of what is marked, from the last changeset down.
pub fn mark_ancestors(members: &mut Members, history: &[Parents])
    requires { length members.old ≡ length history.now }
    ensures count { length members.new ≡ length members.old }
    ensures exact { ParentsBefore 0 history.now → AreAncestors history.now members.old members.new }
{
    let end = members.end();
    for rev in (0..end).rev() {
        climb(members, rev, history);
    }
}

/// Marks the descendants of what is marked, from the first changeset up.
pub fn mark_descendants(members: &mut Members, history: &[Parents])
    requires { length members.old ≡ length history.now }
    ensures count { length members.new ≡ length members.old }
    ensures exact { ParentsBefore 0 history.now → AreDescendants history.now members.old members.new }
{
    let first = members.first();
    let count = members.len();
    for rev in first..count {
        descend(members, rev, history);
    }
}

/// Keeps the marks of what is no parent of a marked changeset, from the first changeset up: a child comes later, so its own
/// mark still stands when it takes those of its parents.
pub fn keep_heads(members: &mut Members, history: &[Parents])
    requires { length members.old ≡ length history.now }
    ensures count { length members.new ≡ length members.old }
    ensures exact { ParentsBefore 0 history.now → AreHeads history.now members.old members.new }
{
    let first = members.first();
    let end = members.end();
    for rev in first..end {
        head(members, rev, history);
    }
}

/// Keeps the marks of what has no marked parent, from the last changeset down: the marks of its parents are still those
/// that stood.
pub fn keep_roots(members: &mut Members, history: &[Parents])
    requires { length members.old ≡ length history.now }
    ensures count { length members.new ≡ length members.old }
    ensures exact { ParentsBefore 0 history.now → AreRoots history.now members.old members.new }
{
    let first = members.first();
    let end = members.end();
    for rev in (first..end).rev() {
        root(members, rev, history);
    }
}
