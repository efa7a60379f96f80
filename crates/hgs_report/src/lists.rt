//! The lists of changed files.
ghost use Rattle.std.specs.Prelude.{◌≡◌, ◌<◌, ◌^◌, ◌++◌, length, map, IfOk, OnOk};
ghost use Rattle.std.specs.List.{list_all};
ghost use Rattle.hgs_files.specs.Tree.{Tree as Files};
ghost use Rattle.hgs_stands.specs.Places.{changelog_index};
ghost use Rattle.hgs_findings.specs.Reading.{sight_of};
ghost use Rattle.hgs_findings.specs.Regular.{used_paths};
ghost use Rattle.hgs_report.specs.Adds.{Adds};
ghost use Rattle.hgs_report.specs.Parts.{IsOfLists};
ghost use Rattle.hgs_report.specs.Store.{IsStoreOf};
ghost use Rattle.hgs_judge.specs.Report.{each_from, findings_in};
ghost use Rattle.hgs_report.specs.Lists.{AreLists, AreUnusedLists, has_path, has_unused, is_read, lists_unused, parent_is_read};
ghost use Rattle.hgs_report.specs.Lines.{of_mark};

use crate::store::Store;
use hgs_bytes::bytes::Bytes;
use hgs_bytes::names::Names;
use hgs_files::path::StorePath;
use hgs_judge::changesets::{Changeset, Tree};
use hgs_judge::laws::tracked_trees;
use hgs_judge::report::{Finding, add_if};
use hgs_manifest::manifest::Manifest;
use std::alloc::{AllocError, Global};
use std::collections::BTreeSet;

/// Revisions and changesets have numbers below this.
const MOST: usize = 0x1_0000_0000;

fn is_read(trees: &[Option<Manifest>], tree: &Tree) -> bool
    ensures { result ≡ is_read trees.now tree.now }
{
    match tree {
        Tree::Unknown => false,
        Tree::Empty => true,
        Tree::Manifest(rev) => match trees.get(*rev as usize) {
            Some(Some(_)) => true,
            Some(None) => false,
            None => true,
        },
    }
}

// Whether the tree of a parent can be read, or there is no parent.
fn parent_is_read(changesets: &[Changeset], trees: &[Option<Manifest>], parent: Option<u32>) -> bool
    ensures { result ≡ parent_is_read changesets.now trees.now parent }
{
    match parent {
        None => true,
        Some(rev) => match changesets.get(rev as usize) {
            Some(changeset) => is_read(trees, &changeset.tree),
            None => false,
        },
    }
}

fn are_used(used: &BTreeSet<Bytes>, files: &[Bytes]) -> bool
    ensures { result ≡ list_all (has_path used.now.keys) files.now }
{
    for path in files {
        if !used.contains(path) {
            return false;
        }
    }
    true
}

// Whether a list has a path that isn't used.
fn has_unused(used: &BTreeSet<Bytes>, files: &Option<Names>) -> bool
    ensures { result ≡ has_unused used.now.keys files.now }
{
    match files {
        None => false,
        Some(files) => !are_used(used, files.as_slice()),
    }
}

// Whether a changeset lists a path that no tree has, where its tree and those of its parents can be read.
fn lists_unused(
    changesets: &[Changeset],
    trees: &[Option<Manifest>],
    used: &BTreeSet<Bytes>,
    changeset: &Changeset,
) -> bool
    ensures { result ≡ lists_unused changesets.now trees.now used.now.keys changeset.now }
{
    is_read(trees, &changeset.tree)
        && parent_is_read(changesets, trees, changeset.parents.0)
        && parent_is_read(changesets, trees, changeset.parents.1)
        && has_unused(used, &changeset.files)
}

// For each changeset, whether its list of changed files has a path that no tree has, where its tree and those of its
// parents can be read.
fn unused_lists(
    alloc: Global,
    changesets: &[Changeset],
    trees: &[Option<Manifest>],
    used: &BTreeSet<Bytes>,
) -> Result<Vec<bool>, AllocError>
    ensures { IfOk result (λ marks. marks.items ≡ map (lists_unused changesets.now trees.now used.now.keys) changesets.now) }
{
    let mut marks = Vec::with_capacity(alloc, changesets.len())?;
    for changeset in changesets {
        marks.push(lists_unused(changesets, trees, used, changeset))?;
    }
    Ok(marks)
}

fn add_known(
    alloc: Global,
    path: &StorePath,
    marks: &[bool],
    into: &mut Vec<Finding>,
) -> Result<(), AllocError>
    requires { length marks.now < 2 ^ 32 }
    ensures { OnOk result (findings_in into.new.items ≡ findings_in into.old.items ++ each_from (of_mark path.now) 0 marks.now) }
{
    for (rev, mark) in marks.iter().enumerate() {
        add_if(alloc, *mark, path, rev as u32, 9, into)?;
    }
    Ok(())
}

/// Adds the changesets that are marked. The path is that of the changelog's index.
pub fn add_marked(
    alloc: Global,
    path: &StorePath,
    marks: &[bool],
    into: &mut Vec<Finding>,
) -> Result<(), AllocError>
    requires { path.now ≡ changelog_index }
    ensures { OnOk result ((t : Files) → AreLists t marks.now → Adds t (IsOfLists t) (findings_in into.old.items) (findings_in into.new.items)) }
{
    if marks.len() >= MOST {
        return Err(AllocError);
    }
    add_known(alloc, path, marks, into)?;
    Ok(())
}

/// For each changeset, whether its list of changed files has a path that no tree has where it is wrong.
pub fn wrong_lists(
    alloc: Global,
    store: &Store,
    used: &BTreeSet<Bytes>,
) -> Result<Vec<bool>, AllocError>
    ensures { IfOk result (λ marks. (t : Files) → IsStoreOf store.now t → used.now.keys ≡ used_paths (sight_of t) → AreUnusedLists t marks.items) }
{
    tracked_trees();
    let marks = unused_lists(alloc, &store.changesets, &store.trees, used)?;
    Ok(marks)
}
