//! What is found of the working parents and the tracked paths.
ghost use Rattle.std.specs.Prelude.{◌≡◌, ◌++◌, List, ℕ, Some, IfOk, OnOk, map, option_map, option_and_then, slice_get};
ghost use Rattle.hgs_findings.specs.Findings.{paths_at_node, paths_of_seen};
ghost use Rattle.hgs_findings.specs.Sight.{Sight, seen, value};
ghost use Rattle.hgs_marks.specs.Dirstate.{read_dirstate};
ghost use Rattle.hgs_marks.specs.Held.{view_dirstate};
ghost use Rattle.hgs_judge.specs.Changesets.{changeset_as};
ghost use Rattle.hgs_judge.specs.Read.{AreRead, revisions_in};
ghost use Rattle.hgs_judge.specs.Report.{findings_in};
ghost use Rattle.hgs_judge.specs.Trees.{rows_read};
ghost use Rattle.hgs_report.specs.Lines.{is_unknown, of_dirstate, tracked_in};

use crate::lines::add_file;
use crate::tracked::are_others;
use hgs_files::path::StorePath;
use hgs_index::node::Node;
use hgs_judge::changesets::{Changeset, Tree};
use hgs_judge::laws::tracked_trees;
use hgs_judge::reading::Reading;
use hgs_judge::report::Finding;
use hgs_manifest::manifest::Manifest;
use hgs_marks::dirstate::Dirstate;
use hgs_marks::fault::MarkFault;
use std::alloc::{AllocError, Global};

/// The working parents and the tracked paths in a text; none where the text has a fault.
pub fn dirstate_of(alloc: Global, text: &[u8]) -> Result<Option<Dirstate>, AllocError>
    ensures { IfOk result (λ d. option_map view_dirstate d ≡ value (read_dirstate text.now)) }
{
    match Dirstate::read(alloc, text) {
        Ok(dirstate) => Ok(Some(dirstate)),
        Err(MarkFault::Memory) => Err(AllocError),
        Err(_) => Ok(None),
    }
}

fn is_unknown(changelog: &Reading, node: &Node) -> bool
    ensures { (data_bytes : List ℕ) → AreRead changelog.now.log.entries data_bytes → result ≡ is_unknown (revisions_in changelog.now.log.entries data_bytes) node.now.0 }
{
    *node != Node([0; 20]) && changelog.place(node).is_none()
}

// The tree of a changeset; it can't be told where there is none.
fn tree_at(changesets: &[Changeset], rev: Option<u32>) -> Tree
    ensures { (s : Sight) → changesets.now ≡ map changeset_as (seen s) → tracked_in (map rows_read s.manifest) result ≡ option_and_then (λ rev. paths_of_seen (slice_get (seen s) rev)) rev }
{
    tracked_trees();
    match rev {
        Some(rev) => match changesets.get(rev as usize) {
            Some(changeset) => changeset.tree,
            None => Tree::Unknown,
        },
        None => Tree::Unknown,
    }
}

// The tree of a working parent.
fn working_tree(changelog: &Reading, changesets: &[Changeset], node: &Node) -> Tree
    ensures { (data_bytes : List ℕ) (s : Sight) → AreRead changelog.now.log.entries data_bytes → s.changelog ≡ revisions_in changelog.now.log.entries data_bytes → changesets.now ≡ map changeset_as (seen s) → tracked_in (map rows_read s.manifest) result ≡ paths_at_node s node.now.0 }
{
    if *node == Node([0; 20]) {
        return Tree::Empty;
    }
    tree_at(changesets, changelog.place(node))
}

// Adds the parents that no changeset is, and the paths that are others than those of the first.
fn add_parents(
    alloc: Global,
    path: &StorePath,
    dirstate: &Dirstate,
    changelog: &Reading,
    changesets: &[Changeset],
    trees: &[Option<Manifest>],
    into: &mut Vec<Finding>,
) -> Result<(), AllocError>
    ensures { OnOk result ((data_bytes : List ℕ) (s : Sight) → AreRead changelog.now.log.entries data_bytes → s.changelog ≡ revisions_in changelog.now.log.entries data_bytes → changesets.now ≡ map changeset_as (seen s) → trees.now ≡ map rows_read s.manifest
        → findings_in into.new.items ≡ findings_in into.old.items ++ of_dirstate s.changelog path.now (paths_at_node s) (Some (view_dirstate dirstate.now))) }
{
    let unknown = is_unknown(changelog, &dirstate.p1) || is_unknown(changelog, &dirstate.p2);
    let tree = working_tree(changelog, changesets, &dirstate.p1);
    let others = are_others(alloc, &dirstate.paths, trees, &tree)?;
    add_file(alloc, unknown, path, 15, into)?;
    add_file(alloc, others, path, 16, into)?;
    Ok(())
}

/// Adds a text that can't be read, or what is found of the parents and paths that it says. The path is that of the text.
pub fn add_dirstate(
    alloc: Global,
    path: &StorePath,
    dirstate: &Option<Dirstate>,
    changelog: &Reading,
    changesets: &[Changeset],
    trees: &[Option<Manifest>],
    into: &mut Vec<Finding>,
) -> Result<(), AllocError>
    ensures { OnOk result ((data_bytes : List ℕ) (s : Sight) → AreRead changelog.now.log.entries data_bytes → s.changelog ≡ revisions_in changelog.now.log.entries data_bytes → changesets.now ≡ map changeset_as (seen s) → trees.now ≡ map rows_read s.manifest
        → findings_in into.new.items ≡ findings_in into.old.items ++ of_dirstate s.changelog path.now (paths_at_node s) (option_map view_dirstate dirstate.now)) }
{
    match dirstate {
        None => {
            add_file(alloc, true, path, 4, into)?;
        }
        Some(dirstate) => {
            add_parents(alloc, path, dirstate, changelog, changesets, trees, into)?;
        }
    }
    Ok(())
}
