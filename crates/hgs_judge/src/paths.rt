//! The paths that the changesets use.
ghost use Rattle.std.specs.Prelude.{◌≡◌, [], true, false, IfOk, OnOk, map, unwrap_or};
ghost use Rattle.std.specs.Option.{option_map};
ghost use Rattle.hgs_bytes.specs.Bytes.{among};
ghost use Rattle.hgs_index.specs.TrackedPath.{is_tracked};
ghost use Rattle.hgs_findings.specs.Regular as findings;
ghost use Rattle.hgs_findings.specs.Sight.{Sight, row_paths, seen, tracked_rows};
ghost use Rattle.hgs_judge.specs.Changesets.{changeset_as};
ghost use Rattle.hgs_judge.specs.Paths.{AreEntered, entered, paths_in_tree};
ghost use Rattle.hgs_judge.specs.Trees.{rows_in_tree, rows_read};

use crate::changesets::{Changeset, Tree};
use crate::search::place_near;
use hgs_bytes::bytes::Bytes;
use hgs_manifest::manifest::Manifest;
use hgs_path::check::check;
use hgs_path::laws::tracked_without_fault;
use std::alloc::{AllocError, Global};
use std::collections::BTreeSet;

// The rows of a tree, none where it has none or can't be read.
fn rows_of<'a>(trees: &'a [Option<Manifest>], tree: &Tree) -> Option<&'a Manifest>
    ensures { unwrap_or (option_map (λ rows. rows.now) result) [] ≡ unwrap_or (rows_in_tree trees.now tree.now) [] }
{
    match tree {
        Tree::Unknown => None,
        Tree::Empty => None,
        Tree::Manifest(rev) => match trees.get(*rev as usize) {
            Some(Some(rows)) => Some(rows),
            Some(None) => None,
            None => None,
        },
    }
}

// Whether these rows have the path. It is looked for at `near` first, which is then put before it.
fn is_in(rows: Option<&Manifest>, path: &[u8], near: &mut u32) -> bool
    ensures { result ≡ true → among path.now (row_paths (unwrap_or (option_map (λ m. m.now) rows.entry) [])) ≡ true }
{
    let Some(rows) = rows else {
        return false;
    };
    match place_near(rows, path, *near) {
        Some(at) => {
            *near = at.saturating_sub(1);
            true
        }
        None => false,
    }
}

// Whether a path may be tracked, and these rows don't have it.
fn is_new(rows: Option<&Manifest>, path: &[u8], near: &mut u32) -> bool
    ensures tracked { result ≡ true → is_tracked path.now ≡ true }
    ensures known { result ≡ false → is_tracked path.now ≡ true → among path.now (row_paths (unwrap_or (option_map (λ m. m.now) rows.entry) [])) ≡ true }
{
    tracked_without_fault();
    !is_in(rows, path, near) && check(path).is_ok()
}

// Enters the paths of the rows that may be tracked, from the last to the first. Those of these other rows are entered already.
fn enter_rows(
    alloc: Global,
    rows: &Manifest,
    others: Option<&Manifest>,
    paths: &mut BTreeSet<Bytes>,
) -> Result<(), AllocError>
    requires { AreEntered (row_paths (tracked_rows (unwrap_or (option_map (λ m. m.now) others) []))) paths.old.keys }
    ensures { OnOk result (paths.new.keys ≡ entered (row_paths (tracked_rows rows.now)) paths.old.keys) }
{
    let mut left = rows.len();
    let mut near = left;
    while left > 0 {
        left -= 1;
        let path = rows.row(left).path;
        if is_new(others, path, &mut near) {
            paths.insert(Bytes::from_slice(alloc, path)?)?;
        }
    }
    Ok(())
}

// Enters the paths of a tree. The rows that were entered last become those of this tree, where it has some.
fn enter_tree<'a>(
    alloc: Global,
    trees: &'a [Option<Manifest>],
    tree: &Tree,
    last: Option<&'a Manifest>,
    paths: &mut BTreeSet<Bytes>,
) -> Result<Option<&'a Manifest>, AllocError>
    requires { AreEntered (row_paths (tracked_rows (unwrap_or (option_map (λ m. m.now) last) []))) paths.old.keys }
    ensures keys { OnOk result (paths.new.keys ≡ entered (paths_in_tree trees.now tree.now) paths.old.keys) }
    ensures last { IfOk result (λ rows. AreEntered (row_paths (tracked_rows (unwrap_or (option_map (λ m. m.now) rows) []))) paths.new.keys) }
{
    let Some(rows) = rows_of(trees, tree) else {
        return Ok(last);
    };
    enter_rows(alloc, rows, last, paths)?;
    Ok(Some(rows))
}

/// The paths in the trees of the changesets that could be read, in the order of their bytes.
///
/// Trees are mostly much alike: a path that the tree of the changeset behind has is not entered again.
pub fn used_paths(
    alloc: Global,
    trees: &[Option<Manifest>],
    changesets: &[Changeset],
) -> Result<BTreeSet<Bytes>, AllocError>
    ensures { IfOk result (λ paths. (s : Sight) → trees.now ≡ map rows_read s.manifest → changesets.now ≡ map changeset_as (seen s) → paths.keys ≡ findings.used_paths s) }
{
    let mut paths = BTreeSet::new(alloc);
    let mut last = None;
    let mut left = changesets.len();
    while left > 0 {
        left -= 1;
        last = enter_tree(alloc, trees, &changesets[left].tree, last, &mut paths)?;
    }
    Ok(paths)
}
