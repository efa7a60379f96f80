//! The tracked paths beside those of a tree.
ghost use Rattle.std.specs.Prelude.{◌≡◌, List, ℕ, not, ◌||◌, IfOk};
ghost use Rattle.hgs_index.specs.TrackedPath.{is_tracked};
ghost use Rattle.std.specs.List.{list_all};
ghost use Rattle.hgs_bytes.specs.Bytes.{among};
ghost use Rattle.hgs_findings.specs.Findings.{have_same, tracks_others};
ghost use Rattle.hgs_findings.specs.Sight.{row_paths, tracked_rows};
ghost use Rattle.hgs_report.specs.Lines.{has_key, tracked_in};

use crate::sets::{enter, set_of};
use hgs_bytes::bytes::Bytes;
use hgs_bytes::names::Names;
use hgs_judge::changesets::Tree;
use hgs_manifest::manifest::Manifest;
use hgs_path::check::check;
use hgs_path::laws::tracked_without_fault;
use std::alloc::{AllocError, Global};
use std::collections::BTreeSet;

// The set of the paths of the rows that may be tracked.
fn set_of_rows(alloc: Global, rows: &Manifest) -> Result<BTreeSet<Vec<u8>>, AllocError>
    ensures { IfOk result (λ set. (path : List ℕ) → has_key set.keys path ≡ among path (row_paths (tracked_rows rows.now))) }
{
    tracked_without_fault();
    let mut set = BTreeSet::new(alloc);
    for i in 0..rows.len() {
        let path = rows.row(i).path;
        if check(path).is_ok() {
            enter(&mut set, Vec::from_slice(alloc, path)?)?;
        }
    }
    Ok(set)
}

// Whether a set has each path.
fn has_each(set: &BTreeSet<Vec<u8>>, paths: &[Bytes]) -> bool
    ensures { result ≡ list_all (has_key set.now.keys) paths.now }
{
    for path in paths {
        if !set.contains(path.as_slice()) {
            return false;
        }
    }
    true
}

// Whether a set has a path, or the path may not be tracked.
fn is_kept(set: &BTreeSet<Vec<u8>>, path: &[u8]) -> bool
    ensures { result ≡ (not (is_tracked path.now) || has_key set.now.keys path.now) }
{
    tracked_without_fault();
    check(path).is_err() || set.contains(path)
}

// Whether a set has the path of each row that may be tracked.
fn has_all(set: &BTreeSet<Vec<u8>>, rows: &Manifest) -> bool
    ensures { result ≡ list_all (has_key set.now.keys) (row_paths (tracked_rows rows.now)) }
{
    for i in 0..rows.len() {
        if !is_kept(set, rows.row(i).path) {
            return false;
        }
    }
    true
}

// Whether these are the paths of the rows.
fn are_rows(alloc: Global, paths: &[Bytes], rows: &Manifest) -> Result<bool, AllocError>
    ensures { IfOk result (λ same. same ≡ have_same paths.now (row_paths (tracked_rows rows.now))) }
{
    let tracked = set_of(alloc, paths)?;
    let named = set_of_rows(alloc, rows)?;
    Ok(has_each(&named, paths) && has_all(&tracked, rows))
}

/// Whether the paths are others than those of a tree that can be read.
pub fn are_others(
    alloc: Global,
    paths: &Names,
    trees: &[Option<Manifest>],
    tree: &Tree,
) -> Result<bool, AllocError>
    ensures { IfOk result (λ others. others ≡ tracks_others paths.now (tracked_in trees.now tree.now)) }
{
    match tree {
        Tree::Unknown => Ok(false),
        Tree::Empty => Ok(paths.len() != 0),
        Tree::Manifest(rev) => match trees.get(*rev as usize) {
            Some(Some(rows)) => {
                let same = are_rows(alloc, paths.as_slice(), rows)?;
                Ok(!same)
            }
            Some(None) => Ok(false),
            None => Ok(paths.len() != 0),
        },
    }
}
