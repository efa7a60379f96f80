//! The trees of the changesets, and what they say of a path.
ghost use Rattle.std.specs.Prelude.{◌≡◌, ◌≤◌, List, Some, true, length, IfOk, IfErr, map, is_ok};
ghost use Rattle.std.specs.Option.{option_map};
ghost use Rattle.hgs_bytes.specs.Bytes.{among};
ghost use Rattle.hgs_bytes.specs.Text.{ascends};
ghost use Rattle.hgs_index.specs.Manifest.{read_manifest};
ghost use Rattle.hgs_index.specs.Revision.{Revision};
ghost use Rattle.hgs_index.specs.TrackedPath.{is_tracked};
ghost use Rattle.hgs_findings.specs.OnePath.{word_of};
ghost use Rattle.hgs_findings.specs.OnePath as findings;
ghost use Rattle.hgs_findings.specs.Regular.{are_tracked};
ghost use Rattle.hgs_findings.specs.Sight.{Sight, row_paths, seen, seen_of, value};
ghost use Rattle.hgs_revlog.specs.declared.fault.RevFault.TheVariants.{Memory};
ghost use Rattle.hgs_judge.specs.Changesets.{changeset_as};
ghost use Rattle.hgs_judge.specs.Read.{AreRead, revisions_in};
ghost use Rattle.hgs_judge.specs.Trees.{row_for, rows_in_tree, rows_read};
ghost use Rattle.hgs_judge.specs.Words.{row_in, word_in, words_in};

use crate::changesets::{Changeset, Tree};
use crate::reading::Reading;
use crate::search::place_near;
use crate::words::{Found, Word};
use hgs_bytes::names::Names;
use hgs_index::texts::ManifestFault;
use hgs_manifest::manifest::Manifest;
use hgs_path::check::check;
use hgs_path::laws::tracked_without_fault;
use hgs_revlog::fault::RevFault;
use std::alloc::{AllocError, Global};

// The rows of a manifest's text; none where it can't be read.
fn tree_from(alloc: Global, text: &[u8]) -> Result<Option<Manifest>, RevFault>
    requires { length text.now ≤ 33554432 }
    ensures rows { IfOk result (λ rows. rows ≡ value (read_manifest text.now)) }
    ensures err { IfErr result (λ fault. fault ≡ Memory) }
{
    match Manifest::read(alloc, text) {
        Ok(rows) => Ok(Some(rows)),
        Err(ManifestFault::Memory) => Err(RevFault::Memory),
        Err(_) => Ok(None),
    }
}

/// The rows of each manifest, in their order; none where its text can't be read.
pub fn read_trees(
    alloc: Global,
    manifest: &Reading,
    data_bytes: &[u8],
) -> Result<Vec<Option<Manifest>>, RevFault>
    requires { AreRead manifest.now.log.entries data_bytes.now }
    ensures rows { IfOk result (λ trees. trees.items ≡ map rows_read (revisions_in manifest.now.log.entries data_bytes.now)) }
    ensures err { IfErr result (λ fault. fault ≡ Memory) }
{
    let mut trees = Vec::with_capacity(alloc, manifest.log.len() as usize)?;
    for rev in 0..manifest.log.len() {
        let rows = tree_from(alloc, manifest.text(rev, data_bytes))?;
        trees.push(rows)?;
    }
    Ok(trees)
}

/// Whether the text of a manifest could be read, and each of its paths is tracked.
pub fn is_sound(tree: &Option<Manifest>) -> bool
    ensures { result ≡ are_tracked tree.now }
{
    tracked_without_fault();
    match tree {
        None => false,
        Some(rows) => {
            for i in 0..rows.len() {
                if check(rows.row(i).path).is_err() {
                    return false;
                }
            }
            true
        }
    }
}

// What the rows, whose paths ascend, have at a path. It is looked for at `near` first, and where it stands is put there.
fn found_in_rows(rows: &Manifest, path: &[u8], tracked: bool, near: &mut u32) -> Found
    ensures { ascends (row_paths rows.now) ≡ true → row_in path.now result ≡ Some (row_for tracked path.now rows.now) }
{
    if !tracked {
        return Found::Nothing;
    }
    match place_near(rows, path, *near) {
        Some(at) => {
            *near = at;
            let row = rows.row(at);
            Found::File(row.node, row.flag)
        }
        None => Found::Nothing,
    }
}

// What a tree has at a path.
fn found(
    trees: &[Option<Manifest>],
    tree: &Tree,
    path: &[u8],
    tracked: bool,
    near: &mut u32,
) -> Found
    ensures { (revisions : List Revision) → trees.now ≡ map rows_read revisions → row_in path.now result ≡ option_map (row_for tracked path.now) (rows_in_tree trees.now tree.now) }
{
    match tree {
        Tree::Unknown => Found::Unread,
        Tree::Empty => Found::Nothing,
        Tree::Manifest(rev) => match trees.get(*rev as usize) {
            Some(Some(rows)) => found_in_rows(rows, path, tracked, near),
            Some(None) => Found::Unread,
            None => Found::Nothing,
        },
    }
}

// Whether a list of changed files, which ascends, has a path. The time is that of a search in halves.
fn has_name(names: &Names, path: &[u8]) -> bool
    ensures { ascends names.now ≡ true → result ≡ among path.now names.now }
{
    names
        .as_slice()
        .binary_search_by(|name| name.as_slice().cmp(path))
        .is_ok()
}

// What a changeset says of a path.
fn word(
    trees: &[Option<Manifest>],
    changeset: &Changeset,
    path: &[u8],
    tracked: bool,
    near: &mut u32,
) -> Word
    ensures { (s : Sight) (r : Revision) → trees.now ≡ map rows_read s.manifest → changeset.now ≡ changeset_as (seen_of s r) → tracked ≡ is_tracked path.now → word_in path.now result ≡ word_of path.now (seen_of s r) }
{
    Word {
        parents: changeset.parents,
        found: found(trees, &changeset.tree, path, tracked, near),
        listed: match &changeset.files {
            None => None,
            Some(files) => Some(has_name(files, path)),
        },
    }
}

/// What each changeset says of a path, in their order.
///
/// In each tree the path is looked for where it stood in the one before, and else by halves, so where trees are much alike the time is
/// that of one comparison for each changeset that has it, and of as many as halves it in each other; beside it the list of changed files is
/// searched.
pub fn words(
    alloc: Global,
    trees: &[Option<Manifest>],
    changesets: &[Changeset],
    path: &[u8],
) -> Result<Vec<Word>, AllocError>
    ensures { IfOk result (λ words. (s : Sight) → trees.now ≡ map rows_read s.manifest → changesets.now ≡ map changeset_as (seen s) → words_in path.now words.items ≡ findings.words s path.now) }
{
    tracked_without_fault();
    let tracked = check(path).is_ok();
    let mut near = 0;
    let mut words = Vec::with_capacity(alloc, changesets.len())?;
    for changeset in changesets {
        words.push(word(trees, changeset, path, tracked, &mut near))?;
    }
    Ok(words)
}
