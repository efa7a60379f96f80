//! What is found of the changelog and of the manifest.
ghost use Rattle.std.specs.Prelude.{◌≡◌, ◌<◌, ◌^◌, ◌++◌, length, map, IfOk, OnOk};
ghost use Rattle.hgs_findings.specs.Sight.{Sight, seen};
ghost use Rattle.hgs_findings.specs.Sight as sight;
ghost use Rattle.hgs_revlog.specs.Loaded.{parents_in};
ghost use Rattle.hgs_judge.specs.Changesets.{changeset_as};
ghost use Rattle.hgs_judge.specs.Kinds.{AreKinds};
ghost use Rattle.hgs_judge.specs.Read.{links_in};
ghost use Rattle.hgs_judge.specs.Report.{each_from, findings_in};
ghost use Rattle.hgs_report.specs.Logs.{lacks_manifest, names_manifest, of_changeset, of_link, of_log, of_tree};

use hgs_files::path::StorePath;
use hgs_index::entry::Entry;
use hgs_judge::changesets::{Changeset, Tree, manifest_namings};
use hgs_judge::kinds::{Kinds, judge};
use hgs_judge::reading::Reading;
use hgs_judge::report::{Finding, add_if};
use hgs_judge::trees::is_sound;
use hgs_manifest::manifest::Manifest;
use std::alloc::{AllocError, Global};

/// Revisions and changesets have numbers below this.
const MOST: usize = 0x1_0000_0000;

/// Adds the fault of a revlog, and what stands behind its entries and its chunks.
pub fn add_log(
    alloc: Global,
    index: &StorePath,
    chunks: &StorePath,
    reading: &Reading,
    index_rest: bool,
    data_rest: bool,
    into: &mut Vec<Finding>,
) -> Result<(), AllocError>
    ensures { OnOk result (findings_in into.new.items ≡ findings_in into.old.items ++ of_log index.now chunks.now (length reading.now.log.entries) reading.now.broken index_rest data_rest) }
{
    let count = reading.log.len();
    add_if(alloc, reading.broken, index, count, 3, into)?;
    add_if(alloc, index_rest, index, count, 17, into)?;
    add_if(alloc, data_rest, chunks, count, 17, into)
}

fn names_manifest(tree: &Tree) -> bool
    ensures { result ≡ names_manifest tree.now }
{
    match tree {
        Tree::Unknown => false,
        Tree::Empty => false,
        Tree::Manifest(_) => true,
    }
}

// Whether the text can be read and the manifest that it names isn't there.
fn lacks_manifest(changeset: &Changeset) -> bool
    ensures { result ≡ lacks_manifest changeset.now }
{
    changeset.files.is_some() && !names_manifest(&changeset.tree)
}

// Adds a changeset whose text can't be read, or whose manifest isn't there.
fn add_changeset(
    alloc: Global,
    changelog: &StorePath,
    manifest: &StorePath,
    rev: u32,
    changeset: &Changeset,
    into: &mut Vec<Finding>,
) -> Result<(), AllocError>
    ensures { OnOk result (findings_in into.new.items ≡ findings_in into.old.items ++ of_changeset changelog.now manifest.now rev changeset.now) }
{
    add_if(alloc, changeset.files.is_none(), changelog, rev, 4, into)?;
    add_if(alloc, lacks_manifest(changeset), manifest, rev, 5, into)
}

/// Adds the changesets whose texts can't be read, and those whose manifests aren't there. The paths are those of the two
/// indexes.
pub fn add_changesets(
    alloc: Global,
    changelog: &StorePath,
    manifest: &StorePath,
    changesets: &[Changeset],
    into: &mut Vec<Finding>,
) -> Result<(), AllocError>
    requires { length changesets.now < 2 ^ 32 }
    ensures { OnOk result (findings_in into.new.items ≡ findings_in into.old.items ++ each_from (of_changeset changelog.now manifest.now) 0 changesets.now) }
{
    for (rev, changeset) in changesets.iter().enumerate() {
        add_changeset(alloc, changelog, manifest, rev as u32, changeset, into)?;
    }
    Ok(())
}

// Adds a changeset that links to another than itself.
fn add_link(
    alloc: Global,
    changelog: &StorePath,
    rev: u32,
    entry: &Entry,
    into: &mut Vec<Finding>,
) -> Result<(), AllocError>
    ensures { OnOk result (findings_in into.new.items ≡ findings_in into.old.items ++ of_link changelog.now rev entry.now) }
{
    add_if(alloc, entry.link != rev, changelog, rev, 7, into)
}

/// Adds the changesets that link to another than themselves.
pub fn add_links(
    alloc: Global,
    changelog: &StorePath,
    reading: &Reading,
    into: &mut Vec<Finding>,
) -> Result<(), AllocError>
    ensures { OnOk result (findings_in into.new.items ≡ findings_in into.old.items ++ each_from (of_link changelog.now) 0 reading.now.log.entries) }
{
    for rev in 0..reading.log.len() {
        add_link(alloc, changelog, rev, reading.log.entry(rev), into)?;
    }
    Ok(())
}

// Adds a revision of the manifest whose text can't be read, or has a path that may not be tracked.
fn add_tree(
    alloc: Global,
    manifest: &StorePath,
    rev: u32,
    tree: &Option<Manifest>,
    into: &mut Vec<Finding>,
) -> Result<(), AllocError>
    ensures { OnOk result (findings_in into.new.items ≡ findings_in into.old.items ++ of_tree manifest.now rev tree.now) }
{
    add_if(alloc, !is_sound(tree), manifest, rev, 4, into)
}

/// Adds the revisions of the manifest whose texts can't be read, or have a path that may not be tracked.
pub fn add_trees(
    alloc: Global,
    manifest: &StorePath,
    trees: &[Option<Manifest>],
    into: &mut Vec<Finding>,
) -> Result<(), AllocError>
    requires { length trees.now < 2 ^ 32 }
    ensures { OnOk result (findings_in into.new.items ≡ findings_in into.old.items ++ each_from (of_tree manifest.now) 0 trees.now) }
{
    for (rev, tree) in trees.iter().enumerate() {
        add_tree(alloc, manifest, rev as u32, tree, into)?;
    }
    Ok(())
}

/// What is wrong with each revision of the manifest.
pub fn manifest_kinds(
    alloc: Global,
    manifest: &Reading,
    changesets: &[Changeset],
) -> Result<Vec<Kinds>, AllocError>
    ensures kinds { IfOk result (λ kinds. (s : Sight) → changesets.now ≡ map changeset_as (seen s) → AreKinds (sight.manifest_namings s) (parents_in manifest.now.log.entries) (links_in manifest.now.log.entries) kinds.items) }
    ensures few { IfOk result (λ kinds. length kinds.items < 2 ^ 32) }
{
    let namings = manifest_namings(alloc, changesets)?;
    if namings.len() >= MOST {
        return Err(AllocError);
    }
    let parents = manifest.parents(alloc)?;
    let links = manifest.links(alloc)?;
    let kinds = judge(alloc, &parents, &links, &namings)?;
    if kinds.len() >= MOST {
        return Err(AllocError);
    }
    Ok(kinds)
}
